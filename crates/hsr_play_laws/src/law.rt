//! What holds at each moment of a play.
ghost use Rattle.hsr_play_laws.specs.Accepted.{AcceptsEach, FewSteps, HeardNow};
ghost use Rattle.hsr_play_laws.specs.Ending.{EndsWell};
ghost use Rattle.hsr_play_laws.specs.Running.{RunIsPlay};
ghost use Rattle.hsr_play_laws.specs.Told.{RemembersNow, TellsAll};
ghost use Rattle.hsr_plays.specs.Law.{EndsCertain, GoesOn, LostDown, MovesAreFew, NeverOverruns, NeverTwice};

/// At each moment of a play of a setup that is clear: the world's moment and its cuts are those of the steps that are done; each copy that
/// is under way is of a send that is open; each entry of a record has a time at which it was made, and where it is an arrival its send
/// was open then; what was lost of a send was lost on a link that is down in its span, and nothing by a full queue; and the moves are
/// those that rows and records tell.
pub fn tells_all()
    ensures { TellsAll }
{}

/// So nothing that is needed was forgotten so far: the spans of no more sends than a table has entries meet that of a send.
pub fn remembers_now()
    ensures { RemembersNow }
{}

/// No direction of a link carries a send twice.
pub fn never_twice()
    ensures { NeverTwice }
{}

/// No copy is lost by a full queue.
pub fn never_overruns()
    ensures { NeverOverruns }
{}

/// What was lost of a send was lost on a link that is down in its span.
pub fn lost_down()
    ensures { LostDown }
{}

/// At its end a play is a closed run of a network, with nothing under way, nothing that was needed forgotten and nothing numbered late, in
/// which each send is covered and reaches each node that it is due at.
pub fn ends_well()
    ensures { EndsWell }
{}

/// So each play ends certain: nothing was mistaken either, each node that a send is due at took it up once, and nothing else went up
/// anywhere.
pub fn ends_certain()
    ensures { EndsCertain }
{}

/// And it comes to an end: each send is put, taken and judged at most once in each direction of each link.
pub fn moves_are_few()
    ensures { MovesAreFew }
{}

/// So a node has had fewer steps than it refuses for their number.
pub fn few_steps()
    ensures { FewSteps }
{}

/// Where the step that comes next has a RedBox speak for an address at its interlink, the RedBox knows that: the first copy of a
/// send from there came to it in the span of that send, less than 60 seconds ago.
pub fn heard_now()
    ensures { HeardNow }
{}

/// No step is refused, where a Station has no more addresses than its type has room for.
pub fn never_refused()
    ensures { AcceptsEach }
{}

/// Nor does it get stuck: where something is under way some move is done. Each outbox and each hand has its port, and a node has had fewer
/// steps than it refuses for their number.
pub fn goes_on()
    ensures { GoesOn }
{}

/// What `run` does of a scenario is one of its plays: a drain moves what is left, one copy after another, until nothing is under way.
pub fn run_is_play()
    ensures { RunIsPlay }
{}
