//! What holds of every world.
//!
//! Each law is a function with no body: its clause is the statement, of which nothing is done when it is called.
ghost use Rattle.hsr_world_laws.specs.Closing.{AlwaysCloses, AlwaysFinishes, AlwaysNumberedFirst, AlwaysOfSend, AlwaysPlaced, AlwaysPlanned, OnlyQuietCloses, StepPlaced};
ghost use Rattle.hsr_world_laws.specs.Fitting.{AlwaysFrames, FitFrames};
ghost use Rattle.hsr_world_laws.specs.Law.{AlwaysSound, FirstSound};
ghost use Rattle.hsr_world_laws.specs.Origin.{AlwaysOrigins, AlwaysSent};

/// Whatever steps are done in a world that is sound, it stays sound. Then each record is legal: each outcome in it is what
/// the entries before it answer. And the links agree with the records, each copy as often: what a record lets leave by a
/// port was put on the port's link or waits in its outbox, and what was taken from the link came to the port at the other
/// end or is in its hand. A refused step changes nothing.
pub fn always_sound()
    ensures { AlwaysSound }
{}

/// A world in which nothing was done yet is sound, where its nodes and links are a topology.
pub fn first_sound()
    ensures { FirstSound }
{}

/// Whatever steps are done in a world that is sound, the origins of its copies stay told: each copy on a link, in an outbox
/// or in a hand, and each that came to a node, names by its probe an entry that is a send, or it has no probe, and
/// something was injected.
pub fn always_origins()
    ensures { AlwaysOrigins }
{}

/// Whatever steps are done from the first world on, where no octets were injected each copy on a link, in an outbox or in a
/// hand, and each that came to a node, names by its probe an entry of a record that is a send.
pub fn always_sent()
    ensures { AlwaysSent }
{}

/// Whatever steps are done from the first world of a topology on, where no octets were injected each copy on a link, in an
/// outbox or in a hand, and each that came to a node, has the addresses, the VLAN, the type and the payload of the send that
/// its probe names. A tagged copy has that send's number, or for a send of a Station the number that the RedBox at its link
/// gave it first. Each send's frame must be one that octets spell, with addresses of six octets and 16 bits of VLAN and type.
pub fn always_of_send()
    ensures { AlwaysOfSend }
{}

/// In the same worlds a RedBox numbers a send of its Station once, and before anything tagged of it comes: the number that it
/// gives is the send's from then on, and nothing of the send was noted at the RedBox before.
pub fn always_numbered_first()
    ensures { AlwaysNumberedFirst }
{}

/// Such a world in which nothing is under way, so that each outbox and each hand is empty and no copy waits on a link, and whose
/// tables have 1 to 65535 entries, is a closed run: its nodes' records, its links' rows and its sends agree.
pub fn always_closes()
    ensures { AlwaysCloses }
{}

/// No other world is a closed run: where something is under way, or octets were injected, its run isn't closed.
pub fn only_quiet_closes()
    ensures { OnlyQuietCloses }
{}

/// Whatever steps are done from the first world on, the plan is what the records tell of the main worker: for each node the
/// same sends, supervisions and ages, with their moments, in the same order.
pub fn always_planned()
    ensures { AlwaysPlanned }
{}

/// So a world of a topology, with such tables, without injected octets and with nothing under way, is a finished run with its
/// plan.
pub fn always_finishes()
    ensures { AlwaysFinishes }
{}

/// Whatever steps are done in a world, its nodes stand where they stood, and there are as many nodes and links.
pub fn always_placed()
    ensures { AlwaysPlaced }
{}

/// The same of one step that is done.
pub fn step_placed()
    ensures { StepPlaced }
{}

/// Where the addresses of nodes and of sends have six octets, and VLAN tags and types 16 bits, each send in the records is a
/// frame that octets spell.
pub fn fit_frames()
    ensures { FitFrames }
{}

/// The same of nodes and steps: whichever of them are done from the first world on.
pub fn always_frames()
    ensures { AlwaysFrames }
{}
