//! The law over any calls.
ghost use Rattle.hsr_redbox.specs.Past.{AnswersAsPast};

/// Whatever is sent, told and arrives, and whenever notes are dropped, the answers of a RedBox are those of a machine that
/// keeps its whole past and filters it, and its counters, and the nodes and addresses that it knows, are those of that
/// past: a wanted frame of the ring passes an egress where no note has its source and number among the last `C` of that
/// egress, as far as they are younger than the EntryForgetTime (IEC 62439-3 clause 5.3).
pub fn answers_as_past<const C: usize>()
    ensures { AnswersAsPast C }
{}
