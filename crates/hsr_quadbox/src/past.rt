//! The law over any calls.
ghost use Rattle.hsr_quadbox.specs.Past.{AnswersAsPast};

/// Whatever arrives and is aged, in any order and at any moments, the answers of a QuadBox and its counters are those of
/// one that keeps its whole past: a wanted frame passes a port where no note has its source and number among the last
/// `C` of that port, as far as they are younger than the EntryForgetTime (IEC 62439-3 clause 5.3).
pub fn answers_as_past<const C: usize>()
    ensures { AnswersAsPast C }
{}
