//! What tells numbers apart.
ghost use Rattle.hsr_number_laws.specs.Counted.{CountedTells};

/// In a closed run of a network, where each RedBox numbered first, and where no node numbered more frames than there are numbers, its
/// own and those of its Station together, no number is mistaken: what is remembered with the source and number of an arrival is of its
/// send (IEC 62439-3 clause 5).
pub fn counted_tells()
    ensures { CountedTells }
{}
