//! What holds of stamps.
ghost use Rattle.hsr_timeline.specs.Stamps.{CausesFirst};

/// Each entry's stamp is after those of all that it follows: of the entry before it in its record, of the main worker's entry
/// before it, and of the entry that passed the copy with which it came.
pub fn causes_first()
    ensures { CausesFirst }
{}
