//! With which tables the records of a run are legal.
ghost use Rattle.hsr_table_demand.specs.Needs.{LegalWithNeeded};

/// In a closed run where nothing that was needed was forgotten, and where each RedBox numbers a frame of its Station
/// once and before it hears of it, the same records are legal with tables of any other size, if these have as many
/// entries as were needed, and if the larger of both tables mistakes no number (IEC 62439-3 clause 5).
pub fn legal_with_needed()
    ensures { LegalWithNeeded }
{}
