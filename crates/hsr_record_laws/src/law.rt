//! What holds of the record of one node.
ghost use Rattle.hsr_record_laws.specs.Few.{FewSinceKeep};
ghost use Rattle.hsr_record_laws.specs.Leaves.{LeavesOnce};
ghost use Rattle.hsr_record_laws.specs.Rivals.{RivalsKeep};

/// Let each arrival in a record of a node have rivals: no more sends than a table has entries, so that at each egress the notes from
/// the first one of the arrival's send on are of these, and less than 400 milliseconds old. Then nothing that was needed was forgotten.
/// The run need not be closed: each outcome is what the past answers, what came is of sends, and a RedBox numbered first.
pub fn rivals_keep()
    ensures { RivalsKeep }
{}

/// The same with no list of sends: at each egress the notes from the first one of the arrival's send on are no more than a table has
/// entries, and less than 400 milliseconds old. That may be shown of notes among which no send is noted twice.
pub fn few_since_keep()
    ensures { FewSinceKeep }
{}

/// In such a record, where nothing that was needed was forgotten, no more than one copy of a send left by a port.
pub fn leaves_once()
    ensures { LeavesOnce }
{}
