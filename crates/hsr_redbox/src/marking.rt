//! The note of a frame that leaves without a look.
ghost use Rattle.std.specs.Prelude.{◌≡◌};
ghost use Rattle.hsr_forwarding.specs.Tables.{AreEarlier, AreRoomy, among};
ghost use Rattle.hsr_redbox.specs.Step.{after_marks};

use hsr_duptable::Key;
use hsr_forwarding::EgressTables;
use hsr_frame::{Exits, Mac};

/// Notes a frame that leaves by these egresses at a moment in microseconds, if it has a number for its source.
pub fn mark_numbered<const C: usize>(
    tables: &mut EgressTables<C>,
    exits: Exits,
    source: Option<Mac>,
    seq: u16,
    now: u64,
)
    requires there { exits ≡ among exits tables.old.there }
    requires earlier { AreEarlier tables.old now }
    requires room { AreRoomy tables.old }
    ensures { tables.new ≡ after_marks C tables.old exits source seq now }
{
    if let Some(src) = source {
        tables.mark(exits, Key { src, seq }, now);
    }
}
