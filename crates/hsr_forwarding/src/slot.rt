//! What one egress of a node remembers, if the node has it.
ghost use Rattle.std.specs.Prelude.{◌≡◌, ◌≤◌, ◌<◌, ◌&&◌, not, true, IfOk};
ghost use Rattle.hsr_frame.specs.Counters.{step_limit};
ghost use Rattle.hsr_duptable.specs.Table.{IsTableSize};

use hsr_duptable::{DupTable, ENTRY_FORGET, Key};
use hsr_frame::NoMemory;
use std::alloc::Global;
use std::marker::Model;

/// The slot for an egress's duplicate table of `C` entries.
#[derive(Drop)]
pub(crate) struct TableSlot<const C: usize> {
    table: Option<DupTable<C>>,
}

impl<const C: usize> Model for TableSlot<C> {
    ghost use Rattle.std.specs.Prelude.{is_some};
    ghost use Rattle.hsr_forwarding.specs.Tables.{Slot, table_held};

    ghost Value = { Slot };

    ghost view = { λ s. record { there = is_some s.table; table = table_held s.table } };
}

impl<const C: usize> TableSlot<C> {
    ghost use Rattle.hsr_duptable.specs.Table.{after_pass, remembers};
    ghost use Rattle.hsr_forwarding.specs.Tables.{age_if, empty_slot};

    /// A table that holds nothing, if the egress is there.
    pub(crate) fn new(alloc: Global, is_there: bool) -> Result<Self, NoMemory>
        requires { IsTableSize C }
        ensures { IfOk result (λ slot. slot ≡ empty_slot is_there) }
    {
        // An egress that isn't there takes no memory: a DANH has three of the five.
        if !is_there {
            return Ok(TableSlot { table: None });
        }
        let table = DupTable::new(alloc, ENTRY_FORGET)?;
        Ok(TableSlot { table: Some(table) })
    }

    /// Notes a frame that passes, without a look.
    pub(crate) fn mark(&mut self, passes: bool, key: Key, now: u64)
        requires there { passes ≡ (passes && self.old.there) }
        requires later { self.old.table.last ≤ now }
        requires room { self.old.table.noted < step_limit }
        ensures { self.new
            ≡ record self.old { table = after_pass C self.old.table passes key now } }
    {
        if let Some(table) = &mut self.table {
            table.mark(passes, key, now);
        }
    }

    /// Whether a frame that is wanted here passes: where it isn't remembered. Then it is noted.
    pub(crate) fn pass(&mut self, key: Key, now: u64) -> bool
        requires there { self.old.there ≡ true }
        requires later { self.old.table.last ≤ now }
        requires room { self.old.table.noted < step_limit }
        ensures passes { result ≡ not (remembers self.old.table key now) }
        ensures noted { self.new
            ≡ record self.old { table = after_pass C self.old.table result key now } }
    {
        match &mut self.table {
            Some(table) => table.pass(true, key, now),
            // Never so: what is wanted is among the egresses that are there.
            None => false,
        }
    }

    /// Drops what is expired.
    pub(crate) fn age(&mut self, now: u64)
        requires { self.old.table.last ≤ now }
        ensures { self.new ≡ record self.old { table = age_if self.old.there self.old.table now } }
    {
        if let Some(table) = &mut self.table {
            table.age(now);
        }
    }
}
