//! What the egresses of a node remember.
ghost use Rattle.std.specs.Prelude.{◌≡◌, IfOk};
ghost use Rattle.hsr_duptable.specs.Table.{IsTableSize};

use crate::arrival::key_in;
use crate::judged::Judged;
use crate::slot::TableSlot;
use hsr_duptable::Key;
use hsr_frame::{Exits, FrameFault, NoMemory, Wants};
use hsr_tag::SeenView;
use std::alloc::Global;
use std::marker::Model;

/// The duplicate tables of a node's egresses, of `C` entries each, `C` from 1 to 65535 (IEC 62439-3 clause 5.3). An egress
/// that the node doesn't have has no table. Moments are in microseconds.
#[derive(Drop)]
pub struct EgressTables<const C: usize> {
    // One for each egress, so that a frame passes each of them once, whatever it passed elsewhere.
    up: TableSlot<C>,
    a: TableSlot<C>,
    b: TableSlot<C>,
    c: TableSlot<C>,
    d: TableSlot<C>,
}

impl<const C: usize> Model for EgressTables<C> {
    ghost use Rattle.hsr_forwarding.specs.Tables.{Notes};

    ghost Value = { Notes };

    ghost view = { λ t. record { there = record { up = t.up.there; a = t.a.there; b = t.b.there; c = t.c.there; d = t.d.there }; up = t.up.table; a = t.a.table; b = t.b.table; c = t.c.table; d = t.d.table } };
}

impl<const C: usize> EgressTables<C> {
    ghost use Rattle.std.specs.Prelude.{Result};
    ghost use Rattle.hsr_forwarding.specs.Tables.{AreEarlier, AreRoomy, after_passes, aged, among, judged, no_notes, passes_of};

    /// Tables that hold nothing, for these egresses. `NoMemory` if allocation fails.
    pub fn new(alloc: Global, egresses: Exits) -> Result<Self, NoMemory>
        requires { IsTableSize C }
        ensures { IfOk result (λ tables. tables ≡ no_notes egresses) }
    {
        let up = TableSlot::new(alloc, egresses.up)?;
        let a = TableSlot::new(alloc, egresses.a)?;
        let b = TableSlot::new(alloc, egresses.b)?;
        let c = TableSlot::new(alloc, egresses.c)?;
        let d = TableSlot::new(alloc, egresses.d)?;
        Ok(EgressTables { up, a, b, c, d })
    }

    /// Notes a frame at the egresses by which it leaves, without a look.
    pub fn mark(&mut self, exits: Exits, key: Key, now: u64)
        requires there { exits ≡ among exits self.old.there }
        requires earlier { AreEarlier self.old now }
        requires room { AreRoomy self.old }
        ensures { self.new ≡ after_passes C self.old exits key now }
    {
        self.up.mark(exits.up, key, now);
        self.a.mark(exits.a, key, now);
        self.b.mark(exits.b, key, now);
        self.c.mark(exits.c, key, now);
        self.d.mark(exits.d, key, now);
    }

    /// Passes a frame at the egresses that want it and don't remember it, and notes that.
    fn pass(&mut self, exits: Exits, key: Key, now: u64) -> Exits
        requires there { exits ≡ among exits self.old.there }
        requires earlier { AreEarlier self.old now }
        requires room { AreRoomy self.old }
        ensures passes { result ≡ passes_of self.old exits key now }
        ensures noted { self.new ≡ after_passes C self.old result key now }
    {
        // Only tables of egresses that want it are asked: two of five, mostly.
        let up = exits.up && self.up.pass(key, now);
        let a = exits.a && self.a.pass(key, now);
        let b = exits.b && self.b.pass(key, now);
        let c = exits.c && self.c.pass(key, now);
        let d = exits.d && self.d.pass(key, now);
        Exits { up, a, b, c, d }
    }

    /// Judges an arrival that some egresses want. A tagged frame passes those of them that don't remember it, and is noted
    /// there; what is no tagged frame is neither looked for nor noted.
    // Inline, so that the frame that was read needn't stand in memory.
    #[inline(always)]
    pub fn judge(
        &mut self,
        wants: Wants,
        seen: &Result<SeenView<'_>, FrameFault>,
        now: u64,
    ) -> Judged
        requires there { wants.exits ≡ among wants.exits self.old.there }
        requires earlier { AreEarlier self.old now }
        requires room { AreRoomy self.old }
        ensures { (result, self.new) ≡ judged C self.old wants seen.now now }
    {
        let passes = match key_in(seen) {
            Some(key) => self.pass(wants.exits, key, now),
            // What has no number is wanted nowhere at a port of a ring, so nothing passes here.
            None => wants.exits,
        };
        Judged::new(wants, passes)
    }

    /// Drops what is expired.
    pub fn age(&mut self, now: u64)
        requires { AreEarlier self.old now }
        ensures { self.new ≡ aged self.old now }
    {
        self.up.age(now);
        self.a.age(now);
        self.b.age(now);
        self.c.age(now);
        self.d.age(now);
    }
}
