//! The previous thing with the same key.
ghost use Rattle.std.specs.Prelude.{◌≡◌, ℕ, ◌+◌, ◌≤◌, ◌∷◌, List, slice_get, IfOk, OnOk, Some};
ghost use Rattle.hsr_recent_table.specs.Recent.{Knows, Put, horizon_of, moment_of};
ghost use Rattle.hsr_recent_table.specs.Previous.{AreInTime, IsPreviousOf};
ghost use Rattle.hsr_recent_table.specs.declared.previous.Keyed.{Keyed};
ghost use Rattle.hsr_recent_table.specs.Ready.{HaveCome, IsReady, latest_of, put_for};

use crate::table::RecentTable;
use hsr_frame::NoMemory;
use std::alloc::Global;

/// A thing with a moment and a key.
#[derive(Clone, Copy, PartialEq, Eq)]
pub struct Keyed {
    pub at: u64,
    pub key: u64,
}

/// The index of the previous thing with a key, by a table of those before an index.
fn previous_in(table: &RecentTable, key: u64) -> Option<u32>
    ensures { (horizon i at : ℕ) (things : List Keyed) (puts : List Put)
        → IsReady horizon things table.now i puts → moment_of table.now ≤ at
        → IsPreviousOf horizon things i (record { at = at; key = key }) result }
{
    table.get(key)
}

/// Puts a thing, by its index.
fn put_thing(alloc: Global, table: &mut RecentTable, thing: Keyed, i: u32) -> Result<(), NoMemory>
    requires { moment_of table.old ≤ thing.at }
    ensures knows { OnOk result ((puts : List Put) → Knows table.old puts
        → Knows table.new (put_for thing i ∷ puts)) }
    ensures moment { moment_of table.new ≡ thing.at }
    ensures horizon { horizon_of table.new ≡ horizon_of table.old }
{
    table.put(alloc, thing.at, thing.key, i)?;
    Ok(())
}

/// The things so far, in the order of time, by a table that keeps no more than those of two horizons.
#[derive(Drop)]
pub struct Previous {
    table: RecentTable,
}

impl Previous {
    /// Nothing came yet.
    pub fn new(alloc: Global, horizon: u64) -> Previous
        ensures { (things : List Keyed) → HaveCome horizon things 0 result }
    {
        Previous {
            table: RecentTable::new(alloc, horizon),
        }
    }

    /// The index of the previous thing with the key of one that comes, whose index is told. None where there is none, or where it is as old
    /// as the horizon says, or older. `NoMemory` where room is refused.
    pub fn next(&mut self, alloc: Global, thing: Keyed, i: u32) -> Result<Option<u32>, NoMemory>
        requires { latest_of self.old ≤ thing.at }
        ensures found { IfOk result (λ found. (horizon : ℕ) (things : List Keyed) → HaveCome horizon things i self.old → IsPreviousOf horizon things i thing found) }
        ensures come { OnOk result ((horizon : ℕ) (things : List Keyed) → AreInTime things → slice_get things i ≡ Some thing → HaveCome horizon things i self.old
            → HaveCome horizon things (i + 1) self.new) }
    {
        let previous = previous_in(&self.table, thing.key);
        put_thing(alloc, &mut self.table, thing, i)?;
        Ok(previous)
    }
}
