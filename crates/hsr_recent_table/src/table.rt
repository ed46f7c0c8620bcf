//! A table of what was put into it lately.
ghost use Rattle.std.specs.Prelude.{◌≡◌, ◌+◌, ◌≤◌, ◌∷◌, [], List, IfNone, IfSome, OnOk, Some, option_map};
ghost use Rattle.hsr_recent_table.specs.Recent.{Knows, Put, horizon_of, latest, moment_of, value_of};

use hsr_frame::NoMemory;
use std::alloc::Global;
use std::collections::HashMap;
use std::mem;

/// Values by key, each with the moment at which it was put. A value is found for as long as the table's horizon says; later it may be
/// forgotten. The table keeps at most what was put in two such times, and one value of each key.
#[derive(Drop)]
pub struct RecentTable {
    newer: HashMap<u64, u32>,
    older: HashMap<u64, u32>,
    since: u64,
    moment: u64,
    horizon: u64,
}

impl RecentTable {
    /// A table into which nothing was put, which keeps each value for at least so long.
    pub fn new(alloc: Global, horizon: u64) -> RecentTable
        ensures knows { Knows result [] }
        ensures horizon { horizon_of result ≡ horizon }
        ensures moment { moment_of result ≡ 0 }
    {
        RecentTable {
            newer: HashMap::new(alloc),
            older: HashMap::new(alloc),
            since: 0,
            moment: 0,
            horizon,
        }
    }

    /// The value that was put last with a key; none where there is none, or where it was put longer before the latest moment than the
    /// horizon says.
    pub fn get(&self, key: u64) -> Option<u32>
        ensures found { (puts : List Put) → Knows self.now puts → IfSome result (λ value. option_map value_of (latest key puts) ≡ Some value) }
        ensures missing { (puts : List Put) → Knows self.now puts → IfNone result (IfSome (latest key puts) (λ put. put.at + horizon_of self.now ≤ moment_of self.now)) }
    {
        match self.newer.get(&key) {
            Some(value) => Some(*value),
            None => self.older.get(&key).copied(),
        }
    }

    /// Lets go of what was put before the last turn, once the horizon has passed since.
    #[tactic(auto, using(crate::proofs::Knowing::later_table, crate::proofs::Knowing::turned_table))]
    fn turn(&mut self, alloc: Global, at: u64)
        requires { moment_of self.old ≤ at }
        ensures knows { (puts : List Put) → Knows self.old puts → Knows self.new puts }
        ensures moment { moment_of self.new ≡ at }
        ensures horizon { horizon_of self.new ≡ horizon_of self.old }
    {
        if at.saturating_sub(self.since) >= self.horizon {
            self.older = mem::replace(&mut self.newer, HashMap::new(alloc));
            self.since = at;
        }
        self.moment = at;
    }

    /// Puts a value, at a moment that is none before the latest.
    #[tactic(auto, using(crate::proofs::Knowing::put_table))]
    pub fn put(&mut self, alloc: Global, at: u64, key: u64, value: u32) -> Result<(), NoMemory>
        requires { moment_of self.old ≤ at }
        ensures knows { OnOk result ((puts : List Put) → Knows self.old puts → Knows self.new (record { at = at; key = key; value = value } ∷ puts)) }
        ensures moment { moment_of self.new ≡ at }
        ensures horizon { horizon_of self.new ≡ horizon_of self.old }
    {
        self.turn(alloc, at);
        self.newer.insert(key, value)?;
        Ok(())
    }
}
