//! A place for each of some numbers, by an index.
ghost use Rattle.std.specs.Prelude.{◌≡◌, ℕ, if◌then◌else◌, nat_eq, OnOk, OnErr};
ghost use Rattle.hsr_run_index.specs.Turns.{place_at};

use hsr_frame::NoMemory;
use indexmap::IndexMap;
use std::alloc::Global;
use std::marker::Model;

/// A place for each of some numbers, as for workers or nodes; 0 for those that were given none.
#[derive(Drop)]
pub struct Places {
    places: IndexMap<usize, usize>,
}

impl Model for Places {
    ghost use Rattle.std.specs.Prelude.{ℕ, List};

    ghost Value = { List (ℕ × ℕ) };

    ghost view = { λ p. p.places.entries };
}

impl Places {
    /// None is given so far.
    pub fn new(alloc: Global) -> Places
        ensures { (number : ℕ) → place_at result number ≡ 0 }
    {
        Places {
            places: IndexMap::new(alloc),
        }
    }

    /// The place of a number.
    pub fn at(&self, number: usize) -> usize
        ensures { result ≡ place_at self.now number }
    {
        self.places.get(&number).copied().unwrap_or(0)
    }

    /// Gives a number a place, in place of the one that it had. `NoMemory` if allocation fails: then nothing changes.
    pub fn put(&mut self, number: usize, place: usize) -> Result<(), NoMemory>
        ensures ok { OnOk result ((other : ℕ) → place_at self.new other
            ≡ (if nat_eq number other then place else place_at self.old other)) }
        ensures err { OnErr result (self.new ≡ self.old) }
    {
        match self.places.insert(number, place) {
            Ok(_) => Ok(()),
            Err(_) => Err(NoMemory),
        }
    }
}
