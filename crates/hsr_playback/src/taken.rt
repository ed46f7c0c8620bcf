//! The numbers that the reference takes over.
ghost use Rattle.std.specs.Prelude.{◌≡◌, IfOk};
ghost use Rattle.hsr_playback.specs.Taken.{before, goes_on, jump_between, jump_at, jumps_from, last_at, last_of};

use hsr_frame::NoMemory;
use std::alloc::Global;

/// The number of a frame's first observed copy, and its supervision number, where there were such copies.
#[derive(Clone, Copy, Default, PartialEq, Eq)]
pub struct Taken {
    pub number: Option<u16>,
    pub life: Option<u16>,
}

/// A number that isn't the next after the last one that was observed: the next one, and that which was seen; the same of supervision
/// numbers.
#[derive(Clone, Copy, Default, PartialEq, Eq)]
pub struct Jump {
    pub number: Option<(u16, u16)>,
    pub life: Option<(u16, u16)>,
}

impl Jump {
    /// Whether both numbers were the next.
    pub fn goes_on(&self) -> bool
        ensures { result ≡ goes_on self.now }
    {
        self.number.is_none() && self.life.is_none()
    }
}

/// The next number, and that which was seen, where they differ.
fn jump_between(last: Option<u16>, seen: Option<u16>) -> Option<(u16, u16)>
    ensures { result ≡ jump_between last seen }
{
    let next = last?.wrapping_add(1);
    let seen = seen?;
    if next == seen {
        None
    } else {
        Some((next, seen))
    }
}

/// The number before one.
fn before(first: Option<u16>) -> Option<u16>
    ensures { result ≡ before first }
{
    match first {
        Some(first) => Some(first.wrapping_add(65535)),
        None => None,
    }
}

/// The last number, with one that may be there.
fn last_of(last: Option<u16>, seen: Option<u16>) -> Option<u16>
    ensures { result ≡ last_of last seen }
{
    match seen {
        Some(_) => seen,
        None => last,
    }
}

/// Where the numbers of an event didn't go on by one, behind the last ones.
fn jump_at(last: Taken, seen: Taken) -> Jump
    ensures { result ≡ jump_at last seen }
{
    Jump {
        number: jump_between(last.number, seen.number),
        life: jump_between(last.life, seen.life),
    }
}

/// The last numbers, with those of an event.
fn last_at(last: Taken, seen: Taken) -> Taken
    ensures { result ≡ last_at last seen }
{
    Taken {
        number: last_of(last.number, seen.number),
        life: last_of(last.life, seen.life),
    }
}

/// Where numbers didn't go on by one, of all events in their order; `start` and `life_start` are the first numbers, where they are known.
/// `NoMemory` where room is refused.
#[tactic(auto, using(crate::proofs::Jumping::jumps_all))]
pub fn jumps_of(
    alloc: Global,
    start: Option<u16>,
    life_start: Option<u16>,
    taken: &[Taken],
) -> Result<Vec<Jump>, NoMemory>
    ensures { IfOk result (λ jumps. jumps.items
        ≡ jumps_from (record { number = before start; life = before life_start }) taken.now) }
{
    let mut last = Taken {
        number: before(start),
        life: before(life_start),
    };
    let mut jumps = Vec::new(alloc);
    for seen in taken {
        jumps.push(jump_at(last, *seen))?;
        last = last_at(last, *seen);
    }
    Ok(jumps)
}
