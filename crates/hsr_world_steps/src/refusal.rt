//! Why a step is refused or a drain doesn't end, as a word.
use crate::step::{DrainFault, WorldFault};
use std::fmt;

impl fmt::Display for WorldFault {
    ghost use Rattle.std.specs.Prelude.{Some};
    ghost use Rattle.hsr_world_steps.specs.Refusal.{world_word};

    ghost output = { λ fault. Some (world_word fault) };

    fn fmt<W: fmt::Write>(&self, f: &mut fmt::Formatter<W>) -> fmt::Result {
        match self {
            // No scenario reaches the first three, nor `memory`: a fault's line has a word for each all the same.
            WorldFault::NoSuchNode => write!(f, "no-such-node"),
            WorldFault::NoSuchLink => write!(f, "no-such-link"),
            WorldFault::NoSuchPort => write!(f, "no-such-port"),
            WorldFault::Busy => write!(f, "busy"),
            WorldFault::Nothing => write!(f, "nothing"),
            WorldFault::TooLong => write!(f, "too-long"),
            WorldFault::Node(fault) => write!(f, "{fault}"),
            WorldFault::NoMemory => write!(f, "memory"),
        }
    }
}

impl fmt::Display for DrainFault {
    ghost use Rattle.std.specs.Prelude.{Some};
    ghost use Rattle.hsr_world_steps.specs.Refusal.{drain_word};

    ghost output = { λ fault. Some (drain_word fault) };

    fn fmt<W: fmt::Write>(&self, f: &mut fmt::Formatter<W>) -> fmt::Result {
        match self {
            DrainFault::Unsettled => write!(f, "unsettled"),
            DrainFault::World(fault) => write!(f, "{fault}"),
        }
    }
}
