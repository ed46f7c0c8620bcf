//! Why a plan means nothing, once its copies move.
ghost use Rattle.std.specs.Prelude.{◌≡◌};

use hsr_frame::NoMemory;
use hsr_plan_text::PlanFault;
use std::alloc::{AllocError, AllocFailed};

/// Why a plan means nothing.
#[derive(Drop)]
pub enum Unmoved {
    /// The plan itself means nothing.
    Plan(PlanFault),
    /// Copies are still on their way after this number of orders.
    Endless(usize),
    /// Copies can't be moved by hops or wires: what comes next can't be done, or what is done doesn't end as it has to.
    Differs,
    /// Allocation failed.
    Memory,
}

impl From<NoMemory> for Unmoved {
    ghost use Rattle.hsr_plan_hops.specs.declared.unmoved.Unmoved.TheVariants.{Memory};

    ghost from_gives = { λ _ f. f ≡ Memory };

    fn from(_refused: NoMemory) -> Unmoved {
        Unmoved::Memory
    }
}

impl From<AllocError> for Unmoved {
    ghost use Rattle.hsr_plan_hops.specs.declared.unmoved.Unmoved.TheVariants.{Memory};

    ghost from_gives = { λ _ f. f ≡ Memory };

    fn from(_refused: AllocError) -> Unmoved {
        Unmoved::Memory
    }
}

impl<T: Drop> From<AllocFailed<T>> for Unmoved {
    ghost use Rattle.hsr_plan_hops.specs.declared.unmoved.Unmoved.TheVariants.{Memory};

    ghost from_gives = { λ _ f. f ≡ Memory };

    fn from(_refused: AllocFailed<T>) -> Unmoved {
        Unmoved::Memory
    }
}
