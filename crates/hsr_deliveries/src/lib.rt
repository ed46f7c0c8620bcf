//! Who got what in a finished run, whatever its nodes and links: for each send the nodes that it was due at, which of them
//! missed it or took it up twice, which others took it up, and where copies of it were lost.
//!
//! Its modules, in the order in which to read them:
//! - `loss`: a lost copy
//! - `delivery`: what is told of a send
//! - `due`: the nodes that a send is due at
//! - `tally`: how often a node took each send up
//! - `losses`: the lost copies of each send
//! - `law`: what holds of deliveries where a ring delivered each frame exactly once
//! - `delivering`: the deliveries of a run, its call
#![tactic(auto)]

mod delivering;
mod delivery;
mod due;
mod law;
mod loss;
mod losses;
mod tally;

pub use delivering::deliveries;
pub use delivery::{Deliveries, Delivery};
pub use due::is_due;
pub use law::once_is_complete;
pub use loss::Loss;
pub use losses::Losses;
pub use tally::{Tally, taken_up};

// Named here too for who lists what was delivered.
pub use hsr_finished_run::push_if;
