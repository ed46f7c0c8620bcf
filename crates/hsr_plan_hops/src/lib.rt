//! What a plan means once its copies move: as its orders tell, or by hops or wires, of which the run is played while its orders are written.
//!
//! Its modules, in the order in which to read them:
//! - `turns`: what comes next among orders
//! - `flights`: copies on their way, channel by channel
//! - `arrivals`: when copies come to their ends, and which of them is next
//! - `unmoved`: why a plan means nothing, once its copies move
//! - `stage`: how far what is told is done
//! - `weaving`: the orders that do what is told, one after another
//! - `advancing`: what comes next, done until nothing is left to do
//! - `wires`: how the copies of a finished run went over their wires
//! - `timing`: when the copies of a finished run were judged
//! - `moving`: what a plan means once its copies move
#![tactic(auto)]

mod advancing;
mod arrivals;
mod flights;
mod moving;
mod stage;
mod timing;
mod turns;
mod unmoved;
mod weaving;
mod wires;

pub use moving::moved_meaning_of;
pub use unmoved::Unmoved;
