//! A finished run along time: when each entry took place, which entry passed each copy and which judged it, the rows in order, all or
//! those of a link or a send; and the names by which texts call nodes and ports.
//!
//! Its modules, in the order in which to read them:
//! - `origin`: an entry's place, its own moment, and what it follows
//! - `stamp`: a moment and a step
//! - `front`: stamps as far as they are known
//! - `timing`: the stamps of all entries, its call
//! - `law`: what holds of stamps
//! - `naming`: the names of nodes and of their ports, put into texts
//! - `calling`: the node that a word names
//! - `hop`: a hop
//! - `partners`: which of some copies is which of others, by a map
//! - `copies`: what the entries of a record passed, and what they let in
//! - `walk`: which entry passed the copy of each row, by a walk over both
//! - `hopping`: the hops of a run, its calls
//! - `shown`: a row in that order
//! - `pairs`: effects with their causes, by an index
//! - `mains`: the main worker's entries, each with the one before
//! - `origins`: of each entry, its moment and what it follows
//! - `telling`: the rows in order, its call
//! - `choice`: which rows are wanted
//! - `choosing`: these rows, its calls
#![tactic(auto)]

mod calling;
mod choice;
mod choosing;
mod copies;
mod front;
mod hop;
mod hopping;
mod law;
mod mains;
mod naming;
mod origin;
mod origins;
mod pairs;
mod partners;
mod shown;
mod stamp;
mod telling;
mod timing;
mod walk;

pub use calling::node_called;
pub use choice::{Choice, ChoiceFault};
pub use choosing::{check_choice, chosen, is_wanted};
pub use front::stamp_at;
pub use hop::Hop;
pub use hopping::{hops, link_hops, passed_places};
pub use law::causes_first;
pub use naming::{put_letter, put_name, put_port};
pub use origin::{Origin, Spot};
pub use shown::Shown;
pub use stamp::Stamp;
pub use telling::{StoryFault, entry_stamps, story};
pub use timing::{OrderFault, stamps};
