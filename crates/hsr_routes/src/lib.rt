//! Which nodes of a topology a frame comes to over channels that aren't avoided; and whether nodes and links are a network.
//!
//! Its modules, in the order in which to read them:
//! - `addresses`: whether addresses are their owners' alone
//! - `sides`: whether links join what is alike
//! - `network`: what a network asks of nodes and links
//! - `channel`: a direction of a link, and its number
//! - `ends`: the ends of a link, by direction
//! - `starting`: the channels that start at each node
//! - `heading`: what the routes of a frame go by
//! - `follow`: which channels a frame takes on
//! - `front`: what a search has found
//! - `search`: the search for the channels that a frame takes
#![tactic(auto)]

mod addresses;
mod channel;
mod ends;
mod follow;
mod front;
mod heading;
mod network;
mod search;
mod sides;
mod starting;

pub use addresses::share_address;
pub use channel::Channel;
pub use ends::{from_end, to_end};
pub use follow::{lets_out, passes_on};
pub use heading::Heading;
pub use network::{are_going_round, first_unlike_link, have_own_addresses, is_in_h_or_u};
pub use search::Routes;
pub use sides::is_edge;
