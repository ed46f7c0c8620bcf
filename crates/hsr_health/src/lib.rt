//! The health of a ring, as a capture shows it: all numbers of a report, and the reasons for doubt.
//!
//! Its modules, in the order in which to read them:
//! - `sources`: who sent frames
//! - `marks`: what is counted of a copy
//! - `counts`: what is counted of each source
//! - `directions`: what is told of points and of directions
//! - `ledger`: the numbers of sources: gaps and restarts
//! - `broken`: when group frames came one way alone
//! - `load`: how much came at an interface
//! - `by_key`: numbers counted by what they are
//! - `kinds`: packets that are no copies, by kind, and frames by VLAN
//! - `reason`: a reason for doubt
//! - `copy_reasons`: the reasons that count copies
//! - `whole_reasons`: those that speak of the whole capture, and of sources that are absent
//! - `point_reasons`: those that speak of points
//! - `source_reasons`: those that speak of sources and their numbers, and of how many frames come at once
//! - `silent_reason`: the one that counts silences
//! - `stray_reasons`: those that count packets which are no copies
//! - `order`: which of them comes first
//! - `asked`: what is asked of a capture
//! - `traffic`: what came by its taps, and when
//! - `contents`: what copies tell by their payloads
//! - `gathered`: what is told of a capture by the octets of its packets
//! - `framed`: what copies tell of one another as copies of frames
//! - `devices`: what supervision and the numbers of frames tell of sources
//! - `seen`: what copies tell of one another
//! - `known`: what sources and their supervision tell
//! - `measured`: what is told of points and of directions
//! - `findings`: all that is told of copies, but the reasons
//! - `all_reasons`: all reasons that hold
//! - `settled`: the reasons in their order, and what else is told behind copies
//! - `health`: the whole
#![tactic(auto)]

mod all_reasons;
mod asked;
mod broken;
mod by_key;
mod contents;
mod copy_reasons;
mod counts;
mod devices;
mod directions;
mod findings;
mod framed;
mod gathered;
mod health;
mod kinds;
mod known;
mod ledger;
mod load;
mod marks;
mod measured;
mod order;
mod point_reasons;
mod reason;
mod seen;
mod settled;
mod silent_reason;
mod source_reasons;
mod sources;
mod stray_reasons;
mod traffic;
mod whole_reasons;

pub use asked::Asked;
pub use broken::{Span, is_thin};
pub use counts::{Counts, Fates};
pub use directions::{DirectionNumbers, PointNumbers};
pub use gathered::{Gathered, gathered_of};
pub use health::{Health, HealthFault, health_of};
pub use kinds::{MalformedKind, UntaggedKind, VlanKind};
pub use ledger::GroupNumbers;
pub use load::Load;
pub use reason::{Reason, Spot, What, Word};
pub use sources::MOST_SOURCES;
pub use traffic::Outline;
