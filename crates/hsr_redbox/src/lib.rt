//! A RedBox: a node with one address between two ring ports and an interlink, behind which stations stand.
//!
//! Its modules, in the order in which to read them:
//! - `call`: what it is asked, and what it answers
//! - `wanted`: which egresses want a frame of the interlink, or of its own
//! - `marking`: the note of a frame that leaves without a look
//! - `redbox`: the node, its calls
//! - `past`: the law over any calls
#![tactic(auto)]

mod call;
mod marking;
mod past;
mod redbox;
mod wanted;

pub use call::{BoxPort, BoxSent, BoxVerdict, LifeFault};
pub use hsr_frame::About;
pub use past::answers_as_past;
pub use redbox::RedBox;
