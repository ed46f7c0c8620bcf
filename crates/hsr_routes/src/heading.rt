//! What the routes of a frame go by.
use hsr_frame::Mac;

/// The node that sends a frame, and the frame's destination and EtherType: its routes go by nothing else.
#[derive(Clone, Copy, PartialEq, Eq)]
pub struct Heading {
    pub sender: usize,
    pub dst: Mac,
    pub kind: u16,
}
