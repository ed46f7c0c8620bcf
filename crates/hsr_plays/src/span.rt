//! The sends that a scenario asks for, and their spans.
use hsr_frame::Mac;

/// A send that a step asks for: of a node, from the address at an index among its own, with this destination and EtherType. A
/// supervision frame is one, from the node's first address.
#[derive(Clone, Copy, PartialEq, Eq)]
pub struct Asked {
    pub node: usize,
    pub from: u8,
    pub dst: Mac,
    pub kind: u16,
}

/// The span of a send: the index of its step, the moment of the world then, in microseconds, and the index of the step that ends the
/// span, or the number of all steps, if none does.
/// Copies of the send are under way between these two steps alone.
#[derive(Clone, Copy, PartialEq, Eq)]
pub struct SendSpan {
    pub asked: Asked,
    pub index: usize,
    pub moment: u64,
    pub end: usize,
}
