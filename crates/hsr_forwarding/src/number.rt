//! The numbers of a node's own frames.

/// The numbers of frames, and those of supervision frames, begin anew after this many: each has 16 bits in a frame (IEC
/// 62439-3 clauses 5.6 and 5.7).
pub const NUMBER_RANGE: u64 = 65536;
