//! All that a run has left.
use crate::planned::Planned;
use hsr_link::Row;
use hsr_node::Kept;
use hsr_topology::Topology;

/// All that a run has left: its nodes and links, what the main worker was to bring about, the records of the nodes and the
/// rows of the links.
#[derive(Drop)]
pub struct Records<const C: usize> {
    pub topology: Topology,
    pub plan: Vec<Planned>,
    pub kept: Vec<Kept<C>>,
    pub rows: Vec<Vec<Row>>,
}
