//! All that a run is checked by.
use crate::planned::Planned;
use hsr_link::Row;
use hsr_node::{Kept, Pass};
use hsr_topology::Topology;

/// All that was handed to `Closed::check`: the nodes and links, what the main worker was to bring about, the records of
/// the nodes, the rows of the links, and what the workers were answered.
#[derive(Drop)]
pub struct Parts<const C: usize> {
    pub topology: Topology,
    pub plan: Vec<Planned>,
    pub kept: Vec<Kept<C>>,
    pub rows: Vec<Vec<Row>>,
    pub passes: Vec<Pass>,
}
