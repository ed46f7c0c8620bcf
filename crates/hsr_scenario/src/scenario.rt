//! Scenarios.
ghost use Rattle.std.specs.Prelude.{◌≤◌};

use crate::steps::Order;
use hsr_topology::Topology;

/// What a bench is made of, and what it does.
#[derive(Drop)]
pub struct Scenario {
    pub topology: Topology,
    /// How many copies wait in each direction of a link, 1 to 4096.
    pub capacity: usize,
    pub steps: Vec<Order>,
    pub ghost some: { 1 ≤ capacity },
    pub ghost most: { capacity ≤ 4096 },
}
