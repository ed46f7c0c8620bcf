//! The latency of a node, and those of a run.
ghost use Rattle.std.specs.Prelude.{◌≡◌};
ghost use Rattle.hsr_latency.specs.Kept.{worse};
ghost use Rattle.hsr_latency.specs.Latencies.{worst};

use crate::delay::Delay;

/// How long sends took to a node: how many arrivals went up there, the one of these that took longest, and the one that took longest
/// of the arrivals of a send of which another copy went up there. Of equals it is that of the lowest send.
#[derive(Clone, Copy, PartialEq, Eq)]
pub struct NodeLatency {
    pub node: usize,
    pub frames: usize,
    pub worst: Delay,
    pub second: Option<Delay>,
}

/// The latencies of a run's nodes, by node. A node where nothing went up has none.
#[derive(Drop)]
pub struct Latency {
    pub nodes: Vec<NodeLatency>,
}

/// The one whose slowest took longer, of equals the first.
fn worse(most: Option<NodeLatency>, latency: NodeLatency) -> Option<NodeLatency>
    ensures { result ≡ worse most latency }
{
    match most {
        None => Some(latency),
        Some(most) => {
            if most.worst.time < latency.worst.time {
                Some(latency)
            } else {
                Some(most)
            }
        }
    }
}

/// The one whose slowest took longest, of equals the first.
fn worst_of(latencies: &[NodeLatency]) -> Option<NodeLatency>
    ensures { result ≡ worst latencies.now }
{
    let mut most = None;
    for latency in latencies {
        most = worse(most, *latency);
    }
    most
}

impl Latency {
    /// The latency of the node to which a send took longest, of equals the first; none where nothing went up.
    pub fn worst(&self) -> Option<NodeLatency>
        ensures { result ≡ worst self.now.nodes.items }
    {
        worst_of(self.nodes.as_slice())
    }
}
