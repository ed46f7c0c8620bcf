//! Where a ring or a row of nodes begins, and where it goes on.
ghost use Rattle.std.specs.Prelude.{◌≡◌, ◌<◌, length, slice_index_or, true, false, IfSome, Some};
ghost use Rattle.hsr_diagram.specs.Panels.{IsLaneFrom, IsLaneOf, turned};

use crate::panel::Lane;
use hsr_node::Place;
use hsr_topology::{End, Topology};

/// The port by which a copy leaves that came in by a port and stays on its ring, if it is on one.
fn other_port(place: &Place, port: u8) -> Option<u8> {
    match (place, port) {
        (Place::Station { .. }, _) => None,
        (_, 0) => Some(1),
        (_, 1) => Some(0),
        (Place::QuadBox, 2) => Some(3),
        (Place::QuadBox, 3) => Some(2),
        _ => None,
    }
}

/// The lane that begins at a port, if a link leads on there.
fn lane_at(topology: &Topology, end: End) -> Option<Lane>
    ensures { IfSome result (λ lane. IsLaneFrom topology.now.links end.node lane) }
{
    let (link, is_first) = topology.link_at(end)?;
    let [a, b] = *topology.links().get(link)?;
    let (left, right) = if is_first { (a, b) } else { (b, a) };
    if left.node == end.node {
        Some(Lane { link, left, right })
    } else {
        None
    }
}

/// The lane that goes on from the right end of another, if one does.
fn lane_behind(topology: &Topology, lane: Lane) -> Option<Lane>
    ensures { IfSome result (λ next. IsLaneFrom topology.now.links lane.right.node next) }
{
    let End { node, port } = lane.right;
    let place = topology.places().get(node)?;
    let port = other_port(place, port)?;
    lane_at(topology, End { node, port })
}

/// The lane that goes on from another, if its link is still free.
pub(crate) fn free_behind(topology: &Topology, free: &[bool], lane: Lane) -> Option<Lane>
    ensures lane { IfSome result (λ next. IsLaneFrom topology.now.links lane.right.node next) }
    ensures free { IfSome result (λ next. slice_index_or free.now next.link false ≡ true) }
{
    let next = lane_behind(topology, lane)?;
    match free.get(next.link) {
        Some(true) => Some(next),
        _ => None,
    }
}

/// A lane looked at from the other side.
fn turned(lane: Lane) -> Lane
    ensures { result ≡ turned lane }
{
    Lane {
        link: lane.link,
        left: lane.right,
        right: lane.left,
    }
}

/// The lane of a link with which a picture begins that shows the link: the one at the end of its row of nodes, or in a ring
/// the link's own, with the port that sends on, B or D, at the left.
fn beginning(topology: &Topology, lane: Lane) -> Lane
    requires { IsLaneOf topology.now.links lane }
    ensures { IsLaneOf topology.now.links result }
{
    // B has the number 1 and D 3.
    let lane = if lane.left.port % 2 == 1 {
        lane
    } else {
        turned(lane)
    };
    let mut at = turned(lane);
    // To the left, by lanes that are looked at from the other side. No row has more lanes than there are links.
    for _ in topology.links() {
        match lane_behind(topology, at) {
            Some(next) if next.link == lane.link => return lane,
            Some(next) => at = next,
            None => return turned(at),
        }
    }
    lane
}

/// A lane with which a panel begins that shows a free link.
pub(crate) fn first_lane(topology: &Topology, free: &[bool], link: usize) -> Lane
    requires below { link < length topology.now.links }
    requires free { slice_index_or free.now link false ≡ true }
    ensures lane { IsLaneOf topology.now.links result }
    ensures free { slice_index_or free.now result.link false ≡ true }
{
    let [left, right] = topology.links()[link];
    let lane = Lane { link, left, right };
    let first = beginning(topology, lane);
    match free.get(first.link) {
        Some(true) => first,
        // Where the row begins with a link that isn't free, the panel begins with this one.
        _ => lane,
    }
}
