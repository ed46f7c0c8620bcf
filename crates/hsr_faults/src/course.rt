//! What each fault looks at of a group of sends.
ghost use Rattle.std.specs.Prelude.{◌≡◌, ◌<◌, ◌≤◌, ℕ, length, IfOk};
ghost use Rattle.hsr_bitset.specs.Numbers.{has};
ghost use Rattle.hsr_routes.specs.Routes.{bare, heading, sender_at};
ghost use Rattle.hsr_faults.specs.Course.{AreCourses, AreDue, IsCourse};
ghost use Rattle.hsr_faults.specs.Onward.{AreOnward};
ghost use Rattle.hsr_faults.specs.Search.{AreInto, AreLedTo};
ghost use Rattle.hsr_faults.specs.Sets.{IsWithin};

use crate::channels::Channels;
use crate::downs::put_link;
use crate::groups::Group;
use crate::nodes::Nodes;
use crate::onward::Onward;
use crate::search::led_to;
use hsr_deliveries::is_due;
use hsr_frame::NoMemory;
use hsr_routes::Heading;
use hsr_topology::Topology;
use std::alloc::Global;

/// Of a group of sends: the channels that follow each channel, the nodes that the sends are due at, the nodes that routes lead to while
/// nothing is off, and channels without which routes lead to the same nodes.
#[derive(Drop)]
pub(crate) struct Course {
    pub(crate) onward: Onward,
    pub(crate) due: Nodes,
    pub(crate) led: Nodes,
    pub(crate) spare: Channels,
}

/// The nodes that a frame is due at.
fn due(topology: &Topology, frame: &Heading) -> Nodes
    ensures { AreDue (bare topology.now.places topology.now.links) frame.now result.bits }
{
    let mut nodes = Nodes::new();
    for (node, place) in topology.places().iter().enumerate() {
        nodes.put(
            node,
            is_due(place, frame.sender, node, frame.dst, frame.kind),
        );
    }
    nodes
}

/// A set with both channels of a link.
fn with_link(set: &Channels, link: usize) -> Channels
    requires { link < 128 }
    ensures { IsWithin set.now.words result.words }
{
    let mut more = *set;
    put_link(&mut more, link, true);
    more
}

/// These channels with both of a link, if routes that take none of them lead to the same nodes.
fn spared(
    topology: &Topology,
    into: &[Channels],
    frame: &Heading,
    onward: &Onward,
    spare: &Channels,
    led: Nodes,
    link: usize,
) -> Channels
    requires into { AreInto (bare topology.now.places topology.now.links) into.now }
    requires onward { AreOnward (bare topology.now.places topology.now.links) (sender_at frame.now.sender)
        (heading frame.now.dst frame.now.kind) onward.now.first.words onward.now.next.items }
    requires led { AreLedTo (bare topology.now.places topology.now.links) (sender_at frame.now.sender) (heading frame.now.dst frame.now.kind)
        spare.now.words led.bits }
    requires link { link < 128 }
    ensures within { IsWithin spare.now.words result.words }
    ensures led { AreLedTo (bare topology.now.places topology.now.links) (sender_at frame.now.sender) (heading frame.now.dst frame.now.kind)
        result.words led.bits }
{
    let more = with_link(spare, link);
    if led_to(topology, into, frame, onward, &more) == led {
        more
    } else {
        *spare
    }
}

/// Channels without which routes lead to the same nodes, those that are avoided among them.
fn spare(
    topology: &Topology,
    into: &[Channels],
    frame: &Heading,
    onward: &Onward,
    down: &Channels,
    led: Nodes,
) -> Channels
    requires into { AreInto (bare topology.now.places topology.now.links) into.now }
    requires onward { AreOnward (bare topology.now.places topology.now.links) (sender_at frame.now.sender)
        (heading frame.now.dst frame.now.kind) onward.now.first.words onward.now.next.items }
    requires led { AreLedTo (bare topology.now.places topology.now.links) (sender_at frame.now.sender) (heading frame.now.dst frame.now.kind)
        down.now.words led.bits }
    ensures within { IsWithin down.now.words result.words }
    ensures led { AreLedTo (bare topology.now.places topology.now.links) (sender_at frame.now.sender) (heading frame.now.dst frame.now.kind)
        result.words led.bits }
{
    let mut spare = *down;
    for link in 0..topology.links().len() {
        spare = spared(topology, into, frame, onward, &spare, led, link);
    }
    spare
}

impl Course {
    /// Of a group. `NoMemory` if allocation fails.
    fn new(
        alloc: Global,
        topology: &Topology,
        into: &[Channels],
        group: &Group,
    ) -> Result<Course, NoMemory>
        requires { AreInto (bare topology.now.places topology.now.links) into.now }
        ensures { IfOk result (IsCourse (bare topology.now.places topology.now.links) group.now) }
    {
        let onward = Onward::new(alloc, topology, &group.frame)?;
        let led = led_to(topology, into, &group.frame, &onward, &group.down);
        let spare = spare(topology, into, &group.frame, &onward, &group.down, led);
        Ok(Course {
            onward,
            due: due(topology, &group.frame),
            led,
            spare,
        })
    }
}

/// Of each group. `NoMemory` if allocation fails.
pub(crate) fn courses(
    alloc: Global,
    topology: &Topology,
    into: &[Channels],
    groups: &[Group],
) -> Result<Vec<Course>, NoMemory>
    requires { AreInto (bare topology.now.places topology.now.links) into.now }
    ensures { IfOk result (λ courses. AreCourses (bare topology.now.places topology.now.links) groups.now (length groups.now) courses.items) }
{
    let mut courses = Vec::new(alloc);
    for (i, group) in groups.iter().enumerate() {
        let course = Course::new(alloc, topology, into, group)?;
        courses.push(course)?;
    }
    Ok(courses)
}
