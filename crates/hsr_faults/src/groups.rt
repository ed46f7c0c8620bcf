//! Sends that a fault cuts off alike.
ghost use Rattle.std.specs.Prelude.{◌≡◌, ◌↔◌, ◌<◌, ℕ, length, count_by, slice_index_or, IfOk, IfSome, IsTrue};
ghost use Rattle.hsr_faults.specs.declared.groups.Group.{Group};
ghost use Rattle.hsr_faults.specs.Groups.{AreCounts, AreGrouped, IsPlace, is_number};

use crate::channels::Channels;
use crate::downs::down;
use hsr_frame::NoMemory;
use hsr_plays::SendSpan;
use hsr_routes::Heading;
use hsr_scenario::Order;
use hsr_send_spans::Cuts;
use std::alloc::Global;

/// Sends of one node to one destination and of one EtherType, with the same channels down in their spans.
#[derive(Clone, Copy)]
pub(crate) struct Group {
    pub(crate) frame: Heading,
    pub(crate) down: Channels,
}

/// The groups of sends, and of each send the index of its group.
#[derive(Drop)]
pub(crate) struct Grouping {
    pub(crate) groups: Vec<Group>,
    pub(crate) of: Vec<usize>,
}

/// Whether a group is of this frame and these channels.
fn is_group(group: &Group, frame: &Heading, down: &Channels) -> bool
    ensures { IsTrue result ↔ ((group.now.frame ≡ frame.now) × (group.now.down ≡ down.now)) }
{
    group.frame == *frame && group.down == *down
}

/// The index of a group of this frame and these channels, if there is one.
fn find(groups: &[Group], frame: &Heading, down: &Channels) -> Option<usize>
    ensures { IfSome result (λ j. (j < length groups.now) × ((d : Group) → slice_index_or groups.now j d ≡ record { frame = frame.now; down = down.now })) }
{
    for (index, group) in groups.iter().enumerate() {
        if is_group(group, frame, down) {
            return Some(index);
        }
    }
    None
}

/// The index of the group of this frame and these channels, which is put last where there is none.
fn place(groups: &mut Vec<Group>, frame: &Heading, down: &Channels) -> Result<usize, NoMemory>
    ensures { IfOk result (λ j. IsPlace groups.old.items groups.new.items j (record { frame = frame.now; down = down.now })) }
{
    match find(groups.as_slice(), frame, down) {
        Some(index) => Ok(index),
        None => {
            let index = groups.len();
            groups.push(Group {
                frame: *frame,
                down: *down,
            })?;
            Ok(index)
        }
    }
}

/// The groups of these sends. `NoMemory` if allocation fails.
pub(crate) fn groups_of(
    alloc: Global,
    orders: &[Order],
    spans: &[SendSpan],
) -> Result<Grouping, NoMemory>
    ensures { IfOk result (λ g. AreGrouped orders.now spans.now (length spans.now) g.groups.items g.of.items) }
{
    let mut groups = Vec::new(alloc);
    let mut of = Vec::new(alloc);
    let mut cuts = Cuts::new();
    for (i, span) in spans.iter().enumerate() {
        cuts = cuts.at(orders, span.index);
        let frame = Heading {
            sender: span.asked.node,
            dst: span.asked.dst,
            kind: span.asked.kind,
        };
        let index = place(&mut groups, &frame, &down(orders, &cuts, span))?;
        of.push(index)?;
    }
    Ok(Grouping { groups, of })
}

/// How many of these numbers are this one.
fn count(numbers: &[usize], number: usize) -> usize
    ensures { result ≡ count_by (is_number number) numbers.now }
{
    numbers.iter().filter(|n| **n == number).count()
}

/// How many sends each group has. `NoMemory` if allocation fails.
pub(crate) fn counts(alloc: Global, groups: usize, of: &[usize]) -> Result<Vec<usize>, NoMemory>
    ensures { IfOk result (λ counts. AreCounts groups of.now counts.items) }
{
    let mut counts = Vec::new(alloc);
    for group in 0..groups {
        counts.push(count(of, group))?;
    }
    Ok(counts)
}
