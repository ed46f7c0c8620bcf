//! Sends in groups, and of each group the send that took longest.
ghost use Rattle.std.specs.Prelude.{◌≡◌, Some, if◌then◌else◌, IfOk, OnOk};
ghost use Rattle.hsr_deliveries.specs.Counted.{value_of};
ghost use Rattle.hsr_latency.specs.Taken.{AreLongest, Keeps, group_of, is_send, taken};
ghost use Rattle.hsr_node.specs.declared.event.Probe as spec;

use crate::delay::Delay;
use crate::greatest::greater;
use crate::taken::taken;
use hsr_finished_run::Closed;
use hsr_frame::NoMemory;
use hsr_node::Probe;
use indexmap::IndexMap;
use std::alloc::Global;

/// A send, and the number of the group that it is of.
#[derive(Clone, Copy, PartialEq, Eq)]
pub struct Member {
    pub send: Probe,
    pub group: usize,
}

/// The groups of sends, by the nodes and places of these.
type Groups = IndexMap<(usize, usize), usize>;

/// The group of a send, if it is of one.
fn group_in(groups: &Groups, send: Probe) -> Option<usize>
    ensures { result ≡ value_of groups.now send }
{
    groups.get(&(send.node, send.place)).copied()
}

/// Puts one more member, in place of the one that the send had.
fn put_member(groups: &mut Groups, member: Member) -> Result<(), NoMemory>
    ensures { OnOk result ((send : spec.Probe) → value_of groups.new send
        ≡ (if is_send send member then Some member.group else value_of groups.old send)) }
{
    match groups.insert((member.send.node, member.send.place), member.group) {
        Ok(_) => Ok(()),
        Err(_) => Err(NoMemory),
    }
}

/// The groups of sends, by their members.
fn groups_by(alloc: Global, members: &[Member]) -> Result<Groups, NoMemory>
    ensures { IfOk result (λ groups. (send : spec.Probe) → value_of groups send ≡ group_of members.now send) }
{
    let mut groups = IndexMap::new(alloc);
    for member in members {
        put_member(&mut groups, *member)?;
    }
    Ok(groups)
}

/// Keeps one more delay of a group, if it is of one and longer than what is kept.
fn keep(longest: &mut Vec<Option<Delay>>, group: Option<usize>, delay: Delay)
    ensures { Keeps group delay longest.old.items longest.new.items }
{
    match group {
        Some(group) if group < longest.len() => {
            longest[group] = greater(longest[group], delay);
        }
        _ => {}
    }
}

/// Of each of so many groups the delay that is the greatest.
fn longest_by(
    alloc: Global,
    groups: &Groups,
    delays: &[Delay],
    many: usize,
) -> Result<Vec<Option<Delay>>, NoMemory>
    ensures { IfOk result (λ longest. AreLongest (value_of groups.now) delays.now many longest.items) }
{
    let mut longest = vec![in alloc; None; many]?;
    for delay in delays {
        keep(&mut longest, group_in(groups, delay.send), *delay);
    }
    Ok(longest)
}

/// Of each of so many groups the send of a finished run that took longest to a node that took it up, from its effective moment to that of
/// the arrival, and of equals the lowest, by node and place; none where none of the group was taken up. Groups are numbered from 0, and a
/// send is of the group of the last member that is it. `NoMemory` if allocation fails.
pub fn longest_of<const C: usize>(
    alloc: Global,
    closed: &Closed<C>,
    members: &[Member],
    groups: usize,
) -> Result<Vec<Option<Delay>>, NoMemory>
    ensures { IfOk result (λ longest. AreLongest (group_of members.now) (taken closed.now.run) groups longest.items) }
{
    let taken = taken(alloc, closed)?;
    let by_send = groups_by(alloc, members)?;
    let longest = longest_by(alloc, &by_send, taken.as_slice(), groups)?;
    Ok(longest)
}
