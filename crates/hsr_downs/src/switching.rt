//! The changes with which nodes go off and come on.
ghost use Rattle.std.specs.Prelude.{◌≡◌, ◌<◌, ◌++◌, length, IfOk, OnOk};
ghost use Rattle.hsr_downs.specs.Switches.{has_up, is_at, is_down, switch_between, switch_of, switches, switches_at, switches_by, switches_in, switches_with};

use crate::changing::{Change, changes_of};
use hsr_frame::NoMemory;
use hsr_scenario::Order;
use hsr_topology::End;
use std::alloc::Global;

/// A change with which a node goes off, since the last of its links goes down that was up; or with which it comes on,
/// since one of its links is up again.
#[derive(Clone, Copy, PartialEq, Eq)]
pub struct Switch {
    pub node: usize,
    pub is_off: bool,
    pub change: Change,
}

/// Whether changes leave a link down.
fn is_down(link: usize, changes: &[Change]) -> bool
    ensures { result ≡ is_down link changes.now }
{
    // Looked up among all changes before: who draws bounds their number.
    let mut is_down = false;
    let mut rest = changes;
    // What is left is a variable, since the loop's invariant speaks of it.
    while let Some((change, more)) = rest.split_first() {
        if change.link == link {
            is_down = change.is_cut;
        }
        rest = more;
    }
    is_down
}

/// Whether a link has an end at a node.
fn is_at(node: usize, link: [End; 2]) -> bool
    ensures { result ≡ is_at node link }
{
    let [a, b] = link;
    a.node == node || b.node == node
}

/// Whether changes leave a link of a node up.
fn has_up(node: usize, changes: &[Change], links: &[[End; 2]]) -> bool
    ensures { result ≡ has_up node changes.now links.now }
{
    for (number, link) in links.iter().enumerate() {
        if is_at(node, *link) && !is_down(number, changes) {
            return true;
        }
    }
    false
}

/// Puts the switch of a node last, if it had a link that was up before a change and has none behind it, or the other
/// way round.
fn push_if(
    list: &mut Vec<Switch>,
    node: usize,
    change: Change,
    was_up: bool,
    is_up: bool,
) -> Result<(), NoMemory>
    ensures { OnOk result (list.new.items ≡ list.old.items
        ++ switch_between node change was_up is_up) }
{
    let has_turned = if was_up { !is_up } else { is_up };
    if has_turned {
        list.push(Switch {
            node,
            is_off: was_up,
            change,
        })?;
    }
    Ok(())
}

/// Puts the switch of a node last, if a change makes one, between those before it and these with it.
fn push_switch(
    list: &mut Vec<Switch>,
    links: &[[End; 2]],
    before: &[Change],
    after: &[Change],
    change: Change,
    node: usize,
) -> Result<(), NoMemory>
    ensures { OnOk result (list.new.items ≡ list.old.items
        ++ switch_of links.now before.now after.now change node) }
{
    let was_up = has_up(node, before, links);
    let is_up = has_up(node, after, links);
    push_if(list, node, change, was_up, is_up)
}

/// Puts the switches of the nodes at ends last that a change makes.
fn push_with(
    list: &mut Vec<Switch>,
    links: &[[End; 2]],
    before: &[Change],
    after: &[Change],
    change: Change,
    ends: &[End],
) -> Result<(), NoMemory>
    ensures { OnOk result (list.new.items ≡ list.old.items
        ++ switches_with links.now before.now after.now change ends.now) }
{
    let mut rest = ends;
    // What is left is a variable, since the loop's invariant speaks of it.
    while let Some((end, more)) = rest.split_first() {
        push_switch(list, links, before, after, change, end.node)?;
        rest = more;
    }
    Ok(())
}

/// Puts the switches last that a change of a link makes.
fn push_by(
    list: &mut Vec<Switch>,
    links: &[[End; 2]],
    before: &[Change],
    after: &[Change],
    change: Change,
) -> Result<(), NoMemory>
    ensures { OnOk result (list.new.items ≡ list.old.items
        ++ switches_by links.now before.now after.now change) }
{
    match links.get(change.link) {
        Some(link) => push_with(list, links, before, after, change, link.as_slice()),
        None => Ok(()),
    }
}

/// Puts the switches last that the change at an index makes.
fn push_at(
    list: &mut Vec<Switch>,
    links: &[[End; 2]],
    changes: &[Change],
    i: usize,
) -> Result<(), NoMemory>
    requires { i < length changes.now }
    ensures { OnOk result (list.new.items ≡ list.old.items ++ switches_at links.now changes.now i) }
{
    match changes.get(i) {
        Some(change) => push_by(list, links, &changes[..i], &changes[..i + 1], *change),
        None => Ok(()),
    }
}

/// The switches that changes make, with these links.
fn switches_in(
    alloc: Global,
    links: &[[End; 2]],
    changes: &[Change],
) -> Result<Vec<Switch>, NoMemory>
    ensures { IfOk result (λ list. list.items ≡ switches_in links.now changes.now) }
{
    let mut list = Vec::new(alloc);
    for i in 0..changes.len() {
        push_at(&mut list, links, changes, i)?;
    }
    Ok(list)
}

/// With which changes that the steps of a scenario make nodes of these links go off and come on, in the order of the
/// changes: a node goes off with the one behind which none of its links is up, where one was up before; and comes on
/// with the one behind which one is up again. `NoMemory` if allocation fails.
pub fn switches(
    alloc: Global,
    links: &[[End; 2]],
    orders: &[Order],
) -> Result<Vec<Switch>, NoMemory>
    ensures { IfOk result (λ list. list.items ≡ switches links.now orders.now) }
{
    let changes = changes_of(alloc, orders)?;
    switches_in(alloc, links, changes.as_slice())
}
