//! From a cut of a link to the next change of it.
ghost use Rattle.std.specs.Prelude.{◌≡◌, ◌++◌, IfOk, OnOk};
ghost use Rattle.hsr_downs.specs.Downs.{down_by, downs, downs_in, next_of};

use crate::changing::{Change, changes_of};
use hsr_frame::NoMemory;
use hsr_scenario::Order;
use std::alloc::Global;

/// The time in which a link is down: from the step that cuts it to the next one that mends it, or cuts it once more;
/// without one to the end of the run.
#[derive(Clone, Copy, PartialEq, Eq)]
pub struct Down {
    pub cut: Change,
    pub end: Option<Change>,
}

/// The first change of a link.
fn next_of(link: usize, changes: &[Change]) -> Option<Change>
    ensures { result ≡ next_of link changes.now }
{
    // The index is used by the loop's invariant alone.
    for (i, change) in changes.iter().enumerate() {
        if change.link == link {
            return Some(*change);
        }
    }
    None
}

/// Puts the time last that a change begins, if it is a cut.
fn push_down(list: &mut Vec<Down>, change: Change, later: &[Change]) -> Result<(), NoMemory>
    ensures { OnOk result (list.new.items ≡ list.old.items ++ down_by change later.now) }
{
    if change.is_cut {
        list.push(Down {
            cut: change,
            end: next_of(change.link, later),
        })?;
    }
    Ok(())
}

/// The times in which changes say that links are down.
fn downs_in(alloc: Global, changes: &[Change]) -> Result<Vec<Down>, NoMemory>
    ensures { IfOk result (λ list. list.items ≡ downs_in changes.now) }
{
    let mut list = Vec::new(alloc);
    let mut rest = changes;
    // What is left is a variable, since the loop's invariant speaks of it.
    while let Some((change, more)) = rest.split_first() {
        push_down(&mut list, *change, more)?;
        rest = more;
    }
    Ok(list)
}

/// The times in which the steps of a scenario have links down, each from a cut to the next change of its link, in the
/// order of the cuts. `NoMemory` if allocation fails.
pub fn downs(alloc: Global, orders: &[Order]) -> Result<Vec<Down>, NoMemory>
    ensures { IfOk result (λ list. list.items ≡ downs orders.now) }
{
    let changes = changes_of(alloc, orders)?;
    downs_in(alloc, changes.as_slice())
}
