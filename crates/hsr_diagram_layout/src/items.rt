//! The sends that are listed, in the order of time.
ghost use Rattle.std.specs.Prelude.{◌≡◌, map, IfOk};
ghost use Rattle.std.specs.List.Sorted.{IsPermutation, IsSorted};
ghost use Rattle.hsr_diagram_layout.specs.Items.{AreListed, item_cmp, item_of};

use hsr_diagram::Sent;
use hsr_frame::NoMemory;
use std::alloc::Global;

/// A send that is listed: its stamp, and its index among the deliveries. The order of its fields is that of the list.
#[derive(Clone, Copy, PartialEq, Eq, PartialOrd, Ord)]
pub(crate) struct Item {
    pub moment: u64,
    pub step: u64,
    pub number: usize,
}

/// A send as an item. Each send that is listed has a stamp; one that hasn't would stand before all.
fn item_of(sent: &Sent) -> Item
    ensures { result ≡ item_of sent.now }
{
    match sent.start {
        Some(stamp) => Item {
            moment: stamp.moment,
            step: stamp.step,
            number: sent.number,
        },
        None => Item {
            moment: 0,
            step: 0,
            number: sent.number,
        },
    }
}

/// Sends as items.
#[tactic(auto, using(crate::proofs::Mapped::mapped_more))]
fn items_of(alloc: Global, sends: &[Sent]) -> Result<Vec<Item>, NoMemory>
    ensures { IfOk result (λ items. items.items ≡ map item_of sends.now) }
{
    let mut items = Vec::new(alloc);
    for sent in sends {
        items.push(item_of(sent))?;
    }
    Ok(items)
}

/// Puts items into the order of time.
fn sort(items: &mut Vec<Item>)
    ensures rise { IsSorted item_cmp items.new.items }
    ensures same { IsPermutation items.old.items items.new.items }
{
    // No two are equal, since their numbers differ.
    items.sort_unstable();
}

/// The sends that are listed, in the order of time.
pub(crate) fn listed(alloc: Global, sends: &[Sent]) -> Result<Vec<Item>, NoMemory>
    ensures { IfOk result (λ items. AreListed sends.now items.items) }
{
    let mut items = items_of(alloc, sends)?;
    sort(&mut items);
    Ok(items)
}
