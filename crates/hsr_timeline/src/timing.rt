//! The stamps of all entries.
ghost use Rattle.std.specs.Prelude.{◌≡◌, ◌↔◌, ◌<◌, ◌++◌, ◌∷◌, [], None, false, length, slice_index_or, slice_set, IfOk, IfErr, IsTrue, OnOk};
ghost use Rattle.hsr_timeline.specs.Stamps.{AreStamps, HasNoStamps, at_spot};
ghost use Rattle.hsr_timeline.specs.Fronts.{AreAllKnown, AreBlocked, IsFront, IfCircle, lists_of, next_of};

use crate::front::next_of;
use crate::origin::Origin;
use crate::stamp::Stamp;
use hsr_frame::NoMemory;
use std::alloc::Global;

/// Why entries have no stamps.
#[derive(Clone, Copy, PartialEq, Eq)]
pub enum OrderFault {
    /// Entries follow one another in a circle, or one follows an entry that isn't there.
    Circle,
    /// Allocation failed.
    NoMemory,
}

// `from_gives` says which fault `?` makes, so that no clause takes a failed allocation for a circle.
impl From<NoMemory> for OrderFault {
    ghost use Rattle.std.specs.Prelude.{◌≡◌};
    ghost use Rattle.hsr_timeline.specs.declared.timing.OrderFault.TheVariants.{NoMemory as NoRoom};

    ghost from_gives = { λ _ fault. fault ≡ NoRoom };

    fn from(_refused: NoMemory) -> OrderFault {
        OrderFault::NoMemory
    }
}

/// Gives a node's next entry its stamp.
fn push(stamps: &mut Vec<Vec<Stamp>>, node: usize, stamp: Stamp) -> Result<(), NoMemory>
    requires { node < length stamps.old.items }
    ensures { OnOk result (lists_of stamps.new.items
        ≡ slice_set (lists_of stamps.old.items) node
        (slice_index_or (lists_of stamps.old.items) node [] ++ stamp ∷ [])) }
{
    stamps[node].push(stamp)?;
    Ok(())
}

/// Gives a node's entries their stamps as far as those of their causes are known. Whether any got one.
fn catch_up(
    records: &[Vec<Origin>],
    stamps: &mut Vec<Vec<Stamp>>,
    node: usize,
) -> Result<bool, NoMemory>
    requires front { IsFront (lists_of records.now) (lists_of stamps.old.items) }
    requires below { node < length stamps.old.items }
    ensures front { OnOk result (IsFront (lists_of records.now) (lists_of stamps.new.items)) }
    ensures still { IfOk result (λ moved. moved ≡ false
        → lists_of stamps.new.items ≡ lists_of stamps.old.items) }
    ensures blocked { IfOk result (λ moved.
        moved ≡ false → next_of (lists_of records.now) (lists_of stamps.old.items) node ≡ None) }
{
    let mut moved = false;
    // A loop with a bound has an end by its form. Its own end is never reached: memory runs out before.
    for _ in 0..u64::MAX {
        match next_of(records, stamps.as_slice(), node)? {
            Some(stamp) => {
                push(stamps, node, stamp)?;
                moved = true;
            }
            None => return Ok(moved),
        }
    }
    Err(NoMemory)
}

/// Lets each node catch up once. Whether any entry got a stamp.
fn round(records: &[Vec<Origin>], stamps: &mut Vec<Vec<Stamp>>) -> Result<bool, NoMemory>
    requires { IsFront (lists_of records.now) (lists_of stamps.old.items) }
    ensures front { OnOk result (IsFront (lists_of records.now) (lists_of stamps.new.items)) }
    ensures blocked { IfOk result (λ moved.
        moved ≡ false → AreBlocked (lists_of records.now) (lists_of stamps.new.items)
        (length records.now)) }
{
    let mut moved = false;
    for node in 0..records.len() {
        if catch_up(records, stamps, node)? {
            moved = true;
        }
    }
    Ok(moved)
}

/// Lets nodes catch up until none can.
fn settle(records: &[Vec<Origin>], stamps: &mut Vec<Vec<Stamp>>) -> Result<(), NoMemory>
    requires { IsFront (lists_of records.now) (lists_of stamps.old.items) }
    ensures front { OnOk result (IsFront (lists_of records.now) (lists_of stamps.new.items)) }
    ensures blocked { OnOk result (AreBlocked (lists_of records.now) (lists_of stamps.new.items)
        (length records.now)) }
{
    // A loop with a bound has an end by its form. Its own end is never reached: each turn gives a stamp to an entry.
    for _ in 0..u64::MAX {
        if !round(records, stamps)? {
            return Ok(());
        }
    }
    Err(NoMemory)
}

/// No entry's stamp is known yet.
fn none_known(alloc: Global, records: &[Vec<Origin>]) -> Result<Vec<Vec<Stamp>>, NoMemory>
    ensures { IfOk result (λ stamps. IsFront (lists_of records.now) (lists_of stamps.items)) }
{
    let mut stamps = Vec::new(alloc);
    for _ in records {
        stamps.push(Vec::new(alloc))?;
    }
    Ok(stamps)
}

/// Whether the stamps of all entries are known.
fn are_all_known(records: &[Vec<Origin>], stamps: &[Vec<Stamp>]) -> bool
    requires { length stamps.now ≡ length records.now }
    ensures { IsTrue result ↔ AreAllKnown (lists_of records.now) (lists_of stamps.now) }
{
    for (node, record) in records.iter().enumerate() {
        // Known stamps are a front of their record, so the numbers tell whether all are.
        if stamps[node].len() != record.len() {
            return false;
        }
    }
    true
}

/// When all entries took place, by node and place. An entry follows the one before it in its record, the main worker's entry
/// before it if it is the main worker's, and the entry that passed the copy with which it came; its stamp is the latest of its own
/// moment at step 0 and of one step after each of these. `Circle` exactly where there are no such stamps, and then entries follow
/// one another in a circle, or follow one that isn't there. `NoMemory` if allocation fails.
#[tactic(auto, using(crate::proofs::Circles::all_known, crate::proofs::Circles::none_left))]
pub fn stamps(alloc: Global, records: &[Vec<Origin>]) -> Result<Vec<Vec<Stamp>>, OrderFault>
    ensures stamps { IfOk result (λ stamps. AreStamps (lists_of records.now)
        (at_spot (lists_of stamps.items))) }
    ensures circle { IfErr result (IfCircle (HasNoStamps (lists_of records.now))) }
{
    let mut stamps = none_known(alloc, records)?;
    settle(records, &mut stamps)?;
    if are_all_known(records, stamps.as_slice()) {
        Ok(stamps)
    } else {
        Err(OrderFault::Circle)
    }
}
