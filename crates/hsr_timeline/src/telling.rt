//! The rows of a run in the order of time.
ghost use Rattle.std.specs.Prelude.{◌≡◌, ◌∷◌, [], ◌++◌, List, IfErr, IfOk, OnOk, IsPermutation};
ghost use Rattle.std.specs.List.Sorted.{IsSorted};
ghost use Rattle.hsr_timeline.specs.Fronts.{lists_of};
ghost use Rattle.hsr_timeline.specs.Stamps.{AreStamps, HasNoStamps, at_spot};
ghost use Rattle.hsr_timeline.specs.Hops.{hops};
ghost use Rattle.hsr_timeline.specs.Causes.{origins};
ghost use Rattle.hsr_timeline.specs.declared.shown.Shown as spec;
ghost use Rattle.hsr_timeline.specs.Story.{AreShown, HasNoOrder, HasNoStory, IfCircle, IsOrdered, IsStory, shown_at, shown_cmp};

use crate::front::stamp_at;
use crate::hop::Hop;
use crate::hopping::hops;
use crate::mains::main_pairs;
use crate::origin::Origin;
use crate::origins::all_origins;
use crate::pairs::{causes_of, hop_pairs};
use crate::shown::Shown;
use crate::stamp::Stamp;
use crate::timing::{OrderFault, stamps};
use hsr_finished_run::Closed;
use hsr_frame::NoMemory;
use std::alloc::Global;

/// Why the rows of a run have no order of time.
#[derive(Clone, Copy, PartialEq, Eq)]
pub enum StoryFault {
    /// Entries follow one another in a circle, so that no order of time has them all.
    Circle,
    /// Allocation failed.
    NoMemory,
}

// `from_gives` says which fault `?` makes, so that no clause takes a failed allocation for a circle.
impl From<NoMemory> for StoryFault {
    ghost use Rattle.std.specs.Prelude.{◌≡◌};
    ghost use Rattle.hsr_timeline.specs.declared.telling.StoryFault.TheVariants.{NoMemory as NoRoom};

    ghost from_gives = { λ _ fault. fault ≡ NoRoom };

    fn from(_refused: NoMemory) -> StoryFault {
        StoryFault::NoMemory
    }
}

/// Where the row of a hop stands; none where its entry has no stamp.
fn shown_at(stamps: &[Vec<Stamp>], hop: &Hop) -> Option<Shown>
    ensures { result ≡ shown_at (at_spot (lists_of stamps.now)) hop.now }
{
    // A lost copy was judged by none, so it stands where it was passed.
    let spot = hop.judged.or(hop.passed)?;
    let stamp = stamp_at(stamps, spot)?;
    Some(Shown {
        moment: stamp.moment,
        step: stamp.step,
        node: spot.node,
        place: spot.place,
        is_lost: hop.judged.is_none(),
        link: hop.link,
        number: hop.number,
    })
}

/// Puts a row last.
fn add(rows: &mut Vec<Shown>, row: Shown) -> Result<(), NoMemory>
    ensures { OnOk result (rows.new.items ≡ rows.old.items ++ row ∷ []) }
{
    rows.push(row)?;
    Ok(())
}

/// Where the rows of hops stand, one after another.
fn all_shown(alloc: Global, stamps: &[Vec<Stamp>], hops: &[Hop]) -> Result<Vec<Shown>, StoryFault>
    ensures shown { IfOk result (λ rows. AreShown
        (at_spot (lists_of stamps.now)) hops.now rows.items) }
    ensures circle { IfErr result (IfCircle
        ((rows : List spec.Shown) → AreShown (at_spot (lists_of stamps.now)) hops.now rows → ⊥)) }
{
    let mut rows = Vec::new(alloc);
    // The index is used by the loop's invariant alone.
    for (i, hop) in hops.iter().enumerate() {
        let Some(row) = shown_at(stamps, hop) else {
            return Err(StoryFault::Circle);
        };
        add(&mut rows, row)?;
    }
    Ok(rows)
}

/// Puts rows into the order of time.
fn sort(rows: &mut Vec<Shown>)
    ensures rise { IsSorted shown_cmp rows.new.items }
    ensures same { IsPermutation rows.old.items rows.new.items }
{
    // No two rows are equal, since link and number are part of them: so the order is one.
    rows.sort_unstable();
}

/// What is known of when each entry of a run took place.
fn origins<const C: usize>(
    alloc: Global,
    closed: &Closed<C>,
    list: &[Hop],
) -> Result<Vec<Vec<Origin>>, NoMemory>
    requires { list.now ≡ hops closed.now.run }
    ensures { IfOk result (λ records. lists_of records.items
        ≡ origins closed.now.run closed.now.plan) }
{
    let mains = main_pairs(alloc, closed)?;
    let planned = causes_of(alloc, mains.as_slice())?;
    let copies = hop_pairs(alloc, list)?;
    let passed = causes_of(alloc, copies.as_slice())?;
    all_origins(alloc, closed, &planned, &passed)
}

/// The stamps of all entries.
fn stamps_of(alloc: Global, origins: &[Vec<Origin>]) -> Result<Vec<Vec<Stamp>>, StoryFault>
    ensures stamps { IfOk result (λ stamps. AreStamps (lists_of origins.now)
        (at_spot (lists_of stamps.items))) }
    ensures circle { IfErr result (IfCircle (HasNoStamps (lists_of origins.now))) }
{
    match stamps(alloc, origins) {
        Ok(stamps) => Ok(stamps),
        Err(OrderFault::Circle) => Err(StoryFault::Circle),
        Err(OrderFault::NoMemory) => Err(StoryFault::NoMemory),
    }
}

/// The rows of hops in the order of time, by what entries follow.
fn ordered(alloc: Global, origins: &[Vec<Origin>], list: &[Hop]) -> Result<Vec<Shown>, StoryFault>
    ensures story { IfOk result (λ rows. IsOrdered (lists_of origins.now) list.now rows.items) }
    ensures circle { IfErr result (IfCircle (HasNoOrder (lists_of origins.now) list.now)) }
{
    let stamps = match stamps_of(alloc, origins) {
        Ok(stamps) => stamps,
        Err(fault) => return Err(fault),
    };
    match all_shown(alloc, stamps.as_slice(), list) {
        Ok(mut rows) => {
            sort(&mut rows);
            Ok(rows)
        }
        Err(fault) => Err(fault),
    }
}

/// The stamp of each entry of a finished run, by node and place: the latest of its own moment and of one step after each entry that it
/// follows. `Circle` exactly where there are no such stamps. `NoMemory` if allocation fails.
pub fn entry_stamps<const C: usize>(
    alloc: Global,
    closed: &Closed<C>,
) -> Result<Vec<Vec<Stamp>>, StoryFault>
    ensures stamps { IfOk result (λ stamps. AreStamps (origins closed.now.run closed.now.plan)
        (at_spot (lists_of stamps.items))) }
    ensures circle { IfErr result (IfCircle
        (HasNoStamps (origins closed.now.run closed.now.plan))) }
{
    let hops = hops(alloc, closed)?;
    let origins = origins(alloc, closed, hops.as_slice())?;
    stamps_of(alloc, origins.as_slice())
}

/// The rows of a finished run in the order of time, each once. A row stands at the entry that judged its copy, or where the copy was
/// lost at the one that passed it. An entry comes after the one before it in its record, after the main worker's entry before it if
/// it is the main worker's, and after the one that passed the copy with which it came. `Circle` exactly where there is no such
/// order. `NoMemory` if allocation fails.
pub fn story<const C: usize>(alloc: Global, closed: &Closed<C>) -> Result<Vec<Shown>, StoryFault>
    ensures story { IfOk result (λ rows. IsStory closed.now.run closed.now.plan rows.items) }
    ensures circle { IfErr result (IfCircle (HasNoStory closed.now.run closed.now.plan)) }
{
    let hops = hops(alloc, closed)?;
    let origins = origins(alloc, closed, hops.as_slice())?;
    ordered(alloc, origins.as_slice(), hops.as_slice())
}
