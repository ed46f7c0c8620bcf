//! Which of some copies is which of others, by a map.
//!
//! The k-th of the equal copies on one side is the k-th on the other. A map and a count of those so far make this one
//! walk, where a search for each copy would grow with the square of the run.
ghost use Rattle.std.specs.Prelude.{◌≡◌, ◌+◌, ◌<◌, ◌^◌, ◌∷◌, [], ◌++◌, count_by, if◌then◌else◌, length, map, option_map, IfOk, OnOk};
ghost use Rattle.hsr_node.specs.declared.event.Carried as spec;
ghost use Rattle.hsr_run_index.specs.InOrder.{copy_of_passage};
ghost use Rattle.hsr_run_index.specs.Often.{count_of, is_same_carried};
ghost use Rattle.hsr_timeline.specs.Partners.{indices, is_at, partners};
ghost use Rattle.hsr_timeline.specs.IndexedCopies.{found_at, indices_in};

use hsr_frame::NoMemory;
use hsr_link::{Dir, Fate, Row};
use hsr_node::Carried;
use hsr_run_index::{Counts, Key, Passage, count_of, count_one, key_of};
use indexmap::IndexMap;
use std::alloc::Global;

/// Where each copy stands, rising.
type IndicesByCopy<'a> = IndexMap<Key<'a>, Vec<usize>>;

/// Keeps one more index of a copy.
fn keep<'a>(
    alloc: Global,
    kept: &mut IndicesByCopy<'a>,
    copy: &'a Carried,
    index: usize,
) -> Result<(), NoMemory>
    ensures { OnOk result ((other : spec.Carried)
        → indices_in kept.new other ≡ indices_in kept.old other
        ++ (if is_same_carried other copy.now then index ∷ [] else [])) }
{
    kept.entry(key_of(copy))?
        .or_insert(Vec::new(alloc))
        .push(index)?;
    Ok(())
}

/// Keeps one more index of a copy, if there is one.
fn keep_if<'a>(
    alloc: Global,
    kept: &mut IndicesByCopy<'a>,
    copy: &'a Option<Carried>,
    index: usize,
) -> Result<(), NoMemory>
    ensures { OnOk result ((other : spec.Carried)
        → indices_in kept.new other ≡ indices_in kept.old other
        ++ (if is_at other copy.now then index ∷ [] else [])) }
{
    match copy {
        Some(copy) => keep(alloc, kept, copy, index),
        // Indices without a copy are counted all the same, so that an index is the place of its entry.
        None => Ok(()),
    }
}

/// Where each of some copies stands.
fn indices_by_copy<'a>(
    alloc: Global,
    copies: &'a [Option<Carried>],
) -> Result<IndicesByCopy<'a>, NoMemory>
    ensures { IfOk result (λ kept. (copy : spec.Carried)
        → indices_in kept copy ≡ indices copy copies.now) }
{
    let mut kept = IndexMap::new(alloc);
    for (i, copy) in copies.iter().enumerate() {
        keep_if(alloc, &mut kept, copy, i)?;
    }
    Ok(kept)
}

/// Where a copy stands.
fn indices_of<'b>(kept: &'b IndicesByCopy<'_>, copy: &'b Carried) -> &'b [usize]
    ensures { result.now ≡ indices_in kept.now copy.now }
{
    match kept.get(&key_of(copy)) {
        Some(indices) => indices.as_slice(),
        None => &[],
    }
}

/// The copy of a row, if it was put, or taken, in a direction.
pub(crate) fn copy_of_passage<'a>(which: Passage, dir: Dir, row: &'a Row) -> Option<&'a Carried>
    ensures { option_map (λ c. c.now) result ≡ copy_of_passage which dir row.now }
{
    let is_told = match which {
        // What was injected was passed by no entry.
        Passage::Put => row.dir == dir && !row.injected,
        Passage::Taken => row.dir == dir && row.fate == Fate::Taken,
    };
    if is_told { Some(&row.carried) } else { None }
}

/// Where the copy of a row stands, by how many equal ones came so far; and counts it.
fn next_partner<'a>(
    kept: &IndicesByCopy<'_>,
    counts: &mut Counts<'a>,
    copy: Option<&'a Carried>,
) -> Result<Option<usize>, NoMemory>
    requires { (other : spec.Carried) → count_of counts.old other + 1 < 2 ^ 64 }
    ensures index { IfOk result (λ index. index
        ≡ found_at kept.now counts.old (option_map (λ c. c.now) copy.entry)) }
    ensures counts { OnOk result ((other : spec.Carried)
        → count_of counts.new other ≡ count_of counts.old other +
        (if is_at other (option_map (λ c. c.now) copy.entry) then 1 else 0)) }
{
    let Some(copy) = copy else {
        return Ok(None);
    };
    let index = indices_of(kept, copy).get(count_of(counts, copy)).copied();
    count_one(counts, copy)?;
    Ok(index)
}

/// Where the copies of rows that were put, or taken, in a direction stand among others, row by row.
pub(crate) fn partners(
    alloc: Global,
    copies: &[Option<Carried>],
    which: Passage,
    dir: Dir,
    rows: &[Row],
) -> Result<Vec<Option<usize>>, NoMemory>
    ensures { IfOk result (λ indices. indices.items
        ≡ partners copies.now (map (copy_of_passage which dir) rows.now)) }
{
    let kept = indices_by_copy(alloc, copies)?;
    let mut counts = IndexMap::new(alloc);
    let mut indices = Vec::new(alloc);
    for (j, row) in rows.iter().enumerate() {
        let index = next_partner(&kept, &mut counts, copy_of_passage(which, dir, row))?;
        indices.push(index)?;
    }
    Ok(indices)
}
