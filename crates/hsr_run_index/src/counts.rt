//! Whether each copy is as often in one list as in another, by an index of either.
ghost use Rattle.std.specs.Prelude.{◌≡◌, ℕ, ◌+◌, ◌<◌, ◌↔◌, ◌^◌, count_by, if◌then◌else◌, length, slice_index_or, true, false, IfOk, IsTrue, OnOk};
ghost use Rattle.hsr_node.specs.declared.event.Carried as spec;
ghost use Rattle.hsr_run_index.specs.Often.{AsOften, count_of, is_same_carried, probe_pair};

use hsr_frame::NoMemory;
use hsr_node::Carried;
use indexmap::IndexMap;
use std::alloc::Global;

/// A copy by the node and place of its send, and its octets.
pub type Key<'a> = (Option<(usize, usize)>, &'a [u8]);

/// How often each copy stands in a list.
pub type Counts<'a> = IndexMap<Key<'a>, usize>;

/// The node and place of a copy's send, and its octets.
pub fn key_of<'a>(copy: &'a Carried) -> Key<'a>
    ensures send { result.0 ≡ probe_pair copy.now.probe }
    ensures octets { result.1.now ≡ copy.now.octets }
{
    let send = match copy.probe {
        Some(probe) => Some((probe.node, probe.place)),
        None => None,
    };
    (send, copy.octets.as_slice())
}

/// How often a copy was counted.
pub fn count_of(counts: &Counts<'_>, copy: &Carried) -> usize
    ensures { result ≡ count_of counts.now copy.now }
{
    counts.get(&key_of(copy)).copied().unwrap_or(0)
}

/// Counts one more copy. `NoMemory` if allocation fails.
pub fn count_one<'a>(counts: &mut Counts<'a>, copy: &'a Carried) -> Result<(), NoMemory>
    requires { count_of counts.old copy.now + 1 < 2 ^ 64 }
    ensures { OnOk result ((other : spec.Carried) → count_of counts.new other
        ≡ count_of counts.old other + (if is_same_carried other copy.now then 1 else 0)) }
{
    let count = count_of(counts, copy);
    match counts.insert(key_of(copy), count + 1) {
        Ok(_) => Ok(()),
        Err(_) => Err(NoMemory),
    }
}

/// How often each copy stands in a list.
#[tactic(auto, using(hsr_frame::proofs::OneMore::count_fits, hsr_frame::proofs::OneMore::counted_more))]
fn counted<'a>(alloc: Global, copies: &'a [Carried]) -> Result<Counts<'a>, NoMemory>
    ensures { IfOk result (λ counts. (copy : spec.Carried) → count_of counts copy
        ≡ count_by (is_same_carried copy) copies.now) }
{
    let mut counts = IndexMap::new(alloc);
    // The index is used by the loop's invariant alone.
    for (i, copy) in copies.iter().enumerate() {
        count_one(&mut counts, copy)?;
    }
    Ok(counts)
}

/// Whether copies are as often in one index as in another.
fn are_alike(copies: &[Carried], counts: &Counts<'_>, others: &Counts<'_>) -> bool
    ensures alike { result ≡ true → (i : ℕ) (d : spec.Carried) → i < length copies.now
        → count_of counts.now (slice_index_or copies.now i d) ≡ count_of others.now
        (slice_index_or copies.now i d) }
    ensures other { result ≡ false → ((copy : spec.Carried) → count_of counts.now copy
        ≡ count_of others.now copy) → ⊥ }
{
    // The index is used by the loop's invariant alone.
    for (i, copy) in copies.iter().enumerate() {
        if count_of(counts, copy) != count_of(others, copy) {
            return false;
        }
    }
    true
}

/// Whether each copy is as often among the ones as among the others.
pub(crate) fn is_as_often(alloc: Global, xs: &[Carried], ys: &[Carried]) -> Result<bool, NoMemory>
    ensures { IfOk result (λ often. IsTrue often ↔ AsOften xs.now ys.now) }
{
    // With as many of both it is enough to look at the copies of one list.
    if xs.len() != ys.len() {
        return Ok(false);
    }
    let of_xs = counted(alloc, xs)?;
    let of_ys = counted(alloc, ys)?;
    Ok(are_alike(xs, &of_xs, &of_ys))
}
