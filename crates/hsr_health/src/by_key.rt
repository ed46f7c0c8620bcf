//! Numbers counted by what they are.
ghost use Rattle.std.specs.Prelude.{◌≡◌, ◌-◌, ◌<◌, ◌≤◌, ◌^◌, ◌++◌, ◌∷◌, [], ℕ, Contains, List, length, slice_get, slice_set, IfOk, OnOk, Some};
ghost use Rattle.std.specs.List.Sorted.{IsNonDecreasing};
ghost use Rattle.hsr_health.specs.ByKey.{AreCountsOf, counted_more, has_key};
ghost use Rattle.hsr_health.specs.declared.by_key.KeyCount as the_count;

use hsr_frame::NoMemory;
use std::alloc::Global;

/// A number, and how often it is there.
#[derive(Clone, Copy, PartialEq, Eq)]
pub(crate) struct KeyCount {
    pub(crate) key: u64,
    pub(crate) count: u64,
}

/// Whether a number is the last of those that are counted.
fn is_last(counts: &[KeyCount], key: u64) -> bool
    ensures { result ≡ has_key key (slice_get counts.now (length counts.now - 1)) }
{
    match counts.get(counts.len().saturating_sub(1)) {
        None => false,
        Some(own) => own.key == key,
    }
}

/// With one more.
fn counted_more(own: KeyCount) -> KeyCount
    ensures { result ≡ counted_more own }
{
    KeyCount {
        key: own.key,
        count: own.count.saturating_add(1),
    }
}

/// Counts the last number once more, if there is one.
fn add_last(counts: &mut Vec<KeyCount>)
    ensures { (own : the_count.KeyCount) → slice_get counts.old.items (length counts.old.items - 1) ≡ Some own
        → counts.new.items ≡ slice_set counts.old.items (length counts.old.items - 1) (counted_more own) }
{
    let many = counts.len();
    if many > 0 {
        counts[many - 1] = counted_more(counts[many - 1]);
    }
}

/// Counts one more number, which isn't less than those that are counted.
fn put_key(counts: &mut Vec<KeyCount>, key: u64) -> Result<(), NoMemory>
    ensures { OnOk result ((keys : List ℕ) → length keys < 2 ^ 63 → ((x : ℕ) → Contains keys x → x ≤ key) → AreCountsOf keys counts.old.items
        → AreCountsOf (keys ++ key ∷ []) counts.new.items) }
{
    if is_last(counts.as_slice(), key) {
        add_last(counts);
        return Ok(());
    }
    counts.push(KeyCount { key, count: 1 })?;
    Ok(())
}

/// Each of these numbers once, with how often it is there. None of them is less than one in front of it.
fn counts_of(alloc: Global, sorted: &[u64]) -> Result<Vec<KeyCount>, NoMemory>
    requires { IsNonDecreasing sorted.now }
    ensures { IfOk result (λ counts. AreCountsOf sorted.now counts.items) }
{
    let mut counts = Vec::new(alloc);
    for i in 0..sorted.len() {
        put_key(&mut counts, sorted[i])?;
    }
    Ok(counts)
}

/// Each of these numbers once, from the least on, with how often it is there. They are put in order.
pub(crate) fn counts_by_key(alloc: Global, keys: &mut Vec<u64>) -> Result<Vec<KeyCount>, NoMemory>
    ensures { IfOk result (λ counts. AreCountsOf keys.old.items counts.items) }
{
    keys.sort()?;
    let counts = counts_of(alloc, keys.as_slice())?;
    Ok(counts)
}
