//! Who sent frames.
ghost use Rattle.std.specs.Prelude.{◌≡◌, ◌-◌, ◌<◌, ◌≤◌, ℕ, Contains, List, length, nat_lt, slice_get, IfNone, IfOk, IfSome, OnOk, Some};
ghost use Rattle.hsr_frame.specs.Address.{IsAddress, is_same_address};
ghost use Rattle.hsr_health.specs.Counted.{AreSources};
ghost use Rattle.hsr_health.specs.Sources.{AreIndexes, AreMacs, HasManySources, IsPart, IsPlace, IsWith, Rise, index_if, stands_by};
ghost use Rattle.hsr_address.specs.Numbers.{number_of};

use hsr_address::number_of;
use hsr_frame::{Mac, NoMemory};
use hsr_frame_groups::Noted;
use std::alloc::Global;

/// The most sources of a capture.
pub const MOST_SOURCES: usize = 1024;

/// The sources in the order of their addresses, and of each copy the index of its source: two octets, as there are at most 1024.
#[derive(Drop)]
pub(crate) struct Sources {
    pub(crate) macs: Vec<Mac>,
    pub(crate) of_copy: Vec<u16>,
}

/// The source of a copy.
fn source_of(caught: &Noted) -> Mac
    ensures { result ≡ caught.now.copy.src }
{
    caught.source()
}

/// Whether the address at an index has a lesser number than another.
fn is_less(macs: &[Mac], k: usize, number: u64) -> bool
    requires { k < length macs.now }
    ensures { (own : List ℕ) → slice_get macs.now k ≡ Some own → result ≡ nat_lt (number_of own) number }
{
    number_of(macs[k]) < number
}

/// Those of addresses in order among which another one is still looked for.
#[derive(Clone, Copy)]
struct Part {
    low: usize,
    high: usize,
}

/// The half in which it stands, or would stand.
fn halved(macs: &[Mac], number: u64, part: Part) -> Part
    requires order { part.low < part.high }
    requires within { part.high ≤ length macs.now }
    ensures part { Rise macs.now → IsPart macs.now number part.low part.high → IsPart macs.now number result.low result.high }
    ensures order { result.low ≤ result.high }
    ensures within { result.high ≤ part.high }
    ensures less { result.high - result.low < part.high - part.low }
{
    let middle = part.low + (part.high - part.low) / 2;
    if is_less(macs, middle, number) {
        Part {
            low: middle + 1,
            high: part.high,
        }
    } else {
        Part {
            low: part.low,
            high: middle,
        }
    }
}

/// Where an address with a number stands, or would stand, among addresses in order.
fn place_of(macs: &[Mac], number: u64) -> usize
    ensures within { result ≤ length macs.now }
    ensures place { Rise macs.now → IsPlace macs.now number result }
{
    let mut part = Part {
        low: 0,
        high: macs.len(),
    };
    while part.low < part.high {
        part = halved(macs, number, part);
    }
    part.low
}

/// Whether an address with a number stands at a place.
fn stands_at(macs: &[Mac], place: usize, number: u64) -> bool
    ensures { result ≡ stands_by number (slice_get macs.now place) }
{
    match macs.get(place) {
        None => false,
        Some(own) => number_of(*own) == number,
    }
}

/// Puts an address among others in order, if it isn't there.
fn put_mac(macs: &mut Vec<Mac>, mac: Mac) -> Result<(), NoMemory>
    ensures address { OnOk result (IsAddress mac) }
    ensures with { OnOk result (Rise macs.old.items → IsWith macs.old.items mac macs.new.items) }
{
    let number = number_of(mac);
    let place = place_of(macs.as_slice(), number);
    if stands_at(macs.as_slice(), place, number) {
        return Ok(());
    }
    macs.insert(place, mac)?;
    Ok(())
}

/// The addresses that copies were sent by, in order; none where there are too many.
fn macs_of(alloc: Global, copies: &[Noted]) -> Result<Option<Vec<Mac>>, NoMemory>
    ensures some { IfOk result (λ found. IfSome found (λ macs. AreMacs copies.now (length copies.now) macs.items)) }
    ensures few { IfOk result (λ found. IfSome found (λ macs. length macs.items ≤ 1024)) }
    ensures none { IfOk result (λ found. IfNone found (HasManySources copies.now)) }
{
    // Each is put in its place as it comes: to sort the addresses of all copies takes 24 octets a copy.
    let mut macs = Vec::new(alloc);
    for i in 0..copies.len() {
        put_mac(&mut macs, source_of(&copies[i]))?;
        if macs.len() > MOST_SOURCES {
            return Ok(None);
        }
    }
    Ok(Some(macs))
}

/// Of each copy the index of its source among the addresses of all.
fn indexes_of(alloc: Global, copies: &[Noted], macs: &[Mac]) -> Result<Vec<u16>, NoMemory>
    requires few { length macs.now ≤ 1024 }
    requires macs { AreMacs copies.now (length copies.now) macs.now }
    ensures { IfOk result (λ indexes. AreIndexes copies.now macs.now indexes.items) }
{
    let mut indexes = Vec::with_capacity(alloc, copies.len())?;
    for i in 0..copies.len() {
        let number = number_of(source_of(&copies[i]));
        indexes.push(place_of(macs, number) as u16)?;
    }
    Ok(indexes)
}

/// The sources of copies; none where there are too many.
pub(crate) fn sources_of(alloc: Global, copies: &[Noted]) -> Result<Option<Sources>, NoMemory>
    ensures some { IfOk result (λ found. IfSome found (λ s. AreSources copies.now s.macs.items s.of_copy.items)) }
    ensures few { IfOk result (λ found. IfSome found (λ s. length s.macs.items ≤ 1024)) }
    ensures none { IfOk result (λ found. IfNone found (HasManySources copies.now)) }
{
    let Some(macs) = macs_of(alloc, copies)? else {
        return Ok(None);
    };
    let of_copy = indexes_of(alloc, copies, macs.as_slice())?;
    Ok(Some(Sources { macs, of_copy }))
}

/// Whether two addresses are one.
fn is_same(a: Mac, b: Mac) -> bool
    ensures { result ≡ is_same_address a b }
{
    a == b
}

/// An index, if an address stands there.
fn index_if(macs: &[Mac], place: usize, mac: Mac) -> Option<usize>
    ensures { result ≡ index_if macs.now place mac }
{
    match macs.get(place) {
        None => None,
        Some(own) => {
            if is_same(*own, mac) {
                Some(place)
            } else {
                None
            }
        }
    }
}

/// The index of an address among addresses in order; none where it isn't among them.
pub(crate) fn index_of(macs: &[Mac], mac: Mac) -> Option<usize>
    ensures found { IfSome result (λ k. slice_get macs.now k ≡ Some mac) }
    ensures none { IfNone result (Rise macs.now → Contains macs.now mac → ⊥) }
{
    let place = place_of(macs, number_of(mac));
    index_if(macs, place, mac)
}
