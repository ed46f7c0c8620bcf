//! Copies behind a greater number of their source and priority, on their direction.
ghost use Rattle.std.specs.Prelude.{◌≡◌, ◌<◌, ◌++◌, length, map, option_to_list, IfOk, OnOk};
ghost use Rattle.hsr_sightings.specs.Copies.{is_behind, is_passed, times_before};
ghost use Rattle.hsr_sightings.specs.Keys.{beside_key, priority_of};
ghost use Rattle.hsr_sightings.specs.Passed.{beside_keyed, is_passed_at, overtaken_in, top_after, top_by};
ghost use Rattle.hsr_sightings.specs.Read.{AreOvertaken, AreRead, TellsEach};

use crate::ring::FORGET_TIME;
use hsr_frame::NoMemory;
use hsr_frame_groups::{FRAME_TIME, Noted};
use hsr_recent_table::{Keyed, Previous};
use std::alloc::Global;

/// A copy that was overtaken, by its index, and the number that it is behind.
#[derive(Clone, Copy, PartialEq, Eq)]
pub struct Overtaken {
    pub copy: u32,
    pub behind: u16,
}

/// The priority of a copy's VLAN tag.
fn priority_of(caught: &Noted) -> u16
    ensures same { result ≡ priority_of caught.now }
    ensures small { result < 8 }
{
    caught.vlan().unwrap_or(0) / 8192
}

/// A direction, a priority and a source, as one number.
fn key_of(caught: &Noted) -> u64
    requires { caught.now.direction < 320 }
    ensures { result ≡ beside_key caught.now }
{
    let [a, b, c, d, e, f] = caught.source().octets();
    let place = caught.direction() as u64 * 8 + u64::from(priority_of(caught));
    u64::from_be_bytes([a, b, c, d, e, f, 0, 0]) + place
}

/// The moment of a copy, and its direction, priority and source as one number.
fn keyed(caught: &Noted) -> Keyed
    requires { caught.now.direction < 320 }
    ensures { result ≡ beside_keyed caught.now }
{
    Keyed {
        at: caught.at(),
        key: key_of(caught),
    }
}

/// Whether a number is behind another one, by at most 4096.
fn is_behind(number: u16, top: u16) -> bool
    ensures { result ≡ is_behind number top }
{
    (u32::from(number) + 65536 - u32::from(top)) % 65536 >= 61440
}

/// Whether a copy is behind the greatest so far, less than 400 ms after that.
fn is_passed(top: &Noted, caught: &Noted) -> bool
    ensures { result ≡ is_passed (Some top.now) caught.now }
{
    is_behind(caught.seq(), top.seq()) && caught.at().saturating_sub(top.at()) < FORGET_TIME
}

/// The same of the copy at an index, where the greatest so far is told by its index.
fn is_passed_at(copies: &[Noted], top: Option<u32>, i: usize) -> bool
    requires { i < length copies.now }
    ensures { result ≡ is_passed_at copies.now top i }
{
    let Some(k) = top else {
        return false;
    };
    match copies.get(k as usize) {
        None => false,
        Some(top) => is_passed(top, &copies[i]),
    }
}

/// The greatest so far at the previous copy; none where there is none.
fn top_by(tops: &[Option<u32>], found: Option<u32>) -> Option<u32>
    ensures { result ≡ top_by tops.now found }
{
    match found {
        None => None,
        Some(j) => tops.get(j as usize).copied().unwrap_or(None),
    }
}

/// The greatest so far, with the copy at an index.
fn top_after(copies: &[Noted], carried: u8, top: Option<u32>, i: u32) -> Option<u32>
    requires { i < length copies.now }
    ensures { result ≡ top_after copies.now carried top i }
{
    if carried == 0 && !is_passed_at(copies, top, i as usize) {
        Some(i)
    } else {
        top
    }
}

/// What is told of the copy at an index, if it was overtaken.
fn overtaken_in(copies: &[Noted], carried: u8, top: Option<u32>, i: u32) -> Option<Overtaken>
    requires { i < length copies.now }
    ensures { result ≡ overtaken_in copies.now carried top i }
{
    let Some(k) = top else {
        return None;
    };
    let Some(top) = copies.get(k as usize) else {
        return None;
    };
    if carried == 0 && is_passed(top, &copies[i as usize]) {
        Some(Overtaken {
            copy: i,
            behind: top.seq(),
        })
    } else {
        None
    }
}

/// Puts what is told of a copy, if it was overtaken, behind others.
fn put_overtaken(overtaken: &mut Vec<Overtaken>, own: Option<Overtaken>) -> Result<(), NoMemory>
    ensures { OnOk result (overtaken.new.items ≡ overtaken.old.items ++ option_to_list own) }
{
    if let Some(own) = own {
        overtaken.push(own)?;
    }
    Ok(())
}

/// The copies that were overtaken, in the order of time: the first copy of a frame on its direction, behind a greater number of its
/// source and priority, less than 400 ms after that.
pub fn overtaken_of(
    alloc: Global,
    copies: &[Noted],
    firsts: &[u32],
    carried: &[u8],
) -> Result<Vec<Overtaken>, NoMemory>
    requires read { AreRead copies.now firsts.now }
    requires carried { TellsEach times_before copies.now carried.now }
    ensures { IfOk result (λ overtaken. AreOvertaken copies.now overtaken.items) }
{
    let mut previous = Previous::new(alloc, FRAME_TIME);
    // Of each copy the greatest so far with it: of the first copies of frames on its direction, of its source and priority.
    let mut tops = Vec::with_capacity(alloc, copies.len())?;
    let mut overtaken = Vec::new(alloc);
    for i in 0..copies.len() {
        let found = previous.next(alloc, keyed(&copies[i]), i as u32)?;
        let top = top_by(tops.as_slice(), found);
        let own = overtaken_in(copies, carried[i], top, i as u32);
        put_overtaken(&mut overtaken, own)?;
        tops.push(top_after(copies, carried[i], top, i as u32))?;
    }
    Ok(overtaken)
}
