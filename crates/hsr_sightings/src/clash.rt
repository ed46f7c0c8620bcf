//! Copies that begin frames, and those of them that say something else than the latest copy of their source and number: two devices with
//! one address.
ghost use Rattle.std.specs.Prelude.{◌≡◌, ◌<◌, length, IfOk};
ghost use Rattle.hsr_frame_groups.specs.Frames.{key_of};
ghost use Rattle.hsr_sightings.specs.Copies.{is_clash};
ghost use Rattle.hsr_sightings.specs.Clash.{clash_by, copy_key, says_other};
ghost use Rattle.hsr_sightings.specs.Frames.{begins};
ghost use Rattle.hsr_sightings.specs.Read.{AreRead, TellsEach};

use crate::ring::FORGET_TIME;
use hsr_frame::NoMemory;
use hsr_frame_copies::says_same;
use hsr_frame_groups::{Caught, FRAME_TIME, key_of};
use hsr_recent_table::{Keyed, Previous};
use std::alloc::Global;

/// The moment of a copy, and its source and its number as one number.
fn keyed(caught: &Caught<'_>) -> Keyed
    ensures { result ≡ copy_key caught.now }
{
    Keyed {
        at: caught.at(),
        key: key_of(caught),
    }
}

/// Whether a copy says something else than an earlier one, less than 400 ms before.
fn differs(latest: &Caught<'_>, caught: &Caught<'_>) -> bool
    ensures { result ≡ says_other latest.now caught.now }
{
    caught.at().saturating_sub(latest.at()) < FORGET_TIME
        && !says_same(&latest.copy(), &caught.copy())
}

/// Whether the copy at an index begins a frame, and the latest copy of its source and number says something else, less than 400 ms
/// before.
fn clash_by(copies: &[Caught<'_>], first: u32, found: Option<u32>, i: usize) -> bool
    requires { i < length copies.now }
    ensures { result ≡ clash_by copies.now first found i }
{
    if first as usize != i {
        return false;
    }
    let Some(j) = found else {
        return false;
    };
    match copies.get(j as usize) {
        None => false,
        Some(latest) => differs(latest, &copies[i]),
    }
}

/// Of each copy, whether it begins a frame, and the latest copy of its source and number says something else, less than 400 ms before.
pub fn clashes_of(
    alloc: Global,
    copies: &[Caught<'_>],
    firsts: &[u32],
) -> Result<Vec<bool>, NoMemory>
    requires { AreRead copies.now firsts.now }
    ensures { IfOk result (λ clashes. TellsEach is_clash copies.now clashes.items) }
{
    let mut previous = Previous::new(alloc, FRAME_TIME);
    let mut clashes = Vec::with_capacity(alloc, copies.len())?;
    for i in 0..copies.len() {
        let found = previous.next(alloc, keyed(&copies[i]), i as u32)?;
        clashes.push(clash_by(copies, firsts[i], found, i))?;
    }
    Ok(clashes)
}

/// Of each copy, whether it begins a frame.
pub fn begins_of(
    alloc: Global,
    copies: &[Caught<'_>],
    firsts: &[u32],
) -> Result<Vec<bool>, NoMemory>
    requires { AreRead copies.now firsts.now }
    ensures { IfOk result (λ told. TellsEach begins copies.now told.items) }
{
    let mut told = Vec::new(alloc);
    for i in 0..copies.len() {
        told.push(firsts[i] as usize == i)?;
    }
    Ok(told)
}
