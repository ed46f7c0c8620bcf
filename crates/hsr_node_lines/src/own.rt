//! Which copies begin sends of the device that no interface shows.
ghost use Rattle.std.specs.Prelude.{◌≡◌, IfOk, OnOk, option_map, slice_set, Some};
ghost use Rattle.hsr_node.specs.Copies.{plain_octets};
ghost use Rattle.hsr_node_lines.specs.Own.{begins_send, handed_with, is_handed, is_octets, is_recent, was_begun, was_handed};

use hsr_frame::{Mac, NoMemory};
use hsr_frame_copies::Copy;
use hsr_node::{Octets, plain_octets};
use std::alloc::Global;

/// The device, as far as its own sends are looked for.
#[derive(Clone, Copy, PartialEq, Eq)]
pub(crate) struct Danh {
    pub(crate) mac: Mac,
    /// Whether all that the host sends is in the capture.
    pub(crate) has_host: bool,
    /// So many microseconds after the host handed a frame down it leaves, at most.
    pub(crate) within: u64,
}

/// A supervision frame that the host handed down, and when, in microseconds.
#[derive(Drop)]
pub(crate) struct Handed {
    pub(crate) at: u64,
    pub(crate) octets: Octets,
}

/// How long a number is that of one send, in microseconds: twice as long as nodes remember it.
const NUMBER_TIME: u64 = 800_000;

/// How many supervision frames of the host are remembered.
const MOST_HANDED: usize = 64;

/// Whether a number that was begun at a moment is still that of the same send.
fn is_recent(at: u64, begun: Option<&Option<u64>>) -> bool
    ensures { result ≡ is_recent at (option_map (λ b. b.now) begun.entry) }
{
    match begun {
        Some(Some(before)) => at.saturating_sub(*before) < NUMBER_TIME,
        _ => false,
    }
}

/// Whether a number was begun less than 800 ms before, by when each was begun last.
fn was_begun(begun: &[Option<u64>], number: u16, at: u64) -> bool
    ensures { result ≡ was_begun begun.now number at }
{
    is_recent(at, begun.get(usize::from(number)))
}

/// Notes when a number was begun.
pub(crate) fn set_begun(begun: &mut [Option<u64>], number: u16, at: u64)
    ensures { begun.new ≡ slice_set begun.old number (Some at) }
{
    let number = usize::from(number);
    if number < begun.len() {
        begun[number] = Some(at);
    }
}

/// Remembers one more supervision frame of the host, and forgets the oldest where there are too many.
pub(crate) fn note_handed(handed: &mut Vec<Handed>, one: Handed) -> Result<(), NoMemory>
    ensures { OnOk result (handed.new.items ≡ handed_with handed.old.items one) }
{
    if handed.len() >= MOST_HANDED {
        let _oldest = handed.remove(0);
    }
    handed.push(one)?;
    Ok(())
}

/// Whether octets are those of a frame.
fn is_octets(plain: &Option<Octets>, octets: &[u8]) -> bool
    ensures { result ≡ is_octets plain.now octets.now }
{
    match plain {
        Some(plain) => plain.as_slice() == octets,
        None => false,
    }
}

/// Whether the host handed down a frame, so short before a moment.
fn is_handed(within: u64, at: u64, plain: &Option<Octets>, one: &Handed) -> bool
    ensures { result ≡ is_handed within at plain.now one.now }
{
    at.saturating_sub(one.at) <= within && is_octets(plain, one.octets.as_slice())
}

/// Whether the host handed down a frame, so short before a moment, among what is remembered.
fn was_handed(within: u64, at: u64, plain: &Option<Octets>, handed: &[Handed]) -> bool
    ensures { result ≡ was_handed within at plain.now handed.now }
{
    handed.iter().any(|one| is_handed(within, at, plain, one))
}

/// The frame of a copy, without its tag.
fn plain_of(alloc: Global, octets: &[u8]) -> Result<Option<Octets>, NoMemory>
    ensures { IfOk result (λ plain. plain ≡ plain_octets octets.now) }
{
    match plain_octets(octets) {
        Some(spelled) => Ok(Some(Octets::from_spelled(alloc, &spelled)?)),
        None => Ok(None),
    }
}

/// Whether a copy that left by a port begins a send: it has the device's own address, and its number wasn't begun less than 800 ms
/// before. Where all that the host sends is in the capture only supervision does, and none that the host handed down shortly before.
pub(crate) fn begins_send(
    alloc: Global,
    danh: &Danh,
    begun: &[Option<u64>],
    handed: &[Handed],
    at: u64,
    copy: &Copy<'_>,
    octets: &[u8],
) -> Result<bool, NoMemory>
    ensures { IfOk result (λ begins. begins ≡ begins_send danh.now begun.now handed.now at copy.now octets.now) }
{
    if copy.src != danh.mac || was_begun(begun, copy.seq, at) {
        return Ok(false);
    }
    if !copy.is_supervision() {
        return Ok(!danh.has_host);
    }
    let plain = plain_of(alloc, octets)?;
    Ok(!was_handed(danh.within, at, &plain, handed))
}
