//! A frame in words.
ghost use Rattle.std.specs.Prelude.{◌≡◌, ◌++◌, OnOk, drop, option_map, take};
ghost use Rattle.hsr_tag.specs.Seen.{classified};
ghost use Rattle.hsr_judging_text.specs.Frames.{frame_text, front_octets, head_text, hex_text, octets_text, payload_in, seen_text, stretch_in, stretch_text};

use crate::words::{put_four, put_perhaps, wider};
use hsr_frame::{Mac, NoMemory};
use hsr_tag::{EitherView, look_at};
use hsr_text::{put, put_count, put_hex, put_mac, put_number};
use std::alloc::Global;

/// How many octets are told where not all are asked for.
const FRONT: usize = 32;

/// How many octets are told of a payload that differs.
const STRETCH: usize = 8;

/// Puts octets in hexadecimal digits last; a hyphen for none.
fn put_digits(text: &mut Vec<u8>, octets: &[u8]) -> Result<(), NoMemory>
    ensures { OnOk result (text.new.items ≡ text.old.items ++ hex_text octets.now) }
{
    if octets.len() == 0 {
        return put(text, "-");
    }
    put_hex(text, octets)
}

/// The first so many of some, or all where there are fewer.
fn first_of(octets: &[u8], most: usize) -> &[u8]
    ensures { result.now ≡ take most octets.now }
{
    if most <= octets.len() {
        &octets[..most]
    } else {
        octets
    }
}

/// What stands behind so many octets.
fn behind(octets: &[u8], at: usize) -> &[u8]
    ensures { result.now ≡ drop at octets.now }
{
    if at <= octets.len() {
        &octets[at..]
    } else {
        &octets[octets.len()..]
    }
}

/// Puts the first of many octets last, and how many there are.
#[tactic(auto, unfolding(crate::specs::Frames::front_octets))]
fn put_front(text: &mut Vec<u8>, octets: &[u8]) -> Result<(), NoMemory>
    ensures { OnOk result (text.new.items ≡ text.old.items ++ front_octets octets.now) }
{
    put_hex(text, first_of(octets, FRONT))?;
    put(text, "..")?;
    put_number(text, octets.len() as u64)
}

/// Puts octets last; a hyphen for none. Of more than 32 the first and how many, unless all are asked for.
fn put_octets(text: &mut Vec<u8>, octets: &[u8], all: bool) -> Result<(), NoMemory>
    ensures { OnOk result (text.new.items ≡ text.old.items ++ octets_text all octets.now) }
{
    if all || octets.len() <= FRONT {
        put_digits(text, octets)
    } else {
        put_front(text, octets)
    }
}

/// Puts addresses, number and type of a frame last.
#[tactic(auto, unfolding(crate::specs::Frames::head_text))]
fn put_head(
    alloc: Global,
    text: &mut Vec<u8>,
    src: Mac,
    dst: Mac,
    number: Option<u16>,
    ethertype: u16,
) -> Result<(), NoMemory>
    ensures { OnOk result (text.new.items ≡ text.old.items ++ head_text src dst number ethertype) }
{
    put(text, " from ")?;
    put_mac(alloc, text, src)?;
    put(text, " to ")?;
    put_mac(alloc, text, dst)?;
    put(text, " number ")?;
    put_perhaps(text, wider(number))?;
    put(text, " type ")?;
    put_four(text, ethertype)
}

/// Puts what octets are last; `number` is that of an untagged frame.
fn put_seen(
    alloc: Global,
    text: &mut Vec<u8>,
    octets: &[u8],
    number: Option<u16>,
) -> Result<(), NoMemory>
    ensures { OnOk result (text.new.items ≡ text.old.items
        ++ seen_text number (classified octets.now)) }
{
    match look_at(octets) {
        Ok(seen) => match &seen.frame {
            EitherView::Plain(frame) => {
                put_head(alloc, text, frame.src, frame.dst, number, frame.kind)
            }
            EitherView::Tagged(frame) => {
                put_head(
                    alloc,
                    text,
                    frame.src,
                    frame.dst,
                    Some(frame.seq),
                    frame.kind,
                )
            }
        },
        Err(fault) => put_count(text, b" malformed ", u64::from(fault.code())),
    }
}

/// Puts a frame in words last, and its octets; `number` is that of an untagged one.
#[tactic(auto, unfolding(crate::specs::Frames::frame_text))]
pub(crate) fn put_frame(
    alloc: Global,
    text: &mut Vec<u8>,
    octets: &[u8],
    number: Option<u16>,
    all: bool,
) -> Result<(), NoMemory>
    ensures { OnOk result (text.new.items ≡ text.old.items ++ frame_text octets.now number all) }
{
    put_seen(alloc, text, octets, number)?;
    put(text, " octets ")?;
    put_octets(text, octets, all)
}

/// Puts eight octets of a payload from a place on last; a hyphen for none.
fn put_part(text: &mut Vec<u8>, payload: &[u8], at: usize) -> Result<(), NoMemory>
    ensures { OnOk result (text.new.items ≡ text.old.items
        ++ hex_text (take 8 (drop at payload.now))) }
{
    put_digits(text, first_of(behind(payload, at), STRETCH))
}

/// Puts eight octets of the payload of a frame from a place on last; a hyphen for none.
fn put_payload(text: &mut Vec<u8>, octets: &[u8], at: usize) -> Result<(), NoMemory>
    ensures { OnOk result (text.new.items ≡ text.old.items
        ++ stretch_in at (payload_in (classified octets.now))) }
{
    match look_at(octets) {
        Ok(seen) => match &seen.frame {
            EitherView::Plain(frame) => put_part(text, frame.payload.as_slice(), at),
            EitherView::Tagged(frame) => put_part(text, frame.payload.as_slice(), at),
        },
        Err(_) => put(text, "-"),
    }
}

/// Puts eight octets of a payload from a place on last, behind a colon; a hyphen for none.
#[tactic(auto, unfolding(crate::specs::Frames::stretch_text))]
pub(crate) fn put_stretch(text: &mut Vec<u8>, octets: &[u8], at: usize) -> Result<(), NoMemory>
    ensures { OnOk result (text.new.items ≡ text.old.items ++ stretch_text octets.now at) }
{
    put(text, ":")?;
    put_payload(text, octets, at)
}
