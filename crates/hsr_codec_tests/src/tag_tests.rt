//! What octets are.
ghost use Rattle.std.specs.Prelude.{◌≤◌};

use arrayvec::ArrayVec;
use hsr_frame::{FrameFault, MAX_FRAME, Mac, copied};
use hsr_tag::{EitherView, Frame, Seen, Spelled, classify, look_at};
use std::process::Abort;
use std::test::Fail;

/// The octets of a frame's copy on path 1 with the largest number, of a payload of this size.
fn copy(vlan: Option<u16>, size: usize) -> ArrayVec<u8, MAX_FRAME>
    requires { size ≤ 1500 }
{
    let payload = [7u8; 1500];
    let frame = Frame {
        dst: Mac::new([2, 0, 0, 0, 0, 1]),
        src: Mac::new([2, 0, 0, 0, 0, 2]),
        vlan,
        kind: 0x0800,
        payload: copied(&payload[..size]),
    };
    frame.tag(1, 65535).write()
}

/// Checks that the copy without a VLAN tag has `len` octets, and this tag behind two addresses.
fn check_tag(rt: &impl Abort, size: usize, len: usize, tag: [u8; 6])
    requires { size ≤ 1500 }
{
    let octets = copy(None, size);
    assert!(rt; octets.len() == len);
    assert!(rt; octets.as_slice().get(12..18) == Some(tag.as_slice()));
}

#[test]
fn largest_and_smallest_tags(rt: HostRuntime) {
    check_tag(&rt, 0, 20, [0x89, 0x2F, 0x10, 0x06, 0xFF, 0xFF]);
    check_tag(&rt, 1500, 1520, [0x89, 0x2F, 0x15, 0xE2, 0xFF, 0xFF]);
    assert_eq!(rt; copy(Some(5), 1500).len(), 1524);
}

/// The first copy of a send of AABB from 02-00-00-00-00-01 to 02-00-00-00-00-02, number 0.
const COPY: [u8; 22] = [
    2, 0, 0, 0, 0, 2, 2, 0, 0, 0, 0, 1, 0x89, 0x2F, 0x00, 0x08, 0x00, 0x00, 0x08, 0x00, 0xAA, 0xBB,
];

/// What octets are.
#[derive(Clone, Copy, PartialEq, Eq)]
enum Kind {
    Plain,
    Tagged,
    /// Read, and not written back to the same octets.
    Other,
}

/// How octets are read, once they were written back.
fn kind_of(octets: &[u8]) -> Result<Kind, FrameFault> {
    let (kind, written) = match classify(octets)? {
        Seen::Plain(frame) => (Kind::Plain, frame.write()),
        Seen::Tagged(frame) => (Kind::Tagged, frame.write()),
    };
    Ok(if written.as_slice() == octets {
        kind
    } else {
        Kind::Other
    })
}

/// How the copy is read by the grammar, once the octet at a place has this value.
fn changed_kind(place: usize, value: u8) -> Result<Kind, FrameFault> {
    match place {
        // the lowest bit of the source's first octet
        6 if value % 2 == 1 => Err(FrameFault::GroupSource),
        // another type than 892F: neither is 8100
        12 if value != 0x89 => Ok(Kind::Plain),
        13 if value != 0x2F => Ok(Kind::Plain),
        // the own type 8100; 892F needs two octets
        18 if value == 0x81 => Err(FrameFault::DoubleVlan),
        _ => Ok(Kind::Tagged),
    }
}

#[test]
fn every_prefix_of_a_copy(rt: HostRuntime) {
    for size in 0..COPY.len() {
        let expected = if size < 14 {
            Err(FrameFault::Short)
        } else if size < 20 {
            Err(FrameFault::ShortTag)
        } else {
            Ok(Kind::Tagged)
        };
        assert!(rt; kind_of(&COPY[..size]) == expected);
    }
}

#[test]
fn every_change_of_one_octet(rt: HostRuntime) {
    for place in 0..COPY.len() {
        for value in 0..=255 {
            let mut octets = COPY;
            octets[place] = value;
            assert!(rt; kind_of(&octets) == changed_kind(place, value));
        }
    }
}

/// The frame of the copy, before it is tagged.
const PLAIN: [u8; 16] = [2, 0, 0, 0, 0, 2, 2, 0, 0, 0, 0, 1, 0x08, 0x00, 0xAA, 0xBB];

/// Checks that octets are spelled in a head of this length and the payload, where that stands.
fn check_parted(rt: &impl Abort, spelled: &Spelled<'_>, head: usize) {
    let (front, rest) = spelled.pieces();
    assert!(rt; front.len() == head);
    assert!(rt; rest == [0xAA, 0xBB].as_slice());
}

/// Checks that the frame that octets spell, its copy for path 0, and the frame without its tag are parted so.
fn check_each_parted(rt: &impl Abort, octets: &[u8]) -> Result<(), Fail> {
    let Ok(seen) = look_at(octets) else {
        return Err("no frame".into());
    };
    match &seen.frame {
        EitherView::Plain(frame) => {
            check_parted(rt, &frame.spell(), 14);
            check_parted(rt, &frame.tag(0, 0).spell(), 20);
        }
        EitherView::Tagged(frame) => {
            check_parted(rt, &frame.spell(), 20);
            check_parted(rt, &frame.untag().spell(), 14);
        }
    }
    Ok(())
}

#[test]
fn tagged_and_untagged_where_they_stand(rt: HostRuntime) -> Result<(), Fail> {
    check_each_parted(&rt, &PLAIN)?;
    check_each_parted(&rt, &COPY)
}
