//! Supervision payloads: those of each kind of node, and each prefix and each change of one octet of one.
use hsr_frame::Mac;
use hsr_supervision::{SupFault, SupKind, Supervision};
use std::process::Abort;
use std::test::Fail;

/// A RedBox tells of a station: the first TLV, that of the RedBox, and the end.
const PAYLOAD: [u8; 22] = [
    0, 1, 0, 0, 23, 6, 2, 0, 0, 0, 0, 10, 30, 6, 2, 0, 0, 0, 0, 9, 0, 0,
];

/// Whether a RedBox is named, or why the octets are no payload.
fn redbox_in(octets: &[u8]) -> Result<bool, SupFault> {
    let said = Supervision::read(octets)?;
    Ok(said.redbox.is_some())
}

/// The same of the first `size` octets, by the grammar. A payload may end after a TLV, and not within one, nor within two octets.
fn prefix_has(size: usize) -> Result<bool, SupFault> {
    match size {
        12 => Ok(false),
        20 | 22 => Ok(true),
        _ => Err(SupFault::Truncated),
    }
}

#[test]
fn every_prefix_of_a_payload(rt: HostRuntime) {
    for size in 0..=PAYLOAD.len() {
        assert!(rt; redbox_in(&PAYLOAD[..size]) == prefix_has(size));
    }
}

/// The same once the octet at a place has this value.
fn changed_has(place: usize, value: u8) -> Result<bool, SupFault> {
    match place {
        // the type and the length of the first TLV
        4 if value != 20 && value != 21 && value != 23 => Err(SupFault::FirstKind),
        5 if value != 6 => Err(SupFault::FirstLength),
        // the end, or another TLV, which is stepped over
        12 if value != 30 => Ok(false),
        13 if value != 6 => Err(SupFault::RedBoxLength),
        // a second RedBox, whose length is that of no address
        20 if value == 30 => Err(SupFault::RedBoxLength),
        _ => Ok(true),
    }
}

#[test]
fn every_change_of_one_octet(rt: HostRuntime) {
    for place in 0..PAYLOAD.len() {
        for value in 0..=255 {
            let mut octets = PAYLOAD;
            octets[place] = value;
            assert!(rt; redbox_in(&octets) == changed_has(place, value));
        }
    }
}

/// What a payload says that begins so and ends with the address 02-00-00-00-00-02.
fn said(front: [u8; 6]) -> Option<Supervision> {
    let [a, b, c, d, e, f] = front;
    Supervision::read(&[a, b, c, d, e, f, 2, 0, 0, 0, 0, 2]).ok()
}

#[test]
fn supervision_payloads(rt: HostRuntime) {
    let told = [
        ([0, 1, 0, 0, 23, 6], 0, 1, 0, SupKind::Hsr),
        ([0, 1, 1, 5, 20, 6], 0, 1, 261, SupKind::PrpDiscard),
        ([0xF0, 2, 0, 5, 21, 6], 15, 2, 5, SupKind::PrpAccept),
    ];
    for (front, path, version, seq, kind) in told {
        let about = Mac::new([2, 0, 0, 0, 0, 2]);
        let wanted = Supervision {
            path,
            version,
            seq,
            kind,
            about,
            redbox: None,
        };
        assert!(rt; said(front) == Some(wanted));
    }
}

/// Checks that what octets say of a station is written in them and zeros behind them.
fn check_written_again(rt: &impl Abort, octets: &[u8]) -> Result<(), Fail> {
    let Ok(said) = Supervision::read(octets) else {
        return Err("no payload".into());
    };
    let written = said.write();
    let Some(rest) = written.as_slice().strip_prefix(octets) else {
        return Err("another front".into());
    };
    assert!(rt; rest.len() == 24);
    assert!(rt; rest.iter().all(|octet| *octet == 0));
    Ok(())
}

#[test]
fn supervision_of_a_redbox_is_written_again(rt: HostRuntime) -> Result<(), Fail> {
    check_written_again(&rt, &PAYLOAD)
}
