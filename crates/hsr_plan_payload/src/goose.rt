//! The payload of GOOSE (IEC 61850-8-1).
ghost use Rattle.std.specs.Prelude.{◌≡◌, ◌++◌, ◌<◌, ◌^◌, IfOk, OnOk};
ghost use Rattle.hsr_plan_payload.specs.Payload.{goose, goose_counts, goose_data, goose_flags, goose_names, utc_time};
ghost use Rattle.hsr_plan_payload.specs.Ber.{tagged};

use crate::ber::{put_four, put_integer, put_tagged, put_tagged_zeros, put_three};
use crate::frames::{GooseFrame, Publisher};
use crate::publishing::{framed, put_block, put_id, put_set};
use hsr_frame::NoMemory;
use std::alloc::Global;

/// Puts the names of a PDU, and how long it is to live, behind others.
fn put_names(
    alloc: Global,
    out: &mut Vec<u8>,
    publisher: &Publisher<'_>,
    live: usize,
) -> Result<(), NoMemory>
    ensures { OnOk result (out.new.items ≡ out.old.items ++ goose_names publisher.now live) }
{
    put_block(alloc, out, publisher)?;
    put_integer(alloc, out, 0x81, live)?;
    put_set(alloc, out, 0x82, publisher)?;
    put_id(alloc, out, 0x83, publisher)
}

/// A moment, of which it is told that ten bits of its fraction are right.
fn utc_time(alloc: Global, us: usize) -> Result<Vec<u8>, NoMemory>
    ensures { IfOk result (λ v. v.items ≡ utc_time us) }
{
    let mut time = Vec::new(alloc);
    put_four(&mut time, us / 1_000_000)?;
    put_three(&mut time, us % 1_000_000 * 16_777_216 / 1_000_000)?;
    // The quality of a time: no flag, and how many bits are right (IEC 61850-8-1, UtcTime).
    time.push(10)?;
    Ok(time)
}

/// Puts the time and the counts of a PDU behind others.
fn put_counts(alloc: Global, out: &mut Vec<u8>, frame: GooseFrame) -> Result<(), NoMemory>
    requires { frame.state < 2 ^ 62 }
    ensures { OnOk result (out.new.items ≡ out.old.items ++ goose_counts frame) }
{
    let time = utc_time(alloc, frame.since)?;
    put_tagged(out, 0x84, time.as_slice())?;
    // stNum counts from 1, and sqNum from 0.
    put_integer(alloc, out, 0x85, frame.state + 1)?;
    put_integer(alloc, out, 0x86, frame.count)
}

/// Puts the flags of a PDU behind others.
fn put_flags(out: &mut Vec<u8>) -> Result<(), NoMemory>
    ensures { OnOk result (out.new.items ≡ out.old.items ++ goose_flags) }
{
    put_tagged(out, 0x87, &[0])?;
    put_tagged(out, 0x88, &[1])?;
    put_tagged(out, 0x89, &[0])?;
    put_tagged(out, 0x8A, &[2])
}

/// Puts the data of a PDU behind others.
fn put_data(alloc: Global, out: &mut Vec<u8>, state: usize, spare: usize) -> Result<(), NoMemory>
    ensures { OnOk result (out.new.items ≡ out.old.items ++ goose_data state spare) }
{
    let mut value = Vec::new(alloc);
    put_tagged(&mut value, 0x83, &[(state % 2) as u8])?;
    put_tagged_zeros(alloc, &mut value, 0x89, spare)?;
    put_tagged(out, 0xAB, value.as_slice())
}

/// The payload with `spare` octets of data more than the shortest one.
#[tactic(auto, unfolding(crate::specs::Payload::goose))]
pub(crate) fn goose(
    alloc: Global,
    publisher: &Publisher<'_>,
    frame: GooseFrame,
    spare: usize,
) -> Result<Vec<u8>, NoMemory>
    requires { frame.state < 2 ^ 62 }
    ensures { IfOk result (λ v. v.items ≡ goose publisher.now frame spare) }
{
    let mut fields = Vec::new(alloc);
    put_names(alloc, &mut fields, publisher, frame.live)?;
    put_counts(alloc, &mut fields, frame)?;
    put_flags(&mut fields)?;
    put_data(alloc, &mut fields, frame.state, spare)?;
    let mut pdu = Vec::new(alloc);
    put_tagged(&mut pdu, 0x61, fields.as_slice())?;
    framed(alloc, publisher.appid, pdu.as_slice())
}
