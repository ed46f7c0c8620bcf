//! The payload of sampled values (IEC 61850-9-2).
ghost use Rattle.std.specs.Prelude.{◌≡◌, ◌++◌, ◌*◌, ◌+◌, ◌<◌, ◌≤◌, ◌^◌, IfOk, IfSome, OnOk};
ghost use Rattle.hsr_plan_payload.specs.Payload.{sample_count, sampled, sampled_asdu, sampled_asdus, sampled_data, sampled_head};

use crate::ber::{put_four, put_integer, put_pair, put_tagged, put_tagged_zeros};
use crate::frames::{Publisher, SampledFrame};
use crate::publishing::{framed, put_id, put_set};
use hsr_frame::NoMemory;
use std::alloc::Global;

/// smpCnt of the `number`-th sample since the start.
fn sample_count(rate: Option<usize>, number: usize) -> usize
    requires { IfSome rate (λ n. 1 ≤ n) }
    ensures { result ≡ sample_count rate number }
{
    match rate {
        Some(rate) => number % rate,
        None => number % 4000,
    }
}

/// Puts the names, the count and the revision of a sample behind others.
fn put_head(
    alloc: Global,
    out: &mut Vec<u8>,
    publisher: &Publisher<'_>,
    count: usize,
) -> Result<(), NoMemory>
    ensures { OnOk result (out.new.items ≡ out.old.items ++ sampled_head publisher.now count) }
{
    let mut number = Vec::new(alloc);
    put_pair(&mut number, count)?;
    let mut revision = Vec::new(alloc);
    put_four(&mut revision, 1)?;
    put_id(alloc, out, 0x80, publisher)?;
    put_set(alloc, out, 0x81, publisher)?;
    put_tagged(out, 0x82, number.as_slice())?;
    put_tagged(out, 0x83, revision.as_slice())
}

/// Puts how a sample is synchronized, and its data, behind others.
// No smpRate: it may be left out, and without smpMod behind it tells samples of a period, and none of a second.
fn put_data(alloc: Global, out: &mut Vec<u8>, spare: usize) -> Result<(), NoMemory>
    requires { spare ≤ 65536 }
    ensures { OnOk result (out.new.items ≡ out.old.items ++ sampled_data spare) }
{
    put_tagged(out, 0x85, &[2])?;
    put_tagged_zeros(alloc, out, 0x87, 64 + 8 * spare)
}

/// Puts the `number`-th sample since the start behind others.
fn put_asdu(
    alloc: Global,
    out: &mut Vec<u8>,
    publisher: &Publisher<'_>,
    rate: Option<usize>,
    number: usize,
    spare: usize,
) -> Result<(), NoMemory>
    requires rate { IfSome rate (λ n. 1 ≤ n) }
    requires spare { spare ≤ 65536 }
    ensures { OnOk result (out.new.items
        ≡ out.old.items ++ sampled_asdu publisher.now rate number spare) }
{
    let mut fields = Vec::new(alloc);
    put_head(alloc, &mut fields, publisher, sample_count(rate, number))?;
    put_data(alloc, &mut fields, spare)?;
    put_tagged(out, 0x30, fields.as_slice())
}

/// The samples of a frame, before which there are `first` since the start.
#[tactic(auto, using(crate::proofs::Samples::none, crate::proofs::Samples::one_more))]
fn asdus(
    alloc: Global,
    publisher: &Publisher<'_>,
    rate: Option<usize>,
    first: usize,
    count: usize,
    spare: usize,
) -> Result<Vec<u8>, NoMemory>
    requires rate { IfSome rate (λ n. 1 ≤ n) }
    requires first { first < 2 ^ 62 }
    requires count { count ≤ 8 }
    requires spare { spare ≤ 65536 }
    ensures { IfOk result (λ v. v.items ≡ sampled_asdus publisher.now rate first spare count) }
{
    let mut out = Vec::new(alloc);
    for number in 0..count {
        put_asdu(alloc, &mut out, publisher, rate, first + number, spare)?;
    }
    Ok(out)
}

/// The payload with `spare` times 8 octets of data more in each sample than the shortest one.
#[tactic(auto, unfolding(crate::specs::Payload::sampled))]
pub(crate) fn sampled(
    alloc: Global,
    publisher: &Publisher<'_>,
    frame: SampledFrame,
    spare: usize,
) -> Result<Vec<u8>, NoMemory>
    requires rate { IfSome frame.rate (λ n. 1 ≤ n) }
    requires asdus { frame.asdus ≤ 8 }
    requires count { frame.count < 2 ^ 32 }
    requires spare { spare ≤ 65536 }
    ensures { IfOk result (λ v. v.items ≡ sampled publisher.now frame spare) }
{
    let first = frame.count * frame.asdus;
    let asdus = asdus(alloc, publisher, frame.rate, first, frame.asdus, spare)?;
    let mut fields = Vec::new(alloc);
    put_integer(alloc, &mut fields, 0x80, frame.asdus)?;
    put_tagged(&mut fields, 0xA2, asdus.as_slice())?;
    let mut pdu = Vec::new(alloc);
    put_tagged(&mut pdu, 0x60, fields.as_slice())?;
    framed(alloc, publisher.appid, pdu.as_slice())
}
