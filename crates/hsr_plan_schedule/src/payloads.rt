//! The payload of a frame of a stream.
ghost use Rattle.std.specs.Prelude.{◌≡◌, ◌≤◌, ◌<◌, ◌^◌, ◌+◌, ◌*◌, IfOk, IfSome, option_map};
ghost use Rattle.hsr_plan_payload.specs.Payload.{goose_payload, sampled_payload};
ghost use Rattle.hsr_plan_schedule.specs.Payloads.{goose_frame, payload, publisher, rate_of, sampled_frame, start_at};

use crate::publication::{Publication, Turn};
use hsr_frame::NoMemory;
use hsr_plan_payload::{
    GooseFrame, Publisher, SampledFrame, counted, goose_payload, sampled_payload,
};
use hsr_plan_text::{Kind, Pace, Stream, Timing};
use std::alloc::Global;

/// More than any number of a plan that a payload tells: sizes apart, these are seconds, moments, APPIDs, starts and counts.
const NUMBER_LIMIT: u64 = 1 << 42;

/// More octets than any payload has.
const SIZE_LIMIT: usize = 65536;

/// Refuses a number that no plan that is read comes near.
fn near(number: u64) -> Result<usize, NoMemory>
    ensures value { IfOk result (λ n. n ≡ number) }
    ensures few { IfOk result (λ n. n ≤ 2 ^ 42) }
{
    if number <= NUMBER_LIMIT {
        Ok(number as usize)
    } else {
        Err(NoMemory)
    }
}

/// The start of that number; 0 where there is none.
pub(crate) fn start_at(timing: &Timing, state: usize) -> u64
    ensures { result ≡ start_at timing.now state }
{
    match timing.starts.as_slice().get(state) {
        Some(start) => *start,
        None => 0,
    }
}

/// The rate of samples, where it is said.
fn rate_of(pace: Pace) -> Option<usize>
    ensures value { result ≡ rate_of pace }
    ensures some { IfSome result (λ n. 1 ≤ n) }
{
    match pace {
        Pace::Gaps { .. } => None,
        Pace::Samples(rate) => Some(rate.per_second() as usize),
    }
}

/// A frame of GOOSE.
fn goose_frame(
    epoch: u64,
    publication: &Publication,
    timing: &Timing,
    turn: Turn,
) -> Result<GooseFrame, NoMemory>
    ensures value { IfOk result (λ f. f ≡ goose_frame epoch publication.now timing.now turn) }
    ensures few { IfOk result (λ f. f.state < 2 ^ 62) }
{
    let seconds = near(epoch)?;
    let start = near(start_at(timing, turn.state))?;
    let state = near(turn.state as u64)?;
    let live = near(publication.live)?;
    Ok(GooseFrame {
        live,
        since: seconds * 1_000_000 + start,
        state,
        count: turn.count,
    })
}

/// The APPID of the sender at an index.
fn appid(publication: &Publication, index: usize) -> Result<usize, NoMemory>
    ensures { IfOk result (λ n. n ≡ publication.now.first + index) }
{
    let first = near(publication.first)?;
    let index = near(index as u64)?;
    Ok(first + index)
}

/// The payload of a frame of GOOSE.
fn goose(
    alloc: Global,
    epoch: u64,
    publication: &Publication,
    timing: &Timing,
    size: usize,
    name: &[u8],
    turn: Turn,
) -> Result<Vec<u8>, NoMemory>
    ensures { IfOk result (λ v. v.items ≡ goose_payload (publisher publication.now turn.index name.now)
        (goose_frame epoch publication.now timing.now turn) size) }
{
    let frame = goose_frame(epoch, publication, timing, turn)?;
    let publisher = Publisher {
        device: name,
        appid: appid(publication, turn.index)?,
        control_block: publication.control_block.as_bytes(),
        data_set: publication.data_set.as_bytes(),
        id: id_of(publication),
    };
    goose_payload(alloc, &publisher, frame, size)
}

/// The id of a publication, where it is said.
fn id_of(publication: &Publication) -> Option<&[u8]>
    ensures { option_map (λ s. s.now) result ≡ publication.now.id }
{
    match &publication.id {
        Some(id) => Some(id.as_bytes()),
        None => None,
    }
}

/// The payload of a frame of sampled values.
fn sampled(
    alloc: Global,
    publication: &Publication,
    timing: &Timing,
    size: usize,
    name: &[u8],
    turn: Turn,
) -> Result<Vec<u8>, NoMemory>
    requires { size ≤ 65536 }
    ensures { IfOk result (λ v. v.items ≡ sampled_payload (publisher publication.now turn.index name.now)
        (sampled_frame timing.now turn) size) }
{
    let asdus = timing.asdus;
    // no plan that is read comes near these
    if asdus == 0 || asdus > 8 || turn.count >= 1 << 32 {
        return Err(NoMemory);
    }
    let frame = SampledFrame {
        rate: rate_of(timing.pace),
        asdus: asdus as usize,
        count: turn.count,
    };
    let publisher = Publisher {
        device: name,
        appid: appid(publication, turn.index)?,
        control_block: publication.control_block.as_bytes(),
        data_set: publication.data_set.as_bytes(),
        id: id_of(publication),
    };
    sampled_payload(alloc, &publisher, frame, size)
}

/// The payload of a frame that the name sends: of `size` octets, or the longest of its kind that isn't longer, or the
/// shortest.
pub(crate) fn payload(
    alloc: Global,
    epoch: u64,
    publication: &Publication,
    stream: &Stream,
    size: usize,
    name: &[u8],
    turn: Turn,
) -> Result<Vec<u8>, NoMemory>
    ensures { IfOk result (λ v. v.items ≡ payload epoch publication.now stream.now size name.now turn) }
{
    // no plan that is read comes near it
    if size > SIZE_LIMIT {
        return Err(NoMemory);
    }
    let timing = &stream.timing;
    match stream.framing.kind {
        Kind::Goose => goose(alloc, epoch, publication, timing, size, name, turn),
        Kind::SampledValues => sampled(alloc, publication, timing, size, name, turn),
        Kind::Number(_) => counted(alloc, size, turn.count),
    }
}
