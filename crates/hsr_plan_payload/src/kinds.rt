//! The payloads of all kinds.
ghost use Rattle.std.specs.Prelude.{◌≡◌, ◌-◌, ◌/◌, ◌*◌, ◌<◌, ◌≤◌, ◌^◌, length, IfOk, IfSome};
ghost use Rattle.hsr_plan_payload.specs.Payload.{counted, goose, goose_payload, longest, sampled, sampled_payload};

use crate::ber::{put_four, put_zeros};
use crate::frames::{GooseFrame, Publisher, SampledFrame};
use crate::goose::goose;
use crate::sampled_values::sampled;
use hsr_frame::NoMemory;
use std::alloc::Global;

/// The longest payload of GOOSE that fits, of those with at most `most` octets to spare; or the shortest.
#[tactic(auto, using(crate::proofs::Longest::fits, crate::proofs::Longest::longer))]
fn longest_goose(
    alloc: Global,
    publisher: &Publisher<'_>,
    frame: GooseFrame,
    size: usize,
    most: usize,
) -> Result<Vec<u8>, NoMemory>
    requires { frame.state < 2 ^ 62 }
    ensures { IfOk result (λ v. v.items ≡ longest (goose publisher.now frame) size most) }
{
    if most == 0 {
        return goose(alloc, publisher, frame, 0);
    }
    // From the most downwards: fields of lengths grow too, so the first that fits is the longest.
    let payload = goose(alloc, publisher, frame, most)?;
    if payload.len() <= size {
        return Ok(payload);
    }
    longest_goose(alloc, publisher, frame, size, most - 1)
}

/// The longest payload of sampled values that fits, of those with at most `most` times 8 octets to spare in each
/// sample; or the shortest.
#[tactic(auto, using(crate::proofs::Longest::fits, crate::proofs::Longest::longer))]
fn longest_sampled(
    alloc: Global,
    publisher: &Publisher<'_>,
    frame: SampledFrame,
    size: usize,
    most: usize,
) -> Result<Vec<u8>, NoMemory>
    requires rate { IfSome frame.rate (λ n. 1 ≤ n) }
    requires asdus { frame.asdus ≤ 8 }
    requires count { frame.count < 2 ^ 32 }
    requires most { most ≤ 65536 }
    ensures { IfOk result (λ v. v.items ≡ longest (sampled publisher.now frame) size most) }
{
    if most == 0 {
        return sampled(alloc, publisher, frame, 0);
    }
    let payload = sampled(alloc, publisher, frame, most)?;
    if payload.len() <= size {
        return Ok(payload);
    }
    longest_sampled(alloc, publisher, frame, size, most - 1)
}

/// The payload of a frame of GOOSE (IEC 61850-8-1): the longest of at most `size` octets, or the shortest. `NoMemory`
/// if allocation fails.
pub fn goose_payload(
    alloc: Global,
    publisher: &Publisher<'_>,
    frame: GooseFrame,
    size: usize,
) -> Result<Vec<u8>, NoMemory>
    requires { frame.state < 2 ^ 62 }
    ensures { IfOk result (λ v. v.items ≡ goose_payload publisher.now frame size) }
{
    let shortest = goose(alloc, publisher, frame, 0)?.len();
    longest_goose(alloc, publisher, frame, size, size.saturating_sub(shortest))
}

/// The payload of a frame of sampled values (IEC 61850-9-2), with 1 to 8 samples of 64 octets of data, and as many times
/// 8 more in each as fit into `size` octets. `NoMemory` if allocation fails.
pub fn sampled_payload(
    alloc: Global,
    publisher: &Publisher<'_>,
    frame: SampledFrame,
    size: usize,
) -> Result<Vec<u8>, NoMemory>
    requires rate { IfSome frame.rate (λ n. 1 ≤ n) }
    requires some { 1 ≤ frame.asdus }
    requires few { frame.asdus ≤ 8 }
    requires count { frame.count < 2 ^ 32 }
    requires size { size ≤ 65536 }
    ensures { IfOk result (λ v. v.items ≡ sampled_payload publisher.now frame size) }
{
    let shortest = sampled(alloc, publisher, frame, 0)?.len();
    let most = size.saturating_sub(shortest) / (8 * frame.asdus);
    longest_sampled(alloc, publisher, frame, size, most)
}

/// The payload of a frame of any other type: the number of the frame in four octets, and zeros, `size` octets in all.
/// `NoMemory` if allocation fails.
pub fn counted(alloc: Global, size: usize, count: usize) -> Result<Vec<u8>, NoMemory>
    ensures { IfOk result (λ v. v.items ≡ counted size count) }
{
    let mut payload = Vec::new(alloc);
    put_four(&mut payload, count)?;
    // A payload of fewer than four octets has only a front of the count.
    payload.truncate(size);
    put_zeros(&mut payload, size.saturating_sub(4))?;
    Ok(payload)
}
