//! What a pcapng file tells, block by block.
ghost use Rattle.std.specs.Prelude.{◌≡◌, ◌+◌, ◌<◌, ◌≤◌, drop, length, Ok, Err, IfOk, IfErr, IfNone, IfSome};
ghost use Rattle.hsr_capture_reader.specs.declared.fault.CaptureFault.{CaptureFault};
ghost use Rattle.hsr_capture_reader.specs.declared.fault.ReadFault.TheVariants.{Refused};
ghost use Rattle.hsr_capture_reader.specs.declared.numbers.ByteOrder.TheVariants.{Little};
ghost use Rattle.hsr_capture_reader.specs.Blocks.{blocks_past, start_of};
ghost use Rattle.hsr_capture_reader.specs.Pcapng.{pcapng_of, read_blocks};
ghost use Rattle.hsr_capture_reader.specs.Reading.{Fails};
ghost use Rattle.hsr_capture_reader.specs.Rooms.{Reads};

use crate::blocks::{Start, block_of, start_of};
use crate::fault::ReadFault;
use crate::numbers::ByteOrder;
use crate::options::behind;
use crate::pcapng::told;
use crate::reading::{Reading, nothing_read, refused};
use std::alloc::Global;

/// Where the block at an offset of its file starts and ends, behind blocks of a byte order; nothing where the file breaks off
/// before its end.
fn start_at(offset: usize, before: ByteOrder, octets: &[u8]) -> Result<Option<Start>, ReadFault>
    ensures found { IfOk result (λ s. start_of before octets.now ≡ Ok s) }
    ensures refused { IfErr result (λ e. (f : CaptureFault) × (start_of before octets.now ≡ Err f)
        × (e ≡ Refused (record { offset = offset; fault = f }))) }
    ensures shortest { IfOk result (λ s. IfSome s (λ start. 12 ≤ start.len)) }
    ensures room { IfOk result (λ s. IfSome s (λ start. start.len ≤ length octets.now)) }
{
    match start_of(before, octets) {
        Ok(start) => Ok(start),
        Err(fault) => Err(refused(offset, fault)),
    }
}

/// A block that stands first, at an offset of its file, with what was read before, and where it starts and ends; where the file
/// breaks off before its end, what was read.
#[tactic(auto, using(crate::proofs::Walking::goes_on, crate::proofs::Walking::fails_there, crate::proofs::Walking::breaks_off, crate::proofs::Walking::is_refused, crate::proofs::Places::body_stands))]
fn block_told<'a>(
    fcs: u8,
    reading: Reading<'a>,
    offset: usize,
    before: ByteOrder,
    left: &'a [u8],
) -> Result<(Reading<'a>, Option<Start>), ReadFault>
    requires some { 0 < length left.now }
    requires left { left.now ≡ drop offset reading.file }
    requires behind { reading.reached ≤ offset }
    ensures goes_on { IfOk result (λ s. IfSome s.1 (λ start.
        read_blocks fcs reading.entry.read (blocks_past 0 offset before left.now)
        ≡ read_blocks fcs s.0.read
        (blocks_past 0 (offset + start.len) start.order (drop start.len left.now)))) }
    ensures room { IfOk result (λ s. IfSome s.1 (λ start.
        (0 < start.len) × (start.len ≤ length left.now))) }
    ensures ends { IfOk result (λ s. IfNone s.1
        (read_blocks fcs reading.entry.read (blocks_past 0 offset before left.now) ≡ Ok s.0.read)) }
    ensures fails { IfErr result (λ e.
        Fails e (read_blocks fcs reading.entry.read (blocks_past 0 offset before left.now))) }
    ensures file { IfOk result (λ s. s.0.file ≡ reading.entry.file) }
    ensures reached { IfOk result (λ s. IfSome s.1 (λ start. s.0.reached ≤ offset + start.len)) }
{
    let mut reading = reading;
    let Some(start) = start_at(offset, before, left)? else {
        reading.is_short = true;
        return Ok((reading, None));
    };
    let block = block_of(offset, start, left);
    let reading = told(fcs, reading, &block)?;
    Ok((reading, Some(start)))
}

/// What the blocks of a file tell, the first of which stands at its front.
#[tactic(auto, using(crate::proofs::Walking::is_over))]
fn read_blocks<'a>(fcs: u8, reading: Reading<'a>) -> Result<Reading<'a>, ReadFault>
    requires { reading.reached ≡ 0 }
    ensures value { Reads result (read_blocks fcs reading.entry.read (blocks_past 0 0 Little reading.entry.file)) }
    ensures file { IfOk result (λ next. next.file ≡ reading.entry.file) }
{
    let mut reading = reading;
    let mut order = ByteOrder::Little;
    let mut offset = 0;
    let mut left = reading.file;
    while !left.is_empty() {
        let (next, start) = block_told(fcs, reading, offset, order, left)?;
        reading = next;
        let Some(start) = start else {
            return Ok(reading);
        };
        order = start.order;
        offset += start.len;
        left = behind(left, start.len);
    }
    reading.is_short = false;
    Ok(reading)
}

/// What a pcapng file tells; what its interfaces don't say of frame check sequences is given.
#[tactic(auto, unfolding(crate::specs::Pcapng::pcapng_of))]
pub(crate) fn pcapng_of<'a>(
    alloc: Global,
    fcs: u8,
    octets: &'a [u8],
) -> Result<Reading<'a>, ReadFault>
    requires { length octets.now ≤ 268435456 }
    ensures value { Reads result (pcapng_of fcs octets.now) }
    ensures file { IfOk result (λ reading. reading.file ≡ octets.now) }
{
    read_blocks(fcs, nothing_read(alloc, octets))
}
