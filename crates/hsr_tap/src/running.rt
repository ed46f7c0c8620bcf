//! The lines of a capture that a reader gives, written; or a fault's line.
ghost use Rattle.std.specs.Prelude.{◌≡◌, ℕ, List, Ok, Err, IfErr, IfOk, IfSome, option_map};
ghost use Rattle.hsr_tap.specs.Ends.{Ends, IsDelivered, Taps, Tells};
ghost use Rattle.hsr_capture_reader.specs.Capture.{capture_of, most_octets};
ghost use Rattle.hsr_text.specs.Whole.{IsWhole};
ghost use Rattle.hsr_tap.specs.Tapping.{AreInOrder, Describes, HasLines, IsNoInput, IsTold, IsUnlined, IsUntold, given_by};

use crate::fault::{Fault, fault_line};
use hsr_capture_reader::{Capture, Packet};
use hsr_frame::NoMemory;
use hsr_node_lines::{Lines, LinesFault, lines_of};
use hsr_packet_order::sort_by_time;
use hsr_tap_device::{Device, read_device};
use hsr_text::read_text;
use std::alloc::Global;
use std::io::{self, Read, Write};

/// The most octets of a capture.
const MOST: usize = 1 << 28;

/// The status of a process that wrote what was asked for.
pub(crate) const TOLD: u8 = 0;

/// The status of a process that a fault ended.
const FAULT: u8 = 1;

/// The device that a document describes, if there is one.
#[tactic(auto, using(crate::proofs::Untold::no_device))]
fn given_by(alloc: Global, document: Option<&str>) -> Result<Option<Device>, Fault>
    ensures found { IfOk result (λ device.
        given_by (option_map (λ s. s.now) document.entry) ≡ Ok device) }
    ensures fault { IfErr result (λ fault. (fcs : ℕ) (octets : List ℕ)
        → IsUntold (option_map (λ s. s.now) document.entry) fcs octets fault) }
{
    match document {
        Some(document) => Ok(Some(read_device(alloc, document)?)),
        None => Ok(None),
    }
}

/// The packets of a file in the order of time.
pub(crate) fn in_order<'a>(packets: Vec<Packet<'a>>) -> Result<Vec<Packet<'a>>, NoMemory>
    ensures { IfOk result (λ after. AreInOrder packets.entry.items after.items) }
{
    let mut packets = packets;
    sort_by_time(&mut packets)?;
    Ok(packets)
}

/// The lines of a capture, for a device, if there is one.
#[tactic(auto, using(crate::proofs::Told::has_lines, crate::proofs::Told::unlined))]
fn lines_of_capture(
    alloc: Global,
    device: Option<&Device>,
    capture: Capture<'_, '_>,
) -> Result<Lines, LinesFault>
    ensures told { IfOk result (λ lines.
        HasLines (option_map (λ d. d.now) device.entry) capture.entry (Ok lines)) }
    ensures untold { IfErr result (λ fault.
        IsUnlined (option_map (λ d. d.now) device.entry) capture.entry fault) }
{
    let Capture {
        interfaces,
        losses: _,
        packets,
        end: _,
        is_short: _,
    } = capture;
    let packets = in_order(packets)?;
    lines_of(alloc, device, interfaces.as_slice(), packets.as_slice())
}

/// The capture that octets are, with the names of its interfaces apart.
#[tactic(auto, using(crate::proofs::Untold::no_capture))]
fn capture_of<'n, 'a>(
    alloc: Global,
    device: Option<&Device>,
    fcs: u8,
    octets: &'a mut Vec<u8>,
    names: &'n mut Vec<u8>,
) -> Result<Capture<'n, 'a>, Fault>
    ensures found { IfOk result (λ capture. capture_of fcs octets.old.items ≡ Ok capture) }
    ensures fault { IfErr result (λ fault. Describes (option_map (λ d. d.now) device.entry) (λ document. IsUntold document fcs octets.old.items fault)) }
{
    Ok(Capture::read(alloc, fcs, octets, names)?)
}

/// The lines of the capture that octets are, for a device, if there is one.
#[tactic(auto, using(crate::proofs::Told::is_told, crate::proofs::Untold::no_lines))]
fn lines_in(
    alloc: Global,
    device: Option<&Device>,
    fcs: u8,
    octets: &mut Vec<u8>,
) -> Result<Lines, Fault>
    ensures told { IfOk result (λ lines. Describes (option_map (λ d. d.now) device.entry) (λ document. IsTold document fcs octets.old.items (Ok lines))) }
    ensures untold { IfErr result (λ fault. Describes (option_map (λ d. d.now) device.entry) (λ document. IsUntold document fcs octets.old.items fault)) }
{
    let mut names = Vec::new(alloc);
    let capture = capture_of(alloc, device, fcs, octets, &mut names)?;
    Ok(lines_of_capture(alloc, device, capture)?)
}

/// The lines of the capture that octets are, for the device that a document describes, if there is one.
fn told(
    alloc: Global,
    document: Option<&str>,
    fcs: u8,
    octets: &mut Vec<u8>,
) -> Result<Lines, Fault>
    ensures told { IfOk result (λ lines.
        IsTold (option_map (λ s. s.now) document.entry) fcs octets.old.items (Ok lines)) }
    ensures untold { IfErr result (λ fault.
        IsUntold (option_map (λ s. s.now) document.entry) fcs octets.old.items fault) }
{
    let device = given_by(alloc, document)?;
    lines_in(alloc, device.as_ref(), fcs, octets)
}

/// The octets that a reader gives, or of too many a front that is too large for a capture.
#[tactic(auto, using(crate::proofs::Whole::input_failed))]
pub(crate) fn octets_from<R: Read>(alloc: Global, reader: &mut R) -> Result<Vec<u8>, Fault>
    ensures whole { IfOk result (λ read. IfSome (R.remaining reader.old) (λ all. IsWhole most_octets all read.items)) }
    ensures fault { IfErr result (λ fault. IsNoInput fault) }
{
    Ok(read_text(alloc, reader, MOST)?)
}

/// The lines of the capture that a reader gives. Of one that is too large no more is read than what tells it.
#[tactic(auto, using(crate::proofs::Whole::told_of_whole, crate::proofs::Whole::untold_of_whole, crate::proofs::Whole::no_input))]
fn told_from<R: Read>(
    alloc: Global,
    document: Option<&str>,
    fcs: u8,
    reader: &mut R,
) -> Result<Lines, Fault>
    ensures told { IfOk result (λ lines. IfSome (R.remaining reader.old) (λ octets.
        IsTold (option_map (λ s. s.now) document.entry) fcs octets (Ok lines))) }
    ensures untold { IfErr result (λ fault. IfSome (R.remaining reader.old) (λ octets.
        IsUntold (option_map (λ s. s.now) document.entry) fcs octets fault)) }
{
    let mut octets = octets_from(alloc, reader)?;
    told(alloc, document, fcs, &mut octets)
}

/// Writes octets, and has them leave.
pub(crate) fn deliver<W: Write>(writer: &mut W, octets: &[u8]) -> Result<(), Fault>
    ensures { IsDelivered (W.contents writer.old) (W.contents writer.new) octets.now result }
{
    // Flushed here, since nothing is written behind it: a flush that fails is a failed write.
    if writer.write_all(octets).is_err() || writer.flush().is_err() {
        return Err(Fault::Write);
    }
    Ok(())
}

/// Writes the lines of the capture that a reader gives: all of them, or nothing. Gives how many packets gave no line.
#[tactic(auto, using(crate::proofs::Ending::not_told, crate::proofs::Ending::not_delivered, crate::proofs::Ending::delivered))]
fn tap<R: Read, W: Write>(
    alloc: Global,
    document: Option<&str>,
    fcs: u8,
    reader: &mut R,
    writer: &mut W,
) -> Result<u64, Fault>
    ensures { IfSome (R.remaining reader.old) (λ octets.
        Ends (option_map (λ s. s.now) document.entry) fcs octets (W.contents writer.old)
        (W.contents writer.new) result) }
{
    let lines = told_from(alloc, document, fcs, reader)?;
    deliver(writer, lines.text.as_slice())?;
    Ok(lines.skipped)
}

/// Tells a fault, and gives the status of the process.
pub(crate) fn tell_fault<E: Write>(alloc: Global, errors: &mut E, fault: &Fault) -> io::Result<u8>
    ensures { IfOk result (λ code. Tells (E.contents errors.old) (E.contents errors.new) (Err fault.now) code) }
{
    match fault_line(alloc, fault) {
        Ok(line) => {
            errors.write_all(line.as_slice())?;
            Ok(FAULT)
        }
        Err(_) => {
            errors.write_all(b"fault: memory\n")?;
            Ok(FAULT)
        }
    }
}

/// Tells how many packets gave no line, and gives the status of the process.
fn tell_skipped<E: Write>(errors: &mut E, skipped: u64) -> io::Result<u8>
    ensures { IfOk result (λ code. Tells (E.contents errors.old) (E.contents errors.new) (Ok skipped) code) }
{
    if skipped > 0 {
        writeln!(errors, "skipped {skipped}")?;
    }
    Ok(TOLD)
}

/// Tells how it ended: how many packets gave no line, or the line of a fault. Gives the status of the process; the error of `errors`,
/// where the line can't be written there.
pub fn tell_ending<E: Write>(
    alloc: Global,
    errors: &mut E,
    ended: &Result<u64, Fault>,
) -> io::Result<u8>
    ensures { IfOk result (λ code. Tells (E.contents errors.old) (E.contents errors.new) ended.now code) }
{
    match ended {
        Ok(skipped) => tell_skipped(errors, *skipped),
        Err(fault) => tell_fault(alloc, errors, fault),
    }
}

/// Reads a capture, and writes its lines for the device that a document describes, or for what comes in at ports A and B. Gives the
/// status of the process: 0 where all lines were written, and how many packets gave none stands on `errors`, where there are such; 1
/// after a fault, whose line is then all that was written on `errors`, and nothing was written on `writer`, unless that itself failed.
/// The error of `errors`, where the line can't be written there.
pub fn tap_run<R: Read, W: Write, E: Write>(
    alloc: Global,
    document: Option<&str>,
    fcs: u8,
    reader: &mut R,
    writer: &mut W,
    errors: &mut E,
) -> io::Result<u8>
    ensures { IfOk result (λ code. IfSome (R.remaining reader.old) (λ octets.
        Taps (option_map (λ s. s.now) document.entry) fcs octets (W.contents writer.old)
        (W.contents writer.new) (E.contents errors.old) (E.contents errors.new) code)) }
{
    let ended = tap(alloc, document, fcs, reader, writer);
    tell_ending(alloc, errors, &ended)
}
