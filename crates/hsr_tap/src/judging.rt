//! The report on a device that a document describes, by a capture, written; or a fault's line.
ghost use Rattle.std.specs.Prelude.{◌≡◌, ℕ, List, Ok, Err, IfErr, IfOk, IfSome};
ghost use Rattle.hsr_capture_reader.specs.Capture.{capture_of};
ghost use Rattle.hsr_tap_device.specs.Reading.{device_of};
ghost use Rattle.hsr_tap.specs.Judging.{HasReport, IsJudged, IsUnjudged, IsUnreported, Judges, Reports};

use crate::fault::Fault;
use crate::reporting::{Report, report_to, tell_verdict};
use crate::running::{in_order, octets_from};
use hsr_capture_reader::Capture;
use hsr_judging_text::{JudgeFault, Showing, judge};
use hsr_tap_device::{Device, read_device};
use std::alloc::Global;
use std::io::{self, Read, Write};

/// The device that a document describes.
#[tactic(auto, using(crate::proofs::Judged::no_device))]
fn described(alloc: Global, document: &str) -> Result<Device, Fault>
    ensures found { IfOk result (λ device. device_of document.now ≡ Ok device) }
    ensures fault { IfErr result (λ fault. (fcs : ℕ) (octets : List ℕ) → IsUnjudged document.now fcs octets fault) }
{
    Ok(read_device(alloc, document)?)
}

/// The report on a device by a capture.
#[tactic(auto, using(crate::proofs::Judged::has_report, crate::proofs::Judged::unreported))]
fn report_by(
    alloc: Global,
    device: &Device,
    showing: Showing,
    capture: Capture<'_, '_>,
) -> Result<Report, JudgeFault>
    ensures reported { IfOk result (λ report. HasReport device.now showing capture.entry report.text.items report.is_well) }
    ensures unreported { IfErr result (λ fault. IsUnreported device.now capture.entry fault) }
{
    let Capture {
        interfaces,
        losses: _,
        packets,
        end,
        is_short: _,
    } = capture;
    let packets = in_order(packets)?;
    let mut text = Vec::new(alloc);
    let is_well = judge(
        alloc,
        &mut text,
        device,
        interfaces.as_slice(),
        packets.as_slice(),
        end,
        showing,
    )?;
    Ok(Report { text, is_well })
}

/// The report on the device that a document describes, by the capture that octets are.
#[tactic(auto, using(crate::proofs::Judged::is_judged, crate::proofs::Judged::no_capture, crate::proofs::Judged::no_report))]
fn judged(
    alloc: Global,
    document: &str,
    device: &Device,
    showing: Showing,
    fcs: u8,
    octets: &mut Vec<u8>,
) -> Result<Report, Fault>
    requires { device_of document.now ≡ Ok device.now }
    ensures judged { IfOk result (λ report. IsJudged document.now showing fcs octets.old.items report.text.items report.is_well) }
    ensures unjudged { IfErr result (λ fault. IsUnjudged document.now fcs octets.old.items fault) }
{
    let mut names = Vec::new(alloc);
    let capture = Capture::read(alloc, fcs, octets, &mut names)?;
    Ok(report_by(alloc, device, showing, capture)?)
}

/// The report on the device that a document describes, by the capture that a reader gives. Of one that is too large no more is read than
/// what tells it.
#[tactic(auto, using(crate::proofs::Judged::judged_of_whole, crate::proofs::Judged::unjudged_of_whole, crate::proofs::Judged::no_input))]
fn judged_from<R: Read>(
    alloc: Global,
    document: &str,
    showing: Showing,
    fcs: u8,
    reader: &mut R,
) -> Result<Report, Fault>
    ensures judged { IfOk result (λ report. IfSome (R.remaining reader.old) (λ octets.
        IsJudged document.now showing fcs octets report.text.items report.is_well)) }
    ensures unjudged { IfErr result (λ fault. IfSome (R.remaining reader.old) (λ octets.
        IsUnjudged document.now fcs octets fault)) }
{
    let device = described(alloc, document)?;
    let mut octets = octets_from(alloc, reader)?;
    judged(alloc, document, &device, showing, fcs, &mut octets)
}

/// Writes the report on the device that a document describes, by the capture that a reader gives: all of it, or nothing. Gives whether the
/// device conforms.
#[tactic(auto, using(crate::proofs::Judged::not_judged, crate::proofs::Judged::delivered))]
fn judge_to<R: Read, W: Write>(
    alloc: Global,
    document: &str,
    showing: Showing,
    fcs: u8,
    reader: &mut R,
    writer: &mut W,
) -> Result<bool, Fault>
    ensures { IfSome (R.remaining reader.old) (λ octets. Reports document.now showing fcs octets
        (W.contents writer.old) (W.contents writer.new) result) }
{
    let report = judged_from(alloc, document, showing, fcs, reader)?;
    report_to(writer, &report)
}

/// Reads a capture, and writes the report on the device that a document describes. Gives the status of the process: 0 where the device
/// conforms, 2 where it deviates; 1 after a fault, whose line is then all that was written on `errors`, and nothing was written on
/// `writer`, unless that itself failed. The error of `errors`, where the line can't be written there.
pub fn judge_run<R: Read, W: Write, E: Write>(
    alloc: Global,
    document: &str,
    showing: Showing,
    fcs: u8,
    reader: &mut R,
    writer: &mut W,
    errors: &mut E,
) -> io::Result<u8>
    ensures { IfOk result (λ code. IfSome (R.remaining reader.old) (λ octets.
        Judges document.now showing fcs octets (W.contents writer.old) (W.contents writer.new)
        (E.contents errors.old) (E.contents errors.new) code)) }
{
    let ended = judge_to(alloc, document, showing, fcs, reader, writer);
    tell_verdict(alloc, errors, &ended)
}
