//! A report with its verdict, written; and the status that follows from that.
ghost use Rattle.std.specs.Prelude.{◌≡◌, IfOk};
ghost use Rattle.std.specs.Io.KnownBytes.{Appends, Keeps};
ghost use Rattle.hsr_tap.specs.Reporting.{IsDelivered, TellsVerdict, status_of};

use crate::fault::Fault;
use crate::running::{TOLD, deliver, tell_fault};
use std::alloc::Global;
use std::io::{self, Write};

/// The status of a process whose report ends with a doubt, or with what deviates.
const DOUBT: u8 = 2;

/// A report, and whether all is well by it: the ring is healthy, or the device conforms.
#[derive(Drop)]
pub(crate) struct Report {
    pub(crate) text: Vec<u8>,
    pub(crate) is_well: bool,
}

/// Writes a report, and gives whether all is well by it.
pub(crate) fn report_to<W: Write>(writer: &mut W, report: &Report) -> Result<bool, Fault>
    ensures { IsDelivered (W.contents writer.old) (W.contents writer.new) report.now.text.items report.now.is_well result }
{
    deliver(writer, report.text.as_slice())?;
    Ok(report.is_well)
}

/// The status of a process that wrote a report.
pub(crate) fn status_of(is_well: bool) -> u8
    ensures { result ≡ status_of is_well }
{
    if is_well { TOLD } else { DOUBT }
}

/// Tells the line of a fault, if there was one, and gives the status of the process.
pub(crate) fn tell_verdict<E: Write>(
    alloc: Global,
    errors: &mut E,
    ended: &Result<bool, Fault>,
) -> io::Result<u8>
    ensures { IfOk result (λ code. TellsVerdict (E.contents errors.old) (E.contents errors.new) ended.now code) }
{
    match ended {
        Ok(is_well) => Ok(status_of(*is_well)),
        Err(fault) => tell_fault(alloc, errors, fault),
    }
}
