//! What is asked for of a transcript that a reader gives, written; or a fault's line.
ghost use Rattle.std.specs.Prelude.{◌≡◌, ◌⊎◌, IfErr, IfOk, IfSome, option_map};
ghost use Rattle.hsr_table_size.specs.Sizes.{capacity_of};
ghost use Rattle.hsr_view.specs.Ends.{Ends, IsDelivered, Tells, Views, code_of};
ghost use Rattle.hsr_given.specs.Given.{given_of};
ghost use Rattle.hsr_head.specs.Reads.{front};
ghost use Rattle.hsr_head.specs.Told.{told_size};
ghost use Rattle.hsr_view.specs.declared.fault.Fault.TheVariants.{Memory, Read as ReadFailed};
ghost use Rattle.hsr_view.specs.Refusals.{IsUnshownOf};
ghost use Rattle.hsr_view.specs.Viewing.{IsShownOf};

use crate::fault::Fault;
use crate::viewing::shown;
use crate::views::What;
use hsr_head::read_head;
use hsr_text::InputFault;
use std::alloc::Global;
use std::io::{self, Read, Write};

/// Why a head isn't read.
fn fault_of_head(fault: InputFault) -> Fault
    ensures { (result ≡ ReadFailed) ⊎ (result ≡ Memory) }
{
    match fault {
        InputFault::Read => Fault::Read,
        InputFault::Memory => Fault::Memory,
    }
}

/// What is asked for of the text that a reader gives: its head is read first, and of the rest no more than it takes to
/// tell a fault.
fn shown_from<R: Read>(
    alloc: Global,
    what: &What<'_>,
    scenario: Option<&str>,
    reader: &mut R,
) -> Result<Vec<u8>, Fault>
    ensures shown { IfOk result (λ octets. IfSome (R.remaining reader.old) (λ text.
        IsShownOf (capacity_of (told_size (front text))) text what.now
        (option_map (λ s. s.now) scenario.entry) octets.items)) }
    ensures unshown { IfErr result (λ fault. IfSome (R.remaining reader.old) (λ text.
        IsUnshownOf (capacity_of (told_size (front text))) (given_of (front text)) text what.now
        (option_map (λ s. s.now) scenario.entry) fault)) }
{
    match read_head(alloc, reader) {
        Ok(head) => shown(alloc, head.as_slice(), reader, what, scenario),
        Err(fault) => Err(fault_of_head(fault)),
    }
}

/// Writes octets, and has them leave.
fn deliver<W: Write>(writer: &mut W, octets: &[u8]) -> Result<(), Fault>
    ensures { IsDelivered (W.contents writer.old) (W.contents writer.new) octets.now result }
{
    // Flushed here, since nothing is written behind it: a flush that fails is a failed write.
    if writer.write_all(octets).is_err() || writer.flush().is_err() {
        return Err(Fault::Write);
    }
    Ok(())
}

/// Writes what is asked for of the text that a reader gives: all of it, or nothing.
fn view<R: Read, W: Write>(
    alloc: Global,
    what: &What<'_>,
    scenario: Option<&str>,
    reader: &mut R,
    writer: &mut W,
) -> Result<(), Fault>
    ensures { IfSome (R.remaining reader.old) (λ text.
        Ends text what.now (option_map (λ s. s.now) scenario.entry) (W.contents writer.old)
        (W.contents writer.new) result) }
{
    match shown_from(alloc, what, scenario, reader) {
        Ok(octets) => deliver(writer, octets.as_slice()),
        Err(fault) => Err(fault),
    }
}

/// Tells how it ended: a fault's line, and the status of the process. The error of `errors`, where the line can't be
/// written there.
pub fn report_ending<E: Write>(errors: &mut E, ended: Result<(), Fault>) -> io::Result<u8>
    ensures { IfOk result (λ code. Tells (E.contents errors.old)
        (E.contents errors.new) ended code) }
{
    match ended {
        Ok(()) => Ok(0),
        Err(fault) => {
            writeln!(errors, "{fault}")?;
            Ok(1)
        }
    }
}

/// Reads a transcript, and writes what is asked for of the finished run whose text it is, with the names of a
/// scenario's text, or without names. Tables are of the size of which its second line tells. Gives the status of the
/// process: 0 where all of it was written, and nothing on `errors`; 1 after a fault, whose line is then all that was
/// written on `errors`, and nothing was written on `writer`, unless that itself failed. The error of `errors`, where
/// the line can't be written there.
pub fn view_run<R: Read, W: Write, E: Write>(
    alloc: Global,
    what: &What<'_>,
    scenario: Option<&str>,
    reader: &mut R,
    writer: &mut W,
    errors: &mut E,
) -> io::Result<u8>
    ensures { IfOk result (λ code. IfSome (R.remaining reader.old) (λ text.
        Views text what.now (option_map (λ s. s.now) scenario.entry) (W.contents writer.old)
        (W.contents writer.new) (E.contents errors.old) (E.contents errors.new) code)) }
{
    let ended = view(alloc, what, scenario, reader, writer);
    report_ending(errors, ended)
}
