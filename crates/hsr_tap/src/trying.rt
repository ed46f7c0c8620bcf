//! The stimuli for a device that a document describes, written; or a fault's line.
ghost use Rattle.std.specs.Prelude.{◌≡◌, IfErr, IfOk};
ghost use Rattle.hsr_tap.specs.Trying.{Gives, IsBeside, IsGiven, IsUngiven, Tries, items_of};

use crate::fault::Fault;
use crate::running::{TOLD, deliver, tell_fault};
use hsr_stimuli::{Shown, stimuli_for};
use hsr_tap_device::read_device;
use std::alloc::Global;
use std::io::{self, Write};

/// The stimuli for the device that a document describes.
#[tactic(auto, using(crate::proofs::Given::undescribed, crate::proofs::Given::is_given, crate::proofs::Given::without))]
fn given(alloc: Global, document: &str) -> Result<Shown, Fault>
    ensures given { IfOk result (λ shown. IsGiven document.now shown) }
    ensures ungiven { IfErr result (λ fault. IsUngiven document.now fault) }
{
    let device = read_device(alloc, document)?;
    Ok(stimuli_for(alloc, &device)?)
}

/// Writes the capture of the stimuli, and gives their list; or writes the list alone, and gives nothing.
#[tactic(auto, using(crate::proofs::Given::not_given, crate::proofs::Given::not_written, crate::proofs::Given::list_written, crate::proofs::Given::capture_written))]
fn given_to<W: Write>(
    alloc: Global,
    document: &str,
    is_list: bool,
    writer: &mut W,
) -> Result<Vec<u8>, Fault>
    ensures { Gives document.now is_list (W.contents writer.old) (W.contents writer.new) (items_of result) }
{
    let Shown { capture, list } = given(alloc, document)?;
    if is_list {
        deliver(writer, list.as_slice())?;
        return Ok(Vec::new(alloc));
    }
    deliver(writer, capture.as_slice())?;
    Ok(list)
}

/// Writes what is given, or the line of a fault, and gives the status of the process.
fn tell_given<E: Write>(
    alloc: Global,
    errors: &mut E,
    ended: &Result<Vec<u8>, Fault>,
) -> io::Result<u8>
    ensures { IfOk result (λ code. IsBeside (E.contents errors.old) (E.contents errors.new) (items_of ended.now) code) }
{
    match ended {
        Ok(list) => {
            errors.write_all(list.as_slice())?;
            Ok(TOLD)
        }
        Err(fault) => tell_fault(alloc, errors, fault),
    }
}

/// Writes the stimuli for the device that a document describes: the capture on `writer` and behind it the list on `errors`, or the list
/// alone on `writer`. Gives the status of the process: 0 where all was written; 1 after a fault, whose line is then all that was written
/// on `errors`, and nothing was written on `writer`, unless that itself failed. The error of `errors`, where it can't be written there.
pub fn try_run<W: Write, E: Write>(
    alloc: Global,
    document: &str,
    is_list: bool,
    writer: &mut W,
    errors: &mut E,
) -> io::Result<u8>
    ensures { IfOk result (λ code. Tries document.now is_list (W.contents writer.old)
        (W.contents writer.new) (E.contents errors.old) (E.contents errors.new) code) }
{
    let ended = given_to(alloc, document, is_list, writer);
    tell_given(alloc, errors, &ended)
}
