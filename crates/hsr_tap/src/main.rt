//! The program `hsr_tap`: what a capture of real traffic tells of an HSR ring and of a device, the capture as input of `hsr_bench node`, and
//! stimuli for a device, over a reader and two writers; and what its arguments ask for.
//!
//! Its modules, in the order in which to read them:
//! - `fault`: why nothing is written, and the line that says it
//! - `running`: the lines of a capture
//! - `trying`: stimuli for a device
//! - `reporting`: a report with its verdict
//! - `examining`: the report on the health of a ring
//! - `judging`: the report on a device
//! - `commands`: the commands and their helps, for clap
//! - `asked`: what the arguments ask for, read by clap
#![tactic(auto)]

mod asked;
mod commands;
mod examining;
mod fault;
mod judging;
mod reporting;
mod running;
mod trying;

use crate::asked::{Asked, Expected, asked_by};
use crate::examining::{Looking, health_run};
use crate::fault::Fault;
use crate::judging::judge_run;
use crate::running::{tap_run, tell_ending};
use crate::trying::try_run;
use hsr_cli::turn_away;
use hsr_files::text_at;
use hsr_frame::Mac;
use hsr_judging_text::Showing;
use hsr_tap_device::DeviceFault;
use hsr_text::{InputFault, arguments};
use hsr_toml::TEXT_LIMIT;
use std::fs::Files;
use std::io::{ErrorKind, Write};
use std::process::ExitCode;
use std::rt::Env;
use std::{env, io};

/// The document at a path.
fn document_at<H: AllocGlobal + Files>(rt: &H, path: &str) -> Result<String, Fault> {
    match text_at(rt, rt.alloc(), path, TEXT_LIMIT) {
        Ok(text) => match String::from_utf8(text) {
            Ok(text) => Ok(text),
            Err(_) => Err(Fault::Device(DeviceFault::Text)),
        },
        Err(InputFault::Memory) => Err(Fault::Memory),
        Err(InputFault::Read) => Err(Fault::NoDevice),
    }
}

/// The document at a path, if there is one.
fn document_given<H: AllocGlobal + Files>(
    rt: &H,
    path: Option<&str>,
) -> Result<Option<String>, Fault> {
    match path {
        Some(path) => Ok(Some(document_at(rt, path)?)),
        None => Ok(None),
    }
}

/// The text of the plan at a path.
fn plan_at<H: AllocGlobal + Files>(rt: &H, path: &str) -> Result<Vec<u8>, Fault> {
    match text_at(rt, rt.alloc(), path, TEXT_LIMIT) {
        Ok(text) => Ok(text),
        Err(InputFault::Memory) => Err(Fault::Memory),
        Err(InputFault::Read) => Err(Fault::NoPlanFile),
    }
}

/// Writes the report on the health of the ring of the capture on standard input, in which these sources are expected, or those of a plan, if
/// one is given. Gives the status of the process.
fn examine_input<H: AllocGlobal + Input + Print, E: Write>(
    rt: &H,
    looking: &Looking<'_>,
    macs: &[Mac],
    plan: Option<&[u8]>,
    errors: &mut E,
) -> io::Result<u8> {
    let mut reader = rt.reader();
    let mut writer = io::writer(rt);
    health_run(
        rt.alloc(),
        looking,
        macs,
        plan,
        &mut reader,
        &mut writer,
        errors,
    )
}

/// The same, where the plan may stand in a file.
fn examine_expecting<H: AllocGlobal + Files + Input + Print, E: Write>(
    rt: &H,
    looking: &Looking<'_>,
    expected: &Expected<'_>,
    errors: &mut E,
) -> io::Result<u8> {
    match expected {
        Expected::Macs(macs) => examine_input(rt, looking, macs.as_slice(), None, errors),
        Expected::Plan(path) => match plan_at(rt, path) {
            Ok(text) => examine_input(rt, looking, &[], Some(text.as_slice()), errors),
            Err(fault) => tell_ending(rt.alloc(), errors, &Err(fault)),
        },
    }
}

/// Writes the report on the device that the document at a path describes, by the capture on standard input, and gives the status of the
/// process.
fn judge_input<H: AllocGlobal + Files + Input + Print, E: Write>(
    rt: &H,
    device: &str,
    showing: Showing,
    fcs: u8,
    errors: &mut E,
) -> io::Result<u8> {
    let document = match document_at(rt, device) {
        Ok(document) => document,
        Err(fault) => return tell_ending(rt.alloc(), errors, &Err(fault)),
    };
    let mut reader = rt.reader();
    let mut writer = io::writer(rt);
    judge_run(
        rt.alloc(),
        document.as_str(),
        showing,
        fcs,
        &mut reader,
        &mut writer,
        errors,
    )
}

/// Writes the lines of the capture on standard input, and gives the status of the process.
fn tap_input<H: AllocGlobal + Files + Input + Print, E: Write>(
    rt: &H,
    device: Option<&str>,
    fcs: u8,
    errors: &mut E,
) -> io::Result<u8> {
    let document = match document_given(rt, device) {
        Ok(document) => document,
        Err(fault) => return tell_ending(rt.alloc(), errors, &Err(fault)),
    };
    let document = match &document {
        Some(text) => Some(text.as_str()),
        None => None,
    };
    let mut reader = rt.reader();
    let mut writer = io::writer(rt);
    tap_run(rt.alloc(), document, fcs, &mut reader, &mut writer, errors)
}

/// Writes the stimuli for the device that the document at a path describes, and gives the status of the process.
fn try_device<H: AllocGlobal + Files + Print, E: Write>(
    rt: &H,
    device: &str,
    is_list: bool,
    errors: &mut E,
) -> io::Result<u8> {
    let document = match document_at(rt, device) {
        Ok(document) => document,
        Err(fault) => return tell_ending(rt.alloc(), errors, &Err(fault)),
    };
    let mut writer = io::writer(rt);
    try_run(rt.alloc(), document.as_str(), is_list, &mut writer, errors)
}

/// Does what the program's arguments ask for.
fn run<H: AllocGlobal + Env + Files + Input + Print, E: Write>(
    rt: &H,
    errors: &mut E,
) -> io::Result<ExitCode> {
    let args: Vec<String> = env::args(rt)?.collect(rt.alloc())?;
    // Refused memory is told as the standard library tells it, so that `main` finds it in one place.
    let Ok(words) = arguments(rt.alloc(), &args) else {
        return Err(io::Error::from(ErrorKind::OutOfMemory));
    };
    let code = match asked_by(rt.alloc(), words.as_slice()) {
        Ok(Asked::Health { looking, expected }) => {
            examine_expecting(rt, &looking, &expected, errors)?
        }
        Ok(
            Asked::Judge {
                device,
                showing,
                fcs,
            },
        ) => judge_input(rt, device, showing, fcs, errors)?,
        Ok(Asked::Lines { device, fcs }) => tap_input(rt, device, fcs, errors)?,
        Ok(Asked::Stimuli { device, is_list }) => try_device(rt, device, is_list, errors)?,
        Err(fault) => turn_away(errors, &fault)?,
    };
    Ok(ExitCode::from(code))
}

fn main(rt: HostRuntime) -> io::Result<ExitCode> {
    let mut errors = rt.stderr();
    match run(&rt, &mut errors) {
        // The arguments themselves take memory.
        Err(error) if error.kind() == ErrorKind::OutOfMemory => {
            let code = tell_ending(rt.alloc(), &mut errors, &Err(Fault::Memory))?;
            Ok(ExitCode::from(code))
        }
        ended => ended,
    }
}
