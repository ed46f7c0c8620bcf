//! The program `hsr_view`: a transcript shown as a capture, as a picture, as a page, or as devices, over a reader and two writers; and
//! what its arguments ask for.
//!
//! Its modules, in the order in which to read them:
//! - `views`: what can be asked for
//! - `agreeing`: when links are down, by the scenario of the run
//! - `fault`: why nothing is shown, and the line that says it
//! - `paging`: the page of a run
//! - `viewing`: what is shown of a text
//! - `running`: the whole, its calls
//! - `asked`: what the arguments ask for
//! - `command_line`: reads the arguments, by clap
#![tactic(auto)]

ghost use Rattle.std.specs.Prelude.{◌≡◌, IfOk, drop, map, string_bytes};
ghost use Rattle.std.specs.Process.{exit_status};

mod agreeing;
mod asked;
mod command_line;
mod fault;
mod paging;
mod running;
mod viewing;
mod views;

use crate::asked::Asked;
use crate::command_line::asked;
use crate::fault::Fault;
use crate::running::{report_ending, view_run};
use hsr_cli::turn_away;
use hsr_files::text_at;
use hsr_given::{Unnamed, no_text};
use hsr_scenario::TEXT_LIMIT;
use hsr_text::{InputFault, arguments};
use std::alloc::Global;
use std::fs::Files;
use std::io::{ErrorKind, Write};
use std::process::ExitCode;
use std::rt::Env;
use std::{env, io};

/// The text of the scenario at a path, if there is one: of what can't be read there are no names.
fn scenario_at<H: AllocGlobal + Files>(
    rt: &H,
    path: Option<&str>,
) -> Result<Option<String>, Fault> {
    let Some(path) = path else {
        return Ok(None);
    };
    match text_at(rt, rt.alloc(), path, TEXT_LIMIT) {
        Ok(text) => {
            // Asked first, since `String::from_utf8` takes the octets, and the fault tells of them.
            if str::from_utf8(text.as_slice()).is_err() {
                return Err(Fault::Names(no_text(text.as_slice())));
            }
            match String::from_utf8(text) {
                Ok(text) => Ok(Some(text)),
                Err(_) => Err(Fault::Names(Unnamed::NoText)),
            }
        }
        Err(InputFault::Memory) => Err(Fault::Memory),
        Err(InputFault::Read) => Err(Fault::Names(Unnamed::NoFile)),
    }
}

/// Shows the transcript on standard input, and gives the status of the process.
fn view_input<H: AllocGlobal + Files + Input + Print, E: Write>(
    rt: &H,
    asked: Asked<'_>,
    errors: &mut E,
) -> io::Result<u8> {
    let scenario = match scenario_at(rt, asked.names) {
        Ok(scenario) => scenario,
        Err(fault) => return report_ending(errors, Err(fault)),
    };
    let scenario = match &scenario {
        Some(text) => Some(text.as_str()),
        None => None,
    };
    let mut reader = rt.reader();
    let mut writer = io::writer(rt);
    view_run(
        rt.alloc(),
        &asked.what,
        scenario,
        &mut reader,
        &mut writer,
        errors,
    )
}

/// The end of the process with a status.
fn exit_of(code: io::Result<u8>) -> io::Result<ExitCode>
    ensures { IfOk result (λ exit. IfOk code (λ status. exit_status exit ≡ status)) }
{
    match code {
        Ok(code) => Ok(ExitCode::from(code)),
        Err(error) => Err(error),
    }
}

/// Does what the program's arguments ask for.
fn run<H: AllocGlobal + Env + Files + Input + Print, E: Write>(
    rt: &H,
    errors: &mut E,
) -> io::Result<ExitCode> {
    let args: Vec<String> = env::args(rt)?.collect(rt.alloc())?;
    // Refused memory is told as the standard library tells it, so that `main` finds it in one place.
    let Ok(words) = arguments(rt.alloc(), &args) else {
        return Err(io::Error::from(ErrorKind::OutOfMemory));
    };
    let code = match asked(rt.alloc(), words.as_slice()) {
        Ok(asked) => view_input(rt, asked, errors),
        Err(fault) => turn_away(errors, &fault),
    };
    exit_of(code)
}

fn main(rt: HostRuntime) -> io::Result<ExitCode> {
    let mut errors = rt.stderr();
    match run(&rt, &mut errors) {
        // The arguments themselves take memory.
        Err(error) if error.kind() == ErrorKind::OutOfMemory => {
            exit_of(report_ending(&mut errors, Err(Fault::Memory)))
        }
        ended => ended,
    }
}
