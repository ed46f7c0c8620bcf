//! The planner's program: a plan on standard input, and the scenario that it means on standard output; or a scenario to be
//! checked, the report of its run, the lines of a sweep, or a verdict in any order. `main` hands its arguments, its standard streams, files and memory over to
//! `plan`.
//!
//! Its one module, `planning`, has the whole program over arguments, a reader and two writers.
#![tactic(auto)]

mod planning;

pub use crate::planning::plan;
use hsr_files::HostDisk;
use hsr_text::{BUFFER_SIZE, arguments};
use std::fs::Files;
use std::io::{BufWriter, ErrorKind, IsTerminal, Write};
use std::marker::Sync;
use std::process::ExitCode;
use std::rt::Env;
use std::thread::Threads;
use std::{env, io};

/// Does what the arguments ask for over the standard streams, where standard error is a terminal or not.
fn run<H: AllocGlobal + Env + Files + Input + Print + Threads + Sync, E: Write>(
    rt: &H,
    is_terminal: bool,
    errors: &mut E,
) -> io::Result<ExitCode> {
    let args: Vec<String> = env::args(rt)?.collect(rt.alloc())?;
    // Refused memory is told as the standard library tells it, so that `main` finds it in one place.
    let Ok(words) = arguments(rt.alloc(), &args) else {
        return Err(io::Error::from(ErrorKind::OutOfMemory));
    };
    let mut reader = rt.reader();
    let mut writer = BufWriter::with_capacity(rt.alloc(), BUFFER_SIZE, io::writer(rt))?;
    let mut disk = HostDisk { rt };
    let code = plan(
        rt,
        rt.alloc(),
        words.as_slice(),
        is_terminal,
        &mut reader,
        &mut writer,
        &mut disk,
        errors,
    )?;
    Ok(ExitCode::from(code))
}

fn main(rt: HostRuntime) -> io::Result<ExitCode> {
    let mut errors = rt.stderr();
    // Only a terminal is told how far a sweep is, so no argument has to ask for it.
    let is_terminal = errors.is_terminal();
    match run(&rt, is_terminal, &mut errors) {
        // The arguments and the writer take memory themselves.
        Err(error) if error.kind() == ErrorKind::OutOfMemory => {
            eprintln!(rt; "fault: memory")?;
            Ok(ExitCode::from(1))
        }
        ended => ended,
    }
}
