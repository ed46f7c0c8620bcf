//! The bench's program: its arguments, its standard streams, its files and its memory, handed over to `bench`.
#![tactic(auto)]

use hsr_bench::bench;
use hsr_files::HostDisk;
use hsr_text::{BUFFER_SIZE, arguments};
use std::fs::Files;
use std::io::{BufWriter, ErrorKind, Write};
use std::marker::Sync;
use std::process::ExitCode;
use std::rt::Env;
use std::sync::Wait;
use std::thread::Threads;
use std::{env, io};

/// Does what the arguments ask for, over the standard streams.
fn run<H: AllocGlobal + Env + Files + Input + Print + Threads + Wait + Sync, E: Write>(
    rt: &H,
    errors: &mut E,
) -> io::Result<ExitCode> {
    let args: Vec<String> = env::args(rt)?.collect(rt.alloc())?;
    // Refused memory is told as the standard library tells it, so that `main` finds it in one place.
    let Ok(words) = arguments(rt.alloc(), &args) else {
        return Err(io::Error::from(ErrorKind::OutOfMemory));
    };
    let mut reader = rt.reader();
    let mut writer = BufWriter::with_capacity(rt.alloc(), BUFFER_SIZE, io::writer(rt))?;
    let mut disk = HostDisk { rt };
    let code = bench(
        rt,
        rt.alloc(),
        words.as_slice(),
        &mut reader,
        &mut writer,
        &mut disk,
        errors,
    )?;
    Ok(ExitCode::from(code))
}

fn main(rt: HostRuntime) -> io::Result<ExitCode> {
    match run(&rt, &mut rt.stderr()) {
        // The arguments themselves take memory.
        Err(error) if error.kind() == ErrorKind::OutOfMemory => {
            eprintln!(rt; "fault: memory")?;
            Ok(ExitCode::from(1))
        }
        ended => ended,
    }
}
