//! Why arguments are refused, and how that is told.
ghost use Rattle.std.specs.Prelude.{◌≡◌, ◌≢◌, ◌<◌, IfOk, IfSome, length};
ghost use Rattle.std.specs.Str.{trim_end};
ghost use Rattle.clap.specs.Words.{kind_of};
ghost use Rattle.clap.specs.declared.error.kind.ErrorKind.TheVariants.{OutOfMemory};
ghost use Rattle.hsr_cli.specs.Refusal.{IfUsage, TurnsAway, or_else};
ghost use Rattle.hsr_cli.specs.declared.fault.OptionFault.TheVariants.{Memory};

use clap::Error;
use clap::error::ErrorKind;
use hsr_frame::NoMemory;
use hsr_text::write_line;
use std::alloc::Global;
use std::fmt::Display;
use std::io::{self, Write};

/// The status of a process that a fault ended.
const FAULT: u8 = 1;

/// The status of a process whose arguments are refused: scripts tell these from faults and doubts.
const REFUSED: u8 = 3;

/// Why arguments of a program are refused.
#[derive(Drop)]
pub enum OptionFault {
    /// They ask for nothing that the program does; the text says why, or is the help that was asked for.
    Usage { text: String },
    /// Allocation failed.
    Memory,
}

impl From<NoMemory> for OptionFault {
    ghost from_gives = { λ _ f. f ≡ Memory };

    fn from(_e: NoMemory) -> OptionFault {
        OptionFault::Memory
    }
}

/// A refusal by this text; `Memory` if allocation fails.
pub fn usage(alloc: Global, text: &str) -> OptionFault
    ensures { IfUsage result (λ t. t ≡ text.now) }
{
    match String::from_str(alloc, text) {
        Ok(text) => OptionFault::Usage { text },
        Err(_) => OptionFault::Memory,
    }
}

/// A refusal by a text, or by another where it is empty: clap's errors have a text, but no clause says so.
fn usage_or(alloc: Global, text: &str, otherwise: &str) -> OptionFault
    requires { 0 < length otherwise.now }
    ensures text { IfUsage result (λ t. t ≡ or_else text.now otherwise.now) }
    ensures some { IfUsage result (λ t. 0 < length t) }
{
    if text.is_empty() {
        return usage(alloc, otherwise);
    }
    usage(alloc, text)
}

/// A refusal by the text that an error shows, without the end of its last line: whoever prints it ends the line. Of
/// clap's errors the kit's clauses don't tell what they show, so there `text` says nothing.
fn shown<D: Display + Drop>(alloc: Global, error: D, otherwise: &str) -> OptionFault
    requires { 0 < length otherwise.now }
    ensures text { IfUsage result (λ t. IfSome (D.output error) (λ whole. t
        ≡ or_else (trim_end whole) otherwise.now)) }
    ensures some { IfUsage result (λ t. 0 < length t) }
{
    match error.to_string(alloc) {
        Ok(text) => usage_or(alloc, text.trim_end(), otherwise),
        Err(_) => OptionFault::Memory,
    }
}

/// A refusal by clap's error: by the text that it shows, or by another where that is empty.
pub(crate) fn refused(alloc: Global, error: &Error, otherwise: &str) -> OptionFault
    requires { 0 < length otherwise.now }
    ensures kind { IfUsage result (λ _. kind_of error.now ≢ OutOfMemory) }
    ensures some { IfUsage result (λ t. 0 < length t) }
{
    if error.kind() == ErrorKind::OutOfMemory {
        return OptionFault::Memory;
    }
    shown(alloc, error, otherwise)
}

/// Tells on standard error why arguments are refused, and gives the status of the process: 3, or 1 where an allocation
/// failed. The error of `errors`, where the line can't be written.
pub fn turn_away<E: Write>(errors: &mut E, fault: &OptionFault) -> io::Result<u8>
    ensures { IfOk result (λ code. TurnsAway fault.now (E.contents errors.old) (E.contents errors.new) code) }
{
    match fault {
        OptionFault::Usage { text } => {
            write_line(errors, text.as_str())?;
            Ok(REFUSED)
        }
        OptionFault::Memory => {
            errors.write_all(b"fault: memory\n")?;
            Ok(FAULT)
        }
    }
}
