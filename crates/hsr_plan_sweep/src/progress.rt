//! How far a sweep is, as a terminal shows it.
ghost use Rattle.std.specs.Prelude.{◌≡◌, false};

use hsr_frame::NoMemory;
use hsr_text::put_decimal;
use std::alloc::Global;
use std::io::Write;

/// How many runs there are, and whether that is shown.
#[derive(Clone, Copy, PartialEq, Eq)]
pub(crate) struct Progress {
    pub(crate) is_shown: bool,
    pub(crate) runs: usize,
}

/// A line that replaces the one before, with how many runs are done.
fn line(alloc: Global, done: usize, runs: usize) -> Result<Vec<u8>, NoMemory> {
    let mut line = Vec::new(alloc);
    line.extend_from_slice(b"\rsweep: run ")?;
    put_decimal(&mut line, done as u64)?;
    line.extend_from_slice(b" of ")?;
    put_decimal(&mut line, runs as u64)?;
    Ok(line)
}

impl Progress {
    /// Shows how many runs are done. Whether that is written is not told: the sweep goes on without it.
    pub(crate) fn show<E: Write>(self, alloc: Global, errors: &mut E, done: usize)
        ensures { self.is_shown ≡ false → E.contents errors.new ≡ E.contents errors.old }
    {
        if !self.is_shown {
            return;
        }
        if let Ok(line) = line(alloc, done, self.runs) {
            // A failed write changes nothing: what is swept is the same.
            let _written = errors.write_all(line.as_slice()).is_ok() && errors.flush().is_ok();
        }
    }
}

/// Leaves an empty line behind, where a line was shown.
pub(crate) fn clear<E: Write>(is_shown: bool, errors: &mut E)
    ensures { is_shown ≡ false → E.contents errors.new ≡ E.contents errors.old }
{
    if is_shown {
        // The same: a failed write changes nothing.
        let _written = errors.write_all(b"\r\x1b[K").is_ok() && errors.flush().is_ok();
    }
}
