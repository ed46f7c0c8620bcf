//! The closed run whose text a text is.
ghost use Rattle.std.specs.Prelude.{◌≡◌, IfSome};
ghost use Rattle.hsr_duptable.specs.Table.{IsTableSize};
ghost use Rattle.hsr_finished_run.specs.Finished.{Finished, IsFinished};
ghost use Rattle.hsr_transcript.specs.Answers.{Answers, Closes, IsReadAs, IsTextOf};
ghost use Rattle.hsr_transcript.specs.Fits.{Fits};
ghost use Rattle.hsr_transcript.specs.Earlier.{IsEarlierText, in_microseconds};
ghost use Rattle.hsr_transcript.specs.Judged.{standing_of};
ghost use Rattle.hsr_transcript.specs.CodeReads.{seen};

use crate::earlier_law::earlier_is_read;
use crate::fault::ReadFault;
use crate::form::read_plain;
use crate::judge::judge;
use hsr_finished_run::{CheckFault, Closed, Records};
use std::alloc::Global;
use std::io::Read;

/// The closed run that a topology, replayed nodes, rows and a plan are, if they agree.
fn close<const C: usize>(alloc: Global, records: Records<C>) -> Result<Closed<C>, ReadFault>
    ensures { Closes C (standing_of C records.entry) records.entry.rows.items
        (seen (λ c. c) result) }
{
    match Closed::of_records(alloc, records) {
        Ok(closed) => Ok(closed),
        // The records are let go: nobody else has them.
        Err((_records, fault)) => match fault {
            CheckFault::Disagree(cause) => Err(ReadFault::Disagrees(cause)),
            CheckFault::NoMemory => Err(ReadFault::NoMemory),
        },
    }
}

/// Reads the text of a closed run with tables of `C` entries, `C` from 1 to 65535, whose lines have at most 8192 octets: the
/// run that it is the one text of. Each entry is replayed, and the run is checked as one that is closed. `Version` where the
/// first line is another one; `BadLine` with the number of the line, from 1, that is out of form, or else of the last line of
/// the links where the topology is refused, of the line `main` where the order doesn't fit, or of the first entry whose event
/// is refused or whose outcome is another one; `End` where the text ends early; `Disagrees` with the first cause where all of
/// this stands, but is no closed run; `Read` where the reader fails or takes over 2^40 reads; `NoMemory` if allocation fails.
/// The text that an earlier release wrote of a run, with moments in milliseconds, is read as that run with each moment times 1000.
pub fn read<const C: usize, R: Read>(alloc: Global, reader: &mut R) -> Result<Closed<C>, ReadFault>
    requires entries { IsTableSize C }
    ensures exact { IfSome (R.remaining reader.old) (Answers C (seen (λ c. c) result)) }
    ensures again { IfSome (R.remaining reader.old)
        (λ text. (f : Finished) → IsFinished f → Fits f → IsTextOf C f text
        → IsReadAs f (seen (λ c. c) result)) }
    ensures earlier { IfSome (R.remaining reader.old)
        (λ text. (f : Finished) → IsEarlierText C f text
        → IsReadAs (in_microseconds f) (seen (λ c. c) result)) }
{
    // Its clause says that a run of an earlier release is a finished run.
    earlier_is_read();
    let plain = match read_plain(C, alloc, reader) {
        Ok(plain) => plain,
        Err(fault) => return Err(fault),
    };
    match judge::<C>(alloc, plain) {
        Ok(records) => close(alloc, records),
        Err(fault) => Err(fault),
    }
}
