//! A text that is read whole, up to a length, with a bound on the number of reads.
ghost use Rattle.std.specs.Prelude.{◌≡◌, ◌^◌, IfOk, IfSome, None};
ghost use Rattle.hsr_text.specs.Whole.{IsWhole, ReadsPiece};

use crate::lines::READ_LIMIT;
use std::alloc::Global;
use std::io::{ErrorKind, Read};

/// The most octets that are read or written at once. Each read and each write is a call of the system, and a pipe of Linux holds no more.
pub const BUFFER_SIZE: usize = 65_536;

/// Why a text isn't read.
#[derive(Clone, Copy, PartialEq, Eq)]
pub enum InputFault {
    /// The reader failed, or took too many reads.
    Read,
    /// Allocation failed.
    Memory,
}

/// Reads a piece of a text, puts it behind what was read, and tells whether more may follow.
fn read_piece<R: Read>(reader: &mut R, text: &mut Vec<u8>) -> Result<bool, InputFault>
    ensures { IfOk result (λ more. ReadsPiece (R.remaining reader.old)
        (R.remaining reader.new) text.old.items text.new.items more) }
{
    let mut piece = [0u8; BUFFER_SIZE];
    match reader.read(&mut piece) {
        Ok(count) => match text.extend_from_slice(&piece[..count]) {
            Ok(()) => Ok(count > 0),
            Err(_) => Err(InputFault::Memory),
        },
        // A read that was interrupted doesn't say that the text ends.
        Err(e) if e.kind() == ErrorKind::Interrupted => Ok(true),
        Err(_) => Err(InputFault::Read),
    }
}

/// How many reads a text is granted: `READ_LIMIT`.
pub fn granted_reads() -> u64
    ensures { result ≡ 2 ^ 40 }
{
    READ_LIMIT
}

/// Reads a whole text, or of one with more than `most` octets a front that has more, with the reads that are granted.
/// `None` where they are used up.
fn read_granted<R: Read>(
    alloc: Global,
    reader: &mut R,
    reads: &mut u64,
    most: usize,
) -> Result<Option<Vec<u8>>, InputFault>
    requires granted { reads.old ≡ 2 ^ 40 }
    ensures read { IfOk result (λ read. IfSome read (λ text. IfSome (R.remaining reader.old)
        (λ all. IsWhole most all text.items))) }
    ensures spent { IfOk result (λ read. read ≡ None → reads.new ≡ 0) }
{
    let mut text = Vec::new(alloc);
    // It ends, since reads are counted.
    while *reads > 0 {
        *reads -= 1;
        let more = read_piece(reader, &mut text)?;
        // A front that is too long is enough to refuse the text.
        if !more || text.len() > most {
            return Ok(Some(text));
        }
    }
    Ok(None)
}

/// Reads a whole text, or of one with more than `most` octets a front that has more. `Read` where the reader fails or takes
/// `READ_LIMIT` reads, `Memory` if allocation fails.
pub fn read_text<R: Read>(alloc: Global, reader: &mut R, most: usize) -> Result<Vec<u8>, InputFault>
    ensures { IfOk result (λ text. IfSome (R.remaining reader.old)
        (λ all. IsWhole most all text.items)) }
{
    let mut reads = granted_reads();
    match read_granted(alloc, reader, &mut reads, most) {
        Ok(Some(text)) => Ok(text),
        Ok(None) => Err(InputFault::Read),
        Err(fault) => Err(fault),
    }
}
