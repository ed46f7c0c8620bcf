//! Lines of a reader, with a bound on the length of a line and on the number of reads.
ghost use Rattle.std.specs.Prelude.{◌≡◌, ◌+◌, ◌<◌, ◌≤◌, [], length, take, List, Some, IfOk, IfSome, OnOk, option_map, ℕ};
ghost use Rattle.hsr_text.specs.declared.lines.Front.TheVariants.{Rest};
ghost use Rattle.hsr_text.specs.Lines.{Advances, Fills, Paid, ReadsFront, line_there};
ghost use Rattle.hsr_text.specs.Words.{cut};

use crate::words::split_at;
use arrayvec::ArrayVec;
use std::io::{BufRead, ErrorKind};

/// How many reads a caller grants a text, one for each octet and one for each read that gives none.
pub const READ_LIMIT: u64 = 1 << 40;

/// What `next_line` found.
#[derive(Clone, Copy, PartialEq, Eq)]
pub enum Front {
    /// A line with its line feed.
    Line,
    /// The text's end; what stood before it is the last line, or empty.
    Rest,
    /// A line that is longer than the buffer: its front fills it, and the octet behind that is lost.
    TooLong,
}

/// The reader failed, or no reads are left.
#[derive(Clone, Copy, PartialEq, Eq)]
pub struct ReaderFault;

/// The front of a piece that a line with this room can tell: one octet that finds no room ends it too.
fn reach(piece: &[u8], room: usize) -> &[u8]
    ensures { result.now ≡ take (room + 1) piece.now }
{
    if piece.len() > room {
        &piece[..room + 1]
    } else {
        piece
    }
}

/// Puts what a piece of a text has of a line behind the line's front. Tells how many octets of the piece that takes,
/// with the line feed or the octet that finds no room, and how the line ends, if it ends there.
#[tactic(auto, using(crate::proofs::Pieces::line_filled, crate::proofs::Pieces::part_filled, crate::proofs::Pieces::none_filled, crate::proofs::Pieces::long_filled))]
fn fill<const N: usize>(line: &mut ArrayVec<u8, N>, piece: &[u8]) -> (usize, Option<Front>)
    ensures within { result.0 ≤ length piece.now }
    ensures filled { Fills N (take result.0 piece.now) line.old.items line.new.items result.1 }
    ensures last { result.1 ≡ Some Rest → piece.now ≡ [] }
{
    let room = line.remaining_capacity();
    match split_at(reach(piece, room), b'\n') {
        (front, Some(_)) => {
            // It has room: with the line feed `reach` shows one octet more than that at most.
            line.try_extend_from_slice(front).unwrap();
            (front.len() + 1, Some(Front::Line))
        }
        // A reader that shows nothing is at its end.
        ([], None) => (0, Some(Front::Rest)),
        (front, None) if front.len() > room => {
            line.try_extend_from_slice(&front[..room]).unwrap();
            (front.len(), Some(Front::TooLong))
        }
        (front, None) => {
            line.try_extend_from_slice(front).unwrap();
            (front.len(), None)
        }
    }
}

/// Puts what the reader shows of a line behind the line's front, and tells how the line ends, if it ends there. The first
/// octet is paid for; each other one takes one of `reads`.
fn advance<R: BufRead, const N: usize>(
    reader: &mut R,
    reads: &mut u64,
    line: &mut ArrayVec<u8, N>,
) -> Result<Option<Front>, ReaderFault>
    ensures advanced { IfOk result (Advances N (R.remaining reader.old)
        (R.remaining reader.new) line.old.items line.new.items) }
    ensures paid { Paid (R.remaining reader.old) (R.remaining reader.new)
        (reads.old + 1) reads.new }
    ensures bounded { reads.new ≤ reads.old }
{
    let piece = match reader.fill_buf() {
        Ok(piece) => piece,
        Err(e) => {
            // A read that was interrupted is tried again, and has taken one of `reads`.
            return if e.kind() == ErrorKind::Interrupted {
                Ok(None)
            } else {
                Err(ReaderFault)
            };
        }
    };
    let (taken, front) = fill(line, piece);
    *reads = reads
        .checked_sub(taken.saturating_sub(1) as u64)
        .ok_or(ReaderFault)?;
    reader.consume(taken);
    Ok(front)
}

/// Reads the next line, of at most `N` octets, into `line`, without its line feed; each octet takes one of `reads`, and
/// so does a read that gives none. `ReaderFault` where the reader fails or no reads are left; then the line isn't told.
#[tactic(auto, using(crate::proofs::Pieces::goes_on, crate::proofs::Pieces::ends))]
pub fn next_line<R: BufRead, const N: usize>(
    reader: &mut R,
    reads: &mut u64,
    line: &mut ArrayVec<u8, N>,
) -> Result<Front, ReaderFault>
    ensures front { IfOk result (ReadsFront N (R.remaining reader.old)
        (R.remaining reader.new) line.new.items) }
    ensures paid { Paid (R.remaining reader.old) (R.remaining reader.new) reads.old reads.new }
    ensures counted { OnOk result (reads.new < reads.old) }
    ensures bounded { reads.new ≤ reads.old }
{
    line.clear();
    // It ends, since reads are counted.
    while *reads > 0 {
        *reads -= 1;
        if let Some(front) = advance(reader, reads, line)? {
            return Ok(front);
        }
    }
    Err(ReaderFault)
}

/// The line that a buffer begins with, where it is whole there, has at most `most` octets, and is paid for by the reads that are left.
/// For who reads a line where it stands; `next_line` gathers the others.
pub fn line_there(buffer: &[u8], most: usize, reads: u64) -> Option<&[u8]>
    ensures exact { option_map (λ s. s.now) result ≡ line_there buffer.now most reads }
    ensures first { IfSome result (λ line. (rest : List ℕ) × (cut 10 buffer.now ≡ (line.now, Some rest))) }
    ensures short { IfSome result (λ line. length line.now ≤ most) }
    ensures paid { IfSome result (λ line. length line.now < reads) }
{
    match split_at(buffer, b'\n') {
        (line, Some(_)) if line.len() <= most && (line.len() as u64) < reads => Some(line),
        _ => None,
    }
}
