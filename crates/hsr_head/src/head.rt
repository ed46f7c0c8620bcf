//! The head of a text, read before the rest is.
ghost use Rattle.std.specs.Prelude.{◌≡◌, IfOk};
ghost use Rattle.hsr_head.specs.Reads.{ReadsHead, ReadsPiece, front};

use hsr_text::{InputFault, READ_LIMIT};
use std::alloc::Global;
use std::io::{ErrorKind, Read};

/// How many octets of a text are looked at before the rest is read, and the most that are read at once.
const FRONT_LIMIT: usize = 4096;

/// The first octets of a text, or all where it has few.
pub fn front(text: &[u8]) -> &[u8]
    ensures { result.now ≡ front text.now }
{
    if text.len() > FRONT_LIMIT {
        &text[..FRONT_LIMIT]
    } else {
        text
    }
}

/// Reads a piece of a text, puts it behind what was read, and tells whether more may follow.
fn read_piece<R: Read>(reader: &mut R, head: &mut Vec<u8>) -> Result<bool, InputFault>
    ensures { IfOk result (λ more. ReadsPiece (R.remaining reader.old)
        (R.remaining reader.new) head.old.items head.new.items more) }
{
    let mut piece = [0u8; FRONT_LIMIT];
    match reader.read(&mut piece) {
        Ok(count) => {
            if head.extend_from_slice(&piece[..count]).is_err() {
                return Err(InputFault::Memory);
            }
            Ok(count > 0)
        }
        Err(e) if e.kind() == ErrorKind::Interrupted => Ok(true),
        Err(e) if e.kind() == ErrorKind::OutOfMemory => Err(InputFault::Memory),
        Err(_) => Err(InputFault::Read),
    }
}

/// Reads the head of a text: `FRONT_LIMIT` octets or more, or the whole text where it has fewer. `Memory` if allocation
/// fails, `Read` where the reader fails otherwise, or takes 2^40 reads.
pub fn read_head<R: Read>(alloc: Global, reader: &mut R) -> Result<Vec<u8>, InputFault>
    ensures { IfOk result (λ head. ReadsHead (R.remaining reader.old)
        (R.remaining reader.new) head.items) }
{
    let mut head = Vec::new(alloc);
    // A reader that never ends is given up (RULES, Fault lines).
    for _ in 0..READ_LIMIT {
        let has_more = read_piece(reader, &mut head)?;
        if !has_more || head.len() >= FRONT_LIMIT {
            return Ok(head);
        }
    }
    Err(InputFault::Read)
}
