//! A text that is read whole, up to a length, with a bound on the number of reads.
ghost use Rattle.std.specs.Prelude.{◌≡◌, ◌⊎◌, IfErr, IfOk, IfSome};
ghost use Rattle.hsr_commands.specs.declared.fault.Fault.TheVariants.{Memory, Read as ReadFailed};
ghost use Rattle.hsr_text.specs.Whole.{IsWhole};

use crate::fault::Fault;
use hsr_text::InputFault;
use std::alloc::Global;
use std::io::Read;

/// Reads a whole text, or of one with more than `most` octets a front that has more. `Fault::Read` where the reader fails or takes
/// 2^40 reads, `Fault::Memory` if allocation fails.
pub fn read_text<R: Read>(alloc: Global, reader: &mut R, most: usize) -> Result<Vec<u8>, Fault>
    ensures ok { IfOk result (λ text. IfSome (R.remaining reader.old)
        (λ all. IsWhole most all text.items)) }
    ensures err { IfErr result (λ f. (f ≡ ReadFailed) ⊎ (f ≡ Memory)) }
{
    // The same reading, with the faults of a run.
    match hsr_text::read_text(alloc, reader, most) {
        Ok(text) => Ok(text),
        Err(InputFault::Read) => Err(Fault::Read),
        Err(InputFault::Memory) => Err(Fault::Memory),
    }
}
