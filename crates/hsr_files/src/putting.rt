//! Files that are put into a folder.
ghost use Rattle.std.specs.Prelude.{OnErr, OnOk};
ghost use Rattle.hsr_files.specs.Files.{Puts, PutsFront, files_in};

use crate::disk::{Disk, NewFile, PutFault};
use std::alloc::Global;

/// Puts files into a folder, one after the other, up to the first that can't be put. After a fault those before it stay there.
#[tactic(auto, using(crate::proofs::Puts::none_put, crate::proofs::Puts::one_more, crate::proofs::Puts::all_put))]
pub fn put_files<D: Disk>(
    alloc: Global,
    disk: &mut D,
    folder: &str,
    files: &[NewFile<'_>],
) -> Result<(), PutFault>
    ensures put { OnOk result (Puts (D.puts disk.old) (D.puts disk.new)
        (files_in folder.now files.now)) }
    ensures front { OnErr result (PutsFront (D.puts disk.old) (D.puts disk.new)
        (files_in folder.now files.now)) }
{
    for file in files {
        if let Err(fault) = disk.put(alloc, folder, *file) {
            return Err(fault);
        }
    }
    Ok(())
}
