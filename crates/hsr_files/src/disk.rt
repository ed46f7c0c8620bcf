//! Where files are: texts that are read by their paths, and files that are put into folders.
ghost use Rattle.std.specs.Prelude.{◌∷◌, [], ℕ, List, Option, None, IfOk, IfSome, OnErr, OnOk};
ghost use Rattle.hsr_text.specs.Whole.{IsWhole};
ghost use Rattle.hsr_files.specs.Files.{File as Put, Puts, file_in};

use hsr_text::{InputFault, read_text};
use std::alloc::Global;
use std::fs::{self, File, Files};
use std::io::{self, ErrorKind, Write};

/// A file that is put: its name, and what it holds.
#[derive(Clone, Copy, PartialEq, Eq)]
pub struct NewFile<'a> {
    pub name: &'a str,
    pub octets: &'a [u8],
}

/// Why a file wasn't put.
#[derive(Clone, Copy, PartialEq, Eq)]
pub enum PutFault {
    /// The folder isn't there, or the file can't be written in it.
    Unwritten,
    /// Allocation failed.
    Memory,
}

/// Where files are.
pub trait Disk {
    // What the file at a path holds, where that is known.
    ghost texts: { Self → List ℕ → Option (List ℕ) } = { λ _ _. None };

    // The files that were put, where they are known.
    ghost puts: { Self → Option (List Put) } = { λ _. None };

    /// What the file at a path holds, or of a longer one a front that has more than `most` octets. `Read` where there is none, or it
    /// can't be read; `Memory` if allocation fails.
    fn text(&self, alloc: Global, path: &str, most: usize) -> Result<Vec<u8>, InputFault>
        ensures { IfOk result (λ text. IfSome (texts self.now path.now)
            (λ all. IsWhole most all text.items)) };

    /// Puts a file into a folder, in place of one of that name. After a fault there is none of it under that name.
    fn put(&mut self, alloc: Global, folder: &str, file: NewFile<'_>) -> Result<(), PutFault>
        ensures put { OnOk result (Puts (puts self.old) (puts self.new)
            (file_in folder.now file.entry ∷ [])) }
        ensures not_put { OnErr result (Puts (puts self.old) (puts self.new) []) };
}

/// What the file at a path holds, or of a longer one a front that has more than `most` octets. `Read` where there is none, or it can't
/// be read; `Memory` if allocation fails.
pub fn text_at<H: Files>(
    rt: &H,
    alloc: Global,
    path: &str,
    most: usize,
) -> Result<Vec<u8>, InputFault> {
    match File::open(rt, path) {
        Ok(mut file) => read_text(alloc, &mut file, most),
        Err(error) if error.kind() == ErrorKind::OutOfMemory => Err(InputFault::Memory),
        Err(_) => Err(InputFault::Read),
    }
}

/// The files of the system.
#[derive(Clone, Copy)]
pub struct HostDisk<'a, H> {
    pub rt: &'a H,
}

/// Why a file wasn't put, by the fault of the system.
fn put_fault(error: io::Error) -> PutFault {
    match error.kind() {
        ErrorKind::OutOfMemory => PutFault::Memory,
        _ => PutFault::Unwritten,
    }
}

/// Writes a file under another name, and gives it its own once it is whole; the other is gone after a fault.
fn write_whole<H: Files>(rt: &H, part: &str, path: &str, octets: &[u8]) -> io::Result<()> {
    let written = match fs::write(rt, part, octets) {
        Ok(()) => fs::rename(rt, part, path),
        Err(error) => Err(error),
    };
    if written.is_err() {
        // Where it can't be removed, it wasn't there, or stays under the other name: the fault tells of the write alone.
        let _ = fs::remove_file(rt, part);
    }
    written
}

impl<'a, H: Files> Disk for HostDisk<'a, H> {
    fn text(&self, alloc: Global, path: &str, most: usize) -> Result<Vec<u8>, InputFault> {
        text_at(self.rt, alloc, path, most)
    }

    fn put(&mut self, alloc: Global, folder: &str, file: NewFile<'_>) -> Result<(), PutFault> {
        // No folder has an empty name: its files would be those of the root.
        if folder.is_empty() {
            return Err(PutFault::Unwritten);
        }
        let name = file.name;
        let Ok(path) = format!(in alloc; "{folder}/{name}") else {
            return Err(PutFault::Memory);
        };
        let Ok(part) = format!(in alloc; "{folder}/{name}.part") else {
            return Err(PutFault::Memory);
        };
        match write_whole(self.rt, part.as_str(), path.as_str(), file.octets) {
            Ok(()) => Ok(()),
            Err(error) => Err(put_fault(error)),
        }
    }
}
