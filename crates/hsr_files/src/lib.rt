//! The files that programs read and write.
//!
//! Its modules, in the order in which to read them:
//! - `disk`: where files are, and the files of the system
//! - `putting`: files that are put into a folder
#![tactic(auto)]

mod disk;
mod putting;

pub use disk::{Disk, HostDisk, NewFile, PutFault, text_at};
pub use putting::put_files;
