//! The words of a fault that name its position, and of a text that isn't TOML.
use crate::document::TEXT_LIMIT;
use crate::position::position_of;
use hsr_frame::NoMemory;
use hsr_text::{put, put_number};
use std::alloc::Global;

/// Puts line and column of an offset last, or those of the end of the text where it has no such offset.
/// Both are counted from 1, columns in octets. `NoMemory` if allocation fails.
pub fn put_place(line: &mut Vec<u8>, text: &[u8], at: usize) -> Result<(), NoMemory> {
    let position = position_of(text, at.min(text.len()));
    put_number(line, position.line as u64)?;
    put(line, ":")?;
    put_number(line, position.column as u64)?;
    put(line, " ")
}

/// Puts where a text of at most 16 MiB isn't TOML last, and why; of a text that is, its start.
fn put_broken(alloc: Global, line: &mut Vec<u8>, text: &str) -> Result<(), NoMemory> {
    match toml::table_from_str(alloc, text) {
        // Only a text that isn't TOML is asked about.
        Ok(_) => put_place(line, text.as_bytes(), 0),
        Err(error) => match error.span() {
            Some(span) => {
                put_place(line, text.as_bytes(), span.start)?;
                put(line, "no TOML: ")?;
                put(line, error.message())
            }
            // Only a failed allocation has no offset in the text.
            None => Err(NoMemory),
        },
    }
}

/// Puts where a text isn't TOML last, and why.
/// A text of over 16 MiB isn't read for it. `NoMemory` if allocation fails.
pub fn put_no_toml(alloc: Global, line: &mut Vec<u8>, text: &str) -> Result<(), NoMemory> {
    if text.len() > TEXT_LIMIT {
        return put(line, "1:1 over 16 MiB of text");
    }
    put_broken(alloc, line, text)
}
