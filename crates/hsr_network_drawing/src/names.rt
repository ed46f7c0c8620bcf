//! Names as boxes show them: long ones lose their middle.
use hsr_frame::NoMemory;
use hsr_page::put_escaped;

/// How many characters of a name are shown at most.
const MOST: usize = 14;

/// How many are shown of the front of a longer one.
const FRONT: usize = 6;

/// How many characters a box shows of a name.
pub(crate) fn shown_length(name: &str) -> usize {
    name.chars().count().min(MOST)
}

/// Puts a character last.
fn put_char(text: &mut Vec<u8>, c: char) -> Result<(), NoMemory> {
    let mut octets = [0; 4];
    put_escaped(text, c.encode_utf8(&mut octets))
}

/// Puts a name without its middle last, of which the first so many characters aren't of its end.
fn put_outer(text: &mut Vec<u8>, name: &str, end: usize) -> Result<(), NoMemory> {
    for (at, c) in name.chars().enumerate() {
        if at == FRONT {
            put_escaped(text, "…")?;
        }
        if at < FRONT || at >= end {
            put_char(text, c)?;
        }
    }
    Ok(())
}

/// Puts a name last as a box shows it: whole up to 14 characters, else its first six and its last seven.
pub(crate) fn put_short(text: &mut Vec<u8>, name: &str) -> Result<(), NoMemory> {
    let length = name.chars().count();
    if length > MOST {
        put_outer(
            text,
            name,
            length.saturating_sub(MOST.saturating_sub(FRONT + 1)),
        )
    } else {
        put_escaped(text, name)
    }
}

/// The name of a node, by its number; an empty one where there is none.
pub(crate) fn name_of<'a>(names: &[&'a str], node: usize) -> &'a str {
    names.get(node).copied().unwrap_or("")
}
