//! How wide texts are, near enough, in units of the picture.

// A test measures these (`tests/run pictures`): no contract says that no text lies on another.
/// How wide a letter is: of a name of a node, of a mark, and of what stands at the point of an arrow.
pub(crate) const NAME: u64 = 8;

pub(crate) const MARK: u64 = 6;

pub(crate) const COPY: u64 = 5;

/// How wide a letter of a name is, where most letters have this width.
fn letter_width(octet: u8, width: u64) -> u64 {
    match octet {
        // Names have small letters, digits and hyphens, and of these two are much wider than the others.
        b'm' | b'w' => width.saturating_add(width / 2),
        _ => width,
    }
}

/// How wide words are, where most letters have this width.
pub(crate) fn width_of(words: &[u8], letter: u64) -> u64 {
    let mut width: u64 = 0;
    for octet in words {
        width = width.saturating_add(letter_width(*octet, letter));
    }
    width
}
