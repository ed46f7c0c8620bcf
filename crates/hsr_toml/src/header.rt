//! Where words and the headers of tables stand in a text, whatever they are part of.
ghost use Rattle.std.specs.Prelude.{◌≡◌, ◌≤◌, ◌<◌, length, IfSome};
ghost use Rattle.hsr_toml.specs.Headers.{IsFirst, IsHeader, is_bracketed, is_octet};

use crate::position::is_whole;

/// The first offset from `from` on where a word stands whole.
pub fn whole_word(text: &[u8], word: &[u8], from: usize) -> Option<usize>
    ensures found { IfSome result (λ at. IsFirst text.now word.now from at) }
    ensures within { IfSome result (λ at. at < length text.now) }
{
    for at in from..text.len() {
        if is_whole(text, word, at) {
            return Some(at);
        }
    }
    None
}

/// Whether an octet is there and is this one.
fn is_octet(there: Option<u8>, b: u8) -> bool
    ensures { result ≡ is_octet there b }
{
    match there {
        Some(octet) => octet == b,
        None => false,
    }
}

/// Whether two brackets open before an offset, and one closes so much behind it.
fn is_bracketed(text: &[u8], at: usize, long: usize) -> bool
    requires offset { at < length text.now }
    requires long { long ≤ length text.now }
    ensures { result ≡ is_bracketed text.now at long }
{
    at >= 2
        && is_octet(text.get(at - 1).copied(), b'[')
        && is_octet(text.get(at - 2).copied(), b'[')
        && is_octet(text.get(at + long).copied(), b']')
}

/// Where the word of the header `[[name]]` of that number stands, counted from 0, if there is one.
pub fn table_header(text: &[u8], name: &[u8], number: usize) -> Option<usize>
    ensures header { IfSome result (λ at. IsHeader text.now name.now at) }
    ensures within { IfSome result (λ at. at < length text.now) }
{
    if name.len() > text.len() {
        return None;
    }
    let mut from = 0;
    let mut seen: usize = 0;
    // A loop with a bound has an end by its form: each turn moves on by an octet at least.
    for _turn in 0..text.len() {
        let at = whole_word(text, name, from)?;
        if is_bracketed(text, at, name.len()) {
            if seen == number {
                return Some(at);
            }
            // Saturating, since no clause bounds the count here.
            seen = seen.saturating_add(1);
        }
        from = at + 1;
    }
    None
}
