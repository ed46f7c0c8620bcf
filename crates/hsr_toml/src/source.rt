//! Where keys, tables and names stand in a text.
ghost use Rattle.std.specs.Prelude.{◌≡◌, ◌≤◌, true, length, IfSome};
ghost use Rattle.hsr_toml.specs.Places.{begins_string, is_quote, stands};

use crate::position::{before, is_whole};
use crate::walk::{Walk, is_blank};

/// A text, and the same text bare.
#[derive(Clone, Copy)]
pub struct Source<'a> {
    pub text: &'a [u8],
    pub bare: &'a [u8],
}

// ---- words and strings

/// Whether the octet of an offset is part of a string.
fn is_quote(b: Option<u8>) -> bool
    ensures { result ≡ is_quote b }
{
    match b {
        Some(b) => b == b'"',
        None => false,
    }
}

/// Whether a string begins at an offset.
fn begins_string(bare: &[u8], at: usize) -> bool
    ensures { result ≡ begins_string bare.now at }
{
    is_quote(bare.get(at).copied()) && !is_quote(before(bare, at))
}

/// Whether a word stands whole at an offset, outside of comments and strings, or as the first of a string.
#[tactic(auto, unfolding(crate::specs::Places::stands))]
fn stands(source: Source<'_>, word: &[u8], at: usize) -> bool
    requires text { at ≤ length source.text.now }
    requires bare { at ≤ length source.bare.now }
    ensures { result ≡ stands source.entry.text.now source.entry.bare.now word.now at }
{
    // Asked of both: the bare text says where it is no comment, the text what it says.
    is_whole(source.text, word, at)
        && (is_whole(source.bare, word, at) || (at > 0 && begins_string(source.bare, at - 1)))
}

/// An offset, if the word stands there.
fn place_if(source: Source<'_>, word: &[u8], at: usize) -> Option<usize>
    ensures { IfSome result (λ at.
        stands source.entry.text.now source.entry.bare.now word.now at ≡ true) }
{
    if at <= source.text.len() && at <= source.bare.len() && stands(source, word, at) {
        Some(at)
    } else {
        None
    }
}

/// Where a word stands in the string that begins at an offset, whole or up to a dot.
fn named_at(source: Source<'_>, word: &[u8], at: usize) -> Option<usize>
    ensures { IfSome result (λ at.
        stands source.entry.text.now source.entry.bare.now word.now at ≡ true) }
{
    let start = at.checked_add(1)?;
    let end = start.checked_add(word.len())?;
    if begins_string(source.bare, at) && is_quote(source.bare.get(end).copied()) {
        place_if(source, word, start)
    } else {
        None
    }
}

/// Where a word stands that begins at an offset, by itself or as a string.
fn word_at(source: Source<'_>, word: &[u8], at: usize) -> Option<usize>
    ensures { IfSome result (λ at.
        stands source.entry.text.now source.entry.bare.now word.now at ≡ true) }
{
    if at < source.bare.len() && is_whole(source.bare, word, at) {
        place_if(source, word, at)
    } else {
        named_at(source, word, at)
    }
}

/// The next offset with an octet that is no blank.
fn next_offset(bare: &[u8], from: usize) -> Option<usize> {
    for at in from..bare.len() {
        if !is_blank(bare[at]) {
            return Some(at);
        }
    }
    None
}

/// The offset behind a word, and behind its quote.
fn behind(source: Source<'_>, word: &[u8], offset: usize) -> usize {
    let end = offset.saturating_add(word.len());
    if is_quote(source.bare.get(end).copied()) {
        end.saturating_add(1)
    } else {
        end
    }
}

/// The offset behind the octet that is the next one, if it is this one.
fn behind_octet(bare: &[u8], from: usize, b: u8) -> Option<usize> {
    let at = next_offset(bare, from)?;
    if bare.get(at).copied() == Some(b) {
        at.checked_add(1)
    } else {
        None
    }
}

// ---- keys

/// Where a key of the table stands that begins at an offset.
pub fn key_at(source: Source<'_>, word: &[u8], start: usize) -> Option<usize>
    ensures { IfSome result (λ at.
        stands source.entry.text.now source.entry.bare.now word.now at ≡ true) }
{
    let mut walk = Walk::start();
    for at in start..source.bare.len() {
        let b = source.bare[at];
        if walk.ends_table(b) {
            return None;
        }
        if walk.is_key() {
            if let Some(offset) = word_at(source, word, at) {
                return Some(offset);
            }
        }
        walk = walk.behind(b);
    }
    None
}

/// Where a key of the document stands first.
pub fn top_key(source: Source<'_>, word: &[u8]) -> Option<usize>
    ensures { IfSome result (λ at.
        stands source.entry.text.now source.entry.bare.now word.now at ≡ true) }
{
    let mut walk = Walk::start();
    for at in 0..source.bare.len() {
        if walk.is_top_key() {
            if let Some(offset) = word_at(source, word, at) {
                return Some(offset);
            }
        }
        walk = walk.behind(source.bare[at]);
    }
    None
}

/// Where a key stands in the table that is the value of what stands before an offset.
fn member_behind(source: Source<'_>, word: &[u8], offset: usize) -> Option<usize>
    ensures { IfSome result (λ at.
        stands source.entry.text.now source.entry.bare.now word.now at ≡ true) }
{
    let sign = next_offset(source.bare, offset)?;
    let next = sign.checked_add(1)?;
    match source.bare.get(sign).copied()? {
        b'.' => word_at(source, word, next_offset(source.bare, next)?),
        b'=' => key_at(source, word, behind_octet(source.bare, next, b'{')?),
        b']' => key_at(source, word, next),
        _ => None,
    }
}

/// Where a key stands in the table that is the value of a key of the document.
pub fn member_at(source: Source<'_>, key: &[u8], word: &[u8]) -> Option<usize>
    ensures { IfSome result (λ at.
        stands source.entry.text.now source.entry.bare.now word.now at ≡ true) }
{
    let mut walk = Walk::start();
    for at in 0..source.bare.len() {
        if walk.is_top_key() {
            if let Some(offset) = word_at(source, key, at) {
                if let Some(member) = member_behind(source, word, behind(source, key, offset)) {
                    return Some(member);
                }
            }
        }
        walk = walk.behind(source.bare[at]);
    }
    None
}

// ---- tables

/// Where the word of the header `[[name]]` of that number stands, counted from 0.
fn header_at(source: Source<'_>, name: &[u8], number: usize) -> Option<usize>
    ensures { IfSome result (λ at.
        stands source.entry.text.now source.entry.bare.now name.now at ≡ true) }
{
    let mut walk = Walk::start();
    let mut seen: usize = 0;
    for at in 0..source.bare.len() {
        if walk.is_table_header() {
            if let Some(offset) = header_word(source, name, at) {
                if seen == number {
                    return Some(offset);
                }
                seen = seen.saturating_add(1);
            }
        }
        walk = walk.behind(source.bare[at]);
    }
    None
}

/// Where a word stands that begins at an offset and ends its header.
fn header_word(source: Source<'_>, name: &[u8], at: usize) -> Option<usize>
    ensures { IfSome result (λ at.
        stands source.entry.text.now source.entry.bare.now name.now at ≡ true) }
{
    let offset = word_at(source, name, at)?;
    match behind_octet(source.bare, behind(source, name, offset), b']') {
        Some(_) => Some(offset),
        None => None,
    }
}

/// Where the table of that number begins in an array that begins at an offset.
fn nth_table(bare: &[u8], start: usize, number: usize) -> Option<usize> {
    let mut walk = Walk::start();
    let mut seen: usize = 0;
    for at in start..bare.len() {
        if walk.begins_table(bare[at]) {
            if seen == number {
                return Some(at);
            }
            seen = seen.saturating_add(1);
        }
        walk = walk.behind(bare[at]);
    }
    None
}

/// Where the table of that number of an array of tables begins.
fn inline_table(source: Source<'_>, name: &[u8], number: usize) -> Option<usize> {
    let offset = top_key(source, name)?;
    let sign = behind_octet(source.bare, behind(source, name, offset), b'=')?;
    let array = behind_octet(source.bare, sign, b'[')?;
    nth_table(source.bare, array, number)
}

/// Where the table of that number under a name begins, counted from 0: at the name in `[[name]]`, or at its bracket in an array.
pub fn table_at(source: Source<'_>, name: &[u8], number: usize) -> Option<usize> {
    match header_at(source, name, number) {
        Some(at) => Some(at),
        // A list of tables may also be written as an array in one line.
        None => inline_table(source, name, number),
    }
}

/// Where the keys of a table begin, which itself begins at an offset: behind its bracket, or in the line behind its header.
fn keys_from(bare: &[u8], table: usize) -> usize {
    for at in table..bare.len() {
        if matches!(bare[at], b'{' | b'\n') {
            return at.saturating_add(1);
        }
    }
    bare.len()
}

/// Where a key stands in the table that begins at an offset.
pub fn key_in(source: Source<'_>, word: &[u8], table: usize) -> Option<usize>
    ensures { IfSome result (λ at.
        stands source.entry.text.now source.entry.bare.now word.now at ≡ true) }
{
    key_at(source, word, keys_from(source.bare, table))
}

// ---- names

/// Where a name stands in the value of a key of the table that begins at an offset.
pub fn name_in(source: Source<'_>, key: &[u8], name: &[u8], table: usize) -> Option<usize>
    ensures { IfSome result (λ at.
        stands source.entry.text.now source.entry.bare.now name.now at ≡ true) }
{
    let start = behind(source, key, key_in(source, key, table)?);
    let mut walk = Walk::start();
    for at in start..source.bare.len() {
        if walk.ends_value(source.bare[at]) {
            return None;
        }
        if let Some(offset) = named_at(source, name, at) {
            return Some(offset);
        }
        walk = walk.behind(source.bare[at]);
    }
    None
}

/// Whether a list stands behind a word and a sign.
fn has_list(source: Source<'_>, word: &[u8], offset: usize) -> Option<usize> {
    let sign = behind_octet(source.bare, behind(source, word, offset), b'=')?;
    behind_octet(source.bare, sign, b'[')
}

/// Whether the value of a key that stands at an offset is a list.
pub fn is_list(source: Source<'_>, word: &[u8], offset: usize) -> bool {
    has_list(source, word, offset).is_some()
}

/// Where a name stands as a string in what is said under a key of the document.
fn string_under(source: Source<'_>, key: &[u8], name: &[u8]) -> Option<usize>
    ensures { IfSome result (λ at.
        stands source.entry.text.now source.entry.bare.now name.now at ≡ true) }
{
    let mut walk = Walk::start();
    let mut is_here = false;
    for at in 0..source.bare.len() {
        if walk.is_top_key() {
            is_here = word_at(source, key, at).is_some();
        }
        if is_here {
            if let Some(offset) = named_at(source, name, at) {
                return Some(offset);
            }
        }
        walk = walk.behind(source.bare[at]);
    }
    None
}

/// Where a name stands under a key of the document: as a key of its table, or else as a string.
pub fn name_under(source: Source<'_>, key: &[u8], name: &[u8]) -> Option<usize>
    ensures { IfSome result (λ at.
        stands source.entry.text.now source.entry.bare.now name.now at ≡ true) }
{
    match member_at(source, key, name) {
        Some(at) => Some(at),
        None => string_under(source, key, name),
    }
}

/// Whether one of these keys stands at an offset.
fn is_one_of(source: Source<'_>, keys: &[&[u8]], at: usize) -> bool {
    keys.iter().any(|key| word_at(source, key, at).is_some())
}

/// Where a name stands the second time in a list under one of these keys of the document, or else where it stands last there.
pub fn name_again(source: Source<'_>, keys: &[&[u8]], name: &[u8]) -> Option<usize>
    ensures { IfSome result (λ at.
        stands source.entry.text.now source.entry.bare.now name.now at ≡ true) }
{
    let mut walk = Walk::start();
    let mut is_here = false;
    let mut is_in_list = false;
    // No offset of any text, so that nothing is found where the name isn't there.
    let mut last = usize::MAX;
    for at in 0..source.bare.len() {
        if walk.is_top_key() {
            is_here = is_one_of(source, keys, at);
        }
        // Each list is counted by itself: one name may stand in two rings.
        if source.bare[at] == b'[' {
            is_in_list = false;
        }
        if is_here {
            if let Some(offset) = named_at(source, name, at) {
                if is_in_list {
                    return Some(offset);
                }
                is_in_list = true;
                last = offset;
            }
        }
        walk = walk.behind(source.bare[at]);
    }
    place_if(source, name, last)
}
