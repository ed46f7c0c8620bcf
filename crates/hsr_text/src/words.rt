//! The words of a line of text, and texts that grow by words.
ghost use Rattle.std.specs.Prelude.{◌≡◌, ◌++◌, option_map, OnErr, OnOk};
ghost use Rattle.std.specs.Fmt.{decimal as decimal_text};
ghost use Rattle.std.specs.Result.{result_ok};
ghost use Rattle.hex.specs.Hex.{decode_of, encode_upper};
ghost use Rattle.hsr_text.specs.Words.{Gives, cut, decimal_of, hex_octets_of, hex_pair_of, mac_text, word_at};

use hex::FromHex;
use hsr_digits::{read_hex, write_hex};
use hsr_frame::{Mac, NoMemory};
use itoa::Buffer;
use memchr::memchr;
use std::alloc::Global;

/// Why a word isn't read.
#[derive(Clone, Copy, PartialEq, Eq)]
pub enum WordFault {
    /// It spells nothing of its kind.
    Bad,
    /// Allocation failed.
    Memory,
}

/// What stands before the first separator, and what follows it, if it is there.
// Inline, since a call would pass both words through memory.
#[inline(always)]
#[tactic(auto, using(crate::proofs::Cuts::found, crate::proofs::Cuts::missing))]
pub fn split_at(text: &[u8], separator: u8) -> (&[u8], Option<&[u8]>)
    ensures { cut separator text.now ≡ (result.0.now, option_map (λ s. s.now) result.1) }
{
    match memchr(separator, text) {
        Some(i) => (&text[..i], Some(&text[i + 1..])),
        None => (text, None),
    }
}

/// The next word of what is left of a line, and what follows the one space behind it.
// Inline, since a call would pass both words through memory.
#[inline(always)]
pub fn word(rest: Option<&[u8]>) -> Option<(&[u8], Option<&[u8]>)>
    ensures { option_map (λ w. (w.0.now, option_map (λ s. s.now) w.1)) result
        ≡ word_at (option_map (λ s. s.now) rest.entry) }
{
    match rest {
        Some(text) => Some(split_at(text, b' ')),
        None => None,
    }
}

/// The decimal number below 2^64 that a word spells, without sign or leading zeros.
#[tactic(auto, using(crate::proofs::Decimals::zero_first, crate::proofs::Decimals::read_all))]
pub fn decimal(word: &[u8]) -> Option<u64>
    ensures { result ≡ decimal_of word.now }
{
    let first = *word.first()?;
    // Each number has one spelling (RULES, Lines of `node`).
    if first == b'0' && word.len() > 1 {
        return None;
    }
    let mut n = 0u64;
    for b in word {
        if !b.is_ascii_digit() {
            return None;
        }
        n = n.checked_mul(10)?.checked_add(u64::from(*b - b'0'))?;
    }
    Some(n)
}

/// The number of 16 bits that four hexadecimal digits of either case spell.
pub fn hex_pair(word: &[u8]) -> Option<u16>
    ensures { result ≡ hex_pair_of word.now }
{
    match <[u8; 2] as FromHex>::from_hex(word) {
        Ok(octets) => Some(u16::from_be_bytes(octets)),
        Err(_) => None,
    }
}

/// The octets that pairs of hexadecimal digits of either case spell, in this room; what it held goes. No digits spell no octets. `Bad`
/// where these are no such pairs, `Memory` if allocation fails.
// Inline, since a call would pass the room through memory.
#[inline(always)]
fn decode_hex_in(room: Vec<u8>, digits: &[u8]) -> Result<Vec<u8>, WordFault>
    ensures { Gives (λ v. v.items) result (result_ok (decode_of digits.now)) }
{
    if digits.len() % 2 != 0 {
        return Err(WordFault::Bad);
    }
    let mut octets = room;
    // What it held isn't cleared: each octet is written over.
    let Ok(()) = octets.resize(digits.len() / 2, 0) else {
        return Err(WordFault::Memory);
    };
    if read_hex(octets.as_mut_slice(), digits) {
        Ok(octets)
    } else {
        Err(WordFault::Bad)
    }
}

/// The octets that pairs of hexadecimal digits of either case spell; no digits spell none. `Bad` where these are no such pairs,
/// `Memory` if allocation fails.
pub fn decode_hex(alloc: Global, digits: &[u8]) -> Result<Vec<u8>, WordFault>
    ensures { Gives (λ v. v.items) result (result_ok (decode_of digits.now)) }
{
    decode_hex_in(Vec::new(alloc), digits)
}

/// The octets that hexadecimal text of either case spells, in this room; what it held goes. A hyphen spells none. `Bad` where the word
/// is neither, `Memory` if allocation fails.
// Inline, since a call would pass the room through memory.
#[inline(always)]
pub fn hex_octets_in(room: Vec<u8>, word: &[u8]) -> Result<Vec<u8>, WordFault>
    ensures { Gives (λ v. v.items) result (hex_octets_of word.now) }
{
    match word {
        [] => Err(WordFault::Bad),
        [b'-'] => {
            let mut octets = room;
            octets.clear();
            Ok(octets)
        }
        digits => decode_hex_in(room, digits),
    }
}

/// The octets that hexadecimal text of either case spells; a hyphen spells none. `Bad` where the word is neither,
/// `Memory` if allocation fails.
pub fn hex_octets(alloc: Global, word: &[u8]) -> Result<Vec<u8>, WordFault>
    ensures { Gives (λ v. v.items) result (hex_octets_of word.now) }
{
    hex_octets_in(Vec::new(alloc), word)
}

/// Puts a number in decimal digits last. `NoMemory` if allocation fails: then nothing changes.
pub fn put_decimal(text: &mut Vec<u8>, n: u64) -> Result<(), NoMemory>
    ensures ok { OnOk result (text.new.items ≡ text.old.items ++ decimal_text n) }
    ensures err { OnErr result (text.new.items ≡ text.old.items) }
{
    let mut buffer = Buffer::new();
    text.extend_from_slice(buffer.format(n).as_bytes())?;
    Ok(())
}

/// Puts a name and a number in decimal digits last. `NoMemory` if allocation fails; the name may stand there then.
pub fn put_count(text: &mut Vec<u8>, name: &[u8], n: u64) -> Result<(), NoMemory>
    ensures { OnOk result (text.new.items ≡ text.old.items ++ (name.now ++ decimal_text n)) }
{
    text.extend_from_slice(name)?;
    put_decimal(text, n)
}

/// Puts the text of an address last, six pairs of digits of upper case with hyphens between them. `NoMemory` if
/// allocation fails.
#[tactic(auto, unfolding(crate::specs::Words::mac_text))]
pub fn put_mac(alloc: Global, text: &mut Vec<u8>, mac: Mac) -> Result<(), NoMemory>
    ensures { OnOk result (text.new.items ≡ text.old.items ++ mac_text mac) }
{
    // An address prints itself, so its form stands in one place, hsr_frame.
    let address = format!(in alloc; "{mac}")?;
    text.extend_from_slice(address.as_bytes())?;
    Ok(())
}

/// Puts octets in hexadecimal digits of upper case last. `NoMemory` if allocation fails: then nothing changes.
pub fn put_hex(text: &mut Vec<u8>, octets: &[u8]) -> Result<(), NoMemory>
    ensures ok { OnOk result (text.new.items ≡ text.old.items ++ encode_upper octets.now) }
    ensures err { OnErr result (text.new.items ≡ text.old.items) }
{
    let start = text.len();
    // More digits than a length can count fit into no memory.
    let digits = octets.len().checked_mul(2).ok_or(NoMemory)?;
    let end = start.checked_add(digits).ok_or(NoMemory)?;
    // All room at once, so that the loop fills a slice and can't fail.
    text.resize(end, 0)?;
    write_hex(&mut text.as_mut_slice()[start..], octets);
    Ok(())
}
