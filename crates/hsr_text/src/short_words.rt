//! Words of a few octets, as most words of a line are.
ghost use Rattle.std.specs.Prelude.{◌≡◌, ◌≤◌, ◌==◌, length, not, option_map, take};
ghost use Rattle.std.specs.List.{prefix_len};
ghost use Rattle.hsr_text.specs.Words.{cut, word_at};

use crate::words::split_at;
use std::simd::prelude::*;

/// How many octets are looked at together.
const LANES: usize = 16;

/// What `cut_near` gives, for the end of a line.
#[tactic(auto, using(crate::proofs::Looks::found_there, crate::proofs::Looks::one_more))]
fn cut_short(text: &[u8]) -> (&[u8], Option<&[u8]>)
    ensures { cut 32 text.now ≡ (result.0.now, option_map (λ s. s.now) result.1) }
{
    for i in 0..text.len() {
        if text[i] == b' ' {
            return (&text[..i], Some(&text[i + 1..]));
        }
    }
    (text, None)
}

/// How many of the first 16 octets stand before the first space of them: 16 if there is none.
// At once, since a processor doesn't foresee where a loop over a word's octets ends, and begins anew behind each.
#[inline(always)]
fn near_space(text: &[u8]) -> usize
    requires { 16 ≤ length text.now }
    ensures { result ≡ prefix_len (λ octet. not (octet == 32)) (take 16 text.now) }
{
    let spaces = u8x16::from_slice(text)
        .simd_eq(u8x16::splat(b' '))
        .to_bitmask();
    if spaces == 0 {
        LANES
    } else {
        spaces.trailing_zeros() as usize
    }
}

/// What stands before the first space, and what follows it, if it is there.
// Inline, since a call would pass both words through memory.
#[inline(always)]
#[tactic(auto, using(crate::proofs::Looks::found_near))]
fn cut_near(text: &[u8]) -> (&[u8], Option<&[u8]>)
    ensures { cut 32 text.now ≡ (result.0.now, option_map (λ s. s.now) result.1) }
{
    if text.len() < LANES {
        return cut_short(text);
    }
    let i = near_space(text);
    if i < LANES {
        return (&text[..i], Some(&text[i + 1..]));
    }
    split_at(text, b' ')
}

/// The next word of what is left of a line, and what follows the one space behind it: what `word` gives, sooner where the word is short.
// Inline, since a call would pass both words through memory.
#[inline(always)]
pub fn short_word(rest: Option<&[u8]>) -> Option<(&[u8], Option<&[u8]>)>
    ensures { option_map (λ w. (w.0.now, option_map (λ s. s.now) w.1)) result
        ≡ word_at (option_map (λ s. s.now) rest.entry) }
{
    match rest {
        Some(text) => Some(cut_near(text)),
        None => None,
    }
}
