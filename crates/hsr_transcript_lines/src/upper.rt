//! Whether octets are free of lower-case letters, 32 at a time.
ghost use Rattle.std.specs.Prelude.{◌≡◌, ◌≤◌, length, take};
ghost use Rattle.hsr_transcript_lines.specs.Exact.{is_upper};

use std::simd::prelude::*;

/// How many octets a block has.
// Two vectors of the processors that programs are built for: one branch for both.
const LANES: usize = 32;

/// Whether none of the first 32 octets is a lower-case letter.
#[inline(always)]
fn is_block_upper(word: &[u8]) -> bool
    requires { 32 ≤ length word.now }
    ensures { result ≡ is_upper (take 32 word.now) }
{
    u8x32::from_slice(word)
        .simd_ge(u8x32::splat(b'a'))
        .to_bitmask()
        == 0
}

/// Whether none of 32 octets or more is a lower-case letter.
fn are_blocks_upper(word: &[u8]) -> bool
    requires { 32 ≤ length word.now }
    ensures { result ≡ is_upper word.now }
{
    // The last block ends with the octets, and may see octets again that the one before it saw.
    let last = word.len() - LANES;
    for block in 0..last.div_ceil(LANES) {
        if !is_block_upper(&word[LANES * block..]) {
            return false;
        }
    }
    is_block_upper(&word[last..])
}

/// Whether no octet is a lower-case letter.
pub(crate) fn is_upper(word: &[u8]) -> bool
    ensures { result ≡ is_upper word.now }
{
    if word.len() >= LANES {
        return are_blocks_upper(word);
    }
    let mut all = true;
    for b in word {
        // `&` and not `&&`, which would branch.
        all &= *b < b'a';
    }
    all
}
