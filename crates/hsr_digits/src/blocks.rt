//! Octets and their hexadecimal digits in blocks of 16 octets, of which each is one vector: sooner than what the compiler makes of a loop over
//! octets, since one look finds 16 digits in a table.
ghost use Rattle.std.specs.Prelude.{◌≡◌, ◌≤◌, ◌<◌, ◌*◌, ◌+◌, ◌++◌, ◌/◌, ◌%◌, ◌&&◌, ℕ, Ok, Some, None, if◌then◌else◌, drop, length, map, slice_index, take, true};
ghost use Rattle.std.specs.Char.{is_ascii_hexdigit};
ghost use Rattle.std.specs.List.{list_all};
ghost use lib.Lanes.{Each1};
ghost use Rattle.std.specs.Result.{result_ok};
ghost use Rattle.hex.specs.Hex.{decode_pairs, encode_upper, pair_value, upper_digits};
ghost use Rattle.hsr_digits.specs.Values.{is_marked, marked};

use std::simd::prelude::*;

/// How many octets a vector holds.
pub(crate) const LANES: usize = 16;

/// How many octets half a vector holds.
pub(crate) const HALF: usize = LANES / 2;

/// The sixteen digits, in upper case.
#[inline(always)]
fn table() -> u8x16
    ensures { result ≡ upper_digits }
{
    u8x16::from_array(*b"0123456789ABCDEF")
}

/// The digit of each value below 16.
#[inline(always)]
fn digits_of(values: u8x16) -> u8x16
    requires { Each1 (λ v. v < 16) values }
    ensures { result ≡ map (λ v. slice_index upper_digits v) values }
{
    table().swizzle_dyn(values)
}

/// The first digit of each octet.
#[inline(always)]
fn high_digits(octets: u8x16) -> u8x16
    ensures { result ≡ map (λ o. slice_index upper_digits (o / 16)) octets }
{
    digits_of(octets >> u8x16::splat(4))
}

/// The second digit of each octet.
#[inline(always)]
fn low_digits(octets: u8x16) -> u8x16
    ensures { result ≡ map (λ o. slice_index upper_digits (o % 16)) octets }
{
    digits_of(octets & u8x16::splat(15))
}

/// The digits of octets: those of the first eight, and those of the last eight.
#[inline(always)]
fn halves_of_digits(octets: u8x16) -> (u8x16, u8x16)
    ensures front { result.0 ≡ encode_upper (take 8 octets) }
    ensures back { result.1 ≡ encode_upper (drop 8 octets) }
{
    high_digits(octets).interleave(low_digits(octets))
}

/// Writes the 32 digits of the first 16 octets over the first 32 of `digits`.
#[inline(always)]
fn write_block(digits: &mut [u8], octets: &[u8])
    requires room { 32 ≤ length digits.old }
    requires octets { 16 ≤ length octets.now }
    ensures { digits.new ≡ encode_upper (take 16 octets.now) ++ drop 32 digits.old }
{
    let (first, second) = halves_of_digits(u8x16::from_slice(octets));
    first.copy_to_slice(digits);
    second.copy_to_slice(&mut digits[16..]);
}

/// Two half vectors as one, so that the digits of both are found at once.
#[inline(always)]
fn one_behind_the_other(front: u8x8, back: u8x8) -> u8x16
    ensures { result ≡ front ++ back }
{
    front.shuffle(back, [0, 1, 2, 3, 4, 5, 6, 7, 8, 9, 10, 11, 12, 13, 14, 15])
}

/// Writes the digits of 8 to 16 octets, in upper case.
// The first octets of a frame's own, and of what goes up, are 12 or 14: one by one they take four times as many instructions.
pub(crate) fn write_halves(digits: &mut [u8], octets: &[u8])
    requires room { length digits.old ≡ 2 * length octets.now }
    requires long { 8 ≤ length octets.now }
    requires short { length octets.now ≤ 16 }
    ensures { digits.new ≡ encode_upper octets.now }
{
    // The second half ends with the octets, and may lie over a part of the first.
    let last = octets.len() - HALF;
    let both = one_behind_the_other(u8x8::from_slice(octets), u8x8::from_slice(&octets[last..]));
    let (first, second) = halves_of_digits(both);
    first.copy_to_slice(digits);
    second.copy_to_slice(&mut digits[2 * last..]);
}

/// Each character as a lane: 240 and what it is worth where it is a digit of either case, less where it is none.
#[inline(always)]
fn marked_values(characters: u8x16) -> u8x16
    ensures { result ≡ map marked characters }
{
    // `0` to `9` come to 246 to 255, and from there to 240 to 249: without saturation `:` to `?` would come to 250 to 255.
    let numbers = (characters + u8x16::splat(0xC6)).saturating_sub(u8x16::splat(6));
    // One less, and without the bit of lower case, `A` to `F` come to 64 to 69, and from there to 250 to 255: nothing comes to 63, nor to 249.
    let letters = ((characters - u8x16::splat(1)) & u8x16::splat(0xDF)) + u8x16::splat(0xBA);
    numbers.simd_max(letters)
}

/// Whether each lane is that of a digit.
#[inline(always)]
fn are_marked(lanes: u8x16) -> bool
    ensures { result ≡ list_all is_marked lanes }
{
    // 240 is the four high bits, so that all are as much where the bits that they share are.
    lanes.reduce_and() >= 0xF0
}

/// Each two lanes as one octet, the second of two: 16 times the first, and the second.
#[inline(always)]
fn joined(lanes: u8x16) -> u8x16
    ensures { (j : ℕ) → j < 8 → slice_index result (2 * j + 1)
        ≡ (16 * slice_index lanes (2 * j) + slice_index lanes (2 * j + 1)) % 256 }
{
    // As a number of 16 bits the two are joined by one multiplication, where lanes of octets would have to be parted, shifted and masked.
    (u16x8::from_le_bytes(lanes) * u16x8::splat(0x1001)).to_le_bytes()
}

/// The octets that 32 lanes of digits spell.
#[inline(always)]
fn octets_of(first: u8x16, second: u8x16) -> u8x16
    ensures { (j : ℕ) → j < 16 → slice_index result j
        ≡ (16 * slice_index (first ++ second) (2 * j) + slice_index (first ++ second) (2 * j + 1) + 16) % 256 }
{
    let (_, octets) = joined(first).deinterleave(joined(second));
    // Both lanes of a digit have 240 too much: 17 times 240 is 16 less than a multiple of 256.
    octets + u8x16::splat(16)
}

/// Reads the first 32 digits into the first 16 octets, and keeps in `seen` the bits that all lanes of digits share: whether all were digits
/// is asked once, behind the last block.
#[inline(always)]
fn read_block(octets: &mut [u8], digits: &[u8], seen: u8x16) -> u8x16
    requires room { 16 ≤ length octets.old }
    requires digits { 32 ≤ length digits.now }
    ensures seen { list_all is_marked result
        ≡ (list_all is_marked seen && list_all is_ascii_hexdigit (take 32 digits.now)) }
    ensures read { (j k : ℕ) → j < 16 → is_ascii_hexdigit (slice_index digits.now (2 * j)) ≡ true
        → is_ascii_hexdigit (slice_index digits.now (2 * j + 1)) ≡ true
        → pair_value (slice_index digits.now (2 * j)) (slice_index digits.now (2 * j + 1)) k
        ≡ Ok (slice_index octets.new j) }
{
    let first = marked_values(u8x16::from_slice(digits));
    let second = marked_values(u8x16::from_slice(&digits[16..]));
    octets_of(first, second).copy_to_slice(octets);
    seen & first & second
}

/// Writes the digits of 16 octets or more, in upper case.
pub(crate) fn write_blocks(digits: &mut [u8], octets: &[u8])
    requires room { length digits.old ≡ 2 * length octets.now }
    requires long { 16 ≤ length octets.now }
    ensures { digits.new ≡ encode_upper octets.now }
{
    // The last block ends with the octets, and may write digits again that the one before it wrote.
    let last = octets.len() - LANES;
    for block in 0..last.div_ceil(LANES) {
        let at = LANES * block;
        write_block(&mut digits[2 * at..], &octets[at..]);
    }
    write_block(&mut digits[2 * last..], &octets[last..]);
}

/// Reads 16 octets or more, which pairs of digits of either case spell. False where a character is no digit: then the octets mean nothing.
pub(crate) fn read_blocks(octets: &mut [u8], digits: &[u8]) -> bool
    requires room { length digits.now ≡ 2 * length octets.old }
    requires long { 16 ≤ length octets.old }
    ensures { (if result then Some octets.new else None) ≡ result_ok (decode_pairs 0 digits.now) }
{
    let last = octets.len() - LANES;
    let mut seen = u8x16::splat(0xFF);
    for block in 0..last.div_ceil(LANES) {
        let at = LANES * block;
        seen = read_block(&mut octets[at..], &digits[2 * at..], seen);
    }
    seen = read_block(&mut octets[last..], &digits[2 * last..], seen);
    are_marked(seen)
}
