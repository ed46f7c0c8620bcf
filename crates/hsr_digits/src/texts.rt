//! Octets and their hexadecimal digits, of any number.
ghost use Rattle.std.specs.Prelude.{◌≡◌, ◌*◌, if◌then◌else◌, Some, None, length};
ghost use Rattle.std.specs.Result.{result_ok};
ghost use Rattle.hex.specs.Hex.{decode_pairs, encode_upper};

use crate::blocks::{HALF, LANES, read_blocks, write_blocks, write_halves};
use crate::pairs::{each_is_digit, fill_octets, write_each};

/// Fills a slice with the octets that pairs of hexadecimal digits of either case spell. False where a character is no digit: then the
/// octets mean nothing.
pub fn read_hex(octets: &mut [u8], digits: &[u8]) -> bool
    requires { length digits.now ≡ 2 * length octets.old }
    ensures { (if result then Some octets.new else None) ≡ result_ok (decode_pairs 0 digits.now) }
{
    if octets.len() >= LANES {
        return read_blocks(octets, digits);
    }
    if !each_is_digit(digits) {
        return false;
    }
    fill_octets(octets, digits);
    true
}

/// Fills a slice with the hexadecimal digits of octets, in upper case.
pub fn write_hex(digits: &mut [u8], octets: &[u8])
    requires { length digits.old ≡ 2 * length octets.now }
    ensures { digits.new ≡ encode_upper octets.now }
{
    if octets.len() >= LANES {
        write_blocks(digits, octets);
    } else if octets.len() >= HALF {
        write_halves(digits, octets);
    } else {
        write_each(digits, octets);
    }
}
