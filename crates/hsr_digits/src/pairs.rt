//! Octets and their hexadecimal digits, octet by octet.
ghost use Rattle.std.specs.Prelude.{◌≡◌, ◌*◌, ℕ, Ok, Some, [], ◌∷◌, length, true};
ghost use Rattle.std.specs.Char.{is_ascii_hexdigit};
ghost use Rattle.std.specs.List.{list_all};
ghost use Rattle.std.specs.Result.{result_ok};
ghost use Rattle.hex.specs.Hex.{decode_pairs, encode_upper, pair_value};

/// Whether each of these is a hexadecimal digit of either case. The loop has no branches, so that it is one of vectors.
#[tactic(auto, using(crate::proofs::HexDigits::one_digit_more))]
pub(crate) fn each_is_digit(digits: &[u8]) -> bool
    ensures { result ≡ list_all is_ascii_hexdigit digits.now }
{
    let mut all = true;
    for digit in digits {
        // `&` and not `&&`, which would branch.
        all &= digit.is_ascii_hexdigit();
    }
    all
}

/// The octet that two hexadecimal digits of either case spell.
fn octet_of(high: u8, low: u8) -> u8
    ensures { (i : ℕ) → is_ascii_hexdigit high ≡ true → is_ascii_hexdigit low ≡ true
        → pair_value high low i ≡ Ok result }
{
    // Both at once, each in an octet of one number, since vectors read what stands together.
    let pair = u16::from_le_bytes([high, low]);
    // The low bits of a letter are its place from 1, and a letter has a bit that a number lacks: 9 more is its value.
    let eights = (pair & 0x4040) >> 3;
    let values = (pair & 0x0F0F) + eights + (eights >> 3);
    // The first value goes four bits above the second. Of other characters this means nothing, and nobody asks for it.
    (values.wrapping_mul(0x1001) >> 8) as u8
}

/// Fills a slice with the octets that pairs of hexadecimal digits spell.
pub(crate) fn fill_octets(octets: &mut [u8], digits: &[u8])
    requires length { length digits.now ≡ 2 * length octets.old }
    requires digits { list_all is_ascii_hexdigit digits.now ≡ true }
    ensures { result_ok (decode_pairs 0 digits.now) ≡ Some octets.new }
{
    for i in 0..octets.len() {
        octets[i] = octet_of(digits[2 * i], digits[2 * i + 1]);
    }
}

/// The two hexadecimal digits of an octet, in upper case.
fn digits_of(octet: u8) -> [u8; 2]
    ensures { result ≡ encode_upper (octet ∷ []) }
{
    // Both at once, each in an octet of one number, as in `octet_of`: the high four bits, and above them the low ones.
    let values = u16::from(octet).wrapping_mul(0x1001) >> 4;
    // From ten on, 6 more reaches the bit of 16. There the digit is a letter, and its code is 7 more than a number's would be.
    let eights = ((values + 0x0606) & 0x1010) >> 1;
    (values + 0x3030 + eights - (eights >> 3)).to_le_bytes()
}

/// Fills a slice with the hexadecimal digits of octets, in upper case, from the first octet to the last.
pub(crate) fn write_each(digits: &mut [u8], octets: &[u8])
    requires { length digits.old ≡ 2 * length octets.now }
    ensures { digits.new ≡ encode_upper octets.now }
{
    for i in 0..octets.len() {
        let [high, low] = digits_of(octets[i]);
        digits[2 * i] = high;
        digits[2 * i + 1] = low;
    }
}
