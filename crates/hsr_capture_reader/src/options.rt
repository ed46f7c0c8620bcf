//! The options of a block (draft-ietf-opsawg-pcapng, section 3.5).
ghost use Rattle.std.specs.Prelude.{◌≡◌, ◌+◌, ◌<◌, ◌≤◌, length, take, drop, option_map};
ghost use Rattle.std.specs.Option.{option_copied};
ghost use Rattle.hsr_capture_reader.specs.Options.{option_past, octet_option, option_of, padded_len, wide_option};

use crate::numbers::ByteOrder;

/// How many octets a value takes with its padding.
fn padded_len(len: u16) -> usize
    ensures { result ≡ padded_len len }
{
    (usize::from(len) + 3) / 4 * 4
}

/// The first octets, all of them where there are fewer.
pub(crate) fn front(octets: &[u8], len: usize) -> &[u8]
    ensures { result.now ≡ take len octets.now }
{
    &octets[..len.min(octets.len())]
}

/// What stands behind the first octets, nothing where there are fewer.
pub(crate) fn behind(octets: &[u8], len: usize) -> &[u8]
    ensures { result.now ≡ drop len octets.now }
{
    &octets[len.min(octets.len())..]
}

/// The value of the first option with a code, up to the end of the options.
#[tactic(auto, using(crate::proofs::Passing::ends_there, crate::proofs::Passing::stands_there, crate::proofs::Passing::stands_behind, crate::proofs::Passing::no_option), unfolding(crate::specs::Options::option_of))]
pub(crate) fn option_of(order: ByteOrder, code: u16, options: &[u8]) -> Option<&[u8]>
    ensures { option_copied result ≡ option_of order code options.now }
{
    let mut left = options;
    while left.len() >= 4 {
        let found = order.u16_at(left, 0);
        let len = order.u16_at(left, 2);
        if found == 0 {
            return None;
        }
        let value = behind(left, 4);
        if found == code {
            return Some(front(value, usize::from(len)));
        }
        left = behind(value, padded_len(len));
    }
    None
}

/// The first octet of an option's value.
pub(crate) fn octet_option(order: ByteOrder, code: u16, options: &[u8]) -> Option<u8>
    ensures { result ≡ octet_option order code options.now }
{
    match option_of(order, code, options) {
        Some([first, ..]) => Some(*first),
        _ => None,
    }
}

/// An option's value, if it is a number of 64 bits.
pub(crate) fn wide_option(order: ByteOrder, code: u16, options: &[u8]) -> Option<u64>
    ensures { result ≡ wide_option order code options.now }
{
    match option_of(order, code, options) {
        Some(value) if value.len() == 8 => Some(order.u64_at(value, 0)),
        _ => None,
    }
}
