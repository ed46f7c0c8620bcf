//! Whether two copies say the same, and whether a copy says its size.
ghost use Rattle.std.specs.Prelude.{◌≡◌, ◌<◌, ◌≤◌, ◌&&◌, length, drop, take};
ghost use Rattle.std.specs.Str.{bytes_eq};
ghost use Rattle.hsr_frame_copies.specs.Alike.{agree, are_zeros, has_right_size, is_whole, payloads_agree, says_same};

use crate::contents::Copy;

/// Whether octets are all zeros.
fn are_zeros(octets: &[u8]) -> bool
    ensures { result ≡ are_zeros octets.now }
{
    octets.iter().all(|octet| *octet == 0)
}

/// Whether octets are the same as far as there are both; where they are all of two payloads, only zeros may follow.
fn agree(is_whole: bool, a: &[u8], b: &[u8]) -> bool
    ensures { result ≡ agree is_whole a.now b.now }
{
    let both = a.len().min(b.len());
    a[..both] == b[..both] && (!is_whole || (are_zeros(&a[both..]) && are_zeros(&b[both..])))
}

/// The same of the payloads of supervision frames, but for the path that stands in front (IEC 62439-3 clause 5.7).
fn payloads_agree(is_whole: bool, is_supervision: bool, a: &[u8], b: &[u8]) -> bool
    ensures { result ≡ payloads_agree is_whole is_supervision a.now b.now }
{
    match (a, b) {
        ([x, xs @ ..], [y, ys @ ..]) if is_supervision => {
            *x % 16 == *y % 16 && agree(is_whole, xs, ys)
        }
        _ => agree(is_whole, a, b),
    }
}

/// Whether all of a copy's payload was captured.
fn is_whole(copy: &Copy<'_>) -> bool
    ensures { result ≡ is_whole copy.now }
{
    copy.length <= copy.payload.len()
}

/// Whether two copies say the same behind their tags: they go to the same address, and have the same type and the same payload, zeros
/// at its end apart. Of payloads that are cut, what both have is compared; of supervision frames, all but the path in the payload.
pub fn says_same(a: &Copy<'_>, b: &Copy<'_>) -> bool
    ensures { result ≡ says_same a.now b.now }
{
    a.dst == b.dst
        && a.kind == b.kind
        && payloads_agree(
            is_whole(a) && is_whole(b),
            a.is_supervision(),
            a.payload,
            b.payload,
        )
}

/// What the size in a tag counts beside the payload.
const TAG_LEN: usize = 6;

/// The longest payload that is padded: of the least frame (IEEE 802.3 clause 4), with a tag's own octets.
const LONGEST_PADDED: usize = 52;

/// Whether the size in a copy's tag counts its payload and the tag's own six octets, or so much less as zeros follow, in a payload of at
/// most 52 octets; octets that weren't captured count as zeros.
pub fn has_right_size(copy: &Copy<'_>) -> bool
    ensures { result ≡ has_right_size copy.now }
{
    let size = usize::from(copy.size);
    if size < TAG_LEN {
        return false;
    }
    let said = size - TAG_LEN;
    if said == copy.length {
        return true;
    }
    if said > copy.length || copy.length > LONGEST_PADDED {
        return false;
    }
    are_zeros(&copy.payload[said.min(copy.payload.len())..])
}
