//! Whether an observed copy says what an expected one does.
ghost use Rattle.std.specs.Prelude.{◌≡◌, Result};
ghost use Rattle.hsr_judging.specs.Agreement.{are_zeros, behind, front, fronts_agree, is_equal, is_padding_ignored, is_right, lives_agree, may_be_padded, needs_path, needs_source, numbers_agree, octets_agree, payloads_agree, plain_agree, read_agree, same_but_zeros, same_octets, same_vlan, seen_agree, sizes_agree, sources_agree, tagged_agree};

use hsr_frame::{FrameFault, Mac};
use hsr_playback::{Expected, Passage};
use hsr_tag::{EitherView, FrameView, SeenView, TaggedView, look_at};
use hsr_tap_device::{End, Ignored};

/// What need not agree.
#[derive(Clone, Copy)]
pub(crate) struct Rule {
    pub ignored: Ignored,
    /// Whether the device's own numbers have to agree.
    pub has_numbers: bool,
}

/// The longest payload that is padded: that of the least frame (IEEE 802.3 clause 4), with a tag's own octets.
const LONGEST_PADDED: usize = 52;

/// What the size in a tag counts beside the payload.
const TAG_LEN: usize = 6;

// ---- octets

/// Whether octets are all zeros.
fn are_zeros(octets: &[u8]) -> bool
    ensures { result ≡ are_zeros octets.now }
{
    octets.iter().all(|octet| *octet == 0)
}

/// So many octets in front, or all.
pub(crate) fn front(octets: &[u8], n: usize) -> &[u8]
    ensures { result.now ≡ front n octets.now }
{
    &octets[..n.min(octets.len())]
}

/// What stands behind so many octets.
fn behind(octets: &[u8], n: usize) -> &[u8]
    ensures { result.now ≡ behind n octets.now }
{
    &octets[n.min(octets.len())..]
}

/// Whether octets are the same but for zeros at the end.
pub(crate) fn same_but_zeros(a: &[u8], b: &[u8]) -> bool
    ensures { result ≡ same_but_zeros a.now b.now }
{
    let both = a.len().min(b.len());
    a[..both] == b[..both] && (are_zeros(&a[both..]) && are_zeros(&b[both..]))
}

// ---- payloads

/// Whether a payload is short enough for padding.
fn may_be_padded(payload: &[u8]) -> bool
    ensures { result ≡ may_be_padded payload.now }
{
    payload.len() <= LONGEST_PADDED
}

/// Whether the padding of two payloads need not agree.
pub(crate) fn is_padding_ignored(ignored: &Ignored, a: &[u8], b: &[u8]) -> bool
    ensures { result ≡ is_padding_ignored ignored.now a.now b.now }
{
    ignored.padding && (may_be_padded(a) && may_be_padded(b))
}

/// Whether octets are the same, but for zeros at the end where these need not agree.
fn same_octets(ignores: bool, a: &[u8], b: &[u8]) -> bool
    ensures { result ≡ same_octets ignores a.now b.now }
{
    if ignores {
        same_but_zeros(a, b)
    } else {
        a == b
    }
}

/// Whether two payloads of supervision frames of the device's own agree: in what stands in front of the counter, in the counter where it
/// is known, in the type and the address, and in what stands behind it where that has to agree.
fn lives_agree(rule: Rule, a: &[u8], b: &[u8]) -> bool
    ensures { result ≡ lives_agree rule a.now b.now }
{
    let ignores = is_padding_ignored(&rule.ignored, a, b);
    front(a, 2) == front(b, 2)
        && ((!rule.has_numbers || front(behind(a, 2), 2) == front(behind(b, 2), 2))
            && (front(behind(a, 4), 8) == front(behind(b, 4), 8)
                && (rule.ignored.life_payload
                    || same_octets(ignores, behind(a, 12), behind(b, 12)))))
}

/// Whether two payloads agree.
fn payloads_agree(rule: Rule, is_life: bool, a: &[u8], b: &[u8]) -> bool
    ensures { result ≡ payloads_agree rule is_life a.now b.now }
{
    if is_life {
        lives_agree(rule, a, b)
    } else {
        same_octets(is_padding_ignored(&rule.ignored, a, b), a, b)
    }
}

// ---- fields

/// Whether sources of frames that leave by an end have to agree.
pub(crate) fn needs_source(ignored: &Ignored, out: End) -> bool
    ensures { result ≡ needs_source ignored.now out }
{
    match out {
        End::I => !ignored.interlink_source,
        End::A | End::B | End::C | End::D | End::Up => true,
    }
}

/// Whether paths have to agree: those of frames that are sent on may be ignored.
pub(crate) fn needs_path(ignored: &Ignored, expected: &Expected) -> bool
    ensures { result ≡ needs_path ignored.now expected.now }
{
    expected.is_numbered || !ignored.path
}

/// Whether a size counts a payload and the tag's own octets, or so much less as zeros follow, in a payload that may be padded.
pub(crate) fn is_right(size: u16, payload: &[u8]) -> bool
    ensures { result ≡ is_right size payload.now }
{
    let size = usize::from(size);
    if size < TAG_LEN {
        return false;
    }
    let said = size - TAG_LEN;
    may_be_padded(payload) && (said <= payload.len() && are_zeros(behind(payload, said)))
}

/// Whether two sizes agree.
fn sizes_agree(rule: Rule, a: &TaggedView<'_>, b: &TaggedView<'_>) -> bool
    ensures { result ≡ sizes_agree rule a.now b.now }
{
    a.size == b.size
        || (rule.ignored.padding
            && (is_right(a.size, a.payload.as_slice()) && is_right(b.size, b.payload.as_slice())))
}

/// Whether two numbers agree: one of the device's own counter does, until it is known.
pub(crate) fn numbers_agree(rule: Rule, expected: &Expected, a: u16, b: u16) -> bool
    ensures { result ≡ numbers_agree rule expected.now a b }
{
    (expected.is_numbered && !rule.has_numbers) || a == b
}

/// Whether two sources agree.
fn sources_agree(rule: Rule, expected: &Expected, a: Mac, b: Mac) -> bool
    ensures { result ≡ sources_agree rule expected.now a b }
{
    a == b || !needs_source(&rule.ignored, expected.out)
}

/// Whether two VLAN tags are one, or neither is there.
pub(crate) fn same_vlan(a: Option<u16>, b: Option<u16>) -> bool
    ensures { result ≡ same_vlan a b }
{
    match (a, b) {
        (None, None) => true,
        (Some(a), Some(b)) => a == b,
        _ => false,
    }
}

/// Whether two tagged frames agree.
fn tagged_agree(rule: Rule, expected: &Expected, a: &TaggedView<'_>, b: &TaggedView<'_>) -> bool
    ensures { result ≡ tagged_agree rule expected.now a.now b.now }
{
    let payloads = payloads_agree(
        rule,
        expected.is_life,
        a.payload.as_slice(),
        b.payload.as_slice(),
    );
    a.dst == b.dst
        && (sources_agree(rule, expected, a.src, b.src)
            && (same_vlan(a.vlan, b.vlan)
                && (a.kind == b.kind
                    && ((a.path == b.path || !needs_path(&rule.ignored, expected))
                        && (sizes_agree(rule, a, b)
                            && (numbers_agree(rule, expected, a.seq, b.seq) && payloads))))))
}

/// Whether two plain frames agree.
fn plain_agree(rule: Rule, expected: &Expected, a: &FrameView<'_>, b: &FrameView<'_>) -> bool
    ensures { result ≡ plain_agree rule expected.now a.now b.now }
{
    let payloads = payloads_agree(
        rule,
        expected.is_life,
        a.payload.as_slice(),
        b.payload.as_slice(),
    );
    a.dst == b.dst
        && (sources_agree(rule, expected, a.src, b.src)
            && (same_vlan(a.vlan, b.vlan) && (a.kind == b.kind && payloads)))
}

/// Whether two frames agree.
fn seen_agree(rule: Rule, expected: &Expected, a: &SeenView<'_>, b: &SeenView<'_>) -> bool
    ensures { result ≡ seen_agree rule expected.now a.now b.now }
{
    match (&a.frame, &b.frame) {
        (EitherView::Tagged(a), EitherView::Tagged(b)) => tagged_agree(rule, expected, a, b),
        (EitherView::Plain(a), EitherView::Plain(b)) => plain_agree(rule, expected, a, b),
        (EitherView::Tagged(_), EitherView::Plain(_)) => false,
        (EitherView::Plain(_), EitherView::Tagged(_)) => false,
    }
}

// ---- octets as frames

/// Whether octets agree that were read so.
fn read_agree(
    rule: Rule,
    expected: &Expected,
    a: &[u8],
    b: &[u8],
    x: &Result<SeenView<'_>, FrameFault>,
    y: &Result<SeenView<'_>, FrameFault>,
) -> bool
    ensures { result ≡ read_agree rule expected.now a.now b.now x.now y.now }
{
    match (x, y) {
        (Ok(x), Ok(y)) => seen_agree(rule, expected, x, y),
        (Err(_), Err(_)) => a == b,
        (Ok(_), Err(_)) => false,
        (Err(_), Ok(_)) => false,
    }
}

/// Whether octets agree: frames of one kind by their fields, other octets in all of them.
fn octets_agree(rule: Rule, expected: &Expected, a: &[u8], b: &[u8]) -> bool
    ensures { result ≡ octets_agree rule expected.now a.now b.now }
{
    read_agree(rule, expected, a, b, &look_at(a), &look_at(b))
}

/// Whether what both have agrees, and there are as many octets.
fn fronts_agree(rule: Rule, expected: &Expected, seen: &Passage) -> bool
    ensures { result ≡ fronts_agree rule expected.now seen.now }
{
    let a = expected.octets.as_slice();
    let b = seen.octets.as_slice();
    let both = expected.kept.min(seen.captured);
    a.len() == b.len() && octets_agree(rule, expected, front(a, both), front(b, both))
}

/// Whether an observed copy says what an expected one does. Where octets of either weren't captured, what both have is compared, and how
/// many there are.
pub(crate) fn is_equal(rule: Rule, expected: &Expected, seen: &Passage) -> bool
    ensures { result ≡ is_equal rule expected.now seen.now }
{
    if expected.is_cut() || seen.is_cut() {
        fronts_agree(rule, expected, seen)
    } else {
        octets_agree(
            rule,
            expected,
            expected.octets.as_slice(),
            seen.octets.as_slice(),
        )
    }
}
