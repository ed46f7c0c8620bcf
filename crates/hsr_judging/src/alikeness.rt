//! Whether an observed copy is an expected frame, altered.
ghost use Rattle.std.specs.Prelude.{◌≡◌, Result};
ghost use Rattle.hsr_judging.specs.Alikeness.{both_known, is_alike, plain_alike, read_alike, same_payloads, seen_alike, tagged_alike, two_of};

use crate::agreement::{Rule, front, numbers_agree, same_but_zeros};
use hsr_frame::FrameFault;
use hsr_playback::{Expected, Passage};
use hsr_tag::{EitherView, FrameView, SeenView, TaggedView, look_at};

/// How many octets of two payloads both are known.
pub(crate) fn both_known(expected: &Expected, seen: &Passage, a: &[u8], b: &[u8]) -> usize
    ensures { result ≡ both_known expected.now seen.now a.now b.now }
{
    let lost = expected.unknown().max(seen.missing());
    a.len().min(b.len()).saturating_sub(lost)
}

/// Whether two payloads are the same but for zeros at their end, as far as both were captured.
fn same_payloads(expected: &Expected, seen: &Passage, a: &[u8], b: &[u8]) -> bool
    ensures { result ≡ same_payloads expected.now seen.now a.now b.now }
{
    if expected.is_cut() || seen.is_cut() {
        let both = both_known(expected, seen, a, b);
        front(a, both) == front(b, both)
    } else {
        same_but_zeros(a, b)
    }
}

/// Whether two of three things hold.
fn two_of(a: bool, b: bool, c: bool) -> bool
    ensures { result ≡ two_of a b c }
{
    (a && b) || ((a && c) || (b && c))
}

/// The same frame, of two tagged ones: two of source, number and payload are the same.
fn tagged_alike(
    rule: Rule,
    expected: &Expected,
    seen: &Passage,
    a: &TaggedView<'_>,
    b: &TaggedView<'_>,
) -> bool
    ensures { result ≡ tagged_alike rule expected.now seen.now a.now b.now }
{
    let numbers = numbers_agree(rule, expected, a.seq, b.seq);
    let payloads = same_payloads(expected, seen, a.payload.as_slice(), b.payload.as_slice());
    a.dst == b.dst && (a.kind == b.kind && two_of(a.src == b.src, numbers, payloads))
}

/// The same frame, where one has no tag: source or payload is the same.
fn plain_alike(expected: &Expected, seen: &Passage, a: &FrameView<'_>, b: &FrameView<'_>) -> bool
    ensures { result ≡ plain_alike expected.now seen.now a.now b.now }
{
    let payloads = same_payloads(expected, seen, a.payload.as_slice(), b.payload.as_slice());
    a.dst == b.dst && (a.kind == b.kind && (a.src == b.src || payloads))
}

/// The same frame, tagged or not.
fn seen_alike(
    rule: Rule,
    expected: &Expected,
    seen: &Passage,
    a: &SeenView<'_>,
    b: &SeenView<'_>,
) -> bool
    ensures { result ≡ seen_alike rule expected.now seen.now a.now b.now }
{
    match (&a.frame, &b.frame) {
        (EitherView::Tagged(a), EitherView::Tagged(b)) => tagged_alike(rule, expected, seen, a, b),
        (EitherView::Tagged(a), EitherView::Plain(b)) => {
            plain_alike(expected, seen, &a.untag(), b)
        }
        (EitherView::Plain(a), EitherView::Tagged(b)) => {
            plain_alike(expected, seen, a, &b.untag())
        }
        (EitherView::Plain(a), EitherView::Plain(b)) => plain_alike(expected, seen, a, b),
    }
}

/// The same frame, of octets that were read so.
fn read_alike(
    rule: Rule,
    expected: &Expected,
    seen: &Passage,
    x: &Result<SeenView<'_>, FrameFault>,
    y: &Result<SeenView<'_>, FrameFault>,
) -> bool
    ensures { result ≡ read_alike rule expected.now seen.now x.now y.now }
{
    match (x, y) {
        (Ok(x), Ok(y)) => seen_alike(rule, expected, seen, x, y),
        (Ok(_), Err(_)) => false,
        (Err(_), Ok(_)) => false,
        (Err(_), Err(_)) => false,
    }
}

/// Whether an observed copy is an expected frame, altered: the destination and the type are the same, and two of source, number and
/// payload; where one has no tag, source or payload.
pub(crate) fn is_alike(rule: Rule, expected: &Expected, seen: &Passage) -> bool
    ensures { result ≡ is_alike rule expected.now seen.now }
{
    let x = look_at(expected.octets.as_slice());
    let y = look_at(seen.octets.as_slice());
    read_alike(rule, expected, seen, &x, &y)
}
