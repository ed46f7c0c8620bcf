//! What the reference said of the frame of a copy that nothing caused.
ghost use Rattle.std.specs.Prelude.{◌≡◌, ◌-◌, ◌<◌, IfSome, Result, nat_le, slice_get};
ghost use Rattle.std.specs.Option.{option_copied};
ghost use Rattle.hsr_judging.specs.Matching.{views};
ghost use Rattle.hsr_judging.specs.Reasons.{are_copies, are_one, are_untagged, are_untagged_at, has_number, is_again, is_cause, is_of, is_old, is_read_of, is_twice, looked_at, reason_in, same_key, same_keys, same_or_untagged, same_plain, tag_at};

use crate::agreement::same_but_zeros;
use crate::window::us_from;
use hsr_frame::{ETHERTYPE_HSR, ETHERTYPE_VLAN, FrameFault, TAG_LEN, u16_at};
use hsr_playback::{Answer, Passage, Said};
use hsr_tag::{EitherView, FrameView, SeenView, TaggedView, look_at};

/// For so many microseconds a node remembers a frame (IEC 62439-3 clause 5.3).
const FORGET: u64 = 400_000;

/// What the reference said of a frame, and the index of the passage by which it came.
#[derive(Clone, Copy, PartialEq, Eq)]
pub struct Reason {
    pub said: Said,
    pub passage: usize,
}

// ---- one frame

/// Whether two tagged frames have one source and number.
fn same_key(a: &TaggedView<'_>, b: &TaggedView<'_>) -> bool
    ensures { result ≡ same_key a.now b.now }
{
    a.src == b.src && a.seq == b.seq
}

/// Whether two plain frames have one destination, type and payload, zeros at its end apart.
fn same_plain(a: &FrameView<'_>, b: &FrameView<'_>) -> bool
    ensures { result ≡ same_plain a.now b.now }
{
    a.dst == b.dst
        && (a.kind == b.kind && same_but_zeros(a.payload.as_slice(), b.payload.as_slice()))
}

/// Whether two frames are one: of tagged ones source and number are the same; else destination, type and payload.
fn are_one(a: &SeenView<'_>, b: &SeenView<'_>) -> bool
    ensures { result ≡ are_one a.now b.now }
{
    match (&a.frame, &b.frame) {
        (EitherView::Tagged(a), EitherView::Tagged(b)) => same_key(a, b),
        (EitherView::Tagged(a), EitherView::Plain(b)) => same_plain(&a.untag(), b),
        (EitherView::Plain(a), EitherView::Tagged(b)) => same_plain(a, &b.untag()),
        (EitherView::Plain(a), EitherView::Plain(b)) => same_plain(a, b),
    }
}

// ---- octets that are no frame

/// Whether octets have a number of 16 bits at a place.
fn has_number(octets: &[u8], at: usize, number: u16) -> bool
    requires { at < 100 }
    ensures { result ≡ has_number octets.now at number }
{
    at + 2 <= octets.len() && u16_at(octets, at) == number
}

/// Where octets have the type of an HSR tag, if they do: behind the addresses, or behind the first VLAN tag.
fn tag_at(octets: &[u8]) -> Option<usize>
    ensures value { result ≡ tag_at octets.now }
    ensures near { IfSome result (λ at. at < 100) }
{
    if has_number(octets, 12, ETHERTYPE_HSR) {
        Some(12)
    } else if has_number(octets, 12, ETHERTYPE_VLAN) && has_number(octets, 16, ETHERTYPE_HSR) {
        Some(16)
    } else {
        None
    }
}

/// Whether octets are others without the HSR tag that these have at a place.
fn are_untagged_at(octets: &[u8], tagged: &[u8], at: Option<usize>) -> bool
    requires { IfSome at (λ n. n < 100) }
    ensures { result ≡ are_untagged_at octets.now tagged.now at }
{
    let Some(at) = at else {
        return false;
    };
    let behind = at + TAG_LEN;
    octets.len() + TAG_LEN == tagged.len()
        && (behind <= tagged.len()
            && (octets[..at] == tagged[..at] && octets[at..] == tagged[behind..]))
}

/// Whether octets are others without their HSR tag.
fn are_untagged(octets: &[u8], tagged: &[u8]) -> bool
    ensures { result ≡ are_untagged octets.now tagged.now }
{
    are_untagged_at(octets, tagged, tag_at(tagged))
}

/// Whether octets are the same, or one are the others without an HSR tag.
fn same_or_untagged(came: &[u8], copy: &[u8]) -> bool
    ensures { result ≡ same_or_untagged came.now copy.now }
{
    came == copy || (are_untagged(copy, came) || are_untagged(came, copy))
}

/// Whether octets that came are those of a copy, which were read so.
fn is_read_of(
    came: &[u8],
    copy: &[u8],
    x: &Result<SeenView<'_>, FrameFault>,
    y: &Result<SeenView<'_>, FrameFault>,
) -> bool
    ensures { result ≡ is_read_of came.now copy.now x.now y.now }
{
    match (x, y) {
        (Ok(a), Ok(b)) => are_one(a, b),
        (Ok(_), Err(_)) => same_or_untagged(came, copy),
        (Err(_), Ok(_)) => same_or_untagged(came, copy),
        (Err(_), Err(_)) => same_or_untagged(came, copy),
    }
}

/// Whether octets that came are those of a copy, as far as they are frames, or but for a tag.
fn is_of(came: &[u8], copy: &[u8]) -> bool
    ensures { result ≡ is_of came.now copy.now }
{
    is_read_of(came, copy, &look_at(came), &look_at(copy))
}

// ---- the reason

/// Whether something came more than 400 ms before a copy.
fn is_old(came: &Passage, copy: &Passage) -> bool
    ensures { result ≡ is_old came.now copy.now }
{
    us_from(came.moment, copy.moment) > FORGET
}

/// Whether a copy's frame came at another end, up to so many microseconds behind the copy.
fn is_cause(early: u64, came: &Passage, copy: &Passage) -> bool
    ensures { result ≡ is_cause early came.now copy.now }
{
    us_from(copy.moment, came.moment) <= early
        && (!came.end.is_same(copy.end) && is_of(came.octets.as_slice(), copy.octets.as_slice()))
}

/// What came of a look at what the reference said.
#[derive(Clone, Copy)]
enum Looked {
    /// It was said of another frame.
    Next,
    /// It is too old, as are those before it.
    Old,
    /// It is the reason.
    Found(Reason),
}

/// Looks at what the reference said of what came, if that is known.
fn looked_at(early: u64, copy: &Passage, answer: &Answer, came: Option<&Passage>) -> Looked
    ensures { result ≡ looked_at early copy.now answer.now (option_copied came.entry) }
{
    match came {
        None => Looked::Next,
        Some(came) => {
            if is_old(came, copy) {
                Looked::Old
            } else if is_cause(early, came, copy) {
                Looked::Found(Reason {
                    said: answer.said,
                    passage: answer.passage,
                })
            } else {
                Looked::Next
            }
        }
    }
}

/// Looks at an answer among all.
fn look_back(passages: &[Passage], early: u64, copy: &Passage, answer: &Answer) -> Looked
    ensures { result ≡ looked_at early copy.now answer.now
        (slice_get passages.now answer.now.passage) }
{
    looked_at(early, copy, answer, passages.get(answer.passage))
}

/// What the reference said of the youngest arrival of a copy's frame at another end, up to 400 ms before the copy and up to `early`
/// microseconds behind it.
pub fn reason_of(
    passages: &[Passage],
    answers: &[Answer],
    early: u64,
    copy: &Passage,
) -> Option<Reason>
    ensures { result ≡ reason_in passages.now answers.now early copy.now }
{
    for j in 0..answers.len() {
        let back = answers.len() - 1 - j;
        let answer = &answers[back];
        match look_back(passages, early, copy, answer) {
            Looked::Next => {}
            Looked::Old => return None,
            Looked::Found(reason) => return Some(reason),
        }
    }
    None
}

// ---- twice

/// Whether octets that were read so are tagged frames with one source and number.
fn same_keys(x: &Result<SeenView<'_>, FrameFault>, y: &Result<SeenView<'_>, FrameFault>) -> bool
    ensures { result ≡ same_keys x.now y.now }
{
    match (x, y) {
        (Ok(a), Ok(b)) => match (&a.frame, &b.frame) {
            (EitherView::Tagged(a), EitherView::Tagged(b)) => same_key(a, b),
            (EitherView::Tagged(_), EitherView::Plain(_)) => false,
            (EitherView::Plain(_), EitherView::Tagged(_)) => false,
            (EitherView::Plain(_), EitherView::Plain(_)) => false,
        },
        (Ok(_), Err(_)) => false,
        (Err(_), Ok(_)) => false,
        (Err(_), Err(_)) => false,
    }
}

/// Whether two copies are one frame: the same octets, or the same source and number.
fn are_copies(a: &[u8], b: &[u8]) -> bool
    ensures { result ≡ are_copies a.now b.now }
{
    a == b || same_keys(&look_at(a), &look_at(b))
}

/// Whether a copy is of another's frame, at its end.
fn is_again(other: &Passage, copy: &Passage) -> bool
    ensures { result ≡ is_again other.now copy.now }
{
    other.end.is_same(copy.end) && are_copies(other.octets.as_slice(), copy.octets.as_slice())
}

/// Whether a copy that left before another did so 400 ms before it, or earlier.
fn is_forgotten(other: &Passage, copy: &Passage) -> bool
    ensures { result ≡ nat_le 400000000 (copy.now.moment - other.now.moment) }
{
    copy.moment.saturating_sub(other.moment) >= FORGET * 1000
}

/// Whether a copy's frame left by its end already, less than 400 ms before; `earlier` are the copies that were observed before it.
pub fn is_twice(earlier: &[&Passage], copy: &Passage) -> bool
    ensures { result ≡ is_twice (views earlier.now) copy.now }
{
    for j in 0..earlier.len() {
        let other = earlier[earlier.len() - 1 - j];
        if is_forgotten(other, copy) {
            return false;
        }
        if is_again(other, copy) {
            return true;
        }
    }
    false
}
