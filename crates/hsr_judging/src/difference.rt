//! In which fields two copies differ.
ghost use Rattle.std.specs.Prelude.{◌≡◌, ◌++◌, [], if◌then◌else◌, IfOk, OnOk, Result};
ghost use Rattle.std.specs.Option.{option_to_list};
ghost use Rattle.hsr_judging.specs.Differences.{both_payloads, differences, differs_at, field_differences, first_difference, is_counter, is_let_be, is_padded, is_same_at, jump_differences, life_between, life_difference, life_jump, number_difference, number_jump, or_octets, padding_difference, path_difference, payload_difference, plain_differences, read_differences, same_octet, seen_differences, size_difference, sizes_follow, source_difference, tagged_differences, those, vlan_difference};

use crate::agreement::{
    front, is_padding_ignored, is_right, needs_path, needs_source, same_but_zeros, same_vlan,
};
use crate::alikeness::both_known;
use crate::numbers::counter_in;
use hsr_frame::{FrameFault, Mac, NoMemory};
use hsr_playback::{Expected, Jump, Passage};
use hsr_tag::{EitherView, FrameView, SeenView, TaggedView, look_at};
use hsr_tap_device::Ignored;
use std::alloc::Global;
use std::marker::Model;

/// A field in which an observed copy differs from the expected one, with what was expected and what was seen.
#[derive(Clone, Copy, PartialEq, Eq)]
pub enum Difference {
    Source(Mac, Mac),
    Vlan(Option<u16>, Option<u16>),
    Path(u8, u8),
    /// How long the payloads are, which differ in zeros at their ends.
    Padding(usize, usize),
    Size(u16, u16),
    /// The first octet of the payload that differs.
    Payload(usize),
    /// Whether there is a tag.
    Tag(bool, bool),
    /// None of the others differs.
    Octets,
    Number(u16, u16),
    Life(u16, u16),
}

// ---- payloads

/// Two payloads, how many octets of each are to be compared, and what need not agree.
#[derive(Drop)]
struct Payloads<'a> {
    a: &'a [u8],
    b: &'a [u8],
    /// Whether all octets of both were captured.
    is_whole: bool,
    /// Whether there is a supervision counter, which is told by itself.
    is_life: bool,
}

impl<'a> Model for Payloads<'a> {
    ghost use Rattle.hsr_judging.specs.Differences.{PayloadFields};

    ghost Value = { PayloadFields };

    ghost view = { λ p. record { a = p.a.now; b = p.b.now; is_whole = p.is_whole; is_life = p.is_life } };
}

/// Where a supervision payload has what follows the address.
const BEHIND_ADDRESS: usize = 12;

/// Two payloads, as far as both were captured.
fn both_payloads<'a>(expected: &Expected, seen: &Passage, a: &'a [u8], b: &'a [u8]) -> Payloads<'a>
    ensures { result ≡ both_payloads expected.now seen.now a.now b.now }
{
    let is_life = expected.is_life;
    if expected.is_cut() || seen.is_cut() {
        let both = both_known(expected, seen, a, b);
        Payloads {
            a: front(a, both),
            b: front(b, both),
            is_whole: false,
            is_life,
        }
    } else {
        Payloads {
            a,
            b,
            is_whole: true,
            is_life,
        }
    }
}

/// Whether two payloads differ in zeros at their ends alone.
fn is_padded(payloads: &Payloads<'_>) -> bool
    ensures { result ≡ is_padded payloads.now }
{
    payloads.is_whole
        && (!(payloads.a.len() == payloads.b.len()) && same_but_zeros(payloads.a, payloads.b))
}

/// Whether two octets are one, or neither is there.
fn same_octet(a: Option<u8>, b: Option<u8>) -> bool
    ensures { result ≡ same_octet a b }
{
    match (a, b) {
        (None, None) => true,
        (Some(a), Some(b)) => a == b,
        (None, Some(_)) => false,
        (Some(_), None) => false,
    }
}

/// Whether a place is one of the supervision counter.
fn is_counter(payloads: &Payloads<'_>, at: usize) -> bool
    ensures { result ≡ is_counter payloads.now at }
{
    payloads.is_life && (at == 2 || at == 3)
}

/// Whether a place of a supervision payload need not agree.
fn is_let_be(ignored: &Ignored, payloads: &Payloads<'_>, at: usize) -> bool
    ensures { result ≡ is_let_be ignored.now payloads.now at }
{
    payloads.is_life && (ignored.life_payload && BEHIND_ADDRESS <= at)
}

/// Whether one octet stands at a place of both payloads.
fn is_same_at(payloads: &Payloads<'_>, at: usize) -> bool
    ensures { result ≡ is_same_at payloads.now at }
{
    same_octet(payloads.a.get(at).copied(), payloads.b.get(at).copied())
}

/// Whether what stands at a place of two payloads differs and is told of.
fn differs_at(ignored: &Ignored, payloads: &Payloads<'_>, at: usize) -> bool
    ensures { result ≡ differs_at ignored.now payloads.now at }
{
    !is_counter(payloads, at) && (!is_let_be(ignored, payloads, at) && !is_same_at(payloads, at))
}

/// The first place at which two payloads differ.
fn first_difference(ignored: &Ignored, payloads: &Payloads<'_>) -> Option<usize>
    ensures { result ≡ first_difference ignored.now payloads.now }
{
    let most = payloads.a.len().max(payloads.b.len());
    (0..most).find(|at| differs_at(ignored, payloads, *at))
}

/// How long two payloads are, if they differ in their padding.
fn padding_difference(ignored: &Ignored, payloads: &Payloads<'_>) -> Option<Difference>
    ensures { result ≡ padding_difference ignored.now payloads.now }
{
    if is_padded(payloads) && !is_padding_ignored(ignored, payloads.a, payloads.b) {
        Some(Difference::Padding(payloads.a.len(), payloads.b.len()))
    } else {
        None
    }
}

/// Where two payloads differ, if they do.
fn payload_difference(ignored: &Ignored, payloads: &Payloads<'_>) -> Option<Difference>
    ensures { result ≡ payload_difference ignored.now payloads.now }
{
    if is_padded(payloads) {
        return None;
    }
    match first_difference(ignored, payloads) {
        Some(at) => Some(Difference::Payload(at)),
        None => None,
    }
}

// ---- other fields

/// The sources, if they differ and have to agree.
fn source_difference(ignored: &Ignored, expected: &Expected, a: Mac, b: Mac) -> Option<Difference>
    ensures { result ≡ source_difference ignored.now expected.now a b }
{
    if !(a == b) && needs_source(ignored, expected.out) {
        Some(Difference::Source(a, b))
    } else {
        None
    }
}

/// The VLAN tags, if they differ.
fn vlan_difference(a: Option<u16>, b: Option<u16>) -> Option<Difference>
    ensures { result ≡ vlan_difference a b }
{
    if same_vlan(a, b) {
        None
    } else {
        Some(Difference::Vlan(a, b))
    }
}

/// The paths, if they differ and have to agree.
fn path_difference(
    ignored: &Ignored,
    expected: &Expected,
    a: &TaggedView<'_>,
    b: &TaggedView<'_>,
) -> Option<Difference>
    ensures { result ≡ path_difference ignored.now expected.now a.now b.now }
{
    if !(a.path == b.path) && needs_path(ignored, expected) {
        Some(Difference::Path(a.path, b.path))
    } else {
        None
    }
}

/// Whether two sizes differ by as much as the lengths of their payloads.
fn sizes_follow(a: &TaggedView<'_>, b: &TaggedView<'_>) -> bool
    ensures { result ≡ sizes_follow a.now b.now }
{
    let (p, q) = (a.payload.as_slice().len(), b.payload.as_slice().len());
    usize::from(a.size) + q == usize::from(b.size) + p
}

/// The sizes, if they differ and that doesn't follow from the lengths of the payloads.
fn size_difference(ignored: &Ignored, a: &TaggedView<'_>, b: &TaggedView<'_>) -> Option<Difference>
    ensures { result ≡ size_difference ignored.now a.now b.now }
{
    if a.size == b.size
        || (sizes_follow(a, b)
            || (ignored.padding
                && (is_right(a.size, a.payload.as_slice())
                    && is_right(b.size, b.payload.as_slice()))))
    {
        None
    } else {
        Some(Difference::Size(a.size, b.size))
    }
}

// ---- numbers

/// Two numbers, if they differ.
fn number_difference(a: u16, b: u16) -> Option<Difference>
    ensures { result ≡ number_difference a b }
{
    if a == b {
        None
    } else {
        Some(Difference::Number(a, b))
    }
}

/// Two supervision counters, if both are there and differ.
fn life_between(a: Option<u16>, b: Option<u16>) -> Option<Difference>
    ensures { result ≡ life_between a b }
{
    match (a, b) {
        (Some(a), Some(b)) => {
            if a == b {
                None
            } else {
                Some(Difference::Life(a, b))
            }
        }
        (None, Some(_)) => None,
        (Some(_), None) => None,
        (None, None) => None,
    }
}

/// The supervision counters of two frames of the device's own, if they differ.
fn life_difference(
    expected: &Expected,
    a: &TaggedView<'_>,
    b: &TaggedView<'_>,
) -> Option<Difference>
    ensures { result ≡ life_difference expected.now a.now b.now }
{
    if expected.is_life {
        life_between(
            counter_in(a.payload.as_slice()),
            counter_in(b.payload.as_slice()),
        )
    } else {
        None
    }
}

/// A number that isn't the next.
fn number_jump(jump: Option<(u16, u16)>) -> Option<Difference>
    ensures { result ≡ number_jump jump }
{
    match jump {
        Some((next, seen)) => Some(Difference::Number(next, seen)),
        None => None,
    }
}

/// A supervision number that isn't the next.
fn life_jump(jump: Option<(u16, u16)>) -> Option<Difference>
    ensures { result ≡ life_jump jump }
{
    match jump {
        Some((next, seen)) => Some(Difference::Life(next, seen)),
        None => None,
    }
}

// ---- all fields

/// Puts a difference last, if there is one.
fn put(found: &mut Vec<Difference>, difference: &Option<Difference>) -> Result<(), NoMemory>
    ensures { OnOk result (found.new.items
        ≡ found.old.items ++ option_to_list difference.now) }
{
    match difference {
        Some(difference) => {
            found.push(*difference)?;
            Ok(())
        }
        None => Ok(()),
    }
}

/// Puts those of some differences last that are there, in their order.
#[tactic(auto, using(crate::proofs::Differing::those_all))]
fn put_those(found: &mut Vec<Difference>, all: &[Option<Difference>]) -> Result<(), NoMemory>
    ensures { OnOk result (found.new.items ≡ found.old.items ++ those all.now) }
{
    for k in 0..all.len() {
        put(found, &all[k])?;
    }
    Ok(())
}

/// Puts the fields in which two tagged frames differ, numbers last.
#[tactic(auto, unfolding(crate::specs::Differences::tagged_differences))]
fn put_tagged(
    found: &mut Vec<Difference>,
    ignored: &Ignored,
    expected: &Expected,
    seen: &Passage,
    a: &TaggedView<'_>,
    b: &TaggedView<'_>,
) -> Result<(), NoMemory>
    ensures { OnOk result (found.new.items ≡ found.old.items
        ++ tagged_differences ignored.now expected.now seen.now a.now b.now) }
{
    let payloads = both_payloads(expected, seen, a.payload.as_slice(), b.payload.as_slice());
    let all = [
        source_difference(ignored, expected, a.src, b.src),
        vlan_difference(a.vlan, b.vlan),
        path_difference(ignored, expected, a, b),
        padding_difference(ignored, &payloads),
        size_difference(ignored, a, b),
        payload_difference(ignored, &payloads),
        number_difference(a.seq, b.seq),
        life_difference(expected, a, b),
    ];
    put_those(found, &all)
}

/// Puts the fields in which two plain frames differ.
#[tactic(auto, unfolding(crate::specs::Differences::plain_differences))]
fn put_plain(
    found: &mut Vec<Difference>,
    ignored: &Ignored,
    expected: &Expected,
    seen: &Passage,
    a: &FrameView<'_>,
    b: &FrameView<'_>,
) -> Result<(), NoMemory>
    ensures { OnOk result (found.new.items ≡ found.old.items
        ++ plain_differences ignored.now expected.now seen.now a.now b.now) }
{
    let payloads = both_payloads(expected, seen, a.payload.as_slice(), b.payload.as_slice());
    let all = [
        source_difference(ignored, expected, a.src, b.src),
        vlan_difference(a.vlan, b.vlan),
        padding_difference(ignored, &payloads),
        payload_difference(ignored, &payloads),
    ];
    put_those(found, &all)
}

/// Puts the fields in which two frames differ.
fn put_seen(
    found: &mut Vec<Difference>,
    ignored: &Ignored,
    expected: &Expected,
    seen: &Passage,
    a: &SeenView<'_>,
    b: &SeenView<'_>,
) -> Result<(), NoMemory>
    ensures { OnOk result (found.new.items ≡ found.old.items
        ++ seen_differences ignored.now expected.now seen.now a.now b.now) }
{
    match (&a.frame, &b.frame) {
        (EitherView::Tagged(a), EitherView::Tagged(b)) => {
            put_tagged(found, ignored, expected, seen, a, b)
        }
        (EitherView::Plain(a), EitherView::Plain(b)) => {
            put_plain(found, ignored, expected, seen, a, b)
        }
        (EitherView::Tagged(_), EitherView::Plain(_)) => {
            put(found, &Some(Difference::Tag(true, false)))
        }
        (EitherView::Plain(_), EitherView::Tagged(_)) => {
            put(found, &Some(Difference::Tag(false, true)))
        }
    }
}

/// Puts the fields in which octets differ that were read so.
fn put_read(
    found: &mut Vec<Difference>,
    ignored: &Ignored,
    expected: &Expected,
    seen: &Passage,
    x: &Result<SeenView<'_>, FrameFault>,
    y: &Result<SeenView<'_>, FrameFault>,
) -> Result<(), NoMemory>
    ensures { OnOk result (found.new.items ≡ found.old.items
        ++ read_differences ignored.now expected.now seen.now x.now y.now) }
{
    match (x, y) {
        (Ok(a), Ok(b)) => put_seen(found, ignored, expected, seen, a, b),
        (Ok(_), Err(_)) => Ok(()),
        (Err(_), Ok(_)) => Ok(()),
        (Err(_), Err(_)) => Ok(()),
    }
}

/// Puts the fields in which an observed copy differs from the expected one that it was matched with.
fn put_fields(
    found: &mut Vec<Difference>,
    ignored: &Ignored,
    expected: &Expected,
    seen: &Passage,
) -> Result<(), NoMemory>
    ensures { OnOk result (found.new.items ≡ found.old.items
        ++ field_differences ignored.now expected.now seen.now) }
{
    let x = look_at(expected.octets.as_slice());
    let y = look_at(seen.octets.as_slice());
    put_read(found, ignored, expected, seen, &x, &y)
}

/// Puts them, if the copies themselves differ.
fn put_altered(
    found: &mut Vec<Difference>,
    ignored: &Ignored,
    expected: &Expected,
    seen: &Passage,
    is_altered: bool,
) -> Result<(), NoMemory>
    ensures { OnOk result (found.new.items ≡ found.old.items
        ++ (if is_altered then field_differences ignored.now expected.now seen.now else [])) }
{
    if is_altered {
        put_fields(found, ignored, expected, seen)
    } else {
        Ok(())
    }
}

/// Puts the numbers that didn't go on by one.
fn put_jump(found: &mut Vec<Difference>, jump: &Jump) -> Result<(), NoMemory>
    ensures { OnOk result (found.new.items ≡ found.old.items ++ jump_differences jump.now) }
{
    let all = [number_jump(jump.number), life_jump(jump.life)];
    put_those(found, &all)
}

/// Puts the octets, where no field differs.
fn put_octets(found: &mut Vec<Difference>) -> Result<(), NoMemory>
    ensures { OnOk result (found.new.items ≡ or_octets found.old.items) }
{
    if found.is_empty() {
        found.push(Difference::Octets)?;
    }
    Ok(())
}

/// The fields in which an observed copy differs from the expected one: source, VLAN tag, path, padding, size, payload, or the tag alone,
/// or else `Octets`; numbers last. `is_altered` says whether the copies themselves differ. `NoMemory` where room is refused.
pub fn differences(
    alloc: Global,
    ignored: &Ignored,
    expected: &Expected,
    seen: &Passage,
    is_altered: bool,
    jump: &Jump,
) -> Result<Vec<Difference>, NoMemory>
    ensures { IfOk result (λ found. found.items
        ≡ differences ignored.now expected.now seen.now is_altered jump.now) }
{
    let mut found = Vec::new(alloc);
    put_altered(&mut found, ignored, expected, seen, is_altered)?;
    put_jump(&mut found, jump)?;
    put_octets(&mut found)?;
    Ok(found)
}
