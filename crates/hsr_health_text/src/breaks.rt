//! Where several points tell a break: the smallest two groups between which all of them allow it.
ghost use Rattle.std.specs.Prelude.{◌≡◌, ◌++◌, IfOk, OnOk, length, option_map, slice_get};
ghost use Rattle.std.specs.List.{flat_map};
ghost use Rattle.hsr_health_text.specs.Breaks.{besides_of, both, break_at, break_if, break_line, break_text, breaks_in, breaks_of, breaks_text, if_among, if_beside, if_break, is_before, is_beside, is_break, is_told_before, narrowed, narrowed_at, narrowed_by, narrowed_if, overlap, sides_by, sides_of, sides_text};

use crate::points::told_of;
use crate::words::{end_line, put_macs};
use hsr_frame::{Mac, NoMemory};
use hsr_health::{Health, Span, is_thin};
use hsr_text::put;
use std::alloc::Global;
use std::marker::Model;

/// Whether two runs tell of one time.
fn overlap(a: &Span, b: &Span) -> bool
    ensures { result ≡ overlap a.now b.now }
{
    a.first <= b.last && b.first <= a.last
}

/// Whether a run tells of a break.
fn is_break(span: Option<&Span>) -> bool
    ensures { result ≡ is_break (option_map (λ s. s.now) span.entry) }
{
    match span {
        Some(span) => !is_thin(span),
        None => false,
    }
}

/// Puts the number of a run last, if it tells of a break.
fn put_break_if(breaks: &mut Vec<usize>, spans: &[Span], i: usize) -> Result<(), NoMemory>
    ensures { OnOk result (breaks.new.items ≡ breaks.old.items ++ if_break spans.now i) }
{
    if is_break(spans.get(i)) {
        breaks.push(i)?;
    }
    Ok(())
}

/// The breaks among the runs that are told, by their numbers.
#[tactic(auto, using(hsr_frame::proofs::OneMore::grown))]
fn breaks_of(alloc: Global, spans: &[Span], told: &[usize]) -> Result<Vec<usize>, NoMemory>
    ensures { IfOk result (λ breaks. breaks.items ≡ breaks_of spans.now told.now) }
{
    let mut breaks = Vec::new(alloc);
    for i in told {
        put_break_if(&mut breaks, spans, *i)?;
    }
    Ok(breaks)
}

/// Whether a run is one of a point, and of a run's time.
fn is_beside(point: usize, base: &Span, span: Option<&Span>) -> bool
    ensures { result ≡ is_beside point base.now (option_map (λ s. s.now) span.entry) }
{
    match span {
        Some(span) => span.point == point && overlap(span, base),
        None => false,
    }
}

/// Puts the number of a run last, if it is one of a point, and of a run's time.
fn put_beside_if(
    besides: &mut Vec<usize>,
    spans: &[Span],
    point: usize,
    base: &Span,
    i: usize,
) -> Result<(), NoMemory>
    ensures { OnOk result (besides.new.items ≡ besides.old.items ++ if_beside spans.now point base.now i) }
{
    if is_beside(point, base, spans.get(i)) {
        besides.push(i)?;
    }
    Ok(())
}

/// The breaks that a point tells in the time of a run, by their numbers.
#[tactic(auto, using(hsr_frame::proofs::OneMore::grown))]
fn besides_of(
    alloc: Global,
    spans: &[Span],
    breaks: &[usize],
    point: usize,
    base: &Span,
) -> Result<Vec<usize>, NoMemory>
    ensures { IfOk result (λ besides. besides.items ≡ besides_of spans.now breaks.now point base.now) }
{
    let mut besides = Vec::new(alloc);
    for i in breaks {
        put_beside_if(&mut besides, spans, point, base, *i)?;
    }
    Ok(besides)
}

/// Whether a run, by its number, is one of a point before another run's, and of its time.
fn is_before_at(spans: &[Span], base: &Span, i: usize) -> bool
    ensures { result ≡ is_before base.now (slice_get spans.now i) }
{
    match spans.get(i) {
        Some(span) => span.point < base.point && overlap(span, base),
        None => false,
    }
}

/// Whether a point before a run's own tells of its time.
fn is_told_before(spans: &[Span], breaks: &[usize], base: &Span) -> bool
    ensures { result ≡ is_told_before spans.now breaks.now base.now }
{
    for i in breaks {
        if is_before_at(spans, base, *i) {
            return true;
        }
    }
    false
}

/// Puts an address last, if it is among others.
fn put_if_among(common: &mut Vec<Mac>, others: &[Mac], mac: Mac) -> Result<(), NoMemory>
    ensures { OnOk result (common.new.items ≡ common.old.items ++ if_among others.now mac) }
{
    if mac.is_among(others) {
        common.push(mac)?;
    }
    Ok(())
}

/// The addresses that are in both lists.
#[tactic(auto, using(hsr_frame::proofs::OneMore::grown))]
fn both(alloc: Global, macs: &[Mac], others: &[Mac]) -> Result<Vec<Mac>, NoMemory>
    ensures { IfOk result (λ common. common.items ≡ both macs.now others.now) }
{
    let mut common = Vec::new(alloc);
    for mac in macs {
        put_if_among(&mut common, others, *mac)?;
    }
    Ok(common)
}

/// The sources on either side of a break, and whether several points tell of it.
#[derive(Drop)]
struct Sides {
    by_0: Vec<Mac>,
    by_1: Vec<Mac>,
    is_shared: bool,
}

impl Model for Sides {
    ghost use Rattle.hsr_health_text.specs.Breaks.{SidesFields};

    ghost Value = { SidesFields };

    ghost view = { λ s. record { by_0 = s.by_0.items; by_1 = s.by_1.items; is_shared = s.is_shared } };
}

/// The sources on either side of a break, as one point tells it.
fn sides_by(alloc: Global, span: &Span) -> Result<Sides, NoMemory>
    ensures { IfOk result (λ sides. sides ≡ sides_by span.now) }
{
    let by_0 = Vec::from_slice(alloc, span.by_0.as_slice())?;
    let by_1 = Vec::from_slice(alloc, span.by_1.as_slice())?;
    Ok(Sides {
        by_0,
        by_1,
        is_shared: false,
    })
}

/// The sources on either side of a break that one more run allows.
fn narrowed(alloc: Global, sides: Sides, span: &Span) -> Result<Sides, NoMemory>
    ensures { IfOk result (λ after. after ≡ narrowed sides span.now) }
{
    let by_0 = both(alloc, sides.by_0.as_slice(), span.by_0.as_slice())?;
    let by_1 = both(alloc, sides.by_1.as_slice(), span.by_1.as_slice())?;
    Ok(Sides {
        by_0,
        by_1,
        is_shared: true,
    })
}

/// The sources on either side of a break that one more run allows, if it is there.
fn narrowed_if(alloc: Global, sides: Sides, span: Option<&Span>) -> Result<Sides, NoMemory>
    ensures { IfOk result (λ after. after ≡ narrowed_if sides (option_map (λ s. s.now) span.entry)) }
{
    match span {
        Some(span) => narrowed(alloc, sides, span),
        None => Ok(sides),
    }
}

/// The sources on either side of a break that the first of some runs allows.
fn narrowed_by(
    alloc: Global,
    spans: &[Span],
    sides: Sides,
    besides: &[usize],
) -> Result<Sides, NoMemory>
    ensures { IfOk result (λ after. after ≡ narrowed_by spans.now sides besides.now) }
{
    match besides {
        [] => Ok(sides),
        [first, ..] => narrowed_if(alloc, sides, spans.get(*first)),
    }
}

/// The sources on either side of a break that one more point allows.
fn narrowed_at(
    alloc: Global,
    spans: &[Span],
    breaks: &[usize],
    base: &Span,
    sides: Sides,
    point: usize,
) -> Result<Sides, NoMemory>
    ensures { IfOk result (λ after. after ≡ narrowed_at spans.now breaks.now base.now sides point) }
{
    if point <= base.point {
        return Ok(sides);
    }
    let besides = besides_of(alloc, spans, breaks, point, base)?;
    narrowed_by(alloc, spans, sides, besides.as_slice())
}

/// The sources on either side of a break that all points allow which tell of its time.
fn sides_of(
    alloc: Global,
    spans: &[Span],
    breaks: &[usize],
    base: &Span,
    points: usize,
) -> Result<Sides, NoMemory>
    ensures { IfOk result (λ sides. sides ≡ sides_of spans.now breaks.now base.now points) }
{
    let mut sides = sides_by(alloc, base)?;
    for point in 0..points {
        sides = narrowed_at(alloc, spans, breaks, base, sides, point)?;
    }
    Ok(sides)
}

/// Puts the line of a break.
#[tactic(auto, unfolding(crate::specs::Breaks::break_line))]
fn put_break_line(
    alloc: Global,
    text: &mut Vec<u8>,
    by_0: &[Mac],
    by_1: &[Mac],
) -> Result<(), NoMemory>
    ensures { OnOk result (text.new.items ≡ text.old.items ++ break_line by_0.now by_1.now) }
{
    put(text, "break between ")?;
    put_macs(alloc, text, by_0)?;
    put(text, " and ")?;
    put_macs(alloc, text, by_1)?;
    end_line(text)
}

/// Puts the line of a break, where several points tell of it and a source is left on either side.
fn put_sides(alloc: Global, text: &mut Vec<u8>, sides: &Sides) -> Result<(), NoMemory>
    ensures { OnOk result (text.new.items ≡ text.old.items ++ sides_text sides.now) }
{
    if sides.is_shared && !sides.by_0.is_empty() && !sides.by_1.is_empty() {
        return put_break_line(alloc, text, sides.by_0.as_slice(), sides.by_1.as_slice());
    }
    Ok(())
}

/// Puts the line of a break, unless a point before tells of it.
fn put_break(
    alloc: Global,
    text: &mut Vec<u8>,
    spans: &[Span],
    breaks: &[usize],
    points: usize,
    base: &Span,
) -> Result<(), NoMemory>
    ensures { OnOk result (text.new.items ≡ text.old.items ++ break_text spans.now breaks.now points base.now) }
{
    if is_told_before(spans, breaks, base) {
        return Ok(());
    }
    let sides = sides_of(alloc, spans, breaks, base, points)?;
    put_sides(alloc, text, &sides)
}

/// Puts the line of a break, by its number.
fn put_break_at(
    alloc: Global,
    text: &mut Vec<u8>,
    spans: &[Span],
    breaks: &[usize],
    points: usize,
    i: usize,
) -> Result<(), NoMemory>
    ensures { OnOk result (text.new.items ≡ text.old.items ++ break_at spans.now breaks.now points i) }
{
    match spans.get(i) {
        Some(base) => put_break(alloc, text, spans, breaks, points, base),
        None => Ok(()),
    }
}

/// Puts the lines of breaks, by their numbers.
#[tactic(auto, using(hsr_frame::proofs::OneMore::grown))]
fn put_all_breaks(
    alloc: Global,
    text: &mut Vec<u8>,
    spans: &[Span],
    points: usize,
    breaks: &[usize],
) -> Result<(), NoMemory>
    ensures { OnOk result (text.new.items ≡ text.old.items ++ breaks_in spans.now points breaks.now) }
{
    for i in breaks {
        put_break_at(alloc, text, spans, breaks, points, *i)?;
    }
    Ok(())
}

/// Puts a line for each break that several points tell, among the runs that are told.
#[tactic(auto, unfolding(crate::specs::Breaks::breaks_text))]
pub(crate) fn put_breaks(
    alloc: Global,
    text: &mut Vec<u8>,
    health: &Health<'_>,
) -> Result<(), NoMemory>
    ensures { OnOk result (text.new.items ≡ text.old.items ++ breaks_text health.now) }
{
    let points = health.tapped.points.len();
    let spans = health.spans.as_slice();
    let told = told_of(alloc, spans, points)?;
    let breaks = breaks_of(alloc, spans, told.as_slice())?;
    put_all_breaks(alloc, text, spans, points, breaks.as_slice())
}
