//! Points, their directions, and when frames came one way alone.
ghost use Rattle.std.specs.Prelude.{◌≡◌, ◌+◌, ◌≤◌, ◌<◌, ◌++◌, ◌∷◌, ◌%◌, [], IfOk, OnOk, length, option_map, slice_get, unwrap_or};
ghost use Rattle.std.specs.List.{flat_map};
ghost use Rattle.hsr_health_text.specs.Points.{all_spans, broken_word, carried_text, counted_at, counted_text, direction_at, direction_line, direction_name, directions_text, frames_at, frames_if, is_at, is_of, kept_of, kept_with, left_of, left_with, more_if, more_line, numbers_at, part_word, point_at, point_line, point_numbers, point_text, points_text, pushed_out, runs_at, shorter_of, shortest_of, span_at, span_if, span_line, spans_at, spans_text, told_at, told_of, ways_word};

use crate::words::{end_line, put_macs, put_name, put_pair, us_since};
use hsr_frame::NoMemory;
use hsr_health::{DirectionNumbers, Health, PointNumbers, Span, is_thin};
use hsr_taps::{DIRECTIONS, Part, interface_of, part_of};
use hsr_text::{put, put_number};
use std::alloc::Global;

/// The most runs of a point that are told.
const MOST_RUNS: usize = 4;

/// Which of its interface's directions one is, in a word.
fn part_word(d: usize) -> &'static str
    ensures { result.now ≡ part_word (d % 5) }
{
    match part_of(d) {
        Part::Whole => "-",
        Part::LaneA => "0",
        Part::LaneB => "1",
        Part::In => "in",
        Part::Out => "out",
    }
}

/// What is told of a direction; zeros where nothing is.
fn numbers_at(numbers: Option<&DirectionNumbers>) -> DirectionNumbers
    ensures { result ≡ numbers_at (option_map (λ n. n.now) numbers.entry) }
{
    match numbers {
        Some(numbers) => *numbers,
        None => DirectionNumbers {
            again: 0,
            most: 0,
            overtaken: 0,
            late: 0,
            others: 0,
            alone: 0,
        },
    }
}

/// Puts what is counted of a direction.
#[tactic(auto, unfolding(crate::specs::Points::counted_text))]
fn put_counted(text: &mut Vec<u8>, numbers: DirectionNumbers) -> Result<(), NoMemory>
    ensures { OnOk result (text.new.items ≡ text.old.items ++ counted_text numbers) }
{
    put_pair(text, "again", numbers.again)?;
    put_pair(text, "most", numbers.most)?;
    put_pair(text, "overtaken", numbers.overtaken)?;
    put_pair(text, "late", numbers.late)?;
    put_pair(text, "alone", numbers.alone)?;
    put_pair(text, "of", numbers.others)
}

/// Puts what is counted of a direction, by its number.
fn put_counted_at(
    text: &mut Vec<u8>,
    directions: &[DirectionNumbers],
    d: usize,
) -> Result<(), NoMemory>
    ensures { OnOk result (text.new.items ≡ text.old.items ++ counted_at directions.now d) }
{
    put_counted(text, numbers_at(directions.get(d)))
}

/// The number at a place; 0 where there is none.
fn number_at(numbers: &[u64], i: usize) -> u64
    ensures { result ≡ unwrap_or (slice_get numbers.now i) 0 }
{
    match numbers.get(i) {
        Some(number) => *number,
        None => 0,
    }
}

/// The way of a direction; 0 where none is known.
fn way_at(ways: &[u8], d: usize) -> u8
    ensures { result ≡ unwrap_or (slice_get ways.now d) 0 }
{
    match ways.get(d) {
        Some(way) => *way,
        None => 0,
    }
}

/// Puts the interface of a direction, and which of its directions it is.
#[tactic(auto, unfolding(crate::specs::Points::direction_name))]
fn put_direction_name(text: &mut Vec<u8>, d: usize) -> Result<(), NoMemory>
    ensures { OnOk result (text.new.items ≡ text.old.items ++ direction_name d) }
{
    put(text, "direction ")?;
    put_number(text, interface_of(d) as u64)?;
    put(text, " ")?;
    put(text, part_word(d))
}

/// Puts the way of a direction, and how many copies came by it.
#[tactic(auto, unfolding(crate::specs::Points::carried_text))]
fn put_carried(text: &mut Vec<u8>, health: &Health<'_>, d: usize) -> Result<(), NoMemory>
    ensures { OnOk result (text.new.items ≡ text.old.items ++ carried_text health.now d) }
{
    let way = way_at(health.tapped.way_of.as_slice(), d);
    let carried = number_at(health.tapped.carried.as_slice(), d);
    put_pair(text, "way", u64::from(way))?;
    put_pair(text, "copies", carried)
}

/// Puts the line of a direction.
#[tactic(auto, unfolding(crate::specs::Points::direction_line))]
fn put_direction(text: &mut Vec<u8>, health: &Health<'_>, d: usize) -> Result<(), NoMemory>
    ensures { OnOk result (text.new.items ≡ text.old.items ++ direction_line health.now d) }
{
    put_direction_name(text, d)?;
    put_carried(text, health, d)?;
    put_counted_at(text, health.directions.as_slice(), d)?;
    end_line(text)
}

/// Whether a direction is of a point.
fn is_of(point: usize, of: Option<&usize>) -> bool
    ensures { result ≡ is_of point (option_map (λ p. p.now) of.entry) }
{
    match of {
        Some(of) => *of == point,
        None => false,
    }
}

/// Puts the line of a direction, if it is of this point and copies came by it.
fn put_direction_at(
    text: &mut Vec<u8>,
    health: &Health<'_>,
    point: usize,
    d: usize,
) -> Result<(), NoMemory>
    ensures { OnOk result (text.new.items ≡ text.old.items ++ direction_at health.now point d) }
{
    let carried = number_at(health.tapped.carried.as_slice(), d);
    if is_of(point, health.tapped.point_of.get(d)) && carried > 0 {
        return put_direction(text, health, d);
    }
    Ok(())
}

/// Puts the lines of a point's directions, of the first so many.
#[tactic(auto, unfolding(crate::specs::Points::directions_text), using(crate::proofs::Numbered::numbered))]
fn put_directions(
    text: &mut Vec<u8>,
    health: &Health<'_>,
    point: usize,
    many: usize,
) -> Result<(), NoMemory>
    ensures { OnOk result (text.new.items ≡ text.old.items ++ directions_text health.now point many) }
{
    for d in 0..many {
        put_direction_at(text, health, point, d)?;
    }
    Ok(())
}

/// The frames of a run, by its number; 0 where there is none.
fn frames_at(spans: &[Span], i: usize) -> u64
    ensures { result ≡ frames_at spans.now i }
{
    match spans.get(i) {
        Some(span) => span.frames,
        None => 0,
    }
}

/// The number of a run, by its place among those that are kept.
fn kept_at(kept: &[usize], k: usize) -> usize
    ensures { result ≡ unwrap_or (slice_get kept.now k) 0 }
{
    match kept.get(k) {
        Some(i) => *i,
        None => 0,
    }
}

/// The shorter of two runs, by their places; the second of those that are as short.
fn shorter_of(spans: &[Span], kept: &[usize], first: usize, second: usize) -> usize
    ensures { result ≡ shorter_of spans.now kept.now first second }
{
    let least = frames_at(spans, kept_at(kept, first));
    if frames_at(spans, kept_at(kept, second)) <= least {
        second
    } else {
        first
    }
}

/// The place of the shortest of some runs, the last of those.
fn shortest_of(spans: &[Span], kept: &[usize]) -> usize
    requires { 0 < length kept.now }
    ensures value { result ≡ shortest_of spans.now kept.now (length kept.now) }
    ensures there { result < length kept.now }
{
    let mut shortest = 0;
    for k in 0..kept.len() {
        shortest = shorter_of(spans, kept, shortest, k);
    }
    shortest
}

/// Keeps the four longest of some runs: a fifth pushes out the shortest, the last of those.
fn push_out(spans: &[Span], kept: &mut Vec<usize>)
    ensures { kept.new.items ≡ pushed_out spans.now kept.old.items }
{
    if kept.len() > MOST_RUNS {
        let shortest = shortest_of(spans, kept.as_slice());
        let _shortest = kept.remove(shortest);
    }
}

/// Whether a run is at a point.
fn is_at(spans: &[Span], point: usize, i: usize) -> bool
    ensures { result ≡ is_at point (slice_get spans.now i) }
{
    match spans.get(i) {
        Some(span) => span.point == point,
        None => false,
    }
}

/// Keeps one more run, if it is at a point.
fn keep(spans: &[Span], point: usize, kept: &mut Vec<usize>, i: usize) -> Result<(), NoMemory>
    ensures { OnOk result (kept.new.items ≡ kept_with spans.now point kept.old.items i) }
{
    if !is_at(spans, point, i) {
        return Ok(());
    }
    kept.push(i)?;
    push_out(spans, kept);
    Ok(())
}

/// The runs of a point that are told, by their numbers: those with the most frames, the earlier of those with as many, in the order of
/// time.
#[tactic(auto, unfolding(crate::specs::Points::told_at))]
fn told_at(alloc: Global, spans: &[Span], point: usize) -> Result<Vec<usize>, NoMemory>
    ensures { IfOk result (λ told. told.items ≡ told_at spans.now point) }
{
    let mut kept = Vec::new(alloc);
    for i in 0..spans.len() {
        keep(spans, point, &mut kept, i)?;
    }
    Ok(kept)
}

/// Puts the runs of a point that are told last, by their numbers.
fn put_told(
    alloc: Global,
    told: &mut Vec<usize>,
    spans: &[Span],
    point: usize,
) -> Result<(), NoMemory>
    ensures { OnOk result (told.new.items ≡ told.old.items ++ told_at spans.now point) }
{
    let here = told_at(alloc, spans, point)?;
    told.extend_from_slice(here.as_slice())?;
    Ok(())
}

/// The runs of all points that are told, by their numbers, point by point and in the order of time.
#[tactic(auto, unfolding(crate::specs::Points::told_of))]
pub(crate) fn told_of(alloc: Global, spans: &[Span], points: usize) -> Result<Vec<usize>, NoMemory>
    ensures { IfOk result (λ told. told.items ≡ told_of spans.now points) }
{
    let mut told = Vec::new(alloc);
    for point in 0..points {
        put_told(alloc, &mut told, spans, point)?;
    }
    Ok(told)
}

/// How many runs a point has.
fn runs_at(spans: &[Span], point: usize) -> usize
    ensures { result ≡ runs_at spans.now point }
{
    spans.iter().filter(|span| span.point == point).count()
}

/// The frames of runs of a point that aren't told, with those of one more run.
fn left_with(spans: &[Span], point: usize, told: &[usize], left: u64, i: usize) -> u64
    ensures { result ≡ left_with spans.now point told.now left i }
{
    if is_at(spans, point, i) && !told.contains(&i) {
        return left.saturating_add(frames_at(spans, i));
    }
    left
}

/// The frames of the runs of a point that aren't told.
fn left_of(spans: &[Span], point: usize, told: &[usize]) -> u64
    ensures { result ≡ left_of spans.now point told.now (length spans.now) }
{
    let mut left = 0u64;
    for i in 0..spans.len() {
        left = left_with(spans, point, told, left, i);
    }
    left
}

/// With what the line of a run begins.
fn broken_word(span: &Span) -> &'static str
    ensures { result.now ≡ broken_word span.now }
{
    if is_thin(span) { "thin " } else { "broken " }
}

/// Puts the line of a run.
#[tactic(auto, unfolding(crate::specs::Points::span_line))]
fn put_span(
    alloc: Global,
    text: &mut Vec<u8>,
    start: u64,
    name: &[u8],
    span: &Span,
) -> Result<(), NoMemory>
    ensures { OnOk result (text.new.items ≡ text.old.items ++ span_line start name.now span.now) }
{
    put(text, broken_word(span))?;
    put_name(text, name)?;
    put_pair(text, "from", us_since(start, span.first))?;
    put_pair(text, "to", us_since(start, span.last))?;
    put_pair(text, "frames", span.frames)?;
    put(text, " way-0 ")?;
    put_macs(alloc, text, span.by_0.as_slice())?;
    put(text, " way-1 ")?;
    put_macs(alloc, text, span.by_1.as_slice())?;
    end_line(text)
}

/// Puts the line of a run, by its number.
fn put_span_at(
    alloc: Global,
    text: &mut Vec<u8>,
    start: u64,
    spans: &[Span],
    name: &[u8],
    i: usize,
) -> Result<(), NoMemory>
    ensures { OnOk result (text.new.items ≡ text.old.items ++ span_at start spans.now name.now i) }
{
    match spans.get(i) {
        Some(span) => put_span(alloc, text, start, name, span),
        None => Ok(()),
    }
}

/// Puts the lines of runs, by their numbers.
#[tactic(auto, using(hsr_frame::proofs::OneMore::grown))]
fn put_told_spans(
    alloc: Global,
    text: &mut Vec<u8>,
    start: u64,
    spans: &[Span],
    name: &[u8],
    told: &[usize],
) -> Result<(), NoMemory>
    ensures { OnOk result (text.new.items ≡ text.old.items ++ flat_map (span_at start spans.now name.now) told.now) }
{
    for i in told {
        put_span_at(alloc, text, start, spans, name, *i)?;
    }
    Ok(())
}

/// Puts the line of how many runs there are besides.
#[tactic(auto, unfolding(crate::specs::Points::more_line))]
fn put_more(text: &mut Vec<u8>, name: &[u8], runs: usize, frames: u64) -> Result<(), NoMemory>
    ensures { OnOk result (text.new.items ≡ text.old.items ++ more_line name.now runs frames) }
{
    put(text, "broken ")?;
    put_name(text, name)?;
    put_pair(text, "more", runs as u64)?;
    put_pair(text, "frames", frames)?;
    end_line(text)
}

/// Puts the line of how many runs there are besides, if there are any.
fn put_more_if(text: &mut Vec<u8>, name: &[u8], runs: usize, frames: u64) -> Result<(), NoMemory>
    ensures { OnOk result (text.new.items ≡ text.old.items ++ more_if name.now runs frames) }
{
    match runs {
        0 => Ok(()),
        _ => put_more(text, name, runs, frames),
    }
}

/// Puts the lines of a point's longest runs, in the order of time, and how many there are besides.
#[tactic(auto, unfolding(crate::specs::Points::spans_text))]
fn put_spans(
    alloc: Global,
    text: &mut Vec<u8>,
    health: &Health<'_>,
    name: &[u8],
    point: usize,
) -> Result<(), NoMemory>
    ensures { OnOk result (text.new.items ≡ text.old.items ++ spans_text health.now name.now point) }
{
    let spans = health.spans.as_slice();
    let told = told_at(alloc, spans, point)?;
    let told = told.as_slice();
    put_told_spans(alloc, text, health.outline.start, spans, name, told)?;
    let runs = runs_at(spans, point).saturating_sub(told.len());
    put_more_if(text, name, runs, left_of(spans, point, told))
}

/// What is told of a point; zeros where nothing is.
fn point_numbers(numbers: Option<&PointNumbers>) -> PointNumbers
    ensures { result ≡ point_numbers (option_map (λ n. n.now) numbers.entry) }
{
    match numbers {
        Some(numbers) => *numbers,
        None => PointNumbers {
            frames: 0,
            both_ways: false,
            needed: 0,
        },
    }
}

/// Whether a point saw both ways, in words.
fn ways_word(both: bool) -> &'static str
    ensures { result.now ≡ ways_word both }
{
    if both { " ways both" } else { " ways one" }
}

/// Puts the line of a point.
#[tactic(auto, unfolding(crate::specs::Points::point_line))]
fn put_point_line(text: &mut Vec<u8>, name: &[u8], numbers: PointNumbers) -> Result<(), NoMemory>
    ensures { OnOk result (text.new.items ≡ text.old.items ++ point_line name.now numbers) }
{
    put(text, "point ")?;
    put_name(text, name)?;
    put_pair(text, "frames", numbers.frames)?;
    put(text, ways_word(numbers.both_ways))?;
    put_pair(text, "needed", numbers.needed)?;
    end_line(text)
}

/// Puts the lines of a point, with its directions and runs.
#[tactic(auto, unfolding(crate::specs::Points::point_text))]
fn put_point(
    alloc: Global,
    text: &mut Vec<u8>,
    health: &Health<'_>,
    point: usize,
    name: &[u8],
) -> Result<(), NoMemory>
    ensures { OnOk result (text.new.items ≡ text.old.items ++ point_text health.now point name.now) }
{
    put_point_line(text, name, point_numbers(health.points.get(point)))?;
    put_directions(text, health, point, DIRECTIONS)?;
    put_spans(alloc, text, health, name, point)
}

/// Puts the lines of a point, if it is there.
fn put_point_at(
    alloc: Global,
    text: &mut Vec<u8>,
    health: &Health<'_>,
    p: usize,
) -> Result<(), NoMemory>
    ensures { OnOk result (text.new.items ≡ text.old.items ++ point_at health.now p) }
{
    match health.tapped.points.get(p) {
        Some(point) => put_point(alloc, text, health, p, point.name),
        None => Ok(()),
    }
}

/// Puts the lines of all points, with their directions and runs.
#[tactic(auto, unfolding(crate::specs::Points::points_text), using(crate::proofs::Numbered::numbered))]
pub(crate) fn put_points(
    alloc: Global,
    text: &mut Vec<u8>,
    health: &Health<'_>,
) -> Result<(), NoMemory>
    ensures { OnOk result (text.new.items ≡ text.old.items ++ points_text health.now) }
{
    for p in 0..health.tapped.points.len() {
        put_point_at(alloc, text, health, p)?;
    }
    Ok(())
}

/// Puts the lines of the runs of a point, if it is there.
fn put_spans_at(
    alloc: Global,
    text: &mut Vec<u8>,
    health: &Health<'_>,
    p: usize,
) -> Result<(), NoMemory>
    ensures { OnOk result (text.new.items ≡ text.old.items ++ spans_at health.now p) }
{
    match health.tapped.points.get(p) {
        Some(point) => put_spans(alloc, text, health, point.name, p),
        None => Ok(()),
    }
}

/// Puts the lines of the runs of all points.
#[tactic(auto, unfolding(crate::specs::Points::all_spans), using(crate::proofs::Numbered::numbered))]
pub(crate) fn put_all_spans(
    alloc: Global,
    text: &mut Vec<u8>,
    health: &Health<'_>,
) -> Result<(), NoMemory>
    ensures { OnOk result (text.new.items ≡ text.old.items ++ all_spans health.now) }
{
    for p in 0..health.tapped.points.len() {
        put_spans_at(alloc, text, health, p)?;
    }
    Ok(())
}
