//! Numbers, points and paths as SVG spells them.
use crate::measure::Point;
use crate::track::{Stretch, Stroke};
use hsr_frame::NoMemory;
use hsr_text::{put, put_number};
use std::num::saturating_f64_to_i64;

/// Puts a whole number last.
fn put_signed(text: &mut Vec<u8>, number: i64) -> Result<(), NoMemory> {
    if number < 0 {
        put(text, "-")?;
    }
    put_number(text, number.unsigned_abs())
}

/// Puts a number last, rounded to a whole one.
pub(crate) fn put_whole(text: &mut Vec<u8>, number: f64) -> Result<(), NoMemory> {
    put_signed(text, saturating_f64_to_i64(number.round_ties_even()))
}

/// Puts a number with one digit behind the point last.
pub(crate) fn put_tenths(text: &mut Vec<u8>, number: f64) -> Result<(), NoMemory> {
    let tenths = saturating_f64_to_i64((number * 10.0).round_ties_even());
    if tenths < 0 {
        put(text, "-")?;
    }
    let size = tenths.unsigned_abs();
    put_number(text, size / 10)?;
    put(text, ".")?;
    put_number(text, size % 10)
}

/// Puts a point last.
pub(crate) fn put_point(text: &mut Vec<u8>, at: Point) -> Result<(), NoMemory> {
    put_tenths(text, at.x)?;
    put(text, " ")?;
    put_tenths(text, at.y)
}

/// Puts a letter of a path and a point last.
pub(crate) fn put_step(text: &mut Vec<u8>, letter: &str, to: Point) -> Result<(), NoMemory> {
    put(text, letter)?;
    put_point(text, to)
}

/// Puts an attribute with a number last.
pub(crate) fn put_attribute(text: &mut Vec<u8>, name: &str, number: f64) -> Result<(), NoMemory> {
    put(text, " ")?;
    put(text, name)?;
    put(text, "=\"")?;
    put_tenths(text, number)?;
    put(text, "\"")
}

/// Puts an arc last.
fn put_arc(text: &mut Vec<u8>, radius: f64, is_clockwise: bool, to: Point) -> Result<(), NoMemory> {
    put(text, "A")?;
    put_tenths(text, radius)?;
    put(text, " ")?;
    put_tenths(text, radius)?;
    put(text, if is_clockwise { " 0 0 1 " } else { " 0 0 0 " })?;
    put_point(text, to)
}

/// Puts a stroke of a path last.
fn put_stroke(text: &mut Vec<u8>, stroke: Stroke) -> Result<(), NoMemory> {
    match stroke {
        Stroke::Line { to } => put_step(text, "L", to),
        Stroke::Arc {
            radius,
            is_clockwise,
            to,
        } => put_arc(text, radius, is_clockwise, to),
    }
}

/// Puts a stretch last, as the data of a path.
pub(crate) fn put_path(text: &mut Vec<u8>, stretch: Stretch) -> Result<(), NoMemory> {
    put_step(text, "M", stretch.begin())?;
    for number in 0..stretch.strokes() {
        if let Some(stroke) = stretch.stroke(number) {
            put_stroke(text, stroke)?;
        }
    }
    Ok(())
}
