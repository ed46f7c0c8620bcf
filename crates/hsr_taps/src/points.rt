//! Points: directions that belong together.
ghost use Rattle.std.specs.Prelude.{◌≡◌, length, option_map, slice_get, IfNone, IfOk, IfSome, OnOk, Some, false, []};
ghost use Rattle.std.specs.List.{list_any};
ghost use Rattle.std.specs.Str.{bytes_eq};
ghost use Rattle.hsr_taps.specs.Named.{AreOwners, IsOwner, asked_for, before_last, behind, names_from, owner_of, told_by, with_name, with_owner};
ghost use Rattle.hsr_taps.specs.Tallies.{is_at};

use crate::choice::{Choice, PointAsked};
use crate::tally::is_at;
use hsr_capture_reader::Interface;
use hsr_frame::NoMemory;
use std::alloc::Global;
use std::marker::Model;

/// The point of interfaces that no name puts elsewhere.
const ALL: &[u8] = b"all";

/// A point, by its name.
#[derive(Drop)]
pub struct Point<'a> {
    pub name: &'a [u8],
}

impl<'a> Model for Point<'a> {
    ghost use Rattle.std.specs.Prelude.{ℕ, List};

    ghost Value = { List ℕ };

    ghost view = { λ p. p.name.now };
}

/// The points of a capture.
#[derive(Drop)]
pub struct Points<'a> {
    /// In the order of their first interfaces.
    pub points: Vec<Point<'a>>,
    /// Of each interface that is looked at, the index of its point.
    pub owners: Vec<Option<usize>>,
}

/// What stands behind the first of an octet.
fn behind(text: &[u8], octet: u8) -> Option<&[u8]>
    ensures { option_map (λ t. t.now) result ≡ behind octet text.now }
{
    let mut rest = text;
    while let Some((first, others)) = rest.split_first() {
        if *first == octet {
            return Some(others);
        }
        rest = others;
    }
    None
}

/// What stands in front of the last of an octet.
#[tactic(auto, using(crate::proofs::Naming::before_own, crate::proofs::Naming::before_other))]
fn before_last(text: &[u8], octet: u8) -> Option<&[u8]>
    ensures { option_map (λ t. t.now) result ≡ before_last octet text.now }
{
    let mut front = text;
    while let Some((last, others)) = front.split_last() {
        if *last == octet {
            return Some(others);
        }
        front = others;
    }
    None
}

/// The point that an interface's name tells: an interface X>NODE.PORT is a tap where NODE hears.
fn told_by(name: &[u8]) -> &[u8]
    ensures { result.now ≡ told_by name.now }
{
    match behind(name, b'>') {
        None => ALL,
        Some(end) => match before_last(end, b'.') {
            None => ALL,
            Some(node) => node,
        },
    }
}

/// The name of the last point that was asked for with an interface, or else another name.
fn asked_for<'a>(points: &[PointAsked<'a>], i: usize, name: &'a [u8]) -> &'a [u8]
    ensures { result.now ≡ asked_for i name.entry.now points.now }
{
    let mut name = name;
    for point in points {
        if point.interfaces.iter().any(|own| *own == i) {
            name = point.name.as_bytes();
        }
    }
    name
}

/// The name of an interface's point.
fn owner_of<'a>(choice: &Choice<'a>, interface: &Interface<'a>, i: usize) -> &'a [u8]
    ensures { result.now ≡ owner_of choice.now i interface.now }
{
    asked_for(choice.points.as_slice(), i, told_by(interface.name))
}

/// The index of a name.
fn index_of(points: &[Point<'_>], name: &[u8]) -> Option<usize>
    ensures found { IfSome result (λ k. slice_get points.now k ≡ Some name.now) }
    ensures none { IfNone result (list_any (λ other. bytes_eq other name.now) points.now ≡ false) }
{
    for k in 0..points.len() {
        let point = &points[k];
        if point.name == name {
            return Some(k);
        }
    }
    None
}

/// The index of the point with a name, which is put behind the others where there is none yet. `NoMemory` where room is refused.
#[tactic(auto, using(crate::proofs::Naming::name_kept, crate::proofs::Naming::name_put))]
fn put_point<'a>(points: &mut Vec<Point<'a>>, name: &'a [u8]) -> Result<usize, NoMemory>
    ensures names { OnOk result (points.new.items ≡ with_name points.old.items name.entry.now) }
    ensures place { IfOk result (λ k. slice_get points.new.items k ≡ Some name.entry.now) }
{
    if let Some(k) = index_of(points.as_slice(), name) {
        return Ok(k);
    }
    let k = points.len();
    points.push(Point { name })?;
    Ok(k)
}

/// The index of an interface's point, which is put behind the others where there is none yet; none where the interface isn't looked at.
#[tactic(auto, using(crate::proofs::Naming::no_owner_put, crate::proofs::Naming::no_owner, crate::proofs::Naming::owner_put, crate::proofs::Naming::owner_is))]
fn put_owner<'a>(
    points: &mut Vec<Point<'a>>,
    choice: &Choice<'a>,
    looked_at: &[bool],
    interface: &Interface<'a>,
    i: usize,
) -> Result<Option<usize>, NoMemory>
    ensures names { OnOk result (points.new.items ≡ with_owner choice.now looked_at.now points.old.items i interface.now) }
    ensures owner { IfOk result (λ owner. IsOwner points.new.items (owner_of choice.now i interface.now) (is_at looked_at.now i) owner) }
{
    if !is_at(looked_at, i) {
        return Ok(None);
    }
    let k = put_point(points, owner_of(choice, interface, i))?;
    Ok(Some(k))
}

/// The points of interfaces, and of each interface that is looked at its point. `NoMemory` where room is refused.
pub fn points_of<'a>(
    alloc: Global,
    choice: &Choice<'a>,
    interfaces: &[Interface<'a>],
    looked_at: &[bool],
) -> Result<Points<'a>, NoMemory>
    ensures names { IfOk result (λ all. all.points.items ≡ names_from choice.now looked_at.now [] 0 interfaces.now) }
    ensures long { IfOk result (λ all. length all.owners.items ≡ length interfaces.now) }
    ensures owners { IfOk result (λ all. AreOwners choice.now looked_at.now interfaces.now all.points.items all.owners.items) }
{
    let mut points = Vec::new(alloc);
    let mut owners = Vec::new(alloc);
    for i in 0..interfaces.len() {
        let owner = put_owner(&mut points, choice, looked_at, &interfaces[i], i)?;
        owners.push(owner)?;
    }
    Ok(Points { points, owners })
}
