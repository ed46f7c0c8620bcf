//! The directions of an interface: what passes one way at a tap.
ghost use Rattle.std.specs.Prelude.{◌≡◌, ◌<◌};
ghost use Rattle.hsr_taps.specs.Directions.{IsPart, direction_of, interface_of, number_of, part_by};

use hsr_capture_reader::Way;

/// How the directions of an interface are told apart.
#[derive(Clone, Copy, PartialEq, Eq)]
pub enum Taps {
    /// It is one direction.
    One,
    /// Both are there, one by lane.
    Both,
    /// The flags of packets tell the direction.
    Flags,
}

/// Which of an interface's directions one is.
#[derive(Clone, Copy, PartialEq, Eq)]
pub enum Part {
    /// All of it, or packets whose flags don't tell it.
    Whole,
    LaneA,
    LaneB,
    In,
    Out,
}

/// How many parts an interface may have.
const PARTS: usize = 5;

/// How many directions 64 interfaces have.
pub const DIRECTIONS: usize = 320;

/// The part of an interface that a copy is of.
fn part_by(taps: Taps, way: Option<Way>, path: u8) -> Part
    ensures { result ≡ part_by taps way path }
{
    match taps {
        Taps::One => Part::Whole,
        Taps::Both => {
            if path % 2 == 0 {
                Part::LaneA
            } else {
                Part::LaneB
            }
        }
        Taps::Flags => match way {
            Some(Way::In) => Part::In,
            Some(Way::Out) => Part::Out,
            None => Part::Whole,
        },
    }
}

/// The number of a part.
fn number_of(part: Part) -> usize
    ensures { result ≡ number_of part }
{
    match part {
        Part::Whole => 0,
        Part::LaneA => 1,
        Part::LaneB => 2,
        Part::In => 3,
        Part::Out => 4,
    }
}

/// The number of the direction of a copy, by its interface. The directions of an interface follow one another.
pub fn direction_of(interface: usize, taps: Taps, way: Option<Way>, path: u8) -> usize
    requires { interface < 64 }
    ensures number { result ≡ direction_of interface taps way path }
    ensures below { result < 320 }
{
    interface * PARTS + number_of(part_by(taps, way, path))
}

/// The interface of a direction.
pub fn interface_of(direction: usize) -> usize
    ensures { result ≡ interface_of direction }
{
    direction / PARTS
}

/// Which of its interface's directions one is.
pub fn part_of(direction: usize) -> Part
    ensures { IsPart direction result }
{
    match direction % PARTS {
        0 => Part::Whole,
        1 => Part::LaneA,
        2 => Part::LaneB,
        3 => Part::In,
        _ => Part::Out,
    }
}
