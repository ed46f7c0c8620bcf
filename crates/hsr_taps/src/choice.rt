//! What is asked of interfaces, taps and points.
use std::marker::Model;

/// How the directions of interfaces are to be told apart.
#[derive(Clone, Copy, Default, PartialEq, Eq)]
pub enum TapsAsked {
    /// As each interface's packets tell.
    #[default]
    Auto,
    /// Each interface is one direction.
    One,
    /// Each interface has both directions, one by lane.
    Both,
}

/// Interfaces that are to be one point, and its name.
#[derive(Drop)]
pub struct PointAsked<'a> {
    pub name: &'a str,
    pub interfaces: Vec<usize>,
}

impl<'a> Model for PointAsked<'a> {
    ghost use Rattle.hsr_taps.specs.Asked.{PointFields};

    ghost Value = { PointFields };

    ghost view = { λ p. record { name = p.name.now; interfaces = p.interfaces.items } };
}

/// What is asked for.
#[derive(Drop)]
pub struct Choice<'a> {
    /// Only these interfaces, by number; all of them where there is none.
    pub interfaces: Vec<usize>,
    pub taps: TapsAsked,
    pub points: Vec<PointAsked<'a>>,
}

impl<'a> Model for Choice<'a> {
    ghost use Rattle.hsr_taps.specs.Asked.{ChoiceFields};

    ghost Value = { ChoiceFields };

    ghost view = { λ c. record { interfaces = c.interfaces.items; taps = c.taps; points = c.points.items } };
}
