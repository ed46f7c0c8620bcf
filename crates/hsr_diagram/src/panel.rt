//! Lanes and panels.
use hsr_topology::End;
use std::marker::Model;

/// The space between two lines of nodes that stand side by side: the link that joins them, by its number, and its ends
/// there.
#[derive(Clone, Copy, PartialEq, Eq)]
pub struct Lane {
    pub link: usize,
    pub left: End,
    pub right: End,
}

/// Lines of nodes that stand side by side: the first node, and the lanes behind it. Each lane begins at the line where
/// the one before it ends. A ring ends with its first node again.
#[derive(Drop)]
pub struct Panel {
    pub first: usize,
    pub lanes: Vec<Lane>,
}

impl Model for Panel {
    ghost use Rattle.hsr_diagram.specs.Panels.{Panel};

    ghost Value = { Panel };

    ghost view = { λ p. record { first = p.first; lanes = p.lanes.items } };
}
