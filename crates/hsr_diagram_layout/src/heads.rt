//! What stands over node lines and lanes.
use crate::columns::Strip;
use hsr_svg::{Anchor, Reading, Spot};

/// Where the first row stands, where names run across.
const TOP: u64 = 92;

/// The least width of a lane over which names may run across.
const ACROSS: u64 = 44;

/// How heads are set: whether names and links run upwards, since lanes are too narrow, and where the first row stands
/// below them.
#[derive(Clone, Copy)]
pub(crate) struct Heads {
    is_turned: bool,
    pub top: u64,
}

/// The heads over lanes of a width, where the longest name has another.
pub(crate) fn heads_of(lane: u64, name: u64) -> Heads {
    let is_turned = lane < ACROSS || lane < name.saturating_add(6);
    let top = if is_turned {
        name.saturating_add(94)
    } else {
        TOP
    };
    Heads { is_turned, top }
}

impl Heads {
    /// The spot so far over the first row. A text stands around its middle, or runs upwards from there at the right of it.
    fn over(&self, x: u64, right: u64, above: u64, above_turned: u64) -> Spot {
        if self.is_turned {
            Spot {
                x: x.saturating_add(right),
                y: self.top.saturating_sub(above_turned),
                anchor: Anchor::Start,
                reading: Reading::Upwards,
            }
        } else {
            Spot {
                x,
                y: self.top.saturating_sub(above),
                anchor: Anchor::Middle,
                reading: Reading::Across,
            }
        }
    }

    /// Where the name of a node stands, over its line.
    pub(crate) fn name_at(&self, x: u64) -> Spot {
        self.over(x, 3, 44, 66)
    }

    /// Where its kind stands: below the name or, turned, behind it.
    pub(crate) fn kind_at(&self, x: u64) -> Spot {
        self.over(x, 12, 33, 66)
    }

    /// Where the number of a link stands, in the middle of its lane.
    pub(crate) fn link_at(&self, strip: Strip) -> Spot {
        self.over(strip.left / 2 + strip.right / 2, 3, 22, 22)
    }

    /// Where the letter of the port at the left of a lane stands.
    pub(crate) fn left_letter_at(&self, strip: Strip) -> Spot {
        Spot {
            x: strip.left.saturating_add(4),
            y: self.top.saturating_sub(12),
            anchor: Anchor::Start,
            reading: Reading::Across,
        }
    }

    /// Where the letter of the port at its right stands.
    pub(crate) fn right_letter_at(&self, strip: Strip) -> Spot {
        Spot {
            x: strip.right.saturating_sub(4),
            anchor: Anchor::End,
            ..self.left_letter_at(strip)
        }
    }
}
