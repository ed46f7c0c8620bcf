//! The whole picture.
ghost use Rattle.std.specs.Prelude.{◌≡◌, ◌≤◌, ℕ, length, true, false, IfErr, IfOk};
ghost use Rattle.hsr_diagram.specs.Pictures.{AreWanted, IsPicture, IsRefused};
ghost use Rattle.hsr_diagram.specs.Wanted.{has_all, is_reversed};

use crate::arrow::Arrow;
use crate::panel::Panel;
use crate::paneling::panels;
use crate::sending::{Sent, sents};
use crate::span::Span;
use crate::tracing::{arrows, hops_by_link};
use crate::wanting::{has_all, pictured};
use hsr_deliveries::{Deliveries, deliveries};
use hsr_finished_run::Closed;
use hsr_frame::NoMemory;
use hsr_node::Probe;
use hsr_timeline::{Shown, StoryFault, entry_stamps, story};
use std::alloc::Global;
use std::marker::Model;

/// The most copies that are drawn in one picture.
pub const COPY_LIMIT: usize = 400;

/// What a picture of a run shows: the panels of its nodes; an arrow for each row that is wanted, in the order of time;
/// who got each send of the run; and which sends are listed beside.
#[derive(Drop)]
pub struct Picture {
    pub panels: Vec<Panel>,
    pub arrows: Vec<Arrow>,
    pub deliveries: Deliveries,
    pub sends: Vec<Sent>,
}

impl Model for Picture {
    ghost use Rattle.hsr_diagram.specs.Pictures.{Picture};

    ghost Value = { Picture };

    ghost view = { λ p. record { panels = p.panels.items; arrows = p.arrows.items; deliveries = p.deliveries.sends.items; sends = p.sends.items } };
}

/// Why there is no picture.
#[derive(Clone, Copy, PartialEq, Eq)]
pub enum PictureFault {
    /// The run hasn't a send that is asked for.
    NoSend,
    /// The span ends before it begins.
    Reversed,
    /// Entries follow one another in a circle.
    Circle,
    /// More copies are wanted than are to be shown: this number.
    TooMany { copies: usize },
    /// Allocation failed.
    NoMemory,
}

impl From<NoMemory> for PictureFault {
    ghost use Rattle.std.specs.Prelude.{◌≡◌};
    ghost use Rattle.hsr_diagram.specs.declared.picturing.PictureFault.TheVariants.{NoMemory as NoRoom};

    ghost from_gives = { λ _ fault. fault ≡ NoRoom };

    fn from(_refused: NoMemory) -> PictureFault {
        PictureFault::NoMemory
    }
}

impl From<StoryFault> for PictureFault {
    ghost use Rattle.std.specs.Prelude.{◌≡◌};
    ghost use Rattle.hsr_diagram.specs.Pictures.{story_fault};

    ghost from_gives = { λ refused fault. fault ≡ story_fault refused };

    fn from(refused: StoryFault) -> PictureFault {
        match refused {
            StoryFault::Circle => PictureFault::Circle,
            StoryFault::NoMemory => PictureFault::NoMemory,
        }
    }
}

/// The rows that are wanted, in the order of time.
fn wanted_rows<const C: usize>(
    alloc: Global,
    closed: &Closed<C>,
    sends: &[Probe],
    span: Span,
) -> Result<Vec<Shown>, PictureFault>
    ensures wanted { IfOk result (λ rows.
        AreWanted closed.now.run closed.now.plan sends.now span rows.items) }
    ensures refused { (most : ℕ) → IfErr result (IsRefused closed.now.run closed.now.plan sends.now span most) }
{
    let rows = story(alloc, closed)?;
    let wanted = pictured(alloc, closed, sends, span, rows.as_slice())?;
    Ok(wanted)
}

/// The picture of rows.
fn picture_of<const C: usize>(
    alloc: Global,
    closed: &Closed<C>,
    sends: &[Probe],
    span: Span,
    most: usize,
    wanted: &[Shown],
) -> Result<Picture, PictureFault>
    requires wanted { AreWanted closed.now.run closed.now.plan sends.now span wanted.now }
    requires has { has_all closed.now.run sends.now ≡ true }
    requires forwards { is_reversed span ≡ false }
    requires few { length wanted.now ≤ most }
    ensures picture { IfOk result (IsPicture closed.now.run closed.now.plan sends.now span most) }
    ensures refused { IfErr result (IsRefused closed.now.run closed.now.plan sends.now span most) }
{
    let panels = panels(alloc, closed.topology())?;
    let stamps = entry_stamps(alloc, closed)?;
    let hops = hops_by_link(alloc, closed)?;
    let arrows = arrows(alloc, closed, hops.as_slice(), stamps.as_slice(), wanted)?;
    let deliveries = deliveries(alloc, closed)?;
    let sends = sents(
        alloc,
        stamps.as_slice(),
        sends,
        span,
        deliveries.sends.as_slice(),
    )?;
    Ok(Picture {
        panels,
        arrows,
        deliveries,
        sends,
    })
}

/// What a picture of a finished run shows: of the rows whose moments are in the span, and whose copies are of one of
/// these sends (without any, of all), each just once an arrow, from the entry that passed the copy to the entry that
/// judged it, in the order of time; panels of the nodes; and the sends, of the span or those that are asked for, each
/// with who got it. `NoSend` where the run hasn't one of these sends, `Reversed` where the span ends before it begins,
/// `Circle` where its rows have no order of time, `TooMany` where more than `most` are wanted. `NoMemory` if
/// allocation fails.
pub fn picture_run<const C: usize>(
    alloc: Global,
    closed: &Closed<C>,
    sends: &[Probe],
    span: Span,
    most: usize,
) -> Result<Picture, PictureFault>
    ensures picture { IfOk result (IsPicture closed.now.run closed.now.plan sends.now span most) }
    ensures refused { IfErr result (IsRefused closed.now.run closed.now.plan sends.now span most) }
{
    if !has_all(closed, sends) {
        return Err(PictureFault::NoSend);
    }
    if span.is_reversed() {
        return Err(PictureFault::Reversed);
    }
    let wanted = wanted_rows(alloc, closed, sends, span)?;
    // Refused here, before arrows and deliveries are looked for.
    if wanted.len() > most {
        return Err(PictureFault::TooMany {
            copies: wanted.len(),
        });
    }
    picture_of(alloc, closed, sends, span, most, wanted.as_slice())
}
