//! What stands beside the arrows of a picture, all coordinates, and where its arrows run. No contract speaks of coordinates: what
//! is drawn doesn't depend on them.
ghost use Rattle.std.specs.Prelude.{◌≡◌, IfOk};
ghost use Rattle.hsr_diagram.specs.Panels.{lanes_in};
ghost use Rattle.hsr_diagram_layout.specs.Frame.{nodes_of};
ghost use Rattle.hsr_diagram_layout.specs.Items.{AreListed};
ghost use Rattle.hsr_diagram_layout.specs.Moments.{AreMoments, all_moments};

use crate::columns::{BESIDE, Columns, columns_of, lane_count};
use crate::falls::{Edge, Fall, Falls, Told, falls_of};
use crate::heads::{Heads, heads_of};
use crate::items::{Item, listed};
use crate::labels::{foot_of, judged_at, mark_foot, shelves_of};
use crate::listing::LETTER;
use crate::moments::moments_of;
use crate::rows::{Rows, rows_of, stamps_of};
use crate::shelves::{Foot, SHELF, Shelves, Side};
use crate::widths::{MARK, NAME, width_of};
use hsr_diagram::{Arrow, Look, Picture};
use hsr_diagram_text::sent_words;
use hsr_downs::{Down, Switch};
use hsr_finished_run::Closed;
use hsr_frame::NoMemory;
use hsr_svg::{Anchor, Area, Reading, Spot, Way};
use hsr_timeline::{Stamp, put_name};
use std::alloc::Global;

/// The least width of a lane where there is room, and where there isn't.
const LANE: u64 = 72;

const NARROW: u64 = 20;

/// How wide a picture is at most, if its lanes can be so narrow.
const MOST: u64 = 2400;

/// The least width between the moments and the first line.
const SIDE: u64 = 36;

/// What stands in a picture beside its arrows: moments, lines and lanes, and the list of sends; and where.
#[derive(Drop)]
pub(crate) struct Sheet {
    pub moments: Vec<u64>,
    pub rows: Rows,
    pub columns: Columns,
    pub items: Vec<Item>,
    pub heads: Heads,
    shelves: Shelves,
    falls: Falls,
    pub left: u64,
    pub side: u64,
    pub list: u64,
}

/// How wide the longest name is; the longest label of a mark; and the longest line of the list of sends.
#[derive(Clone, Copy)]
struct Longest {
    name: u64,
    label: u64,
    listed: u64,
}

/// How wide lanes are; where the first line stands; and how far the moments stand from it.
#[derive(Clone, Copy)]
struct Spaces {
    width: u64,
    left: u64,
    side: u64,
}

// ---- widths

/// How many digits a number has.
fn digits(n: u64) -> u64 {
    match n.checked_ilog10() {
        Some(more) => u64::from(more).saturating_add(1),
        None => 1,
    }
}

/// How wide the longest name of a node is, with letters of a width.
fn longest_name<const C: usize>(
    alloc: Global,
    closed: &Closed<C>,
    names: &[Vec<u8>],
    letter: u64,
) -> Result<u64, NoMemory> {
    let mut longest = 0;
    for node in 0..closed.topology().places().len() {
        let mut name = Vec::new(alloc);
        put_name(&mut name, names, node)?;
        longest = longest.max(width_of(name.as_slice(), letter));
    }
    Ok(longest)
}

/// How many entries the longest record has.
fn longest_record<const C: usize>(closed: &Closed<C>) -> u64 {
    let mut longest = 0;
    for node in 0..closed.topology().places().len() {
        longest = longest.max(closed.entries(node).len() as u64);
    }
    longest
}

/// How wide the longest line of the list of sends is.
fn longest_listed<const C: usize>(
    alloc: Global,
    closed: &Closed<C>,
    names: &[Vec<u8>],
    picture: &Picture,
) -> Result<u64, NoMemory> {
    let deliveries = picture.deliveries.sends.as_slice();
    let mut longest = 0;
    for sent in picture.sends.as_slice() {
        if let Some(delivery) = deliveries.get(sent.number) {
            let words = sent_words(alloc, names, closed, delivery)?;
            longest = longest.max(words.len() as u64);
        }
    }
    Ok(longest.saturating_mul(LETTER))
}

/// How wide the longest texts of a picture are.
fn longest_of<const C: usize>(
    alloc: Global,
    closed: &Closed<C>,
    names: &[Vec<u8>],
    picture: &Picture,
) -> Result<Longest, NoMemory> {
    let place = digits(longest_record(closed)).saturating_add(1);
    let label = longest_name(alloc, closed, names, MARK)?.saturating_add(place.saturating_mul(
        MARK,
    ));
    Ok(Longest {
        name: longest_name(alloc, closed, names, NAME)?,
        label,
        listed: longest_listed(alloc, closed, names, picture)?,
    })
}

// ---- coordinates

/// How wide a lane is, where there is room for the longest name over it, and for two labels side by side.
fn wide_lane(longest: Longest) -> u64 {
    let by_name = longest.name.saturating_add(6);
    let by_label = (longest.label / 2).saturating_mul(3).saturating_add(14);
    LANE.max(by_name).max(by_label)
}

/// How wide each of `count` lanes is, from an x on: as narrow as it takes to have room for all in the width of a
/// picture, if there are any.
fn lane_width(longest: Longest, count: u64, left: u64) -> u64 {
    let wide = wide_lane(longest);
    let beside = list_beside(longest.label).saturating_add(longest.listed);
    let room = MOST
        .saturating_sub(left)
        .saturating_sub(beside.saturating_add(10));
    // The last space is no lane: the list stands in it.
    match room.checked_div(count.saturating_sub(1)) {
        Some(part) => wide.min(part.max(NARROW)),
        None => wide,
    }
}

/// How far the list of sends stands from the last line, where a label of a width may stand between.
fn list_beside(label: u64) -> u64 {
    label.saturating_add(30)
}

/// How wide the lanes of a picture are, where the first line stands, and how far the moments stand from it.
fn spaces_of(longest: Longest, lanes: u64, last: u64) -> Spaces {
    let side = SIDE.max(longest.label.saturating_add(12));
    let left = digits(last)
        .saturating_mul(6)
        .saturating_add(44)
        .saturating_add(side);
    Spaces {
        width: lane_width(longest, lanes, left),
        left,
        side,
    }
}

/// Where the list of sends stands.
fn list_at(columns: &Columns, label: u64) -> u64 {
    let last_line = columns.next.saturating_sub(columns.width);
    last_line.saturating_add(list_beside(label))
}

/// The sheet of a picture.
pub(crate) fn sheet_of<const C: usize>(
    alloc: Global,
    closed: &Closed<C>,
    names: &[Vec<u8>],
    picture: &Picture,
    downs: &[Down],
    switches: &[Switch],
) -> Result<Sheet, NoMemory>
    ensures nodes { IfOk result (λ sheet. sheet.columns.nodes.items ≡ nodes_of picture.now.panels) }
    ensures lanes { IfOk result (λ sheet. sheet.columns.lanes.items ≡ lanes_in picture.now.panels) }
    ensures moments { IfOk result (λ sheet.
        AreMoments (all_moments picture.now.arrows picture.now.sends) sheet.moments.items) }
    ensures listed { IfOk result (λ sheet. AreListed picture.now.sends sheet.items.items) }
{
    let panels = picture.panels.as_slice();
    let longest = longest_of(alloc, closed, names, picture)?;
    let stamps = stamps_of(alloc, picture)?;
    let Spaces { width, left, side } = spaces_of(longest, lane_count(panels), stamps.last_moment());
    let columns = columns_of(alloc, panels, left, width)?;
    let heads = heads_of(width, longest.name);
    let moments = moments_of(alloc, picture)?;
    // Labels come before rows: how much room a row takes depends on its shelves.
    let mut shelves = shelves_of(alloc, closed, names, picture, &stamps, &columns)?;
    let falls = falls_of(
        alloc,
        closed,
        Told { downs, switches },
        picture.arrows.as_slice(),
        &stamps,
        &columns,
        moments.as_slice(),
        &mut shelves,
    )?;
    let rows = rows_of(alloc, stamps, heads.top, &shelves)?;
    let items = listed(alloc, picture.sends.as_slice())?;
    let list = list_at(&columns, longest.label);
    Ok(Sheet {
        moments,
        rows,
        columns,
        items,
        heads,
        shelves,
        falls,
        left,
        side,
        list,
    })
}

/// Where a mark stands, and its label.
#[derive(Clone, Copy)]
pub(crate) struct Mark {
    pub x: u64,
    pub y: u64,
    pub label: Spot,
}

/// Where the marks of a time in which a link is down stand: that of the cut, and that of its end.
#[derive(Clone, Copy)]
pub(crate) struct Marked {
    pub cut: Spot,
    pub end: Spot,
}

/// How far node lines go on below the last row.
pub(crate) const TAIL: u64 = 16;

/// The least height of a shade.
const THIN: u64 = 5;

impl Sheet {
    /// The time in which a link is down that has a number. Each has edges; one that hasn't would be drawn at the end
    /// all the same.
    fn fall_at(&self, number: usize) -> Fall {
        match self.falls.falls.as_slice().get(number) {
            Some(fall) => *fall,
            None => Fall {
                cut: Edge {
                    row: self.rows.stamps.len(),
                    shelf: 0,
                },
                end: None,
            },
        }
    }

    /// Where a change of a link stands, that takes place before a row: above it, with its labels, or below the last row.
    fn edge_at(&self, row: usize) -> u64 {
        if row < self.rows.stamps.len() {
            self.rows.over(row, self.shelves.room(row, Side::Above))
        } else {
            self.rows.bottom.saturating_add(TAIL / 4)
        }
    }

    /// Where the shade of a link lies that is down between two rows. Where nothing that is planned comes between, it
    /// reaches a little beyond the row, so that it can be seen.
    pub(crate) fn shade_at(&self, number: usize, link: usize) -> Area {
        let fall = self.fall_at(number);
        let strip = self.columns.strip_of(link);
        let top = self.edge_at(fall.cut.row);
        let end = match fall.end {
            None => self.rows.bottom.saturating_add(TAIL),
            Some(edge) if edge.row == fall.cut.row && edge.row < self.rows.stamps.len() => {
                self.rows.at(edge.row).saturating_add(self.rows.drop)
            }
            Some(edge) => self.edge_at(edge.row),
        };
        Area {
            x: strip.left,
            y: top,
            width: strip.right.saturating_sub(strip.left),
            height: end.saturating_sub(top).max(THIN),
        }
    }

    /// Where a mark stands that has a shelf before a row, beside a line.
    fn spot_before(&self, edge: Edge, x: u64, anchor: Anchor) -> Spot {
        let raised = edge.shelf.saturating_mul(SHELF);
        let last = self.rows.stamps.len();
        let y = if edge.row < last {
            self.rows
                .at(edge.row)
                .saturating_sub(2)
                .saturating_sub(raised)
        } else {
            self.rows
                .at(last.saturating_sub(1))
                .saturating_add(self.rows.drop)
                .saturating_add(3)
                .saturating_add(raised)
        };
        Spot {
            x,
            y,
            anchor,
            reading: Reading::Across,
        }
    }

    /// Where the mark of a change of a link stands, on its shelf.
    fn change_at(&self, link: usize, edge: Edge) -> Spot {
        let x = self.columns.strip_of(link).left.saturating_add(BESIDE);
        self.spot_before(edge, x, Anchor::Start)
    }

    /// Where the mark of a node stands, by the numbers of its switch and of its line. Each that is drawn has coordinates;
    /// one that hasn't would be drawn at its line, below all.
    pub(crate) fn flag_at(&self, number: usize, line: usize) -> Spot {
        let flag = self
            .falls
            .flags
            .as_slice()
            .iter()
            .find(|flag| flag.number == number && flag.line == line);
        match flag {
            Some(flag) => self.spot_before(flag.edge, flag.x, flag.anchor),
            None => Spot {
                x: self.columns.line_at(line),
                y: self.rows.bottom,
                anchor: Anchor::Start,
                reading: Reading::Across,
            },
        }
    }

    /// Where the marks of a time in which a link is down stand.
    pub(crate) fn marks_of_fall(&self, number: usize, link: usize) -> Marked {
        let fall = self.fall_at(number);
        let cut = self.change_at(link, fall.cut);
        let end = match fall.end {
            Some(edge) => self.change_at(link, edge),
            None => cut,
        };
        Marked { cut, end }
    }

    /// Where an arrow runs: from the line and the row of the entry that passed the copy to those of the entry that
    /// judged it. The arrow of a copy that was lost ends on its way.
    pub(crate) fn way_of(&self, arrow: &Arrow) -> Way {
        let (x1, x2) = self.columns.run_of(arrow);
        let y1 = self.rows.at_some(arrow.start);
        let y2 = if arrow.look == Look::Lost {
            y1.saturating_add(self.rows.drop)
        } else {
            self.rows.at_some(Some(judged_at(arrow)))
        };
        Way { x1, y1, x2, y2 }
    }

    /// A label on its shelf above a point.
    fn above(&self, foot: Foot, y: u64) -> Spot {
        let raised = self.shelves.shelf_of(foot).saturating_mul(SHELF);
        Spot {
            x: foot.x,
            y: y.saturating_sub(2).saturating_sub(raised),
            anchor: foot.anchor,
            reading: Reading::Across,
        }
    }

    /// A label on its shelf below a point.
    fn below(&self, foot: Foot, y: u64) -> Spot {
        let lowered = self.shelves.shelf_of(foot).saturating_mul(SHELF);
        Spot {
            x: foot.x,
            y: y.saturating_add(3).saturating_add(lowered),
            anchor: foot.anchor,
            reading: Reading::Across,
        }
    }

    /// Where the label of an arrow stands: above its point, or beside the cross where its copy was lost.
    pub(crate) fn label_at(&self, arrow: &Arrow) -> Spot {
        let foot = foot_of(&self.rows.stamps, &self.columns, arrow);
        let y = self.way_of(arrow).y2;
        if arrow.look == Look::Lost {
            self.below(foot, y)
        } else {
            self.above(foot, y)
        }
    }

    /// The mark of a send that began at a stamp, on the line that has a number.
    pub(crate) fn mark_at(&self, number: usize, start: Option<Stamp>) -> Mark {
        let y = self.rows.at_some(start);
        let foot = mark_foot(&self.rows.stamps, &self.columns, number, start);
        Mark {
            x: self.columns.line_at(number),
            y,
            label: self.above(foot, y),
        }
    }
}
