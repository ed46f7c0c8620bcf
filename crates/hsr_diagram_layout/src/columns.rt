//! Lines of nodes and the lanes between them, side by side.
ghost use Rattle.std.specs.Prelude.{◌≡◌, ◌++◌, ◌∷◌, [], map, IfOk, OnOk};
ghost use Rattle.std.specs.List.{flat_map};
ghost use Rattle.hsr_diagram.specs.Panels.{lanes_in};
ghost use Rattle.hsr_diagram_layout.specs.Frame.{nodes_in, nodes_of};

use hsr_diagram::{Arrow, Lane, Look, Panel};
use hsr_frame::NoMemory;
use hsr_svg::Anchor;
use hsr_timeline::Spot;
use std::alloc::Global;

/// The least length of the arrow of a lost copy.
const STUB: u64 = 9;

/// How far the mark of a change stands from its line.
pub(crate) const BESIDE: u64 = 4;

/// Where a lane stands, and the node at its left.
#[derive(Clone, Copy)]
pub(crate) struct Strip {
    pub node: usize,
    pub left: u64,
    pub right: u64,
}

/// The nodes of all lines from left to right, and where these stand; all lanes, and where these stand; how wide a lane
/// is; and where the next line stands. A node has several lines, where it stands in several panels, or at both ends of
/// one.
#[derive(Drop)]
pub(crate) struct Columns {
    pub nodes: Vec<usize>,
    pub lanes: Vec<Lane>,
    lines: Vec<u64>,
    strips: Vec<Strip>,
    pub width: u64,
    pub next: u64,
}

impl Columns {
    fn add_line(&mut self, node: usize) -> Result<(), NoMemory>
        ensures nodes { OnOk result (self.new.nodes.items ≡ self.old.nodes.items ++ node ∷ []) }
        ensures lanes { OnOk result (self.new.lanes.items ≡ self.old.lanes.items) }
    {
        self.lines.push(self.next)?;
        self.nodes.push(node)?;
        Ok(())
    }

    fn add_lane(&mut self, lane: Lane) -> Result<(), NoMemory>
        ensures nodes { OnOk result (self.new.nodes.items ≡ self.old.nodes.items
            ++ lane.right.node ∷ []) }
        ensures lanes { OnOk result (self.new.lanes.items ≡ self.old.lanes.items ++ lane ∷ []) }
    {
        let left = self.next;
        // Saturating, as all coordinates: no contract speaks of them, so no proof bounds them.
        self.next = left.saturating_add(self.width);
        self.strips.push(Strip {
            node: lane.left.node,
            left,
            right: self.next,
        })?;
        self.lanes.push(lane)?;
        self.add_line(lane.right.node)
    }

    fn add_lanes(&mut self, lanes: &[Lane]) -> Result<(), NoMemory>
        ensures nodes { OnOk result (self.new.nodes.items ≡ self.old.nodes.items
            ++ map (λ lane. lane.right.node) lanes.now) }
        ensures lanes { OnOk result (self.new.lanes.items ≡ self.old.lanes.items ++ lanes.now) }
    {
        for lane in lanes {
            self.add_lane(*lane)?;
        }
        Ok(())
    }

    fn add_panel(&mut self, panel: &Panel) -> Result<(), NoMemory>
        ensures nodes { OnOk result (self.new.nodes.items ≡ self.old.nodes.items
            ++ nodes_in panel.now) }
        ensures lanes { OnOk result (self.new.lanes.items ≡ self.old.lanes.items
            ++ panel.now.lanes) }
    {
        self.add_line(panel.first)?;
        self.add_lanes(panel.lanes.as_slice())?;
        self.next = self.next.saturating_add(self.width);
        Ok(())
    }

    /// The x of the line that has a number.
    pub(crate) fn line_at(&self, number: usize) -> u64 {
        match self.lines.as_slice().get(number) {
            Some(x) => *x,
            None => self.next,
        }
    }

    /// Where a text of a width stands beside the line that has a number: at its left, or at its right where it would
    /// reach beyond the first line.
    pub(crate) fn beside(&self, number: usize, width: u64) -> (u64, Anchor) {
        let x = self.line_at(number);
        // At the left, since the marks of the node's next link stand at the right.
        if width.saturating_add(BESIDE) < x.saturating_sub(self.line_at(0)) {
            (x.saturating_sub(BESIDE), Anchor::End)
        } else {
            (x.saturating_add(BESIDE), Anchor::Start)
        }
    }

    /// The strip of the lane that has a number.
    pub(crate) fn strip_at(&self, number: usize) -> Strip {
        match self.strips.as_slice().get(number) {
            Some(strip) => *strip,
            None => Strip {
                node: 0,
                left: self.next,
                right: self.next,
            },
        }
    }

    /// The strip of a link. Each link of a topology is a lane; one that isn't would stand behind all, so that its
    /// arrows are drawn all the same.
    pub(crate) fn strip_of(&self, link: usize) -> Strip {
        let lane = self
            .lanes
            .as_slice()
            .iter()
            .position(|lane| lane.link == link);
        match lane {
            Some(number) => self.strip_at(number),
            // Drawn behind all others, so that no arrow is missing.
            None => self.strip_at(self.strips.len()),
        }
    }

    /// From where to where an arrow runs: from the line of the entry that passed the copy to that of the entry that
    /// judged it. The arrow of a copy that was lost ends on its way.
    pub(crate) fn run_of(&self, arrow: &Arrow) -> (u64, u64) {
        let strip = self.strip_of(arrow.row.link);
        let (from, to) = if is_of(arrow.passed, strip.node) {
            (strip.left, strip.right)
        } else {
            (strip.right, strip.left)
        };
        if arrow.look == Look::Lost {
            (from, self.stub_end(from, to))
        } else {
            (from, to)
        }
    }

    /// Where the arrow of a lost copy ends, on its way to a line.
    fn stub_end(&self, from: u64, to: u64) -> u64 {
        let part = (self.width / 5).max(STUB);
        if from < to {
            from.saturating_add(part)
        } else {
            from.saturating_sub(part)
        }
    }
}

/// Whether an entry is of a node.
fn is_of(spot: Option<Spot>, node: usize) -> bool {
    match spot {
        Some(spot) => spot.node == node,
        None => false,
    }
}

/// How many lanes would stand side by side, where each panel takes one more for the space behind it.
pub(crate) fn lane_count(panels: &[Panel]) -> u64 {
    let mut count: u64 = 0;
    for panel in panels {
        count = count
            .saturating_add(panel.lanes.len() as u64)
            .saturating_add(1);
    }
    count
}

/// The columns of panels, from an x on.
pub(crate) fn columns_of(
    alloc: Global,
    panels: &[Panel],
    left: u64,
    width: u64,
) -> Result<Columns, NoMemory>
    ensures nodes { IfOk result (λ columns. columns.nodes.items ≡ nodes_of panels.now) }
    ensures lanes { IfOk result (λ columns. columns.lanes.items ≡ lanes_in panels.now) }
{
    let mut columns = Columns {
        nodes: Vec::new(alloc),
        lanes: Vec::new(alloc),
        lines: Vec::new(alloc),
        strips: Vec::new(alloc),
        width,
        next: left,
    };
    for panel in panels {
        columns.add_panel(panel)?;
    }
    Ok(columns)
}
