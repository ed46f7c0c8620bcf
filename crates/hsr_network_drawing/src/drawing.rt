//! A drawing: where boxes, links and names stand.
use crate::measure::{Area, BOX_HEIGHT, Point};
use crate::scale::Format;
use crate::wires::{Wire, wire_straight};
use hsr_frame::NoMemory;
use hsr_node::Place;
use hsr_topology::End;
use std::alloc::Global;

/// What is left free around all.
const MARGIN: f64 = 14.0;

/// A node's box.
#[derive(Clone, Copy)]
pub struct NodeBox {
    pub middle: Point,
    /// Half of its width and height.
    pub half: Point,
}

impl NodeBox {
    pub fn area(self) -> Area {
        Area::around(self.middle, self.half)
    }
}

/// A second place of a node, where it can't stand on both its loops.
#[derive(Clone, Copy)]
pub struct Twin {
    pub node: usize,
    pub middle: Point,
}

/// Where the name of a loop stands. Loops have numbers in the order of their lowest links.
#[derive(Clone, Copy)]
pub struct LoopLabel {
    pub number: usize,
    pub at: Point,
}

/// Where the nodes and links of a network stand, in user units of SVG.
#[derive(Drop)]
pub struct Drawing {
    pub format: Format,
    pub box_width: f64,
    /// The box of each node.
    pub boxes: Vec<Option<NodeBox>>,
    pub twins: Vec<Twin>,
    /// The wire of each link.
    pub wires: Vec<Option<Wire>>,
    pub labels: Vec<LoopLabel>,
    /// What all of it covers.
    pub area: Option<Area>,
}

impl Drawing {
    /// An empty drawing of so many nodes and links.
    pub(crate) fn new(
        alloc: Global,
        format: Format,
        box_width: f64,
        nodes: usize,
        links: usize,
    ) -> Result<Drawing, NoMemory> {
        let boxes = vec![in alloc; None; nodes]?;
        let wires = vec![in alloc; None; links]?;
        Ok(Drawing {
            format,
            box_width,
            boxes,
            twins: Vec::new(alloc),
            wires,
            labels: Vec::new(alloc),
            area: None,
        })
    }

    /// Notes that something lies there.
    pub(crate) fn cover(&mut self, area: Area) {
        self.area = Some(match self.area {
            Some(before) => before.with(area),
            None => area,
        });
    }

    /// The box of a node.
    pub(crate) fn box_of(&self, node: usize) -> Option<NodeBox> {
        self.boxes.get(node).copied().flatten()
    }

    /// Draws a node's box.
    pub(crate) fn put_box(&mut self, node: usize, middle: Point, half: Point) {
        if let Some(place) = self.boxes.get_mut(node) {
            *place = Some(NodeBox { middle, half });
        }
        self.cover(Area::around(middle, half));
    }

    /// Half of the width and height of a common box.
    pub(crate) fn half(&self) -> Point {
        Point::new(self.box_width / 2.0, BOX_HEIGHT / 2.0)
    }

    /// Draws a node once more.
    pub(crate) fn put_twin(&mut self, node: usize, middle: Point) -> Result<(), NoMemory> {
        self.twins.push(Twin { node, middle })?;
        let half = Point::new(self.box_width / 2.0, BOX_HEIGHT);
        self.cover(Area::around(middle, half));
        Ok(())
    }

    /// Draws a link.
    pub(crate) fn put_wire(&mut self, link: usize, wire: Wire) {
        if let Some(place) = self.wires.get_mut(link) {
            *place = Some(wire);
        }
    }

    /// Whether a link is drawn.
    pub(crate) fn has_wire(&self, link: usize) -> bool {
        matches!(self.wires.get(link), Some(Some(_)))
    }

    /// Draws a link straight from box to box, if both are there.
    pub(crate) fn put_straight(&mut self, places: &[Place], link: usize, ends: [End; 2]) {
        let [a, b] = ends;
        if let Some(first) = self.box_of(a.node) {
            if let Some(second) = self.box_of(b.node) {
                let from = (first.middle, first.half);
                let to = (second.middle, second.half);
                self.put_wire(link, wire_straight(places, ends, from, to));
            }
        }
    }

    /// What it covers, with a margin.
    pub fn view(&self) -> Area {
        let origin = Point::new(0.0, 0.0);
        let area = self.area.unwrap_or(Area::around(origin, origin));
        Area {
            low: Point::new(area.low.x - MARGIN, area.low.y - MARGIN),
            high: Point::new(area.high.x + MARGIN, area.high.y + MARGIN),
        }
    }
}
