//! The network drawn as it is wired: where nodes and links stand, and that drawing as SVG.
//!
//! Its modules, in the order in which to read them:
//! - `measure`: lengths and points
//! - `stops`: loops, and the nodes at their places in them
//! - `wiring`: how ports are wired
//! - `loops`: which loops ring ports make
//! - `tree`: loops that share QuadBoxes as trees
//! - `scale`: how far boxes stand from one another
//! - `runs`: boxes that are shared with one child, in a row
//! - `sides`: on which side of its loop each node stands
//! - `sizes`: how large loops are
//! - `places`: where loops and their stops lie
//! - `track`: ways along loops
//! - `wires`: links, with their lanes
//! - `drawing`: a drawing
//! - `groups`: groups of loops drawn
//! - `rows`: rows in which things stand side by side
//! - `shelves`: groups of loops in rows
//! - `loose`: nodes that hang on no loop
//! - `grid`: a plain grid
//! - `layout`: the drawing of a network
//! - `names`: names as boxes show them
//! - `numbers`: numbers, points and paths
//! - `link_spelling`: links and lanes as SVG
//! - `node_spelling`: nodes as SVG
//! - `spelling`: a drawing as SVG, its call
#![tactic(auto)]

mod drawing;
mod grid;
mod groups;
mod layout;
mod link_spelling;
mod loops;
mod loose;
mod measure;
mod names;
mod node_spelling;
mod numbers;
mod places;
mod rows;
mod runs;
mod scale;
mod shelves;
mod sides;
mod sizes;
mod spelling;
mod stops;
mod track;
mod tree;
mod wires;
mod wiring;

pub use drawing::{Drawing, LoopLabel, NodeBox, Twin};
pub use layout::draw;
pub use loops::loop_nodes;
pub use measure::{Area, Point, Spot};
pub use scale::Format;
pub use spelling::{Kind, Words, put_drawing};
pub use track::{Course, Stretch, Stroke, Track};
pub use wires::{Lane, Letter, Wire};
