//! The diagram of a finished run laid out on paper: each thing that hsr_diagram shows becomes an element of hsr_svg, in
//! order, with its words and its look, and gets its coordinates. No contract speaks of these.
//!
//! Its modules, in the order in which to read them:
//! - `widths`: how wide texts are
//! - `columns`: lines of nodes and the lanes between them, side by side
//! - `heads`: what stands over them
//! - `shelves`: shelves for labels, so that none lies on another
//! - `labels`: the labels of arrows and of sends, on their shelves
//! - `rows`: moments and steps, downwards
//! - `falls`: between which rows links are down, and where nodes go off and come on
//! - `moments`: the moments of a picture, in their order
//! - `items`: the sends that are listed, in the order of time
//! - `sheet`: these, all coordinates, and where arrows run
//! - `frame`: node lines, their names, and moments
//! - `arrows`: arrows and their labels
//! - `marks`: the marks of sends, on the lines of their nodes
//! - `shades`: shades while links are down, and the marks of cuts and mends
//! - `switches`: the marks of nodes that go off or come on
//! - `listing`: the sends at the right
//! - `legend`: the legend, and the foot
//! - `telling`: the sends that aren't complete, below
//! - `svg`: the whole, its call
#![tactic(auto)]

mod arrows;
mod columns;
mod falls;
mod frame;
mod heads;
mod items;
mod labels;
mod legend;
mod listing;
mod marks;
mod moments;
mod rows;
mod shades;
mod sheet;
mod shelves;
mod svg;
mod switches;
mod telling;
mod widths;

pub use svg::drawing;
