//! The links that touch a node: those that have an end at it.
ghost use Rattle.std.specs.Prelude.{◌≡◌, IfOk, map};
ghost use Rattle.hsr_world_links.specs.Touching.{touches, touching_from, touching_in, touching_of};
ghost use Rattle.hsr_world_links.specs.Views.{span_view};

use crate::span::Span;
use hsr_frame::NoMemory;
use std::alloc::Global;

/// Whether a link touches a node.
fn touches(span: &Span, node: usize) -> bool
    ensures { result ≡ touches node (span_view span.now) }
{
    // All four ends are asked, since no clause says here that the way back has the same ends.
    span.forth.from.node == node
        || span.forth.to.node == node
        || span.back.from.node == node
        || span.back.to.node == node
}

/// The links that touch a node, by their numbers, the lowest first.
fn touching(alloc: Global, spans: &[Span], node: usize) -> Result<Vec<usize>, NoMemory>
    ensures { IfOk result (λ links. links.items ≡ touching_from node 0 (map span_view spans.now)) }
{
    let mut links = Vec::new(alloc);
    for (link, span) in spans.iter().enumerate() {
        if touches(span, node) {
            links.push(link)?;
        }
    }
    Ok(links)
}

/// The links that touch each node below `nodes`, by their numbers, the lowest first. They stay what they are, whatever is done,
/// so that none is looked for again. `NoMemory` if allocation fails.
pub fn new_touching(
    alloc: Global,
    nodes: usize,
    spans: &[Span],
) -> Result<Vec<Vec<usize>>, NoMemory>
    ensures { IfOk result (λ all. map (λ links. links.items) all.items
        ≡ touching_in nodes (map span_view spans.now)) }
{
    let mut all = Vec::new(alloc);
    for node in 0..nodes {
        let links = touching(alloc, spans, node)?;
        all.push(links)?;
    }
    Ok(all)
}

/// The links that touch a node, of these lists; none past them.
pub fn touching_of(all: &[Vec<usize>], node: usize) -> &[usize]
    ensures { result.now ≡ touching_of (map (λ links. links.items) all.now) node }
{
    match all.get(node) {
        Some(links) => links.as_slice(),
        None => &[],
    }
}
