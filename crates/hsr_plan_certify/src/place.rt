//! In which line of its text a part of a plan stands.
//!
//! A stream stands at its header, a node where its ring names it, and a mode at the node's name. That a node's name stands in its line is
//! proved; that the line is that of the stream, of the ring or of the mode is tested, and no contract tells it.
ghost use Rattle.std.specs.Prelude.{◌≡◌, IfOk, IfSome};
ghost use Rattle.hsr_plan_certify.specs.Lines.{IsLineAt, IsLineFor, IsLineIn, IsLineOf, IsLineWith};
ghost use Rattle.hsr_plan_certify.specs.Parts.{node_name};

use crate::part::Part;
use hsr_frame::NoMemory;
use hsr_plan_network::Node;
use hsr_toml::{Source, bare, member_at, name_again, position_of, table_at};
use std::alloc::Global;

/// The name of the node of that number.
pub(crate) fn name_of(nodes: &[Node], number: usize) -> &[u8]
    ensures { result.now ≡ node_name nodes.now number }
{
    match nodes.get(number) {
        Some(node) => node.name.as_bytes(),
        None => &[],
    }
}

/// The line of an offset, from 1; none, where the text has no such offset.
fn line_at(text: &[u8], at: usize) -> Option<usize>
    ensures { IfSome result (IsLineAt text.now at) }
{
    if at <= text.len() {
        Some(position_of(text, at).line)
    } else {
        None
    }
}

/// The line of the stream of that number.
fn line_of_stream(source: Source<'_>, number: usize) -> Option<usize>
    ensures { IfSome result (IsLineIn source.entry.text.now) }
{
    match table_at(source, b"stream", number) {
        Some(at) => line_at(source.text, at),
        None => None,
    }
}

/// The line in which a ring names a node.
fn line_of_node(source: Source<'_>, name: &[u8]) -> Option<usize>
    ensures { IfSome result (IsLineWith source.entry.text.now source.entry.bare.now name.now) }
{
    // A name stands once in a ring, so this is where it stands.
    match name_again(source, &[b"ring", b"rings"], name) {
        Some(at) => line_at(source.text, at),
        None => None,
    }
}

/// The line in which a node has a mode.
fn line_of_mode(source: Source<'_>, name: &[u8]) -> Option<usize>
    ensures { IfSome result (IsLineWith source.entry.text.now source.entry.bare.now name.now) }
{
    match member_at(source, b"mode", name) {
        Some(at) => line_at(source.text, at),
        None => None,
    }
}

/// The line in which a part of a plan stands.
fn line_for(source: Source<'_>, nodes: &[Node], part: Part) -> Option<usize>
    ensures { IfSome result (IsLineFor source.entry.text.now source.entry.bare.now nodes.now part) }
{
    match part {
        Part::Stream(number) => line_of_stream(source, number),
        Part::Node(number) => line_of_node(source, name_of(nodes, number)),
        Part::Mode(number) => line_of_mode(source, name_of(nodes, number)),
    }
}

/// The line in which a part of a plan stands, from 1, if there is a part and it is found. `NoMemory` if allocation fails.
pub(crate) fn line_of_part(
    alloc: Global,
    text: &str,
    nodes: &[Node],
    part: Option<Part>,
) -> Result<Option<usize>, NoMemory>
    ensures { IfOk result (IsLineOf text.now nodes.now part) }
{
    let Some(part) = part else {
        return Ok(None);
    };
    let bare = bare(alloc, text.as_bytes())?;
    let source = Source {
        text: text.as_bytes(),
        bare: bare.as_slice(),
    };
    Ok(line_for(source, nodes, part))
}
