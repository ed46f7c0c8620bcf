//! Nodes and ends of links by their names.
ghost use Rattle.std.specs.Prelude.{◌≡◌, ◌++◌, slice_get, OnOk};
ghost use Rattle.hsr_plan_outages.specs.Names.{end_text, ends_if, ends_text, letter_if, node_name};

use hsr_frame::NoMemory;
use hsr_plan_network::Node;
use hsr_text::{put, put_octets};
use hsr_topology::End;

/// The name of the node of that number.
fn name_of(nodes: &[Node], number: usize) -> &[u8]
    ensures { result.now ≡ node_name nodes.now number }
{
    match nodes.get(number) {
        Some(node) => node.name.as_bytes(),
        None => &[],
    }
}

/// Puts the name of the node of that number last, nothing where there is none. `NoMemory` if allocation fails.
pub fn put_node(text: &mut Vec<u8>, nodes: &[Node], number: usize) -> Result<(), NoMemory>
    ensures { OnOk result (text.new.items ≡ text.old.items ++ node_name nodes.now number) }
{
    put_octets(text, name_of(nodes, number))
}

/// The letter of a port.
fn letter_at(nodes: &[Node], end: End) -> u8
    ensures { result ≡ letter_if (slice_get nodes.now end.node) end.port }
{
    match nodes.get(end.node) {
        Some(node) => node.place.letter(end.port),
        None => b'?',
    }
}

/// Puts an end of a link last, as `qb2.A`. `NoMemory` if allocation fails; a front of it may stand there then.
#[tactic(auto, unfolding(crate::specs::Names::end_text))]
pub fn put_end(text: &mut Vec<u8>, nodes: &[Node], end: End) -> Result<(), NoMemory>
    ensures { OnOk result (text.new.items ≡ text.old.items ++ end_text nodes.now end) }
{
    put_node(text, nodes, end.node)?;
    put(text, ".")?;
    text.push(letter_at(nodes, end))?;
    Ok(())
}

/// Puts both ends of a link last, each behind a space, as ` prot1.B qb2.A`.
fn put_ends(text: &mut Vec<u8>, nodes: &[Node], link: &[End; 2]) -> Result<(), NoMemory>
    ensures { OnOk result (text.new.items ≡ text.old.items ++ ends_text nodes.now link.now) }
{
    let [first, second] = *link;
    put(text, " ")?;
    put_end(text, nodes, first)?;
    put(text, " ")?;
    put_end(text, nodes, second)
}

/// Puts both ends of the link of that number last, if there is one.
pub(crate) fn put_link(
    text: &mut Vec<u8>,
    nodes: &[Node],
    links: &[[End; 2]],
    number: usize,
) -> Result<(), NoMemory>
    ensures { OnOk result (text.new.items ≡ text.old.items
        ++ ends_if nodes.now (slice_get links.now number)) }
{
    match links.get(number) {
        Some(link) => put_ends(text, nodes, link),
        None => Ok(()),
    }
}
