//! The names of nodes and of their ports, put into texts.
ghost use Rattle.std.specs.Prelude.{◌≡◌, ◌++◌, slice_get, OnOk};
ghost use Rattle.hsr_timeline.specs.Fronts.{lists_of};
ghost use Rattle.hsr_timeline.specs.Names.{letter_if, name_of, port_text};

use hsr_frame::NoMemory;
use hsr_node::Place;
use hsr_text::put_decimal;
use hsr_topology::End;

/// Puts the name of a node last; `n` and its number, where it has none.
/// `NoMemory` if allocation fails; a front of the name may stand there then.
#[tactic(auto, unfolding(crate::specs::Names::name_of))]
pub fn put_name(text: &mut Vec<u8>, names: &[Vec<u8>], node: usize) -> Result<(), NoMemory>
    ensures { OnOk result (text.new.items ≡ text.old.items ++ name_of (lists_of names.now) node) }
{
    match names.get(node) {
        Some(name) => text.extend_from_slice(name.as_slice())?,
        None => {
            text.extend_from_slice(b"n")?;
            put_decimal(text, node as u64)?;
        }
    }
    Ok(())
}

/// Puts the letter of a port last, if there is such a node. `NoMemory` if allocation fails.
pub fn put_letter(text: &mut Vec<u8>, places: &[Place], end: End) -> Result<(), NoMemory>
    ensures { OnOk result (text.new.items ≡ text.old.items
        ++ letter_if (slice_get places.now end.node) end.port) }
{
    match places.get(end.node) {
        Some(place) => {
            text.push(place.letter(end.port))?;
            Ok(())
        }
        // Without such a node its letter isn't known, and nothing is put.
        None => Ok(()),
    }
}

/// Puts a port of a node last: the node's name, what parts them, and the port's letter.
/// `parted` stands between name and letter; a node that isn't there has no letter. `NoMemory` if allocation fails;
/// a front of the port may stand there then.
#[tactic(auto, unfolding(crate::specs::Names::port_text))]
pub fn put_port(
    text: &mut Vec<u8>,
    parted: &[u8],
    names: &[Vec<u8>],
    places: &[Place],
    end: End,
) -> Result<(), NoMemory>
    ensures { OnOk result (text.new.items ≡ text.old.items
        ++ port_text parted.now (lists_of names.now) places.now end) }
{
    put_name(text, names, end.node)?;
    text.extend_from_slice(parted)?;
    put_letter(text, places, end)
}
