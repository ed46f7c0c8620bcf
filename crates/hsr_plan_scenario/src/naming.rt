//! How a scenario spells addresses, the names of nodes and their ports.
ghost use Rattle.std.specs.Prelude.{◌≡◌, ◌++◌, OnOk, slice_get};
ghost use Rattle.hex.specs.Hex.{encode_upper};
ghost use Rattle.hsr_frame.specs.Grammar.{pair};
ghost use Rattle.hsr_plan_scenario.specs.Spelled.{digits_text, letter_or, mac_text, name_of, name_text, port_text};

use hsr_frame::{Mac, NoMemory};
use hsr_plan_network::Node;
use hsr_text::{put, put_hex, put_octets};
use std::io::Write;

/// Puts octets in hexadecimal last.
pub(crate) fn put_digits(text: &mut Vec<u8>, octets: &[u8]) -> Result<(), NoMemory>
    ensures { OnOk result (text.new.items ≡ text.old.items ++ encode_upper octets.now) }
{
    put_hex(text, octets)?;
    Ok(())
}

/// Puts a number of 16 bits in four hexadecimal digits last.
pub(crate) fn put_pair(text: &mut Vec<u8>, number: u16) -> Result<(), NoMemory>
    ensures { OnOk result (text.new.items ≡ text.old.items ++ encode_upper (pair number)) }
{
    put_digits(text, number.to_be_bytes().as_slice())
}

/// Puts an address last.
#[tactic(auto, unfolding(crate::specs::Spelled::digits_text))]
fn put_address(text: &mut Vec<u8>, mac: Mac) -> Result<(), NoMemory>
    ensures { OnOk result (text.new.items ≡ text.old.items ++ digits_text mac) }
{
    match write!(text, "{mac}") {
        Ok(()) => Ok(()),
        // A list of octets refuses a write for memory alone.
        Err(_) => Err(NoMemory),
    }
}

/// Puts an address in quotes last.
#[tactic(auto, unfolding(crate::specs::Spelled::mac_text))]
pub(crate) fn put_mac(text: &mut Vec<u8>, mac: Mac) -> Result<(), NoMemory>
    ensures { OnOk result (text.new.items ≡ text.old.items ++ mac_text mac) }
{
    put(text, "\"")?;
    put_address(text, mac)?;
    put(text, "\"")
}

/// The name of the node of that number.
fn name_of(nodes: &[Node], number: usize) -> &[u8]
    ensures { result.now ≡ name_of nodes.now number }
{
    match nodes.get(number) {
        Some(node) => node.name.as_bytes(),
        // Never so: orders name nodes that are there. It is no name, so such a text wouldn't be read.
        None => b"-",
    }
}

/// Puts the name of a node in quotes last.
#[tactic(auto, unfolding(crate::specs::Spelled::name_text))]
pub(crate) fn put_name(text: &mut Vec<u8>, nodes: &[Node], number: usize) -> Result<(), NoMemory>
    ensures { OnOk result (text.new.items ≡ text.old.items ++ name_text nodes.now number) }
{
    put(text, "\"")?;
    put_octets(text, name_of(nodes, number))?;
    put(text, "\"")
}

/// The letter of a port.
fn letter_of(nodes: &[Node], number: usize, port: u8) -> u8
    ensures { result ≡ letter_or (slice_get nodes.now number) port }
{
    match nodes.get(number) {
        Some(node) => node.place.letter(port),
        // Never so: orders name nodes that are there.
        None => b'?',
    }
}

/// Puts a port of a node in quotes last.
#[tactic(auto, unfolding(crate::specs::Spelled::port_text))]
pub(crate) fn put_port(
    text: &mut Vec<u8>,
    nodes: &[Node],
    number: usize,
    port: u8,
) -> Result<(), NoMemory>
    ensures { OnOk result (text.new.items ≡ text.old.items ++ port_text nodes.now number port) }
{
    put(text, "\"")?;
    put_octets(text, name_of(nodes, number))?;
    put(text, ".")?;
    text.push(letter_of(nodes, number, port))?;
    put(text, "\"")
}
