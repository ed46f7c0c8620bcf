//! The links of a scenario, and the names of nodes and ends that are used.
ghost use Rattle.std.specs.Prelude.{◌≡◌, ◌∷◌, []};
ghost use Rattle.toml.specs.View.{view, table_view};
ghost use Rattle.hsr_scenario.specs.Fallible.{Gives};
ghost use Rattle.hsr_toml.specs.Tables.{needed};
ghost use Rattle.hsr_scenario.specs.Fault.{faults};
ghost use Rattle.hsr_scenario.specs.Links.{end_named, ends, ends_of, link_in, node_named, used_end, used_name};
ghost use Rattle.hsr_scenario.specs.declared.fault.Key.TheVariants as key;

use crate::fault::{Key, What};
use crate::keys::LINK_KEYS;
use crate::nodes::Named;
use crate::table::only;
use crate::words::end_of;
use hsr_toml::{is_name, needed, text, texts};
use hsr_topology::End;
use std::alloc::Global;
use toml::{Table, Value};

/// The number of the node that has the name.
fn node_named(nodes: &[Named], name: &[u8]) -> Option<usize>
    ensures { result ≡ node_named nodes.now name.now }
{
    // A search, since no topology has over 64 nodes.
    nodes.iter().position(|node| node.name.as_bytes() == name)
}

/// The port of that letter, of the node that has the name.
fn end_named(nodes: &[Named], name: &[u8], letter: u8) -> Option<End>
    ensures { result ≡ end_named nodes.now (name.now, letter) }
{
    match node_named(nodes, name) {
        Some(node) => match nodes.get(node) {
            Some(named) => match named.place.port(letter) {
                Some(port) => Some(End { node, port }),
                None => None,
            },
            None => None,
        },
        None => None,
    }
}

/// The number of the node whose name a value is.
fn used_name(nodes: &[Named], key: Key, value: &Value) -> Result<usize, What>
    ensures { Gives (λ n. n) result (used_name nodes.now key (view value.now)) }
{
    let name = text(key, value)?.as_bytes();
    // A text that can't be a name is a bad value, and no name that is missing.
    if !is_name(name) {
        return Err(What::BadValue(key));
    }
    match node_named(nodes, name) {
        Some(node) => Ok(node),
        None => Err(What::NoSuchName),
    }
}

/// The number of the node that a step names.
pub(crate) fn used_node(nodes: &[Named], table: &Table) -> Result<usize, What>
    ensures { Gives (λ n. n) result (needed faults key.Node (used_name nodes.now)
        (table_view table.now)) }
{
    used_name(nodes, Key::Node, needed(table, Key::Node)?)
}

/// The end that a value spells.
fn used_end(nodes: &[Named], key: Key, value: &Value) -> Result<End, What>
    ensures { Gives (λ e. e) result (used_end nodes.now key (view value.now)) }
{
    match end_of(text(key, value)?.as_bytes()) {
        Some((name, letter)) => match end_named(nodes, name, letter) {
            Some(end) => Ok(end),
            None => Err(What::NoSuchName),
        },
        None => Err(What::BadValue(key)),
    }
}

/// The end that a step names.
pub(crate) fn used_port(nodes: &[Named], table: &Table) -> Result<End, What>
    ensures { Gives (λ e. e) result (needed faults key.Port (used_end nodes.now)
        (table_view table.now)) }
{
    used_end(nodes, Key::Port, needed(table, Key::Port)?)
}

/// The ends that two texts spell; the form of both is tried first.
fn ends_of(nodes: &[Named], key: Key, first: &str, second: &str) -> Result<[End; 2], What>
    ensures { Gives (λ l. l) result (ends_of nodes.now key (first.now ∷ second.now ∷ [])) }
{
    // The form of both comes before either name: a bad value is told before a name that isn't there.
    let (Some((first, p)), Some((second, q))) = (
        end_of(first.as_bytes()),
        end_of(second.as_bytes()),
    ) else {
        return Err(What::BadValue(key));
    };
    match (end_named(nodes, first, p), end_named(nodes, second, q)) {
        (Some(first), Some(second)) => Ok([first, second]),
        _ => Err(What::NoSuchName),
    }
}

/// The two ends of a value.
fn ends(alloc: Global, nodes: &[Named], key: Key, value: &Value) -> Result<[End; 2], What>
    ensures { Gives (λ l. l) result (ends nodes.now key (view value.now)) }
{
    let texts = texts(alloc, key, value)?;
    match texts.as_slice() {
        [first, second] => ends_of(nodes, key, first, second),
        _ => Err(What::BadValue(key)),
    }
}

/// The link of a table.
#[tactic(auto, unfolding(crate::specs::Links::link_in))]
pub(crate) fn link(alloc: Global, nodes: &[Named], table: &Table) -> Result<[End; 2], What>
    ensures { Gives (λ l. l) result (link_in nodes.now (table_view table.now)) }
{
    only(table, &LINK_KEYS)?;
    ends(alloc, nodes, Key::Ends, needed(table, Key::Ends)?)
}
