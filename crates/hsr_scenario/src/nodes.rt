//! The nodes of a scenario.
ghost use Rattle.std.specs.Prelude.{◌≡◌, ◌≤◌, ◌++◌, ◌∷◌, [], length, map, take, option_map};
ghost use Rattle.toml.specs.View.{table_view};
ghost use Rattle.hsr_scenario.specs.Fallible.{Gives};
ghost use Rattle.hsr_toml.specs.Tables.{needed, optional, word};
ghost use Rattle.hsr_scenario.specs.Fault.{faults};
ghost use Rattle.hsr_scenario.specs.Tables.{each_of};
ghost use Rattle.hsr_frame.specs.Words.{mode_of};
ghost use Rattle.hsr_node.specs.Words.{role_of};
ghost use Rattle.hsr_toml.specs.Names.{mac_of};
ghost use Rattle.hsr_scenario.specs.Nodes.{is_taken, macs, macs_of, new_name, node_in, quadbox, ring_node, station};
ghost use Rattle.hsr_scenario.specs.declared.fault.Key.TheVariants as key;
ghost use Rattle.hsr_node.specs.declared.place.Place.TheVariants as place;
ghost use Rattle.hsr_frame.specs.declared.node.Mode.TheVariants.{H};

use crate::fault::{Key, What};
use crate::keys::{QUADBOX_KEYS, RING_KEYS, STATION_KEYS};
use crate::name::Name;
use crate::table::only;
use arrayvec::ArrayVec;
use hsr_frame::{Mac, Mode};
use hsr_node::{Place, Role};
use hsr_toml::{is_name, mac, needed, text, texts, value};
use std::alloc::Global;
use toml::Table;

/// A node with its name.
#[derive(Drop)]
pub(crate) struct Named {
    pub(crate) name: Name,
    pub(crate) place: Place,
}

/// Whether a node has the name.
fn is_taken(nodes: &[Named], name: &str) -> bool
    ensures { result ≡ is_taken nodes.now name.now }
{
    nodes.iter().any(|node| node.name.as_str() == name)
}

/// The name of a node that follows others.
fn new_name(alloc: Global, nodes: &[Named], table: &Table) -> Result<Name, What>
    ensures { Gives (λ n. n) result (needed faults key.Name (new_name nodes.now)
        (table_view table.now)) }
{
    let name = text(Key::Name, needed(table, Key::Name)?)?;
    if !is_name(name.as_bytes()) {
        return Err(What::BadValue(Key::Name));
    }
    if is_taken(nodes, name) {
        return Err(What::NameTwice);
    }
    Name::from_str(alloc, name)
}

/// The address of a node.
fn own_mac(table: &Table) -> Result<Mac, What>
    ensures { Gives (λ m. m) result (needed faults key.Mac (word faults mac_of)
        (table_view table.now)) }
{
    mac(Key::Mac, needed(table, Key::Mac)?)
}

/// The mode of a node.
fn mode(table: &Table) -> Result<Mode, What>
    ensures { Gives (λ m. m) result (optional faults key.Mode H (word faults mode_of)
        (table_view table.now)) }
{
    match value(table, Key::Mode) {
        None => Ok(Mode::H),
        Some(value) => match Mode::from_word(text(Key::Mode, value)?.as_bytes()) {
            Some(mode) => Ok(mode),
            None => Err(What::BadValue(Key::Mode)),
        },
    }
}

/// The addresses that texts spell, at most sixteen.
fn macs_of(texts: &[&str]) -> Option<ArrayVec<Mac, 16>>
    ensures { option_map (λ v. v.items) result ≡ macs_of (map (λ s. s.now) texts.now) }
{
    // The count comes first, so that the list below has room for all.
    if texts.len() > 16 {
        return None;
    }
    each_mac(texts)
}

/// The addresses that texts spell.
#[tactic(auto, using(crate::proofs::Macs::macs_step))]
fn each_mac(texts: &[&str]) -> Option<ArrayVec<Mac, 16>>
    requires { length texts.now ≤ 16 }
    ensures { option_map (λ v. v.items) result ≡ each_of mac_of (map (λ s. s.now) texts.now) }
{
    let mut macs = ArrayVec::new();
    for text in texts.iter() {
        match Mac::from_text(text) {
            Ok(mac) => macs.push(mac),
            Err(_) => return None,
        }
    }
    Some(macs)
}

/// The addresses of a station.
fn macs(alloc: Global, table: &Table) -> Result<ArrayVec<Mac, 16>, What>
    ensures { Gives (λ v. v.items) result (needed faults key.Macs macs (table_view table.now)) }
{
    let texts = texts(alloc, Key::Macs, needed(table, Key::Macs)?)?;
    match macs_of(texts.as_slice()) {
        Some(macs) => Ok(macs),
        None => Err(What::BadValue(Key::Macs)),
    }
}

/// A DANH.
#[tactic(auto, unfolding(crate::specs::Nodes::ring_node))]
fn danh(alloc: Global, nodes: &[Named], table: &Table) -> Result<Named, What>
    ensures { Gives (λ n. n) result (ring_node place.Danh nodes.now (table_view table.now)) }
{
    // Keys that the table doesn't have come before the values of those that it has (RULES, Scenarios).
    only(table, &RING_KEYS)?;
    let name = new_name(alloc, nodes, table)?;
    let mac = own_mac(table)?;
    let mode = mode(table)?;
    let place = Place::Danh { mac, mode };
    Ok(Named { name, place })
}

/// A RedBox.
#[tactic(auto, unfolding(crate::specs::Nodes::ring_node))]
fn redbox(alloc: Global, nodes: &[Named], table: &Table) -> Result<Named, What>
    ensures { Gives (λ n. n) result (ring_node place.RedBox nodes.now (table_view table.now)) }
{
    only(table, &RING_KEYS)?;
    let name = new_name(alloc, nodes, table)?;
    let mac = own_mac(table)?;
    let mode = mode(table)?;
    let place = Place::RedBox { mac, mode };
    Ok(Named { name, place })
}

/// A QuadBox.
#[tactic(auto, unfolding(crate::specs::Nodes::quadbox))]
fn quadbox(alloc: Global, nodes: &[Named], table: &Table) -> Result<Named, What>
    ensures { Gives (λ n. n) result (quadbox nodes.now (table_view table.now)) }
{
    only(table, &QUADBOX_KEYS)?;
    let name = new_name(alloc, nodes, table)?;
    let place = Place::QuadBox;
    Ok(Named { name, place })
}

/// A Station.
#[tactic(auto, unfolding(crate::specs::Nodes::station))]
fn station(alloc: Global, nodes: &[Named], table: &Table) -> Result<Named, What>
    ensures { Gives (λ n. n) result (station nodes.now (table_view table.now)) }
{
    only(table, &STATION_KEYS)?;
    let name = new_name(alloc, nodes, table)?;
    let macs = macs(alloc, table)?;
    let place = Place::Station { macs };
    Ok(Named { name, place })
}

/// The role of a node.
fn role(table: &Table) -> Result<Role, What>
    ensures { Gives (λ r. r) result (needed faults key.Role (word faults role_of)
        (table_view table.now)) }
{
    match Role::from_word(text(Key::Role, needed(table, Key::Role)?)?.as_bytes()) {
        Some(role) => Ok(role),
        None => Err(What::BadValue(Key::Role)),
    }
}

/// The node of a table that follows others.
#[tactic(auto, unfolding(crate::specs::Nodes::node_in))]
pub(crate) fn node(alloc: Global, nodes: &[Named], table: &Table) -> Result<Named, What>
    ensures { Gives (λ n. n) result (node_in nodes.now (table_view table.now)) }
{
    // The role comes first, since it says which keys the table may have.
    match role(table)? {
        Role::Danh => danh(alloc, nodes, table),
        Role::RedBox => redbox(alloc, nodes, table),
        Role::QuadBox => quadbox(alloc, nodes, table),
        Role::Station => station(alloc, nodes, table),
    }
}
