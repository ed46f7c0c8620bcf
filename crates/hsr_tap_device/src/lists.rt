//! The lists of a document: stations, what need not agree, ports that are down, and interfaces.
//!
//! Loops hand a fault on by `match` and not by `?`, which gets no proof there: a clause says which fault comes first.
ghost use Rattle.std.specs.Prelude.{◌≡◌, [], option_map};
ghost use Rattle.toml.specs.Data.{as_table};
ghost use Rattle.toml.specs.View.{items_view, table_view, view};
ghost use Rattle.hsr_toml.specs.Fallible.{each_item, each_member};
ghost use Rattle.hsr_toml.specs.Tables.{at_key};
ghost use Rattle.hsr_tap_device.specs.Fallible.{Gives};
ghost use Rattle.hsr_tap_device.specs.Fault.{faults};
ghost use Rattle.hsr_tap_device.specs.Lists.{down, down_at, down_in, downs, ignored, ignored_by, ignored_from, interface, interfaces, moment_of, no_other, port_of, read_there, station, stations};
ghost use Rattle.hsr_tap_device.specs.declared.fault.Key.TheVariants as key;

use crate::device::{Down, End, Ignored, Named};
use crate::fault::{DeviceFault, Key};
use crate::words::{end_at, ignored_with, nothing_ignored, tap_of};
use hsr_frame::Mac;
use hsr_node::{Octets, Role};
use hsr_toml::{items, members, other_key, value};
use std::alloc::Global;
use toml::{Table, Value};

/// The last moment that a document may name, in microseconds.
const LAST: i64 = 1_000_000_000_000;

/// The station of an item.
fn station(item: &Value) -> Result<Mac, DeviceFault>
    ensures { Gives (λ m. m) result (station (view item.now)) }
{
    let Some(text) = item.as_str() else {
        return Err(DeviceFault::BadValue(Key::Stations));
    };
    match Mac::from_text(text) {
        Ok(mac) => Ok(mac),
        Err(_) => Err(DeviceFault::BadValue(Key::Stations)),
    }
}

/// The stations of items.
#[tactic(auto, using(crate::proofs::Items::stations_step, crate::proofs::Items::stations_fail))]
fn stations_of(alloc: Global, items: &[Value]) -> Result<Vec<Mac>, DeviceFault>
    ensures { Gives (λ v. v.items) result (each_item station [] (items_view items.now)) }
{
    let mut stations = Vec::new(alloc);
    for item in items.iter() {
        match station(item) {
            Ok(mac) => stations.push(mac)?,
            Err(fault) => return Err(fault),
        }
    }
    Ok(stations)
}

/// The stations of a value.
pub(crate) fn stations(alloc: Global, key: Key, value: &Value) -> Result<Vec<Mac>, DeviceFault>
    ensures { Gives (λ v. v.items) result (stations key (view value.now)) }
{
    stations_of(alloc, items(key, value)?.as_slice())
}

/// What need not agree, with what an item says.
fn ignored_by(ignored: Ignored, item: &Value) -> Result<Ignored, DeviceFault>
    ensures { Gives (λ s. s) result (ignored_by ignored (view item.now)) }
{
    let Some(word) = item.as_str() else {
        return Err(DeviceFault::BadValue(Key::Ignore));
    };
    match ignored_with(ignored, word.as_bytes()) {
        Some(ignored) => Ok(ignored),
        None => Err(DeviceFault::BadValue(Key::Ignore)),
    }
}

/// What need not agree, by items.
#[tactic(auto, using(crate::proofs::Items::ignored_step, crate::proofs::Items::ignored_fail))]
fn ignored_of(items: &[Value]) -> Result<Ignored, DeviceFault>
    ensures { Gives (λ s. s) result (ignored_from nothing_ignored (items_view items.now)) }
{
    let mut ignored = nothing_ignored();
    for item in items.iter() {
        match ignored_by(ignored, item) {
            Ok(with) => ignored = with,
            Err(fault) => return Err(fault),
        }
    }
    Ok(ignored)
}

ghost use Rattle.hsr_tap_device.specs.Words.{nothing_ignored};

/// What need not agree, by a value.
pub(crate) fn ignored(key: Key, value: &Value) -> Result<Ignored, DeviceFault>
    ensures { Gives (λ s. s) result (ignored key (view value.now)) }
{
    ignored_of(items(key, value)?.as_slice())
}

/// The moment of a value, in microseconds.
fn moment_of(value: &Value) -> Option<u64>
    ensures { result ≡ moment_of (view value.now) }
{
    match value.as_integer() {
        Some(number) if number >= 0 && number <= LAST => Some(number as u64),
        _ => None,
    }
}

/// The end of a value.
fn port_of(role: Role, value: &Value) -> Option<End>
    ensures { result ≡ port_of role (view value.now) }
{
    end_at(role, value.as_str()?.as_bytes())
}

/// The end of a table whose copies may be missing.
fn port_at(role: Role, table: &Table) -> Result<End, DeviceFault>
    ensures { Gives (λ e. e) result
        (read_there (port_of role) (at_key faults key.Port (table_view table.now))) }
{
    let Some(value) = value(table, Key::Port) else {
        return Err(DeviceFault::BadValue(Key::Down));
    };
    match port_of(role, value) {
        Some(port) => Ok(port),
        None => Err(DeviceFault::BadValue(Key::Down)),
    }
}

/// The moment of a table at a key.
fn moment_at(table: &Table, key: Key) -> Result<u64, DeviceFault>
    ensures { Gives (λ n. n) result
        (read_there moment_of (at_key faults key (table_view table.now))) }
{
    let Some(value) = value(table, key) else {
        return Err(DeviceFault::BadValue(Key::Down));
    };
    match moment_of(value) {
        Some(moment) => Ok(moment),
        None => Err(DeviceFault::BadValue(Key::Down)),
    }
}

/// The keys of an end whose copies may be missing.
const DOWN_KEYS: [Key; 3] = [Key::Port, Key::From, Key::Until];

/// The end of a table whose copies may be missing, and when.
fn down_in(role: Role, table: &Table) -> Result<Down, DeviceFault>
    ensures { Gives (λ d. d) result (down_in role (table_view table.now)) }
{
    if other_key(table, &DOWN_KEYS).is_some() {
        return Err(DeviceFault::BadValue(Key::Down));
    }
    let port = port_at(role, table)?;
    let from = moment_at(table, Key::From)?;
    let until = moment_at(table, Key::Until)?;
    Ok(Down { port, from, until })
}

/// The end of an item whose copies may be missing, and when.
fn down(role: Role, item: &Value) -> Result<Down, DeviceFault>
    ensures { Gives (λ d. d) result (down role (view item.now)) }
{
    match item.as_table() {
        Some(table) => down_in(role, table),
        None => Err(DeviceFault::BadValue(Key::Down)),
    }
}

/// The ends of items whose copies may be missing.
#[tactic(auto, using(crate::proofs::Items::downs_step, crate::proofs::Items::downs_fail))]
fn downs_of(alloc: Global, role: Role, items: &[Value]) -> Result<Vec<Down>, DeviceFault>
    ensures { Gives (λ v. v.items) result (each_item (down role) [] (items_view items.now)) }
{
    let mut downs = Vec::new(alloc);
    for item in items.iter() {
        match down(role, item) {
            Ok(down) => downs.push(down)?,
            Err(fault) => return Err(fault),
        }
    }
    Ok(downs)
}

/// The ends of a value whose copies may be missing.
pub(crate) fn downs(
    alloc: Global,
    role: Role,
    key: Key,
    value: &Value,
) -> Result<Vec<Down>, DeviceFault>
    ensures { Gives (λ v. v.items) result (downs role key (view value.now)) }
{
    downs_of(alloc, role, items(key, value)?.as_slice())
}

/// The interface of this name.
fn interface(alloc: Global, role: Role, name: &str, value: &Value) -> Result<Named, DeviceFault>
    ensures { Gives (λ n. n) result (interface role name.now (view value.now)) }
{
    let Some(text) = value.as_str() else {
        return Err(DeviceFault::BadValue(Key::Interface));
    };
    let Some(tap) = tap_of(role, text.as_bytes()) else {
        return Err(DeviceFault::BadValue(Key::Interface));
    };
    let name = Octets::from_slice(alloc, name.as_bytes())?;
    Ok(Named { name, tap })
}

/// The interfaces of a table.
#[tactic(auto, using(crate::proofs::Items::interfaces_step, crate::proofs::Items::interfaces_fail))]
fn interfaces_of(alloc: Global, role: Role, members: &Table) -> Result<Vec<Named>, DeviceFault>
    ensures { Gives (λ v. v.items) result
        (each_member (interface role) [] (table_view members.now)) }
{
    let mut interfaces = Vec::new(alloc);
    for (word, member) in members.iter() {
        match interface(alloc, role, word.as_str(), member) {
            Ok(interface) => interfaces.push(interface)?,
            Err(fault) => return Err(fault),
        }
    }
    Ok(interfaces)
}

/// The interfaces of a value.
pub(crate) fn interfaces(
    alloc: Global,
    role: Role,
    key: Key,
    value: &Value,
) -> Result<Vec<Named>, DeviceFault>
    ensures { Gives (λ v. v.items) result (interfaces role key (view value.now)) }
{
    interfaces_of(alloc, role, members(key, value)?)
}
