//! How a text is read as a device.
ghost use Rattle.std.specs.Prelude.{◌≡◌, ◌^◌, [], None, false, Err, IfOk, IfSome, ◌≤◌};
ghost use Rattle.toml.specs.View.{table_view, view};
ghost use Rattle.hsr_frame.specs.Words.{mode_of};
ghost use Rattle.hsr_frame.specs.declared.node.Mode.TheVariants.{H};
ghost use Rattle.hsr_toml.specs.Tables.{at_key, between, needed, optional, perhaps, word};
ghost use Rattle.hsr_tap_device.specs.Fallible.{Gives};
ghost use Rattle.hsr_tap_device.specs.Fault.{faults};
ghost use Rattle.hsr_tap_device.specs.Lists.{downs, ignored, interfaces, stations};
ghost use Rattle.hsr_tap_device.specs.Reading.{device_in, device_of, flag, is_kind, kind_of, kinds, mac_for, no_mac, numbers_in, owner_in, some_mac, spelled_mac, times_in};
ghost use Rattle.hsr_tap_device.specs.Words.{nothing_ignored, role_of};
ghost use Rattle.hsr_tap_device.specs.declared.fault.DeviceFault.TheVariants.{Unknown};
ghost use Rattle.hsr_tap_device.specs.declared.fault.Key.TheVariants as key;

use crate::device::{Device, Down, Ignored, Named, Numbers, Owner, Times};
use crate::fault::{DeviceFault, Key};
use crate::lists::{downs, ignored, interfaces, stations};
use crate::words::{TOP_KEYS, key_among, nothing_ignored, role_of};
use hsr_frame::{Mac, Mode};
use hsr_node::{Octets, Role};
use hsr_toml::{NoDocument, between, document_of, needed, number_or, text, value};
use std::alloc::Global;
use toml::{Table, Value};

/// The longest time that a copy may be late or early, in microseconds.
const WINDOW_LIMIT: u64 = 1_000_000_000;

/// The last moment that a document may name, in microseconds.
const LAST: u64 = 1_000_000_000_000;

// ---- kinds

/// Whether a value is of the kind that its key has.
fn is_kind(key: Key, value: &Value) -> bool
    ensures { result ≡ is_kind key (view value.now) }
{
    match key {
        Key::Role | Key::Address | Key::Mode | Key::Port => value.as_str().is_some(),
        Key::Host | Key::Whole => value.as_bool().is_some(),
        Key::Stations | Key::Ignore | Key::Down => value.as_array().is_some(),
        Key::Interface => value.as_table().is_some(),
        Key::Table
        | Key::Within
        | Key::Early
        | Key::From
        | Key::Until
        | Key::Warm
        | Key::Start
        | Key::LifeStart => value.as_integer().is_some(),
    }
}

/// Refuses a key that documents don't have.
fn unknown(alloc: Global, word: &str) -> Result<(), DeviceFault>
    ensures { Gives (λ u. u) result (Err (Unknown word.now)) }
{
    let word = Octets::from_slice(alloc, word.as_bytes())?;
    Err(DeviceFault::Unknown(word))
}

/// Refuses a key that documents don't have, and a value of another kind than its key has.
fn kind_of(alloc: Global, word: &str, value: &Value) -> Result<(), DeviceFault>
    ensures { Gives (λ u. u) result
        (kind_of word.now (key_among top_keys word.now) (view value.now)) }
{
    match key_among(&TOP_KEYS, word) {
        None => unknown(alloc, word),
        Some(key) => {
            if is_kind(key, value) {
                Ok(())
            } else {
                Err(DeviceFault::WrongKind(key))
            }
        }
    }
}

ghost use Rattle.hsr_tap_device.specs.Words.{key_among, top_keys};

/// Refuses a document in which a key or a kind is wrong; the first is named, in the order of the keys' octets.
#[tactic(auto, using(crate::proofs::Items::kinds_step, crate::proofs::Items::kinds_fail))]
fn kinds(alloc: Global, table: &Table) -> Result<(), DeviceFault>
    ensures { Gives (λ u. u) result (kinds (table_view table.now)) }
{
    for (word, value) in table.iter() {
        match kind_of(alloc, word.as_str(), value) {
            Ok(()) => {}
            Err(fault) => return Err(fault),
        }
    }
    Ok(())
}

// ---- values

/// Whether a value is true.
fn flag(key: Key, value: &Value) -> Result<bool, DeviceFault>
    ensures { Gives (λ b. b) result (flag key (view value.now)) }
{
    match value.as_bool() {
        Some(flag) => Ok(flag),
        None => Err(DeviceFault::WrongKind(key)),
    }
}

/// The role of a document.
fn role(table: &Table) -> Result<Role, DeviceFault>
    ensures { Gives (λ r. r) result
        (needed faults key.Role (word faults role_of) (table_view table.now)) }
{
    let word = text(Key::Role, needed(table, Key::Role)?)?;
    match role_of(word.as_bytes()) {
        Some(role) => Ok(role),
        None => Err(DeviceFault::BadValue(Key::Role)),
    }
}

/// The address that a text spells, which is no group's.
fn spelled_mac(text: &str) -> Option<Mac>
    ensures { result ≡ spelled_mac text.now }
{
    match Mac::from_text(text) {
        Ok(mac) => { if mac.is_group() { None } else { Some(mac) } }
        Err(_) => None,
    }
}

/// The address of a device that has to have one.
fn some_mac(table: &Table) -> Result<Option<Mac>, DeviceFault>
    ensures { Gives (λ m. m) result (some_mac (table_view table.now)) }
{
    let spelled = text(Key::Address, needed(table, Key::Address)?)?;
    match spelled_mac(spelled) {
        Some(mac) => Ok(Some(mac)),
        None => Err(DeviceFault::BadValue(Key::Address)),
    }
}

/// The address of a device that has none.
fn no_mac(table: &Table) -> Result<Option<Mac>, DeviceFault>
    ensures { Gives (λ m. m) result (no_mac (at_key faults key.Address (table_view table.now))) }
{
    match value(table, Key::Address) {
        None => Ok(None),
        Some(_) => Err(DeviceFault::Unwanted(Key::Address)),
    }
}

/// The address of a device of this role.
fn mac_for(role: Role, table: &Table) -> Result<Option<Mac>, DeviceFault>
    ensures { Gives (λ m. m) result (mac_for role (table_view table.now)) }
{
    match role {
        Role::QuadBox => no_mac(table),
        _ => some_mac(table),
    }
}

/// The mode of a document.
fn mode(table: &Table) -> Result<Mode, DeviceFault>
    ensures { Gives (λ m. m) result
        (optional faults key.Mode H (word faults mode_of) (table_view table.now)) }
{
    let Some(value) = value(table, Key::Mode) else {
        return Ok(Mode::H);
    };
    match Mode::from_word(text(Key::Mode, value)?.as_bytes()) {
        Some(mode) => Ok(mode),
        None => Err(DeviceFault::BadValue(Key::Mode)),
    }
}

/// The role, the address and the mode of a document.
#[tactic(auto, unfolding(crate::specs::Reading::owner_in))]
fn owner(table: &Table) -> Result<Owner, DeviceFault>
    ensures { Gives (λ o. o) result (owner_in (table_view table.now)) }
{
    let role = role(table)?;
    let mac = mac_for(role, table)?;
    let mode = mode(table)?;
    Ok(Owner { role, mac, mode })
}

/// How many entries the duplicate tables have.
fn entries(table: &Table) -> Result<u32, DeviceFault>
    ensures { Gives (λ n. n) result (optional faults key.Table 512 (between faults 1 65536)
        (table_view table.now)) }
{
    let entries = number_or(512, 1, 65536, table, Key::Table)?;
    Ok(entries as u32)
}

/// A number that may be left out.
fn perhaps(table: &Table, key: Key, most: u64) -> Result<Option<u64>, DeviceFault>
    ensures value { Gives (λ n. n) result (optional faults key None
        (perhaps (between faults 0 most)) (table_view table.now)) }
    ensures most { IfOk result (λ n. IfSome n (λ n. n ≤ most)) }
{
    match value(table, key) {
        None => Ok(None),
        Some(value) => {
            let number = between(0, most, key, value)?;
            Ok(Some(number))
        }
    }
}

/// The times of a judgement.
#[tactic(auto, unfolding(crate::specs::Reading::times_in))]
fn times(table: &Table) -> Result<Times, DeviceFault>
    ensures { Gives (λ t. t) result (times_in (table_view table.now)) }
{
    let within = number_or(1000, 0, WINDOW_LIMIT, table, Key::Within)?;
    let early = number_or(0, 0, WINDOW_LIMIT, table, Key::Early)?;
    let from = number_or(0, 0, LAST, table, Key::From)?;
    let until = perhaps(table, Key::Until, LAST)?;
    let warm = number_or(0, 0, LAST, table, Key::Warm)?;
    Ok(Times {
        within,
        early,
        from,
        until,
        warm,
    })
}

/// A number of 16 bits that may be left out.
fn short(table: &Table, key: Key) -> Result<Option<u16>, DeviceFault>
    ensures { Gives (λ n. n) result (optional faults key None
        (perhaps (between faults 0 65535)) (table_view table.now)) }
{
    match perhaps(table, key, 65535)? {
        None => Ok(None),
        Some(number) => Ok(Some(number as u16)),
    }
}

/// The first numbers of a device.
#[tactic(auto, unfolding(crate::specs::Reading::numbers_in))]
fn numbers(table: &Table) -> Result<Numbers, DeviceFault>
    ensures { Gives (λ n. n) result (numbers_in (table_view table.now)) }
{
    let start = short(table, Key::Start)?;
    let life_start = short(table, Key::LifeStart)?;
    Ok(Numbers { start, life_start })
}

/// Whether all that the host sends is in the capture, where that is said.
fn host(table: &Table) -> Result<Option<bool>, DeviceFault>
    ensures { Gives (λ b. b) result
        (optional faults key.Host None (perhaps flag) (table_view table.now)) }
{
    match value(table, Key::Host) {
        None => Ok(None),
        Some(value) => {
            let host = flag(Key::Host, value)?;
            Ok(Some(host))
        }
    }
}

/// The stations of a document.
fn stations_in(alloc: Global, table: &Table) -> Result<Vec<Mac>, DeviceFault>
    ensures { Gives (λ v. v.items) result
        (optional faults key.Stations [] stations (table_view table.now)) }
{
    match value(table, Key::Stations) {
        None => Ok(Vec::new(alloc)),
        Some(value) => stations(alloc, Key::Stations, value),
    }
}

/// Whether nothing is open at the end of the capture.
fn whole(table: &Table) -> Result<bool, DeviceFault>
    ensures { Gives (λ b. b) result
        (optional faults key.Whole false flag (table_view table.now)) }
{
    match value(table, Key::Whole) {
        None => Ok(false),
        Some(value) => flag(Key::Whole, value),
    }
}

/// What need not agree, by a document.
fn ignored_in(table: &Table) -> Result<Ignored, DeviceFault>
    ensures { Gives (λ s. s) result
        (optional faults key.Ignore nothing_ignored ignored (table_view table.now)) }
{
    match value(table, Key::Ignore) {
        None => Ok(nothing_ignored()),
        Some(value) => ignored(Key::Ignore, value),
    }
}

/// The ends of a document whose copies may be missing.
fn downs_in(alloc: Global, role: Role, table: &Table) -> Result<Vec<Down>, DeviceFault>
    ensures { Gives (λ v. v.items) result
        (optional faults key.Down [] (downs role) (table_view table.now)) }
{
    match value(table, Key::Down) {
        None => Ok(Vec::new(alloc)),
        Some(value) => downs(alloc, role, Key::Down, value),
    }
}

/// The interfaces of a document.
fn interfaces_in(alloc: Global, role: Role, table: &Table) -> Result<Vec<Named>, DeviceFault>
    ensures { Gives (λ v. v.items) result
        (optional faults key.Interface [] (interfaces role) (table_view table.now)) }
{
    match value(table, Key::Interface) {
        None => Ok(Vec::new(alloc)),
        Some(value) => interfaces(alloc, role, Key::Interface, value),
    }
}

/// The device of a document.
#[tactic(auto, unfolding(crate::specs::Reading::device_in))]
fn device(alloc: Global, table: &Table) -> Result<Device, DeviceFault>
    ensures { Gives (λ d. d) result (device_in (table_view table.now)) }
{
    // Keys and kinds come before all values.
    kinds(alloc, table)?;
    let owner = owner(table)?;
    let entries = entries(table)?;
    let times = times(table)?;
    let numbers = numbers(table)?;
    let host = host(table)?;
    let stations = stations_in(alloc, table)?;
    let whole = whole(table)?;
    let ignored = ignored_in(table)?;
    let downs = downs_in(alloc, owner.role, table)?;
    let interfaces = interfaces_in(alloc, owner.role, table)?;
    Ok(Device {
        owner,
        table: entries,
        times,
        numbers,
        host,
        stations,
        whole,
        ignored,
        downs,
        interfaces,
    })
}

/// The device that a text describes: a document of TOML, of at most 16 MiB. A fault is the first in this order: the text itself; a key
/// that documents don't have, or a value of another kind, in the order of the keys' octets; then `role`, `mac`, `mode`, `table`,
/// `within_us`, `early_us`, `from_us`, `until_us`, `warm_us`, `start`, `life_start`, `host`, `stations`, `whole`, `ignore`, `down` and
/// `interface`. `NoMemory` comes where a growth was refused, in place of any other answer.
pub fn read_device(alloc: Global, text: &str) -> Result<Device, DeviceFault>
    ensures { Gives (λ d. d) result (device_of text.now) }
{
    match document_of(alloc, text) {
        Ok(table) => device(alloc, &table),
        Err(NoDocument::NoToml) => Err(DeviceFault::Text),
        Err(NoDocument::NoMemory) => Err(DeviceFault::NoMemory),
    }
}
