//! What the keys of a plan say of its nodes.
//!
//! Loops hand a fault on by `match` and not by `?`, which gets no proof there: a clause says which fault comes first.
ghost use Rattle.std.specs.Prelude.{◌≡◌, [], Err};
ghost use Rattle.toml.specs.View.{items_view, view, table_view};
ghost use Rattle.hsr_frame.specs.Words.{mode_of};
ghost use Rattle.hsr_toml.specs.Fallible.{each_item, each_member};
ghost use Rattle.hsr_plan_text.specs.Fallible.{Gives};
ghost use Rattle.hsr_plan_text.specs.Network.{address, addresses, mode, modes, name, named, named_rings, names, network_in, only_ring, redbox, redboxes, ring, rings, rings_in};
ghost use Rattle.hsr_toml.specs.Tables.{optional, word};
ghost use Rattle.hsr_plan_text.specs.Fault.{faults};
ghost use Rattle.hsr_toml.specs.Names.{name_of};
ghost use Rattle.hsr_plan_text.specs.declared.fault.Key.TheVariants as key;
ghost use Rattle.hsr_plan_text.specs.declared.fault.What.TheVariants.{BadName};

use crate::fault::{Key, Refusal, What};
use crate::plan::{Addressed, Behind, InMode, Network, Ring};
use crate::word::Word;
use hsr_frame::Mode;
use hsr_toml::{is_name, items, mac, members, text, value};
use std::alloc::Global;
use toml::{Table, Value};

// ---- names

/// Refuses a word that is no name: there is never a word, but a fault.
fn no_name(alloc: Global, key: Key, text: &[u8]) -> Result<Word, What>
    ensures { Gives (λ w. w) result (Err (BadName key text.now)) }
{
    // The word goes into the fault, so that its line can name it and point at it.
    let word = Word::of(alloc, text)?;
    Err(What::BadName(key, word))
}

/// The name that a text is.
pub(crate) fn name_in(alloc: Global, key: Key, text: &[u8]) -> Result<Word, What>
    ensures { Gives (λ w. w) result (named key text.now) }
{
    if !is_name(text) {
        return no_name(alloc, key, text);
    }
    let name = Word::of(alloc, text)?;
    Ok(name)
}

/// The name that a value is.
pub(crate) fn name(alloc: Global, key: Key, value: &Value) -> Result<Word, What>
    ensures { Gives (λ w. w) result (name key (view value.now)) }
{
    name_in(alloc, key, text(key, value)?.as_bytes())
}

/// The names that items are, in their order; or the first fault.
#[tactic(auto, using(crate::proofs::Lists::names_step, crate::proofs::Lists::names_fail))]
pub(crate) fn names_of(alloc: Global, key: Key, items: &[Value]) -> Result<Vec<Word>, What>
    ensures { Gives (λ v. v.items) result (each_item (name key) [] (items_view items.now)) }
{
    let mut names = Vec::new(alloc);
    for item in items.iter() {
        match name(alloc, key, item) {
            Ok(name) => names.push(name)?,
            Err(what) => return Err(what),
        }
    }
    Ok(names)
}

/// The names of an array.
fn names(alloc: Global, key: Key, value: &Value) -> Result<Vec<Word>, What>
    ensures { Gives (λ v. v.items) result (names key (view value.now)) }
{
    names_of(alloc, key, items(key, value)?.as_slice())
}

// ---- rings

/// The ring of an array.
fn ring(alloc: Global, key: Key, value: &Value) -> Result<Ring, What>
    ensures { Gives (λ r. r) result (names key (view value.now)) }
{
    let nodes = names(alloc, key, value)?;
    Ok(Ring { nodes })
}

/// The only ring of a plan.
fn only_ring(alloc: Global, value: &Value) -> Result<Vec<Ring>, What>
    ensures { Gives (λ v. v.items) result (only_ring key.Ring (view value.now)) }
{
    let ring = ring(alloc, Key::Ring, value)?;
    let mut rings = Vec::new(alloc);
    rings.push(ring)?;
    Ok(rings)
}

/// The rings of a table in its order; or the first fault.
#[tactic(auto, using(crate::proofs::Lists::rings_step, crate::proofs::Lists::rings_fail))]
fn rings_of(alloc: Global, members: &Table) -> Result<Vec<Ring>, What>
    ensures { Gives (λ v. v.items) result (each_member ring [] (table_view members.now)) }
{
    let mut rings = Vec::new(alloc);
    // The names of rings only give their order: nothing refers to them.
    for (_word, member) in members.iter() {
        match ring(alloc, Key::Rings, member) {
            Ok(ring) => rings.push(ring)?,
            Err(what) => return Err(what),
        }
    }
    Ok(rings)
}

/// The rings of a value.
fn rings(alloc: Global, key: Key, value: &Value) -> Result<Vec<Ring>, What>
    ensures { Gives (λ v. v.items) result (rings key (view value.now)) }
{
    rings_of(alloc, members(key, value)?)
}

/// The rings that have names, one at least.
fn named_rings(alloc: Global, value: &Value) -> Result<Vec<Ring>, What>
    ensures { Gives (λ v. v.items) result (named_rings key.Rings (view value.now)) }
{
    let rings = rings(alloc, Key::Rings, value)?;
    // An empty table says as much as none.
    if rings.is_empty() {
        return Err(What::Missing(Key::Ring));
    }
    Ok(rings)
}

/// The rings of a plan: the one, or those that have names.
fn rings_in(alloc: Global, table: &Table) -> Result<Vec<Ring>, What>
    ensures { Gives (λ v. v.items) result (rings_in (table_view table.now)) }
{
    match (value(table, Key::Ring), value(table, Key::Rings)) {
        (None, None) => Err(What::Missing(Key::Ring)),
        (Some(ring), None) => only_ring(alloc, ring),
        (None, Some(rings)) => named_rings(alloc, rings),
        // Two ways to say one thing: which of them holds isn't guessed.
        (Some(_), Some(_)) => Err(What::Refused(Refusal::Together(Key::Rings))),
    }
}

// ---- what else is said of nodes

/// A RedBox with the stations behind it.
fn redbox(alloc: Global, word: &str, value: &Value) -> Result<Behind, What>
    ensures { Gives (λ b. b) result (redbox word.now (view value.now)) }
{
    let redbox = name_in(alloc, Key::RedBox, word.as_bytes())?;
    let stations = names(alloc, Key::RedBox, value)?;
    Ok(Behind { redbox, stations })
}

/// The RedBoxes of a table in its order, each with its stations; or the first fault.
#[tactic(auto, using(crate::proofs::Lists::redboxes_step, crate::proofs::Lists::redboxes_fail))]
fn redboxes_of(alloc: Global, members: &Table) -> Result<Vec<Behind>, What>
    ensures { Gives (λ v. v.items) result (each_member redbox [] (table_view members.now)) }
{
    let mut redboxes = Vec::new(alloc);
    for (word, member) in members.iter() {
        match redbox(alloc, word.as_str(), member) {
            Ok(redbox) => redboxes.push(redbox)?,
            Err(what) => return Err(what),
        }
    }
    Ok(redboxes)
}

/// The RedBoxes of a value.
fn redboxes(alloc: Global, key: Key, value: &Value) -> Result<Vec<Behind>, What>
    ensures { Gives (λ v. v.items) result (redboxes key (view value.now)) }
{
    redboxes_of(alloc, members(key, value)?)
}

/// The RedBoxes of a plan.
fn redboxes_in(alloc: Global, table: &Table) -> Result<Vec<Behind>, What>
    ensures { Gives (λ v. v.items) result (optional faults key.RedBox [] redboxes
        (table_view table.now)) }
{
    match value(table, Key::RedBox) {
        None => Ok(Vec::new(alloc)),
        Some(value) => redboxes(alloc, Key::RedBox, value),
    }
}

/// The address of a name.
fn address(alloc: Global, word: &str, value: &Value) -> Result<Addressed, What>
    ensures { Gives (λ a. a) result (address word.now (view value.now)) }
{
    let name = name_in(alloc, Key::Address, word.as_bytes())?;
    let mac = mac(Key::Address, value)?;
    Ok(Addressed { name, mac })
}

/// The addresses of a table in its order; or the first fault.
#[tactic(auto, using(crate::proofs::Lists::addresses_step, crate::proofs::Lists::addresses_fail))]
fn addresses_of(alloc: Global, members: &Table) -> Result<Vec<Addressed>, What>
    ensures { Gives (λ v. v.items) result (each_member address [] (table_view members.now)) }
{
    let mut addresses = Vec::new(alloc);
    for (word, member) in members.iter() {
        match address(alloc, word.as_str(), member) {
            Ok(address) => addresses.push(address)?,
            Err(what) => return Err(what),
        }
    }
    Ok(addresses)
}

/// The addresses of a value.
fn addresses(alloc: Global, key: Key, value: &Value) -> Result<Vec<Addressed>, What>
    ensures { Gives (λ v. v.items) result (addresses key (view value.now)) }
{
    addresses_of(alloc, members(key, value)?)
}

/// The addresses of a plan.
fn addresses_in(alloc: Global, table: &Table) -> Result<Vec<Addressed>, What>
    ensures { Gives (λ v. v.items) result (optional faults key.Address [] addresses
        (table_view table.now)) }
{
    match value(table, Key::Address) {
        None => Ok(Vec::new(alloc)),
        Some(value) => addresses(alloc, Key::Address, value),
    }
}

/// The mode that a value spells.
fn mode_of(key: Key, value: &Value) -> Result<Mode, What>
    ensures { Gives (λ m. m) result (word faults mode_of key (view value.now)) }
{
    match Mode::from_word(text(key, value)?.as_bytes()) {
        Some(mode) => Ok(mode),
        None => Err(What::BadValue(key)),
    }
}

/// The mode of a name.
fn mode(alloc: Global, word: &str, value: &Value) -> Result<InMode, What>
    ensures { Gives (λ m. m) result (mode word.now (view value.now)) }
{
    let name = name_in(alloc, Key::Mode, word.as_bytes())?;
    let mode = mode_of(Key::Mode, value)?;
    Ok(InMode { name, mode })
}

/// The modes of a table.
#[tactic(auto, using(crate::proofs::Lists::modes_step, crate::proofs::Lists::modes_fail))]
fn modes_of(alloc: Global, members: &Table) -> Result<Vec<InMode>, What>
    ensures { Gives (λ v. v.items) result (each_member mode [] (table_view members.now)) }
{
    let mut modes = Vec::new(alloc);
    for (word, member) in members.iter() {
        match mode(alloc, word.as_str(), member) {
            Ok(mode) => modes.push(mode)?,
            Err(what) => return Err(what),
        }
    }
    Ok(modes)
}

/// The modes of a value.
fn modes(alloc: Global, key: Key, value: &Value) -> Result<Vec<InMode>, What>
    ensures { Gives (λ v. v.items) result (modes key (view value.now)) }
{
    modes_of(alloc, members(key, value)?)
}

/// The modes of a plan.
fn modes_in(alloc: Global, table: &Table) -> Result<Vec<InMode>, What>
    ensures { Gives (λ v. v.items) result (optional faults key.Mode [] modes
        (table_view table.now)) }
{
    match value(table, Key::Mode) {
        None => Ok(Vec::new(alloc)),
        Some(value) => modes(alloc, Key::Mode, value),
    }
}

/// What a plan says of its nodes.
#[tactic(auto, unfolding(crate::specs::Network::network_in))]
pub(crate) fn network(alloc: Global, table: &Table) -> Result<Network, What>
    ensures { Gives (λ n. n) result (network_in (table_view table.now)) }
{
    let rings = rings_in(alloc, table)?;
    let redboxes = redboxes_in(alloc, table)?;
    let addresses = addresses_in(alloc, table)?;
    let modes = modes_in(alloc, table)?;
    Ok(Network {
        rings,
        redboxes,
        addresses,
        modes,
    })
}
