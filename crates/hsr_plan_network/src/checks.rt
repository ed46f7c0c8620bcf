//! What names a plan may not have.
//!
//! Each refusal is a function of one test. So the proof has one clause for each, and the order of `check` is that of
//! the faults.
ghost use Rattle.std.specs.Prelude.{◌≡◌, ◌++◌, codes, length, nat_le, IfOk, OnOk};
ghost use Rattle.hsr_toml.specs.Fallible.{guard};
ghost use Rattle.hsr_plan_text.specs.Fallible.{Gives};
ghost use Rattle.hsr_plan_text.specs.declared.fault.Key.TheVariants as key;
ghost use Rattle.hsr_plan_text.specs.declared.fault.Refusal.TheVariants as why;
ghost use Rattle.hsr_plan_text.specs.declared.fault.What.TheVariants.{BadValue};
ghost use Rattle.hsr_plan_network.specs.Checks.{address_passes, each_once, each_passes, has_mac, in_one, in_two, is_new, is_station, list_at_most, may_be_64, mode_passes, own_addresses, passes, redbox_passes, ring_passes, some_sixteen, stations_of, unless_held};

use crate::names::{is_in, times_met};
use crate::nodes::station_name;
use hsr_frame::{Mac, NoMemory};
use hsr_plan_text::{Addressed, Behind, InMode, Key, Network, Refusal, Ring, What, Word};
use std::alloc::Global;

/// The most octets of a RedBox's name, so that its Station's has 32.
const BOX_NAME_LIMIT: usize = 27;

/// The most rings of a topology, each of two nodes at least, each of which is in two rings at most.
const RING_LIMIT: usize = 64;

/// The most names in the rings of a topology.
const NAME_LIMIT: usize = 128;

/// Refuses a name that stands twice, unless it doesn't.
fn once(alloc: Global, is_once: bool, name: &[u8]) -> Result<(), What>
    ensures { Gives (λ u. u) result (unless_held is_once (why.NameTwice name.now)) }
{
    if is_once {
        return Ok(());
    }
    // The name goes into the fault, so that its line can name it and point at it.
    let name = Word::of(alloc, name)?;
    Err(What::Refused(Refusal::NameTwice(name)))
}

/// Refuses a name that nobody has, unless somebody has it.
fn there(alloc: Global, is_there: bool, name: &[u8]) -> Result<(), What>
    ensures { Gives (λ u. u) result (unless_held is_there (why.NoSuchName name.now)) }
{
    if is_there {
        return Ok(());
    }
    let name = Word::of(alloc, name)?;
    Err(What::Refused(Refusal::NoSuchName(name)))
}

/// Refuses nodes and links, unless they form a valid topology.
fn fit(is_fit: bool) -> Result<(), What>
    ensures { Gives (λ u. u) result (unless_held is_fit why.Topology) }
{
    if is_fit {
        Ok(())
    } else {
        Err(What::Refused(Refusal::Topology))
    }
}

/// Refuses names of which one stands again further on.
#[tactic(auto, using(crate::proofs::Passing::once_step, crate::proofs::Passing::once_fails))]
fn each_once(alloc: Global, names: &[Word]) -> Result<(), What>
    ensures { Gives (λ u. u) result (each_once names.now) }
{
    for (i, name) in names.iter().enumerate() {
        once(
            alloc,
            // Each with those behind it: so the name of the fault is the first that stands again.
            !is_in(name.as_bytes(), &names[i + 1..]),
            name.as_bytes(),
        )?;
    }
    Ok(())
}

// ---- rings

/// Whether rings list `most` names at most.
#[tactic(auto, using(crate::proofs::Passing::list_step))]
fn list_at_most(most: usize, rings: &[Ring]) -> bool
    ensures { result ≡ list_at_most most rings.now }
{
    let mut left = most;
    for ring in rings.iter() {
        // Counted down, so that no sum can overflow.
        if ring.nodes.len() > left {
            return false;
        }
        left -= ring.nodes.len();
    }
    true
}

/// Refuses more rings, or more names in them, than 64 nodes have.
fn few_enough(rings: &[Ring]) -> Result<(), What>
    ensures { Gives (λ u. u) result (unless_held (may_be_64 rings.now) (why.TooMany key.Ring)) }
{
    if rings.len() <= RING_LIMIT && list_at_most(NAME_LIMIT, rings) {
        Ok(())
    } else {
        Err(What::Refused(Refusal::TooMany(Key::Ring)))
    }
}

/// Refuses a name in more than two rings.
#[tactic(auto, unfolding(crate::specs::Checks::in_two))]
fn in_two(alloc: Global, rings: &[Ring], name: &Word) -> Result<(), What>
    ensures { Gives (λ u. u) result (in_two rings.now name.now) }
{
    let is_once = times_met(rings, name.as_bytes()) <= 2;
    once(alloc, is_once, name.as_bytes())
}

/// Refuses names of which one is in more than two rings.
#[tactic(auto, using(crate::proofs::Passing::two_step, crate::proofs::Passing::two_fails))]
fn each_in_two(alloc: Global, rings: &[Ring], names: &[Word]) -> Result<(), What>
    ensures { Gives (λ u. u) result (each_passes (in_two rings.now) names.now) }
{
    for name in names.iter() {
        match in_two(alloc, rings, name) {
            Ok(()) => {}
            Err(what) => return Err(what),
        }
    }
    Ok(())
}

/// Refuses a ring that has a name twice, fewer than two names, or one that is in more than two rings.
#[tactic(auto, unfolding(crate::specs::Checks::ring_passes))]
fn check_ring(alloc: Global, rings: &[Ring], ring: &Ring) -> Result<(), What>
    ensures { Gives (λ u. u) result (ring_passes rings.now ring.now) }
{
    each_once(alloc, ring.nodes.as_slice())?;
    fit(ring.nodes.len() >= 2)?;
    // A node in two rings is a QuadBox, which has two ports for each.
    each_in_two(alloc, rings, ring.nodes.as_slice())
}

/// Refuses rings of which one is refused.
#[tactic(auto, using(crate::proofs::Passing::rings_step, crate::proofs::Passing::rings_fails))]
fn check_rings(alloc: Global, rings: &[Ring]) -> Result<(), What>
    ensures { Gives (λ u. u) result (each_passes (ring_passes rings.now) rings.now) }
{
    for ring in rings.iter() {
        match check_ring(alloc, rings, ring) {
            Ok(()) => {}
            Err(what) => return Err(what),
        }
    }
    Ok(())
}

// ---- RedBoxes, addresses and modes

/// Whether a name is in one ring.
pub(crate) fn in_one(rings: &[Ring], name: &[u8]) -> bool
    ensures { result ≡ in_one rings.now name.now }
{
    times_met(rings, name) == 1
}

/// Refuses a name of a ring.
#[tactic(auto, unfolding(crate::specs::Checks::is_new))]
fn is_new(alloc: Global, rings: &[Ring], name: &Word) -> Result<(), What>
    ensures { Gives (λ u. u) result (is_new rings.now name.now) }
{
    let is_once = times_met(rings, name.as_bytes()) == 0;
    once(alloc, is_once, name.as_bytes())
}

/// Refuses stations of which one has a name of a ring.
#[tactic(auto, using(crate::proofs::Passing::new_step, crate::proofs::Passing::new_fails))]
fn each_new(alloc: Global, rings: &[Ring], names: &[Word]) -> Result<(), What>
    ensures { Gives (λ u. u) result (each_passes (is_new rings.now) names.now) }
{
    for name in names.iter() {
        match is_new(alloc, rings, name) {
            Ok(()) => {}
            Err(what) => return Err(what),
        }
    }
    Ok(())
}

/// Refuses a number of stations behind a RedBox.
fn some_sixteen(names: &[Word]) -> Result<(), What>
    ensures { Gives (λ u. u) result (unless_held (some_sixteen names.now)
        (why.TooMany key.RedBox)) }
{
    if !names.is_empty() && names.len() <= 16 {
        Ok(())
    } else {
        Err(What::Refused(Refusal::TooMany(Key::RedBox)))
    }
}

/// Refuses a RedBox whose Station's name would be too long.
fn short(redbox: &Word) -> Result<(), What>
    ensures { Gives (λ u. u) result (guard (nat_le (length redbox.now) 27) (BadValue key.RedBox)) }
{
    if redbox.as_bytes().len() <= BOX_NAME_LIMIT {
        Ok(())
    } else {
        Err(What::BadValue(Key::RedBox))
    }
}

/// Refuses a RedBox whose Station would have a name of a ring.
fn new_station(alloc: Global, rings: &[Ring], redbox: &Word) -> Result<(), What>
    ensures { Gives (λ u. u) result (is_new rings.now (redbox.now ++ codes "-sans")) }
{
    let station = station_name(alloc, redbox.as_bytes())?;
    is_new(alloc, rings, &station)
}

/// Refuses a RedBox that isn't in one ring, whose Station has no new name, or that hasn't 1 to 16 stations of new names.
#[tactic(auto, unfolding(crate::specs::Checks::redbox_passes))]
fn check_redbox(alloc: Global, rings: &[Ring], redbox: &Behind) -> Result<(), What>
    ensures { Gives (λ u. u) result (redbox_passes rings.now redbox.now) }
{
    let name = redbox.redbox.as_bytes();
    there(alloc, in_one(rings, name), name)?;
    // Its Station's name is formed from it, so its length comes before that.
    short(&redbox.redbox)?;
    new_station(alloc, rings, &redbox.redbox)?;
    some_sixteen(redbox.stations.as_slice())?;
    each_new(alloc, rings, redbox.stations.as_slice())
}

/// Refuses RedBoxes of which one is refused.
#[tactic(auto, using(crate::proofs::Passing::redboxes_step, crate::proofs::Passing::redboxes_fails))]
fn check_redboxes(alloc: Global, rings: &[Ring], redboxes: &[Behind]) -> Result<(), What>
    ensures { Gives (λ u. u) result (each_passes (redbox_passes rings.now) redboxes.now) }
{
    for redbox in redboxes.iter() {
        match check_redbox(alloc, rings, redbox) {
            Ok(()) => {}
            Err(what) => return Err(what),
        }
    }
    Ok(())
}

/// Puts names behind others.
fn add_names(alloc: Global, names: &mut Vec<Word>, more: &[Word]) -> Result<(), NoMemory>
    ensures { OnOk result (names.new.items ≡ names.old.items ++ more.now) }
{
    for name in more.iter() {
        names.push(name.copy(alloc)?)?;
    }
    Ok(())
}

/// The stations behind all RedBoxes.
#[tactic(auto, using(crate::proofs::Passing::stations_step))]
fn stations_of(alloc: Global, redboxes: &[Behind]) -> Result<Vec<Word>, NoMemory>
    ensures { IfOk result (λ v. v.items ≡ stations_of redboxes.now) }
{
    let mut stations = Vec::new(alloc);
    for redbox in redboxes.iter() {
        add_names(alloc, &mut stations, redbox.stations.as_slice())?;
    }
    Ok(stations)
}

/// Refuses stations of which two have one name, behind one RedBox or two.
fn stations_once(alloc: Global, redboxes: &[Behind]) -> Result<(), What>
    ensures { Gives (λ u. u) result (each_once (stations_of redboxes.now)) }
{
    let stations = stations_of(alloc, redboxes)?;
    each_once(alloc, stations.as_slice())
}

/// Whether a name is a station's.
fn is_station(redboxes: &[Behind], name: &[u8]) -> bool
    ensures { result ≡ is_station redboxes.now name.now }
{
    redboxes
        .iter()
        .any(|redbox| is_in(name, redbox.stations.as_slice()))
}

/// Refuses an address of what is neither a node in one ring nor a station.
#[tactic(auto, unfolding(crate::specs::Checks::address_passes))]
fn check_address(alloc: Global, network: &Network, address: &Addressed) -> Result<(), What>
    ensures { Gives (λ u. u) result (address_passes network.now address.now) }
{
    let name = address.name.as_bytes();
    // A QuadBox, which is in two rings, has no address.
    let is_there = in_one(network.rings.as_slice(), name)
        || is_station(network.redboxes.as_slice(), name);
    there(alloc, is_there, name)
}

/// Refuses addresses of which one is refused.
#[tactic(auto, using(crate::proofs::Passing::addresses_step, crate::proofs::Passing::addresses_fails))]
fn check_addresses(alloc: Global, network: &Network, addresses: &[Addressed]) -> Result<(), What>
    ensures { Gives (λ u. u) result (each_passes (address_passes network.now) addresses.now) }
{
    for address in addresses.iter() {
        match check_address(alloc, network, address) {
            Ok(()) => {}
            Err(what) => return Err(what),
        }
    }
    Ok(())
}

/// Whether some of these has an address.
fn has_mac(addresses: &[Addressed], mac: Mac) -> bool
    ensures { result ≡ has_mac mac addresses.now }
{
    addresses.iter().any(|address| address.mac == mac)
}

/// Refuses addresses of which one stands again further on.
#[tactic(auto, using(crate::proofs::Passing::own_step, crate::proofs::Passing::own_fails))]
fn own_addresses(addresses: &[Addressed]) -> Result<(), What>
    ensures { Gives (λ u. u) result (own_addresses addresses.now) }
{
    for (i, address) in addresses.iter().enumerate() {
        // Two nodes with one address are no fault of a name, so it is told as one of the topology.
        fit(!has_mac(&addresses[i + 1..], address.mac))?;
    }
    Ok(())
}

/// Refuses a mode of what isn't a node in one ring.
#[tactic(auto, unfolding(crate::specs::Checks::mode_passes))]
fn check_mode(alloc: Global, rings: &[Ring], mode: &InMode) -> Result<(), What>
    ensures { Gives (λ u. u) result (mode_passes rings.now mode.now) }
{
    let name = mode.name.as_bytes();
    there(alloc, in_one(rings, name), name)
}

/// Refuses modes of which one is refused.
#[tactic(auto, using(crate::proofs::Passing::modes_step, crate::proofs::Passing::modes_fails))]
fn check_modes(alloc: Global, rings: &[Ring], modes: &[InMode]) -> Result<(), What>
    ensures { Gives (λ u. u) result (each_passes (mode_passes rings.now) modes.now) }
{
    for mode in modes.iter() {
        match check_mode(alloc, rings, mode) {
            Ok(()) => {}
            Err(what) => return Err(what),
        }
    }
    Ok(())
}

/// Refuses a network of which something is refused: how many there are, rings, RedBoxes, stations, addresses, then modes.
#[tactic(auto, unfolding(crate::specs::Checks::passes))]
pub(crate) fn check(alloc: Global, network: &Network) -> Result<(), What>
    ensures { Gives (λ u. u) result (passes network.now) }
{
    let rings = network.rings.as_slice();
    // Counted before names are compared, so that long texts are refused in a time that grows with them alone.
    few_enough(rings)?;
    check_rings(alloc, rings)?;
    check_redboxes(alloc, rings, network.redboxes.as_slice())?;
    stations_once(alloc, network.redboxes.as_slice())?;
    check_addresses(alloc, network, network.addresses.as_slice())?;
    own_addresses(network.addresses.as_slice())?;
    check_modes(alloc, rings, network.modes.as_slice())
}
