//! The addresses, modes and kinds of the nodes of a plan.
ghost use Rattle.std.specs.Prelude.{◌≡◌, ◌+◌, ◌%◌, ◌<◌, length, map, position, slice_get, MatchOption};
ghost use Rattle.std.specs.Str.{bytes_eq};
ghost use Rattle.hsr_plan_network.specs.Nodes.{behind, is_box, mac_or, mode_for, node_mac, place_of, ring_if, station_mac, usual_mac};

use crate::checks::in_one;
use crate::names::{met_first, number};
use arrayvec::ArrayVec;
use hsr_frame::{Mac, Mode};
use hsr_node::Place;
use hsr_plan_text::{Addressed, Behind, InMode, Network, Ring, Word};

/// One more than a number, as an octet.
fn octet_after(number: usize) -> u8
    ensures { result ≡ (number + 1) % 256 }
{
    // Numbers in an address begin at 1: the first node of the first ring is 02-00-00-00-01-01.
    ((number % 256 + 1) % 256) as u8
}

/// The address that a plan needn't say: for nodes (0) or stations (1), by two numbers.
fn usual_mac(of: u8, first: usize, second: usize) -> Mac
    ensures { result ≡ usual_mac of first second }
{
    // The 2 in the first octet says that the address is locally administered (IEEE 802 clause 8).
    Mac::new([2, 0, 0, of, octet_after(first), octet_after(second)])
}

/// The index of a name's address among addresses.
fn address_of(addresses: &[Addressed], name: &[u8]) -> Option<usize>
    ensures { result ≡ position (λ a. bytes_eq a.name name.now) addresses.now }
{
    addresses
        .iter()
        .position(|address| address.name.as_bytes() == name)
}

/// The address of a name that a plan gives, or else the usual one.
fn mac_or(addresses: &[Addressed], name: &[u8], usual: Mac) -> Mac
    ensures { result ≡ mac_or addresses.now name.now usual }
{
    match address_of(addresses, name) {
        Some(at) => match addresses.get(at) {
            Some(address) => address.mac,
            None => usual,
        },
        None => usual,
    }
}

/// The index of a name's mode among modes.
fn mode_of(modes: &[InMode], name: &[u8]) -> Option<usize>
    ensures { result ≡ position (λ m. bytes_eq m.name name.now) modes.now }
{
    modes.iter().position(|mode| mode.name.as_bytes() == name)
}

/// The mode of a name; H where none is given.
fn mode_for(modes: &[InMode], name: &[u8]) -> Mode
    ensures { result ≡ mode_for modes.now name.now }
{
    match mode_of(modes, name) {
        Some(at) => match modes.get(at) {
            Some(mode) => mode.mode,
            None => Mode::H,
        },
        None => Mode::H,
    }
}

/// The index of a name in a ring of that number; 0 where there is none.
fn index_in(rings: &[Ring], ring: usize, name: &[u8]) -> usize
    ensures { result ≡ ring_if (slice_get rings.now ring) name.now }
{
    match rings.get(ring) {
        Some(ring) => number(ring.nodes.as_slice(), name),
        None => 0,
    }
}

/// The address of a node on a ring.
fn node_mac(network: &Network, name: &[u8]) -> Mac
    ensures { result ≡ node_mac network.now name.now }
{
    let rings = network.rings.as_slice();
    let ring = met_first(rings, name);
    let usual = usual_mac(0, ring, index_in(rings, ring, name));
    mac_or(network.addresses.as_slice(), name, usual)
}

/// Whether a name is a RedBox's.
pub(crate) fn is_box(redboxes: &[Behind], name: &[u8]) -> bool
    ensures { result ≡ is_box redboxes.now name.now }
{
    redboxes
        .iter()
        .any(|redbox| redbox.redbox.as_bytes() == name)
}

/// What kind of node a name on a ring is.
pub(crate) fn place_of(network: &Network, name: &[u8]) -> Place
    ensures { result ≡ place_of network.now name.now }
{
    if !in_one(network.rings.as_slice(), name) {
        // A name in two rings joins them, so it is a QuadBox.
        return Place::QuadBox;
    }
    let mac = node_mac(network, name);
    let mode = mode_for(network.modes.as_slice(), name);
    if is_box(network.redboxes.as_slice(), name) {
        Place::RedBox { mac, mode }
    } else {
        Place::Danh { mac, mode }
    }
}

// ---- Stations

/// The index of a RedBox among RedBoxes.
fn redbox_of(redboxes: &[Behind], name: &[u8]) -> Option<usize>
    ensures { result ≡ position (λ b. bytes_eq b.redbox name.now) redboxes.now }
{
    redboxes
        .iter()
        .position(|redbox| redbox.redbox.as_bytes() == name)
}

/// The stations behind a RedBox.
pub(crate) fn behind<'a>(redboxes: &'a [Behind], name: &[u8]) -> &'a [Word]
    ensures { result.now ≡ behind redboxes.now name.now }
{
    match redbox_of(redboxes, name) {
        Some(at) => match redboxes.get(at) {
            Some(redbox) => redbox.stations.as_slice(),
            None => &[],
        },
        None => &[],
    }
}

/// The address of a station behind one of these RedBoxes.
fn station_mac(network: &Network, boxes: &[Word], redbox: &[u8], name: &[u8]) -> Mac
    ensures { result ≡ station_mac network.now boxes.now redbox.now name.now }
{
    let stations = behind(network.redboxes.as_slice(), redbox);
    let usual = usual_mac(1, number(boxes, redbox), number(stations, name));
    mac_or(network.addresses.as_slice(), name, usual)
}

/// The addresses of stations behind one of these RedBoxes, where there are at most 16.
pub(crate) fn station_macs(
    network: &Network,
    boxes: &[Word],
    redbox: &[u8],
    stations: &[Word],
) -> Option<ArrayVec<Mac, 16>>
    ensures { MatchOption result (16 < length stations.now)
        (λ macs. macs.items ≡ map (station_mac network.now boxes.now redbox.now) stations.now) }
{
    if stations.len() > 16 {
        return None;
    }
    let mut macs = ArrayVec::new();
    for station in stations.iter() {
        macs.push(station_mac(network, boxes, redbox, station.as_bytes()));
    }
    Some(macs)
}
