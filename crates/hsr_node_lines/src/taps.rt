//! What each interface of a capture is to the device.
ghost use Rattle.std.specs.Prelude.{◌≡◌, [], option_map};
ghost use Rattle.hsr_node_lines.specs.Faults.{Gives};
ghost use Rattle.hsr_node_lines.specs.Taps.{are_named_there, are_there, is_number, is_there, on_ethernet, plain_tap, tap_by_name, tap_by_number, tap_of, taps_from, taps_of};

use crate::fault::LinesFault;
use hsr_capture_reader::Interface;
use hsr_node::Octets;
use hsr_tap_device::{End, Named, Passing, Tap};
use hsr_text::decimal;
use std::alloc::Global;

/// The link type of Ethernet.
const ETHERNET: u16 = 1;

/// What an interface is without a document: packets come in at port A on interface 0, and at port B on interface 1.
fn plain_tap(i: usize) -> Option<Tap>
    ensures { result ≡ plain_tap i }
{
    let end = match i {
        0 => End::A,
        1 => End::B,
        _ => return None,
    };
    Some(Tap {
        end,
        passing: Passing::In,
    })
}

/// Whether a name is a number in decimal.
fn is_number(i: usize, name: &[u8]) -> bool
    ensures { result ≡ is_number i name.now }
{
    match decimal(name) {
        Some(n) => n == i as u64,
        None => false,
    }
}

/// What a document says of a name.
fn tap_by_name(name: &[u8], named: &[Named]) -> Option<Tap>
    ensures { result ≡ tap_by_name name.now named.now }
{
    for said in named {
        if said.name.as_slice() == name {
            return Some(said.tap);
        }
    }
    None
}

/// What a document says of a number.
fn tap_by_number(i: usize, named: &[Named]) -> Option<Tap>
    ensures { result ≡ tap_by_number i named.now }
{
    for said in named {
        if is_number(i, said.name.as_slice()) {
            return Some(said.tap);
        }
    }
    None
}

/// What an interface is, by its name, or else by its number.
fn tap_of(named: Option<&[Named]>, i: usize, name: &[u8]) -> Option<Tap>
    ensures { result ≡ tap_of (option_map (λ s. s.now) named.entry) i name.now }
{
    let Some(named) = named else {
        return plain_tap(i);
    };
    match tap_by_name(name, named) {
        Some(tap) => Some(tap),
        None => tap_by_number(i, named),
    }
}

/// What an interface with this link type is.
fn on_ethernet(link: u16, tap: Option<Tap>) -> Result<Option<Tap>, LinesFault>
    ensures { result ≡ on_ethernet link tap }
{
    match tap {
        None => Ok(None),
        Some(tap) if link == ETHERNET => Ok(Some(tap)),
        Some(_) => Err(LinesFault::Link(link)),
    }
}

/// What each interface is, by number.
#[tactic(auto, using(crate::proofs::Steps::taps_step, crate::proofs::Steps::taps_fail))]
fn taps_from(
    alloc: Global,
    named: Option<&[Named]>,
    interfaces: &[Interface<'_>],
) -> Result<Vec<Option<Tap>>, LinesFault>
    ensures { Gives (λ v. v.items) result (taps_from (option_map (λ s. s.now) named.entry) [] interfaces.now) }
{
    let mut taps = Vec::new(alloc);
    for interface in interfaces {
        let tap = tap_of(named, taps.len(), interface.name);
        taps.push(on_ethernet(interface.link, tap)?)?;
    }
    Ok(taps)
}

/// Whether an interface has this name or number.
fn is_there(name: &[u8], interfaces: &[Interface<'_>]) -> bool
    ensures { result ≡ is_there name.now 0 interfaces.now }
{
    let mut i = 0;
    for interface in interfaces {
        if interface.name == name || is_number(i, name) {
            return true;
        }
        i += 1;
    }
    false
}

/// The fault of the first of a document's names that no interface has.
#[tactic(auto, using(crate::proofs::Steps::drop_here))]
fn are_there(alloc: Global, interfaces: &[Interface<'_>], named: &[Named]) -> Result<(), LinesFault>
    ensures { Gives (λ u. u) result (are_there interfaces.now named.now) }
{
    for said in named {
        if !is_there(said.name.as_slice(), interfaces) {
            let name = Octets::from_slice(alloc, said.name.as_slice())?;
            return Err(LinesFault::NoSuchName(name));
        }
    }
    Ok(())
}

/// The same, where there is a document.
fn are_named_there(
    alloc: Global,
    interfaces: &[Interface<'_>],
    named: Option<&[Named]>,
) -> Result<(), LinesFault>
    ensures { Gives (λ u. u) result (are_named_there interfaces.now (option_map (λ s. s.now) named.entry)) }
{
    match named {
        Some(named) => are_there(alloc, interfaces, named),
        None => Ok(()),
    }
}

/// What each interface of a capture is, by number, as a document names them. Without one, packets come in at port A on interface 0,
/// and at port B on interface 1.
#[tactic(auto, using(crate::proofs::Steps::fails_exact, crate::proofs::Steps::fails_on), unfolding(crate::specs::Taps::taps_of))]
pub(crate) fn taps_of(
    alloc: Global,
    named: Option<&[Named]>,
    interfaces: &[Interface<'_>],
) -> Result<Vec<Option<Tap>>, LinesFault>
    ensures { Gives (λ v. v.items) result (taps_of (option_map (λ s. s.now) named.entry) interfaces.now) }
{
    let taps = taps_from(alloc, named, interfaces)?;
    are_named_there(alloc, interfaces, named)?;
    Ok(taps)
}
