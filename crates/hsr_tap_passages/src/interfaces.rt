//! What each interface of a capture is.
ghost use Rattle.std.specs.Prelude.{◌≡◌, ◌&&◌, ◌||◌, map, IfOk};
ghost use Rattle.std.specs.Fmt.{decimal};
ghost use Rattle.std.specs.List.{list_any};
ghost use Rattle.hsr_tap_device.specs.Words.{is_same_end};
ghost use Rattle.hsr_tap_device.specs.declared.device.End.{End};
ghost use Rattle.hsr_playback.specs.Letting.{has_in, has_out};
ghost use Rattle.hsr_tap_passages.specs.Faults.{Gives};
ghost use Rattle.hsr_tap_passages.specs.Interfaces.{are_used, index_of, indexes_of, interface_taps, is_index, is_used, lets_in, lets_out, named_as, on_ethernet, shows_in, shows_out, tap_at};

use crate::fault::PassageFault;
use hsr_capture_reader::Interface;
use hsr_frame::NoMemory;
use hsr_node::Octets;
use hsr_playback::Taps;
use hsr_tap_device::{End, Named, Passing, Tap};
use hsr_text::put_number;
use std::alloc::Global;

/// The link type of Ethernet.
const ETHERNET: u16 = 1;

/// The index of the interface that a document names so.
fn index_of(named: &[Named], name: &[u8]) -> Option<usize>
    ensures { result ≡ index_of named.now name.now }
{
    named
        .iter()
        .position(|interface| interface.name.as_slice() == name)
}

/// A number in decimal digits.
fn digits_of(alloc: Global, number: usize) -> Result<Vec<u8>, NoMemory>
    ensures { IfOk result (λ digits. digits.items ≡ decimal number) }
{
    let mut digits = Vec::new(alloc);
    put_number(&mut digits, number as u64)?;
    Ok(digits)
}

/// The index of what a document says of an interface: by its name, or else by its number.
fn named_as(
    alloc: Global,
    named: &[Named],
    number: usize,
    name: &[u8],
) -> Result<Option<usize>, NoMemory>
    ensures { IfOk result (λ index. index ≡ named_as named.now number name.now) }
{
    match index_of(named, name) {
        Some(index) => Ok(Some(index)),
        None => {
            let digits = digits_of(alloc, number)?;
            Ok(index_of(named, digits.as_slice()))
        }
    }
}

/// The index of what a document says of an interface of this link type. `Link` where that is no Ethernet.
fn on_ethernet(link: u16, index: Option<usize>) -> Result<Option<usize>, PassageFault>
    ensures { result ≡ on_ethernet link index }
{
    match index {
        None => Ok(None),
        Some(index) => {
            if link == ETHERNET {
                Ok(Some(index))
            } else {
                Err(PassageFault::Link(link))
            }
        }
    }
}

/// For each interface the index of what a document says of it. `Link` where that is no Ethernet.
#[tactic(auto, using(crate::proofs::Steps::indexes_step, crate::proofs::Steps::indexes_fail), unfolding(crate::specs::Interfaces::indexes_of))]
fn indexes_of(
    alloc: Global,
    named: &[Named],
    interfaces: &[Interface<'_>],
) -> Result<Vec<Option<usize>>, PassageFault>
    ensures { Gives (λ v. v.items) result (indexes_of named.now interfaces.now) }
{
    let mut indexes = Vec::new(alloc);
    for interface in interfaces {
        let index = named_as(alloc, named, indexes.len(), interface.name)?;
        indexes.push(on_ethernet(interface.link, index)?)?;
    }
    Ok(indexes)
}

/// Whether this is an index.
fn is_index(i: usize, index: Option<usize>) -> bool
    ensures { result ≡ is_index i index }
{
    match index {
        Some(index) => index == i,
        None => false,
    }
}

/// Whether an index is among those of interfaces.
fn is_used(indexes: &[Option<usize>], i: usize) -> bool
    ensures { result ≡ is_used indexes.now i }
{
    indexes.iter().any(|index| is_index(i, *index))
}

/// `NoSuchName` where a name of a document is no interface's.
#[tactic(auto, using(crate::proofs::Steps::used_step, crate::proofs::Steps::used_fail, crate::proofs::Steps::used_all))]
fn are_used(alloc: Global, indexes: &[Option<usize>], named: &[Named]) -> Result<(), PassageFault>
    ensures { Gives (λ u. u) result (are_used indexes.now 0 named.now) }
{
    for i in 0..named.len() {
        let interface = &named[i];
        if !is_used(indexes, i) {
            let name = Octets::from_slice(alloc, interface.name.as_slice())?;
            return Err(PassageFault::NoSuchName(name));
        }
    }
    Ok(())
}

/// What the interface with this index is.
fn tap_at(named: &[Named], index: Option<usize>) -> Option<Tap>
    ensures { result ≡ tap_at named.now index }
{
    let index = index?;
    if index < named.len() {
        let said = &named[index];
        Some(said.tap)
    } else {
        None
    }
}

/// What each interface is, by the index of what a document says of it.
#[tactic(auto, using(crate::proofs::Steps::map_step, crate::proofs::Steps::map_all))]
fn taps_at(
    alloc: Global,
    named: &[Named],
    indexes: &[Option<usize>],
) -> Result<Vec<Option<Tap>>, NoMemory>
    ensures { IfOk result (λ taps. taps.items ≡ map (tap_at named.now) indexes.now) }
{
    let mut taps = Vec::new(alloc);
    for k in 0..indexes.len() {
        taps.push(tap_at(named, indexes[k]))?;
    }
    Ok(taps)
}

/// What each interface is, as a document says it; none where it is left out.
#[tactic(auto, using(crate::proofs::Steps::fails_on), unfolding(crate::specs::Interfaces::interface_taps))]
pub(crate) fn interface_taps(
    alloc: Global,
    named: &[Named],
    interfaces: &[Interface<'_>],
) -> Result<Vec<Option<Tap>>, PassageFault>
    ensures { Gives (λ v. v.items) result (interface_taps named.now interfaces.now) }
{
    let indexes = indexes_of(alloc, named, interfaces)?;
    are_used(alloc, indexes.as_slice(), named)?;
    let taps = taps_at(alloc, named, indexes.as_slice())?;
    Ok(taps)
}

/// Whether an interface shows what goes into the device.
fn lets_in(passing: Passing) -> bool
    ensures { result ≡ lets_in passing }
{
    match passing {
        Passing::Out => false,
        Passing::In | Passing::Flags | Passing::Lane => true,
    }
}

/// Whether it shows what leaves the device.
fn lets_out(passing: Passing) -> bool
    ensures { result ≡ lets_out passing }
{
    match passing {
        Passing::In => false,
        Passing::Out | Passing::Flags | Passing::Lane => true,
    }
}

/// With what an interface shows of what goes in.
#[tactic(auto, using(crate::proofs::Tapped::with_it, crate::proofs::Tapped::without_it))]
fn with_ins(taps: Taps, tap: Tap) -> Taps
    ensures ins { (end : End) → has_in result end
        ≡ ((is_same_end end tap.end && lets_in tap.passing) || has_in taps end) }
    ensures outs { (end : End) → has_out result end ≡ has_out taps end }
{
    if lets_in(tap.passing) {
        taps.with_in(tap.end)
    } else {
        taps
    }
}

/// With what an interface shows of what leaves.
#[tactic(auto, using(crate::proofs::Tapped::with_it, crate::proofs::Tapped::without_it))]
fn with_outs(taps: Taps, tap: Tap) -> Taps
    ensures ins { (end : End) → has_in result end ≡ has_in taps end }
    ensures outs { (end : End) → has_out result end
        ≡ ((is_same_end end tap.end && lets_out tap.passing) || has_out taps end) }
{
    if lets_out(tap.passing) {
        taps.with_out(tap.end)
    } else {
        taps
    }
}

/// With what an interface shows.
fn with_tap(taps: Taps, tap: Option<Tap>) -> Taps
    ensures ins { (end : End) → has_in result end ≡ (shows_in end tap || has_in taps end) }
    ensures outs { (end : End) → has_out result end ≡ (shows_out end tap || has_out taps end) }
{
    match tap {
        Some(tap) => with_outs(with_ins(taps, tap), tap),
        None => taps,
    }
}

/// Which ends are tapped, and which way.
#[tactic(auto, using(crate::proofs::Tapped::one_more, crate::proofs::Tapped::no_more))]
pub(crate) fn taps_of(interfaces: &[Option<Tap>]) -> Taps
    ensures ins { (end : End) → has_in result end ≡ list_any (shows_in end) interfaces.now }
    ensures outs { (end : End) → has_out result end ≡ list_any (shows_out end) interfaces.now }
{
    let mut taps = Taps::none();
    for k in 0..interfaces.len() {
        taps = with_tap(taps, interfaces[k]);
    }
    taps
}
