//! The names of interfaces, which are kept apart from the packets of a file.
ghost use Rattle.std.specs.Prelude.{◌≡◌, length, IfOk};
ghost use Rattle.hsr_capture_reader.specs.Names.{interface_by, interfaces_by};

use crate::clock::Clock;
use crate::fields::Interface;
use crate::options::{behind, front};
use hsr_frame::NoMemory;
use std::alloc::Global;

/// An interface, whose name stands elsewhere and has so many octets.
#[derive(Clone, Copy)]
pub(crate) struct Named {
    pub(crate) len: usize,
    pub(crate) link: u16,
    pub(crate) snap: u32,
    pub(crate) clock: Clock,
    pub(crate) fcs: u8,
}

/// Interfaces, and their names one behind the other.
#[derive(Drop)]
pub(crate) struct Names {
    pub(crate) names: Vec<u8>,
    pub(crate) interfaces: Vec<Named>,
}

/// An interface without its name.
fn unnamed(interface: &Interface<'_>) -> Named
    ensures name { result.len ≡ length interface.now.name }
    ensures others { interface_by interface.now.name result ≡ interface.now }
{
    Named {
        len: interface.name.len(),
        link: interface.link,
        snap: interface.snap,
        clock: interface.clock,
        fcs: interface.fcs,
    }
}

/// The same interfaces, with their names copied.
#[tactic(auto, using(crate::proofs::Naming::one_more))]
pub(crate) fn names_of(alloc: Global, interfaces: &[Interface<'_>]) -> Result<Names, NoMemory>
    ensures { IfOk result (λ all. interfaces_by all.names.items all.interfaces.items ≡ interfaces.now) }
{
    let mut names = Vec::new(alloc);
    let mut others = Vec::new(alloc);
    for interface in interfaces {
        names.extend_from_slice(interface.name)?;
        others.push(unnamed(interface))?;
    }
    Ok(Names {
        names,
        interfaces: others,
    })
}

/// The interface with this name.
fn interface_by<'a>(name: &'a [u8], named: Named) -> Interface<'a>
    ensures { result ≡ interface_by name.now named }
{
    Interface {
        name,
        link: named.link,
        snap: named.snap,
        clock: named.clock,
        fcs: named.fcs,
    }
}

/// The interfaces, whose names stand one behind the other.
pub(crate) fn interfaces_by<'a>(
    alloc: Global,
    interfaces: &[Named],
    names: &'a [u8],
) -> Result<Vec<Interface<'a>>, NoMemory>
    ensures { IfOk result (λ all. all.items ≡ interfaces_by names.now interfaces.now) }
{
    let mut left = names;
    let mut all = Vec::new(alloc);
    for named in interfaces {
        all.push(interface_by(front(left, named.len), *named))?;
        left = behind(left, named.len);
    }
    Ok(all)
}
