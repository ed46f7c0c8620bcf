//! What is off in turn: each link and each node, each two of them where that is asked for, and at last nothing.
ghost use Rattle.std.specs.Prelude.{◌≡◌, ◌++◌, ◌∷◌, [], false, length, map, IfOk, OnOk};
ghost use Rattle.hsr_plan_sweep.specs.Cases.{cases_of, faults_asked, in_part, is_in_part, one_if, parted, whole};
ghost use Rattle.hsr_plan_sweep.specs.declared.cases.Case.TheVariants.{Off as IsOff};

use crate::asked::{Asked, Part};
use hsr_faults::{Fault, faults_of_one, faults_of_two};
use hsr_frame::NoMemory;
use hsr_topology::Topology;
use std::alloc::Global;

/// What is off in a run.
#[derive(Clone, Copy, PartialEq, Eq)]
pub enum Case {
    Undisturbed,
    Off(Fault),
}

/// Puts each two last, where that is asked for.
fn push_pairs(
    alloc: Global,
    faults: &mut Vec<Fault>,
    pairs: bool,
    topology: &Topology,
) -> Result<(), NoMemory>
    requires { faults.old.items ≡ faults_asked false (length topology.now.links) (length topology.now.places) }
    ensures { OnOk result (faults.new.items
        ≡ faults_asked pairs (length topology.now.links) (length topology.now.places)) }
{
    if pairs {
        let two = faults_of_two(alloc, topology)?;
        faults.extend_from_slice(two.as_slice())?;
    }
    Ok(())
}

/// The faults that are tried: of one, and where that is asked for of two.
fn faults_asked(alloc: Global, pairs: bool, topology: &Topology) -> Result<Vec<Fault>, NoMemory>
    ensures { IfOk result (λ list. list.items
        ≡ faults_asked pairs (length topology.now.links) (length topology.now.places)) }
{
    let mut faults = faults_of_one(alloc, topology)?;
    push_pairs(alloc, &mut faults, pairs, topology)?;
    Ok(faults)
}

/// The cases of these faults.
fn each_off(alloc: Global, faults: &[Fault]) -> Result<Vec<Case>, NoMemory>
    ensures { IfOk result (λ list. list.items ≡ map IsOff faults.now) }
{
    let mut cases = Vec::new(alloc);
    for fault in faults {
        cases.push(Case::Off(*fault))?;
    }
    Ok(cases)
}

/// All cases: these faults, and at last nothing is off.
fn whole(alloc: Global, faults: &[Fault]) -> Result<Vec<Case>, NoMemory>
    ensures { IfOk result (λ list. list.items ≡ whole faults.now) }
{
    let mut cases = each_off(alloc, faults)?;
    cases.push(Case::Undisturbed)?;
    Ok(cases)
}

/// Whether the case at an index is of a part.
fn is_in_part(part: Part, index: usize) -> bool
    ensures { result ≡ is_in_part part index }
{
    part.of != 0 && index as u64 % part.of == part.number.saturating_sub(1)
}

/// Puts the case at an index last, where it is of a part.
fn push_if(cases: &mut Vec<Case>, part: Part, index: usize, case: Case) -> Result<(), NoMemory>
    ensures { OnOk result (cases.new.items ≡ cases.old.items
        ++ one_if (is_in_part part index) case) }
{
    if is_in_part(part, index) {
        cases.push(case)?;
    }
    Ok(())
}

/// The cases of a part.
#[tactic(auto, using(crate::proofs::Listing::part_step))]
fn in_part(alloc: Global, part: Part, cases: &[Case]) -> Result<Vec<Case>, NoMemory>
    ensures { IfOk result (λ list. list.items ≡ in_part part 0 cases.now) }
{
    let mut list = Vec::new(alloc);
    for (index, case) in cases.iter().enumerate() {
        push_if(&mut list, part, index, *case)?;
    }
    Ok(list)
}

/// Those of the part that is asked for, or all.
fn parted(alloc: Global, part: Option<Part>, cases: Vec<Case>) -> Result<Vec<Case>, NoMemory>
    ensures { IfOk result (λ list. list.items ≡ parted part cases.items) }
{
    match part {
        None => Ok(cases),
        Some(part) => in_part(alloc, part, cases.as_slice()),
    }
}

/// The cases that are asked for.
pub(crate) fn cases_of(
    alloc: Global,
    asked: Asked,
    topology: &Topology,
) -> Result<Vec<Case>, NoMemory>
    ensures { IfOk result (λ list. list.items
        ≡ cases_of asked (length topology.now.links) (length topology.now.places)) }
{
    let faults = faults_asked(alloc, asked.pairs, topology)?;
    let cases = whole(alloc, faults.as_slice())?;
    parted(alloc, asked.part, cases)
}
