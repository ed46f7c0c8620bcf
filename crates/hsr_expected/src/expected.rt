//! The addresses of the nodes of a plan.
ghost use Rattle.std.specs.Prelude.{◌≡◌, ◌∷◌, ◌++◌, [], Some, None, IfErr, IfOk, OnOk};
ghost use Rattle.std.specs.Str.{IsUtf8};
ghost use Rattle.hsr_expected.specs.Expected.{expected_in, fault_of, macs_at, macs_by, macs_of};
ghost use Rattle.hsr_expected.specs.declared.expected.ExpectedFault.{ExpectedFault};
ghost use Rattle.hsr_expected.specs.declared.expected.ExpectedFault.TheVariants.{NoMemory as NoRoom, NoPlan};

use hsr_frame::{Mac, NoMemory};
use hsr_node::Place;
use hsr_plan_network::{Node, wire};
use hsr_plan_text::{What, read};
use std::alloc::Global;

/// Why a text tells no addresses.
#[derive(Clone, Copy, PartialEq, Eq)]
pub enum ExpectedFault {
    /// It is no plan.
    NoPlan,
    NoMemory,
}

// `from_gives` says which fault `?` makes, so that no clause takes want of memory for another fault.
impl From<NoMemory> for ExpectedFault {
    ghost from_gives = { λ _ fault. fault ≡ NoRoom };

    fn from(_refused: NoMemory) -> ExpectedFault {
        ExpectedFault::NoMemory
    }
}

/// What a fault of a plan means here.
fn fault_of(what: &What) -> ExpectedFault
    ensures { result ≡ fault_of what.now }
{
    match what {
        What::NoMemory => ExpectedFault::NoMemory,
        _ => ExpectedFault::NoPlan,
    }
}

/// Puts an address last.
fn put_mac(macs: &mut Vec<Mac>, mac: Mac) -> Result<(), NoMemory>
    ensures { OnOk result (macs.new.items ≡ macs.old.items ++ mac ∷ []) }
{
    macs.push(mac)?;
    Ok(())
}

/// Puts the addresses of a place last. A QuadBox has none.
fn put_macs(macs: &mut Vec<Mac>, place: &Place) -> Result<(), NoMemory>
    ensures { OnOk result (macs.new.items ≡ macs.old.items ++ macs_at place.now) }
{
    match place {
        Place::Danh { mac, mode: _ } => put_mac(macs, *mac),
        Place::RedBox { mac, mode: _ } => put_mac(macs, *mac),
        Place::QuadBox => Ok(()),
        Place::Station { macs: own } => {
            macs.extend_from_slice(own.as_slice())?;
            Ok(())
        }
    }
}

/// Puts the addresses of a node last.
fn put_node(macs: &mut Vec<Mac>, node: &Node) -> Result<(), NoMemory>
    ensures { OnOk result (macs.new.items ≡ macs.old.items ++ macs_by node.now) }
{
    put_macs(macs, &node.place)
}

/// The addresses of all nodes, in their order.
#[tactic(auto, using(crate::proofs::Macs::macs_all))]
fn macs_of(alloc: Global, nodes: &[Node]) -> Result<Vec<Mac>, NoMemory>
    ensures { IfOk result (λ macs. macs.items ≡ macs_of nodes.now) }
{
    let mut macs = Vec::new(alloc);
    for i in 0..nodes.len() {
        put_node(&mut macs, &nodes[i])?;
    }
    Ok(macs)
}

/// The addresses of the nodes and stations of the plan that a text is, in their order. `NoPlan` where it is none.
#[tactic(auto, unfolding(crate::specs::Expected::expected_in))]
fn expected_by(alloc: Global, text: &str) -> Result<Vec<Mac>, ExpectedFault>
    ensures some { IfOk result (λ macs. expected_in text.now ≡ Some macs.items) }
    ensures none { IfErr result (λ fault. fault ≡ NoPlan → expected_in text.now ≡ None) }
{
    let plan = match read(alloc, text) {
        Ok(plan) => plan,
        Err(fault) => return Err(fault_of(&fault.what)),
    };
    let wired = match wire(alloc, &plan.outline.network) {
        Ok(wired) => wired,
        Err(what) => return Err(fault_of(&what)),
    };
    let macs = macs_of(alloc, wired.nodes.as_slice())?;
    Ok(macs)
}

/// The addresses of the nodes and stations of the plan that a text is, in their order. `NoPlan` where it is none.
pub fn expected_of(alloc: Global, text: &[u8]) -> Result<Vec<Mac>, ExpectedFault>
    ensures some { IfOk result (λ macs. expected_in text.now ≡ Some macs.items) }
    ensures none { IfErr result (λ fault. fault ≡ NoPlan → IsUtf8 text.now
        → expected_in text.now ≡ None) }
{
    match str::from_utf8(text) {
        Ok(said) => expected_by(alloc, said),
        Err(_) => Err(ExpectedFault::NoPlan),
    }
}
