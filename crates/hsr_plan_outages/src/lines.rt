//! What is off, and the line of what that cuts off.
ghost use Rattle.std.specs.Prelude.{◌≡◌, ◌+◌, ◌-◌, ◌<◌, ◌++◌, codes, IfOk, OnOk};
ghost use Rattle.hsr_plan_outages.specs.Lines.{cut_text, cuts_text, fault_text, head_text, is_cutting, last_line, names_text, nodes_among, nodes_in, off_text, outage_line, outage_text};

use crate::names::{put_link, put_node};
use hsr_faults::{Cut, Fault, Nodes, Off, Outage};
use hsr_frame::NoMemory;
use hsr_plan_network::Node;
use hsr_text::{put, put_count, put_number, put_octets};
use hsr_topology::End;

// ---- what is off

/// Puts a link or a node that is off last.
fn put_off(text: &mut Vec<u8>, nodes: &[Node], links: &[[End; 2]], off: Off) -> Result<(), NoMemory>
    ensures { OnOk result (text.new.items ≡ text.old.items ++ off_text nodes.now links.now off) }
{
    match off {
        Off::Link(number) => {
            put_count(text, b"link ", number as u64)?;
            put_link(text, nodes, links, number)
        }
        Off::Node(number) => {
            put_count(text, b"node ", number as u64)?;
            put(text, " ")?;
            put_node(text, nodes, number)
        }
    }
}

/// Puts all that is off last, as `link 3 prot1.B qb2.A` or `node 4 qb2`, two behind one another. `NoMemory` if allocation fails; a front
/// of it may stand there then.
pub fn put_fault(
    text: &mut Vec<u8>,
    nodes: &[Node],
    links: &[[End; 2]],
    fault: Fault,
) -> Result<(), NoMemory>
    ensures { OnOk result (text.new.items ≡ text.old.items
        ++ fault_text nodes.now links.now fault) }
{
    match fault {
        Fault::One(off) => put_off(text, nodes, links, off),
        Fault::Two(first, second) => {
            put_off(text, nodes, links, first)?;
            put(text, ", ")?;
            put_off(text, nodes, links, second)
        }
    }
}

// ---- what is cut off

/// Puts a mark and the name of a node last, if it is in the set; and answers the mark of the next one.
#[tactic(auto, using(crate::proofs::Listing::name_there, crate::proofs::Listing::name_absent))]
fn put_if_missed(
    text: &mut Vec<u8>,
    nodes: &[Node],
    set: Nodes,
    number: usize,
    mark: &'static [u8],
) -> Result<&'static [u8], NoMemory>
    requires { number < 64 }
    ensures { IfOk result (λ next. text.new.items
        ++ names_text nodes.now next.now (nodes_among set (number + 1) (64 - (number + 1)))
        ≡ text.old.items ++ names_text nodes.now mark.now (nodes_among set number (64 - number))) }
{
    if !set.has(number) {
        return Ok(mark);
    }
    put_octets(text, mark)?;
    put_node(text, nodes, number)?;
    Ok(b",")
}

/// Puts the names of the nodes of a set last, the first behind ` from `, each other one behind a comma.
#[tactic(auto, using(crate::proofs::Listing::none_above))]
fn put_missed(text: &mut Vec<u8>, nodes: &[Node], set: Nodes) -> Result<(), NoMemory>
    ensures { OnOk result (text.new.items ≡ text.old.items
        ++ names_text nodes.now (codes " from ") (nodes_in set)) }
{
    let mut mark: &'static [u8] = b" from ";
    for number in 0..64 {
        mark = put_if_missed(text, nodes, set, number, mark)?;
    }
    Ok(())
}

/// Puts a mark last, and sends of one node that are cut off from the same nodes, as `19 of prot1 from bcu1,bcu2`.
#[tactic(auto, unfolding(crate::specs::Lines::cut_text))]
fn put_cut(text: &mut Vec<u8>, nodes: &[Node], mark: &[u8], cut: &Cut) -> Result<(), NoMemory>
    ensures { OnOk result (text.new.items ≡ text.old.items
        ++ (mark.now ++ cut_text nodes.now cut.now)) }
{
    put_count(text, mark, cut.sends as u64)?;
    put(text, " of ")?;
    put_node(text, nodes, cut.sender)?;
    put_missed(text, nodes, cut.nodes)
}

/// Puts all that is cut off last, the first behind a colon, each other one behind a semicolon.
#[tactic(auto, using(crate::proofs::Listing::cuts_step))]
fn put_cuts(text: &mut Vec<u8>, nodes: &[Node], cuts: &[Cut]) -> Result<(), NoMemory>
    ensures { OnOk result (text.new.items ≡ text.old.items
        ++ cuts_text nodes.now (codes ": ") cuts.now) }
{
    let mut mark: &[u8] = b": ";
    for cut in cuts {
        put_cut(text, nodes, mark, cut)?;
        mark = b"; ";
    }
    Ok(())
}

// ---- lines

/// Puts what is off last, and how many sends are cut off, of so many in all.
#[tactic(auto, unfolding(crate::specs::Lines::head_text))]
fn put_head(
    text: &mut Vec<u8>,
    nodes: &[Node],
    links: &[[End; 2]],
    sends: usize,
    outage: &Outage,
) -> Result<(), NoMemory>
    ensures { OnOk result (text.new.items ≡ text.old.items
        ++ head_text nodes.now links.now sends outage.now) }
{
    put_fault(text, nodes, links, outage.fault)?;
    put_count(text, b" off: cut-off ", outage.sends as u64)?;
    put_count(text, b" of ", sends as u64)
}

/// Puts the line of what a fault cuts off last.
#[tactic(auto, unfolding(crate::specs::Lines::outage_line))]
fn put_line(
    text: &mut Vec<u8>,
    nodes: &[Node],
    links: &[[End; 2]],
    sends: usize,
    outage: &Outage,
) -> Result<(), NoMemory>
    ensures { OnOk result (text.new.items ≡ text.old.items
        ++ outage_line nodes.now links.now sends outage.now) }
{
    put_head(text, nodes, links, sends, outage)?;
    put_cuts(text, nodes, outage.cuts.as_slice())?;
    put(text, "\n")
}

/// Whether something is cut off.
pub(crate) fn is_cutting(outage: &Outage) -> bool
    ensures { result ≡ is_cutting outage.now }
{
    outage.sends != 0
}

/// Puts the line of what a fault cuts off last, where it cuts something off.
pub(crate) fn put_outage(
    text: &mut Vec<u8>,
    nodes: &[Node],
    links: &[[End; 2]],
    sends: usize,
    outage: &Outage,
) -> Result<(), NoMemory>
    ensures { OnOk result (text.new.items ≡ text.old.items
        ++ outage_text nodes.now links.now sends outage.now) }
{
    if is_cutting(outage) {
        put_line(text, nodes, links, sends, outage)?;
    }
    Ok(())
}

/// Puts how many of the faults cut something off last.
#[tactic(auto, unfolding(crate::specs::Lines::last_line))]
pub(crate) fn put_last(text: &mut Vec<u8>, cutting: usize, faults: usize) -> Result<(), NoMemory>
    ensures { OnOk result (text.new.items ≡ text.old.items ++ last_line cutting faults) }
{
    put_number(text, cutting as u64)?;
    put_count(text, b" of ", faults as u64)?;
    put(text, " with something cut off\n")
}
