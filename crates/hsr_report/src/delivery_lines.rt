//! The lines of deliveries in a report.
ghost use Rattle.std.specs.Prelude.{◌≡◌, ◌++◌, OnOk};
ghost use Rattle.std.specs.List.{flat_map};
ghost use Rattle.hsr_naming.specs.Naming.{node_text};
ghost use Rattle.hsr_report.specs.DeliveryLines.{behind, delivery_line, delivery_lines, line_if, loss_text, nodes_text, parted, sent_text, summary_line, tally_text};

use hsr_deliveries::{Deliveries, Delivery, Loss};
use hsr_frame::NoMemory;
use hsr_naming::Naming;
use hsr_text::{put, put_count, put_mac, put_number};
use std::alloc::Global;

/// Puts a comma and a node.
fn put_next(text: &mut Vec<u8>, naming: &Naming, node: usize) -> Result<(), NoMemory>
    ensures { OnOk result (text.new.items ≡ text.old.items
        ++ behind (node_text naming.now) node) }
{
    put(text, ",")?;
    naming.put_node(text, node)
}

/// Puts nodes, each behind a comma.
#[tactic(auto, using(hsr_frame::proofs::OneMore::grown))]
fn put_others(text: &mut Vec<u8>, naming: &Naming, nodes: &[usize]) -> Result<(), NoMemory>
    ensures { OnOk result (text.new.items ≡ text.old.items
        ++ flat_map (behind (node_text naming.now)) nodes.now) }
{
    for node in nodes {
        put_next(text, naming, *node)?;
    }
    Ok(())
}

/// Puts nodes, parted by commas.
fn put_nodes(text: &mut Vec<u8>, naming: &Naming, nodes: &[usize]) -> Result<(), NoMemory>
    ensures { OnOk result (text.new.items ≡ text.old.items
        ++ parted (node_text naming.now) nodes.now) }
{
    match nodes.split_first() {
        // A word for none too, so that each line has as many words.
        None => put(text, "-"),
        Some((node, others)) => {
            naming.put_node(text, *node)?;
            put_others(text, naming, others)
        }
    }
}

/// Puts a loss last, as `<link>:<forth|back>:<down|cut|overrun>`. `NoMemory` if allocation fails; a front of it may stand there then.
#[tactic(auto, unfolding(crate::specs::DeliveryLines::loss_text))]
pub fn put_loss(text: &mut Vec<u8>, loss: Loss) -> Result<(), NoMemory>
    ensures { OnOk result (text.new.items ≡ text.old.items ++ loss_text loss) }
{
    put_number(text, loss.link as u64)?;
    put(text, ":")?;
    put(text, loss.dir.word())?;
    put(text, ":")?;
    put(text, loss.fate.word())
}

/// Puts a comma and a loss.
fn put_next_loss(text: &mut Vec<u8>, loss: Loss) -> Result<(), NoMemory>
    ensures { OnOk result (text.new.items ≡ text.old.items ++ behind loss_text loss) }
{
    put(text, ",")?;
    put_loss(text, loss)
}

/// Puts losses, each behind a comma.
#[tactic(auto, using(hsr_frame::proofs::OneMore::grown))]
fn put_other_losses(text: &mut Vec<u8>, losses: &[Loss]) -> Result<(), NoMemory>
    ensures { OnOk result (text.new.items ≡ text.old.items
        ++ flat_map (behind loss_text) losses.now) }
{
    for loss in losses {
        put_next_loss(text, *loss)?;
    }
    Ok(())
}

/// Puts losses, parted by commas.
fn put_losses(text: &mut Vec<u8>, losses: &[Loss]) -> Result<(), NoMemory>
    ensures { OnOk result (text.new.items ≡ text.old.items ++ parted loss_text losses.now) }
{
    match losses.split_first() {
        None => put(text, "-"),
        Some((loss, others)) => {
            put_loss(text, *loss)?;
            put_other_losses(text, others)
        }
    }
}

/// Puts which send it is, when it was, and to which address.
#[tactic(auto, unfolding(crate::specs::DeliveryLines::sent_text))]
fn put_sent(
    alloc: Global,
    text: &mut Vec<u8>,
    naming: &Naming,
    delivery: &Delivery,
) -> Result<(), NoMemory>
    ensures { OnOk result (text.new.items ≡ text.old.items
        ++ sent_text naming.now delivery.now) }
{
    put(text, "send ")?;
    naming.put_send(text, delivery.send)?;
    put_count(text, b" at ", delivery.at)?;
    put(text, " to ")?;
    put_mac(alloc, text, delivery.dst)
}

/// Puts who got a send.
#[tactic(auto, unfolding(crate::specs::DeliveryLines::nodes_text))]
fn put_got(text: &mut Vec<u8>, naming: &Naming, delivery: &Delivery) -> Result<(), NoMemory>
    ensures { OnOk result (text.new.items ≡ text.old.items
        ++ nodes_text naming.now delivery.now) }
{
    put_count(text, b" due ", delivery.due.as_slice().len() as u64)?;
    put(text, " missed ")?;
    put_nodes(text, naming, delivery.missed.as_slice())?;
    put(text, " twice ")?;
    put_nodes(text, naming, delivery.twice.as_slice())?;
    put(text, " strayed ")?;
    put_nodes(text, naming, delivery.strayed.as_slice())
}

/// Puts the line of a send.
#[tactic(auto, unfolding(crate::specs::DeliveryLines::delivery_line))]
fn put_line(
    alloc: Global,
    text: &mut Vec<u8>,
    naming: &Naming,
    delivery: &Delivery,
) -> Result<(), NoMemory>
    ensures { OnOk result (text.new.items ≡ text.old.items ++ delivery_line naming.now delivery.now) }
{
    put_sent(alloc, text, naming, delivery)?;
    put_got(text, naming, delivery)?;
    put(text, " lost ")?;
    put_losses(text, delivery.lost.as_slice())?;
    put(text, "\n")
}

/// Puts the line of a send, if it isn't complete.
fn put_line_if(
    alloc: Global,
    text: &mut Vec<u8>,
    naming: &Naming,
    delivery: &Delivery,
) -> Result<(), NoMemory>
    ensures { OnOk result (text.new.items ≡ text.old.items ++ line_if naming.now delivery.now) }
{
    if delivery.is_complete() {
        Ok(())
    } else {
        put_line(alloc, text, naming, delivery)
    }
}

/// Puts the lines of the sends that aren't complete.
#[tactic(auto, using(hsr_frame::proofs::OneMore::grown))]
fn put_lines(
    alloc: Global,
    text: &mut Vec<u8>,
    naming: &Naming,
    sends: &[Delivery],
) -> Result<(), NoMemory>
    ensures { OnOk result (text.new.items ≡ text.old.items ++ flat_map (line_if naming.now) sends.now) }
{
    for delivery in sends {
        put_line_if(alloc, text, naming, delivery)?;
    }
    Ok(())
}

/// Puts these numbers of sends, of all and of those that are complete.
#[tactic(auto, unfolding(crate::specs::DeliveryLines::tally_text))]
fn put_tally(text: &mut Vec<u8>, sends: usize, complete: usize) -> Result<(), NoMemory>
    ensures { OnOk result (text.new.items ≡ text.old.items ++ tally_text sends complete) }
{
    put_count(text, b"deliveries ", sends as u64)?;
    put_count(text, b" complete ", complete as u64)
}

/// Puts how many sends there are, and how many are complete.
#[tactic(auto, unfolding(crate::specs::DeliveryLines::summary_line))]
fn put_summary(text: &mut Vec<u8>, deliveries: &Deliveries) -> Result<(), NoMemory>
    ensures { OnOk result (text.new.items ≡ text.old.items
        ++ summary_line deliveries.now.sends.items) }
{
    let (sends, complete) = (deliveries.sends.as_slice().len(), deliveries.complete());
    put_tally(text, sends, complete)?;
    put(text, "\n")
}

/// Puts a line for each send that isn't complete, in order, then the line of how many sends there are and how many are
/// complete (RULES, The report). Moments are in microseconds. `NoMemory` if allocation fails; a front of the lines may
/// stand there then.
pub fn put_deliveries(
    alloc: Global,
    text: &mut Vec<u8>,
    naming: &Naming,
    deliveries: &Deliveries,
) -> Result<(), NoMemory>
    ensures { OnOk result (text.new.items ≡ text.old.items
        ++ delivery_lines naming.now deliveries.now.sends.items) }
{
    put_lines(alloc, text, naming, deliveries.sends.as_slice())?;
    put_summary(text, deliveries)
}
