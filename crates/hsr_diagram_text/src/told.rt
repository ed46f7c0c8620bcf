//! Sends that aren't complete.
ghost use Rattle.std.specs.Prelude.{◌≡◌, ◌++◌, IfOk, OnOk};
ghost use Rattle.std.specs.List.{flat_map};
ghost use Rattle.hsr_timeline.specs.Fronts.{lists_of};
ghost use Rattle.hsr_diagram_text.specs.Told.{at_text, incomplete_words, loss_text, losses_text, more_words, next_loss};

use crate::moments::put_moment;
use crate::sends::{put_nodes, put_send};
use hsr_deliveries::{Delivery, Loss};
use hsr_frame::NoMemory;
use hsr_text::{put, put_number};
use std::alloc::Global;

/// Puts a loss last: link, direction and fate.
#[tactic(auto, unfolding(crate::specs::Told::loss_text))]
fn put_loss(text: &mut Vec<u8>, loss: Loss) -> Result<(), NoMemory>
    ensures { OnOk result (text.new.items ≡ text.old.items ++ loss_text loss) }
{
    put(text, "link ")?;
    put_number(text, loss.link as u64)?;
    put(text, " ")?;
    put(text, loss.dir.word())?;
    put(text, " ")?;
    put(text, loss.fate.word())
}

/// Puts a loss last, behind a comma.
fn put_next_loss(text: &mut Vec<u8>, loss: Loss) -> Result<(), NoMemory>
    ensures { OnOk result (text.new.items ≡ text.old.items ++ next_loss loss) }
{
    put(text, ", ")?;
    put_loss(text, loss)
}

/// Puts losses last, each behind a comma.
#[tactic(auto, using(hsr_frame::proofs::OneMore::grown))]
fn put_next_losses(text: &mut Vec<u8>, losses: &[Loss]) -> Result<(), NoMemory>
    ensures { OnOk result (text.new.items ≡ text.old.items ++ flat_map next_loss losses.now) }
{
    for loss in losses {
        put_next_loss(text, *loss)?;
    }
    Ok(())
}

/// Puts losses last, parted by commas; nothing where there are none.
fn put_losses(text: &mut Vec<u8>, losses: &[Loss]) -> Result<(), NoMemory>
    ensures { OnOk result (text.new.items ≡ text.old.items ++ losses_text losses.now) }
{
    match losses.split_first() {
        None => Ok(()),
        Some((loss, others)) => {
            put(text, "; lost on ")?;
            put_loss(text, *loss)?;
            put_next_losses(text, others)
        }
    }
}

/// Puts a send and its moment last.
#[tactic(auto, unfolding(crate::specs::Told::at_text))]
fn put_at(text: &mut Vec<u8>, names: &[Vec<u8>], delivery: &Delivery) -> Result<(), NoMemory>
    ensures { OnOk result (text.new.items ≡ text.old.items
        ++ at_text (lists_of names.now) delivery.now) }
{
    put_send(text, names, delivery.send)?;
    put(text, " at ")?;
    put_moment(text, delivery.at)
}

/// A send that isn't complete: its moment, which nodes missed it, took it up twice, or took it up though it wasn't due
/// there, and where copies of it were lost. `NoMemory` if allocation fails.
#[tactic(auto, unfolding(crate::specs::Told::incomplete_words))]
pub fn incomplete_words(
    alloc: Global,
    names: &[Vec<u8>],
    delivery: &Delivery,
) -> Result<Vec<u8>, NoMemory>
    ensures { IfOk result (λ words. words.items
        ≡ incomplete_words (lists_of names.now) delivery.now) }
{
    let mut words = Vec::new(alloc);
    put_at(&mut words, names, delivery)?;
    put_nodes(
        &mut words,
        names,
        "; missed by ",
        delivery.missed.as_slice(),
    )?;
    put_nodes(&mut words, names, "; twice at ", delivery.twice.as_slice())?;
    put_nodes(
        &mut words,
        names,
        "; strayed to ",
        delivery.strayed.as_slice(),
    )?;
    put_losses(&mut words, delivery.lost.as_slice())?;
    Ok(words)
}

/// How many more sends aren't complete. `NoMemory` if allocation fails.
#[tactic(auto, unfolding(crate::specs::Told::more_words))]
pub fn more_words(alloc: Global, count: usize) -> Result<Vec<u8>, NoMemory>
    ensures { IfOk result (λ words. words.items ≡ more_words count) }
{
    let mut words = Vec::new(alloc);
    put(&mut words, "and ")?;
    put_number(&mut words, count as u64)?;
    put(&mut words, " more that aren't complete")?;
    Ok(words)
}
