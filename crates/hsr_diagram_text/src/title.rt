//! The title of a picture.
ghost use Rattle.std.specs.Prelude.{◌≡◌, ◌++◌, count_by, IfOk, OnOk};
ghost use Rattle.hsr_diagram_text.specs.Title.{is_complete_in, run_words, shown_words, title_words};

use hsr_deliveries::Delivery;
use hsr_diagram::{Picture, Sent};
use hsr_finished_run::Closed;
use hsr_frame::NoMemory;
use hsr_text::{put, put_number};
use std::alloc::Global;

/// Whether a send that is listed is complete.
fn is_complete(deliveries: &[Delivery], sent: &Sent) -> bool
    ensures { result ≡ is_complete_in deliveries.now sent.now }
{
    match deliveries.get(sent.number) {
        Some(delivery) => delivery.is_complete(),
        None => false,
    }
}

/// How many of the sends that are listed are complete.
fn complete(deliveries: &[Delivery], sends: &[Sent]) -> usize
    ensures { result ≡ count_by (is_complete_in deliveries.now) sends.now }
{
    sends
        .iter()
        .filter(|sent| is_complete(deliveries, sent))
        .count()
}

/// Puts how large a run is last: its nodes, its links, and the entries of its tables.
fn put_run(text: &mut Vec<u8>, nodes: usize, links: usize, entries: usize) -> Result<(), NoMemory>
    ensures { OnOk result (text.new.items ≡ text.old.items ++ run_words nodes links entries) }
{
    put(text, "HSR run: ")?;
    put_number(text, nodes as u64)?;
    put(text, " nodes, ")?;
    put_number(text, links as u64)?;
    put(text, " links, tables of ")?;
    put_number(text, entries as u64)?;
    Ok(())
}

/// Puts how much of a run is shown last: sends, how many of these are complete, and copies.
fn put_shown(
    text: &mut Vec<u8>,
    sends: usize,
    complete: usize,
    copies: usize,
) -> Result<(), NoMemory>
    ensures { OnOk result (text.new.items ≡ text.old.items ++ shown_words sends complete copies) }
{
    put(text, "; shown: sends ")?;
    put_number(text, sends as u64)?;
    put(text, ", complete ")?;
    put_number(text, complete as u64)?;
    put(text, ", copies ")?;
    put_number(text, copies as u64)?;
    Ok(())
}

/// The title of a picture: how large the run is, and how much of it is shown. `NoMemory` if allocation fails.
pub fn title_words<const C: usize>(
    alloc: Global,
    closed: &Closed<C>,
    picture: &Picture,
) -> Result<Vec<u8>, NoMemory>
    ensures { IfOk result (λ words. words.items ≡ title_words closed.now.run picture.now) }
{
    let topology = closed.topology();
    let sends = picture.sends.as_slice();
    let complete = complete(picture.deliveries.sends.as_slice(), sends);
    let copies = picture.arrows.as_slice().len();
    let mut words = Vec::new(alloc);
    put_run(
        &mut words,
        topology.places().len(),
        topology.links().len(),
        C,
    )?;
    put_shown(&mut words, sends.len(), complete, copies)?;
    Ok(words)
}
