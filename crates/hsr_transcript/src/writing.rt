//! The text of a closed run, written.
ghost use Rattle.std.specs.Prelude.{◌≡◌, ◌<◌, ◌^◌, ℕ, ◌++◌, ◌∷◌, [], OnOk, IfOk, codes, length, map};
ghost use Rattle.std.specs.List.{AllByRecursion};
ghost use Rattle.std.specs.Io.KnownBytes.{Appends, Keeps};
ghost use Rattle.hsr_run_laws.specs.Run.{record_of, rows_of};
ghost use Rattle.hsr_text.specs.declared.time_unit.TimeUnit.TheVariants.{Microseconds};
ghost use Rattle.hsr_transcript.specs.Fits.{AreEntriesFit, AreRowsFit, Fits};
ghost use Rattle.hsr_transcript_lines.specs.Fits.{IsPlaceFit};
ghost use Rattle.hsr_transcript_lines.specs.Lines.{head, lines_each, section, text_of};
ghost use Rattle.hsr_transcript_lines.specs.Spelled.{link_text, place_text};
ghost use Rattle.hsr_transcript.specs.Transcript.{carried_lines, record_lines, run_text};
ghost use Rattle.hsr_transcript.specs.Written.{Written};

use crate::fault::WriteFault;
use hsr_finished_run::{Closed, Planned};
use hsr_frame::NoMemory;
use hsr_text::TimeUnit;
use hsr_transcript_lines::{
    EntryLine, LinkLine, NumberLine, PlaceLine, RowLine, put_head, put_section,
};
use std::alloc::Global;
use std::io::Write;

/// The node of each entry of the main worker, in order.
fn turns(alloc: Global, plan: &[Planned]) -> Result<Vec<u64>, NoMemory>
    ensures { IfOk result (λ turns. turns.items ≡ map (λ p. p.node) plan.now) }
{
    let turns = plan
        .iter()
        .map(|planned| planned.node as u64)
        .collect(alloc)?;
    Ok(turns)
}

/// Puts the lines up to the order of the main worker's entries.
fn put_front<const C: usize>(
    alloc: Global,
    text: &mut Vec<u8>,
    closed: &Closed<C>,
) -> Result<(), NoMemory>
    ensures written { OnOk result (text.new.items
        ≡ text.old.items
        ++ text_of (said_front closed.now.run.capacity (said_in Microseconds closed.now))) }
    ensures places { OnOk result (AllByRecursion IsPlaceFit closed.now.run.places) }
    ensures plan { OnOk result (length closed.now.plan < 2 ^ 64) }
{
    let topology = closed.topology();
    let places = topology.places();
    text.extend_from_slice(b"hsr-bench 2\n")?;
    put_head(text, b"table", C)?;
    put_section(&PlaceLine { alloc }, text, b"nodes", places)?;
    put_section(&LinkLine { places }, text, b"links", topology.links())?;
    let order = turns(alloc, closed.plan())?;
    put_section(&NumberLine, text, b"main", order.as_slice())?;
    Ok(())
}

ghost use Rattle.hsr_transcript.specs.Transcript.{said_front, said_in};

/// Puts the record of each node.
fn put_records<const C: usize>(
    alloc: Global,
    text: &mut Vec<u8>,
    closed: &Closed<C>,
) -> Result<(), NoMemory>
    ensures written { OnOk result (text.new.items
        ≡ text.old.items
        ++ text_of (lines_each
        (record_lines Microseconds) closed.now.run.places closed.now.run.records)) }
    ensures fit { OnOk result ((k : ℕ) → k < length closed.now.run.places
        → AreEntriesFit (record_of closed.now.run k)) }
{
    let places = closed.topology().places();
    // By index, since the place of a node and its record go together.
    for i in 0..places.len() {
        let place = &places[i];
        put_section(
            &EntryLine {
                alloc,
                unit: TimeUnit::Microseconds,
                place,
            },
            text,
            b"record",
            closed.entries(i),
        )?;
    }
    Ok(())
}

/// Puts the rows of each link.
fn put_carried<const C: usize>(text: &mut Vec<u8>, closed: &Closed<C>) -> Result<(), NoMemory>
    ensures written { OnOk result (text.new.items
        ≡ text.old.items
        ++ text_of (lines_each (λ _. carried_lines) closed.now.run.links closed.now.run.rows)) }
    ensures fit { OnOk result ((l : ℕ) → l < length closed.now.run.links
        → AreRowsFit (rows_of closed.now.run l)) }
{
    let links = closed.topology().links();
    for i in 0..links.len() {
        put_section(&RowLine, text, b"carried", closed.rows(i))?;
    }
    Ok(())
}

/// The whole text of a run.
#[tactic(auto, unfolding(crate::specs::Transcript::said_lines))]
fn whole_text<const C: usize>(alloc: Global, closed: &Closed<C>) -> Result<Vec<u8>, NoMemory>
    ensures written { IfOk result (λ text. text.items ≡ run_text closed.now) }
    ensures fits { OnOk result (Fits closed.now) }
{
    let mut text = Vec::new(alloc);
    put_front(alloc, &mut text, closed)?;
    put_records(alloc, &mut text, closed)?;
    put_carried(&mut text, closed)?;
    text.extend_from_slice(b"end\n")?;
    Ok(text)
}

/// Writes the text of a closed run, of version 2, with moments in microseconds: nodes, links, the order of the main worker's
/// entries, each node's record and each link's rows. The text is formed whole before the first octet is written, so that
/// `NoMemory` leaves the writer as it was; after `Write` some of the text may stand on it.
pub fn write<const C: usize, W: Write>(
    alloc: Global,
    closed: &Closed<C>,
    writer: &mut W,
) -> Result<(), WriteFault>
    ensures written { Written (W.contents writer.old) (W.contents writer.new)
        (run_text closed.now) result }
    ensures fits { OnOk result (Fits closed.now) }
{
    // Formed whole before the first octet is written, so that a refused growth leaves the writer as it was.
    let Ok(text) = whole_text(alloc, closed) else {
        return Err(WriteFault::NoMemory);
    };
    match writer.write_all(text.as_slice()) {
        Ok(()) => Ok(()),
        Err(_) => Err(WriteFault::Write),
    }
}
