//! The run of `node` over a reader and a writer.
ghost use Rattle.std.specs.Prelude.{◌≡◌, ◌≢◌, ◌<◌, ◌≤◌, ◌^◌, ℕ, IfErr, IfSome, List, OnOk, Option, Some, length};
ghost use Rattle.std.specs.Io.Buffered.{reader_remaining};
ghost use Rattle.hsr_text.specs.Lines.{ReadsFront, lines_of};
ghost use Rattle.hsr_text.specs.Words.{cut};
ghost use Rattle.hsr_duptable.specs.Table.{IsTableSize};
ghost use Rattle.hsr_node.specs.Place.{HasOwnAddress};
ghost use Rattle.hsr_node.specs.Step.{new_node};
ghost use Rattle.hsr_commands.specs.Output.{Ended, chosen_output, place_of};
ghost use Rattle.hsr_commands.specs.Run.{Finished, Ran, Served, Turned};
ghost use Rattle.hsr_commands.specs.declared.fault.Fault.TheVariants.{Read as ReadFailed};

use crate::fault::{Fault, Status};
use arrayvec::ArrayVec;
use hsr_node::{Node, Place};
use hsr_node_text::{Setting, answer_line, put_counters};
use hsr_options::{NodeOptions, NodeRole};
use hsr_table_size::at_size;
use hsr_text::{BUFFER_SIZE, Front, WordFault, granted_reads, line_there, next_line};
use std::alloc::Global;
use std::io::{BufRead, BufReader, Read, Write};

/// The most octets of a line, without its line feed.
const LINE_LIMIT: usize = 4096;

/// Room for the octets that a line spells, and for its answer, used again for each line.
#[derive(Drop)]
struct Answering {
    octets: Vec<u8>,
    text: Vec<u8>,
}

/// Room for a line, without its line feed, and for what its answer takes.
#[derive(Drop)]
struct Room {
    // Of a fixed size: a line of any length takes no more, and is refused.
    line: ArrayVec<u8, LINE_LIMIT>,
    answering: Answering,
}

/// Answers one line.
fn serve<W: Write, const C: usize>(
    alloc: Global,
    setting: &Setting,
    node: &mut Node<C>,
    number: u64,
    line: &[u8],
    writer: &mut W,
    answering: &mut Answering,
) -> Result<(), Fault>
    ensures { Served C setting.now node.old node.new number line.now (W.contents writer.old)
        (W.contents writer.new) result }
{
    let Answering { octets, text } = answering;
    match answer_line(alloc, setting, node, line, octets, text) {
        // Formed whole before it is written, so that a failed allocation leaves no half answer.
        Ok(()) => match writer.write_all(text.as_slice()) {
            Ok(()) => Ok(()),
            Err(_) => Err(Fault::Write),
        },
        Err(WordFault::Bad) => Err(Fault::Line(number)),
        Err(WordFault::Memory) => Err(Fault::Memory),
    }
}

/// Answers what was read of a text, and tells whether more may follow.
#[tactic(auto, using(crate::proofs::Turns::turned_line, crate::proofs::Turns::turned_line_err, crate::proofs::Turns::turned_rest, crate::proofs::Turns::turned_rest_err, crate::proofs::Turns::turned_none, crate::proofs::Turns::turned_long, crate::proofs::Turns::served_told))]
fn answer_front<W: Write, const C: usize>(
    alloc: Global,
    setting: &Setting,
    node: &mut Node<C>,
    number: u64,
    front: Front,
    writer: &mut W,
    room: &mut Room,
) -> Result<bool, Fault>
    ensures turned { (left rest : Option (List ℕ))
        → ReadsFront LINE_LIMIT left rest room.old.line.items front
        → Turned C setting.now left rest (W.contents writer.old) (W.contents writer.new) node.old node.new number result }
    ensures told { IfErr result (λ f. f ≢ ReadFailed) }
{
    let line = &room.line;
    let answering = &mut room.answering;
    match front {
        Front::TooLong => Err(Fault::Line(number)),
        Front::Line => match serve(
            alloc,
            setting,
            node,
            number,
            line.as_slice(),
            writer,
            answering,
        ) {
            Ok(()) => Ok(true),
            Err(fault) => Err(fault),
        },
        Front::Rest => {
            // Nothing behind the last line feed is no line.
            if line.is_empty() {
                return Ok(false);
            }
            match serve(
                alloc,
                setting,
                node,
                number,
                line.as_slice(),
                writer,
                answering,
            ) {
                Ok(()) => Ok(false),
                Err(fault) => Err(fault),
            }
        }
    }
}

/// Gathers the next line, however the reader cuts it into pieces, and answers it, and tells whether more may follow.
fn gathered_turn<R: Read, W: Write, const C: usize>(
    alloc: Global,
    setting: &Setting,
    node: &mut Node<C>,
    number: u64,
    reader: &mut BufReader<R>,
    reads: &mut u64,
    writer: &mut W,
    room: &mut Room,
) -> Result<bool, Fault>
    ensures turned { Turned C setting.now (reader_remaining R.remaining reader.old) (reader_remaining R.remaining reader.new)
        (W.contents writer.old) (W.contents writer.new) node.old node.new number result }
    ensures fewer { OnOk result (reads.new < reads.old) }
    ensures bounded { reads.new ≤ reads.old }
{
    let front = next_line(reader, reads, &mut room.line)?;
    answer_front(alloc, setting, node, number, front, writer, room)
}

/// Answers the next line, and tells whether more may follow.
fn turn<R: Read, W: Write, const C: usize>(
    alloc: Global,
    setting: &Setting,
    node: &mut Node<C>,
    number: u64,
    reader: &mut BufReader<R>,
    reads: &mut u64,
    writer: &mut W,
    room: &mut Room,
) -> Result<bool, Fault>
    ensures turned { Turned C setting.now (reader_remaining R.remaining reader.old) (reader_remaining R.remaining reader.new)
        (W.contents writer.old) (W.contents writer.new) node.old node.new number result }
    ensures fewer { OnOk result (reads.new < reads.old) }
    ensures bounded { reads.new ≤ reads.old }
{
    // Most lines stand whole in the buffer, and are answered where they stand.
    match line_there(reader.buffer(), LINE_LIMIT, *reads) {
        None => gathered_turn(alloc, setting, node, number, reader, reads, writer, room),
        Some(line) => {
            let taken = line.len() + 1;
            match serve(
                alloc,
                setting,
                node,
                number,
                line,
                writer,
                &mut room.answering,
            ) {
                Ok(()) => {
                    *reads -= taken as u64;
                    reader.consume(taken);
                    Ok(true)
                }
                Err(fault) => Err(fault),
            }
        }
    }
}

/// Writes the line at the end.
fn finish<W: Write, const C: usize>(
    node: &Node<C>,
    writer: &mut W,
    text: &mut Vec<u8>,
) -> Result<(), Fault>
    ensures { Finished C node.now (W.contents writer.old) (W.contents writer.new) result }
{
    text.clear();
    put_counters(text, &node.counters())?;
    match writer.write_all(text.as_slice()) {
        Ok(()) => Ok(()),
        Err(_) => Err(Fault::Write),
    }
}

/// Reads all lines with the reads that are granted, and answers each by a node that has done nothing.
#[tactic(auto, using(crate::proofs::Turns::way_begins, crate::proofs::Turns::way_on, crate::proofs::Turns::way_fails, crate::proofs::Turns::way_ends))]
fn answer_lines<R: Read, W: Write, const C: usize>(
    alloc: Global,
    reader: &mut BufReader<R>,
    writer: &mut W,
    reads: &mut u64,
    setting: &Setting,
    node: &mut Node<C>,
    room: &mut Room,
) -> Result<(), Fault>
    requires new { node.old ≡ new_node C setting.now.place }
    requires granted { reads.old ≡ 2 ^ 40 }
    ensures { Ran C setting.now (reader_remaining R.remaining reader.old) (W.contents writer.old)
        (W.contents writer.new) result }
{
    let mut number = 1u64;
    // It ends, since reads are counted.
    loop {
        match turn(alloc, setting, node, number, reader, reads, writer, room) {
            Ok(true) => number += 1,
            Ok(false) => return finish(node, writer, &mut room.answering.text),
            Err(fault) => return Err(fault),
        }
    }
}

/// Makes the node, and answers all lines with the reads that are granted.
fn run<R: Read, W: Write, const C: usize>(
    alloc: Global,
    reader: &mut BufReader<R>,
    writer: &mut W,
    reads: &mut u64,
    setting: &Setting,
) -> Result<(), Fault>
    requires station { HasOwnAddress setting.now.place }
    requires entries { IsTableSize C }
    requires granted { reads.old ≡ 2 ^ 40 }
    ensures { Ran C setting.now (reader_remaining R.remaining reader.old) (W.contents writer.old)
        (W.contents writer.new) result }
{
    let mut node = match Node::<C>::new(alloc, &setting.place) {
        Ok(node) => node,
        Err(_) => return Err(Fault::Memory),
    };
    let mut room = Room {
        line: ArrayVec::new(),
        answering: Answering {
            octets: Vec::new(alloc),
            text: Vec::new(alloc),
        },
    };
    // The loop is lent both: a return of a function that owns a node drops each kind of node in a proof of its own.
    answer_lines(alloc, reader, writer, reads, setting, &mut node, &mut room)
}

/// The kind of node that is chosen, with its address.
fn place_of(chosen: &NodeOptions) -> Place
    ensures value { result ≡ place_of chosen.now }
    ensures station { HasOwnAddress result }
{
    let (mac, mode) = (chosen.mac, chosen.mode);
    match chosen.role {
        NodeRole::Danh => Place::Danh { mac, mode },
        NodeRole::RedBox => Place::RedBox { mac, mode },
        NodeRole::QuadBox => Place::QuadBox,
    }
}

/// Answers the lines of a text by a node of the chosen kind, address, mode and size of tables; the lines tell moments in the chosen
/// unit. A line that is bad, that is none of this kind of node, or that has over 4096 octets ends the run as `Fault::Line`, counted from 1;
/// what was answered stands. `Fault::Read` where the reader fails or takes over 2^40 reads, `Fault::Write`, `Fault::Memory`.
pub fn node_run<R: Read, W: Write>(
    alloc: Global,
    reader: &mut R,
    writer: &mut W,
    chosen: &NodeOptions,
) -> Status
    ensures { IfSome (R.remaining reader.old) (λ text.
        Ended (W.contents writer.old) (W.contents writer.new) (chosen_output chosen.now (lines_of text)) result) }
{
    let Ok(mut lines) = BufReader::with_capacity(alloc, BUFFER_SIZE, reader) else {
        return Status::Fault(Fault::Memory);
    };
    let setting = Setting {
        place: place_of(chosen),
        unit: chosen.unit,
    };
    // A reader that never ends is given up after 2^40 reads, as one that fails (RULES, Fault lines).
    let mut reads = granted_reads();
    let ran = at_size!(chosen.table => run[_, W](alloc, &mut lines, writer, &mut reads, &setting));
    match ran {
        Ok(()) => Status::Certified,
        Err(fault) => Status::Fault(fault),
    }
}
