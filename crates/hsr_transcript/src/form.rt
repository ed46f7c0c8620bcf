//! The form of a whole text, read section by section.
//!
//! Each function reads one section and hands what it has to the next one, so that each loop and each early return has a
//! proof of its own. Faults are handed on by `match` and not by `?`, which gets no proof where a clause says which
//! fault comes first.
ghost use Rattle.std.specs.Prelude.{◌≡◌, ◌+◌, ◌≤◌, ◌<◌, ◌^◌, ℕ, List, IfOk, length};
ghost use Rattle.std.specs.Io.Buffered.{reader_remaining};
ghost use Rattle.hsr_transcript.specs.Form.{carried_on, end_on, form_of, links_on, main_on, nodes_on, records_at, records_on, rows_at, said_at, table_on};
ghost use Rattle.hsr_transcript_lines.specs.Lines.{head, line_count};
ghost use Rattle.hsr_transcript.specs.Items.{entries_of, rows_of};
ghost use Rattle.hsr_transcript.specs.Plain.{plain_view};
ghost use Rattle.hsr_transcript.specs.CodeReads.{Gives, Says};

use crate::fault::ReadFault;
use crate::plain::Plain;
use crate::sections::{Progress, fixed, nothing_more, section, version};
use hsr_frame::NoMemory;
use hsr_link::Row;
use hsr_node::{Entry, Place};
use hsr_text::{BUFFER_SIZE, TimeUnit};
use hsr_topology::End;
use hsr_transcript_lines::{EntryLine, LinkLine, NumberLine, PlaceLine, RowLine, put_number};
use std::alloc::Global;
use std::io::{BufReader, Read};

/// Reads the record of each node, with moments in this unit.
fn records<R: Read>(
    unit: TimeUnit,
    nodes: &[Place],
    alloc: Global,
    reader: &mut BufReader<R>,
    progress: &mut Progress,
) -> Result<Vec<Vec<Entry>>, ReadFault>
    requires { progress.old.number + progress.old.reads < 2 ^ 64 }
    ensures given { Gives entries_of (reader_remaining R.remaining reader.old)
        (reader_remaining R.remaining reader.new) progress.old.number progress.new.number result
        (records_at unit nodes.now) }
    ensures counts { progress.new.number + progress.new.reads
        ≤ progress.old.number + progress.old.reads }
    ensures paired { IfOk result (λ v. length v.items ≡ length nodes.now) }
    ensures numbered { IfOk result (λ v. progress.new.number
        ≡ progress.old.number + line_count (entries_of v)) }
{
    let mut records = Vec::new(alloc);
    // By index, since the place of a node and its record go together.
    for i in 0..nodes.len() {
        let place = &nodes[i];
        match record(unit, place, alloc, reader, progress) {
            Ok(record) => {
                records.push(record)?;
            }
            Err(fault) => return Err(fault),
        }
    }
    Ok(records)
}

/// Reads the record of a node.
#[tactic(auto, unfolding(hsr_transcript_lines::specs::Parsed::entry_of))]
fn record<R: Read>(
    unit: TimeUnit,
    place: &Place,
    alloc: Global,
    reader: &mut BufReader<R>,
    progress: &mut Progress,
) -> Result<Vec<Entry>, ReadFault>
    requires { progress.old.number + progress.old.reads < 2 ^ 64 }
    ensures given { Gives (λ v. v.items) (reader_remaining R.remaining reader.old)
        (reader_remaining R.remaining reader.new) progress.old.number progress.new.number result
        (record_at unit place.now) }
    ensures counts { progress.new.number + progress.new.reads
        ≤ progress.old.number + progress.old.reads }
    ensures numbered { IfOk result (λ v. progress.new.number
        ≡ progress.old.number + 1 + length v.items) }
{
    section(
        b"record",
        &EntryLine { alloc, unit, place },
        alloc,
        reader,
        progress,
    )
}

ghost use Rattle.hsr_transcript.specs.Form.{record_at, section_at};
ghost use Rattle.hsr_transcript_lines.specs.Parsed.{entry_of, row_of};
ghost use Rattle.std.specs.Prelude.{codes};

/// Reads the rows of a link.
#[tactic(auto, unfolding(hsr_transcript_lines::specs::Parsed::row_of))]
fn carried<R: Read>(
    alloc: Global,
    reader: &mut BufReader<R>,
    progress: &mut Progress,
) -> Result<Vec<Row>, ReadFault>
    requires { progress.old.number + progress.old.reads < 2 ^ 64 }
    ensures given { Gives (λ v. v.items) (reader_remaining R.remaining reader.old)
        (reader_remaining R.remaining reader.new) progress.old.number progress.new.number result
        (section_at (codes "carried") row_of) }
    ensures counts { progress.new.number + progress.new.reads
        ≤ progress.old.number + progress.old.reads }
{
    section(b"carried", &RowLine, alloc, reader, progress)
}

/// Reads the rows of each link.
fn rows<R: Read>(
    links: &[[End; 2]],
    alloc: Global,
    reader: &mut BufReader<R>,
    progress: &mut Progress,
) -> Result<Vec<Vec<Row>>, ReadFault>
    requires { progress.old.number + progress.old.reads < 2 ^ 64 }
    ensures given { Gives rows_of (reader_remaining R.remaining reader.old)
        (reader_remaining R.remaining reader.new) progress.old.number progress.new.number result
        (rows_at links.now) }
    ensures counts { progress.new.number + progress.new.reads
        ≤ progress.old.number + progress.old.reads }
{
    let mut rows = Vec::new(alloc);
    for _ in links {
        match carried(alloc, reader, progress) {
            Ok(of_link) => {
                rows.push(of_link)?;
            }
            Err(fault) => return Err(fault),
        }
    }
    Ok(rows)
}

/// Reads the last line.
#[tactic(auto, using(crate::proofs::Parts::last_told, crate::proofs::Parts::bind_fails), unfolding(crate::specs::Form::end_on))]
fn end<R: Read>(
    plain: Plain,
    alloc: Global,
    reader: &mut BufReader<R>,
    progress: &mut Progress,
) -> Result<Plain, ReadFault>
    requires { progress.old.number + progress.old.reads < 2 ^ 64 }
    ensures given { Gives plain_view (reader_remaining R.remaining reader.old)
        (reader_remaining R.remaining reader.new) progress.old.number progress.new.number result
        (end_on (plain_view plain)) }
    ensures counts { progress.new.number + progress.new.reads
        ≤ progress.old.number + progress.old.reads }
{
    match fixed(b"end", alloc, reader, progress) {
        Ok(()) => Ok(plain),
        Err(fault) => Err(fault),
    }
}

/// Reads what follows the records.
#[tactic(auto, using(crate::proofs::Parts::bind_told, crate::proofs::Parts::bind_fails), unfolding(crate::specs::Form::carried_on))]
fn behind_records<R: Read>(
    unit: TimeUnit,
    nodes: Vec<Place>,
    links: Vec<[End; 2]>,
    main: Vec<u64>,
    records: Vec<Vec<Entry>>,
    alloc: Global,
    reader: &mut BufReader<R>,
    progress: &mut Progress,
) -> Result<Plain, ReadFault>
    requires reads { progress.old.number + progress.old.reads ≤ 2 ^ 40 + 1 }
    requires lines { 6 + length nodes.items + length links.items + length main.items + line_count
        (entries_of records) ≤ progress.old.number }
    requires paired { length records.items ≡ length nodes.items }
    ensures given { Gives plain_view (reader_remaining R.remaining reader.old)
        (reader_remaining R.remaining reader.new) progress.old.number progress.new.number result
        (carried_on unit nodes.items links.items main.items (entries_of records)) }
    ensures counts { progress.new.number + progress.new.reads
        ≤ progress.old.number + progress.old.reads }
{
    match rows(links.as_slice(), alloc, reader, progress) {
        Ok(carried) => {
            let plain = Plain {
                unit,
                nodes,
                links,
                main,
                records,
                carried,
            };
            end(plain, alloc, reader, progress)
        }
        Err(fault) => Err(fault),
    }
}

/// Reads what follows the order of the main worker's entries.
#[tactic(auto, using(crate::proofs::Parts::bind_told, crate::proofs::Parts::bind_fails), unfolding(crate::specs::Form::records_on))]
fn behind_main<R: Read>(
    unit: TimeUnit,
    nodes: Vec<Place>,
    links: Vec<[End; 2]>,
    main: Vec<u64>,
    alloc: Global,
    reader: &mut BufReader<R>,
    progress: &mut Progress,
) -> Result<Plain, ReadFault>
    requires reads { progress.old.number + progress.old.reads ≤ 2 ^ 40 + 1 }
    requires lines { 6 + length nodes.items + length links.items + length main.items
        ≤ progress.old.number }
    ensures given { Gives plain_view (reader_remaining R.remaining reader.old)
        (reader_remaining R.remaining reader.new) progress.old.number progress.new.number result
        (records_on unit nodes.items links.items main.items) }
    ensures counts { progress.new.number + progress.new.reads
        ≤ progress.old.number + progress.old.reads }
{
    match records(unit, nodes.as_slice(), alloc, reader, progress) {
        Ok(records) => behind_records(unit, nodes, links, main, records, alloc, reader, progress),
        Err(fault) => Err(fault),
    }
}

/// Reads what follows the links.
#[tactic(auto, using(crate::proofs::Parts::bind_told, crate::proofs::Parts::bind_fails), unfolding(crate::specs::Form::main_on, hsr_transcript_lines::specs::Parsed::turn_of))]
fn behind_links<R: Read>(
    unit: TimeUnit,
    nodes: Vec<Place>,
    links: Vec<[End; 2]>,
    alloc: Global,
    reader: &mut BufReader<R>,
    progress: &mut Progress,
) -> Result<Plain, ReadFault>
    requires reads { progress.old.number + progress.old.reads ≤ 2 ^ 40 + 1 }
    requires lines { 5 + length nodes.items + length links.items ≤ progress.old.number }
    ensures given { Gives plain_view (reader_remaining R.remaining reader.old)
        (reader_remaining R.remaining reader.new) progress.old.number progress.new.number result
        (main_on unit nodes.items links.items) }
    ensures counts { progress.new.number + progress.new.reads
        ≤ progress.old.number + progress.old.reads }
{
    match section(b"main", &NumberLine, alloc, reader, progress) {
        Ok(main) => behind_main(unit, nodes, links, main, alloc, reader, progress),
        Err(fault) => Err(fault),
    }
}

/// Reads what follows the nodes.
#[tactic(auto, using(crate::proofs::Parts::bind_told, crate::proofs::Parts::bind_fails), unfolding(crate::specs::Form::links_on, hsr_transcript_lines::specs::Parsed::link_of))]
fn behind_nodes<R: Read>(
    unit: TimeUnit,
    nodes: Vec<Place>,
    alloc: Global,
    reader: &mut BufReader<R>,
    progress: &mut Progress,
) -> Result<Plain, ReadFault>
    requires reads { progress.old.number + progress.old.reads ≤ 2 ^ 40 + 1 }
    requires lines { 4 + length nodes.items ≤ progress.old.number }
    ensures given { Gives plain_view (reader_remaining R.remaining reader.old)
        (reader_remaining R.remaining reader.new) progress.old.number progress.new.number result
        (links_on unit nodes.items) }
    ensures counts { progress.new.number + progress.new.reads
        ≤ progress.old.number + progress.old.reads }
{
    let places = nodes.as_slice();
    match section(b"links", &LinkLine { places }, alloc, reader, progress) {
        Ok(links) => behind_links(unit, nodes, links, alloc, reader, progress),
        Err(fault) => Err(fault),
    }
}

/// Reads what follows the first two lines.
#[tactic(auto, using(crate::proofs::Parts::bind_told, crate::proofs::Parts::bind_fails), unfolding(crate::specs::Form::nodes_on, hsr_transcript_lines::specs::Parsed::place_of))]
fn behind_table<R: Read>(
    unit: TimeUnit,
    alloc: Global,
    reader: &mut BufReader<R>,
    progress: &mut Progress,
) -> Result<Plain, ReadFault>
    requires reads { progress.old.number + progress.old.reads ≤ 2 ^ 40 + 1 }
    requires lines { 3 ≤ progress.old.number }
    ensures given { Gives plain_view (reader_remaining R.remaining reader.old)
        (reader_remaining R.remaining reader.new) progress.old.number progress.new.number result (nodes_on unit) }
    ensures counts { progress.new.number + progress.new.reads
        ≤ progress.old.number + progress.old.reads }
{
    match section(b"nodes", &PlaceLine { alloc }, alloc, reader, progress) {
        Ok(nodes) => behind_nodes(unit, nodes, alloc, reader, progress),
        Err(fault) => Err(fault),
    }
}

/// The line of the tables.
fn table_line(alloc: Global, capacity: usize) -> Result<Vec<u8>, NoMemory>
    ensures { IfOk result (λ line. line.items ≡ head (codes "table") capacity) }
{
    let mut line = Vec::new(alloc);
    // The reader knows the size of its tables, so the line is formed and compared, and not read.
    line.extend_from_slice(b"table")?;
    put_number(&mut line, capacity as u64)?;
    Ok(line)
}

/// Reads what follows the first line, of tables with `capacity` entries, with moments in this unit.
#[tactic(auto, using(crate::proofs::Parts::bind_told, crate::proofs::Parts::bind_fails), unfolding(crate::specs::Form::table_on))]
fn behind_version<R: Read>(
    capacity: usize,
    unit: TimeUnit,
    alloc: Global,
    reader: &mut BufReader<R>,
    progress: &mut Progress,
) -> Result<Plain, ReadFault>
    requires reads { progress.old.number + progress.old.reads ≤ 2 ^ 40 + 1 }
    requires lines { 2 ≤ progress.old.number }
    ensures given { Gives plain_view (reader_remaining R.remaining reader.old)
        (reader_remaining R.remaining reader.new) progress.old.number progress.new.number result
        (table_on capacity unit) }
    ensures counts { progress.new.number + progress.new.reads
        ≤ progress.old.number + progress.old.reads }
{
    let Ok(line) = table_line(alloc, capacity) else {
        return Err(ReadFault::NoMemory);
    };
    match fixed(line.as_slice(), alloc, reader, progress) {
        Ok(()) => behind_table(unit, alloc, reader, progress),
        Err(fault) => Err(fault),
    }
}

/// Reads all lines of a text.
#[tactic(auto, using(crate::proofs::Parts::bind_told, crate::proofs::Parts::bind_fails), unfolding(crate::specs::Form::said_at))]
fn all_lines<R: Read>(
    capacity: usize,
    alloc: Global,
    reader: &mut BufReader<R>,
    progress: &mut Progress,
) -> Result<Plain, ReadFault>
    requires reads { progress.old.number + progress.old.reads ≤ 2 ^ 40 + 1 }
    requires lines { 1 ≤ progress.old.number }
    ensures given { Gives plain_view (reader_remaining R.remaining reader.old)
        (reader_remaining R.remaining reader.new) progress.old.number progress.new.number result (said_at capacity) }
    ensures counts { progress.new.number + progress.new.reads
        ≤ progress.old.number + progress.old.reads }
{
    match version(alloc, reader, progress) {
        Ok(unit) => behind_version(capacity, unit, alloc, reader, progress),
        Err(fault) => Err(fault),
    }
}

/// Reads what the lines of a whole text say that is in form, of tables with `capacity` entries.
#[tactic(auto, using(crate::proofs::Parts::form_told, crate::proofs::Parts::form_more, crate::proofs::Parts::form_fails))]
fn whole<R: Read>(
    capacity: usize,
    alloc: Global,
    reader: &mut BufReader<R>,
) -> Result<Plain, ReadFault>
    ensures { Says plain_view (reader_remaining R.remaining reader.old) result (form_of capacity) }
{
    let mut progress = Progress::new(alloc);
    match all_lines(capacity, alloc, reader, &mut progress) {
        // What follows `end` is a fault too, so that a text is the one text of its run.
        Ok(plain) => match nothing_more(reader, &mut progress) {
            Ok(()) => Ok(plain),
            Err(fault) => Err(fault),
        },
        Err(fault) => Err(fault),
    }
}

/// Reads what a whole text says that is in form, of tables with `capacity` entries.
/// Lines have at most 8192 octets, and a text takes at most 2^40 reads. `Version` where the first line is another
/// one; `BadLine` with the number, from 1, of the lowest line that is out of form, or names another size of tables;
/// `End` where the text breaks off; `Read` where the reader fails or takes too many reads; `NoMemory` if allocation
/// fails. Whether the values fit together isn't asked.
pub fn read_plain<R: Read>(
    capacity: usize,
    alloc: Global,
    reader: &mut R,
) -> Result<Plain, ReadFault>
    ensures { Says plain_view (R.remaining reader.old) result (form_of capacity) }
{
    match BufReader::with_capacity(alloc, BUFFER_SIZE, reader) {
        Ok(mut buffered) => whole(capacity, alloc, &mut buffered),
        Err(_) => Err(ReadFault::NoMemory),
    }
}
