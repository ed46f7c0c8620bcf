//! What came of each run of a sweep, as rows of a page.
ghost use Rattle.std.specs.Prelude.{◌≡◌, length, IfOk, OnOk};
ghost use Rattle.std.specs.Str.{IsTrimAsciiEnd};
ghost use Rattle.hsr_plan_report.specs.Cases.{AddsRow, AreCaseRows, IsCaseRow, counts_of, tally_of};
ghost use Rattle.hsr_plan_sweep.specs.Lines.{found_text};

use crate::outages::off_in;
use hsr_frame::NoMemory;
use hsr_naming::Naming;
use hsr_plan_network::Node;
use hsr_plan_outages::put_fault;
use hsr_plan_page::{CaseRow, Counts, Tally};
use hsr_plan_sweep::{Case, Count, Played, put_found};
use hsr_report::put_spent;
use hsr_text::put;
use hsr_topology::End;
use std::alloc::Global;

/// What a page says of a count.
pub(crate) fn tally_of(count: &Count) -> Tally
    ensures { result ≡ tally_of count.now }
{
    Tally {
        sends: count.sends,
        complete: count.complete,
        needed: count.needed,
        latency: count.latency,
        load: count.load,
    }
}

/// What a page says of a count of a sweep.
fn counts_of(count: &Count) -> Counts
    ensures { result ≡ counts_of count.now }
{
    Counts {
        tally: tally_of(count),
        missed: count.missed,
        twice: count.twice,
    }
}

/// What was off in words, and its number.
fn put_off(
    text: &mut Vec<u8>,
    nodes: &[Node],
    links: &[[End; 2]],
    case: Case,
) -> Result<(Option<usize>, Option<usize>), NoMemory> {
    match case {
        Case::Undisturbed => {
            put(text, "undisturbed")?;
            Ok((None, None))
        }
        Case::Off(fault) => {
            put_fault(text, nodes, links, fault)?;
            Ok(off_in(fault))
        }
    }
}

/// What was found of a run, without a line feed.
fn found_of(alloc: Global, naming: &Naming, count: &Count) -> Result<Vec<u8>, NoMemory>
    ensures { IfOk result (λ text. IsTrimAsciiEnd (found_text naming.now count.now) text.items) }
{
    let mut line = Vec::new(alloc);
    put_found(&mut line, naming, count)?;
    let text = Vec::from_slice(alloc, line.as_slice().trim_ascii_end())?;
    Ok(text)
}

/// The row of a run.
fn row_of(
    alloc: Global,
    nodes: &[Node],
    links: &[[End; 2]],
    naming: &Naming,
    played: &Played,
) -> Result<CaseRow, NoMemory>
    ensures { IfOk result (IsCaseRow naming.now played.now) }
{
    let mut off = Vec::new(alloc);
    let (link, node) = put_off(&mut off, nodes, links, played.case)?;
    let mut budget = Vec::new(alloc);
    put_spent(&mut budget, naming, played.count.spending)?;
    let found = found_of(alloc, naming, &played.count)?;
    Ok(CaseRow {
        off,
        link,
        node,
        counts: counts_of(&played.count),
        budget,
        found,
    })
}

/// Puts the row of a run last.
fn push_row(
    alloc: Global,
    rows: &mut Vec<CaseRow>,
    nodes: &[Node],
    links: &[[End; 2]],
    naming: &Naming,
    played: &Played,
) -> Result<(), NoMemory>
    ensures { OnOk result (AddsRow naming.now played.now rows.old.items rows.new.items) }
{
    let row = row_of(alloc, nodes, links, naming, played)?;
    rows.push(row)?;
    Ok(())
}

/// The rows of runs, in their order.
pub(crate) fn case_rows(
    alloc: Global,
    nodes: &[Node],
    links: &[[End; 2]],
    naming: &Naming,
    plays: &[Played],
) -> Result<Vec<CaseRow>, NoMemory>
    ensures { IfOk result (λ rows. AreCaseRows naming.now plays.now (length plays.now) rows.items) }
{
    let mut rows = Vec::new(alloc);
    for played in plays {
        push_row(alloc, &mut rows, nodes, links, naming, played)?;
    }
    Ok(rows)
}
