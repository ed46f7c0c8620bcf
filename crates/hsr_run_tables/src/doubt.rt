//! The table of what the audit found.
ghost use Rattle.std.specs.Prelude.{◌≡◌, ◌∷◌, [], ◌++◌, IfOk, OnOk};
ghost use Rattle.hsr_report.specs.declared.finding.Finding.TheVariants.{Certified, Doubt as Doubted};
ghost use Rattle.hsr_run_tables.specs.Rows.{doubt_entry, doubt_link, doubt_receiver, doubt_word, entry_if, finding_cells, finding_row, named_cells, node_if, number_if, scope_word};
ghost use Rattle.hsr_run_tables.specs.Tables.{doubt_table};

use crate::row::Row;
use crate::table::{put_row, table_with, text_of};
use hsr_audit::Doubt;
use hsr_frame::NoMemory;
use hsr_naming::Naming;
use hsr_node::Probe;
use hsr_options::Scope;
use hsr_report::Finding;
use std::alloc::Global;

/// The word of an audit.
fn scope_word(scope: Scope) -> &'static str
    ensures { result.now ≡ scope_word scope }
{
    match scope {
        Scope::Ring => "ring",
        Scope::Network => "network",
    }
}

/// The word of a doubt, as the report has it.
fn doubt_word(doubt: Doubt) -> &'static str
    ensures { result.now ≡ doubt_word doubt }
{
    match doubt {
        Doubt::NotRing => "not-ring",
        Doubt::Empty => "empty",
        Doubt::Mode => "mode",
        Doubt::SameAddress => "same-address",
        Doubt::Side { .. } => "side",
        Doubt::TwoLinks => "two-links",
        Doubt::Forgot { .. } => "forgot",
        Doubt::Mistaken { .. } => "mistaken",
        Doubt::NumberedLate { .. } => "numbered-late",
        Doubt::CutOff { .. } => "cut-off",
        Doubt::UnknownStation { .. } => "unknown-station",
        Doubt::Uncovered { .. } => "uncovered",
    }
}

/// The entry that a doubt names, if it names one.
fn doubt_entry(doubt: Doubt) -> Option<Probe>
    ensures { result ≡ doubt_entry doubt }
{
    match doubt {
        Doubt::Forgot { node, place }
        | Doubt::Mistaken { node, place }
        | Doubt::NumberedLate { node, place }
        | Doubt::CutOff { node, place, .. }
        | Doubt::UnknownStation { node, place }
        | Doubt::Uncovered { node, place } => Some(Probe { node, place }),
        Doubt::NotRing
        | Doubt::Empty
        | Doubt::Mode
        | Doubt::SameAddress
        | Doubt::Side { .. }
        | Doubt::TwoLinks => None,
    }
}

/// The node that a doubt says a send doesn't come to, if it says so.
fn doubt_receiver(doubt: Doubt) -> Option<usize>
    ensures { result ≡ doubt_receiver doubt }
{
    match doubt {
        Doubt::CutOff { receiver, .. } => Some(receiver),
        _ => None,
    }
}

/// The link that a doubt names, if it names one.
fn doubt_link(doubt: Doubt) -> Option<usize>
    ensures { result ≡ doubt_link doubt }
{
    match doubt {
        Doubt::Side { link } => Some(link),
        _ => None,
    }
}

/// Puts the cells of an entry last; three empty ones where there is none.
fn put_entry_if(row: &mut Row, naming: &Naming, entry: Option<Probe>) -> Result<(), NoMemory>
    ensures { OnOk result (row.new ≡ row.old ++ entry_if naming.now entry) }
{
    match entry {
        None => {
            row.put_empty()?;
            row.put_empty()?;
            row.put_empty()
        }
        Some(entry) => row.put_entry(naming, entry),
    }
}

/// Puts a cell of a node last; an empty one where there is none.
fn put_node_if(row: &mut Row, naming: &Naming, node: Option<usize>) -> Result<(), NoMemory>
    ensures { OnOk result (row.new ≡ row.old ++ node_if naming.now node ∷ []) }
{
    match node {
        None => row.put_empty(),
        Some(node) => row.put_node(naming, node),
    }
}

/// Puts a cell of a number last; an empty one where there is none.
fn put_number_if(row: &mut Row, number: Option<usize>) -> Result<(), NoMemory>
    ensures { OnOk result (row.new ≡ row.old ++ number_if number ∷ []) }
{
    match number {
        None => row.put_empty(),
        Some(number) => row.put_number(number as u64),
    }
}

/// Puts what a finding names last.
#[tactic(auto, unfolding(crate::specs::Rows::named_cells))]
fn put_named(
    row: &mut Row,
    naming: &Naming,
    entry: Option<Probe>,
    receiver: Option<usize>,
    link: Option<usize>,
) -> Result<(), NoMemory>
    ensures { OnOk result (row.new ≡ row.old ++ named_cells naming.now entry receiver link) }
{
    put_entry_if(row, naming, entry)?;
    put_node_if(row, naming, receiver)?;
    put_number_if(row, link)
}

/// Puts how many sends are certified last.
fn put_certified(row: &mut Row, naming: &Naming, sends: usize) -> Result<(), NoMemory>
    ensures { OnOk result (row.new ≡ row.old ++ finding_cells naming.now (Certified sends)) }
{
    row.put_word("certified")?;
    row.put_number(sends as u64)?;
    row.put_empty()?;
    put_named(row, naming, None, None, None)
}

/// Puts a doubt last, and what it names.
fn put_doubt(row: &mut Row, naming: &Naming, doubt: Doubt) -> Result<(), NoMemory>
    ensures { OnOk result (row.new ≡ row.old ++ finding_cells naming.now (Doubted doubt)) }
{
    row.put_word("doubt")?;
    row.put_empty()?;
    row.put_word(doubt_word(doubt))?;
    put_named(
        row,
        naming,
        doubt_entry(doubt),
        doubt_receiver(doubt),
        doubt_link(doubt),
    )
}

/// Puts what was found last.
fn put_finding(row: &mut Row, naming: &Naming, finding: Finding) -> Result<(), NoMemory>
    ensures { OnOk result (row.new ≡ row.old ++ finding_cells naming.now finding) }
{
    match finding {
        Finding::Certified(sends) => put_certified(row, naming, sends),
        Finding::Doubt(doubt) => put_doubt(row, naming, doubt),
    }
}

/// The row of what was found.
fn finding_row(
    alloc: Global,
    naming: &Naming,
    scope: Scope,
    finding: Finding,
) -> Result<Row, NoMemory>
    ensures { IfOk result (λ row. row ≡ finding_row naming.now scope finding) }
{
    let mut row = Row::new(alloc);
    row.put_word(scope_word(scope))?;
    put_finding(&mut row, naming, finding)?;
    Ok(row)
}

/// The table of what the audit found: one row.
pub(crate) fn doubt_table(
    alloc: Global,
    naming: &Naming,
    scope: Scope,
    finding: Finding,
) -> Result<Vec<u8>, NoMemory>
    ensures { IfOk result (λ text. text.items ≡ doubt_table naming.now scope finding) }
{
    let row = finding_row(alloc, naming, scope, finding)?;
    let mut table = table_with(
        alloc,
        &[
            b"audit",
            b"verdict",
            b"sends",
            b"doubt",
            b"entry",
            b"node",
            b"place",
            b"receiver",
            b"link",
        ],
    )?;
    put_row(&mut table, &row)?;
    text_of(table)
}
