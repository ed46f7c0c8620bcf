//! What an audit of a run found.
ghost use Rattle.std.specs.Prelude.{◌≡◌, ◌++◌, IfOk, OnOk};
ghost use Rattle.hsr_report.specs.Found.{IsFound};
ghost use Rattle.hsr_audit.specs.declared.doubt.Doubt.TheVariants.{CutOff};
ghost use Rattle.hsr_options.specs.declared.chosen.Scope.TheVariants.{Network, Ring};
ghost use Rattle.hsr_report.specs.Report.{at_text, doubt_text, finding_line};

use hsr_audit::{AuditFault, Doubt, audit, audit_network};
use hsr_finished_run::Closed;
use hsr_frame::NoMemory;
use hsr_naming::Naming;
use hsr_options::Scope;
use hsr_text::{put, put_count};
use std::alloc::Global;

/// What an audit of a run found: how many sends are certified, or the first doubt.
#[derive(Clone, Copy, PartialEq, Eq)]
pub enum Finding {
    Certified(usize),
    Doubt(Doubt),
}

/// What the audit of a ring finds of a run.
fn found_of_ring<const C: usize>(alloc: Global, closed: &Closed<C>) -> Result<Finding, NoMemory>
    ensures { IfOk result (λ v. IsFound Ring closed.now.run v) }
{
    match audit(alloc, closed) {
        Ok(certificate) => Ok(Finding::Certified(certificate.sends.len())),
        Err(AuditFault::Doubt(doubt)) => Ok(Finding::Doubt(doubt)),
        Err(AuditFault::NoMemory) => Err(NoMemory),
    }
}

/// What the audit of a network finds of a run.
fn found_of_network<const C: usize>(alloc: Global, closed: &Closed<C>) -> Result<Finding, NoMemory>
    ensures { IfOk result (λ v. IsFound Network closed.now.run v) }
{
    match audit_network(alloc, closed) {
        Ok(certificate) => Ok(Finding::Certified(certificate.deliveries.sends.len())),
        Err(AuditFault::Doubt(doubt)) => Ok(Finding::Doubt(doubt)),
        Err(AuditFault::NoMemory) => Err(NoMemory),
    }
}

/// What the chosen audit of a run finds. `NoMemory` if allocation fails.
pub fn found<const C: usize>(
    alloc: Global,
    closed: &Closed<C>,
    scope: Scope,
) -> Result<Finding, NoMemory>
    ensures { IfOk result (λ v. IsFound scope closed.now.run v) }
{
    match scope {
        Scope::Ring => found_of_ring(alloc, closed),
        Scope::Network => found_of_network(alloc, closed),
    }
}

/// Puts a word, and the entry that it names.
fn put_at(
    text: &mut Vec<u8>,
    naming: &Naming,
    word: &str,
    node: usize,
    place: usize,
) -> Result<(), NoMemory>
    ensures { OnOk result (text.new.items ≡ text.old.items
        ++ at_text naming.now word.now node place) }
{
    put(text, word)?;
    naming.put_entry(text, node, place)
}

/// Puts a word, the entry of a send, and the node that the send doesn't come to.
fn put_cut_off(
    text: &mut Vec<u8>,
    naming: &Naming,
    node: usize,
    place: usize,
    receiver: usize,
) -> Result<(), NoMemory>
    ensures { OnOk result (text.new.items ≡ text.old.items
        ++ doubt_text naming.now (CutOff node place receiver)) }
{
    put_at(text, naming, "cut-off ", node, place)?;
    put(text, " ")?;
    naming.put_node(text, receiver)
}

/// Puts a doubt in its own words.
fn put_doubt(text: &mut Vec<u8>, naming: &Naming, doubt: Doubt) -> Result<(), NoMemory>
    ensures { OnOk result (text.new.items ≡ text.old.items ++ doubt_text naming.now doubt) }
{
    match doubt {
        Doubt::NotRing => put(text, "not-ring"),
        Doubt::Empty => put(text, "empty"),
        Doubt::Mode => put(text, "mode"),
        Doubt::SameAddress => put(text, "same-address"),
        Doubt::Side { link } => put_count(text, b"side ", link as u64),
        Doubt::TwoLinks => put(text, "two-links"),
        Doubt::Forgot { node, place } => put_at(text, naming, "forgot ", node, place),
        Doubt::Mistaken { node, place } => put_at(text, naming, "mistaken ", node, place),
        Doubt::NumberedLate { node, place } => put_at(text, naming, "numbered-late ", node, place),
        Doubt::CutOff {
            node,
            place,
            receiver,
        } => put_cut_off(text, naming, node, place, receiver),
        Doubt::UnknownStation { node, place } => {
            put_at(text, naming, "unknown-station ", node, place)
        }
        Doubt::Uncovered { node, place } => put_at(text, naming, "uncovered ", node, place),
    }
}

/// Puts the last line of a report: how many sends are certified, or the doubt, a word and what it names: a link, or an entry, and
/// for a cut the node that the send doesn't come to. `NoMemory` if allocation fails; a front of the line may stand there then.
pub fn put_finding(text: &mut Vec<u8>, naming: &Naming, finding: Finding) -> Result<(), NoMemory>
    ensures { OnOk result (text.new.items ≡ text.old.items ++ finding_line naming.now finding) }
{
    match finding {
        Finding::Certified(sends) => put_count(text, b"certified ", sends as u64)?,
        Finding::Doubt(doubt) => {
            put(text, "doubt ")?;
            put_doubt(text, naming, doubt)?;
        }
    }
    put(text, "\n")
}
