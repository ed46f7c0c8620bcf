//! The page of a finished run, its call.
ghost use Rattle.std.specs.Prelude.{◌≡◌, ◌++◌, None, IfErr, IfOk, OnOk};
ghost use Rattle.hsr_timeline.specs.Causes.{origins};
ghost use Rattle.hsr_timeline.specs.Fronts.{lists_of};
ghost use Rattle.hsr_timeline.specs.Stamps.{HasNoStamps};
ghost use Rattle.hsr_timeline.specs.Story.{IfCircle};
ghost use Rattle.hsr_page.specs.Frame.{whole_text};
ghost use Rattle.hsr_page.specs.declared.frame.Kind.TheVariants.{Run as OfRun};
ghost use Rattle.hsr_run_page.specs.Entries.{AreEntries};
ghost use Rattle.hsr_run_page.specs.Whole.{IsPageWith};

use crate::body::{Body, body_of};
use crate::data::{Data, data_of};
use crate::entries::{Stamped, entries_in_time};
use crate::facts::Head;
use hsr_diagram::{Picture, Span};
use hsr_downs::{Down, Drain};
use hsr_explanation::explain_finding;
use hsr_finished_run::Closed;
use hsr_frame::NoMemory;
use hsr_naming::{Names, Naming};
use hsr_node::Probe;
use hsr_options::{Asked, Scope};
use hsr_page::{Kind, Page, put_page};
use hsr_report::{Finding, found, put_finding, report};
use hsr_timeline::{StoryFault, put_name};
use std::alloc::Global;

/// The most copies that a page shows: with 6000 of them browsers still play it fluently.
pub const COPY_LIMIT: usize = 6000;

/// What a page shows of a run: the names of its nodes; its title; the copies of these sends, of all where there are none; those of a span;
/// and what the scenario says of links that are down and of drains, if that was handed in.
#[derive(Clone, Copy)]
pub struct Shown<'a> {
    pub names: &'a [Vec<u8>],
    pub title: &'a str,
    pub sends: &'a [Probe],
    pub span: Span,
    pub downs: &'a [Down],
    pub drains: &'a [Drain],
    pub has_scenario: bool,
}

/// The names of all nodes, as a page has them.
fn naming_of(alloc: Global, names: &[Vec<u8>], nodes: usize) -> Result<Naming, NoMemory> {
    let mut named = Vec::new(alloc);
    for node in 0..nodes {
        let mut name = Vec::new(alloc);
        put_name(&mut name, names, node)?;
        named.push(name)?;
    }
    Ok(Naming::Names(Names {
        nodes: named,
        entries: Vec::new(alloc),
    }))
}

/// The report that a page shows: all parts that don't depend on how long copies took.
fn report_of<const C: usize>(
    alloc: Global,
    closed: &Closed<C>,
    naming: &Naming,
    finding: Finding,
) -> Result<Vec<u8>, NoMemory> {
    let asked = Asked {
        load: false,
        latency: false,
        deliveries: true,
        needed: true,
        budget: true,
    };
    report(alloc, closed, naming, Scope::Network, finding, asked)
}

/// The last line of the report, without its line feed.
fn last_line(alloc: Global, naming: &Naming, finding: Finding) -> Result<String, NoMemory> {
    let mut line = Vec::new(alloc);
    put_finding(&mut line, naming, finding)?;
    let text = String::from_utf8_lossy(alloc, line.as_slice().trim_ascii_end())?;
    Ok(text)
}

/// The body of a page, with its report.
fn body_for<'a, const C: usize>(
    alloc: Global,
    closed: &'a Closed<C>,
    picture: &'a Picture,
    entries: &'a [Stamped],
    shown: Shown<'a>,
) -> Result<Vec<u8>, NoMemory> {
    let naming = naming_of(alloc, shown.names, closed.topology().places().len())?;
    let finding = found(alloc, closed, Scope::Network)?;
    let report = report_of(alloc, closed, &naming, finding)?;
    let report = String::from_utf8_lossy(alloc, report.as_slice())?;
    let last = last_line(alloc, &naming, finding)?;
    let explained = explain_finding(alloc, closed, shown.names, finding)?;
    let head = Head {
        title: shown.title,
        finding,
        last: last.as_str(),
        explained: explained.lines.as_slice(),
    };
    let body = Body {
        head,
        names: shown.names,
        sends: shown.sends,
        span: shown.span,
        entries,
        picture,
        downs: shown.downs,
        drains: shown.drains,
        has_scenario: shown.has_scenario,
        report: report.as_str(),
    };
    body_of(alloc, closed, body)
}

/// Puts the page of a run last, by its title, its body and its data.
fn put_whole<'a>(
    alloc: Global,
    text: &mut Vec<u8>,
    title: &'a str,
    body: &'a [u8],
    json: &'a [u8],
) -> Result<(), NoMemory>
    ensures { OnOk result (text.new.items ≡ text.old.items
        ++ whole_text (record { kind = OfRun; title = title.now; foot = None; body = body.now; json = json.now })) }
{
    let foot: Option<&'a str> = None;
    let page = Page {
        kind: Kind::Run,
        title,
        foot,
        body,
        json,
    };
    put_page(alloc, text, &page)
}

/// The page of entries in the order of time.
fn page_with<'a, const C: usize>(
    alloc: Global,
    closed: &'a Closed<C>,
    picture: &'a Picture,
    entries: &'a [Stamped],
    shown: Shown<'a>,
) -> Result<Vec<u8>, NoMemory>
    requires { AreEntries closed.now.run closed.now.plan entries.now }
    ensures { IfOk result (λ octets. IsPageWith (lists_of shown.entry.names.now) closed.now shown.entry.title.now shown.entry.sends.now shown.entry.span
        shown.entry.downs.now shown.entry.drains.now picture.now octets.items) }
{
    let body = body_for(alloc, closed, picture, entries, shown)?;
    let data = Data {
        names: shown.names,
        sends: shown.sends,
        span: shown.span,
        entries,
        picture,
        downs: shown.downs,
        drains: shown.drains,
    };
    let json = data_of(alloc, closed, data)?;
    let mut text = Vec::new(alloc);
    put_whole(
        alloc,
        &mut text,
        shown.title,
        body.as_slice(),
        json.as_slice(),
    )?;
    Ok(text)
}

/// The page of a finished run, as one file of HTML that stands alone: what this picture shows of it, each entry and each row once, in the
/// order of time; a list of the sends, and the report of the audit of networks. No octets of payloads are in it. `Circle` exactly where
/// entries follow one another in a circle. `NoMemory` if allocation fails.
pub fn page_of_run<'a, const C: usize>(
    alloc: Global,
    closed: &'a Closed<C>,
    picture: &'a Picture,
    shown: Shown<'a>,
) -> Result<Vec<u8>, StoryFault>
    ensures page { IfOk result (λ octets. IsPageWith (lists_of shown.entry.names.now) closed.now shown.entry.title.now shown.entry.sends.now shown.entry.span
        shown.entry.downs.now shown.entry.drains.now picture.now octets.items) }
    ensures circle { IfErr result (IfCircle (HasNoStamps (origins closed.now.run closed.now.plan))) }
{
    let entries = entries_in_time(alloc, closed)?;
    let page = page_with(alloc, closed, picture, entries.as_slice(), shown)?;
    Ok(page)
}
