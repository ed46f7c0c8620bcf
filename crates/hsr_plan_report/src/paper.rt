//! The page of what was gathered of a plan, and how a run ends that writes it.
ghost use Rattle.std.specs.Prelude.{◌≡◌, string_bytes, IfOk};
ghost use Rattle.hsr_plan_sweep.specs.Swept.{ending_of};
ghost use Rattle.hsr_plan_report.specs.Paper.{AreTexts};
ghost use Rattle.hsr_plan_report.specs.Report.{IsPageOf, IsShown, bare_rows, is_certified, is_doubtful, played_alone, sum_of};

use crate::asked::Asked;
use crate::gathered::{Bare, Swept, asked_with};
use crate::own::{Own, TABLE};
use crate::reasons::meaning_of;
use crate::words::{put_event, put_moves, rate_of};
use hsr_certify_text::Verdict;
use hsr_frame::NoMemory;
use hsr_plan_network::Node;
use hsr_plan_page::{CaseRow, EventRow, Facts, Verdict as Shown, plan_page};
use hsr_plan_scenario::Ending;
use hsr_plan_sweep::{Played, is_in_doubt};
use hsr_plan_text::{Event, Plan};
use hsr_version::VERSION;
use sha2::{Digest, Sha256};
use std::alloc::Global;

/// What a page shows of a plan, gathered.
#[derive(Clone, Copy)]
pub(crate) struct Paper<'a> {
    pub(crate) text: &'a str,
    pub(crate) plan: &'a Plan,
    pub(crate) asked: Asked<'a>,
    pub(crate) own: &'a Own,
    pub(crate) swept: &'a Swept,
    pub(crate) bare: &'a Bare,
}

/// The texts of a page that are formed for it: the names of nodes, how copies move, the lines of both verdicts and of the budget, the sum
/// of the plan's text, what the verdict in any order means, and the plan's events.
#[derive(Drop)]
struct Texts {
    names: Vec<String>,
    moves: String,
    any_order: String,
    found: String,
    budget: String,
    sum: String,
    meaning: Vec<Vec<u8>>,
    events: Vec<EventRow>,
}

/// The names of nodes as texts.
fn names_of(alloc: Global, nodes: &[Node]) -> Result<Vec<String>, NoMemory> {
    let mut names = Vec::new(alloc);
    for node in nodes {
        names.push(String::from_utf8_lossy(alloc, node.name.as_bytes())?)?;
    }
    Ok(names)
}

/// The plan's events, in the order of their moments.
fn events_of(alloc: Global, events: &[Event]) -> Result<Vec<EventRow>, NoMemory> {
    let mut rows = Vec::new(alloc);
    for event in events {
        let mut what = Vec::new(alloc);
        put_event(&mut what, event)?;
        rows.push(EventRow { at: event.at, what })?;
    }
    // A stable sort: events of one moment stay as they are listed.
    rows.sort_by_key(|row| row.at)?;
    Ok(rows)
}

/// How copies move, in words.
fn moves_of(alloc: Global, plan: &Plan) -> Result<String, NoMemory> {
    let mut moves = Vec::new(alloc);
    put_moves(&mut moves, plan.outline.moves)?;
    let text = String::from_utf8_lossy(alloc, moves.as_slice())?;
    Ok(text)
}

/// A line without its line feed, as a text.
fn line_of(alloc: Global, line: &[u8]) -> Result<String, NoMemory>
    ensures { IfOk result (λ text. IsShown line.now (string_bytes text)) }
{
    let text = String::from_utf8_lossy(alloc, line.trim_ascii_end())?;
    Ok(text)
}

/// The sum of the plan's text (SHA-256, FIPS 180-4), in hexadecimal digits.
fn sum_of(alloc: Global, text: &str) -> Result<String, NoMemory>
    ensures { IfOk result (λ sum. string_bytes sum ≡ sum_of text.now) }
{
    let sum = Sha256::digest(text.as_bytes());
    let digits = hex::encode(alloc, &sum)?;
    Ok(digits)
}

/// The texts of a page that are formed for it.
fn texts_of(alloc: Global, paper: Paper<'_>) -> Result<Texts, NoMemory>
    ensures { IfOk result (AreTexts paper.entry.text.now paper.entry.own.now) }
{
    let plan = paper.plan;
    let own = paper.own;
    let swept = paper.swept;
    let meaning = &swept.played.meaning;
    Ok(Texts {
        names: names_of(alloc, meaning.nodes.as_slice())?,
        moves: moves_of(alloc, plan)?,
        any_order: line_of(alloc, own.certification.line.as_slice())?,
        found: line_of(alloc, own.run.found.as_slice())?,
        budget: line_of(alloc, own.run.budget.as_slice())?,
        sum: sum_of(alloc, paper.text)?,
        meaning: meaning_of(alloc, own.certification.verdict)?,
        events: events_of(alloc, plan.events.as_slice())?,
    })
}

/// Whether a verdict in any order certifies.
fn is_certified(verdict: Verdict) -> bool
    ensures { result ≡ is_certified verdict }
{
    match verdict {
        Verdict::Certified(_) => true,
        Verdict::Doubted(_) => false,
    }
}

/// The rows of the sweep without the plan's own events, if there is one.
fn bare_rows<'a>(bare: &'a Bare) -> &'a [CaseRow]
    ensures { result.now ≡ bare_rows bare.now }
{
    match &bare.swept {
        Some(swept) => swept.rows.as_slice(),
        None => &[],
    }
}

/// The title of a plan.
fn title_of<'a>(plan: &'a Plan) -> &'a str {
    match &plan.outline.title {
        Some(title) => title.as_str(),
        None => "HSR plan",
    }
}

/// The verdict in any order, as the page shows it.
fn shown_any<'a>(own: &'a Own, texts: &'a Texts) -> Shown<'a>
    ensures certified { result.is_certified ≡ is_certified own.now.certification.verdict }
    ensures line { result.line.now ≡ string_bytes texts.now.any_order }
{
    Shown {
        is_certified: is_certified(own.certification.verdict),
        line: texts.any_order.as_str(),
        meaning: texts.meaning.as_slice(),
    }
}

/// What was found of the run, as the page shows it.
fn shown_run<'a>(own: &'a Own, texts: &'a Texts) -> Shown<'a>
    ensures certified { result.is_certified ≡ own.now.run.is_certified }
    ensures line { result.line.now ≡ string_bytes texts.now.found }
{
    Shown {
        is_certified: own.run.is_certified,
        line: texts.found.as_str(),
        meaning: own.run.explained.as_slice(),
    }
}

/// The page by its texts, with these names of nodes.
fn page_with<'a>(
    alloc: Global,
    paper: Paper<'a>,
    texts: &'a Texts,
    names: &'a [&'a str],
) -> Result<Vec<u8>, NoMemory>
    requires { AreTexts paper.text.now paper.own.now texts.now }
    ensures { IfOk result (λ page. IsPageOf paper.entry.text.now paper.entry.plan.now paper.entry.asked paper.entry.own.now paper.entry.swept.now paper.entry.bare.now page.items) }
{
    let plan = paper.plan;
    let own = paper.own;
    let run = &own.run;
    let swept = paper.swept;
    let bare = paper.bare;
    let meaning = &swept.played.meaning;
    let facts = Facts {
        title: title_of(plan),
        date: paper.asked.date,
        version: VERSION,
        octets: paper.text.len(),
        sum: texts.sum.as_str(),
        names,
        places: meaning.topology.places(),
        links: meaning.topology.links(),
        naming: &run.naming,
        moves: texts.moves.as_str(),
        within: paper.asked.within,
        at: paper.asked.at,
        limit_load: paper.asked.limit_load,
        limit_latency: paper.asked.limit_latency,
        rate: rate_of(plan.outline.moves),
        in_any_order: shown_any(own, texts),
        in_run: shown_run(own, texts),
        tally: run.tally,
        budget: texts.budget.as_str(),
        table: TABLE,
        streams: run.streams.as_slice(),
        loads: run.load.channels.as_slice(),
        latencies: run.latency.nodes.as_slice(),
        outages: bare.outages.as_slice(),
        cases: swept.rows.as_slice(),
        bare_cases: bare_rows(bare),
        events: texts.events.as_slice(),
    };
    let page = plan_page(alloc, facts)?;
    Ok(page)
}

/// The page of what was gathered.
pub(crate) fn page_of(alloc: Global, paper: Paper<'_>) -> Result<Vec<u8>, NoMemory>
    ensures { IfOk result (λ page. IsPageOf paper.entry.text.now paper.entry.plan.now paper.entry.asked paper.entry.own.now paper.entry.swept.now paper.entry.bare.now page.items) }
{
    let texts = texts_of(alloc, paper)?;
    let mut names = Vec::new(alloc);
    for name in &texts.names {
        names.push(name.as_str())?;
    }
    let page = page_with(alloc, paper, &texts, names.as_slice())?;
    Ok(page)
}

/// The runs in which a link or a node alone is off: those without the plan's own events, if it has some.
fn played_alone<'a>(swept: &'a Swept, bare: &'a Bare) -> &'a [Played]
    ensures { result.now ≡ played_alone swept.now bare.now }
{
    match &bare.swept {
        Some(alone) => alone.played.plays.as_slice(),
        None => swept.played.plays.as_slice(),
    }
}

/// Whether the page tells a doubt: in any order, of the run, or of the runs in which a link or a node alone is off.
fn is_doubtful(paper: Paper<'_>) -> bool
    ensures { result ≡ is_doubtful paper.entry.asked paper.entry.own.now paper.entry.swept.now paper.entry.bare.now }
{
    let asked = asked_with(paper.asked, false);
    !(is_certified(paper.own.certification.verdict) && paper.own.run.is_certified)
        || is_in_doubt(asked, played_alone(paper.swept, paper.bare))
}

/// How a run ends that writes the page.
pub(crate) fn ending_of(paper: Paper<'_>) -> Ending
    ensures { result ≡ ending_of (is_doubtful paper.entry.asked paper.entry.own.now paper.entry.swept.now paper.entry.bare.now) }
{
    if is_doubtful(paper) {
        Ending::Doubted
    } else {
        Ending::Planned
    }
}
