//! The lines of a sweep.
ghost use Rattle.std.specs.Prelude.{◌≡◌, ◌++◌, codes, slice_get, IfOk, OnOk};
ghost use Rattle.std.specs.List.{flat_map};
ghost use Rattle.hsr_plan_sweep.specs.Lines.{all_text, case_text, dashed, dashed_if, enough_text, first_text, found_text, last_text, limited_text, limits_text, next_point, over_text, play_line, play_text, point_text, points_text, sends_text, some_points, sweep_text, tables_text};

use crate::asked::Asked;
use crate::cases::Case;
use crate::counting::{Count, Miss};
use crate::playing::Played;
use crate::verdict::{most_needed, points, worst_spent};
use hsr_audit::Doubt;
use hsr_faults::Off;
use hsr_frame::NoMemory;
use hsr_naming::Naming;
use hsr_plan_network::Node;
use hsr_plan_outages::{put_end, put_fault, put_node};
use hsr_report::{Finding, put_finding, put_spent};
use hsr_text::{put, put_count};
use hsr_topology::End;
use std::alloc::Global;
use std::marker::Model;

/// What lines call things by, and the limits that were asked for.
#[derive(Drop)]
pub(crate) struct Words<'a> {
    pub nodes: &'a [Node],
    pub links: &'a [[End; 2]],
    pub naming: &'a Naming,
    pub asked: Asked,
}

impl<'a> Model for Words<'a> {
    ghost use Rattle.hsr_plan_sweep.specs.Lines.{Words};

    ghost Value = { Words };

    ghost view = { λ w. record { nodes = w.nodes.now; links = w.links.now; naming = w.naming.now; asked = w.asked } };
}

// ---- a run

/// Puts what was off last.
fn put_case(text: &mut Vec<u8>, words: &Words<'_>, case: Case) -> Result<(), NoMemory>
    ensures { OnOk result (text.new.items ≡ text.old.items ++ case_text words.now case) }
{
    match case {
        Case::Undisturbed => put(text, "undisturbed"),
        Case::Off(fault) => put_fault(text, words.nodes, words.links, fault),
    }
}

/// Puts how many sends a run had last, and what became of them.
#[tactic(auto, unfolding(crate::specs::Lines::sends_text))]
fn put_sends(text: &mut Vec<u8>, count: &Count) -> Result<(), NoMemory>
    ensures { OnOk result (text.new.items ≡ text.old.items ++ sends_text count.now) }
{
    put_count(text, b" sends ", count.sends as u64)?;
    put_count(text, b" complete ", count.complete as u64)?;
    put_count(text, b" missed ", count.missed as u64)?;
    put_count(text, b" twice ", count.twice as u64)
}

/// Puts how many entries a run needed last, and what it spent of its tables.
#[tactic(auto, unfolding(crate::specs::Lines::tables_text))]
fn put_tables(text: &mut Vec<u8>, words: &Words<'_>, count: &Count) -> Result<(), NoMemory>
    ensures { OnOk result (text.new.items ≡ text.old.items ++ tables_text words.now count.now) }
{
    put_count(text, b" needed ", count.needed as u64)?;
    put(text, " budget ")?;
    put_spent(text, words.naming, count.spending)
}

/// Puts the limit that a number is over last, if it is.
fn put_over(text: &mut Vec<u8>, limit: Option<u64>, number: u64) -> Result<(), NoMemory>
    ensures { OnOk result (text.new.items ≡ text.old.items ++ over_text limit number) }
{
    match limit {
        Some(limit) if limit < number => put_count(text, b" over ", limit),
        _ => Ok(()),
    }
}

/// Puts a number last, and the limit that it is over.
fn put_limited(
    text: &mut Vec<u8>,
    name: &[u8],
    limit: Option<u64>,
    number: u64,
) -> Result<(), NoMemory>
    ensures { OnOk result (text.new.items ≡ text.old.items ++ limited_text name.now limit number) }
{
    put_count(text, name, number)?;
    put_over(text, limit, number)
}

/// Puts the longest that a send took last, and the most load.
#[tactic(auto, unfolding(crate::specs::Lines::limits_text))]
fn put_limits(text: &mut Vec<u8>, words: &Words<'_>, count: &Count) -> Result<(), NoMemory>
    ensures { OnOk result (text.new.items ≡ text.old.items ++ limits_text words.now count.now) }
{
    put_limited(text, b" latency ", words.asked.limit_latency, count.latency)?;
    put_limited(text, b" load ", words.asked.limit_load, count.load)
}

/// Puts the first send that was missed last, as a doubt; or that none was.
fn put_first(text: &mut Vec<u8>, naming: &Naming, first: Option<Miss>) -> Result<(), NoMemory>
    ensures { OnOk result (text.new.items ≡ text.old.items ++ first_text naming.now first) }
{
    match first {
        None => put(text, "none missed\n"),
        Some(miss) => put_finding(
            text,
            naming,
            Finding::Doubt(Doubt::CutOff {
                node: miss.send.node,
                place: miss.send.place,
                receiver: miss.node,
            }),
        ),
    }
}

/// Puts what was found of a run last, as its line of a sweep ends. The audit asks for nodes that are off too, and for those whom no stream
/// is for: where it tells of a send that doesn't come to one, the first is told that was missed. `NoMemory` if allocation fails; a front
/// of it may stand there then.
pub fn put_found(text: &mut Vec<u8>, naming: &Naming, count: &Count) -> Result<(), NoMemory>
    ensures { OnOk result (text.new.items ≡ text.old.items ++ found_text naming.now count.now) }
{
    match count.finding {
        Finding::Doubt(Doubt::CutOff { .. }) => put_first(text, naming, count.first),
        finding => put_finding(text, naming, finding),
    }
}

/// Puts what a run is counted as last.
#[tactic(auto, unfolding(crate::specs::Lines::play_text))]
fn put_counted(text: &mut Vec<u8>, words: &Words<'_>, count: &Count) -> Result<(), NoMemory>
    ensures { OnOk result (text.new.items ≡ text.old.items ++ play_text words.now count.now) }
{
    put_sends(text, count)?;
    put_tables(text, words, count)?;
    put_limits(text, words, count)?;
    put(text, " ")?;
    put_found(text, words.naming, count)
}

/// Puts the line of a run last.
fn put_line(text: &mut Vec<u8>, words: &Words<'_>, played: &Played) -> Result<(), NoMemory>
    ensures { OnOk result (text.new.items ≡ text.old.items ++ play_line words.now played.now) }
{
    put_case(text, words, played.case)?;
    put_counted(text, words, &played.count)
}

/// Puts the lines of runs last.
#[tactic(auto, using(hsr_frame::proofs::OneMore::grown))]
fn put_lines(text: &mut Vec<u8>, words: &Words<'_>, plays: &[Played]) -> Result<(), NoMemory>
    ensures { OnOk result (text.new.items ≡ text.old.items
        ++ flat_map (play_line words.now) plays.now) }
{
    for played in plays {
        put_line(text, words, played)?;
    }
    Ok(())
}

// ---- single points of failure

/// Puts a link last, as `qb1.C-bcu3.A`.
fn put_dashed(text: &mut Vec<u8>, nodes: &[Node], link: &[End; 2]) -> Result<(), NoMemory>
    ensures { OnOk result (text.new.items ≡ text.old.items ++ dashed nodes.now link.now) }
{
    let [one, other] = *link;
    put_end(text, nodes, one)?;
    put(text, "-")?;
    put_end(text, nodes, other)
}

/// Puts the link of that number last, if there is one.
fn put_dashed_if(
    text: &mut Vec<u8>,
    nodes: &[Node],
    links: &[[End; 2]],
    number: usize,
) -> Result<(), NoMemory>
    ensures { OnOk result (text.new.items ≡ text.old.items
        ++ dashed_if nodes.now (slice_get links.now number)) }
{
    match links.get(number) {
        Some(link) => put_dashed(text, nodes, link),
        None => Ok(()),
    }
}

/// Puts a link or a node last.
fn put_point(text: &mut Vec<u8>, words: &Words<'_>, off: Off) -> Result<(), NoMemory>
    ensures { OnOk result (text.new.items ≡ text.old.items ++ point_text words.now off) }
{
    match off {
        Off::Link(number) => put_dashed_if(text, words.nodes, words.links, number),
        Off::Node(number) => put_node(text, words.nodes, number),
    }
}

/// Puts a link or a node last, behind another.
fn put_next(text: &mut Vec<u8>, words: &Words<'_>, off: Off) -> Result<(), NoMemory>
    ensures { OnOk result (text.new.items ≡ text.old.items ++ next_point words.now off) }
{
    put(text, ", ")?;
    put_point(text, words, off)
}

/// Puts links and nodes last, behind another.
#[tactic(auto, using(hsr_frame::proofs::OneMore::grown))]
fn put_others(text: &mut Vec<u8>, words: &Words<'_>, offs: &[Off]) -> Result<(), NoMemory>
    ensures { OnOk result (text.new.items ≡ text.old.items
        ++ flat_map (next_point words.now) offs.now) }
{
    for off in offs {
        put_next(text, words, *off)?;
    }
    Ok(())
}

/// Puts the line of these single points of failure last.
#[tactic(auto, unfolding(crate::specs::Lines::some_points))]
fn put_some_points(
    text: &mut Vec<u8>,
    words: &Words<'_>,
    first: Off,
    others: &[Off],
) -> Result<(), NoMemory>
    ensures { OnOk result (text.new.items ≡ text.old.items
        ++ some_points words.now first others.now) }
{
    put(text, "single points of failure: ")?;
    put_point(text, words, first)?;
    put_others(text, words, others)?;
    put(text, "\n")
}

/// Puts the line of these single points of failure last, or that there is none.
fn put_points(text: &mut Vec<u8>, words: &Words<'_>, offs: &[Off]) -> Result<(), NoMemory>
    ensures { OnOk result (text.new.items ≡ text.old.items ++ points_text words.now offs.now) }
{
    match offs.split_first() {
        None => put(text, "no single point of failure\n"),
        Some((first, others)) => put_some_points(text, words, *first, others),
    }
}

// ---- all

/// Puts how many entries are enough for all runs last, and the worst that one spent of its tables.
#[tactic(auto, unfolding(crate::specs::Lines::enough_text))]
fn put_enough(text: &mut Vec<u8>, words: &Words<'_>, plays: &[Played]) -> Result<(), NoMemory>
    ensures { OnOk result (text.new.items ≡ text.old.items ++ enough_text words.now plays.now) }
{
    put_count(text, b"needed ", most_needed(plays) as u64)?;
    put(text, "\nbudget ")?;
    put_spent(text, words.naming, worst_spent(plays))?;
    put(text, "\n")
}

/// Puts the last lines of a whole sweep last.
fn put_all(
    alloc: Global,
    text: &mut Vec<u8>,
    words: &Words<'_>,
    plays: &[Played],
) -> Result<(), NoMemory>
    ensures { OnOk result (text.new.items ≡ text.old.items ++ all_text words.now plays.now) }
{
    let points = points(alloc, plays)?;
    put_points(text, words, points.as_slice())?;
    put_enough(text, words, plays)
}

/// Puts the last lines last; a part has none.
fn put_last(
    alloc: Global,
    text: &mut Vec<u8>,
    words: &Words<'_>,
    plays: &[Played],
) -> Result<(), NoMemory>
    ensures { OnOk result (text.new.items ≡ text.old.items ++ last_text words.now plays.now) }
{
    match words.asked.part {
        None => put_all(alloc, text, words, plays),
        Some(_) => Ok(()),
    }
}

/// The lines of a sweep: of each run, then the single points of failure, and what is enough for all.
pub(crate) fn lines(alloc: Global, words: &Words<'_>, plays: &[Played]) -> Result<Vec<u8>, NoMemory>
    ensures { IfOk result (λ text. text.items ≡ sweep_text words.now plays.now) }
{
    let mut text = Vec::new(alloc);
    put_lines(&mut text, words, plays)?;
    put_last(alloc, &mut text, words, plays)?;
    Ok(text)
}
