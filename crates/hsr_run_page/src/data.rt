//! The data of a run's page, as JSON.
ghost use Rattle.std.specs.Prelude.{◌≡◌, ◌+◌, ◌<◌, ◌^◌, ◌++◌, codes, option_map, slice_get, IfOk, OnOk};
ghost use Rattle.std.specs.List.{flat_map};
ghost use Rattle.hsr_run_laws.specs.Run.{record_of, rows_of};
ghost use Rattle.hsr_timeline.specs.Fronts.{lists_of};
ghost use Rattle.hsr_run_page.specs.Data.{copy_at, copy_if, copy_rows, data_text, entry_at, entry_if, entry_rows, is_planned_if, is_wanted_if, keyed, link_row, link_rows, network_lists, node_rows, number_behind, planned_at, planned_from, planned_if, run_lists, send_at, send_if, send_rows, spelled_name, told_lists};
ghost use Rattle.hsr_run_page.specs.Rows.{down_row, drain_row, node_row};

use crate::entries::{Stamped, is_wanted};
use crate::rows::{
    put_copy, put_down, put_drain, put_end, put_entry, put_node, put_number_cell, put_send,
};
use hsr_deliveries::Delivery;
use hsr_diagram::{Arrow, Picture, Sent, Span};
use hsr_downs::{Down, Drain};
use hsr_finished_run::Closed;
use hsr_frame::NoMemory;
use hsr_link::Row;
use hsr_node::{Entry, Event, Place, Probe};
use hsr_page::put_json_octets;
use hsr_text::{put, put_number};
use hsr_timeline::put_name;
use hsr_topology::End;
use std::alloc::Global;

// ---- the network

/// Puts a node last, by its number.
fn put_node_at(
    alloc: Global,
    text: &mut Vec<u8>,
    names: &[Vec<u8>],
    number: usize,
    place: &Place,
) -> Result<(), NoMemory>
    ensures { OnOk result (text.new.items ≡ text.old.items
        ++ node_row (spelled_name (lists_of names.now) number) place.now) }
{
    let mut name = Vec::new(alloc);
    put_name(&mut name, names, number)?;
    let mut spelled = Vec::new(alloc);
    put_json_octets(alloc, &mut spelled, name.as_slice())?;
    put_node(alloc, text, spelled.as_slice(), place)
}

/// Puts all nodes last.
fn put_nodes(
    alloc: Global,
    text: &mut Vec<u8>,
    names: &[Vec<u8>],
    places: &[Place],
) -> Result<(), NoMemory>
    ensures { OnOk result (text.new.items ≡ text.old.items
        ++ node_rows (lists_of names.now) places.now) }
{
    let mut number = 0usize;
    let mut left = places;
    // What is left is a variable, since the loop's invariant speaks of it.
    while let Some((place, more)) = left.split_first() {
        put_node_at(alloc, text, names, number, place)?;
        number += 1;
        left = more;
    }
    Ok(())
}

/// Puts a link last.
#[tactic(auto, unfolding(crate::specs::Data::ends_row))]
fn put_link(text: &mut Vec<u8>, places: &[Place], link: &[End; 2]) -> Result<(), NoMemory>
    ensures { OnOk result (text.new.items ≡ text.old.items ++ link_row places.now link.now) }
{
    let [one, other] = *link;
    put(text, "[")?;
    put_end(text, places, one)?;
    put_end(text, places, other)?;
    put(text, "0],")
}

/// Puts all links last.
#[tactic(auto, using(hsr_frame::proofs::OneMore::grown))]
fn put_links(text: &mut Vec<u8>, places: &[Place], links: &[[End; 2]]) -> Result<(), NoMemory>
    ensures { OnOk result (text.new.items ≡ text.old.items ++ link_rows places.now links.now) }
{
    for link in links {
        put_link(text, places, link)?;
    }
    Ok(())
}

// ---- the run

/// Puts an entry last, where it is there and wanted.
fn put_entry_if(
    text: &mut Vec<u8>,
    sends: &[Probe],
    span: Span,
    at: Stamped,
    place: Option<&Place>,
    entry: Option<&Entry>,
) -> Result<(), NoMemory>
    ensures { OnOk result (text.new.items ≡ text.old.items
        ++ entry_if sends.now span at (option_map (λ p. p.now) place.entry) (option_map (λ x. x.now) entry.entry)) }
{
    match (place, entry) {
        (Some(place), Some(entry)) => {
            if is_wanted(sends, span, at, entry) {
                put_entry(text, place, at, entry)
            } else {
                Ok(())
            }
        }
        _ => Ok(()),
    }
}

/// Puts the entry that stands somewhere last, where it is wanted.
fn put_entry_at<const C: usize>(
    text: &mut Vec<u8>,
    closed: &Closed<C>,
    sends: &[Probe],
    span: Span,
    at: Stamped,
) -> Result<(), NoMemory>
    ensures { OnOk result (text.new.items ≡ text.old.items
        ++ entry_at closed.now.run sends.now span at) }
{
    let place = closed.topology().places().get(at.node);
    let entry = closed.entries_at(at.node).get(at.place);
    put_entry_if(text, sends, span, at, place, entry)
}

/// Puts those entries last that are wanted.
#[tactic(auto, using(hsr_frame::proofs::OneMore::grown))]
fn put_entries<const C: usize>(
    text: &mut Vec<u8>,
    closed: &Closed<C>,
    sends: &[Probe],
    span: Span,
    entries: &[Stamped],
) -> Result<(), NoMemory>
    ensures { OnOk result (text.new.items ≡ text.old.items
        ++ entry_rows closed.now.run sends.now span entries.now) }
{
    for at in entries {
        put_entry_at(text, closed, sends, span, *at)?;
    }
    Ok(())
}

/// Whether an entry is one that the scenario planned: a send, supervision or an age.
fn is_planned_if(entry: Option<&Entry>) -> bool
    ensures { result ≡ is_planned_if (option_map (λ x. x.now) entry.entry) }
{
    match entry {
        None => false,
        Some(entry) => !matches!(entry.event, Event::Arrive { .. }),
    }
}

/// Whether an entry is there and wanted.
fn is_wanted_if(sends: &[Probe], span: Span, at: Stamped, entry: Option<&Entry>) -> bool
    ensures { result ≡ is_wanted_if sends.now span at (option_map (λ x. x.now) entry.entry) }
{
    match entry {
        None => false,
        Some(entry) => is_wanted(sends, span, at, entry),
    }
}

/// Puts the number of an entry among those that were planned last, where it is one and wanted.
fn put_planned_if(
    text: &mut Vec<u8>,
    sends: &[Probe],
    span: Span,
    at: Stamped,
    entry: Option<&Entry>,
    number: usize,
) -> Result<(), NoMemory>
    ensures { OnOk result (text.new.items ≡ text.old.items
        ++ planned_if sends.now span at (option_map (λ x. x.now) entry.entry) number) }
{
    if is_planned_if(entry) && is_wanted_if(sends, span, at, entry) {
        put_number_cell(text, number as u64)
    } else {
        Ok(())
    }
}

/// Puts the number of the entry that stands somewhere last, where it was planned and is wanted.
fn put_planned_at<const C: usize>(
    text: &mut Vec<u8>,
    closed: &Closed<C>,
    sends: &[Probe],
    span: Span,
    at: Stamped,
    number: usize,
) -> Result<(), NoMemory>
    ensures { OnOk result (text.new.items ≡ text.old.items
        ++ planned_at closed.now.run sends.now span at number) }
{
    let entry = closed.entries_at(at.node).get(at.place);
    put_planned_if(text, sends, span, at, entry, number)
}

/// How many entries were planned, with the one that stands somewhere.
fn number_behind<const C: usize>(closed: &Closed<C>, at: Stamped, number: usize) -> usize
    requires { number + 1 < 2 ^ 64 }
    ensures { result ≡ number_behind closed.now.run at number }
{
    if is_planned_if(closed.entries_at(at.node).get(at.place)) {
        number + 1
    } else {
        number
    }
}

/// Puts the numbers of the entries that were planned last, as far as they are wanted.
fn put_planned<const C: usize>(
    text: &mut Vec<u8>,
    closed: &Closed<C>,
    sends: &[Probe],
    span: Span,
    entries: &[Stamped],
) -> Result<(), NoMemory>
    ensures { OnOk result (text.new.items ≡ text.old.items
        ++ planned_from closed.now.run sends.now span 0 entries.now) }
{
    let mut number = 0usize;
    let mut left = entries;
    // What is left is a variable, since the loop's invariant speaks of it.
    while let Some((at, more)) = left.split_first() {
        put_planned_at(text, closed, sends, span, *at, number)?;
        number = number_behind(closed, *at, number);
        left = more;
    }
    Ok(())
}

/// Puts a send last, if there is one.
fn put_send_if<const C: usize>(
    alloc: Global,
    text: &mut Vec<u8>,
    closed: &Closed<C>,
    delivery: Option<&Delivery>,
) -> Result<(), NoMemory>
    ensures { OnOk result (text.new.items ≡ text.old.items
        ++ send_if closed.now.run (option_map (λ d. d.now) delivery.entry)) }
{
    match delivery {
        None => Ok(()),
        Some(delivery) => {
            let entry = closed
                .entries_at(delivery.send.node)
                .get(delivery.send.place);
            put_send(alloc, text, entry, delivery)
        }
    }
}

/// Puts a send that is listed last.
fn put_send_at<const C: usize>(
    alloc: Global,
    text: &mut Vec<u8>,
    closed: &Closed<C>,
    deliveries: &[Delivery],
    sent: Sent,
) -> Result<(), NoMemory>
    ensures { OnOk result (text.new.items ≡ text.old.items
        ++ send_at closed.now.run deliveries.now sent) }
{
    put_send_if(alloc, text, closed, deliveries.get(sent.number))
}

/// Puts those sends last that are listed.
#[tactic(auto, using(hsr_frame::proofs::OneMore::grown))]
fn put_sends<const C: usize>(
    alloc: Global,
    text: &mut Vec<u8>,
    closed: &Closed<C>,
    deliveries: &[Delivery],
    sends: &[Sent],
) -> Result<(), NoMemory>
    ensures { OnOk result (text.new.items ≡ text.old.items
        ++ send_rows closed.now.run deliveries.now sends.now) }
{
    for sent in sends {
        put_send_at(alloc, text, closed, deliveries, *sent)?;
    }
    Ok(())
}

/// Puts a copy last, if its row is there.
fn put_copy_if(text: &mut Vec<u8>, arrow: &Arrow, row: Option<&Row>) -> Result<(), NoMemory>
    ensures { OnOk result (text.new.items ≡ text.old.items
        ++ copy_if arrow.now (option_map (λ r. r.now) row.entry)) }
{
    match row {
        None => Ok(()),
        Some(row) => put_copy(text, arrow, row),
    }
}

/// Puts the copy of an arrow last.
fn put_copy_at<const C: usize>(
    text: &mut Vec<u8>,
    closed: &Closed<C>,
    arrow: &Arrow,
) -> Result<(), NoMemory>
    ensures { OnOk result (text.new.items ≡ text.old.items
        ++ copy_at closed.now.run arrow.now) }
{
    let row = closed.rows_at(arrow.row.link).get(arrow.row.number);
    put_copy_if(text, arrow, row)
}

/// Puts copies last, in their order.
#[tactic(auto, using(hsr_frame::proofs::OneMore::grown))]
fn put_copies<const C: usize>(
    text: &mut Vec<u8>,
    closed: &Closed<C>,
    arrows: &[Arrow],
) -> Result<(), NoMemory>
    ensures { OnOk result (text.new.items ≡ text.old.items ++ copy_rows closed.now.run arrows.now) }
{
    for arrow in arrows {
        put_copy_at(text, closed, arrow)?;
    }
    Ok(())
}

// ---- what a scenario says

/// Puts the times in which links are down last.
#[tactic(auto, using(hsr_frame::proofs::OneMore::grown))]
fn put_downs(text: &mut Vec<u8>, downs: &[Down]) -> Result<(), NoMemory>
    ensures { OnOk result (text.new.items ≡ text.old.items ++ flat_map down_row downs.now) }
{
    for down in downs {
        put_down(text, *down)?;
    }
    Ok(())
}

/// Puts drains last.
#[tactic(auto, using(hsr_frame::proofs::OneMore::grown))]
fn put_drains(text: &mut Vec<u8>, drains: &[Drain]) -> Result<(), NoMemory>
    ensures { OnOk result (text.new.items ≡ text.old.items ++ flat_map drain_row drains.now) }
{
    for drain in drains {
        put_drain(text, *drain)?;
    }
    Ok(())
}

// ---- all

/// Puts the key of a list last.
fn put_key(text: &mut Vec<u8>, key: &str) -> Result<(), NoMemory>
    ensures { OnOk result (text.new.items ≡ text.old.items
        ++ (codes "\"" ++ (key.now ++ codes "\":["))) }
{
    put(text, "\"")?;
    put(text, key)?;
    put(text, "\":[")
}

/// Puts what ends a list last.
fn end_list(text: &mut Vec<u8>) -> Result<(), NoMemory>
    ensures { OnOk result (text.new.items ≡ text.old.items ++ codes "0],") }
{
    put(text, "0],")
}

/// Puts nodes and links last.
#[tactic(auto, unfolding(crate::specs::Data::network_lists, crate::specs::Data::keyed))]
fn put_network<const C: usize>(
    alloc: Global,
    text: &mut Vec<u8>,
    closed: &Closed<C>,
    names: &[Vec<u8>],
) -> Result<(), NoMemory>
    ensures { OnOk result (text.new.items ≡ text.old.items
        ++ network_lists (lists_of names.now) closed.now) }
{
    let places = closed.topology().places();
    put_key(text, "nodes")?;
    put_nodes(alloc, text, names, places)?;
    end_list(text)?;
    put_key(text, "links")?;
    put_links(text, places, closed.topology().links())?;
    end_list(text)
}

/// Puts the list of entries last.
#[tactic(auto, unfolding(crate::specs::Data::keyed))]
fn put_entry_list<const C: usize>(
    text: &mut Vec<u8>,
    closed: &Closed<C>,
    sends: &[Probe],
    span: Span,
    entries: &[Stamped],
) -> Result<(), NoMemory>
    ensures { OnOk result (text.new.items ≡ text.old.items
        ++ keyed (codes "entries") (entry_rows closed.now.run sends.now span entries.now)) }
{
    put_key(text, "entries")?;
    put_entries(text, closed, sends, span, entries)?;
    end_list(text)
}

/// Puts the list of the numbers of entries that were planned last.
#[tactic(auto, unfolding(crate::specs::Data::keyed))]
fn put_planned_list<const C: usize>(
    text: &mut Vec<u8>,
    closed: &Closed<C>,
    sends: &[Probe],
    span: Span,
    entries: &[Stamped],
) -> Result<(), NoMemory>
    ensures { OnOk result (text.new.items ≡ text.old.items
        ++ keyed (codes "planned") (planned_from closed.now.run sends.now span 0 entries.now)) }
{
    put_key(text, "planned")?;
    put_planned(text, closed, sends, span, entries)?;
    end_list(text)
}

/// Puts the list of sends last.
#[tactic(auto, unfolding(crate::specs::Data::keyed))]
fn put_send_list<const C: usize>(
    alloc: Global,
    text: &mut Vec<u8>,
    closed: &Closed<C>,
    picture: &Picture,
) -> Result<(), NoMemory>
    ensures { OnOk result (text.new.items ≡ text.old.items
        ++ keyed (codes "sends") (send_rows closed.now.run picture.now.deliveries picture.now.sends)) }
{
    put_key(text, "sends")?;
    put_sends(
        alloc,
        text,
        closed,
        picture.deliveries.sends.as_slice(),
        picture.sends.as_slice(),
    )?;
    end_list(text)
}

/// Puts the list of copies last.
#[tactic(auto, unfolding(crate::specs::Data::keyed))]
fn put_copy_list<const C: usize>(
    text: &mut Vec<u8>,
    closed: &Closed<C>,
    picture: &Picture,
) -> Result<(), NoMemory>
    ensures { OnOk result (text.new.items ≡ text.old.items
        ++ keyed (codes "copies") (copy_rows closed.now.run picture.now.arrows)) }
{
    put_key(text, "copies")?;
    put_copies(text, closed, picture.arrows.as_slice())?;
    end_list(text)
}

/// Puts entries, with those that were planned, sends and copies last.
#[tactic(auto, unfolding(crate::specs::Data::run_lists))]
fn put_run<const C: usize>(
    alloc: Global,
    text: &mut Vec<u8>,
    closed: &Closed<C>,
    sends: &[Probe],
    span: Span,
    entries: &[Stamped],
    picture: &Picture,
) -> Result<(), NoMemory>
    ensures { OnOk result (text.new.items ≡ text.old.items
        ++ run_lists closed.now.run sends.now span entries.now picture.now) }
{
    put_entry_list(text, closed, sends, span, entries)?;
    put_planned_list(text, closed, sends, span, entries)?;
    put_send_list(alloc, text, closed, picture)?;
    put_copy_list(text, closed, picture)
}

/// Puts what a scenario says last.
#[tactic(auto, unfolding(crate::specs::Data::told_lists, crate::specs::Data::keyed))]
fn put_told(text: &mut Vec<u8>, downs: &[Down], drains: &[Drain]) -> Result<(), NoMemory>
    ensures { OnOk result (text.new.items ≡ text.old.items ++ told_lists downs.now drains.now) }
{
    put_key(text, "downs")?;
    put_downs(text, downs)?;
    end_list(text)?;
    put_key(text, "drains")?;
    put_drains(text, drains)?;
    end_list(text)
}

/// What the data of a page is formed by.
#[derive(Clone, Copy)]
pub(crate) struct Data<'a> {
    pub(crate) names: &'a [Vec<u8>],
    pub(crate) sends: &'a [Probe],
    pub(crate) span: Span,
    pub(crate) entries: &'a [Stamped],
    pub(crate) picture: &'a Picture,
    pub(crate) downs: &'a [Down],
    pub(crate) drains: &'a [Drain],
}

/// How many entries a table of a run has.
fn table_of<const C: usize>(closed: &Closed<C>) -> usize
    ensures { result ≡ closed.now.run.capacity }
{
    // It is the topology's contract that says so.
    closed.topology();
    C
}

/// The data of a page.
#[tactic(auto, unfolding(crate::specs::Data::data_text))]
pub(crate) fn data_of<const C: usize>(
    alloc: Global,
    closed: &Closed<C>,
    shown: Data<'_>,
) -> Result<Vec<u8>, NoMemory>
    ensures { IfOk result (λ json. json.items ≡ data_text (lists_of shown.entry.names.now) closed.now shown.entry.sends.now shown.entry.span shown.entry.entries.now shown.entry.picture.now shown.entry.downs.now shown.entry.drains.now) }
{
    let mut text = Vec::new(alloc);
    put(&mut text, "{\"v\":1,\"table\":")?;
    put_number(&mut text, table_of(closed) as u64)?;
    put(&mut text, ",")?;
    put_network(alloc, &mut text, closed, shown.names)?;
    put_run(
        alloc,
        &mut text,
        closed,
        shown.sends,
        shown.span,
        shown.entries,
        shown.picture,
    )?;
    put_told(&mut text, shown.downs, shown.drains)?;
    put(&mut text, "\"end\":0}")?;
    Ok(text)
}
