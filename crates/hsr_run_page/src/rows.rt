//! The rows of the page's data, as JSON.
//!
//! A list ends with a 0, so that each cell and each row ends with a comma, and none has to know whether it is the last.
ghost use Rattle.std.specs.Prelude.{◌≡◌, ◌++◌, [], codes, length, option_map, slice_get, OnOk};
ghost use Rattle.std.specs.Fmt.{decimal};
ghost use Rattle.std.specs.List.{flat_map};
ghost use Rattle.hsr_run_page.specs.Rows.{about_word, came_of, cause_in, change_cells, copy_row, down_row, drain_row, end_cells, end_or, entry_row, event_cells, event_word, flag_cell, got_cells, mac_cell, mac_cells, mode_in, node_row, number_cell, number_or, numbers_cell, outcome_cells, port_in, port_text, ports_in, ports_text, probe_cells, probe_or, row_cells, send_row, sent_cells, sent_if, spot_or, stamp_cells, up_in, word_cell};

use crate::entries::Stamped;
use hsr_deliveries::Delivery;
use hsr_diagram::Arrow;
use hsr_downs::{Change, Down, Drain};
use hsr_frame::{About, Mac, NoMemory};
use hsr_link::Row;
use hsr_node::{Entry, Event, Outcome, Place, Probe};
use hsr_page::put_json_numbers;
use hsr_text::{put, put_mac, put_number, put_octets};
use hsr_timeline::{Spot, put_letter};
use hsr_topology::End;
use std::alloc::Global;

// ---- cells

/// Puts a number last.
pub(crate) fn put_number_cell(text: &mut Vec<u8>, number: u64) -> Result<(), NoMemory>
    ensures { OnOk result (text.new.items ≡ text.old.items ++ number_cell number) }
{
    put_number(text, number)?;
    put(text, ",")
}

/// Puts a number last, or -1 where there is none.
fn put_number_or(text: &mut Vec<u8>, number: Option<u16>) -> Result<(), NoMemory>
    ensures { OnOk result (text.new.items ≡ text.old.items ++ number_or number) }
{
    match number {
        None => put(text, "-1,"),
        Some(number) => put_number_cell(text, u64::from(number)),
    }
}

/// Puts a word last, in quotation marks. It is one of the product's own, so it needs no escape.
#[tactic(auto, unfolding(crate::specs::Rows::word_cell))]
fn put_word(text: &mut Vec<u8>, word: &str) -> Result<(), NoMemory>
    ensures { OnOk result (text.new.items ≡ text.old.items ++ word_cell word.now) }
{
    put(text, "\"")?;
    put(text, word)?;
    put(text, "\",")
}

/// Puts a list of numbers last.
fn put_numbers(text: &mut Vec<u8>, numbers: &[usize]) -> Result<(), NoMemory>
    ensures { OnOk result (text.new.items ≡ text.old.items ++ numbers_cell numbers.now) }
{
    put_json_numbers(text, numbers)?;
    put(text, ",")
}

/// Puts the node and the place of a send last.
fn put_probe(text: &mut Vec<u8>, probe: Probe) -> Result<(), NoMemory>
    ensures { OnOk result (text.new.items ≡ text.old.items ++ probe_cells probe) }
{
    put_number_cell(text, probe.node as u64)?;
    put_number_cell(text, probe.place as u64)
}

/// Puts the node and the place of a send last, or -1 twice where there is none.
fn put_probe_or(text: &mut Vec<u8>, probe: Option<Probe>) -> Result<(), NoMemory>
    ensures { OnOk result (text.new.items ≡ text.old.items ++ probe_or probe) }
{
    match probe {
        None => put(text, "-1,-1,"),
        Some(probe) => put_probe(text, probe),
    }
}

/// Puts the node and the place of an entry last, or -1 twice where there is none.
fn put_spot_or(text: &mut Vec<u8>, spot: Option<Spot>) -> Result<(), NoMemory>
    ensures { OnOk result (text.new.items ≡ text.old.items ++ spot_or spot) }
{
    match spot {
        None => put(text, "-1,-1,"),
        Some(spot) => {
            put_number_cell(text, spot.node as u64)?;
            put_number_cell(text, spot.place as u64)
        }
    }
}

/// Puts an address last.
#[tactic(auto, unfolding(crate::specs::Rows::word_cell))]
fn put_address(alloc: Global, text: &mut Vec<u8>, mac: Mac) -> Result<(), NoMemory>
    ensures { OnOk result (text.new.items ≡ text.old.items ++ mac_cell mac) }
{
    put(text, "\"")?;
    put_mac(alloc, text, mac)?;
    put(text, "\",")
}

// ---- nodes and links

/// The mode of a node on a ring, as a word.
fn mode_in(place: &Place) -> &'static str
    ensures { result.now ≡ mode_in place.now }
{
    match place {
        Place::Danh { mode, .. } | Place::RedBox { mode, .. } => mode.word(),
        Place::QuadBox | Place::Station { .. } => "",
    }
}

/// Puts addresses last.
#[tactic(auto, using(hsr_frame::proofs::OneMore::grown))]
fn put_addresses(alloc: Global, text: &mut Vec<u8>, macs: &[Mac]) -> Result<(), NoMemory>
    ensures { OnOk result (text.new.items ≡ text.old.items ++ flat_map mac_cell macs.now) }
{
    for mac in macs {
        put_address(alloc, text, *mac)?;
    }
    Ok(())
}

/// Puts the addresses of a node last.
fn put_macs(alloc: Global, text: &mut Vec<u8>, place: &Place) -> Result<(), NoMemory>
    ensures { OnOk result (text.new.items ≡ text.old.items ++ mac_cells place.now) }
{
    match place {
        Place::Danh { mac, .. } | Place::RedBox { mac, .. } => put_address(alloc, text, *mac),
        Place::QuadBox => Ok(()),
        Place::Station { macs } => put_addresses(alloc, text, macs.as_slice()),
    }
}

/// Puts a node last, with its name as it is spelled in JSON.
#[tactic(auto, unfolding(crate::specs::Rows::node_row))]
pub(crate) fn put_node(
    alloc: Global,
    text: &mut Vec<u8>,
    name: &[u8],
    place: &Place,
) -> Result<(), NoMemory>
    ensures { OnOk result (text.new.items ≡ text.old.items ++ node_row name.now place.now) }
{
    put(text, "[")?;
    put_octets(text, name)?;
    put(text, ",")?;
    put_word(text, place.role().word())?;
    put_word(text, mode_in(place))?;
    put(text, "[")?;
    put_macs(alloc, text, place)?;
    put(text, "0]],")
}

/// Puts an end of a link last.
#[tactic(auto, unfolding(crate::specs::Rows::end_cells, crate::specs::Rows::word_cell))]
pub(crate) fn put_end(text: &mut Vec<u8>, places: &[Place], end: End) -> Result<(), NoMemory>
    ensures { OnOk result (text.new.items ≡ text.old.items
        ++ end_cells (slice_get places.now end.node) end) }
{
    put_number_cell(text, end.node as u64)?;
    put(text, "\"")?;
    put_letter(text, places, end)?;
    put(text, "\",")
}

// ---- entries

/// The word of an event.
fn event_word(event: &Event) -> &'static str
    ensures { result.now ≡ event_word event.now }
{
    match event {
        Event::Send { .. } => "send",
        Event::Supervise(_) => "life",
        Event::Arrive { .. } => "arrive",
        Event::Age => "age",
    }
}

/// The send whose copy came, if one did.
fn came_of(event: &Event) -> Option<Probe>
    ensures { result ≡ came_of event.now }
{
    match event {
        Event::Arrive { carried, .. } => carried.probe,
        _ => None,
    }
}

/// Puts the letter of the port at which a copy came last, in quotation marks.
#[tactic(auto, unfolding(crate::specs::Rows::word_cell))]
fn put_port_in(text: &mut Vec<u8>, place: &Place, event: &Event) -> Result<(), NoMemory>
    ensures { OnOk result (text.new.items ≡ text.old.items
        ++ word_cell (port_in place.now event.now)) }
{
    put(text, "\"")?;
    if let Event::Arrive { port, .. } = event {
        text.push(place.letter(*port))?;
    }
    put(text, "\",")
}

/// Puts an event last.
#[tactic(auto, unfolding(crate::specs::Rows::event_cells))]
fn put_event(text: &mut Vec<u8>, place: &Place, event: &Event) -> Result<(), NoMemory>
    ensures { OnOk result (text.new.items ≡ text.old.items ++ event_cells place.now event.now) }
{
    put_word(text, event_word(event))?;
    put_probe_or(text, came_of(event))?;
    put_port_in(text, place, event)
}

/// What became of an arrival, as a word.
fn cause_in(outcome: &Outcome) -> &'static str
    ensures { result.now ≡ cause_in outcome.now }
{
    match outcome {
        Outcome::Judged { cause, .. } => cause.word(),
        _ => "",
    }
}

/// Whether an arrival was taken up.
fn up_in(outcome: &Outcome) -> bool
    ensures { result ≡ up_in outcome.now }
{
    match outcome {
        Outcome::Judged { up, .. } => *up,
        _ => false,
    }
}

/// By which ports something left.
fn ports_in(outcome: &Outcome) -> &[bool]
    ensures { result.now ≡ ports_in outcome.now }
{
    match outcome {
        Outcome::Sent { ports, .. } | Outcome::Life { ports, .. } | Outcome::Judged { ports, .. } =>
            ports.as_slice(),
        Outcome::Aged => &[],
    }
}

/// Puts the letter of a port last, if something left by it.
fn put_port(text: &mut Vec<u8>, place: &Place, ports: &[bool], port: u8) -> Result<(), NoMemory>
    ensures { OnOk result (text.new.items ≡ text.old.items ++ port_text place.now ports.now port) }
{
    // A node has four ports at most, so a port past them let nothing out.
    if ports.get(usize::from(port)).copied().unwrap_or(false) {
        text.push(place.letter(port))?;
    }
    Ok(())
}

/// Puts the letters of the ports by which something left last.
#[tactic(auto, unfolding(crate::specs::Rows::ports_text))]
fn put_ports(text: &mut Vec<u8>, place: &Place, ports: &[bool]) -> Result<(), NoMemory>
    ensures { OnOk result (text.new.items ≡ text.old.items ++ ports_text place.now ports.now) }
{
    put_port(text, place, ports, 0)?;
    put_port(text, place, ports, 1)?;
    put_port(text, place, ports, 2)?;
    put_port(text, place, ports, 3)
}

/// Puts these letters last, in quotation marks.
#[tactic(auto, unfolding(crate::specs::Rows::word_cell))]
fn put_out(text: &mut Vec<u8>, place: &Place, ports: &[bool]) -> Result<(), NoMemory>
    ensures { OnOk result (text.new.items ≡ text.old.items
        ++ word_cell (ports_text place.now ports.now)) }
{
    put(text, "\"")?;
    put_ports(text, place, ports)?;
    put(text, "\",")
}

/// Puts what a node answered last.
#[tactic(auto, unfolding(crate::specs::Rows::outcome_cells))]
fn put_outcome(text: &mut Vec<u8>, place: &Place, outcome: &Outcome) -> Result<(), NoMemory>
    ensures { OnOk result (text.new.items ≡ text.old.items ++ outcome_cells place.now outcome.now) }
{
    put_word(text, cause_in(outcome))?;
    put(text, if up_in(outcome) { "1," } else { "0," })?;
    put_out(text, place, ports_in(outcome))?;
    put_number_or(text, outcome.number())
}

/// Puts where an entry stands last, and when it took place.
#[tactic(auto, unfolding(crate::specs::Rows::stamp_cells))]
fn put_stamp(text: &mut Vec<u8>, at: Stamped) -> Result<(), NoMemory>
    ensures { OnOk result (text.new.items ≡ text.old.items ++ stamp_cells at) }
{
    put_number_cell(text, at.node as u64)?;
    put_number_cell(text, at.place as u64)?;
    put_number_cell(text, at.moment)?;
    put_number_cell(text, at.step)
}

/// Puts an entry last.
#[tactic(auto, unfolding(crate::specs::Rows::entry_row))]
pub(crate) fn put_entry(
    text: &mut Vec<u8>,
    place: &Place,
    at: Stamped,
    entry: &Entry,
) -> Result<(), NoMemory>
    ensures { OnOk result (text.new.items ≡ text.old.items ++ entry_row place.now at entry.now) }
{
    put(text, "[")?;
    put_stamp(text, at)?;
    put_event(text, place, &entry.event)?;
    put_outcome(text, place, &entry.outcome)?;
    put(text, "0],")
}

// ---- sends

/// Puts what a node sent of its own last, without its payload: a page may be handed on.
fn put_send_event(
    text: &mut Vec<u8>,
    from: u8,
    vlan: Option<u16>,
    ethertype: u16,
    octets: usize,
) -> Result<(), NoMemory>
    ensures { OnOk result (text.new.items ≡ text.old.items
        ++ (number_cell from ++ (number_or vlan ++ (number_cell ethertype ++ (number_cell octets ++ word_cell []))))) }
{
    put_number_cell(text, u64::from(from))?;
    put_number_or(text, vlan)?;
    put_number_cell(text, u64::from(ethertype))?;
    put_number_cell(text, octets as u64)?;
    put_word(text, "")
}

/// Puts whom supervision is about last, in quotation marks; nothing stands there where it is the node itself.
#[tactic(auto, unfolding(crate::specs::Rows::word_cell))]
fn put_about(alloc: Global, text: &mut Vec<u8>, about: About) -> Result<(), NoMemory>
    ensures { OnOk result (text.new.items ≡ text.old.items ++ word_cell (about_word about)) }
{
    put(text, "\"")?;
    if let About::Proxied(mac) = about {
        put_mac(alloc, text, mac)?;
    }
    put(text, "\",")
}

/// Puts what a node sent of its own last.
fn put_sent(alloc: Global, text: &mut Vec<u8>, event: &Event) -> Result<(), NoMemory>
    ensures { OnOk result (text.new.items ≡ text.old.items ++ sent_cells event.now) }
{
    match event {
        Event::Send {
            from,
            dst: _,
            vlan,
            kind: ethertype,
            payload,
        } => put_send_event(text, *from, *vlan, *ethertype, payload.as_slice().len()),
        Event::Supervise(about) => {
            put(text, "0,-1,-1,-1,")?;
            put_about(alloc, text, *about)
        }
        _ => put(text, "0,-1,-1,-1,\"\","),
    }
}

/// Puts what the entry of a send says last, if that is there.
fn put_sent_if(alloc: Global, text: &mut Vec<u8>, entry: Option<&Entry>) -> Result<(), NoMemory>
    ensures { OnOk result (text.new.items ≡ text.old.items
        ++ sent_if (option_map (λ x. x.now) entry.entry)) }
{
    match entry {
        None => put(text, "0,-1,-1,-1,\"\","),
        Some(entry) => put_sent(alloc, text, &entry.event),
    }
}

/// Puts who got a send last.
#[tactic(auto, unfolding(crate::specs::Rows::got_cells))]
fn put_got(text: &mut Vec<u8>, delivery: &Delivery) -> Result<(), NoMemory>
    ensures { OnOk result (text.new.items ≡ text.old.items ++ got_cells delivery.now) }
{
    put_numbers(text, delivery.due.as_slice())?;
    put_numbers(text, delivery.missed.as_slice())?;
    put_numbers(text, delivery.twice.as_slice())?;
    put_numbers(text, delivery.strayed.as_slice())?;
    put_number_cell(text, delivery.lost.len() as u64)
}

/// Puts a send last, by its entry.
#[tactic(auto, unfolding(crate::specs::Rows::send_row))]
pub(crate) fn put_send(
    alloc: Global,
    text: &mut Vec<u8>,
    entry: Option<&Entry>,
    delivery: &Delivery,
) -> Result<(), NoMemory>
    ensures { OnOk result (text.new.items ≡ text.old.items
        ++ send_row (option_map (λ x. x.now) entry.entry) delivery.now) }
{
    put(text, "[")?;
    put_probe(text, delivery.send)?;
    put_number_cell(text, delivery.at)?;
    put_address(alloc, text, delivery.dst)?;
    put_sent_if(alloc, text, entry)?;
    put_got(text, delivery)?;
    put(text, "0],")
}

// ---- copies

/// Puts the link of a copy last, its direction and its fate.
#[tactic(auto, unfolding(crate::specs::Rows::row_cells))]
fn put_row(text: &mut Vec<u8>, link: usize, row: &Row) -> Result<(), NoMemory>
    ensures { OnOk result (text.new.items ≡ text.old.items ++ row_cells link row.now) }
{
    put_number_cell(text, link as u64)?;
    put_word(text, row.dir.word())?;
    put_word(text, row.fate.word())
}

/// Puts a copy last.
#[tactic(auto, unfolding(crate::specs::Rows::copy_row))]
pub(crate) fn put_copy(text: &mut Vec<u8>, arrow: &Arrow, row: &Row) -> Result<(), NoMemory>
    ensures { OnOk result (text.new.items ≡ text.old.items ++ copy_row arrow.now row.now) }
{
    put(text, "[")?;
    put_row(text, arrow.row.link, row)?;
    put_spot_or(text, arrow.passed)?;
    put_spot_or(text, arrow.judged)?;
    put(text, "0],")
}

// ---- what a scenario says

/// Puts the moment of a change last, and how many sends, supervisions and ages stand before it.
fn put_change(text: &mut Vec<u8>, change: Change) -> Result<(), NoMemory>
    ensures { OnOk result (text.new.items ≡ text.old.items ++ change_cells change) }
{
    put_number_cell(text, change.moment)?;
    put_number_cell(text, change.planned as u64)
}

/// Puts the end of a time in which a link is down last, or -1 twice where there is none.
fn put_end_or(text: &mut Vec<u8>, end: Option<Change>) -> Result<(), NoMemory>
    ensures { OnOk result (text.new.items ≡ text.old.items ++ end_or end) }
{
    match end {
        None => put(text, "-1,-1,"),
        Some(change) => put_change(text, change),
    }
}

/// Puts a time in which a link is down last.
#[tactic(auto, unfolding(crate::specs::Rows::down_row))]
pub(crate) fn put_down(text: &mut Vec<u8>, down: Down) -> Result<(), NoMemory>
    ensures { OnOk result (text.new.items ≡ text.old.items ++ down_row down) }
{
    put(text, "[")?;
    put_number_cell(text, down.cut.link as u64)?;
    put_change(text, down.cut)?;
    put_end_or(text, down.end)?;
    put(text, "0],")
}

/// Puts a drain last.
#[tactic(auto, unfolding(crate::specs::Rows::drain_row))]
pub(crate) fn put_drain(text: &mut Vec<u8>, drain: Drain) -> Result<(), NoMemory>
    ensures { OnOk result (text.new.items ≡ text.old.items ++ drain_row drain) }
{
    put(text, "[")?;
    put_number_cell(text, drain.moment)?;
    put_number_cell(text, drain.planned as u64)?;
    put(text, "0],")
}
