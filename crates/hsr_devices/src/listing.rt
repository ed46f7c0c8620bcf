//! The list of all devices.
ghost use Rattle.std.specs.Prelude.{◌≡◌, ◌<◌, ◌++◌, ◌∷◌, [], IfOk, OnOk, codes, fold, length, map};
ghost use Rattle.std.specs.Fmt.{decimal};
ghost use Rattle.std.specs.List.{flat_map};
ghost use Rattle.hsr_run_laws.specs.Run.{place_of};
ghost use Rattle.hsr_timeline.specs.Fronts.{lists_of};
ghost use Rattle.hsr_devices.specs.Listing.{AreMost, AreSums, IsListing, amount_at, amount_in, columns_text, device_text, devices_below, head_text, known_at, letter_cell, links_at, needed_if, needed_text, peer_text, peers_row, ports_row, sent_text, table_text, traffic_text, unheard_at, unreadable_if, unreadable_line, wider};
ghost use Rattle.hsr_devices.specs.Cells.{right};

use crate::cells::{put_label, put_right};
use crate::describing::{put_addresses, put_known, put_unheard};
use crate::known::known_by;
use crate::lines::{Columns, put_arrivals, put_departures};
use crate::port::{PortLink, port_link};
use crate::unheard::unheard;
use hsr_finished_run::Closed;
use hsr_frame::{Counters, NoMemory};
use hsr_node::Place;
use hsr_table_demand::{Needed, needed_at};
use hsr_text::{put, put_number, put_octets};
use hsr_timeline::{put_name, put_port};
use hsr_topology::End;
use std::alloc::Global;

/// The least width of the other columns.
const WIDTH: usize = 10;

/// The links of a node's ports.
#[tactic(auto, unfolding(crate::specs::Listing::links_at))]
fn links_at<const C: usize>(
    alloc: Global,
    closed: &Closed<C>,
    node: usize,
    ports: u8,
) -> Result<Vec<Option<PortLink>>, NoMemory>
    ensures { IfOk result (λ links. links.items ≡ links_at closed.now.run node ports) }
{
    let mut links = Vec::new(alloc);
    for port in 0..ports {
        let link = port_link(closed, End { node, port })?;
        links.push(link)?;
    }
    Ok(links)
}

/// What is told of the link of a port.
#[derive(Clone, Copy)]
enum Amount {
    /// Copies that were lost on their way in.
    LostIn,
    /// Copies that were lost on their way out.
    LostOut,
    /// The octets that came in.
    OctetsIn,
    /// The octets that were put on the link.
    OctetsOut,
}

/// What is told of a link.
fn amount_in(what: Amount, link: &PortLink) -> u64
    ensures { result ≡ amount_in what link.now }
{
    match what {
        Amount::LostIn => link.lost_in as u64,
        Amount::LostOut => link.lost_out as u64,
        Amount::OctetsIn => link.octets_in,
        Amount::OctetsOut => link.octets_out,
    }
}

/// What is told of the link of a port: 0 where it has none.
fn amount_at(what: Amount, link: &Option<PortLink>) -> u64
    ensures { result ≡ amount_at what link.now }
{
    match link {
        Some(link) => amount_in(what, link),
        None => 0,
    }
}

/// What is told of the link of each port.
fn amounts(alloc: Global, what: Amount, links: &[Option<PortLink>]) -> Result<Vec<u64>, NoMemory>
    ensures { IfOk result (λ amounts. amounts.items ≡ map (amount_at what) links.now) }
{
    let mut amounts = Vec::new(alloc);
    for link in links {
        amounts.push(amount_at(what, link))?;
    }
    Ok(amounts)
}

/// The port to which a port leads, in words.
fn peer(
    alloc: Global,
    names: &[Vec<u8>],
    places: &[Place],
    link: &Option<PortLink>,
) -> Result<Vec<u8>, NoMemory>
    ensures { IfOk result (λ text. text.items
        ≡ peer_text (lists_of names.now) places.now link.now) }
{
    let mut text = Vec::new(alloc);
    match link {
        Some(link) => put_port(&mut text, b".", names, places, link.peer)?,
        None => put(&mut text, "-")?,
    }
    Ok(text)
}

/// Puts one more text last.
fn add(texts: &mut Vec<Vec<u8>>, text: Vec<u8>) -> Result<(), NoMemory>
    ensures { OnOk result (texts.new.items ≡ texts.old.items ++ text ∷ []) }
{
    texts.push(text)?;
    Ok(())
}

/// The ports to which a node's ports lead, in words.
fn peers(
    alloc: Global,
    names: &[Vec<u8>],
    places: &[Place],
    links: &[Option<PortLink>],
) -> Result<Vec<Vec<u8>>, NoMemory>
    ensures { IfOk result (λ texts. lists_of texts.items
        ≡ map (peer_text (lists_of names.now) places.now) links.now) }
{
    let mut texts = Vec::new(alloc);
    for link in links {
        add(&mut texts, peer(alloc, names, places, link)?)?;
    }
    Ok(texts)
}

/// How wide a column is that has room for all of these, and two spaces.
fn width_of(texts: &[Vec<u8>]) -> usize
    ensures { result ≡ fold wider 10 (lists_of texts.now) }
{
    let mut width = WIDTH;
    for text in texts {
        width = width.max(text.len() + 2);
    }
    width
}

/// Puts the row of ports last.
#[tactic(auto, unfolding(crate::specs::Listing::ports_row))]
fn put_ports(text: &mut Vec<u8>, width: usize, place: &Place) -> Result<(), NoMemory>
    ensures { OnOk result (text.new.items ≡ text.old.items ++ ports_row width place.now) }
{
    put_label(text, b"  port")?;
    put_letters(text, width, place.letters())?;
    put_right(text, width, b"node")?;
    put(text, "\n")
}

/// Puts letters last, each in a column.
#[tactic(auto, using(hsr_frame::proofs::OneMore::grown))]
fn put_letters(text: &mut Vec<u8>, width: usize, letters: &[u8]) -> Result<(), NoMemory>
    ensures { OnOk result (text.new.items ≡ text.old.items
        ++ flat_map (letter_cell width) letters.now) }
{
    for letter in letters {
        put_right(text, width, [*letter].as_slice())?;
    }
    Ok(())
}

/// Puts texts last, each in a column.
#[tactic(auto, using(hsr_frame::proofs::OneMore::grown))]
fn put_each(text: &mut Vec<u8>, width: usize, texts: &[Vec<u8>]) -> Result<(), NoMemory>
    ensures { OnOk result (text.new.items ≡ text.old.items
        ++ flat_map (λ cell. right width cell.items) texts.now) }
{
    for cell in texts {
        put_right(text, width, cell.as_slice())?;
    }
    Ok(())
}

/// The same, by what the texts are.
fn put_texts(text: &mut Vec<u8>, width: usize, texts: &[Vec<u8>]) -> Result<(), NoMemory>
    ensures { OnOk result (text.new.items ≡ text.old.items
        ++ flat_map (right width) (lists_of texts.now)) }
{
    // A call of its own turns a clause over vectors into one over lists.
    put_each(text, width, texts)
}

/// Puts the row of the ports to which a node's ports lead last.
#[tactic(auto, unfolding(crate::specs::Listing::peers_row))]
fn put_peers(text: &mut Vec<u8>, width: usize, peers: &[Vec<u8>]) -> Result<(), NoMemory>
    ensures { OnOk result (text.new.items ≡ text.old.items
        ++ peers_row width (lists_of peers.now)) }
{
    put_label(text, b"  leads to")?;
    put_texts(text, width, peers)?;
    put(text, "\n")
}

/// Puts the line of what a node is last.
#[tactic(auto, unfolding(crate::specs::Listing::head_text))]
fn put_head(
    alloc: Global,
    text: &mut Vec<u8>,
    names: &[Vec<u8>],
    node: usize,
    place: &Place,
) -> Result<(), NoMemory>
    ensures { OnOk result (text.new.items ≡ text.old.items
        ++ head_text (lists_of names.now) node place.now) }
{
    put_name(text, names, node)?;
    put(text, "  ")?;
    put(text, place.role().word())?;
    put_addresses(alloc, text, place)?;
    put(text, "\n")
}

/// Puts the line of what a node sent last.
#[tactic(auto, unfolding(crate::specs::Listing::sent_text))]
fn put_sent(text: &mut Vec<u8>, node: Counters) -> Result<(), NoMemory>
    ensures { OnOk result (text.new.items ≡ text.old.items ++ sent_text node) }
{
    put(text, "  sent ")?;
    put_number(text, node.sent)?;
    put(text, ", supervision ")?;
    put_number(text, node.life)?;
    put(text, "\n")
}

/// Puts how many entries of a table were needed last, and where first.
fn put_entries(text: &mut Vec<u8>, needed: Needed) -> Result<(), NoMemory>
    ensures { OnOk result (text.new.items ≡ text.old.items ++ needed_if needed.entries needed.at) }
{
    match needed.at {
        Some((_, place)) => {
            put(text, ", needed ")?;
            put_number(text, needed.entries as u64)?;
            put(text, ", at entry ")?;
            put_number(text, place as u64)
        }
        None => put(text, ", needed 0"),
    }
}

/// Puts the line of a node's duplicate tables last.
#[tactic(auto, unfolding(crate::specs::Listing::table_text))]
fn put_table(text: &mut Vec<u8>, entries: usize, needed: Needed) -> Result<(), NoMemory>
    ensures { OnOk result (text.new.items ≡ text.old.items ++ table_text entries needed) }
{
    put(text, "  table of ")?;
    put_number(text, entries as u64)?;
    put_entries(text, needed)?;
    put(text, "\n")
}

/// How many entries a duplicate table has.
fn capacity<const C: usize>(closed: &Closed<C>) -> usize
    ensures { result ≡ closed.now.run.capacity }
{
    // Its contract says that the run's tables have `C` entries.
    let _topology = closed.topology();
    C
}

/// Puts that line last, if the node has duplicate tables.
#[tactic(auto, unfolding(crate::specs::Listing::needed_text))]
fn put_needed(
    text: &mut Vec<u8>,
    place: &Place,
    entries: usize,
    needed: Needed,
) -> Result<(), NoMemory>
    ensures { OnOk result (text.new.items ≡ text.old.items
        ++ needed_text place.now entries needed) }
{
    match place {
        Place::Station { .. } => Ok(()),
        _ => put_table(text, entries, needed),
    }
}

/// Puts the line of a number behind words last.
fn put_number_line(text: &mut Vec<u8>, words: &[u8], n: u64) -> Result<(), NoMemory>
    ensures { OnOk result (text.new.items ≡ text.old.items ++ (words.now ++ decimal n
        ++ codes "\n")) }
{
    put_octets(text, words)?;
    put_number(text, n)?;
    put(text, "\n")
}

/// Puts the line of how many supervision frames a node couldn't read last.
#[tactic(auto, unfolding(crate::specs::Listing::unreadable_line))]
fn put_unreadable(text: &mut Vec<u8>, count: u64) -> Result<(), NoMemory>
    ensures { OnOk result (text.new.items ≡ text.old.items ++ unreadable_line count) }
{
    put_number_line(text, b"  unreadable supervision ", count)
}

/// Puts that line last, if there were any.
#[tactic(auto, unfolding(crate::specs::Listing::unreadable_if))]
fn put_unreadable_if(text: &mut Vec<u8>, count: u64) -> Result<(), NoMemory>
    ensures { OnOk result (text.new.items ≡ text.old.items ++ unreadable_if count) }
{
    if count == 0 {
        return Ok(());
    }
    put_unreadable(text, count)
}

/// Puts the rows of what came to a node's ports and of what left by them last.
#[tactic(auto, unfolding(crate::specs::Listing::traffic_text))]
fn put_traffic<const C: usize>(
    alloc: Global,
    text: &mut Vec<u8>,
    width: usize,
    closed: &Closed<C>,
    node: usize,
    place: &Place,
    links: &[Option<PortLink>],
) -> Result<(), NoMemory>
    requires below { node < length closed.now.run.places }
    requires place { place.now ≡ place_of closed.now.run node }
    ensures { OnOk result (text.new.items ≡ text.old.items
        ++ traffic_text width closed.now.run node place.now links.now) }
{
    let counters = closed.counters(node);
    let columns = Columns {
        entries: closed.entries(node),
        ports: place.ports(),
        width,
    };
    let came = amounts(alloc, Amount::OctetsIn, links)?;
    let lost = amounts(alloc, Amount::LostIn, links)?;
    put_arrivals(
        alloc,
        text,
        &columns,
        counters,
        came.as_slice(),
        lost.as_slice(),
    )?;
    let left = amounts(alloc, Amount::OctetsOut, links)?;
    let lost = amounts(alloc, Amount::LostOut, links)?;
    put_departures(
        alloc,
        text,
        &columns,
        counters,
        left.as_slice(),
        lost.as_slice(),
    )
}

/// Puts the table of a node last: its ports, where they lead, and what came and left there.
#[tactic(auto, unfolding(crate::specs::Listing::columns_text))]
fn put_columns<const C: usize>(
    alloc: Global,
    text: &mut Vec<u8>,
    names: &[Vec<u8>],
    closed: &Closed<C>,
    node: usize,
    place: &Place,
) -> Result<(), NoMemory>
    requires below { node < length closed.now.run.places }
    requires place { place.now ≡ place_of closed.now.run node }
    ensures { OnOk result (text.new.items ≡ text.old.items
        ++ columns_text (lists_of names.now) closed.now.run node place.now) }
{
    let links = links_at(alloc, closed, node, place.ports())?;
    let peers = peers(alloc, names, closed.topology().places(), links.as_slice())?;
    let width = width_of(peers.as_slice());
    put_ports(text, width, place)?;
    put_peers(text, width, peers.as_slice())?;
    put_traffic(alloc, text, width, closed, node, place, links.as_slice())
}

/// Puts the lines of what a node knows at its last entry last.
#[tactic(auto, unfolding(crate::specs::Listing::known_at))]
fn put_knowledge<const C: usize>(
    alloc: Global,
    text: &mut Vec<u8>,
    names: &[Vec<u8>],
    closed: &Closed<C>,
    node: usize,
    place: &Place,
) -> Result<(), NoMemory>
    requires below { node < length closed.now.run.places }
    ensures { OnOk result (text.new.items ≡ text.old.items
        ++ known_at (lists_of names.now) closed.now.run node place.now) }
{
    let known = known_by(place, closed.entries(node));
    put_known(alloc, text, names, closed.topology().places(), &known)
}

/// Puts the line of the nodes last of which supervision never told a node.
#[tactic(auto, unfolding(crate::specs::Listing::unheard_at))]
fn put_never_heard<const C: usize>(
    alloc: Global,
    text: &mut Vec<u8>,
    names: &[Vec<u8>],
    closed: &Closed<C>,
    node: usize,
    place: &Place,
) -> Result<(), NoMemory>
    requires below { node < length closed.now.run.places }
    requires place { place.now ≡ place_of closed.now.run node }
    ensures { OnOk result (text.new.items ≡ text.old.items
        ++ unheard_at (lists_of names.now) closed.now.run node place.now) }
{
    match place {
        Place::Danh { .. } | Place::RedBox { .. } => {
            let nodes = unheard(alloc, closed, node, place)?;
            put_unheard(text, names, nodes.as_slice())
        }
        Place::QuadBox | Place::Station { .. } => Ok(()),
    }
}

/// Puts the lines of a device last.
#[tactic(auto, unfolding(crate::specs::Listing::device_text))]
fn put_device<const C: usize>(
    alloc: Global,
    text: &mut Vec<u8>,
    names: &[Vec<u8>],
    closed: &Closed<C>,
    node: usize,
    place: &Place,
    needed: Needed,
) -> Result<(), NoMemory>
    requires below { node < length closed.now.run.places }
    requires place { place.now ≡ place_of closed.now.run node }
    ensures { OnOk result (text.new.items ≡ text.old.items
        ++ device_text (lists_of names.now) closed.now.run node place.now needed) }
{
    put_head(alloc, text, names, node, place)?;
    put_sent(text, closed.counters(node))?;
    put_columns(alloc, text, names, closed, node, place)?;
    put_needed(text, place, capacity(closed), needed)?;
    put_unreadable_if(text, closed.counters(node).bad_life)?;
    put_knowledge(alloc, text, names, closed, node, place)?;
    put_never_heard(alloc, text, names, closed, node, place)?;
    put(text, "\n")
}

/// How many entries the tables of each node needed.
fn all_needed<const C: usize>(alloc: Global, closed: &Closed<C>) -> Result<Vec<Needed>, NoMemory>
    ensures many { IfOk result (λ needed. length needed.items ≡ length closed.now.run.places) }
    ensures each { IfOk result (λ needed. AreMost closed.now.run 0 needed.items) }
{
    let mut needed = Vec::new(alloc);
    for node in 0..closed.topology().places().len() {
        needed.push(needed_at(alloc, closed, node)?)?;
    }
    Ok(needed)
}

/// Puts the lines of all devices last, with how many entries the tables of each needed.
fn put_devices<const C: usize>(
    alloc: Global,
    text: &mut Vec<u8>,
    names: &[Vec<u8>],
    closed: &Closed<C>,
    needed: &[Needed],
) -> Result<(), NoMemory>
    requires { length needed.now ≡ length closed.now.run.places }
    ensures { OnOk result (text.new.items ≡ text.old.items
        ++ devices_below (lists_of names.now) closed.now.run needed.now
        (length closed.now.run.places)) }
{
    let places = closed.topology().places();
    for node in 0..places.len() {
        put_device(
            alloc,
            text,
            names,
            closed,
            node,
            &places[node],
            needed[node],
        )?;
    }
    Ok(())
}

/// The devices of a finished run, node by node: what each is; where its ports lead, what came and left there with the
/// node's own counters beside it, its octets, and what was lost on the way; how many entries its duplicate tables have,
/// how many were needed, and by which entry of its record first; how many supervision frames it couldn't read, if there
/// were any; the nodes and stations that it knows at the moment of its last entry, as its own tables have them; and the
/// other DANHs and RedBoxes of which supervision never told it. A node without a name is `n` and its number. `NoMemory`
/// if allocation fails. What is counted at the ports of a node sums up to its counters, and what was taken up was
/// passed too.
pub fn devices<const C: usize>(
    alloc: Global,
    closed: &Closed<C>,
    names: &[Vec<u8>],
) -> Result<Vec<u8>, NoMemory>
    ensures listing { IfOk result (λ text.
        IsListing (lists_of names.now) closed.now.run text.items) }
    ensures sums { AreSums closed.now.run }
{
    // Its contract says that the run is finished, from which `sums` follows.
    let _topology = closed.topology();
    let needed = all_needed(alloc, closed)?;
    let mut text = Vec::new(alloc);
    put_devices(alloc, &mut text, names, closed, needed.as_slice())?;
    Ok(text)
}
