//! How a scenario spells its steps, one a line, and how long these lines are.
//!
//! Each piece of a line is a function with a clause of its own. A literal of more than a few letters at the head of a
//! text keeps search from the rest of it, so words are handed on as arguments.
ghost use Rattle.std.specs.Prelude.{◌≡◌, ◌++◌, IfOk, OnOk, length, min};
ghost use Rattle.hsr_plan_scenario.specs.Spelled.{about_text, at_link, at_node, at_port, clock_text, dir_text, does_text, frame_text, from_text, octets_text, order_line, order_lines, order_text, step_text, stream_text, vlan_text};

use crate::naming::{put_digits, put_mac, put_name, put_pair, put_port};
use crate::sends::{next_stream, sends_behind};
use hsr_frame::{About, Mac, NoMemory};
use hsr_link::Dir;
use hsr_plan_network::Node;
use hsr_plan_schedule::Meaning;
use hsr_plan_text::Word;
use hsr_scenario::Order;
use hsr_text::{put, put_number, put_octets};
use hsr_world_steps::Step;
use std::alloc::Global;

/// Puts what is done last.
#[tactic(auto, unfolding(crate::specs::Spelled::does_text))]
fn put_does(text: &mut Vec<u8>, does: &str) -> Result<(), NoMemory>
    ensures { OnOk result (text.new.items ≡ text.old.items ++ does_text does.now) }
{
    put(text, "do=\"")?;
    put(text, does)?;
    put(text, "\"")
}

/// Puts what is done at a node last.
#[tactic(auto, unfolding(crate::specs::Spelled::at_node))]
fn put_at_node(text: &mut Vec<u8>, does: &str, nodes: &[Node], node: usize) -> Result<(), NoMemory>
    ensures { OnOk result (text.new.items ≡ text.old.items ++ at_node does.now nodes.now node) }
{
    put_does(text, does)?;
    put(text, ", node=")?;
    put_name(text, nodes, node)
}

/// Puts what is done at a port of a node last.
#[tactic(auto, unfolding(crate::specs::Spelled::at_port))]
fn put_at_port(
    text: &mut Vec<u8>,
    does: &str,
    nodes: &[Node],
    node: usize,
    port: u8,
) -> Result<(), NoMemory>
    ensures { OnOk result (text.new.items ≡ text.old.items
        ++ at_port does.now nodes.now node port) }
{
    put_does(text, does)?;
    put(text, ", port=")?;
    put_port(text, nodes, node, port)
}

/// Puts what is done at a link last.
#[tactic(auto, unfolding(crate::specs::Spelled::at_link))]
fn put_at_link(text: &mut Vec<u8>, does: &str, link: usize) -> Result<(), NoMemory>
    ensures { OnOk result (text.new.items ≡ text.old.items ++ at_link does.now link) }
{
    put_does(text, does)?;
    put(text, ", link=")?;
    put_number(text, link as u64)
}

/// Puts the moment that is set last.
#[tactic(auto, unfolding(crate::specs::Spelled::clock_text))]
fn put_clock(text: &mut Vec<u8>, at: u64) -> Result<(), NoMemory>
    ensures { OnOk result (text.new.items ≡ text.old.items ++ clock_text at) }
{
    put_does(text, "clock")?;
    put(text, ", at=")?;
    put_number(text, at)
}

/// Puts octets in hexadecimal last, under a key.
#[tactic(auto, unfolding(crate::specs::Spelled::octets_text))]
fn put_octets_at(text: &mut Vec<u8>, key: &str, octets: &[u8]) -> Result<(), NoMemory>
    ensures { OnOk result (text.new.items ≡ text.old.items ++ octets_text key.now octets.now) }
{
    put(text, ", ")?;
    put(text, key)?;
    put(text, "=\"")?;
    put_digits(text, octets)?;
    put(text, "\"")
}

/// Puts the place of a sender's address last, if it isn't the first.
fn put_from(text: &mut Vec<u8>, from: u8) -> Result<(), NoMemory>
    ensures { OnOk result (text.new.items ≡ text.old.items ++ from_text from) }
{
    // 0 is what a scenario means where it says none.
    if from > 0 {
        put(text, ", from=")?;
        put_number(text, u64::from(from))?;
    }
    Ok(())
}

/// Puts to whom what is sent last.
#[tactic(auto, unfolding(crate::specs::Spelled::frame_text))]
fn put_frame(text: &mut Vec<u8>, dst: Mac, ethertype: u16, payload: &[u8]) -> Result<(), NoMemory>
    ensures { OnOk result (text.new.items
        ≡ text.old.items ++ frame_text dst ethertype payload.now) }
{
    put(text, ", to=")?;
    put_mac(text, dst)?;
    put(text, ", type=0x")?;
    put_pair(text, ethertype)?;
    put_octets_at(text, "payload", payload)
}

/// Puts a VLAN tag last, if there is one.
fn put_vlan(text: &mut Vec<u8>, vlan: Option<u16>) -> Result<(), NoMemory>
    ensures { OnOk result (text.new.items ≡ text.old.items ++ vlan_text vlan) }
{
    match vlan {
        Some(vlan) => {
            put(text, ", vlan=0x")?;
            put_pair(text, vlan)
        }
        None => Ok(()),
    }
}

/// Puts the stream from which a frame is last.
#[tactic(auto, unfolding(crate::specs::Spelled::stream_text))]
fn put_stream(text: &mut Vec<u8>, name: &[u8]) -> Result<(), NoMemory>
    ensures { OnOk result (text.new.items ≡ text.old.items ++ stream_text name.now) }
{
    put(text, ", stream=\"")?;
    put_octets(text, name)?;
    put(text, "\"")
}

/// Puts whom supervision is about last, if it isn't the node itself.
fn put_about(text: &mut Vec<u8>, about: About) -> Result<(), NoMemory>
    ensures { OnOk result (text.new.items ≡ text.old.items ++ about_text about) }
{
    match about {
        About::Own => Ok(()),
        About::Proxied(mac) => {
            put(text, ", about=")?;
            put_mac(text, mac)
        }
    }
}

/// Puts a direction last.
#[tactic(auto, unfolding(crate::specs::Spelled::dir_text))]
fn put_dir(text: &mut Vec<u8>, dir: Dir) -> Result<(), NoMemory>
    ensures { OnOk result (text.new.items ≡ text.old.items ++ dir_text dir) }
{
    put(text, ", dir=\"")?;
    put(text, dir.word())?;
    put(text, "\"")
}

/// Puts a step last, where a frame is from the stream of that name.
fn put_step(text: &mut Vec<u8>, nodes: &[Node], name: &[u8], step: &Step) -> Result<(), NoMemory>
    ensures { OnOk result (text.new.items ≡ text.old.items
        ++ step_text nodes.now name.now step.now) }
{
    match step {
        Step::Clock { at } => put_clock(text, *at),
        Step::Send {
            node,
            from,
            dst,
            vlan,
            kind: ethertype,
            payload,
        } => {
            put_at_node(text, "send", nodes, *node)?;
            put_from(text, *from)?;
            put_frame(text, *dst, *ethertype, payload.as_slice())?;
            put_vlan(text, *vlan)?;
            put_stream(text, name)
        }
        Step::Supervise { node, about } => {
            put_at_node(text, "life", nodes, *node)?;
            put_about(text, *about)
        }
        Step::Age { node } => put_at_node(text, "age", nodes, *node),
        Step::Put { node, port } => put_at_port(text, "put", nodes, *node, *port),
        Step::Take { link, dir } => {
            put_at_link(text, "take", *link)?;
            put_dir(text, *dir)
        }
        Step::Judge { node, port } => put_at_port(text, "judge", nodes, *node, *port),
        Step::Cut { link } => put_at_link(text, "cut", *link),
        Step::Mend { link } => put_at_link(text, "mend", *link),
        Step::Inject { link, dir, octets } => {
            put_at_link(text, "inject", *link)?;
            put_dir(text, *dir)?;
            put_octets_at(text, "octets", octets.as_slice())
        }
    }
}

/// Puts an order last, where a frame is from the stream of that name.
fn put_order_words(
    text: &mut Vec<u8>,
    nodes: &[Node],
    name: &[u8],
    order: &Order,
) -> Result<(), NoMemory>
    ensures { OnOk result (text.new.items ≡ text.old.items
        ++ order_text nodes.now name.now order.now) }
{
    match order {
        Order::Step(step) => put_step(text, nodes, name, step),
        Order::Drain => put_does(text, "drain"),
    }
}

/// Puts the line of an order last, where a frame is from the stream of that name.
#[tactic(auto, unfolding(crate::specs::Spelled::order_line))]
fn put_order(text: &mut Vec<u8>, nodes: &[Node], name: &[u8], order: &Order) -> Result<(), NoMemory>
    ensures { OnOk result (text.new.items ≡ text.old.items
        ++ order_line nodes.now name.now order.now) }
{
    put(text, "  {")?;
    put_order_words(text, nodes, name, order)?;
    put(text, "},\n")
}

/// Puts the lines of orders last, where the streams have these names, and the frames are from streams of these numbers.
#[tactic(auto, using(crate::proofs::Orders::lines_on))]
pub(crate) fn put_orders(
    text: &mut Vec<u8>,
    nodes: &[Node],
    streams: &[Word],
    sends: &[usize],
    orders: &[Order],
) -> Result<(), NoMemory>
    ensures { OnOk result (text.new.items ≡ text.old.items
        ++ order_lines nodes.now streams.now sends.now orders.now) }
{
    let mut numbers = sends;
    let mut left = orders;
    while let Some((order, rest)) = left.split_first() {
        put_order(text, nodes, next_stream(streams, numbers), order)?;
        numbers = sends_behind(order, numbers);
        left = rest;
    }
    Ok(())
}

/// How many octets the line of an order has. It is formed for it, in a buffer that may be used again.
fn measured_order(
    line: &mut Vec<u8>,
    nodes: &[Node],
    name: &[u8],
    order: &Order,
) -> Result<usize, NoMemory>
    ensures { IfOk result (λ octets. octets ≡ length (order_line nodes.now name.now order.now)) }
{
    // The same room for each line, so that measuring needs no more than the longest.
    line.clear();
    put_order(line, nodes, name, order)?;
    Ok(line.len())
}

/// How many octets the lines of orders have, or `usize::MAX` where they have more. One of them is kept at a time.
#[tactic(auto, using(crate::proofs::Orders::measured_on, crate::proofs::Orders::measured_fits))]
fn measured_orders(
    alloc: Global,
    nodes: &[Node],
    streams: &[Word],
    sends: &[usize],
    orders: &[Order],
) -> Result<usize, NoMemory>
    ensures { IfOk result (λ octets. octets
        ≡ min (length (order_lines nodes.now streams.now sends.now orders.now)) usize.MAX) }
{
    let mut octets = 0usize;
    let mut line = Vec::new(alloc);
    let mut numbers = sends;
    let mut left = orders;
    while let Some((order, rest)) = left.split_first() {
        let name = next_stream(streams, numbers);
        // Saturating: a number that is too great is only compared with 16 MiB.
        octets = octets.saturating_add(measured_order(&mut line, nodes, name, order)?);
        numbers = sends_behind(order, numbers);
        left = rest;
    }
    Ok(octets)
}

/// How many octets the lines of a scenario's orders have, or `usize::MAX` where they have more.
pub(crate) fn measured_steps(alloc: Global, meaning: &Meaning) -> Result<usize, NoMemory>
    ensures { IfOk result (λ octets. octets
        ≡ min (length (order_lines meaning.now.nodes meaning.now.streams meaning.now.sends
        meaning.now.orders)) usize.MAX) }
{
    measured_orders(
        alloc,
        meaning.nodes.as_slice(),
        meaning.streams.as_slice(),
        meaning.sends.as_slice(),
        meaning.orders.as_slice(),
    )
}
