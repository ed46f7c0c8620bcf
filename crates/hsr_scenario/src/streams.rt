//! From which streams the sends of a scenario are, node by node.
ghost use Rattle.std.specs.Prelude.{◌≡◌, ◌++◌, map, option_to_list, Ok, IfOk, OnOk};
ghost use Rattle.std.specs.List.{flat_map};
ghost use Rattle.toml.specs.View.{table_view};
ghost use Rattle.hsr_scenario.specs.Fallible.{Gives};
ghost use Rattle.hsr_scenario.specs.Streams.{is_sending, sent_if, sent_in, step_tables, stream_at, streams_at, streams_of};

use crate::fault::{Key, What};
use crate::links::used_node;
use crate::nodes::Named;
use crate::steps::{deed, stream};
use crate::words::Deed;
use hsr_frame::NoMemory;
use hsr_toml::tables_at;
use std::alloc::Global;
use std::marker::Model;
use toml::Table;

/// A node sends a frame or a supervision frame, from a stream of that name; from none, where that is empty.
#[derive(Drop)]
pub struct Sending<'a> {
    pub node: usize,
    pub stream: &'a [u8],
}

impl<'a> Model for Sending<'a> {
    ghost use Rattle.hsr_scenario.specs.Streams.{Sending};

    ghost Value = { Sending };

    ghost view = { λ s. record { node = s.node; stream = s.stream.now } };
}

// ---- tables of steps

/// Whether a step sends a frame or a supervision frame.
fn is_sending(deed: Deed) -> bool
    ensures { result ≡ is_sending deed }
{
    matches!(deed, Deed::Send | Deed::Life)
}

/// What the table of a step sends, if it sends, or its fault.
fn sent_if<'a>(nodes: &[Named], table: &'a Table) -> Result<Option<Sending<'a>>, What>
    ensures { Gives option_to_list result (sent_if nodes.now (table_view table.now)) }
{
    if !is_sending(deed(table)?) {
        return Ok(None);
    }
    let node = used_node(nodes, table)?;
    let stream = stream(table)?.as_bytes();
    Ok(Some(Sending { node, stream }))
}

/// What the table of a step sends, if it sends. One with a fault sends nothing: whoever asks for names reads no steps.
#[tactic(auto, unfolding(crate::specs::Streams::sent_in))]
fn sent_in<'a>(nodes: &[Named], table: &'a Table) -> Result<Option<Sending<'a>>, NoMemory>
    ensures { IfOk result (λ sent. option_to_list sent ≡ sent_in nodes.now
        (table_view table.now)) }
{
    match sent_if(nodes, table) {
        Ok(sent) => Ok(sent),
        Err(What::NoMemory) => Err(NoMemory),
        Err(_) => Ok(None),
    }
}

/// What the tables of steps send.
#[tactic(auto, using(crate::proofs::Sent::sent_step))]
pub(crate) fn sends_of<'a>(
    alloc: Global,
    nodes: &[Named],
    tables: &[&'a Table],
) -> Result<Vec<Sending<'a>>, NoMemory>
    ensures { IfOk result (λ v. v.items ≡ flat_map (sent_in nodes.now)
        (map (λ t. table_view t.now) tables.now)) }
{
    let mut sends = Vec::new(alloc);
    for table in tables.iter() {
        if let Some(send) = sent_in(nodes, table)? {
            sends.push(send)?;
        }
    }
    Ok(sends)
}

/// The tables of a document's steps; none, where these are no tables.
pub(crate) fn step_tables<'a>(alloc: Global, table: &'a Table) -> Result<Vec<&'a Table>, What>
    ensures { Gives (λ v. map (λ t. table_view t.now) v.items) result
        (Ok (step_tables (table_view table.now))) }
{
    match tables_at(alloc, table, Key::Step) {
        Ok(tables) => Ok(tables),
        Err(What::NoMemory) => Err(What::NoMemory),
        Err(_) => Ok(Vec::new(alloc)),
    }
}

// ---- nodes

/// Puts the stream of what is sent last, if that node sends it.
fn put_stream(
    alloc: Global,
    streams: &mut Vec<Vec<u8>>,
    node: usize,
    send: &Sending<'_>,
) -> Result<(), NoMemory>
    ensures { OnOk result (map (λ name. name.items) streams.new.items
        ≡ map (λ name. name.items) streams.old.items ++ stream_at node send.now) }
{
    if send.node == node {
        let mut name = Vec::new(alloc);
        name.extend_from_slice(send.stream)?;
        streams.push(name)?;
    }
    Ok(())
}

/// The streams of what a node sends, one for each.
#[tactic(auto, using(hsr_frame::proofs::OneMore::grown))]
fn streams_at(alloc: Global, sends: &[Sending<'_>], node: usize) -> Result<Vec<Vec<u8>>, NoMemory>
    ensures { IfOk result (λ v. map (λ name. name.items) v.items ≡ streams_at sends.now node) }
{
    let mut streams = Vec::new(alloc);
    for send in sends.iter() {
        put_stream(alloc, &mut streams, node, send)?;
    }
    Ok(streams)
}

/// Of each of so many nodes the streams of what it sends, in their order: a name for each, which is empty where it's from none.
pub fn streams_of(
    alloc: Global,
    nodes: usize,
    sends: &[Sending<'_>],
) -> Result<Vec<Vec<Vec<u8>>>, NoMemory>
    ensures { IfOk result (λ v. map (λ list. map (λ name. name.items) list.items) v.items
        ≡ streams_of nodes sends.now) }
{
    let mut streams = Vec::new(alloc);
    for node in 0..nodes {
        streams.push(streams_at(alloc, sends, node)?)?;
    }
    Ok(streams)
}
