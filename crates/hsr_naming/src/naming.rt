//! Nodes, entries and ports as a report calls them, put into texts.
ghost use Rattle.std.specs.Prelude.{◌≡◌, ◌++◌, option_map, OnOk};
ghost use Rattle.hsr_naming.specs.Naming.{entry_of, entry_text, known_text, node_text, place_text, port_text, send_text, stream_text};

use crate::names::{EntryName, Names};
use hsr_frame::NoMemory;
use hsr_node::{Place, Probe};
use hsr_text::{put, put_count, put_number, put_octets};
use hsr_timeline::put_letter;
use hsr_topology::End;

/// What a report calls nodes, entries and ports: their numbers, or their names.
#[derive(Drop)]
pub enum Naming {
    Numbers,
    Names(Names),
}

/// Puts the name of a stream last, behind a slash; nothing where there is none.
fn put_stream(text: &mut Vec<u8>, stream: &[u8]) -> Result<(), NoMemory>
    ensures { OnOk result (text.new.items ≡ text.old.items ++ stream_text stream.now) }
{
    match stream {
        [] => Ok(()),
        name => {
            put(text, "/")?;
            put_octets(text, name)
        }
    }
}

/// Puts the place of an entry last, between its moment and its stream.
#[tactic(auto, unfolding(crate::specs::Naming::known_text))]
fn put_known(text: &mut Vec<u8>, entry: &EntryName, place: usize) -> Result<(), NoMemory>
    ensures { OnOk result (text.new.items ≡ text.old.items ++ known_text entry.now place) }
{
    put_count(text, b"@", entry.at)?;
    put_count(text, b"us:", place as u64)?;
    put_stream(text, entry.stream.as_slice())
}

impl Naming {
    /// What is told of an entry beside its number, if anything is.
    fn entry(&self, send: Probe) -> Option<&EntryName>
        ensures { option_map (λ entry. entry.now) result ≡ entry_of self.now send }
    {
        match self {
            Naming::Numbers => None,
            Naming::Names(names) => names.entries.get(send.node)?.get(send.place),
        }
    }

    /// Puts the place of an entry last, with its moment and its stream where they are known.
    fn put_place(&self, text: &mut Vec<u8>, send: Probe) -> Result<(), NoMemory>
        ensures { OnOk result (text.new.items ≡ text.old.items
            ++ place_text send.place (entry_of self.now send)) }
    {
        match self.entry(send) {
            None => put_count(text, b":", send.place as u64),
            Some(entry) => put_known(text, entry, send.place),
        }
    }

    /// Puts a node last: its number, or its name, if it has one. `NoMemory` if allocation fails.
    pub fn put_node(&self, text: &mut Vec<u8>, node: usize) -> Result<(), NoMemory>
        ensures { OnOk result (text.new.items ≡ text.old.items ++ node_text self.now node) }
    {
        match self {
            Naming::Numbers => put_number(text, node as u64),
            Naming::Names(names) => match names.nodes.get(node) {
                None => put_number(text, node as u64),
                Some(name) => put_octets(text, name.as_slice()),
            },
        }
    }

    /// Puts a send last: its node and its place in the node's record; with names also its moment in microseconds and its stream, where
    /// they are known: `3:117`, or `mu1@29250us:117/sv1`. `NoMemory` if allocation fails; a front of it may stand there then.
    #[tactic(auto, unfolding(crate::specs::Naming::send_text))]
    pub fn put_send(&self, text: &mut Vec<u8>, send: Probe) -> Result<(), NoMemory>
        ensures { OnOk result (text.new.items ≡ text.old.items ++ send_text self.now send) }
    {
        self.put_node(text, send.node)?;
        self.put_place(text, send)
    }

    /// Puts an entry of a node's record last: the numbers of node and place, `3 117`; with names as `put_send` puts it.
    /// `NoMemory` if allocation fails; a front of it may stand there then.
    pub fn put_entry(&self, text: &mut Vec<u8>, node: usize, place: usize) -> Result<(), NoMemory>
        ensures { OnOk result (text.new.items ≡ text.old.items ++ entry_text self.now node place) }
    {
        match self {
            Naming::Numbers => {
                put_number(text, node as u64)?;
                put_count(text, b" ", place as u64)
            }
            Naming::Names(_) => self.put_send(text, Probe { node, place }),
        }
    }

    /// Puts a port last: its node, a dot, and the letter that a node of its kind has for it among these places, `3.B` or `prot1.B`;
    /// a node that isn't there has no letter. `NoMemory` if allocation fails; a front of it may stand there then.
    #[tactic(auto, unfolding(crate::specs::Naming::port_text))]
    pub fn put_port(&self, text: &mut Vec<u8>, places: &[Place], end: End) -> Result<(), NoMemory>
        ensures { OnOk result (text.new.items ≡ text.old.items
            ++ port_text self.now places.now end) }
    {
        self.put_node(text, end.node)?;
        put(text, ".")?;
        put_letter(text, places, end)
    }
}
