//! The nodes of which a node hears supervision frames.
ghost use Rattle.std.specs.Prelude.{◌≡◌, ◌≤◌, map};
ghost use Rattle.hsr_tables.specs.Known.{known, others};

use crate::times::{ROW_LIMIT, is_known_at};
use arrayvec::ArrayVec;
use hsr_frame::{Mac, RingPort};
use hsr_supervision::{SupKind, Supervision};
use std::marker::Model;

/// A node that was heard: its address, kind and RedBox as its latest
/// supervision frame has them, and the moments in microseconds of its latest frame on each port. They go
/// back to the frame that made it known, and no further.
#[derive(Clone, Copy, Default, PartialEq, Eq)]
pub struct NodeRow {
    pub mac: Mac,
    pub kind: SupKind,
    pub redbox: Option<Mac>,
    pub heard_a: Option<u64>,
    pub heard_b: Option<u64>,
}

/// The `ROW_LIMIT` nodes that were heard latest (the NodesTable of IEC 62439-3 clause 5), each known for `NODE_FORGET`
/// microseconds after it was heard last.
#[derive(Drop)]
pub struct NodeTable {
    rows: ArrayVec<(NodeRow, u64), ROW_LIMIT>,
    last: u64,
}

impl Model for NodeTable {
    ghost use Rattle.hsr_tables.specs.Nodes.{Nodes};

    ghost Value = { Nodes };

    ghost view = { λ t. record { rows = t.rows.items; last = t.last } };
}

impl NodeTable {
    ghost use Rattle.hsr_tables.specs.Nodes.{heard, listened, no_nodes};

    /// A table that has heard nothing.
    pub fn new() -> Self
        ensures { result ≡ no_nodes }
    {
        NodeTable {
            rows: ArrayVec::new(),
            last: 0,
        }
    }

    /// The moment of the latest hearing in microseconds, 0 at first.
    pub fn last(&self) -> u64
        ensures { result ≡ self.now.last }
    {
        self.last
    }

    /// Puts the node that a payload is about first, as heard on a port at this moment in microseconds,
    /// and drops what there is no room for.
    pub fn hear(&mut self, said: &Supervision, port: RingPort, at: u64)
        requires { self.old.last ≤ at }
        ensures { self.new ≡ heard self.old (record { said = said.now; port = port; at = at }) }
    {
        // Looked up before it is removed: the new row keeps what was heard on the other port.
        let earlier = find_known(self.rows.as_slice(), said.about, at);
        let row = row_of(said, port, at, earlier);
        keep_others(&mut self.rows, row.mac);
        // One place is left for the new row.
        self.rows.truncate(ROW_LIMIT - 1);
        self.rows.insert(0, (row, at));
        self.last = at;
    }

    /// Hears what a payload says, if it can be read, on a port at a moment in microseconds, and tells whether
    /// it could (IEC 62439-3 clause 5.7).
    pub fn listen(&mut self, payload: &[u8], port: RingPort, at: u64) -> bool
        requires { self.old.last ≤ at }
        ensures { (result, self.new) ≡ listened self.old payload.now port at }
    {
        match Supervision::read(payload) {
            Ok(said) => {
                self.hear(&said, port, at);
                true
            }
            // Which fault it is isn't told: a node only counts unreadable payloads.
            Err(_) => false,
        }
    }

    /// The nodes that aren't forgotten at this moment in microseconds, the latest heard first.
    pub fn rows(&self, at: u64) -> ArrayVec<NodeRow, ROW_LIMIT>
        requires { self.now.last ≤ at }
        ensures { result.items ≡ map (λ r. r.0) (known at self.now.rows) }
    {
        let mut list = ArrayVec::new();
        for row in self.rows.as_slice() {
            // Forgotten rows stay until `hear` needs their place, so they are left out here.
            if is_known_at(row.1, at) {
                list.push(row.0);
            }
        }
        list
    }
}

ghost use Rattle.hsr_tables.specs.Nodes.{RowsOfLatest, known_row, row_on};

/// The row of an address, if it isn't forgotten.
fn find_known(rows: &[(NodeRow, u64)], mac: Mac, at: u64) -> Option<(NodeRow, u64)>
    ensures { result ≡ known_row at mac rows.now }
{
    for row in rows {
        // A forgotten row counts for nothing: its address begins anew (RULES, Supervision).
        if row.0.mac == mac && is_known_at(row.1, at) {
            return Some(*row);
        }
    }
    None
}

/// Keeps the rows of all other addresses, in their order.
fn keep_others(rows: &mut ArrayVec<(NodeRow, u64), ROW_LIMIT>, mac: Mac)
    ensures { rows.new.items ≡ others (λ r. r.0.mac) mac rows.old.items }
{
    rows.retain(|row| row.0.mac != mac);
}

/// The row of a hearing, with what its address had on the other port.
fn row_of(said: &Supervision, port: RingPort, at: u64, earlier: Option<(NodeRow, u64)>) -> NodeRow
    ensures { result ≡ row_on port (record { said = said.now; port = port; at = at }) earlier }
{
    let (earlier_a, earlier_b) = match earlier {
        Some((row, _)) => (row.heard_a, row.heard_b),
        None => (None, None),
    };
    let (heard_a, heard_b) = match port {
        RingPort::A => (Some(at), earlier_b),
        RingPort::B => (earlier_a, Some(at)),
    };
    NodeRow {
        mac: said.about,
        kind: said.kind,
        redbox: said.redbox,
        heard_a,
        heard_b,
    }
}

/// The law of `NodeTable`, for the proofs of callers: over any list of hearings its rows are those of the
/// `ROW_LIMIT` addresses heard latest, but for the forgotten.
pub fn known_nodes()
    ensures { RowsOfLatest }
{}
