//! The addresses that a RedBox hears on its interlink.
ghost use Rattle.std.specs.Prelude.{◌≡◌, ◌≤◌, ◌&&◌};
ghost use Rattle.std.specs.List.{list_any};
ghost use Rattle.hsr_frame.specs.Address.{is_same_address};
ghost use Rattle.hsr_tables.specs.Known.{is_young, known, others};
ghost use Rattle.hsr_tables.specs.Proxies.{KnowsLatest, is_known, learned, no_proxies};

use crate::times::{ROW_LIMIT, is_known_at};
use arrayvec::ArrayVec;
use hsr_frame::Mac;
use std::marker::Model;

/// The `ROW_LIMIT` addresses that a RedBox heard latest on its interlink (the ProxyNodeTable of IEC 62439-3 clause
/// 5), each known for `NODE_FORGET` microseconds after it was heard last.
#[derive(Drop)]
pub struct ProxyTable {
    rows: ArrayVec<(Mac, u64), ROW_LIMIT>,
    last: u64,
}

impl Model for ProxyTable {
    ghost use Rattle.hsr_tables.specs.Proxies.{Proxies};

    ghost Value = { Proxies };

    ghost view = { λ t. record { heard = t.rows.items; last = t.last } };
}

impl ProxyTable {
    /// A table that has heard nothing.
    pub fn new() -> Self
        ensures { result ≡ no_proxies }
    {
        ProxyTable {
            rows: ArrayVec::new(),
            last: 0,
        }
    }

    /// The moment of the latest hearing in microseconds, 0 at first.
    pub fn last(&self) -> u64
        ensures { result ≡ self.now.last }
    {
        self.last
    }

    /// Puts an address first, as heard at this moment in microseconds, and drops what there is no room for.
    pub fn learn(&mut self, mac: Mac, at: u64)
        requires { self.old.last ≤ at }
        ensures { self.new ≡ learned self.old (mac, at) }
    {
        // An address has one row, so its older one goes before it is put first.
        keep_others(&mut self.rows, mac);
        // One place is left for the new row.
        self.rows.truncate(ROW_LIMIT - 1);
        self.rows.insert(0, (mac, at));
        self.last = at;
    }

    /// Whether an address is among those heard latest, and isn't forgotten at this moment in microseconds.
    pub fn knows(&self, mac: Mac, at: u64) -> bool
        requires { self.now.last ≤ at }
        ensures { result ≡ is_known at self.now.heard mac }
    {
        has_known(self.rows.as_slice(), mac, at)
    }

    /// The addresses that aren't forgotten at this moment, each with the moment when it was heard last,
    /// the latest first; moments are in microseconds.
    pub fn list(&self, at: u64) -> ArrayVec<(Mac, u64), ROW_LIMIT>
        requires { self.now.last ≤ at }
        ensures { result.items ≡ known at self.now.heard }
    {
        let mut list = ArrayVec::new();
        for row in self.rows.as_slice() {
            // Forgotten rows stay until `learn` needs their place, so they are left out here.
            if is_known_at(row.1, at) {
                list.push(*row);
            }
        }
        list
    }
}

/// Keeps the rows of all other addresses, in their order.
fn keep_others(rows: &mut ArrayVec<(Mac, u64), ROW_LIMIT>, mac: Mac)
    ensures { rows.new.items ≡ others (λ h. h.0) mac rows.old.items }
{
    rows.retain(|row| row.0 != mac);
}

/// Whether a row of an address isn't forgotten.
fn has_known(rows: &[(Mac, u64)], mac: Mac, at: u64) -> bool
    ensures { result ≡ list_any (λ h. is_young at h.1 && is_same_address h.0 mac) rows.now }
{
    rows.iter()
        .any(|row| is_known_at(row.1, at) && row.0 == mac)
}

/// The law of `ProxyTable`, for the proofs of callers: over any list of hearings it knows the
/// `ROW_LIMIT` addresses heard latest, but for the forgotten.
pub fn known_proxies()
    ensures { KnowsLatest }
{}
