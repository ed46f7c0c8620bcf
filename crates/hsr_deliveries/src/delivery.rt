//! What is told of a send.
ghost use Rattle.std.specs.Prelude.{◌≡◌, count_by, OnOk};
ghost use Rattle.hsr_deliveries.specs.Counted.{added, delivery_at};
ghost use Rattle.hsr_deliveries.specs.Delivered.{is_complete};

use crate::loss::Loss;
use hsr_finished_run::push_if;
use hsr_frame::{Mac, NoMemory};
use hsr_node::Probe;
use std::alloc::Global;
use std::marker::Model;

/// Who got a send: its moment as it was given, in microseconds, and its destination; the nodes that it was due at,
/// which of these didn't take it up or did more than once, and the other nodes that did, all by number and rising; and
/// the copies of it that were lost, by link and index on the link.
///
/// To a group a send is due at each DANH, RedBox and Station but the sender, a supervision frame at no Station (IEC 62439-3
/// clause 5.7); else at each node but the sender that has the address.
#[derive(Drop)]
pub struct Delivery {
    pub send: Probe,
    pub at: u64,
    pub dst: Mac,
    pub due: Vec<usize>,
    pub missed: Vec<usize>,
    pub twice: Vec<usize>,
    pub strayed: Vec<usize>,
    pub lost: Vec<Loss>,
}

impl Model for Delivery {
    ghost use Rattle.hsr_deliveries.specs.Delivered.{Delivery};

    ghost Value = { Delivery };

    ghost view = { λ d. record { send = d.send; at = d.at; dst = d.dst; due = d.due.items; missed = d.missed.items; twice = d.twice.items; strayed = d.strayed.items; lost = d.lost.items } };
}

/// Who got each send of a run, by node and place.
#[derive(Drop)]
pub struct Deliveries {
    pub sends: Vec<Delivery>,
}

impl Delivery {
    /// A send that is due at no node and came to none.
    pub(crate) fn new(alloc: Global, send: Probe, at: u64, dst: Mac, lost: Vec<Loss>) -> Delivery
        ensures { result ≡ delivery_at send at dst lost.items }
    {
        Delivery {
            send,
            at,
            dst,
            due: Vec::new(alloc),
            missed: Vec::new(alloc),
            twice: Vec::new(alloc),
            strayed: Vec::new(alloc),
            lost,
        }
    }

    /// Adds what became of the send at one more node, and how many times this one took it up.
    pub(crate) fn add(&mut self, node: usize, is_due: bool, times: usize) -> Result<(), NoMemory>
        ensures { OnOk result (self.new ≡ added self.old node is_due times) }
    {
        push_if(&mut self.due, is_due, node)?;
        push_if(&mut self.missed, is_due && times == 0, node)?;
        push_if(&mut self.twice, is_due && times > 1, node)?;
        push_if(&mut self.strayed, !is_due && times > 0, node)
    }

    /// Whether each node that the send was due at took it up just once, and no other node did. Losses alone leave a send
    /// complete.
    pub fn is_complete(&self) -> bool
        ensures { result ≡ is_complete self.now }
    {
        self.missed.is_empty() && self.twice.is_empty() && self.strayed.is_empty()
    }
}

impl Deliveries {
    /// How many sends are complete.
    pub fn complete(&self) -> usize
        ensures { result ≡ count_by is_complete self.now.sends.items }
    {
        self.sends
            .iter()
            .filter(|delivery| delivery.is_complete())
            .count()
    }
}
