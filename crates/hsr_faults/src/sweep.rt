//! A scenario, and what each fault cuts off.
ghost use Rattle.std.specs.Prelude.{◌≡◌, length, IfOk};
ghost use Rattle.hsr_routes.specs.Routes.{bare};
ghost use Rattle.hsr_faults.specs.CutOff.{IsOutage};
ghost use Rattle.hsr_faults.specs.Sweep.{sends_of};

use crate::channels::Channels;
use crate::course::{Course, courses};
use crate::fault::Fault;
use crate::groups::{Group, counts, groups_of};
use crate::outage::{Outage, all_missed, told};
use crate::search::into_nodes;
use hsr_frame::NoMemory;
use hsr_scenario::Order;
use hsr_send_spans::spans_of;
use hsr_topology::Topology;
use std::alloc::Global;
use std::marker::Model;

/// A topology and the steps of a scenario, with what each fault looks at: groups of sends that a fault cuts off alike, of each send its
/// group, and how many sends each group has.
#[derive(Drop)]
pub struct Sweep<'a> {
    topology: &'a Topology,
    orders: &'a [Order],
    within: Option<u64>,
    groups: Vec<Group>,
    of: Vec<usize>,
    counts: Vec<usize>,
    courses: Vec<Course>,
    into: Vec<Channels>,
}

impl<'a> Model for Sweep<'a> {
    ghost use Rattle.hsr_routes.specs.Routes.{bare};
    ghost use Rattle.hsr_faults.specs.Sweep.{IsSwept, Swept};

    ghost Value = { Swept };

    ghost view = { λ w. record { net = bare w.topology.now.places w.topology.now.links; orders = w.orders.now; within = w.within } };

    ghost invariant = { λ w. IsSwept (record { net = bare w.topology.now.places w.topology.now.links; orders = w.orders.now; within = w.within })
        w.groups.items w.of.items w.counts.items w.courses.items w.into.items };
}

impl<'a> Sweep<'a> {
    /// Of a topology and the steps of a scenario, where a copy lives less than `within` microseconds behind its send, if that is told.
    /// `NoMemory` if allocation fails.
    pub fn new(
        alloc: Global,
        topology: &'a Topology,
        orders: &'a [Order],
        within: Option<u64>,
    ) -> Result<Sweep<'a>, NoMemory>
        ensures { IfOk result (λ sweep. sweep
            ≡ record { net = bare topology.now.places topology.now.links; orders = orders.now; within = within }) }
    {
        let spans = spans_of(alloc, within, orders)?;
        let grouping = groups_of(alloc, orders, spans.as_slice())?;
        let counts = counts(alloc, grouping.groups.len(), grouping.of.as_slice())?;
        let into = into_nodes(alloc, topology)?;
        let courses = courses(alloc, topology, into.as_slice(), grouping.groups.as_slice())?;
        Ok(Sweep {
            topology,
            orders,
            within,
            groups: grouping.groups,
            of: grouping.of,
            counts,
            courses,
            into,
        })
    }

    /// How many sends the scenario asks for.
    pub fn sends(&self) -> usize
        ensures { result ≡ length (sends_of self.now) }
    {
        self.of.len()
    }

    /// What a fault cuts off in some order of the copies: for each node and each list of nodes how many of its sends are cut off from just
    /// these, and how many sends are cut off in all.
    ///
    /// A send is cut off from a node that it is due at, if no routes lead there over links that are up in all its span and not off (IEC 62439-3
    /// clause 5.3). What a node that is off would send isn't counted, and nothing is due at such a node. Each sender and each list of nodes
    /// stands once, in the order of their first sends. `NoMemory` if allocation fails.
    pub fn outage(&self, alloc: Global, fault: Fault) -> Result<Outage, NoMemory>
        ensures { IfOk result (IsOutage self.now.net self.now.orders (sends_of self.now) fault) }
    {
        // What it answers isn't used: its contract says that a topology has 128 links at most.
        let _ = self.topology.links();
        let missed = all_missed(
            alloc,
            self.topology,
            self.into.as_slice(),
            self.groups.as_slice(),
            self.courses.as_slice(),
            fault,
        )?;
        told(
            alloc,
            fault,
            self.groups.as_slice(),
            self.of.as_slice(),
            self.counts.as_slice(),
            missed.as_slice(),
        )
    }
}
