//! How far what is told is done.
ghost use Rattle.std.specs.Prelude.{◌≡◌, IfOk};
ghost use Rattle.hsr_plan_hops.specs.Beginning.{next_copy, telling};
ghost use Rattle.hsr_plan_hops.specs.Weaving.{IsTried};

use crate::arrivals::Sight;
use crate::flights::{Arrival, Channels, Instant, turn_behind};
use crate::turns::{Due, begun_behind, due_behind, moment_behind};
use hsr_frame::NoMemory;
use hsr_plan_text::Transfer;
use hsr_ring::World;
use hsr_scenario::Order;
use hsr_topology::Topology;
use hsr_world_steps::{Step, WorldFault};
use std::marker::Model;

/// What is left of what is told, what is due, the moment, whether something that is told was done at it, how many copies were put, the
/// channels, and the world.
#[derive(Drop)]
pub(crate) struct Stage<'a, const C: usize> {
    pub(crate) told: &'a [Order],
    pub(crate) due: Due,
    pub(crate) moment: u64,
    pub(crate) begun: bool,
    pub(crate) turn: u64,
    pub(crate) channels: Channels,
    pub(crate) world: World<C>,
}

impl<'a, const C: usize> Model for Stage<'a, C> {
    ghost use Rattle.hsr_plan_hops.specs.Beginning.{Stage};

    ghost Value = { Stage };

    ghost view = { λ s. record { told = s.told.now; due = s.due; moment = s.moment; begun = s.begun; turn = s.turn; channels = s.channels; world = s.world } };
}

impl<'a, const C: usize> Stage<'a, C> {
    /// The copy that comes to its end next.
    pub(crate) fn next_copy(&self, transfer: Transfer, topology: &Topology) -> Option<Arrival>
        ensures { result ≡ next_copy transfer topology.now.links self.now }
    {
        let sight = Sight {
            topology,
            moment: self.moment,
            begun: self.begun,
            channels: &self.channels,
            world: &self.world,
        };
        sight.next(transfer)
    }

    /// What is told from here on.
    pub(crate) fn set_told(&mut self, more: &'a [Order])
        ensures { self.new ≡ telling self.old more.now }
    {
        self.told = more;
    }

    /// Does a step, behind which so much is told, or tells why the world refuses it.
    pub(crate) fn tries(
        &mut self,
        transfer: Transfer,
        topology: &Topology,
        step: &Step,
        more: &'a [Order],
    ) -> Result<Option<WorldFault>, NoMemory>
        ensures { IfOk result (IsTried C transfer topology.now.links self.old step.now more.now self.new) }
    {
        match self.world.step(step) {
            Ok(()) => {}
            Err(WorldFault::NoMemory) => return Err(NoMemory),
            Err(fault) => return Ok(Some(fault)),
        }
        // Only behind a step that was done, so that a refused one leaves the stage as it was.
        let instant = Instant {
            transfer,
            now: self.moment,
            turn: self.turn,
        };
        self.channels.follow(instant, topology, step, &self.world)?;
        self.turn = turn_behind(self.turn, step);
        self.told = more;
        self.due = due_behind(topology.links(), step);
        self.moment = moment_behind(self.moment, step);
        self.begun = begun_behind(self.begun, step);
        Ok(None)
    }
}
