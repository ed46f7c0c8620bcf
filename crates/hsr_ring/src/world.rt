//! Nodes and links in one world, and what is done with them, step by step.
//!
//! A world is two layers. `Running` steps exactly as the definition says. `World` keeps in its type that it was reached
//! from the first world of its topology by steps, so what holds of every such world holds of it.
ghost use Rattle.std.specs.Prelude.{◌≡◌, ◌≤◌, ◌<◌, ◌⊎◌, ◌^◌, Ok, Err, None, OnOk, IfErr, IfOk, length, option_map, reverse};
ghost use Rattle.hsr_duptable.specs.Table.{IsTableSize};
ghost use Rattle.hsr_world_steps.specs.declared.step.WorldFault.TheVariants.{NoMemory as NoRoom};

use crate::fit::{places_fit, step_fits};
use crate::pending::{Move, Pending};
use crate::running::Running;
use hsr_finished_run::{CheckFault, Closed};
use hsr_frame::{Counters, NoMemory};
use hsr_link::Row;
use hsr_node::Entry;
use hsr_topology::Topology;
use hsr_world_links::Port;
use hsr_world_steps::{DrainFault, Step, WorldFault};
use std::alloc::Global;
use std::marker::Model;

/// The nodes and links of a topology, and all that was done with them since nothing was. Duplicate tables have `C` entries each,
/// `C` from 1 to 65535 (IEC 62439-3 clause 5).
#[derive(Drop)]
pub struct World<const C: usize> {
    topology: Topology,
    running: Running<C>,
    // Where ports lead and which links touch a node never change, so they are found once.
    ports: Vec<Port>,
    touching: Vec<Vec<usize>>,
    pending: Pending,
}

impl<const C: usize> Model for World<C> {
    ghost use Rattle.std.specs.Prelude.{map};
    ghost use Rattle.hsr_ring.specs.Pending.{IsKept};
    ghost use Rattle.hsr_world_laws.specs.World.{World};

    ghost Value = { World };

    ghost view = { λ w. w.running };

    ghost invariant = { λ w. IsKept C w.topology.places w.topology.links w.ports.items (map (λ links. links.items) w.touching.items) w.pending w.running };
}

impl<const C: usize> World<C> {
    ghost use Rattle.hsr_finished_run.specs.Checked.{IfDisagree, IsOpen};
    ghost use Rattle.hsr_run_laws.specs.Once.{IsCalm};
    ghost use Rattle.hsr_run_laws.specs.Premises.{NumberedFirst};
    ghost use Rattle.hsr_world_laws.specs.Lawful.{IsEnded, IsLawful, finished_of};
    ghost use Rattle.hsr_ring.specs.Pending.{step_of};
    ghost use Rattle.hsr_ring.specs.Stopping.{IsDrainFault, Runs, Stops};
    ghost use Rattle.hsr_world_laws.specs.World.{Drains, span_at, new_world, next_step, owner_at, record_at, tried};
    ghost use Rattle.hsr_frame.specs.Counters.{AreWithin};
    ghost use Rattle.hsr_node.specs.Counts.{counters};

    /// A world at moment 0 in which nothing was done, with room for `capacity` copies, 1 to 4096, in each direction of a link.
    /// `NoMemory` if allocation fails.
    pub fn new(alloc: Global, topology: Topology, capacity: usize) -> Result<World<C>, NoMemory>
        requires entries { IsTableSize C }
        requires room { (1 ≤ capacity) × (capacity ≤ 4096) }
        ensures { IfOk result (λ world. world ≡ new_world capacity topology.places topology.links) }
    {
        // Nothing is done here: its clause tells the proof that addresses have six octets.
        places_fit(topology.places());
        let running = Running::new(alloc, &topology, capacity)?;
        let ports = running.ports()?;
        let touching = running.touching()?;
        Ok(World {
            topology,
            running,
            ports,
            touching,
            pending: Pending::new(),
        })
    }

    /// Tells the world how many entries are expected of each node in all, so that records aren't moved as they grow. Nothing else depends
    /// on it.
    pub fn expect(&mut self, entries: usize)
        ensures { self.new ≡ self.old }
    {
        self.running.expect(entries);
    }

    /// Does a step, or refuses it for the first reason that applies; a refusal changes nothing.
    /// The reasons are tried in the order of `WorldFault`; `NoMemory` comes if allocation fails.
    pub fn step(&mut self, step: &Step) -> Result<(), WorldFault>
        ensures ok { OnOk result (tried C self.old step.now ≡ Ok self.new) }
        ensures err { IfErr result (λ f. (self.new ≡ self.old)
            × ((f ≡ NoRoom) ⊎ (tried C self.old step.now ≡ Err f))) }
    {
        // Nothing is done here: its clause tells the proof that the step fits its types.
        step_fits(step);
        match self.running.step(&self.ports, &self.touching, step) {
            Ok(()) => {
                self.running.look(&self.ports, step, &mut self.pending);
                Ok(())
            }
            Err(fault) => Err(fault),
        }
    }

    /// Makes a move, or refuses it as the step that it is; a refusal changes nothing.
    #[inline(always)]
    fn go(&mut self, moved: Move) -> Result<(), WorldFault>
        ensures ok { OnOk result (tried C self.old (step_of moved) ≡ Ok self.new) }
        ensures err { IfErr result (λ f. (self.new ≡ self.old)
            × ((f ≡ NoRoom) ⊎ (tried C self.old (step_of moved) ≡ Err f))) }
    {
        match self.running.go(&self.ports, &self.touching, moved) {
            Ok(()) => {
                self.running
                    .look_moved(&self.ports, moved, &mut self.pending);
                Ok(())
            }
            Err(fault) => Err(fault),
        }
    }

    /// Does steps, up to the first that is refused: its index, and why. The steps before it stand.
    pub fn run(&mut self, steps: &[Step]) -> Result<(), (usize, WorldFault)>
        ensures ok { OnOk result (Runs C steps.now self.old self.new) }
        ensures err { IfErr result (λ e. Stops C steps.now e.0 self.old self.new e.1) }
    {
        for (place, step) in steps.iter().enumerate() {
            match self.step(step) {
                Ok(()) => {}
                Err(fault) => return Err((place, fault)),
            }
        }
        Ok(())
    }

    /// What a drain does next.
    #[inline(always)]
    fn next(&self) -> Option<Move>
        ensures { option_map step_of result ≡ next_step self.now }
    {
        self.pending.next()
    }

    /// Does what is left to do, until nothing is, in at most `limit` steps: copies in hands are judged, those in outboxes put
    /// and those on links taken, in this order, by the lowest node and port, or link. The answer is how many steps.
    /// `Unsettled` after `limit` steps with something left; `World` where a step is refused. The steps before it stand.
    pub fn drain(&mut self, limit: u64) -> Result<u64, DrainFault>
        ensures ok { IfOk result (λ n. (n ≤ limit) × (next_step self.new ≡ None)
            × Drains C n self.old self.new) }
        ensures err { IfErr result (λ f. IsDrainFault C self.old self.new limit f) }
    {
        for done in 0..limit {
            let Some(moved) = self.next() else {
                return Ok(done);
            };
            match self.go(moved) {
                Ok(()) => {}
                Err(fault) => return Err(DrainFault::World(fault)),
            }
        }
        // After the last allowed step something may be left, or nothing.
        let Some(_) = self.next() else {
            return Ok(limit);
        };
        Err(DrainFault::Unsettled)
    }

    /// How many nodes there are.
    pub fn node_count(&self) -> usize
        ensures { result ≡ length self.now.places }
    {
        self.running.node_count()
    }

    /// How many links there are.
    pub fn link_count(&self) -> usize
        ensures { result ≡ length self.now.spans }
    {
        self.running.link_count()
    }

    /// The record of a node that is there, the oldest entry first.
    pub fn entries(&self, node: usize) -> &[Entry]
        requires { node < length self.now.places }
        ensures { reverse result.now ≡ record_at self.now node }
    {
        self.running.entries(node)
    }

    /// How often each thing happened at a node that is there, counted over its record.
    pub fn counters(&self, node: usize) -> Counters
        requires { node < length self.now.places }
        ensures value { result ≡ counters (owner_at self.now node).place (record_at self.now node) }
        ensures within { AreWithin result (2 ^ 62) }
    {
        self.running.counters(node)
    }

    /// The row of each copy that was put on a link that is there, in order.
    pub fn rows(&self, link: usize) -> &[Row]
        requires { link < length self.now.spans }
        ensures { result.now ≡ (span_at self.now link).link.rows }
    {
        self.running.rows(link)
    }

    /// Whatever was done: each record is legal, links and records agree, each copy as often, and the plan is what the
    /// records tell of the main worker. Where nothing was injected each copy is of a send, with its frame and its
    /// number, and a RedBox numbers a frame of its Station before anything tagged of it comes, and once.
    pub fn is_lawful(&self)
        ensures { IsLawful C self.now }
    {
        // The clause of this call says that nodes and links are a topology, which the laws need.
        let _ = self.topology.places();
    }

    /// Closes the world: a finished run exactly where nothing waits in an outbox, in a hand or on a link and nothing was
    /// injected. In that run each RedBox numbers a frame of its Station before anything tagged of it comes, with the number
    /// of its send. Else the world comes back as it was, with the first cause; or with `NoMemory` if
    /// allocation fails.
    pub fn close(self) -> Result<Closed<C>, (World<C>, CheckFault)>
        ensures closed { IfOk result (λ closed. closed ≡ finished_of C self.entry) }
        ensures ended { IfOk result (λ closed. IsEnded self.entry) }
        ensures numbered { IfOk result (λ closed. NumberedFirst closed.run) }
        ensures no_storm { IfOk result (λ closed. IsCalm closed.run) }
        ensures whole { IfErr result (λ e. e.0 ≡ self.entry) }
        ensures refused { IfErr result (λ e. IfDisagree e.1 (λ d. ¬ IsEnded self.entry)) }
        ensures first { IfErr result (λ e. IfDisagree e.1
            (λ d. IsOpen (finished_of C self.entry).run d)) }
    {
        let World {
            topology,
            running,
            ports,
            touching,
            pending,
        } = self;
        match running.close(topology) {
            Ok(closed) => Ok(closed),
            Err((topology, running, fault)) => Err((
                World {
                    topology,
                    running,
                    ports,
                    touching,
                    pending,
                },
                fault,
            )),
        }
    }
}
