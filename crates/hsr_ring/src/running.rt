//! A world in code, and its steps.
//!
//! A fault of a call below is handed on by `match` and not by `?`, which gets no proof at these returns.
ghost use Rattle.std.specs.Prelude.{◌≡◌, ◌⊎◌, ◌<◌, ◌≤◌, ◌^◌, Ok, Err, OnOk, IfErr, IfNone, IfOk, map, length, option_map, reverse};
ghost use Rattle.hsr_duptable.specs.Table.{IsTableSize};
ghost use Rattle.hsr_ring.specs.Pending.{step_of};
ghost use Rattle.hsr_ring.specs.Views.{in_world};
ghost use Rattle.hsr_world_links.specs.Ports.{port_fault, AreTold};
ghost use Rattle.hsr_world_links.specs.Views.{put_at_spot, spot_view};
ghost use Rattle.hsr_world_links.specs.Touching.{AreTouching, touching_from, touching_in};
ghost use Rattle.hsr_ring.specs.Entering.{IsUnplanned};
ghost use Rattle.hsr_node.specs.Kept.{Record};

use crate::closing::{Open, Rest, closed_of};
use crate::entering::enter;
use crate::pending::{Move, Pending};
use crate::starting::{expect_entries, new_nodes};
use hsr_finished_run::{CheckFault, Closed, Planned};
use hsr_frame::{About, Counters, Mac};
use hsr_link::{Dir, Row};
use hsr_node::{Carried, Entry, Event, Kept, Octets};
use hsr_topology::{End, Topology, port_worker};
use hsr_world_links::{
    Port, Span, Spot, change_hand, clear, cut_at, expect_rows, inject_at, mend_at, new_ports,
    new_spans, new_touching, port_fault, port_of, put_at_spot, take_at, touching_of,
};
use hsr_world_steps::{INJECT_LIMIT, Step, WorldFault};
use std::alloc::Global;
use std::marker::Model;

/// Nodes and the links between them.
#[derive(Drop)]
pub(crate) struct Running<const C: usize> {
    alloc: Global,
    moment: u64,
    nodes: Vec<Kept<C>>,
    spans: Vec<Span>,
    plan: Vec<Planned>,
}

impl<const C: usize> Model for Running<C> {
    ghost use Rattle.std.specs.Prelude.{map};
    ghost use Rattle.hsr_ring.specs.Views.{AreNumbered, world_of};
    ghost use Rattle.hsr_world_links.specs.Views.{span_view};
    ghost use Rattle.hsr_world_laws.specs.World.{World};

    ghost Value = { World };

    ghost view = { λ r. world_of r.moment r.nodes.items (map span_view r.spans.items) r.plan.items };

    ghost invariant = { λ r. AreNumbered r.nodes.items };
}

impl<const C: usize> Running<C> {
    ghost use Rattle.hsr_world_laws.specs.World.{new_world};

    /// The world of a topology in which nothing was done; on each link `capacity` copies may wait in each direction.
    pub(crate) fn new(
        alloc: Global,
        topology: &Topology,
        capacity: usize,
    ) -> Result<Running<C>, hsr_frame::NoMemory>
        requires entries { IsTableSize C }
        requires room { (1 ≤ capacity) × (capacity ≤ 4096) }
        ensures { IfOk result (λ running. running
            ≡ new_world capacity topology.now.places topology.now.links) }
    {
        let nodes = new_nodes(alloc, topology.places())?;
        let spans = new_spans(alloc, capacity, topology.links())?;
        Ok(Running {
            alloc,
            moment: 0,
            nodes,
            spans,
            plan: Vec::new(alloc),
        })
    }
}

impl<const C: usize> Running<C> {
    ghost use Rattle.hsr_ring.specs.Hands.{given_back, in_hand};
    ghost use Rattle.hsr_world_links.specs.Hands.{hand_in};
    ghost use Rattle.hsr_world_laws.specs.World.{by_main, cleared, entered, planned, tried};
    ghost use Rattle.hsr_world_steps.specs.declared.step.Step.TheVariants.{Age, Clock, Cut, Inject, Judge, Mend, Put, Send, Supervise, Take};
    ghost use Rattle.hsr_world_steps.specs.declared.step.WorldFault.TheVariants.{NoMemory};

    /// Tells each node and link how many entries and rows are expected of it in all. Nothing else depends on it.
    pub(crate) fn expect(&mut self, entries: usize)
        ensures { self.new ≡ self.old }
    {
        expect_entries(&mut self.nodes, entries);
        expect_rows(&mut self.spans, entries);
    }

    /// Sets the moment, earlier ones too.
    #[tactic(auto, unfolding(hsr_world_laws::specs::World::tried))]
    fn clock(&mut self, at: u64)
        ensures { tried C self.old (Clock at) ≡ Ok self.new }
    {
        self.moment = at;
    }

    /// Mends a link. `NoSuchLink` where there is none of this number.
    #[tactic(auto, unfolding(hsr_world_laws::specs::World::tried))]
    fn mend(&mut self, link: usize) -> Result<(), WorldFault>
        ensures ok { OnOk result (tried C self.old (Mend link) ≡ Ok self.new) }
        ensures err { IfErr result (λ f. (self.new ≡ self.old)
            × (tried C self.old (Mend link) ≡ Err f)) }
    {
        if link >= self.spans.len() {
            return Err(WorldFault::NoSuchLink);
        }
        mend_at(&mut self.spans, link);
        Ok(())
    }

    /// Cuts a link. `NoSuchLink` where there is none of this number.
    #[tactic(auto, unfolding(hsr_world_laws::specs::World::tried))]
    fn cut(&mut self, link: usize) -> Result<(), WorldFault>
        ensures ok { OnOk result (tried C self.old (Cut link) ≡ Ok self.new) }
        ensures err { IfErr result (λ f. (self.new ≡ self.old)
            × (tried C self.old (Cut link) ≡ Err f)) }
    {
        if link >= self.spans.len() {
            return Err(WorldFault::NoSuchLink);
        }
        cut_at(&mut self.spans, link);
        Ok(())
    }

    /// Puts octets that no port sent on a link. `NoSuchLink`, then `TooLong` over `INJECT_LIMIT` octets.
    #[tactic(auto, unfolding(hsr_world_laws::specs::World::tried))]
    fn inject(&mut self, link: usize, dir: Dir, octets: &Octets) -> Result<(), WorldFault>
        ensures ok { OnOk result (tried C self.old (Inject link dir octets.now) ≡ Ok self.new) }
        ensures err { IfErr result (λ f. (self.new ≡ self.old)
            × ((f ≡ NoMemory) ⊎ (tried C self.old (Inject link dir octets.now) ≡ Err f))) }
    {
        if link >= self.spans.len() {
            return Err(WorldFault::NoSuchLink);
        }
        if octets.as_slice().len() > INJECT_LIMIT {
            return Err(WorldFault::TooLong);
        }
        match inject_at(&mut self.spans, link, dir, octets) {
            Ok(()) => Ok(()),
            Err(fault) => Err(fault),
        }
    }

    /// The oldest copy that waits in a direction comes into the hand. `NoSuchLink`, then `Busy`, then `Nothing`.
    #[inline(always)]
    #[tactic(auto, unfolding(hsr_world_laws::specs::World::tried))]
    fn take(&mut self, link: usize, dir: Dir) -> Result<(), WorldFault>
        ensures ok { OnOk result (tried C self.old (Take link dir) ≡ Ok self.new) }
        ensures err { IfErr result (λ f. (self.new ≡ self.old)
            × (tried C self.old (Take link dir) ≡ Err f)) }
    {
        if link >= self.spans.len() {
            return Err(WorldFault::NoSuchLink);
        }
        match take_at(&mut self.spans, link, dir) {
            Ok(()) => Ok(()),
            Err(fault) => Err(fault),
        }
    }

    /// The first reason why there is no such port.
    fn fault_of_port(&self, node: usize, port: u8) -> Option<WorldFault>
        ensures exact { result ≡ port_fault self.now.places node port }
        ensures there { IfNone result ((node < length self.now.places) × (node < 64)) }
    {
        // A call of its own for its second clause: a port that is there has a node below 64.
        port_fault(&self.nodes, node, port)
    }

    /// The oldest copy of an outbox goes onto its link.
    fn put_out(&mut self, spot: Option<Spot>) -> Result<(), WorldFault>
        ensures ok { OnOk result (in_world self.old
            (put_at_spot self.old.spans (option_map spot_view spot)) ≡ Ok self.new) }
        ensures err { IfErr result (λ f. (self.new ≡ self.old)
            × ((f ≡ NoMemory)
            ⊎ (in_world self.old (put_at_spot self.old.spans (option_map spot_view spot))
            ≡ Err f))) }
    {
        match put_at_spot(&mut self.spans, spot) {
            Ok(()) => Ok(()),
            Err(fault) => Err(fault),
        }
    }

    /// The oldest copy in the outbox of a port goes onto its link. `NoSuchNode`, `NoSuchPort`, then `Nothing`.
    #[inline(always)]
    fn put(&mut self, ports: &[Port], node: usize, port: u8) -> Result<(), WorldFault>
        requires { AreTold self.old.places self.old.spans ports.now }
        ensures ok { OnOk result (tried C self.old (Put node port) ≡ Ok self.new) }
        ensures err { IfErr result (λ f. (self.new ≡ self.old)
            × ((f ≡ NoMemory) ⊎ (tried C self.old (Put node port) ≡ Err f))) }
    {
        if let Some(fault) = self.fault_of_port(node, port) {
            return Err(fault);
        }
        self.put_out(port_of(ports, End { node, port }).out)
    }

    /// Lets an event happen at a node, which these links touch; a refusal hands it back.
    // Inline, since a call would pass the event through memory.
    #[inline(always)]
    fn enter_at(
        &mut self,
        links: &[usize],
        node: usize,
        worker: u16,
        event: Event,
    ) -> Result<(), (Event, WorldFault)>
        requires below { node < length self.old.places }
        requires touching { links.now ≡ touching_from node 0 self.old.spans }
        ensures ok { OnOk result (entered C self.old worker node event ≡ Ok self.new) }
        ensures err { IfErr result (λ e. (self.new ≡ self.old) × (e.0 ≡ event)
            × ((e.1 ≡ NoMemory) ⊎ (entered C self.old worker node event ≡ Err e.1))) }
    {
        let at = self.moment;
        match enter(
            self.alloc,
            &mut self.nodes,
            &mut self.spans,
            links,
            node,
            worker,
            at,
            event,
        ) {
            Ok(()) => Ok(()),
            Err(refusal) => Err(refusal),
        }
    }

    /// Puts an event of the main worker last in the plan, at the world's moment.
    fn plan_for(&mut self, node: usize, event: &Event) -> Result<(), WorldFault>
        ensures ok { OnOk result (self.new ≡ planned self.old node event.now) }
        ensures err { IfErr result (λ f. (self.new ≡ self.old) × (f ≡ NoMemory)) }
    {
        // A copy, since the node takes the event itself.
        let Ok(event) = event.copy() else {
            return Err(WorldFault::NoMemory);
        };
        let at = self.moment;
        match self.plan.push(Planned { node, at, event }) {
            Ok(()) => Ok(()),
            Err(_refused) => Err(WorldFault::NoMemory),
        }
    }

    /// Takes the last event out of the plan again.
    fn plan_no_more(&mut self)
        ensures { IsUnplanned self.old self.new }
    {
        // What was planned last is dropped with the step that was refused.
        let _last = self.plan.pop();
    }

    /// Lets an event of the main worker happen at a node, and puts it into the plan. `NoSuchNode` first.
    fn by_main(
        &mut self,
        touching: &[Vec<usize>],
        node: usize,
        event: Event,
    ) -> Result<(), WorldFault>
        requires { AreTouching self.old.places self.old.spans
            (map (λ links. links.items) touching.now) }
        ensures ok { OnOk result (by_main C self.old node event ≡ Ok self.new) }
        ensures err { IfErr result (λ f. (self.new ≡ self.old)
            × ((f ≡ NoMemory) ⊎ (by_main C self.old node event ≡ Err f))) }
    {
        if node >= self.nodes.len() {
            return Err(WorldFault::NoSuchNode);
        }
        // Planned first, since this may be refused for memory, and a plan is shortened without any.
        match self.plan_for(node, &event) {
            Ok(()) => {}
            Err(fault) => return Err(fault),
        }
        match self.enter_at(touching_of(touching, node), node, 0, event) {
            Ok(()) => Ok(()),
            Err((_event, fault)) => {
                self.plan_no_more();
                Err(fault)
            }
        }
    }

    /// Another hand where a port receives; the answer is what was in it.
    // Inline, since a call would pass the copy through memory.
    #[inline(always)]
    fn change_hand(&mut self, spot: Option<Spot>, hand: Option<Carried>) -> Option<Carried>
        ensures was { result ≡ hand_in self.old.spans (option_map spot_view spot) }
        ensures now { self.new ≡ in_hand hand self.old (option_map spot_view spot) }
    {
        change_hand(&mut self.spans, spot, hand)
    }

    /// What came in an event is held again, where it was.
    fn give_back(&mut self, spot: Option<Spot>, event: Event)
        ensures { self.new ≡ given_back event self.old (option_map spot_view spot) }
    {
        if let Event::Arrive { port: _, carried } = event {
            // The hand was emptied before, so nothing is in it.
            let _nothing = self.change_hand(spot, Some(carried));
        }
    }

    /// What the port at an end holds leaves its hand.
    fn clear_at(&mut self, links: &[usize], end: End)
        requires { links.now ≡ touching_from end.node 0 self.old.spans }
        ensures { self.new ≡ cleared self.old end }
    {
        clear(&mut self.spans, links, end);
    }

    /// A node judges the copy in the hand of a port. `NoSuchNode`, `NoSuchPort`, then `Nothing`.
    #[inline(always)]
    fn judge(
        &mut self,
        ports: &[Port],
        touching: &[Vec<usize>],
        node: usize,
        port: u8,
    ) -> Result<(), WorldFault>
        requires told { AreTold self.old.places self.old.spans ports.now }
        requires touching { AreTouching self.old.places self.old.spans
            (map (λ links. links.items) touching.now) }
        ensures ok { OnOk result (tried C self.old (Judge node port) ≡ Ok self.new) }
        ensures err { IfErr result (λ f. (self.new ≡ self.old)
            × ((f ≡ NoMemory) ⊎ (tried C self.old (Judge node port) ≡ Err f))) }
    {
        if let Some(fault) = self.fault_of_port(node, port) {
            return Err(fault);
        }
        let end = End { node, port };
        let spot = port_of(ports, end).into;
        let links = touching_of(touching, node);
        // The copy is moved out of the hand and into the event, so that judging needs no copy of its octets.
        let Some(carried) = self.change_hand(spot, None) else {
            return Err(WorldFault::Nothing);
        };
        match self.enter_at(
            links,
            node,
            port_worker(end),
            Event::Arrive { port, carried },
        ) {
            Ok(()) => {
                self.clear_at(links, end);
                Ok(())
            }
            Err((event, fault)) => {
                self.give_back(spot, event);
                Err(fault)
            }
        }
    }

    /// A node drops what is expired.
    #[tactic(auto, unfolding(hsr_world_laws::specs::World::tried))]
    fn age(&mut self, touching: &[Vec<usize>], node: usize) -> Result<(), WorldFault>
        requires { AreTouching self.old.places self.old.spans
            (map (λ links. links.items) touching.now) }
        ensures ok { OnOk result (tried C self.old (Age node) ≡ Ok self.new) }
        ensures err { IfErr result (λ f. (self.new ≡ self.old)
            × ((f ≡ NoMemory) ⊎ (tried C self.old (Age node) ≡ Err f))) }
    {
        self.by_main(touching, node, Event::Age)
    }

    /// A node sends a supervision frame.
    #[tactic(auto, unfolding(hsr_world_laws::specs::World::tried))]
    fn supervise(
        &mut self,
        touching: &[Vec<usize>],
        node: usize,
        about: About,
    ) -> Result<(), WorldFault>
        requires { AreTouching self.old.places self.old.spans
            (map (λ links. links.items) touching.now) }
        ensures ok { OnOk result (tried C self.old (Supervise node about) ≡ Ok self.new) }
        ensures err { IfErr result (λ f. (self.new ≡ self.old)
            × ((f ≡ NoMemory) ⊎ (tried C self.old (Supervise node about) ≡ Err f))) }
    {
        self.by_main(touching, node, Event::Supervise(about))
    }

    /// A node sends a frame of its own.
    #[tactic(auto, unfolding(hsr_world_laws::specs::World::tried))]
    fn send(
        &mut self,
        touching: &[Vec<usize>],
        node: usize,
        from: u8,
        dst: Mac,
        vlan: Option<u16>,
        ethertype: u16,
        payload: &Octets,
    ) -> Result<(), WorldFault>
        requires { AreTouching self.old.places self.old.spans
            (map (λ links. links.items) touching.now) }
        ensures ok { OnOk result (tried C self.old (Send node from dst vlan ethertype payload.now)
            ≡ Ok self.new) }
        ensures err { IfErr result (λ f. (self.new ≡ self.old)
            × ((f ≡ NoMemory) ⊎ (tried C self.old (Send node from dst vlan ethertype payload.now)
            ≡ Err f))) }
    {
        // A copy, since the step is borrowed and the event owns its payload.
        let Ok(payload) = Octets::from_slice(self.alloc, payload.as_slice()) else {
            return Err(WorldFault::NoMemory);
        };
        self.by_main(
            touching,
            node,
            Event::Send {
                from,
                dst,
                vlan,
                kind: ethertype,
                payload,
            },
        )
    }

    /// Makes a move, exactly as `tried` says of the step that it is, in a world with these ports, whose nodes these links touch; a
    /// refusal changes nothing.
    // Inline, as the three that it calls: each of a drain's moves comes by here.
    #[inline(always)]
    pub(crate) fn go(
        &mut self,
        ports: &[Port],
        touching: &[Vec<usize>],
        moved: Move,
    ) -> Result<(), WorldFault>
        requires told { AreTold self.old.places self.old.spans ports.now }
        requires touching { AreTouching self.old.places self.old.spans
            (map (λ links. links.items) touching.now) }
        ensures ok { OnOk result (tried C self.old (step_of moved) ≡ Ok self.new) }
        ensures err { IfErr result (λ f. (self.new ≡ self.old)
            × ((f ≡ NoMemory) ⊎ (tried C self.old (step_of moved) ≡ Err f))) }
    {
        match moved {
            Move::Judge(end) => self.judge(ports, touching, end.node, end.port),
            Move::Put(end) => self.put(ports, end.node, end.port),
            Move::Take(link, dir) => self.take(link, dir),
        }
    }

    /// Does a step, exactly as `tried` says, in a world with these ports, whose nodes these links touch; a refusal changes nothing.
    pub(crate) fn step(
        &mut self,
        ports: &[Port],
        touching: &[Vec<usize>],
        step: &Step,
    ) -> Result<(), WorldFault>
        requires told { AreTold self.old.places self.old.spans ports.now }
        requires touching { AreTouching self.old.places self.old.spans
            (map (λ links. links.items) touching.now) }
        ensures ok { OnOk result (tried C self.old step.now ≡ Ok self.new) }
        ensures err { IfErr result (λ f. (self.new ≡ self.old)
            × ((f ≡ NoMemory) ⊎ (tried C self.old step.now ≡ Err f))) }
    {
        match step {
            Step::Clock { at } => {
                self.clock(*at);
                Ok(())
            }
            Step::Send {
                node,
                from,
                dst,
                vlan,
                kind: ethertype,
                payload,
            } => self.send(touching, *node, *from, *dst, *vlan, *ethertype, payload),
            Step::Supervise { node, about } => self.supervise(touching, *node, *about),
            Step::Age { node } => self.age(touching, *node),
            Step::Put { node, port } => self.put(ports, *node, *port),
            Step::Take { link, dir } => self.take(*link, *dir),
            Step::Judge { node, port } => self.judge(ports, touching, *node, *port),
            Step::Cut { link } => self.cut(*link),
            Step::Mend { link } => self.mend(*link),
            Step::Inject { link, dir, octets } => self.inject(*link, *dir, octets),
        }
    }
}

impl<const C: usize> Running<C> {
    ghost use Rattle.hsr_frame.specs.Counters.{AreWithin};
    ghost use Rattle.hsr_node.specs.Counts.{counters};
    ghost use Rattle.hsr_world_links.specs.Ports.{ports_in};
    ghost use Rattle.hsr_ring.specs.Pending.{AreLooked, AreOfSenders};
    ghost use Rattle.hsr_world_laws.specs.World.{span_at, owner_at, record_at};

    /// How many nodes there are.
    pub(crate) fn node_count(&self) -> usize
        ensures { result ≡ length self.now.places }
    {
        self.nodes.len()
    }

    /// How many links there are.
    pub(crate) fn link_count(&self) -> usize
        ensures { result ≡ length self.now.spans }
    {
        self.spans.len()
    }

    /// The record of a node, the oldest entry first.
    pub(crate) fn entries(&self, node: usize) -> &[Entry]
        requires { node < length self.now.places }
        ensures { reverse result.now ≡ record_at self.now node }
    {
        self.nodes[node].entries()
    }

    /// How often each thing happened at a node.
    pub(crate) fn counters(&self, node: usize) -> Counters
        requires { node < length self.now.places }
        ensures value { result ≡ counters (owner_at self.now node).place (record_at self.now node) }
        ensures within { AreWithin result (2 ^ 62) }
    {
        self.nodes[node].counters()
    }

    /// The row of each copy that was put on a link, in order.
    pub(crate) fn rows(&self, link: usize) -> &[Row]
        requires { link < length self.now.spans }
        ensures { result.now ≡ (span_at self.now link).link.rows }
    {
        self.spans[link].link.rows()
    }

    /// All ports, by their numbers.
    pub(crate) fn ports(&self) -> Result<Vec<Port>, hsr_frame::NoMemory>
        ensures { IfOk result (λ ports. ports.items ≡ ports_in self.now.places self.now.spans) }
    {
        new_ports(self.alloc, &self.nodes, &self.spans)
    }

    /// The links that touch each node.
    pub(crate) fn touching(&self) -> Result<Vec<Vec<usize>>, hsr_frame::NoMemory>
        ensures { IfOk result (λ all. map (λ links. links.items) all.items
            ≡ touching_in (length self.now.places) self.now.spans) }
    {
        new_touching(self.alloc, self.nodes.len(), &self.spans)
    }

    /// Looks at what a move may have changed of what is left to do.
    #[inline(always)]
    pub(crate) fn look_moved(&self, ports: &[Port], moved: Move, pending: &mut Pending)
        requires { AreOfSenders ports.now pending.old.waiting }
        ensures { AreLooked ports.now self.now.spans (step_of moved) pending.old pending.new }
    {
        pending.look_moved(ports, &self.spans, moved);
    }

    /// Looks at what a step may have changed of what is left to do.
    pub(crate) fn look(&self, ports: &[Port], step: &Step, pending: &mut Pending)
        requires { AreOfSenders ports.now pending.old.waiting }
        ensures { AreLooked ports.now self.now.spans step.now pending.old pending.new }
    {
        pending.look(ports, &self.spans, step);
    }
}

impl<const C: usize> Running<C> {
    ghost use Rattle.hsr_finished_run.specs.Checked.{IfDisagree, IsOpen};
    ghost use Rattle.hsr_run_laws.specs.Once.{IsCalm};
    ghost use Rattle.hsr_run_laws.specs.Premises.{NumberedFirst};
    ghost use Rattle.hsr_world_laws.specs.Lawful.{IsEnded, finished_of};
    ghost use Rattle.hsr_world_laws.specs.Reached.{IsReached};

    /// The finished run that a world of this topology is. Else all comes back as it was, with the first cause.
    pub(crate) fn close(
        self,
        topology: Topology,
    ) -> Result<Closed<C>, (Topology, Running<C>, CheckFault)>
        requires tables { IsTableSize C }
        requires reached { IsReached C topology.places topology.links self }
        ensures closed { IfOk result (λ closed. closed ≡ finished_of C self.entry) }
        ensures ended { IfOk result (λ closed. IsEnded self.entry) }
        ensures numbered { IfOk result (λ closed. NumberedFirst closed.run) }
        ensures no_storm { IfOk result (λ closed. IsCalm closed.run) }
        ensures whole { IfErr result (λ e. (e.0 ≡ topology) × (e.1 ≡ self.entry)) }
        ensures refused { IfErr result (λ e. IfDisagree e.2 (λ d. ¬ IsEnded self.entry)) }
        ensures first { IfErr result (λ e. IfDisagree e.2
            (λ d. IsOpen (finished_of C self.entry).run d)) }
    {
        // The clause of this call says that nodes and links are a topology, which the proof needs from here on.
        let _ = topology.places();
        let Running {
            alloc,
            moment,
            nodes,
            spans,
            plan,
        } = self;
        let rest = Rest {
            topology,
            nodes,
            plan,
        };
        match closed_of(alloc, rest, spans) {
            Ok(closed) => Ok(closed),
            Err(open) => {
                let Open { rest, spans, fault } = open;
                let Rest {
                    topology,
                    nodes,
                    plan,
                } = rest;
                let running = Running {
                    alloc,
                    moment,
                    nodes,
                    spans,
                    plan,
                };
                Err((topology, running, fault))
            }
        }
    }
}
