//! What is left to do in a world.
//!
//! A drain does up to a million steps, so what is left isn't searched for. Three sets say it, and after each step they are
//! looked at again where that step may have changed them. The step itself doesn't touch them, so its definition stays the
//! one account of it.
ghost use Rattle.std.specs.Prelude.{◌≡◌, ◌==◌, ◌<◌, ◌≤◌, ◌/◌, ℕ, [], None, false, if◌then◌else◌, is_some, map, not, option_map};
ghost use Rattle.hsr_topology.specs.Links.{is_same_end};
ghost use Rattle.hsr_world_laws.specs.Spans.{lane_of};
ghost use Rattle.hsr_world_laws.specs.World.{is_empty, waits_in};
ghost use Rattle.hsr_bitset.specs.Numbers.{has};
ghost use Rattle.hsr_ring.specs.Pending.{AreOfSenders, Has, is_at, is_by, link_at, looked, received_at, step_of};
ghost use Rattle.hsr_world_links.specs.Ports.{dir_at, end_at, held_at, is_held, is_ready, is_waiting, port_in};
ghost use Rattle.hsr_world_links.specs.Views.{span_view, spot_view};

use hsr_bitset::Numbers;
use hsr_link::Dir;
use hsr_topology::End;
use hsr_world_links::{Port, Span, Spot, port_in, port_number, port_of};
use hsr_world_steps::Step;

/// The numbers of the ports that hold a copy, of those that have one to put, and of the directions in which one waits. A node
/// has 8 numbers for its ports, and a link 2 for its directions.
#[derive(Clone, Copy)]
pub(crate) struct Pending {
    held: Numbers,
    waiting: Numbers,
    ready: Numbers,
}

/// A step that moves a copy, of which a drain does nothing else. It is a type of its own, since a `Step` may have a payload, and so
/// is longer.
#[derive(Clone, Copy)]
pub(crate) enum Move {
    Judge(End),
    Put(End),
    Take(usize, Dir),
}

/// Whether a copy is in the hand of a direction.
fn is_taken(span: &Span, dir: Dir) -> bool
    ensures { result ≡ is_some (lane_of dir (span_view span.now)).hand }
{
    match dir {
        Dir::Forth => span.forth.hand.is_some(),
        Dir::Back => span.back.hand.is_some(),
    }
}

/// Whether a copy is in the outbox of a direction.
fn is_full(span: &Span, dir: Dir) -> bool
    ensures { result ≡ not (is_empty (lane_of dir (span_view span.now)).outbox) }
{
    match dir {
        Dir::Forth => !span.forth.outbox.is_empty(),
        Dir::Back => !span.back.outbox.is_empty(),
    }
}

/// Whether a port that receives there holds a copy.
#[tactic(auto, using(hsr_world_links::proofs::Places::span_seen))]
fn is_held(spans: &[Span], spot: Option<Spot>) -> bool
    ensures { result ≡ held_at (map span_view spans.now) (option_map spot_view spot) }
{
    let Some(spot) = spot else {
        return false;
    };
    match spans.get(spot.link) {
        Some(span) => is_taken(span, spot.dir),
        None => false,
    }
}

/// Whether a port that sends there has a copy to put.
#[tactic(auto, using(hsr_world_links::proofs::Places::span_seen))]
fn is_waiting(spans: &[Span], spot: Option<Spot>) -> bool
    ensures { result ≡ waits_in (map span_view spans.now) (option_map spot_view spot) }
{
    let Some(spot) = spot else {
        return false;
    };
    match spans.get(spot.link) {
        Some(span) => is_full(span, spot.dir),
        None => false,
    }
}

/// Whether a copy waits in the direction of a number.
#[tactic(auto, using(hsr_world_links::proofs::Places::span_seen))]
fn is_ready(spans: &[Span], number: usize) -> bool
    ensures { result ≡ is_ready (map span_view spans.now) number }
{
    match spans.get(number / 2) {
        Some(span) => span.link.waits(dir_at(number)),
        None => false,
    }
}

/// The end of a number.
fn end_at(number: usize) -> End
    ensures { result ≡ end_at number }
{
    End {
        node: number / 8,
        port: (number % 8) as u8,
    }
}

/// The direction of a number.
fn dir_at(number: usize) -> Dir
    ensures { result ≡ dir_at number }
{
    if number % 2 == 0 {
        Dir::Forth
    } else {
        Dir::Back
    }
}

/// Looks whether the port at an end holds a copy.
fn look_at_hand(held: &mut Numbers, ports: &[Port], spans: &[Span], end: End)
    ensures { Has held.new (looked (λ k. is_same_end (end_at k) end)
        (is_held ports.now (map span_view spans.now)) held.old) }
{
    // Past these the number would be another port's, or none of the set.
    if end.node < 64 && end.port < 8 {
        let number = port_number(end);
        held.put(number, is_held(spans, port_in(ports, number).into));
    }
}

/// Looks whether the port at an end has a copy to put.
fn look_at_box(waiting: &mut Numbers, ports: &[Port], spans: &[Span], end: End)
    ensures { Has waiting.new (looked (λ k. is_same_end (end_at k) end)
        (is_waiting ports.now (map span_view spans.now)) waiting.old) }
{
    // Past these the number would be another port's, or none of the set.
    if end.node < 64 && end.port < 8 {
        let number = port_number(end);
        waiting.put(number, is_waiting(spans, port_in(ports, number).out));
    }
}

/// Looks whether the port of a number has a copy to put.
fn look_at_number(waiting: &mut Numbers, ports: &[Port], spans: &[Span], number: usize)
    requires below { number < 512 }
    requires sender { (port_in ports.now number).out ≡ None → has waiting.old number ≡ false }
    ensures { (k : ℕ) → k < 512 → has waiting.new k ≡ (if k == number then
        is_waiting ports.now (map span_view spans.now) number else has waiting.old k) }
{
    // Most numbers are of no port that sends: none of them has a copy to put, and none had.
    if let Some(spot) = port_in(ports, number).out {
        waiting.put(number, is_waiting(spans, Some(spot)));
    }
}

/// Looks which ports of a node have a copy to put.
fn look_at_node(waiting: &mut Numbers, ports: &[Port], spans: &[Span], node: usize)
    requires { AreOfSenders ports.now waiting.old }
    ensures { Has waiting.new (looked (λ k. k / 8 == node)
        (is_waiting ports.now (map span_view spans.now)) waiting.old) }
{
    if node >= 64 {
        return;
    }
    // No node has over four ports: the other numbers have nothing, and had nothing.
    for number in 8 * node..8 * node + 4 {
        look_at_number(waiting, ports, spans, number);
    }
}

/// Looks in which directions of a link a copy waits.
fn look_at_link(ready: &mut Numbers, spans: &[Span], link: usize)
    ensures { Has ready.new (looked (λ k. k / 2 == link)
        (is_ready (map span_view spans.now)) ready.old) }
{
    // 512 numbers, two for each link. No topology has over 128 links.
    if link < 256 {
        ready.put(2 * link, is_ready(spans, 2 * link));
        ready.put(2 * link + 1, is_ready(spans, 2 * link + 1));
    }
}

/// Looks at the link in a direction of which a port sends.
fn look_at_out(ready: &mut Numbers, spans: &[Span], out: Option<Spot>)
    ensures { Has ready.new (looked (λ k. is_by (link_at (option_map spot_view out)) (k / 2))
        (is_ready (map span_view spans.now)) ready.old) }
{
    if let Some(spot) = out {
        look_at_link(ready, spans, spot.link);
    }
}

/// The end at which a direction of a link is received, if there is such a link.
#[tactic(auto, using(hsr_world_links::proofs::Places::span_seen))]
fn received_at(spans: &[Span], link: usize, dir: Dir) -> Option<End>
    ensures { result ≡ received_at (map span_view spans.now) link dir }
{
    match spans.get(link) {
        Some(span) => match dir {
            Dir::Forth => Some(span.forth.to),
            Dir::Back => Some(span.back.to),
        },
        None => None,
    }
}

/// Looks whether the port at an end, if there is one, holds a copy.
fn look_at_receiver(held: &mut Numbers, ports: &[Port], spans: &[Span], end: Option<End>)
    ensures { Has held.new (looked (λ k. is_at end k)
        (is_held ports.now (map span_view spans.now)) held.old) }
{
    if let Some(end) = end {
        look_at_hand(held, ports, spans, end);
    }
}

impl Pending {
    ghost use Rattle.hsr_ring.specs.Pending.{AreLooked, ArePending, IsNext};

    /// Nothing is left.
    pub(crate) fn new() -> Pending
        ensures { ArePending [] [] result }
    {
        Pending {
            held: Numbers::new(),
            waiting: Numbers::new(),
            ready: Numbers::new(),
        }
    }

    /// Looks at what a move may have changed: at the ports and the link that it is about, and at the outboxes of a node that judged.
    // Inline, as all that a drain calls for each move: a call would take longer than what it does.
    #[inline(always)]
    pub(crate) fn look_moved(&mut self, ports: &[Port], spans: &[Span], moved: Move)
        requires { AreOfSenders ports.now self.old.waiting }
        ensures { AreLooked ports.now (map span_view spans.now) (step_of moved) self.old self.new }
    {
        match moved {
            Move::Judge(end) => {
                // The hand is empty after a judgement, and what passed waits in the node's outboxes.
                look_at_hand(&mut self.held, ports, spans, end);
                look_at_node(&mut self.waiting, ports, spans, end.node);
            }
            Move::Put(end) => {
                look_at_box(&mut self.waiting, ports, spans, end);
                look_at_out(&mut self.ready, spans, port_of(ports, end).out);
            }
            Move::Take(link, dir) => {
                let end = received_at(spans, link, dir);
                look_at_receiver(&mut self.held, ports, spans, end);
                look_at_link(&mut self.ready, spans, link);
            }
        }
    }

    /// Looks at what a step may have changed: of the ports, the links and the outboxes at those that it is about.
    pub(crate) fn look(&mut self, ports: &[Port], spans: &[Span], step: &Step)
        requires { AreOfSenders ports.now self.old.waiting }
        ensures { AreLooked ports.now (map span_view spans.now) step.now self.old self.new }
    {
        match step {
            Step::Send { node, .. } | Step::Supervise { node, .. } | Step::Age { node } => {
                // A send may leave by each port of the node.
                look_at_node(&mut self.waiting, ports, spans, *node);
            }
            Step::Put { node, port } => {
                let end = End {
                    node: *node,
                    port: *port,
                };
                self.look_moved(ports, spans, Move::Put(end));
            }
            Step::Take { link, dir } => self.look_moved(ports, spans, Move::Take(*link, *dir)),
            Step::Judge { node, port } => {
                let end = End {
                    node: *node,
                    port: *port,
                };
                self.look_moved(ports, spans, Move::Judge(end));
            }
            Step::Cut { link } | Step::Inject { link, .. } => {
                // A cut takes what waits in both directions; an injected copy may be lost at once.
                look_at_link(&mut self.ready, spans, *link);
            }
            // Neither moves a copy.
            Step::Clock { .. } | Step::Mend { .. } => {}
        }
    }

    /// What a drain does next: it judges at the lowest port that holds a copy, else puts from the lowest that has one to put,
    /// else takes from the lowest link on which one waits, Forth before Back.
    #[inline(always)]
    pub(crate) fn next(&self) -> Option<Move>
        ensures { IsNext self.now (option_map step_of result) }
    {
        // Hands first, then outboxes, then links, each by the lowest number (RULES, Worlds): so a drain has one order.
        if let Some(number) = self.held.lowest() {
            return Some(Move::Judge(end_at(number)));
        }
        if let Some(number) = self.waiting.lowest() {
            return Some(Move::Put(end_at(number)));
        }
        let number = self.ready.lowest()?;
        Some(Move::Take(number / 2, dir_at(number)))
    }
}
