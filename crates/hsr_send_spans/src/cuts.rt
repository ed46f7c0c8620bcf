//! Which links are cut as the steps go on, and which are down in the span of a send.
//!
//! A plan may have a hundred thousand sends, and of each it is asked which links are down in its span. So the links that are cut are kept
//! from one send to the next: else each would look at all steps before it, once for each link.
ghost use Rattle.std.specs.Prelude.{◌≡◌, ◌==◌, ◌<◌, ◌≤◌, ℕ, false, if◌then◌else◌};
ghost use Rattle.hsr_bitset.specs.Numbers.{has};
ghost use Rattle.hsr_plays.specs.Spans.{cut_after, cut_behind, is_down_in};
ghost use Rattle.hsr_send_spans.specs.Down.{AreCutAt, AreDownIn, is_down_with};

use crate::spans::{above, first_steps, steps_from};
use hsr_bitset::Numbers;
use hsr_plays::SendSpan;
use hsr_scenario::Order;
use hsr_world_steps::Step;

/// How many numbers a set has for links. No topology has over 128 links.
const NUMBERS: usize = 512;

/// The links that are cut behind the first so many steps.
#[derive(Clone, Copy)]
pub struct Cuts {
    /// How many steps are done.
    pub time: usize,
    /// The numbers of the links, which are below 512.
    pub links: Numbers,
}

/// With a link in a set or not, if it has a number there.
fn with_link(links: Numbers, link: usize, is_in: bool) -> Numbers
    ensures { (n : ℕ) → n < 512 → has result n ≡ (if n == link then is_in else has links n) }
{
    let mut with = links;
    if link < NUMBERS {
        with.put(link, is_in);
    }
    with
}

/// The links that are cut behind a step, where these are before it.
fn with_cut(links: Numbers, order: &Order) -> Numbers
    ensures { (n : ℕ) → n < 512 → has result n ≡ cut_after n (has links n) order.now }
{
    match order {
        Order::Step(Step::Cut { link }) => with_link(links, *link, true),
        Order::Step(Step::Mend { link }) => with_link(links, *link, false),
        _ => links,
    }
}

/// The links that are cut behind steps, where these are before them.
fn with_cuts(links: Numbers, steps: &[Order]) -> Numbers
    ensures { (n : ℕ) → n < 512 → has result n ≡ cut_behind n (has links n) steps.now }
{
    let mut cut = links;
    let mut rest = steps;
    // What is left is a variable, since the loop's invariant speaks of it.
    while let Some((order, more)) = rest.split_first() {
        cut = with_cut(cut, order);
        rest = more;
    }
    cut
}

/// With the link that a step cuts, if it does.
fn with_down(links: Numbers, order: &Order) -> Numbers
    ensures { (n : ℕ) → n < 512 → has result n ≡ is_down_with n (has links n) order.now }
{
    match order {
        Order::Step(Step::Cut { link }) => with_link(links, *link, true),
        // A link that is mended was down.
        _ => links,
    }
}

/// The links that are cut before steps or behind one of them, where these are before them.
#[tactic(auto, using(crate::proofs::Cutting::down_more))]
fn with_downs(links: Numbers, steps: &[Order]) -> Numbers
    ensures { (n : ℕ) → n < 512 → has result n ≡ is_down_in n (has links n) steps.now }
{
    let mut down = links;
    let mut rest = steps;
    // What is left is a variable, since the loop's invariant speaks of it.
    while let Some((order, more)) = rest.split_first() {
        down = with_down(down, order);
        rest = more;
    }
    down
}

impl Cuts {
    /// Before the first step: no link is cut.
    pub fn new() -> Cuts
        ensures time { result.time ≡ 0 }
        ensures links { (n : ℕ) → has result.links n ≡ false }
    {
        Cuts {
            time: 0,
            links: Numbers::new(),
        }
    }

    /// The same, if no more steps are done than so many; else before the first step.
    fn until(self, orders: &[Order], time: usize) -> Cuts
        requires { AreCutAt orders.now self.time self.links }
        ensures within { result.time ≤ time }
        ensures links { AreCutAt orders.now result.time result.links }
    {
        // The steps are told to the proof alone.
        let _ = orders;
        // Sends come in the order of their steps, so this seldom begins anew.
        if self.time <= time { self } else { Cuts::new() }
    }

    /// The links that are cut behind the first `time` of these steps, where this one tells it of the first `self.time`. Links are told by
    /// their numbers below 512.
    pub fn at(self, orders: &[Order], time: usize) -> Cuts
        requires { AreCutAt orders.now self.time self.links }
        ensures time { result.time ≡ time }
        ensures links { AreCutAt orders.now time result.links }
    {
        let from = self.until(orders, time);
        let steps = first_steps(steps_from(orders, from.time), above(time, from.time));
        Cuts {
            time,
            links: with_cuts(from.links, steps),
        }
    }

    /// The links that are down at some time of the span of a send, where this one tells which are cut before it: by their numbers below 512.
    pub fn down_in(&self, orders: &[Order], span: &SendSpan) -> Numbers
        requires { AreCutAt orders.now span.now.index self.now.links }
        ensures { AreDownIn orders.now span.now result }
    {
        let steps = first_steps(steps_from(orders, span.index), above(span.end, span.index));
        with_downs(self.links, steps)
    }
}
