//! The orders that do what is told, one after another: what is done is written down, and puts and judgements are done at once.
ghost use Rattle.std.specs.Prelude.{◌≡◌, ◌++◌, ◌∷◌, [], false, true, IfErr, IfOk, OnOk};
ghost use Rattle.hsr_scenario.specs.declared.steps.Order.TheVariants as written;
ghost use Rattle.hsr_plan_hops.specs.Beginning.{HasPutBelow, IsNext};
ghost use Rattle.hsr_plan_hops.specs.Turns.{is_put};
ghost use Rattle.hsr_plan_hops.specs.Refusing.{IsUnmovedAtPace};
ghost use Rattle.hsr_plan_hops.specs.Weaving.{GoesOn, GoesOnIf, IsBegun, IsJudged, IsObeyed, PutsIf, Settles, is_owed, is_unknown};
ghost use Rattle.hsr_plan_hops.specs.declared.turns.Due.TheVariants.{Judgement, Puts};

use crate::stage::Stage;
use crate::turns::Due;
use crate::unmoved::Unmoved;
use hsr_frame::{About, NoMemory};
use hsr_node::StepFault;
use hsr_plan_schedule::Meaning;
use hsr_plan_text::Transfer;
use hsr_scenario::Order;
use hsr_topology::End;
use hsr_world_steps::{Step, WorldFault};
use std::marker::Model;

/// The most orders.
pub(crate) const ORDER_LIMIT: usize = 1 << 20;

/// As many ports as a node may have.
const PORT_LIMIT: u8 = 4;

/// The orders so far, and the stage that they lead to.
#[derive(Drop)]
pub(crate) struct Weaving<'a, const C: usize> {
    pub(crate) stage: Stage<'a, C>,
    pub(crate) orders: Vec<Order>,
}

impl<'a, const C: usize> Model for Weaving<'a, C> {
    ghost use Rattle.hsr_plan_hops.specs.Weaving.{Woven};

    ghost Value = { Woven };

    ghost view = { λ w. record { stage = w.stage; orders = w.orders.items } };
}

/// Writes down a step that was done.
fn note(orders: &mut Vec<Order>, step: &Step) -> Result<(), NoMemory>
    ensures { OnOk result (orders.new.items ≡ orders.old.items ++ written.Step step.now ∷ []) }
{
    orders.push(Order::Step(step.clone()?))?;
    Ok(())
}

/// Does a step that comes next, behind which so much is told, or tells why the world refuses it.
fn tries<'a, const C: usize>(
    told: &Meaning,
    transfer: Transfer,
    step: &Step,
    more: &'a [Order],
    weaving: &mut Weaving<'a, C>,
) -> Result<Option<WorldFault>, Unmoved>
    requires begun { IsBegun C transfer told.now weaving.old }
    requires next { IsNext C transfer told.now.topology.links weaving.old.stage step.now more.now }
    ensures ok { IfOk result (GoesOnIf C transfer told.now weaving.old step.now more.now weaving.new) }
    ensures err { IfErr result (IsUnmovedAtPace C transfer told.now) }
{
    if let Some(fault) = weaving.stage.tries(transfer, &told.topology, step, more)? {
        return Ok(Some(fault));
    }
    // Written down only once it was done, so that the orders are those that the world obeys.
    note(&mut weaving.orders, step)?;
    if weaving.orders.len() > ORDER_LIMIT {
        return Err(Unmoved::Endless(ORDER_LIMIT));
    }
    Ok(None)
}

/// Does a step that comes next, and is never left out.
pub(crate) fn does<'a, const C: usize>(
    told: &Meaning,
    transfer: Transfer,
    step: &Step,
    more: &'a [Order],
    weaving: &mut Weaving<'a, C>,
) -> Result<(), Unmoved>
    requires begun { IsBegun C transfer told.now weaving.old }
    requires next { IsNext C transfer told.now.topology.links weaving.old.stage step.now more.now }
    requires owed { is_owed step.now ≡ true }
    ensures ok { OnOk result (GoesOn C transfer told.now weaving.old step.now more.now weaving.new) }
    ensures err { IfErr result (IsUnmovedAtPace C transfer told.now) }
{
    match tries(told, transfer, step, more, weaving)? {
        None => Ok(()),
        Some(_) => Err(Unmoved::Differs),
    }
}

/// Whether a step is supervision about a station that its RedBox doesn't know, where this is why it's refused.
fn is_unknown(step: &Step, fault: WorldFault) -> bool
    ensures { result ≡ is_unknown step.now fault }
{
    match step {
        // What a RedBox knows depends on the copies that have come, so it is tried.
        Step::Supervise {
            about: About::Proxied(_),
            ..
        } => matches!(fault, WorldFault::Node(StepFault::NotProxied)),
        _ => false,
    }
}

/// Does a step that is told next. Supervision is left out where it's about a station that its RedBox doesn't know then.
pub(crate) fn obeys<'a, const C: usize>(
    told: &Meaning,
    transfer: Transfer,
    step: &Step,
    more: &'a [Order],
    weaving: &mut Weaving<'a, C>,
) -> Result<(), Unmoved>
    requires begun { IsBegun C transfer told.now weaving.old }
    requires next { IsNext C transfer told.now.topology.links weaving.old.stage step.now more.now }
    requires no_put { is_put step.now ≡ false }
    ensures ok { OnOk result (IsObeyed C transfer told.now weaving.old more.now weaving.new) }
    ensures err { IfErr result (IsUnmovedAtPace C transfer told.now) }
{
    match tries(told, transfer, step, more, weaving)? {
        None => Ok(()),
        Some(fault) if is_unknown(step, fault) => {
            weaving.stage.set_told(more);
            Ok(())
        }
        Some(_) => Err(Unmoved::Differs),
    }
}

/// Puts what a port has to put, if it has something, where the ports below it have nothing.
fn puts<const C: usize>(
    told: &Meaning,
    transfer: Transfer,
    node: usize,
    port: u8,
    weaving: &mut Weaving<'_, C>,
) -> Result<bool, Unmoved>
    requires begun { IsBegun C transfer told.now weaving.old }
    requires due { weaving.old.stage.due ≡ Puts node }
    requires lower { HasPutBelow C weaving.old.stage.world node port }
    ensures ok { IfOk result (PutsIf C transfer told.now weaving.old node port weaving.new) }
    ensures err { IfErr result (IsUnmovedAtPace C transfer told.now) }
{
    let more = weaving.stage.told;
    match tries(told, transfer, &Step::Put { node, port }, more, weaving)? {
        None => Ok(true),
        // A world doesn't show its outboxes: that one is empty is told by a put that is refused.
        Some(_) => Ok(false),
    }
}

/// Puts what a node has passed.
fn puts_all<const C: usize>(
    told: &Meaning,
    transfer: Transfer,
    node: usize,
    weaving: &mut Weaving<'_, C>,
) -> Result<(), Unmoved>
    requires begun { IsBegun C transfer told.now weaving.old }
    requires due { weaving.old.stage.due ≡ Puts node }
    ensures ok { OnOk result (Settles C transfer told.now weaving.old weaving.new) }
    ensures err { IfErr result (IsUnmovedAtPace C transfer told.now) }
{
    let mut port = 0;
    while port < PORT_LIMIT {
        if puts(told, transfer, node, port, weaving)? {
            // The lowest port puts first, so what comes next is determined.
            port = 0;
        } else {
            port += 1;
        }
    }
    Ok(())
}

/// Judges what was taken, at the port where it comes out. The answer is the node that judges.
fn judges<const C: usize>(
    told: &Meaning,
    transfer: Transfer,
    end: Option<End>,
    weaving: &mut Weaving<'_, C>,
) -> Result<usize, Unmoved>
    requires begun { IsBegun C transfer told.now weaving.old }
    requires due { weaving.old.stage.due ≡ Judgement end }
    ensures ok { IfOk result (IsJudged C transfer told.now weaving.old weaving.new) }
    ensures err { IfErr result (IsUnmovedAtPace C transfer told.now) }
{
    // No copy comes from a link that isn't there.
    let Some(End { node, port }) = end else {
        return Err(Unmoved::Differs);
    };
    let more = weaving.stage.told;
    does(told, transfer, &Step::Judge { node, port }, more, weaving)?;
    Ok(node)
}

/// Judges what was taken, and puts what is passed of it.
fn judges_and_puts<const C: usize>(
    told: &Meaning,
    transfer: Transfer,
    end: Option<End>,
    weaving: &mut Weaving<'_, C>,
) -> Result<(), Unmoved>
    requires begun { IsBegun C transfer told.now weaving.old }
    requires due { weaving.old.stage.due ≡ Judgement end }
    ensures ok { OnOk result (Settles C transfer told.now weaving.old weaving.new) }
    ensures err { IfErr result (IsUnmovedAtPace C transfer told.now) }
{
    let node = judges(told, transfer, end, weaving)?;
    puts_all(told, transfer, node, weaving)
}

/// Does what has to be done at once: judges what was taken, and puts what a node has passed.
pub(crate) fn settles<const C: usize>(
    told: &Meaning,
    transfer: Transfer,
    weaving: &mut Weaving<'_, C>,
) -> Result<(), Unmoved>
    requires { IsBegun C transfer told.now weaving.old }
    ensures ok { OnOk result (Settles C transfer told.now weaving.old weaving.new) }
    ensures err { IfErr result (IsUnmovedAtPace C transfer told.now) }
{
    match weaving.stage.due {
        Due::Nothing => Ok(()),
        Due::Judgement(end) => judges_and_puts(told, transfer, end, weaving),
        Due::Puts(node) => puts_all(told, transfer, node, weaving),
    }
}
