//! What comes next, done until nothing is left to do.
ghost use Rattle.std.specs.Prelude.{◌≡◌, ◌≤◌, ◌<◌, ◌∷◌, false, true, None, Some, IfErr, IfOk, OnOk};
ghost use Rattle.hsr_duptable.specs.Table.{IsTableSize};
ghost use Rattle.hsr_plan_hops.specs.Beginning.{DoesAll, next_copy};
ghost use Rattle.hsr_plan_hops.specs.Flights.{is_to_come};
ghost use Rattle.hsr_plan_hops.specs.Moving.{world_of};
ghost use Rattle.hsr_plan_hops.specs.Refusing.{IsUnmovedAtPace, comes_first, may_be_told};
ghost use Rattle.hsr_plan_hops.specs.Weaving.{Advances, AdvancesIf, GoesOnFrom, IsIdle, arriving, behind_moment};

use crate::arrivals::is_to_come;
use crate::flights::{Arrival, Channels};
use crate::stage::Stage;
use crate::turns::Due;
use crate::unmoved::Unmoved;
use crate::weaving::{Weaving, does, obeys, settles};
use hsr_frame::NoMemory;
use hsr_plan_schedule::Meaning;
use hsr_plan_text::Transfer;
use hsr_ring::World;
use hsr_scenario::Order;
use hsr_topology::Topology;
use hsr_world_steps::Step;
use std::alloc::Global;

/// Whether a copy comes to its end before what is told next.
fn comes_first(now: u64, told: &[Order], copy: Arrival) -> bool
    ensures { result ≡ comes_first now told.now copy }
{
    match told.first() {
        // At one moment a copy comes to its end before what is told there.
        Some(Order::Step(Step::Clock { at })) => copy.at <= *at,
        Some(_) => copy.at <= now,
        None => true,
    }
}

/// The next copy, if it comes to its end before what is told next.
fn arriving<const C: usize>(
    transfer: Transfer,
    topology: &Topology,
    stage: &Stage<'_, C>,
) -> Option<Arrival>
    ensures { result ≡ arriving transfer topology.now.links stage.now }
{
    let copy = stage.next_copy(transfer, topology)?;
    if comes_first(stage.moment, stage.told, copy) {
        Some(copy)
    } else {
        None
    }
}

/// Takes a copy that has come to its end.
fn takes<const C: usize>(
    told: &Meaning,
    transfer: Transfer,
    copy: Arrival,
    weaving: &mut Weaving<'_, C>,
) -> Result<(), Unmoved>
    requires idle { IsIdle C transfer told.now weaving.old }
    requires next { next_copy transfer told.now.topology.links weaving.old.stage ≡ Some copy }
    requires now { copy.at ≡ weaving.old.stage.moment }
    requires first { weaving.old.stage.begun ≡ false }
    ensures ok { OnOk result (Advances C transfer told.now weaving.old weaving.new) }
    ensures err { IfErr result (IsUnmovedAtPace C transfer told.now) }
{
    let Arrival { link, dir, .. } = copy;
    let more = weaving.stage.told;
    does(told, transfer, &Step::Take { link, dir }, more, weaving)
}

/// What is told behind a moment that comes next.
fn behind_moment(at: u64, told: &[Order]) -> &[Order]
    ensures { result.now ≡ behind_moment at told.now }
{
    match told.split_first() {
        // The moment is told too: it is set once.
        Some((Order::Step(Step::Clock { at: next }), more)) if *next == at => more,
        _ => told,
    }
}

/// Sets the moment at which a copy comes to its end.
fn waits<const C: usize>(
    told: &Meaning,
    transfer: Transfer,
    copy: Arrival,
    weaving: &mut Weaving<'_, C>,
) -> Result<(), Unmoved>
    requires idle { IsIdle C transfer told.now weaving.old }
    requires next { next_copy transfer told.now.topology.links weaving.old.stage ≡ Some copy }
    requires first { comes_first weaving.old.stage.moment weaving.old.stage.told copy ≡ true }
    requires early { weaving.old.stage.moment < copy.at }
    ensures ok { OnOk result (Advances C transfer told.now weaving.old weaving.new) }
    ensures err { IfErr result (IsUnmovedAtPace C transfer told.now) }
{
    let more = behind_moment(copy.at, weaving.stage.told);
    does(told, transfer, &Step::Clock { at: copy.at }, more, weaving)
}

/// Takes a copy that comes to its end before what is told next, or sets the moment at which it does.
fn lands<const C: usize>(
    told: &Meaning,
    transfer: Transfer,
    copy: Arrival,
    weaving: &mut Weaving<'_, C>,
) -> Result<(), Unmoved>
    requires idle { IsIdle C transfer told.now weaving.old }
    requires arriving { arriving transfer told.now.topology.links weaving.old.stage ≡ Some copy }
    ensures ok { OnOk result (Advances C transfer told.now weaving.old weaving.new) }
    ensures err { IfErr result (IsUnmovedAtPace C transfer told.now) }
{
    if !is_to_come(weaving.stage.moment, weaving.stage.begun, copy.at) {
        // Only at the last moment that there is, at which all comes to its end that would do so later.
        return Err(Unmoved::Differs);
    }
    if weaving.stage.moment < copy.at {
        waits(told, transfer, copy, weaving)
    } else {
        takes(told, transfer, copy, weaving)
    }
}

/// Whether an order may be told at a moment: no drain, no move of a copy, and no moment that isn't later.
fn may_be_told(now: u64, order: &Order) -> bool
    ensures { result ≡ may_be_told now order.now }
{
    match order {
        // Copies move by hops, so no order that is told may move one.
        Order::Drain => false,
        Order::Step(Step::Clock { at }) => now < *at,
        Order::Step(Step::Put { .. } | Step::Take { .. } | Step::Judge { .. }) => false,
        Order::Step(_) => true,
    }
}

/// Does what is told next, where no copy comes to its end before.
fn follows<'a, const C: usize>(
    told: &Meaning,
    transfer: Transfer,
    order: &Order,
    more: &'a [Order],
    weaving: &mut Weaving<'a, C>,
) -> Result<(), Unmoved>
    requires idle { IsIdle C transfer told.now weaving.old }
    requires first { weaving.old.stage.told ≡ order.now ∷ more.now }
    requires arriving { arriving transfer told.now.topology.links weaving.old.stage ≡ None }
    ensures ok { OnOk result (Advances C transfer told.now weaving.old weaving.new) }
    ensures err { IfErr result (IsUnmovedAtPace C transfer told.now) }
{
    match order {
        Order::Step(step) if may_be_told(weaving.stage.moment, order) => {
            obeys(told, transfer, step, more, weaving)
        }
        // So a refusal is true of the plan: the order that comes next can't be done.
        _ => Err(Unmoved::Differs),
    }
}

/// Does what comes next. The answer is whether something did.
fn advances<const C: usize>(
    told: &Meaning,
    transfer: Transfer,
    weaving: &mut Weaving<'_, C>,
) -> Result<bool, Unmoved>
    requires idle { IsIdle C transfer told.now weaving.old }
    ensures ok { IfOk result (AdvancesIf C transfer told.now weaving.old weaving.new) }
    ensures err { IfErr result (IsUnmovedAtPace C transfer told.now) }
{
    if let Some(copy) = arriving(transfer, &told.topology, &weaving.stage) {
        lands(told, transfer, copy, weaving)?;
        return Ok(true);
    }
    let Some((order, more)) = weaving.stage.told.split_first() else {
        return Ok(false);
    };
    follows(told, transfer, order, more, weaving)?;
    Ok(true)
}

/// Does what comes next, and what has to be done at once behind it. The answer is whether something did.
fn goes_on<const C: usize>(
    told: &Meaning,
    transfer: Transfer,
    weaving: &mut Weaving<'_, C>,
) -> Result<bool, Unmoved>
    requires idle { IsIdle C transfer told.now weaving.old }
    ensures ok { IfOk result (GoesOnFrom C transfer told.now weaving.old weaving.new) }
    ensures err { IfErr result (IsUnmovedAtPace C transfer told.now) }
{
    if advances(told, transfer, weaving)? {
        // Behind each step at once, so that a copy is put at the moment at which it was passed.
        settles(told, transfer, weaving)?;
        Ok(true)
    } else {
        Ok(false)
    }
}

/// Does all that is told, and brings all copies to their ends.
fn does_all<const C: usize>(
    told: &Meaning,
    transfer: Transfer,
    weaving: &mut Weaving<'_, C>,
) -> Result<(), Unmoved>
    requires idle { IsIdle C transfer told.now weaving.old }
    ensures ok { OnOk result (DoesAll C transfer told.now weaving.new.orders weaving.new.stage) }
    ensures err { IfErr result (IsUnmovedAtPace C transfer told.now) }
{
    // It ends, since orders are counted: over 2^20 of them are `Endless`.
    'orders: loop {
        if !goes_on(told, transfer, weaving)? {
            return Ok(());
        }
    }
}

/// A world in which nothing of what is told was done.
fn world_of<const C: usize>(alloc: Global, told: &Meaning) -> Result<World<C>, NoMemory>
    requires entries { IsTableSize C }
    requires room { (1 ≤ told.now.capacity) × (told.now.capacity ≤ 4096) }
    ensures { IfOk result (λ world. world ≡ world_of told.now) }
{
    let topology = told.topology.copy()?;
    Ok(World::<C>::new(alloc, topology, told.capacity)?)
}

/// The orders that do what is told, with the moves of copies among them: each is put at once, and taken and judged when it comes to its
/// end. Beside them stands the stage that they lead to.
pub(crate) fn woven<const C: usize>(
    alloc: Global,
    told: &Meaning,
    transfer: Transfer,
) -> Result<Weaving<'_, C>, Unmoved>
    requires entries { IsTableSize C }
    requires room { (1 ≤ told.now.capacity) × (told.now.capacity ≤ 4096) }
    ensures ok { IfOk result (λ v. DoesAll C transfer told.now v.orders v.stage) }
    ensures err { IfErr result (IsUnmovedAtPace C transfer told.now) }
{
    let stage = Stage {
        told: told.orders.as_slice(),
        due: Due::Nothing,
        moment: 0,
        begun: false,
        turn: 0,
        channels: Channels::new(alloc, told.topology.links())?,
        world: world_of::<C>(alloc, told)?,
    };
    let mut weaving = Weaving {
        stage,
        orders: Vec::new(alloc),
    };
    does_all(told, transfer, &mut weaving)?;
    Ok(weaving)
}
