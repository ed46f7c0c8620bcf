//! What a plan means.
ghost use Rattle.std.specs.Prelude.{◌≡◌, IfOk, IfErr, OnOk};
ghost use Rattle.hsr_plan_text.specs.Fallible.{FailsAt, GivesAt, at_spot};
ghost use Rattle.hsr_plan_text.specs.declared.fault.Spot.TheVariants as spot;
ghost use Rattle.hsr_plan_network.specs.Wiring.{wired};
ghost use Rattle.hsr_plan_schedule.specs.Meaning.{AreInOrder, Means, Tells, listed, open_by, setting};
ghost use Rattle.hsr_plan_schedule.specs.Orders.{told_of};
ghost use Rattle.hsr_plan_text.specs.declared.fault.What.TheVariants.{NoMemory as NoRoom};

use crate::naming::stream_names;
use crate::occasion::Occasion;
use crate::occasions::{at_spot, occasions};
use crate::orders::{Told, told_of};
use crate::publication::Publication;
use crate::publishing::publications;
use crate::room::{ROOM_LIMIT, age_limit, most_open, room};
use crate::setting::Setting;
use hsr_frame::NoMemory;
use hsr_plan_network::{Node, Wired, wire};
use hsr_plan_text::{Outline, Plan, PlanFault, Spot, What, Word};
use hsr_scenario::Order;
use hsr_topology::Topology;
use std::alloc::Global;
use std::marker::Model;

/// What a plan means: its nodes with their names, the topology, the most sends that may be under way at once, how many copies wait in each
/// direction of a link, and the orders; the names of the plan's streams, and of each frame that the orders send, in their order, the number
/// of its stream.
#[derive(Drop)]
pub struct Meaning {
    pub nodes: Vec<Node>,
    pub topology: Topology,
    pub at_once: usize,
    pub capacity: usize,
    pub orders: Vec<Order>,
    pub streams: Vec<Word>,
    pub sends: Vec<usize>,
}

impl Model for Meaning {
    ghost use Rattle.hsr_plan_schedule.specs.Meaning.{Meaning};

    ghost Value = { Meaning };

    ghost view = { λ m. record { nodes = m.nodes.items; topology = m.topology; at_once = m.at_once; capacity = m.capacity; orders = m.orders.items; streams = m.streams.items; sends = m.sends.items } };
}

/// Sorts occasions by their moments.
fn sort(occasions: &mut Vec<Occasion>) -> Result<(), NoMemory>
    ensures { OnOk result (AreInOrder occasions.old.items occasions.new.items) }
{
    // A stable sort: occasions of one moment stay as they are listed.
    occasions.sort_by_key(|occasion| occasion.at)?;
    Ok(())
}

/// The nodes and the topology of a plan, all that happens in it, as it is listed, and what its streams publish.
#[derive(Drop)]
struct Listed {
    wired: Wired,
    occasions: Vec<Occasion>,
    publications: Vec<Publication>,
}

impl Model for Listed {
    ghost use Rattle.hsr_plan_schedule.specs.Meaning.{Listed};

    ghost Value = { Listed };

    ghost view = { λ l. record { wired = l.wired; occasions = l.occasions.items; publications = l.publications.items } };
}

/// The nodes and the topology of a plan.
#[tactic(auto, using(hsr_plan_text::proofs::Lists::spotted))]
fn wired(alloc: Global, plan: &Plan) -> Result<Wired, PlanFault>
    ensures { GivesAt (λ w. w) result (at_spot spot.Top (wired plan.now.outline.network)) }
{
    at_spot(Spot::Top, wire(alloc, &plan.outline.network))
}

/// What is listed in a plan.
fn all_listed(alloc: Global, plan: &Plan) -> Result<Listed, PlanFault>
    ensures { GivesAt (λ l. l) result (listed plan.now) }
{
    let wired = wired(alloc, plan)?;
    let occasions = occasions(alloc, plan, wired.nodes.as_slice(), wired.topology.links())?;
    let publications = publications(alloc, plan.outline.until, plan.streams.as_slice())?;
    Ok(Listed {
        wired,
        occasions,
        publications,
    })
}

/// What is told of occasions of a plan.
fn told_of_plan(
    alloc: Global,
    plan: &Plan,
    wired: &Wired,
    publications: &[Publication],
    occasions: &[Occasion],
) -> Result<Told, NoMemory>
    ensures { IfOk result (λ told. told
        ≡ told_of (setting plan.now wired.now publications.now) occasions.now) }
{
    let setting = Setting {
        moves: plan.outline.moves,
        // As much as there can be: so many copies wait there that all come, where no more is needed.
        capacity: plan.outline.capacity.unwrap_or(ROOM_LIMIT),
        nodes: wired.nodes.as_slice(),
        links: wired.topology.links(),
        streams: plan.streams.as_slice(),
        publications,
        epoch: plan.outline.epoch,
    };
    told_of(alloc, &setting, occasions)
}

/// The most sends of orders that may be under way at once, by a plan's own moves on its links.
fn open_by(
    alloc: Global,
    outline: &Outline,
    topology: &Topology,
    orders: &[Order],
) -> Result<usize, NoMemory>
    ensures { IfOk result (λ most. most ≡ open_by outline.now topology.now orders.now) }
{
    let limit = age_limit(outline.moves, topology.links())?;
    most_open(alloc, limit, orders)
}

/// The orders that tell what is listed in a plan, in order.
fn told_in_order(alloc: Global, plan: &Plan, listed: Listed) -> Result<Meaning, NoMemory>
    ensures { IfOk result (λ m. Tells plan.now listed m) }
{
    let wired = listed.wired;
    let publications = listed.publications;
    // Listed and in order are two functions, so that each owns one list that it may have to drop.
    let mut occasions = listed.occasions;
    sort(&mut occasions)?;
    let streams = stream_names(alloc, plan.streams.as_slice())?;
    let told = told_of_plan(
        alloc,
        plan,
        &wired,
        publications.as_slice(),
        occasions.as_slice(),
    )?;
    let at_once = open_by(
        alloc,
        &plan.outline,
        &wired.topology,
        told.orders.as_slice(),
    )?;
    Ok(Meaning {
        nodes: wired.nodes,
        topology: wired.topology,
        at_once,
        capacity: room(plan.outline.capacity, at_once),
        orders: told.orders,
        streams,
        sends: told.sends,
    })
}

/// The fault of a failed allocation.
fn no_memory() -> PlanFault
    ensures { result.what ≡ NoRoom }
{
    PlanFault {
        spot: Spot::Top,
        what: What::NoMemory,
    }
}

/// What a plan means. Where it doesn't say how many copies wait in each direction of a link, as many do as sends may be under way at once, at
/// least 64 and at most 4096. At one moment come events as they are listed, then the supervision of all DANHs and RedBoxes in their order, each
/// RedBox also about the stations behind it that it knows then, then the frames of streams as they are listed. What is off sends
/// nothing, and its links are down. Where copies move by hops, the orders have no moves of copies yet, and supervision about all
/// stations. A fault is the first in this order: the nodes and links, the events, the supervision, over 2^20 of these, the streams,
/// over 2^20 of all, and what the streams publish, by number: an APPID that is another's, then the size of a sender's first frame. `NoMemory` comes where a growth was refused, in place of any other answer.
pub fn meaning_of(alloc: Global, plan: &Plan) -> Result<Meaning, PlanFault>
    ensures ok { IfOk result (λ m. Means plan.now m) }
    ensures err { IfErr result (λ e. FailsAt e e.what (listed plan.now)) }
{
    let listed = all_listed(alloc, plan)?;
    match told_in_order(alloc, plan, listed) {
        Ok(meaning) => Ok(meaning),
        Err(_) => Err(no_memory()),
    }
}
