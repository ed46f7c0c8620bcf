//! Scenarios that are played.
ghost use Rattle.std.specs.Prelude.{◌≡◌, OnOk, IfErr};
ghost use Rattle.hsr_ring.specs.Playing.{Halts, Obeys, Plays, Refuses, drain_limit};
ghost use Rattle.hsr_scenario.specs.declared.steps.Order.TheVariants.{Drain};

use crate::world::World;
use hsr_scenario::Order;
use hsr_world_steps::DrainFault;

/// How many steps a drain may take.
#[tactic(auto, unfolding(crate::specs::Playing::drain_limit))]
fn drain_limit() -> u64
    ensures { result ≡ drain_limit }
{
    // Copies may circle without an end, so a drain has one of its own (RULES, Scenarios).
    1_000_000
}

/// Brings to its end what is on its way.
fn drain<const C: usize>(world: &mut World<C>) -> Result<(), DrainFault>
    ensures ok { OnOk result (Obeys C Drain world.old world.new) }
    ensures err { IfErr result (λ f. Refuses C Drain world.old world.new f) }
{
    match world.drain(drain_limit()) {
        // How many steps it took is nobody's question here.
        Ok(_steps) => Ok(()),
        Err(fault) => Err(fault),
    }
}

/// Does what an order asks for.
fn obey<const C: usize>(world: &mut World<C>, order: &Order) -> Result<(), DrainFault>
    ensures ok { OnOk result (Obeys C order.now world.old world.new) }
    ensures err { IfErr result (λ f. Refuses C order.now world.old world.new f) }
{
    match order {
        Order::Step(step) => match world.step(step) {
            Ok(()) => Ok(()),
            Err(fault) => Err(DrainFault::World(fault)),
        },
        Order::Drain => drain(world),
    }
}

/// Does what orders ask for, up to the first that is refused: its index, and why. What the orders before it did stands.
pub fn play<const C: usize>(
    world: &mut World<C>,
    orders: &[Order],
) -> Result<(), (usize, DrainFault)>
    ensures ok { OnOk result (Plays C orders.now world.old world.new) }
    ensures err { IfErr result (λ e. Halts C orders.now e.0 world.old world.new e.1) }
{
    // A send reaches a node of its ring twice, and mostly a drain follows it: about as many entries a node as there are orders.
    world.expect(orders.len());
    for (place, order) in orders.iter().enumerate() {
        match obey(world, order) {
            // A `match` and no `?`: the index of the order is told with its fault.
            Ok(()) => {}
            Err(fault) => return Err((place, fault)),
        }
    }
    Ok(())
}
