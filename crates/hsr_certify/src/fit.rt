//! What the types of the code tell of nodes and steps: addresses have six octets, VLAN tags and types 16 bits, and a Station
//! has 16 addresses at most.
//!
//! None of these functions does anything when it runs. The clause of each call tells the proof what the types keep true.
ghost use Rattle.std.specs.Prelude.{◌<◌, ◌^◌, ◌≡◌, length, IfSome};
ghost use Rattle.std.specs.List.{All};
ghost use Rattle.hsr_play_laws.specs.Accepted.{HasFewAddresses};
ghost use Rattle.hsr_plays.specs.Setup.{FitsOrder};
ghost use Rattle.hsr_world_laws.specs.Fit.{FitsPlace, FitsStep, IsFit};

use hsr_frame::Mac;
use hsr_node::Place;
use hsr_scenario::Order;
use hsr_world_steps::Step;

/// A number of this type has 16 bits.
fn number_fits(n: u16)
    ensures { n < 2 ^ 16 }
{}

/// The control information of a VLAN tag has 16 bits.
fn tag_fits(vlan: Option<u16>)
    ensures { IfSome vlan (λ control. control < 2 ^ 16) }
{
    match vlan {
        Some(control) => number_fits(control),
        None => {}
    }
}

/// A send's address has six octets, and its VLAN tag and its type 16 bits.
fn send_fits(dst: &Mac, vlan: Option<u16>, ethertype: u16)
    ensures { IsFit dst.now vlan ethertype }
{
    // The clause of `octets` says that there are six.
    let _ = dst.octets();
    tag_fits(vlan);
    number_fits(ethertype);
}

/// Any step of a world is fit.
fn step_fits(step: &Step)
    ensures { FitsStep step.now }
{
    match step {
        Step::Send {
            node: _,
            from: _,
            dst,
            vlan,
            kind: ethertype,
            payload: _,
        } => send_fits(dst, *vlan, *ethertype),
        _ => {}
    }
}

/// Any step is fit.
fn order_fits(order: &Order)
    ensures { FitsOrder order.now }
{
    match order {
        Order::Step(step) => step_fits(step),
        Order::Drain => {}
    }
}

/// Each step is fit.
pub(crate) fn orders_fit(orders: &[Order])
    ensures { All FitsOrder orders.now }
{
    for order in orders {
        order_fits(order);
    }
}

/// An address has six octets.
fn address_fits(mac: &Mac)
    ensures { length mac.now ≡ 6 }
{
    // The clause of `octets` says that there are six.
    let _ = mac.octets();
}

/// Each address has six octets.
fn addresses_fit(macs: &[Mac])
    ensures { All (λ mac. length mac ≡ 6) macs.now }
{
    for mac in macs {
        address_fits(mac);
    }
}

/// A node's addresses have six octets.
fn place_fits(place: &Place)
    ensures { FitsPlace place.now }
{
    match place {
        Place::Danh { mac, mode: _ } | Place::RedBox { mac, mode: _ } => address_fits(mac),
        Place::QuadBox => {}
        Place::Station { macs } => addresses_fit(macs.as_slice()),
    }
}

/// The addresses of each node have six octets.
pub(crate) fn places_fit(places: &[Place])
    ensures { All FitsPlace places.now }
{
    for place in places {
        place_fits(place);
    }
}

/// A Station has as many addresses as its type has room for, at most.
fn has_few_addresses(place: &Place)
    ensures { HasFewAddresses place.now }
{
    match place {
        Place::Station { macs } => {
            // The clause of `len` says that there are no more.
            let _ = macs.len();
        }
        _ => {}
    }
}

/// Each Station has.
pub(crate) fn have_few_addresses(places: &[Place])
    ensures { All HasFewAddresses places.now }
{
    for place in places {
        has_few_addresses(place);
    }
}
