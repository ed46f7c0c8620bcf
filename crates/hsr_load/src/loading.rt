//! The loads of a finished run.
ghost use Rattle.std.specs.Prelude.{◌≡◌, ◌≤◌, ◌*◌, ◌/◌, [], ◌++◌, IfOk, OnOk};
ghost use Rattle.std.specs.List.{cons_option};
ghost use Rattle.hsr_load.specs.Loads.{AreLoads, AreLoadsOf, IsLoad, IsLoadIf};
ghost use Rattle.hsr_load.specs.Windows.{IsWorst, IsWorstIf};

use crate::carrying::{Channel, channels};
use crate::load::{ChannelLoad, Load};
use crate::span::span;
use crate::transit::octets_of;
use crate::window::{Window, worst_of};
use hsr_finished_run::Closed;
use hsr_frame::NoMemory;
use std::alloc::Global;

/// A product. One that is more than a number counts is of more octets than fit into memory.
fn times(n: u64, m: u64) -> Result<u64, NoMemory>
    ensures { IfOk result (λ product. product ≡ n * m) }
{
    match n.checked_mul(m) {
        Some(product) => Ok(product),
        None => Err(NoMemory),
    }
}

/// So many octets in so many microseconds, in kbit/s, rounded down.
fn mean_of(octets: u64, time: u64) -> Result<u64, NoMemory>
    requires { 1000 ≤ time }
    ensures { IfOk result (λ mean. mean ≡ octets * 8000 / time) }
{
    let bits = times(octets, 8000)?;
    Ok(bits / time)
}

/// The load of a channel that carried copies, with its worst millisecond, where copies went for this time in microseconds.
fn load_with(channel: &Channel, time: u64, window: Window) -> Result<ChannelLoad, NoMemory>
    requires time { 1000 ≤ time }
    requires worst { IsWorst channel.now.transits window }
    ensures { IfOk result (IsLoad time channel.now) }
{
    let octets = octets_of(channel.transits.as_slice())?;
    let mean = mean_of(octets, time)?;
    // Eight bits an octet, in a millisecond: so many kbit/s.
    let worst = times(window.octets, 8)?;
    Ok(ChannelLoad {
        from: channel.from,
        to: channel.to,
        frames: channel.transits.len(),
        octets,
        mean,
        worst,
        at: window.at,
    })
}

/// The worst millisecond of a channel, if it carried copies.
fn worst_in(alloc: Global, channel: &Channel) -> Result<Option<Window>, NoMemory>
    ensures { IfOk result (IsWorstIf channel.now.transits) }
{
    worst_of(alloc, channel.transits.as_slice())
}

/// The load of a channel, if it carried copies.
fn load_if(alloc: Global, channel: &Channel, time: u64) -> Result<Option<ChannelLoad>, NoMemory>
    requires { 1000 ≤ time }
    ensures { IfOk result (IsLoadIf time channel.now) }
{
    match worst_in(alloc, channel)? {
        None => Ok(None),
        Some(window) => Ok(Some(load_with(channel, time, window)?)),
    }
}

/// Puts a load last, if there is one.
fn push_some(loads: &mut Vec<ChannelLoad>, load: Option<ChannelLoad>) -> Result<(), NoMemory>
    ensures { OnOk result (loads.new.items ≡ loads.old.items ++ cons_option load []) }
{
    if let Some(load) = load {
        loads.push(load)?;
    }
    Ok(())
}

/// The loads of channels, where copies went for this time in microseconds.
fn loads(alloc: Global, channels: &[Channel], time: u64) -> Result<Vec<ChannelLoad>, NoMemory>
    requires { 1000 ≤ time }
    ensures { IfOk result (λ loads. AreLoads time channels.now loads.items) }
{
    let mut loads = Vec::new(alloc);
    for channel in channels {
        let load = load_if(alloc, channel, time)?;
        push_some(&mut loads, load)?;
    }
    Ok(loads)
}

/// The loads of a run's channels.
fn loads_of<const C: usize>(alloc: Global, closed: &Closed<C>) -> Result<Vec<ChannelLoad>, NoMemory>
    ensures { IfOk result (λ loads. AreLoadsOf closed.now.run loads.items) }
{
    let owned = channels(alloc, closed)?;
    let list = owned.as_slice();
    let time = span(list);
    loads(alloc, list, time)
}

/// How much each channel of a finished run carried, by links, forth before back: how many copies, their octets on the wire (IEEE
/// 802.3 clauses 3 and 4), the mean over the time from the first copy of the run to its last, and the worst millisecond. A
/// channel carried what was taken, and what was on its way when its link was cut. A copy counts at the effective moment of the
/// entry that passed it. `NoMemory` if allocation fails, or where a channel's octets are more than numbers of 64 bits tell.
pub fn load_of<const C: usize>(alloc: Global, closed: &Closed<C>) -> Result<Load, NoMemory>
    ensures { IfOk result (λ load. AreLoadsOf closed.now.run load.channels.items) }
{
    Ok(Load {
        channels: loads_of(alloc, closed)?,
    })
}
