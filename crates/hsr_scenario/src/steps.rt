//! The steps of a scenario.
ghost use Rattle.std.specs.Prelude.{◌≡◌, ◌≤◌, [], IfOk, None, option_map};
ghost use Rattle.toml.specs.View.{view, table_view};
ghost use Rattle.hsr_scenario.specs.Fallible.{Gives};
ghost use Rattle.hsr_toml.specs.Tables.{between, needed, optional, perhaps, word};
ghost use Rattle.hsr_scenario.specs.Fault.{faults};
ghost use Rattle.hsr_scenario.specs.Tables.{moment, natural};
ghost use Rattle.hsr_toml.specs.Names.{mac_of};
ghost use Rattle.hsr_scenario.specs.Words.{deed_of, octets_of};
ghost use Rattle.hsr_link.specs.Words.{dir_of};
ghost use Rattle.hsr_scenario.specs.Steps.{age, at_link, at_port, clock, drain, inject, life, link_numbered, order_in, order_of, send, stepped, stream, take, used_link};
ghost use Rattle.hsr_scenario.specs.declared.fault.Key.TheVariants as key;
ghost use Rattle.hsr_world_steps.specs.declared.step.Step.TheVariants as step;

use crate::fault::{Key, What};
use crate::keys::{
    AGE_KEYS, AT_LINK_KEYS, AT_PORT_KEYS, CLOCK_KEYS, DRAIN_KEYS, INJECT_KEYS, LIFE_KEYS,
    SEND_KEYS, TAKE_KEYS,
};
use crate::links::{used_node, used_port};
use crate::nodes::Named;
use crate::table::only;
use crate::words::{Deed, deed_of};
use hsr_frame::{About, Mac};
use hsr_link::Dir;
use hsr_node::Octets;
use hsr_text::{TimeUnit, WordFault, decode_hex};
use hsr_toml::{between, integer, is_name, mac, needed, number_or, text, value};
use hsr_world_steps::Step;
use std::alloc::Global;
use toml::{Table, Value};

/// What a scenario does next.
#[derive(Clone, Drop, PartialEq, Eq)]
pub enum Order {
    /// A step of the world.
    Step(Step),
    /// Whatever is on its way is brought to its end.
    Drain,
}

// ---- values

/// A number that is not below 0.
fn natural(number: i64) -> Option<u64>
    ensures { result ≡ natural number }
{
    // TOML has signed numbers.
    if number < 0 {
        return None;
    }
    Some(number as u64)
}

/// The moment of a step, in microseconds.
fn moment(unit: TimeUnit, table: &Table) -> Result<u64, What>
    ensures { Gives (λ n. n) result (needed faults key.At (moment unit) (table_view table.now)) }
{
    let at = natural(integer(Key::At, needed(table, Key::At)?)?);
    match at.and_then(|at| unit.moment(at)) {
        Some(at) => Ok(at),
        None => Err(What::BadValue(Key::At)),
    }
}

/// The link of a number.
fn link_numbered(links: usize, number: i64) -> Option<usize>
    ensures { result ≡ link_numbered links number }
{
    if number < 0 {
        return None;
    }
    let link = number as usize;
    if link < links { Some(link) } else { None }
}

/// The link that a step names.
fn used_link(links: usize, table: &Table) -> Result<usize, What>
    ensures { Gives (λ n. n) result (needed faults key.Link (used_link links)
        (table_view table.now)) }
{
    match link_numbered(links, integer(Key::Link, needed(table, Key::Link)?)?) {
        Some(link) => Ok(link),
        None => Err(What::NoSuchName),
    }
}

/// The direction of a step.
fn dir(table: &Table) -> Result<Dir, What>
    ensures { Gives (λ d. d) result (needed faults key.Dir (word faults dir_of)
        (table_view table.now)) }
{
    match Dir::from_word(text(Key::Dir, needed(table, Key::Dir)?)?.as_bytes()) {
        Some(dir) => Ok(dir),
        None => Err(What::BadValue(Key::Dir)),
    }
}

/// The octets that a value spells in hexadecimal digits.
fn octets(alloc: Global, key: Key, value: &Value) -> Result<Octets, What>
    ensures { Gives (λ o. o) result (word faults octets_of key (view value.now)) }
{
    match decode_hex(alloc, text(key, value)?.as_bytes()) {
        Ok(octets) => Ok(Octets::new(octets)),
        Err(WordFault::Memory) => Err(What::NoMemory),
        Err(WordFault::Bad) => Err(What::BadValue(key)),
    }
}

/// The octets of an inject.
fn injected(alloc: Global, table: &Table) -> Result<Octets, What>
    ensures { Gives (λ o. o) result (needed faults key.Octets (word faults octets_of)
        (table_view table.now)) }
{
    octets(alloc, Key::Octets, needed(table, Key::Octets)?)
}

/// The destination of a send.
fn destination(table: &Table) -> Result<Mac, What>
    ensures { Gives (λ m. m) result (needed faults key.To (word faults mac_of)
        (table_view table.now)) }
{
    mac(Key::To, needed(table, Key::To)?)
}

/// A number of 16 bits.
fn pair(key: Key, value: &Value) -> Result<u16, What>
    ensures { Gives (λ n. n) result (between faults 0 65535 key (view value.now)) }
{
    let number = between(0, 65535, key, value)?;
    Ok(number as u16)
}

/// The type of a send.
fn ethertype(table: &Table) -> Result<u16, What>
    ensures { Gives (λ n. n) result (needed faults key.Kind (between faults 0 65535)
        (table_view table.now)) }
{
    pair(Key::Kind, needed(table, Key::Kind)?)
}

/// The payload of a send.
fn payload(alloc: Global, table: &Table) -> Result<Octets, What>
    ensures { Gives (λ o. o) result (optional faults key.Payload [] (word faults octets_of)
        (table_view table.now)) }
{
    match value(table, Key::Payload) {
        None => Ok(Octets::new(Vec::new(alloc))),
        Some(value) => octets(alloc, Key::Payload, value),
    }
}

/// The control information of a send's VLAN tag, if it has one.
fn vlan(table: &Table) -> Result<Option<u16>, What>
    ensures { Gives (λ v. v) result (optional faults key.Vlan None
        (perhaps (between faults 0 65535)) (table_view table.now)) }
{
    match value(table, Key::Vlan) {
        None => Ok(None),
        Some(value) => {
            let vlan = pair(Key::Vlan, value)?;
            Ok(Some(vlan))
        }
    }
}

/// The index of a send's source among the addresses of its node.
fn from(table: &Table) -> Result<u8, What>
    ensures { Gives (λ n. n) result (optional faults key.From 0 (between faults 0 15)
        (table_view table.now)) }
{
    let from = number_or(0, 0, 15, table, Key::From)?;
    Ok(from as u8)
}

/// The address that a supervision frame is about, if it isn't the node itself.
fn about(table: &Table) -> Result<Option<Mac>, What>
    ensures { Gives (λ m. m) result (optional faults key.About None (perhaps (word faults mac_of))
        (table_view table.now)) }
{
    match value(table, Key::About) {
        None => Ok(None),
        Some(value) => {
            let mac = mac(Key::About, value)?;
            Ok(Some(mac))
        }
    }
}

/// The name of the stream from which a frame is: the empty text where it's from none.
pub(crate) fn stream(table: &Table) -> Result<&str, What>
    ensures { Gives (λ s. s.now) result (stream (table_view table.now)) }
{
    match value(table, Key::Stream) {
        None => Ok(""),
        Some(value) => {
            let name = text(Key::Stream, value)?;
            if is_name(name.as_bytes()) {
                Ok(name)
            } else {
                Err(What::BadValue(Key::Stream))
            }
        }
    }
}

// ---- steps

/// The moment is set.
#[tactic(auto, unfolding(crate::specs::Steps::clock))]
fn clock(unit: TimeUnit, table: &Table) -> Result<Step, What>
    ensures { Gives (λ s. s) result (clock unit (table_view table.now)) }
{
    only(table, &CLOCK_KEYS)?;
    let at = moment(unit, table)?;
    Ok(Step::Clock { at })
}

/// A node sends a frame of its own.
#[tactic(auto, unfolding(crate::specs::Steps::send))]
fn send(alloc: Global, nodes: &[Named], table: &Table) -> Result<Step, What>
    ensures { Gives (λ s. s) result (send nodes.now (table_view table.now)) }
{
    only(table, &SEND_KEYS)?;
    let node = used_node(nodes, table)?;
    let dst = destination(table)?;
    let ethertype = ethertype(table)?;
    let payload = payload(alloc, table)?;
    let vlan = vlan(table)?;
    let from = from(table)?;
    // The stream is for who reads names: the step is the same without it.
    stream(table)?;
    Ok(Step::Send {
        node,
        from,
        dst,
        vlan,
        kind: ethertype,
        payload,
    })
}

/// A node sends a supervision frame.
#[tactic(auto, unfolding(crate::specs::Steps::life))]
fn life(nodes: &[Named], table: &Table) -> Result<Step, What>
    ensures { Gives (λ s. s) result (life nodes.now (table_view table.now)) }
{
    only(table, &LIFE_KEYS)?;
    let node = used_node(nodes, table)?;
    let about = match about(table)? {
        None => About::Own,
        Some(mac) => About::Proxied(mac),
    };
    stream(table)?;
    Ok(Step::Supervise { node, about })
}

/// A node drops what is expired.
#[tactic(auto, unfolding(crate::specs::Steps::age))]
fn age(nodes: &[Named], table: &Table) -> Result<Step, What>
    ensures { Gives (λ s. s) result (age nodes.now (table_view table.now)) }
{
    only(table, &AGE_KEYS)?;
    let node = used_node(nodes, table)?;
    Ok(Step::Age { node })
}

/// The oldest copy in an outbox goes onto its link.
#[tactic(auto, unfolding(crate::specs::Steps::at_port))]
fn put(nodes: &[Named], table: &Table) -> Result<Step, What>
    ensures { Gives (λ s. s) result (at_port step.Put nodes.now (table_view table.now)) }
{
    only(table, &AT_PORT_KEYS)?;
    let end = used_port(nodes, table)?;
    Ok(Step::Put {
        node: end.node,
        port: end.port,
    })
}

/// A node judges what a port holds.
#[tactic(auto, unfolding(crate::specs::Steps::at_port))]
fn judge(nodes: &[Named], table: &Table) -> Result<Step, What>
    ensures { Gives (λ s. s) result (at_port step.Judge nodes.now (table_view table.now)) }
{
    only(table, &AT_PORT_KEYS)?;
    let end = used_port(nodes, table)?;
    Ok(Step::Judge {
        node: end.node,
        port: end.port,
    })
}

/// The oldest copy that waits in a direction comes into the hand.
#[tactic(auto, unfolding(crate::specs::Steps::take))]
fn take(links: usize, table: &Table) -> Result<Step, What>
    ensures { Gives (λ s. s) result (take links (table_view table.now)) }
{
    only(table, &TAKE_KEYS)?;
    let link = used_link(links, table)?;
    let dir = dir(table)?;
    Ok(Step::Take { link, dir })
}

/// A link is cut.
#[tactic(auto, unfolding(crate::specs::Steps::at_link))]
fn cut(links: usize, table: &Table) -> Result<Step, What>
    ensures { Gives (λ s. s) result (at_link step.Cut links (table_view table.now)) }
{
    only(table, &AT_LINK_KEYS)?;
    let link = used_link(links, table)?;
    Ok(Step::Cut { link })
}

/// A link is mended.
#[tactic(auto, unfolding(crate::specs::Steps::at_link))]
fn mend(links: usize, table: &Table) -> Result<Step, What>
    ensures { Gives (λ s. s) result (at_link step.Mend links (table_view table.now)) }
{
    only(table, &AT_LINK_KEYS)?;
    let link = used_link(links, table)?;
    Ok(Step::Mend { link })
}

/// Octets that no port sent go onto a link.
#[tactic(auto, unfolding(crate::specs::Steps::inject))]
fn inject(alloc: Global, links: usize, table: &Table) -> Result<Step, What>
    ensures { Gives (λ s. s) result (inject links (table_view table.now)) }
{
    only(table, &INJECT_KEYS)?;
    let link = used_link(links, table)?;
    let dir = dir(table)?;
    let octets = injected(alloc, table)?;
    Ok(Step::Inject { link, dir, octets })
}

/// What is on its way is brought to its end.
#[tactic(auto, unfolding(crate::specs::Steps::drain))]
fn drain(table: &Table) -> Result<Order, What>
    ensures { Gives (λ o. o) result (drain (table_view table.now)) }
{
    only(table, &DRAIN_KEYS)?;
    Ok(Order::Drain)
}

// ---- the table of a step

/// What a step does.
pub(crate) fn deed(table: &Table) -> Result<Deed, What>
    ensures { Gives (λ d. d) result (needed faults key.Do (word faults deed_of)
        (table_view table.now)) }
{
    match deed_of(text(Key::Do, needed(table, Key::Do)?)?) {
        Some(deed) => Ok(deed),
        None => Err(What::BadValue(Key::Do)),
    }
}

/// A step of the world as what a scenario does.
fn stepped(step: Result<Step, What>) -> Result<Order, What>
    ensures { result ≡ stepped step }
{
    match step {
        Ok(step) => Ok(Order::Step(step)),
        Err(what) => Err(what),
    }
}

/// What the table of a step of that kind says.
fn order_of(
    deed: Deed,
    alloc: Global,
    unit: TimeUnit,
    nodes: &[Named],
    links: usize,
    table: &Table,
) -> Result<Order, What>
    ensures { Gives (λ o. o) result (order_of deed unit nodes.now links (table_view table.now)) }
{
    match deed {
        Deed::Clock => stepped(clock(unit, table)),
        Deed::Send => stepped(send(alloc, nodes, table)),
        Deed::Life => stepped(life(nodes, table)),
        Deed::Age => stepped(age(nodes, table)),
        Deed::Put => stepped(put(nodes, table)),
        Deed::Judge => stepped(judge(nodes, table)),
        Deed::Take => stepped(take(links, table)),
        Deed::Cut => stepped(cut(links, table)),
        Deed::Mend => stepped(mend(links, table)),
        Deed::Inject => stepped(inject(alloc, links, table)),
        Deed::Drain => drain(table),
    }
}

/// What the table of a step says, where moments are in this unit, and there are these nodes and `links` links.
#[tactic(auto, unfolding(crate::specs::Steps::order_in))]
pub(crate) fn order_in(
    alloc: Global,
    unit: TimeUnit,
    nodes: &[Named],
    links: usize,
    table: &Table,
) -> Result<Order, What>
    ensures { Gives (λ o. o) result (order_in unit nodes.now links (table_view table.now)) }
{
    // `do` comes first, since it says which keys the table may have.
    let deed = deed(table)?;
    order_of(deed, alloc, unit, nodes, links, table)
}
