//! The orders of a scenario that tell what happens in a plan.
ghost use Rattle.std.specs.Prelude.{◌≡◌, ◌++◌, slice_get, slice_set, IfOk, OnOk};
ghost use Rattle.hsr_plan_schedule.specs.Orders.{change, changed, changes, clocked, comes, downs, drain, drained, ends_off, flag, from_stream, happens, hear, hear_on, is_down, is_to_speak, live, name_if, named_send, payload_if, send_if, sending, speak, speak_of, start, tell_occasion, tell_all, told_of, type_of};

use crate::hearing::{Heard, interlink_to, macs_behind};
use crate::occasion::{Happening, Occasion, Sender, Sent};
use crate::payloads::payload;
use crate::publication::Turn;
use crate::setting::Setting;
use hsr_frame::{About, Mac, NoMemory};
use hsr_node::Octets;
use hsr_plan_text::{Kind, Moves, Stream};
use hsr_scenario::Order;
use hsr_topology::End;
use hsr_world_steps::Step;
use std::alloc::Global;
use std::marker::Model;

/// What was told so far: the moment, which nodes are off, which links are cut by an event, whether something was sent since the last
/// drain, what was heard of stations, the orders, and of each frame that they send the number of its stream.
#[derive(Drop)]
pub(crate) struct Told {
    now: u64,
    off: Vec<bool>,
    cut: Vec<bool>,
    sent: bool,
    heard: Heard,
    pub(crate) orders: Vec<Order>,
    pub(crate) sends: Vec<usize>,
}

impl Model for Told {
    ghost use Rattle.hsr_plan_schedule.specs.Orders.{Told};

    ghost Value = { Told };

    ghost view = { λ t. record { now = t.now; off = t.off.items; cut = t.cut.items; sent = t.sent; heard = t.heard; orders = t.orders.items; sends = t.sends.items } };
}

/// The flag of that number; `false` where there is none.
fn flag(flags: &[bool], number: usize) -> bool
    ensures { result ≡ flag flags.now number }
{
    match flags.get(number) {
        Some(flag) => *flag,
        None => false,
    }
}

// ---- which links are down

/// Whether a node at the ends of a link is off.
fn ends_off(off: &[bool], link: &[End; 2]) -> bool
    ensures { result ≡ ends_off off.now link.now }
{
    let [one, other] = *link;
    flag(off, one.node) || flag(off, other.node)
}

/// Whether a link of that number is down.
fn is_down(off: &[bool], cut: &[bool], number: usize, link: &[End; 2]) -> bool
    ensures { result ≡ is_down off.now cut.now number link.now }
{
    flag(cut, number) || ends_off(off, link)
}

/// Which links are down.
#[tactic(auto, using(crate::proofs::Telling::downs_step))]
fn downs(
    alloc: Global,
    off: &[bool],
    cut: &[bool],
    links: &[[End; 2]],
) -> Result<Vec<bool>, NoMemory>
    ensures { IfOk result (λ v. v.items ≡ downs off.now cut.now 0 links.now) }
{
    let mut downs = Vec::new(alloc);
    for (number, link) in links.iter().enumerate() {
        // A link is down for two reasons, a cut and a node that is off; only a change of both together is an order.
        downs.push(is_down(off, cut, number, link))?;
    }
    Ok(downs)
}

/// Puts the cut or the mending of a link behind other orders.
fn add_change(
    orders: &mut Vec<Order>,
    before: bool,
    after: bool,
    link: usize,
) -> Result<(), NoMemory>
    ensures { OnOk result (orders.new.items ≡ orders.old.items ++ change before after link) }
{
    match (before, after) {
        (false, true) => orders.push(Order::Step(Step::Cut { link }))?,
        (true, false) => orders.push(Order::Step(Step::Mend { link }))?,
        (true, true) | (false, false) => {}
    }
    Ok(())
}

/// Puts the changes of all links behind other orders.
#[tactic(auto, using(crate::proofs::Telling::changes_step))]
fn add_changes(orders: &mut Vec<Order>, before: &[bool], after: &[bool]) -> Result<(), NoMemory>
    ensures { OnOk result (orders.new.items ≡ orders.old.items ++ changes after.now 0 before.now) }
{
    for (link, was) in before.iter().enumerate() {
        add_change(orders, *was, flag(after, link), link)?;
    }
    Ok(())
}

/// Sets a flag, where there is one of that number.
fn set_flag(flags: &mut [bool], number: usize, value: bool)
    ensures { flags.new ≡ slice_set flags.old number value }
{
    if number < flags.len() {
        flags[number] = value;
    }
}

// ---- frames of streams

/// The type of a kind of payload.
fn type_of(kind: Kind) -> u16
    ensures { result ≡ type_of kind }
{
    match kind {
        Kind::Goose => 0x88B8,
        Kind::SampledValues => 0x88BA,
        Kind::Number(number) => number,
    }
}

/// Whether a RedBox is told to speak for an address that it knows then, or not.
fn is_to_speak(moves: Moves, is_known: bool) -> bool
    ensures { result ≡ is_to_speak moves is_known }
{
    match moves {
        Moves::EachSendDrains | Moves::EachMomentDrains => is_known,
        // By hops it isn't known yet what has come: each station is tried when the run is played.
        Moves::Timed(_) => true,
    }
}

/// The name of a stream's sender.
fn name_of(stream: &Stream, index: usize) -> &[u8]
    ensures { result.now ≡ name_if (slice_get stream.now.from index) }
{
    match stream.from.get(index) {
        Some(name) => name.as_bytes(),
        None => &[],
    }
}

/// The payload of a frame of the stream of that number.
fn payload_of(
    alloc: Global,
    setting: &Setting<'_>,
    stream: &Stream,
    number: usize,
    turn: Turn,
) -> Result<Vec<u8>, NoMemory>
    ensures { IfOk result (λ v. v.items ≡ payload_if setting.now stream.now
        (slice_get setting.now.publications number) turn) }
{
    match setting.publications.get(number) {
        Some(publication) => {
            let name = name_of(stream, turn.index);
            let size = stream.framing.size;
            payload(alloc, setting.epoch, publication, stream, size, name, turn)
        }
        None => Ok(Vec::new(alloc)),
    }
}

/// The send of a frame of a stream.
fn named_send(
    alloc: Global,
    setting: &Setting<'_>,
    stream: &Stream,
    sent: Sent,
) -> Result<Order, NoMemory>
    ensures { IfOk result (λ o. o ≡ named_send setting.now stream.now sent) }
{
    let Sent {
        stream: number,
        index,
        sender,
        dst,
        state,
        count,
    } = sent;
    let turn = Turn {
        index,
        state,
        count,
    };
    let payload = payload_of(alloc, setting, stream, number, turn)?;
    let framing = &stream.framing;
    Ok(Order::Step(Step::Send {
        node: sender.node,
        from: sender.from,
        dst,
        vlan: framing.tag,
        kind: type_of(framing.kind),
        payload: Octets::new(payload),
    }))
}

impl Told {
    /// Nothing told: the moment 0, and all nodes are on and no link is cut.
    fn start(alloc: Global, setting: &Setting<'_>) -> Result<Told, NoMemory>
        ensures { IfOk result (λ t. t ≡ start setting.now) }
    {
        let mut off = Vec::new(alloc);
        off.resize(setting.nodes.len(), false)?;
        let mut cut = Vec::new(alloc);
        cut.resize(setting.links.len(), false)?;
        let heard = Heard::nothing(alloc, setting.nodes)?;
        Ok(Told {
            now: 0,
            off,
            cut,
            sent: false,
            heard,
            orders: Vec::new(alloc),
            sends: Vec::new(alloc),
        })
    }

    /// Tells what changes where other nodes are off.
    fn turn(
        &mut self,
        alloc: Global,
        links: &[[End; 2]],
        node: usize,
        off: bool,
    ) -> Result<(), NoMemory>
        ensures { OnOk result (self.new ≡ changed links.now
            (slice_set self.old.off node off) self.old.cut self.old) }
    {
        // Compared before and after: so a link that is down already is cut no second time.
        let before = downs(alloc, self.off.as_slice(), self.cut.as_slice(), links)?;
        set_flag(self.off.as_mut_slice(), node, off);
        let after = downs(alloc, self.off.as_slice(), self.cut.as_slice(), links)?;
        add_changes(&mut self.orders, before.as_slice(), after.as_slice())
    }

    /// Tells what changes where other links are cut.
    fn join(
        &mut self,
        alloc: Global,
        links: &[[End; 2]],
        link: usize,
        cut: bool,
    ) -> Result<(), NoMemory>
        ensures { OnOk result (self.new ≡ changed links.now self.old.off
            (slice_set self.old.cut link cut) self.old) }
    {
        let before = downs(alloc, self.off.as_slice(), self.cut.as_slice(), links)?;
        set_flag(self.cut.as_mut_slice(), link, cut);
        let after = downs(alloc, self.off.as_slice(), self.cut.as_slice(), links)?;
        add_changes(&mut self.orders, before.as_slice(), after.as_slice())
    }

    /// Brings all copies to their ends.
    fn drain(&mut self) -> Result<(), NoMemory>
        ensures { OnOk result (self.new ≡ drain self.old) }
    {
        self.orders.push(Order::Drain)?;
        // A drain brings to RedBoxes what waited on interlinks.
        self.heard.settle();
        self.sent = false;
        Ok(())
    }

    /// Brings what was sent to its end.
    fn drain_sent(&mut self) -> Result<(), NoMemory>
        ensures { OnOk result (self.new ≡ drained self.old) }
    {
        if self.sent { self.drain() } else { Ok(()) }
    }

    /// Sets the moment, if it is another.
    fn clock(&mut self, at: u64) -> Result<(), NoMemory>
        ensures { OnOk result (self.new ≡ clocked at self.old) }
    {
        if self.now != at {
            // Before the moment goes on: what was sent at a moment comes to its end at it.
            self.drain_sent()?;
            self.orders.push(Order::Step(Step::Clock { at }))?;
            self.now = at;
        }
        Ok(())
    }

    /// Tells that something is sent.
    fn send(&mut self, moves: Moves, order: Order) -> Result<(), NoMemory>
        ensures { OnOk result (self.new ≡ sending moves order self.old) }
    {
        self.orders.push(order)?;
        match moves {
            Moves::EachSendDrains => self.drain()?,
            Moves::EachMomentDrains => self.sent = true,
            // Copies are moved later, when the run is played.
            Moves::Timed(_) => {}
        }
        Ok(())
    }

    // ---- stations

    /// Whether a frame of a station comes to its RedBox.
    fn comes(&self, setting: &Setting<'_>, number: usize, sender: Sender, link: &[End; 2]) -> bool
        ensures { result ≡ comes setting.now number sender link.now self.entry.now }
    {
        !is_down(self.off.as_slice(), self.cut.as_slice(), number, link)
            && self.heard.has_room(setting.capacity, sender.node)
    }

    /// Hears a station by the interlink of that number.
    fn hear_on(
        &mut self,
        setting: &Setting<'_>,
        number: usize,
        sender: Sender,
    ) -> Result<(), NoMemory>
        ensures { OnOk result (self.new ≡ hear_on setting.now number sender
            (slice_get setting.now.links number) self.old) }
    {
        let mac = sender.mac;
        match setting.links.get(number) {
            Some(link) if self.comes(setting, number, sender, link) => {
                self.heard.hear(setting.nodes, self.now, link, mac)
            }
            _ => Ok(()),
        }
    }

    /// Hears a sender, if it is a station.
    fn hear(&mut self, setting: &Setting<'_>, sender: Sender) -> Result<(), NoMemory>
        ensures { OnOk result (self.new ≡ hear setting.now sender self.old) }
    {
        match interlink_to(setting.links, sender.node) {
            Some(link) => self.hear_on(setting, link, sender),
            None => Ok(()),
        }
    }

    /// Tells the supervision of a RedBox about an address, if it knows that.
    fn speak(&mut self, setting: &Setting<'_>, node: usize, mac: Mac) -> Result<(), NoMemory>
        ensures { OnOk result (self.new ≡ speak setting.now node mac self.old) }
    {
        let is_known = self.heard.knows(self.now, node, mac);
        if is_to_speak(setting.moves, is_known) {
            let about = About::Proxied(mac);
            self.send(setting.moves, Order::Step(Step::Supervise { node, about }))?;
        }
        Ok(())
    }

    /// Tells the supervision of a RedBox about those of these addresses that it knows.
    #[tactic(auto, using(crate::proofs::Telling::speak_step))]
    fn speak_of(&mut self, setting: &Setting<'_>, node: usize, macs: &[Mac]) -> Result<(), NoMemory>
        ensures { OnOk result (self.new ≡ speak_of setting.now node macs.now self.old) }
    {
        for mac in macs.iter() {
            self.speak(setting, node, *mac)?;
        }
        Ok(())
    }

    /// Tells the supervision of a node, and of the stations behind it that it knows.
    fn live(&mut self, setting: &Setting<'_>, node: usize) -> Result<(), NoMemory>
        ensures { OnOk result (self.new ≡ live setting.now node self.old) }
    {
        let about = About::Own;
        self.send(setting.moves, Order::Step(Step::Supervise { node, about }))?;
        let macs = macs_behind(setting.nodes, setting.links, node);
        self.speak_of(setting, node, macs)
    }

    // ---- all

    /// Notes the stream of the frame that is sent next.
    fn from_stream(&mut self, number: usize) -> Result<(), NoMemory>
        ensures { OnOk result (self.new ≡ from_stream number self.old) }
    {
        self.sends.push(number)?;
        Ok(())
    }

    /// Tells a frame of a stream.
    fn send_stream(
        &mut self,
        alloc: Global,
        setting: &Setting<'_>,
        sent: Sent,
    ) -> Result<(), NoMemory>
        ensures { OnOk result (self.new ≡ send_if setting.now
            (slice_get setting.now.streams sent.stream) sent self.old) }
    {
        let Sent {
            stream: number,
            sender,
            ..
        } = sent;
        match setting.streams.get(number) {
            Some(stream) => {
                // Room for the order comes first, so that nothing is heard of a frame that isn't sent.
                let order = named_send(alloc, setting, stream, sent)?;
                self.hear(setting, sender)?;
                self.from_stream(number)?;
                self.send(setting.moves, order)
            }
            None => Ok(()),
        }
    }

    /// Tells what happens.
    fn happen(
        &mut self,
        alloc: Global,
        setting: &Setting<'_>,
        what: Happening,
    ) -> Result<(), NoMemory>
        ensures { OnOk result (self.new ≡ happens setting.now what self.old) }
    {
        match what {
            Happening::Cut { link } => self.join(alloc, setting.links, link, true),
            Happening::Mend { link } => self.join(alloc, setting.links, link, false),
            Happening::Off { node } => self.turn(alloc, setting.links, node, true),
            Happening::On { node } => self.turn(alloc, setting.links, node, false),
            Happening::Life { node } => {
                // A node that is off sends nothing, and isn't asked again later.
                if flag(self.off.as_slice(), node) {
                    return Ok(());
                }
                self.live(setting, node)
            }
            Happening::Send(sent) => {
                if flag(self.off.as_slice(), sent.sender.node) {
                    return Ok(());
                }
                self.send_stream(alloc, setting, sent)
            }
        }
    }

    /// Tells an occasion.
    fn tell_occasion(
        &mut self,
        alloc: Global,
        setting: &Setting<'_>,
        occasion: Occasion,
    ) -> Result<(), NoMemory>
        ensures { OnOk result (self.new ≡ tell_occasion setting.now occasion self.old) }
    {
        self.clock(occasion.at)?;
        self.happen(alloc, setting, occasion.what)
    }
}

/// Tells all occasions.
#[tactic(auto, using(crate::proofs::Telling::tell_step))]
fn tell_all(
    alloc: Global,
    told: &mut Told,
    setting: &Setting<'_>,
    occasions: &[Occasion],
) -> Result<(), NoMemory>
    ensures { OnOk result (told.new ≡ tell_all setting.now told.old occasions.now) }
{
    for occasion in occasions.iter() {
        told.tell_occasion(alloc, setting, *occasion)?;
    }
    Ok(())
}

/// What is told of occasions.
pub(crate) fn told_of(
    alloc: Global,
    setting: &Setting<'_>,
    occasions: &[Occasion],
) -> Result<Told, NoMemory>
    ensures { IfOk result (λ told. told ≡ told_of setting.now occasions.now) }
{
    let mut told = Told::start(alloc, setting)?;
    tell_all(alloc, &mut told, setting, occasions)?;
    // What was sent at the last moment comes to its end too.
    told.drain_sent()?;
    Ok(told)
}
