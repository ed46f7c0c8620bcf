//! What the reference node answers to stimuli, and how often it has each cause.
ghost use Rattle.std.specs.Prelude.{◌≡◌, ◌++◌, [], ◌∷◌, IfOk, OnOk};
ghost use Rattle.hsr_duptable.specs.Table.{IsTableSize};
ghost use Rattle.hsr_node.specs.Place.{HasOwnAddress};
ghost use Rattle.hsr_stimuli.specs.Playing.{after_sends, after_try, cause_number, event_of, has_cause, is_by, is_unlike, mode_of, reached, some_send, tried, tried_by, tried_from, unlike};

use crate::scene::{EXPERIMENTAL, Stimulus, group};
use hsr_frame::{Cause, Mode, NoMemory};
use hsr_node::{Carried, Event, Node, Octets, Outcome, Place, StepFault};
use std::alloc::Global;

/// A stimulus, and what the reference node answers.
#[derive(Clone, Copy)]
pub struct Tried {
    pub stimulus: Stimulus,
    pub answer: Result<Outcome, StepFault>,
}

/// What a stimulus is to a node.
fn event_of(alloc: Global, stimulus: &Stimulus) -> Result<Event, NoMemory>
    ensures { IfOk result (λ event. event ≡ event_of stimulus.now) }
{
    let octets = stimulus.shape.octets(alloc)?;
    Ok(Event::Arrive {
        port: stimulus.port,
        carried: Carried {
            probe: None,
            octets,
        },
    })
}

/// A send of any frame.
fn some_send(alloc: Global) -> Event
    ensures { result ≡ some_send }
{
    Event::Send {
        from: 0,
        dst: group(),
        vlan: None,
        kind: EXPERIMENTAL,
        payload: Octets::new(Vec::new(alloc)),
    }
}

/// Lets a node send so many frames.
#[tactic(auto, using(crate::proofs::Growing::sends_step))]
fn send_often<const C: usize>(alloc: Global, node: &mut Node<C>, times: u16)
    ensures { node.new ≡ after_sends C node.old times }
{
    let event = some_send(alloc);
    for sent in 0..times {
        // A node that sends nothing, as a QuadBox, refuses it.
        let _ = node.apply(0, &event);
    }
}

/// Lets a stimulus come to a node, and puts it last with the answer.
/// In a function of its own: so the loop holds no frame.
#[tactic(auto, using(crate::proofs::Growing::try_answers, crate::proofs::Growing::try_leaves))]
fn try_one<const C: usize>(
    alloc: Global,
    node: &mut Node<C>,
    tried: &mut Vec<Tried>,
    stimulus: &Stimulus,
) -> Result<(), NoMemory>
    ensures answer { OnOk result (tried.new.items
        ≡ tried.old.items ++ tried_by C node.old stimulus.now ∷ []) }
    ensures node { OnOk result (node.new ≡ after_try C node.old stimulus.now) }
{
    let event = event_of(alloc, stimulus)?;
    let answer = node.apply(stimulus.at, &event);
    tried.push(Tried {
        stimulus: *stimulus,
        answer,
    })?;
    Ok(())
}

/// What a node answers to stimuli, one after the other.
#[tactic(auto, using(crate::proofs::Growing::tried_step))]
fn tried_from<const C: usize>(
    alloc: Global,
    node: Node<C>,
    list: &[Stimulus],
) -> Result<Vec<Tried>, NoMemory>
    ensures { IfOk result (λ v. v.items ≡ tried_from C node.entry list.now) }
{
    let mut node = node;
    let mut tried = Vec::new(alloc);
    for stimulus in list {
        try_one(alloc, &mut node, &mut tried, stimulus)?;
    }
    Ok(tried)
}

/// What the reference node answers to stimuli, with tables of `C` entries; `start` is its first number, 0 where that isn't known. It has
/// sent as many frames before, at moment 0. `NoMemory` where room is refused.
pub fn answers<const C: usize>(
    alloc: Global,
    place: &Place,
    start: Option<u16>,
    list: &[Stimulus],
) -> Result<Vec<Tried>, NoMemory>
    requires station { HasOwnAddress place.now }
    requires entries { IsTableSize C }
    ensures { IfOk result (λ v. v.items ≡ tried C place.now start list.now) }
{
    let mut node = Node::<C>::new(alloc, place)?;
    send_often(alloc, &mut node, start.unwrap_or(0));
    tried_from(alloc, node, list)
}

/// A number for each cause.
fn cause_number(cause: Cause) -> u8
    ensures { result ≡ cause_number cause }
{
    match cause {
        Cause::Passed => 0,
        Cause::Duplicate => 7,
        Cause::Returned => 8,
        Cause::Foreign => 9,
        Cause::Local => 10,
        Cause::Untagged => 11,
        Cause::Tagged => 12,
        Cause::Malformed(fault) => fault.code(),
    }
}

impl Tried {
    /// Whether the answer has this cause.
    pub fn has_cause(&self, cause: Cause) -> bool
        ensures { result ≡ has_cause cause self.now }
    {
        match self.answer {
            Ok(Outcome::Judged { cause: said, .. }) => cause_number(said) == cause_number(cause),
            _ => false,
        }
    }
}

/// How many answers have this cause.
pub fn reached(cause: Cause, list: &[Tried]) -> usize
    ensures { result ≡ reached cause list.now }
{
    list.iter().filter(|tried| tried.has_cause(cause)).count()
}

/// The mode of a place; that of a QuadBox is H.
fn mode_of(place: &Place) -> Mode
    ensures { result ≡ mode_of place.now }
{
    match place {
        Place::Danh { mode, .. } | Place::RedBox { mode, .. } => *mode,
        Place::QuadBox | Place::Station { .. } => Mode::H,
    }
}

/// Whether an answer has another cause than its rule's.
#[tactic(auto, unfolding(crate::specs::Playing::is_unlike))]
fn is_unlike(place: &Place, tried: &Tried) -> bool
    ensures { result ≡ is_unlike place.now tried.now }
{
    let awaited = tried.stimulus.rule.awaited(mode_of(place));
    !tried.has_cause(awaited)
}

/// How many answers have another cause than their rule's.
pub fn unlike(place: &Place, list: &[Tried]) -> usize
    ensures { result ≡ unlike place.now list.now }
{
    list.iter().filter(|tried| is_unlike(place, tried)).count()
}
