//! What an egress of a node noted, and what of it is forgotten or mistaken.
ghost use Rattle.std.specs.List.{list_any};
ghost use Rattle.std.specs.Prelude.{◌≡◌, ◌<◌, ◌++◌, ◌∷◌, [], if◌then◌else◌, Some, reverse, OnErr, OnOk};
ghost use Rattle.indexmap.specs.IndexMap.{spare};
ghost use Rattle.hsr_duptable.specs.Key as spec;
ghost use Rattle.hsr_duptable.specs.Key.{is_same_key};
ghost use Rattle.hsr_table_demand.specs.Needs.{AreUpTo, is_unexpired};
ghost use Rattle.hsr_table_flaws.specs.Places.{is_kept, latest_of, other_in, place_in, place_of};
ghost use Rattle.hsr_node.specs.declared.event.Probe.{Probe};
ghost use Rattle.hsr_run_laws.specs.Premises.{is_mistaken, is_note_of};
ghost use Rattle.hsr_run_laws.specs.Run.{is_same_send};

use hsr_duptable::{ENTRY_FORGET, Key};
use hsr_frame::{Mac, NoMemory};
use hsr_node::Probe;
use indexmap::IndexMap;
use std::alloc::Global;
use std::marker::Model;

/// A frame that passed an egress: its source and number, the effective moment in microseconds, and its send.
#[derive(Clone, Copy)]
pub(crate) struct Mark {
    key: Key,
    moment: u64,
    probe: Option<Probe>,
}

impl Model for Mark {
    ghost use Rattle.hsr_node.specs.Record.{Noted};

    ghost Value = { Noted };

    ghost view = { λ m. record { key = m.key; moment = m.moment; probe = m.probe } };

    ghost inverse = { λ m. record { key = m.key; moment = m.moment; probe = m.probe } };
}

/// The latest mark with a source and number.
#[derive(Clone, Copy)]
pub(crate) struct Latest {
    /// Its index among the marks.
    place: usize,
    send: Option<Probe>,
    /// The index of the latest mark with that source and number that is of another send.
    other: Option<usize>,
}

/// The marks of an egress, the oldest first, and an index of them.
#[derive(Drop)]
pub(crate) struct Marks {
    marks: Vec<Mark>,
    /// The index of the latest mark of each send, by the send's node and place.
    sends: IndexMap<(usize, usize), usize>,
    /// The latest mark with each source and number.
    keys: IndexMap<(Mac, u16), Latest>,
}

impl Model for Marks {
    ghost use Rattle.std.specs.Prelude.{◌≡◌, List, Some, reverse};
    ghost use Rattle.hsr_node.specs.Record.{Noted};
    ghost use Rattle.hsr_duptable.specs.Key.{Key};
    ghost use Rattle.hsr_node.specs.declared.event.Probe.{Probe};
    ghost use Rattle.hsr_run_laws.specs.Premises.{is_note_of};
    ghost use Rattle.hsr_table_flaws.specs.Places.{latest_in, latest_of, place_in, place_of};

    ghost Value = { List Noted };

    ghost view = { λ m. m.marks.items };

    ghost invariant = { λ m.
        ((p : Probe) → place_of m.sends p ≡ place_in (is_note_of (Some p)) (reverse m.marks.items))
        × ((k : Key) → latest_of m.keys k ≡ latest_in k (reverse m.marks.items)) };
}

/// Whether two copies are of one send.
fn is_same_send(send: Option<Probe>, other: Option<Probe>) -> bool
    ensures { result ≡ is_same_send send other }
{
    match (send, other) {
        (Some(send), Some(other)) => other.node == send.node && other.place == send.place,
        _ => false,
    }
}

/// The index among the marks of the latest one of a send.
fn place_of(sends: &IndexMap<(usize, usize), usize>, send: Probe) -> Option<usize>
    ensures { result ≡ place_of sends.now send }
{
    sends.get(&(send.node, send.place)).copied()
}

/// The latest mark with a source and number.
fn latest_of(keys: &IndexMap<(Mac, u16), Latest>, key: Key) -> Option<Latest>
    ensures { result ≡ latest_of keys.now key }
{
    keys.get(&(key.src, key.seq)).copied()
}

/// The index of the latest mark that is of another send, of the marks with one source and number.
fn other_of(latest: Option<Latest>, send: Option<Probe>) -> Option<usize>
    ensures { result ≡ other_in send latest }
{
    let latest = latest?;
    if is_same_send(send, latest.send) {
        latest.other
    } else {
        Some(latest.place)
    }
}

/// Whether a mark is younger than frames are remembered.
fn is_unexpired(at: u64, mark: &Mark) -> bool
    ensures { result ≡ is_unexpired at mark.now }
{
    // A difference and no sum, which may overflow.
    at.saturating_sub(mark.moment) < ENTRY_FORGET
}

/// Whether the mark with an index is remembered: whether it is young, and among as many of the latest as a table has entries.
#[tactic(auto, using(crate::proofs::Placing::within))]
fn is_kept(capacity: usize, at: u64, place: Option<usize>, marks: &[Mark]) -> bool
    ensures { result ≡ is_kept capacity at marks.now place }
{
    let Some(place) = place else {
        return false;
    };
    let Some(mark) = marks.get(place) else {
        return false;
    };
    marks.len() - place <= capacity && is_unexpired(at, mark)
}

/// Makes room for one more mark.
fn make_room(
    sends: &mut IndexMap<(usize, usize), usize>,
    keys: &mut IndexMap<(Mac, u16), Latest>,
) -> Result<(), NoMemory>
    ensures sends { (p : Probe) → place_of sends.new p ≡ place_of sends.old p }
    ensures keys { (k : spec.Key) → latest_of keys.new k ≡ latest_of keys.old k }
    ensures send_fits { OnOk result (0 < spare sends.new) }
    ensures key_fits { OnOk result (0 < spare keys.new) }
{
    sends.reserve(1)?;
    keys.reserve(1)?;
    Ok(())
}

/// Puts a mark last; none if allocation fails.
fn add_mark(marks: &mut Vec<Mark>, mark: Mark) -> Result<(), NoMemory>
    ensures put { OnOk result (marks.new.items ≡ marks.old.items ++ mark ∷ []) }
    ensures refused { OnErr result (marks.new.items ≡ marks.old.items) }
{
    marks.push(mark)?;
    Ok(())
}

/// Keeps the index of the latest mark of a send, if it is of one.
fn name_send(sends: &mut IndexMap<(usize, usize), usize>, send: Option<Probe>, place: usize)
    requires { 0 < spare sends.old }
    ensures { (p : Probe) → place_of sends.new p
        ≡ (if is_same_send (Some p) send then Some place else place_of sends.old p) }
{
    let Some(probe) = send else {
        return;
    };
    match sends.insert((probe.node, probe.place), place) {
        Ok(_) => {}
        // Room was made before.
        Err(_) => unreachable!(),
    }
}

/// Names the latest mark with a source and number.
fn name_key(keys: &mut IndexMap<(Mac, u16), Latest>, key: Key, latest: Latest)
    requires { 0 < spare keys.old }
    ensures { (k : spec.Key) → latest_of keys.new k
        ≡ (if is_same_key key k then Some latest else latest_of keys.old k) }
{
    match keys.insert((key.src, key.seq), latest) {
        Ok(_) => {}
        // Room was made before.
        Err(_) => unreachable!(),
    }
}

impl Marks {
    ghost use Rattle.hsr_node.specs.Record.{note_if};
    ghost use Rattle.hsr_table_flaws.specs.Places.{is_gone, is_mixed_up, noted_after};

    /// An egress that noted nothing.
    pub(crate) fn new(alloc: Global) -> Marks
        ensures { result ≡ [] }
    {
        Marks {
            marks: Vec::new(alloc),
            sends: IndexMap::new(alloc),
            keys: IndexMap::new(alloc),
        }
    }

    /// The index of the latest mark of a send.
    #[tactic(auto, using(crate::proofs::Placing::nowhere_of_none))]
    fn place_of(&self, send: Option<Probe>) -> Option<usize>
        ensures { result ≡ place_in (is_note_of send) (reverse self.now) }
    {
        match send {
            Some(send) => place_of(&self.sends, send),
            None => None,
        }
    }

    /// Whether a send was noted.
    #[tactic(auto, using(crate::proofs::Placing::any_at))]
    pub(crate) fn has(&self, send: Option<Probe>) -> bool
        ensures { result ≡ list_any (is_note_of send) (reverse self.now) }
    {
        self.place_of(send).is_some()
    }

    /// The index of the latest mark with a source and number that is of another send.
    #[tactic(auto, using(crate::proofs::Placing::other_found))]
    fn place_of_other(&self, key: Key, send: Option<Probe>) -> Option<usize>
        ensures { result ≡ place_in (is_mistaken key send) (reverse self.now) }
    {
        other_of(latest_of(&self.keys, key), send)
    }

    /// Whether a send was noted, and no such mark is remembered.
    #[tactic(auto, using(crate::proofs::Placing::gone_at, crate::proofs::Placing::not_gone))]
    pub(crate) fn is_gone(&self, capacity: usize, at: u64, send: Option<Probe>) -> bool
        requires { AreUpTo at (reverse self.now) }
        ensures { result ≡ is_gone capacity at send (reverse self.now) }
    {
        let place = self.place_of(send);
        place.is_some() && !is_kept(capacity, at, place, &self.marks)
    }

    /// Whether a mark with this source and number is remembered that is of another send.
    #[tactic(auto, using(crate::proofs::Placing::any_kept))]
    pub(crate) fn is_mixed_up(
        &self,
        capacity: usize,
        at: u64,
        key: Option<Key>,
        send: Option<Probe>,
    ) -> bool
        requires { AreUpTo at (reverse self.now) }
        ensures { result ≡ is_mixed_up capacity at key send (reverse self.now) }
    {
        match key {
            Some(key) => is_kept(capacity, at, self.place_of_other(key, send), &self.marks),
            None => false,
        }
    }

    /// Puts a mark last.
    fn add(&mut self, key: Key, moment: u64, probe: Option<Probe>) -> Result<(), NoMemory>
        ensures put { OnOk result (self.new ≡ self.old
            ++ record { key = key; moment = moment; probe = probe } ∷ []) }
        ensures refused { OnErr result (self.new ≡ self.old) }
    {
        let latest = Latest {
            place: self.marks.as_slice().len(),
            send: probe,
            other: self.place_of_other(key, probe),
        };
        // Room before the mark is put, so a failed allocation leaves nothing to mend.
        make_room(&mut self.sends, &mut self.keys)?;
        add_mark(&mut self.marks, Mark { key, moment, probe })?;
        name_send(&mut self.sends, probe, latest.place);
        name_key(&mut self.keys, key, latest);
        Ok(())
    }

    /// Notes something, if it is noted here and has a source and number.
    pub(crate) fn note(
        &mut self,
        is_noted: bool,
        key: Option<Key>,
        moment: u64,
        probe: Option<Probe>,
    ) -> Result<(), NoMemory>
        ensures { OnOk result (self.new ≡ noted_after self.old
            (note_if is_noted key moment probe)) }
    {
        match key {
            Some(key) if is_noted => self.add(key, moment, probe),
            _ => Ok(()),
        }
    }
}
