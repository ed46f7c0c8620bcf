//! What an entry passed, held against a copy.
ghost use Rattle.std.specs.Prelude.{◌≡◌, if◌then◌else◌};
ghost use Rattle.hsr_run_index.specs.InOrder.{IsSeenAs, passed_by};
ghost use Rattle.hsr_run_index.specs.declared.passing.Seen.TheVariants.{Other, This};

use hsr_node::{Carried, Entry, Place, Probe, going_on, is_left_by, spelled_out};

/// What an entry passed by a port, held against a copy.
#[derive(Clone, Copy, PartialEq, Eq)]
pub enum Seen {
    /// It passed nothing.
    Nothing,
    /// It passed this copy.
    This,
    /// It passed another copy.
    Other,
}

/// A copy was passed, this one or another.
fn seen_as(is_this: bool) -> Seen
    ensures { result ≡ (if is_this then This else Other) }
{
    if is_this { Seen::This } else { Seen::Other }
}

/// What an entry passed by a port, held against a copy, where its octets are formed for that.
// A call of its own, so that what went on as it came doesn't make room for a copy's pieces.
#[inline(never)]
fn look_at_formed(
    number: usize,
    place: &Place,
    port: u8,
    at: usize,
    entry: &Entry,
    copy: &Carried,
) -> Seen
    ensures { IsSeenAs copy.now
        (passed_by (record { number = number; place = place.now }) port at entry.now) result }
{
    let probe = entry.event.probe(Probe {
        node: number,
        place: at,
    });
    // Spelled where it stands, so that comparing needs no memory.
    let Some(octets) = spelled_out(place, &entry.event, &entry.outcome, port) else {
        return Seen::Nothing;
    };
    seen_as(copy.probe == probe && octets.is_same(copy.octets.as_slice()))
}

/// What an entry of a node's record, `number`, passed by a port, held against a copy; `at` is the entry's place.
#[tactic(auto, unfolding(hsr_node::specs::Copies::copy_octets))]
pub fn look_at_pass(
    number: usize,
    place: &Place,
    port: u8,
    at: usize,
    entry: &Entry,
    copy: &Carried,
) -> Seen
    ensures { IsSeenAs copy.now
        (passed_by (record { number = number; place = place.now }) port at entry.now) result }
{
    let probe = entry.event.probe(Probe {
        node: number,
        place: at,
    });
    // Asked first: most copies go on as they came, and nothing is formed for them.
    if let Some(octets) = going_on(place, &entry.event, &entry.outcome, port) {
        return seen_as(copy.probe == probe && copy.octets == *octets);
    }
    if is_left_by(&entry.outcome, port) {
        look_at_formed(number, place, port, at, entry, copy)
    } else {
        Seen::Nothing
    }
}
