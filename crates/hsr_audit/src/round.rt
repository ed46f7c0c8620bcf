//! Whether nodes and links are a ring, and whether copies were lost on at most one link.
ghost use Rattle.std.specs.Prelude.{◌≡◌, ◌↔◌, ◌<◌, [], ◌++◌, filter_map, length, IfOk, IsTrue, OnOk};
ghost use Rattle.std.specs.List.{cons_option, list_all};
ghost use Rattle.hsr_audit.specs.Danhs.{is_danh};
ghost use Rattle.hsr_run_laws.specs.Premises.{OneLossyLink, any_lost};
ghost use Rattle.hsr_audit.specs.Round.{IsRound, JoinedBelow, address_of, is_joint, is_joint_of};

use hsr_finished_run::Closed;
use hsr_frame::{Mac, NoMemory};
use hsr_link::Row;
use hsr_node::Place;
use hsr_topology::{End, is_same_end};
use std::alloc::Global;

fn is_danh(place: &Place) -> bool
    ensures { result ≡ is_danh place.now }
{
    matches!(place, Place::Danh { .. })
}

fn are_danhs(places: &[Place]) -> bool
    ensures { result ≡ list_all is_danh places.now }
{
    places.iter().all(|place| is_danh(place))
}

/// Whether a link joins B of a node with A of the next.
fn is_joint(link: [End; 2], node: usize, next: usize) -> bool
    ensures { result ≡ is_joint link node next }
{
    let [a, b] = link;
    let (out, into) = (
        End { node, port: 1 },
        End {
            node: next,
            port: 0,
        },
    );
    // Its ends stand in either order (RULES, Finished runs).
    (is_same_end(a, out) && is_same_end(b, into)) || (is_same_end(a, into) && is_same_end(b, out))
}

/// Whether a link is the one of its number round a ring of `count` nodes.
#[tactic(auto, unfolding(crate::specs::Round::is_joint_of))]
fn is_joint_of(link: [End; 2], number: usize, count: usize) -> bool
    requires { number < count }
    ensures { result ≡ is_joint_of link number count }
{
    is_joint(link, number, (number + 1) % count)
}

fn are_joined(links: &[[End; 2]]) -> bool
    ensures { IsTrue result ↔ JoinedBelow links.now (length links.now) }
{
    for (k, link) in links.iter().enumerate() {
        if !is_joint_of(*link, k, links.len()) {
            return false;
        }
    }
    true
}

/// Whether these are two DANHs or more and as many links, each of which joins B of its node with A of the next one.
pub(crate) fn is_round(places: &[Place], links: &[[End; 2]]) -> bool
    ensures { IsTrue result ↔ IsRound places.now links.now }
{
    places.len() >= 2 && links.len() == places.len() && are_danhs(places) && are_joined(links)
}

/// Adds the address of a DANH to others.
fn push_address(macs: &mut Vec<Mac>, place: &Place) -> Result<(), NoMemory>
    ensures { OnOk result (macs.new.items ≡ macs.old.items
        ++ cons_option (address_of place.now) []) }
{
    if let Place::Danh { mac, .. } = place {
        macs.push(*mac)?;
    }
    Ok(())
}

/// The addresses of DANHs.
#[tactic(auto, using(crate::proofs::Lists::append_option))]
pub(crate) fn addresses(alloc: Global, places: &[Place]) -> Result<Vec<Mac>, NoMemory>
    ensures { IfOk result (λ macs. macs.items ≡ filter_map address_of places.now) }
{
    let mut macs = Vec::new(alloc);
    for place in places {
        push_address(&mut macs, place)?;
    }
    Ok(macs)
}

fn any_lost(rows: &[Row]) -> bool
    ensures { result ≡ any_lost rows.now }
{
    rows.iter().any(|row| row.fate.is_lost())
}

/// Whether all copies that were lost were lost on one link.
pub(crate) fn loses_on_one<const C: usize>(closed: &Closed<C>) -> bool
    ensures { IsTrue result ↔ OneLossyLink closed.now.run }
{
    let mut lossy: Option<usize> = None;
    for l in 0..closed.topology().links().len() {
        if any_lost(closed.rows(l)) {
            if lossy.is_some() {
                return false;
            }
            lossy = Some(l);
        }
    }
    true
}
