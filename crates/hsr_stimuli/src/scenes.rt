//! All stimuli for a device.
ghost use Rattle.std.specs.Prelude.{◌≡◌, ◌<◌, ◌++◌, [], ◌∷◌, IfOk, OnOk};
ghost use Rattle.hsr_stimuli.specs.Scenes.{below, came_back_if, node, station};
ghost use Rattle.hsr_stimuli.specs.Stimuli.{by_interlink, by_port, by_ring_port, nodes, of_quadbox, of_redbox, on_ring, remembering, scene, stations, stimuli};

use crate::memory::{forgetting, numbers, put_full_table};
use crate::ring::{addressed, groups, others};
use crate::scene::{Scene, Stimulus, no_address};
use crate::stations::{
    INTERLINK, came_back, from_stations, last_station, station, stations_behind, to_stations,
};
use crate::supervisions::{malformed, node, supervisions};
use hsr_frame::{Mac, NoMemory};
use hsr_node::Place;
use std::alloc::Global;

/// How many stations a RedBox knows, and one node more than any node knows (RULES, Supervision, and RedBoxes and QuadBoxes).
const STATIONS: u16 = 64;

const NODES: u16 = 65;

/// A scene of frames from `sender` that come to `port`, and their second copies to `beyond`.
fn scene_at(own: Mac, start: u32, port: u8, beyond: u8, sender: u16) -> Scene
    ensures { result ≡ scene own start port beyond sender }
{
    Scene {
        own,
        start,
        port,
        beyond,
        sender,
    }
}

/// Puts last what comes to a port on a ring.
#[tactic(auto, unfolding(crate::specs::Stimuli::by_port))]
fn put_port(list: &mut Vec<Stimulus>, scene: &Scene) -> Result<(), NoMemory>
    ensures { OnOk result (list.new.items ≡ list.old.items ++ by_port scene.now) }
{
    list.extend_from_slice(&groups(scene))?;
    list.extend_from_slice(&others(scene))?;
    list.extend_from_slice(&supervisions(scene))?;
    list.extend_from_slice(&malformed(scene))?;
    Ok(())
}

/// Puts last what comes to a ring port of a device that has an address.
#[tactic(auto, unfolding(crate::specs::Stimuli::by_ring_port))]
fn put_ring_port(list: &mut Vec<Stimulus>, scene: &Scene) -> Result<(), NoMemory>
    ensures { OnOk result (list.new.items ≡ list.old.items ++ by_ring_port scene.now) }
{
    list.extend_from_slice(&groups(scene))?;
    list.extend_from_slice(&others(scene))?;
    list.extend_from_slice(&addressed(scene))?;
    list.extend_from_slice(&supervisions(scene))?;
    list.extend_from_slice(&malformed(scene))?;
    Ok(())
}

/// Puts last what tries the tables of a device.
#[tactic(auto, unfolding(crate::specs::Stimuli::remembering))]
fn put_remembering(list: &mut Vec<Stimulus>, own: Mac, entries: u16) -> Result<(), NoMemory>
    ensures { OnOk result (list.new.items ≡ list.old.items ++ remembering own entries) }
{
    list.extend_from_slice(&forgetting(&scene_at(own, 6_000_000, 0, 1, 104)))?;
    list.extend_from_slice(&numbers(&scene_at(own, 7_000_000, 0, 1, 105)))?;
    put_full_table(list, &scene_at(own, 8_000_000, 0, 1, 106), entries)
}

/// Puts supervision of a node last.
/// As a slice: a push that is refused hands the frame back, and gets no proof here.
fn put_node(list: &mut Vec<Stimulus>, scene: &Scene, n: u16) -> Result<(), NoMemory>
    requires { n < 1000 }
    ensures { OnOk result (list.new.items ≡ list.old.items ++ node scene.now n ∷ []) }
{
    list.extend_from_slice(&[node(scene, n)])?;
    Ok(())
}

/// Puts supervision of as many nodes last as a node knows, and of one more.
#[tactic(auto, using(crate::proofs::Growing::below_none, crate::proofs::Growing::below_grown))]
fn put_nodes(list: &mut Vec<Stimulus>, own: Mac) -> Result<(), NoMemory>
    ensures { OnOk result (list.new.items ≡ list.old.items ++ nodes own) }
{
    let scene = scene_at(own, 9_000_000, 0, 1, 107);
    for n in 0..NODES {
        put_node(list, &scene, n)?;
    }
    Ok(())
}

/// Puts last what comes by the ring to a device that has an address.
#[tactic(auto, unfolding(crate::specs::Stimuli::on_ring))]
fn put_on_ring(list: &mut Vec<Stimulus>, own: Mac, entries: u16) -> Result<(), NoMemory>
    ensures { OnOk result (list.new.items ≡ list.old.items ++ on_ring own entries) }
{
    put_ring_port(list, &scene_at(own, 2_000_000, 0, 1, 100))?;
    put_ring_port(list, &scene_at(own, 3_000_000, 1, 0, 101))?;
    put_remembering(list, own, entries)?;
    put_nodes(list, own)
}

/// Puts last what comes round the ring, where the device's first number is known.
fn put_came_back(list: &mut Vec<Stimulus>, ring: &Scene, start: Option<u16>) -> Result<(), NoMemory>
    ensures { OnOk result (list.new.items ≡ list.old.items ++ came_back_if ring.now start) }
{
    if let Some(start) = start {
        list.extend_from_slice(&came_back(ring, start))?;
    }
    Ok(())
}

/// Puts last what comes by the interlink, and for stations there.
#[tactic(auto, unfolding(crate::specs::Stimuli::by_interlink))]
fn put_interlink(list: &mut Vec<Stimulus>, ring: &Scene, start: Option<u16>) -> Result<(), NoMemory>
    ensures { OnOk result (list.new.items ≡ list.old.items ++ by_interlink ring.now start) }
{
    list.extend_from_slice(&from_stations(ring))?;
    list.extend_from_slice(&malformed(&ring.at_port(INTERLINK)))?;
    // Behind three frames that were numbered a table of four entries remembers them all.
    put_came_back(list, ring, start)?;
    list.extend_from_slice(&to_stations(ring))?;
    Ok(())
}

/// Puts the frame of a station last.
/// As a slice: a push that is refused hands the frame back, and gets no proof here.
fn put_station(list: &mut Vec<Stimulus>, ring: &Scene, n: u16) -> Result<(), NoMemory>
    requires { n < 1000 }
    ensures { OnOk result (list.new.items ≡ list.old.items ++ station ring.now n ∷ []) }
{
    list.extend_from_slice(&[station(ring, n)])?;
    Ok(())
}

/// Puts the first ones of many stations last.
#[tactic(auto, using(crate::proofs::Growing::below_none, crate::proofs::Growing::below_grown))]
fn put_each_station(list: &mut Vec<Stimulus>, ring: &Scene) -> Result<(), NoMemory>
    ensures { OnOk result (list.new.items ≡ list.old.items ++ below (station ring.now) 64) }
{
    for n in 0..STATIONS {
        put_station(list, ring, n)?;
    }
    Ok(())
}

/// Puts as many stations last as a RedBox knows, one more, and one that it forgets.
#[tactic(auto, unfolding(crate::specs::Stimuli::stations))]
fn put_stations(list: &mut Vec<Stimulus>, own: Mac) -> Result<(), NoMemory>
    ensures { OnOk result (list.new.items ≡ list.old.items ++ stations own) }
{
    let ring = scene_at(own, 10_000_000, 0, 1, 108);
    put_each_station(list, &ring)?;
    list.extend_from_slice(&stations_behind(&ring))?;
    list.extend_from_slice(&last_station(&scene_at(own, 11_000_000, 0, 1, 109)))?;
    Ok(())
}

/// Puts the stimuli for a RedBox last.
#[tactic(auto, unfolding(crate::specs::Stimuli::of_redbox))]
fn put_redbox(
    list: &mut Vec<Stimulus>,
    own: Mac,
    entries: u16,
    start: Option<u16>,
) -> Result<(), NoMemory>
    ensures { OnOk result (list.new.items ≡ list.old.items ++ of_redbox own entries start) }
{
    put_interlink(list, &scene_at(own, 1_000_000, 0, 1, 110), start)?;
    put_on_ring(list, own, entries)?;
    put_stations(list, own)
}

/// Puts the stimuli for a QuadBox last.
#[tactic(auto, unfolding(crate::specs::Stimuli::of_quadbox))]
fn put_quadbox(list: &mut Vec<Stimulus>, entries: u16) -> Result<(), NoMemory>
    ensures { OnOk result (list.new.items ≡ list.old.items ++ of_quadbox entries) }
{
    let nobody = no_address();
    put_port(list, &scene_at(nobody, 2_000_000, 0, 1, 100))?;
    put_port(list, &scene_at(nobody, 3_000_000, 1, 0, 101))?;
    put_port(list, &scene_at(nobody, 4_000_000, 2, 3, 102))?;
    put_port(list, &scene_at(nobody, 5_000_000, 3, 2, 103))?;
    put_remembering(list, nobody, entries)
}

/// The stimuli for a device at a place, in the order of time, with duplicate tables of so many entries. `start` is the device's first
/// number, if that is known. A table that can't be filled in 400 ms over 100 Mbit/s isn't filled. A Station, which is no device of a
/// ring, has none. `NoMemory` where room is refused.
pub fn stimuli(
    alloc: Global,
    place: &Place,
    entries: u16,
    start: Option<u16>,
) -> Result<Vec<Stimulus>, NoMemory>
    ensures { IfOk result (λ list. list.items ≡ stimuli place.now entries start) }
{
    let mut list = Vec::new(alloc);
    match place {
        Place::Danh { mac, .. } => put_on_ring(&mut list, *mac, entries)?,
        Place::RedBox { mac, .. } => put_redbox(&mut list, *mac, entries, start)?,
        Place::QuadBox => put_quadbox(&mut list, entries)?,
        Place::Station { .. } => {}
    }
    Ok(list)
}
