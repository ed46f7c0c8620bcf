//! What each channel carried.
ghost use Rattle.std.specs.Prelude.{◌≡◌, ◌<◌, ◌∷◌, [], ◌++◌, length, IfOk, OnOk};
ghost use Rattle.hsr_link.specs.Rows.{goes};
ghost use Rattle.hsr_link.specs.declared.row.Dir.TheVariants.{Forth as forth, Back as back};
ghost use Rattle.hsr_run_laws.specs.Run.{rows_of};
ghost use Rattle.hsr_timeline.specs.Hops.{passed_place, passed_places};
ghost use Rattle.hsr_load.specs.Carried.{channel_of, channels, is_carried, moment_by, transit_by, transits};
ghost use Rattle.hsr_wire.specs.Octets.{wire_octets};

use crate::transit::Transit;
use hsr_finished_run::Closed;
use hsr_frame::NoMemory;
use hsr_link::{Dir, Fate, Row};
use hsr_moments::Moments;
use hsr_node::Probe;
use hsr_timeline::passed_places;
use hsr_topology::End;
use hsr_wire::wire_octets;
use std::alloc::Global;
use std::marker::Model;

/// What a channel carried: the ends from which and to which its copies go, and these copies, in the order of their rows.
#[derive(Drop)]
pub struct Channel {
    pub from: End,
    pub to: End,
    pub transits: Vec<Transit>,
}

impl Model for Channel {
    ghost use Rattle.hsr_load.specs.Carried.{Channel};

    ghost Value = { Channel };

    ghost view = { λ c. record { from = c.from; to = c.to; transits = c.transits.items } };
}

/// Whether a row is of a direction.
fn goes(dir: Dir, row: &Row) -> bool
    ensures { result ≡ goes dir row.now }
{
    matches!(
        (dir, row.dir),
        (Dir::Forth, Dir::Forth) | (Dir::Back, Dir::Back)
    )
}

/// Whether a copy with this fate was carried.
fn is_carried(fate: Fate) -> bool
    ensures { result ≡ is_carried fate }
{
    // What a cut lost was on its way, so the channel was taken up by it.
    matches!(fate, Fate::Taken | Fate::LostCut)
}

/// The effective moment of the entry at a place of a node's record.
fn moment_by<const C: usize>(moments: &Moments<'_, C>, node: usize, place: Option<usize>) -> u64
    ensures { result ≡ moment_by moments.now node place }
{
    match place {
        Some(place) => moments.at(Probe { node, place }),
        None => 0,
    }
}

/// The copy of a row, which the entry at this place of a node's record passed.
fn transit_at<const C: usize>(
    moments: &Moments<'_, C>,
    node: usize,
    place: Option<usize>,
    row: &Row,
) -> Transit
    ensures { result ≡ record {
      moment = moment_by moments.now node place;
      octets = wire_octets row.now.carried.octets;
    } }
{
    Transit {
        moment: moment_by(moments, node, place),
        octets: wire_octets(row.carried.octets.as_slice()),
    }
}

/// Puts the copy of a row last, if the channel carried it.
#[tactic(auto, unfolding(crate::specs::Carried::transit_by))]
fn add_if<const C: usize>(
    list: &mut Vec<Transit>,
    moments: &Moments<'_, C>,
    node: usize,
    dir: Dir,
    place: Option<usize>,
    row: &Row,
) -> Result<(), NoMemory>
    ensures { OnOk result (list.new.items ≡ list.old.items
        ++ transit_by moments.now node dir place row.now) }
{
    if goes(dir, row) && is_carried(row.fate) {
        list.push(transit_at(moments, node, place, row))?;
    }
    Ok(())
}

/// The place of the entry that passed the copy of a row, of those of all rows. The run stands there for its contract alone.
fn place_of<const C: usize>(
    closed: &Closed<C>,
    link: usize,
    dir: Dir,
    places: &[Option<usize>],
    j: usize,
) -> Option<usize>
    requires below { j < length (rows_of closed.now.run link) }
    requires places { places.now ≡ passed_places closed.now.run link dir }
    ensures { result ≡ passed_place closed.now.run link dir j }
{
    places[j]
}

/// The copies that a channel carried, by the places of the entries that passed those of all rows.
fn transits_by<const C: usize>(
    alloc: Global,
    moments: &Moments<'_, C>,
    closed: &Closed<C>,
    link: usize,
    dir: Dir,
    places: &[Option<usize>],
) -> Result<Vec<Transit>, NoMemory>
    requires link { link < length closed.now.run.links }
    requires moments { moments.now ≡ closed.now.run }
    requires places { places.now ≡ passed_places closed.now.run link dir }
    ensures { IfOk result (λ list. list.items ≡ transits closed.now.run link dir) }
{
    let node = closed.from_end(link, dir).node;
    let rows = closed.rows(link);
    let mut list = Vec::new(alloc);
    for (j, row) in rows.iter().enumerate() {
        let place = place_of(closed, link, dir, places, j);
        add_if(&mut list, moments, node, dir, place, row)?;
    }
    Ok(list)
}

/// The copies that a channel carried.
fn transits<const C: usize>(
    alloc: Global,
    moments: &Moments<'_, C>,
    closed: &Closed<C>,
    link: usize,
    dir: Dir,
) -> Result<Vec<Transit>, NoMemory>
    requires link { link < length closed.now.run.links }
    requires moments { moments.now ≡ closed.now.run }
    ensures { IfOk result (λ list. list.items ≡ transits closed.now.run link dir) }
{
    let places = passed_places(alloc, closed, link, dir)?;
    transits_by(alloc, moments, closed, link, dir, places.as_slice())
}

/// What a channel carried.
fn channel_of<const C: usize>(
    alloc: Global,
    moments: &Moments<'_, C>,
    closed: &Closed<C>,
    link: usize,
    dir: Dir,
) -> Result<Channel, NoMemory>
    requires link { link < length closed.now.run.links }
    requires moments { moments.now ≡ closed.now.run }
    ensures { IfOk result (λ c. c ≡ channel_of closed.now.run link dir) }
{
    let transits = transits(alloc, moments, closed, link, dir)?;
    Ok(Channel {
        from: closed.from_end(link, dir),
        to: closed.to_end(link, dir),
        transits,
    })
}

/// Lists a channel.
fn list_channel<const C: usize>(
    alloc: Global,
    channels: &mut Vec<Channel>,
    moments: &Moments<'_, C>,
    closed: &Closed<C>,
    link: usize,
    dir: Dir,
) -> Result<(), NoMemory>
    requires link { link < length closed.now.run.links }
    requires moments { moments.now ≡ closed.now.run }
    ensures { OnOk result (channels.new.items ≡ channels.old.items
        ++ channel_of closed.now.run link dir ∷ []) }
{
    let channel = channel_of(alloc, moments, closed, link, dir)?;
    channels.push(channel)?;
    Ok(())
}

/// Lists the channels of a link, forth before back.
fn list_link<const C: usize>(
    alloc: Global,
    channels: &mut Vec<Channel>,
    moments: &Moments<'_, C>,
    closed: &Closed<C>,
    link: usize,
) -> Result<(), NoMemory>
    requires link { link < length closed.now.run.links }
    requires moments { moments.now ≡ closed.now.run }
    ensures { OnOk result (channels.new.items ≡ channels.old.items
        ++ channel_of closed.now.run link forth ∷ channel_of closed.now.run link back ∷ []) }
{
    list_channel(alloc, channels, moments, closed, link, Dir::Forth)?;
    list_channel(alloc, channels, moments, closed, link, Dir::Back)
}

/// What all channels carried, by the effective moments of entries.
fn channels_by<const C: usize>(
    alloc: Global,
    moments: &Moments<'_, C>,
    closed: &Closed<C>,
) -> Result<Vec<Channel>, NoMemory>
    requires { moments.now ≡ closed.now.run }
    ensures { IfOk result (λ list. list.items ≡ channels closed.now.run) }
{
    let mut list = Vec::new(alloc);
    for link in 0..closed.topology().links().len() {
        list_link(alloc, &mut list, moments, closed, link)?;
    }
    Ok(list)
}

/// What all channels carried, by links, forth before back.
pub(crate) fn channels<const C: usize>(
    alloc: Global,
    closed: &Closed<C>,
) -> Result<Vec<Channel>, NoMemory>
    ensures { IfOk result (λ list. list.items ≡ channels closed.now.run) }
{
    let moments = Moments::new(alloc, closed)?;
    channels_by(alloc, &moments, closed)
}
