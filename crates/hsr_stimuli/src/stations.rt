//! What comes by an interlink, and for stations there; whom a RedBox knows. What comes by the ring then is 200 ms behind, so that two
//! programs that play the frames of both sides need not begin in the same millisecond.
ghost use Rattle.std.specs.Prelude.{◌≡◌, ◌<◌};
ghost use Rattle.hsr_stimuli.specs.Scenes.{came_back, from_stations, last_station, station, stations_behind, to_stations};

use crate::ring::CONTROL;
use crate::rule::Rule;
use crate::scene::{Scene, Stimulus, group, other, usual_load};
use crate::shape::Form;

/// The port of an interlink.
pub(crate) const INTERLINK: u8 = 2;

/// What comes from two stations.
#[tactic(auto, unfolding(crate::specs::Scenes::from_stations))]
pub(crate) fn from_stations(ring: &Scene) -> [Stimulus; 7]
    ensures { result ≡ from_stations ring.now }
{
    let to = group();
    let own = ring.own;
    let edge = ring.at_port(INTERLINK);
    let one = edge.from(400);
    let two = edge.from(401);
    let second = two.source();
    let vlan = Form::InVlan { control: CONTROL };
    [
        one.plain(0, Rule::StationToAnother, other(own, 500)),
        two.plain(1, Rule::StationToGroup, to),
        one.plain(2, Rule::StationToDevice, own),
        one.plain(3, Rule::StationToStation, second),
        two.shaped(4, Rule::StationInVlan, to, second, vlan, usual_load()),
        one.shaped(
            5,
            Rule::DeviceAtInterlink,
            to,
            own,
            Form::Plain,
            usual_load(),
        ),
        one.tagged(6, Rule::TaggedAtInterlink, to, 0),
    ]
}

/// What comes for one of them by the ring, and from its address.
#[tactic(auto, unfolding(crate::specs::Scenes::to_stations))]
pub(crate) fn to_stations(ring: &Scene) -> [Stimulus; 4]
    ensures { result ≡ to_stations ring.now }
{
    let to = other(ring.own, 400);
    let turned = ring.turned();
    let copied = ring.from(400);
    [
        ring.tagged(202, Rule::ToStation, to, 7),
        turned.tagged(203, Rule::ToStationSecond, to, 7),
        ring.tagged(204, Rule::ToStationAgain, to, 7),
        copied.tagged(205, Rule::StationOnRing, group(), 40000),
    ]
}

/// What the device numbered comes round the ring, where its first number is this one.
#[tactic(auto, unfolding(crate::specs::Scenes::came_back))]
pub(crate) fn came_back(ring: &Scene, start: u16) -> [Stimulus; 2]
    ensures { result ≡ came_back ring.now start }
{
    let one = ring.from(400);
    let two = ring.from(401);
    [
        one.tagged(200, Rule::CameBack, other(ring.own, 500), start),
        two.tagged(201, Rule::GroupCameBack, group(), start.wrapping_add(1)),
    ]
}

/// A station of its own, which sends to the device.
pub(crate) fn station(ring: &Scene, n: u16) -> Stimulus
    requires { n < 1000 }
    ensures { result ≡ station ring.now n }
{
    let own = ring.own;
    let edge = ring.at_port(INTERLINK);
    let heard = edge.from(2000 + n);
    heard.plain(n, Rule::Station, own)
}

/// What comes behind as many stations as a RedBox knows, and one more.
#[tactic(auto, unfolding(crate::specs::Scenes::stations_behind))]
pub(crate) fn stations_behind(ring: &Scene) -> [Stimulus; 4]
    ensures { result ≡ stations_behind ring.now }
{
    let own = ring.own;
    let edge = ring.at_port(INTERLINK);
    let more = edge.from(2064);
    let oldest = other(own, 2000);
    let next = other(own, 2001);
    [
        ring.tagged(300, Rule::ToOldestStation, oldest, 0),
        more.plain(500, Rule::StationMore, own),
        ring.tagged(700, Rule::ToStationPushedOut, oldest, 1),
        ring.tagged(701, Rule::ToStationKept, next, 2),
    ]
}

/// A station, and frames to it one millisecond before it is forgotten, and when it is.
#[tactic(auto, unfolding(crate::specs::Scenes::last_station))]
pub(crate) fn last_station(ring: &Scene) -> [Stimulus; 3]
    ensures { result ≡ last_station ring.now }
{
    let own = ring.own;
    let edge = ring.at_port(INTERLINK);
    let heard = edge.from(2100);
    let to = heard.source();
    [
        heard.plain(0, Rule::Station, own),
        ring.tagged(59_999, Rule::ToStationRemembered, to, 0),
        ring.tagged(60_000, Rule::ToStationForgotten, to, 1),
    ]
}
