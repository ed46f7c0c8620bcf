//! What holds of each closed run of a network, whatever the nodes, threads and copies did in between.
ghost use Rattle.hsr_network_laws.specs.Delivered.{OnceInNetwork};
ghost use Rattle.hsr_network_laws.specs.Late.{LateDecides};
ghost use Rattle.hsr_network_laws.specs.Lives.{LivesStay};
ghost use Rattle.hsr_network_laws.specs.Rings.{RingIsCrossed};
ghost use Rattle.hsr_network_laws.specs.Stations.{OnceToStation};

/// In a closed run of a network of DANHs and RedBoxes in modes H and U, QuadBoxes and Stations, with nothing forgotten that was
/// needed and nothing mistaken, and where each RedBox numbers a frame of its Station once and before it hears of it, each
/// node that a frame is for took it up just once if some channel to it lost no copy of the frame, and nothing else went up
/// (IEC 62439-3 clause 5.3). A frame to a Station's own address is promised to come to nobody else, and not twice: whether it
/// comes depends on what the RedBox of the Station has heard.
pub fn once_in_network()
    ensures { OnceInNetwork }
{}

/// In a closed run of a network, with nothing forgotten that was needed and nothing mistaken, and where each RedBox numbers a
/// frame of its Station once and before it hears of it, a Station took a single frame to it up just once if some channel lost no
/// copy of it to the node that the Station is joined with, and from there on, and if that node, where it is a RedBox, knew the
/// address each time that it handled the frame.
pub fn once_to_station()
    ensures { OnceToStation }
{}

/// In a closed run of a network each RedBox numbers a frame of its Station once and before it hears of it, just where no
/// frame gets its number after its send was noted there.
pub fn late_decides()
    ensures { LateDecides }
{}

/// In a closed run of a network no Station takes up a supervision frame, but for one that a Station sent which is joined with a
/// Station (IEC 62439-3 clause 5.7).
pub fn lives_stay()
    ensures { LivesStay }
{}

/// A closed run of a ring of DANHs in modes H and U, with losses on at most one link, is one of a network in which each send
/// reaches all nodes that it is for.
pub fn ring_is_crossed()
    ensures { RingIsCrossed }
{}
