//! Where the occasions of a plan take place.
use crate::publication::Publication;
use hsr_plan_network::Node;
use hsr_plan_text::{Moves, Stream};
use hsr_topology::End;
use std::marker::Model;

/// Where the occasions of a plan take place, how copies move there, how many of them wait in each direction of a link, what the
/// streams publish, and the moment 0 in seconds since 1970.
#[derive(Drop)]
pub(crate) struct Setting<'a> {
    pub moves: Moves,
    pub capacity: usize,
    pub nodes: &'a [Node],
    pub links: &'a [[End; 2]],
    pub streams: &'a [Stream],
    pub publications: &'a [Publication],
    pub epoch: u64,
}

impl<'a> Model for Setting<'a> {
    ghost use Rattle.hsr_plan_schedule.specs.Setting.{Setting};

    ghost Value = { Setting };

    ghost view = { λ s. record { moves = s.moves; capacity = s.capacity; nodes = s.nodes.now; links = s.links.now; streams = s.streams.now; publications = s.publications.now; epoch = s.epoch } };
}
