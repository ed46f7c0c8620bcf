//! The part of a plan that a doubt is about.
ghost use Rattle.std.specs.Prelude.{◌≡◌, not, option_map, position, slice_get};
ghost use Rattle.hsr_network_laws.specs.Network.{is_in_h_or_u};
ghost use Rattle.hsr_plan_certify.specs.Parts.{first_end, first_still, part_by, part_if, part_of, part_of_link, part_of_step};

use crate::origin::{Cause, Origin, origin_of};
use hsr_certify::Doubt;
use hsr_plan_network::Node;
use hsr_plan_schedule::Meaning;
use hsr_routes::is_in_h_or_u;
use hsr_topology::End;

/// A part of a plan, by its number: a stream, a node, or the mode of a node.
#[derive(Clone, Copy, PartialEq, Eq)]
pub(crate) enum Part {
    Stream(usize),
    Node(usize),
    Mode(usize),
}

/// The first node in mode N.
pub(crate) fn first_still(nodes: &[Node]) -> Option<usize>
    ensures { result ≡ first_still nodes.now }
{
    nodes.iter().position(|node| !is_in_h_or_u(&node.place))
}

/// The part from which something is sent: supervision comes from its node.
fn part_by(origin: Origin) -> Part
    ensures { result ≡ part_by origin }
{
    match origin.cause {
        Cause::Stream(number) => Part::Stream(number),
        Cause::Life => Part::Node(origin.node),
    }
}

/// The part from which the order at a step comes.
fn part_of_step(meaning: &Meaning, step: usize) -> Option<Part>
    ensures { result ≡ part_of_step meaning.now step }
{
    match origin_of(meaning, step) {
        Some(origin) => Some(part_by(origin)),
        None => None,
    }
}

/// The node at the first end of a link.
fn first_end(link: &[End; 2]) -> Option<Part>
    ensures { result ≡ first_end link.now }
{
    let [first, _] = *link;
    Some(Part::Node(first.node))
}

/// The node at the first end of the link of that number.
fn part_of_link(links: &[[End; 2]], number: usize) -> Option<Part>
    ensures { result ≡ part_of_link links.now number }
{
    match links.get(number) {
        Some(link) => first_end(link),
        None => None,
    }
}

/// The part of a plan that a doubt is about, if it is about one.
pub(crate) fn part_of(meaning: &Meaning, doubt: Doubt) -> Option<Part>
    ensures { result ≡ part_of meaning.now doubt }
{
    match doubt {
        Doubt::Empty | Doubt::SameAddress => None,
        Doubt::Mode => match first_still(meaning.nodes.as_slice()) {
            Some(node) => Some(Part::Mode(node)),
            None => None,
        },
        Doubt::Side { link } => part_of_link(meaning.topology.links(), link),
        Doubt::Fine { step }
        | Doubt::Open { step }
        | Doubt::Refused { step }
        | Doubt::Back { step }
        | Doubt::Late { step }
        | Doubt::Crowded { step }
        | Doubt::Wrapped { step }
        | Doubt::Uncovered { step }
        | Doubt::Queue { step }
        | Doubt::CutOff { step, .. } => part_of_step(meaning, step),
    }
}
