//! Where a port sends.
ghost use Rattle.std.specs.Prelude.{◌≡◌, map, option_map, ◌⊎◌, Ok, Err, OnOk, IfErr};
ghost use Rattle.hsr_world_laws.specs.Spans.{spot_from};
ghost use Rattle.hsr_world_links.specs.Views.{span_view, put_at_spot, spot_view};
ghost use Rattle.hsr_world_steps.specs.declared.step.WorldFault.TheVariants.{NoMemory};

use crate::span::{Span, put_at};
use hsr_link::Dir;
use hsr_topology::End;
use hsr_world_steps::WorldFault;

/// A direction of a link, by the number of the link.
#[derive(Clone, Copy)]
pub struct Spot {
    pub link: usize,
    pub dir: Dir,
}

/// Where the port at an end sends.
pub(crate) fn find_spot(spans: &[Span], end: End) -> Option<Spot>
    ensures { option_map spot_view result ≡ spot_from end 0 (map span_view spans.now) }
{
    for (link, span) in spans.iter().enumerate() {
        if span.forth.from == end {
            return Some(Spot {
                link,
                dir: Dir::Forth,
            });
        }
        if span.back.from == end {
            return Some(Spot {
                link,
                dir: Dir::Back,
            });
        }
    }
    None
}

/// The oldest copy of the outbox of a port that sends there goes onto its link. `Nothing` where it sends nowhere or its outbox
/// is empty, `NoMemory` if allocation fails; then nothing changes.
pub fn put_at_spot(spans: &mut [Span], spot: Option<Spot>) -> Result<(), WorldFault>
    ensures ok { OnOk result (put_at_spot (map span_view spans.old) (option_map spot_view spot)
        ≡ Ok (map span_view spans.new)) }
    ensures err { IfErr result (λ f. (map span_view spans.new ≡ map span_view spans.old)
        × ((f ≡ NoMemory) ⊎ (put_at_spot (map span_view spans.old) (option_map spot_view spot)
        ≡ Err f))) }
{
    match spot {
        Some(spot) if spot.link < spans.len() => put_at(spans, spot.link, spot.dir),
        _ => Err(WorldFault::Nothing),
    }
}
