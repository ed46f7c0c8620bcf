//! What goes up: the plain frame of what came, where it stands.
ghost use Rattle.std.specs.Prelude.{◌≡◌, ◌++◌, option_map};
ghost use Rattle.hsr_node.specs.Copies.{plain_octets, up_octets};

use hsr_node::{Event, Outcome};
use hsr_tag::{EitherView, look_at};

/// The octets of the plain frame of what came, in two pieces of it. `None` where no frame came.
fn plain_pieces(octets: &[u8]) -> Option<(&[u8], &[u8])>
    ensures { option_map (λ pieces. pieces.0.now ++ pieces.1.now) result
        ≡ plain_octets octets.now }
{
    let Ok(seen) = look_at(octets) else {
        return None;
    };
    match seen.frame {
        EitherView::Plain(_) => Some((octets, b"")),
        EitherView::Tagged(frame) => Some(frame.untagged_pieces(octets)),
    }
}

/// The octets of the plain frame that goes up after an event with this outcome, if one does, in two pieces of what came.
#[tactic(auto, unfolding(hsr_node::specs::Copies::up_octets))]
pub(crate) fn up_pieces<'a>(event: &'a Event, outcome: &Outcome) -> Option<(&'a [u8], &'a [u8])>
    ensures { option_map (λ pieces. pieces.0.now ++ pieces.1.now) result
        ≡ up_octets event.now outcome.now }
{
    let Event::Arrive { port: _, carried } = event else {
        return None;
    };
    let Outcome::Judged { up: true, .. } = outcome else {
        return None;
    };
    // An outcome holds no frame, so what goes up is read anew from the octets that came.
    plain_pieces(carried.octets.as_slice())
}
