//! Which channels a frame takes on.
ghost use Rattle.std.specs.Prelude.{◌≡◌};
ghost use Rattle.hsr_network_laws.specs.Channels.{keeps_own, lets_out, passes_on};
ghost use Rattle.hsr_routes.specs.Routes.{heading};

use crate::heading::Heading;
use hsr_frame::{Mode, is_supervision};
use hsr_node::Place;

/// Whether a node keeps to itself what it alone is to have, in a mode.
fn keeps_own(mode: Mode) -> bool
    ensures { result ≡ keeps_own mode }
{
    match mode {
        Mode::H | Mode::N => true,
        Mode::U => false,
    }
}

/// Whether a node of this kind, by its number, passes on a frame that came by a port (IEC 62439-3 clause 5.3).
pub fn passes_on(frame: &Heading, node: usize, place: &Place, port: u8) -> bool
    ensures { result ≡ passes_on frame.now.sender (heading frame.now.dst frame.now.kind) node place.now port }
{
    match place {
        Place::Danh { mac, mode } => {
            node != frame.sender && !(keeps_own(*mode) && *mac == frame.dst)
        }
        Place::RedBox { mac, mode } => {
            // Port 2 is the interlink: what came from there to the box's own address it keeps in mode U too.
            node != frame.sender && !((keeps_own(*mode) || port == 2) && *mac == frame.dst)
        }
        Place::QuadBox => true,
        Place::Station { .. } => false,
    }
}

/// Whether a node of this kind lets a frame out by a port.
pub fn lets_out(frame: &Heading, place: &Place, port: u8) -> bool
    ensures { result ≡ lets_out (heading frame.now.dst frame.now.kind) place.now port }
{
    match place {
        Place::RedBox { .. } => {
            // An interlink lets out only frames to groups, and no supervision (RULES, Networks).
            port != 2 || (frame.dst.is_group() && !is_supervision(frame.dst, frame.kind))
        }
        Place::Danh { .. } | Place::QuadBox | Place::Station { .. } => true,
    }
}
