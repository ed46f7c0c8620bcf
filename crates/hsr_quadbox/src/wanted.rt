//! Which egresses of a QuadBox want an arrival.
ghost use Rattle.std.specs.Prelude.{◌≡◌};
ghost use Rattle.hsr_frame.specs.Egress.{to};
ghost use Rattle.hsr_quadbox.specs.Wanted.{others, wanted};

use hsr_frame::{Cause, Exits, FrameFault, Wants};
use hsr_tag::{EitherView, SeenView};

/// A port of a QuadBox (IEC 62439-3 clause 5): A and B are in one ring, C and D in the other.
#[derive(Clone, Copy, PartialEq, Eq)]
pub enum QuadPort {
    A,
    B,
    C,
    D,
}

/// The egresses that want what came to a port: a tagged frame goes on by the three other ports (IEC 62439-3 clause 5.3).
pub fn arrival_wants(port: QuadPort, seen: &Result<SeenView<'_>, FrameFault>) -> Wants
    ensures { result ≡ wanted port seen.now }
{
    let seen = match seen {
        Ok(seen) => seen,
        Err(fault) => return Wants::nowhere(Cause::Malformed(*fault)),
    };
    match &seen.frame {
        EitherView::Plain(_) => Wants::nowhere(Cause::Untagged),
        EitherView::Tagged(_) => tagged_wants(port),
    }
}

/// The egresses that want a tagged frame.
fn tagged_wants(port: QuadPort) -> Wants
    ensures { result ≡ to (others port) }
{
    // All three, whatever the frame is: the standard's filters between the rings are left out (RULES, RedBoxes and QuadBoxes).
    Wants::to(Exits {
        up: false,
        a: port != QuadPort::A,
        b: port != QuadPort::B,
        c: port != QuadPort::C,
        d: port != QuadPort::D,
    })
}
