//! How many octets of a link a frame takes.
ghost use Rattle.std.specs.Prelude.{◌≡◌, length, max};
ghost use Rattle.hsr_tag.specs.Seen.{classified};
ghost use Rattle.hsr_wire.specs.Octets.{is_tagged, least_octets, wire_octets};

use hsr_tag::{EitherView, look_at};

/// A least frame without its check sequence (IEEE 802.3 clause 4), and the tag's six octets behind such a frame's padding.
const LEAST_PLAIN: u64 = 60;

const LEAST_TAGGED: u64 = 66;

/// What stands before and behind a frame: a preamble of 8 octets, a check sequence of 4 and a gap of 12 (IEEE 802.3 clauses 3
/// and 4).
const AROUND: u64 = 24;

/// Whether octets are a frame with an HSR tag.
fn is_tagged(octets: &[u8]) -> bool
    ensures { result ≡ is_tagged (classified octets.now) }
{
    let Ok(seen) = look_at(octets) else {
        return false;
    };
    match &seen.frame {
        EitherView::Plain(_) => false,
        EitherView::Tagged(_) => true,
    }
}

/// The least octets of a frame without its check sequence.
fn least_octets(tagged: bool) -> u64
    ensures { result ≡ least_octets tagged }
{
    if tagged { LEAST_TAGGED } else { LEAST_PLAIN }
}

/// How many octets a frame has on a link, padding and all.
#[tactic(auto, using(crate::proofs::Padding::not_padded))]
fn padded_octets(octets: &[u8]) -> u64
    ensures { result ≡ max (least_octets (is_tagged (classified octets.now))) (length octets.now) }
{
    let count = octets.len() as u64;
    // So many octets need no padding, tagged or not: only a shorter frame is looked at.
    if count >= LEAST_TAGGED {
        return count;
    }
    least_octets(is_tagged(octets)).max(count)
}

/// How many octets of a link a frame takes.
pub fn wire_octets(octets: &[u8]) -> u64
    ensures { result ≡ wire_octets octets.now }
{
    // Frames stand here as they were sent, and a node pads them where they are short.
    padded_octets(octets) + AROUND
}
