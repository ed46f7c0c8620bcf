//! The key and the hearing of what came to a port.
ghost use Rattle.std.specs.Prelude.{◌≡◌, ◌≤◌};
ghost use Rattle.hsr_forwarding.specs.Arrival.{heard_from, heard_of, key_in};

use hsr_duptable::Key;
use hsr_frame::{FrameFault, Mac, RingPort, is_supervision};
use hsr_tables::{NodeTable, ProxyTable};
use hsr_tag::{EitherView, SeenView};

/// The source and number of a tagged frame. Of what is none there is nothing to look for in a duplicate table.
// Inline, so that the frame that was read needn't stand in memory.
#[inline(always)]
pub fn key_in(seen: &Result<SeenView<'_>, FrameFault>) -> Option<Key>
    ensures { result ≡ key_in seen.now }
{
    let Ok(seen) = seen else {
        return None;
    };
    match &seen.frame {
        EitherView::Tagged(frame) => Some(Key {
            src: frame.src,
            seq: frame.seq,
        }),
        EitherView::Plain(_) => None,
    }
}

/// Hears a tagged supervision frame of another node on a ring port, at a moment in microseconds, and tells whether what
/// it says could be read. A duplicate is heard too: it tells that its ring port is reached (IEC 62439-3 clause 5.7).
// Inline, so that the frame that was read needn't stand in memory.
#[inline(always)]
pub fn hear(
    nodes: &mut NodeTable,
    own: Mac,
    port: RingPort,
    seen: &Result<SeenView<'_>, FrameFault>,
    now: u64,
) -> bool
    requires { nodes.old.last ≤ now }
    ensures { (result, nodes.new) ≡ heard_of own nodes.old port seen.now now }
{
    let Ok(seen) = seen else {
        // What is no frame has no payload that could be unreadable.
        return true;
    };
    match &seen.frame {
        EitherView::Tagged(frame) if is_supervision(frame.dst, frame.kind) && frame.src != own => {
            nodes.listen(frame.payload.as_slice(), port, now)
        }
        _ => true,
    }
}

/// Hears the source of a plain frame on an interlink, but for the node's own address, at a moment in microseconds (IEC
/// 62439-3 clause 5.3).
pub fn learn(stations: &mut ProxyTable, own: Mac, seen: &Result<SeenView<'_>, FrameFault>, now: u64)
    requires { stations.old.last ≤ now }
    ensures heard { stations.new ≡ heard_from own stations.old seen.now now }
    ensures later { stations.new.last ≤ now }
{
    let Ok(seen) = seen else {
        return;
    };
    match &seen.frame {
        EitherView::Plain(frame) if frame.src != own => stations.learn(frame.src, now),
        _ => {}
    }
}
