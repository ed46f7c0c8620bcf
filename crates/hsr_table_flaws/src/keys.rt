//! The sources and numbers of an entry.
ghost use Rattle.std.specs.Prelude.{◌≡◌};
ghost use Rattle.hsr_node.specs.Copies.{ring_address};
ghost use Rattle.hsr_node.specs.Record.{key_handled, key_in, number_in, own_key};
ghost use Rattle.hsr_table_flaws.specs.Looked.{came_in};

use hsr_duptable::Key;
use hsr_frame::FrameFault;
use hsr_node::{Entry, Event, Outcome, Place, ring_address};
use hsr_tag::{EitherView, SeenView, look_at};

/// The source and number of what came, with the number that it got where it had none.
fn key_in(seen: &Result<SeenView<'_>, FrameFault>, seq: Option<u16>) -> Option<Key>
    ensures { result ≡ key_in seen.now seq }
{
    let Ok(seen) = seen else {
        return None;
    };
    match &seen.frame {
        EitherView::Tagged(frame) => Some(Key {
            src: frame.src,
            seq: frame.seq,
        }),
        EitherView::Plain(frame) => {
            let seq = seq?;
            Some(Key {
                src: frame.src,
                seq,
            })
        }
    }
}

/// The source and number of what comes by an event.
pub(crate) fn came_in(event: &Event) -> Option<Key>
    ensures { result ≡ came_in event.now }
{
    match event {
        Event::Arrive { carried, .. } => key_in(&look_at(carried.octets.as_slice()), None),
        _ => None,
    }
}

/// A node's own source, and the number that a frame of it got.
fn own_key(place: &Place, outcome: &Outcome) -> Option<Key>
    ensures { result ≡ own_key (ring_address place.now) (number_in outcome.now) }
{
    let src = ring_address(place)?;
    let seq = outcome.number()?;
    Some(Key { src, seq })
}

/// The source and number under which an entry is noted.
pub(crate) fn key_handled(place: &Place, x: &Entry) -> Option<Key>
    ensures { result ≡ key_handled place.now x.now.event x.now.outcome }
{
    match (&x.event, &x.outcome) {
        (Event::Arrive { carried, .. }, Outcome::Judged { seq, .. }) => {
            key_in(&look_at(carried.octets.as_slice()), *seq)
        }
        _ => own_key(place, &x.outcome),
    }
}
