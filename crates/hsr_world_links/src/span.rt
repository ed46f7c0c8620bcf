//! A link, with what the ports at its ends keep.
ghost use Rattle.std.specs.Prelude.{◌≡◌, ◌<◌, ◌⊎◌, Ok, Err, OnOk, IfErr, length, map};
ghost use Rattle.hsr_world_laws.specs.Spans.{lane_of};
ghost use Rattle.hsr_world_links.specs.Views.{cut_span, inject_span, lane_view, span_view, mend_span, on_span, put_lane, put_span, put_spans, take_lane, take_span, take_spans};
ghost use Rattle.hsr_world_steps.specs.declared.step.WorldFault.TheVariants.{NoMemory};

use crate::lane::Lane;
use hsr_link::{Dir, Link};
use hsr_node::{Carried, Octets};
use hsr_world_steps::WorldFault;

/// A link and its two directions, each with what its ports keep.
#[derive(Drop)]
pub struct Span {
    pub link: Link,
    pub forth: Lane,
    pub back: Lane,
}

/// Mends the link of this number.
pub fn mend_at(spans: &mut [Span], link: usize)
    requires { link < length spans.old }
    ensures { map span_view spans.new ≡ on_span mend_span link (map span_view spans.old) }
{
    spans[link].link.mend();
}

/// Cuts the link of this number: the copies that wait on it are lost.
pub fn cut_at(spans: &mut [Span], link: usize)
    requires { link < length spans.old }
    ensures { map span_view spans.new ≡ on_span cut_span link (map span_view spans.old) }
{
    // How many were lost isn't told here: each has a row that says so.
    let _lost = spans[link].link.cut();
}

/// Puts octets that no port sent onto the link of this number, in this direction. `NoMemory` if allocation fails;
/// then nothing changes.
pub fn inject_at(
    spans: &mut [Span],
    link: usize,
    dir: Dir,
    octets: &Octets,
) -> Result<(), WorldFault>
    requires { link < length spans.old }
    ensures ok { OnOk result (map span_view spans.new
        ≡ on_span (inject_span dir octets.now) link (map span_view spans.old)) }
    ensures err { IfErr result (λ f. (map span_view spans.new ≡ map span_view spans.old)
        × (f ≡ NoMemory)) }
{
    // A copy, since the step is borrowed and the row keeps its octets.
    let Ok(octets) = octets.clone() else {
        return Err(WorldFault::NoMemory);
    };
    let carried = Carried {
        // No port sent it, so it is of no send.
        probe: None,
        octets,
    };
    match spans[link].link.inject(dir, carried) {
        // A copy that is lost at once is no refusal: its row tells its fate.
        Ok(_fate) => Ok(()),
        Err(_refused) => Err(WorldFault::NoMemory),
    }
}

/// The oldest copy that waits in a direction comes into the hand.
// Inline, since a call would pass the copy through memory.
#[inline(always)]
fn take_into(link: &mut Link, lane: &mut Lane, dir: Dir) -> Result<(), WorldFault>
    ensures ok { OnOk result (take_lane dir link.old (lane_view lane.old)
        ≡ Ok (link.new, lane_view lane.new)) }
    ensures err { IfErr result (λ f. (link.new ≡ link.old)
        × (lane_view lane.new ≡ lane_view lane.old)
        × (take_lane dir link.old (lane_view lane.old) ≡ Err f)) }
{
    // `Busy` comes before `Nothing`, and before the queue is touched, so that a refusal changes nothing.
    if lane.hand.is_some() {
        return Err(WorldFault::Busy);
    }
    let Some(copy) = link.take(dir) else {
        return Err(WorldFault::Nothing);
    };
    lane.hand = Some(copy);
    Ok(())
}

/// The oldest copy that waits in a direction of a link comes into the hand there. `Busy`, then `Nothing`: nothing changes.
fn take(span: &mut Span, dir: Dir) -> Result<(), WorldFault>
    ensures ok { OnOk result (take_span dir (span_view span.old) ≡ Ok (span_view span.new)) }
    ensures err { IfErr result (λ f. (span_view span.new ≡ span_view span.old)
        × (take_span dir (span_view span.old) ≡ Err f)) }
{
    match dir {
        Dir::Forth => take_into(&mut span.link, &mut span.forth, Dir::Forth),
        Dir::Back => take_into(&mut span.link, &mut span.back, Dir::Back),
    }
}

/// The oldest copy that waits in a direction of a link comes into the hand of the port that receives there. `Busy` where that
/// hand isn't empty, `Nothing` where no copy waits; then nothing changes.
pub fn take_at(spans: &mut [Span], link: usize, dir: Dir) -> Result<(), WorldFault>
    requires { link < length spans.old }
    ensures ok { OnOk result (take_spans dir link (map span_view spans.old)
        ≡ Ok (map span_view spans.new)) }
    ensures err { IfErr result (λ f. (map span_view spans.new ≡ map span_view spans.old)
        × (take_spans dir link (map span_view spans.old) ≡ Err f)) }
{
    take(&mut spans[link], dir)
}

/// The oldest copy of the outbox goes onto the link.
// Inline, since a call would pass the copy through memory.
#[inline(always)]
fn put_from(link: &mut Link, lane: &mut Lane, dir: Dir) -> Result<(), WorldFault>
    ensures ok { OnOk result (put_lane dir link.old (lane_view lane.old)
        ≡ Ok (link.new, lane_view lane.new)) }
    ensures err { IfErr result (λ f. (link.new ≡ link.old)
        × (lane_view lane.new ≡ lane_view lane.old)
        × ((f ≡ NoMemory) ⊎ (put_lane dir link.old (lane_view lane.old) ≡ Err f))) }
{
    // The copy is moved out and not copied; if allocation fails it goes back to the front, into the place that it left.
    let Some(copy) = lane.outbox.pop_front() else {
        return Err(WorldFault::Nothing);
    };
    match link.put(dir, copy) {
        Ok(_fate) => Ok(()),
        Err((copy, _refused)) => {
            // Its own place is free again.
            let Ok(()) = lane.outbox.push_front(copy) else {
                unreachable!()
            };
            Err(WorldFault::NoMemory)
        }
    }
}

/// The oldest copy of the outbox of a direction goes onto the link. `Nothing`, or `NoMemory`: nothing changes.
fn put(span: &mut Span, dir: Dir) -> Result<(), WorldFault>
    ensures ok { OnOk result (put_span dir (span_view span.old) ≡ Ok (span_view span.new)) }
    ensures err { IfErr result (λ f. (span_view span.new ≡ span_view span.old)
        × ((f ≡ NoMemory) ⊎ (put_span dir (span_view span.old) ≡ Err f))) }
{
    match dir {
        Dir::Forth => put_from(&mut span.link, &mut span.forth, Dir::Forth),
        Dir::Back => put_from(&mut span.link, &mut span.back, Dir::Back),
    }
}

/// The oldest copy of the outbox of a direction goes onto its link. `Nothing` where the outbox is empty, `NoMemory` if
/// allocation fails; then nothing changes.
pub(crate) fn put_at(spans: &mut [Span], link: usize, dir: Dir) -> Result<(), WorldFault>
    requires { link < length spans.old }
    ensures ok { OnOk result (put_spans dir link (map span_view spans.old)
        ≡ Ok (map span_view spans.new)) }
    ensures err { IfErr result (λ f. (map span_view spans.new ≡ map span_view spans.old)
        × ((f ≡ NoMemory) ⊎ (put_spans dir link (map span_view spans.old) ≡ Err f))) }
{
    put(&mut spans[link], dir)
}
