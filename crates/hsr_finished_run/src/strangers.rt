//! Whether each copy on a link is of a send.
ghost use Rattle.std.specs.Prelude.{◌≡◌, ◌<◌, ◌↔◌, IsTrue, MatchOption, length, map};
ghost use Rattle.hsr_finished_run.specs.Checked.{AreKnown, HasNoStranger, IsFirstStranger, IsKnown, IsStranger};
ghost use Rattle.hsr_finished_run.specs.Finished.{items_of, run_of};
ghost use Rattle.hsr_run_index.specs.Origin.{FitsSend, IsOurs, IsOwn, given_to, sent_at};
ghost use Rattle.std.specs.Option.{option_or};
ghost use Rattle.hsr_finished_run.specs.Shape.{IsShaped};

use crate::links_agree::rows_at;
use hsr_link::Row;
use hsr_node::{Carried, Kept, Probe, SentView, sent_view};
use hsr_run_index::{Ends, Numbers};
use hsr_tag::{EitherView, FrameView, look_at};
use hsr_topology::{End, Topology};

/// The number that the RedBox at the link of a Station gave to a send of it.
fn given_to<const C: usize>(ends: &Ends<'_>, numbers: &Numbers<'_, C>, send: Probe) -> Option<u16>
    ensures { result ≡ given_to ends.now numbers.now send }
{
    let node = send.node;
    // 0 is a Station's one port. Other nodes number their sends themselves.
    let end = ends.peer(End { node, port: 0 })?;
    numbers.given(end.node, send)
}

/// The number of a send, or else the one that a RedBox gave it.
fn number_of<const C: usize>(
    ends: &Ends<'_>,
    numbers: &Numbers<'_, C>,
    send: Probe,
    seq: Option<u16>,
) -> Option<u16>
    ensures { result ≡ option_or seq (given_to ends.now numbers.now send) }
{
    if seq.is_some() {
        return seq;
    }
    given_to(ends, numbers, send)
}

/// What the entry that a probe names sends.
fn sent_at<const C: usize>(kept: &[Kept<C>], send: Probe) -> Option<SentView<'_>>
    ensures { result ≡ sent_at kept.now send }
{
    let kept = kept.get(send.node)?;
    let entry = kept.entries().get(send.place)?;
    sent_view(kept.place(), &entry.event, &entry.outcome)
}

/// Whether two frames are one.
fn is_same_frame(a: &FrameView<'_>, b: &FrameView<'_>) -> bool
    ensures { IsTrue result ↔ (a.now ≡ b.now) }
{
    a.dst == b.dst
        && a.src == b.src
        && a.vlan == b.vlan
        && a.kind == b.kind
        && a.payload.as_slice() == b.payload.as_slice()
}

/// Whether octets say what a frame says, and have this number where they are tagged.
fn fits_send(number: Option<u16>, frame: &FrameView<'_>, octets: &[u8]) -> bool
    ensures { IsTrue result ↔ FitsSend number frame.now octets.now }
{
    let Ok(seen) = look_at(octets) else {
        return false;
    };
    match &seen.frame {
        EitherView::Plain(plain) => is_same_frame(plain, frame),
        EitherView::Tagged(tagged) => {
            let seq = tagged.seq;
            is_same_frame(&tagged.untag(), frame) && number == Some(seq)
        }
    }
}

/// Whether a copy is of the send that its probe names.
fn is_own<const C: usize>(ends: &Ends<'_>, numbers: &Numbers<'_, C>, copy: &Carried) -> bool
    ensures { IsTrue result ↔ IsOwn ends.now numbers.now copy.now }
{
    let Some(send) = copy.probe else {
        return false;
    };
    let Some(sent) = sent_at(numbers.kept(), send) else {
        return false;
    };
    let number = number_of(ends, numbers, send, sent.seq);
    fits_send(number, &sent.frame, copy.octets.as_slice())
}

/// Whether a row was put by a node, and its copy is of a send.
fn is_ours<const C: usize>(ends: &Ends<'_>, numbers: &Numbers<'_, C>, row: &Row) -> bool
    ensures { IsTrue result ↔ IsOurs ends.now numbers.now row.now }
{
    !row.injected && is_own(ends, numbers, &row.carried)
}

/// The first row of a link that no node put, or whose copy is of no send.
#[tactic(auto, using(crate::proofs::Known::known, crate::proofs::Known::stranger_at))]
fn stranger_of<const C: usize>(
    topology: &Topology,
    ends: &Ends<'_>,
    numbers: &Numbers<'_, C>,
    rows: &[Vec<Row>],
    link: usize,
) -> Option<usize>
    requires links { ends.now ≡ topology.now.links }
    requires shaped { IsShaped topology.now numbers.now rows.now }
    requires below { link < length topology.now.links }
    ensures { MatchOption result (AreKnown (run_of C topology.now numbers.now rows.now)
        (slice_index_or (map items_of rows.now) link [])
        (length (slice_index_or (map items_of rows.now) link []))) (λ i.
        IsStranger (run_of C topology.now numbers.now rows.now) (slice_index_or
        (map items_of rows.now) link []) i) }
{
    let list = rows_at(rows, link);
    for (i, row) in list.iter().enumerate() {
        if !is_ours(ends, numbers, row) {
            return Some(i);
        }
    }
    None
}

ghost use Rattle.std.specs.Prelude.{slice_index_or, []};

/// The first link with a row that no node put, or whose copy is of no send, and the row.
#[tactic(auto, unfolding(crate::specs::Checked::HasNoStranger))]
pub(crate) fn first_stranger<const C: usize>(
    topology: &Topology,
    ends: &Ends<'_>,
    numbers: &Numbers<'_, C>,
    rows: &[Vec<Row>],
) -> Option<(usize, usize)>
    requires links { ends.now ≡ topology.now.links }
    requires shaped { IsShaped topology.now numbers.now rows.now }
    ensures { MatchOption result (HasNoStranger (run_of C topology.now numbers.now rows.now)
        (length topology.now.links)) (λ f.
        IsFirstStranger (run_of C topology.now numbers.now rows.now) f.0 f.1) }
{
    for link in 0..topology.links().len() {
        if let Some(row) = stranger_of(topology, ends, numbers, rows, link) {
            return Some((link, row));
        }
    }
    None
}
