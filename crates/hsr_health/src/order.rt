//! Which reason comes first.
ghost use Rattle.std.specs.Prelude.{◌≡◌, ◌*◌, ◌++◌, ◌==◌, filter, nat_le, IfOk, OnOk};
ghost use Rattle.hsr_health.specs.Order.{began_in, begins_in, in_order, rank_of, restart_covers, silence_covers, wrong_lanes};

use crate::broken::{Span, is_thin};
use crate::counts::Counts;
use crate::reason::{Reason, Word};
use hsr_frame::NoMemory;
use hsr_heard::Silence;
use hsr_number_runs::Restart;
use std::alloc::Global;

/// What decides the order of reasons, beside the table.
#[derive(Clone, Copy)]
pub(crate) struct Facts {
    /// Most copies have another lane than their direction.
    pub(crate) lane_is_common: bool,
    /// A break began while supervision about an address was silent, or while a device was off.
    pub(crate) silence_covers: bool,
    pub(crate) restart_covers: bool,
    /// Group frames of a single source came one way alone.
    pub(crate) one_source: bool,
}

/// Whether a break began in a time. Where frames were lost here and there, nothing is broken.
fn begins_in(span: &Span, from: u64, until: u64) -> bool
    ensures { result ≡ begins_in from until span.now }
{
    !is_thin(span) && from <= span.first && span.first <= until
}

/// Whether one of the breaks began in a time.
pub(crate) fn began_in(spans: &[Span], from: u64, until: u64) -> bool
    ensures { result ≡ began_in spans.now from until }
{
    for span in spans {
        if begins_in(span, from, until) {
            return true;
        }
    }
    false
}

/// Whether a break began in one of the silences.
pub(crate) fn silence_covers(spans: &[Span], silences: &[Silence]) -> bool
    ensures { result ≡ silence_covers spans.now silences.now }
{
    for silence in silences {
        if began_in(spans, silence.from, silence.until) {
            return true;
        }
    }
    false
}

/// Whether a break began before numbers began anew, since the last one before.
pub(crate) fn restart_covers(spans: &[Span], restarts: &[Restart]) -> bool
    ensures { result ≡ restart_covers spans.now restarts.now }
{
    for restart in restarts {
        if began_in(spans, restart.since, restart.at) {
            return true;
        }
    }
    false
}

/// The rank of a word: those of the capture, those of the tap, sources that are absent, a silence or a restart that covers a break, and
/// then the order of the table.
fn rank_of(word: Word, facts: Facts) -> u8
    ensures { result ≡ rank_of word facts }
{
    match word {
        Word::Empty => 0,
        Word::Unjudged => 1,
        Word::Dropped => 2,
        Word::OneSided => 3,
        Word::Lane => { if facts.lane_is_common { 4 } else { 23 } }
        Word::Absent => 5,
        Word::Silent => { if facts.silence_covers { 6 } else { 18 } }
        Word::Restart => { if facts.restart_covers { 7 } else { 16 } }
        Word::Storm => 8,
        Word::Again => 9,
        Word::Clash => 10,
        Word::Late => 11,
        Word::OneWay => { if facts.one_source { 12 } else { 15 } }
        Word::Lost => 13,
        Word::Overtaken => 14,
        Word::Crowded => 17,
        Word::Life => 19,
        Word::Malformed => 20,
        Word::Untagged => 21,
        Word::Size => 22,
    }
}

/// Puts the reasons of one rank behind others.
fn put_ranked(
    sorted: &mut Vec<Reason>,
    reasons: &[Reason],
    facts: Facts,
    rank: u8,
) -> Result<(), NoMemory>
    ensures { OnOk result (sorted.new.items ≡ sorted.old.items ++ filter (λ reason. rank_of reason.word facts == rank) reasons.now) }
{
    for reason in reasons {
        if rank_of(reason.word, facts) == rank {
            sorted.push(*reason)?;
        }
    }
    Ok(())
}

/// Reasons in the order in which they are told.
pub(crate) fn in_order(
    alloc: Global,
    reasons: &[Reason],
    facts: Facts,
) -> Result<Vec<Reason>, NoMemory>
    ensures { IfOk result (λ sorted. sorted.items ≡ in_order facts reasons.now) }
{
    let mut sorted = Vec::new(alloc);
    for rank in 0..24u8 {
        put_ranked(&mut sorted, reasons, facts, rank)?;
    }
    Ok(sorted)
}

/// Whether a tenth of all copies or more have another lane than their direction: where both lanes are on one interface that often, it
/// has both directions.
pub(crate) fn lane_is_common(counts: &[Counts], copies: usize) -> bool
    ensures { result ≡ nat_le copies (wrong_lanes counts.now * 10) }
{
    let mut lane = 0u64;
    for own in counts {
        lane = lane.saturating_add(own.lane);
    }
    copies as u64 <= lane.saturating_mul(10)
}
