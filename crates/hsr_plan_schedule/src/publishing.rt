//! By what receivers know the streams of a plan.
ghost use Rattle.std.specs.Prelude.{◌≡◌, ◌+◌, ◌++◌, ◌-◌, [], codes, nat_le, not, length, unwrap_or, IfOk};
ghost use Rattle.std.specs.Fmt.{decimal};
ghost use Rattle.std.specs.List.{list_any};
ghost use Rattle.hsr_plan_text.specs.Fallible.{Gives, GivesAt, at_spot};
ghost use Rattle.hsr_plan_text.specs.declared.fault.Spot.TheVariants as spot;
ghost use Rattle.hsr_plan_text.specs.declared.fault.Refusal.TheVariants.{AppidTaken as IsTaken};
ghost use Rattle.hsr_plan_text.specs.declared.fault.What.TheVariants.{NoMemory as NoRoom};
ghost use Rattle.hsr_plan_network.specs.Checks.{each_passes, unless_held};
ghost use Rattle.hsr_plan_schedule.specs.Moments.{most_sent};
ghost use Rattle.hsr_plan_schedule.specs.Payloads.{start_at};
ghost use Rattle.hsr_plan_schedule.specs.Naming.{count_of, none, stream_name, with_more};
ghost use Rattle.hsr_plan_schedule.specs.Publishing.{appids_of, block_word, counted_with, fits, fits_in, grown, is_enough, is_own, limit, live, longest_gap, may_publish, meets, publication, publications, publications_from, published, shortest, usual_appid, usual_limit};

use crate::naming::{Counts, added, count_of, stream_name, with_more};
use crate::occasions::at_spot;
use crate::payloads::{payload, start_at};
use crate::publication::{Publication, Turn};
use crate::sends::{BEHIND, earlier, most_sent, next_gap};
use hsr_frame::NoMemory;
use hsr_plan_text::{Framing, Kind, Pace, PlanFault, Refusal, Spot, Stream, Timing, What, Word};
use hsr_text::{put, put_number};
use std::alloc::Global;

/// The most octets of a payload.
const PAYLOAD_LIMIT: usize = 1500;

/// The longest gap that a plan may name, in microseconds.
const GAP_LIMIT: u64 = 1 << 40;

/// How many streams there are, and how many senders they have.
#[derive(Clone, Copy, PartialEq, Eq)]
pub(crate) struct Counted {
    streams: Counts,
    senders: Counts,
}

/// What a stream publishes, and what is counted with it.
#[derive(Drop)]
struct NextPublication {
    publication: Publication,
    counted: Counted,
}

// ---- how long a frame of GOOSE is to live

/// The longest gap before one of `more` frames, behind a frame at a moment with this gap before it.
#[tactic(auto, using(crate::proofs::Growing::over, crate::proofs::Growing::on, crate::proofs::Growing::stop))]
fn grown(more: usize, at: u64, gap: u64, pace: Pace, until: u64) -> u64
    ensures { result ≡ grown more at gap pace until }
{
    if more == 0 {
        return gap;
    }
    let next = next_gap(pace, gap);
    match at.checked_add(next) {
        Some(later) if later < until => grown(more - 1, later, next, pace, until),
        _ => gap,
    }
}

/// The longest gap of a pace without a bound, from the first start on.
#[tactic(auto, using(crate::proofs::Growing::past))]
fn grown_from(timing: &Timing, every: u64, pace: Pace, until: u64) -> u64
    ensures { result ≡ grown (most_sent timing.now.count - 2) (start_at timing.now 0 + every) every pace until }
{
    let more = (most_sent(timing.count) as usize).saturating_sub(2);
    match start_at(timing, 0).checked_add(every) {
        Some(at) => grown(more, at, every, pace, until),
        None => every,
    }
}

/// The longest gap of a stream.
fn longest_gap(until: u64, timing: &Timing) -> u64
    ensures { result ≡ longest_gap until timing.now timing.now.pace }
{
    match timing.pace {
        Pace::Gaps { every, grow, most } => {
            if grow <= 1 {
                every.min(most)
            } else if most < GAP_LIMIT {
                most
            } else {
                grown_from(timing, every, timing.pace, until)
            }
        }
        // A stream of samples is no GOOSE.
        Pace::Samples(_) => 0,
    }
}

/// timeAllowedtoLive of a stream, in milliseconds.
fn live(until: Option<u64>, timing: &Timing) -> Result<u64, NoMemory>
    ensures { IfOk result (λ n. n ≡ live until timing.now) }
{
    let until = earlier(until, timing.until).unwrap_or(BEHIND);
    let gap = longest_gap(until, timing);
    // no plan that is read comes near it
    if gap > 1 << 60 {
        return Err(NoMemory);
    }
    Ok((2 * gap + 999) / 1000)
}

// ---- names and numbers

/// The word for a kind in the names of control blocks.
fn block_word(kind: Kind) -> &'static str
    ensures { result.now ≡ block_word kind }
{
    match kind {
        Kind::Goose => "gcb",
        Kind::SampledValues => "msvcb",
        Kind::Number(_) => "other",
    }
}

/// The name of a stream's control block.
fn control_block(alloc: Global, stream: &Stream, streams: Counts) -> Result<Word, NoMemory>
    ensures { IfOk result (λ w. w ≡ unwrap_or stream.now.framing.naming.control_block
        (block_word stream.now.framing.kind ++ decimal (count_of stream.now.framing.kind streams + 1))) }
{
    let kind = stream.framing.kind;
    match &stream.framing.naming.control_block {
        Some(name) => name.copy(alloc),
        None => {
            let number = added(count_of(kind, streams), 1)?;
            let mut name = Vec::new(alloc);
            put(&mut name, block_word(kind))?;
            put_number(&mut name, number)?;
            Word::of(alloc, name.as_slice())
        }
    }
}

/// The name of a stream's data set.
fn data_set(alloc: Global, stream: &Stream, streams: Counts) -> Result<Word, NoMemory>
    ensures { IfOk result (λ w. w ≡ unwrap_or stream.now.framing.naming.data_set
        (codes "ds_" ++ stream_name stream.now.framing.kind (with_more stream.now.framing.kind 1 streams))) }
{
    let kind = stream.framing.kind;
    match &stream.framing.naming.data_set {
        Some(name) => name.copy(alloc),
        None => {
            let stream = stream_name(alloc, kind, with_more(kind, 1, streams)?)?;
            let mut name = Vec::new(alloc);
            put(&mut name, "ds_")?;
            name.extend_from_slice(stream.as_bytes())?;
            Word::of(alloc, name.as_slice())
        }
    }
}

/// The id of a stream, where it is said.
fn id(alloc: Global, stream: &Stream) -> Result<Option<Word>, NoMemory>
    ensures { IfOk result (λ w. w ≡ stream.now.framing.naming.id) }
{
    match &stream.framing.naming.id {
        Some(id) => {
            let id = id.copy(alloc)?;
            Ok(Some(id))
        }
        None => Ok(None),
    }
}

/// The APPID of a stream's first sender where none is said, behind so many senders.
fn usual_appid(kind: Kind, senders: Counts) -> Result<u64, NoMemory>
    ensures { IfOk result (λ n. n ≡ usual_appid kind senders) }
{
    match kind {
        // The ranges of IEC 61850-8-1 and 9-2: by the type of a frame and the upper two bits of its APPID a device filters.
        Kind::Goose => added(1, count_of(kind, senders)),
        Kind::SampledValues => added(0x4000, count_of(kind, senders)),
        Kind::Number(_) => Ok(0),
    }
}

/// The APPID of a stream's first sender.
fn first_appid(stream: &Stream, senders: Counts) -> Result<u64, NoMemory>
    ensures { IfOk result (λ n. n ≡ unwrap_or stream.now.framing.naming.appid
        (usual_appid stream.now.framing.kind senders)) }
{
    match stream.framing.naming.appid {
        Some(appid) => Ok(appid),
        None => usual_appid(stream.framing.kind, senders),
    }
}

/// How many APPIDs so many senders of a kind have.
fn appids_of(kind: Kind, senders: u64) -> u64
    ensures { result ≡ appids_of kind senders }
{
    match kind {
        Kind::Goose | Kind::SampledValues => senders,
        Kind::Number(_) => 0,
    }
}

/// What a stream publishes, before which so much is counted.
#[tactic(auto, unfolding(crate::specs::Publishing::publication))]
fn publication_of(
    alloc: Global,
    until: Option<u64>,
    counted: Counted,
    stream: &Stream,
) -> Result<Publication, NoMemory>
    ensures { IfOk result (λ p. p ≡ publication until counted stream.now) }
{
    let first = first_appid(stream, counted.senders)?;
    let count = appids_of(stream.framing.kind, stream.from.len() as u64);
    Ok(Publication {
        first,
        behind: added(first, count)?,
        control_block: control_block(alloc, stream, counted.streams)?,
        data_set: data_set(alloc, stream, counted.streams)?,
        id: id(alloc, stream)?,
        live: live(until, &stream.timing)?,
    })
}

// ---- what may be published

/// Whether some APPID is of both.
fn meets(one: &Publication, other: &Publication) -> bool
    ensures { result ≡ meets one.now other.now }
{
    one.first < other.behind && other.first < one.behind
}

/// Whether some APPID is of one of these too.
#[tactic(auto, using(crate::proofs::Meeting::none_met))]
fn meets_any(publication: &Publication, earlier: &[Publication]) -> bool
    ensures { result ≡ list_any (meets publication.now) earlier.now }
{
    // What has no APPID is compared with none: of streams with other payloads there may be as many as a text says.
    if publication.behind == 0 {
        return false;
    }
    earlier.iter().any(|other| meets(publication, other))
}

/// The number below which a stream's APPIDs have to be.
fn limit(stream: &Stream) -> u64
    ensures { result ≡ limit stream.now.framing.naming.appid stream.now.framing.kind }
{
    match (stream.framing.naming.appid, stream.framing.kind) {
        (Some(_), _) | (None, Kind::Number(_)) => 0x10000,
        (None, Kind::Goose) => 0x4000,
        (None, Kind::SampledValues) => 0x8000,
    }
}

/// How many octets the shortest payload of a stream has, in the first frame of a name.
fn shortest(
    alloc: Global,
    publication: &Publication,
    stream: &Stream,
    name: &[u8],
) -> Result<usize, NoMemory>
    ensures { IfOk result (λ n. n ≡ shortest publication.now stream.now name.now) }
{
    let first = Turn {
        index: 0,
        state: 0,
        count: 0,
    };
    let payload = payload(alloc, 0, publication, stream, 0, name, first)?;
    Ok(payload.len())
}

/// Refuses a shortest payload that no frame takes, or that is longer than the size that is said.
fn fits_in(framing: &Framing, least: usize) -> Result<(), What>
    ensures { Gives (λ u. u) result (fits_in framing.now least) }
{
    if least > PAYLOAD_LIMIT {
        return Err(What::Refused(Refusal::TooLong(least)));
    }
    // 0 asks for the shortest, so it is always enough.
    if framing.size == 0 || least <= framing.size {
        Ok(())
    } else {
        Err(What::Refused(Refusal::TooSmall(least)))
    }
}

/// Refuses the first frame of a name, if its shortest payload doesn't fit.
#[tactic(auto, unfolding(crate::specs::Publishing::fits))]
fn fits(alloc: Global, publication: &Publication, stream: &Stream, name: &Word) -> Result<(), What>
    ensures { Gives (λ u. u) result (fits publication.now stream.now name.now) }
{
    let least = shortest(alloc, publication, stream, name.as_bytes())?;
    fits_in(&stream.framing, least)
}

/// Refuses a stream of which a sender's first frame doesn't fit.
#[tactic(auto, using(crate::proofs::Lists::fits_step, crate::proofs::Lists::fits_fails))]
fn all_fit(
    alloc: Global,
    publication: &Publication,
    stream: &Stream,
    names: &[Word],
) -> Result<(), What>
    ensures { Gives (λ u. u) result (each_passes (fits publication.now stream.now) names.now) }
{
    for name in names.iter() {
        match fits(alloc, publication, stream, name) {
            Ok(()) => {}
            Err(what) => return Err(what),
        }
    }
    Ok(())
}

/// Refuses APPIDs of a stream that are an earlier one's, or not below the limit.
fn check_appids(
    earlier: &[Publication],
    publication: &Publication,
    stream: &Stream,
) -> Result<(), What>
    ensures { Gives (λ u. u) result (unless_held (is_own earlier.now
        (limit stream.now.framing.naming.appid stream.now.framing.kind) publication.now) IsTaken) }
{
    if publication.behind <= limit(stream) && !meets_any(publication, earlier) {
        Ok(())
    } else {
        Err(What::Refused(Refusal::AppidTaken))
    }
}

/// Refuses what a stream publishes, where its APPIDs aren't its own or a frame doesn't fit.
#[tactic(auto, unfolding(crate::specs::Publishing::may_publish))]
fn may_publish(
    alloc: Global,
    earlier: &[Publication],
    publication: &Publication,
    stream: &Stream,
) -> Result<(), What>
    ensures { Gives (λ u. u) result (may_publish earlier.now publication.now stream.now) }
{
    check_appids(earlier, publication, stream)?;
    all_fit(alloc, publication, stream, stream.from.as_slice())
}

/// What is counted with one stream more.
fn counted_with(stream: &Stream, counted: Counted) -> Result<Counted, NoMemory>
    ensures { IfOk result (λ c. c ≡ counted_with stream.now counted) }
{
    let kind = stream.framing.kind;
    let streams = with_more(kind, 1, counted.streams)?;
    let senders = with_more(kind, stream.from.len() as u64, counted.senders)?;
    Ok(Counted { streams, senders })
}

/// What a stream publishes, behind others.
fn published(
    alloc: Global,
    until: Option<u64>,
    earlier: &[Publication],
    counted: Counted,
    stream: &Stream,
) -> Result<NextPublication, What>
    ensures { Gives (λ p. p) result (published until earlier.now counted stream.now) }
{
    let publication = publication_of(alloc, until, counted, stream)?;
    may_publish(alloc, earlier, &publication, stream)?;
    let counted = counted_with(stream, counted)?;
    Ok(NextPublication {
        publication,
        counted,
    })
}

/// What the stream behind these publishes.
#[tactic(auto, using(hsr_plan_text::proofs::Lists::spotted))]
fn published_at(
    alloc: Global,
    until: Option<u64>,
    earlier: &[Publication],
    counted: Counted,
    stream: &Stream,
) -> Result<NextPublication, PlanFault>
    ensures { GivesAt (λ p. p) result (at_spot (spot.Stream (length earlier.now))
        (published until earlier.now counted stream.now)) }
{
    at_spot(
        Spot::Stream(earlier.len()),
        published(alloc, until, earlier, counted, stream),
    )
}

/// The fault of a failed allocation.
fn no_memory() -> PlanFault
    ensures { result.what ≡ NoRoom }
{
    PlanFault {
        spot: Spot::Top,
        what: What::NoMemory,
    }
}

/// What streams of a plan with this end publish, each behind those before it.
#[tactic(auto, using(crate::proofs::Lists::publications_step, crate::proofs::Lists::publications_fail))]
pub(crate) fn publications(
    alloc: Global,
    until: Option<u64>,
    streams: &[Stream],
) -> Result<Vec<Publication>, PlanFault>
    ensures { GivesAt (λ v. v.items) result (publications until streams.now) }
{
    let mut publications = Vec::new(alloc);
    let mut counted = Counted {
        streams: Counts::none(),
        senders: Counts::none(),
    };
    for stream in streams.iter() {
        match published_at(alloc, until, publications.as_slice(), counted, stream) {
            Ok(published) => {
                let NextPublication {
                    publication,
                    counted: more,
                } = published;
                publications.push(publication).or(Err(no_memory()))?;
                counted = more;
            }
            Err(fault) => return Err(fault),
        }
    }
    Ok(publications)
}
