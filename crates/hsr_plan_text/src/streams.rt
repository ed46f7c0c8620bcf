//! The streams of a plan.
ghost use Rattle.std.specs.Prelude.{◌≡◌, ◌≤◌, ◌∷◌, ◌^◌, [], IfOk, IfSome, None, ok_or, option_map};
ghost use Rattle.toml.specs.View.{items_view, view, table_view};
ghost use Rattle.hsr_toml.specs.Fallible.{guard};
ghost use Rattle.hsr_plan_text.specs.Fallible.{Gives};
ghost use Rattle.hsr_plan_text.specs.Streams.{asdus_in, comes_after, few_names, framing_in, gaps_in, how_many, kind, least_size, moments, no_gap_at, no_gaps, numbered, only_name, pace_in, perhaps_tag, rate, rate_of, rises, rising, senders, some_few, some_moments, stream_in, tag_in, tag_of, tag_with, timing_in, usual_size};
ghost use Rattle.hsr_toml.specs.Tables.{at_key, between, needed, optional, perhaps, word};
ghost use Rattle.hsr_plan_text.specs.Fault.{faults};
ghost use Rattle.hsr_plan_text.specs.Tables.{gap, moment};
ghost use Rattle.hsr_toml.specs.Names.{name_of};
ghost use Rattle.hsr_plan_text.specs.Words.{target_of};
ghost use Rattle.hsr_plan_text.specs.declared.plan.Target.TheVariants.{Named};
ghost use Rattle.hsr_plan_text.specs.declared.fault.Key.TheVariants as key;
ghost use Rattle.hsr_plan_text.specs.declared.fault.What.TheVariants.{BadValue};

use crate::fault::{Key, Refusal, What};
use crate::network::{name_in, names_of};
use crate::plan::{Framing, Kind, Pace, SampleRate, Stream, Target, Timing};
use crate::publishing::{is_sampled, naming, only_where};
use crate::table::{LAST, gap, moment, only};
use crate::word::Word;
use crate::words::kind_named;
use hsr_frame::{ETHERTYPE_HSR, ETHERTYPE_VLAN, Mac};
use hsr_toml::{between, is_name, items, needed, number_or, text, value};
use std::alloc::Global;
use toml::{Table, Value};

/// The most names in a list of senders, or of receivers.
const NAME_LIMIT: usize = 4096;

/// The most samples in a frame.
const ASDU_LIMIT: u64 = 8;

// ---- who sends it, and who needs it

/// The name that a text is, as the only one of a list.
fn only_name(alloc: Global, key: Key, text: &str) -> Result<Vec<Word>, What>
    ensures { Gives (λ v. v.items) result (only_name key text.now) }
{
    let name = name_in(alloc, key, text.as_bytes())?;
    let mut names = Vec::new(alloc);
    names.push(name)?;
    Ok(names)
}

/// Refuses a list with no item, or with more than there may be names.
#[tactic(auto, using(crate::proofs::Senders::counted))]
fn few(key: Key, items: &[Value]) -> Result<(), What>
    ensures { Gives (λ u.
        u) result (guard (some_few (how_many (items_view items.now))) (BadValue key)) }
{
    if !items.is_empty() && items.len() <= NAME_LIMIT {
        Ok(())
    } else {
        Err(What::BadValue(key))
    }
}

/// The names of an array that has few.
fn few_names(alloc: Global, key: Key, value: &Value) -> Result<Vec<Word>, What>
    ensures { Gives (λ v. v.items) result (few_names key (view value.now)) }
{
    let items = items(key, value)?;
    few(key, items.as_slice())?;
    names_of(alloc, key, items.as_slice())
}

/// One name, or those of an array that has few.
fn senders(alloc: Global, key: Key, value: &Value) -> Result<Vec<Word>, What>
    ensures { Gives (λ v. v.items) result (senders key (view value.now)) }
{
    match value.as_str() {
        Some(text) => only_name(alloc, key, text),
        None => few_names(alloc, key, value),
    }
}

// ---- what its frames have alike

/// The node or the station that a text names.
fn named_target(alloc: Global, text: &str) -> Result<Target, What>
    ensures { Gives (λ t. t) result (ok_or (option_map (λ n. Named n) (name_of text.now))
        (BadValue key.To)) }
{
    if !is_name(text.as_bytes()) {
        return Err(What::BadValue(Key::To));
    }
    let name = Word::of(alloc, text.as_bytes())?;
    Ok(Target::Named(name))
}

/// Whom a text names: an address, or else a node or a station.
fn target_of(alloc: Global, text: &str) -> Result<Target, What>
    ensures { Gives (λ t. t) result (ok_or (target_of text.now) (BadValue key.To)) }
{
    // An address in small digits has the form of a name too: it is read as an address.
    match Mac::from_text(text) {
        Ok(mac) => Ok(Target::Address(mac)),
        Err(_) => named_target(alloc, text),
    }
}

/// Whom a stream is for.
fn target(alloc: Global, table: &Table) -> Result<Target, What>
    ensures { Gives (λ t. t) result (needed faults key.To (word faults target_of)
        (table_view table.now)) }
{
    target_of(alloc, text(Key::To, needed(table, Key::To)?)?)
}

/// The kind of payload of a type that is a number.
fn numbered(key: Key, number: u16) -> Result<Kind, What>
    ensures { Gives (λ k. k) result (numbered key number) }
{
    // These are the types of the HSR tag and of a VLAN tag, with which no send is accepted.
    if number == ETHERTYPE_HSR || number == ETHERTYPE_VLAN {
        return Err(What::BadValue(key));
    }
    Ok(Kind::Number(number))
}

/// The kind of payload that a value tells.
fn kind_of(key: Key, value: &Value) -> Result<Kind, What>
    ensures { Gives (λ k. k) result (kind key (view value.now)) }
{
    // A word names a kind of payload, a number is the type itself.
    match value.as_str() {
        Some(word) => match kind_named(word) {
            Some(kind) => Ok(kind),
            None => Err(What::BadValue(key)),
        },
        None => {
            let number = between(0, 65535, key, value)?;
            numbered(key, number as u16)
        }
    }
}

/// The kind of a stream's payload.
fn kind(table: &Table) -> Result<Kind, What>
    ensures { Gives (λ k. k) result (needed faults key.Kind kind (table_view table.now)) }
{
    kind_of(Key::Kind, needed(table, Key::Kind)?)
}

/// How many octets of payload frames of a kind have, where that isn't said; 0 for the shortest.
fn usual_size(kind: Kind) -> usize
    ensures { result ≡ usual_size kind }
{
    match kind {
        // The least length of a payload (IEEE 802.3 clause 4).
        Kind::Number(_) => 46,
        Kind::Goose | Kind::SampledValues => 0,
    }
}

/// The least octets of payload that may be said of frames of a kind.
fn least_size(kind: Kind) -> u64
    ensures value { result ≡ least_size kind }
    ensures most { result ≤ 1 }
{
    match kind {
        Kind::Number(_) => 0,
        // 0 stands for the shortest, which depends on the sender's name, so it can't be said.
        Kind::Goose | Kind::SampledValues => 1,
    }
}

/// How many octets of payload a stream's frames of a kind have; 0 for the shortest.
fn size(kind: Kind, table: &Table) -> Result<usize, What>
    ensures { Gives (λ n. n) result (optional faults key.Size (usual_size kind)
        (between faults (least_size kind) 1500) (table_view table.now)) }
{
    match value(table, Key::Size) {
        None => Ok(usual_size(kind)),
        Some(value) => {
            let size = between(least_size(kind), 1500, Key::Size, value)?;
            Ok(size as usize)
        }
    }
}

/// A number that may be left out.
fn perhaps(table: &Table, key: Key, least: u64, most: u64) -> Result<Option<u64>, What>
    ensures value { Gives (λ n. n) result (optional faults key None
        (perhaps (between faults least most)) (table_view table.now)) }
    ensures most { IfOk result (λ n. IfSome n (λ n. n ≤ most)) }
{
    match value(table, key) {
        None => Ok(None),
        Some(value) => {
            let number = between(least, most, key, value)?;
            Ok(Some(number))
        }
    }
}

/// The control information of a VLAN tag, with that priority where none is said.
fn tag_with(usual: u64, vlan: Option<u64>, priority: Option<u64>) -> u16
    requires usual { usual ≤ 7 }
    requires vlan { IfSome vlan (λ n. n ≤ 4095) }
    requires priority { IfSome priority (λ n. n ≤ 7) }
    ensures { result ≡ tag_with usual vlan priority }
{
    // Priority in the upper 3 bits, the VLAN in the lower 12; the bit between them is 0 (IEEE 802.1Q clause 9).
    let tag = 8192 * priority.unwrap_or(usual) + vlan.unwrap_or(0);
    tag as u16
}

/// The control information of a VLAN tag, if something is said of it.
fn perhaps_tag(vlan: Option<u64>, priority: Option<u64>) -> Option<u16>
    requires vlan { IfSome vlan (λ n. n ≤ 4095) }
    requires priority { IfSome priority (λ n. n ≤ 7) }
    ensures { result ≡ perhaps_tag vlan priority }
{
    match (vlan, priority) {
        (None, None) => None,
        (vlan, priority) => Some(tag_with(0, vlan, priority)),
    }
}

/// The control information of the VLAN tag of a kind of frames.
fn tag_of(kind: Kind, vlan: Option<u64>, priority: Option<u64>) -> Option<u16>
    requires vlan { IfSome vlan (λ n. n ≤ 4095) }
    requires priority { IfSome priority (λ n. n ≤ 7) }
    ensures { result ≡ tag_of kind vlan priority }
{
    match kind {
        // The default of IEC 61850-8-1 and 9-2: a tag of VLAN 0 with priority 4.
        Kind::Goose | Kind::SampledValues => Some(tag_with(4, vlan, priority)),
        Kind::Number(_) => perhaps_tag(vlan, priority),
    }
}

/// The VLAN tag of a stream of a kind.
#[tactic(auto, unfolding(crate::specs::Streams::tag_in))]
fn tag(kind: Kind, table: &Table) -> Result<Option<u16>, What>
    ensures { Gives (λ t. t) result (tag_in kind (table_view table.now)) }
{
    let vlan = perhaps(table, Key::Vlan, 0, 4095)?;
    let priority = perhaps(table, Key::Priority, 0, 7)?;
    Ok(tag_of(kind, vlan, priority))
}

/// What a stream's frames have alike.
#[tactic(auto, unfolding(crate::specs::Streams::framing_in))]
fn framing(alloc: Global, table: &Table) -> Result<Framing, What>
    ensures { Gives (λ f. f) result (framing_in (table_view table.now)) }
{
    let target = target(alloc, table)?;
    let kind = kind(table)?;
    let size = size(kind, table)?;
    let tag = tag(kind, table)?;
    let naming = naming(alloc, kind, table)?;
    Ok(Framing {
        target,
        kind,
        size,
        tag,
        naming,
    })
}

// ---- when they are sent

/// The moments of an array.
#[tactic(auto, using(crate::proofs::Lists::moments_step, crate::proofs::Lists::moments_fail))]
fn moments(alloc: Global, key: Key, value: &Value) -> Result<Vec<u64>, What>
    ensures { Gives (λ v. v.items) result (moments key (view value.now)) }
{
    let items = items(key, value)?;
    let mut moments = Vec::new(alloc);
    for item in items.iter() {
        match moment(key, item) {
            Ok(at) => moments.push(at)?,
            Err(what) => return Err(what),
        }
    }
    Ok(moments)
}

/// Whether a moment is later than the one before it, where there is one.
fn comes_after(last: Option<u64>, at: u64) -> bool
    ensures { result ≡ comes_after last at }
{
    match last {
        None => true,
        Some(last) => last < at,
    }
}

/// Whether each of these moments is later than the one before it.
#[tactic(auto, using(crate::proofs::Senders::rises_step))]
fn rises(moments: &[u64]) -> bool
    ensures { result ≡ rises None moments.now }
{
    let mut last = None;
    for at in moments.iter() {
        if !comes_after(last, *at) {
            return false;
        }
        last = Some(*at);
    }
    true
}

/// Moments, if there are any, and each is later than the one before it.
fn rising(key: Key, moments: Vec<u64>) -> Result<Vec<u64>, What>
    ensures { Gives (λ v. v.items) result (rising key moments.items) }
{
    // A start ends what the start before it began, so starts have to come one after another.
    if !moments.is_empty() && rises(moments.as_slice()) {
        Ok(moments)
    } else {
        Err(What::BadValue(key))
    }
}

/// One moment, or those of an array.
fn some_moments(alloc: Global, key: Key, value: &Value) -> Result<Vec<u64>, What>
    ensures { Gives (λ v. v.items) result (some_moments key (view value.now)) }
{
    match value.as_integer() {
        // A number is one start, anything else has to be a list.
        Some(_) => {
            let at = moment(key, value)?;
            let mut moments = Vec::new(alloc);
            moments.push(at)?;
            Ok(moments)
        }
        None => rising(key, moments(alloc, key, value)?),
    }
}

/// The moments from which on a stream sends.
fn starts(alloc: Global, table: &Table) -> Result<Vec<u64>, What>
    ensures { Gives (λ v. v.items) result (optional faults key.Start (0 ∷ []) some_moments
        (table_view table.now)) }
{
    match value(table, Key::Start) {
        None => {
            let mut starts = Vec::new(alloc);
            starts.push(0)?;
            Ok(starts)
        }
        Some(value) => some_moments(alloc, Key::Start, value),
    }
}

/// The first gap of a stream.
fn every(table: &Table) -> Result<u64, What>
    ensures { Gives (λ n. n) result (needed faults key.Every gap (table_view table.now)) }
{
    gap(Key::Every, needed(table, Key::Every)?)
}

/// By how much a stream's gaps grow.
fn grow(table: &Table) -> Result<u64, What>
    ensures { Gives (λ n. n) result (optional faults key.Grow 1 (between faults 1 1000)
        (table_view table.now)) }
{
    number_or(1, 1, 1000, table, Key::Grow)
}

/// The longest gap of a stream.
fn most(table: &Table) -> Result<u64, What>
    ensures { Gives (λ n. n) result (optional faults key.Most (2 ^ 40) gap (table_view table.now)) }
{
    number_or(LAST, 1, LAST, table, Key::Most)
}

/// The gaps of a stream.
#[tactic(auto, unfolding(crate::specs::Streams::gaps_in))]
fn gaps(table: &Table) -> Result<Pace, What>
    ensures { Gives (λ p. p) result (gaps_in (table_view table.now)) }
{
    let every = every(table)?;
    let grow = grow(table)?;
    let most = most(table)?;
    Ok(Pace::Gaps { every, grow, most })
}

/// The rate of samples that is that number.
fn rate_of(number: u64) -> Option<SampleRate>
    ensures { result ≡ rate_of number }
{
    match number {
        4000 => Some(SampleRate::Rate4000),
        4800 => Some(SampleRate::Rate4800),
        12800 => Some(SampleRate::Rate12800),
        14400 => Some(SampleRate::Rate14400),
        _ => None,
    }
}

/// The rate of samples that a value tells.
fn rate(key: Key, value: &Value) -> Result<SampleRate, What>
    ensures { Gives (λ r. r) result (rate key (view value.now)) }
{
    let number = between(4000, 14400, key, value)?;
    match rate_of(number) {
        Some(rate) => Ok(rate),
        None => Err(What::BadValue(key)),
    }
}

/// Refuses a key that tells of gaps.
fn no_gap_at(table: &Table, key: Key) -> Result<(), What>
    ensures { Gives (λ u. u) result (no_gap_at key (at_key faults key (table_view table.now))) }
{
    match value(table, key) {
        None => Ok(()),
        Some(_) => Err(What::Refused(Refusal::Together(key))),
    }
}

/// Refuses keys that tell of gaps.
#[tactic(auto, unfolding(crate::specs::Streams::no_gaps))]
fn no_gaps(table: &Table) -> Result<(), What>
    ensures { Gives (λ u. u) result (no_gaps (table_view table.now)) }
{
    no_gap_at(table, Key::Every)?;
    no_gap_at(table, Key::Grow)?;
    no_gap_at(table, Key::Most)?;
    Ok(())
}

/// The pace of a stream of a kind.
fn pace(kind: Kind, table: &Table) -> Result<Pace, What>
    ensures { Gives (λ p. p) result (pace_in kind (table_view table.now)) }
{
    only_where(is_sampled(kind), Key::SampleRate, table)?;
    match value(table, Key::SampleRate) {
        None => gaps(table),
        Some(value) => {
            let rate = rate(Key::SampleRate, value)?;
            no_gaps(table)?;
            Ok(Pace::Samples(rate))
        }
    }
}

/// How many samples a frame of a stream of a kind has.
fn asdus(kind: Kind, table: &Table) -> Result<u8, What>
    ensures { Gives (λ n. n) result (asdus_in kind (table_view table.now)) }
{
    only_where(is_sampled(kind), Key::Asdus, table)?;
    let asdus = number_or(1, 1, ASDU_LIMIT, table, Key::Asdus)?;
    Ok(asdus as u8)
}

/// The moment of a key that may be left out.
pub(crate) fn until(table: &Table) -> Result<Option<u64>, What>
    ensures { Gives (λ n. n) result (optional faults key.Until None (perhaps moment)
        (table_view table.now)) }
{
    perhaps(table, Key::Until, 0, LAST)
}

/// When a stream's frames are sent.
#[tactic(auto, unfolding(crate::specs::Streams::timing_in))]
fn timing(alloc: Global, kind: Kind, table: &Table) -> Result<Timing, What>
    ensures { Gives (λ t. t) result (timing_in kind (table_view table.now)) }
{
    let starts = starts(alloc, table)?;
    let pace = pace(kind, table)?;
    let asdus = asdus(kind, table)?;
    let count = perhaps(table, Key::Count, 1, LAST)?;
    let until = until(table)?;
    Ok(Timing {
        starts,
        pace,
        asdus,
        count,
        until,
    })
}

// ---- all

/// The keys of a stream.
const STREAM_KEYS: [Key; 19] = [
    Key::From,
    Key::For,
    Key::To,
    Key::Kind,
    Key::Size,
    Key::Vlan,
    Key::Priority,
    Key::Appid,
    Key::ControlBlock,
    Key::Id,
    Key::DataSet,
    Key::Start,
    Key::Every,
    Key::Grow,
    Key::Most,
    Key::SampleRate,
    Key::Asdus,
    Key::Count,
    Key::Until,
];

/// Who sends a stream.
fn from(alloc: Global, table: &Table) -> Result<Vec<Word>, What>
    ensures { Gives (λ v. v.items) result (needed faults key.From senders (table_view table.now)) }
{
    senders(alloc, Key::From, needed(table, Key::From)?)
}

/// Who needs a stream.
fn receivers(alloc: Global, table: &Table) -> Result<Vec<Word>, What>
    ensures { Gives (λ v. v.items) result (optional faults key.For [] senders
        (table_view table.now)) }
{
    match value(table, Key::For) {
        None => Ok(Vec::new(alloc)),
        Some(value) => senders(alloc, Key::For, value),
    }
}

/// The stream of a table.
#[tactic(auto, unfolding(crate::specs::Streams::stream_in))]
pub(crate) fn stream(alloc: Global, table: &Table) -> Result<Stream, What>
    ensures { Gives (λ s. s) result (stream_in (table_view table.now)) }
{
    only(alloc, table, &STREAM_KEYS)?;
    let from = from(alloc, table)?;
    let receivers = receivers(alloc, table)?;
    let framing = framing(alloc, table)?;
    let timing = timing(alloc, framing.kind, table)?;
    Ok(Stream {
        from,
        receivers,
        framing,
        timing,
    })
}
