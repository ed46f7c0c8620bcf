//! Sources and whom supervision tells of.
ghost use Rattle.std.specs.Prelude.{◌≡◌, ◌++◌, OnOk, option_map, slice_get, unwrap_or};
ghost use Rattle.std.specs.List.{flat_map};
ghost use Rattle.hsr_health_text.specs.Words.{us_since};
ghost use Rattle.hsr_health_text.specs.Sources.{copies_line, fates_text, flaws_text, frames_text, gaps_text, heard_text, kind_word, known_word, lives_text, missing_at, node_line, nodes_text, numbers_at, numbers_if, skew_line, source_at, source_line, source_text, sources_text, supervision_if, supervision_line, supervision_name, who_text};

use crate::words::{end_line, put_mac_or_dash, put_maybe, put_pair, put_spread, us_since};
use hsr_frame::{Mac, NoMemory};
use hsr_health::{Counts, Fates, GroupNumbers, Health};
use hsr_heard::About;
use hsr_supervision::SupKind;
use hsr_text::{put, put_mac};
use std::alloc::Global;

/// How long a node is known after supervision about it, in nanoseconds.
const HEARD: u64 = 60_000_000_000;

/// Puts the fates of frames.
#[tactic(auto, unfolding(crate::specs::Sources::fates_text))]
fn put_fates(text: &mut Vec<u8>, fates: &Fates) -> Result<(), NoMemory>
    ensures { OnOk result (text.new.items ≡ text.old.items ++ fates_text fates.now) }
{
    put_pair(text, "twice", fates.twice)?;
    put_pair(text, "once", fates.once)?;
    put_pair(text, "more", fates.more)?;
    put_pair(text, "open", fates.open)
}

/// The numbers of a group; zeros where there are none.
fn numbers_if(numbers: Option<&GroupNumbers>) -> GroupNumbers
    ensures { result ≡ numbers_if (option_map (λ n. n.now) numbers.entry) }
{
    match numbers {
        Some(numbers) => *numbers,
        None => GroupNumbers {
            gaps: 0,
            missing: 0,
            restarts: 0,
        },
    }
}

/// Puts how many frames a source has, the first number and the last.
#[tactic(auto, unfolding(crate::specs::Sources::frames_text))]
fn put_frames(text: &mut Vec<u8>, own: &Counts) -> Result<(), NoMemory>
    ensures { OnOk result (text.new.items ≡ text.old.items ++ frames_text own.now) }
{
    put_pair(text, "frames", own.frames)?;
    put_pair(text, "first", u64::from(own.first))?;
    put_pair(text, "last", u64::from(own.last))
}

/// Puts what the numbers of a source tell.
#[tactic(auto, unfolding(crate::specs::Sources::gaps_text))]
fn put_gaps(text: &mut Vec<u8>, numbers: GroupNumbers, elsewhere: u64) -> Result<(), NoMemory>
    ensures { OnOk result (text.new.items ≡ text.old.items ++ gaps_text numbers elsewhere) }
{
    put_pair(text, "gaps", numbers.gaps)?;
    put_pair(text, "missing", numbers.missing)?;
    put_pair(text, "elsewhere", elsewhere)?;
    put_pair(text, "restarts", numbers.restarts)
}

/// Puts what is wrong with frames of a source.
#[tactic(auto, unfolding(crate::specs::Sources::flaws_text))]
fn put_flaws(text: &mut Vec<u8>, own: &Counts) -> Result<(), NoMemory>
    ensures { OnOk result (text.new.items ≡ text.old.items ++ flaws_text own.now) }
{
    put_pair(text, "clashes", own.clashes)?;
    put_pair(text, "late", own.late)?;
    put_pair(text, "size", own.size)?;
    put_pair(text, "lane", own.lane)
}

/// Puts the line of a source.
#[tactic(auto, unfolding(crate::specs::Sources::source_line))]
fn put_source_line(
    alloc: Global,
    text: &mut Vec<u8>,
    mac: Mac,
    own: &Counts,
    numbers: GroupNumbers,
    elsewhere: u64,
) -> Result<(), NoMemory>
    ensures { OnOk result (text.new.items ≡ text.old.items ++ source_line mac own.now numbers elsewhere) }
{
    put(text, "source ")?;
    put_mac(alloc, text, mac)?;
    put_frames(text, own)?;
    put_gaps(text, numbers, elsewhere)?;
    put_flaws(text, own)?;
    end_line(text)
}

/// Puts the line of a source's copies.
#[tactic(auto, unfolding(crate::specs::Sources::copies_line))]
fn put_copies(alloc: Global, text: &mut Vec<u8>, mac: Mac, own: &Counts) -> Result<(), NoMemory>
    ensures { OnOk result (text.new.items ≡ text.old.items ++ copies_line mac own.now) }
{
    put(text, "copies ")?;
    put_mac(alloc, text, mac)?;
    put(text, " group")?;
    put_fates(text, &own.group)?;
    put(text, " single")?;
    put_fates(text, &own.single)?;
    end_line(text)
}

/// Puts the line of a source's skews.
#[tactic(auto, unfolding(crate::specs::Sources::skew_line))]
fn put_skew(alloc: Global, text: &mut Vec<u8>, mac: Mac, own: &Counts) -> Result<(), NoMemory>
    ensures { OnOk result (text.new.items ≡ text.old.items ++ skew_line mac own.now) }
{
    put(text, "skew ")?;
    put_mac(alloc, text, mac)?;
    put_spread(text, own.skew)?;
    end_line(text)
}

/// Puts how many supervision frames of a source there were, and how many numbers of them are missing.
#[tactic(auto, unfolding(crate::specs::Sources::lives_text))]
fn put_lives(text: &mut Vec<u8>, own: &Counts, missing: u64) -> Result<(), NoMemory>
    ensures { OnOk result (text.new.items ≡ text.old.items ++ lives_text own.now missing) }
{
    put_pair(text, "frames", own.lives)?;
    put_pair(text, "missing", missing)?;
    put_pair(text, "unreadable", own.unreadable)
}

/// Puts whose supervision frames a line counts.
#[tactic(auto, unfolding(crate::specs::Sources::supervision_name))]
fn put_supervision_name(alloc: Global, text: &mut Vec<u8>, mac: Mac) -> Result<(), NoMemory>
    ensures { OnOk result (text.new.items ≡ text.old.items ++ supervision_name mac) }
{
    put(text, "supervision ")?;
    put_mac(alloc, text, mac)
}

/// Puts the line of a source's supervision frames.
#[tactic(auto, unfolding(crate::specs::Sources::supervision_line))]
fn put_supervision(
    alloc: Global,
    text: &mut Vec<u8>,
    mac: Mac,
    own: &Counts,
    missing: u64,
) -> Result<(), NoMemory>
    ensures { OnOk result (text.new.items ≡ text.old.items ++ supervision_line mac own.now missing) }
{
    put_supervision_name(alloc, text, mac)?;
    put_lives(text, own, missing)?;
    end_line(text)
}

/// Puts the line of a source's supervision frames, if there were any.
fn put_supervision_if(
    alloc: Global,
    text: &mut Vec<u8>,
    mac: Mac,
    own: &Counts,
    missing: u64,
) -> Result<(), NoMemory>
    ensures { OnOk result (text.new.items ≡ text.old.items ++ supervision_if mac own.now missing) }
{
    if own.lives == 0 && own.unreadable == 0 {
        return Ok(());
    }
    put_supervision(alloc, text, mac, own, missing)
}

/// The number at a place; 0 where there is none.
fn number_at(numbers: &[u64], i: usize) -> u64
    ensures { result ≡ unwrap_or (slice_get numbers.now i) 0 }
{
    match numbers.get(i) {
        Some(number) => *number,
        None => 0,
    }
}

/// The index of a source's group; 0 where there is none.
fn group_at(groups: &[usize], i: usize) -> usize
    ensures { result ≡ unwrap_or (slice_get groups.now i) 0 }
{
    match groups.get(i) {
        Some(group) => *group,
        None => 0,
    }
}

/// The numbers of a source's group.
fn numbers_at(health: &Health<'_>, i: usize) -> GroupNumbers
    ensures { result ≡ numbers_at health.now i }
{
    numbers_if(health.numbers.get(group_at(health.groups.as_slice(), i)))
}

/// How many supervision numbers of a source are missing.
fn missing_at(health: &Health<'_>, i: usize) -> u64
    ensures { result ≡ missing_at health.now i }
{
    numbers_if(health.life_numbers.get(i)).missing
}

/// Puts the lines of a source.
#[tactic(auto, unfolding(crate::specs::Sources::source_text))]
fn put_source(
    alloc: Global,
    text: &mut Vec<u8>,
    health: &Health<'_>,
    i: usize,
    mac: Mac,
    own: &Counts,
) -> Result<(), NoMemory>
    ensures { OnOk result (text.new.items ≡ text.old.items ++ source_text health.now i mac own.now) }
{
    let elsewhere = number_at(health.elsewhere.as_slice(), i);
    put_source_line(alloc, text, mac, own, numbers_at(health, i), elsewhere)?;
    put_copies(alloc, text, mac, own)?;
    put_skew(alloc, text, mac, own)?;
    put_supervision_if(alloc, text, mac, own, missing_at(health, i))
}

/// Puts the lines of a source, if it is there.
fn put_source_at(
    alloc: Global,
    text: &mut Vec<u8>,
    health: &Health<'_>,
    i: usize,
) -> Result<(), NoMemory>
    ensures { OnOk result (text.new.items ≡ text.old.items ++ source_at health.now i) }
{
    match health.sources.get(i) {
        Some(mac) => match health.counts.get(i) {
            Some(own) => put_source(alloc, text, health, i, *mac, own),
            None => Ok(()),
        },
        None => Ok(()),
    }
}

/// Puts the lines of all sources.
#[tactic(auto, unfolding(crate::specs::Sources::sources_text), using(crate::proofs::Numbered::numbered))]
pub(crate) fn put_sources(
    alloc: Global,
    text: &mut Vec<u8>,
    health: &Health<'_>,
) -> Result<(), NoMemory>
    ensures { OnOk result (text.new.items ≡ text.old.items ++ sources_text health.now) }
{
    for i in 0..health.sources.len() {
        put_source_at(alloc, text, health, i)?;
    }
    Ok(())
}

/// What a kind of node is called.
fn kind_word(kind: SupKind) -> &'static str
    ensures { result.now ≡ kind_word kind }
{
    match kind {
        SupKind::PrpDiscard => "prp",
        SupKind::PrpAccept => "prp-accept",
        SupKind::Hsr => "hsr",
    }
}

/// Whether a node is known at the end, in words.
fn known_word(end: u64, about: &About) -> &'static str
    ensures { result.now ≡ known_word end about.now }
{
    if end.saturating_sub(about.last) < HEARD {
        " known kind "
    } else {
        " forgotten kind "
    }
}

/// The microseconds of a moment, if there is one.
fn us_if(start: u64, at: Option<u64>) -> Option<u64>
    ensures { result ≡ option_map (us_since start) at }
{
    match at {
        Some(at) => Some(us_since(start, at)),
        None => None,
    }
}

/// Puts who speaks for a node.
#[tactic(auto, unfolding(crate::specs::Sources::who_text))]
fn put_who(alloc: Global, text: &mut Vec<u8>, about: &About) -> Result<(), NoMemory>
    ensures { OnOk result (text.new.items ≡ text.old.items ++ who_text about.now) }
{
    put(text, " redbox ")?;
    put_mac_or_dash(alloc, text, about.redbox)?;
    put(text, " from ")?;
    put_mac(alloc, text, about.source)
}

/// Puts when supervision about a node came.
#[tactic(auto, unfolding(crate::specs::Sources::heard_text))]
fn put_heard(text: &mut Vec<u8>, start: u64, about: &About) -> Result<(), NoMemory>
    ensures { OnOk result (text.new.items ≡ text.old.items ++ heard_text start about.now) }
{
    put_pair(text, "heard", about.heard)?;
    put(text, " every")?;
    put_spread(text, about.every)?;
    put(text, " last")?;
    put_maybe(text, "way-0", us_if(start, about.by_0))?;
    put_maybe(text, "way-1", us_if(start, about.by_1))
}

/// Puts the line of whom supervision tells of.
#[tactic(auto, unfolding(crate::specs::Sources::node_line))]
fn put_about(
    alloc: Global,
    text: &mut Vec<u8>,
    start: u64,
    end: u64,
    about: &About,
) -> Result<(), NoMemory>
    ensures { OnOk result (text.new.items ≡ text.old.items ++ node_line start end about.now) }
{
    put(text, "node ")?;
    put_mac(alloc, text, about.mac)?;
    put(text, known_word(end, about))?;
    put(text, kind_word(about.kind))?;
    put_who(alloc, text, about)?;
    put_heard(text, start, about)?;
    end_line(text)
}

/// Puts the lines of some of whom supervision tells.
#[tactic(auto, using(hsr_frame::proofs::OneMore::grown))]
fn put_all_abouts(
    alloc: Global,
    text: &mut Vec<u8>,
    start: u64,
    end: u64,
    abouts: &[About],
) -> Result<(), NoMemory>
    ensures { OnOk result (text.new.items ≡ text.old.items ++ flat_map (node_line start end) abouts.now) }
{
    for about in abouts {
        put_about(alloc, text, start, end, about)?;
    }
    Ok(())
}

/// Puts the lines of all of whom supervision tells.
#[tactic(auto, unfolding(crate::specs::Sources::nodes_text))]
pub(crate) fn put_abouts(
    alloc: Global,
    text: &mut Vec<u8>,
    health: &Health<'_>,
) -> Result<(), NoMemory>
    ensures { OnOk result (text.new.items ≡ text.old.items ++ nodes_text health.now) }
{
    put_all_abouts(
        alloc,
        text,
        health.outline.start,
        health.outline.end,
        health.abouts.as_slice(),
    )
}
