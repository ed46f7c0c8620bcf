//! The first line, and the lines of interfaces.
ghost use Rattle.std.specs.Prelude.{◌≡◌, ◌++◌, OnOk, option_map, slice_get};
ghost use Rattle.hsr_health_text.specs.Interfaces.{disorder_text, dropped_if, end_text, head_line, interface_line, interfaces_text, is_asked, line_at, line_if, load_if, load_text, looked_text, seen_text, skipped_text, start_text, tagged_of, tally_text, taps_if, taps_word};

use crate::words::{end_line, put_maybe, put_name, put_pair, put_rate, put_time, us_since};
use hsr_capture_reader::{Interface, Losses};
use hsr_frame::NoMemory;
use hsr_health::{Health, Load};
use hsr_packet_order::Disorder;
use hsr_taps::{Tally, Taps};
use hsr_text::{put, put_number};

/// Puts the first packet's moment last, or a dash where there is none.
fn put_start(text: &mut Vec<u8>, health: &Health<'_>) -> Result<(), NoMemory>
    ensures { OnOk result (text.new.items ≡ text.old.items ++ start_text health.now) }
{
    if health.outline.packets == 0 {
        put(text, "-")
    } else {
        put_time(text, health.outline.start)
    }
}

/// Puts last how far a file is out of the order of time, where that is told.
fn put_disorder(text: &mut Vec<u8>, is_full: bool, disorder: Disorder) -> Result<(), NoMemory>
    ensures { OnOk result (text.new.items ≡ text.old.items ++ disorder_text is_full disorder) }
{
    if is_full || disorder.packets > 0 {
        put_pair(text, "disorder", disorder.packets as u64)?;
        return put_pair(text, "by", disorder.most / 1000);
    }
    Ok(())
}

/// How a file ends, in words.
fn end_text(is_short: bool) -> &'static str
    ensures { result.now ≡ end_text is_short }
{
    if is_short {
        " end short\n"
    } else {
        " end whole\n"
    }
}

/// Puts the first line last.
#[tactic(auto, unfolding(crate::specs::Interfaces::head_line))]
pub(crate) fn put_head(
    text: &mut Vec<u8>,
    health: &Health<'_>,
    is_full: bool,
) -> Result<(), NoMemory>
    ensures { OnOk result (text.new.items ≡ text.old.items ++ head_line is_full health.now) }
{
    put(text, "health 1")?;
    put_pair(text, "packets", health.outline.packets as u64)?;
    put_pair(text, "interfaces", health.outline.interfaces.len() as u64)?;
    put_pair(
        text,
        "us",
        us_since(health.outline.start, health.outline.end),
    )?;
    put(text, " start ")?;
    put_start(text, health)?;
    put_disorder(text, is_full, health.outline.disorder)?;
    put(text, end_text(health.outline.is_short))
}

/// How the directions of an interface are told apart, in a word.
fn taps_word(taps: Taps) -> &'static str
    ensures { result.now ≡ taps_word taps }
{
    match taps {
        Taps::One => " taps one",
        Taps::Both => " taps both",
        Taps::Flags => " taps flags",
    }
}

/// Puts last how the directions of an interface are told apart, if that is known.
fn put_taps(text: &mut Vec<u8>, taps: &[Taps], i: usize) -> Result<(), NoMemory>
    ensures { OnOk result (text.new.items ≡ text.old.items ++ taps_if (slice_get taps.now i)) }
{
    match taps.get(i) {
        Some(taps) => put(text, taps_word(*taps)),
        None => Ok(()),
    }
}

/// Copies of tagged frames, as far as they can be counted.
fn tagged_of(tally: &Tally) -> u64
    ensures { result ≡ tagged_of tally.now }
{
    tally.lane_a.saturating_add(tally.lane_b)
}

/// Puts how many packets came, of each kind.
#[tactic(auto, unfolding(crate::specs::Interfaces::tally_text))]
fn put_tally(text: &mut Vec<u8>, tally: &Tally) -> Result<(), NoMemory>
    ensures { OnOk result (text.new.items ≡ text.old.items ++ tally_text tally.now) }
{
    put_pair(text, "packets", tally.packets)?;
    put_pair(text, "tagged", tagged_of(tally))?;
    put_pair(text, "untagged", tally.untagged)?;
    put_pair(text, "malformed", tally.malformed)?;
    put_pair(text, "unread", tally.unread)?;
    put_pair(text, "cut", tally.cut)
}

/// What a capture itself lost at an interface; none where it doesn't say.
fn dropped_at(losses: &[Losses], i: usize) -> Option<u64>
    ensures { result ≡ dropped_if (slice_get losses.now i) }
{
    match losses.get(i) {
        Some(losses) => losses.dropped(),
        None => None,
    }
}

/// Puts how much came.
#[tactic(auto, unfolding(crate::specs::Interfaces::load_text))]
fn put_load(text: &mut Vec<u8>, us: u64, load: &Load) -> Result<(), NoMemory>
    ensures { OnOk result (text.new.items ≡ text.old.items ++ load_text us load.now) }
{
    put(text, " load average ")?;
    put_rate(text, load.all, us)?;
    put(text, " peak-1ms ")?;
    put_rate(text, load.in_1ms, 1000)?;
    put(text, " peak-1s ")?;
    put_rate(text, load.in_1s, 1_000_000)
}

/// Puts how much came at an interface, if that is known.
fn put_load_at(text: &mut Vec<u8>, us: u64, loads: &[Load], i: usize) -> Result<(), NoMemory>
    ensures { OnOk result (text.new.items ≡ text.old.items ++ load_if us (slice_get loads.now i)) }
{
    match loads.get(i) {
        Some(load) => put_load(text, us, load),
        None => Ok(()),
    }
}

/// Puts what is told of an interface that is looked at.
#[tactic(auto, unfolding(crate::specs::Interfaces::looked_text))]
fn put_looked_at(
    text: &mut Vec<u8>,
    health: &Health<'_>,
    i: usize,
    tally: &Tally,
) -> Result<(), NoMemory>
    ensures { OnOk result (text.new.items ≡ text.old.items ++ looked_text health.now i tally.now) }
{
    let us = us_since(health.outline.start, health.outline.end);
    put_tally(text, tally)?;
    put_maybe(
        text,
        "dropped",
        dropped_at(health.outline.losses.as_slice(), i),
    )?;
    put_taps(text, health.tapped.taps.as_slice(), i)?;
    put_load_at(text, us, health.loads.as_slice(), i)
}

/// Puts that an interface isn't looked at.
#[tactic(auto, unfolding(crate::specs::Interfaces::skipped_text))]
fn put_skipped(text: &mut Vec<u8>, link: u16) -> Result<(), NoMemory>
    ensures { OnOk result (text.new.items ≡ text.old.items ++ skipped_text link) }
{
    put_pair(text, "link", u64::from(link))?;
    put(text, " skipped")
}

/// Puts what is told of an interface.
fn put_seen(text: &mut Vec<u8>, health: &Health<'_>, i: usize, link: u16) -> Result<(), NoMemory>
    ensures { OnOk result (text.new.items ≡ text.old.items
        ++ seen_text health.now i link (slice_get health.now.tapped.tallies.items i)) }
{
    match health.tapped.tallies.get(i) {
        Some(Some(tally)) => put_looked_at(text, health, i, tally),
        _ => put_skipped(text, link),
    }
}

/// Puts the line of an interface.
#[tactic(auto, unfolding(crate::specs::Interfaces::interface_line))]
fn put_interface_line(
    text: &mut Vec<u8>,
    health: &Health<'_>,
    i: usize,
    interface: &Interface<'_>,
) -> Result<(), NoMemory>
    ensures { OnOk result (text.new.items ≡ text.old.items ++ interface_line health.now i interface.now) }
{
    put(text, "interface ")?;
    put_number(text, i as u64)?;
    put_seen(text, health, i, interface.link)?;
    put(text, " name ")?;
    put_name(text, interface.name)?;
    end_line(text)
}

/// Whether an interface is among those that are asked for; all are where none is named.
fn is_asked(asked: &[usize], i: usize) -> bool
    ensures { result ≡ is_asked asked.now i }
{
    asked.is_empty() || asked.contains(&i)
}

/// Puts the line of an interface, if it is there.
fn put_line_if(
    text: &mut Vec<u8>,
    health: &Health<'_>,
    i: usize,
    interface: Option<&Interface<'_>>,
) -> Result<(), NoMemory>
    ensures { OnOk result (text.new.items ≡ text.old.items
        ++ line_if health.now i (option_map (λ n. n.now) interface.entry)) }
{
    match interface {
        Some(interface) => put_interface_line(text, health, i, interface),
        None => Ok(()),
    }
}

/// Puts the line of an interface, if it is asked for.
fn put_line_at(
    text: &mut Vec<u8>,
    health: &Health<'_>,
    asked: &[usize],
    i: usize,
) -> Result<(), NoMemory>
    ensures { OnOk result (text.new.items ≡ text.old.items ++ line_at asked.now health.now i) }
{
    if is_asked(asked, i) {
        return put_line_if(text, health, i, health.outline.interfaces.get(i));
    }
    Ok(())
}

/// Puts the lines of all interfaces that are asked for.
#[tactic(auto, using(crate::proofs::Numbered::numbered))]
pub(crate) fn put_interfaces(
    text: &mut Vec<u8>,
    health: &Health<'_>,
    asked: &[usize],
) -> Result<(), NoMemory>
    ensures { OnOk result (text.new.items ≡ text.old.items ++ interfaces_text asked.now health.now) }
{
    for i in 0..health.outline.interfaces.len() {
        put_line_at(text, health, asked, i)?;
    }
    Ok(())
}
