//! Reasons and the verdict.
ghost use Rattle.std.specs.Prelude.{◌≡◌, ◌++◌, OnOk, option_map};
ghost use Rattle.std.specs.List.{flat_map};
ghost use Rattle.hsr_health_text.specs.Reasons.{absent_line, after_text, alone_text, behind_text, copy_text, crowd_text, doubt_line, fault_text, frame_text, healthy_line, interface_text, lane_text, life_text, malformed_text, name_at, numbers_text, packets_text, point_text, reason_line, reasons_text, rest_text, restart_text, silence_text, size_text, spot_text, unheard_text, untagged_text, verdict_text, way_text, what_text, word_text};

use crate::words::{end_line, put_hex16, put_name, put_pair, us_since};
use hsr_frame::{FrameFault, Mac, NoMemory};
use hsr_health::{Health, Reason, Spot, What, Word};
use hsr_taps::Point;
use hsr_text::{put, put_mac, put_number};
use std::alloc::Global;

/// The word of a reason.
fn word_text(word: Word) -> &'static str
    ensures { result.now ≡ word_text word }
{
    match word {
        Word::Empty => "empty",
        Word::Unjudged => "unjudged",
        Word::Dropped => "dropped",
        Word::Absent => "absent",
        Word::Storm => "storm",
        Word::Again => "again",
        Word::Clash => "clash",
        Word::Late => "late",
        Word::OneSided => "one-sided",
        Word::Lost => "lost",
        Word::Overtaken => "overtaken",
        Word::OneWay => "one-way",
        Word::Restart => "restart",
        Word::Crowded => "crowded",
        Word::Silent => "silent",
        Word::Life => "life",
        Word::Malformed => "malformed",
        Word::Untagged => "untagged",
        Word::Size => "size",
        Word::Lane => "lane",
    }
}

/// What a fault of octets that are no frame is called.
fn fault_text(fault: FrameFault) -> &'static str
    ensures { result.now ≡ fault_text fault }
{
    match fault {
        FrameFault::Short => "short",
        FrameFault::Long => "long",
        FrameFault::GroupSource => "group-source",
        FrameFault::DoubleVlan => "vlan",
        FrameFault::ShortTag => "short-tag",
        FrameFault::NestedTag => "nested-tag",
    }
}

/// Puts a frame last, by its source and its number.
#[tactic(auto, unfolding(crate::specs::Reasons::frame_text))]
fn put_frame(alloc: Global, text: &mut Vec<u8>, source: Mac, number: u16) -> Result<(), NoMemory>
    ensures { OnOk result (text.new.items ≡ text.old.items ++ frame_text source number) }
{
    put_mac(alloc, text, source)?;
    put_pair(text, "number", u64::from(number))
}

/// Puts the number of an interface last.
#[tactic(auto, unfolding(crate::specs::Reasons::interface_text))]
fn put_interface(text: &mut Vec<u8>, interface: usize) -> Result<(), NoMemory>
    ensures { OnOk result (text.new.items ≡ text.old.items ++ interface_text interface) }
{
    put(text, "interface ")?;
    put_number(text, interface as u64)?;
    put(text, " ")
}

/// Puts a name last, or a dash where there is none.
fn put_name_at(text: &mut Vec<u8>, point: Option<&Point<'_>>) -> Result<(), NoMemory>
    ensures { OnOk result (text.new.items ≡ text.old.items ++ name_at (option_map (λ p. p.now) point.entry)) }
{
    match point {
        Some(point) => put_name(text, point.name),
        None => put(text, "-"),
    }
}

/// Puts the name of a point last.
#[tactic(auto, unfolding(crate::specs::Reasons::point_text))]
fn put_point(text: &mut Vec<u8>, points: &[Point<'_>], point: usize) -> Result<(), NoMemory>
    ensures { OnOk result (text.new.items ≡ text.old.items ++ point_text points.now point) }
{
    put(text, "point ")?;
    put_name_at(text, points.get(point))
}

/// Puts how many packets of an interface it was.
#[tactic(auto, unfolding(crate::specs::Reasons::packets_text))]
fn put_packets(text: &mut Vec<u8>, interface: usize, packets: u64) -> Result<(), NoMemory>
    ensures { OnOk result (text.new.items ≡ text.old.items ++ packets_text interface packets) }
{
    put(text, "interface ")?;
    put_number(text, interface as u64)?;
    put_pair(text, "packets", packets)
}

/// Puts a copy last.
#[tactic(auto, unfolding(crate::specs::Reasons::copy_text))]
fn put_copy(
    alloc: Global,
    text: &mut Vec<u8>,
    interface: usize,
    source: Mac,
    number: u16,
) -> Result<(), NoMemory>
    ensures { OnOk result (text.new.items ≡ text.old.items ++ copy_text interface source number) }
{
    put_interface(text, interface)?;
    put_frame(alloc, text, source, number)
}

/// Puts a frame and a time last.
#[tactic(auto, unfolding(crate::specs::Reasons::after_text))]
fn put_after(
    alloc: Global,
    text: &mut Vec<u8>,
    source: Mac,
    number: u16,
    time: u64,
) -> Result<(), NoMemory>
    ensures { OnOk result (text.new.items ≡ text.old.items ++ after_text source number time) }
{
    put_frame(alloc, text, source, number)?;
    put_pair(text, "after", time / 1000)
}

/// Puts a point last, and the way by which alone it saw frames.
#[tactic(auto, unfolding(crate::specs::Reasons::way_text))]
fn put_way(text: &mut Vec<u8>, points: &[Point<'_>], point: usize, way: u8) -> Result<(), NoMemory>
    ensures { OnOk result (text.new.items ≡ text.old.items ++ way_text points.now point way) }
{
    put_point(text, points, point)?;
    put_pair(text, "way", u64::from(way))?;
    put(text, " alone")
}

/// Puts a point and a frame last, and the way by which alone it came.
#[tactic(auto, unfolding(crate::specs::Reasons::alone_text))]
fn put_alone(
    alloc: Global,
    text: &mut Vec<u8>,
    points: &[Point<'_>],
    point: usize,
    source: Mac,
    number: u16,
    way: u8,
) -> Result<(), NoMemory>
    ensures { OnOk result (text.new.items ≡ text.old.items ++ alone_text points.now point source number way) }
{
    put_point(text, points, point)?;
    put(text, " ")?;
    put_frame(alloc, text, source, number)?;
    put_pair(text, "way", u64::from(way))?;
    put(text, " alone")
}

/// Puts the numbers of a source last that are missing.
#[tactic(auto, unfolding(crate::specs::Reasons::numbers_text))]
fn put_numbers(
    alloc: Global,
    text: &mut Vec<u8>,
    source: Mac,
    first: u16,
    last: u16,
    missing: u64,
) -> Result<(), NoMemory>
    ensures { OnOk result (text.new.items ≡ text.old.items ++ numbers_text source first last missing) }
{
    put_mac(alloc, text, source)?;
    put_pair(text, "numbers", u64::from(first))?;
    put_pair(text, "to", u64::from(last))?;
    put_pair(text, "missing", missing)
}

/// Puts a copy last, and the number behind which it came.
#[tactic(auto, unfolding(crate::specs::Reasons::behind_text))]
fn put_behind(
    alloc: Global,
    text: &mut Vec<u8>,
    interface: usize,
    source: Mac,
    number: u16,
    behind: u16,
) -> Result<(), NoMemory>
    ensures { OnOk result (text.new.items ≡ text.old.items ++ behind_text interface source number behind) }
{
    put_copy(alloc, text, interface, source, number)?;
    put_pair(text, "behind", u64::from(behind))
}

/// Puts a frame last with which numbers began anew.
#[tactic(auto, unfolding(crate::specs::Reasons::restart_text))]
fn put_restart(
    alloc: Global,
    text: &mut Vec<u8>,
    source: Mac,
    number: u16,
    after: u16,
) -> Result<(), NoMemory>
    ensures { OnOk result (text.new.items ≡ text.old.items ++ restart_text source number after) }
{
    put_frame(alloc, text, source, number)?;
    put_pair(text, "after", u64::from(after))
}

/// Puts a crowd last.
#[tactic(auto, unfolding(crate::specs::Reasons::crowd_text))]
fn put_crowd(text: &mut Vec<u8>, frames: usize, table: u64) -> Result<(), NoMemory>
    ensures { OnOk result (text.new.items ≡ text.old.items ++ crowd_text frames table) }
{
    put_number(text, frames as u64)?;
    put(text, " frames in 400000 us, table ")?;
    put_number(text, table)
}

/// Puts a silence last.
#[tactic(auto, unfolding(crate::specs::Reasons::silence_text))]
fn put_silence(alloc: Global, text: &mut Vec<u8>, source: Mac, time: u64) -> Result<(), NoMemory>
    ensures { OnOk result (text.new.items ≡ text.old.items ++ silence_text source time) }
{
    put_mac(alloc, text, source)?;
    put_pair(text, "for", time / 1000)
}

/// Puts a source last of which no supervision tells.
#[tactic(auto, unfolding(crate::specs::Reasons::unheard_text))]
fn put_unheard(alloc: Global, text: &mut Vec<u8>, source: Mac) -> Result<(), NoMemory>
    ensures { OnOk result (text.new.items ≡ text.old.items ++ unheard_text source) }
{
    put_mac(alloc, text, source)?;
    put(text, " no supervision")
}

/// Puts a supervision number last, and the one before it.
#[tactic(auto, unfolding(crate::specs::Reasons::life_text))]
fn put_life(
    alloc: Global,
    text: &mut Vec<u8>,
    source: Mac,
    number: u16,
    after: u16,
) -> Result<(), NoMemory>
    ensures { OnOk result (text.new.items ≡ text.old.items ++ life_text source number after) }
{
    put_mac(alloc, text, source)?;
    put(text, " supervision")?;
    put_pair(text, "number", u64::from(number))?;
    put_pair(text, "after", u64::from(after))
}

/// Puts octets last that are no frame.
#[tactic(auto, unfolding(crate::specs::Reasons::malformed_text))]
fn put_malformed(text: &mut Vec<u8>, interface: usize, fault: FrameFault) -> Result<(), NoMemory>
    ensures { OnOk result (text.new.items ≡ text.old.items ++ malformed_text interface fault) }
{
    put_interface(text, interface)?;
    put(text, fault_text(fault))
}

/// Puts a frame with no tag last.
#[tactic(auto, unfolding(crate::specs::Reasons::untagged_text))]
fn put_untagged(
    alloc: Global,
    text: &mut Vec<u8>,
    interface: usize,
    ethertype: u16,
    source: Mac,
) -> Result<(), NoMemory>
    ensures { OnOk result (text.new.items ≡ text.old.items ++ untagged_text interface ethertype source) }
{
    put_interface(text, interface)?;
    put(text, "type ")?;
    put_hex16(text, ethertype)?;
    put(text, " from ")?;
    put_mac(alloc, text, source)
}

/// Puts a frame last, its size and what it should be.
#[tactic(auto, unfolding(crate::specs::Reasons::size_text))]
fn put_size(
    alloc: Global,
    text: &mut Vec<u8>,
    source: Mac,
    number: u16,
    size: u16,
    is: usize,
) -> Result<(), NoMemory>
    ensures { OnOk result (text.new.items ≡ text.old.items ++ size_text source number size is) }
{
    put_frame(alloc, text, source, number)?;
    put_pair(text, "size", u64::from(size))?;
    put_pair(text, "is", is as u64)
}

/// Puts a frame and its path last.
#[tactic(auto, unfolding(crate::specs::Reasons::lane_text))]
fn put_lane(
    alloc: Global,
    text: &mut Vec<u8>,
    source: Mac,
    number: u16,
    path: u8,
) -> Result<(), NoMemory>
    ensures { OnOk result (text.new.items ≡ text.old.items ++ lane_text source number path) }
{
    put_frame(alloc, text, source, number)?;
    put_pair(text, "path", u64::from(path))
}

/// Puts what is told of the first that a reason counts.
fn put_what(
    alloc: Global,
    text: &mut Vec<u8>,
    points: &[Point<'_>],
    what: &What,
) -> Result<(), NoMemory>
    ensures { OnOk result (text.new.items ≡ text.old.items ++ what_text points.now what.now) }
{
    match what {
        What::NoFrame => put(text, "no tagged frame"),
        What::AllOpen => put(text, "all group frames are open"),
        What::Packets { interface, packets } => put_packets(text, *interface, *packets),
        What::Source { source } => put_mac(alloc, text, *source),
        What::Copy {
            interface,
            source,
            number,
        } => put_copy(alloc, text, *interface, *source, *number),
        What::Frame { source, number } => put_frame(alloc, text, *source, *number),
        What::After {
            source,
            number,
            time,
        } => put_after(alloc, text, *source, *number, *time),
        What::Way { point, way } => put_way(text, points, *point, *way),
        What::Alone {
            point,
            source,
            number,
            way,
        } => put_alone(alloc, text, points, *point, *source, *number, *way),
        What::Numbers {
            source,
            first,
            last,
            missing,
        } => put_numbers(alloc, text, *source, *first, *last, *missing),
        What::Behind {
            interface,
            source,
            number,
            behind,
        } => put_behind(alloc, text, *interface, *source, *number, *behind),
        What::Restart {
            source,
            number,
            after,
        } => put_restart(alloc, text, *source, *number, *after),
        What::Frames { frames, table } => put_crowd(text, *frames, *table),
        What::Silence { source, time } => put_silence(alloc, text, *source, *time),
        What::NoSupervision { source } => put_unheard(alloc, text, *source),
        What::Life {
            source,
            number,
            after,
        } => put_life(alloc, text, *source, *number, *after),
        What::Fault { interface, fault } => put_malformed(text, *interface, *fault),
        What::Untagged {
            interface,
            ethertype,
            source,
        } => put_untagged(alloc, text, *interface, *ethertype, *source),
        What::Size {
            source,
            number,
            size,
            is,
        } => put_size(alloc, text, *source, *number, *size, *is),
        What::Lane {
            source,
            number,
            path,
        } => put_lane(alloc, text, *source, *number, *path),
    }
}

/// Puts where a reason first holds.
#[tactic(auto, unfolding(crate::specs::Reasons::spot_text))]
fn put_spot(text: &mut Vec<u8>, start: u64, spot: Option<Spot>) -> Result<(), NoMemory>
    ensures { OnOk result (text.new.items ≡ text.old.items ++ spot_text start spot) }
{
    match spot {
        Some(spot) => {
            put_pair(text, "packet", u64::from(spot.packet))?;
            put_pair(text, "at", us_since(start, spot.at))
        }
        None => put(text, " packet - at -"),
    }
}

/// Puts where a reason first holds, and what is told of that, with the end of the line.
#[tactic(auto, unfolding(crate::specs::Reasons::rest_text))]
fn put_rest(
    alloc: Global,
    text: &mut Vec<u8>,
    start: u64,
    points: &[Point<'_>],
    reason: &Reason,
) -> Result<(), NoMemory>
    ensures { OnOk result (text.new.items ≡ text.old.items ++ rest_text start points.now reason.now) }
{
    put_spot(text, start, reason.spot)?;
    put(text, " ")?;
    put_what(alloc, text, points, &reason.what)?;
    end_line(text)
}

/// Puts the line of a source that is absent.
#[tactic(auto, unfolding(crate::specs::Reasons::absent_line))]
fn put_absent(alloc: Global, text: &mut Vec<u8>, mac: Mac) -> Result<(), NoMemory>
    ensures { OnOk result (text.new.items ≡ text.old.items ++ absent_line mac) }
{
    put(text, "absent ")?;
    put_mac(alloc, text, mac)?;
    end_line(text)
}

/// Puts the lines of the sources that are absent.
#[tactic(auto, using(hsr_frame::proofs::OneMore::grown))]
fn put_all_absent(alloc: Global, text: &mut Vec<u8>, macs: &[Mac]) -> Result<(), NoMemory>
    ensures { OnOk result (text.new.items ≡ text.old.items ++ flat_map absent_line macs.now) }
{
    for mac in macs {
        put_absent(alloc, text, *mac)?;
    }
    Ok(())
}

/// Puts the line of a reason.
#[tactic(auto, unfolding(crate::specs::Reasons::reason_line))]
fn put_reason(
    alloc: Global,
    text: &mut Vec<u8>,
    start: u64,
    points: &[Point<'_>],
    reason: &Reason,
) -> Result<(), NoMemory>
    ensures { OnOk result (text.new.items ≡ text.old.items ++ reason_line start points.now reason.now) }
{
    put(text, "reason ")?;
    put(text, word_text(reason.word))?;
    put(text, " ")?;
    put_number(text, reason.count)?;
    put_rest(alloc, text, start, points, reason)
}

/// Puts the lines of reasons.
#[tactic(auto, using(hsr_frame::proofs::OneMore::grown))]
fn put_all_reasons(
    alloc: Global,
    text: &mut Vec<u8>,
    start: u64,
    points: &[Point<'_>],
    reasons: &[Reason],
) -> Result<(), NoMemory>
    ensures { OnOk result (text.new.items ≡ text.old.items ++ flat_map (reason_line start points.now) reasons.now) }
{
    for reason in reasons {
        put_reason(alloc, text, start, points, reason)?;
    }
    Ok(())
}

/// Puts the line of a ring for which there is no doubt.
#[tactic(auto, unfolding(crate::specs::Reasons::healthy_line))]
fn put_healthy(text: &mut Vec<u8>, health: &Health<'_>) -> Result<(), NoMemory>
    ensures { OnOk result (text.new.items ≡ text.old.items ++ healthy_line health.now) }
{
    put(text, "healthy ")?;
    put_number(text, health.frames)?;
    put_pair(text, "twice", health.twice)?;
    put_pair(text, "of", health.judged)?;
    put_pair(
        text,
        "for",
        us_since(health.outline.start, health.outline.end),
    )?;
    end_line(text)
}

/// Puts the line of the first reason for doubt.
#[tactic(auto, unfolding(crate::specs::Reasons::doubt_line))]
fn put_doubt(
    alloc: Global,
    text: &mut Vec<u8>,
    start: u64,
    points: &[Point<'_>],
    reason: &Reason,
) -> Result<(), NoMemory>
    ensures { OnOk result (text.new.items ≡ text.old.items ++ doubt_line start points.now reason.now) }
{
    put(text, "doubt ")?;
    put(text, word_text(reason.word))?;
    put_rest(alloc, text, start, points, reason)
}

/// Puts the verdict.
fn put_verdict(alloc: Global, text: &mut Vec<u8>, health: &Health<'_>) -> Result<(), NoMemory>
    ensures { OnOk result (text.new.items ≡ text.old.items ++ verdict_text health.now) }
{
    match health.reasons.as_slice() {
        [] => put_healthy(text, health),
        [first, ..] => {
            let points = health.tapped.points.as_slice();
            put_doubt(alloc, text, health.outline.start, points, first)
        }
    }
}

/// Puts the lines of reasons, and the verdict.
#[tactic(auto, unfolding(crate::specs::Reasons::reasons_text))]
pub(crate) fn put_reasons(
    alloc: Global,
    text: &mut Vec<u8>,
    health: &Health<'_>,
) -> Result<(), NoMemory>
    ensures { OnOk result (text.new.items ≡ text.old.items ++ reasons_text health.now) }
{
    let points = health.tapped.points.as_slice();
    let reasons = health.reasons.as_slice();
    put_all_absent(alloc, text, health.absent.as_slice())?;
    put_all_reasons(alloc, text, health.outline.start, points, reasons)?;
    put_verdict(alloc, text, health)
}
