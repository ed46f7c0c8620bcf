//! All lines of a report.
ghost use Rattle.std.specs.Prelude.{◌≡◌, ◌++◌, ◌-◌, ◌+◌, ◌^◌, IfOk, OnOk, length, min, slice_get, sum, take, unwrap_or};
ghost use Rattle.std.specs.List.{flat_map};
ghost use Rattle.hsr_tap_passages.specs.Shown.{shown_view};
ghost use Rattle.hsr_judging_text.specs.Deviations.{IsInOrder, deviations, gravest};
ghost use Rattle.hsr_judging_text.specs.Lines.{line};
ghost use Rattle.hsr_judging_text.specs.Ports.{not_tapped, port_lines, told_ends};
ghost use Rattle.hsr_judging_text.specs.Report.{PutsReport, conforms_line, copies_text, counted_text, deviates_line, deviation_lines, dropped, ends_text, first_line, first_text, ignored_of, interface_by, interface_line, interface_lines, interfaces_from, mac_or, more_line, name_text, numbers_text, open_of, owner_text, passed_text, passing_text, reference_line, reference_lines, report_by, scene_of, sent_text, tap_text, total, verdict_line};
ghost use Rattle.hsr_judging_text.specs.Verdicts.{verdict_of};

use crate::deviation::{Deviation, deviations_of, gravest};
use crate::lines::{Scene, put_line};
use crate::ports::{both, expected_as, not_tapped, observed_as, put_port, told_ends};
use crate::sums::put_sums;
use crate::words::{put_ends, put_ignored};
use hsr_capture_reader::Interface;
use hsr_frame::{Counters, Mac, NoMemory};
use hsr_judging::{ExpectedFate, Judgement, ObservedFate};
use hsr_playback::Taps;
use hsr_tap_device::{Device, End, Owner, Passing, Tap};
use hsr_tap_passages::Shown;
use hsr_text::{put, put_count, put_mac};
use hsr_toml::put_shown;
use std::alloc::Global;

/// What is shown of a judgement.
#[derive(Clone, Copy, PartialEq, Eq)]
pub struct Showing {
    /// How many deviations are told.
    pub list: usize,
    /// Whether all octets of their frames are.
    pub octets: bool,
    /// Whether lines are told that nobody acts on, and numbers that are 0.
    pub full: bool,
}

// ---- the first line

/// The sum of numbers, or the greatest number of 64 bits where it is more.
fn total(numbers: &[u64]) -> u64
    ensures { result ≡ total numbers.now }
{
    let mut total = 0u64;
    for number in numbers {
        total = total.saturating_add(*number);
    }
    total
}

/// Puts an address last; a hyphen for none.
fn put_mac_or(alloc: Global, text: &mut Vec<u8>, mac: Option<Mac>) -> Result<(), NoMemory>
    ensures { OnOk result (text.new.items ≡ text.old.items ++ mac_or mac) }
{
    match mac {
        None => put(text, "-"),
        Some(mac) => put_mac(alloc, text, mac),
    }
}

/// Puts the role, the address and the mode of a device last.
#[tactic(auto, unfolding(crate::specs::Report::owner_text))]
fn put_owner(alloc: Global, text: &mut Vec<u8>, owner: &Owner) -> Result<(), NoMemory>
    ensures { OnOk result (text.new.items ≡ text.old.items ++ owner_text owner.now) }
{
    put(text, owner.role.word())?;
    put(text, " ")?;
    put_mac_or(alloc, text, owner.mac)?;
    put(text, " mode ")?;
    put(text, owner.mode.word())
}

/// Puts how many entries its tables have last, how long copies may take, how many packets count and how long the capture is.
#[tactic(auto, unfolding(crate::specs::Report::numbers_text))]
fn put_numbers(text: &mut Vec<u8>, device: &Device, shown: &Shown) -> Result<(), NoMemory>
    ensures { OnOk result (text.new.items ≡ text.old.items
        ++ numbers_text device.now (shown_view shown.now)) }
{
    put_count(text, b" table ", u64::from(device.table))?;
    put_count(text, b" within ", device.times.within)?;
    put_count(text, b" packets ", total(shown.counts.as_slice()))?;
    put_count(text, b" us ", shown.length / 1000)
}

/// Puts the first line last.
#[tactic(auto, unfolding(crate::specs::Report::first_line))]
fn put_first(
    alloc: Global,
    text: &mut Vec<u8>,
    device: &Device,
    shown: &Shown,
) -> Result<(), NoMemory>
    ensures { OnOk result (text.new.items ≡ text.old.items
        ++ first_line device.now (shown_view shown.now)) }
{
    put(text, "judge 1 ")?;
    put_owner(alloc, text, &device.owner)?;
    put_numbers(text, device, shown)?;
    put(text, " ignore ")?;
    put_ignored(alloc, text, &device.ignored)?;
    put(text, "\n")
}

// ---- interfaces

/// Which way packets pass an end, in words.
fn passing_text(passing: Passing) -> &'static str
    ensures { result.now ≡ passing_text passing }
{
    match passing {
        Passing::In => " in",
        Passing::Out => " out",
        Passing::Lane => " lane",
        Passing::Flags => "",
    }
}

/// Puts what an interface is last; a hyphen where it is left out.
fn put_tap(text: &mut Vec<u8>, tap: Option<Tap>) -> Result<(), NoMemory>
    ensures { OnOk result (text.new.items ≡ text.old.items ++ tap_text tap) }
{
    match tap {
        None => put(text, "-"),
        Some(tap) => {
            put(text, tap.end.word())?;
            put(text, passing_text(tap.passing))
        }
    }
}

/// Puts the name of an interface last; a hyphen for none.
fn put_name(text: &mut Vec<u8>, name: &[u8]) -> Result<(), NoMemory>
    ensures { OnOk result (text.new.items ≡ text.old.items ++ name_text name.now) }
{
    if name.len() == 0 {
        return put(text, "-");
    }
    put_shown(text, name)
}

/// Puts the line of an interface last.
#[tactic(auto, unfolding(crate::specs::Report::interface_line))]
fn put_interface(
    text: &mut Vec<u8>,
    i: usize,
    packets: u64,
    tap: Option<Tap>,
    name: &[u8],
) -> Result<(), NoMemory>
    ensures { OnOk result (text.new.items ≡ text.old.items ++ interface_line i packets tap name.now) }
{
    put_count(text, b"interface ", i as u64)?;
    put_count(text, b" packets ", packets)?;
    put(text, " is ")?;
    put_tap(text, tap)?;
    put(text, " name ")?;
    put_name(text, name)?;
    put(text, "\n")
}

/// How many packets of an interface count.
fn count_at(counts: &[u64], i: usize) -> u64
    ensures { result ≡ unwrap_or (slice_get counts.now i) 0 }
{
    counts.get(i).copied().unwrap_or(0)
}

/// What an interface is.
fn tap_at(interfaces: &[Option<Tap>], i: usize) -> Option<Tap>
    ensures { result ≡ unwrap_or (slice_get interfaces.now i) None }
{
    interfaces.get(i).copied().unwrap_or(None)
}

/// Puts the line of an interface last, by its index.
fn put_interface_by(
    text: &mut Vec<u8>,
    shown: &Shown,
    i: usize,
    interface: &Interface<'_>,
) -> Result<(), NoMemory>
    ensures { OnOk result (text.new.items ≡ text.old.items
        ++ interface_by (shown_view shown.now) i interface.now) }
{
    let packets = count_at(shown.counts.as_slice(), i);
    let tap = tap_at(shown.interfaces.as_slice(), i);
    put_interface(text, i, packets, tap, interface.name)
}

/// Puts the lines of the interfaces last.
#[tactic(auto, using(crate::proofs::Copies::interfaces_step))]
fn put_interfaces(
    text: &mut Vec<u8>,
    shown: &Shown,
    interfaces: &[Interface<'_>],
) -> Result<(), NoMemory>
    ensures { OnOk result (text.new.items ≡ text.old.items
        ++ interfaces_from (shown_view shown.now) 0 interfaces.now) }
{
    for (i, interface) in interfaces.iter().enumerate() {
        put_interface_by(text, shown, i, interface)?;
    }
    Ok(())
}

/// Puts the lines of the interfaces last, if all is told.
fn put_interfaces_if(
    text: &mut Vec<u8>,
    full: bool,
    shown: &Shown,
    interfaces: &[Interface<'_>],
) -> Result<(), NoMemory>
    ensures { OnOk result (text.new.items ≡ text.old.items
        ++ interface_lines full (shown_view shown.now) interfaces.now) }
{
    if full {
        put_interfaces(text, shown, interfaces)
    } else {
        Ok(())
    }
}

// ---- deviations

/// The first so many of some, or all where there are fewer.
fn first_of(deviations: &[Deviation], list: usize) -> &[Deviation]
    ensures { result.now ≡ take list deviations.now }
{
    deviations.get(..list).unwrap_or(deviations)
}

/// Puts the lines of deviations last.
#[tactic(auto, using(hsr_frame::proofs::OneMore::grown))]
fn put_lines(
    alloc: Global,
    text: &mut Vec<u8>,
    scene: &Scene<'_>,
    all: bool,
    deviations: &[Deviation],
) -> Result<(), NoMemory>
    ensures { OnOk result (text.new.items ≡ text.old.items
        ++ flat_map (line scene.now all) deviations.now) }
{
    for deviation in deviations {
        put_line(alloc, text, scene, all, deviation)?;
    }
    Ok(())
}

/// Puts how many more there are last, if there are more.
fn put_more(text: &mut Vec<u8>, more: usize) -> Result<(), NoMemory>
    ensures { OnOk result (text.new.items ≡ text.old.items ++ more_line more) }
{
    if more == 0 {
        return Ok(());
    }
    put_count(text, b"more ", more as u64)?;
    put(text, "\n")
}

/// Puts the lines of so many deviations at most last, and of how many more there are.
#[tactic(auto, unfolding(crate::specs::Report::deviation_lines))]
fn put_deviations(
    alloc: Global,
    text: &mut Vec<u8>,
    scene: &Scene<'_>,
    list: usize,
    all: bool,
    deviations: &[Deviation],
) -> Result<(), NoMemory>
    ensures { OnOk result (text.new.items ≡ text.old.items
        ++ deviation_lines scene.now list all deviations.now) }
{
    put_lines(alloc, text, scene, all, first_of(deviations, list))?;
    put_more(text, deviations.len().saturating_sub(list))
}

// ---- what the reference counted

/// How many frames the reference dropped.
fn dropped(counters: &Counters) -> u64
    ensures { result ≡ dropped counters.now }
{
    let outside = both(both(counters.foreign, counters.local), counters.untagged);
    both(both(outside, counters.tagged), counters.malformed)
}

/// Puts how many frames the reference sent last, and took up.
#[tactic(auto, unfolding(crate::specs::Report::sent_text))]
fn put_sent(text: &mut Vec<u8>, own: usize, counters: &Counters) -> Result<(), NoMemory>
    ensures { OnOk result (text.new.items ≡ text.old.items ++ sent_text own counters.now) }
{
    put_count(text, b"reference own ", own as u64)?;
    put_count(text, b" sent ", counters.sent)?;
    put_count(text, b" life ", counters.life)?;
    put_count(text, b" up ", counters.up)
}

/// Puts how many frames the reference sent on last, and dropped.
#[tactic(auto, unfolding(crate::specs::Report::passed_text))]
fn put_passed(text: &mut Vec<u8>, counters: &Counters) -> Result<(), NoMemory>
    ensures { OnOk result (text.new.items ≡ text.old.items ++ passed_text counters.now) }
{
    put_count(text, b" forwarded ", counters.forwarded)?;
    put_count(text, b" duplicate ", counters.duplicate)?;
    put_count(text, b" returned ", counters.returned)?;
    put_count(text, b" dropped ", dropped(counters))?;
    put(text, "\n")
}

/// Puts the line of what the reference counted last.
#[tactic(auto, unfolding(crate::specs::Report::reference_line))]
fn put_reference(text: &mut Vec<u8>, judgement: &Judgement<'_>) -> Result<(), NoMemory>
    ensures { OnOk result (text.new.items ≡ text.old.items ++ reference_line judgement.now) }
{
    put_sent(text, judgement.own, &judgement.played.counters)?;
    put_passed(text, &judgement.played.counters)
}

/// Puts the line of what the reference counted last, if all is told.
fn put_reference_if(
    text: &mut Vec<u8>,
    full: bool,
    judgement: &Judgement<'_>,
) -> Result<(), NoMemory>
    ensures { OnOk result (text.new.items ≡ text.old.items ++ reference_lines full judgement.now) }
{
    if full {
        put_reference(text, judgement)
    } else {
        Ok(())
    }
}

// ---- the verdict

/// How many copies need not agree.
fn ignored_of(judgement: &Judgement<'_>) -> u64
    ensures { result ≡ ignored_of judgement.now }
{
    both(
        observed_as(judgement, ObservedFate::Ignored),
        expected_as(judgement, ExpectedFate::Ignored),
    )
}

/// How many copies may lie outside of the capture.
fn open_of(judgement: &Judgement<'_>) -> u64
    ensures { result ≡ open_of judgement.now }
{
    both(
        observed_as(judgement, ObservedFate::Open),
        expected_as(judgement, ExpectedFate::Open),
    )
}

/// Puts the last line of a device that conforms; `left` are the ends that aren't tapped.
#[tactic(auto, unfolding(crate::specs::Report::conforms_line))]
fn put_conforms(text: &mut Vec<u8>, judgement: &Judgement<'_>, left: &[End]) -> Result<(), NoMemory>
    ensures { OnOk result (text.new.items ≡ text.old.items
        ++ conforms_line judgement.now left.now) }
{
    put_count(
        text,
        b"conforms ",
        observed_as(judgement, ObservedFate::Same),
    )?;
    put_count(text, b" ignored ", ignored_of(judgement))?;
    put_count(text, b" open ", open_of(judgement))?;
    put(text, " not-tapped ")?;
    put_ends(text, left)?;
    put(text, "\n")
}

/// Puts how many deviations there are last, and of each word.
#[tactic(auto, unfolding(crate::specs::Report::counted_text))]
fn put_counted(text: &mut Vec<u8>, judgement: &Judgement<'_>, count: usize) -> Result<(), NoMemory>
    ensures { OnOk result (text.new.items ≡ text.old.items ++ counted_text judgement.now count) }
{
    put_count(text, b"deviates ", count as u64)?;
    put_count(
        text,
        b" missing ",
        expected_as(judgement, ExpectedFate::Missing),
    )?;
    put_count(
        text,
        b" extra ",
        observed_as(judgement, ObservedFate::Extra),
    )?;
    put_count(text, b" late ", observed_as(judgement, ObservedFate::Late))?;
    put_count(
        text,
        b" altered ",
        observed_as(judgement, ObservedFate::Altered),
    )
}

/// Puts the first deviation of the gravest word last.
#[tactic(auto, unfolding(crate::specs::Report::first_text))]
fn put_first_deviation(text: &mut Vec<u8>, first: &Deviation) -> Result<(), NoMemory>
    ensures { OnOk result (text.new.items ≡ text.old.items ++ first_text first.now) }
{
    put(text, " first ")?;
    put(text, first.word.text())?;
    put_count(text, b" at ", first.at)?;
    put_count(text, b" packet ", u64::from(first.packet))?;
    put(text, "\n")
}

/// Puts the last line of a device that deviates.
fn put_deviates(
    text: &mut Vec<u8>,
    judgement: &Judgement<'_>,
    count: usize,
    first: Option<Deviation>,
) -> Result<(), NoMemory>
    ensures { OnOk result (text.new.items ≡ text.old.items
        ++ deviates_line judgement.now count first) }
{
    match first {
        None => put(text, "deviates 0 empty\n"),
        Some(first) => {
            put_counted(text, judgement, count)?;
            put_first_deviation(text, &first)
        }
    }
}

/// Puts the last line, and gives whether the device conforms.
fn put_verdict(
    text: &mut Vec<u8>,
    judgement: &Judgement<'_>,
    left: &[End],
    deviations: &[Deviation],
) -> Result<bool, NoMemory>
    ensures said { IfOk result (λ said. said ≡ verdict_of judgement.now) }
    ensures line { OnOk result (text.new.items ≡ text.old.items
        ++ verdict_line judgement.now left.now deviations.now) }
{
    if judgement.conforms() {
        put_conforms(text, judgement, left)?;
        Ok(true)
    } else {
        put_deviates(text, judgement, deviations.len(), gravest(deviations))?;
        Ok(false)
    }
}

// ---- the whole

/// Puts the lines of ends last.
#[tactic(auto, using(hsr_frame::proofs::OneMore::grown))]
fn put_ports(
    alloc: Global,
    text: &mut Vec<u8>,
    full: bool,
    scene: &Scene<'_>,
    taps: &Taps,
    ends: &[End],
) -> Result<(), NoMemory>
    ensures { OnOk result (text.new.items ≡ text.old.items
        ++ flat_map (port_lines full scene.now taps.now) ends.now) }
{
    for end in ends {
        put_port(alloc, text, full, scene, taps, *end)?;
    }
    Ok(())
}

/// Puts the lines last that tell of copies.
#[tactic(auto, unfolding(crate::specs::Report::copies_text))]
fn put_copies(
    alloc: Global,
    text: &mut Vec<u8>,
    showing: Showing,
    device: &Device,
    interfaces: &[Interface<'_>],
    shown: &Shown,
    scene: &Scene<'_>,
    told: &[Deviation],
) -> Result<(), NoMemory>
    ensures { OnOk result (text.new.items ≡ text.old.items
        ++ copies_text showing device.now interfaces.now (shown_view shown.now) scene.now told.now) }
{
    put_first(alloc, text, device, shown)?;
    put_interfaces_if(text, showing.full, shown, interfaces)?;
    put_deviations(alloc, text, scene, showing.list, showing.octets, told)?;
    put_sums(alloc, text, scene, told)
}

/// Puts the lines last that tell of ends, and the verdict; gives whether the device conforms.
#[tactic(auto, unfolding(crate::specs::Report::ends_text))]
fn put_of_ends(
    alloc: Global,
    text: &mut Vec<u8>,
    showing: Showing,
    scene: &Scene<'_>,
    taps: &Taps,
    ends: &[End],
    told: &[Deviation],
) -> Result<bool, NoMemory>
    ensures said { IfOk result (λ said. said ≡ verdict_of scene.now.judgement) }
    ensures lines { OnOk result (text.new.items ≡ text.old.items
        ++ ends_text showing scene.now taps.now ends.now told.now) }
{
    let left = not_tapped(alloc, taps, ends)?;
    put_ports(alloc, text, showing.full, scene, taps, ends)?;
    put_reference_if(text, showing.full, scene.judgement)?;
    put_verdict(text, scene.judgement, left.as_slice(), told)
}

/// Puts the report of a judgement last, by what deviates in its order, and gives whether the device conforms.
fn put_by(
    alloc: Global,
    text: &mut Vec<u8>,
    showing: Showing,
    device: &Device,
    interfaces: &[Interface<'_>],
    shown: &Shown,
    judgement: &Judgement<'_>,
    told: &[Deviation],
) -> Result<bool, NoMemory>
    ensures said { IfOk result (λ said. said ≡ verdict_of judgement.now) }
    ensures lines { OnOk result (text.new.items ≡ text.old.items
        ++ report_by showing device.now interfaces.now (shown_view shown.now) shown.now.taps judgement.now told.now) }
{
    let scene = Scene {
        device,
        passages: shown.passages.as_slice(),
        judgement,
    };
    let taps = &shown.taps;
    let ends = told_ends(alloc, device.owner.role, taps)?;
    put_copies(
        alloc, text, showing, device, interfaces, shown, &scene, told,
    )?;
    put_of_ends(alloc, text, showing, &scene, taps, ends.as_slice(), told)
}

/// Puts the report of a judgement last, and gives whether the device conforms. `NoMemory` where room is refused; a front of the report may
/// stand there then.
pub(crate) fn put_report(
    alloc: Global,
    text: &mut Vec<u8>,
    device: &Device,
    interfaces: &[Interface<'_>],
    shown: &Shown,
    judgement: &Judgement<'_>,
    showing: Showing,
) -> Result<bool, NoMemory>
    ensures said { IfOk result (λ said. said ≡ verdict_of judgement.now) }
    ensures report { OnOk result (PutsReport showing device.now interfaces.now
        (shown_view shown.now) shown.now.taps judgement.now text.old.items text.new.items) }
{
    let told = deviations_of(alloc, judgement)?;
    put_by(
        alloc,
        text,
        showing,
        device,
        interfaces,
        shown,
        judgement,
        told.as_slice(),
    )
}
