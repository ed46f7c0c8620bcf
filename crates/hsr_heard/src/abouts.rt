//! Whom supervision tells of, and when it was silent.
ghost use Rattle.std.specs.Prelude.{◌≡◌, ◌-◌, ◌/◌, ◌<◌, ◌≤◌, ◌++◌, drop, length, IfOk, OnOk, IsPermutation};
ghost use Rattle.std.specs.List.Sorted.{IsSortedByKey, IsStableByKey};
ghost use Rattle.std.specs.Ordering.{nat_cmp};
ghost use Rattle.hsr_frame.specs.Address.{IsAddress};
ghost use Rattle.hsr_heard.specs.Finding.{IsRun, PutsAbout, key_of};
ghost use Rattle.hsr_heard.specs.Subjects.{AreAbouts, IsAboutBy, frames_in, from_first, is_by, last_by, silence_between, silences_of, steps_of};

use crate::heard::Heard;
use hsr_address::number_of;
use hsr_frame::{Mac, NoMemory};
use hsr_spread::{Spread, spread_of};
use hsr_supervision::SupKind;
use std::alloc::Global;

/// Whom supervision tells of. Moments are nanoseconds since 1970.
#[derive(Clone, Copy)]
pub struct About {
    pub mac: Mac,
    /// What the last frame says, and who sent it.
    pub kind: SupKind,
    pub redbox: Option<Mac>,
    pub source: Mac,
    /// How many frames there were, and the moments of the first and the last.
    pub heard: u64,
    pub first: u64,
    pub last: u64,
    /// The moments of the last copies on each way.
    pub by_0: Option<u64>,
    pub by_1: Option<u64>,
    /// From frame to frame, in microseconds.
    pub every: Option<Spread>,
}

/// A time of over 5 s in which supervision told nothing of an address.
#[derive(Clone, Copy)]
pub struct Silence {
    pub mac: Mac,
    /// The index of the copy before it; none where the capture begins with it.
    pub copy: Option<u32>,
    pub from: u64,
    pub until: u64,
}

/// Whom supervision tells of, in the order of addresses, and all silences.
#[derive(Drop)]
pub struct Abouts {
    pub all: Vec<About>,
    pub silences: Vec<Silence>,
}

/// The longest time without supervision that is no doubt, in nanoseconds.
pub const SILENT: u64 = 5_000_000_000;

/// The copies that began their frames.
fn frames_in(alloc: Global, copies: &[Heard]) -> Result<Vec<Heard>, NoMemory>
    ensures { IfOk result (λ frames. frames.items ≡ frames_in copies.now) }
{
    let mut frames = Vec::new(alloc);
    for one in copies {
        if one.begins {
            frames.push(*one)?;
        }
    }
    Ok(frames)
}

/// Where the copies stand from the first on that began a frame.
fn first_begun(copies: &[Heard]) -> usize
    ensures within { result ≤ length copies.now }
    ensures rest { drop result copies.now ≡ from_first copies.now }
{
    for i in 0..copies.len() {
        if copies[i].begins {
            return i;
        }
    }
    copies.len()
}

/// Whether a copy is on way 0, or else whether it is on way 1.
fn is_by(one: &Heard, zero: bool) -> bool
    ensures { result ≡ is_by zero one.now }
{
    if zero { one.way == 0 } else { one.way != 0 }
}

/// The moment of the last copy on way 0, or else on way 1.
fn last_by(copies: &[Heard], zero: bool) -> Option<u64>
    ensures { result ≡ last_by zero copies.now }
{
    let mut last = None;
    for one in copies {
        if is_by(one, zero) {
            last = Some(one.at);
        }
    }
    last
}

/// From one moment to another, in microseconds.
fn step(from: u64, to: u64) -> u64
    ensures { result ≡ (to - from) / 1000 }
{
    to.saturating_sub(from) / 1000
}

/// From each frame to the next, in microseconds.
fn steps_of(alloc: Global, frames: &[Heard]) -> Result<Vec<u64>, NoMemory>
    ensures { IfOk result (λ steps. steps.items ≡ steps_of frames.now) }
{
    let mut steps = Vec::new(alloc);
    for k in 1..frames.len() {
        steps.push(step(frames[k - 1].at, frames[k].at))?;
    }
    Ok(steps)
}

/// What is told of an address: by the frames about it, and by the copies from the first of them on.
fn about_by(alloc: Global, mac: Mac, frames: &[Heard], copies: &[Heard]) -> Result<About, NoMemory>
    requires { 0 < length frames.now }
    ensures about { IfOk result (IsAboutBy frames.now copies.now) }
    ensures mac { IfOk result (λ about. about.mac ≡ mac) }
{
    let first = &frames[0];
    let last = &frames[frames.len() - 1];
    let steps = steps_of(alloc, frames)?;
    Ok(About {
        mac,
        kind: last.said.kind,
        redbox: last.said.redbox,
        source: last.source,
        heard: frames.len() as u64,
        first: first.at,
        last: last.at,
        by_0: last_by(copies, true),
        by_1: last_by(copies, false),
        every: spread_of(alloc, steps.as_slice())?,
    })
}

/// Puts a silence last, if the time is long enough.
fn put_silence(
    silences: &mut Vec<Silence>,
    mac: Mac,
    copy: Option<u32>,
    from: u64,
    until: u64,
) -> Result<(), NoMemory>
    ensures { OnOk result (silences.new.items ≡ silences.old.items ++ silence_between mac copy from until) }
{
    if until.saturating_sub(from) > SILENT {
        silences.push(Silence {
            mac,
            copy,
            from,
            until,
        })?;
    }
    Ok(())
}

/// Puts the silences between the frames about an address, before the first and behind the last of them.
fn put_silences(
    silences: &mut Vec<Silence>,
    mac: Mac,
    frames: &[Heard],
    start: u64,
    end: u64,
) -> Result<(), NoMemory>
    ensures { OnOk result (silences.new.items ≡ silences.old.items ++ silences_of start end mac frames.now) }
{
    let mut from = start;
    let mut copy = None;
    for one in frames {
        put_silence(silences, mac, copy, from, one.at)?;
        from = one.at;
        copy = Some(one.copy);
    }
    put_silence(silences, mac, copy, from, end)
}

/// Puts what is told of an address by copies about it, if one of them began a frame.
fn put_about(
    alloc: Global,
    told: &mut Abouts,
    mac: Mac,
    copies: &[Heard],
    start: u64,
    end: u64,
) -> Result<(), NoMemory>
    ensures { OnOk result (PutsAbout start end mac copies.now told.old told.new) }
{
    let frames = frames_in(alloc, copies)?;
    if frames.is_empty() {
        return Ok(());
    }
    let since = &copies[first_begun(copies)..];
    let about = about_by(alloc, mac, frames.as_slice(), since)?;
    told.all.push(about)?;
    put_silences(&mut told.silences, mac, frames.as_slice(), start, end)
}

/// The address that a copy is about, as a number.
fn key_of(one: &Heard) -> u64
    ensures number { result ≡ key_of one.now }
    ensures address { IsAddress one.now.said.about }
{
    number_of(one.said.about)
}

/// Where those end that are about the same address as the copy at an index.
fn end_of_run(copies: &[Heard], from: usize) -> usize
    requires { from < length copies.now }
    ensures { IsRun copies.now from result }
{
    let own = key_of(&copies[from]);
    for k in from + 1..copies.len() {
        if key_of(&copies[k]) != own {
            return k;
        }
    }
    copies.len()
}

/// Whom a copy is about.
fn mac_of(one: &Heard) -> Mac
    ensures { result ≡ one.now.said.about }
{
    let said = one.said;
    said.about
}

/// Whom copies tell of, which are in the order of the addresses that they are about.
fn told_by(alloc: Global, copies: &[Heard], start: u64, end: u64) -> Result<Abouts, NoMemory>
    requires { IsSortedByKey key_of nat_cmp copies.now }
    ensures { IfOk result (λ told. AreAbouts copies.now start end told.all.items told.silences.items) }
{
    let mut told = Abouts {
        all: Vec::new(alloc),
        silences: Vec::new(alloc),
    };
    let mut from = 0;
    while from < copies.len() {
        let until = end_of_run(copies, from);
        let mac = mac_of(&copies[from]);
        put_about(alloc, &mut told, mac, &copies[from..until], start, end)?;
        from = until;
    }
    Ok(told)
}

/// Copies in the order of the addresses that they are about; those about one stay as they stood.
fn by_about(heard: Vec<Heard>) -> Result<Vec<Heard>, NoMemory>
    ensures same { IfOk result (λ sorted. IsPermutation heard.items sorted.items) }
    ensures sorted { IfOk result (λ sorted. IsSortedByKey key_of nat_cmp sorted.items) }
    ensures stable { IfOk result (λ sorted. IsStableByKey key_of nat_cmp heard.items sorted.items) }
{
    let mut sorted = heard;
    sorted.sort_by_key(|one| number_of(one.said.about))?;
    Ok(sorted)
}

/// Whom supervision tells of between two moments (nanoseconds since 1970), by all its copies in the order of time (IEC 62439-3 clause 5.7).
/// `NoMemory` where room is refused.
pub fn abouts_of(alloc: Global, heard: Vec<Heard>, start: u64, end: u64) -> Result<Abouts, NoMemory>
    ensures { IfOk result (λ told. AreAbouts heard.items start end told.all.items told.silences.items) }
{
    let sorted = by_about(heard)?;
    let told = told_by(alloc, sorted.as_slice(), start, end)?;
    Ok(told)
}
