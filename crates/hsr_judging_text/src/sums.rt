//! Deviations of one kind together.
ghost use Rattle.std.specs.Prelude.{◌≡◌, ◌≤◌, ◌++◌, IfOk, OnOk, length, position, slice_get};
ghost use Rattle.std.specs.List.{flat_map, insert};
ghost use Rattle.hsr_judging_text.specs.Lines.{kind};
ghost use Rattle.hsr_judging_text.specs.Sums.{counted, counted_at, first_sum, is_from, is_there, more_at, place, sum_line, sum_lines, sums_of};

use crate::deviation::Deviation;
use crate::kinds::kind_of;
use crate::lines::Scene;
use hsr_frame::NoMemory;
use hsr_node::Octets;
use hsr_text::{put, put_count, put_octets};
use std::alloc::Global;

/// Deviations of one kind: how many, and the packet of the first.
#[derive(Drop)]
pub(crate) struct Sum {
    pub kind: Octets,
    pub count: u64,
    pub packet: u32,
}

/// Whether the kind of a sum isn't before this one.
fn is_from(kind: &[u8], sum: &Sum) -> bool
    ensures { result ≡ is_from kind.now sum.now }
{
    !kind.cmp(&sum.kind.as_slice()).is_gt()
}

/// The index of the first sum whose kind isn't before this one.
fn first_from(sums: &[Sum], kind: &[u8]) -> Option<usize>
    ensures { result ≡ position (is_from kind.now) sums.now }
{
    sums.iter().position(|sum| is_from(kind, sum))
}

/// How many sums have a kind before this one.
fn place(sums: &[Sum], kind: &[u8]) -> usize
    ensures value { result ≡ place sums.now kind.now }
    ensures within { result ≤ length sums.now }
{
    match first_from(sums, kind) {
        Some(index) => index,
        None => sums.len(),
    }
}

/// Whether the sum at a place is of this kind.
fn is_there(sums: &[Sum], at: usize, kind: &[u8]) -> bool
    ensures { result ≡ is_there kind.now (slice_get sums.now at) }
{
    at < sums.len() && sums[at].kind.as_slice() == kind
}

/// Counts one more deviation at a place.
fn one_more(sums: &mut [Sum], at: usize)
    ensures { sums.new ≡ more_at sums.old at (slice_get sums.old at) }
{
    if at < sums.len() {
        let sum = &mut sums[at];
        sum.count = sum.count.saturating_add(1);
    }
}

/// Puts the first deviation of a kind in front of a place.
fn put_first(sums: &mut Vec<Sum>, at: usize, kind: Octets, packet: u32) -> Result<(), NoMemory>
    requires { at ≤ length sums.old.items }
    ensures { OnOk result (sums.new.items ≡ insert sums.old.items at (first_sum kind packet)) }
{
    sums.insert(
        at,
        Sum {
            kind,
            count: 1,
            packet,
        },
    )?;
    Ok(())
}

/// Counts a deviation of a kind at the place of that kind.
fn count_at(sums: &mut Vec<Sum>, at: usize, kind: Octets, packet: u32) -> Result<(), NoMemory>
    requires { at ≤ length sums.old.items }
    ensures { OnOk result (sums.new.items ≡ counted_at sums.old.items at kind packet) }
{
    if is_there(sums.as_slice(), at, kind.as_slice()) {
        one_more(sums.as_mut_slice(), at);
        Ok(())
    } else {
        put_first(sums, at, kind, packet)
    }
}

/// Counts a deviation of a kind.
#[tactic(auto, unfolding(crate::specs::Sums::counted))]
fn count(sums: &mut Vec<Sum>, kind: Octets, packet: u32) -> Result<(), NoMemory>
    ensures { OnOk result (sums.new.items ≡ counted sums.old.items kind packet) }
{
    let at = place(sums.as_slice(), kind.as_slice());
    count_at(sums, at, kind, packet)
}

/// Counts a deviation by its kind.
fn count_one(
    alloc: Global,
    sums: &mut Vec<Sum>,
    scene: &Scene<'_>,
    deviation: &Deviation,
) -> Result<(), NoMemory>
    ensures { OnOk result (sums.new.items
        ≡ counted sums.old.items (kind scene.now deviation.now) deviation.now.packet) }
{
    let kind = kind_of(alloc, scene, deviation)?;
    count(sums, Octets::new(kind), deviation.packet)
}

/// The sums of deviations.
#[tactic(auto, unfolding(crate::specs::Sums::sums_of))]
fn sums_of(alloc: Global, scene: &Scene<'_>, deviations: &[Deviation]) -> Result<Vec<Sum>, NoMemory>
    ensures { IfOk result (λ sums. sums.items ≡ sums_of scene.now deviations.now) }
{
    let mut sums = Vec::new(alloc);
    for deviation in deviations {
        count_one(alloc, &mut sums, scene, deviation)?;
    }
    Ok(sums)
}

/// Puts the line of a sum last.
#[tactic(auto, unfolding(crate::specs::Sums::sum_line))]
fn put_sum(text: &mut Vec<u8>, sum: &Sum) -> Result<(), NoMemory>
    ensures { OnOk result (text.new.items ≡ text.old.items ++ sum_line sum.now) }
{
    put_count(text, b"sum ", sum.count)?;
    put_count(text, b" first packet ", u64::from(sum.packet))?;
    put(text, " ")?;
    put_octets(text, sum.kind.as_slice())?;
    put(text, "\n")
}

/// Puts the lines of sums last.
#[tactic(auto, using(hsr_frame::proofs::OneMore::grown))]
fn put_all(text: &mut Vec<u8>, sums: &[Sum]) -> Result<(), NoMemory>
    ensures { OnOk result (text.new.items ≡ text.old.items ++ flat_map sum_line sums.now) }
{
    for sum in sums {
        put_sum(text, sum)?;
    }
    Ok(())
}

/// Puts the lines of the sums of deviations last, in the order of the octets of their kinds. `NoMemory` where room is refused.
pub(crate) fn put_sums(
    alloc: Global,
    text: &mut Vec<u8>,
    scene: &Scene<'_>,
    deviations: &[Deviation],
) -> Result<(), NoMemory>
    ensures { OnOk result (text.new.items ≡ text.old.items ++ sum_lines scene.now deviations.now) }
{
    let sums = sums_of(alloc, scene, deviations)?;
    put_all(text, sums.as_slice())
}
