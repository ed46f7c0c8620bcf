//! The whole.
ghost use Rattle.std.specs.Prelude.{◌≡◌, IfErr, IfNone, IfOk, IfSome};
ghost use Rattle.hsr_capture_reader.specs.Capture.{CaptureFields};
ghost use Rattle.hsr_health.specs.Sources.{HasManySources};
ghost use Rattle.hsr_health.specs.Whole.{AreContents, HasTooMany, IsBounded, IsFaultOf, IsGathered, IsHealth, IsTold, IsTraffic, health_in, judged_among, judged_by, ring_in, twice_among};

use crate::asked::Asked;
use crate::broken::Span;
use crate::contents::Contents;
use crate::counts::Counts;
use crate::directions::{DirectionNumbers, PointNumbers};
use crate::findings::{Findings, findings_of};
use crate::gathered::Gathered;
use crate::kinds::{MalformedKind, UntaggedKind, VlanKind};
use crate::known::Known;
use crate::ledger::{GroupNumbers, Ledger};
use crate::load::Load;
use crate::marks::begun_among;
use crate::measured::{Measured, greatest};
use crate::reason::Reason;
use crate::settled::{Settled, settled_of};
use crate::sources::Sources;
use crate::traffic::{Outline, Traffic};
use hsr_frame::{Mac, NoMemory};
use hsr_frame_groups::Noted;
use hsr_heard::{About, Abouts};
use hsr_sightings::{Crowd, Ring};
use hsr_taps::Tapped;
use std::alloc::{AllocError, AllocFailed, Global};

/// Why nothing is told of a capture.
#[derive(Clone, Copy, PartialEq, Eq)]
pub enum HealthFault {
    /// There are over 1024 sources.
    Sources,
    Memory,
}

impl From<AllocError> for HealthFault {
    fn from(_refused: AllocError) -> HealthFault {
        HealthFault::Memory
    }
}

impl<T: Drop> From<AllocFailed<T>> for HealthFault {
    fn from(_refused: AllocFailed<T>) -> HealthFault {
        HealthFault::Memory
    }
}

impl From<NoMemory> for HealthFault {
    fn from(_refused: NoMemory) -> HealthFault {
        HealthFault::Memory
    }
}

/// All that is told of a capture.
#[derive(Drop)]
pub struct Health<'a> {
    pub outline: Outline<'a>,
    pub tapped: Tapped<'a>,
    /// Of each interface.
    pub loads: Vec<Load>,
    pub points: Vec<PointNumbers>,
    pub directions: Vec<DirectionNumbers>,
    /// The runs of group frames that came one way alone, point by point.
    pub spans: Vec<Span>,
    /// The sources in the order of addresses; of each what is counted, the index of its group, numbers that others of that had, and
    /// supervision numbers that are missing.
    pub sources: Vec<Mac>,
    pub counts: Vec<Counts>,
    pub groups: Vec<usize>,
    pub elsewhere: Vec<u64>,
    pub life_numbers: Vec<GroupNumbers>,
    /// Of each group.
    pub numbers: Vec<GroupNumbers>,
    pub abouts: Vec<About>,
    pub vlans: Vec<VlanKind>,
    pub untagged: Vec<UntaggedKind>,
    pub malformed: Vec<MalformedKind>,
    pub needed: u64,
    pub crowd: Crowd,
    /// How many frames there were.
    pub frames: u64,
    /// Group frames that came both ways, of those that were judged, once for each point.
    pub twice: u64,
    pub judged: u64,
    /// The sources that are expected, and absent.
    pub absent: Vec<Mac>,
    /// The reasons for doubt, the gravest first; none where the ring is healthy.
    pub reasons: Vec<Reason>,
}

/// Group frames of a source that were judged.
fn judged_by(own: &Counts) -> u64
    ensures { result ≡ judged_by own.now }
{
    own.group
        .twice
        .saturating_add(own.group.once)
        .saturating_add(own.group.more)
}

/// Group frames that came twice.
fn twice_among(counts: &[Counts]) -> u64
    ensures { result ≡ twice_among counts.now }
{
    let mut sum = 0u64;
    for own in counts {
        sum = sum.saturating_add(own.group.twice);
    }
    sum
}

/// Group frames that were judged.
fn judged_among(counts: &[Counts]) -> u64
    ensures { result ≡ judged_among counts.now }
{
    let mut sum = 0u64;
    for own in counts {
        sum = sum.saturating_add(judged_by(own));
    }
    sum
}

/// All of it together.
fn health_by<'a>(traffic: Traffic<'a>, findings: Findings, settled: Settled) -> Health<'a>
    ensures { result ≡ health_in traffic.entry findings settled }
{
    let needed = greatest(findings.measured.needed.as_slice());
    let frames = begun_among(findings.seen.marks.as_slice()) as u64;
    let twice = twice_among(findings.known.counts.as_slice());
    let judged = judged_among(findings.known.counts.as_slice());
    let Traffic {
        outline,
        tapped,
        loads,
    } = traffic;
    let Findings {
        sources,
        seen: _,
        known,
        measured,
    } = findings;
    let Sources { macs, of_copy: _ } = sources;
    let Known {
        counts,
        abouts,
        groups,
        ledger,
        lives,
    } = known;
    let Abouts { all, silences: _ } = abouts;
    let Ledger {
        numbers,
        gaps: _,
        restarts: _,
        elsewhere,
    } = ledger;
    let Ledger {
        numbers: life_numbers,
        gaps: _,
        restarts: _,
        elsewhere: _,
    } = lives;
    let Measured {
        both: _,
        spans,
        needed: _,
        crowd,
        directions,
        points,
    } = measured;
    let Settled {
        absent,
        reasons,
        vlans,
        untagged,
        malformed,
    } = settled;
    Health {
        outline,
        tapped,
        loads,
        points,
        directions,
        spans,
        sources: macs,
        counts,
        groups,
        elsewhere,
        life_numbers,
        numbers,
        abouts: all,
        vlans,
        untagged,
        malformed,
        needed,
        crowd,
        frames,
        twice,
        judged,
        absent,
        reasons,
    }
}

/// What is told of what came by the taps.
#[derive(Drop)]
struct Told {
    findings: Findings,
    settled: Settled,
}

/// What is told of what came by the taps; none where there are too many sources.
fn told_of(
    alloc: Global,
    traffic: &Traffic<'_>,
    copies: &[Noted],
    contents: Contents,
    asked: &Asked<'_>,
    expected: &[Mac],
) -> Result<Option<Told>, NoMemory>
    requires came { (capture : CaptureFields) × IsBounded capture × IsTraffic asked.now.choice capture traffic.now copies.now }
    requires contents { AreContents (ring_in traffic.now asked.now.is_whole) copies.now traffic.now.tapped.taps.items contents }
    ensures some { IfOk result (λ found. IfSome found (λ told. IsTold traffic.now copies.now asked.now expected.now told)) }
    ensures none { IfOk result (λ found. IfNone found (HasManySources copies.now)) }
{
    let points = traffic.tapped.point_of.as_slice();
    let ways = traffic.tapped.way_of.as_slice();
    let ring = Ring {
        start: traffic.outline.start,
        end: traffic.outline.end,
        is_whole: asked.is_whole,
        points,
        ways,
    };
    let taps = traffic.tapped.taps.as_slice();
    let many = traffic.tapped.points.len();
    let Some(findings) = findings_of(alloc, &ring, copies, contents, taps, many)? else {
        return Ok(None);
    };
    let settled = settled_of(alloc, &ring, traffic, copies, asked, expected, &findings)?;
    Ok(Some(Told { findings, settled }))
}

/// All that is told of what was gathered; none where there are too many sources.
fn health_if<'a>(
    alloc: Global,
    gathered: Gathered<'a>,
    asked: &Asked<'_>,
    expected: &[Mac],
) -> Result<Option<Health<'a>>, NoMemory>
    requires { (capture : CaptureFields) × IsBounded capture × IsGathered capture asked.now gathered }
    ensures some { IfOk result (λ found. IfSome found (λ health. (capture : CaptureFields) → IsGathered capture asked.now gathered.entry
        → IsHealth capture asked.now expected.now health)) }
    ensures none { IfOk result (λ found. IfNone found ((capture : CaptureFields) → IsGathered capture asked.now gathered.entry → HasTooMany capture asked.now)) }
{
    let Gathered {
        traffic,
        copies,
        contents,
    } = gathered;
    let noted = copies.as_slice();
    let found = told_of(alloc, &traffic, noted, contents, asked, expected)?;
    match found {
        None => Ok(None),
        Some(told) => {
            let Told { findings, settled } = told;
            let health = health_by(traffic, findings, settled);
            Ok(Some(health))
        }
    }
}

/// All that is told of a capture, by what was gathered of it, in which these sources are expected. `Sources` where there are too many of
/// them, `Memory` where room is refused.
pub fn health_of<'a>(
    alloc: Global,
    gathered: Gathered<'a>,
    asked: &Asked<'_>,
    expected: &[Mac],
) -> Result<Health<'a>, HealthFault>
    requires { (capture : CaptureFields) × IsBounded capture × IsGathered capture asked.now gathered }
    ensures health { IfOk result (λ health. (capture : CaptureFields) → IsGathered capture asked.now gathered.entry → IsHealth capture asked.now expected.now health) }
    ensures fault { IfErr result (λ fault. (capture : CaptureFields) → IsGathered capture asked.now gathered.entry → IsFaultOf capture asked.now fault) }
{
    match health_if(alloc, gathered, asked, expected) {
        Err(_) => Err(HealthFault::Memory),
        Ok(found) => match found {
            None => Err(HealthFault::Sources),
            Some(health) => Ok(health),
        },
    }
}
