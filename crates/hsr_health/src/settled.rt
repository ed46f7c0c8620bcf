//! The reasons in their order, and what else is told behind what is told of copies.
ghost use Rattle.std.specs.Prelude.{◌≡◌, ◌==◌, ℕ, List, nat_lt, count_by, IfOk};
ghost use Rattle.hsr_health.specs.Kinds.{HaveInterfaces};
ghost use Rattle.hsr_health.specs.Whole.{AreFacts, AreFindings, IsSettled};
ghost use Rattle.hsr_taps.specs.declared.direction.Taps as the_taps;

use crate::all_reasons::{Beside, all_reasons};
use crate::asked::{Asked, asked_of};
use crate::counts::Counts;
use crate::findings::Findings;
use crate::kinds::{MalformedKind, UntaggedKind, VlanKind, malformed_of, untagged_of, vlans_of};
use crate::order::{Facts, in_order, lane_is_common, restart_covers, silence_covers};
use crate::reason::Reason;
use crate::traffic::Traffic;
use crate::whole_reasons::absent_of;
use hsr_frame::{Mac, NoMemory};
use hsr_frame_groups::Noted;
use hsr_sightings::Ring;
use std::alloc::Global;

/// Whether the group frames that came one way alone are of a single source.
fn is_of_one_source(counts: &[Counts]) -> bool
    ensures { result ≡ (count_by (λ own. nat_lt 0 own.group.once) counts.now == 1) }
{
    counts.iter().filter(|own| own.group.once > 0).count() == 1
}

/// What decides the order of reasons.
fn facts_of(copies: &[Noted], findings: &Findings) -> Facts
    ensures { AreFacts copies.now findings.now result }
{
    let counts = findings.known.counts.as_slice();
    let spans = findings.measured.spans.as_slice();
    Facts {
        lane_is_common: lane_is_common(counts, copies.len()),
        silence_covers: silence_covers(spans, findings.known.abouts.silences.as_slice()),
        restart_covers: restart_covers(spans, findings.known.ledger.restarts.as_slice()),
        one_source: is_of_one_source(counts),
    }
}

/// What is told of a capture behind what is told of its copies.
#[derive(Drop)]
pub(crate) struct Settled {
    pub(crate) absent: Vec<Mac>,
    pub(crate) reasons: Vec<Reason>,
    pub(crate) vlans: Vec<VlanKind>,
    pub(crate) untagged: Vec<UntaggedKind>,
    pub(crate) malformed: Vec<MalformedKind>,
}

/// The sources that are absent, the reasons in order, and the kinds of frames and packets.
pub(crate) fn settled_of(
    alloc: Global,
    ring: &Ring<'_>,
    traffic: &Traffic<'_>,
    copies: &[Noted],
    asked: &Asked<'_>,
    expected: &[Mac],
    findings: &Findings,
) -> Result<Settled, NoMemory>
    requires findings { (taps : List the_taps.Taps) × (many : ℕ) × AreFindings ring.now copies.now taps many findings.now }
    requires interfaces { HaveInterfaces traffic.now.tapped.strays.items }
    ensures { IfOk result (λ settled. (taps : List the_taps.Taps) (many : ℕ) → AreFindings ring.now copies.now taps many findings.now
        → IsSettled ring.now taps many traffic.now copies.now asked.now expected.now findings.now settled) }
{
    let strays = traffic.tapped.strays.as_slice();
    let is_asked = asked_of(alloc, &asked.choice, traffic.outline.interfaces.len())?;
    let losses = traffic.outline.losses.as_slice();
    let macs = findings.sources.macs.as_slice();
    let absent = absent_of(alloc, expected, macs, findings.known.abouts.all.as_slice())?;
    let beside = Beside {
        losses,
        is_asked: is_asked.as_slice(),
        absent: absent.as_slice(),
        strays,
        table: asked.table,
    };
    let told = all_reasons(alloc, ring, copies, findings, beside)?;
    let reasons = in_order(alloc, told.as_slice(), facts_of(copies, findings))?;
    let vlans = vlans_of(alloc, copies, findings.seen.marks.as_slice())?;
    let untagged = untagged_of(alloc, strays)?;
    let malformed = malformed_of(alloc, strays)?;
    Ok(Settled {
        absent,
        reasons,
        vlans,
        untagged,
        malformed,
    })
}
