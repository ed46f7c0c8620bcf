//! The page of a run.
ghost use Rattle.std.specs.Prelude.{◌≡◌, ◌⊎◌, IfErr, IfOk, option_map};
ghost use Rattle.hsr_diagram.specs.Pictures.{IsPicture, IsRefused};
ghost use Rattle.hsr_diagram.specs.declared.picturing.PictureFault.{PictureFault};
ghost use Rattle.hsr_timeline.specs.Causes.{origins};
ghost use Rattle.hsr_timeline.specs.Fronts.{lists_of};
ghost use Rattle.hsr_timeline.specs.Stamps.{HasNoStamps};
ghost use Rattle.hsr_view.specs.Fault.{page_fault};
ghost use Rattle.hsr_view.specs.Refusals.{IsUnpicturedIn};
ghost use Rattle.hsr_view.specs.Viewing.{IsPaged};
ghost use Rattle.hsr_view.specs.declared.fault.Fault.TheVariants.{Circle, Memory};

use crate::agreeing::steps_of;
use crate::fault::{Fault, page_fault};
use crate::viewing::{blank_of, probes_of};
use hsr_diagram::{Picture, Span, picture_run};
use hsr_downs::{downs, drains};
use hsr_finished_run::Closed;
use hsr_node::Probe;
use hsr_run_page::{COPY_LIMIT, Shown, page_of_run};
use std::alloc::Global;

/// What a page shows of a run, as a picture; the fault where there is none.
fn shown_on_page<const C: usize>(
    alloc: Global,
    closed: &Closed<C>,
    sends: &[Probe],
    span: Span,
) -> Result<Picture, Fault>
    ensures picture { IfOk result (IsPicture closed.now.run closed.now.plan sends.now span 6000) }
    ensures refused { IfErr result (λ fault. (why : PictureFault) × (fault ≡ page_fault why) × IsRefused closed.now.run closed.now.plan sends.now span 6000 why) }
{
    match picture_run(alloc, closed, sends, span, COPY_LIMIT) {
        Ok(picture) => Ok(picture),
        Err(refused) => Err(page_fault(refused)),
    }
}

/// The page of those rows of a run that are wanted, with the times in which its scenario has links down, and its drains: refused as a
/// picture is, but for how many copies it shows.
pub(crate) fn page_of<const C: usize>(
    alloc: Global,
    closed: &Closed<C>,
    names: &[Vec<u8>],
    sends: &[(&str, usize)],
    span: Span,
    title: &str,
    scenario: Option<&str>,
) -> Result<Vec<u8>, Fault>
    ensures page { IfOk result (λ octets. IsPaged (lists_of names.now) closed.now
        (option_map (λ s. s.now) scenario.entry) title.now sends.now span octets.items) }
    ensures unpaged { IfErr result (λ fault. (fault ≡ Memory)
        ⊎ (IsUnpicturedIn (lists_of names.now) closed.now sends.now span 6000 page_fault fault
        ⊎ ((fault ≡ Circle) × HasNoStamps (origins closed.now.run closed.now.plan)))) }
{
    let probes = probes_of(alloc, names, sends)?;
    let picture = shown_on_page(alloc, closed, probes.as_slice(), span)?;
    // An empty page would look like a quiet network.
    if picture.arrows.is_empty() {
        return Err(blank_of(alloc, closed));
    }
    let steps = steps_of(alloc, closed.plan(), scenario)?;
    let downs = downs(alloc, steps.as_slice())?;
    let drains = drains(alloc, steps.as_slice())?;
    let shown = Shown {
        names,
        title,
        sends: probes.as_slice(),
        span,
        downs: downs.as_slice(),
        drains: drains.as_slice(),
        has_scenario: scenario.is_some(),
    };
    let octets = page_of_run(alloc, closed, &picture, shown)?;
    Ok(octets)
}
