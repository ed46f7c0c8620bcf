//! The text of a plan's scenario, checked against what the plan means.
//!
//! The text is read back before it is answered: so it is by the reader's own contract that it says what the plan means.
ghost use Rattle.std.specs.Prelude.{ℕ, ◌≡◌, ◌≢◌, IfErr, IfOk, OnOk, Ok};
ghost use Rattle.hsr_duptable.specs.Table.{IsTableSize};
ghost use Rattle.hsr_scenario.specs.Meaning.{meaning};
ghost use Rattle.hsr_scenario.specs.Names.{names_meant};
ghost use Rattle.hsr_plan_text.specs.Meaning.{plan_of};
ghost use Rattle.hsr_plan_text.specs.Plan.{Plan as PlanOf};
ghost use Rattle.hsr_plan_hops.specs.Moving.{MeansMoved};
ghost use Rattle.hsr_plan_hops.specs.Refusing.{IsUnmoved as IsUnmovedThere};
ghost use Rattle.hsr_plan_scenario.specs.Refusals.{IfDiffers, IsMisread, IsTroubleIn, IsTroubleOf, IsUnmoved, IsUntold, no_room, unread};
ghost use Rattle.hsr_plan_scenario.specs.Says.{Says, SaysIf, Tells, names_meant_by, scenario_meant};
ghost use Rattle.hsr_plan_scenario.specs.Spelled.{scenario_text};

use crate::same::{is_meant, is_named};
use crate::spelling::{measured, spelled};
use hsr_plan_hops::{Unmoved, moved_meaning_of};
use hsr_plan_schedule::Meaning;
use hsr_plan_text::{Outline, Plan, PlanFault, Spot, What};
use hsr_scenario::{ScenarioFault, TEXT_LIMIT, What as ScenarioWhat, read, read_names};
use std::alloc::Global;

/// Why there is no scenario of a plan.
#[derive(Drop)]
pub enum Trouble {
    /// The text is no plan, or means nothing.
    Plan(PlanFault),
    /// The scenario would have this number of octets, and 16 MiB is the most.
    TooLong(usize),
    /// Copies are still on their way after this number of steps.
    Endless(usize),
    /// Copies can't be moved by hops or wires, or the scenario's text doesn't say what the plan means.
    Differs,
}

/// The trouble of a failed allocation.
fn no_memory() -> Trouble
    ensures { result ≡ no_room }
{
    Trouble::Plan(PlanFault {
        spot: Spot::Top,
        what: What::NoMemory,
    })
}

/// The trouble where a plan means nothing, once its copies move.
fn trouble_of(unmoved: Unmoved) -> Trouble
    ensures { (capacity : ℕ) (plan : PlanOf) → IsUnmovedThere capacity plan unmoved
        → IsUnmoved capacity plan result }
{
    match unmoved {
        Unmoved::Plan(fault) => Trouble::Plan(fault),
        Unmoved::Endless(steps) => Trouble::Endless(steps),
        Unmoved::Differs => Trouble::Differs,
        Unmoved::Memory => no_memory(),
    }
}

/// What a plan means in a world with tables of `C` entries, once its copies move. `Plan` has the first fault of the plan, and `Endless` and
/// `Differs` come only where its copies move by hops or wires, as `moved_meaning_of` says.
pub fn moved<const C: usize>(alloc: Global, plan: &Plan) -> Result<Meaning, Trouble>
    requires { IsTableSize C }
    ensures means { IfOk result (MeansMoved C plan.now) }
    ensures unmoved { IfErr result (IsUnmoved C plan.now) }
{
    match moved_meaning_of::<C>(alloc, plan) {
        Ok(meaning) => Ok(meaning),
        Err(unmoved) => Err(trouble_of(unmoved)),
    }
}

/// The trouble where a text isn't read.
fn unread(fault: &ScenarioFault) -> Trouble
    ensures { result ≡ unread fault.now.what }
{
    match fault.what {
        // A failed allocation says nothing of the text.
        ScenarioWhat::NoMemory => no_memory(),
        _ => Trouble::Differs,
    }
}

/// Refuses a text that isn't read as what a plan means.
fn check_meaning(alloc: Global, text: &str, meant: &Meaning) -> Result<(), Trouble>
    ensures means { OnOk result (meaning text.now ≡ Ok (scenario_meant meant.now)) }
    ensures differs { IfErr result (IfDiffers (meaning text.now ≢ Ok (scenario_meant meant.now))) }
{
    match read(alloc, text) {
        Ok(scenario) if is_meant(&scenario, meant) => Ok(()),
        Ok(_) => Err(Trouble::Differs),
        Err(fault) => Err(unread(&fault)),
    }
}

/// Refuses a text of which the nodes haven't the names that a plan means, or a send isn't from the stream that it means.
fn check_names(alloc: Global, text: &str, meant: &Meaning) -> Result<(), Trouble>
    ensures named { OnOk result (names_meant text.now ≡ Ok (names_meant_by meant.now)) }
    ensures differs { IfErr result (IfDiffers
        (names_meant text.now ≢ Ok (names_meant_by meant.now))) }
{
    match read_names(alloc, text) {
        Ok(names) => match is_named(alloc, &names, meant) {
            Ok(true) => Ok(()),
            Ok(false) => Err(Trouble::Differs),
            Err(_) => Err(no_memory()),
        },
        Err(fault) => Err(unread(&fault)),
    }
}

/// Refuses a text that isn't read as what a plan means.
fn check(alloc: Global, text: &[u8], outline: &Outline, meant: &Meaning) -> Result<(), Trouble>
    requires spelled { text.now ≡ scenario_text outline.now meant.now }
    ensures tells { OnOk result (Tells outline.now meant.now text.now) }
    ensures differs { IfErr result (IfDiffers (IsMisread outline.now meant.now)) }
{
    // The reader takes a text; what is formed here are octets.
    let Ok(words) = str::from_utf8(text) else {
        return Err(Trouble::Differs);
    };
    check_meaning(alloc, words, meant)?;
    check_names(alloc, words, meant)
}

/// Refuses what is meant where its text has over 16 MiB. The text isn't formed for it.
fn check_length(alloc: Global, outline: &Outline, meant: &Meaning) -> Result<(), Trouble>
    ensures { IfErr result (IsUntold outline.now meant.now) }
{
    match measured(alloc, outline, meant) {
        Ok(octets) if octets > TEXT_LIMIT => Err(Trouble::TooLong(octets)),
        Ok(_) => Ok(()),
        Err(_) => Err(no_memory()),
    }
}

/// The text of what is meant, with what the plan says besides, checked.
fn formed(alloc: Global, outline: &Outline, meant: &Meaning) -> Result<Vec<u8>, Trouble>
    ensures spelled { IfOk result (λ text. text.items ≡ scenario_text outline.now meant.now) }
    ensures tells { IfOk result (λ text. Tells outline.now meant.now text.items) }
    ensures differs { IfErr result (IfDiffers (IsMisread outline.now meant.now)) }
{
    let Ok(text) = spelled(alloc, outline, meant) else {
        return Err(no_memory());
    };
    match check(alloc, text.as_slice(), outline, meant) {
        Ok(()) => Ok(text),
        Err(trouble) => Err(trouble),
    }
}

/// The text of what a plan means, checked. It is measured before it is formed.
fn checked(alloc: Global, plan: &Plan, meant: &Meaning) -> Result<Vec<u8>, Trouble>
    ensures spelled { IfOk result (λ text. text.items ≡ scenario_text plan.now.outline meant.now) }
    ensures tells { IfOk result (λ text. Tells plan.now.outline meant.now text.items) }
    ensures untold { IfErr result (IsUntold plan.now.outline meant.now) }
{
    let outline = &plan.outline;
    // Measured before it is formed, one line at a time: so a text that is too long takes no memory of its size.
    match check_length(alloc, outline, meant) {
        Ok(()) => match formed(alloc, outline, meant) {
            Ok(text) => Ok(text),
            Err(trouble) => Err(trouble),
        },
        Err(trouble) => Err(trouble),
    }
}

/// The text of the scenario that a plan means in a world with tables of `C` entries, with the plan's names. Its first comments
/// are the plan's title, and a line that counts nodes, links and sends, and says how many sends lie in 800 milliseconds at most. Where the
/// plan says no capacity, and more than 4096 sends may be under way at once, their number stands behind the capacity. Before it is answered
/// it is read back and compared with what the plan means: a text that differs is `Differs`. One of over 16 MiB is `TooLong`, and isn't
/// formed. All other troubles are those of `moved`.
pub fn scenario_of_meaning<const C: usize>(alloc: Global, plan: &Plan) -> Result<Vec<u8>, Trouble>
    requires { IsTableSize C }
    ensures says { IfOk result (λ text. Says C plan.now text.items) }
    ensures trouble { IfErr result (IsTroubleOf C plan.now) }
{
    match moved::<C>(alloc, plan) {
        Ok(meaning) => checked(alloc, plan, &meaning),
        Err(trouble) => Err(trouble),
    }
}

/// The text of the scenario that a text means as a plan, in a world with tables of `C` entries. `Plan` has the first fault of the text or
/// of the plan that it is.
pub fn scenario_of_plan<const C: usize>(alloc: Global, text: &str) -> Result<Vec<u8>, Trouble>
    requires { IsTableSize C }
    ensures says { IfOk result (λ scenario. SaysIf C (plan_of text.now) scenario.items) }
    ensures trouble { IfErr result (IsTroubleIn C (plan_of text.now)) }
{
    match hsr_plan_text::read(alloc, text) {
        Ok(plan) => scenario_of_meaning::<C>(alloc, &plan),
        Err(fault) => Err(Trouble::Plan(fault)),
    }
}
