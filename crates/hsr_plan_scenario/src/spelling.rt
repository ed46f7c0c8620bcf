//! How a scenario is spelled in TOML.
ghost use Rattle.std.specs.Prelude.{◌≡◌, IfOk, length, min};
ghost use Rattle.hsr_plan_scenario.specs.Spelled.{scenario_text};

use crate::front::begun;
use crate::steps::{measured_steps, put_orders};
use hsr_frame::NoMemory;
use hsr_plan_schedule::Meaning;
use hsr_plan_text::Outline;
use hsr_text::put;
use std::alloc::Global;

/// What ends the list of steps.
const END: &str = "]\n";

/// How many octets the scenario's text has, or `usize::MAX` where it has more. The text isn't formed for it.
pub(crate) fn measured(
    alloc: Global,
    outline: &Outline,
    meaning: &Meaning,
) -> Result<usize, NoMemory>
    ensures { IfOk result (λ octets. octets
        ≡ min (length (scenario_text outline.now meaning.now)) usize.MAX) }
{
    let front = begun(alloc, outline, meaning)?
        .len()
        .saturating_add(END.len());
    let steps = measured_steps(alloc, meaning)?;
    Ok(front.saturating_add(steps))
}

/// The scenario's text: what stands before its steps, and the steps, one a line.
#[tactic(auto, unfolding(crate::specs::Spelled::scenario_text))]
pub(crate) fn spelled(
    alloc: Global,
    outline: &Outline,
    meaning: &Meaning,
) -> Result<Vec<u8>, NoMemory>
    ensures { IfOk result (λ text. text.items ≡ scenario_text outline.now meaning.now) }
{
    let mut text = begun(alloc, outline, meaning)?;
    put_orders(
        &mut text,
        meaning.nodes.as_slice(),
        meaning.streams.as_slice(),
        meaning.sends.as_slice(),
        meaning.orders.as_slice(),
    )?;
    put(&mut text, END)?;
    Ok(text)
}
