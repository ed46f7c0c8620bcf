//! The line of a step that was refused.
ghost use Rattle.std.specs.Prelude.{IfOk};
ghost use Rattle.hsr_toml.specs.Line.{IsLine};

use crate::keys::{table_of, text_at};
use crate::telling::{put_spots, start_of};
use hsr_frame::NoMemory;
use hsr_scenario::Spot;
use hsr_text::put_decimal;
use hsr_toml::{Source, bare, fault_line, put, put_place};
use std::alloc::Global;
use toml::Table;

/// Puts a word behind another, where there is one.
fn put_behind(line: &mut Vec<u8>, before: &str, word: &str) -> Result<(), NoMemory> {
    if word.is_empty() {
        return Ok(());
    }
    put(line, before)?;
    put(line, word)
}

/// Puts the link that a step names last, if it names one.
fn put_link(line: &mut Vec<u8>, step: &Table) -> Result<(), NoMemory> {
    let Some(value) = step.get("link") else {
        return Ok(());
    };
    let Some(link) = value.as_integer() else {
        return Ok(());
    };
    put(line, " of link ")?;
    // A link of a scenario that was read isn't negative.
    put_decimal(line, link.unsigned_abs())?;
    Ok(())
}

/// Puts what a step does, and where, as its table has it.
fn put_step(line: &mut Vec<u8>, step: &Table) -> Result<(), NoMemory> {
    put(line, text_at(step, "do"))?;
    put_behind(line, " of ", text_at(step, "node"))?;
    put_behind(line, " of ", text_at(step, "port"))?;
    put_link(line, step)?;
    put_behind(line, " ", text_at(step, "dir"))?;
    put(line, ": ")
}

/// Puts where a step of a text is, and what it does, last.
fn put_place_of(
    alloc: Global,
    line: &mut Vec<u8>,
    text: &str,
    number: usize,
) -> Result<(), NoMemory> {
    let bare = bare(alloc, text.as_bytes())?;
    let source = Source {
        text: text.as_bytes(),
        bare: bare.as_slice(),
    };
    let spot = Spot::Step(number);
    put_place(line, text.as_bytes(), start_of(source, spot))?;
    put_spots(line, spot)?;
    let Ok(document) = toml::table_from_str(alloc, text) else {
        // A failed allocation: that it is TOML was found before.
        return Err(NoMemory);
    };
    match table_of(&document, spot) {
        Some(step) => put_step(line, step),
        None => Ok(()),
    }
}

/// The line of a step of a scenario that was refused, for a reason in these words, as `fault: scenario 16:1 step 3:
/// send of ied1: ..`, without a line feed. Line and column are those of the step's table. `NoMemory` if allocation
/// fails.
pub fn refused_step_line(
    alloc: Global,
    text: &str,
    number: usize,
    why: &str,
) -> Result<Vec<u8>, NoMemory>
    ensures { IfOk result (λ v. IsLine v.items) }
{
    let mut words = Vec::new(alloc);
    put(&mut words, "scenario ")?;
    put_place_of(alloc, &mut words, text, number)?;
    put(&mut words, why)?;
    fault_line(alloc, words.as_slice())
}
