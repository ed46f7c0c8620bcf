//! The whole report.
ghost use Rattle.std.specs.Prelude.{◌≡◌, ◌++◌, IfOk, OnOk};
ghost use Rattle.hsr_health_text.specs.Report.{brief_text, full_text, middle_text, report_text};

use crate::breaks::put_breaks;
use crate::interfaces::{put_head, put_interfaces};
use crate::kinds::{put_kinds, put_table};
use crate::points::{put_all_spans, put_points};
use crate::reasons::put_reasons;
use crate::sources::{put_abouts, put_sources};
use hsr_frame::NoMemory;
use hsr_health::Health;
use std::alloc::Global;

/// Puts all lines between the first and the reasons.
#[tactic(auto, unfolding(crate::specs::Report::full_text))]
fn put_full(
    alloc: Global,
    text: &mut Vec<u8>,
    health: &Health<'_>,
    interfaces: &[usize],
    table: u64,
) -> Result<(), NoMemory>
    ensures { OnOk result (text.new.items ≡ text.old.items ++ full_text health.now interfaces.now table) }
{
    put_interfaces(text, health, interfaces)?;
    put_points(alloc, text, health)?;
    put_breaks(alloc, text, health)?;
    put_sources(alloc, text, health)?;
    put_abouts(alloc, text, health)?;
    put_kinds(text, health)?;
    put_table(text, health, table)
}

/// Puts when the ring was broken, and where.
#[tactic(auto, unfolding(crate::specs::Report::brief_text))]
fn put_brief(alloc: Global, text: &mut Vec<u8>, health: &Health<'_>) -> Result<(), NoMemory>
    ensures { OnOk result (text.new.items ≡ text.old.items ++ brief_text health.now) }
{
    put_all_spans(alloc, text, health)?;
    put_breaks(alloc, text, health)
}

/// Puts what stands between the first line and the reasons.
fn put_middle(
    alloc: Global,
    text: &mut Vec<u8>,
    health: &Health<'_>,
    interfaces: &[usize],
    table: u64,
    is_full: bool,
) -> Result<(), NoMemory>
    ensures { OnOk result (text.new.items ≡ text.old.items ++ middle_text health.now interfaces.now table is_full) }
{
    if is_full {
        put_full(alloc, text, health, interfaces, table)
    } else {
        put_brief(alloc, text, health)
    }
}

/// The report on the health of a ring, of these interfaces, or of all where there is none, for devices with tables of so many entries: in
/// full with all lines, else with those that may be a doubt. `NoMemory` where room is refused.
#[tactic(auto, unfolding(crate::specs::Report::report_text))]
pub fn report(
    alloc: Global,
    health: &Health<'_>,
    interfaces: &[usize],
    table: u64,
    is_full: bool,
) -> Result<Vec<u8>, NoMemory>
    ensures { IfOk result (λ text. text.items ≡ report_text health.now interfaces.now table is_full) }
{
    let mut text = Vec::new(alloc);
    put_head(&mut text, health, is_full)?;
    put_middle(alloc, &mut text, health, interfaces, table, is_full)?;
    put_reasons(alloc, &mut text, health)?;
    Ok(text)
}
