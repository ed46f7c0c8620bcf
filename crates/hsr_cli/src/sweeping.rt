//! The options of `sweep`, and what they choose.
ghost use Rattle.std.specs.Prelude.{◌≡◌, ◌==◌, IfNone, IfOk, IfSome, Option, Some, false, option_map};
ghost use Rattle.std.specs.List.{after_first, before_first};
ghost use Rattle.clap.specs.Words.{app_of, first_value, found_of, with_rule};
ghost use Rattle.clap.specs.declared.builder.Command.TheViews.{out-Command as fields_of};
ghost use Rattle.hsr_text.specs.Words.{decimal_of};
ghost use Rattle.hsr_cli.specs.declared.task.Part.{Part as PartOf};
ghost use Rattle.hsr_cli.specs.declared.task.SweepWords.{SweepWords as SweepOf};
ghost use Rattle.hsr_cli.specs.Sweeping.{IsLimit, IsMoment, IsPart, IsSweep, at_rule, sweep_app, with_limits};

use crate::flags::{bare_command, flag_of, with_default, with_flag, with_word};
use crate::task::{Part, SweepWords};
use clap::{ArgMatches, Command};
use hsr_frame::NoMemory;
use hsr_text::decimal;
use std::alloc::Global;

/// The last moment that a plan may name, in microseconds, and the highest limit.
const LAST: u64 = 1 << 40;

// ---- the command line

/// A command, with the option for the moment from which on links and nodes are off.
pub(crate) fn with_moment<'a>(alloc: Global, command: Command<'a>) -> Result<Command<'a>, NoMemory>
    requires own { (fields_of command).has_globals ≡ false }
    ensures app { IfOk result (λ c. app_of c ≡ with_rule (app_of command.entry) at_rule) }
    ensures own { IfOk result (λ c. (fields_of c).has_globals ≡ false) }
{
    let at = "From which moment on links and nodes are off, in microseconds";
    with_default(alloc, command, "at-us", "0", at)
}

/// A command, with the options for the limits of a sweep.
pub(crate) fn limiting<'a>(alloc: Global, command: Command<'a>) -> Result<Command<'a>, NoMemory>
    requires own { (fields_of command).has_globals ≡ false }
    ensures app { IfOk result (λ c. app_of c ≡ with_limits (app_of command.entry)) }
    ensures own { IfOk result (λ c. (fields_of c).has_globals ≡ false) }
{
    let load = "The most kbit/s that a direction of a link may carry in its worst millisecond";
    let latency = "The longest that a frame may take to a receiver, in microseconds";
    let one = with_word(alloc, command, "limit-load", "KBIT", load)?;
    with_word(alloc, one, "limit-latency", "US", latency)
}

pub(crate) fn sweep_command<'a>(alloc: Global) -> Result<Command<'a>, NoMemory>
    ensures app { IfOk result (λ c. app_of c ≡ sweep_app) }
    ensures own { IfOk result (λ c. (fields_of c).has_globals ≡ false) }
{
    let about = "Runs a plan with each link and each node off, one by one";
    let without = "Leaves the plan's own events out";
    let pairs = "Has each two of them off at once too";
    let part = "Runs each N-th case alone, from the K-th on";
    let one = with_moment(alloc, bare_command(alloc, "sweep", about))?;
    let two = with_flag(alloc, one, "without-events", without)?;
    let three = with_flag(alloc, two, "pairs", pairs)?;
    let four = with_word(alloc, three, "part", "K/N", part)?;
    limiting(alloc, four)
}

// ---- what is chosen

/// The moment that a word spells.
pub(crate) fn moment_of(said: Option<&str>) -> Option<u64>
    ensures found { IfSome result (IsMoment (option_map (λ s. s.now) said.entry)) }
    ensures none { IfNone result ((at : _) → ¬ IsMoment (option_map (λ s. s.now) said.entry) at) }
{
    match decimal(said?.as_bytes()) {
        Some(at) if at <= LAST => Some(at),
        _ => None,
    }
}

/// The limit that a word names: none where there is no word. `None` where the word is no number up to 2^40.
pub(crate) fn limit_of(said: Option<&str>) -> Option<Option<u64>>
    ensures found { IfSome result (IsLimit (option_map (λ s. s.now) said.entry)) }
    ensures none { IfNone result ((limit : _)
        → ¬ IsLimit (option_map (λ s. s.now) said.entry) limit) }
{
    match said {
        None => Some(None),
        Some(word) => match moment_of(Some(word)) {
            Some(limit) => Some(Some(limit)),
            None => None,
        },
    }
}

/// The part that a word names, as `3/8`.
fn part_in(word: &str) -> Option<Part>
    ensures found { IfSome result (λ part. IsPart (Some word.now) (Some part)) }
    ensures none { IfNone result ((part : PartOf) → ¬ IsPart (Some word.now) (Some part)) }
{
    let (number, of) = word.split_once('/')?;
    let number = decimal(number.as_bytes())?;
    let of = decimal(of.as_bytes())?;
    if 1 <= number && number <= of {
        Some(Part { number, of })
    } else {
        None
    }
}

/// The part that a word names: none where there is no word. `None` where the word names none.
fn part_of(said: Option<&str>) -> Option<Option<Part>>
    ensures found { IfSome result (IsPart (option_map (λ s. s.now) said.entry)) }
    ensures none { IfNone result ((part : _) → ¬ IsPart (option_map (λ s. s.now) said.entry) part) }
{
    match said {
        None => Some(None),
        Some(word) => match part_in(word) {
            Some(part) => Some(Some(part)),
            None => None,
        },
    }
}

/// What the options of `sweep` choose.
pub(crate) fn sweep_of(matches: &ArgMatches<'_>) -> Option<SweepWords>
    ensures found { IfSome result (IsSweep (first_value (found_of matches.now))) }
    ensures none { IfNone result ((asked : SweepOf)
        → ¬ IsSweep (first_value (found_of matches.now)) asked) }
{
    let at = moment_of(matches.get_str("at-us"))?;
    let without_events = flag_of(matches, "without-events")?;
    let pairs = flag_of(matches, "pairs")?;
    let part = part_of(matches.get_str("part"))?;
    let limit_load = limit_of(matches.get_str("limit-load"))?;
    let limit_latency = limit_of(matches.get_str("limit-latency"))?;
    Some(SweepWords {
        at,
        without_events,
        pairs,
        part,
        limit_load,
        limit_latency,
    })
}
