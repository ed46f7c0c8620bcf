//! The options of `report`, and what they choose.
ghost use Rattle.std.specs.Prelude.{◌≡◌, IfNone, IfOk, IfSome, false};
ghost use Rattle.clap.specs.Words.{app_of, first_value, found_of};
ghost use Rattle.clap.specs.declared.builder.Command.TheViews.{out-Command as fields_of};
ghost use Rattle.hsr_cli.specs.declared.task.ReportWords.{ReportWords as ReportOf};
ghost use Rattle.hsr_cli.specs.Reporting.{IsReport, report_app};

use crate::bench_help::WITHIN_HELP;
use crate::flags::{bare_command, with_word};
use crate::sweeping::{limit_of, limiting, moment_of, with_moment};
use crate::task::ReportWords;
use crate::within::within_of;
use clap::{ArgMatches, Command};
use hsr_frame::NoMemory;
use std::alloc::Global;

// ---- the command line

pub(crate) fn report_command<'a>(alloc: Global) -> Result<Command<'a>, NoMemory>
    ensures app { IfOk result (λ c. app_of c ≡ report_app) }
    ensures own { IfOk result (λ c. (fields_of c).has_globals ≡ false) }
{
    let about =
        "Writes a page of HTML about a plan: verdicts, network, streams, faults, table and budget";
    let date = "The date that stands on the page, as it is given";
    let bare = bare_command(alloc, "report", about);
    let one = with_word(alloc, bare, "date", "TEXT", date)?;
    let two = with_moment(alloc, one)?;
    let three = with_word(alloc, two, "within", "US", WITHIN_HELP)?;
    limiting(alloc, three)
}

// ---- what is chosen

/// What the options of `report` choose.
pub(crate) fn report_of<'a>(matches: &ArgMatches<'a>) -> Option<ReportWords<'a>>
    ensures found { IfSome result (IsReport (first_value (found_of matches.now))) }
    ensures none { IfNone result ((words : ReportOf)
        → ¬ IsReport (first_value (found_of matches.now)) words) }
{
    // Any text is a date: the page shows it as it is, in whatever form its readers write dates.
    let date = matches.get_str("date");
    let at = moment_of(matches.get_str("at-us"))?;
    let within = within_of(matches.get_str("within"))?;
    let limit_load = limit_of(matches.get_str("limit-load"))?;
    let limit_latency = limit_of(matches.get_str("limit-latency"))?;
    Some(ReportWords {
        date,
        at,
        within,
        limit_load,
        limit_latency,
    })
}
