//! The options of a command that plays something, and what they choose to be shown of the run.
ghost use Rattle.std.specs.Prelude.{◌≡◌, ◌≢◌, IfNone, IfOk, IfSome, false};
ghost use Rattle.std.specs.Prelude.{map};
ghost use Rattle.hsr_table_size.specs.Sizes.{table_words};
ghost use Rattle.clap.specs.Words.{app_of, first_value, found_of, new_app, with_rule};
ghost use Rattle.clap.specs.declared.builder.Command.TheViews.{out-Command as fields_of};
ghost use Rattle.hsr_cli.specs.Playing.{IsAsked, IsForm, IsScope, IsShowing, IsTable, ListsTables, playing_app, table_rule, with_asked, with_folder, with_told};

use crate::bench_help::TABLE_HELP;
use crate::flags::{ended_command, flag_of, with_choice, with_flag, with_word};
use clap::{ArgMatches, Command};
use hsr_frame::NoMemory;
use hsr_options::{Asked, Form, Scope, Showing};
use hsr_table_size::{TableSize, table_words};
use std::alloc::Global;

// ---- the command line

/// The words that choose a size of tables.
// What is chosen borrows from the words and from this list alike, so it lives as long as the program does.
pub(crate) fn tables() -> &'static [&'static str]
    ensures { ListsTables result }
{
    &table_words!()
}

/// A command, with the option for the size of tables.
pub(crate) fn with_table<'a>(
    alloc: Global,
    command: Command<'a>,
    tables: &'a [&'a str],
    help: &'a str,
) -> Result<Command<'a>, NoMemory>
    requires own { (fields_of command).has_globals ≡ false }
    ensures app { IfOk result (λ c. app_of c ≡ with_rule (app_of command.entry)
        (table_rule tables.entry)) }
    ensures own { IfOk result (λ c. (fields_of c).has_globals ≡ false) }
{
    with_choice(
        alloc,
        command,
        "table",
        tables,
        TableSize::Large.word(),
        help,
    )
}

/// A command, with the flags for the parts of a report.
fn asking<'a>(alloc: Global, command: Command<'a>) -> Result<Command<'a>, NoMemory>
    requires own { (fields_of command).has_globals ≡ false }
    ensures app { IfOk result (λ c. app_of c ≡ with_asked (app_of command.entry)) }
    ensures own { IfOk result (λ c. (fields_of c).has_globals ≡ false) }
{
    let load = "Says in lines of the report how much each direction of a link carried";
    let latency = "Says in lines of the report how long frames took to each node";
    let deliveries = "Says in lines of the report who missed which frame, and where it was lost";
    let needed = "Says in a line of the report how many table entries the run needed";
    let budget = "Says in a line of the report whether the run was within the budget of its tables";
    let one = with_flag(alloc, command, "load", load)?;
    let two = with_flag(alloc, one, "latency", latency)?;
    let three = with_flag(alloc, two, "deliveries", deliveries)?;
    let four = with_flag(alloc, three, "needed", needed)?;
    with_flag(alloc, four, "budget", budget)
}

/// A command, with these flags, and those for the audit of a report's last line and for more about how the run ended.
pub(crate) fn telling<'a>(alloc: Global, command: Command<'a>) -> Result<Command<'a>, NoMemory>
    requires own { (fields_of command).has_globals ≡ false }
    ensures app { IfOk result (λ c. app_of c ≡ with_told (app_of command.entry)) }
    ensures own { IfOk result (λ c. (fields_of c).has_globals ≡ false) }
{
    let network = "Certifies any network, not just one ring of DANHs";
    let explain =
        "Says on standard error what a fault or a doubt means, where it is, and what to do";
    let one = asking(alloc, command)?;
    let two = with_flag(alloc, one, "network", network)?;
    with_flag(alloc, two, "explain", explain)
}

/// A command, with the option for the folder of a run's tables.
pub(crate) fn tabling<'a>(alloc: Global, command: Command<'a>) -> Result<Command<'a>, NoMemory>
    requires own { (fields_of command).has_globals ≡ false }
    ensures app { IfOk result (λ c. app_of c ≡ with_folder (app_of command.entry)) }
    ensures own { IfOk result (λ c. (fields_of c).has_globals ≡ false) }
{
    let csv =
        "Writes the run's facts as tables (CSV) into this folder too: nodes.csv, links.csv, ..";
    with_word(alloc, command, "csv", "FOLDER", csv)
}

/// A command that plays a scenario.
pub(crate) fn playing_command<'a>(
    alloc: Global,
    name: &'a str,
    about: &'a str,
    ends: &'a str,
    tables: &'a [&'a str],
) -> Result<Command<'a>, NoMemory>
    ensures app { IfOk result (λ c. app_of c ≡ playing_app name.entry.now tables.entry) }
    ensures own { IfOk result (λ c. (fields_of c).has_globals ≡ false) }
{
    let transcript = "Writes the run's transcript in place of its report";
    let names = "Has the names of the scenario's nodes and streams in place of numbers";
    let bare = ended_command(alloc, name, about, ends);
    let one = with_table(alloc, bare, tables, TABLE_HELP)?;
    let two = with_flag(alloc, one, "transcript", transcript)?;
    let three = telling(alloc, two)?;
    let four = with_flag(alloc, three, "names", names)?;
    tabling(alloc, four)
}

// ---- what is chosen

#[tactic(auto, using(crate::proofs::PlayingFound::table_found, crate::proofs::PlayingFound::table_unread, crate::proofs::PlayingFound::table_missing))]
pub(crate) fn table_of(matches: &ArgMatches<'_>) -> Option<TableSize>
    ensures found { IfSome result (IsTable (first_value (found_of matches.now))) }
    ensures none { IfNone result ((table : _)
        → ¬ IsTable (first_value (found_of matches.now)) table) }
{
    TableSize::from_word(matches.get_str("table")?.as_bytes())
}

/// Which parts of a report are asked for.
pub(crate) fn asked_of(matches: &ArgMatches<'_>) -> Option<Asked>
    ensures found { IfSome result (IsAsked (first_value (found_of matches.now))) }
    ensures none { IfNone result ((asked : Asked)
        → ¬ IsAsked (first_value (found_of matches.now)) asked) }
{
    let load = flag_of(matches, "load")?;
    let latency = flag_of(matches, "latency")?;
    let deliveries = flag_of(matches, "deliveries")?;
    let needed = flag_of(matches, "needed")?;
    let budget = flag_of(matches, "budget")?;
    Some(Asked {
        load,
        latency,
        deliveries,
        needed,
        budget,
    })
}

/// Which audit the last line is of.
pub(crate) fn scope_of(matches: &ArgMatches<'_>) -> Option<Scope>
    ensures found { IfSome result (IsScope (first_value (found_of matches.now))) }
    ensures none { IfNone result ((scope : Scope)
        → ¬ IsScope (first_value (found_of matches.now)) scope) }
{
    if flag_of(matches, "network")? {
        Some(Scope::Network)
    } else {
        Some(Scope::Ring)
    }
}

/// What is to be written of a run.
#[tactic(auto, using(crate::proofs::PlayingFound::no_form))]
fn form_of(matches: &ArgMatches<'_>) -> Option<Form>
    ensures found { IfSome result (IsForm (first_value (found_of matches.now))) }
    ensures none { IfNone result ((form : Form)
        → ¬ IsForm (first_value (found_of matches.now)) form) }
{
    if flag_of(matches, "transcript")? {
        Some(Form::Transcript)
    } else {
        Some(Form::Report(asked_of(matches)?))
    }
}

/// What is to be shown of a run.
pub(crate) fn showing_of(matches: &ArgMatches<'_>) -> Option<Showing>
    ensures found { IfSome result (IsShowing (first_value (found_of matches.now))) }
    ensures none { IfNone result ((showing : Showing)
        → ¬ IsShowing (first_value (found_of matches.now)) showing) }
{
    let scope = scope_of(matches)?;
    let form = form_of(matches)?;
    let names = flag_of(matches, "names")?;
    Some(Showing { scope, form, names })
}
