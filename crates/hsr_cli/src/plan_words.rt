//! Reads the arguments of hsr_plan, by clap.
ghost use Rattle.std.specs.Prelude.{◌≡◌, ◌≢◌, ◌<◌, ◌≤◌, IfErr, IfNone, IfOk, IfSome, IsTrue, Some, None, codes, false, length, map, option_map};
ghost use Rattle.std.specs.Str.{trim_end};
ghost use Rattle.clap.specs.Words.{Text, app_of, first_value, found_of, kind_of, rule_of, subcommand_rows_of, with_rule, with_subcommand};
ghost use Rattle.clap.specs.declared.builder.command.Command.TheViews.{out-Command as fields_of};
ghost use Rattle.clap.specs.declared.error.kind.ErrorKind.TheVariants.{OutOfMemory};
ghost use Rattle.hsr_cli.specs.declared.task.Task.{Task as TaskOf};
ghost use Rattle.hsr_cli.specs.declared.task.Faults.{Faults as FaultsOf};
ghost use Rattle.hsr_cli.specs.Playing.{playing_app};
ghost use Rattle.hsr_cli.specs.Refusal.{IfUsage};
ghost use Rattle.hsr_cli.specs.Reporting.{report_app};
ghost use Rattle.hsr_cli.specs.Sweeping.{sweep_app};
ghost use Rattle.hsr_cli.specs.Choices.{Chosen, ChosenAlone, ChosenBefore, IsCertify, IsFaults, IsRefused, IsRun, IsTable, Says, alone_app, certify_app, plan_app, sub_values, table_rule, top_app};

use crate::bench_help::WITHIN_HELP;
use crate::fault::{OptionFault, refused, usage};
use crate::flags::{bare_command, flag_of, with_flag, with_word};
use crate::plan_help::{ANY_TABLE_HELP, ENDS, RUN_ABOUT, RUN_ENDS, TABLE_HELP};
use crate::playing;
use crate::playing::{playing_command, showing_of, tables};
use crate::reporting::{report_command, report_of};
use crate::sweeping::{sweep_command, sweep_of};
use crate::task::{Faults, Task};
use crate::within::within_of;
use clap::{Arg, ArgMatches, Command};
use hsr_frame::NoMemory;
use hsr_table_size::TableSize;
use hsr_version::VERSION;
use std::alloc::Global;

/// Which arguments go together.
const TOGETHER: &str = "\
usage: hsr_plan [--table small|large|ENTRIES]
       hsr_plan --check
       hsr_plan run [OPTIONS], as hsr_plan run --help has them
       hsr_plan sweep [--at-us N] [--without-events] [--pairs] [--part K/N] [--limit-load KBIT] [--limit-latency US], K from 1 to N, others up to 1099511627776
       hsr_plan certify [--table small|large|ENTRIES] [--within US] [--sweep | --pairs], US from 1 to 400000
       hsr_plan report [--date TEXT] [--at-us N] [--within US] [--limit-load KBIT] [--limit-latency US], US of --within from 1 to 400000, others up to 1099511627776";

fn table_arg<'a>(alloc: Global, help: &'a str, tables: &'a [&'a str]) -> Arg<'a>
    ensures rule { rule_of result ≡ table_rule tables.entry }
    ensures own { result.global ≡ false }
{
    Arg::new(alloc, "table")
        .long("table")
        .help(help)
        // No default: so a table that is named is told from none, and `--table` with `--check` is refused.
        .value_parser(tables)
}

/// A command, with the option for the size of tables.
fn with_table<'a>(
    alloc: Global,
    command: Command<'a>,
    tables: &'a [&'a str],
    help: &'a str,
) -> Result<Command<'a>, NoMemory>
    requires own { (fields_of command).has_globals ≡ false }
    ensures app { IfOk result (λ c. app_of c ≡ with_rule (app_of command.entry)
        (table_rule tables.entry)) }
    ensures own { IfOk result (λ c. (fields_of c).has_globals ≡ false) }
{
    Ok(command.arg(table_arg(alloc, help, tables))?)
}

fn certify_command<'a>(alloc: Global, tables: &'a [&'a str]) -> Result<Command<'a>, NoMemory>
    ensures app { IfOk result (λ c. app_of c ≡ certify_app tables.entry) }
    ensures own { IfOk result (λ c. (fields_of c).has_globals ≡ false) }
{
    let about = "Says of a plan whether it certifies delivery in any order of its copies";
    let sweep = "Says it for each link and each node off from the start too";
    let pairs =
        "Says it for each link and each node off from the start, and for each two of them too";
    let bare = bare_command(alloc, "certify", about);
    let one = with_table(alloc, bare, tables, ANY_TABLE_HELP)?;
    let two = with_word(alloc, one, "within", "US", WITHIN_HELP)?;
    let three = with_flag(alloc, two, "sweep", sweep)?;
    with_flag(alloc, three, "pairs", pairs)
}

fn top_command<'a>(alloc: Global) -> Command<'a>
    ensures app { app_of result ≡ top_app }
    ensures own { (fields_of result).has_globals ≡ false }
{
    Command::new(alloc, "hsr_plan")
        .about("Writes the scenario that a plan of a network means, for hsr_bench")
        .version(VERSION)
        .no_binary_name(true)
        .after_help(ENDS)
}

/// The planner's command without a subcommand.
fn alone_command<'a>(alloc: Global, tables: &'a [&'a str]) -> Result<Command<'a>, NoMemory>
    ensures { IfOk result (λ c. app_of c ≡ alone_app tables.entry) }
{
    let check =
        "Says of a scenario in which line and column which word is wrong, and what is allowed there";
    let one = with_table(alloc, top_command(alloc), tables, TABLE_HELP)?;
    with_flag(alloc, one, "check", check)
}

// Each subcommand is made where it is put on: the proof of a function that holds many commands at once takes long.
fn with_run<'a>(
    alloc: Global,
    alone: Command<'a>,
    tables: &'a [&'a str],
) -> Result<Command<'a>, NoMemory>
    ensures { IfOk result (λ c. app_of c ≡ with_subcommand (app_of alone.entry)
        (playing_app (codes "run") tables.entry).top) }
{
    let run = playing_command(alloc, "run", RUN_ABOUT, RUN_ENDS, tables)?;
    let whole = alone.subcommand(run)?;
    Ok(whole)
}

fn with_sweep<'a>(alloc: Global, alone: Command<'a>) -> Result<Command<'a>, NoMemory>
    ensures { IfOk result (λ c. app_of c ≡ with_subcommand (app_of alone.entry) sweep_app.top) }
{
    let sweep = sweep_command(alloc)?;
    let whole = alone.subcommand(sweep)?;
    Ok(whole)
}

fn with_certify<'a>(
    alloc: Global,
    alone: Command<'a>,
    tables: &'a [&'a str],
) -> Result<Command<'a>, NoMemory>
    ensures { IfOk result (λ c. app_of c ≡ with_subcommand (app_of alone.entry)
        (certify_app tables.entry).top) }
{
    let certify = certify_command(alloc, tables)?;
    let whole = alone.subcommand(certify)?;
    Ok(whole)
}

fn with_report<'a>(alloc: Global, alone: Command<'a>) -> Result<Command<'a>, NoMemory>
    ensures { IfOk result (λ c. app_of c ≡ with_subcommand (app_of alone.entry) report_app.top) }
{
    let report = report_command(alloc)?;
    let whole = alone.subcommand(report)?;
    Ok(whole)
}

fn plan_command<'a>(alloc: Global, tables: &'a [&'a str]) -> Result<Command<'a>, NoMemory>
    ensures { IfOk result (λ c. app_of c ≡ plan_app tables.entry) }
{
    let alone = alone_command(alloc, tables)?;
    let one = with_run(alloc, alone, tables)?;
    let two = with_sweep(alloc, one)?;
    let three = with_certify(alloc, two, tables)?;
    with_report(alloc, three)
}

/// The tables that the values name: large, where they don't say.
#[tactic(auto, using(crate::proofs::PlanFound::table_found, crate::proofs::PlanFound::table_unread))]
fn table_of(said: Option<&str>) -> Option<TableSize>
    ensures found { IfSome result (IsTable (option_map (λ s. s.now) said.entry)) }
    ensures none { IfNone result ((t : _) → ¬ IsTable (option_map (λ s. s.now) said.entry) t) }
{
    match said {
        Some(word) => TableSize::from_word(word.as_bytes()),
        None => Some(TableSize::Large),
    }
}

/// Which faults the values of `--sweep` and `--pairs` choose. They exclude one another.
fn faults_of(sweep: Option<&str>, pairs: Option<&str>) -> Option<Faults>
    ensures found { IfSome result (IsFaults (option_map (λ s. s.now) sweep.entry)
        (option_map (λ s. s.now) pairs.entry)) }
    ensures none { IfNone result ((faults : FaultsOf)
        → ¬ IsFaults (option_map (λ s. s.now) sweep.entry)
        (option_map (λ s. s.now) pairs.entry) faults) }
{
    match (sweep, pairs) {
        (Some("false"), Some("false")) => Some(Faults::None),
        (Some("true"), Some("false")) => Some(Faults::One),
        (Some("false"), Some("true")) => Some(Faults::Two),
        _ => None,
    }
}

/// What the values of `--check` and `--table` choose alone.
fn plan_of<'a>(check: Option<&str>, table: Option<&str>) -> Option<Task<'a>>
    ensures found { IfSome result (ChosenAlone (option_map (λ s. s.now) check.entry)
        (option_map (λ s. s.now) table.entry)) }
    ensures none { IfNone result ((task : TaskOf)
        → ¬ ChosenAlone (option_map (λ s. s.now) check.entry)
        (option_map (λ s. s.now) table.entry) task) }
{
    match check {
        Some("false") => match table_of(table) {
            Some(table) => Some(Task::Plan { table }),
            None => None,
        },
        // A check has tables of 512 entries, so `--table` would say nothing.
        Some("true") if table.is_none() => Some(Task::Check),
        _ => None,
    }
}

/// What the options of `run` choose.
#[tactic(auto, using(crate::proofs::PlanFound::no_run))]
fn run_of<'a>(inner: &ArgMatches<'a>) -> Option<Task<'a>>
    ensures found { IfSome result (IsRun (first_value (found_of inner.now))) }
    ensures none { IfNone result ((task : TaskOf) → ¬ IsRun (first_value (found_of inner.now)) task) }
{
    let table = playing::table_of(inner)?;
    let showing = showing_of(inner)?;
    let folder = inner.get_str("csv");
    let explains = flag_of(inner, "explain")?;
    Some(Task::Run {
        table,
        showing,
        folder,
        explains,
    })
}

/// What the options of `certify` choose.
fn certify_of<'a>(inner: &ArgMatches<'_>) -> Option<Task<'a>>
    ensures found { IfSome result (IsCertify (first_value (found_of inner.now))) }
    ensures none { IfNone result ((task : TaskOf)
        → ¬ IsCertify (first_value (found_of inner.now)) task) }
{
    let table = table_of(inner.get_str("table"))?;
    let within = within_of(inner.get_str("within"))?;
    let faults = faults_of(inner.get_str("sweep"), inner.get_str("pairs"))?;
    Some(Task::Certify {
        table,
        within,
        faults,
    })
}

/// What these values choose before a subcommand of that name, with what it found.
#[tactic(auto, using(crate::proofs::PlanFound::none_but_run, crate::proofs::PlanFound::none_but_certify))]
fn task_before<'a>(
    check: Option<&str>,
    table: Option<&str>,
    name: &str,
    inner: &ArgMatches<'a>,
) -> Option<Task<'a>>
    ensures found { IfSome result (ChosenBefore (option_map (λ s. s.now) check.entry)
        (option_map (λ s. s.now) table.entry) name.now (first_value (found_of inner.now))) }
    ensures none { IfNone result ((task : TaskOf)
        → ¬ ChosenBefore (option_map (λ s. s.now) check.entry)
        (option_map (λ s. s.now) table.entry) name.now (first_value (found_of inner.now)) task) }
{
    match (check, table, name) {
        // `--check` and `--table` are of other tasks.
        (Some("false"), None, "run") => run_of(inner),
        (Some("false"), None, "sweep") => Some(Task::Sweep(sweep_of(inner)?)),
        (Some("false"), None, "certify") => certify_of(inner),
        (Some("false"), None, "report") => Some(Task::Report(report_of(inner)?)),
        _ => None,
    }
}

/// What a parse found.
fn chosen_in<'a>(matches: &ArgMatches<'a>) -> Option<Task<'a>>
    ensures found { IfSome result (Chosen (first_value (found_of matches.now))
        (sub_values (subcommand_rows_of matches.now))) }
    ensures none { IfNone result ((task : TaskOf) → ¬ Chosen (first_value (found_of matches.now))
        (sub_values (subcommand_rows_of matches.now)) task) }
{
    let table = matches.get_str("table");
    let check = matches.get_str("check");
    match matches.subcommand() {
        Some((name, inner)) => task_before(check, table, name, inner),
        None => plan_of(check, table),
    }
}

/// What arguments choose: `--check` a scenario to check, `run` a plan to be run, with the options of `hsr_bench threads`, `sweep`
/// with `--at-us`, `--pairs`, `--part` and limits a sweep, `certify` with `--table`, `--within` and `--sweep` or `--pairs` a verdict, `report`
/// with `--date`, `--at-us`, `--within` and limits a page, else a plan, with the tables that `--table` names (`large` is meant without
/// it). Arguments that go together in none of these are refused by the text that says which do, and other arguments by clap's
/// text, which isn't empty; `Memory` if allocation fails.
pub fn task_by<'a>(alloc: Global, words: &'a [&'a str]) -> Result<Task<'a>, OptionFault>
    ensures found { IfOk result (Says (map (λ s. s.now) words.entry.now)) }
    ensures refused { IfErr result (λ f. IfUsage f (IsRefused (map (λ s. s.now) words.entry.now))) }
    ensures some { IfErr result (λ f. IfUsage f (λ text. 0 < length text)) }
{
    let command = plan_command(alloc, tables())?;
    match command.try_get_matches_from(words) {
        Ok(matches) => match chosen_in(&matches) {
            Some(task) => Ok(task),
            None => Err(usage(alloc, TOGETHER)),
        },
        Err(error) => Err(refused(alloc, &error, TOGETHER)),
    }
}
