//! Reads the arguments of hsr_bench, by clap.
ghost use Rattle.std.specs.Prelude.{◌≡◌, ◌≢◌, ◌<◌, ◌∷◌, IfErr, IfNone, IfOk, IfSome, OnOk, Some, Ok, codes, false, length, map};
ghost use Rattle.std.specs.Str.{trim_end};
ghost use Rattle.hsr_frame.specs.Address.{IsGroup, address_of};
ghost use Rattle.hsr_frame.specs.Words.{mode_word};
ghost use Rattle.hsr_text.specs.Moments.{unit_word};
ghost use Rattle.hsr_table_size.specs.Sizes.{table_words};
ghost use Rattle.hsr_options.specs.Roles.{node_role_word};
ghost use Rattle.clap.specs.Words.{Text, app_of, first_value, found_of, kind_of, subcommand_rows_of, with_subcommand};
ghost use Rattle.clap.specs.declared.builder.Command.TheViews.{out-Command as fields_of};
ghost use Rattle.clap.specs.declared.error.kind.ErrorKind.TheVariants.{OutOfMemory};
ghost use Rattle.hsr_cli.specs.Playing.{playing_app};
ghost use Rattle.hsr_cli.specs.Refusal.{IfUsage};
ghost use Rattle.hsr_cli.specs.Options.{Chosen, ChosenIn, IsNode, IsRefused, IsTableChoice, IsTaken, Says, SaysNothing, ListsChoices, ListsModes, ListsRoles, ListsUnits, audit_app, bench_app, certify_app, node_app, run_app, silent_usage, silent_usage_in, top_app};

use crate::bench_help::{
    AUDIT_ENDS, CERTIFY_ABOUT, CERTIFY_ENDS, CHOICE_HELP, COARSE_HELP, NAMES_HELP, NODE_LINES,
    RUN_ABOUT, RUN_ENDS, TABLE_HELP, THREADS_ABOUT, THREADS_ENDS, WITHIN_HELP,
};
use crate::fault::{OptionFault, refused, usage};
use crate::flags::{ended_command, flag_of, with_choice, with_default, with_flag, with_word};
use crate::playing::{
    asked_of, playing_command, scope_of, showing_of, table_of, tables, tabling, telling, with_table,
};
use crate::within::within_of;
use clap::{ArgMatches, Command};
use hsr_frame::{Mac, Mode, NoMemory};
use hsr_options::{NodeOptions, NodeRole, Options, TableChoice};
use hsr_table_size::{TableSize, table_words};
use hsr_text::TimeUnit;
use hsr_version::VERSION;
use std::alloc::Global;

/// How help is asked for.
const ASK_HELP: &str = "usage: --help";

const NO_MAC: &str = "\
usage: --mac
explain: --mac takes the address of one node: six pairs of hexadecimal digits with hyphens between, the first pair even (an odd one is a group's), as 02-00-00-00-00-01";

const NO_WITHIN: &str = "\
usage: --within
explain: --within takes how many microseconds after its send a copy may be under way: a number from 1 to 400000";

fn node_command<'a>(
    alloc: Global,
    roles: &'a [&'a str],
    modes: &'a [&'a str],
    tables: &'a [&'a str],
    units: &'a [&'a str],
) -> Result<Command<'a>, NoMemory>
    ensures app { IfOk result (λ c. app_of c
        ≡ node_app roles.entry modes.entry tables.entry units.entry) }
    ensures own { IfOk result (λ c. (fields_of c).has_globals ≡ false) }
{
    let about = "Answers lines of standard input as one node: a DANH, a RedBox or a QuadBox";
    let role = "The kind of node";
    let mac = "The node's address, which is no group's; a quadbox has none";
    let mode = "Forwards round the ring (H), not (N), or what it delivers too (U)";
    let unit = "The unit of moments: milliseconds (ms) or microseconds (us)";
    let bare = ended_command(alloc, "node", about, NODE_LINES);
    let one = with_choice(alloc, bare, "role", roles, NodeRole::Danh.word(), role)?;
    // The 2 says that the address is locally administered (IEEE 802 clause 8).
    let two = with_default(alloc, one, "mac", "02-00-00-00-00-01", mac)?;
    let three = with_choice(alloc, two, "mode", modes, Mode::H.word(), mode)?;
    let four = with_table(alloc, three, tables, TABLE_HELP)?;
    with_choice(
        alloc,
        four,
        "unit",
        units,
        TimeUnit::Milliseconds.word(),
        unit,
    )
}

/// The command `run`, which may show a run that can't be closed.
fn run_command<'a>(alloc: Global, tables: &'a [&'a str]) -> Result<Command<'a>, NoMemory>
    ensures app { IfOk result (λ c. app_of c ≡ run_app tables.entry) }
    ensures own { IfOk result (λ c. (fields_of c).has_globals ≡ false) }
{
    let open = "Shows a run that can't be closed as it stands, with the last line `open`";
    let command = playing_command(alloc, "run", RUN_ABOUT, RUN_ENDS, tables)?;
    with_flag(alloc, command, "open", open)
}

fn audit_command<'a>(alloc: Global, choices: &'a [&'a str]) -> Result<Command<'a>, NoMemory>
    ensures app { IfOk result (λ c. app_of c ≡ audit_app choices.entry) }
    ensures own { IfOk result (λ c. (fields_of c).has_globals ≡ false) }
{
    let about =
        "Audits the transcript on standard input, and reports whether it certifies delivery";
    let bare = ended_command(alloc, "audit", about, AUDIT_ENDS);
    let one = with_table(alloc, bare, choices, CHOICE_HELP)?;
    let two = telling(alloc, one)?;
    let three = with_word(alloc, two, "names", "FILE", NAMES_HELP)?;
    tabling(alloc, three)
}

/// The command `certify`, which plays nothing.
fn certify_command<'a>(alloc: Global, tables: &'a [&'a str]) -> Result<Command<'a>, NoMemory>
    ensures app { IfOk result (λ c. app_of c ≡ certify_app tables.entry) }
    ensures own { IfOk result (λ c. (fields_of c).has_globals ≡ false) }
{
    let bare = ended_command(alloc, "certify", CERTIFY_ABOUT, CERTIFY_ENDS);
    let one = with_table(alloc, bare, tables, TABLE_HELP)?;
    let two = with_word(alloc, one, "within", "US", WITHIN_HELP)?;
    with_flag(alloc, two, "coarse", COARSE_HELP)
}

fn top_command<'a>(alloc: Global) -> Result<Command<'a>, NoMemory>
    ensures { IfOk result (λ c. app_of c ≡ top_app) }
{
    // The arguments come without the program's name, so usage lines are told it.
    let command = Command::new(alloc, "hsr_bench")
        .about("A bench for HSR rings (IEC 62439-3 clause 5). With no words it runs `node`.")
        .version(VERSION)
        .no_binary_name(true)
        .subcommand_required(true)
        .bin_name("hsr_bench")?;
    Ok(command)
}

// Each subcommand is made where it is put on: the proof of a function that holds many commands at once takes long.
fn with_node<'a>(
    alloc: Global,
    top: Command<'a>,
    roles: &'a [&'a str],
    modes: &'a [&'a str],
    tables: &'a [&'a str],
    units: &'a [&'a str],
) -> Result<Command<'a>, NoMemory>
    ensures { IfOk result (λ c. app_of c ≡ with_subcommand (app_of top.entry)
        (node_app roles.entry modes.entry tables.entry units.entry).top) }
{
    let node = node_command(alloc, roles, modes, tables, units)?;
    let whole = top.subcommand(node)?;
    Ok(whole)
}

fn with_run<'a>(
    alloc: Global,
    top: Command<'a>,
    tables: &'a [&'a str],
) -> Result<Command<'a>, NoMemory>
    ensures { IfOk result (λ c. app_of c ≡ with_subcommand (app_of top.entry)
        (run_app tables.entry).top) }
{
    let run = run_command(alloc, tables)?;
    let whole = top.subcommand(run)?;
    Ok(whole)
}

fn with_threads<'a>(
    alloc: Global,
    top: Command<'a>,
    tables: &'a [&'a str],
) -> Result<Command<'a>, NoMemory>
    ensures { IfOk result (λ c. app_of c ≡ with_subcommand (app_of top.entry)
        (playing_app (codes "threads") tables.entry).top) }
{
    let threads = playing_command(alloc, "threads", THREADS_ABOUT, THREADS_ENDS, tables)?;
    let whole = top.subcommand(threads)?;
    Ok(whole)
}

fn with_audit<'a>(
    alloc: Global,
    top: Command<'a>,
    choices: &'a [&'a str],
) -> Result<Command<'a>, NoMemory>
    ensures { IfOk result (λ c. app_of c ≡ with_subcommand (app_of top.entry)
        (audit_app choices.entry).top) }
{
    let audit = audit_command(alloc, choices)?;
    let whole = top.subcommand(audit)?;
    Ok(whole)
}

fn with_certify<'a>(
    alloc: Global,
    top: Command<'a>,
    tables: &'a [&'a str],
) -> Result<Command<'a>, NoMemory>
    ensures { IfOk result (λ c. app_of c ≡ with_subcommand (app_of top.entry)
        (certify_app tables.entry).top) }
{
    let certify = certify_command(alloc, tables)?;
    let whole = top.subcommand(certify)?;
    Ok(whole)
}

fn bench_command<'a>(
    alloc: Global,
    roles: &'a [&'a str],
    modes: &'a [&'a str],
    tables: &'a [&'a str],
    choices: &'a [&'a str],
    units: &'a [&'a str],
) -> Result<Command<'a>, NoMemory>
    ensures { IfOk result (λ c. app_of c
        ≡ bench_app roles.entry modes.entry tables.entry choices.entry units.entry) }
{
    let top = top_command(alloc)?;
    let one = with_node(alloc, top, roles, modes, tables, units)?;
    let two = with_run(alloc, one, tables)?;
    let three = with_threads(alloc, two, tables)?;
    let four = with_audit(alloc, three, choices)?;
    with_certify(alloc, four, tables)
}

/// Which size of tables an audit takes.
#[tactic(auto, using(crate::proofs::BenchFound::no_choice))]
fn choice_of(matches: &ArgMatches<'_>) -> Option<TableChoice>
    ensures found { IfSome result (IsTableChoice (first_value (found_of matches.now))) }
    ensures none { IfNone result ((choice : TableChoice)
        → ¬ IsTableChoice (first_value (found_of matches.now)) choice) }
{
    match matches.get_str("table") {
        Some("auto") => Some(TableChoice::Told),
        _ => Some(TableChoice::Given(table_of(matches)?)),
    }
}

#[tactic(auto, using(crate::proofs::BenchFound::mode_found, crate::proofs::BenchFound::mode_unread))]
fn mode_of(matches: &ArgMatches<'_>) -> Option<Mode>
    ensures found { IfSome result (λ m. first_value (found_of matches.now) (codes "mode")
        ≡ Some (mode_word m)) }
    ensures none { IfNone result ((m : _) → first_value (found_of matches.now) (codes "mode")
        ≢ Some (mode_word m)) }
{
    Mode::from_word(matches.get_str("mode")?.as_bytes())
}

#[tactic(auto, using(crate::proofs::BenchFound::role_found, crate::proofs::BenchFound::role_unread))]
fn role_of(matches: &ArgMatches<'_>) -> Option<NodeRole>
    ensures found { IfSome result (λ r. first_value (found_of matches.now) (codes "role")
        ≡ Some (node_role_word r)) }
    ensures none { IfNone result ((r : _) → first_value (found_of matches.now) (codes "role")
        ≢ Some (node_role_word r)) }
{
    NodeRole::from_word(matches.get_str("role")?.as_bytes())
}

#[tactic(auto, using(crate::proofs::BenchFound::unit_found, crate::proofs::BenchFound::unit_unread))]
fn unit_of(matches: &ArgMatches<'_>) -> Option<TimeUnit>
    ensures found { IfSome result (λ u. first_value (found_of matches.now) (codes "unit")
        ≡ Some (unit_word u)) }
    ensures none { IfNone result ((u : _) → first_value (found_of matches.now) (codes "unit")
        ≢ Some (unit_word u)) }
{
    TimeUnit::from_word(matches.get_str("unit")?.as_bytes())
}

/// The address of `--mac`, if it is one and no group's.
fn mac_of(matches: &ArgMatches<'_>) -> Option<Mac>
    ensures address { IfSome result (λ m. (t : Text)
        × (first_value (found_of matches.now) (codes "mac") ≡ Some t) × (address_of t ≡ Ok m)) }
    ensures station { IfSome result (λ m. ¬ IsGroup m) }
    ensures none { IfNone result ((t : Text) (m : Mac)
        → first_value (found_of matches.now) (codes "mac") ≡ Some t → address_of t ≡ Ok m
        → IsGroup m) }
{
    let text = matches.get_str("mac")?;
    match Mac::from_text(text) {
        Ok(mac) if !mac.is_group() => Some(mac),
        _ => None,
    }
}

fn node_options(matches: &ArgMatches<'_>) -> Option<NodeOptions>
    ensures found { IfSome result (IsNode (first_value (found_of matches.now))) }
    ensures none { IfNone result ((node : NodeOptions)
        → ¬ IsNode (first_value (found_of matches.now)) node) }
{
    let role = role_of(matches)?;
    let mode = mode_of(matches)?;
    let table = table_of(matches)?;
    let unit = unit_of(matches)?;
    let mac = mac_of(matches)?;
    Some(NodeOptions {
        role,
        mac,
        mode,
        table,
        unit,
    })
}

/// The options of `run`.
#[tactic(auto, using(crate::proofs::BenchFound::no_run))]
fn run_of<'a>(matches: &ArgMatches<'a>) -> Option<Options<'a>>
    ensures found { IfSome result (Chosen (codes "run") (first_value (found_of matches.now))) }
    ensures none { IfNone result ((o : Options)
        → ¬ Chosen (codes "run") (first_value (found_of matches.now)) o) }
{
    let table = table_of(matches)?;
    let showing = showing_of(matches)?;
    let folder = matches.get_str("csv");
    let shows_open = flag_of(matches, "open")?;
    let explains = flag_of(matches, "explain")?;
    Some(Options::Run {
        table,
        showing,
        folder,
        shows_open,
        explains,
    })
}

/// The options of `threads`.
#[tactic(auto, using(crate::proofs::BenchFound::no_threads))]
fn threads_of<'a>(matches: &ArgMatches<'a>) -> Option<Options<'a>>
    ensures found { IfSome result (Chosen (codes "threads") (first_value (found_of matches.now))) }
    ensures none { IfNone result ((o : Options)
        → ¬ Chosen (codes "threads") (first_value (found_of matches.now)) o) }
{
    let table = table_of(matches)?;
    let showing = showing_of(matches)?;
    let folder = matches.get_str("csv");
    let explains = flag_of(matches, "explain")?;
    Some(Options::Threads {
        table,
        showing,
        folder,
        explains,
    })
}

/// The options of `audit`.
fn audit_of<'a>(matches: &ArgMatches<'a>) -> Option<Options<'a>>
    ensures found { IfSome result (Chosen (codes "audit") (first_value (found_of matches.now))) }
    ensures none { IfNone result ((o : Options)
        → ¬ Chosen (codes "audit") (first_value (found_of matches.now)) o) }
{
    let table = choice_of(matches)?;
    let scope = scope_of(matches)?;
    let asked = asked_of(matches)?;
    let scenario = matches.get_str("names");
    let folder = matches.get_str("csv");
    let explains = flag_of(matches, "explain")?;
    Some(Options::Audit {
        table,
        scope,
        asked,
        scenario,
        folder,
        explains,
    })
}

/// The options of `certify`.
#[tactic(auto, using(crate::proofs::BenchFound::no_certify))]
fn certify_of<'a>(matches: &ArgMatches<'a>) -> Option<Options<'a>>
    ensures found { IfSome result (Chosen (codes "certify") (first_value (found_of matches.now))) }
    ensures none { IfNone result ((o : Options)
        → ¬ Chosen (codes "certify") (first_value (found_of matches.now)) o) }
{
    let table = table_of(matches)?;
    let within = within_of(matches.get_str("within"))?;
    let is_coarse = flag_of(matches, "coarse")?;
    Some(Options::Certify {
        table,
        within,
        is_coarse,
    })
}

/// The options of a subcommand.
fn options_of<'a>(name: &str, matches: &ArgMatches<'a>) -> Option<Options<'a>>
    ensures found { IfSome result (Chosen name.now (first_value (found_of matches.now))) }
    ensures none { IfNone result ((o : Options)
        → ¬ Chosen name.now (first_value (found_of matches.now)) o) }
{
    match name {
        "node" => Some(Options::Node(node_options(matches)?)),
        "run" => run_of(matches),
        "threads" => threads_of(matches),
        "audit" => audit_of(matches),
        "certify" => certify_of(matches),
        _ => None,
    }
}

// What is chosen borrows from the words and from these lists alike, so they live as long as the program does.
/// The words that choose a kind of node.
fn roles() -> &'static [&'static str]
    ensures { ListsRoles result }
{
    &["danh", "redbox", "quadbox"]
}

/// The words that choose a mode.
fn modes() -> &'static [&'static str]
    ensures { ListsModes result }
{
    &["H", "N", "U"]
}

/// The words that choose a size of tables for an audit.
fn choices() -> &'static [&'static str]
    ensures { ListsChoices result }
{
    &table_words!("auto")
}

/// The words that choose a unit of moments.
fn units() -> &'static [&'static str]
    ensures { ListsUnits result }
{
    &["ms", "us"]
}

/// What a parse found.
fn chosen_in<'a>(matches: &ArgMatches<'a>) -> Option<Options<'a>>
    ensures found { IfSome result (ChosenIn (subcommand_rows_of matches.now)) }
    ensures none { IfNone result (SaysNothing (subcommand_rows_of matches.now)) }
{
    let (name, inner) = matches.subcommand()?;
    options_of(name, inner)
}

/// The text by which values of a subcommand of this name are refused that choose nothing.
fn silent_text(name: &str) -> &'static str
    ensures { result.now ≡ silent_usage name.now }
{
    match name {
        // All other values are from lists that clap compares.
        "certify" => NO_WITHIN,
        _ => NO_MAC,
    }
}

/// The text by which a parse is refused that chooses nothing.
fn silent_parse(matches: &ArgMatches<'_>) -> &'static str
    ensures { result.now ≡ silent_usage_in (subcommand_rows_of matches.now) }
{
    match matches.subcommand() {
        Some((name, _)) => silent_text(name),
        None => NO_MAC,
    }
}

/// What the arguments after the program's name say: with none, `node` and its defaults. A `--mac` that is no address or
/// a group's is refused by `usage: --mac` and a line that says what it takes, a `--within` that is no number from 1 to 400000
/// by `usage: --within` and such a line, and other arguments by clap's text, which isn't empty; `Memory` if allocation fails.
pub fn options<'a>(alloc: Global, words: &'a [&'a str]) -> Result<Options<'a>, OptionFault>
    ensures found { IfOk result (Says (map (λ s. s.now) words.entry.now)) }
    ensures taken { OnOk result (IsTaken (map (λ s. s.now) words.entry.now)) }
    ensures refused { IfErr result (λ f. IfUsage f (IsRefused (map (λ s. s.now) words.entry.now))) }
    ensures some { IfErr result (λ f. IfUsage f (λ text. 0 < length text)) }
{
    // Clap would ask for a subcommand.
    if words.is_empty() {
        return Ok(Options::Node(NodeOptions {
            role: NodeRole::Danh,
            // The default of `--mac`.
            mac: Mac::new([2, 0, 0, 0, 0, 1]),
            mode: Mode::H,
            table: TableSize::Large,
            unit: TimeUnit::Milliseconds,
        }));
    }
    let command = bench_command(alloc, roles(), modes(), tables(), choices(), units())?;
    match command.try_get_matches_from(words) {
        Ok(matches) => match chosen_in(&matches) {
            Some(options) => Ok(options),
            None => Err(usage(alloc, silent_parse(&matches))),
        },
        Err(error) => Err(refused(alloc, &error, ASK_HELP)),
    }
}
