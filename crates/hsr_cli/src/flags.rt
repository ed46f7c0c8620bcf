//! Flags and options of a command, and what they are set to.
ghost use Rattle.std.specs.Prelude.{◌≡◌, ◌≢◌, IfNone, IfOk, IfSome, Some, false};
ghost use Rattle.clap.specs.Words.{app_of, first_value, found_of, new_app, rule_of, with_rule};
ghost use Rattle.clap.specs.declared.builder.Command.TheViews.{out-Command as fields_of};
ghost use Rattle.hsr_cli.specs.Flags.{choice_rule, default_rule, flag_rule, flag_text, word_rule};

use clap::{Arg, ArgAction, ArgMatches, Command};
use hsr_frame::NoMemory;
use std::alloc::Global;

/// A command without options.
pub(crate) fn bare_command<'a>(alloc: Global, name: &'a str, about: &'a str) -> Command<'a>
    ensures app { app_of result ≡ new_app name.entry.now }
    ensures own { (fields_of result).has_globals ≡ false }
{
    Command::new(alloc, name).about(about)
}

/// A command without options, whose help has more behind what will be its options.
pub(crate) fn ended_command<'a>(
    alloc: Global,
    name: &'a str,
    about: &'a str,
    ends: &'a str,
) -> Command<'a>
    ensures app { app_of result ≡ new_app name.entry.now }
    ensures own { (fields_of result).has_globals ≡ false }
{
    bare_command(alloc, name, about).after_help(ends)
}

fn flag_arg<'a>(alloc: Global, name: &'a str, help: &'a str) -> Arg<'a>
    ensures rule { rule_of result ≡ flag_rule name.entry.now }
    ensures own { result.global ≡ false }
{
    Arg::new(alloc, name)
        .long(name)
        .help(help)
        .action(ArgAction::SetTrue)
}

fn word_arg<'a>(alloc: Global, name: &'a str, value: &'a str, help: &'a str) -> Arg<'a>
    ensures rule { rule_of result ≡ word_rule name.entry.now }
    ensures own { result.global ≡ false }
{
    Arg::new(alloc, name)
        .long(name)
        .value_name(value)
        .help(help)
}

fn default_arg<'a>(alloc: Global, name: &'a str, default: &'a str, help: &'a str) -> Arg<'a>
    ensures rule { rule_of result ≡ default_rule name.entry.now default.entry.now }
    ensures own { result.global ≡ false }
{
    Arg::new(alloc, name)
        .long(name)
        .help(help)
        .default_value(default)
}

fn choice_arg<'a>(
    alloc: Global,
    name: &'a str,
    names: &'a [&'a str],
    default: &'a str,
    help: &'a str,
) -> Arg<'a>
    ensures rule { rule_of result ≡ choice_rule name.entry.now names.entry default.entry.now }
    ensures own { result.global ≡ false }
{
    default_arg(alloc, name, default, help).value_parser(names)
}

// Each option is put on by a call of its own: the proof of a function that holds many commands and options at once takes long.
/// A command, with one more flag.
pub(crate) fn with_flag<'a>(
    alloc: Global,
    command: Command<'a>,
    name: &'a str,
    help: &'a str,
) -> Result<Command<'a>, NoMemory>
    requires own { (fields_of command).has_globals ≡ false }
    ensures app { IfOk result (λ c. app_of c ≡ with_rule (app_of command.entry)
        (flag_rule name.entry.now)) }
    ensures own { IfOk result (λ c. (fields_of c).has_globals ≡ false) }
{
    Ok(command.arg(flag_arg(alloc, name, help))?)
}

/// A command, with one more option that takes a word.
pub(crate) fn with_word<'a>(
    alloc: Global,
    command: Command<'a>,
    name: &'a str,
    value: &'a str,
    help: &'a str,
) -> Result<Command<'a>, NoMemory>
    requires own { (fields_of command).has_globals ≡ false }
    ensures app { IfOk result (λ c. app_of c ≡ with_rule (app_of command.entry)
        (word_rule name.entry.now)) }
    ensures own { IfOk result (λ c. (fields_of c).has_globals ≡ false) }
{
    Ok(command.arg(word_arg(alloc, name, value, help))?)
}

/// A command, with one more option that has a default.
pub(crate) fn with_default<'a>(
    alloc: Global,
    command: Command<'a>,
    name: &'a str,
    default: &'a str,
    help: &'a str,
) -> Result<Command<'a>, NoMemory>
    requires own { (fields_of command).has_globals ≡ false }
    ensures app { IfOk result (λ c. app_of c ≡ with_rule (app_of command.entry)
        (default_rule name.entry.now default.entry.now)) }
    ensures own { IfOk result (λ c. (fields_of c).has_globals ≡ false) }
{
    Ok(command.arg(default_arg(alloc, name, default, help))?)
}

/// A command, with one more option that takes one of some names, and has a default.
pub(crate) fn with_choice<'a>(
    alloc: Global,
    command: Command<'a>,
    name: &'a str,
    names: &'a [&'a str],
    default: &'a str,
    help: &'a str,
) -> Result<Command<'a>, NoMemory>
    requires own { (fields_of command).has_globals ≡ false }
    ensures app { IfOk result (λ c. app_of c ≡ with_rule (app_of command.entry)
        (choice_rule name.entry.now names.entry default.entry.now)) }
    ensures own { IfOk result (λ c. (fields_of c).has_globals ≡ false) }
{
    Ok(command.arg(choice_arg(alloc, name, names, default, help))?)
}

/// Whether a flag is among the arguments.
pub(crate) fn flag_of(matches: &ArgMatches<'_>, name: &str) -> Option<bool>
    ensures found { IfSome result (λ b. first_value (found_of matches.now) name.now
        ≡ Some (flag_text b)) }
    ensures none { IfNone result ((b : _) → first_value (found_of matches.now) name.now
        ≢ Some (flag_text b)) }
{
    match matches.get_str(name) {
        // Clap keeps a flag as one of these words.
        Some("true") => Some(true),
        Some("false") => Some(false),
        _ => None,
    }
}
