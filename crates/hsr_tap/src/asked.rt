//! What the arguments of hsr_tap ask for, read by clap.
ghost use Rattle.std.specs.Prelude.{◌≤◌, IfOk};

use crate::commands::tap_command;
use crate::examining::Looking;
use clap::error::ErrorKind;
use clap::{ArgMatches, Error};
use hsr_cli::{OptionFault, usage};
use hsr_frame::Mac;
use hsr_health::Asked as HealthAsked;
use hsr_judging_text::Showing;
use hsr_taps::{Choice, PointAsked, TapsAsked};
use hsr_text::decimal;
use std::alloc::Global;

/// Which sources are expected: these, or those of the plan at a path.
#[derive(Drop)]
pub(crate) enum Expected<'a> {
    /// These addresses.
    Macs(Vec<Mac>),
    /// Those of the plan at this path.
    Plan(&'a str),
}

/// What is asked for.
#[derive(Drop)]
pub(crate) enum Asked<'a> {
    /// Whether the ring of the capture on standard input is healthy, and which sources are expected there.
    Health {
        looking: Looking<'a>,
        expected: Expected<'a>,
    },
    /// Whether the device that the document at a path describes does what the reference node does, by the capture on standard input; what
    /// is told of it, and how many octets of each packet are a frame check sequence, where the capture says nothing of it.
    Judge {
        device: &'a str,
        showing: Showing,
        fcs: u8,
    },
    /// The lines of the capture on standard input: the path of the document that describes the device, if one is given, and how many
    /// octets of each packet are a frame check sequence, where the capture says nothing of it.
    Lines {
        device: Option<&'a str>,
        fcs: u8,
    },
    /// Stimuli for the device that the document at a path describes, or their list alone.
    Stimuli {
        device: &'a str,
        is_list: bool,
    },
}

const NO_TABLE: &str = "usage: --table N: entries of a duplicate table, from 1 to 65536";

const NO_FCS: &str = "usage: --fcs N: octets of a frame check sequence, from 0 to 4";

const NO_LIST: &str = "usage: --list N: how many deviations are told, from 0 to 1048576";

const NO_INTERFACE: &str = "usage: --interface I: the number of an interface, from 0 to 63";

const NO_POINT: &str = "usage: --point NAME=I,J: a name and the numbers of interfaces, as n2=0,1";

const NO_EXPECT: &str =
    "usage: --expect ADDRESS,..: addresses, as 02-00-00-00-00-01,02-00-00-00-00-02, or the file of a plan";

/// The entries of a duplicate table where none are said.
const TABLE: u64 = 512;

/// The most octets of a frame check sequence.
const MOST_FCS: u64 = 4;

/// How many deviations are told where none are said.
const LIST: u64 = 100;

/// The text of a refusal, without the end of its last line: whoever prints it ends the line.
fn refused(alloc: Global, error: &Error) -> OptionFault {
    if error.kind() == ErrorKind::OutOfMemory {
        return OptionFault::Memory;
    }
    match format!(in alloc; "{error}") {
        Ok(text) => usage(alloc, text.trim_end()),
        Err(_) => OptionFault::Memory,
    }
}

/// The number that a word spells, between two others; the text says what is asked for.
fn number_in(
    alloc: Global,
    word: &str,
    least: u64,
    most: u64,
    text: &str,
) -> Result<u64, OptionFault>
    ensures { IfOk result (λ number. number ≤ most) }
{
    match decimal(word.as_bytes()) {
        Some(number) if least <= number && number <= most => Ok(number),
        _ => Err(usage(alloc, text)),
    }
}

/// The octets of `--fcs`, none where it isn't there.
fn fcs_of(alloc: Global, matches: &ArgMatches<'_>) -> Result<u8, OptionFault> {
    match matches.get_str("fcs") {
        Some(word) => Ok(number_in(alloc, word, 0, MOST_FCS, NO_FCS)? as u8),
        None => Ok(0),
    }
}

/// The entries of `--table`.
fn table_of(alloc: Global, matches: &ArgMatches<'_>) -> Result<u64, OptionFault> {
    match matches.get_str("table") {
        Some(word) => number_in(alloc, word, 1, 65536, NO_TABLE),
        None => Ok(TABLE),
    }
}

/// How many deviations `--list` asks for.
fn list_of(alloc: Global, matches: &ArgMatches<'_>) -> Result<usize, OptionFault> {
    match matches.get_str("list") {
        Some(word) => Ok(number_in(alloc, word, 0, 1 << 20, NO_LIST)? as usize),
        None => Ok(LIST as usize),
    }
}

/// The number of an interface that a word spells.
fn interface_in(alloc: Global, word: &str, text: &str) -> Result<usize, OptionFault> {
    Ok(number_in(alloc, word, 0, 63, text)? as usize)
}

/// The interfaces of all `--interface`.
fn interfaces_of(alloc: Global, matches: &ArgMatches<'_>) -> Result<Vec<usize>, OptionFault> {
    let mut interfaces = Vec::new(alloc);
    let Some(words) = matches.get_strs("interface") else {
        return Ok(interfaces);
    };
    for word in words {
        let number = interface_in(alloc, word, NO_INTERFACE)?;
        if interfaces.push(number).is_err() {
            return Err(OptionFault::Memory);
        }
    }
    Ok(interfaces)
}

/// The interfaces whose numbers words spell, parted by commas.
fn numbers_in(alloc: Global, words: &str) -> Result<Vec<usize>, OptionFault> {
    let mut numbers = Vec::new(alloc);
    for word in words.split(',') {
        let number = interface_in(alloc, word, NO_POINT)?;
        if numbers.push(number).is_err() {
            return Err(OptionFault::Memory);
        }
    }
    Ok(numbers)
}

/// The point that a word tells.
fn point_in<'a>(alloc: Global, word: &'a str) -> Result<PointAsked<'a>, OptionFault> {
    let Some((name, numbers)) = word.split_once('=') else {
        return Err(usage(alloc, NO_POINT));
    };
    if name.is_empty() || name.contains(' ') {
        return Err(usage(alloc, NO_POINT));
    }
    let interfaces = numbers_in(alloc, numbers)?;
    Ok(PointAsked { name, interfaces })
}

/// The points of all `--point`.
fn points_of<'a>(
    alloc: Global,
    matches: &ArgMatches<'a>,
) -> Result<Vec<PointAsked<'a>>, OptionFault> {
    let mut points = Vec::new(alloc);
    let Some(words) = matches.get_strs("point") else {
        return Ok(points);
    };
    for word in words {
        let point = point_in(alloc, word)?;
        if points.push(point).is_err() {
            return Err(OptionFault::Memory);
        }
    }
    Ok(points)
}

/// Whether a word is the path of a file: it has a dot or a slash, as no address has.
fn is_file(word: &str) -> bool {
    word.contains('.') || word.contains('/')
}

/// The addresses that words tell, parted by commas.
fn macs_in(alloc: Global, words: &str) -> Result<Vec<Mac>, OptionFault> {
    let mut macs = Vec::new(alloc);
    for word in words.split(',') {
        let Ok(mac) = Mac::from_text(word) else {
            return Err(usage(alloc, NO_EXPECT));
        };
        if macs.push(mac).is_err() {
            return Err(OptionFault::Memory);
        }
    }
    Ok(macs)
}

/// The sources of `--expect`.
fn expected_of<'a>(alloc: Global, matches: &ArgMatches<'a>) -> Result<Expected<'a>, OptionFault> {
    match matches.get_str("expect") {
        Some(words) if is_file(words) => Ok(Expected::Plan(words)),
        Some(words) => Ok(Expected::Macs(macs_in(alloc, words)?)),
        None => Ok(Expected::Macs(Vec::new(alloc))),
    }
}

/// How the directions of interfaces are to be told apart.
fn taps_of(matches: &ArgMatches<'_>) -> TapsAsked {
    match matches.get_str("taps") {
        Some("one") => TapsAsked::One,
        Some("both") => TapsAsked::Both,
        _ => TapsAsked::Auto,
    }
}

/// What the arguments of `health` ask for.
fn health_in<'a>(alloc: Global, matches: &ArgMatches<'a>) -> Result<Asked<'a>, OptionFault> {
    let table = table_of(alloc, matches)?;
    let fcs = fcs_of(alloc, matches)?;
    let interfaces = interfaces_of(alloc, matches)?;
    let points = points_of(alloc, matches)?;
    let expected = expected_of(alloc, matches)?;
    let choice = Choice {
        interfaces,
        taps: taps_of(matches),
        points,
    };
    let asked = HealthAsked {
        choice,
        table,
        is_whole: matches.get_flag("whole"),
    };
    let looking = Looking {
        asked,
        is_full: matches.get_flag("full"),
        fcs,
    };
    Ok(Asked::Health { looking, expected })
}

/// What the arguments of `judge` ask for.
fn judge_in<'a>(alloc: Global, matches: &ArgMatches<'a>) -> Result<Asked<'a>, OptionFault> {
    let list = list_of(alloc, matches)?;
    let fcs = fcs_of(alloc, matches)?;
    let Some(device) = matches.get_str("device") else {
        return Err(usage(
            alloc,
            "usage: hsr_tap judge [--full] [--list N] [--octets] [--fcs N] DEVICE.toml",
        ));
    };
    let showing = Showing {
        list,
        octets: matches.get_flag("octets"),
        full: matches.get_flag("full"),
    };
    Ok(Asked::Judge {
        device,
        showing,
        fcs,
    })
}

/// What the arguments of `lines` ask for.
fn lines_in<'a>(alloc: Global, matches: &ArgMatches<'a>) -> Result<Asked<'a>, OptionFault> {
    let fcs = fcs_of(alloc, matches)?;
    Ok(Asked::Lines {
        device: matches.get_str("device"),
        fcs,
    })
}

/// What the arguments of `stimuli` ask for.
fn stimuli_in<'a>(alloc: Global, matches: &ArgMatches<'a>) -> Result<Asked<'a>, OptionFault> {
    let Some(device) = matches.get_str("device") else {
        return Err(usage(alloc, "usage: hsr_tap stimuli [--list] DEVICE.toml"));
    };
    Ok(Asked::Stimuli {
        device,
        is_list: matches.get_flag("list"),
    })
}

/// What the arguments of a subcommand ask for.
fn asked_in<'a>(
    alloc: Global,
    name: &str,
    matches: &ArgMatches<'a>,
) -> Result<Asked<'a>, OptionFault> {
    match name {
        "health" => health_in(alloc, matches),
        "judge" => judge_in(alloc, matches),
        "stimuli" => stimuli_in(alloc, matches),
        // Clap takes four subcommands, so this one is `lines`.
        _ => lines_in(alloc, matches),
    }
}

/// What arguments ask for.
pub(crate) fn asked_by<'a>(alloc: Global, words: &'a [&'a str]) -> Result<Asked<'a>, OptionFault> {
    let command = tap_command(alloc, &["auto", "one", "both"])?;
    match command.try_get_matches_from(words) {
        Ok(matches) => match matches.subcommand() {
            Some((name, inner)) => asked_in(alloc, name, inner),
            None => Err(usage(alloc, "usage: --help")),
        },
        Err(error) => Err(refused(alloc, &error)),
    }
}
