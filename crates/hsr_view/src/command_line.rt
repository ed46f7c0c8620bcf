//! Reads the arguments of hsr_view, by clap.
use crate::asked::Asked;
use crate::views::What;
use clap::error::ErrorKind;
use clap::{Arg, ArgAction, ArgMatches, Command, Error};
use hsr_cli::{OptionFault, usage};
use hsr_diagram::Span;
use hsr_frame::NoMemory;
use hsr_text::decimal;
use hsr_version::VERSION;
use std::alloc::Global;

const CAPTURE_ENDS: &str = "\
The transcript is one that `hsr_bench run --transcript` or `threads --transcript` wrote, with any size of
tables. The capture is pcapng: one interface for each direction of each link (n0.B>n1.A: from port B of node 0 to
port A of node 1), and one packet for each copy that was put there, with its octets and a comment: what became of
it, and of which send it is. Packets stand in the order of time, and their time stamps count microseconds from
the run's moment 0.

With --link and --send only some packets are there: those of that link, counted from 0 as in the transcript; those
that are copies of the send that is entry PLACE, counted from 0, of a node's record (of the supervision frame, if it
is one), as in the comments. NODE is the node's name.

Status 1: nothing is written, and one line on standard error says why: as with `hsr_bench audit`; `fault: names` (the
scenario can't be read, or has other nodes or links than the run), `fault: link`, `fault: send` (there is no such link
or send), `fault: nothing to show: ..` (--link and --send leave no copy), or `fault: order` (the text is of no run that
can have taken place: its entries follow one another in a circle). A line `explain: ..` may follow, which says what
was given in place of a transcript.

docs/REFERENCE.md says what a comment names, and has each fault.

Examples: hsr_bench run --transcript < scenario.toml | hsr_view capture --names scenario.toml > run.pcapng
          hsr_view capture --link 2 --send n0:3 < run.transcript > run.pcapng";

const PICTURE_ENDS: &str = "\
The picture is SVG. Each ring, each row of nodes and each interlink is a panel of node lines; a ring ends with its
first node again, and a QuadBox stands in the panels of both its rings. Downwards go the moments, and within one the
steps that must follow each other. An arrow is a copy, from the entry that passed it to the entry that judged it: its
dashes and its colour say what became of it. A dot at its point: it was taken up. A cross: it was lost on its way.
The text of each arrow shows where a pointer rests on it. Beside stand the sends, below those that aren't complete.

With --send only the copies of that send are there; it may be given several times. With --from and --until only those
of some moments, in microseconds, both included. A picture shows 400 copies at most.

Status 1: nothing is written, and one line on standard error says why: as with `hsr_bench audit`; `fault: names` (the
scenario can't be read, or has other nodes or links than the run), `fault: send` (there is no such send),
`fault: moments` (--until is before --from), `fault: copies N, ..` (there are over 400), `fault: nothing to show: ..`
(there are none), or `fault: order` (the text is of no run that can have taken place: its entries follow one another in
a circle). A line `explain: ..` may follow, which says what was given in place of a transcript.

docs/GUIDE.md shows how a picture is read; docs/REFERENCE.md has the look of each arrow, and each fault.

Examples: hsr_bench run --transcript < scenario.toml | hsr_view picture --names scenario.toml > run.svg
          hsr_view picture --send n0:3 --send n1:0 --from 5000 --until 9000 < run.transcript > run.svg";

const PAGE_ENDS: &str = "\
The page is one file of HTML that stands alone: it loads nothing, and any browser opens it from a disk. It shows the
network as it is wired, a slider and keys that move through the run, copies as they travel, what each node's tables hold
then, the list of sends with a filter, and the report of hsr_bench audit --network --deliveries --needed --budget, each
line with what it means. With --names the names of nodes stand there, and when links are down and all is drained: that is
told by the scenario. No octets of payloads are in it.

With --send only the copies of that send are there; it may be given several times. With --from and --until only those
of some moments, in microseconds, both included. A page shows 6000 copies at most.

Status 1: nothing is written, and one line on standard error says why: as with `hsr_view picture`, but that `fault: copies
N, ..` is told of over 6000.

docs/GUIDE.md shows how a page is read; docs/REFERENCE.md has its parts and keys, and each fault.

Examples: hsr_bench run --transcript < scenario.toml | hsr_view page --names scenario.toml > run.html
          hsr_view page --title \"Ring 2, link 3 cut\" --send n0:3 < run.transcript > run.html";

const DEVICES_ENDS: &str = "\
Of each node: what it is; where each port leads; how many copies came in there and what became of them, how many
went out, their octets, and how many were lost on their way, with the node's own counters in the last column; how
many entries of its duplicate tables it needed, of how many it had; how many supervision frames it couldn't read;
the nodes and stations that it knew at its last entry, with the moments when it heard them last, in microseconds;
and the other DANHs and RedBoxes of which supervision never told it.

Status 1: nothing is written, and one line on standard error says why: as with `hsr_bench audit`, or `fault: names`
(the scenario can't be read, or has other nodes or links than the run). A line `explain: ..` may follow, which says
what was given in place of a transcript.

docs/REFERENCE.md explains each line, and has each fault.

Example: hsr_bench run --transcript < scenario.toml | hsr_view devices --names scenario.toml";

const NO_LINK: &str = "usage: --link N: the number of a link, counted from 0 as in the transcript";

const NO_SEND: &str = "\
usage: --send NODE:PLACE: the name of a node (n0, n1, .. without --names), and the place of the send in its record,
counted from 0, as n0:3";

const NO_FROM: &str = "usage: --from MOMENT: microseconds, from 0 to 18446744073709551615, as 5000";

const NO_UNTIL: &str =
    "usage: --until MOMENT: microseconds, from 0 to 18446744073709551615, as 5000";

const FILE_AS_WORD: &str = "\
A transcript isn't named but comes on standard input: use < FILE, as in hsr_view picture < run.transcript";

/// Whether a word looks like the name of a file: it is no option, and has a dot or a slash.
fn is_file(word: &str) -> bool {
    !word.starts_with('-') && (word.contains('.') || word.contains('/'))
}

/// Whether a word besides the value of `--names` looks like the name of a file.
fn has_file(words: &[&str]) -> bool {
    let mut is_value = false;
    for word in words {
        if !is_value && is_file(word) {
            return true;
        }
        // What follows `--names` is a file by right.
        is_value = *word == "--names";
    }
    false
}

/// Whether a word was refused because nothing takes it.
fn is_unknown(error: &Error) -> bool {
    matches!(
        error.kind(),
        ErrorKind::UnknownArgument | ErrorKind::InvalidSubcommand
    )
}

/// The text of a refusal, without the end of its last line: whoever prints it ends the line. Where a word that nothing
/// takes looks like the name of a file, it says how a file is read.
fn refused(alloc: Global, error: &Error, words: &[&str]) -> OptionFault {
    if error.kind() == ErrorKind::OutOfMemory {
        return OptionFault::Memory;
    }
    let Ok(text) = format!(in alloc; "{error}") else {
        return OptionFault::Memory;
    };
    let text = text.trim_end();
    if !is_unknown(error) || !has_file(words) {
        return usage(alloc, text);
    }
    match format!(in alloc; "{text}\n\n{FILE_AS_WORD}") {
        Ok(text) => OptionFault::Usage { text },
        Err(_) => OptionFault::Memory,
    }
}

fn value_arg<'a>(alloc: Global, name: &'a str, value: &'a str, help: &'a str) -> Arg<'a> {
    Arg::new(alloc, name)
        .long(name)
        .value_name(value)
        .help(help)
}

fn names_arg<'a>(alloc: Global) -> Arg<'a> {
    let help = "The scenario of the run: its nodes' names stand in place of n0, n1, ..";
    value_arg(alloc, "names", "FILE", help)
}

fn capture_command<'a>(alloc: Global) -> Result<Command<'a>, NoMemory> {
    let command = Command::new(alloc, "capture")
        .about("Writes the transcript on standard input as a capture in the format pcapng")
        .after_help(CAPTURE_ENDS)
        .arg(names_arg(alloc))?
        .arg(value_arg(alloc, "link", "N", "Only the packets of this link"))?
        .arg(value_arg(alloc, "send", "NODE:PLACE", "Only the copies of this send"))?;
    Ok(command)
}

fn picture_command<'a>(alloc: Global) -> Result<Command<'a>, NoMemory> {
    let send = value_arg(
        alloc,
        "send",
        "NODE:PLACE",
        "Only the copies of this send, or of these",
    );
    let command = Command::new(alloc, "picture")
        .about("Draws the transcript on standard input as SVG")
        .after_help(PICTURE_ENDS)
        .arg(names_arg(alloc))?
        .arg(send.action(ArgAction::Append))?
        .arg(value_arg(
            alloc,
            "from",
            "MOMENT",
            "Only the copies from this moment on",
        ))?
        .arg(value_arg(
            alloc,
            "until",
            "MOMENT",
            "Only the copies until this moment",
        ))?;
    Ok(command)
}

fn page_command<'a>(alloc: Global) -> Result<Command<'a>, NoMemory> {
    let send = value_arg(
        alloc,
        "send",
        "NODE:PLACE",
        "Only the copies of this send, or of these",
    );
    let title = "What stands at its head (HSR run if it isn't there)";
    let command = Command::new(alloc, "page")
        .about("Writes the transcript on standard input as a page of HTML that stands alone")
        .after_help(PAGE_ENDS)
        .arg(names_arg(alloc))?
        .arg(value_arg(alloc, "title", "TEXT", title))?
        .arg(send.action(ArgAction::Append))?
        .arg(value_arg(
            alloc,
            "from",
            "MOMENT",
            "Only the copies from this moment on",
        ))?
        .arg(value_arg(
            alloc,
            "until",
            "MOMENT",
            "Only the copies until this moment",
        ))?;
    Ok(command)
}

fn devices_command<'a>(alloc: Global) -> Result<Command<'a>, NoMemory> {
    let command = Command::new(alloc, "devices")
        .about("Lists the devices of the transcript on standard input, with their counters")
        .after_help(DEVICES_ENDS)
        .arg(names_arg(alloc))?;
    Ok(command)
}

fn view_command<'a>(alloc: Global) -> Result<Command<'a>, NoMemory> {
    let command = Command::new(alloc, "hsr_view")
        .about("Shows finished runs of hsr_bench")
        .version(VERSION)
        .no_binary_name(true)
        .subcommand_required(true)
        .subcommand(capture_command(alloc)?)?
        .subcommand(picture_command(alloc)?)?
        .subcommand(page_command(alloc)?)?
        .subcommand(devices_command(alloc)?)?;
    Ok(command)
}

/// The link of `--link`, if it is there.
fn link_of(alloc: Global, matches: &ArgMatches<'_>) -> Result<Option<usize>, OptionFault> {
    match matches.get_str("link") {
        Some(word) => match decimal(word.as_bytes()) {
            Some(link) => Ok(Some(link as usize)),
            None => Err(usage(alloc, NO_LINK)),
        },
        None => Ok(None),
    }
}

/// A node's name and a place.
fn send_in(word: &str) -> Option<(&str, usize)> {
    let (node, place) = word.split_once(':')?;
    let place = decimal(place.as_bytes())?;
    Some((node, place as usize))
}

/// The send of `--send`, if it is there.
fn send_of<'a>(
    alloc: Global,
    matches: &ArgMatches<'a>,
) -> Result<Option<(&'a str, usize)>, OptionFault> {
    match matches.get_str("send") {
        Some(word) => match send_in(word) {
            Some(send) => Ok(Some(send)),
            None => Err(usage(alloc, NO_SEND)),
        },
        None => Ok(None),
    }
}

/// The sends of all `--send`, in their order.
fn sends_of<'a>(
    alloc: Global,
    matches: &ArgMatches<'a>,
) -> Result<Vec<(&'a str, usize)>, OptionFault> {
    let mut sends = Vec::new(alloc);
    let Some(words) = matches.get_strs("send") else {
        return Ok(sends);
    };
    for word in words {
        match send_in(word) {
            Some(send) => {
                if sends.push(send).is_err() {
                    return Err(OptionFault::Memory);
                }
            }
            None => return Err(usage(alloc, NO_SEND)),
        }
    }
    Ok(sends)
}

/// The moment of an argument, if it is there.
fn moment_of(
    alloc: Global,
    matches: &ArgMatches<'_>,
    name: &str,
    text: &str,
) -> Result<Option<u64>, OptionFault> {
    match matches.get_str(name) {
        Some(word) => match decimal(word.as_bytes()) {
            Some(moment) => Ok(Some(moment)),
            None => Err(usage(alloc, text)),
        },
        None => Ok(None),
    }
}

/// The picture that arguments ask for.
fn picture_in<'a>(alloc: Global, matches: &ArgMatches<'a>) -> Result<What<'a>, OptionFault> {
    let sends = sends_of(alloc, matches)?;
    let from = moment_of(alloc, matches, "from", NO_FROM)?;
    let until = moment_of(alloc, matches, "until", NO_UNTIL)?;
    Ok(What::Picture {
        sends,
        span: Span { from, until },
    })
}

/// The page that arguments ask for.
fn page_in<'a>(alloc: Global, matches: &ArgMatches<'a>) -> Result<What<'a>, OptionFault> {
    let sends = sends_of(alloc, matches)?;
    let from = moment_of(alloc, matches, "from", NO_FROM)?;
    let until = moment_of(alloc, matches, "until", NO_UNTIL)?;
    Ok(What::Page {
        sends,
        span: Span { from, until },
        title: matches.get_str("title").unwrap_or("HSR run"),
    })
}

/// What the arguments of a subcommand ask for.
fn asked_in<'a>(
    alloc: Global,
    name: &str,
    matches: &ArgMatches<'a>,
) -> Result<Asked<'a>, OptionFault> {
    let what = if name == "devices" {
        What::Devices
    } else if name == "picture" {
        picture_in(alloc, matches)?
    } else if name == "page" {
        page_in(alloc, matches)?
    } else {
        // Clap takes four subcommands, so this one is `capture`.
        let link = link_of(alloc, matches)?;
        let send = send_of(alloc, matches)?;
        What::Capture { link, send }
    };
    Ok(Asked {
        what,
        names: matches.get_str("names"),
    })
}

/// What arguments ask for.
pub(crate) fn asked<'a>(alloc: Global, words: &'a [&'a str]) -> Result<Asked<'a>, OptionFault> {
    let command = view_command(alloc)?;
    match command.try_get_matches_from(words) {
        Ok(matches) => match matches.subcommand() {
            Some((name, inner)) => asked_in(alloc, name, inner),
            None => Err(usage(alloc, "usage: --help")),
        },
        Err(error) => Err(refused(alloc, &error, words)),
    }
}
