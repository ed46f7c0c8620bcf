//! The commands of hsr_tap and their helps, for clap.
use clap::{Arg, ArgAction, Command};
use hsr_frame::NoMemory;
use hsr_version::VERSION;
use std::alloc::Global;

const HEALTH_ENDS: &str = "\
The capture is pcap or pcapng, as tcpdump, dumpcap and Wireshark write it. Tap both directions of a cable, or two
ports of a node, for 3 s at least: of one direction alone half of what is told is missing.

The last line is the verdict: `healthy`, with how many frames there were, how many group frames came twice, of how
many that were judged, and for how many microseconds; or `doubt`, with the first reason, the packet (as Wireshark
counts them) and its moment, in microseconds since the first packet. A line `broken` says when group frames came one
way alone, and whose: the ring was open then between the two groups, on the side where the tap isn't.

--full tells all numbers: of interfaces, points, directions, sources, nodes, VLANs and tables.
--expect says which sources must be there: addresses, parted by commas, or the file of a plan for hsr_plan (a word
with a dot or a slash).

Status 0: healthy; 2: a doubt; 1: nothing is written, and one line on standard error says why (`fault: ..`); 3: the
arguments ask for nothing.

docs/TAP.md has each line, each reason with what to look for, what captures may have, and each fault.

Example: hsr_tap health < ring.pcapng
         hsr_tap health --full --point n2=0,1 --expect 02-00-00-00-00-01,02-00-00-00-00-02 < ports.pcapng";

const JUDGE_ENDS: &str = "\
What came to the device in the capture, and what its host sent, is played to the reference node, and what this lets
out is compared with what left the device: by octets, in its order, and in time. DEVICE.toml says what the device is,
and what each interface of the capture is to it, by its name or its number:

    role = \"danh\"
    mac = \"02-00-00-00-00-02\"
    within_us = 1000
    interface = {\"eth1\" = \"A\", \"eth2\" = \"B\", \"hsr0\" = \"up\"}

A line stands for each copy that is missing, extra, late or altered, and `sum` for those of one kind. The last line is
the verdict: `conforms`, with how many copies were the same, were let pass or are open, and which ends aren't tapped;
or `deviates`, with the first copy of the gravest kind, its moment in microseconds since the first packet, and the
packet, as Wireshark counts them.

--full tells what each interface is, each end's numbers that are 0, and what the reference node counted.

Status 0: conforms; 2: deviates; 1: nothing is written, and one line on standard error says why (`fault: ..`); 3: the
arguments ask for nothing.

docs/TAP.md has each key of DEVICE.toml, each line, what captures may have, and each fault.

Example: hsr_tap judge device.toml < node.pcapng";

const LINES_ENDS: &str = "\
The capture is pcap or pcapng, as tcpdump, dumpcap and Wireshark write it. A line stands for each packet that came to
the device, that its host sent, or that it sent itself; moments are microseconds since the first packet.

Without DEVICE.toml interface 0 of the capture is where packets come in at port A, and interface 1 where they come in
at port B. With it, `interface` says what each interface is, by its name or its number:

    role = \"danh\"
    mac = \"02-00-00-00-00-02\"
    interface = {\"eth1\" = \"A\", \"eth2\" = \"B\", \"hsr0\" = \"up\"}

A packet at one of these that gives no line, or one of over 4096 octets, is left out: `skipped N` on standard error
says how many.

Status 0: lines were written; 1: nothing is written, and one line on standard error says why (`fault: ..`); 3: the
arguments ask for nothing.

docs/TAP.md has each key of DEVICE.toml, what captures may have, and each fault.

Example: hsr_tap lines device.toml < node.pcapng | hsr_bench node --unit us --mac 02-00-00-00-00-02";

const STIMULI_ENDS: &str = "\
The capture (pcapng) has an interface for each port of the device, named A, B, I, C and D, and a packet for each frame
that is to come to that port, with its rule as comment. Moments are microseconds. The list has a line for each packet:
its number, moment and port, the rule, and what the reference node answers; then what isn't tried, and how often each
case was reached. It stands on standard error, or with --list on standard output, and no capture then.

    role = \"danh\"
    mac = \"02-00-00-00-00-02\"
    mode = \"U\"
    table = 512

Of DEVICE.toml `role`, `mac`, `mode`, `table` (4, 8, 16, .. 32768 or 65535 entries) and `start` count.

Status 0: all was written; 1: nothing is written, and one line on standard error says why (`fault: ..`); 3: the
arguments ask for nothing.

docs/TAP.md has each rule; docs/GUIDE.md says how tcpreplay plays the capture to a device, and how what comes back is
judged.

Example: hsr_tap stimuli device.toml > stimuli.pcapng";

/// An argument with a value.
fn value_arg<'a>(alloc: Global, name: &'a str, value: &'a str, help: &'a str) -> Arg<'a> {
    Arg::new(alloc, name)
        .long(name)
        .value_name(value)
        .help(help)
}

/// An argument that is there or not.
fn flag_arg<'a>(alloc: Global, name: &'a str, help: &'a str) -> Arg<'a> {
    Arg::new(alloc, name)
        .long(name)
        .help(help)
        .action(ArgAction::SetTrue)
}

fn fcs_arg<'a>(alloc: Global) -> Arg<'a> {
    let help = "Octets of a frame check sequence, where the capture says nothing of it (0)";
    value_arg(alloc, "fcs", "N", help)
}

fn device_arg<'a>(alloc: Global, help: &'a str) -> Arg<'a> {
    Arg::new(alloc, "device")
        .value_name("DEVICE.toml")
        .help(help)
}

fn health_command<'a>(alloc: Global, taps: &'a [&'a str]) -> Result<Command<'a>, NoMemory> {
    let expect = "Sources that must be there: addresses, or the file of a plan";
    let table = "Entries of the devices' duplicate tables (512)";
    let whole = "Nothing at the edges of the capture is open: no frame's copy is outside";
    let tap = value_arg(
        alloc,
        "taps",
        "WORD",
        "Each interface has one direction (one), both (both), or as its packets tell (auto)",
    );
    let point = value_arg(alloc, "point", "NAME=I,J", "These interfaces are one point");
    let interface = value_arg(alloc, "interface", "I", "Only this interface, or these");
    let command = Command::new(alloc, "health")
        .about("Says whether the ring of the capture on standard input is healthy")
        .after_help(HEALTH_ENDS)
        .arg(flag_arg(alloc, "full", "Tells all numbers"))?
        .arg(value_arg(alloc, "expect", "ADDRESS,..|FILE", expect))?
        .arg(value_arg(alloc, "table", "N", table))?
        .arg(flag_arg(alloc, "whole", whole))?
        .arg(tap.value_parser(taps))?
        .arg(point.action(ArgAction::Append))?
        .arg(interface.action(ArgAction::Append))?
        .arg(fcs_arg(alloc))?;
    Ok(command)
}

fn judge_command<'a>(alloc: Global) -> Result<Command<'a>, NoMemory> {
    let device = device_arg(
        alloc,
        "What the device is, and what each interface is to it",
    );
    let list = "How many deviations are told, one by one (100)";
    let octets = "Tells all octets of a frame, and not the first 32 alone";
    let command = Command::new(alloc, "judge")
        .about(
            "Says whether a device of the capture on standard input does what the reference node does",
        )
        .after_help(JUDGE_ENDS)
        .arg(device.required(true))?
        .arg(flag_arg(alloc, "full", "Tells all numbers"))?
        .arg(value_arg(alloc, "list", "N", list))?
        .arg(flag_arg(alloc, "octets", octets))?
        .arg(fcs_arg(alloc))?;
    Ok(command)
}

fn lines_command<'a>(alloc: Global) -> Result<Command<'a>, NoMemory> {
    let device = device_arg(
        alloc,
        "What the device is, and what each interface is to it",
    );
    let command = Command::new(alloc, "lines")
        .about("Writes the capture on standard input as input of hsr_bench node --unit us")
        .after_help(LINES_ENDS)
        .arg(device)?
        .arg(fcs_arg(alloc))?;
    Ok(command)
}

fn stimuli_command<'a>(alloc: Global) -> Result<Command<'a>, NoMemory> {
    let device = device_arg(alloc, "What the device is");
    let list = "Writes the list alone, to standard output";
    let command = Command::new(alloc, "stimuli")
        .about("Writes frames for a device that try each rule, as a capture, and a list of them")
        .after_help(STIMULI_ENDS)
        .arg(device.required(true))?
        .arg(flag_arg(alloc, "list", list))?;
    Ok(command)
}

/// The whole command line; `--taps` takes these words.
pub(crate) fn tap_command<'a>(alloc: Global, taps: &'a [&'a str]) -> Result<Command<'a>, NoMemory> {
    let command = Command::new(alloc, "hsr_tap")
        .about("Looks at real traffic of an HSR ring")
        .version(VERSION)
        .no_binary_name(true)
        .subcommand_required(true)
        .subcommand(health_command(alloc, taps)?)?
        .subcommand(judge_command(alloc)?)?
        .subcommand(lines_command(alloc)?)?
        .subcommand(stimuli_command(alloc)?)?;
    Ok(command)
}
