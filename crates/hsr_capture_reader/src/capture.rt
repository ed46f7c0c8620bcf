//! A whole capture.
ghost use Rattle.std.specs.Prelude.{◌≡◌, ◌≤◌, length, Ok, IfOk};
ghost use Rattle.hsr_capture_reader.specs.Capture.{capture_in, capture_of, is_gzip, reading_of};
ghost use Rattle.hsr_capture_reader.specs.Reading.{Gives};
ghost use Rattle.hsr_capture_reader.specs.Rooms.{AreApart, Reads};
ghost use Rattle.hsr_capture_reader.specs.Told.{Tells, capture_by};

use crate::blocks::is_section;
use crate::fault::{CaptureFault, ReadFault};
use crate::fields::{Interface, Losses, Packet};
use crate::names::{Names, interfaces_by, names_of};
use crate::packing::pack;
use crate::pcap::{format_of, pcap_of};
use crate::reading::{Reading, refused};
use crate::rooms::packets_by;
use crate::told::Told;
use crate::walk::pcapng_of;
use hsr_frame::NoMemory;
use std::alloc::Global;
use std::marker::Model;

/// What a file tells of the traffic that was captured. Names stand apart from packets, so that who has no more need of packets may let
/// their octets go.
#[derive(Drop)]
pub struct Capture<'n, 'a> {
    /// The interfaces by number.
    pub interfaces: Vec<Interface<'n>>,
    /// What was lost at each interface.
    pub losses: Vec<Losses>,
    /// The packets, as the file has them.
    pub packets: Vec<Packet<'a>>,
    /// The latest end that statistics say (`isb_endtime`), as a moment; 0 where none do.
    pub end: u64,
    /// Whether the file breaks off before the end of a packet or a block.
    pub is_short: bool,
}

impl<'n, 'a> Model for Capture<'n, 'a> {
    ghost use Rattle.hsr_capture_reader.specs.Capture.{CaptureFields};

    ghost Value = { CaptureFields };

    ghost view = { λ c. record { interfaces = c.interfaces.items; losses = c.losses.items; packets = c.packets.items; end = c.end; is_short = c.is_short } };
}

/// The most octets of a file.
const MOST_OCTETS: usize = 1 << 28;

/// Whether a file is packed.
fn is_gzip(octets: &[u8]) -> bool
    ensures { result ≡ is_gzip octets.now }
{
    matches!(octets, [0x1F, 0x8B, ..])
}

/// What is read of a file.
fn reading_of<'a>(alloc: Global, fcs: u8, octets: &'a [u8]) -> Result<Reading<'a>, ReadFault>
    ensures value { Reads result (reading_of fcs octets.now) }
    ensures file { IfOk result (λ reading. reading.file ≡ octets.now) }
{
    if octets.len() > MOST_OCTETS {
        return Err(refused(0, CaptureFault::TooLarge));
    }
    if is_gzip(octets) {
        return Err(refused(0, CaptureFault::Gzip));
    }
    if is_section(octets) {
        return pcapng_of(alloc, fcs, octets);
    }
    match format_of(octets) {
        Some(format) => pcap_of(alloc, fcs, format, octets),
        None => Err(refused(0, CaptureFault::Magic)),
    }
}

/// What was read of a file, without references into it.
fn told_in(alloc: Global, reading: Reading<'_>) -> Result<Told, NoMemory>
    ensures value { IfOk result (λ told. capture_in reading.entry.read ≡ Ok (capture_by reading.entry.file told)) }
    ensures many { IfOk result (λ told. length told.rooms.items ≤ 1048576) }
    ensures apart { IfOk result (λ told. AreApart (length reading.entry.file) 0 told.rooms.items) }
{
    let Reading {
        file: _,
        interfaces,
        earlier: _,
        losses,
        rooms,
        stamp: _,
        end,
        is_short,
    } = reading;
    Ok(Told {
        names: names_of(alloc, interfaces.as_slice())?,
        losses,
        rooms,
        end,
        is_short,
    })
}

/// What a file tells, without references into it.
#[tactic(auto, unfolding(crate::specs::Capture::capture_of))]
fn told_of(alloc: Global, fcs: u8, octets: &[u8]) -> Result<Told, ReadFault>
    ensures value { Tells octets.now result (capture_of fcs octets.now) }
    ensures many { IfOk result (λ told. length told.rooms.items ≤ 1048576) }
    ensures apart { IfOk result (λ told. AreApart (length octets.now) 0 told.rooms.items) }
{
    let reading = reading_of(alloc, fcs, octets)?;
    Ok(told_in(alloc, reading)?)
}

/// The capture that was told, in the octets of its file: what isn't the octets of a packet goes. The names stand elsewhere.
fn capture_by<'n, 'a>(
    alloc: Global,
    octets: &'a mut Vec<u8>,
    names: &'n mut Vec<u8>,
    told: Told,
) -> Result<Capture<'n, 'a>, NoMemory>
    requires many { length told.rooms.items ≤ 1048576 }
    requires apart { AreApart (length octets.old.items) 0 told.rooms.items }
    ensures { IfOk result (λ capture. capture ≡ capture_by octets.old.items told) }
{
    let Told {
        names: Names {
            names: text,
            interfaces,
        },
        losses,
        mut rooms,
        end,
        is_short,
    } = told;
    pack(octets, &mut rooms);
    octets.shrink_to_fit();
    *names = text;
    Ok(Capture {
        interfaces: interfaces_by(alloc, interfaces.as_slice(), names.as_slice())?,
        losses,
        packets: packets_by(alloc, octets.as_slice(), rooms)?,
        end,
        is_short,
    })
}

impl<'n, 'a> Capture<'n, 'a> {
    /// What a file tells, in either format; where it doesn't say how many octets of each packet are a frame check sequence, so
    /// many are. `Refused` where something is wrong with it, with the first such offset; `NoMemory` where room is refused. The
    /// packets stay in the memory of the file, and what else it has goes. The names of interfaces are put in `names`; what it held goes.
    pub fn read(
        alloc: Global,
        fcs: u8,
        octets: &'a mut Vec<u8>,
        names: &'n mut Vec<u8>,
    ) -> Result<Capture<'n, 'a>, ReadFault>
        ensures { Gives result (capture_of fcs octets.old.items) }
    {
        let told = told_of(alloc, fcs, octets.as_slice())?;
        Ok(capture_by(alloc, octets, names, told)?)
    }
}
