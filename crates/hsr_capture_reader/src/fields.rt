//! Interfaces, what was lost at them, and packets.
ghost use Rattle.std.specs.Prelude.{◌≡◌, ◌+◌, ◌/◌, ◌%◌, ◌<◌, ◌↔◌, IsTrue, length};
ghost use Rattle.hsr_capture_reader.specs.Fields.{add_dropped, dropped, set_dropped, way_by};

use crate::clock::Clock;
use std::marker::Model;

/// An interface that packets were captured at.
#[derive(Drop)]
pub struct Interface<'a> {
    /// Its `if_name`, or else its `if_description`: any octets, none where neither is there.
    pub name: &'a [u8],
    /// Its link type: 1 is Ethernet.
    pub link: u16,
    /// The most octets of a packet that were captured, 0 for any number.
    pub snap: u32,
    pub clock: Clock,
    /// How many octets of each packet are its frame check sequence, where its own flags don't say it.
    pub fcs: u8,
}

impl<'a> Model for Interface<'a> {
    ghost use Rattle.hsr_capture_reader.specs.Fields.{InterfaceFields};

    ghost Value = { InterfaceFields };

    ghost view = { λ i. record { name = i.name.now; link = i.link; snap = i.snap; clock = i.clock; fcs = i.fcs } };
}

/// How many packets the capture itself lost at an interface, as far as it says so. No number passes 2^64 - 1.
#[derive(Clone, Copy, Default, PartialEq, Eq)]
pub struct Losses {
    /// The sum of what its packets say (`epb_dropcount`).
    pub by_packets: Option<u64>,
    /// What its last statistics say (`isb_ifdrop` and `isb_osdrop`).
    pub by_statistics: Option<u64>,
}

impl Losses {
    /// The greater of both numbers; none where the file says neither.
    pub fn dropped(&self) -> Option<u64>
        ensures { result ≡ dropped self.now }
    {
        match (self.by_packets, self.by_statistics) {
            (Some(packets), Some(statistics)) => Some(packets.max(statistics)),
            (None, statistics) => statistics,
            (packets, None) => packets,
        }
    }

    /// With what was lost before a packet, where it says so.
    pub(crate) fn with_dropped(self, dropped: Option<u64>) -> Losses
        ensures { result ≡ add_dropped self dropped }
    {
        let Some(dropped) = dropped else {
            return self;
        };
        let before = self.by_packets.unwrap_or(0);
        Losses {
            by_packets: Some(before.saturating_add(dropped)),
            by_statistics: self.by_statistics,
        }
    }

    /// With what statistics say, where they say it.
    pub(crate) fn counted(self, dropped: Option<u64>) -> Losses
        ensures { result ≡ set_dropped self dropped }
    {
        match dropped {
            Some(_) => Losses {
                by_packets: self.by_packets,
                by_statistics: dropped,
            },
            None => self,
        }
    }
}

/// Which way a packet passed its interface, as its flags say.
#[derive(Clone, Copy, PartialEq, Eq)]
pub enum Way {
    In,
    Out,
}

/// A packet that was captured, as 32 octets: a capture has up to a million of them.
#[derive(Drop)]
pub struct Packet<'a> {
    /// Nanoseconds since 1970.
    pub moment: u64,
    /// What was captured of it, without its frame check sequence.
    pub octets: &'a [u8],
    length: u32,
    /// Its number less 1 in 20 bits, above them the number of its interface in 8 bits, and above these its direction.
    named: u32,
}

impl<'a> Model for Packet<'a> {
    ghost use Rattle.std.specs.Prelude.{◌+◌, ◌/◌, ◌%◌};
    ghost use Rattle.hsr_capture_reader.specs.Fields.{PacketFields, way_by};

    ghost Value = { PacketFields };

    ghost view = { λ p. record {
      moment = p.moment;
      octets = p.octets.now;
      length = p.length;
      number = p.named % 1048576 + 1;
      interface = p.named / 1048576 % 256;
      way = way_by (p.named / 268435456);
    } };
}

/// The number of a direction among four.
fn way_code(way: Option<Way>) -> u32
    ensures few { result < 4 }
    ensures code { way_by result ≡ way }
{
    match way {
        None => 0,
        Some(Way::In) => 1,
        Some(Way::Out) => 2,
    }
}

/// The direction with a number.
fn way_by(code: u32) -> Option<Way>
    ensures { result ≡ way_by code }
{
    match code {
        0 => None,
        1 => Some(Way::In),
        _ => Some(Way::Out),
    }
}

/// The number of a packet behind so many others less 1, its interface and its direction in one number.
fn named_by(before: u32, interface: u8, way: Option<Way>) -> u32
    requires { before < 1048576 }
    ensures before { result % 1048576 ≡ before }
    ensures interface { result / 1048576 % 256 ≡ interface }
    ensures way { way_by (result / 268435456) ≡ way }
{
    (way_code(way) * 256 + u32::from(interface)) * 1_048_576 + before
}

impl<'a> Packet<'a> {
    /// A packet behind so many others of its file, of which these octets were captured.
    pub(crate) fn new(
        moment: u64,
        octets: &'a [u8],
        length: u32,
        before: u32,
        interface: u8,
        way: Option<Way>,
    ) -> Packet<'a>
        requires { before < 1048576 }
        ensures { result ≡ record { moment = moment; octets = octets.now; length = length; number = before + 1; interface = interface; way = way } }
    {
        Packet {
            moment,
            octets,
            length,
            named: named_by(before, interface, way),
        }
    }

    /// How many octets it had on the wire, without its frame check sequence.
    pub fn length(&self) -> usize
        ensures { result ≡ self.now.length }
    {
        self.length as usize
    }

    /// Which of the file's packets it is, from 1.
    pub fn number(&self) -> u32
        ensures { result ≡ self.now.number }
    {
        self.named % 1_048_576 + 1
    }

    /// The number of its interface in the file, from 0.
    pub fn interface(&self) -> usize
        ensures { result ≡ self.now.interface }
    {
        (self.named / 1_048_576 % 256) as usize
    }

    /// Its direction, where its flags say one.
    pub fn way(&self) -> Option<Way>
        ensures { result ≡ self.now.way }
    {
        way_by(self.named / 268_435_456)
    }

    /// Whether octets at its end weren't captured.
    pub fn is_cut(&self) -> bool
        ensures { IsTrue result ↔ (length self.now.octets < self.now.length) }
    {
        self.octets.len() < self.length()
    }
}
