//! A packet while its file is read.
ghost use Rattle.std.specs.Prelude.{◌≡◌, ◌<◌, ◌≤◌, ◌^◌, ℕ, List, length, reverse, IfOk};
ghost use Rattle.hsr_capture_reader.specs.Fields.{PacketFields};
ghost use Rattle.hsr_capture_reader.specs.Pcapng.{packet_of};
ghost use Rattle.hsr_capture_reader.specs.Rooms.{StandAt, packet_by, packets_by};

use crate::fields::{Packet, Way};
use crate::options::{behind, front};
use hsr_frame::NoMemory;
use std::alloc::Global;
use std::marker::Model;

/// A packet as it was captured: on the wire it had `wire` octets, of which `fcs` are its frame check sequence.
#[derive(Drop)]
pub(crate) struct Captured<'a> {
    pub(crate) interface: usize,
    pub(crate) moment: u64,
    pub(crate) way: Option<Way>,
    pub(crate) fcs: u8,
    pub(crate) octets: &'a [u8],
    pub(crate) wire: u32,
}

impl<'a> Model for Captured<'a> {
    ghost use Rattle.hsr_capture_reader.specs.Pcapng.{CapturedFields};

    ghost Value = { CapturedFields };

    ghost view = { λ c. record { interface = c.interface; moment = c.moment; way = c.way; fcs = c.fcs; octets = c.octets.now; wire = c.wire } };
}

/// A packet, as 24 octets: a capture of a million of them is held beside its file. Its number is its place among others.
#[derive(Clone, Copy)]
pub(crate) struct Room {
    /// Nanoseconds since 1970.
    pub(crate) moment: u64,
    /// Where in the file its octets begin.
    pub(crate) at: u32,
    /// How many octets of it were captured, without its frame check sequence.
    pub(crate) kept: u32,
    /// How many octets it had on the wire, without its frame check sequence.
    pub(crate) length: u32,
    /// The number of its interface in the file, from 0.
    pub(crate) interface: u8,
    /// Its direction, where its flags say one.
    pub(crate) way: Option<Way>,
}

/// The room of a packet whose octets stand at a place of its file.
#[tactic(auto, using(crate::proofs::Places::cut_stands))]
pub(crate) fn room_of(at: usize, captured: &Captured<'_>) -> Room
    requires place { at < 2 ^ 32 }
    requires octets { length captured.now.octets < 2 ^ 32 }
    requires interface { captured.now.interface < 64 }
    ensures place { result.at ≡ at }
    ensures kept { result.kept ≤ length captured.now.octets }
    ensures packet { (file : List ℕ) (packets : List PacketFields) → StandAt file at captured.now.octets → packet_by file (length packets) result ≡ packet_of packets captured.now }
{
    let captured_len = captured.octets.len() as u32;
    let length = captured
        .wire
        .max(captured_len)
        .saturating_sub(u32::from(captured.fcs));
    Room {
        moment: captured.moment,
        at: at as u32,
        kept: length.min(captured_len),
        length,
        interface: captured.interface as u8,
        way: captured.way,
    }
}

/// The packet of a room, behind so many others.
fn packet_by<'a>(file: &'a [u8], before: usize, room: Room) -> Packet<'a>
    requires { before < 1048576 }
    ensures { result ≡ packet_by file.now before room }
{
    Packet::new(
        room.moment,
        front(behind(file, room.at as usize), room.kept as usize),
        room.length,
        before as u32,
        room.interface,
        room.way,
    )
}

/// How many entries go before their memory is given back.
const AT_ONCE: usize = 65_536;

/// Gives back the memory of entries that went from the end of a list, now and then: each time costs a call of the system. The list stays as
/// it is.
pub fn give_back<T>(left: &mut Vec<T>)
    ensures { left.new.items ≡ left.old.items }
{
    if left.len() % AT_ONCE == 0 {
        left.shrink_to_fit();
    }
}

/// The packets that rooms tell of a file, the last first, so that the rooms go as the packets come. The packets' memory is taken at once,
/// as it is used page by page.
#[tactic(auto, using(crate::proofs::Places::one_back))]
fn packets_back<'a>(
    alloc: Global,
    file: &'a [u8],
    rooms: Vec<Room>,
) -> Result<Vec<Packet<'a>>, NoMemory>
    requires { length rooms.items ≤ 1048576 }
    ensures { IfOk result (λ packets. reverse packets.items ≡ packets_by file.now 0 rooms.items) }
{
    let mut left = rooms;
    let mut packets = Vec::with_capacity(alloc, left.len())?;
    while let Some(room) = left.pop() {
        packets.push(packet_by(file, left.len(), room))?;
        give_back(&mut left);
    }
    Ok(packets)
}

/// The packets that rooms tell of a file.
pub(crate) fn packets_by<'a>(
    alloc: Global,
    file: &'a [u8],
    rooms: Vec<Room>,
) -> Result<Vec<Packet<'a>>, NoMemory>
    requires { length rooms.items ≤ 1048576 }
    ensures { IfOk result (λ packets. packets.items ≡ packets_by file.now 0 rooms.items) }
{
    let mut packets = packets_back(alloc, file, rooms)?;
    packets.reverse();
    Ok(packets)
}
