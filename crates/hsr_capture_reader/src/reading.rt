//! What was read so far.
ghost use Rattle.std.specs.Prelude.{◌≡◌, ◌+◌, ◌<◌, ◌≤◌, length, Ok, IfOk};
ghost use Rattle.hsr_capture_reader.specs.declared.fault.ReadFault.TheVariants.{Refused};
ghost use Rattle.hsr_capture_reader.specs.Pcapng.{pushed};
ghost use Rattle.hsr_capture_reader.specs.Reading.{nothing_read, with_interface};
ghost use Rattle.hsr_capture_reader.specs.Rooms.{Reads, StandAt};

use crate::fault::{CaptureFault, ReadFault, Refusal};
use crate::fields::{Interface, Losses};
use crate::rooms::{Captured, Room, room_of};
use std::alloc::Global;
use std::marker::Model;

/// What was read of a file.
#[derive(Drop)]
pub(crate) struct Reading<'a> {
    /// The whole file.
    pub(crate) file: &'a [u8],
    pub(crate) interfaces: Vec<Interface<'a>>,
    /// How many of the interfaces are of earlier sections.
    pub(crate) earlier: usize,
    pub(crate) losses: Vec<Losses>,
    /// The packets.
    pub(crate) rooms: Vec<Room>,
    /// The latest stamp that was read, as a moment.
    pub(crate) stamp: u64,
    /// The latest end that statistics say, as a moment; 0 where none do.
    pub(crate) end: u64,
    pub(crate) is_short: bool,
}

impl<'a> Model for Reading<'a> {
    ghost use Rattle.std.specs.Prelude.{◌≡◌, ◌≤◌, length};
    ghost use Rattle.hsr_capture_reader.specs.Rooms.{AreApart, Held, end_from, packets_by};

    ghost Value = { Held };

    ghost view = { λ r. record { file = r.file.now; read = record { interfaces = r.interfaces.items; earlier = r.earlier; losses = r.losses.items; packets = packets_by r.file.now 0 r.rooms.items; stamp = r.stamp; end = r.end; is_short = r.is_short }; reached = end_from 0 r.rooms.items } };

    ghost invariant = { λ r. (length r.losses.items ≡ length r.interfaces.items) × (r.earlier ≤ length r.interfaces.items) × (length r.interfaces.items ≤ 64) × (length r.rooms.items ≤ 1048576) × (length r.file.now ≤ 268435456) × AreApart (length r.file.now) 0 r.rooms.items };
}

/// The most packets of a capture.
const MOST_PACKETS: usize = 1 << 20;

/// A refusal.
pub(crate) fn refused(offset: usize, fault: CaptureFault) -> ReadFault
    ensures { result ≡ Refused (record { offset = offset; fault = fault }) }
{
    ReadFault::Refused(Refusal { offset, fault })
}

/// With one more packet, whose block or header stands at an offset, and whose octets at a place of the file.
#[tactic(auto, using(crate::proofs::Places::last_room, crate::proofs::Places::many_rooms, crate::proofs::Places::apart_more, crate::proofs::Places::end_more), unfolding(crate::specs::Pcapng::pushed))]
pub(crate) fn pushed<'a>(
    reading: Reading<'a>,
    offset: usize,
    at: usize,
    captured: &Captured<'a>,
) -> Result<Reading<'a>, ReadFault>
    requires stands { StandAt reading.file at captured.now.octets }
    requires behind { reading.reached ≤ at }
    requires interface { captured.now.interface < 64 }
    ensures value { Reads result (pushed reading.entry.read offset captured.now) }
    ensures file { IfOk result (λ next. next.file ≡ reading.entry.file) }
    ensures reached { IfOk result (λ next. next.reached ≤ at + length captured.now.octets) }
{
    let mut reading = reading;
    if reading.rooms.len() >= MOST_PACKETS {
        return Err(refused(offset, CaptureFault::Packets));
    }
    reading.rooms.push(room_of(at, captured))?;
    Ok(reading)
}

/// With one more interface, where there is room for it.
pub(crate) fn with_interface<'a>(
    reading: Reading<'a>,
    interface: Interface<'a>,
) -> Result<Reading<'a>, ReadFault>
    requires { length reading.read.interfaces < 64 }
    ensures value { Reads result (Ok (with_interface reading.entry.read interface.entry)) }
    ensures file { IfOk result (λ next. next.file ≡ reading.entry.file) }
    ensures reached { IfOk result (λ next. next.reached ≡ reading.entry.reached) }
{
    let mut reading = reading;
    reading.losses.push(Losses::default())?;
    reading.interfaces.push(interface)?;
    Ok(reading)
}

/// Nothing was read yet of a file.
pub(crate) fn nothing_read<'a>(alloc: Global, file: &'a [u8]) -> Reading<'a>
    requires { length file.now ≤ 268435456 }
    ensures value { result.read ≡ nothing_read }
    ensures file { result.file ≡ file.now }
    ensures reached { result.reached ≡ 0 }
{
    Reading {
        file,
        interfaces: Vec::new(alloc),
        earlier: 0,
        losses: Vec::new(alloc),
        rooms: Vec::new(alloc),
        stamp: 0,
        end: 0,
        is_short: false,
    }
}
