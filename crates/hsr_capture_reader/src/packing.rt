//! The octets of the packets, moved to the front of their file.
ghost use Rattle.std.specs.Prelude.{◌≡◌, ◌+◌, ◌<◌, drop, length};
ghost use Rattle.hsr_capture_reader.specs.Packing.{IsHalfMoved, octets_of};
ghost use Rattle.hsr_capture_reader.specs.Rooms.{AreApart, packets_by};

use crate::rooms::Room;

/// Where the octets of a packet end.
fn end_of(room: Room) -> usize
    ensures { result ≡ room.at + room.kept }
{
    room.at as usize + room.kept as usize
}

/// The packet, whose octets stand elsewhere.
fn moved(room: Room, to: u32) -> Room
    ensures { result ≡ record room { at = to } }
{
    Room {
        moment: room.moment,
        at: to,
        kept: room.kept,
        length: room.length,
        interface: room.interface,
        way: room.way,
    }
}

/// Moves the octets of one packet down to a place, up to which others were moved; gives where they end.
#[tactic(auto, using(crate::proofs::Moving::half_is_down, crate::proofs::Moving::half_is_within, crate::proofs::Moving::half_goes_on))]
fn move_one(octets: &mut Vec<u8>, rooms: &mut Vec<Room>, i: usize, to: usize) -> usize
    requires there { i < length rooms.old.items }
    requires half { IsHalfMoved (length octets.old.items) to i rooms.old.items }
    ensures packets { packets_by octets.new.items 0 rooms.new.items ≡ packets_by octets.old.items 0 rooms.old.items }
    ensures half { IsHalfMoved (length octets.new.items) result (i + 1) rooms.new.items }
    ensures end { result + octets_of (drop (i + 1) rooms.new.items) ≡ to + octets_of (drop i rooms.old.items) }
    ensures many { length rooms.new.items ≡ length rooms.old.items }
{
    let room = rooms[i];
    octets.copy_within(room.at as usize..end_of(room), to);
    rooms[i] = moved(room, to as u32);
    to + room.kept as usize
}

/// Moves the octets of all packets; gives where they end.
fn move_all(octets: &mut Vec<u8>, rooms: &mut Vec<Room>) -> usize
    requires { AreApart (length octets.old.items) 0 rooms.old.items }
    ensures packets { packets_by octets.new.items 0 rooms.new.items ≡ packets_by octets.old.items 0 rooms.old.items }
    ensures moved { IsHalfMoved (length octets.new.items) result (length rooms.new.items) rooms.new.items }
    ensures end { result ≡ octets_of rooms.old.items }
    ensures many { length rooms.new.items ≡ length rooms.old.items }
{
    let mut to = 0;
    for i in 0..rooms.len() {
        to = move_one(octets, rooms, i, to);
    }
    to
}

/// Lets go what a file has beside the octets of its packets.
#[tactic(auto, using(crate::proofs::Moving::front_same, crate::proofs::Moving::all_are_within))]
pub(crate) fn pack(octets: &mut Vec<u8>, rooms: &mut Vec<Room>)
    requires { AreApart (length octets.old.items) 0 rooms.old.items }
    ensures packets { packets_by octets.new.items 0 rooms.new.items ≡ packets_by octets.old.items 0 rooms.old.items }
    ensures many { length rooms.new.items ≡ length rooms.old.items }
    ensures short { length octets.new.items ≡ octets_of rooms.old.items }
{
    let to = move_all(octets, rooms);
    octets.truncate(to);
}
