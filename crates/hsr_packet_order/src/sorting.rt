//! Packets in the order of time.
ghost use Rattle.std.specs.Prelude.{◌≡◌, IsPermutation, OnErr, OnOk};
ghost use Rattle.std.specs.List.Sorted.{IsSortedByKey, IsStableByKey};
ghost use Rattle.std.specs.Ordering.{nat_cmp};
ghost use Rattle.hsr_packet_order.specs.Disorder.{moment_of};

use hsr_capture_reader::Packet;
use hsr_frame::NoMemory;

/// Sorts packets by their moments; those of one moment stay as they stood. `NoMemory` where room is refused: then nothing is moved.
pub fn sort_by_time(packets: &mut Vec<Packet<'_>>) -> Result<(), NoMemory>
    ensures permutation { IsPermutation packets.old.items packets.new.items }
    ensures sorted { OnOk result (IsSortedByKey moment_of nat_cmp packets.new.items) }
    ensures stable { IsStableByKey moment_of nat_cmp packets.old.items packets.new.items }
    ensures err { OnErr result (packets.new.items ≡ packets.old.items) }
{
    packets.sort_by_key(|packet| packet.moment)?;
    Ok(())
}
