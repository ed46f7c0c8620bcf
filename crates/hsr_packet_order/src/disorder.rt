//! How far a file is out of the order of time.
ghost use Rattle.std.specs.Prelude.{◌≡◌, ◌+◌, ◌<◌, ◌^◌};
ghost use Rattle.hsr_packet_order.specs.Disorder.{disorder_of, with_one};

use hsr_capture_reader::Packet;

/// How many packets of a file have an earlier stamp than one before them, and by how many nanoseconds at most.
#[derive(Clone, Copy, PartialEq, Eq)]
pub struct Disorder {
    pub packets: usize,
    pub most: u64,
}

/// The moment of a packet.
fn moment_of(packet: &Packet<'_>) -> u64
    ensures { result ≡ packet.now.moment }
{
    packet.moment
}

/// With a packet that is so far behind one before it.
fn with_one(disorder: Disorder, back: u64) -> Disorder
    requires { disorder.packets + 1 < 2 ^ 64 }
    ensures { result ≡ with_one disorder back }
{
    let packets = if back > 0 {
        disorder.packets + 1
    } else {
        disorder.packets
    };
    Disorder {
        packets,
        most: disorder.most.max(back),
    }
}

/// How far packets, as a file has them, are out of the order of time.
pub fn disorder_of(packets: &[Packet<'_>]) -> Disorder
    ensures { result ≡ disorder_of packets.now }
{
    let mut latest = 0u64;
    let mut disorder = Disorder {
        packets: 0,
        most: 0,
    };
    for packet in packets {
        let moment = moment_of(packet);
        disorder = with_one(disorder, latest.saturating_sub(moment));
        latest = latest.max(moment);
    }
    disorder
}
