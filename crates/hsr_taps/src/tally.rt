//! What came at each interface.
ghost use Rattle.std.specs.Prelude.{◌≡◌, ◌+◌, ◌<◌, ◌∷◌, ◌++◌, ◌^◌, if◌then◌else◌, [], true, Bool, List, length, IfOk};
ghost use Rattle.hsr_capture_reader.specs.Fields.{PacketFields};
ghost use Rattle.hsr_taps.specs.Tallies.{AreLookedAt, AreTallies, has_lane, is_at, is_looked_at, is_malformed, is_unread, is_untagged, tagged, tally_of, taps_by};

use crate::choice::{Choice, TapsAsked};
use crate::direction::Taps;
use hsr_capture_reader::{Interface, Packet};
use hsr_frame::NoMemory;
use hsr_frame_copies::{Copy, NoCopy, copy_of};
use std::alloc::Global;

/// The link type of Ethernet.
const ETHERNET: u16 = 1;

/// How many packets came at an interface, and what they are.
#[derive(Clone, Copy, Default, PartialEq, Eq)]
pub struct Tally {
    pub packets: u64,
    pub untagged: u64,
    pub malformed: u64,
    pub unread: u64,
    pub cut: u64,
    /// Copies of tagged frames whose path has the lane of port A, and of port B.
    pub lane_a: u64,
    pub lane_b: u64,
    /// Packets whose flags tell a direction.
    pub flagged: u64,
}

/// Whether a packet is a copy of a tagged frame whose path has a lane.
fn has_lane(kind: &Result<Copy<'_>, NoCopy>, lane: u8) -> bool
    ensures { result ≡ has_lane lane kind.now }
{
    match kind {
        Ok(copy) => copy.path % 2 == lane,
        Err(_) => false,
    }
}

/// Whether a packet is a frame with no tag.
fn is_untagged(kind: &Result<Copy<'_>, NoCopy>) -> bool
    ensures { result ≡ is_untagged kind.now }
{
    matches!(kind, Err(NoCopy::Untagged(_)))
}

/// Whether a packet is no frame.
fn is_malformed(kind: &Result<Copy<'_>, NoCopy>) -> bool
    ensures { result ≡ is_malformed kind.now }
{
    matches!(kind, Err(NoCopy::Malformed(_)))
}

/// Whether too few octets of a packet were captured.
fn is_unread(kind: &Result<Copy<'_>, NoCopy>) -> bool
    ensures { result ≡ is_unread kind.now }
{
    matches!(kind, Err(NoCopy::Unread))
}

/// A count, with one more that may be such.
fn more(count: u64, is_such: bool) -> u64
    ensures { count + 1 < 2 ^ 64 → result ≡ count + (if is_such then 1 else 0) }
{
    if is_such {
        count.saturating_add(1)
    } else {
        count
    }
}

impl Tally {
    /// Copies of tagged frames.
    pub fn tagged(&self) -> u64
        ensures { tagged self.now < 2 ^ 64 → result ≡ tagged self.now }
    {
        self.lane_a.saturating_add(self.lane_b)
    }

    /// With one more packet.
    fn with(self, packet: &Packet<'_>) -> Tally
        ensures { (packets : List PacketFields) → length packets < 2 ^ 63 → self ≡ tally_of packets
            → result ≡ tally_of (packets ++ packet.now ∷ []) }
    {
        let kind = copy_of(packet);
        let packets = self.packets.saturating_add(1);
        let untagged = more(self.untagged, is_untagged(&kind));
        let malformed = more(self.malformed, is_malformed(&kind));
        let unread = more(self.unread, is_unread(&kind));
        let cut = more(self.cut, packet.octets.len() < packet.length());
        let lane_a = more(self.lane_a, has_lane(&kind, 0));
        let lane_b = more(self.lane_b, has_lane(&kind, 1));
        let flagged = more(self.flagged, packet.way().is_some());
        Tally {
            packets,
            untagged,
            malformed,
            unread,
            cut,
            lane_a,
            lane_b,
            flagged,
        }
    }

    /// How directions are told apart: by flags, where packets have them; else by lane, where the rarer lane has a tenth or more of
    /// the copies; else there is one.
    pub(crate) fn taps(&self, asked: TapsAsked) -> Taps
        requires { tagged self.now < 2 ^ 60 }
        ensures { result ≡ taps_by asked self.now }
    {
        let rarer = self.lane_a.min(self.lane_b);
        match asked {
            TapsAsked::One => Taps::One,
            TapsAsked::Both => Taps::Both,
            TapsAsked::Auto => {
                if self.flagged > 0 {
                    Taps::Flags
                } else if rarer > 0 && rarer.saturating_mul(10) >= self.tagged() {
                    Taps::Both
                } else {
                    Taps::One
                }
            }
        }
    }
}

/// Whether an interface is looked at: it is Ethernet, and among those that are asked for, if any are.
fn is_looked_at(choice: &Choice<'_>, i: usize, interface: &Interface<'_>) -> bool
    ensures { result ≡ is_looked_at choice.now i interface.now }
{
    interface.link == ETHERNET
        && (choice.interfaces.is_empty() || choice.interfaces.iter().any(|asked| *asked == i))
}

/// Of each interface whether it is looked at. `NoMemory` where room is refused.
pub fn looked_at(
    alloc: Global,
    interfaces: &[Interface<'_>],
    choice: &Choice<'_>,
) -> Result<Vec<bool>, NoMemory>
    ensures { IfOk result (λ looked. AreLookedAt choice.now interfaces.now looked.items) }
{
    let mut looked_at = Vec::new(alloc);
    for i in 0..interfaces.len() {
        looked_at.push(is_looked_at(choice, i, &interfaces[i]))?;
    }
    Ok(looked_at)
}

/// Whether an interface is looked at, by what is known of each.
pub(crate) fn is_at(looked_at: &[bool], i: usize) -> bool
    ensures { result ≡ is_at looked_at.now i }
{
    looked_at.get(i).copied().unwrap_or(false)
}

/// Counts a packet at its interface.
fn count_at(tallies: &mut Vec<Tally>, packet: &Packet<'_>)
    ensures long { length tallies.new.items ≡ length tallies.old.items }
    ensures tallies { (looked : List Bool) (packets : List PacketFields) → length packets < 2 ^ 63 → is_at looked packet.now.interface ≡ true
        → AreTallies looked packets tallies.old.items → AreTallies looked (packets ++ packet.now ∷ []) tallies.new.items }
{
    let interface = packet.interface();
    if interface < tallies.len() {
        tallies[interface] = tallies[interface].with(packet);
    }
}

/// Counts a packet at its interface, if that is looked at.
fn count_packet(tallies: &mut Vec<Tally>, looked_at: &[bool], packet: &Packet<'_>)
    ensures long { length tallies.new.items ≡ length tallies.old.items }
    ensures tallies { (packets : List PacketFields) → length packets < 2 ^ 63 → AreTallies looked_at.now packets tallies.old.items
        → AreTallies looked_at.now (packets ++ packet.now ∷ []) tallies.new.items }
{
    if is_at(looked_at, packet.interface()) {
        count_at(tallies, packet);
    }
}

/// What came at each interface that is looked at; nothing at others. `NoMemory` where room is refused.
pub fn tallies_of(
    alloc: Global,
    packets: &[Packet<'_>],
    looked_at: &[bool],
) -> Result<Vec<Tally>, NoMemory>
    ensures long { IfOk result (λ tallies. length tallies.items ≡ length looked_at.now) }
    ensures tallies { IfOk result (λ tallies. AreTallies looked_at.now packets.now tallies.items) }
{
    let mut tallies = vec![in alloc; Tally::default(); looked_at.len()]?;
    for packet in packets {
        count_packet(&mut tallies, looked_at, packet);
    }
    Ok(tallies)
}
