//! Octets at a place, and octets put at the end.
ghost use Rattle.std.specs.Prelude.{[], ◌^◌, IfSome, ◌≡◌, ◌+◌, ◌<◌, ◌≤◌, ◌++◌, length};
ghost use Rattle.arrayvec.specs.ArrayVec.{array_vec_len};
ghost use Rattle.hsr_frame.specs.Grammar.{pair, vlan_tag, number_at};

use crate::layout::ETHERTYPE_VLAN;
use crate::mac::Mac;
use arrayvec::ArrayVec;
use byteorder::{BigEndian, ByteOrder};

/// The number of 16 bits at a place, the high octet first.
pub fn u16_at(octets: &[u8], at: usize) -> u16
    requires { at + 1 < length octets.now }
    ensures { result ≡ number_at at octets.now }
{
    u16::from_be_bytes([octets[at], octets[at + 1]])
}

/// Puts octets at the end, where there is room.
pub fn put<const CAP: usize>(out: &mut ArrayVec<u8, CAP>, octets: &[u8])
    requires { array_vec_len out.old + length octets.now ≤ CAP }
    ensures { out.new.items ≡ out.old.items ++ octets.now }
{
    // Nothing is refused here: `requires` says that there is room.
    out.try_extend_from_slice(octets).unwrap();
}

/// Puts a number of 16 bits at the end, the high octet first.
pub fn put_u16<const CAP: usize>(out: &mut ArrayVec<u8, CAP>, n: u16)
    requires { array_vec_len out.old + 2 ≤ CAP }
    ensures { out.new.items ≡ out.old.items ++ pair n }
{
    let mut two = [0u8; 2];
    BigEndian::write_u16(&mut two, n);
    put(out, &two);
}

/// Puts the addresses and the VLAN tag, which are at most 16 octets, at the front.
/// The room is for 6 octets each and 4 of the tag. The type isn't put: frames with and without an HSR tag differ there.
pub fn put_head<const CAP: usize>(
    out: &mut ArrayVec<u8, CAP>,
    dst: &Mac,
    src: &Mac,
    vlan: Option<u16>,
)
    requires empty { out.old.items ≡ [] }
    requires room { 16 ≤ CAP }
    ensures octets { out.new.items ≡ dst.now ++ src.now ++ vlan_tag vlan }
    ensures len { array_vec_len out.new ≤ 16 }
    ensures addresses { (length dst.now ≡ 6) × (length src.now ≡ 6) }
    ensures control { IfSome vlan (λ control. control < 2 ^ 16) }
{
    put(out, &dst.octets());
    put(out, &src.octets());
    if let Some(control) = vlan {
        put_u16(out, ETHERTYPE_VLAN);
        put_u16(out, control);
    }
}

/// A copy of octets.
pub fn copied<const CAP: usize>(octets: &[u8]) -> ArrayVec<u8, CAP>
    requires { length octets.now ≤ CAP }
    ensures { result.items ≡ octets.now }
{
    let mut out = ArrayVec::new();
    put(&mut out, octets);
    out
}
