//! The number of an address.
ghost use Rattle.std.specs.Prelude.{◌≡◌};
ghost use Rattle.hsr_frame.specs.Address.{IsAddress};
ghost use Rattle.hsr_address.specs.Numbers.{number_of};

use hsr_frame::Mac;

/// An address as a number of 48 bits, the first octet the greatest (IEEE 802 clause 8).
pub fn number_of(mac: Mac) -> u64
    ensures number { result ≡ number_of mac }
    ensures address { IsAddress mac }
{
    let [a, b, c, d, e, f] = mac.octets();
    u64::from_be_bytes([0, 0, a, b, c, d, e, f])
}
