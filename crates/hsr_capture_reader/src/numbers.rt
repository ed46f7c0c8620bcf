//! Numbers in either byte order.
ghost use Rattle.std.specs.Prelude.{◌≡◌, ◌+◌, ◌*◌, ◌<◌, length};
ghost use Rattle.hsr_capture_reader.specs.Numbers.{number16, number32, number64};

/// In which order the octets of a number stand.
#[derive(Clone, Copy, PartialEq, Eq)]
pub enum ByteOrder {
    /// The low octet first.
    Little,
    /// The high octet first.
    Big,
}

impl ByteOrder {
    /// The number of 16 bits at an offset.
    pub(crate) fn u16_at(self, octets: &[u8], at: usize) -> u16
        requires { at + 1 < length octets.now }
        ensures { result ≡ number16 self octets.now at }
    {
        let two = [octets[at], octets[at + 1]];
        match self {
            ByteOrder::Little => u16::from_le_bytes(two),
            ByteOrder::Big => u16::from_be_bytes(two),
        }
    }

    /// The number of 32 bits at an offset.
    pub(crate) fn u32_at(self, octets: &[u8], at: usize) -> u32
        requires { at + 3 < length octets.now }
        ensures { result ≡ number32 self octets.now at }
    {
        let first = self.u16_at(octets, at);
        let second = self.u16_at(octets, at + 2);
        match self {
            ByteOrder::Little => u32::from(second) * 65536 + u32::from(first),
            ByteOrder::Big => u32::from(first) * 65536 + u32::from(second),
        }
    }

    /// The number of 64 bits at an offset.
    pub(crate) fn u64_at(self, octets: &[u8], at: usize) -> u64
        requires { at + 7 < length octets.now }
        ensures { result ≡ number64 self octets.now at }
    {
        let first = self.u32_at(octets, at);
        let second = self.u32_at(octets, at + 4);
        match self {
            ByteOrder::Little => in_halves(second, first),
            ByteOrder::Big => in_halves(first, second),
        }
    }
}

/// The number of 64 bits with these halves.
pub(crate) fn in_halves(high: u32, low: u32) -> u64
    ensures { result ≡ high * 4294967296 + low }
{
    u64::from(high) * 4294967296 + u64::from(low)
}
