//! A packet that passed an end of the device.
ghost use Rattle.std.specs.Prelude.{◌≡◌};
ghost use Rattle.hsr_playback.specs.Own.{is_handed_down};
ghost use Rattle.hsr_playback.specs.Passages.{is_cut, missing, us};

use hsr_node::Octets;
use hsr_tap_device::End;

/// Which way a packet passed an end.
#[derive(Clone, Copy, PartialEq, Eq)]
pub enum Heading {
    /// It went into the device.
    In,
    /// It left the device.
    Out,
}

/// A packet that passed an end of the device.
#[derive(Drop)]
pub struct Passage {
    /// Nanoseconds since the capture began.
    pub moment: u64,
    pub end: End,
    pub heading: Heading,
    /// Which of the capture's packets it is, from 1.
    pub packet: u32,
    /// Its octets, with zeros for those that weren't captured.
    pub octets: Octets,
    /// How many of its octets were captured.
    pub captured: usize,
}

impl Passage {
    /// Its moment in microseconds, rounded down.
    pub fn at(&self) -> u64
        ensures { result ≡ us self.now.moment }
    {
        self.moment / 1000
    }

    /// Whether octets at its end weren't captured.
    pub fn is_cut(&self) -> bool
        ensures { result ≡ is_cut self.now }
    {
        self.captured < self.octets.as_slice().len()
    }

    /// How many of its octets weren't captured.
    pub fn missing(&self) -> usize
        ensures { result ≡ missing self.now }
    {
        self.octets.as_slice().len().saturating_sub(self.captured)
    }

    /// Whether the host handed it down.
    pub fn is_handed_down(&self) -> bool
        ensures { result ≡ is_handed_down self.now }
    {
        match (self.heading, self.end) {
            (Heading::In, End::Up) => true,
            _ => false,
        }
    }
}
