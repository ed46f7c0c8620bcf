//! What a node counts.
ghost use Rattle.std.specs.Prelude.{◌≡◌, ◌≤◌, ◌^◌};
ghost use Rattle.hsr_frame.specs.Counters.{AreWithin, counted, dropped, no_counts};

use crate::node::Cause;

/// How often each thing happened at a node.
#[derive(Clone, Copy, PartialEq, Eq)]
pub struct Counters {
    /// Sends that were accepted.
    pub sent: u64,
    /// Supervision frames that were sent.
    pub life: u64,
    /// Arrivals that were passed up.
    pub up: u64,
    /// Copies of arrivals that were passed to ports.
    pub forwarded: u64,
    /// Arrivals that each egress which wanted them remembered.
    pub duplicate: u64,
    /// Arrivals from an address of the node itself.
    pub returned: u64,
    /// Arrivals that no egress wanted.
    pub foreign: u64,
    /// Arrivals from one known station to another.
    pub local: u64,
    /// Arrivals at a ring port without an HSR tag.
    pub untagged: u64,
    /// Arrivals at an interlink or a station with an HSR tag.
    pub tagged: u64,
    /// Arrivals that were no frame.
    pub malformed: u64,
    /// Supervision frames whose payload could not be read.
    pub bad_life: u64,
}

impl Counters {
    /// Nothing happened yet.
    pub fn new() -> Counters
        ensures { result ≡ no_counts }
    {
        Counters {
            sent: 0,
            life: 0,
            up: 0,
            forwarded: 0,
            duplicate: 0,
            returned: 0,
            foreign: 0,
            local: 0,
            untagged: 0,
            tagged: 0,
            malformed: 0,
            bad_life: 0,
        }
    }

    /// Counts an arrival by its cause, whether it went up, and the copies that left by ports.
    pub fn count(&mut self, cause: Cause, up: bool, copies: u64)
        requires within { AreWithin self.old (2 ^ 62) }
        requires few { copies ≤ 3 }
        ensures { self.new ≡ counted self.old cause up copies }
    {
        // No sum overflows: a node accepts 2^62 arrivals at most, and each adds 3 copies at most.
        match cause {
            // What passed has no counter of its own: `up` and `forwarded` tell where it went.
            Cause::Passed => {}
            Cause::Duplicate => self.duplicate += 1,
            Cause::Returned => self.returned += 1,
            Cause::Foreign => self.foreign += 1,
            Cause::Local => self.local += 1,
            Cause::Untagged => self.untagged += 1,
            Cause::Tagged => self.tagged += 1,
            Cause::Malformed(_) => self.malformed += 1,
        }
        self.up += u64::from(up);
        self.forwarded += copies;
    }

    /// How often an arrival was neither passed nor a duplicate nor the node's own frame.
    /// A node prints this one sum in place of its five parts.
    pub fn dropped(&self) -> u64
        requires { AreWithin self.now (2 ^ 62) }
        ensures { result ≡ dropped self.now }
    {
        self.foreign + self.local + self.untagged + self.tagged + self.malformed
    }
}
