//! The verdict on an arrival.
ghost use Rattle.std.specs.Prelude.{◌≡◌, ◌≤◌};
ghost use Rattle.hsr_frame.specs.Counters.{AreWithin, step_limit};
ghost use Rattle.hsr_forwarding.specs.Tables.{copies_of, counted_with, judged_as};

use hsr_frame::{Cause, Counters, Exits, Wants};

/// Which egresses an arrival passed, and why it went there or nowhere.
#[derive(Clone, Copy, PartialEq, Eq)]
pub struct Judged {
    pub passes: Exits,
    pub cause: Cause,
}

impl Judged {
    /// The verdict where these of the egresses that want it pass an arrival.
    pub fn new(wants: Wants, passes: Exits) -> Judged
        ensures { result ≡ judged_as wants passes }
    {
        Judged {
            passes,
            cause: wants.cause_of(passes),
        }
    }

    /// How many ports passed it.
    pub fn copies(self) -> u64
        ensures { result ≡ copies_of self.passes }
    {
        u64::from(self.passes.a)
            + u64::from(self.passes.b)
            + u64::from(self.passes.c)
            + u64::from(self.passes.d)
    }
}

/// Counts an arrival by its cause, whether it went up and how many copies left by ports, and a supervision payload that
/// could not be read.
pub fn count(counters: &mut Counters, judged: Judged, readable: bool)
    requires within { AreWithin counters.old step_limit }
    requires few { copies_of judged.passes ≤ 3 }
    ensures { counters.new ≡ counted_with counters.old judged readable }
{
    counters.count(judged.cause, judged.passes.up, judged.copies());
    counters.bad_life += u64::from(!readable);
}
