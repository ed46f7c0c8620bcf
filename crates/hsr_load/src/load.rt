//! The load of a channel, and those of a run.
ghost use Rattle.std.specs.Prelude.{◌≡◌};
ghost use Rattle.hsr_load.specs.Loads.{most};
ghost use Rattle.hsr_load.specs.Sums.{more};

use hsr_topology::End;

/// What a channel carried: the ends from which and to which its copies go; how many copies, and their octets on the wire; in
/// kbit/s, rounded down, the mean over the time from the run's first copy to its last, a millisecond at least, and the most in a
/// millisecond that begins with a copy; and the first moment in microseconds at which such a millisecond begins.
#[derive(Clone, Copy, PartialEq, Eq)]
pub struct ChannelLoad {
    pub from: End,
    pub to: End,
    pub frames: usize,
    pub octets: u64,
    pub mean: u64,
    pub worst: u64,
    pub at: u64,
}

/// The loads of a run's channels, by links, forth before back. A channel that carried nothing has none.
#[derive(Drop)]
pub struct Load {
    pub channels: Vec<ChannelLoad>,
}

/// The one with the greater worst millisecond, of equals the first.
fn more(most: Option<ChannelLoad>, load: ChannelLoad) -> Option<ChannelLoad>
    ensures { result ≡ more most load }
{
    match most {
        None => Some(load),
        Some(most) => {
            if most.worst < load.worst {
                Some(load)
            } else {
                Some(most)
            }
        }
    }
}

/// The one with the greatest worst millisecond, of equals the first.
fn most_of(loads: &[ChannelLoad]) -> Option<ChannelLoad>
    ensures { result ≡ most loads.now }
{
    let mut most = None;
    for load in loads {
        most = more(most, *load);
    }
    most
}

impl Load {
    /// The load of the channel with the greatest worst millisecond, of equals the first; none where no channel carried anything.
    pub fn most(&self) -> Option<ChannelLoad>
        ensures { result ≡ most self.now.channels.items }
    {
        most_of(self.channels.as_slice())
    }
}
