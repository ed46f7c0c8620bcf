//! The channels on which a send lost copies.
ghost use Rattle.std.specs.Prelude.{◌≡◌, ◌<◌, ◌==◌, ◌&&◌, ◌||◌, if◌then◌else◌, true};
ghost use Rattle.hsr_audit.specs.Lossy.{AreWaysOf, is_on};
ghost use Rattle.hsr_network_laws.specs.Network as law;
ghost use Rattle.hsr_bitset.specs.Numbers.{has};
ghost use Rattle.hsr_routes.specs.Numbered.{number_of};

use hsr_bitset::Numbers;
use hsr_deliveries::Loss;
use hsr_routes::Channel;

/// Puts the channel of a loss into a set, if its link is one of the first 256.
fn put_channel(set: &mut Numbers, loss: &Loss)
    ensures { (channel : law.Channel) → channel.link < 256 → has set.new (number_of channel)
        ≡ (is_on channel loss.now || has set.old (number_of channel)) }
{
    // A channel's number asks for this. No link of a topology is left out, since there are 128 at most.
    if loss.link < 256 {
        let channel = Channel {
            link: loss.link,
            dir: loss.dir,
        };
        set.put(channel.number(), true);
    }
}

/// The channels of losses, by their numbers.
pub(crate) fn channels_of(losses: &[Loss]) -> Numbers
    ensures { AreWaysOf losses.now result }
{
    let mut set = Numbers::new();
    for loss in losses {
        put_channel(&mut set, loss);
    }
    set
}
