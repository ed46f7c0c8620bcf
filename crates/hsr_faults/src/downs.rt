//! The channels that are down in the span of a send.
ghost use Rattle.std.specs.Prelude.{◌≡◌, ◌==◌, ◌<◌, ◌/◌, ℕ, if◌then◌else◌};
ghost use Rattle.hsr_bitset.specs.Numbers.{has};
ghost use Rattle.hsr_plays.specs.Spans.{is_down};
ghost use Rattle.hsr_send_spans.specs.Down.{AreCutAt};

use crate::channels::Channels;
use hsr_plays::SendSpan;
use hsr_scenario::Order;
use hsr_send_spans::Cuts;

// A topology has no more.
/// How many links there are at most.
const LINKS: usize = 128;

/// Puts both channels of a link into a set, or takes them out.
pub(crate) fn put_link(set: &mut Channels, link: usize, is_in: bool)
    requires { link < 128 }
    ensures { (n : ℕ) → has set.new.words n ≡ (if n / 2 == link then is_in else has set.old.words n) }
{
    set.put(2 * link, is_in);
    set.put(2 * link + 1, is_in);
}

/// The channels of links that are down at some time of the span of a send, where `cuts` tells which are cut before it.
pub(crate) fn down(orders: &[Order], cuts: &Cuts, span: &SendSpan) -> Channels
    requires { AreCutAt orders.now span.now.index cuts.now.links }
    ensures { (n : ℕ) → n < 256 → has result.words n ≡ is_down orders.now span.now (n / 2) }
{
    let links = cuts.down_in(orders, span);
    let mut set = Channels::new();
    for link in 0..LINKS {
        put_link(&mut set, link, links.has(link));
    }
    set
}
