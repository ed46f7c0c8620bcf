//! The ends of channels.
ghost use Rattle.std.specs.Prelude.{◌≡◌, ◌<◌, length};
ghost use Rattle.hsr_network_laws.specs.Network.{start_of, stop_of};
ghost use Rattle.hsr_routes.specs.Routes.{bare};

use hsr_routes::{Channel, from_end, to_end};
use hsr_topology::{End, Topology};

/// Where a channel starts.
pub(crate) fn start(topology: &Topology, channel: Channel) -> End
    requires { channel.link < length topology.now.links }
    ensures value { result ≡ start_of (bare topology.now.places topology.now.links) channel }
    ensures there { result.node < length topology.now.places }
{
    from_end(topology.links()[channel.link], channel.dir)
}

/// Where a channel ends.
pub(crate) fn stop(topology: &Topology, channel: Channel) -> End
    requires { channel.link < length topology.now.links }
    ensures value { result ≡ stop_of (bare topology.now.places topology.now.links) channel }
    ensures there { result.node < length topology.now.places }
{
    to_end(topology.links()[channel.link], channel.dir)
}
