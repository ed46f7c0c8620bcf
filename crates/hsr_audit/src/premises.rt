//! What a network asks of the nodes and links of a finished run.
ghost use Rattle.std.specs.Prelude.{◌↔◌, IsTrue, MatchOption};
ghost use Rattle.hsr_network_laws.specs.Network.{IsNetwork};
ghost use Rattle.hsr_routes.specs.Networks.{AreGoingRound, HaveOwnAddresses, IsFirstUnlike};

use hsr_finished_run::Closed;

// hsr_routes asks a topology, since nothing else of a run counts here; these say the same of the run.
/// Whether all DANHs and RedBoxes of a finished run are in mode H or U.
pub(crate) fn are_going_round<const C: usize>(closed: &Closed<C>) -> bool
    ensures { IsTrue result ↔ AreGoingRound closed.now.run }
{
    hsr_routes::are_going_round(closed.topology())
}

/// Whether no address is two nodes' of a finished run.
pub(crate) fn have_own_addresses<const C: usize>(closed: &Closed<C>) -> bool
    ensures { IsTrue result ↔ HaveOwnAddresses closed.now.run }
{
    hsr_routes::have_own_addresses(closed.topology())
}

/// The lowest link of a finished run that joins a port on a ring and an edge, which is a Station's port or an interlink. Where there
/// is none, nodes in modes H and U with addresses that are theirs alone are a network (IEC 62439-3 clause 5).
pub(crate) fn first_unlike_link<const C: usize>(closed: &Closed<C>) -> Option<usize>
    ensures { MatchOption result (AreGoingRound closed.now.run → HaveOwnAddresses closed.now.run
        → IsNetwork closed.now.run) (IsFirstUnlike closed.now.run) }
{
    hsr_routes::first_unlike_link(closed.topology())
}
