//! Where what comes from a ring is wanted.
ghost use Rattle.std.specs.Prelude.{◌≡◌, ◌≤◌, Option, Result};
ghost use Rattle.hsr_table_demand.specs.Read.{quadbox_exits, wanted_from};
ghost use Rattle.hsr_tables.specs.Proxies.{is_known};

use hsr_forwarding::ring_wants;
use hsr_frame::{Exits, FrameFault};
use hsr_node::{Place, quad_port, ring_port};
use hsr_quadbox::arrival_wants;
use hsr_tables::ProxyTable;
use hsr_tag::SeenView;

/// Where a QuadBox wants what came to a port.
fn quadbox_exits(port: u8, seen: &Result<SeenView<'_>, FrameFault>) -> Exits
    ensures { result ≡ quadbox_exits port seen.now }
{
    match quad_port(port) {
        Some(x) => arrival_wants(x, seen).exits,
        None => Exits::none(),
    }
}

/// Where what came to a port is wanted, if that is on a ring (IEC 62439-3 clause 5.3), by the stations that are known at an
/// effective moment in microseconds.
pub(crate) fn wanted_from(
    place: &Place,
    stations: &ProxyTable,
    at: u64,
    port: u8,
    seen: &Result<SeenView<'_>, FrameFault>,
) -> Exits
    requires { stations.now.last ≤ at }
    ensures { result ≡ wanted_from place.now (is_known at stations.now.heard) port seen.now }
{
    match (place, ring_port(port)) {
        (Place::Danh { mac, mode }, Some(x)) => ring_wants(*mac, *mode, None, x, seen, at).exits,
        (Place::RedBox { mac, mode }, Some(x)) => {
            ring_wants(*mac, *mode, Some(stations), x, seen, at).exits
        }
        (Place::QuadBox, _) => quadbox_exits(port, seen),
        // At an interlink no table is asked, and a Station has none.
        _ => Exits::none(),
    }
}
