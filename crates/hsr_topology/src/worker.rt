//! The numbers of workers: the main one, and those of each node.
ghost use Rattle.std.specs.Prelude.{◌≡◌, ◌<◌};
ghost use Rattle.hsr_topology.specs.Workers.{ager, port_worker};

use crate::end::End;

/// The worker that judges what comes to a port. The main worker is 0, so nodes begin at 1.
pub fn port_worker(end: End) -> u16
    requires { end.node < 64 }
    ensures { result ≡ port_worker end }
{
    // Each node has 8 numbers, so that node and port tell the worker.
    (1 + 8 * end.node) as u16 + u16::from(end.port)
}

/// The worker that ages a node: the last of its eight numbers.
pub fn ager(node: usize) -> u16
    requires { node < 64 }
    ensures { result ≡ ager node }
{
    (8 + 8 * node) as u16
}
