//! What each thread does.
ghost use Rattle.std.specs.Prelude.{◌≡◌, ◌<◌, [], ◌++◌, IfOk, OnOk};
ghost use Rattle.std.specs.List.{cons_option};
ghost use Rattle.hsr_runner.specs.Wires.{role_at, roles_of};

use crate::wire::{Wire, wire_at};
use hsr_frame::NoMemory;
use hsr_topology::Topology;
use std::alloc::Global;

/// What a thread does at its node.
#[derive(Clone, Copy, PartialEq, Eq)]
pub(crate) enum Task {
    /// It judges what comes to a port, which leads there.
    Judge { port: u8, wire: Wire },
    /// It ages the node.
    Age,
}

/// A thread: the number of its worker and of its node, and what it does there.
#[derive(Clone, Copy, PartialEq, Eq)]
pub(crate) struct Role {
    pub(crate) worker: u16,
    pub(crate) node: usize,
    pub(crate) task: Task,
}

/// The thread of worker `number + 1`, if there is one. Of the eight workers of a node the first four judge at its ports, as far as
/// these have links, and the last ages it.
fn role_at(topology: &Topology, number: usize) -> Option<Role>
    requires { number < 512 }
    ensures { result ≡ role_at topology.now number }
{
    let worker = (number + 1) as u16;
    let node = number / 8;
    let port = (number % 8) as u8;
    // The ager has the eighth number of its node; ports take the first four.
    let task = if port == 7 {
        Task::Age
    } else {
        let wire = wire_at(topology, node, port)?;
        Task::Judge { port, wire }
    };
    Some(Role { worker, node, task })
}

/// Puts a thread last, if there is one.
fn push_if(roles: &mut Vec<Role>, role: Option<Role>) -> Result<(), NoMemory>
    ensures { OnOk result (roles.new.items ≡ roles.old.items ++ cons_option role []) }
{
    if let Some(role) = role {
        roles.push(role)?;
    }
    Ok(())
}

/// The threads of a topology, by the numbers of their workers: worker `1 + 8 k + p` judges at port p of node k, where that has a
/// link, and worker `8 + 8 k` ages node k.
pub(crate) fn roles_of(alloc: Global, topology: &Topology) -> Result<Vec<Role>, NoMemory>
    ensures { IfOk result (λ roles. roles.items ≡ roles_of topology.now) }
{
    let mut roles = Vec::new(alloc);
    for number in 0..8 * topology.places().len() {
        push_if(&mut roles, role_at(topology, number))?;
    }
    Ok(roles)
}
