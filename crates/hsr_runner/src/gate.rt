//! What the threads of a run ask before they go on.
ghost use Rattle.std.specs.Prelude.{◌≡◌, Bool, true, false};

use hsr_node::Probe;
use std::marker::Sync;
use std::sync::Wait;

/// What each worker asks of each copy that it has taken, before it judges it, and the main worker before each step of its scenario.
/// Who asks holds no lock meanwhile, so a gate may hold threads back, to bring about an order of events.
///
/// The type says, by `may_shut`, whether it may ever answer false.
pub trait Gate: Sync {
    ghost may_shut: { Bool };

    /// Whether the worker at a port of a node, each by its number, goes on with the copy of a send. False ends the run.
    fn pass(&self, rt: &impl Wait, node: usize, port: u8, probe: Option<Probe>) -> bool
        ensures { result ≡ false → may_shut ≡ true };

    /// Whether the main worker goes on with the step with this index in the scenario. False ends the run.
    fn before(&self, _rt: &impl Wait, _step: usize) -> bool
        ensures { result ≡ false → may_shut ≡ true }
    {
        // A gate that holds back only copies needs no step of its own.
        true
    }
}

/// A gate that is always open.
/// It is that of the program: only tests hold threads back.
#[derive(Clone, Copy)]
pub struct OpenGate;

impl Gate for OpenGate {
    ghost may_shut = { false };

    fn pass(&self, _rt: &impl Wait, _node: usize, _port: u8, _probe: Option<Probe>) -> bool {
        true
    }
}
