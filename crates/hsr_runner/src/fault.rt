//! Why there is no run.
use hsr_finished_run::Disagree;
use hsr_world_steps::WorldFault;

/// Why a scenario has no run in threads, in the order in which the reasons are tried.
#[derive(Clone, Copy, PartialEq, Eq)]
pub enum RunFault {
    /// The step with this index, counted from 0, is a Put, Take or Judge: no thread was started.
    FineStep { step: usize },
    /// The step with this index was refused; or a node had no room for another step when the main worker was there.
    Step { step: usize, fault: WorldFault },
    /// The gate answered false.
    GateShut,
    /// A thread couldn't be started.
    Thread,
    /// What the threads left isn't a finished run, for this cause.
    Check(Disagree),
    /// Memory ran out, wherever that was.
    NoMemory,
}
