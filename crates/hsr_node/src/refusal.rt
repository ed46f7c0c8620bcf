//! Why a node refuses an event, as a word.
use crate::event::StepFault;
use std::fmt;

impl fmt::Display for StepFault {
    ghost use Rattle.std.specs.Prelude.{Some};
    ghost use Rattle.hsr_node.specs.Refusal.{node_word};

    ghost output = { λ fault. Some (node_word fault) };

    fn fmt<W: fmt::Write>(&self, f: &mut fmt::Formatter<W>) -> fmt::Result {
        match self {
            StepFault::WrongEvent => write!(f, "wrong-event"),
            StepFault::Send(fault) => write!(f, "{fault}"),
            StepFault::NotProxied => write!(f, "not-proxied"),
            StepFault::Spent => write!(f, "spent"),
            // No line has it, since a failed allocation is `fault: memory`. Words are total all the same.
            StepFault::NoMemory => write!(f, "memory"),
        }
    }
}
