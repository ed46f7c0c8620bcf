//! Why a node refuses to send, as a word.
//! Scenarios print the word, `node` prints the number (`SendFault::code`).
use crate::fault::SendFault;
use std::fmt;

impl fmt::Display for SendFault {
    ghost use Rattle.std.specs.Prelude.{Some};
    ghost use Rattle.hsr_frame.specs.Refusal.{send_word};

    ghost output = { λ fault. Some (send_word fault) };

    fn fmt<W: fmt::Write>(&self, f: &mut fmt::Formatter<W>) -> fmt::Result {
        match self {
            SendFault::SelfAddressed => write!(f, "self-addressed"),
            SendFault::ReservedType => write!(f, "reserved-type"),
            SendFault::Spent => write!(f, "spent"),
            SendFault::TooLong => write!(f, "too-long"),
        }
    }
}
