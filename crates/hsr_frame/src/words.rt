//! The words that texts have for the small types that all nodes share.
ghost use Rattle.std.specs.Prelude.{◌≡◌, IfSome, Some};
ghost use Rattle.hsr_frame.specs.Fault.{frame_fault_code};
ghost use Rattle.hsr_frame.specs.Words.{cause_of, cause_word, fault_in, fault_of, mode_of, mode_word, port_of, port_word};

use crate::fault::FrameFault;
use crate::node::{Cause, Mode, RingPort};

impl Mode {
    /// Its word in texts, `H`, `N` or `U`.
    pub fn word(self) -> &'static str
        ensures { result.now ≡ mode_word self }
    {
        match self {
            Mode::H => "H",
            Mode::N => "N",
            Mode::U => "U",
        }
    }

    /// The mode whose word this is.
    /// Any other word, also one in small letters, is none.
    #[tactic(auto, using(crate::proofs::Spelled::mode_again))]
    pub fn from_word(word: &[u8]) -> Option<Mode>
        ensures value { result ≡ mode_of word.now }
        ensures again { (mode : Mode) → mode_of (mode_word mode) ≡ Some mode }
        ensures exact { IfSome result (λ mode. word.now ≡ mode_word mode) }
    {
        if word == b"H".as_slice() {
            Some(Mode::H)
        } else if word == b"N".as_slice() {
            Some(Mode::N)
        } else if word == b"U".as_slice() {
            Some(Mode::U)
        } else {
            None
        }
    }
}

impl RingPort {
    /// Its letter as a word, `A` or `B`.
    pub fn word(self) -> &'static str
        ensures { result.now ≡ port_word self }
    {
        match self {
            RingPort::A => "A",
            RingPort::B => "B",
        }
    }

    /// The ring port whose letter this word is.
    /// Any other word is none.
    #[tactic(auto, using(crate::proofs::Spelled::port_again))]
    pub fn from_word(word: &[u8]) -> Option<RingPort>
        ensures value { result ≡ port_of word.now }
        ensures again { (port : RingPort) → port_of (port_word port) ≡ Some port }
    {
        if word == b"A".as_slice() {
            Some(RingPort::A)
        } else if word == b"B".as_slice() {
            Some(RingPort::B)
        } else {
            None
        }
    }
}

impl FrameFault {
    /// The fault that has this number in texts, 1 to 6.
    /// Any other number is none.
    #[tactic(auto, using(crate::proofs::Spelled::fault_again))]
    pub fn from_code(code: u64) -> Option<FrameFault>
        ensures value { result ≡ fault_of code }
        ensures again { (fault : FrameFault) → fault_of (frame_fault_code fault) ≡ Some fault }
    {
        match code {
            1 => Some(FrameFault::Short),
            2 => Some(FrameFault::Long),
            3 => Some(FrameFault::GroupSource),
            4 => Some(FrameFault::DoubleVlan),
            5 => Some(FrameFault::ShortTag),
            6 => Some(FrameFault::NestedTag),
            _ => None,
        }
    }
}

impl Cause {
    /// Its word in texts. That of octets that are no frame is `malformed`, without the number of their fault.
    pub fn word(self) -> &'static str
        ensures { result.now ≡ cause_word self }
    {
        match self {
            Cause::Passed => "passed",
            Cause::Duplicate => "duplicate",
            Cause::Returned => "returned",
            Cause::Foreign => "foreign",
            Cause::Local => "local",
            Cause::Untagged => "untagged",
            Cause::Tagged => "tagged",
            Cause::Malformed(_) => "malformed",
        }
    }

    /// The fault of octets that are no frame.
    pub fn fault(self) -> Option<FrameFault>
        ensures { result ≡ fault_in self }
    {
        match self {
            Cause::Malformed(fault) => Some(fault),
            Cause::Passed
            | Cause::Duplicate
            | Cause::Returned
            | Cause::Foreign
            | Cause::Local
            | Cause::Untagged
            | Cause::Tagged => None,
        }
    }

    /// The cause that has this word, and this fault or none.
    #[tactic(auto, using(crate::proofs::Spelled::cause_again))]
    pub fn from_word(word: &[u8], fault: Option<FrameFault>) -> Option<Cause>
        ensures value { result ≡ cause_of word.now fault }
        ensures again { (cause : Cause)
            → cause_of (cause_word cause) (fault_in cause) ≡ Some cause }
    {
        // A fault goes with `malformed` alone, and `malformed` with a fault alone.
        if let Some(fault) = fault {
            return if word == b"malformed".as_slice() {
                Some(Cause::Malformed(fault))
            } else {
                None
            };
        }
        if word == b"passed".as_slice() {
            Some(Cause::Passed)
        } else if word == b"duplicate".as_slice() {
            Some(Cause::Duplicate)
        } else if word == b"returned".as_slice() {
            Some(Cause::Returned)
        } else if word == b"foreign".as_slice() {
            Some(Cause::Foreign)
        } else if word == b"local".as_slice() {
            Some(Cause::Local)
        } else if word == b"untagged".as_slice() {
            Some(Cause::Untagged)
        } else if word == b"tagged".as_slice() {
            Some(Cause::Tagged)
        } else {
            None
        }
    }
}
