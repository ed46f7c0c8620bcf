//! Why nothing is written, and the line that says it.
ghost use Rattle.std.specs.Prelude.{◌≡◌, ◌++◌, IfOk, OnOk};
ghost use Rattle.hsr_tap.specs.Fault.{capture_word, capture_words, fault_line, fault_words, lines_words, stimuli_words};

use hsr_capture_reader::{CaptureFault, ReadFault, Refusal};
use hsr_expected::ExpectedFault;
use hsr_frame::NoMemory;
use hsr_health::HealthFault;
use hsr_judging_text::{JudgeFault, put_judge_fault};
use hsr_node_lines::LinesFault;
use hsr_stimuli::NoStimuli;
use hsr_tap_device::{DeviceFault, put_device_fault};
use hsr_text::{InputFault, put, put_count};
use hsr_toml::put_shown;
use std::alloc::Global;

/// Why nothing is written.
#[derive(Drop)]
pub enum Fault {
    /// The capture can't be read, at this offset.
    Capture(Refusal),
    /// There is no file that describes the device.
    NoDevice,
    /// The document describes no device.
    Device(DeviceFault),
    /// The packets of the capture have no lines.
    Lines(LinesFault),
    /// The device has no stimuli.
    Stimuli(NoStimuli),
    /// The device can't be judged by the capture.
    Judge(JudgeFault),
    /// The capture has frames of too many sources.
    Sources,
    /// There is no file of the plan whose sources are expected.
    NoPlanFile,
    /// That file has no plan.
    NoPlan,
    /// The reader failed.
    Read,
    /// The writer failed.
    Write,
    /// Memory ran out.
    Memory,
}

impl From<NoMemory> for Fault {
    ghost use Rattle.std.specs.Prelude.{◌≡◌};
    ghost use Rattle.hsr_tap.specs.declared.fault.Fault.TheVariants.{Memory as NoRoom};

    ghost from_gives = { λ _ fault. fault ≡ NoRoom };

    fn from(_refused: NoMemory) -> Fault {
        Fault::Memory
    }
}

impl From<InputFault> for Fault {
    ghost use Rattle.std.specs.Prelude.{◌≡◌};
    ghost use Rattle.hsr_tap.specs.Fault.{input_fault};

    ghost from_gives = { λ refused fault. fault ≡ input_fault refused };

    fn from(refused: InputFault) -> Fault {
        match refused {
            InputFault::Read => Fault::Read,
            InputFault::Memory => Fault::Memory,
        }
    }
}

impl From<ReadFault> for Fault {
    ghost use Rattle.std.specs.Prelude.{◌≡◌};
    ghost use Rattle.hsr_tap.specs.Fault.{read_fault};

    ghost from_gives = { λ refused fault. fault ≡ read_fault refused };

    fn from(refused: ReadFault) -> Fault {
        match refused {
            ReadFault::Refused(refusal) => Fault::Capture(refusal),
            ReadFault::NoMemory => Fault::Memory,
        }
    }
}

impl From<DeviceFault> for Fault {
    ghost use Rattle.std.specs.Prelude.{◌≡◌};
    ghost use Rattle.hsr_tap.specs.Fault.{device_fault};

    ghost from_gives = { λ refused fault. fault ≡ device_fault refused };

    fn from(refused: DeviceFault) -> Fault {
        match refused {
            DeviceFault::NoMemory => Fault::Memory,
            refused => Fault::Device(refused),
        }
    }
}

impl From<LinesFault> for Fault {
    ghost use Rattle.std.specs.Prelude.{◌≡◌};
    ghost use Rattle.hsr_tap.specs.Fault.{lines_fault};

    ghost from_gives = { λ refused fault. fault ≡ lines_fault refused };

    fn from(refused: LinesFault) -> Fault {
        match refused {
            LinesFault::NoMemory => Fault::Memory,
            refused => Fault::Lines(refused),
        }
    }
}

impl From<NoStimuli> for Fault {
    ghost use Rattle.std.specs.Prelude.{◌≡◌};
    ghost use Rattle.hsr_tap.specs.Fault.{stimuli_fault};

    ghost from_gives = { λ refused fault. fault ≡ stimuli_fault refused };

    fn from(refused: NoStimuli) -> Fault {
        match refused {
            NoStimuli::NoMemory => Fault::Memory,
            refused => Fault::Stimuli(refused),
        }
    }
}

impl From<HealthFault> for Fault {
    ghost use Rattle.std.specs.Prelude.{◌≡◌};
    ghost use Rattle.hsr_tap.specs.Fault.{health_fault};

    ghost from_gives = { λ refused fault. fault ≡ health_fault refused };

    fn from(refused: HealthFault) -> Fault {
        match refused {
            HealthFault::Sources => Fault::Sources,
            HealthFault::Memory => Fault::Memory,
        }
    }
}

impl From<JudgeFault> for Fault {
    ghost use Rattle.std.specs.Prelude.{◌≡◌};
    ghost use Rattle.hsr_tap.specs.Fault.{judge_fault};

    ghost from_gives = { λ refused fault. fault ≡ judge_fault refused };

    fn from(refused: JudgeFault) -> Fault {
        match refused {
            JudgeFault::NoMemory => Fault::Memory,
            refused => Fault::Judge(refused),
        }
    }
}

impl From<ExpectedFault> for Fault {
    ghost use Rattle.std.specs.Prelude.{◌≡◌};
    ghost use Rattle.hsr_tap.specs.Fault.{expected_fault};

    ghost from_gives = { λ refused fault. fault ≡ expected_fault refused };

    fn from(refused: ExpectedFault) -> Fault {
        match refused {
            ExpectedFault::NoPlan => Fault::NoPlan,
            ExpectedFault::NoMemory => Fault::Memory,
        }
    }
}

/// The word of what is wrong with a capture.
fn capture_word(fault: CaptureFault) -> &'static str
    ensures { result.now ≡ capture_word fault }
{
    match fault {
        CaptureFault::TooLarge => "too-large",
        CaptureFault::Gzip => "gzip",
        CaptureFault::Magic => "magic",
        CaptureFault::Header => "header",
        CaptureFault::Block => "block",
        CaptureFault::ByteOrder => "byte-order",
        CaptureFault::Version => "version",
        CaptureFault::Interface => "interface",
        CaptureFault::Packet => "packet",
        CaptureFault::Interfaces => "interfaces",
        CaptureFault::Packets => "packets",
    }
}

/// Puts what is wrong with a capture, and where.
fn put_refusal(line: &mut Vec<u8>, refusal: &Refusal) -> Result<(), NoMemory>
    ensures { OnOk result (line.new.items ≡ line.old.items ++ capture_words refusal.now) }
{
    put_count(line, b"capture ", refusal.offset as u64)?;
    put(line, " ")?;
    put(line, capture_word(refusal.fault))
}

/// Puts why packets have no lines.
fn put_lines_fault(line: &mut Vec<u8>, fault: &LinesFault) -> Result<(), NoMemory>
    ensures { OnOk result (line.new.items ≡ line.old.items ++ lines_words fault.now) }
{
    match fault {
        LinesFault::Role => put(line, "device role lines-are-of-a-danh"),
        LinesFault::Link(link) => put_count(line, b"device interface link ", u64::from(*link)),
        LinesFault::NoSuchName(name) => {
            put(line, "device interface no-such-name ")?;
            put_shown(line, name.as_slice())
        }
        LinesFault::NoDirection(packet) => put_count(
            line,
            b"device interface no-direction packet ",
            u64::from(*packet),
        ),
        LinesFault::NoMemory => put(line, "memory"),
    }
}

/// The words of why a device has no stimuli.
fn stimuli_words(fault: NoStimuli) -> &'static str
    ensures { result.now ≡ stimuli_words fault }
{
    match fault {
        NoStimuli::NoPlace => "device mac bad-value",
        NoStimuli::NoTable => "device table bad-value",
        NoStimuli::TooLong => "too-long",
        NoStimuli::NoMemory => "memory",
    }
}

/// Puts the words of a fault.
fn put_words(line: &mut Vec<u8>, fault: &Fault) -> Result<(), NoMemory>
    ensures { OnOk result (line.new.items ≡ line.old.items ++ fault_words fault.now) }
{
    match fault {
        Fault::Capture(refusal) => put_refusal(line, refusal),
        Fault::NoDevice => put(line, "device top read"),
        Fault::Device(fault) => {
            put(line, "device ")?;
            put_device_fault(line, fault)
        }
        Fault::Lines(fault) => put_lines_fault(line, fault),
        Fault::Stimuli(fault) => put(line, stimuli_words(*fault)),
        Fault::Judge(fault) => {
            put(line, "device ")?;
            put_judge_fault(line, fault)
        }
        Fault::Sources => put(line, "capture 0 sources"),
        Fault::NoPlanFile => put(line, "expect read"),
        Fault::NoPlan => put(line, "expect plan"),
        Fault::Read => put(line, "read"),
        Fault::Write => put(line, "write"),
        Fault::Memory => put(line, "memory"),
    }
}

/// The line of a fault, with its line feed. `NoMemory` where room for it is refused.
pub(crate) fn fault_line(alloc: Global, fault: &Fault) -> Result<Vec<u8>, NoMemory>
    ensures { IfOk result (λ line. line.items ≡ fault_line fault.now) }
{
    let mut line = Vec::new(alloc);
    put(&mut line, "fault: ")?;
    put_words(&mut line, fault)?;
    put(&mut line, "\n")?;
    Ok(line)
}
