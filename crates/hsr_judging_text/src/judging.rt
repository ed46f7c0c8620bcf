//! A device and a capture, judged.
ghost use Rattle.std.specs.Prelude.{◌≡◌, ◌++◌, IfErr, IfOk, OnOk, codes, true};
ghost use Rattle.hsr_duptable.specs.Table.{IsTableSize};
ghost use Rattle.hsr_judging.specs.Judged.{judged};
ghost use Rattle.hsr_table_size.specs.Sizes.{capacity_of};
ghost use Rattle.hsr_tap_passages.specs.Shown.{shown_view};
ghost use Rattle.hsr_judging_text.specs.Judging.{IsNoVerdict, IsTableFault, IsVerdict, judge_fault_words, passage_fault};
ghost use Rattle.hsr_judging_text.specs.Report.{PutsReport};
ghost use Rattle.hsr_judging_text.specs.Verdicts.{has_table, judged_by, verdict_of};
ghost use Rattle.hsr_judging_text.specs.declared.judging.JudgeFault.TheVariants.{NoMemory as NoRoom};

use crate::report::{Showing, put_report};
use hsr_capture_reader::{Interface, Packet};
use hsr_frame::NoMemory;
use hsr_judging::judgement_of;
use hsr_table_size::{TableSize, at_size};
use hsr_tap_device::Device;
use hsr_tap_passages::{PassageFault, Shown, put_passage_fault, shown_of};
use hsr_text::put;
use std::alloc::Global;

/// Why a device can't be judged by a capture.
#[derive(Drop)]
pub enum JudgeFault {
    /// The capture doesn't fit what is said of the device.
    Passages(PassageFault),
    /// There are no duplicate tables of so many entries.
    Table,
    /// Room was refused.
    NoMemory,
}

// `from_gives` says which fault `?` makes, so that each fault is told from the others.
impl From<NoMemory> for JudgeFault {
    ghost from_gives = { λ _ fault. fault ≡ NoRoom };

    fn from(_refused: NoMemory) -> JudgeFault {
        JudgeFault::NoMemory
    }
}

impl From<PassageFault> for JudgeFault {
    ghost from_gives = { λ refused fault. fault ≡ passage_fault refused };

    fn from(refused: PassageFault) -> JudgeFault {
        match refused {
            PassageFault::NoMemory => JudgeFault::NoMemory,
            refused => JudgeFault::Passages(refused),
        }
    }
}

/// Puts the words of a fault last, as they stand behind `fault: device `. `NoMemory` where room is refused.
pub fn put_judge_fault(line: &mut Vec<u8>, fault: &JudgeFault) -> Result<(), NoMemory>
    ensures { OnOk result (line.new.items ≡ line.old.items ++ judge_fault_words fault.now) }
{
    match fault {
        JudgeFault::Passages(fault) => put_passage_fault(line, fault),
        JudgeFault::Table => put(line, "table bad-value"),
        JudgeFault::NoMemory => put(line, "memory"),
    }
}

/// What is judged, and what is shown of it.
#[derive(Clone, Copy)]
struct Case<'a> {
    device: &'a Device,
    interfaces: &'a [Interface<'a>],
    shown: &'a Shown,
    showing: Showing,
}

/// The report on a device with tables of `C` entries, and whether it conforms.
fn reported<const C: usize>(
    alloc: Global,
    text: &mut Vec<u8>,
    case: &Case<'_>,
) -> Result<bool, JudgeFault>
    requires { IsTableSize C }
    ensures said { IfOk result (λ said. said
        ≡ verdict_of (judged C case.now.device.now case.now.shown.now.taps case.now.shown.now.passages.items case.now.shown.now.end)) }
    ensures report { OnOk result (PutsReport case.now.showing case.now.device.now case.now.interfaces.now
        (shown_view case.now.shown.now) case.now.shown.now.taps
        (judged C case.now.device.now case.now.shown.now.taps case.now.shown.now.passages.items case.now.shown.now.end)
        text.old.items text.new.items) }
    ensures room { IfErr result (λ fault. fault ≡ NoRoom) }
{
    let shown = case.shown;
    let judgement = judgement_of::<C>(
        alloc,
        case.device,
        &shown.taps,
        shown.passages.as_slice(),
        shown.end,
    )?;
    let conforms = put_report(
        alloc,
        text,
        case.device,
        case.interfaces,
        shown,
        &judgement,
        case.showing,
    )?;
    Ok(conforms)
}

/// The report on a device with tables of a size that `--table` has.
fn with_table(
    alloc: Global,
    text: &mut Vec<u8>,
    table: TableSize,
    case: &Case<'_>,
) -> Result<bool, JudgeFault>
    ensures said { IfOk result (λ said. said
        ≡ verdict_of (judged (capacity_of table) case.now.device.now case.now.shown.now.taps case.now.shown.now.passages.items case.now.shown.now.end)) }
    ensures report { OnOk result (PutsReport case.now.showing case.now.device.now case.now.interfaces.now
        (shown_view case.now.shown.now) case.now.shown.now.taps
        (judged (capacity_of table) case.now.device.now case.now.shown.now.taps case.now.shown.now.passages.items case.now.shown.now.end)
        text.old.items text.new.items) }
    ensures room { IfErr result (λ fault. fault ≡ NoRoom) }
{
    at_size!(table => reported[](alloc, text, case))
}

/// The report on a device with tables of as many entries as it has: 1, 2, or a size that `--table` has. `Table` where there are none of
/// so many.
#[tactic(auto, using(crate::proofs::Judged::has_size, crate::proofs::Judged::has_no_size, crate::proofs::Judged::no_room))]
fn with_own_table(alloc: Global, text: &mut Vec<u8>, case: &Case<'_>) -> Result<bool, JudgeFault>
    ensures said { IfOk result (λ said. said
        ≡ verdict_of (judged_by case.now.device.now case.now.shown.now.taps case.now.shown.now.passages.items case.now.shown.now.end)) }
    ensures report { OnOk result (PutsReport case.now.showing case.now.device.now case.now.interfaces.now
        (shown_view case.now.shown.now) case.now.shown.now.taps
        (judged_by case.now.device.now case.now.shown.now.taps case.now.shown.now.passages.items case.now.shown.now.end)
        text.old.items text.new.items) }
    ensures table { IfOk result (λ _. has_table case.now.device.now.table ≡ true) }
    ensures fault { IfErr result (λ fault. IsTableFault case.now.device.now.table fault) }
{
    let device = case.device;
    match device.table {
        1 => reported::<1>(alloc, text, case),
        2 => reported::<2>(alloc, text, case),
        entries => match TableSize::from_capacity(u64::from(entries)) {
            Some(table) => with_table(alloc, text, table, case),
            None => Err(JudgeFault::Table),
        },
    }
}

/// Judges a device by a capture: its interfaces, its packets in the order of time, and the latest end that it says. Puts the report last, and
/// gives whether the device conforms. `Passages` where the capture doesn't fit the device, then `Table` where its tables have other than 1,
/// 2, 4, .. 32768 or 65535 entries; `NoMemory` where room is refused.
#[tactic(auto, using(crate::proofs::Judged::unfit, crate::proofs::Judged::no_verdict))]
pub fn judge<'a>(
    alloc: Global,
    text: &mut Vec<u8>,
    device: &'a Device,
    interfaces: &'a [Interface<'a>],
    packets: &[Packet<'_>],
    end: u64,
    showing: Showing,
) -> Result<bool, JudgeFault>
    ensures verdict { IfOk result (λ said. IsVerdict device.now interfaces.now packets.now end showing
        text.old.items text.new.items said) }
    ensures fault { IfErr result (λ fault. IsNoVerdict device.now interfaces.now packets.now end fault) }
{
    let shown = shown_of(alloc, device, interfaces, packets, end)?;
    let case = Case {
        device,
        interfaces,
        shown: &shown,
        showing,
    };
    Ok(with_own_table(alloc, text, &case)?)
}
