//! The list of stimuli: a line for each, and how often each cause was reached.
ghost use Rattle.std.specs.Prelude.{◌≡◌, ◌++◌, [], ◌∷◌, codes, IfOk, OnOk};
ghost use Rattle.std.specs.List.{flat_map};
ghost use Rattle.hsr_stimuli.specs.Telling.{all_causes, answer_text, cause_text, head_text, judged_text, line, lines_from, list_text, number_text, port_text, ports_text, reached_line, reached_text, untried_start, untried_table};

use crate::memory::can_fill;
use crate::playing::{Tried, reached, unlike};
use hsr_frame::{Cause, FrameFault, NoMemory};
use hsr_node::{Outcome, Place, StepFault};
use hsr_text::{put, put_count, put_number};
use std::alloc::Global;

/// All causes, in the order in which a list tells them.
#[tactic(auto, unfolding(crate::specs::Telling::all_causes))]
fn all_causes() -> [Cause; 13]
    ensures { result ≡ all_causes }
{
    [
        Cause::Passed,
        Cause::Duplicate,
        Cause::Returned,
        Cause::Foreign,
        Cause::Local,
        Cause::Untagged,
        Cause::Tagged,
        Cause::Malformed(FrameFault::Short),
        Cause::Malformed(FrameFault::Long),
        Cause::Malformed(FrameFault::GroupSource),
        Cause::Malformed(FrameFault::DoubleVlan),
        Cause::Malformed(FrameFault::ShortTag),
        Cause::Malformed(FrameFault::NestedTag),
    ]
}

/// Puts a cause last.
fn put_cause(text: &mut Vec<u8>, cause: Cause) -> Result<(), NoMemory>
    ensures { OnOk result (text.new.items ≡ text.old.items ++ cause_text cause) }
{
    match cause.fault() {
        Some(fault) => put_count(text, b"malformed-", u64::from(fault.code())),
        None => put(text, cause.word()),
    }
}

/// Puts a port's letter behind a space, if a copy leaves by it.
fn put_port(text: &mut Vec<u8>, place: &Place, port: u8, leaves: bool) -> Result<(), NoMemory>
    ensures { OnOk result (text.new.items ≡ text.old.items ++ port_text place.now port leaves) }
{
    if leaves {
        put(text, " ")?;
        text.push(place.letter(port))?;
    }
    Ok(())
}

/// Puts the ports last by which copies leave.
fn put_ports(text: &mut Vec<u8>, place: &Place, ports: [bool; 4]) -> Result<(), NoMemory>
    ensures { OnOk result (text.new.items ≡ text.old.items ++ ports_text place.now 0 ports) }
{
    let [a, b, c, d] = ports;
    put_port(text, place, 0, a)?;
    put_port(text, place, 1, b)?;
    put_port(text, place, 2, c)?;
    put_port(text, place, 3, d)
}

/// Puts the number last that a frame got, if it got one.
fn put_seq(text: &mut Vec<u8>, seq: Option<u16>) -> Result<(), NoMemory>
    ensures { OnOk result (text.new.items ≡ text.old.items ++ number_text seq) }
{
    match seq {
        Some(seq) => put_count(text, b" number ", u64::from(seq)),
        None => Ok(()),
    }
}

/// Puts a judgement last.
#[tactic(auto, unfolding(crate::specs::Telling::judged_text))]
fn put_judged(
    text: &mut Vec<u8>,
    place: &Place,
    up: bool,
    ports: [bool; 4],
    seq: Option<u16>,
    cause: Cause,
) -> Result<(), NoMemory>
    ensures { OnOk result (text.new.items ≡ text.old.items
        ++ judged_text place.now up ports seq cause) }
{
    put_cause(text, cause)?;
    put(text, if up { " up" } else { "" })?;
    put_ports(text, place, ports)?;
    put_seq(text, seq)
}

/// Puts an answer last.
fn put_answer(
    text: &mut Vec<u8>,
    place: &Place,
    answer: &Result<Outcome, StepFault>,
) -> Result<(), NoMemory>
    ensures { OnOk result (text.new.items ≡ text.old.items ++ answer_text place.now answer.now) }
{
    match *answer {
        Ok(
            Outcome::Judged {
                up,
                ports,
                seq,
                cause,
            },
        ) => put_judged(text, place, up, ports, seq, cause),
        _ => put(text, "refused"),
    }
}

/// Puts last which stimulus it is, and when and where it comes.
#[tactic(auto, unfolding(crate::specs::Telling::head_text))]
fn put_head(text: &mut Vec<u8>, place: &Place, n: u64, tried: &Tried) -> Result<(), NoMemory>
    ensures { OnOk result (text.new.items ≡ text.old.items ++ head_text place.now n tried.now) }
{
    put_count(text, b"packet ", n)?;
    put_count(text, b" at ", tried.stimulus.at)?;
    put(text, " ")?;
    text.push(place.letter(tried.stimulus.port))?;
    put(text, " ")
}

/// Puts the line of a stimulus last.
#[tactic(auto, unfolding(crate::specs::Telling::line))]
fn put_line(text: &mut Vec<u8>, place: &Place, n: u64, tried: &Tried) -> Result<(), NoMemory>
    ensures { OnOk result (text.new.items ≡ text.old.items ++ line place.now n tried.now) }
{
    put_head(text, place, n, tried)?;
    put(text, tried.stimulus.rule.word())?;
    put(text, " ")?;
    put_answer(text, place, &tried.answer)?;
    put(text, "\n")
}

/// Puts the lines of stimuli last.
#[tactic(auto, using(crate::proofs::Growing::lines_step))]
fn put_lines(text: &mut Vec<u8>, place: &Place, list: &[Tried]) -> Result<(), NoMemory>
    ensures { OnOk result (text.new.items ≡ text.old.items ++ lines_from place.now 1 list.now) }
{
    for (i, tried) in list.iter().enumerate() {
        put_line(text, place, i as u64 + 1, tried)?;
    }
    Ok(())
}

/// Puts last that a table is too large to be filled, if it is.
fn put_untried_table(text: &mut Vec<u8>, entries: u16) -> Result<(), NoMemory>
    ensures { OnOk result (text.new.items ≡ text.old.items ++ untried_table entries) }
{
    if can_fill(entries) {
        return Ok(());
    }
    put_count(text, b"not-tried table ", u64::from(entries))?;
    put(text, "\n")
}

/// Puts last that a RedBox's first number isn't known, if it isn't.
fn put_untried_start(text: &mut Vec<u8>, place: &Place, start: Option<u16>) -> Result<(), NoMemory>
    ensures { OnOk result (text.new.items ≡ text.old.items ++ untried_start place.now start) }
{
    match (place, start) {
        (Place::RedBox { .. }, None) => put(text, "not-tried came-back start\n"),
        _ => Ok(()),
    }
}

/// Puts last how often a cause was reached.
fn put_reached(text: &mut Vec<u8>, list: &[Tried], cause: Cause) -> Result<(), NoMemory>
    ensures { OnOk result (text.new.items ≡ text.old.items ++ reached_text list.now cause) }
{
    put(text, " ")?;
    put_cause(text, cause)?;
    put(text, " ")?;
    put_number(text, reached(cause, list) as u64)
}

/// Puts last how often each of some causes was reached.
fn put_all_reached(text: &mut Vec<u8>, list: &[Tried], causes: &[Cause]) -> Result<(), NoMemory>
    ensures { OnOk result (text.new.items ≡ text.old.items
        ++ flat_map (reached_text list.now) causes.now) }
{
    for cause in causes {
        put_reached(text, list, *cause)?;
    }
    Ok(())
}

/// Puts the last line of a list.
#[tactic(auto, unfolding(crate::specs::Telling::reached_line))]
fn put_reached_line(text: &mut Vec<u8>, place: &Place, list: &[Tried]) -> Result<(), NoMemory>
    ensures { OnOk result (text.new.items ≡ text.old.items ++ reached_line place.now list.now) }
{
    put(text, "reached")?;
    put_all_reached(text, list, &all_causes())?;
    put_count(text, b" unlike ", unlike(place, list) as u64)?;
    put(text, "\n")
}

/// The list of stimuli with their answers, for a device at a place, with tables of so many entries, and its first number, if that is
/// known. `NoMemory` where room is refused.
#[tactic(auto, unfolding(crate::specs::Telling::list_text))]
pub fn list_text(
    alloc: Global,
    place: &Place,
    entries: u16,
    start: Option<u16>,
    list: &[Tried],
) -> Result<Vec<u8>, NoMemory>
    ensures { IfOk result (λ text. text.items ≡ list_text place.now entries start list.now) }
{
    let mut text = Vec::new(alloc);
    put_lines(&mut text, place, list)?;
    put_untried_table(&mut text, entries)?;
    put_untried_start(&mut text, place, start)?;
    put_reached_line(&mut text, place, list)?;
    Ok(text)
}
