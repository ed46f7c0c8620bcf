//! How many entries a run needed, in the words of a report.
ghost use Rattle.std.specs.Prelude.{◌≡◌, ◌++◌, OnOk};
ghost use Rattle.hsr_report.specs.Report.{met_text, needed_line};

use hsr_audit::Needed;
use hsr_frame::NoMemory;
use hsr_naming::Naming;
use hsr_text::{put, put_count};

/// Puts where the most entries were needed first, if any were.
fn put_met(text: &mut Vec<u8>, naming: &Naming, at: Option<(usize, usize)>) -> Result<(), NoMemory>
    ensures { OnOk result (text.new.items ≡ text.old.items ++ met_text naming.now at) }
{
    match at {
        None => Ok(()),
        Some((node, place)) => {
            put(text, " ")?;
            naming.put_entry(text, node, place)
        }
    }
}

/// Puts the line of how many entries were needed (RULES, The report). `NoMemory` if allocation fails; a front of the
/// line may stand there then.
pub fn put_needed(text: &mut Vec<u8>, naming: &Naming, needed: Needed) -> Result<(), NoMemory>
    ensures { OnOk result (text.new.items ≡ text.old.items ++ needed_line naming.now needed) }
{
    put_count(text, b"needed ", needed.entries as u64)?;
    put_met(text, naming, needed.at)?;
    put(text, "\n")
}
