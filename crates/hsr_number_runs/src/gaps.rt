//! Numbers of a run that never came.
ghost use Rattle.std.specs.Prelude.{◌≡◌, ◌++◌, option_to_list, IfOk, OnOk};
ghost use Rattle.hsr_number_runs.specs.Gaps.{gap_between, gap_in_front, gaps_in};

use crate::run::InRun;
use hsr_frame::NoMemory;
use std::alloc::Global;

/// Numbers of a run that never came, all those between two that did. It is told at the copy behind it.
#[derive(Clone, Copy, PartialEq, Eq)]
pub struct Gap {
    pub group: u32,
    /// Who sent the number behind it.
    pub sender: u32,
    pub first: u16,
    pub last: u16,
    pub missing: u64,
    /// The copy behind it, and when it came.
    pub copy: u32,
    pub at: u64,
}

/// The gap between two numbers that follow one another in order.
fn gap_between(before: InRun, behind: InRun) -> Option<Gap>
    ensures { result ≡ gap_between before behind }
{
    if before.run != behind.run || behind.extended <= before.extended.saturating_add(1) {
        return None;
    }
    Some(Gap {
        group: behind.group,
        sender: behind.sender,
        first: ((before.extended + 1) % 65536) as u16,
        last: ((behind.extended - 1) % 65536) as u16,
        missing: behind.extended - before.extended - 1,
        copy: behind.copy,
        at: behind.at,
    })
}

/// The gap in front of a number, if another one stands in front of it.
fn gap_in_front(last: Option<InRun>, behind: InRun) -> Option<Gap>
    ensures { result ≡ gap_in_front last behind }
{
    match last {
        None => None,
        Some(before) => gap_between(before, behind),
    }
}

/// Puts a gap behind others, if there is one.
fn put_gap(gaps: &mut Vec<Gap>, gap: Option<Gap>) -> Result<(), NoMemory>
    ensures { OnOk result (gaps.new.items ≡ gaps.old.items ++ option_to_list gap) }
{
    if let Some(gap) = gap {
        gaps.push(gap)?;
    }
    Ok(())
}

/// The gaps of all runs, where numbers are in the order of runs, and extended numbers in each. `NoMemory` where room is refused.
pub fn gaps_of(alloc: Global, in_runs: &[InRun]) -> Result<Vec<Gap>, NoMemory>
    ensures { IfOk result (λ gaps. gaps.items ≡ gaps_in in_runs.now) }
{
    let mut gaps = Vec::new(alloc);
    let mut last: Option<InRun> = None;
    for behind in in_runs {
        put_gap(&mut gaps, gap_in_front(last, *behind))?;
        last = Some(*behind);
    }
    Ok(gaps)
}
