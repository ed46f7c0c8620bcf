//! The first place of all records where something is forgotten, mistaken or numbered late.
ghost use Rattle.std.specs.Prelude.{◌≡◌, IfOk};
ghost use Rattle.hsr_table_flaws.specs.Flaws.{IsFirstFlaw, first_after};

use crate::clear::is_clear;
use crate::flaw::Flaw;
use crate::looking::firsts_of;
use hsr_finished_run::Closed;
use hsr_frame::NoMemory;
use std::alloc::Global;

/// The first place of nodes, after one more node.
fn first_after(
    first: Option<(usize, usize)>,
    node: usize,
    here: Option<usize>,
) -> Option<(usize, usize)>
    ensures { result ≡ first_after first node here }
{
    match (first, here) {
        (Some(at), _) => Some(at),
        (None, Some(place)) => Some((node, place)),
        (None, None) => None,
    }
}

/// Where a finished run forgot first what was needed, or else mistook a number first, or else gave a number late first:
/// by node, and then by place. Nothing, where each arrival at a port of a ring finds the notes of its send at the
/// egresses that it wants, and none of another send with its source and number, and no RedBox numbers a frame of its
/// Station whose send it noted before (IEC 62439-3 clause 5). `NoMemory` if allocation fails.
pub fn first_flaw<const C: usize>(
    alloc: Global,
    closed: &Closed<C>,
) -> Result<Option<Flaw>, NoMemory>
    ensures { IfOk result (IsFirstFlaw closed.now.run) }
{
    // Mostly one look at each entry tells that there is none, so that no notes are gathered.
    if is_clear(alloc, closed)? {
        return Ok(None);
    }
    let mut forgot: Option<(usize, usize)> = None;
    let mut mistaken: Option<(usize, usize)> = None;
    let mut late: Option<(usize, usize)> = None;
    // One walk finds all three kinds; which of them counts is known only behind all records.
    for node in 0..closed.topology().places().len() {
        let firsts = firsts_of(alloc, closed, node)?;
        forgot = first_after(forgot, node, firsts.forgot);
        mistaken = first_after(mistaken, node, firsts.mistaken);
        late = first_after(late, node, firsts.late);
    }
    match (forgot, mistaken, late) {
        (Some((node, place)), _, _) => Ok(Some(Flaw::Forgot { node, place })),
        (None, Some((node, place)), _) => Ok(Some(Flaw::Mistaken { node, place })),
        (None, None, Some((node, place))) => Ok(Some(Flaw::Late { node, place })),
        (None, None, None) => Ok(None),
    }
}
