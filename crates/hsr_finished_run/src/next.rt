//! The places of records at which a worker's entries come next.
ghost use Rattle.std.specs.Prelude.{◌≡◌, ◌++◌, [], ◌∷◌, IfOk, MatchOption, OnOk};
ghost use Rattle.hsr_finished_run.specs.Next.{AreFirst, IsNext, holds_from};

use hsr_frame::NoMemory;
use hsr_node::Entry;
use std::alloc::Global;

/// The first place from `from` on at which an entry of this worker stands; `None` where none does.
pub fn next_place(entries: &[Entry], worker: u16, from: usize) -> Option<usize>
    ensures { MatchOption result (holds_from worker entries.now from
        ≡ []) (λ place. IsNext worker entries.now from place) }
{
    for place in from..entries.len() {
        if entries[place].worker == worker {
            return Some(place);
        }
    }
    None
}

fn add_place(next: &mut Vec<usize>) -> Result<(), NoMemory>
    ensures { OnOk result (next.new.items ≡ next.old.items ++ 0 ∷ []) }
{
    next.push(0)?;
    Ok(())
}

/// The first place of each of `count` records: 0. `NoMemory` if allocation fails.
#[tactic(auto, using(crate::proofs::Coming::first_more))]
pub fn first_places(alloc: Global, count: usize) -> Result<Vec<usize>, NoMemory>
    ensures { IfOk result (λ next. AreFirst count next.items) }
{
    let mut next = Vec::new(alloc);
    for node in 0..count {
        add_place(&mut next)?;
    }
    Ok(next)
}
