//! Whether a duplicate table is large enough for what a run sent.
ghost use Rattle.std.specs.Prelude.{IfErr, IfOk};
ghost use Rattle.hsr_finished_run.specs.Finished.{IsFinished};
ghost use Rattle.hsr_run_laws.specs.Budget.{IsBudgetHeld};
ghost use Rattle.hsr_audit.specs.Budgeted.{IsEnough, IsFirstBreach, IsMost, IsOverspent};

use crate::breach::{Budget, BudgetFault};
use crate::late::first_late;
use crate::moments::send_moments;
use hsr_finished_run::Closed;
use hsr_frame::NoMemory;
use hsr_moments::Moments;
use hsr_run_laws::{boxless, budget_keeps, budget_tells, no_storm, once_in_budget};
use hsr_table_demand::{most_crowded, most_of};
use std::alloc::Global;

/// The budget of a run, or the first reason why the run isn't within it.
fn budget_of<const C: usize>(alloc: Global, closed: &Closed<C>) -> Result<Budget, BudgetFault>
    ensures finished { IsFinished closed.now }
    ensures held { IfOk result (λ b. IsBudgetHeld closed.now.run) }
    ensures most { IfOk result (λ b. IsMost closed.now.run b.most) }
    ensures first { IfErr result (IsFirstBreach closed.now.run) }
{
    let Ok(sends) = send_moments(alloc, closed) else {
        return Err(BudgetFault::NoMemory);
    };
    let Ok(moments) = Moments::new(alloc, closed) else {
        return Err(BudgetFault::NoMemory);
    };
    // A late arrival is named before a crowded window, whatever the moments (RULES, The report).
    if let Some((node, place)) = first_late(closed, &moments) {
        return Err(BudgetFault::Late { node, place });
    }
    match most_crowded(C, &sends) {
        Ok(most) => Ok(Budget { most }),
        Err(moment) => Err(BudgetFault::Crowded { moment }),
    }
}

/// Whether duplicate tables of C entries are large enough for what a finished run sent, and how many sends came together at
/// most. The run is within budget where each arrival's effective moment is its send's or less than 400000 microseconds
/// later, and in no 800000 microseconds from a send on there were more than C sends, of all nodes and of every kind. Else
/// the first late arrival is named, or the first crowded moment. `NoMemory` if allocation fails.
///
/// Within budget no table forgot an entry that was needed, in whatever order threads or drains moved the copies
/// (IEC 62439-3 clause 5), and no direction of a link carried a frame twice. That holds where there are no RedBoxes, and
/// where each RedBox numbers a frame of its Station before it hears of it. A ring of DANHs also mistook nothing, since a
/// closed run's tables have at most 65535 entries, fewer than there are sequence numbers; and where it lost copies on one
/// link at most it delivered each frame exactly once.
///
/// Not promised: the converse; a run may forget nothing without being in budget. Nor anything of another run of the same
/// sends: its copies may come later.
pub fn budget<const C: usize>(alloc: Global, closed: &Closed<C>) -> Result<Budget, BudgetFault>
    ensures held { IfOk result (λ b. IsBudgetHeld closed.now.run) }
    ensures most { IfOk result (λ b. IsMost closed.now.run b.most) }
    ensures enough { IfOk result (λ b. IsEnough closed.now.run) }
    ensures first { IfErr result (IsFirstBreach closed.now.run) }
    ensures refused { IfErr result (IsOverspent closed.now.run) }
{
    // Laws: they do nothing when they run, and give the clauses above their proofs.
    budget_keeps();
    budget_tells();
    once_in_budget();
    boxless();
    no_storm();
    budget_of(alloc, closed)
}

/// The greatest number of sends of all nodes and of every kind in the 800000 microseconds that begin at the effective
/// moment of a send; 0 where nothing was sent. A table with that many entries isn't crowded by this run. `NoMemory` if
/// allocation fails.
pub fn most_sends<const C: usize>(alloc: Global, closed: &Closed<C>) -> Result<usize, NoMemory>
    ensures { IfOk result (IsMost closed.now.run) }
{
    let sends = send_moments(alloc, closed)?;
    Ok(most_of(&sends))
}
