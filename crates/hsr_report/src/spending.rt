//! What a run spent of its tables, in the words of a report.
ghost use Rattle.std.specs.Prelude.{◌≡◌, ◌++◌, IfOk, OnOk};
ghost use Rattle.hsr_report.specs.Found.{IsSpending};
ghost use Rattle.hsr_report.specs.Report.{spending_line, spending_text};

use hsr_audit::{BudgetFault, budget};
use hsr_finished_run::Closed;
use hsr_frame::NoMemory;
use hsr_naming::Naming;
use hsr_text::{put, put_count, put_number};
use std::alloc::Global;

/// What a run spent of its tables.
#[derive(Clone, Copy, PartialEq, Eq)]
pub enum Spending {
    /// It is within budget, with this number of sends at most in 800 milliseconds.
    Within(usize),
    /// This arrival came too late.
    Late { node: usize, place: usize },
    /// From this moment on, in microseconds, there were more sends than a table has entries.
    Crowded { moment: u64 },
}

/// What a run spent of its tables. `NoMemory` if allocation fails.
pub fn spending_of<const C: usize>(alloc: Global, closed: &Closed<C>) -> Result<Spending, NoMemory>
    ensures { IfOk result (λ s. IsSpending closed.now.run s) }
{
    match budget(alloc, closed) {
        Ok(budget) => Ok(Spending::Within(budget.most)),
        Err(BudgetFault::Late { node, place }) => Ok(Spending::Late { node, place }),
        Err(BudgetFault::Crowded { moment }) => Ok(Spending::Crowded { moment }),
        Err(BudgetFault::NoMemory) => Err(NoMemory),
    }
}

/// Puts what a run spent of its tables last: a number, or why it isn't within budget. `NoMemory` if allocation fails; a front of it
/// may stand there then.
pub fn put_spent(text: &mut Vec<u8>, naming: &Naming, spending: Spending) -> Result<(), NoMemory>
    ensures { OnOk result (text.new.items ≡ text.old.items
        ++ spending_text naming.now spending) }
{
    match spending {
        Spending::Within(most) => put_number(text, most as u64),
        Spending::Late { node, place } => {
            put(text, "late ")?;
            naming.put_entry(text, node, place)
        }
        Spending::Crowded { moment } => put_count(text, b"crowded ", moment),
    }
}

/// Puts the line of the budget (RULES, The report). `NoMemory` if allocation fails; a front of the line may stand
/// there then.
pub fn put_spending(text: &mut Vec<u8>, naming: &Naming, spending: Spending) -> Result<(), NoMemory>
    ensures { OnOk result (text.new.items ≡ text.old.items
        ++ spending_line naming.now spending) }
{
    put(text, "budget ")?;
    put_spent(text, naming, spending)?;
    put(text, "\n")
}
