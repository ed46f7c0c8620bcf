//! What holds of each closed run, whatever the nodes, threads and copies did in between.
ghost use Rattle.hsr_run_laws.specs.Budget.{BudgetKeeps, BudgetTells, OnceInBudget};
ghost use Rattle.hsr_run_laws.specs.Once.{ExactlyOnce, NoStorm};
ghost use Rattle.hsr_run_laws.specs.Premises.{BoxlessNumbersFirst};

/// In a closed run of a ring of DANHs in modes H and U, with losses on at most one link, nothing forgotten that was needed and
/// nothing mistaken, each node that a frame is for took it up just once, and nothing else went up (IEC 62439-3
/// clause 5.3).
pub fn exactly_once()
    ensures { ExactlyOnce }
{}

/// In a closed run, each link of which ends at nodes that are there, where nothing was forgotten that was needed, and where each RedBox numbers a
/// frame of its Station once and before it hears of it, no direction of a link carried two copies of one frame.
pub fn no_storm()
    ensures { NoStorm }
{}

/// In such a run nothing that was needed is forgotten where each arrival's effective moment is its send's or less than
/// 400 milliseconds later, and in the 800 milliseconds from any send on there were no more sends of all nodes than a table
/// has entries.
pub fn budget_keeps()
    ensures { BudgetKeeps }
{}

/// In a ring nothing is mistaken under that budget: a table has at most 65535 entries, and the numbers of frames begin anew
/// only after more sends.
pub fn budget_tells()
    ensures { BudgetTells }
{}

/// So in a closed run of a ring, within that budget and with losses on at most one link, each node that a frame is for took
/// it up just once, and nothing else went up.
pub fn once_in_budget()
    ensures { OnceInBudget }
{}

/// Where there are no RedBoxes nothing that comes is numbered, so that `no_storm` and `budget_keeps` hold of each closed
/// run there.
pub fn boxless()
    ensures { BoxlessNumbersFirst }
{}
