//! What comes next among orders.
ghost use Rattle.std.specs.Prelude.{◌≡◌};
ghost use Rattle.hsr_plan_hops.specs.Turns.{begun_behind, due_behind, moment_behind, receiver};

use hsr_link::Dir;
use hsr_topology::End;
use hsr_world_steps::Step;

/// What is due behind a step.
#[derive(Clone, Copy, PartialEq, Eq)]
pub(crate) enum Due {
    Nothing,
    /// At this port.
    Judgement(Option<End>),
    /// Of this node.
    Puts(usize),
}

/// The port to which a direction of a link leads.
pub(crate) fn receiver(links: &[[End; 2]], link: usize, dir: Dir) -> Option<End>
    ensures { result ≡ receiver links.now link dir }
{
    match links.get(link) {
        Some([one, other]) => match dir {
            Dir::Forth => Some(*other),
            Dir::Back => Some(*one),
        },
        None => None,
    }
}

/// What is due behind a step.
pub(crate) fn due_behind(links: &[[End; 2]], step: &Step) -> Due
    ensures { result ≡ due_behind links.now step.now }
{
    match step {
        Step::Send { node, .. }
        | Step::Supervise { node, .. }
        | Step::Put { node, .. }
        | Step::Judge { node, .. } => Due::Puts(*node),
        Step::Take { link, dir } => Due::Judgement(receiver(links, *link, *dir)),
        Step::Clock { .. }
        | Step::Age { .. }
        | Step::Cut { .. }
        | Step::Mend { .. }
        | Step::Inject { .. } => Due::Nothing,
    }
}

/// The moment behind a step.
pub(crate) fn moment_behind(now: u64, step: &Step) -> u64
    ensures { result ≡ moment_behind now step.now }
{
    match step {
        Step::Clock { at } => *at,
        _ => now,
    }
}

/// Whether something that is told was done at the moment behind a step.
pub(crate) fn begun_behind(begun: bool, step: &Step) -> bool
    ensures { result ≡ begun_behind begun step.now }
{
    match step {
        Step::Clock { .. } => false,
        Step::Put { .. } | Step::Take { .. } | Step::Judge { .. } => begun,
        Step::Send { .. }
        | Step::Supervise { .. }
        | Step::Age { .. }
        | Step::Cut { .. }
        | Step::Mend { .. }
        | Step::Inject { .. } => true,
    }
}
