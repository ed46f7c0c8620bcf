//! Why the run of a scenario stops, or can't be closed, in plain words.
use hsr_finished_run::Disagree;
use hsr_frame::SendFault;
use hsr_node::StepFault;
use hsr_world_steps::{DrainFault, WorldFault};

/// Why a node refuses an event, and what would do.
fn words_of_node(fault: StepFault) -> &'static str {
    match fault {
        StepFault::WrongEvent =>
            "the event doesn't fit the node (a QuadBox sends nothing, a Station no supervision, a DANH none about others, and from counts a Station's addresses): choose another node, or leave the key out",
        StepFault::Send(SendFault::SelfAddressed) =>
            "a node can't send to itself: send to another address",
        StepFault::Send(SendFault::ReservedType) =>
            "the types 892F and 8100 are HSR's and the VLAN tag's: choose another, and for a VLAN tag use vlan",
        StepFault::Send(SendFault::Spent) | StepFault::Spent =>
            "the node has done all the steps that it may: start anew",
        StepFault::Send(SendFault::TooLong) => "a payload has at most 1500 octets: shorten it",
        StepFault::NotProxied =>
            "the RedBox doesn't know this station now: let the Station send first, less than 60 s before",
        StepFault::NoMemory => "memory",
    }
}

/// Why a step is refused, and what would do.
pub fn words_of_step(fault: &DrainFault) -> &'static str {
    match fault {
        DrainFault::Unsettled =>
            "over 1,000,000 steps, and copies are still on their way: they circle, or there are too many: use large tables, or drain earlier",
        DrainFault::World(WorldFault::Busy) =>
            "the port's hand still holds a copy: judge it before the next take",
        DrainFault::World(WorldFault::Nothing) =>
            "the outbox, the link or the hand is empty: look at the order of put, take and judge",
        DrainFault::World(WorldFault::TooLong) =>
            "a payload has at most 1500 octets, and what is injected at most 2048: shorten it",
        // No scenario comes here, since its names were looked up. Words are total all the same.
        DrainFault::World(WorldFault::NoSuchNode) => "there is no such node",
        DrainFault::World(WorldFault::NoSuchLink) => "there is no such link",
        DrainFault::World(WorldFault::NoSuchPort) => "the node hasn't this port",
        DrainFault::World(WorldFault::Node(fault)) => words_of_node(*fault),
        DrainFault::World(WorldFault::NoMemory) => "memory",
    }
}

/// What it means that parts disagree, and what would do.
pub fn words_of_check(disagree: Disagree) -> &'static str {
    match disagree {
        Disagree::LinkPut { .. } =>
            "a copy waits in an outbox, or a text was changed: end the scenario with a drain",
        Disagree::LinkTaken { .. } =>
            "a copy that was taken isn't judged, or a text was changed: end the scenario with a drain",
        Disagree::Stranger { .. } =>
            "octets were injected, and no node sent them: leave inject out, or see what there is by run --open",
        Disagree::NotQuiet { .. } => "a copy waits on a link: end the scenario with a drain",
        Disagree::Receipts { .. } => "the receipts of a worker aren't its entries",
        Disagree::Shape =>
            "the records aren't those of these nodes and links: the text was changed",
    }
}
