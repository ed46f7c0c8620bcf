//! The lines of latency in a report.
ghost use Rattle.std.specs.Prelude.{◌≡◌, ◌++◌, codes, OnOk};
ghost use Rattle.std.specs.List.{flat_map};
ghost use Rattle.hsr_naming.specs.Naming.{node_text};
ghost use Rattle.hsr_report.specs.LatencyLines.{delay_or_none, delay_text, latency_line, latency_lines, slowest_text, worst_if, worst_line};

use hsr_frame::NoMemory;
use hsr_latency::{Delay, Latency, NodeLatency};
use hsr_naming::Naming;
use hsr_text::{put, put_count, put_number};

/// Puts how long a send took last, and which it was.
#[tactic(auto, unfolding(crate::specs::LatencyLines::delay_text))]
fn put_delay(text: &mut Vec<u8>, naming: &Naming, delay: Delay) -> Result<(), NoMemory>
    ensures { OnOk result (text.new.items ≡ text.old.items ++ delay_text naming.now delay) }
{
    put_number(text, delay.time)?;
    put(text, " at ")?;
    naming.put_send(text, delay.send)
}

/// Puts that last; a hyphen where there is none.
fn put_delay_or_none(
    text: &mut Vec<u8>,
    naming: &Naming,
    delay: Option<Delay>,
) -> Result<(), NoMemory>
    ensures { OnOk result (text.new.items ≡ text.old.items ++ delay_or_none naming.now delay) }
{
    match delay {
        None => put(text, "-"),
        Some(delay) => put_delay(text, naming, delay),
    }
}

/// Puts the line of a node last.
#[tactic(auto, unfolding(crate::specs::LatencyLines::latency_line))]
fn put_line(text: &mut Vec<u8>, naming: &Naming, latency: NodeLatency) -> Result<(), NoMemory>
    ensures { OnOk result (text.new.items ≡ text.old.items ++ latency_line naming.now latency) }
{
    put(text, "latency ")?;
    naming.put_node(text, latency.node)?;
    put_count(text, b" frames ", latency.frames as u64)?;
    put(text, " worst ")?;
    put_delay(text, naming, latency.worst)?;
    put(text, " second ")?;
    put_delay_or_none(text, naming, latency.second)?;
    put(text, "\n")
}

/// Puts the lines of nodes last.
#[tactic(auto, using(hsr_frame::proofs::OneMore::grown))]
fn put_lines(text: &mut Vec<u8>, naming: &Naming, latencies: &[NodeLatency]) -> Result<(), NoMemory>
    ensures { OnOk result (text.new.items ≡ text.old.items
        ++ flat_map (latency_line naming.now) latencies.now) }
{
    for latency in latencies {
        put_line(text, naming, *latency)?;
    }
    Ok(())
}

/// Puts a space and a node last.
fn put_next(text: &mut Vec<u8>, naming: &Naming, node: usize) -> Result<(), NoMemory>
    ensures { OnOk result (text.new.items ≡ text.old.items
        ++ (codes " " ++ node_text naming.now node)) }
{
    put(text, " ")?;
    naming.put_node(text, node)
}

/// Puts the node to which a send took longest last, behind how long it took.
#[tactic(auto, unfolding(crate::specs::LatencyLines::slowest_text))]
fn put_slowest(text: &mut Vec<u8>, naming: &Naming, time: u64, node: usize) -> Result<(), NoMemory>
    ensures { OnOk result (text.new.items ≡ text.old.items ++ slowest_text naming.now time node) }
{
    put_count(text, b"latency worst ", time)?;
    put_next(text, naming, node)
}

/// Puts the line of the node to which a send took longest last.
#[tactic(auto, unfolding(crate::specs::LatencyLines::worst_line))]
fn put_worst(text: &mut Vec<u8>, naming: &Naming, latency: NodeLatency) -> Result<(), NoMemory>
    ensures { OnOk result (text.new.items ≡ text.old.items ++ worst_line naming.now latency) }
{
    put_slowest(text, naming, latency.worst.time, latency.node)?;
    put(text, " at ")?;
    naming.put_send(text, latency.worst.send)?;
    put(text, "\n")
}

/// Puts that line last, or the one that says that nothing went up.
fn put_worst_if(
    text: &mut Vec<u8>,
    naming: &Naming,
    worst: Option<NodeLatency>,
) -> Result<(), NoMemory>
    ensures { OnOk result (text.new.items ≡ text.old.items ++ worst_if naming.now worst) }
{
    match worst {
        None => put(text, "latency none\n"),
        Some(latency) => put_worst(text, naming, latency),
    }
}

/// Puts a line for each node that took up a frame, by node, then the line of the node to which a send took longest (RULES, The
/// report). `NoMemory` if allocation fails; a front of the lines may stand there then.
pub fn put_latency(text: &mut Vec<u8>, naming: &Naming, latency: &Latency) -> Result<(), NoMemory>
    ensures { OnOk result (text.new.items ≡ text.old.items
        ++ latency_lines naming.now latency.now.nodes.items) }
{
    put_lines(text, naming, latency.nodes.as_slice())?;
    put_worst_if(text, naming, latency.worst())
}
