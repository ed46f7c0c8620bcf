//! What a verdict in any order means, in a sentence.
use hsr_certify::Doubt;
use hsr_certify_text::Verdict;
use hsr_frame::NoMemory;
use hsr_text::put;
use std::alloc::Global;

/// What a doubt means, and what helps.
fn reason_of(doubt: Doubt) -> &'static str {
    match doubt {
        Doubt::Empty => "The plan sends nothing.",
        Doubt::Fine { .. } =>
            "The plan moves copies step by step, so it asks for one order of them.",
        Doubt::Open { .. } => "No drain comes behind a send, so it needn't arrive.",
        Doubt::Mode => "A node is in mode N and sends nothing on, so there is no second way round.",
        Doubt::SameAddress => "Two nodes have one address.",
        Doubt::Side { .. } =>
            "A link joins a port on a ring with a Station's port or an interlink.",
        Doubt::Refused { .. } => "In some order of the copies a step of the plan is refused.",
        Doubt::Back { .. } => "The clock goes back.",
        Doubt::Late { .. } => {
            "While a send is under way the clock may rise by 400 ms or more, so a table may forget it. More drains, or sends further apart, help; so does --within, where the network keeps it."
        }
        Doubt::Crowded { .. } => {
            "More sends may be under way at once than a table has entries. Larger tables, or sends further apart, help; so does --within, where the network keeps it."
        }
        Doubt::Wrapped { .. } => {
            "A node may send more than 65536 frames while one is remembered, so a number may come again."
        }
        Doubt::Uncovered { .. } => {
            "A send is to one address of a Station, or is supervision of a Station that faces a Station. No verdict covers those."
        }
        Doubt::Queue { .. } => {
            "More sends may be under way at once than a direction of a link has room for. A greater capacity, or sends further apart, help; so does --within, where the network keeps it."
        }
        Doubt::CutOff { .. } => {
            "A send is for a node to which no way is left, over links that are up from the send to its end."
        }
    }
}

/// What a verdict means, in a line.
pub(crate) fn meaning_of(alloc: Global, verdict: Verdict) -> Result<Vec<Vec<u8>>, NoMemory> {
    let mut line = Vec::new(alloc);
    match verdict {
        Verdict::Certified(_) => put(
            &mut line,
            "Each send comes to each node that it is for exactly once, in whatever order copies move.",
        )?,
        Verdict::Doubted(doubt) => put(&mut line, reason_of(doubt))?,
    }
    let mut lines = Vec::new(alloc);
    lines.push(line)?;
    Ok(lines)
}
