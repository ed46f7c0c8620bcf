//! The line of a verdict.
ghost use Rattle.std.specs.Prelude.{◌≡◌, ◌++◌, OnOk};
ghost use Rattle.hsr_certify.specs.declared.doubt.Doubt.TheVariants.{CutOff};
ghost use Rattle.hsr_certify_text.specs.Words.{doubt_text, verdict_line};

use crate::verdict::Verdict;
use hsr_certify::{Certified, Doubt};
use hsr_frame::NoMemory;
use hsr_text::{put, put_count};

/// Puts a word, the step of a send, and the node that the send doesn't come to.
fn put_cut_off(text: &mut Vec<u8>, step: usize, node: usize) -> Result<(), NoMemory>
    ensures { OnOk result (text.new.items ≡ text.old.items ++ doubt_text (CutOff step node)) }
{
    put_count(text, b"cut-off ", step as u64)?;
    put_count(text, b" ", node as u64)
}

/// Puts a doubt: a word, and the numbers of what it names.
fn put_doubt(text: &mut Vec<u8>, doubt: Doubt) -> Result<(), NoMemory>
    ensures { OnOk result (text.new.items ≡ text.old.items ++ doubt_text doubt) }
{
    match doubt {
        Doubt::Empty => put(text, "empty"),
        Doubt::Fine { step } => put_count(text, b"fine ", step as u64),
        Doubt::Open { step } => put_count(text, b"open ", step as u64),
        Doubt::Mode => put(text, "mode"),
        Doubt::SameAddress => put(text, "same-address"),
        Doubt::Side { link } => put_count(text, b"side ", link as u64),
        Doubt::Refused { step } => put_count(text, b"refused ", step as u64),
        Doubt::Back { step } => put_count(text, b"back ", step as u64),
        Doubt::Late { step } => put_count(text, b"late ", step as u64),
        Doubt::Crowded { step } => put_count(text, b"crowded ", step as u64),
        Doubt::Wrapped { step } => put_count(text, b"wrapped ", step as u64),
        Doubt::Uncovered { step } => put_count(text, b"uncovered ", step as u64),
        Doubt::Queue { step } => put_count(text, b"queue ", step as u64),
        Doubt::CutOff { step, node } => put_cut_off(text, step, node),
    }
}

/// Puts the line of a verdict: how many sends are certified, or the doubt, a word and by their numbers from 0 what it names: a
/// link, or a step, and for a cut the node that the send doesn't come to. `NoMemory` if allocation fails; a front of the line may
/// stand there then.
pub fn put_verdict(text: &mut Vec<u8>, verdict: Verdict) -> Result<(), NoMemory>
    ensures { OnOk result (text.new.items ≡ text.old.items ++ verdict_line verdict) }
{
    match verdict {
        Verdict::Certified(Certified { sends }) => {
            put_count(text, b"certified ", sends as u64)?;
            put(text, " in any order")?;
        }
        Verdict::Doubted(doubt) => {
            put(text, "doubt ")?;
            put_doubt(text, doubt)?;
        }
    }
    put(text, "\n")
}
