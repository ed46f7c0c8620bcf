//! The moments of a picture.
ghost use Rattle.std.specs.Prelude.{◌≡◌, ◌++◌, IfOk, OnOk};
ghost use Rattle.std.specs.List.{flat_map};
ghost use Rattle.hsr_diagram_layout.specs.Moments.{AreMoments, all_moments, arrow_moments, moment_if, sent_moments};

use hsr_diagram::{Arrow, Picture, Sent};
use hsr_frame::NoMemory;
use hsr_timeline::Stamp;
use std::alloc::Global;

/// Puts the moment of a stamp last, if there is one.
fn push_if(moments: &mut Vec<u64>, stamp: Option<Stamp>) -> Result<(), NoMemory>
    ensures { OnOk result (moments.new.items ≡ moments.old.items ++ moment_if stamp) }
{
    if let Some(stamp) = stamp {
        moments.push(stamp.moment)?;
    }
    Ok(())
}

/// Puts the moments of an arrow last.
fn push_arrow(moments: &mut Vec<u64>, arrow: &Arrow) -> Result<(), NoMemory>
    ensures { OnOk result (moments.new.items ≡ moments.old.items ++ arrow_moments arrow.now) }
{
    moments.push(arrow.row.moment)?;
    push_if(moments, arrow.start)
}

/// Puts the moments of arrows last.
#[tactic(auto, using(hsr_frame::proofs::OneMore::grown))]
fn push_arrows(moments: &mut Vec<u64>, arrows: &[Arrow]) -> Result<(), NoMemory>
    ensures { OnOk result (moments.new.items ≡ moments.old.items
        ++ flat_map arrow_moments arrows.now) }
{
    for arrow in arrows {
        push_arrow(moments, arrow)?;
    }
    Ok(())
}

/// Puts the moments of sends last.
#[tactic(auto, using(hsr_frame::proofs::OneMore::grown))]
fn push_sends(moments: &mut Vec<u64>, sends: &[Sent]) -> Result<(), NoMemory>
    ensures { OnOk result (moments.new.items ≡ moments.old.items
        ++ flat_map sent_moments sends.now) }
{
    for sent in sends {
        push_if(moments, sent.start)?;
    }
    Ok(())
}

/// The moments of arrows and sends, as they come.
fn all_moments(alloc: Global, arrows: &[Arrow], sends: &[Sent]) -> Result<Vec<u64>, NoMemory>
    ensures { IfOk result (λ moments. moments.items ≡ all_moments arrows.now sends.now) }
{
    let mut moments = Vec::new(alloc);
    push_arrows(&mut moments, arrows)?;
    push_sends(&mut moments, sends)?;
    Ok(moments)
}

/// Puts moments into their order, each once.
fn sort(moments: &mut Vec<u64>)
    ensures { AreMoments moments.old.items moments.new.items }
{
    moments.sort_unstable();
    moments.dedup();
}

/// The moments of a picture, rising.
pub(crate) fn moments_of(alloc: Global, picture: &Picture) -> Result<Vec<u64>, NoMemory>
    ensures { IfOk result (λ moments.
        AreMoments (all_moments picture.now.arrows picture.now.sends) moments.items) }
{
    let arrows = picture.arrows.as_slice();
    let mut moments = all_moments(alloc, arrows, picture.sends.as_slice())?;
    sort(&mut moments);
    Ok(moments)
}
