//! The reasons that count packets which are no copies.
ghost use Rattle.std.specs.Prelude.{◌≡◌, Bool, List, count_by, find, OnOk};
ghost use Rattle.hsr_health.specs.Reasons.{AreOfStrays};
ghost use Rattle.hsr_health.specs.Told.{IsOfStrays, is_foreign, is_malformed};
ghost use Rattle.hsr_health.specs.What.{stray_what};
ghost use Rattle.hsr_health.specs.declared.reason.Word.TheVariants as the_word;
ghost use Rattle.hsr_taps.specs.declared.tapping.Stray as the_stray;

use crate::kinds::is_link_local;
use crate::reason::{Reason, Spot, What, Word, put_reason};
use hsr_frame::NoMemory;
use hsr_frame_copies::NoCopy;
use hsr_taps::Stray;

/// Whether a stray is malformed.
fn is_malformed(stray: &Stray) -> bool
    ensures { result ≡ is_malformed stray.now }
{
    matches!(stray.what, NoCopy::Malformed(_))
}

/// Whether a stray has no tag, and may leave its link.
fn is_foreign(stray: &Stray) -> bool
    ensures { result ≡ is_foreign stray.now }
{
    match stray.what {
        NoCopy::Untagged(frame) => !is_link_local(frame.dst),
        _ => false,
    }
}

/// What is told of a stray.
fn stray_what(stray: &Stray) -> What
    ensures { result ≡ stray_what stray.now }
{
    match stray.what {
        NoCopy::Malformed(fault) => What::Fault {
            interface: stray.interface,
            fault,
        },
        NoCopy::Untagged(frame) => What::Untagged {
            interface: stray.interface,
            ethertype: frame.kind,
            source: frame.src,
        },
        NoCopy::Unread => What::NoFrame,
    }
}

/// How many strays are malformed.
fn count_malformed(strays: &[Stray]) -> u64
    ensures { result ≡ count_by is_malformed strays.now }
{
    strays.iter().filter(|stray| is_malformed(stray)).count() as u64
}

/// How many have no tag, and may leave their link.
fn count_foreign(strays: &[Stray]) -> u64
    ensures { result ≡ count_by is_foreign strays.now }
{
    strays.iter().filter(|stray| is_foreign(stray)).count() as u64
}

/// The first that is malformed.
fn first_malformed(strays: &[Stray]) -> Option<Stray>
    ensures { result ≡ find is_malformed strays.now }
{
    for stray in strays {
        if is_malformed(stray) {
            return Some(*stray);
        }
    }
    None
}

/// The first that has no tag, and may leave its link.
fn first_foreign(strays: &[Stray]) -> Option<Stray>
    ensures { result ≡ find is_foreign strays.now }
{
    for stray in strays {
        if is_foreign(stray) {
            return Some(*stray);
        }
    }
    None
}

/// A reason that counts strays, of which this is the first.
fn stray_reason(word: Word, count: u64, first: Option<Stray>) -> Option<Reason>
    ensures { (is_such : the_stray.Stray → Bool) (strays : List the_stray.Stray) → count ≡ count_by is_such strays → first ≡ find is_such strays
        → IsOfStrays word is_such strays result }
{
    match first {
        None => None,
        Some(first) => Some(Reason {
            word,
            count,
            spot: Some(Spot {
                packet: first.packet,
                at: first.at,
            }),
            what: stray_what(&first),
        }),
    }
}

/// Packets that are no frames.
fn malformed_reason(strays: &[Stray]) -> Option<Reason>
    ensures { IsOfStrays the_word.Malformed is_malformed strays.now result }
{
    stray_reason(
        Word::Malformed,
        count_malformed(strays),
        first_malformed(strays),
    )
}

/// Packets that have no tag, and may leave their link.
fn untagged_reason(strays: &[Stray]) -> Option<Reason>
    ensures { IsOfStrays the_word.Untagged is_foreign strays.now result }
{
    stray_reason(Word::Untagged, count_foreign(strays), first_foreign(strays))
}

/// Puts the reasons that count packets which are no copies behind others.
pub(crate) fn put_stray_reasons(reasons: &mut Vec<Reason>, strays: &[Stray]) -> Result<(), NoMemory>
    ensures { OnOk result (AreOfStrays strays.now reasons.old.items reasons.new.items) }
{
    let malformed = malformed_reason(strays);
    let untagged = untagged_reason(strays);
    put_reason(reasons, &malformed)?;
    put_reason(reasons, &untagged)
}
