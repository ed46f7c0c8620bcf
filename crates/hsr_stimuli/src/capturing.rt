//! The capture of stimuli.
ghost use Rattle.std.specs.Prelude.{◌≡◌, ◌++◌, All, IfErr, IfOk, OnOk};
ghost use Rattle.std.specs.List.{flat_map};
ghost use Rattle.hsr_pcapng.specs.Faults.{IfTooLong};
ghost use Rattle.hsr_stimuli.specs.Capture.{Fits, LetterFits, StimulusFits, capture, interface_of, packet_of};

use crate::scene::Stimulus;
use hsr_node::Place;
use hsr_pcapng::{BlockFault, put_interface, put_packet, put_section_header};
use std::alloc::Global;

/// Puts an interface last for each of some ports, with its letter as name.
fn put_interfaces(alloc: Global, text: &mut Vec<u8>, letters: &[u8]) -> Result<(), BlockFault>
    ensures bytes { OnOk result (text.new.items
        ≡ text.old.items ++ flat_map interface_of letters.now) }
    ensures fits { OnOk result (All LetterFits letters.now) }
    ensures too_long { IfErr result (IfTooLong (All LetterFits letters.now → ⊥)) }
{
    for letter in letters {
        put_interface(alloc, text, &[*letter], b"frames for this port")?;
    }
    Ok(())
}

/// Puts the packet of a stimulus last, with its rule as comment.
fn put_stimulus(alloc: Global, text: &mut Vec<u8>, stimulus: &Stimulus) -> Result<(), BlockFault>
    ensures bytes { OnOk result (text.new.items ≡ text.old.items ++ packet_of stimulus.now) }
    ensures fits { OnOk result (StimulusFits stimulus.now) }
    ensures too_long { IfErr result (IfTooLong (StimulusFits stimulus.now → ⊥)) }
{
    let octets = stimulus.shape.octets(alloc)?;
    put_packet(
        alloc,
        text,
        u32::from(stimulus.port),
        stimulus.at,
        octets.as_slice(),
        stimulus.rule.word().as_bytes(),
    )
}

/// Puts the packets of stimuli last.
fn put_stimuli(alloc: Global, text: &mut Vec<u8>, list: &[Stimulus]) -> Result<(), BlockFault>
    ensures bytes { OnOk result (text.new.items ≡ text.old.items ++ flat_map packet_of list.now) }
    ensures fits { OnOk result (All StimulusFits list.now) }
    ensures too_long { IfErr result (IfTooLong (All StimulusFits list.now → ⊥)) }
{
    for stimulus in list {
        put_stimulus(alloc, text, stimulus)?;
    }
    Ok(())
}

/// The capture of stimuli for a device at a place, in their order: an interface for each port, with its letter as name, and a packet for
/// each stimulus, with its rule as comment. Each block fits, so that it is read back as it was written (hsr_capture_reader). `TooLong`
/// exactly where one doesn't, `NoMemory` where room is refused.
#[tactic(auto, unfolding(crate::specs::Capture::capture))]
pub fn capture(alloc: Global, place: &Place, list: &[Stimulus]) -> Result<Vec<u8>, BlockFault>
    ensures text { IfOk result (λ text. text.items ≡ capture place.now list.now) }
    ensures fits { OnOk result (Fits place.now list.now) }
    ensures too_long { IfErr result (IfTooLong (Fits place.now list.now → ⊥)) }
{
    let mut text = Vec::new(alloc);
    put_section_header(alloc, &mut text, b"hsr_tap")?;
    put_interfaces(alloc, &mut text, place.letters())?;
    put_stimuli(alloc, &mut text, list)?;
    Ok(text)
}
