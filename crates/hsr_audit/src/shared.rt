//! What was found of sends of one node that lost nothing.
ghost use Rattle.std.specs.Prelude.{◌≡◌, ◌&&◌, nat_eq, if◌then◌else◌, List, Some, ℕ, OnOk};
ghost use Rattle.hsr_frame.specs.Address.{is_same_address};
ghost use Rattle.hsr_audit.specs.Shared.{found_of};

use hsr_bitset::Numbers;
use hsr_frame::{Mac, NoMemory};
use hsr_tag::FrameView;
use indexmap::IndexMap;

/// The nodes that sends of one node reach, by the destination and the type of their frames.
pub(crate) type Found = IndexMap<(Mac, u16), Numbers>;

/// The nodes that were found for a frame's destination and type.
pub(crate) fn found_of(found: &Found, frame: &FrameView<'_>) -> Option<Numbers>
    ensures { result ≡ found_of found.now frame.now.dst frame.now.kind }
{
    found.get(&(frame.dst, frame.kind)).copied()
}

/// Keeps the nodes that were found for a frame's destination and type.
pub(crate) fn keep(found: &mut Found, frame: &FrameView<'_>, nodes: Numbers) -> Result<(), NoMemory>
    ensures { OnOk result ((dst : List ℕ) → (ethertype : ℕ) → found_of found.new dst ethertype
        ≡ (if is_same_address frame.now.dst dst && nat_eq frame.now.kind ethertype then Some nodes
        else found_of found.old dst ethertype)) }
{
    found.insert((frame.dst, frame.kind), nodes)?;
    Ok(())
}
