//! The nodes that a world begins with.
ghost use Rattle.std.specs.Prelude.{◌≡◌, IfOk, [], All, length};
ghost use Rattle.hsr_duptable.specs.Table.{IsTableSize};
ghost use Rattle.hsr_node.specs.Place.{HasOwnAddress};
ghost use Rattle.hsr_ring.specs.Starting.{new_records};

use hsr_frame::NoMemory;
use hsr_node::{Kept, Place};
use std::alloc::Global;

/// A node of this number for each place.
pub(crate) fn new_nodes<const C: usize>(
    alloc: Global,
    places: &[Place],
) -> Result<Vec<Kept<C>>, NoMemory>
    requires entries { IsTableSize C }
    requires own { All HasOwnAddress places.now }
    ensures { IfOk result (λ nodes. nodes.items ≡ new_records 0 places.now) }
{
    let mut nodes = Vec::new(alloc);
    for (number, place) in places.iter().enumerate() {
        // A copy, since the topology keeps its own.
        let kept = Kept::new(alloc, number, place.copy()?)?;
        nodes.push(kept)?;
    }
    Ok(nodes)
}

/// Tells each node how many entries are expected of it in all. Nothing else depends on it.
pub(crate) fn expect_entries<const C: usize>(nodes: &mut [Kept<C>], entries: usize)
    ensures { nodes.new ≡ nodes.old }
{
    for i in 0..nodes.len() {
        nodes[i].expect(entries);
    }
}
