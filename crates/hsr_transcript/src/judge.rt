//! Judges what a text says that is in form: topology, order, and each entry.
ghost use Rattle.std.specs.Prelude.{◌≡◌};
ghost use Rattle.hsr_duptable.specs.Table.{IsTableSize};
ghost use Rattle.hsr_transcript.specs.CodeReads.{seen};
ghost use Rattle.hsr_transcript.specs.Judged.{Judged, standing_of};
ghost use Rattle.hsr_transcript.specs.Plain.{plain_view};

use crate::fault::ReadFault;
use crate::order::plan_of;
use crate::plain::Plain;
use crate::replay::replay_all;
use hsr_finished_run::Records;
use hsr_topology::Topology;
use std::alloc::Global;

/// The topology, plan, nodes and rows that a text stands for. `BadLine` of the last line of the links where the topology is
/// refused, else of the line `main` where the order doesn't fit, else of the first entry whose event is refused or whose
/// outcome is another one.
pub(crate) fn judge<const C: usize>(alloc: Global, plain: Plain) -> Result<Records<C>, ReadFault>
    requires { IsTableSize C }
    ensures { Judged C (plain_view plain) (seen (standing_of C) result) }
{
    let Plain {
        // Moments are microseconds by now, so the unit of the text is no longer needed.
        unit: _,
        nodes,
        links,
        main,
        mut records,
        carried,
    } = plain;
    // Behind the version, the table, and the two lines that say how many nodes and links there are.
    let links_end = 4 + nodes.len() as u64 + links.len() as u64;
    let Ok(topology) = Topology::new(nodes, links) else {
        return Err(ReadFault::BadLine { number: links_end });
    };
    // The order is judged before entries are replayed, since its line comes before theirs.
    let plan = match plan_of(alloc, main.as_slice(), records.as_slice()) {
        Ok(Some(plan)) => plan,
        Ok(None) => {
            return Err(ReadFault::BadLine {
                number: links_end + 1,
            });
        }
        Err(_) => return Err(ReadFault::NoMemory),
    };
    let first = links_end + 2 + main.len() as u64;
    match replay_all::<C>(alloc, topology.places(), records.as_mut_slice(), first) {
        Ok(kept) => Ok(Records {
            topology,
            plan,
            kept,
            rows: carried,
        }),
        Err(fault) => Err(fault),
    }
}
