//! What a text says that is in form.
ghost use Rattle.std.specs.Prelude.{◌≡◌, ◌+◌, ◌≤◌, ◌^◌, length};
ghost use Rattle.hsr_transcript.specs.Items.{entries_of};
ghost use Rattle.hsr_transcript_lines.specs.Lines.{line_count};

use hsr_link::Row;
use hsr_node::{Entry, Place};
use hsr_text::TimeUnit;
use hsr_topology::End;

/// What a text says: the unit in which it tells moments, nodes, links, the order of the main worker's entries, the record of
/// each node with its moments in microseconds, and the rows of each link.
#[derive(Drop)]
pub struct Plain {
    pub unit: TimeUnit,
    pub nodes: Vec<Place>,
    pub links: Vec<[End; 2]>,
    pub main: Vec<u64>,
    pub records: Vec<Vec<Entry>>,
    pub carried: Vec<Vec<Row>>,
    ghost paired: { length records.items ≡ length nodes.items },
    // There is a read for each line.
    ghost lines: { 6 + length nodes.items + length links.items + length main.items + line_count (entries_of records) ≤ 2 ^ 40 + 1 },
}
