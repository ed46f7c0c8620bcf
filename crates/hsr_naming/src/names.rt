//! The names of a run.

/// What is told of an entry beside its number: its moment in microseconds, as its node's record has it, and the name of the stream
/// that sent it; an empty name where none did.
#[derive(Drop)]
pub struct EntryName {
    pub at: u64,
    pub stream: Vec<u8>,
}

/// The names of a run: of each node its name, and of each entry of its record what is told of it; both in the order of the nodes.
#[derive(Drop)]
pub struct Names {
    pub nodes: Vec<Vec<u8>>,
    pub entries: Vec<Vec<EntryName>>,
}
