//! What a scenario lists, and which of its tables has its fault.
ghost use Rattle.hsr_scenario.specs.Listed.{FaultIsFirst, MeansItsTables};

/// A text that is a scenario means what its tables list, in their order: each node, link and step is what its table says, read
/// after those before it, and none is left out or added. The nodes and links are the topology.
pub fn means_its_tables()
    ensures { MeansItsTables }
{}

/// A fault of a document is that of its first table that has one: all tables of nodes before those of links, these before the topology, and
/// the topology before the steps. A fault at the top is one of the document's own keys, or the topology's.
pub fn fault_is_first()
    ensures { FaultIsFirst }
{}
