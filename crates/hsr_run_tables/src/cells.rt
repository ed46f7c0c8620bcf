//! Cells of nodes, entries, ports and addresses, and cells of lists.
ghost use Rattle.std.specs.Prelude.{◌≡◌, ◌∷◌, [], ◌++◌, codes, IfOk, OnOk};
ghost use Rattle.std.specs.List.{flat_map};
ghost use Rattle.hsr_text.specs.Words.{mac_text};
ghost use Rattle.hsr_naming.specs.Naming.{node_text, port_text, send_text};
ghost use Rattle.hsr_report.specs.DeliveryLines.{loss_text};
ghost use Rattle.hsr_run_tables.specs.Rows.{entry_cells, losses_text, nodes_text};

use crate::row::Row;
use hsr_deliveries::Loss;
use hsr_frame::{Mac, NoMemory};
use hsr_naming::Naming;
use hsr_node::{Place, Probe};
use hsr_report::put_loss;
use hsr_text::{put, put_mac};
use hsr_topology::End;
use std::alloc::Global;

/// Puts a space and a node last.
fn put_next_node(text: &mut Vec<u8>, naming: &Naming, node: usize) -> Result<(), NoMemory>
    ensures { OnOk result (text.new.items ≡ text.old.items
        ++ (codes " " ++ node_text naming.now node)) }
{
    put(text, " ")?;
    naming.put_node(text, node)
}

/// Puts nodes last, each behind a space.
#[tactic(auto, using(hsr_frame::proofs::OneMore::grown))]
fn put_next_nodes(text: &mut Vec<u8>, naming: &Naming, nodes: &[usize]) -> Result<(), NoMemory>
    ensures { OnOk result (text.new.items ≡ text.old.items
        ++ flat_map (λ node. codes " " ++ node_text naming.now node) nodes.now) }
{
    for node in nodes {
        put_next_node(text, naming, *node)?;
    }
    Ok(())
}

/// Nodes, parted by spaces.
fn nodes_text(alloc: Global, naming: &Naming, nodes: &[usize]) -> Result<Vec<u8>, NoMemory>
    ensures { IfOk result (λ text. text.items ≡ nodes_text naming.now nodes.now) }
{
    let mut text = Vec::new(alloc);
    if let Some((first, others)) = nodes.split_first() {
        naming.put_node(&mut text, *first)?;
        put_next_nodes(&mut text, naming, others)?;
    }
    Ok(text)
}

/// Puts a space and a loss last.
fn put_next_loss(text: &mut Vec<u8>, loss: Loss) -> Result<(), NoMemory>
    ensures { OnOk result (text.new.items ≡ text.old.items ++ (codes " " ++ loss_text loss)) }
{
    put(text, " ")?;
    put_loss(text, loss)
}

/// Puts losses last, each behind a space.
#[tactic(auto, using(hsr_frame::proofs::OneMore::grown))]
fn put_next_losses(text: &mut Vec<u8>, losses: &[Loss]) -> Result<(), NoMemory>
    ensures { OnOk result (text.new.items ≡ text.old.items
        ++ flat_map (λ loss. codes " " ++ loss_text loss) losses.now) }
{
    for loss in losses {
        put_next_loss(text, *loss)?;
    }
    Ok(())
}

/// Losses, parted by spaces.
fn losses_text(alloc: Global, losses: &[Loss]) -> Result<Vec<u8>, NoMemory>
    ensures { IfOk result (λ text. text.items ≡ losses_text losses.now) }
{
    let mut text = Vec::new(alloc);
    if let Some((first, others)) = losses.split_first() {
        put_loss(&mut text, *first)?;
        put_next_losses(&mut text, others)?;
    }
    Ok(text)
}

impl Row {
    /// Puts a cell of a node last.
    pub(crate) fn put_node(&mut self, naming: &Naming, node: usize) -> Result<(), NoMemory>
        ensures { OnOk result (self.new ≡ self.old ++ node_text naming.now node ∷ []) }
    {
        let mut cell = Vec::new(self.alloc());
        naming.put_node(&mut cell, node)?;
        self.put(cell.as_slice())
    }

    /// Puts a cell of a send last, or of another entry, as a send is called.
    pub(crate) fn put_send(&mut self, naming: &Naming, send: Probe) -> Result<(), NoMemory>
        ensures { OnOk result (self.new ≡ self.old ++ send_text naming.now send ∷ []) }
    {
        let mut cell = Vec::new(self.alloc());
        naming.put_send(&mut cell, send)?;
        self.put(cell.as_slice())
    }

    /// Puts a cell of a port last.
    pub(crate) fn put_port(
        &mut self,
        naming: &Naming,
        places: &[Place],
        end: End,
    ) -> Result<(), NoMemory>
        ensures { OnOk result (self.new ≡ self.old ++ port_text naming.now places.now end ∷ []) }
    {
        let mut cell = Vec::new(self.alloc());
        naming.put_port(&mut cell, places, end)?;
        self.put(cell.as_slice())
    }

    /// Puts a cell of an address last.
    pub(crate) fn put_mac(&mut self, mac: Mac) -> Result<(), NoMemory>
        ensures { OnOk result (self.new ≡ self.old ++ mac_text mac ∷ []) }
    {
        let mut cell = Vec::new(self.alloc());
        put_mac(self.alloc(), &mut cell, mac)?;
        self.put(cell.as_slice())
    }

    /// Puts a cell of nodes last.
    pub(crate) fn put_nodes(&mut self, naming: &Naming, nodes: &[usize]) -> Result<(), NoMemory>
        ensures { OnOk result (self.new ≡ self.old ++ nodes_text naming.now nodes.now ∷ []) }
    {
        let cell = nodes_text(self.alloc(), naming, nodes)?;
        self.put(cell.as_slice())
    }

    /// Puts a cell of losses last.
    pub(crate) fn put_losses(&mut self, losses: &[Loss]) -> Result<(), NoMemory>
        ensures { OnOk result (self.new ≡ self.old ++ losses_text losses.now ∷ []) }
    {
        let cell = losses_text(self.alloc(), losses)?;
        self.put(cell.as_slice())
    }

    /// Puts the cells of an entry last: as the report calls it, its node, and its place in the node's record.
    #[tactic(auto, unfolding(crate::specs::Rows::entry_cells))]
    pub(crate) fn put_entry(&mut self, naming: &Naming, entry: Probe) -> Result<(), NoMemory>
        ensures { OnOk result (self.new ≡ self.old ++ entry_cells naming.now entry) }
    {
        self.put_send(naming, entry)?;
        self.put_node(naming, entry.node)?;
        self.put_number(entry.place as u64)
    }

    /// Puts a cell of something that isn't there last.
    pub(crate) fn put_empty(&mut self) -> Result<(), NoMemory>
        ensures { OnOk result (self.new ≡ self.old ++ [] ∷ []) }
    {
        self.put(&[])
    }
}
