//! What a worker was answered.
ghost use Rattle.std.specs.Prelude.{◌≡◌, [], ◌∷◌, ◌++◌, IfErr, OnOk};

use crate::entry::Receipt;
use hsr_frame::NoMemory;
use std::alloc::Global;
use std::marker::Model;

/// The receipts of one worker, in order.
#[derive(Drop)]
pub struct Pass {
    pub(crate) worker: u16,
    pub(crate) receipts: Vec<Receipt>,
}

impl Model for Pass {
    ghost use Rattle.hsr_node.specs.Kept.{Receipts};

    ghost Value = { Receipts };

    ghost view = { λ p. record { worker = p.worker; receipts = p.receipts.items } };
}

impl Pass {
    /// The pass of a worker that was answered nothing.
    pub fn new(alloc: Global, worker: u16) -> Pass
        ensures { result ≡ record { worker = worker; receipts = [] } }
    {
        Pass {
            worker,
            receipts: Vec::new(alloc),
        }
    }

    /// Puts a receipt last. If allocation fails it is handed back, and nothing changes.
    pub fn keep(&mut self, receipt: Receipt) -> Result<(), (Receipt, NoMemory)>
        ensures kept { OnOk result (self.new
            ≡ record self.old { receipts = self.old.receipts ++ receipt ∷ [] }) }
        ensures refused { IfErr result (λ e. (self.new ≡ self.old) × (e.0 ≡ receipt)) }
    {
        match self.receipts.push(receipt) {
            Ok(()) => Ok(()),
            Err(full) => Err((full.value, NoMemory)),
        }
    }

    /// The number of the worker.
    pub fn worker(&self) -> u16
        ensures { result ≡ self.now.worker }
    {
        self.worker
    }

    /// The receipts, in the order in which they were kept.
    pub fn receipts(&self) -> &[Receipt]
        ensures { result.now ≡ self.now.receipts }
    {
        self.receipts.as_slice()
    }
}
