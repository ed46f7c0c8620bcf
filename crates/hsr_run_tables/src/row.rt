//! A row of a table while it is formed.
ghost use Rattle.std.specs.Prelude.{◌≡◌, ◌∷◌, [], ◌++◌, OnOk};
ghost use Rattle.std.specs.Fmt.{decimal};
ghost use Rattle.csv.specs.Records.{fields_of};

use csv::ByteRecord;
use hsr_frame::NoMemory;
use hsr_text::put_number;
use std::alloc::Global;
use std::marker::Model;

/// The cells of a row, in the order of its table's columns.
#[derive(Drop)]
pub(crate) struct Row {
    alloc: Global,
    cells: ByteRecord,
}

impl Model for Row {
    ghost use Rattle.std.specs.Prelude.{◌≡◌, ℕ, List, []};
    ghost use Rattle.csv.specs.Records.{fields_of, partial_of};

    ghost Value = { List (List ℕ) };

    ghost view = { λ r. fields_of r.cells };

    ghost invariant = { λ r. partial_of r.cells ≡ [] };
}

impl Row {
    /// No cell yet.
    pub(crate) fn new(alloc: Global) -> Row
        ensures { result ≡ [] }
    {
        Row {
            alloc,
            cells: ByteRecord::new(alloc),
        }
    }

    /// What allocates its cells.
    pub(crate) fn alloc(&self) -> Global {
        self.alloc
    }

    /// The cells, as a record is written.
    pub(crate) fn record(&self) -> &ByteRecord
        ensures { fields_of result.now ≡ self.now }
    {
        &self.cells
    }

    /// Puts a cell last.
    pub(crate) fn put(&mut self, cell: &[u8]) -> Result<(), NoMemory>
        ensures { OnOk result (self.new ≡ self.old ++ cell.now ∷ []) }
    {
        match self.cells.push_field(cell) {
            Ok(()) => Ok(()),
            Err(_) => {
                // A front of the cell may stand there.
                self.cells.clear();
                Err(NoMemory)
            }
        }
    }

    /// Puts a cell of a word last.
    pub(crate) fn put_word(&mut self, word: &str) -> Result<(), NoMemory>
        ensures { OnOk result (self.new ≡ self.old ++ word.now ∷ []) }
    {
        self.put(word.as_bytes())
    }

    /// Puts a cell of a number last, in decimal digits.
    pub(crate) fn put_number(&mut self, n: u64) -> Result<(), NoMemory>
        ensures { OnOk result (self.new ≡ self.old ++ decimal n ∷ []) }
    {
        let mut cell = Vec::new(self.alloc);
        put_number(&mut cell, n)?;
        self.put(cell.as_slice())
    }
}
