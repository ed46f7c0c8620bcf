//! Columns of a table.
ghost use Rattle.std.specs.Prelude.{◌≡◌, ◌-◌, ◌++◌, OnOk, length, replicate};
ghost use Rattle.std.specs.Fmt.{decimal};
ghost use Rattle.hsr_devices.specs.Cells.{label_cell, left, right};

use hsr_frame::NoMemory;
use hsr_text::{put_number, put_octets};
use std::alloc::Global;

/// How wide the first column of a table is.
const LABEL: usize = 20;

/// Puts spaces last, `count` of them.
fn put_spaces(text: &mut Vec<u8>, count: usize) -> Result<(), NoMemory>
    ensures { OnOk result (text.new.items ≡ text.old.items ++ replicate count 32) }
{
    // More than a length can count fits into no memory.
    let Some(length) = text.len().checked_add(count) else {
        return Err(NoMemory);
    };
    text.resize(length, b' ')?;
    Ok(())
}

/// Puts a cell last, with spaces behind it up to a width.
#[tactic(auto, unfolding(crate::specs::Cells::left))]
fn put_left(text: &mut Vec<u8>, width: usize, cell: &[u8]) -> Result<(), NoMemory>
    ensures { OnOk result (text.new.items ≡ text.old.items ++ left width cell.now) }
{
    put_octets(text, cell)?;
    put_spaces(text, width.saturating_sub(cell.len()))
}

/// Puts the cell of the first column last.
pub(crate) fn put_label(text: &mut Vec<u8>, label: &[u8]) -> Result<(), NoMemory>
    ensures { OnOk result (text.new.items ≡ text.old.items ++ label_cell label.now) }
{
    put_left(text, LABEL, label)
}

/// Puts a cell last, with spaces before it up to a width.
#[tactic(auto, unfolding(crate::specs::Cells::right))]
pub(crate) fn put_right(text: &mut Vec<u8>, width: usize, cell: &[u8]) -> Result<(), NoMemory>
    ensures { OnOk result (text.new.items ≡ text.old.items ++ right width cell.now) }
{
    put_spaces(text, width.saturating_sub(cell.len()))?;
    put_octets(text, cell)
}

/// Puts a number last, with spaces before it up to a width.
pub(crate) fn put_count(
    alloc: Global,
    text: &mut Vec<u8>,
    width: usize,
    n: u64,
) -> Result<(), NoMemory>
    ensures { OnOk result (text.new.items ≡ text.old.items ++ right width (decimal n)) }
{
    // Formed by itself, since its length says how many spaces stand before it.
    let mut cell = Vec::new(alloc);
    put_number(&mut cell, n)?;
    put_right(text, width, cell.as_slice())
}
