//! Lists of what passes a test.
ghost use Rattle.std.specs.Prelude.{◌≡◌, ◌∷◌, [], ◌++◌, if◌then◌else◌, OnOk};

use hsr_frame::NoMemory;

/// Puts an item last, if it is one of those that are listed. `NoMemory` if allocation fails.
pub fn push_if<T: Copy + Drop>(items: &mut Vec<T>, is_one: bool, item: T) -> Result<(), NoMemory>
    ensures { OnOk result (items.new.items ≡ items.old.items
        ++ (if is_one then item ∷ [] else [])) }
{
    if is_one {
        items.push(item)?;
    }
    Ok(())
}
