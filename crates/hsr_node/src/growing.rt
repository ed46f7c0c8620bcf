//! Room in lists that only grow.
ghost use Rattle.std.specs.Prelude.{◌≡◌, ◌+◌, ◌≤◌, OnOk, vec_capacity, vec_len};

use hsr_frame::NoMemory;

/// The least room that a list gets, in entries.
const FIRST_ROOM: usize = 32;

/// How many entries a long list has at least.
const LONG_LIST: usize = 1024;

/// The most entries for which room is taken at once because they are expected.
const ROOM_AT_ONCE: usize = 65_536;

/// How many entries more a list of this length gets room for, where nothing tells how many are expected.
fn usual_growth(len: usize) -> usize
    ensures { 1 ≤ result }
{
    if len < LONG_LIST {
        // Four times as much: a list that is moved as it grows is copied half as often so.
        len.saturating_mul(3).max(FIRST_ROOM)
    } else {
        // Twice as much, since a long list leaves a gap where it was, which the lists that grow beside it don't fill.
        len
    }
}

/// How many entries more a list of this length gets room for, of which this many are expected in all.
fn growth_of(len: usize, expected: usize) -> usize
    ensures { 1 ≤ result }
{
    // At first as usual: else what nothing happens to would have room for all that is expected.
    if len < FIRST_ROOM {
        usual_growth(len)
    } else {
        usual_growth(len).max(expected.min(ROOM_AT_ONCE).saturating_sub(len))
    }
}

/// Makes room for one more at the end of a list that only grows, as a record or the rows of a link; `expected` is how many are expected in
/// all, 0 where that isn't known. `NoMemory` if allocation fails; the list itself stays as it is.
pub fn make_room<T>(list: &mut Vec<T>, expected: usize) -> Result<(), NoMemory>
    ensures items { list.new.items ≡ list.old.items }
    ensures len { vec_len list.new ≡ vec_len list.old }
    ensures ok { OnOk result (vec_len list.new + 1 ≤ vec_capacity list.new) }
{
    if list.len() < list.capacity() {
        return Ok(());
    }
    list.reserve(growth_of(list.len(), expected))?;
    Ok(())
}
