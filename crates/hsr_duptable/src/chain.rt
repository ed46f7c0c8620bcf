//! Notes in chains: each leads to the next older one of its bucket.
ghost use Rattle.std.specs.Prelude.{◌≡◌, ◌≤◌, length};
ghost use Rattle.std.specs.Option.{option_copied};
ghost use Rattle.circular_buffer.specs.Buffer.{buffer};
ghost use Rattle.hsr_duptable.specs.Notes.{has_key, unexpired_notes, IsRising};
ghost use Rattle.hsr_duptable.specs.Buckets.{bucket_of, looks_of};
ghost use Rattle.hsr_duptable.specs.Chains.{notes_of, entry_of, last_entries, IsYoungest, AreLinked};

use crate::note::{Key, Note};
use circular_buffer::HeapCircularBuffer;

/// A note, and the serial of the next older one of its bucket, 0 where there never was one. Serials count all notes that
/// a table ever made, from 1 on.
#[derive(Clone, Copy)]
pub(crate) struct Entry {
    pub note: Note,
    pub older: u64,
}

/// The entry that has a serial, where it is still held; `gone` entries were dropped, the oldest ones.
fn held_entry(ring: &HeapCircularBuffer<Entry>, gone: u64, serial: u64) -> Option<&Entry>
    ensures { option_copied result ≡ entry_of gone ring.now.items serial }
{
    if serial > gone {
        // Serials follow one another and the oldest are gone, so a serial says the index.
        ring.get((serial - gone - 1) as usize)
    } else {
        None
    }
}

/// Whether an unexpired note has the key, and at how many notes of its bucket the search looked: from the youngest,
/// which has the serial `head`, until one has the key.
pub(crate) fn look_up<const C: usize>(
    ring: &HeapCircularBuffer<Entry>,
    gone: u64,
    head: u64,
    key: Key,
    forget: u64,
    at: u64,
) -> (bool, usize)
    requires head { IsYoungest C (bucket_of C key) gone ring.now.items head }
    requires links { AreLinked C gone ring.now.items }
    requires rising { IsRising 0 (notes_of ring.now.items) at }
    requires few { length ring.now.items ≤ C }
    ensures seen { result.0 ≡ has_key key (unexpired_notes forget at (notes_of ring.now.items)) }
    ensures looks { result.1 ≡ looks_of C key (notes_of ring.now.items) }
    ensures within { result.1 ≤ C }
{
    let mut serial = head;
    let mut looks = 0;
    // A chain ends at a serial that is no longer held: nothing is unlinked when a note is dropped.
    while let Some(entry) = held_entry(ring, gone, serial) {
        looks += 1;
        if entry.note.key == key {
            // No older one is unexpired where this one is expired.
            return (entry.note.is_unexpired(forget, at), looks);
        }
        serial = entry.older;
    }
    (false, looks)
}

/// Takes out the expired notes, which stand first.
pub(crate) fn drop_expired(ring: &mut HeapCircularBuffer<Entry>, forget: u64, at: u64)
    requires { IsRising 0 (notes_of ring.old.items) at }
    ensures notes { notes_of ring.new.items ≡ unexpired_notes forget at (notes_of ring.old.items) }
    ensures last { ring.new
        ≡ buffer (last_entries (length ring.new.items) ring.old.items) ring.old.capacity }
{
    // Notes stand by their moments, so the first that isn't expired ends the walk.
    while let Some(oldest) = ring.front() {
        if oldest.note.is_unexpired(forget, at) {
            return;
        }
        ring.pop_front();
    }
}
