//! The duplicate table: a ring of notes in as many chains as it has room for notes.
ghost use Rattle.std.specs.Prelude.{◌≡◌, ◌&&◌, not, ℕ, ◌^◌, ◌<◌, ◌≤◌, length, IfOk};
ghost use Rattle.hsr_frame.specs.Counters.{step_limit};
ghost use Rattle.hsr_duptable.specs.Table.{IsTableSize};
ghost use Rattle.hsr_duptable.specs.Log.{AnswersAsLog};

use crate::chain::{Entry, drop_expired, look_up};
use crate::note::{Key, Note};
use byteorder::{BigEndian, ByteOrder};
use circular_buffer::HeapCircularBuffer;
use hsr_frame::NoMemory;
use std::alloc::Global;
use std::marker::Model;

/// The frames that passed an egress, the youngest `C` of them, `C` from 1 to 65535.
///
/// A clause sees the list of its notes, the oldest first. Only `new` takes memory. The notes lie in `C` buckets, and a
/// frame is sought in its own bucket alone.
#[derive(Drop)]
pub struct DupTable<const C: usize> {
    ring: HeapCircularBuffer<Entry>,
    // for each bucket the serial of its youngest note
    heads: Vec<u64>,
    forget: u64,
    // Both are kept here, so that no call of a role needs a premise on its moment or its room.
    last: u64,
    noted: u64,
}

impl<const C: usize> Model for DupTable<C> {
    ghost use Rattle.hsr_duptable.specs.Table.{Table, IsSound};
    ghost use Rattle.hsr_duptable.specs.Chains.{notes_of, AreChained};

    ghost Value = { Table };

    ghost view = { λ t. record { notes = notes_of t.ring.items; forget = t.forget; last = t.last; noted = t.noted } };

    ghost invariant = { λ t. IsSound C t.ring.capacity (notes_of t.ring.items) t.last × AreChained C t.ring.items t.heads.items t.noted };
}

impl<const C: usize> DupTable<C> {
    ghost use Rattle.hsr_duptable.specs.Table.{empty_table, remembers, after_note, after_pass, after_age};
    ghost use Rattle.hsr_duptable.specs.Buckets.{bucket_of, looks_of};

    /// A table that holds nothing, and remembers a frame until `forget` microseconds have passed;
    /// `NoMemory` where allocation of `C` notes or of the heads of `C` buckets fails.
    pub fn new(alloc: Global, forget: u64) -> Result<Self, NoMemory>
        requires { IsTableSize C }
        ensures { IfOk result (λ table. table ≡ empty_table forget) }
    {
        let ring = HeapCircularBuffer::with_capacity(alloc, C)?;
        let heads = vec![in alloc; 0u64; C]?;
        Ok(DupTable {
            ring,
            heads,
            forget,
            last: 0,
            noted: 0,
        })
    }

    /// The bucket of a frame: 31 times the source, six octets with the highest first, and the sequence number, modulo `C`.
    pub fn bucket(key: Key) -> usize
        requires { 1 ≤ C }
        ensures value { result ≡ bucket_of C key }
        ensures within { result < C }
    {
        // No overflow: 31 times 48 bits, and 16 bits, are below 2^54.
        let source = BigEndian::read_u48(&key.src.octets());
        ((31 * source + key.seq as u64) % C as u64) as usize
    }

    /// How many notes are held.
    pub fn held(&self) -> usize
        ensures held { result ≡ length self.now.notes }
        ensures within { result ≤ C }
    {
        self.ring.len()
    }

    /// How many notes were ever made.
    pub fn noted(&self) -> u64
        ensures { result ≡ self.now.noted }
    {
        self.noted
    }

    /// The moment of the latest `note` or `age`, in microseconds; 0 at first.
    pub fn last(&self) -> u64
        ensures { result ≡ self.now.last }
    {
        self.last
    }

    /// Whether the frame is remembered at a moment, in microseconds.
    pub fn seen(&self, key: Key, at: u64) -> bool
        requires { self.now.last ≤ at }
        ensures { result ≡ remembers self.now key at }
    {
        self.seen_looks(key, at).0
    }

    /// What `seen` answers, and at how many notes the search looked: those held of the frame's bucket, from the youngest
    /// down to and with the first one of the frame; all of them where none is. The moment is in microseconds.
    pub fn seen_looks(&self, key: Key, at: u64) -> (bool, usize)
        requires { self.now.last ≤ at }
        ensures seen { result.0 ≡ remembers self.now key at }
        ensures looks { result.1 ≡ looks_of C key self.now.notes }
        ensures within { result.1 ≤ C }
    {
        // No field keeps how many are gone: it is what was noted less what is held.
        let gone = self.noted - self.ring.len() as u64;
        let head = self.heads[Self::bucket(key)];
        look_up::<C>(&self.ring, gone, head, key, self.forget, at)
    }

    /// Notes that the frame passed at a moment, in microseconds; a full table drops its oldest note.
    pub fn note(&mut self, key: Key, at: u64)
        requires later { self.old.last ≤ at }
        requires room { self.old.noted < step_limit }
        ensures { self.new ≡ after_note C self.old key at }
    {
        let serial = self.noted + 1;
        let bucket = Self::bucket(key);
        let older = self.heads[bucket];
        let note = Note { key, moment: at };
        // A full ring overwrites its front, the oldest note. Its serial stays in `heads` and in chains, and ends them.
        self.ring.push_back(Entry { note, older });
        self.heads[bucket] = serial;
        self.noted = serial;
        self.last = at;
    }

    /// Passes a frame at an egress that wants it and doesn't remember it, notes that, and tells whether it passed;
    /// the moment is in microseconds (IEC 62439-3 clause 5.3).
    pub fn pass(&mut self, wanted: bool, key: Key, at: u64) -> bool
        requires later { self.old.last ≤ at }
        requires room { self.old.noted < step_limit }
        ensures passes { result ≡ (wanted && not (remembers self.old key at)) }
        ensures noted { self.new ≡ after_pass C self.old result key at }
    {
        // Look and note are one call, so that no role forgets either.
        let passes = wanted && !self.seen(key, at);
        self.mark(passes, key, at);
        passes
    }

    /// Notes a frame if it passes without a look, at a moment in microseconds.
    pub fn mark(&mut self, passes: bool, key: Key, at: u64)
        requires later { self.old.last ≤ at }
        requires room { self.old.noted < step_limit }
        ensures { self.new ≡ after_pass C self.old passes key at }
    {
        if passes {
            self.note(key, at);
        }
    }

    /// Drops the notes that are expired at a moment, in microseconds.
    pub fn age(&mut self, at: u64)
        requires { self.old.last ≤ at }
        ensures { self.new ≡ after_age self.old at }
    {
        // `heads` stays as it is: a serial that is no longer held ends a chain.
        drop_expired(&mut self.ring, self.forget, at);
        self.last = at;
    }
}

/// Whatever is noted and aged, a table answers as the log of all its notes does: ageing changes no answer.
pub fn answers_as_log<const C: usize>()
    ensures { (forget : ℕ) → AnswersAsLog C forget }
{}
