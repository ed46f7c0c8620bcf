//! What supervision frames say.
ghost use Rattle.std.specs.Prelude.{◌≡◌, ◌<◌, ◌^◌, ◌++◌, length, option_to_list, IfOk, OnOk};
ghost use Rattle.hsr_heard.specs.Hearing.{AreHeard, heard_by, heard_if, padded, unread_by, unread_if};
ghost use Rattle.hsr_sightings.specs.Frames.{begins};
ghost use Rattle.hsr_sightings.specs.Read.{TellsEach};
ghost use Rattle.hsr_supervision.specs.Payload.{read_of};

use hsr_frame::{Mac, NoMemory};
use hsr_frame_copies::Copy;
use hsr_frame_groups::Caught;
use hsr_sightings::Ring;
use hsr_supervision::{SupFault, Supervision};
use std::alloc::Global;

/// A copy of a supervision frame, with what it says: who sent it, its index among the copies, its moment in nanoseconds since 1970, and its way.
#[derive(Clone, Copy)]
pub struct Heard {
    pub said: Supervision,
    pub source: Mac,
    pub copy: u32,
    pub at: u64,
    pub way: u8,
    /// Whether it began its frame.
    pub begins: bool,
}

/// All copies that can be read, in the order of time, and the copies that began frames that can't, by index.
#[derive(Drop)]
pub struct Hearing {
    pub heard: Vec<Heard>,
    pub unread: Vec<u32>,
}

/// What a payload says, with zeros for what wasn't captured.
fn said_by(alloc: Global, copy: &Copy<'_>) -> Result<Result<Supervision, SupFault>, NoMemory>
    ensures { IfOk result (λ read. read ≡ read_of (padded copy.now)) }
{
    if copy.payload.len() >= copy.length {
        return Ok(Supervision::read(copy.payload));
    }
    let mut payload = Vec::from_slice(alloc, copy.payload)?;
    payload.resize(copy.length, 0)?;
    Ok(Supervision::read(payload.as_slice()))
}

/// Puts what a copy says behind others, or the copy among those that can't be read.
fn put_read(
    hearing: &mut Hearing,
    ring: &Ring<'_>,
    caught: &Caught<'_>,
    i: u32,
    begins: bool,
    read: Result<Supervision, SupFault>,
) -> Result<(), NoMemory>
    ensures heard { OnOk result (hearing.new.heard.items ≡ hearing.old.heard.items ++ option_to_list (heard_by ring.now i begins caught.now read)) }
    ensures unread { OnOk result (hearing.new.unread.items ≡ hearing.old.unread.items ++ option_to_list (unread_by i begins read)) }
{
    match read {
        Ok(said) => {
            hearing.heard.push(Heard {
                said,
                source: caught.copy().src,
                copy: i,
                at: caught.at(),
                way: ring.way_at(caught.direction()),
                begins,
            })?;
        }
        Err(_) => {
            if begins {
                hearing.unread.push(i)?;
            }
        }
    }
    Ok(())
}

/// Puts a copy, if it is of a supervision frame.
fn put_copy(
    alloc: Global,
    hearing: &mut Hearing,
    ring: &Ring<'_>,
    caught: &Caught<'_>,
    i: u32,
    begins: bool,
) -> Result<(), NoMemory>
    ensures heard { OnOk result (hearing.new.heard.items ≡ hearing.old.heard.items ++ option_to_list (heard_if ring.now i begins caught.now)) }
    ensures unread { OnOk result (hearing.new.unread.items ≡ hearing.old.unread.items ++ option_to_list (unread_if i begins caught.now)) }
{
    if !caught.copy().is_supervision() {
        return Ok(());
    }
    let read = said_by(alloc, &caught.copy())?;
    put_read(hearing, ring, caught, i, begins, read)
}

/// What the supervision frames among copies say, by whether each copy begins a frame. `NoMemory` where room is refused.
pub fn hearing_of(
    alloc: Global,
    ring: &Ring<'_>,
    copies: &[Caught<'_>],
    began: &[bool],
) -> Result<Hearing, NoMemory>
    requires few { length copies.now < 2 ^ 32 }
    requires began { TellsEach begins copies.now began.now }
    ensures { IfOk result (λ hearing. AreHeard ring.now copies.now hearing.heard.items hearing.unread.items) }
{
    let mut hearing = Hearing {
        heard: Vec::new(alloc),
        unread: Vec::new(alloc),
    };
    for i in 0..copies.len() {
        put_copy(alloc, &mut hearing, ring, &copies[i], i as u32, began[i])?;
    }
    Ok(hearing)
}
