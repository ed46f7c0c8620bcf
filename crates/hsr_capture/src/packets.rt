//! Interfaces and packets.
ghost use Rattle.std.specs.Prelude.{◌≡◌, ◌<◌, ◌++◌, length, Some, IfErr, OnOk};
ghost use Rattle.hsr_timeline.specs.Fronts.{lists_of};
ghost use Rattle.hsr_capture.specs.Capture.{interface_number, interface_of, packet_if, packet_of};
ghost use Rattle.hsr_capture.specs.Comments.{comment_of};
ghost use Rattle.hsr_capture.specs.Fits.{DirectionFits, RowFits, ShownFits};
ghost use Rattle.hsr_pcapng.specs.Faults.{IfTooLong};

use crate::comments::{put_comment, put_interface_description, put_interface_name};
use hsr_finished_run::Closed;
use hsr_frame::NoMemory;
use hsr_link::{Dir, Row};
use hsr_pcapng::{BlockFault, put_interface, put_packet};
use hsr_timeline::Shown;
use std::alloc::Global;

/// Puts the interface of a link's direction last. `TooLong` exactly where it doesn't fit.
pub(crate) fn put_direction<const C: usize>(
    alloc: Global,
    text: &mut Vec<u8>,
    names: &[Vec<u8>],
    closed: &Closed<C>,
    link: usize,
    dir: Dir,
) -> Result<(), BlockFault>
    requires { link < length closed.now.run.links }
    ensures bytes { OnOk result (text.new.items
        ≡ text.old.items ++ interface_of (lists_of names.now) closed.now.run link dir) }
    ensures fits { OnOk result (DirectionFits (lists_of names.now) closed.now.run link dir) }
    ensures too_long { IfErr result (IfTooLong
        (DirectionFits (lists_of names.now) closed.now.run link dir → ⊥)) }
{
    let mut name = Vec::new(alloc);
    let from = closed.from_end(link, dir);
    let to = closed.to_end(link, dir);
    put_interface_name(&mut name, names, closed.topology().places(), from, to)?;
    let mut description = Vec::new(alloc);
    put_interface_description(&mut description, link, dir)?;
    put_interface(alloc, text, name.as_slice(), description.as_slice())
}

/// The number of a link's direction among the interfaces.
fn interface_number(link: usize, dir: Dir) -> u32
    requires { link < 128 }
    ensures { result ≡ interface_number link dir }
{
    // Each link has two interfaces, Forth before Back, in the order in which they were put.
    let forth = 2 * (link as u32);
    match dir {
        Dir::Forth => forth,
        Dir::Back => forth + 1,
    }
}

/// Puts the packet of a row last. `TooLong` exactly where it doesn't fit.
fn put_row<const C: usize>(
    alloc: Global,
    text: &mut Vec<u8>,
    names: &[Vec<u8>],
    closed: &Closed<C>,
    shown: &Shown,
    row: &Row,
) -> Result<(), BlockFault>
    requires below { shown.now.link < length closed.now.run.links }
    requires few { shown.now.link < 128 }
    ensures bytes { OnOk result (text.new.items
        ≡ text.old.items ++ packet_if (lists_of names.now) closed.now.run shown.now
        (Some row.now)) }
    ensures fits { OnOk result (RowFits (lists_of names.now) closed.now.run shown.now
        (Some row.now)) }
    ensures too_long { IfErr result (IfTooLong
        (RowFits (lists_of names.now) closed.now.run shown.now (Some row.now) → ⊥)) }
{
    let to = closed.to_end(shown.link, row.dir);
    let mut comment = Vec::new(alloc);
    put_comment(&mut comment, names, closed, shown, row, to)?;
    put_packet(
        alloc,
        text,
        interface_number(shown.link, row.dir),
        shown.moment,
        row.carried.octets.as_slice(),
        comment.as_slice(),
    )
}

/// Puts the packet of a row last, if there is such a row. `TooLong` exactly where it doesn't fit.
pub(crate) fn put_shown<const C: usize>(
    alloc: Global,
    text: &mut Vec<u8>,
    names: &[Vec<u8>],
    closed: &Closed<C>,
    shown: &Shown,
) -> Result<(), BlockFault>
    ensures bytes { OnOk result (text.new.items
        ≡ text.old.items ++ packet_of (lists_of names.now) closed.now.run shown.now) }
    ensures fits { OnOk result (ShownFits (lists_of names.now) closed.now.run shown.now) }
    ensures too_long { IfErr result (IfTooLong
        (ShownFits (lists_of names.now) closed.now.run shown.now → ⊥)) }
{
    // Rows of another run may name a link that isn't there: they give no packet.
    if shown.link >= closed.topology().links().len() {
        return Ok(());
    }
    match closed.rows_at(shown.link).get(shown.number) {
        Some(row) => put_row(alloc, text, names, closed, shown, row),
        None => Ok(()),
    }
}

/// Puts the comment of a row of a run last, if there is such a row: what became of its copy, of which send it is, which entry judged it, and
/// the sequence number of its frame.
/// `NoMemory` if allocation fails; a front of the comment may stand there then.
pub fn put_shown_comment<const C: usize>(
    text: &mut Vec<u8>,
    names: &[Vec<u8>],
    closed: &Closed<C>,
    shown: &Shown,
) -> Result<(), NoMemory>
    ensures { OnOk result (text.new.items ≡ text.old.items
        ++ comment_of (lists_of names.now) closed.now.run shown.now) }
{
    if shown.link >= closed.topology().links().len() {
        return Ok(());
    }
    match closed.rows_at(shown.link).get(shown.number) {
        Some(row) => {
            let to = closed.to_end(shown.link, row.dir);
            put_comment(text, names, closed, shown, row, to)
        }
        None => Ok(()),
    }
}
