//! The whole capture.
ghost use Rattle.std.specs.Prelude.{◌≡◌, ℕ, ◌<◌, ◌++◌, All, length, IfErr, IfOk, OnOk};
ghost use Rattle.std.specs.List.{flat_map};
ghost use Rattle.hsr_timeline.specs.Fronts.{lists_of};
ghost use Rattle.hsr_pcapng.specs.Faults.{IfTooLong};
ghost use Rattle.hsr_capture.specs.Capture.{capture, interface_of, interfaces_below, packet_of};
ghost use Rattle.hsr_capture.specs.Fits.{Fits, LinkFits, ShownFits};
ghost use Rattle.hsr_link.specs.declared.row.Dir.TheVariants.{Forth, Back};

use crate::packets::{put_direction, put_shown};
use hsr_finished_run::Closed;
use hsr_link::Dir;
use hsr_pcapng::{BlockFault, put_section_header};
use hsr_timeline::Shown;
use std::alloc::Global;

/// Puts both interfaces of a link last. `TooLong` exactly where one of them doesn't fit.
fn put_link<const C: usize>(
    alloc: Global,
    text: &mut Vec<u8>,
    names: &[Vec<u8>],
    closed: &Closed<C>,
    link: usize,
) -> Result<(), BlockFault>
    requires { link < length closed.now.run.links }
    ensures bytes { OnOk result (text.new.items
        ≡ text.old.items ++ (interface_of (lists_of names.now) closed.now.run link Forth
        ++ interface_of (lists_of names.now) closed.now.run link Back)) }
    ensures fits { OnOk result (LinkFits (lists_of names.now) closed.now.run link) }
    ensures too_long { IfErr result (IfTooLong
        (LinkFits (lists_of names.now) closed.now.run link → ⊥)) }
{
    put_direction(alloc, text, names, closed, link, Dir::Forth)?;
    put_direction(alloc, text, names, closed, link, Dir::Back)
}

/// Puts the interfaces of all links last. `TooLong` exactly where one of them doesn't fit.
fn put_interfaces<const C: usize>(
    alloc: Global,
    text: &mut Vec<u8>,
    names: &[Vec<u8>],
    closed: &Closed<C>,
) -> Result<(), BlockFault>
    ensures bytes { OnOk result (text.new.items
        ≡ text.old.items ++ interfaces_below (lists_of names.now) closed.now.run
        (length closed.now.run.links)) }
    ensures fits { OnOk result ((l : ℕ) → l < length closed.now.run.links
        → LinkFits (lists_of names.now) closed.now.run l) }
    ensures too_long { IfErr result (IfTooLong
        (((l : ℕ) → l < length closed.now.run.links
        → LinkFits (lists_of names.now) closed.now.run l) → ⊥)) }
{
    for link in 0..closed.topology().links().len() {
        put_link(alloc, text, names, closed, link)?;
    }
    Ok(())
}

/// Puts the packets of rows last, one after another. `TooLong` exactly where one of them doesn't fit.
fn put_packets<const C: usize>(
    alloc: Global,
    text: &mut Vec<u8>,
    names: &[Vec<u8>],
    closed: &Closed<C>,
    rows: &[Shown],
) -> Result<(), BlockFault>
    ensures bytes { OnOk result (text.new.items
        ≡ text.old.items ++ flat_map (packet_of (lists_of names.now) closed.now.run) rows.now) }
    ensures fits { OnOk result (All (ShownFits (lists_of names.now) closed.now.run) rows.now) }
    ensures too_long { IfErr result (IfTooLong
        (All (ShownFits (lists_of names.now) closed.now.run) rows.now → ⊥)) }
{
    for shown in rows {
        put_shown(alloc, text, names, closed, shown)?;
    }
    Ok(())
}

/// The capture of rows of a finished run, in their order: a section header, an interface for each direction of each link (an Ethernet
/// of whole octets, with its ports as name), and for each row a packet with its octets, its moment in microseconds, and a comment:
/// what became of the copy, by the entry that judged it or by its fate, and of which send it is. A node without a name is `n` and its
/// number. `TooLong` exactly where a name or a comment has over 65535 octets, or a block 2^32 octets or more, `NoMemory` if allocation
/// fails.
pub fn capture<const C: usize>(
    alloc: Global,
    closed: &Closed<C>,
    names: &[Vec<u8>],
    rows: &[Shown],
) -> Result<Vec<u8>, BlockFault>
    ensures text { IfOk result (λ text. text.items
        ≡ capture (lists_of names.now) closed.now.run rows.now) }
    ensures fits { OnOk result (Fits (lists_of names.now) closed.now.run rows.now) }
    ensures too_long { IfErr result (IfTooLong
        (Fits (lists_of names.now) closed.now.run rows.now → ⊥)) }
{
    let mut text = Vec::new(alloc);
    // Interfaces come before packets, which name them by number (draft-ietf-opsawg-pcapng section 4.3).
    put_section_header(alloc, &mut text, b"hsr_view")?;
    put_interfaces(alloc, &mut text, names, closed)?;
    put_packets(alloc, &mut text, names, closed, rows)?;
    Ok(text)
}
