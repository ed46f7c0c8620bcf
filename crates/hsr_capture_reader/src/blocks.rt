//! Where the blocks of a pcapng file stand (draft-ietf-opsawg-pcapng, section 3.1).
ghost use Rattle.std.specs.Prelude.{◌≡◌, ◌+◌, ◌≤◌, length, IfOk, IfSome};
ghost use Rattle.hsr_capture_reader.specs.Blocks.{block_of, is_section, order_at, section_order, start_of};

use crate::fault::CaptureFault;
use crate::numbers::ByteOrder;
use std::marker::Model;

/// A block: where it stands in its file, the byte order of its section, its type, and its body.
#[derive(Drop)]
pub(crate) struct Block<'a> {
    pub(crate) offset: usize,
    pub(crate) order: ByteOrder,
    pub(crate) block_type: u32,
    pub(crate) body: &'a [u8],
}

impl<'a> Model for Block<'a> {
    ghost use Rattle.hsr_capture_reader.specs.Blocks.{BlockFields};

    ghost Value = { BlockFields };

    ghost view = { λ b. record { offset = b.offset; order = b.order; block_type = b.block_type; body = b.body.now } };
}

/// The type of a block that begins a section: its octets are the same in either byte order.
pub(crate) const SECTION: u32 = 0x0A0D_0D0A;

/// What stands in front of a block's body: its type and its length.
pub(crate) const HEAD: usize = 8;

/// The shortest block: type, length, and length again.
const SHORTEST: usize = 12;

/// Whether a block begins a section.
pub(crate) fn is_section(octets: &[u8]) -> bool
    ensures { result ≡ is_section octets.now }
{
    octets.starts_with(&[0x0A, 0x0D, 0x0D, 0x0A])
}

/// The byte order that a block says, which begins a section.
fn section_order(octets: &[u8]) -> Option<ByteOrder>
    requires { 12 ≤ length octets.now }
    ensures { result ≡ section_order octets.now }
{
    match ByteOrder::Little.u32_at(octets, 8) {
        0x1A2B_3C4D => Some(ByteOrder::Little),
        0x4D3C_2B1A => Some(ByteOrder::Big),
        _ => None,
    }
}

/// The byte order of a block, behind blocks of one.
fn order_at(before: ByteOrder, octets: &[u8]) -> Option<ByteOrder>
    requires { 12 ≤ length octets.now }
    ensures { result ≡ order_at before octets.now }
{
    if is_section(octets) {
        section_order(octets)
    } else {
        Some(before)
    }
}

/// What begins a file or stands behind a block.
#[derive(Clone, Copy)]
pub(crate) struct Start {
    pub(crate) order: ByteOrder,
    pub(crate) len: usize,
}

/// The byte order and the length of the block that stands first, with its head and its foot, behind blocks of a byte order;
/// nothing where the file breaks off before its end.
#[tactic(auto, unfolding(crate::specs::Blocks::start_of))]
pub(crate) fn start_of(before: ByteOrder, octets: &[u8]) -> Result<Option<Start>, CaptureFault>
    ensures value { result ≡ start_of before octets.now }
    ensures shortest { IfOk result (λ s. IfSome s (λ start. 12 ≤ start.len)) }
    ensures room { IfOk result (λ s. IfSome s (λ start. start.len ≤ length octets.now)) }
{
    if octets.len() < SHORTEST {
        return Ok(None);
    }
    let Some(order) = order_at(before, octets) else {
        return Err(CaptureFault::ByteOrder);
    };
    let len = order.u32_at(octets, 4) as usize;
    if len < SHORTEST || len % 4 != 0 {
        return Err(CaptureFault::Block);
    }
    if octets.len() < len {
        return Ok(None);
    }
    if order.u32_at(octets, len - 4) as usize != len {
        return Err(CaptureFault::Block);
    }
    Ok(Some(Start { order, len }))
}

/// The block of this start that stands first, at this offset in its file.
pub(crate) fn block_of(offset: usize, start: Start, octets: &[u8]) -> Block<'_>
    requires shortest { 12 ≤ start.len }
    requires room { start.len ≤ length octets.now }
    ensures value { result ≡ block_of offset start octets.now }
    ensures long { length result.body + 12 ≡ start.len }
{
    Block {
        offset,
        order: start.order,
        block_type: start.order.u32_at(octets, 0),
        body: &octets[HEAD..start.len - 4],
    }
}
