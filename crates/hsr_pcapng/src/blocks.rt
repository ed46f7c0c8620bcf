//! The section header, an interface, a packet.
//!
//! A block, with offsets in octets; all numbers are little endian (draft-ietf-opsawg-pcapng section 3.1). The length of a
//! body is a multiple of 4:
//!
//! ```text
//! offset  octets
//!  0      4   block type
//!  4      4   length of the whole block: the body and 12
//!  8      n   body
//!  8 + n  4   the length again
//! ```
//!
//! Bodies, with offsets in the body. Each ends with options, which `octets` has drawn:
//!
//! ```text
//! section header (4.1), type 0A0D0D0A
//!  0      4   1A2B3C4D, which tells the order of octets
//!  4      2   major version 1
//!  6      2   minor version 0
//!  8      8   length of the section: all ones, so unknown
//! 16      ..  option 4, the program (shb_userappl); end of options
//!
//! interface description (4.2), type 1
//!  0      2   link type 1, Ethernet
//!  2      2   reserved, 0
//!  4      4   most octets that are captured of a packet: 0, so no bound
//!  8      ..  option 2, the name (if_name); option 3, the description (if_description);
//!             option 9, the unit of moments (if_tsresol), 6 for microseconds; end of options
//!
//! enhanced packet (4.3), type 6
//!  0      4   number of the interface, from 0 in the order of their descriptions
//!  4      4   upper half of the moment, in microseconds
//!  8      4   lower half of the moment
//! 12      4   octets that were captured
//! 16      4   octets of the packet
//! 20      n   the octets, with zeros up to a multiple of 4
//! ..      ..  option 1, a comment (opt_comment); end of options
//! ```
ghost use Rattle.std.specs.Prelude.{◌≡◌, ◌+◌, ◌++◌, ◌≤◌, ◌<◌, ◌^◌, length, IfErr, IfOk, OnOk};
ghost use Rattle.hsr_pcapng.specs.Blocks.{FitsInterface, FitsPacket, FitsSection, block, interface, interface_body, packet, packet_body, section_body, section_header};
ghost use Rattle.hsr_pcapng.specs.Faults.{IfTooLong};

use crate::fault::BlockFault;
use crate::octets::{put_end_of_options, put_option, put_padded, put_u16, put_u32};
use std::alloc::Global;

/// The type of a section header block (draft-ietf-opsawg-pcapng section 4.1).
const SECTION_HEADER: u32 = 0x0A0D_0D0A;

/// The type of an interface description block (section 4.2).
const INTERFACE_DESCRIPTION: u32 = 1;

/// The type of an enhanced packet block (section 4.3).
const ENHANCED_PACKET: u32 = 6;

/// Tells in which order the octets of numbers stand (section 4.1).
const BYTE_ORDER_MAGIC: u32 = 0x1A2B_3C4D;

/// The version of the format (section 4.1).
const MAJOR_VERSION: u16 = 1;

const MINOR_VERSION: u16 = 0;

/// The link type of Ethernet (section 4.2).
const LINKTYPE_ETHERNET: u16 = 1;

/// Where packets of any length are captured whole, as the most octets that are captured of one (section 4.2).
const NO_SNAPLEN: u32 = 0;

/// The option with a comment (section 3.5).
const OPT_COMMENT: u16 = 1;

/// The option with the name of the program (section 4.1).
const SHB_USERAPPL: u16 = 4;

/// The option with the name of an interface (section 4.2).
const IF_NAME: u16 = 2;

/// The option with the description of an interface (section 4.2).
const IF_DESCRIPTION: u16 = 3;

/// The option with the unit of moments (section 4.2).
const IF_TSRESOL: u16 = 9;

/// Puts a block last: its type, its length, its body, and its length again. `TooLong` exactly where its length doesn't fit.
#[tactic(auto, unfolding(crate::specs::Blocks::block))]
fn put_block(text: &mut Vec<u8>, block_type: u32, body: &[u8]) -> Result<(), BlockFault>
    ensures bytes { OnOk result (text.new.items ≡ text.old.items ++ block block_type body.now) }
    ensures fits { OnOk result (length body.now + 12 < 2 ^ 32) }
    ensures too_long { IfErr result (IfTooLong (2 ^ 32 ≤ length body.now + 12)) }
{
    let Ok(length) = u32::try_from(body.len()) else {
        return Err(BlockFault::TooLong);
    };
    // Type and both lengths are 12 octets, which the length counts too.
    let Some(length) = length.checked_add(12) else {
        return Err(BlockFault::TooLong);
    };
    put_u32(text, block_type)?;
    put_u32(text, length)?;
    text.extend_from_slice(body)?;
    // The length stands at the end too, so that a reader can walk backwards (section 3.1).
    put_u32(text, length)?;
    Ok(())
}

/// Puts a section header last, with the name of the program that wrote the capture. `TooLong` exactly where a length doesn't fit.
pub fn put_section_header(
    alloc: Global,
    text: &mut Vec<u8>,
    program: &[u8],
) -> Result<(), BlockFault>
    ensures bytes { OnOk result (text.new.items ≡ text.old.items ++ section_header program.now) }
    ensures fits { OnOk result (FitsSection program.now) }
    ensures too_long { IfErr result (IfTooLong (FitsSection program.now → ⊥)) }
{
    // A body is formed by itself, since its length stands before it.
    let body = section_body(alloc, program)?;
    put_block(text, SECTION_HEADER, body.as_slice())
}

/// The body of a section header (section 4.1, drawn above). `TooLong` where the program's name has 2^16 octets or more.
#[tactic(auto, unfolding(crate::specs::Blocks::section_body))]
fn section_body(alloc: Global, program: &[u8]) -> Result<Vec<u8>, BlockFault>
    ensures bytes { IfOk result (λ body. body.items ≡ section_body program.now) }
    ensures fits { OnOk result (length program.now < 2 ^ 16) }
    ensures too_long { IfErr result (IfTooLong (2 ^ 16 ≤ length program.now)) }
{
    let mut body = Vec::new(alloc);
    put_u32(&mut body, BYTE_ORDER_MAGIC)?;
    put_u16(&mut body, MAJOR_VERSION)?;
    put_u16(&mut body, MINOR_VERSION)?;
    // How long the section is isn't known yet, and all ones say so (section 4.1).
    body.extend_from_slice(b"\xFF\xFF\xFF\xFF\xFF\xFF\xFF\xFF")?;
    put_option(&mut body, SHB_USERAPPL, program)?;
    put_end_of_options(&mut body)?;
    Ok(body)
}

/// The body of an interface description (section 4.2, drawn above): Ethernet, moments in microseconds. `TooLong` where
/// the name or the description has 2^16 octets or more.
#[tactic(auto, unfolding(crate::specs::Blocks::interface_body))]
fn interface_body(alloc: Global, name: &[u8], description: &[u8]) -> Result<Vec<u8>, BlockFault>
    ensures bytes { IfOk result (λ body. body.items ≡ interface_body name.now description.now) }
    ensures name { OnOk result (length name.now < 2 ^ 16) }
    ensures description { OnOk result (length description.now < 2 ^ 16) }
    ensures too_long { IfErr result (IfTooLong
        (length name.now < 2 ^ 16 → length description.now < 2 ^ 16 → ⊥)) }
{
    let mut body = Vec::new(alloc);
    put_u16(&mut body, LINKTYPE_ETHERNET)?;
    // Reserved.
    put_u16(&mut body, 0)?;
    put_u32(&mut body, NO_SNAPLEN)?;
    put_option(&mut body, IF_NAME, name)?;
    put_option(&mut body, IF_DESCRIPTION, description)?;
    // Ten to the power of minus 6: microseconds.
    put_option(&mut body, IF_TSRESOL, b"\x06")?;
    put_end_of_options(&mut body)?;
    Ok(body)
}

/// Puts the description of an Ethernet interface last, with its name and its description; its moments are microseconds.
/// `TooLong` exactly where a length doesn't fit.
pub fn put_interface(
    alloc: Global,
    text: &mut Vec<u8>,
    name: &[u8],
    description: &[u8],
) -> Result<(), BlockFault>
    ensures bytes { OnOk result (text.new.items
        ≡ text.old.items ++ interface name.now description.now) }
    ensures fits { OnOk result (FitsInterface name.now description.now) }
    ensures too_long { IfErr result (IfTooLong (FitsInterface name.now description.now → ⊥)) }
{
    let body = interface_body(alloc, name, description)?;
    put_block(text, INTERFACE_DESCRIPTION, body.as_slice())
}

/// The body of an enhanced packet (section 4.3, drawn above), of which all octets are captured; its moment is in
/// microseconds.
#[tactic(auto, unfolding(crate::specs::Blocks::packet_body))]
fn packet_body(
    alloc: Global,
    interface: u32,
    moment: u64,
    octets: &[u8],
    comment: &[u8],
) -> Result<Vec<u8>, BlockFault>
    ensures bytes { IfOk result (λ body. body.items
        ≡ packet_body interface moment octets.now comment.now) }
    ensures fits { OnOk result (length comment.now < 2 ^ 16) }
    ensures too_long { IfErr result (IfTooLong
        (FitsPacket interface moment octets.now comment.now → ⊥)) }
{
    // Both lengths are the same: each copy is captured whole.
    let Ok(length) = u32::try_from(octets.len()) else {
        return Err(BlockFault::TooLong);
    };
    let mut body = Vec::new(alloc);
    put_u32(&mut body, interface)?;
    // Two numbers of 32 bits and not one of 64: the upper half comes first, though octets are little endian.
    put_u32(&mut body, (moment >> 32) as u32)?;
    put_u32(&mut body, (moment & 0xFFFF_FFFF) as u32)?;
    put_u32(&mut body, length)?;
    put_u32(&mut body, length)?;
    put_padded(&mut body, octets)?;
    put_option(&mut body, OPT_COMMENT, comment)?;
    put_end_of_options(&mut body)?;
    Ok(body)
}

/// Puts a packet last: the number of its interface, its moment in microseconds, its octets, and a comment. `TooLong` exactly
/// where a length doesn't fit.
pub fn put_packet(
    alloc: Global,
    text: &mut Vec<u8>,
    interface: u32,
    moment: u64,
    octets: &[u8],
    comment: &[u8],
) -> Result<(), BlockFault>
    ensures bytes { OnOk result (text.new.items
        ≡ text.old.items ++ packet interface moment octets.now comment.now) }
    ensures fits { OnOk result (FitsPacket interface moment octets.now comment.now) }
    ensures too_long { IfErr result (IfTooLong
        (FitsPacket interface moment octets.now comment.now → ⊥)) }
{
    let body = packet_body(alloc, interface, moment, octets, comment)?;
    put_block(text, ENHANCED_PACKET, body.as_slice())
}
