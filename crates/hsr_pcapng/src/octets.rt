//! Numbers, padding and options.
//!
//! An option, with offsets in octets (draft-ietf-opsawg-pcapng section 3.5). The last one has code 0 and length 0:
//!
//! ```text
//! offset  octets
//!  0      2   code
//!  2      2   length of the value, without the padding
//!  4      n   value, with zeros up to a multiple of 4
//! ```
ghost use Rattle.std.specs.Prelude.{◌≡◌, ◌++◌, ◌≤◌, ◌<◌, ◌^◌, length, IfErr, OnOk};
ghost use Rattle.hsr_pcapng.specs.Blocks.{end_of_options, number16, number32, option_of, padded};
ghost use Rattle.hsr_pcapng.specs.Faults.{IfTooLong};

use crate::fault::BlockFault;
use hsr_frame::NoMemory;

/// Puts a number of two octets last.
pub(crate) fn put_u16(text: &mut Vec<u8>, n: u16) -> Result<(), NoMemory>
    ensures { OnOk result (text.new.items ≡ text.old.items ++ number16 n) }
{
    text.extend_from_slice(n.to_le_bytes().as_slice())?;
    Ok(())
}

/// Puts a number of four octets last.
pub(crate) fn put_u32(text: &mut Vec<u8>, n: u32) -> Result<(), NoMemory>
    ensures { OnOk result (text.new.items ≡ text.old.items ++ number32 n) }
{
    text.extend_from_slice(n.to_le_bytes().as_slice())?;
    Ok(())
}

/// Puts octets last, with zeros up to a multiple of four octets.
pub(crate) fn put_padded(text: &mut Vec<u8>, octets: &[u8]) -> Result<(), NoMemory>
    ensures { OnOk result (text.new.items ≡ text.old.items ++ padded octets.now) }
{
    text.extend_from_slice(octets)?;
    let zeros: &[u8] = match octets.len() % 4 {
        0 => b"",
        1 => b"\0\0\0",
        2 => b"\0\0",
        _ => b"\0",
    };
    text.extend_from_slice(zeros)?;
    Ok(())
}

/// Puts an option last: its code, the length of its value, and the value with its padding. `TooLong` exactly where the value
/// has over 65535 octets.
#[tactic(auto, unfolding(crate::specs::Blocks::option_of))]
pub(crate) fn put_option(text: &mut Vec<u8>, code: u16, value: &[u8]) -> Result<(), BlockFault>
    ensures bytes { OnOk result (text.new.items ≡ text.old.items ++ option_of code value.now) }
    ensures fits { OnOk result (length value.now < 2 ^ 16) }
    ensures too_long { IfErr result (IfTooLong (2 ^ 16 ≤ length value.now)) }
{
    let Ok(length) = u16::try_from(value.len()) else {
        return Err(BlockFault::TooLong);
    };
    put_u16(text, code)?;
    put_u16(text, length)?;
    put_padded(text, value)?;
    Ok(())
}

/// Puts the end of a block's options last.
pub(crate) fn put_end_of_options(text: &mut Vec<u8>) -> Result<(), NoMemory>
    ensures { OnOk result (text.new.items ≡ text.old.items ++ end_of_options) }
{
    // Code 0 and length 0.
    text.extend_from_slice(b"\0\0\0\0")?;
    Ok(())
}
