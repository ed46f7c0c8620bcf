//! Values with tags and lengths, and numbers in big endian.
ghost use Rattle.std.specs.Prelude.{◌≡◌, ◌≤◌, ◌<◌, ◌^◌, ◌++◌, ◌∷◌, [], length, replicate, IfOk, OnOk};
ghost use Rattle.hsr_plan_payload.specs.Ber.{four, integer, length_octets, pair, tagged, three};

use hsr_frame::NoMemory;
use std::alloc::Global;

/// Puts the last two octets of a number behind others.
pub(crate) fn put_pair(out: &mut Vec<u8>, number: usize) -> Result<(), NoMemory>
    ensures { OnOk result (out.new.items ≡ out.old.items ++ pair number) }
{
    out.push((number / 256 % 256) as u8)?;
    out.push((number % 256) as u8)?;
    Ok(())
}

/// Puts the last three octets of a number behind others.
pub(crate) fn put_three(out: &mut Vec<u8>, number: usize) -> Result<(), NoMemory>
    ensures { OnOk result (out.new.items ≡ out.old.items ++ three number) }
{
    out.push((number / 65536 % 256) as u8)?;
    put_pair(out, number)
}

/// Puts the last four octets of a number behind others.
pub(crate) fn put_four(out: &mut Vec<u8>, number: usize) -> Result<(), NoMemory>
    ensures { OnOk result (out.new.items ≡ out.old.items ++ four number) }
{
    put_pair(out, number / 65536)?;
    put_pair(out, number)
}

/// Puts zeros behind others.
pub(crate) fn put_zeros(out: &mut Vec<u8>, count: usize) -> Result<(), NoMemory>
    ensures { OnOk result (out.new.items ≡ out.old.items ++ replicate count 0) }
{
    for _done in 0..count {
        out.push(0)?;
    }
    Ok(())
}

/// Puts the length of a value behind others.
fn put_length(out: &mut Vec<u8>, count: usize) -> Result<(), NoMemory>
    ensures { OnOk result (out.new.items ≡ out.old.items ++ length_octets count) }
{
    // A length above 127 is told by one octet of how many follow, and these (ITU-T X.690 section 8.1.3).
    if count < 128 {
        out.push(count as u8)?;
    } else if count < 256 {
        out.push(0x81)?;
        out.push(count as u8)?;
    } else {
        out.push(0x82)?;
        put_pair(out, count)?;
    }
    Ok(())
}

/// Puts a value with its tag and its length behind others.
#[tactic(auto, unfolding(crate::specs::Ber::tagged))]
pub(crate) fn put_tagged(out: &mut Vec<u8>, tag: u8, value: &[u8]) -> Result<(), NoMemory>
    ensures { OnOk result (out.new.items ≡ out.old.items ++ tagged tag value.now) }
{
    out.push(tag)?;
    put_length(out, value.len())?;
    out.extend_from_slice(value)?;
    Ok(())
}

/// An integer, from 0 to 2^32 - 1, as the value of a field.
#[tactic(auto, unfolding(crate::specs::Ber::integer))]
pub(crate) fn integer(alloc: Global, number: usize) -> Result<Vec<u8>, NoMemory>
    ensures { IfOk result (λ v. v.items ≡ integer number) }
{
    let mut value = Vec::new(alloc);
    // The first bit is the sign, so each length has half the numbers (ITU-T X.690 section 8.3).
    if number < 128 {
        value.push(number as u8)?;
    } else if number < 32768 {
        put_pair(&mut value, number)?;
    } else if number < 8_388_608 {
        put_three(&mut value, number)?;
    } else if number < 2_147_483_648 {
        put_four(&mut value, number)?;
    } else {
        value.push(0)?;
        put_four(&mut value, number)?;
    }
    Ok(value)
}

/// Puts a field that is an integer behind others.
pub(crate) fn put_integer(
    alloc: Global,
    out: &mut Vec<u8>,
    tag: u8,
    number: usize,
) -> Result<(), NoMemory>
    ensures { OnOk result (out.new.items ≡ out.old.items ++ tagged tag (integer number)) }
{
    let value = integer(alloc, number)?;
    put_tagged(out, tag, value.as_slice())
}

/// Puts a field of zeros behind others.
pub(crate) fn put_tagged_zeros(
    alloc: Global,
    out: &mut Vec<u8>,
    tag: u8,
    count: usize,
) -> Result<(), NoMemory>
    ensures { OnOk result (out.new.items ≡ out.old.items ++ tagged tag (replicate count 0)) }
{
    let mut value = Vec::new(alloc);
    put_zeros(&mut value, count)?;
    put_tagged(out, tag, value.as_slice())
}
