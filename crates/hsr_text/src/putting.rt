//! Texts that grow by words, octets and numbers, where a failed allocation is `NoMemory`.
ghost use Rattle.std.specs.Prelude.{◌≡◌, ◌++◌, OnErr, OnOk};
ghost use Rattle.std.specs.Fmt.{decimal};

use crate::words::put_decimal;
use hsr_frame::NoMemory;

/// Puts octets last. `NoMemory` if allocation fails: then nothing changes.
pub fn put_octets(text: &mut Vec<u8>, octets: &[u8]) -> Result<(), NoMemory>
    ensures ok { OnOk result (text.new.items ≡ text.old.items ++ octets.now) }
    ensures err { OnErr result (text.new.items ≡ text.old.items) }
{
    text.extend_from_slice(octets)?;
    Ok(())
}

/// Puts words last. `NoMemory` if allocation fails: then nothing changes.
pub fn put(text: &mut Vec<u8>, words: &str) -> Result<(), NoMemory>
    ensures ok { OnOk result (text.new.items ≡ text.old.items ++ words.now) }
    ensures err { OnErr result (text.new.items ≡ text.old.items) }
{
    put_octets(text, words.as_bytes())
}

/// Puts a number in decimal digits last. `NoMemory` if allocation fails: then nothing changes.
pub fn put_number(text: &mut Vec<u8>, n: u64) -> Result<(), NoMemory>
    ensures ok { OnOk result (text.new.items ≡ text.old.items ++ decimal n) }
    ensures err { OnErr result (text.new.items ≡ text.old.items) }
{
    put_decimal(text, n)?;
    Ok(())
}
