//! The words of a fault.
ghost use Rattle.std.specs.Prelude.{◌≡◌, ◌++◌, OnOk};
ghost use Rattle.hsr_tap_device.specs.Fault.{key_text};
ghost use Rattle.hsr_tap_device.specs.Telling.{device_words};

use crate::fault::{DeviceFault, Key};
use hsr_frame::NoMemory;
use hsr_text::put;
use hsr_toml::put_shown;

/// Puts a key and what is wrong with it.
fn put_key(line: &mut Vec<u8>, key: Key, what: &str) -> Result<(), NoMemory>
    ensures { OnOk result (line.new.items ≡ line.old.items ++ (key_text key ++ what.now)) }
{
    put(line, key.text())?;
    put(line, what)
}

/// Puts the words of a fault last, as they stand behind `fault: device `. A key that documents don't have is told without control
/// octets. `NoMemory` where room is refused.
pub fn put_device_fault(line: &mut Vec<u8>, fault: &DeviceFault) -> Result<(), NoMemory>
    ensures { OnOk result (line.new.items ≡ line.old.items ++ device_words fault.now) }
{
    match fault {
        DeviceFault::Text => put(line, "top text"),
        DeviceFault::Unknown(word) => {
            put_shown(line, word.as_slice())?;
            put(line, " unknown")
        }
        DeviceFault::WrongKind(key) => put_key(line, *key, " wrong-kind"),
        DeviceFault::Missing(key) => put_key(line, *key, " missing"),
        DeviceFault::Unwanted(key) => put_key(line, *key, " unknown"),
        DeviceFault::BadValue(key) => put_key(line, *key, " bad-value"),
        DeviceFault::NoMemory => put(line, "memory"),
    }
}
