//! Moments in the unit that reads best.
ghost use Rattle.std.specs.Prelude.{◌≡◌, ◌<◌, ◌+◌, ◌++◌, ◌∷◌, [], OnOk};
ghost use Rattle.hsr_diagram_text.specs.Moments.{digits_of, millionths, milliseconds, moment_text, seconds, thousandths};

use hsr_frame::NoMemory;
use hsr_text::{put, put_number};

/// The digit of a number below 10.
fn digit(n: u64) -> u8
    requires { n < 10 }
    ensures { result ≡ 48 + n }
{
    b'0' + n as u8
}

/// Puts the three digits of a number below 1000 last.
fn put_digits(text: &mut Vec<u8>, n: u64) -> Result<(), NoMemory>
    requires { n < 1000 }
    ensures { OnOk result (text.new.items ≡ text.old.items ++ digits_of n) }
{
    // Leading zeros too: these are digits of a fraction.
    text.push(digit(n / 100))?;
    text.push(digit(n / 10 % 10))?;
    text.push(digit(n % 10))?;
    Ok(())
}

/// Puts what is left of a unit last, in thousandths, if there is any.
fn put_thousandths(text: &mut Vec<u8>, n: u64) -> Result<(), NoMemory>
    requires { n < 1000 }
    ensures { OnOk result (text.new.items ≡ text.old.items ++ thousandths n) }
{
    if n == 0 {
        return Ok(());
    }
    put(text, ".")?;
    put_digits(text, n)
}

/// Puts what is left of a unit last, in millionths, if there is any.
fn put_millionths(text: &mut Vec<u8>, n: u64) -> Result<(), NoMemory>
    requires { n < 1000000 }
    ensures { OnOk result (text.new.items ≡ text.old.items ++ millionths n) }
{
    // So a fraction ends with no three zeros.
    if n % 1000 == 0 {
        return put_thousandths(text, n / 1000);
    }
    put(text, ".")?;
    put_digits(text, n / 1000)?;
    put_digits(text, n % 1000)
}

/// Puts microseconds last as milliseconds.
fn put_milliseconds(text: &mut Vec<u8>, moment: u64) -> Result<(), NoMemory>
    ensures { OnOk result (text.new.items ≡ text.old.items ++ milliseconds moment) }
{
    put_number(text, moment / 1000)?;
    put_thousandths(text, moment % 1000)?;
    put(text, " ms")
}

/// Puts microseconds last as seconds.
fn put_seconds(text: &mut Vec<u8>, moment: u64) -> Result<(), NoMemory>
    ensures { OnOk result (text.new.items ≡ text.old.items ++ seconds moment) }
{
    put_number(text, moment / 1000000)?;
    put_millionths(text, moment % 1000000)?;
    put(text, " s")
}

/// Puts a moment in microseconds last, in the unit that reads best: nothing of it is left out.
pub(crate) fn put_moment(text: &mut Vec<u8>, moment: u64) -> Result<(), NoMemory>
    ensures { OnOk result (text.new.items ≡ text.old.items ++ moment_text moment) }
{
    if moment >= 1000000 {
        return put_seconds(text, moment);
    }
    if moment >= 1000 {
        return put_milliseconds(text, moment);
    }
    put_number(text, moment)?;
    put(text, " us")
}
