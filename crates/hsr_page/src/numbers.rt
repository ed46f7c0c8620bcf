//! Numbers and moments as they are read best.
ghost use Rattle.std.specs.Prelude.{◌≡◌, ◌+◌, ◌%◌, ◌++◌, OnOk, encode_utf8, encode_utf8_all};
ghost use Rattle.hsr_page.specs.Numbers.{digit_before, grouped, grouped_digits, moment_text, thousandths};

use crate::spelling::put_char;
use hsr_frame::NoMemory;
use hsr_text::put;
use itoa::Buffer;

/// Puts a digit that so many follow last, and a narrow space behind it where these are whole groups of three.
fn put_digit_before(text: &mut Vec<u8>, digit: u8, following: usize) -> Result<(), NoMemory>
    ensures { OnOk result (text.new.items ≡ text.old.items
        ++ encode_utf8_all (digit_before digit following)) }
{
    put_char(text, char::from(digit))?;
    if following > 0 && following % 3 == 0 {
        put_char(text, '\u{202F}')
    } else {
        Ok(())
    }
}

/// Puts digits in groups of three last.
#[tactic(auto, using(crate::proofs::Grouped::one_digit, crate::proofs::Grouped::no_digit))]
fn put_groups(text: &mut Vec<u8>, digits: &[u8]) -> Result<(), NoMemory>
    ensures { OnOk result (text.new.items ≡ text.old.items
        ++ encode_utf8_all (grouped_digits digits.now)) }
{
    for (i, digit) in digits.iter().enumerate() {
        put_digit_before(text, *digit, digits.len() - 1 - i)?;
    }
    Ok(())
}

/// Puts a number in decimal digits last, in groups of three with a narrow space (U+202F) between them. `NoMemory` if allocation fails;
/// a front of it may stand there then.
#[tactic(auto, unfolding(crate::specs::Numbers::grouped))]
pub fn put_grouped(text: &mut Vec<u8>, n: u64) -> Result<(), NoMemory>
    ensures { OnOk result (text.new.items ≡ text.old.items ++ encode_utf8_all (grouped n)) }
{
    let mut buffer = Buffer::new();
    put_groups(text, buffer.format(n).as_bytes())
}

/// Puts the last digit of a number last.
fn put_last_digit(text: &mut Vec<u8>, n: u64) -> Result<(), NoMemory>
    ensures { OnOk result (text.new.items ≡ text.old.items ++ encode_utf8 (48 + n % 10)) }
{
    put_char(text, char::from(b'0' + (n % 10) as u8))
}

/// Puts three digits behind a point last, but of 0 none.
#[tactic(auto, unfolding(crate::specs::Numbers::thousandths))]
fn put_thousandths(text: &mut Vec<u8>, n: u64) -> Result<(), NoMemory>
    ensures { OnOk result (text.new.items ≡ text.old.items ++ encode_utf8_all (thousandths n)) }
{
    if n == 0 {
        return Ok(());
    }
    put_char(text, '.')?;
    put_last_digit(text, n / 100)?;
    put_last_digit(text, n / 10)?;
    put_last_digit(text, n)
}

/// Puts a moment or a length of time of so many microseconds last, in milliseconds with their unit, such as `1 234.005 ms`; without a
/// point where it is whole. `NoMemory` if allocation fails; a front of it may stand there then.
#[tactic(auto, using(crate::proofs::Grouped::moment_put))]
pub fn put_moment(text: &mut Vec<u8>, us: u64) -> Result<(), NoMemory>
    ensures { OnOk result (text.new.items ≡ text.old.items ++ encode_utf8_all (moment_text us)) }
{
    put_grouped(text, us / 1000)?;
    put_thousandths(text, us % 1000)?;
    put(text, " ms")
}
