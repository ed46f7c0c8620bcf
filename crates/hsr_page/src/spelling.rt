//! Texts as the syntaxes of a page spell them.
ghost use Rattle.std.specs.Prelude.{◌≡◌, ◌<◌, ◌++◌, ◌∷◌, [], OnOk, chars, encode_utf8, encode_utf8_all};
ghost use Rattle.std.specs.Str.Lossy.{utf8_lossy};
ghost use Rattle.hsr_page.specs.Hidden.{digit_of, hex_number, high_digits, seen, shown, shown_number};
ghost use Rattle.hsr_page.specs.Spelling.{escaped, html_spelling, json_spelling, json_string, spelled, spelling, style_spelling, style_string};

use crate::hidden::is_hidden;
use hsr_frame::NoMemory;
use hsr_text::put;
use std::alloc::Global;

/// What spells a text in a page.
#[derive(Clone, Copy)]
pub(crate) enum Syntax {
    Html,
    Json,
    Style,
}

/// Puts a character last.
pub(crate) fn put_char(text: &mut Vec<u8>, c: char) -> Result<(), NoMemory>
    ensures { OnOk result (text.new.items ≡ text.old.items ++ encode_utf8 c) }
{
    let mut octets = [0; 4];
    put(text, c.encode_utf8(&mut octets))
}

// ---- numbers

/// Puts the digit to the base 16 last that counts such units.
fn put_digit(text: &mut Vec<u8>, code: u32, unit: u32) -> Result<(), NoMemory>
    requires { 0 < unit }
    ensures { OnOk result (text.new.items ≡ text.old.items ++ encode_utf8 (digit_of code unit)) }
{
    let digit = (code / unit % 16) as u8;
    let octet = if digit < 10 {
        b'0' + digit
    } else {
        b'A' - 10 + digit
    };
    put_char(text, char::from(octet))
}

/// Puts what stands before the last four digits last.
fn put_high(text: &mut Vec<u8>, code: u32) -> Result<(), NoMemory>
    ensures { OnOk result (text.new.items ≡ text.old.items ++ encode_utf8_all (high_digits code)) }
{
    if code < 0x1_0000 {
        return Ok(());
    }
    if code < 0x10_0000 {
        return put_digit(text, code, 0x1_0000);
    }
    put_digit(text, code, 0x10_0000)?;
    put_digit(text, code, 0x1_0000)
}

/// Puts a number to the base 16 last, in four digits at least.
#[tactic(auto, unfolding(crate::specs::Hidden::hex_number), using(crate::proofs::Spelled::encodes_of_append))]
fn put_hex(text: &mut Vec<u8>, code: u32) -> Result<(), NoMemory>
    ensures { OnOk result (text.new.items ≡ text.old.items ++ encode_utf8_all (hex_number code)) }
{
    put_high(text, code)?;
    put_digit(text, code, 0x1000)?;
    put_digit(text, code, 0x100)?;
    put_digit(text, code, 0x10)?;
    put_digit(text, code, 1)
}

// ---- characters

/// Puts a character as HTML last.
fn put_html(text: &mut Vec<u8>, c: char) -> Result<(), NoMemory>
    ensures { OnOk result (text.new.items ≡ text.old.items ++ encode_utf8_all (html_spelling c)) }
{
    match c {
        '&' => put(text, "&amp;"),
        '<' => put(text, "&lt;"),
        '>' => put(text, "&gt;"),
        '"' => put(text, "&quot;"),
        '\'' => put(text, "&#39;"),
        _ => put_char(text, c),
    }
}

/// Puts a character as JSON last.
#[tactic(auto, using(crate::proofs::Spelled::json_number))]
fn put_json(text: &mut Vec<u8>, c: char) -> Result<(), NoMemory>
    ensures { OnOk result (text.new.items ≡ text.old.items ++ encode_utf8_all (json_spelling c)) }
{
    match c {
        '"' => put(text, "\\\""),
        '\\' => put(text, "\\\\"),
        '\0'..='\x1F' | '<' | '\u{2028}' | '\u{2029}' => {
            put(text, "\\u")?;
            put_hex(text, c as u32)
        }
        _ => put_char(text, c),
    }
}

/// Puts a character as a style spells it last.
#[tactic(auto, using(crate::proofs::Spelled::style_number))]
fn put_style(text: &mut Vec<u8>, c: char) -> Result<(), NoMemory>
    ensures { OnOk result (text.new.items ≡ text.old.items ++ encode_utf8_all (style_spelling c)) }
{
    if c.is_ascii_alphanumeric() || c == ' ' {
        return put_char(text, c);
    }
    put(text, "\\")?;
    put_hex(text, c as u32)?;
    put(text, " ")
}

/// Puts a character as a syntax spells it last.
fn put_spelled(text: &mut Vec<u8>, syntax: Syntax, c: char) -> Result<(), NoMemory>
    ensures { OnOk result (text.new.items ≡ text.old.items
        ++ encode_utf8_all (spelling syntax c)) }
{
    match syntax {
        Syntax::Html => put_html(text, c),
        Syntax::Json => put_json(text, c),
        Syntax::Style => put_style(text, c),
    }
}

/// Puts the number of a character between angle brackets last.
#[tactic(auto, using(crate::proofs::Spelled::number_shown))]
fn put_shown_number(text: &mut Vec<u8>, syntax: Syntax, c: char) -> Result<(), NoMemory>
    ensures { OnOk result (text.new.items ≡ text.old.items
        ++ encode_utf8_all (spelled syntax (shown_number c))) }
{
    put_spelled(text, syntax, '⟨')?;
    put_spelled(text, syntax, 'U')?;
    put_spelled(text, syntax, '+')?;
    // No syntax spells a digit otherwise than by itself.
    put_hex(text, c as u32)?;
    put_spelled(text, syntax, '⟩')
}

/// Puts a character as it is shown last.
#[tactic(auto, using(crate::proofs::Spelled::spelled_one))]
fn put_shown(text: &mut Vec<u8>, syntax: Syntax, c: char) -> Result<(), NoMemory>
    ensures { OnOk result (text.new.items ≡ text.old.items
        ++ encode_utf8_all (spelled syntax (shown c))) }
{
    if is_hidden(c) {
        put_shown_number(text, syntax, c)
    } else {
        put_spelled(text, syntax, c)
    }
}

// ---- texts

/// Puts what is seen of a text as a syntax spells it last.
#[tactic(auto, using(crate::proofs::Spelled::none_seen, crate::proofs::Spelled::one_seen, std::proofs::lemmas::Str::chars_from_encodes))]
pub(crate) fn put_seen(text: &mut Vec<u8>, syntax: Syntax, said: &str) -> Result<(), NoMemory>
    ensures { OnOk result (text.new.items ≡ text.old.items
        ++ encode_utf8_all (spelled syntax (seen (chars said.now)))) }
{
    for c in said.chars() {
        put_shown(text, syntax, c)?;
    }
    Ok(())
}

/// Puts a text last, as it stands in an element of HTML or between double quotes of an attribute. `& < > " '` are spelled by
/// references (HTML living standard, 13.1.4 and 13.5), and a character that turns the order of letters or can't be seen is shown by
/// its number, such as `⟨U+202E⟩`. `NoMemory` if allocation fails; a front of it may stand there then.
#[tactic(auto, unfolding(crate::specs::Spelling::escaped))]
pub fn put_escaped(text: &mut Vec<u8>, said: &str) -> Result<(), NoMemory>
    ensures { OnOk result (text.new.items ≡ text.old.items
        ++ encode_utf8_all (escaped (seen (chars said.now)))) }
{
    put_seen(text, Syntax::Html, said)
}

/// Puts octets last as `put_escaped` does a text. What is no UTF-8 among them is shown as U+FFFD, as a browser would. `NoMemory` if
/// allocation fails; a front of it may stand there then.
pub fn put_escaped_octets(alloc: Global, text: &mut Vec<u8>, said: &[u8]) -> Result<(), NoMemory>
    ensures { OnOk result (text.new.items ≡ text.old.items
        ++ encode_utf8_all (escaped (seen (chars (utf8_lossy said.now))))) }
{
    let said = String::from_utf8_lossy(alloc, said)?;
    put_escaped(text, said.as_str())
}

/// Puts what is seen of a text as a syntax spells it between double quotes last.
#[tactic(auto, using(crate::proofs::Spelled::quoted))]
fn put_quoted(text: &mut Vec<u8>, syntax: Syntax, said: &str) -> Result<(), NoMemory>
    ensures { OnOk result (text.new.items ≡ text.old.items
        ++ encode_utf8_all (34 ∷ spelled syntax (seen (chars said.now)) ++ 34 ∷ [])) }
{
    put(text, "\"")?;
    put_seen(text, syntax, said)?;
    put(text, "\"")
}

/// Puts a text last as a string of JSON with its quotes (RFC 8259, section 7), that can stand in a script element: no `<` is left in
/// it. A character that turns the order of letters or can't be seen is shown by its number. `NoMemory` if allocation fails; a front of
/// it may stand there then.
#[tactic(auto, unfolding(crate::specs::Spelling::json_string))]
pub fn put_json_text(text: &mut Vec<u8>, said: &str) -> Result<(), NoMemory>
    ensures { OnOk result (text.new.items ≡ text.old.items
        ++ encode_utf8_all (json_string (seen (chars said.now)))) }
{
    put_quoted(text, Syntax::Json, said)
}

/// Puts octets last as `put_json_text` does a text. What is no UTF-8 among them is shown as U+FFFD. `NoMemory` if allocation fails; a
/// front of it may stand there then.
pub fn put_json_octets(alloc: Global, text: &mut Vec<u8>, said: &[u8]) -> Result<(), NoMemory>
    ensures { OnOk result (text.new.items ≡ text.old.items
        ++ encode_utf8_all (json_string (seen (chars (utf8_lossy said.now))))) }
{
    let said = String::from_utf8_lossy(alloc, said)?;
    put_json_text(text, said.as_str())
}

/// Puts a text last as a string of a style with its quotes (CSS Syntax Module Level 3, 4.3.7): all but letters, digits and spaces of
/// ASCII by their numbers. A character that turns the order of letters or can't be seen is shown by its number. `NoMemory` if
/// allocation fails; a front of it may stand there then.
#[tactic(auto, unfolding(crate::specs::Spelling::style_string))]
pub fn put_style_text(text: &mut Vec<u8>, said: &str) -> Result<(), NoMemory>
    ensures { OnOk result (text.new.items ≡ text.old.items
        ++ encode_utf8_all (style_string (seen (chars said.now)))) }
{
    put_quoted(text, Syntax::Style, said)
}
