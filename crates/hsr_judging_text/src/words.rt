//! The words of a report.
ghost use Rattle.std.specs.Prelude.{◌≡◌, ◌++◌, IfOk, OnOk, codes};
ghost use Rattle.std.specs.List.{filter, flat_map};
ghost use Rattle.hsr_frame.specs.Words.{cause_text};
ghost use Rattle.hsr_tap_device.specs.Words.{end_word};
ghost use Rattle.hsr_judging_text.specs.Words.{all_ignoring, behind, by_text, colons, field_word, four_text, ignored_text, ignoring_word, is_ignored, parted, perhaps_text, said_text, values_text, vlan_text, whether_text};
ghost use Rattle.std.specs.Fmt.{decimal};
ghost use Rattle.hsr_text.specs.Words.{mac_text};

use hsr_frame::{Cause, Mac, NoMemory};
use hsr_judging::Difference;
use hsr_playback::Said;
use hsr_tap_device::{End, Ignored};
use hsr_text::{put, put_count, put_hex, put_mac, put_number};
use std::alloc::Global;

/// Puts a number last, or a hyphen for none.
pub(crate) fn put_perhaps(text: &mut Vec<u8>, number: Option<u64>) -> Result<(), NoMemory>
    ensures { OnOk result (text.new.items ≡ text.old.items ++ perhaps_text number) }
{
    match number {
        Some(number) => put_number(text, number),
        None => put(text, "-"),
    }
}

/// A number of 16 bits that may be there, as one of 64.
pub(crate) fn wider(number: Option<u16>) -> Option<u64>
    ensures { result ≡ number }
{
    match number {
        Some(number) => Some(u64::from(number)),
        None => None,
    }
}

/// Puts a number of 16 bits last, in four hexadecimal digits.
pub(crate) fn put_four(text: &mut Vec<u8>, number: u16) -> Result<(), NoMemory>
    ensures { OnOk result (text.new.items ≡ text.old.items ++ four_text number) }
{
    put_hex(text, number.to_be_bytes().as_slice())
}

/// Puts the end last by which something came, or `own` for what the device sent by itself.
pub(crate) fn put_by(text: &mut Vec<u8>, by: Option<End>) -> Result<(), NoMemory>
    ensures { OnOk result (text.new.items ≡ text.old.items ++ by_text by) }
{
    match by {
        Some(end) => put(text, end.word()),
        None => put(text, "own"),
    }
}

/// Puts why an arrival went where it did last.
fn put_cause(text: &mut Vec<u8>, cause: Cause) -> Result<(), NoMemory>
    ensures { OnOk result (text.new.items ≡ text.old.items ++ cause_text (codes "-") cause) }
{
    put(text, cause.word())?;
    match cause.fault() {
        Some(fault) => put_count(text, b"-", u64::from(fault.code())),
        None => Ok(()),
    }
}

/// Puts what the reference said last.
pub(crate) fn put_said(text: &mut Vec<u8>, said: Said) -> Result<(), NoMemory>
    ensures { OnOk result (text.new.items ≡ text.old.items ++ said_text said) }
{
    match said {
        Said::Judged(cause) => put_cause(text, cause),
        Said::Sent => put(text, "sent"),
        Said::Refused(fault) => put_count(text, b"refused-", u64::from(fault.code())),
    }
}

/// The word of a field.
pub(crate) fn field_word(difference: &Difference) -> &'static str
    ensures { result.now ≡ field_word difference.now }
{
    match difference {
        Difference::Source(_, _) => "source",
        Difference::Vlan(_, _) => "vlan",
        Difference::Path(_, _) => "path",
        Difference::Padding(_, _) => "padding",
        Difference::Size(_, _) => "size",
        Difference::Payload(_) => "payload",
        Difference::Tag(_, _) => "tag",
        Difference::Octets => "octets",
        Difference::Number(_, _) => "number",
        Difference::Life(_, _) => "life",
    }
}

/// Puts the control information of a VLAN tag last, or a hyphen for none.
fn put_vlan(text: &mut Vec<u8>, vlan: Option<u16>) -> Result<(), NoMemory>
    ensures { OnOk result (text.new.items ≡ text.old.items ++ vlan_text vlan) }
{
    match vlan {
        Some(control) => put_four(text, control),
        None => put(text, "-"),
    }
}

/// `yes` or `no`.
fn whether(is: bool) -> &'static str
    ensures { result.now ≡ whether_text is }
{
    if is { "yes" } else { "no" }
}

/// Puts two addresses last, each behind a colon.
fn put_macs(alloc: Global, text: &mut Vec<u8>, expected: Mac, seen: Mac) -> Result<(), NoMemory>
    ensures { OnOk result (text.new.items ≡ text.old.items
        ++ colons (mac_text expected) (mac_text seen)) }
{
    put(text, ":")?;
    put_mac(alloc, text, expected)?;
    put(text, ":")?;
    put_mac(alloc, text, seen)
}

/// Puts what two VLAN tags say last, each behind a colon.
fn put_vlans(text: &mut Vec<u8>, expected: Option<u16>, seen: Option<u16>) -> Result<(), NoMemory>
    ensures { OnOk result (text.new.items ≡ text.old.items
        ++ colons (vlan_text expected) (vlan_text seen)) }
{
    put(text, ":")?;
    put_vlan(text, expected)?;
    put(text, ":")?;
    put_vlan(text, seen)
}

/// Puts two numbers last, each behind a colon.
fn put_two(text: &mut Vec<u8>, expected: u64, seen: u64) -> Result<(), NoMemory>
    ensures { OnOk result (text.new.items ≡ text.old.items
        ++ colons (decimal expected) (decimal seen)) }
{
    put(text, ":")?;
    put_number(text, expected)?;
    put(text, ":")?;
    put_number(text, seen)
}

/// Puts twice `yes` or `no` last, each behind a colon.
fn put_whether(text: &mut Vec<u8>, expected: bool, seen: bool) -> Result<(), NoMemory>
    ensures { OnOk result (text.new.items ≡ text.old.items
        ++ colons (whether_text expected) (whether_text seen)) }
{
    put(text, ":")?;
    put(text, whether(expected))?;
    put(text, ":")?;
    put(text, whether(seen))
}

/// Puts what was expected in a field and what was seen last, each behind a colon; of a payload its place alone.
pub(crate) fn put_values(
    alloc: Global,
    text: &mut Vec<u8>,
    difference: &Difference,
) -> Result<(), NoMemory>
    ensures { OnOk result (text.new.items ≡ text.old.items ++ values_text difference.now) }
{
    match *difference {
        Difference::Source(expected, seen) => put_macs(alloc, text, expected, seen),
        Difference::Vlan(expected, seen) => put_vlans(text, expected, seen),
        Difference::Path(expected, seen) => put_two(text, u64::from(expected), u64::from(seen)),
        Difference::Padding(expected, seen) => put_two(text, expected as u64, seen as u64),
        Difference::Size(expected, seen) => put_two(text, u64::from(expected), u64::from(seen)),
        Difference::Payload(at) => put_count(text, b":", at as u64),
        Difference::Tag(expected, seen) => put_whether(text, expected, seen),
        Difference::Octets => Ok(()),
        Difference::Number(expected, seen) => put_two(text, u64::from(expected), u64::from(seen)),
        Difference::Life(expected, seen) => put_two(text, u64::from(expected), u64::from(seen)),
    }
}

// ---- what need not agree

/// What need not agree.
#[derive(Clone, Copy, PartialEq, Eq)]
pub(crate) enum Ignoring {
    Path,
    Padding,
    LifeUp,
    LifePayload,
    InterlinkSource,
    InterlinkFlood,
    LinkLocal,
}

/// All of it, in the order in which a report tells it.
const ALL: [Ignoring; 7] = [
    Ignoring::Path,
    Ignoring::Padding,
    Ignoring::LifeUp,
    Ignoring::LifePayload,
    Ignoring::InterlinkSource,
    Ignoring::InterlinkFlood,
    Ignoring::LinkLocal,
];

impl Ignoring {
    /// Its word.
    fn word(self) -> &'static str
        ensures { result.now ≡ ignoring_word self }
    {
        match self {
            Ignoring::Path => "path",
            Ignoring::Padding => "padding",
            Ignoring::LifeUp => "life-up",
            Ignoring::LifePayload => "life-payload",
            Ignoring::InterlinkSource => "interlink-source",
            Ignoring::InterlinkFlood => "interlink-flood",
            Ignoring::LinkLocal => "link-local",
        }
    }

    /// Whether it is among what need not agree at a device.
    fn is_in(self, ignored: &Ignored) -> bool
        ensures { result ≡ is_ignored ignored.now self }
    {
        match self {
            Ignoring::Path => ignored.path,
            Ignoring::Padding => ignored.padding,
            Ignoring::LifeUp => ignored.life_up,
            Ignoring::LifePayload => ignored.life_payload,
            Ignoring::InterlinkSource => ignored.interlink_source,
            Ignoring::InterlinkFlood => ignored.interlink_flood,
            Ignoring::LinkLocal => ignored.link_local,
        }
    }
}

/// Puts a word behind a comma last.
fn put_next(text: &mut Vec<u8>, ignoring: Ignoring) -> Result<(), NoMemory>
    ensures { OnOk result (text.new.items ≡ text.old.items ++ behind ignoring_word ignoring) }
{
    put(text, ",")?;
    put(text, ignoring.word())
}

/// Puts words last, each behind a comma.
#[tactic(auto, using(hsr_frame::proofs::OneMore::grown))]
fn put_others(text: &mut Vec<u8>, those: &[Ignoring]) -> Result<(), NoMemory>
    ensures { OnOk result (text.new.items ≡ text.old.items
        ++ flat_map (behind ignoring_word) those.now) }
{
    for ignoring in those {
        put_next(text, *ignoring)?;
    }
    Ok(())
}

/// Puts words last, parted by commas; a hyphen for none.
fn put_words(text: &mut Vec<u8>, those: &[Ignoring]) -> Result<(), NoMemory>
    ensures { OnOk result (text.new.items ≡ text.old.items ++ parted ignoring_word those.now) }
{
    match those.split_first() {
        None => put(text, "-"),
        Some((first, others)) => {
            put(text, first.word())?;
            put_others(text, others)
        }
    }
}

/// What need not agree at a device, in the order in which a report tells it.
fn those_of(alloc: Global, ignored: &Ignored) -> Result<Vec<Ignoring>, NoMemory>
    ensures { IfOk result (λ those. those.items ≡ filter (is_ignored ignored.now) all_ignoring) }
{
    let those = ALL
        .iter()
        .copied()
        .filter(|ignoring| ignoring.is_in(ignored));
    Ok(those.collect(alloc)?)
}

/// Puts what need not agree last, parted by commas; a hyphen for nothing.
pub(crate) fn put_ignored(
    alloc: Global,
    text: &mut Vec<u8>,
    ignored: &Ignored,
) -> Result<(), NoMemory>
    ensures { OnOk result (text.new.items ≡ text.old.items ++ ignored_text ignored.now) }
{
    let those = those_of(alloc, ignored)?;
    put_words(text, those.as_slice())
}

// ---- ends

/// Puts the word of an end behind a comma last.
fn put_next_end(text: &mut Vec<u8>, end: End) -> Result<(), NoMemory>
    ensures { OnOk result (text.new.items ≡ text.old.items ++ behind end_word end) }
{
    put(text, ",")?;
    put(text, end.word())
}

/// Puts the words of ends last, each behind a comma.
#[tactic(auto, using(hsr_frame::proofs::OneMore::grown))]
fn put_other_ends(text: &mut Vec<u8>, ends: &[End]) -> Result<(), NoMemory>
    ensures { OnOk result (text.new.items ≡ text.old.items
        ++ flat_map (behind end_word) ends.now) }
{
    for end in ends {
        put_next_end(text, *end)?;
    }
    Ok(())
}

/// Puts ends last, parted by commas; a hyphen for none.
pub(crate) fn put_ends(text: &mut Vec<u8>, ends: &[End]) -> Result<(), NoMemory>
    ensures { OnOk result (text.new.items ≡ text.old.items ++ parted end_word ends.now) }
{
    match ends.split_first() {
        None => put(text, "-"),
        Some((first, others)) => {
            put(text, first.word())?;
            put_other_ends(text, others)
        }
    }
}
