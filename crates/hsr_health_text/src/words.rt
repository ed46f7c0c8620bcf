//! Numbers, names, addresses, moments, loads, times of day.
ghost use Rattle.std.specs.Prelude.{◌≡◌, ◌<◌, ◌++◌, ◌-◌, ◌/◌, ◌^◌, OnOk, codes};
ghost use Rattle.std.specs.Fmt.{decimal};
ghost use Rattle.std.specs.List.{flat_map};
ghost use Rattle.hsr_text.specs.Words.{mac_text};
ghost use Rattle.hsr_health_text.specs.Words.{clock_text, comma_text, date_text, day_of_year, four, hex_text, kbits, mac_or_dash, macs_text, maybe_text, micros_text, month_of, name_text, pair_text, printed, rate_text, spread_text, three, time_text, two, us_since, year_of, year_of_era};

use hsr_frame::{Mac, NoMemory};
use hsr_spread::Spread;
use hsr_text::{put, put_hex, put_mac, put_number};
use std::alloc::Global;

/// Puts a space, a word and a number last.
#[tactic(auto, unfolding(crate::specs::Words::pair_text))]
pub(crate) fn put_pair(text: &mut Vec<u8>, word: &str, n: u64) -> Result<(), NoMemory>
    ensures { OnOk result (text.new.items ≡ text.old.items ++ pair_text word.now n) }
{
    put(text, " ")?;
    put(text, word)?;
    put(text, " ")?;
    put_number(text, n)
}

/// Puts a space, a word and a number last, or a dash where there is none.
#[tactic(auto, unfolding(crate::specs::Words::maybe_text))]
pub(crate) fn put_maybe(text: &mut Vec<u8>, word: &str, n: Option<u64>) -> Result<(), NoMemory>
    ensures { OnOk result (text.new.items ≡ text.old.items ++ maybe_text word.now n) }
{
    match n {
        Some(n) => put_pair(text, word, n),
        None => {
            put(text, " ")?;
            put(text, word)?;
            put(text, " -")
        }
    }
}

/// Puts a number of three digits last.
#[tactic(auto, unfolding(crate::specs::Words::three))]
fn put_three(text: &mut Vec<u8>, n: u64) -> Result<(), NoMemory>
    ensures { OnOk result (text.new.items ≡ text.old.items ++ three n) }
{
    put_number(text, n / 100 % 10)?;
    put_number(text, n / 10 % 10)?;
    put_number(text, n % 10)
}

/// Puts a number of two digits last.
#[tactic(auto, unfolding(crate::specs::Words::two))]
fn put_two(text: &mut Vec<u8>, n: u64) -> Result<(), NoMemory>
    ensures { OnOk result (text.new.items ≡ text.old.items ++ two n) }
{
    put_number(text, n / 10 % 10)?;
    put_number(text, n % 10)
}

/// So many bits in so many microseconds, in thousands a second, rounded down; 0 in no time.
#[tactic(auto, unfolding(crate::specs::Words::kbits))]
fn kbits(bits: u64, us: u64) -> u64
    ensures { result ≡ kbits bits us }
{
    if us == 0 {
        return 0;
    }
    let kbits = u128::from(bits) * 1000 / u128::from(us);
    match u64::try_from(kbits) {
        Ok(kbits) => kbits,
        Err(_) => u64::MAX,
    }
}

/// Puts a rate last, in Mbit/s with three decimals, rounded down: so many bits in so many microseconds.
#[tactic(auto, unfolding(crate::specs::Words::rate_text))]
pub(crate) fn put_rate(text: &mut Vec<u8>, bits: u64, us: u64) -> Result<(), NoMemory>
    ensures { OnOk result (text.new.items ≡ text.old.items ++ rate_text bits us) }
{
    let kbits = kbits(bits, us);
    put_number(text, kbits / 1000)?;
    put(text, ".")?;
    put_three(text, kbits % 1000)
}

/// Puts an octet of a name last: each character that isn't printable ASCII is a question mark, and of one of several octets only the
/// first counts.
fn put_printed(text: &mut Vec<u8>, octet: u8) -> Result<(), NoMemory>
    ensures { OnOk result (text.new.items ≡ text.old.items ++ printed octet) }
{
    let shown = match octet {
        0x20..=0x7E => octet,
        0x80..=0xBF => return Ok(()),
        _ => b'?',
    };
    text.push(shown)?;
    Ok(())
}

/// Puts the characters of a name last.
#[tactic(auto, using(hsr_frame::proofs::OneMore::grown))]
fn put_characters(text: &mut Vec<u8>, name: &[u8]) -> Result<(), NoMemory>
    ensures { OnOk result (text.new.items ≡ text.old.items ++ flat_map printed name.now) }
{
    for octet in name {
        put_printed(text, *octet)?;
    }
    Ok(())
}

/// Puts a name last, or a dash where nothing of it can be shown.
#[tactic(auto, unfolding(crate::specs::Words::name_text), using(crate::proofs::Named::unnamed, crate::proofs::Named::named))]
pub fn put_name(text: &mut Vec<u8>, name: &[u8]) -> Result<(), NoMemory>
    ensures { OnOk result (text.new.items ≡ text.old.items ++ name_text name.now) }
{
    let before = text.len();
    put_characters(text, name)?;
    if text.len() == before {
        return put(text, "-");
    }
    Ok(())
}

/// Puts addresses last, a comma before each.
#[tactic(auto, using(hsr_frame::proofs::OneMore::grown))]
fn put_listed(alloc: Global, text: &mut Vec<u8>, macs: &[Mac]) -> Result<(), NoMemory>
    ensures { OnOk result (text.new.items ≡ text.old.items ++ flat_map comma_text macs.now) }
{
    for mac in macs {
        put(text, ",")?;
        put_mac(alloc, text, *mac)?;
    }
    Ok(())
}

/// Puts addresses last, parted by commas, or a dash where there are none.
#[tactic(auto, unfolding(crate::specs::Words::macs_text))]
pub(crate) fn put_macs(alloc: Global, text: &mut Vec<u8>, macs: &[Mac]) -> Result<(), NoMemory>
    ensures { OnOk result (text.new.items ≡ text.old.items ++ macs_text macs.now) }
{
    match macs {
        [] => put(text, "-"),
        [first, others @ ..] => {
            put_mac(alloc, text, *first)?;
            put_listed(alloc, text, others)
        }
    }
}

/// Puts an address last, or a dash.
#[tactic(auto, unfolding(crate::specs::Words::mac_or_dash))]
pub(crate) fn put_mac_or_dash(
    alloc: Global,
    text: &mut Vec<u8>,
    mac: Option<Mac>,
) -> Result<(), NoMemory>
    ensures { OnOk result (text.new.items ≡ text.old.items ++ mac_or_dash mac) }
{
    match mac {
        Some(mac) => put_mac(alloc, text, mac),
        None => put(text, "-"),
    }
}

/// Puts a spread last.
#[tactic(auto, unfolding(crate::specs::Words::spread_text))]
pub(crate) fn put_spread(text: &mut Vec<u8>, spread: Option<Spread>) -> Result<(), NoMemory>
    ensures { OnOk result (text.new.items ≡ text.old.items ++ spread_text spread) }
{
    match spread {
        Some(spread) => {
            put_pair(text, "min", spread.min)?;
            put_pair(text, "mid", spread.mid)?;
            put_pair(text, "max", spread.max)
        }
        None => put(text, " min - mid - max -"),
    }
}

/// The microseconds from a moment to another.
pub(crate) fn us_since(start: u64, at: u64) -> u64
    ensures { result ≡ us_since start at }
{
    at.saturating_sub(start) / 1000
}

/// Puts a number of four digits last.
#[tactic(auto, unfolding(crate::specs::Words::four))]
fn put_four(text: &mut Vec<u8>, n: u64) -> Result<(), NoMemory>
    ensures { OnOk result (text.new.items ≡ text.old.items ++ four n) }
{
    put_number(text, n / 1000 % 10)?;
    put_three(text, n % 1000)
}

/// The year of an era that a day of it is in.
#[tactic(auto, unfolding(crate::specs::Words::year_of_era))]
fn year_of_era(day: u64) -> u64
    requires { day < 146097 }
    ensures value { result ≡ year_of_era day }
    ensures few { result < 146097 }
{
    (day - day / 1460 + day / 36_524 - day / 146_096) / 365
}

/// The day of a year from March on, by the day of its era.
#[tactic(auto, unfolding(crate::specs::Words::day_of_year))]
fn day_of_year(year: u64, day: u64) -> u64
    requires year { year < 146097 }
    requires day { day < 146097 }
    ensures value { result ≡ day_of_year year day }
    ensures few { result < 146097 }
{
    day.saturating_sub(365 * year + year / 4 - year / 100)
}

/// The month, of one that is counted from March on.
fn month_of(from: u64) -> u64
    requires { from < 146097 }
    ensures { result ≡ month_of from }
{
    if from < 10 { from + 3 } else { from - 9 }
}

/// The year, of one of an era that is counted from March on.
fn year_of(era: u64, year: u64, month: u64) -> u64
    requires era { era < 2 ^ 32 }
    requires year { year < 146097 }
    ensures { result ≡ year_of era year month }
{
    year + 400 * era + if month <= 2 { 1 } else { 0 }
}

/// Puts a date last, so many days after 1970-01-01, by the Gregorian calendar.
#[tactic(auto, unfolding(crate::specs::Words::date_text))]
fn put_date(text: &mut Vec<u8>, days: u64) -> Result<(), NoMemory>
    requires { days < 2 ^ 32 }
    ensures { OnOk result (text.new.items ≡ text.old.items ++ date_text days) }
{
    let of_era = (days + 719_468) % 146_097;
    let in_era = year_of_era(of_era);
    let of_year = day_of_year(in_era, of_era);
    let from = (5 * of_year + 2) / 153;
    let month = month_of(from);
    put_four(text, year_of((days + 719_468) / 146_097, in_era, month))?;
    put(text, "-")?;
    put_two(text, month)?;
    put(text, "-")?;
    put_two(text, of_year.saturating_sub((153 * from + 2) / 5) + 1)
}

/// Puts a time of day last, in seconds.
#[tactic(auto, unfolding(crate::specs::Words::clock_text))]
fn put_clock(text: &mut Vec<u8>, seconds: u64) -> Result<(), NoMemory>
    ensures { OnOk result (text.new.items ≡ text.old.items ++ clock_text seconds) }
{
    put_two(text, seconds / 3600)?;
    put(text, ":")?;
    put_two(text, seconds % 3600 / 60)?;
    put(text, ":")?;
    put_two(text, seconds % 60)
}

/// Puts the microseconds of a second last.
#[tactic(auto, unfolding(crate::specs::Words::micros_text))]
fn put_micros(text: &mut Vec<u8>, us: u64) -> Result<(), NoMemory>
    ensures { OnOk result (text.new.items ≡ text.old.items ++ micros_text us) }
{
    put(text, ".")?;
    put_three(text, us / 1000)?;
    put_three(text, us % 1000)
}

/// Puts a moment last: nanoseconds since 1970, as a day and a time of day with microseconds, rounded down.
#[tactic(auto, unfolding(crate::specs::Words::time_text))]
pub(crate) fn put_time(text: &mut Vec<u8>, at: u64) -> Result<(), NoMemory>
    ensures { OnOk result (text.new.items ≡ text.old.items ++ time_text at) }
{
    put_date(text, at / 1_000_000_000 / 86_400)?;
    put(text, "T")?;
    put_clock(text, at / 1_000_000_000 % 86_400)?;
    put_micros(text, at / 1000 % 1_000_000)?;
    put(text, "Z")
}

/// Puts the digits of a number of 16 bits last, in upper case.
#[tactic(auto, unfolding(crate::specs::Words::hex_text))]
pub(crate) fn put_hex16(text: &mut Vec<u8>, n: u16) -> Result<(), NoMemory>
    ensures { OnOk result (text.new.items ≡ text.old.items ++ hex_text n) }
{
    put_hex(text, n.to_be_bytes().as_slice())
}

/// Puts the end of a line last.
pub(crate) fn end_line(text: &mut Vec<u8>) -> Result<(), NoMemory>
    ensures { OnOk result (text.new.items ≡ text.old.items ++ codes "\n") }
{
    put(text, "\n")
}
