//! Which keys a table may have, and the moments and gaps of a plan.
ghost use Rattle.std.specs.Prelude.{◌≡◌, ◌^◌, Err};
ghost use Rattle.toml.specs.View.{view, table_view};
ghost use Rattle.hsr_plan_text.specs.Fallible.{Gives};
ghost use Rattle.hsr_plan_text.specs.Tables.{gap, moment, only};
ghost use Rattle.hsr_plan_text.specs.declared.fault.What.TheVariants.{Unknown};

use crate::fault::{Key, What};
use crate::word::Word;
use hsr_toml::{between, other_key};
use std::alloc::Global;
use toml::{Table, Value};

// 2^40 microseconds are almost 13 days; sums of such moments don't overflow.
/// The last moment that a plan may name, and the longest gap, in microseconds.
pub(crate) const LAST: u64 = 1 << 40;

/// Refuses a key that a table doesn't have.
fn unknown(alloc: Global, word: &str) -> Result<(), What>
    ensures { Gives (λ u. u) result (Err (Unknown word.now)) }
{
    let word = Word::of(alloc, word.as_bytes())?;
    Err(What::Unknown(word))
}

/// Refuses a table that has other keys.
pub(crate) fn only(alloc: Global, table: &Table, keys: &[Key]) -> Result<(), What>
    ensures { Gives (λ u. u) result (only keys.now (table_view table.now)) }
{
    match other_key(table, keys) {
        None => Ok(()),
        Some(other) => unknown(alloc, other),
    }
}

/// The moment of a value, in microseconds.
pub(crate) fn moment(key: Key, value: &Value) -> Result<u64, What>
    ensures { Gives (λ n. n) result (moment key (view value.now)) }
{
    between(0, LAST, key, value)
}

/// The time between moments that a value tells, in microseconds, not 0.
pub(crate) fn gap(key: Key, value: &Value) -> Result<u64, What>
    ensures { Gives (λ n. n) result (gap key (view value.now)) }
{
    between(1, LAST, key, value)
}
