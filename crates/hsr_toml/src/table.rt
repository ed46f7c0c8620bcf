//! What stands in a table.
ghost use Rattle.std.specs.Prelude.{◌≡◌, ◌≤◌, ◌<◌, ◌^◌, option_map, ok_or, IfSome, IfOk, [], map};
ghost use Rattle.toml.specs.Data.{as_str, as_table};
ghost use Rattle.toml.specs.View.{view, array_view, items_view, table_view};
ghost use Rattle.hsr_toml.specs.Fallible.{Gives};
ghost use Rattle.hsr_toml.specs.Tables.{all_of, at_key, between, in_range, integer, is_one_of, items, members, optional, other_key, present, tables, text, texts};

use crate::key::TableKey;
use std::alloc::Global;
use toml::{Table, Value};

/// The value at a key.
pub fn value<K: TableKey>(table: &Table, key: K) -> Option<&Value>
    ensures { option_map (λ v. view v.now) result ≡ at_key K.faults key (table_view table.now) }
{
    table.get(key.text())
}

/// The value at a key that has to be there.
/// `missing` where it isn't there.
#[tactic(auto, using(crate::proofs::Fallible::fails))]
pub fn needed<K: TableKey>(table: &Table, key: K) -> Result<&Value, K::Fault>
    ensures { Gives K.faults.is_memory (λ v. view v.now) result
        (present K.faults key (at_key K.faults key (table_view table.now))) }
{
    match value(table, key) {
        Some(value) => Ok(value),
        None => Err(key.missing()),
    }
}

/// The text of a value.
/// `wrong_kind` where it is none.
#[tactic(auto, using(crate::proofs::Fallible::fails))]
pub fn text<K: TableKey>(key: K, value: &Value) -> Result<&str, K::Fault>
    ensures { Gives K.faults.is_memory (λ s. s.now) result (text K.faults key (view value.now)) }
{
    match value.as_str() {
        Some(text) => Ok(text),
        None => Err(key.wrong_kind()),
    }
}

/// The number of a value.
/// `wrong_kind` where it is none.
#[tactic(auto, using(crate::proofs::Fallible::fails))]
pub fn integer<K: TableKey>(key: K, value: &Value) -> Result<i64, K::Fault>
    ensures { Gives K.faults.is_memory (λ z. z) result (integer K.faults key (view value.now)) }
{
    match value.as_integer() {
        Some(number) => Ok(number),
        None => Err(key.wrong_kind()),
    }
}

/// A number, if it isn't below the one and above the other.
fn in_range(low: u64, high: u64, number: i64) -> Option<u64>
    ensures value { result ≡ in_range low high number }
    ensures least { IfSome result (λ n. low ≤ n) }
    ensures most { IfSome result (λ n. n ≤ high) }
{
    // TOML has signed numbers.
    if number < 0 {
        return None;
    }
    let number = number as u64;
    if low <= number && number <= high {
        Some(number)
    } else {
        None
    }
}

/// The number of a value that may be neither below the one nor above the other.
/// `wrong_kind` where it is no number, `bad_value` where it lies outside.
#[tactic(auto, using(crate::proofs::Fallible::fails, crate::proofs::Fallible::stays))]
pub fn between<K: TableKey>(low: u64, high: u64, key: K, value: &Value) -> Result<u64, K::Fault>
    ensures value { Gives K.faults.is_memory (λ n. n) result
        (between K.faults low high key (view value.now)) }
    ensures least { IfOk result (λ n. low ≤ n) }
    ensures most { IfOk result (λ n. n ≤ high) }
{
    match in_range(low, high, integer(key, value)?) {
        Some(number) => Ok(number),
        None => Err(key.bad_value()),
    }
}

/// The number at a key that may be missing, and else may be neither below the one nor above the other.
/// `default` where it is missing; `wrong_kind` where it is no number, `bad_value` where it lies outside.
pub fn number_or<K: TableKey>(
    default: u64,
    low: u64,
    high: u64,
    table: &Table,
    key: K,
) -> Result<u64, K::Fault>
    requires least { low ≤ default }
    requires most { default ≤ high }
    ensures value { Gives K.faults.is_memory (λ n. n) result
        (optional K.faults key default (between K.faults low high) (table_view table.now)) }
    ensures least { IfOk result (λ n. low ≤ n) }
    ensures most { IfOk result (λ n. n ≤ high) }
{
    match value(table, key) {
        None => Ok(default),
        Some(value) => between(low, high, key, value),
    }
}

/// The items of a value.
/// `wrong_kind` where it is no array.
#[tactic(auto, using(crate::proofs::Fallible::fails))]
pub fn items<K: TableKey>(key: K, value: &Value) -> Result<&Vec<Value>, K::Fault>
    ensures { Gives K.faults.is_memory (λ v. array_view v.now) result
        (items K.faults key (view value.now)) }
{
    match value.as_array() {
        Some(items) => Ok(items),
        None => Err(key.wrong_kind()),
    }
}

/// The table that a value is.
/// `wrong_kind` where it is none.
#[tactic(auto, using(crate::proofs::Fallible::fails))]
pub fn members<K: TableKey>(key: K, value: &Value) -> Result<&Table, K::Fault>
    ensures { Gives K.faults.is_memory (λ t. table_view t.now) result
        (members K.faults key (view value.now)) }
{
    match value.as_table() {
        Some(table) => Ok(table),
        None => Err(key.wrong_kind()),
    }
}

/// The texts of items.
#[tactic(auto, using(crate::proofs::Arrays::all_step, crate::proofs::Arrays::all_fails, crate::proofs::Fallible::fails, crate::proofs::Fallible::untold))]
fn texts_of<'a, K: TableKey>(
    alloc: Global,
    key: K,
    items: &'a [Value],
) -> Result<Vec<&'a str>, K::Fault>
    ensures { Gives K.faults.is_memory (λ v. map (λ s. s.now) v.items) result
        (ok_or (all_of as_str (items_view items.now)) (K.faults.wrong_kind key)) }
{
    let mut texts = Vec::new(alloc);
    for item in items.iter() {
        match item.as_str() {
            // Borrowed from the document, so that no text is copied.
            Some(text) => texts.push(text).or(Err(key.no_memory()))?,
            None => return Err(key.wrong_kind()),
        }
    }
    Ok(texts)
}

/// The texts of an array.
/// `wrong_kind` where the value is no array or an item no text, `no_memory` if allocation fails. The texts are those of
/// the document, and aren't copied.
#[tactic(auto, using(crate::proofs::Fallible::stays))]
pub fn texts<'a, K: TableKey>(
    alloc: Global,
    key: K,
    value: &'a Value,
) -> Result<Vec<&'a str>, K::Fault>
    ensures { Gives K.faults.is_memory (λ v. map (λ s. s.now) v.items) result
        (texts K.faults key (view value.now)) }
{
    texts_of(alloc, key, items(key, value)?.as_slice())
}

/// The tables that items are.
#[tactic(auto, using(crate::proofs::Arrays::all_step, crate::proofs::Arrays::all_fails, crate::proofs::Fallible::fails, crate::proofs::Fallible::untold))]
fn tables_of<'a, K: TableKey>(
    alloc: Global,
    key: K,
    items: &'a [Value],
) -> Result<Vec<&'a Table>, K::Fault>
    ensures { Gives K.faults.is_memory (λ v. map (λ t. table_view t.now) v.items) result
        (ok_or (all_of as_table (items_view items.now)) (K.faults.wrong_kind key)) }
{
    let mut tables = Vec::new(alloc);
    for item in items.iter() {
        match item.as_table() {
            Some(table) => tables.push(table).or(Err(key.no_memory()))?,
            None => return Err(key.wrong_kind()),
        }
    }
    Ok(tables)
}

/// The tables of an array.
/// `wrong_kind` where the value is no array or an item no table, `no_memory` if allocation fails. The tables are those
/// of the document, and aren't copied.
#[tactic(auto, using(crate::proofs::Fallible::stays))]
pub fn tables<'a, K: TableKey>(
    alloc: Global,
    key: K,
    value: &'a Value,
) -> Result<Vec<&'a Table>, K::Fault>
    ensures { Gives K.faults.is_memory (λ v. map (λ t. table_view t.now) v.items) result
        (tables K.faults key (view value.now)) }
{
    tables_of(alloc, key, items(key, value)?.as_slice())
}

/// The tables of an array that may be missing.
/// None where it is missing; `wrong_kind` where the value is no array or an item no table, `no_memory` if allocation
/// fails.
pub fn tables_at<'a, K: TableKey>(
    alloc: Global,
    table: &'a Table,
    key: K,
) -> Result<Vec<&'a Table>, K::Fault>
    ensures { Gives K.faults.is_memory (λ v. map (λ t. table_view t.now) v.items) result
        (optional K.faults key [] (tables K.faults) (table_view table.now)) }
{
    match value(table, key) {
        // A list that is missing is an empty one.
        None => Ok(Vec::new(alloc)),
        Some(value) => tables(alloc, key, value),
    }
}

/// Whether a word is one of the keys.
fn is_one_of<K: TableKey>(word: &str, keys: &[K]) -> bool
    ensures { result ≡ is_one_of K.faults keys.now word.now }
{
    keys.iter().any(|key| word == key.text())
}

/// The first key of a table, in the order of their octets, that is none of these.
pub fn other_key<'a, K: TableKey>(table: &'a Table, keys: &[K]) -> Option<&'a str>
    ensures { option_map (λ s. s.now) result ≡ other_key K.faults keys.now (table_view table.now) }
{
    // The table is sorted by its keys, so the first that is met is the least.
    for (word, _value) in table.iter() {
        if !is_one_of(word.as_str(), keys) {
            return Some(word.as_str());
        }
    }
    None
}
