//! By what receivers know a stream of GOOSE or sampled values.
ghost use Rattle.std.specs.Prelude.{◌≡◌, None, ok_or, option_map};
ghost use Rattle.toml.specs.View.{table_view, view};
ghost use Rattle.hsr_toml.specs.Tables.{at_key, optional, perhaps, word};
ghost use Rattle.hsr_plan_text.specs.Fallible.{Gives};
ghost use Rattle.hsr_plan_text.specs.Fault.{faults};
ghost use Rattle.hsr_plan_text.specs.Publishing.{appid_in, is_published, is_sampled, name_at, naming_in, only_where};
ghost use Rattle.hsr_plan_text.specs.Words.{element_of, id_of};
ghost use Rattle.hsr_plan_text.specs.declared.fault.Key.TheVariants as key;

use crate::fault::{Key, Refusal, What};
use crate::plan::{Kind, Naming};
use crate::word::Word;
use crate::words::{is_element, is_id};
use hsr_toml::{between, text, value};
use std::alloc::Global;
use toml::{Table, Value};

/// Whether frames of a kind name who publishes them.
fn is_published(kind: Kind) -> bool
    ensures { result ≡ is_published kind }
{
    match kind {
        Kind::Goose | Kind::SampledValues => true,
        Kind::Number(_) => false,
    }
}

/// Whether frames of a kind have samples.
pub(crate) fn is_sampled(kind: Kind) -> bool
    ensures { result ≡ is_sampled kind }
{
    match kind {
        Kind::SampledValues => true,
        Kind::Goose | Kind::Number(_) => false,
    }
}

/// Refuses a key where it says nothing.
pub(crate) fn only_where(says: bool, key: Key, table: &Table) -> Result<(), What>
    ensures { Gives (λ u. u) result (only_where says key (table_view table.now)) }
{
    match value(table, key) {
        Some(_) if !says => Err(What::Refused(Refusal::Idle(key))),
        _ => Ok(()),
    }
}

/// The name of a control block or a data set that a value is.
fn element(alloc: Global, key: Key, value: &Value) -> Result<Word, What>
    ensures { Gives (λ w. w) result (word faults element_of key (view value.now)) }
{
    let text = text(key, value)?;
    if !is_element(text.as_bytes()) {
        return Err(What::BadValue(key));
    }
    let word = Word::of(alloc, text.as_bytes())?;
    Ok(word)
}

/// The id that a value is.
fn id(alloc: Global, key: Key, value: &Value) -> Result<Word, What>
    ensures { Gives (λ w. w) result (word faults id_of key (view value.now)) }
{
    let text = text(key, value)?;
    if !is_id(text.as_bytes()) {
        return Err(What::BadValue(key));
    }
    let word = Word::of(alloc, text.as_bytes())?;
    Ok(word)
}

/// The APPID of a stream of a kind.
fn appid(kind: Kind, table: &Table) -> Result<Option<u64>, What>
    ensures { Gives (λ n. n) result (appid_in kind (table_view table.now)) }
{
    only_where(is_published(kind), Key::Appid, table)?;
    match value(table, Key::Appid) {
        None => Ok(None),
        Some(value) => {
            let appid = between(0, 65535, Key::Appid, value)?;
            Ok(Some(appid))
        }
    }
}

/// The name of a control block or a data set of a stream of a kind.
fn element_at(alloc: Global, kind: Kind, key: Key, table: &Table) -> Result<Option<Word>, What>
    ensures { Gives (λ w. w) result (name_at kind element_of key (table_view table.now)) }
{
    only_where(is_published(kind), key, table)?;
    match value(table, key) {
        None => Ok(None),
        Some(value) => {
            let name = element(alloc, key, value)?;
            Ok(Some(name))
        }
    }
}

/// The id of a stream of a kind.
fn id_at(alloc: Global, kind: Kind, table: &Table) -> Result<Option<Word>, What>
    ensures { Gives (λ w. w) result (name_at kind id_of key.Id (table_view table.now)) }
{
    only_where(is_published(kind), Key::Id, table)?;
    match value(table, Key::Id) {
        None => Ok(None),
        Some(value) => {
            let id = id(alloc, Key::Id, value)?;
            Ok(Some(id))
        }
    }
}

/// By what receivers know a stream of a kind.
#[tactic(auto, unfolding(crate::specs::Publishing::naming_in))]
pub(crate) fn naming(alloc: Global, kind: Kind, table: &Table) -> Result<Naming, What>
    ensures { Gives (λ n. n) result (naming_in kind (table_view table.now)) }
{
    let appid = appid(kind, table)?;
    let control_block = element_at(alloc, kind, Key::ControlBlock, table)?;
    let id = id_at(alloc, kind, table)?;
    let data_set = element_at(alloc, kind, Key::DataSet, table)?;
    Ok(Naming {
        appid,
        control_block,
        id,
        data_set,
    })
}
