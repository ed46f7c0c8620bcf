//! The events of a plan.
ghost use Rattle.std.specs.Prelude.{◌≡◌, option_map};
ghost use Rattle.toml.specs.View.{view, table_view};
ghost use Rattle.hsr_plan_text.specs.Fallible.{Gives};
ghost use Rattle.hsr_plan_text.specs.Events.{alone, at_node, between_ends, deed_in, end, end_in, ends, event_in, nothing, two_ends};
ghost use Rattle.hsr_plan_text.specs.Words.{letter_of};
ghost use Rattle.hsr_plan_text.specs.declared.fault.Key.TheVariants as key;
ghost use Rattle.hsr_plan_text.specs.declared.plan.Deed.TheVariants as deed;

use crate::fault::{Key, What};
use crate::network::{name, name_in};
use crate::plan::{Deed, Event, LinkEnd};
use crate::table::{moment, only};
use hsr_text::split_at;
use hsr_toml::{is_port_letter, items, needed, text, value};
use std::alloc::Global;
use toml::{Table, Value};

/// The letter behind a dot, where there is a dot.
fn letter_of(letter: Option<&[u8]>) -> Option<Option<u8>>
    ensures { result ≡ letter_of (option_map (λ s. s.now) letter.entry) }
{
    match letter {
        None => Some(None),
        Some([letter]) => {
            // Any port's letter: whether the node has that port is asked when its kind is known.
            if is_port_letter(*letter) {
                Some(Some(*letter))
            } else {
                None
            }
        }
        Some(_) => None,
    }
}

/// The end that a text spells.
fn end_in(alloc: Global, key: Key, text: &[u8]) -> Result<LinkEnd, What>
    ensures { Gives (λ e. e) result (end_in key text.now) }
{
    let (name, letter) = split_at(text, b'.');
    let name = name_in(alloc, key, name)?;
    match letter_of(letter) {
        Some(letter) => Ok(LinkEnd { name, letter }),
        None => Err(What::BadValue(key)),
    }
}

/// The end that a value spells.
fn end(alloc: Global, key: Key, value: &Value) -> Result<LinkEnd, What>
    ensures { Gives (λ e. e) result (end key (view value.now)) }
{
    end_in(alloc, key, text(key, value)?.as_bytes())
}

/// The ends of an array.
#[tactic(auto, using(crate::proofs::Lists::ends_step, crate::proofs::Lists::ends_fail))]
fn ends(alloc: Global, key: Key, value: &Value) -> Result<Vec<LinkEnd>, What>
    ensures { Gives (λ v. v.items) result (ends key (view value.now)) }
{
    let items = items(key, value)?;
    let mut ends = Vec::new(alloc);
    for item in items.iter() {
        match end(alloc, key, item) {
            Ok(end) => ends.push(end)?,
            Err(what) => return Err(what),
        }
    }
    Ok(ends)
}

/// The two ends of a value.
fn two_ends(alloc: Global, key: Key, value: &Value) -> Result<(LinkEnd, LinkEnd), What>
    ensures { Gives (λ e. e) result (two_ends key (view value.now)) }
{
    let mut ends = ends(alloc, key, value)?;
    // The third is asked for too, so that a list of more than two is refused. They come out last first.
    match (ends.pop(), ends.pop(), ends.pop()) {
        (Some(second), Some(first), None) => Ok((first, second)),
        _ => Err(What::BadValue(key)),
    }
}

/// A link that is cut.
fn cut(alloc: Global, table: &Table, value: &Value) -> Result<Deed, What>
    ensures { Gives (λ d. d) result (alone key.Cut (between_ends deed.Cut) (view value.now)
        (table_view table.now)) }
{
    only(alloc, table, &[Key::At, Key::Cut])?;
    let (first, second) = two_ends(alloc, Key::Cut, value)?;
    Ok(Deed::Cut { first, second })
}

/// A link that is mended.
fn mend(alloc: Global, table: &Table, value: &Value) -> Result<Deed, What>
    ensures { Gives (λ d. d) result (alone key.Mend (between_ends deed.Mend) (view value.now)
        (table_view table.now)) }
{
    only(alloc, table, &[Key::At, Key::Mend])?;
    let (first, second) = two_ends(alloc, Key::Mend, value)?;
    Ok(Deed::Mend { first, second })
}

/// A node that goes off.
fn off(alloc: Global, table: &Table, value: &Value) -> Result<Deed, What>
    ensures { Gives (λ d. d) result (alone key.Off (at_node deed.Off) (view value.now)
        (table_view table.now)) }
{
    only(alloc, table, &[Key::At, Key::Off])?;
    let name = name(alloc, Key::Off, value)?;
    Ok(Deed::Off(name))
}

/// A node that comes on again.
fn on(alloc: Global, table: &Table, value: &Value) -> Result<Deed, What>
    ensures { Gives (λ d. d) result (alone key.On (at_node deed.On) (view value.now)
        (table_view table.now)) }
{
    only(alloc, table, &[Key::At, Key::On])?;
    let name = name(alloc, Key::On, value)?;
    Ok(Deed::On(name))
}

/// What happens, where it is of none of the four kinds.
fn nothing(alloc: Global, table: &Table) -> Result<Deed, What>
    ensures { Gives (λ d. d) result (nothing (table_view table.now)) }
{
    only(alloc, table, &[Key::At])?;
    // One of four has to be there, and the first is named.
    Err(What::Missing(Key::Cut))
}

/// What happens in an event.
fn deed(alloc: Global, table: &Table) -> Result<Deed, What>
    ensures { Gives (λ d. d) result (deed_in (table_view table.now)) }
{
    // The first of the four keys says what happens; another beside it is then a key that the table doesn't have.
    if let Some(value) = value(table, Key::Cut) {
        return cut(alloc, table, value);
    }
    if let Some(value) = value(table, Key::Mend) {
        return mend(alloc, table, value);
    }
    if let Some(value) = value(table, Key::Off) {
        return off(alloc, table, value);
    }
    if let Some(value) = value(table, Key::On) {
        return on(alloc, table, value);
    }
    nothing(alloc, table)
}

/// The event of a table.
#[tactic(auto, unfolding(crate::specs::Events::event_in))]
pub(crate) fn event(alloc: Global, table: &Table) -> Result<Event, What>
    ensures { Gives (λ e. e) result (event_in (table_view table.now)) }
{
    let deed = deed(alloc, table)?;
    let at = moment(Key::At, needed(table, Key::At)?)?;
    Ok(Event { at, deed })
}
