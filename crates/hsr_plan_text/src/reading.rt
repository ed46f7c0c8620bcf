//! How a text is read as a plan.
ghost use Rattle.std.specs.Prelude.{◌≡◌, [], map, Err, None, option_map, string_bytes};
ghost use Rattle.toml.specs.View.{table_view, view};
ghost use Rattle.hsr_plan_text.specs.Fallible.{Gives, GivesAt, at_spot, each};
ghost use Rattle.hsr_toml.specs.Tables.{between, optional, perhaps, word};
ghost use Rattle.hsr_plan_text.specs.Fault.{faults};
ghost use Rattle.hsr_plan_text.specs.Words.{title_of};
ghost use Rattle.hsr_plan_text.specs.Streams.{stream_in};
ghost use Rattle.hsr_plan_text.specs.Events.{event_in};
ghost use Rattle.hsr_plan_text.specs.Meaning.{document, events_in, milliseconds, outline, plan_of, streams_in, text_fault};
ghost use Rattle.hsr_plan_text.specs.declared.fault.Key.TheVariants as key;
ghost use Rattle.hsr_plan_text.specs.declared.fault.Spot.TheVariants as spot;
ghost use Rattle.hsr_plan_text.specs.declared.fault.What.TheVariants.{NoMemory};

use crate::events::event;
use crate::fault::{Key, PlanFault, Spot, What};
use crate::moving::moves;
use crate::network::network;
use crate::plan::{Event, Outline, Plan, Stream};
use crate::streams::{stream, until};
use crate::table::only;
use crate::words::is_title;
use hsr_tables::LIFE_CHECK;
use hsr_toml::{NoDocument, between, document_of, number_or, tables_at, text, value};
use std::alloc::Global;
use toml::{Table, Value};

/// How many copies may wait in each direction of a link.
const CAPACITY_LIMIT: u64 = 4096;

/// The longest period of supervision, in milliseconds.
const LIFE_LIMIT: u64 = 1 << 30;

/// The last second since 1970 that four octets tell.
const EPOCH_LIMIT: u64 = (1 << 32) - 1;

/// A fault with its place.
fn at_spot<T>(spot: Spot, told: Result<T, What>) -> Result<T, PlanFault>
    ensures { result ≡ at_spot spot told }
{
    told.map_err(|what| PlanFault { spot, what })
}

/// The fault where an allocation for what a table says fails.
fn no_memory_at(spot: Spot) -> PlanFault
    ensures { result ≡ record { spot = spot; what = NoMemory } }
{
    PlanFault {
        spot,
        what: What::NoMemory,
    }
}

// ---- each table of a list

/// The stream of the table of that number.
#[tactic(auto, using(crate::proofs::Lists::spotted))]
fn stream_at(alloc: Global, number: usize, table: &Table) -> Result<Stream, PlanFault>
    ensures { GivesAt (λ s. s) result (at_spot (spot.Stream number)
        (stream_in (table_view table.now))) }
{
    at_spot(Spot::Stream(number), stream(alloc, table))
}

/// The streams of tables.
#[tactic(auto, using(crate::proofs::Lists::streams_step, crate::proofs::Lists::streams_fail))]
fn streams_of(alloc: Global, tables: &[&Table]) -> Result<Vec<Stream>, PlanFault>
    ensures { GivesAt (λ v. v.items) result
        (each spot.Stream stream_in [] (map (λ t. table_view t.now) tables.now)) }
{
    let mut streams = Vec::new(alloc);
    for table in tables.iter() {
        match stream_at(alloc, streams.len(), table) {
            Ok(stream) => {
                // The place of the fault is read before the push, which borrows the list.
                let spot = Spot::Stream(streams.len());
                streams.push(stream).or(Err(no_memory_at(spot)))?;
            }
            Err(fault) => return Err(fault),
        }
    }
    Ok(streams)
}

/// The event of the table of that number.
#[tactic(auto, using(crate::proofs::Lists::spotted))]
fn event_at(alloc: Global, number: usize, table: &Table) -> Result<Event, PlanFault>
    ensures { GivesAt (λ e. e) result (at_spot (spot.Event number)
        (event_in (table_view table.now))) }
{
    at_spot(Spot::Event(number), event(alloc, table))
}

/// The events of tables.
#[tactic(auto, using(crate::proofs::Lists::events_step, crate::proofs::Lists::events_fail))]
fn events_of(alloc: Global, tables: &[&Table]) -> Result<Vec<Event>, PlanFault>
    ensures { GivesAt (λ v. v.items) result
        (each spot.Event event_in [] (map (λ t. table_view t.now) tables.now)) }
{
    let mut events = Vec::new(alloc);
    for table in tables.iter() {
        match event_at(alloc, events.len(), table) {
            Ok(event) => {
                let spot = Spot::Event(events.len());
                events.push(event).or(Err(no_memory_at(spot)))?;
            }
            Err(fault) => return Err(fault),
        }
    }
    Ok(events)
}

// ---- the document's own values

/// The title that a value is.
fn title_of(alloc: Global, key: Key, value: &Value) -> Result<String, What>
    ensures { Gives string_bytes result (word faults title_of key (view value.now)) }
{
    let title = text(key, value)?;
    // The title stands in the scenario's first comment, where a control character would end the line.
    if !is_title(title.as_bytes()) {
        return Err(What::BadValue(key));
    }
    match String::from_str(alloc, title) {
        Ok(title) => Ok(title),
        Err(_) => Err(What::NoMemory),
    }
}

/// The title of a document.
fn title(alloc: Global, table: &Table) -> Result<Option<String>, What>
    ensures { Gives (option_map string_bytes) result
        (optional faults key.Title None (perhaps (word faults title_of)) (table_view table.now)) }
{
    match value(table, Key::Title) {
        None => Ok(None),
        Some(value) => {
            let title = title_of(alloc, Key::Title, value)?;
            Ok(Some(title))
        }
    }
}

/// The capacity of a document, where it says one.
fn capacity(table: &Table) -> Result<Option<usize>, What>
    ensures { Gives (λ n. n) result (optional faults key.Capacity None
        (perhaps (between faults 1 4096)) (table_view table.now)) }
{
    match value(table, Key::Capacity) {
        None => Ok(None),
        Some(value) => {
            let capacity = between(1, CAPACITY_LIMIT, Key::Capacity, value)?;
            Ok(Some(capacity as usize))
        }
    }
}

/// The period of supervision of a document, in microseconds: that of the standard, where it doesn't say.
fn life(table: &Table) -> Result<u64, What>
    ensures { Gives (λ n. n) result (optional faults key.Life 2000000 milliseconds
        (table_view table.now)) }
{
    match value(table, Key::Life) {
        None => Ok(LIFE_CHECK),
        Some(value) => {
            let life = between(0, LIFE_LIMIT, Key::Life, value)?;
            // No overflow: the longest period is 2^30 milliseconds.
            Ok(life * 1000)
        }
    }
}

/// The moment 0 of a document, in seconds since 1970.
fn epoch(table: &Table) -> Result<u64, What>
    ensures { Gives (λ n. n) result (optional faults key.Epoch 0 (between faults 0 4294967295)
        (table_view table.now)) }
{
    // A time of IEC 61850-8-1 tells seconds in four octets.
    number_or(0, 0, EPOCH_LIMIT, table, Key::Epoch)
}

// ---- the document

/// The keys of a document.
const TOP_KEYS: [Key; 17] = [
    Key::Title,
    Key::Ring,
    Key::Rings,
    Key::RedBox,
    Key::Address,
    Key::Mode,
    Key::Capacity,
    Key::Life,
    Key::Until,
    Key::Epoch,
    Key::Moves,
    Key::Hop,
    Key::Rate,
    Key::Residence,
    Key::Switching,
    Key::Stream,
    Key::Event,
];

/// What a document says besides its streams and events.
#[tactic(auto, unfolding(crate::specs::Meaning::outline))]
fn outline(alloc: Global, table: &Table) -> Result<Outline, What>
    ensures { Gives (λ o. o) result (outline (table_view table.now)) }
{
    // A key that the document doesn't have comes before the values of those that it has.
    only(alloc, table, &TOP_KEYS)?;
    let title = title(alloc, table)?;
    let capacity = capacity(table)?;
    let life = life(table)?;
    let until = until(table)?;
    let epoch = epoch(table)?;
    let moves = moves(table)?;
    let network = network(alloc, table)?;
    Ok(Outline {
        title,
        capacity,
        life,
        until,
        epoch,
        moves,
        network,
    })
}

/// The streams of a document.
#[tactic(auto, using(crate::proofs::Lists::spotted))]
fn streams_in(alloc: Global, table: &Table) -> Result<Vec<Stream>, PlanFault>
    ensures { GivesAt (λ v. v.items) result (streams_in (table_view table.now)) }
{
    let tables = at_spot(Spot::Top, tables_at(alloc, table, Key::Stream))?;
    streams_of(alloc, tables.as_slice())
}

/// The events of a document.
#[tactic(auto, using(crate::proofs::Lists::spotted))]
fn events_in(alloc: Global, table: &Table) -> Result<Vec<Event>, PlanFault>
    ensures { GivesAt (λ v. v.items) result (events_in (table_view table.now)) }
{
    let tables = at_spot(Spot::Top, tables_at(alloc, table, Key::Event))?;
    events_of(alloc, tables.as_slice())
}

/// What a document says.
#[tactic(auto, unfolding(crate::specs::Meaning::document), using(crate::proofs::Lists::spotted))]
fn document(alloc: Global, table: &Table) -> Result<Plan, PlanFault>
    ensures { GivesAt (λ p. p) result (document (table_view table.now)) }
{
    let outline = at_spot(Spot::Top, outline(alloc, table))?;
    let streams = streams_in(alloc, table)?;
    let events = events_in(alloc, table)?;
    Ok(Plan {
        outline,
        streams,
        events,
    })
}

/// The fault of a text that is no document.
fn text_fault(fault: NoDocument) -> PlanFault
    ensures { result ≡ text_fault fault }
{
    let what = match fault {
        NoDocument::NoToml => What::Text,
        NoDocument::NoMemory => What::NoMemory,
    };
    PlanFault {
        spot: Spot::Top,
        what,
    }
}

/// The plan that a text is: a document of TOML, of at most 16 MiB, with the keys `title`, `ring` or `rings` (by their keys),
/// `redbox`, `address`, `mode`, `capacity` (1 to 4096), `life_ms` (2000), `until_us`, `epoch` (0), `moves`, `hop_us`, `rate_mbps`, `residence_us`, `switching`, and `stream`
/// and `event`, arrays of tables. A fault is the first in this order: the text itself; a key that the document doesn't have; its own
/// values; streams, then events, by number. Within a table comes a key that it doesn't have, and then key by key what is missing, of
/// another type or out of its values. `NoMemory` comes where a growth was refused, in place of any other answer. Whether names are
/// there, and not twice, isn't asked.
pub fn read(alloc: Global, text: &str) -> Result<Plan, PlanFault>
    ensures { GivesAt (λ p. p) result (plan_of text.now) }
{
    match document_of(alloc, text) {
        Ok(table) => document(alloc, &table),
        Err(fault) => Err(text_fault(fault)),
    }
}
