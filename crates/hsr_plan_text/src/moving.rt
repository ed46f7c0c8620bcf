//! How the copies of a plan move.
ghost use Rattle.std.specs.Prelude.{◌≡◌};
ghost use Rattle.toml.specs.View.{table_view, view};
ghost use Rattle.hsr_plan_text.specs.Fallible.{Gives};
ghost use Rattle.hsr_toml.specs.Tables.{at_key, between, needed, optional, word};
ghost use Rattle.hsr_plan_text.specs.Fault.{faults};
ghost use Rattle.hsr_plan_text.specs.Moves.{hops, idle_at, moves_alone, moves_by, moves_by_hops, moves_by_wires, moves_in, wire, wires, without_hop, without_wire};
ghost use Rattle.hsr_plan_text.specs.Tables.{hop};
ghost use Rattle.hsr_plan_text.specs.Words.{switching_of};
ghost use Rattle.hsr_plan_text.specs.declared.fault.Key.TheVariants as key;
ghost use Rattle.hsr_plan_text.specs.declared.plan.Switching.TheVariants.{Store};

use crate::fault::{Key, Refusal, What};
use crate::plan::{Moves, Switching, Transfer, Wire};
use crate::words::{HOP_LIMIT, moves_of, switching_of};
use hsr_toml::{between, needed, number_or, text, value};
use toml::{Table, Value};

/// How many Mbit/s a wire carries, where a text doesn't say: the rate of most substations.
const RATE: u64 = 100;

/// The most Mbit/s of a wire.
const RATE_LIMIT: u64 = 100_000;

/// How many microseconds a node keeps a frame, where a text doesn't say.
const RESIDENCE: u64 = 5;

// ---- hops

/// How long a hop takes, in microseconds.
fn hop(table: &Table) -> Result<u64, What>
    ensures { Gives (λ n. n) result (needed faults key.Hop hop (table_view table.now)) }
{
    between(1, HOP_LIMIT, Key::Hop, needed(table, Key::Hop)?)
}

/// That copies move by hops, of as many microseconds as a key of its own says.
fn hops(table: &Table) -> Result<Moves, What>
    ensures { Gives (λ m. m) result (hops (table_view table.now)) }
{
    let hop = hop(table)?;
    Ok(Moves::Timed(Transfer::Hop(hop)))
}

/// Moves that are told without `hop_us`, which then may not stand there.
fn without_hop(table: &Table, moves: Moves) -> Result<Moves, What>
    ensures { Gives (λ m. m) result (without_hop (at_key faults key.Hop (table_view table.now))
        moves) }
{
    match (value(table, Key::Hop), moves) {
        (None, _) => Ok(moves),
        // Two ways to say one thing: which of them holds isn't guessed.
        (Some(_), Moves::Timed(Transfer::Hop(_))) => {
            Err(What::Refused(Refusal::Together(Key::Hop)))
        }
        // It would say nothing, and whoever wrote it thinks that copies move by hops.
        (
            Some(_),
            Moves::EachSendDrains | Moves::EachMomentDrains | Moves::Timed(Transfer::Wire(_)),
        ) => Err(What::Refused(Refusal::Idle(Key::Hop))),
    }
}

// ---- wires

/// The switching that a value is.
fn switching_at(value: &Value) -> Result<Switching, What>
    ensures { Gives (λ s. s) result (word faults switching_of key.Switching (view value.now)) }
{
    match switching_of(text(Key::Switching, value)?) {
        Some(switching) => Ok(switching),
        None => Err(What::BadValue(Key::Switching)),
    }
}

/// When a node judges what comes by a wire.
fn switching(table: &Table) -> Result<Switching, What>
    ensures { Gives (λ s. s) result (optional faults key.Switching Store (word faults switching_of)
        (table_view table.now)) }
{
    match value(table, Key::Switching) {
        None => Ok(Switching::Store),
        Some(value) => switching_at(value),
    }
}

/// The wires of a document.
#[tactic(auto, unfolding(crate::specs::Moves::wire))]
fn wire(table: &Table) -> Result<Wire, What>
    ensures { Gives (λ w. w) result (wire (table_view table.now)) }
{
    let rate = number_or(RATE, 1, RATE_LIMIT, table, Key::Rate)?;
    // As long as a hop may take.
    let residence = number_or(RESIDENCE, 0, HOP_LIMIT, table, Key::Residence)?;
    let switching = switching(table)?;
    Ok(Wire {
        rate,
        residence,
        switching,
    })
}

/// That copies move by wires.
fn wires(table: &Table) -> Result<Moves, What>
    ensures { Gives (λ m. m) result (wires (table_view table.now)) }
{
    let wire = wire(table)?;
    Ok(Moves::Timed(Transfer::Wire(wire)))
}

/// Refuses a key of wires where copies move otherwise.
fn without(table: &Table, key: Key, moves: Moves) -> Result<Moves, What>
    ensures { Gives (λ m. m) result (idle_at key (table_view table.now) (Ok moves)) }
{
    match value(table, key) {
        None => Ok(moves),
        Some(_) => Err(What::Refused(Refusal::Idle(key))),
    }
}

/// Moves that are told without keys of wires, which then may not stand there.
fn without_wire(table: &Table, moves: Moves) -> Result<Moves, What>
    ensures { Gives (λ m. m) result (without_wire (table_view table.now) moves) }
{
    without(table, Key::Rate, moves)?;
    without(table, Key::Residence, moves)?;
    without(table, Key::Switching, moves)
}

// ---- both

/// How copies move, by a text that tells it without another key.
fn moves_alone(table: &Table, word: &str) -> Result<Moves, What>
    ensures { Gives (λ m. m) result (moves_alone (table_view table.now) word.now) }
{
    match moves_of(word) {
        Some(moves) => without_wire(table, without_hop(table, moves)?),
        None => Err(What::BadValue(Key::Moves)),
    }
}

/// That copies move by hops, and no key of wires stands there.
fn moves_by_hops(table: &Table) -> Result<Moves, What>
    ensures { Gives (λ m. m) result (moves_by_hops (table_view table.now)) }
{
    without_wire(table, hops(table)?)
}

/// That copies move by wires, and `hop_us` doesn't stand there.
fn moves_by_wires(table: &Table) -> Result<Moves, What>
    ensures { Gives (λ m. m) result (moves_by_wires (table_view table.now)) }
{
    without_hop(table, wires(table)?)
}

/// How copies move, by a text.
fn moves_by(table: &Table, word: &str) -> Result<Moves, What>
    ensures { Gives (λ m. m) result (moves_by (table_view table.now) word.now) }
{
    match word {
        "hops" => moves_by_hops(table),
        "wire" => moves_by_wires(table),
        _ => moves_alone(table, word),
    }
}

/// How copies move, by a document.
pub(crate) fn moves(table: &Table) -> Result<Moves, What>
    ensures { Gives (λ m. m) result (moves_in (table_view table.now)) }
{
    match value(table, Key::Moves) {
        None => without_wire(table, without_hop(table, Moves::EachSendDrains)?),
        Some(value) => moves_by(table, text(Key::Moves, value)?),
    }
}
