//! The numbers of a page as JSON, so that other programs read them: a list ends with a 0, so that no row has to know whether it is the last.
ghost use Rattle.std.specs.Prelude.{◌≡◌, ◌++◌, ◌∷◌, [], codes, option_to_list, OnOk};
ghost use Rattle.std.specs.List.{flat_map};
ghost use Rattle.hsr_page.specs.Lists.{numbers_text};
ghost use Rattle.hsr_plan_page.specs.Data.{case_row, cases_text, counts_text, data_text, keyed, latency_row, lines_text, load_row, notes_text, numbers_of, outage_row, play_text, row_text, spelled, stream_row, tally_row, told};

use crate::facts::{CaseRow, Facts, OutageRow, StreamRow, Tally};
use hsr_frame::NoMemory;
use hsr_latency::NodeLatency;
use hsr_load::ChannelLoad;
use hsr_page::{put_json_numbers, put_json_text};
use hsr_text::{put, put_number};

/// Puts a row of numbers last, with a comma behind it.
fn put_row(text: &mut Vec<u8>, numbers: &[usize]) -> Result<(), NoMemory>
    ensures { OnOk result (text.new.items ≡ text.old.items ++ row_text numbers.now) }
{
    put_json_numbers(text, numbers)?;
    put(text, ",")
}

/// Puts what was counted of the plan's run last.
fn put_tally(text: &mut Vec<u8>, tally: Tally) -> Result<(), NoMemory>
    ensures { OnOk result (text.new.items ≡ text.old.items ++ tally_row tally) }
{
    put_row(
        text,
        &[
            tally.sends,
            tally.complete,
            tally.needed,
            tally.latency as usize,
            tally.load as usize,
        ],
    )
}

/// Puts the load of a direction of a link last.
fn put_load(text: &mut Vec<u8>, load: ChannelLoad) -> Result<(), NoMemory>
    ensures { OnOk result (text.new.items ≡ text.old.items ++ load_row load) }
{
    put_row(
        text,
        &[
            load.from.node,
            usize::from(load.from.port),
            load.to.node,
            usize::from(load.to.port),
            load.frames,
            load.octets as usize,
            load.mean as usize,
            load.worst as usize,
            load.at as usize,
        ],
    )
}

/// Puts the latency of a receiver last.
fn put_latency(text: &mut Vec<u8>, latency: NodeLatency) -> Result<(), NoMemory>
    ensures { OnOk result (text.new.items ≡ text.old.items ++ latency_row latency) }
{
    put_row(
        text,
        &[
            latency.node,
            latency.frames,
            latency.worst.time as usize,
            latency.worst.send.node,
            latency.worst.send.place,
        ],
    )
}

/// Puts the list of a number last, if there is one.
fn put_if(text: &mut Vec<u8>, number: Option<u64>) -> Result<(), NoMemory>
    ensures { OnOk result (text.new.items ≡ text.old.items ++ numbers_text (option_to_list number)) }
{
    match number {
        Some(number) => put_json_numbers(text, &[number as usize]),
        None => put_json_numbers(text, &[]),
    }
}

/// Puts how many sends a stream had last, and how many are complete.
#[tactic(auto, unfolding(crate::specs::Data::counts_text))]
fn put_counts(text: &mut Vec<u8>, row: &StreamRow) -> Result<(), NoMemory>
    ensures { OnOk result (text.new.items ≡ text.old.items ++ counts_text row.now) }
{
    put(text, "[")?;
    put_number(text, row.sends as u64)?;
    put(text, ",")?;
    put_number(text, row.complete as u64)
}

/// Puts the longest that a send of a stream took last, and who missed one.
#[tactic(auto, unfolding(crate::specs::Data::notes_text))]
fn put_notes(text: &mut Vec<u8>, row: &StreamRow) -> Result<(), NoMemory>
    ensures { OnOk result (text.new.items ≡ text.old.items ++ notes_text row.now) }
{
    put(text, ",")?;
    put_if(text, row.latency)?;
    put(text, ",")?;
    put_json_numbers(text, row.missing.as_slice())?;
    put(text, "],")
}

/// Puts what came of a stream last.
fn put_stream(text: &mut Vec<u8>, row: &StreamRow) -> Result<(), NoMemory>
    ensures { OnOk result (text.new.items ≡ text.old.items ++ stream_row row.now) }
{
    put_counts(text, row)?;
    put_notes(text, row)
}

/// Puts what a fault cuts off last.
#[tactic(auto, unfolding(crate::specs::Data::outage_row))]
fn put_outage(text: &mut Vec<u8>, row: &OutageRow) -> Result<(), NoMemory>
    ensures { OnOk result (text.new.items ≡ text.old.items ++ outage_row row.now) }
{
    put(text, "[")?;
    put_number(text, row.sends as u64)?;
    put(text, ",")?;
    put_json_numbers(text, row.missed.as_slice())?;
    put(text, "],")
}

/// Puts what came of a run last.
fn put_case(text: &mut Vec<u8>, row: &CaseRow) -> Result<(), NoMemory>
    ensures { OnOk result (text.new.items ≡ text.old.items ++ case_row row.now) }
{
    let counts = row.counts;
    put_row(
        text,
        &[
            counts.tally.sends,
            counts.tally.complete,
            counts.missed,
            counts.twice,
            counts.tally.needed,
            counts.tally.latency as usize,
            counts.tally.load as usize,
        ],
    )
}

// ---- lists

/// Puts the loads of all directions last.
#[tactic(auto, using(hsr_frame::proofs::OneMore::grown))]
fn put_loads(text: &mut Vec<u8>, loads: &[ChannelLoad]) -> Result<(), NoMemory>
    ensures { OnOk result (text.new.items ≡ text.old.items ++ flat_map load_row loads.now) }
{
    for load in loads {
        put_load(text, *load)?;
    }
    Ok(())
}

/// Puts the latencies of all receivers last.
#[tactic(auto, using(hsr_frame::proofs::OneMore::grown))]
fn put_latencies(text: &mut Vec<u8>, latencies: &[NodeLatency]) -> Result<(), NoMemory>
    ensures { OnOk result (text.new.items ≡ text.old.items ++ flat_map latency_row latencies.now) }
{
    for latency in latencies {
        put_latency(text, *latency)?;
    }
    Ok(())
}

/// Puts what came of all streams last.
#[tactic(auto, using(hsr_frame::proofs::OneMore::grown))]
fn put_streams(text: &mut Vec<u8>, rows: &[StreamRow]) -> Result<(), NoMemory>
    ensures { OnOk result (text.new.items ≡ text.old.items ++ flat_map stream_row rows.now) }
{
    for row in rows {
        put_stream(text, row)?;
    }
    Ok(())
}

/// Puts what all faults cut off last.
#[tactic(auto, using(hsr_frame::proofs::OneMore::grown))]
fn put_outages(text: &mut Vec<u8>, rows: &[OutageRow]) -> Result<(), NoMemory>
    ensures { OnOk result (text.new.items ≡ text.old.items ++ flat_map outage_row rows.now) }
{
    for row in rows {
        put_outage(text, row)?;
    }
    Ok(())
}

/// Puts what came of all runs last.
#[tactic(auto, using(hsr_frame::proofs::OneMore::grown))]
fn put_cases(text: &mut Vec<u8>, rows: &[CaseRow]) -> Result<(), NoMemory>
    ensures { OnOk result (text.new.items ≡ text.old.items ++ flat_map case_row rows.now) }
{
    for row in rows {
        put_case(text, row)?;
    }
    Ok(())
}

// ---- all

/// Puts a comma and a key last.
fn put_key(text: &mut Vec<u8>, key: &str) -> Result<(), NoMemory>
    ensures { OnOk result (text.new.items ≡ text.old.items
        ++ (codes ",\"" ++ (key.now ++ codes "\":"))) }
{
    put(text, ",\"")?;
    put(text, key)?;
    put(text, "\":")
}

/// Puts a line under a key last.
#[tactic(auto, unfolding(crate::specs::Data::told))]
fn put_told(text: &mut Vec<u8>, key: &str, line: &str) -> Result<(), NoMemory>
    ensures { OnOk result (text.new.items ≡ text.old.items ++ told key.now line.now) }
{
    put_key(text, key)?;
    put_json_text(text, line)
}

/// Puts the key of a list and the begin of it last.
fn put_list(text: &mut Vec<u8>, key: &str) -> Result<(), NoMemory>
    ensures { OnOk result (text.new.items ≡ text.old.items
        ++ (codes ",\"" ++ (key.now ++ codes "\":["))) }
{
    put(text, ",\"")?;
    put(text, key)?;
    put(text, "\":[")
}

/// Puts the verdicts last, by their lines.
#[tactic(auto, unfolding(crate::specs::Data::lines_text))]
fn put_lines(text: &mut Vec<u8>, facts: Facts<'_>) -> Result<(), NoMemory>
    ensures { OnOk result (text.new.items ≡ text.old.items ++ lines_text (numbers_of facts.entry)) }
{
    put_told(text, "sum", facts.sum)?;
    put_told(text, "any_order", facts.in_any_order.line)?;
    put_told(text, "run", facts.in_run.line)?;
    put_told(text, "budget", facts.budget)
}

/// Puts the list with what was counted of the plan's run last.
#[tactic(auto, unfolding(crate::specs::Data::keyed))]
fn put_tally_list(text: &mut Vec<u8>, tally: Tally) -> Result<(), NoMemory>
    ensures { OnOk result (text.new.items ≡ text.old.items
        ++ keyed (codes "tally") (tally_row tally)) }
{
    put_list(text, "tally")?;
    put_tally(text, tally)?;
    put(text, "0]")
}

/// Puts the list of streams last.
#[tactic(auto, unfolding(crate::specs::Data::keyed))]
fn put_stream_list(text: &mut Vec<u8>, rows: &[StreamRow]) -> Result<(), NoMemory>
    ensures { OnOk result (text.new.items ≡ text.old.items
        ++ keyed (codes "streams") (flat_map stream_row rows.now)) }
{
    put_list(text, "streams")?;
    put_streams(text, rows)?;
    put(text, "0]")
}

/// Puts the list of loads last.
#[tactic(auto, unfolding(crate::specs::Data::keyed))]
fn put_load_list(text: &mut Vec<u8>, loads: &[ChannelLoad]) -> Result<(), NoMemory>
    ensures { OnOk result (text.new.items ≡ text.old.items
        ++ keyed (codes "loads") (flat_map load_row loads.now)) }
{
    put_list(text, "loads")?;
    put_loads(text, loads)?;
    put(text, "0]")
}

/// Puts the list of latencies last.
#[tactic(auto, unfolding(crate::specs::Data::keyed))]
fn put_latency_list(text: &mut Vec<u8>, latencies: &[NodeLatency]) -> Result<(), NoMemory>
    ensures { OnOk result (text.new.items ≡ text.old.items
        ++ keyed (codes "latency") (flat_map latency_row latencies.now)) }
{
    put_list(text, "latency")?;
    put_latencies(text, latencies)?;
    put(text, "0]")
}

/// Puts the list of what faults cut off last.
#[tactic(auto, unfolding(crate::specs::Data::keyed))]
fn put_outage_list(text: &mut Vec<u8>, rows: &[OutageRow]) -> Result<(), NoMemory>
    ensures { OnOk result (text.new.items ≡ text.old.items
        ++ keyed (codes "outages") (flat_map outage_row rows.now)) }
{
    put_list(text, "outages")?;
    put_outages(text, rows)?;
    put(text, "0]")
}

/// Puts a list of runs under a key last.
#[tactic(auto, unfolding(crate::specs::Data::keyed))]
fn put_case_list(text: &mut Vec<u8>, key: &str, rows: &[CaseRow]) -> Result<(), NoMemory>
    ensures { OnOk result (text.new.items ≡ text.old.items
        ++ keyed key.now (flat_map case_row rows.now)) }
{
    put_list(text, key)?;
    put_cases(text, rows)?;
    put(text, "0]")
}

/// Puts the numbers of the plan's run last.
#[tactic(auto, unfolding(crate::specs::Data::play_text))]
fn put_play(text: &mut Vec<u8>, facts: Facts<'_>) -> Result<(), NoMemory>
    ensures { OnOk result (text.new.items ≡ text.old.items ++ play_text (numbers_of facts.entry)) }
{
    put_tally_list(text, facts.tally)?;
    put_stream_list(text, facts.streams)?;
    put_load_list(text, facts.loads)?;
    put_latency_list(text, facts.latencies)
}

/// Puts the numbers of the sweeps last.
#[tactic(auto, unfolding(crate::specs::Data::cases_text))]
fn put_sweeps(text: &mut Vec<u8>, facts: Facts<'_>) -> Result<(), NoMemory>
    ensures { OnOk result (text.new.items ≡ text.old.items ++ cases_text (numbers_of facts.entry)) }
{
    put_outage_list(text, facts.outages)?;
    put_case_list(text, "cases", facts.cases)?;
    put_case_list(text, "bare_cases", facts.bare_cases)
}

/// Puts all numbers last.
#[tactic(auto, unfolding(crate::specs::Data::data_text))]
pub(crate) fn put_data(text: &mut Vec<u8>, facts: Facts<'_>) -> Result<(), NoMemory>
    ensures { OnOk result (text.new.items ≡ text.old.items ++ data_text (numbers_of facts.entry)) }
{
    put(text, "{\"v\":1")?;
    put_lines(text, facts)?;
    put_play(text, facts)?;
    put_sweeps(text, facts)?;
    put(text, "}")
}
