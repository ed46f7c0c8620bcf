//! The lines of load in a report.
ghost use Rattle.std.specs.Prelude.{◌≡◌, ◌++◌, OnOk};
ghost use Rattle.std.specs.List.{flat_map};
ghost use Rattle.hsr_report.specs.LoadLines.{carried_text, load_line, load_lines, most_if, most_line, rates_text};

use hsr_frame::NoMemory;
use hsr_load::{ChannelLoad, Load};
use hsr_naming::Naming;
use hsr_node::Place;
use hsr_text::{put, put_count};

/// Puts how many copies a channel carried last, and their octets.
#[tactic(auto, unfolding(crate::specs::LoadLines::carried_text))]
fn put_carried(text: &mut Vec<u8>, load: ChannelLoad) -> Result<(), NoMemory>
    ensures { OnOk result (text.new.items ≡ text.old.items ++ carried_text load) }
{
    put_count(text, b" frames ", load.frames as u64)?;
    put_count(text, b" octets ", load.octets)
}

/// Puts the mean and the worst millisecond of a channel last.
#[tactic(auto, unfolding(crate::specs::LoadLines::rates_text))]
fn put_rates(text: &mut Vec<u8>, load: ChannelLoad) -> Result<(), NoMemory>
    ensures { OnOk result (text.new.items ≡ text.old.items ++ rates_text load) }
{
    put_count(text, b" mean ", load.mean)?;
    put_count(text, b" worst-ms ", load.worst)?;
    put_count(text, b" at ", load.at)
}

/// Puts the line of a channel last.
#[tactic(auto, unfolding(crate::specs::LoadLines::load_line))]
fn put_line(
    text: &mut Vec<u8>,
    naming: &Naming,
    places: &[Place],
    load: ChannelLoad,
) -> Result<(), NoMemory>
    ensures { OnOk result (text.new.items ≡ text.old.items ++ load_line naming.now places.now load) }
{
    put(text, "load ")?;
    naming.put_port(text, places, load.from)?;
    put(text, " ")?;
    naming.put_port(text, places, load.to)?;
    put_carried(text, load)?;
    put_rates(text, load)?;
    put(text, "\n")
}

/// Puts the lines of channels last.
#[tactic(auto, using(hsr_frame::proofs::OneMore::grown))]
fn put_lines(
    text: &mut Vec<u8>,
    naming: &Naming,
    places: &[Place],
    loads: &[ChannelLoad],
) -> Result<(), NoMemory>
    ensures { OnOk result (text.new.items ≡ text.old.items
        ++ flat_map (load_line naming.now places.now) loads.now) }
{
    for load in loads {
        put_line(text, naming, places, *load)?;
    }
    Ok(())
}

/// Puts the line of the channel with the greatest worst millisecond last.
#[tactic(auto, unfolding(crate::specs::LoadLines::most_line))]
fn put_most(
    text: &mut Vec<u8>,
    naming: &Naming,
    places: &[Place],
    load: ChannelLoad,
) -> Result<(), NoMemory>
    ensures { OnOk result (text.new.items ≡ text.old.items ++ most_line naming.now places.now load) }
{
    put_count(text, b"load most ", load.worst)?;
    put(text, " ")?;
    naming.put_port(text, places, load.from)?;
    put(text, "\n")
}

/// Puts that line last, or the one that says that no channel carried anything.
fn put_most_if(
    text: &mut Vec<u8>,
    naming: &Naming,
    places: &[Place],
    most: Option<ChannelLoad>,
) -> Result<(), NoMemory>
    ensures { OnOk result (text.new.items ≡ text.old.items ++ most_if naming.now places.now most) }
{
    match most {
        None => put(text, "load none\n"),
        Some(load) => put_most(text, naming, places, load),
    }
}

/// Puts a line for each channel that carried a copy, in order, then the line of the one with the greatest worst millisecond
/// (RULES, The report). The letters of ports are those that these places have. `NoMemory` if allocation fails; a front of
/// the lines may stand there then.
pub fn put_load(
    text: &mut Vec<u8>,
    naming: &Naming,
    places: &[Place],
    load: &Load,
) -> Result<(), NoMemory>
    ensures { OnOk result (text.new.items ≡ text.old.items
        ++ load_lines naming.now places.now load.now.channels.items) }
{
    put_lines(text, naming, places, load.channels.as_slice())?;
    put_most_if(text, naming, places, load.most())
}
