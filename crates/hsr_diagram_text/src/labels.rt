//! Nodes, ports, links, their changes, and moments.
ghost use Rattle.std.specs.Prelude.{◌≡◌, slice_get, IfOk};
ghost use Rattle.hsr_timeline.specs.Names.{name_of};
ghost use Rattle.hsr_timeline.specs.Fronts.{lists_of};
ghost use Rattle.hsr_diagram_text.specs.Labels.{change_word, done_words, kind_word, letter_at, link_words, switch_word};
ghost use Rattle.hsr_diagram_text.specs.Moments.{moment_text};

use crate::moments::put_moment;
use hsr_frame::NoMemory;
use hsr_node::Place;
use hsr_text::{put, put_number};
use hsr_timeline::put_name;
use std::alloc::Global;

/// The name of a node. `NoMemory` if allocation fails.
pub fn name_words(alloc: Global, names: &[Vec<u8>], node: usize) -> Result<Vec<u8>, NoMemory>
    ensures { IfOk result (λ words. words.items ≡ name_of (lists_of names.now) node) }
{
    let mut words = Vec::new(alloc);
    put_name(&mut words, names, node)?;
    Ok(words)
}

/// What kind of node it is, in a word; empty for a DANH.
pub fn kind_word(place: &Place) -> &'static str
    ensures { result.now ≡ kind_word place.now }
{
    match place {
        Place::Danh { .. } => "",
        Place::RedBox { .. } => "redbox",
        Place::QuadBox => "quadbox",
        Place::Station { .. } => "station",
    }
}

/// The letter of a port, if there is such a node; else a space.
pub fn letter_at(places: &[Place], node: usize, port: u8) -> u8
    ensures { result ≡ letter_at (slice_get places.now node) port }
{
    match places.get(node) {
        Some(place) => place.letter(port),
        None => b' ',
    }
}

/// A link, by its number. `NoMemory` if allocation fails.
pub fn link_words(alloc: Global, link: usize) -> Result<Vec<u8>, NoMemory>
    ensures { IfOk result (λ words. words.items ≡ link_words link) }
{
    let mut words = Vec::new(alloc);
    put(&mut words, "link ")?;
    put_number(&mut words, link as u64)?;
    Ok(words)
}

/// What was done to a link, in a word.
pub fn change_word(is_cut: bool) -> &'static str
    ensures { result.now ≡ change_word is_cut }
{
    if is_cut { "cut" } else { "mend" }
}

/// Whether a node went off or came on, in a word.
pub fn switch_word(is_off: bool) -> &'static str
    ensures { result.now ≡ switch_word is_off }
{
    if is_off { "off" } else { "on" }
}

/// What was done to a link or a node, in a word, and when. `NoMemory` if allocation fails.
pub fn done_words(alloc: Global, word: &str, moment: u64) -> Result<Vec<u8>, NoMemory>
    ensures { IfOk result (λ words. words.items ≡ done_words word.now moment) }
{
    let mut words = Vec::new(alloc);
    put(&mut words, word)?;
    put(&mut words, " ")?;
    put_moment(&mut words, moment)?;
    Ok(words)
}

/// A moment in microseconds, in s, ms or us. `NoMemory` if allocation fails.
pub fn moment_words(alloc: Global, moment: u64) -> Result<Vec<u8>, NoMemory>
    ensures { IfOk result (λ words. words.items ≡ moment_text moment) }
{
    let mut words = Vec::new(alloc);
    put_moment(&mut words, moment)?;
    Ok(words)
}
