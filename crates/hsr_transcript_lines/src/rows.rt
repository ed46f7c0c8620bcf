//! The lines of rows.
ghost use Rattle.std.specs.Prelude.{◌≡◌, ◌++◌, OnOk, IfOk, true};
ghost use Rattle.hsr_transcript_lines.specs.Spelled.{row_text};

use crate::lines::LineKind;
use crate::parsing::{read_fate, read_probe};
use crate::upper::is_upper;
use crate::words::{carried_fits, put_octets, put_probe, put_word};
use hsr_frame::NoMemory;
use hsr_link::{Dir, Row};
use hsr_node::{Carried, Octets};
use hsr_text::{WordFault, hex_octets, short_word, word};
use std::alloc::Global;

/// The line of a row of a link: `<forth|back> <probe> <octets> <taken|down|cut|overrun>`.
#[derive(Clone, Copy)]
pub struct RowLine;

/// Puts the line of a row.
#[tactic(auto, unfolding(crate::specs::Spelled::row_text))]
fn put_row(text: &mut Vec<u8>, row: &Row) -> Result<(), NoMemory>
    ensures { OnOk result (text.new.items ≡ text.old.items ++ row_text row.now) }
{
    text.extend_from_slice(row.dir.word().as_bytes())?;
    put_probe(text, row.carried.probe)?;
    put_octets(text, row.carried.octets.as_slice())?;
    put_word(text, row.fate.word().as_bytes())
}

/// What the line of a row says, and whether it is surely spelled so: where its digits are in upper case, and nothing follows.
#[tactic(auto, unfolding(crate::specs::Parsed::read_row))]
fn read_row(alloc: Global, line: &[u8]) -> Result<(Row, bool), WordFault>
    ensures said { Gives (λ r. r.0) result (read_row line.now) }
    ensures sure { IfOk result (λ r. r.1 ≡ true → row_text r.0 ≡ line.now) }
{
    let (dir, rest) = short_word(Some(line)).ok_or(WordFault::Bad)?;
    let dir = Dir::from_word(dir).ok_or(WordFault::Bad)?;
    let (probe, rest) = short_word(rest).ok_or(WordFault::Bad)?;
    let probe = Some(read_probe(probe).ok_or(WordFault::Bad)?);
    let (digits, rest) = word(rest).ok_or(WordFault::Bad)?;
    let octets = Octets::new(hex_octets(alloc, digits)?);
    let (fate, rest) = short_word(rest).ok_or(WordFault::Bad)?;
    let fate = read_fate(fate).ok_or(WordFault::Bad)?;
    let sure = is_upper(digits) & rest.is_none();
    let row = Row {
        dir,
        carried: Carried { probe, octets },
        // A finished run has no injected copies, so no line says it.
        injected: false,
        fate,
    };
    Ok((row, sure))
}

ghost use Rattle.hsr_text.specs.Words.{Gives};
ghost use Rattle.hsr_transcript_lines.specs.Parsed.{read_row};

impl LineKind for RowLine {
    ghost use Rattle.hsr_transcript_lines.specs.Fits.{IsRowFit};
    ghost use Rattle.hsr_transcript_lines.specs.Spelled.{row_text};
    ghost use Rattle.hsr_transcript_lines.specs.Parsed.{read_row};

    type Value = Row;

    ghost spelled = { λ _. row_text };

    ghost said = { λ _. read_row };

    ghost fits = { λ _. IsRowFit };

    fn put(&self, text: &mut Vec<u8>, row: &Row) -> Result<(), NoMemory> {
        // Nothing is done here: its clause tells the proof what the types keep.
        carried_fits(&row.carried);
        put_row(text, row)
    }

    fn parse(
        &self,
        alloc: Global,
        line: &[u8],
        _room: &mut Vec<u8>,
    ) -> Result<(Row, bool), WordFault> {
        read_row(alloc, line)
    }
}
