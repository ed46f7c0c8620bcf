//! Sections of lines, read.
ghost use Rattle.std.specs.Prelude.{◌≡◌, [], ◌+◌, ◌≤◌, ◌<◌, ◌^◌, List, Option, ℕ, codes, length, IfErr, IfOk, OnOk};
ghost use Rattle.std.specs.Io.Buffered.{reader_remaining};
ghost use Rattle.hsr_transcript.specs.Form.{only_at, section_at, version_at};
ghost use Rattle.hsr_transcript_lines.specs.Exact.{exactly};
ghost use Rattle.hsr_transcript.specs.Reading.{line_at, line_of, many as many_at};
ghost use Rattle.hsr_transcript.specs.CodeReads.{Ends, Gives};
ghost use Rattle.hsr_transcript.specs.declared.fault.ReadFault.TheVariants.{BadLine, NoMemory, Version};

use crate::fault::ReadFault;
use crate::version::VersionLine;
use arrayvec::ArrayVec;
use hsr_text::{Front, READ_LIMIT, TimeUnit, WordFault, line_there, next_line};
use hsr_transcript_lines::{CountLine, FixedLine, LineKind, read_line};
use std::alloc::Global;
use std::io::{BufRead, BufReader, Read};

/// The most octets of a line, without its line feed.
const LINE_LIMIT: usize = 8192;

/// For how many values room is taken by a count alone. Most sections have no more, and their values are never moved.
const ROOM_AT_ONCE: u64 = 65536;

/// How many reads are left, the number of the next line, and room for a line and for its spelling, used again for each line.
#[derive(Drop)]
pub(crate) struct Progress {
    pub(crate) reads: u64,
    pub(crate) number: u64,
    pub(crate) line: ArrayVec<u8, LINE_LIMIT>,
    pub(crate) spelled: Vec<u8>,
}

impl Progress {
    /// At the first line of a text, with all the reads that a text is granted.
    pub(crate) fn new(alloc: Global) -> Progress
        ensures number { result.number ≡ 1 }
        ensures reads { result.reads ≡ 2 ^ 40 }
    {
        Progress {
            reads: READ_LIMIT,
            number: 1,
            line: ArrayVec::new(),
            spelled: Vec::new(alloc),
        }
    }
}

/// Reads the next line.
#[tactic(auto, using(crate::proofs::Parts::line_given, crate::proofs::Parts::line_ends, crate::proofs::Parts::line_long))]
fn next<R: Read>(reader: &mut BufReader<R>, progress: &mut Progress) -> Result<(), ReadFault>
    requires { progress.old.number + progress.old.reads < 2 ^ 64 }
    ensures given { Gives (λ _. progress.new.line.items) (reader_remaining R.remaining reader.old)
        (reader_remaining R.remaining reader.new) progress.old.number progress.new.number result (line_at BadLine) }
    ensures counted { progress.new.number + progress.new.reads
        ≤ progress.old.number + progress.old.reads }
    ensures numbered { OnOk result (progress.new.number ≡ progress.old.number + 1) }
{
    match next_line(reader, &mut progress.reads, &mut progress.line) {
        Ok(Front::Line) => {
            // Its clause bounds the length of the line.
            let _text = progress.line.as_slice();
            progress.number += 1;
            Ok(())
        }
        Ok(Front::Rest) => {
            // Its clause bounds the length of what was read.
            let _text = progress.line.as_slice();
            Err(ReadFault::End)
        }
        Ok(Front::TooLong) => Err(ReadFault::BadLine {
            number: progress.number,
        }),
        Err(_) => Err(ReadFault::Read),
    }
}

/// Gathers the next line, however the reader cuts it into pieces, and reads it, which is of a kind.
#[tactic(auto, using(crate::proofs::Parts::one_given, crate::proofs::Parts::one_bad, crate::proofs::Parts::one_fails))]
fn gathered_one<R: Read, K: LineKind>(
    kind: &K,
    alloc: Global,
    reader: &mut BufReader<R>,
    progress: &mut Progress,
) -> Result<K::Value, ReadFault>
    requires { progress.old.number + progress.old.reads < 2 ^ 64 }
    ensures given { Gives (λ v. v) (reader_remaining R.remaining reader.old)
        (reader_remaining R.remaining reader.new) progress.old.number progress.new.number result
        (line_of (exactly (K.spelled kind.now) (K.said kind.now))) }
    ensures counted { progress.new.number + progress.new.reads
        ≤ progress.old.number + progress.old.reads }
    ensures numbered { OnOk result (progress.new.number ≡ progress.old.number + 1) }
{
    // Kept from before the read, which counts on.
    let number = progress.number;
    match next(reader, progress) {
        Ok(()) => match read_line(kind, alloc, progress.line.as_slice(), &mut progress.spelled) {
            Ok(value) => Ok(value),
            Err(WordFault::Bad) => Err(ReadFault::BadLine { number }),
            Err(WordFault::Memory) => Err(ReadFault::NoMemory),
        },
        Err(fault) => Err(fault),
    }
}

/// Reads the next line, which is of a kind.
pub(crate) fn one<R: Read, K: LineKind>(
    kind: &K,
    alloc: Global,
    reader: &mut BufReader<R>,
    progress: &mut Progress,
) -> Result<K::Value, ReadFault>
    requires { progress.old.number + progress.old.reads < 2 ^ 64 }
    ensures given { Gives (λ v. v) (reader_remaining R.remaining reader.old)
        (reader_remaining R.remaining reader.new) progress.old.number progress.new.number result
        (line_of (exactly (K.spelled kind.now) (K.said kind.now))) }
    ensures counted { progress.new.number + progress.new.reads
        ≤ progress.old.number + progress.old.reads }
    ensures numbered { OnOk result (progress.new.number ≡ progress.old.number + 1) }
{
    // Most lines stand whole in the buffer, and are read where they stand.
    match line_there(reader.buffer(), LINE_LIMIT, progress.reads) {
        None => gathered_one(kind, alloc, reader, progress),
        Some(line) => {
            let taken = line.len() + 1;
            match read_line(kind, alloc, line, &mut progress.spelled) {
                Ok(value) => {
                    progress.reads -= taken as u64;
                    progress.number += 1;
                    reader.consume(taken);
                    Ok(value)
                }
                Err(WordFault::Bad) => Err(ReadFault::BadLine {
                    number: progress.number,
                }),
                Err(WordFault::Memory) => Err(ReadFault::NoMemory),
            }
        }
    }
}

/// Room for the values that a text claims. It may claim any count: beyond this many, room grows with the lines that are there.
fn room_for<T>(alloc: Global, count: u64) -> Result<Vec<T>, ReadFault>
    ensures ok { IfOk result (λ values. values.items ≡ []) }
    ensures err { IfErr result (λ fault. fault ≡ NoMemory) }
{
    match Vec::with_capacity(alloc, count.min(ROOM_AT_ONCE) as usize) {
        Ok(values) => Ok(values),
        Err(_) => Err(ReadFault::NoMemory),
    }
}

/// Reads lines, each of a kind.
pub(crate) fn many<R: Read, K: LineKind>(
    kind: &K,
    alloc: Global,
    reader: &mut BufReader<R>,
    progress: &mut Progress,
    count: u64,
) -> Result<Vec<K::Value>, ReadFault>
    requires { progress.old.number + progress.old.reads < 2 ^ 64 }
    ensures given { Gives (λ v. v.items) (reader_remaining R.remaining reader.old)
        (reader_remaining R.remaining reader.new) progress.old.number progress.new.number result
        (many_at (line_of (exactly (K.spelled kind.now) (K.said kind.now))) count) }
    ensures counted { progress.new.number + progress.new.reads
        ≤ progress.old.number + progress.old.reads }
    ensures numbered { IfOk result (λ v. progress.new.number
        ≡ progress.old.number + length v.items) }
{
    let mut values = room_for(alloc, count)?;
    let mut left = count;
    while left > 0 {
        match one(kind, alloc, reader, progress) {
            Ok(value) => {
                values.push(value)?;
                left -= 1;
            }
            Err(fault) => return Err(fault),
        }
    }
    Ok(values)
}

/// Reads a section: a line that says how many, and as many lines of a kind.
#[tactic(auto, using(crate::proofs::Parts::bind_told, crate::proofs::Parts::bind_fails), unfolding(crate::specs::Form::section_at, hsr_transcript_lines::specs::Parsed::count_of))]
pub(crate) fn section<R: Read, K: LineKind>(
    name: &[u8],
    kind: &K,
    alloc: Global,
    reader: &mut BufReader<R>,
    progress: &mut Progress,
) -> Result<Vec<K::Value>, ReadFault>
    requires { progress.old.number + progress.old.reads < 2 ^ 64 }
    ensures given { Gives (λ v. v.items) (reader_remaining R.remaining reader.old)
        (reader_remaining R.remaining reader.new) progress.old.number progress.new.number result
        (section_at name.now (exactly (K.spelled kind.now) (K.said kind.now))) }
    ensures counts { progress.new.number + progress.new.reads
        ≤ progress.old.number + progress.old.reads }
    ensures numbered { IfOk result (λ v. progress.new.number
        ≡ progress.old.number + 1 + length v.items) }
{
    match one(&CountLine { name }, alloc, reader, progress) {
        Ok(count) => many(kind, alloc, reader, progress, count),
        Err(fault) => Err(fault),
    }
}

/// Reads a line that stands in each text.
#[tactic(auto, unfolding(crate::specs::Form::only_at))]
pub(crate) fn fixed<R: Read>(
    line: &[u8],
    alloc: Global,
    reader: &mut BufReader<R>,
    progress: &mut Progress,
) -> Result<(), ReadFault>
    requires { progress.old.number + progress.old.reads < 2 ^ 64 }
    ensures given { Gives (λ v. v) (reader_remaining R.remaining reader.old)
        (reader_remaining R.remaining reader.new) progress.old.number progress.new.number result (only_at line.now) }
    ensures counts { progress.new.number + progress.new.reads
        ≤ progress.old.number + progress.old.reads }
    ensures numbered { OnOk result (progress.new.number ≡ progress.old.number + 1) }
{
    one(&FixedLine { line }, alloc, reader, progress)
}

/// The fault of the first line for that of a line.
fn as_version(fault: ReadFault) -> ReadFault
    ensures { result ≡ as_version fault }
{
    match fault {
        // A first line of another form is one of another version, whatever it says.
        ReadFault::BadLine { .. } => ReadFault::Version,
        _ => fault,
    }
}

ghost use Rattle.hsr_transcript.specs.Form.{as_version};

/// Reads the first line, whose version says the unit of moments.
#[tactic(auto, using(crate::proofs::Parts::version_given, crate::proofs::Parts::version_fails), unfolding(hsr_transcript_lines::specs::Parsed::version_of))]
pub(crate) fn version<R: Read>(
    alloc: Global,
    reader: &mut BufReader<R>,
    progress: &mut Progress,
) -> Result<TimeUnit, ReadFault>
    requires { progress.old.number + progress.old.reads < 2 ^ 64 }
    ensures given { Gives (λ v. v) (reader_remaining R.remaining reader.old)
        (reader_remaining R.remaining reader.new) progress.old.number progress.new.number result version_at }
    ensures counts { progress.new.number + progress.new.reads
        ≤ progress.old.number + progress.old.reads }
    ensures numbered { OnOk result (progress.new.number ≡ progress.old.number + 1) }
{
    match one(&VersionLine, alloc, reader, progress) {
        Ok(unit) => Ok(unit),
        Err(fault) => Err(as_version(fault)),
    }
}

/// Whether nothing is left.
pub(crate) fn nothing_more<R: Read>(
    reader: &mut BufReader<R>,
    progress: &mut Progress,
) -> Result<(), ReadFault>
    ensures { Ends (reader_remaining R.remaining reader.old) progress.old.number result }
{
    let number = progress.number;
    // One octet is enough to tell that something is left.
    let mut line = ArrayVec::<u8, 1>::new();
    match next_line(reader, &mut progress.reads, &mut line) {
        Ok(Front::Rest) => {
            if line.is_empty() {
                Ok(())
            } else {
                Err(ReadFault::BadLine { number })
            }
        }
        Ok(_) => Err(ReadFault::BadLine { number }),
        Err(_) => Err(ReadFault::Read),
    }
}
