//! The verdict on a plan, over a reader and two writers.
ghost use Rattle.std.specs.Prelude.{IfErr, IfOk, IfSome, IsOk};
ghost use Rattle.hsr_table_size.specs.Sizes.{capacity_of};
ghost use Rattle.hsr_plan_certify.specs.Ends.{CertifyEnds, IsToldIn, IsUncertifiable};

use crate::question::Question;
use crate::verdict::told_of;
use hsr_plan_scenario::{
    Ending, Line, Told, Trouble, complain, fail, give, line_of, read_text, words,
};
use hsr_plan_text::{TEXT_LIMIT, read};
use hsr_table_size::TableSize;
use std::alloc::Global;
use std::io::{self, Read, Write};

/// The verdict on what octets say as a plan, in its words; or the line of what is wrong.
fn told_in(alloc: Global, table: TableSize, octets: &[u8], question: Question) -> Result<Told, Line>
    ensures told { IfOk result (λ t. IsToldIn (capacity_of table) question octets.now t.text.items t.ending) }
    ensures none { IfErr result (λ line. IsOk line → IsUncertifiable (capacity_of table) octets.now) }
{
    let Ok(text) = str::from_utf8(octets) else {
        return Err(words(alloc, "fault: plan 1:1 no UTF-8"));
    };
    match read(alloc, text) {
        Ok(plan) => told_of(alloc, table, text, &plan, question),
        Err(fault) => Err(line_of(alloc, text, &Trouble::Plan(fault))),
    }
}

/// Writes the verdict on what octets say as a plan, or the line of what is wrong.
#[tactic(auto, using(crate::proofs::Whole::given_so, crate::proofs::Whole::why_so))]
fn answer<W: Write, E: Write>(
    alloc: Global,
    table: TableSize,
    octets: &[u8],
    question: Question,
    writer: &mut W,
    errors: &mut E,
) -> io::Result<Ending>
    ensures { IfOk result (CertifyEnds (capacity_of table) question octets.now (W.contents writer.old)
        (W.contents writer.new) (E.contents errors.old) (E.contents errors.new)) }
{
    match told_in(alloc, table, octets, question) {
        Ok(told) => Ok(give(writer, &told)),
        Err(line) => complain(alloc, errors, line),
    }
}

/// Reads a plan, and writes one line, the verdict on it whatever the order in which its copies move, in a network with tables of the
/// size `table`: that all its sends are certified, or the first doubt. The question may be of orders alone in which copies live for less than
/// so many microseconds. Certified is what happens in the plan: its moves of copies, where they are by hops or wires, are left out, and a drain stands
/// behind all. A doubt names the send by its node, its moment and its stream, or the link or the node, and the line of the plan where that
/// stands. Behind a certificate stand lines of what faults cut off, if the question is of these too. Where there is no verdict, nothing is
/// written but one line on `errors`, as by `plan_run`. The error of `errors`, where that line can't be written there.
pub fn certify_plan_run<R: Read, W: Write, E: Write>(
    alloc: Global,
    reader: &mut R,
    writer: &mut W,
    errors: &mut E,
    table: TableSize,
    question: Question,
) -> io::Result<Ending>
    ensures { IfOk result (λ ending. IfSome (R.remaining reader.old) (λ octets.
        CertifyEnds (capacity_of table) question octets (W.contents writer.old) (W.contents writer.new)
        (E.contents errors.old) (E.contents errors.new) ending)) }
{
    match read_text(alloc, reader, TEXT_LIMIT) {
        Ok(octets) => answer(alloc, table, octets.as_slice(), question, writer, errors),
        Err(fault) => fail(errors, fault),
    }
}
