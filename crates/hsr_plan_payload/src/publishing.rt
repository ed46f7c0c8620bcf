//! The names by which frames say who publishes them.
ghost use Rattle.std.specs.Prelude.{◌≡◌, ◌++◌, IfOk, OnOk};
ghost use Rattle.hsr_plan_payload.specs.Ber.{pair, tagged};
ghost use Rattle.hsr_plan_payload.specs.Payload.{framed};
ghost use Rattle.hsr_plan_payload.specs.Publishing.{block_reference, goose_block, id_if, id_of, logical_node, set_reference};

use crate::ber::{put_pair, put_tagged, put_zeros};
use crate::frames::Publisher;
use hsr_frame::NoMemory;
use std::alloc::Global;

/// What follows the device's name in a reference to a control block of GOOSE.
#[tactic(auto, unfolding(crate::specs::Publishing::goose_block))]
fn goose_block() -> &'static [u8]
    ensures { result.now ≡ goose_block }
{
    // In a function of its own: a long literal at the head of a text keeps search from the rest of it.
    b"/LLN0$GO$"
}

/// What follows the device's name in a reference to a data set.
#[tactic(auto, unfolding(crate::specs::Publishing::logical_node))]
fn logical_node() -> &'static [u8]
    ensures { result.now ≡ logical_node }
{
    b"/LLN0$"
}

/// Puts a field of three texts, one behind the other, behind others.
fn put_joined(
    alloc: Global,
    out: &mut Vec<u8>,
    tag: u8,
    first: &[u8],
    second: &[u8],
    third: &[u8],
) -> Result<(), NoMemory>
    ensures { OnOk result (out.new.items
        ≡ out.old.items ++ tagged tag (first.now ++ (second.now ++ third.now))) }
{
    let mut value = Vec::new(alloc);
    value.extend_from_slice(first)?;
    value.extend_from_slice(second)?;
    value.extend_from_slice(third)?;
    put_tagged(out, tag, value.as_slice())
}

/// Puts the reference to the control block of GOOSE behind others.
pub(crate) fn put_block(
    alloc: Global,
    out: &mut Vec<u8>,
    publisher: &Publisher<'_>,
) -> Result<(), NoMemory>
    ensures { OnOk result (out.new.items
        ≡ out.old.items ++ tagged 0x80 (block_reference publisher.now)) }
{
    put_joined(
        alloc,
        out,
        0x80,
        publisher.device,
        goose_block(),
        publisher.control_block,
    )
}

/// Puts the reference to the data set behind others.
pub(crate) fn put_set(
    alloc: Global,
    out: &mut Vec<u8>,
    tag: u8,
    publisher: &Publisher<'_>,
) -> Result<(), NoMemory>
    ensures { OnOk result (out.new.items
        ≡ out.old.items ++ tagged tag (set_reference publisher.now)) }
{
    put_joined(
        alloc,
        out,
        tag,
        publisher.device,
        logical_node(),
        publisher.data_set,
    )
}

/// Puts goID or svID behind others.
pub(crate) fn put_id(
    alloc: Global,
    out: &mut Vec<u8>,
    tag: u8,
    publisher: &Publisher<'_>,
) -> Result<(), NoMemory>
    ensures { OnOk result (out.new.items ≡ out.old.items ++ tagged tag (id_of publisher.now)) }
{
    match publisher.id {
        Some(id) => put_tagged(out, tag, id),
        None => put_joined(
            alloc,
            out,
            tag,
            publisher.device,
            b"_",
            publisher.control_block,
        ),
    }
}

/// A PDU behind an APPID, its length and two reserved fields.
pub(crate) fn framed(alloc: Global, appid: usize, pdu: &[u8]) -> Result<Vec<u8>, NoMemory>
    ensures { IfOk result (λ v. v.items ≡ framed appid pdu.now) }
{
    let mut out = Vec::new(alloc);
    put_pair(&mut out, appid)?;
    // The length counts itself, the APPID and the reserved fields too.
    put_pair(&mut out, pdu.len() + 8)?;
    put_zeros(&mut out, 4)?;
    out.extend_from_slice(pdu)?;
    Ok(out)
}
