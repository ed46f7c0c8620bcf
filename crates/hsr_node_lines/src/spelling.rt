//! The lines of `node`, written.
ghost use Rattle.std.specs.Prelude.{◌≡◌, ◌++◌, codes, IfOk, OnOk};
ghost use Rattle.hsr_text.specs.Words.{mac_text};
ghost use Rattle.hsr_node_lines.specs.Spelled.{arrive_text, life_text, octets_text, pair_text, send_text, vlan_text};

use hsr_frame::{Mac, NoMemory, RingPort};
use hsr_text::{put, put_count, put_hex, put_mac};
use std::alloc::Global;

/// Puts octets in digits, a hyphen for none.
fn put_digits(line: &mut Vec<u8>, octets: &[u8]) -> Result<(), NoMemory>
    ensures { OnOk result (line.new.items ≡ line.old.items ++ octets_text octets.now) }
{
    if octets.is_empty() {
        return put(line, "-");
    }
    put_hex(line, octets)
}

/// Puts a number of 16 bits, in four digits.
fn put_pair(line: &mut Vec<u8>, n: u16) -> Result<(), NoMemory>
    ensures { OnOk result (line.new.items ≡ line.old.items ++ pair_text n) }
{
    put_hex(line, n.to_be_bytes().as_slice())
}

/// Puts the word of a VLAN tag's control information, where there is one.
fn put_vlan(line: &mut Vec<u8>, vlan: Option<u16>) -> Result<(), NoMemory>
    ensures { OnOk result (line.new.items ≡ line.old.items ++ vlan_text vlan) }
{
    match vlan {
        None => Ok(()),
        Some(control) => {
            put(line, " ")?;
            put_pair(line, control)
        }
    }
}

/// A frame that is to be sent, with its payload where it stands.
#[derive(Clone, Copy)]
pub(crate) struct Sending<'a> {
    pub(crate) dst: Mac,
    /// The EtherType.
    pub(crate) kind: u16,
    pub(crate) payload: &'a [u8],
    pub(crate) vlan: Option<u16>,
}

/// Puts where a frame goes, and what it is.
fn put_kind(alloc: Global, line: &mut Vec<u8>, sent: &Sending<'_>) -> Result<(), NoMemory>
    ensures { OnOk result (line.new.items ≡ line.old.items ++ mac_text sent.now.dst ++ codes " " ++ pair_text sent.now.kind) }
{
    put_mac(alloc, line, sent.dst)?;
    put(line, " ")?;
    put_pair(line, sent.kind)
}

/// The line of a frame that is to be sent at a moment.
pub(crate) fn send_line(alloc: Global, at: u64, sent: &Sending<'_>) -> Result<Vec<u8>, NoMemory>
    ensures { IfOk result (λ line. line.items ≡ send_text (record { at = at; dst = sent.now.dst; kind = sent.now.kind; payload = sent.now.payload.now; vlan = sent.now.vlan })) }
{
    let mut line = Vec::new(alloc);
    put_count(&mut line, b"send ", at)?;
    put(&mut line, " ")?;
    put_kind(alloc, &mut line, sent)?;
    put(&mut line, " ")?;
    put_digits(&mut line, sent.payload)?;
    put_vlan(&mut line, sent.vlan)?;
    Ok(line)
}

/// The line of octets that come to a port at a moment.
pub(crate) fn arrive_line(
    alloc: Global,
    at: u64,
    port: RingPort,
    octets: &[u8],
) -> Result<Vec<u8>, NoMemory>
    ensures { IfOk result (λ line. line.items ≡ arrive_text at port octets.now) }
{
    let mut line = Vec::new(alloc);
    put_count(&mut line, b"arrive ", at)?;
    put(&mut line, " ")?;
    put(&mut line, port.word())?;
    put(&mut line, " ")?;
    put_digits(&mut line, octets)?;
    Ok(line)
}

/// The line of a supervision frame that the node sends at a moment.
pub(crate) fn life_line(alloc: Global, at: u64) -> Result<Vec<u8>, NoMemory>
    ensures { IfOk result (λ line. line.items ≡ life_text at) }
{
    let mut line = Vec::new(alloc);
    put_count(&mut line, b"life ", at)?;
    Ok(line)
}
