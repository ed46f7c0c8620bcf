//! The words of lines, written.
ghost use Rattle.std.specs.Prelude.{◌≡◌, ◌++◌, ◌∷◌, OnOk, IfOk, IfSome, codes, string_bytes};
ghost use Rattle.std.specs.Fmt.{decimal};
ghost use Rattle.hex.specs.Hex.{IsBytes, encode_upper};
ghost use Rattle.hsr_frame.specs.Address.{IsAddress};
ghost use Rattle.hsr_frame.specs.Grammar.{pair};
ghost use Rattle.hsr_frame.specs.Words.{cause_text, fault_text};
ghost use Rattle.hsr_transcript_lines.specs.Fits.{IsAboutFit, IsCarriedFit, IsProbeFit};
ghost use Rattle.hsr_transcript_lines.specs.Spelled.{about_text, octets_text, probe_text, seq_text, vlan_text};
ghost use Rattle.hsr_text.specs.Words.{mac_text};

use hsr_frame::{About, Cause, FrameFault, Mac, NoMemory};
use hsr_node::{Carried, Probe};
use hsr_text::{put_decimal, put_hex, put_mac};
use std::alloc::Global;

/// Puts a space and a number, in decimal, behind what the text holds.
/// `NoMemory` if allocation fails; a front of it may stand there then.
pub fn put_number(text: &mut Vec<u8>, n: u64) -> Result<(), NoMemory>
    ensures { OnOk result (text.new.items ≡ text.old.items ++ 32 ∷ decimal n) }
{
    text.push(b' ')?;
    put_decimal(text, n)
}

/// Puts a space and a word.
pub(crate) fn put_word(text: &mut Vec<u8>, word: &[u8]) -> Result<(), NoMemory>
    ensures { OnOk result (text.new.items ≡ text.old.items ++ 32 ∷ word.now) }
{
    text.push(b' ')?;
    text.extend_from_slice(word)?;
    Ok(())
}

/// Puts a space and an address.
pub(crate) fn put_next_mac(alloc: Global, text: &mut Vec<u8>, mac: Mac) -> Result<(), NoMemory>
    ensures { OnOk result (text.new.items ≡ text.old.items ++ 32 ∷ mac_text mac) }
{
    text.push(b' ')?;
    put_mac(alloc, text, mac)
}

/// Puts a space and octets.
pub(crate) fn put_octets(text: &mut Vec<u8>, octets: &[u8]) -> Result<(), NoMemory>
    ensures { OnOk result (text.new.items ≡ text.old.items ++ 32 ∷ octets_text octets.now) }
{
    if octets.is_empty() {
        // A hyphen, since each word of a line has a letter at least.
        text.extend_from_slice(b" -")?;
        return Ok(());
    }
    text.push(b' ')?;
    put_hex(text, octets)
}

/// Puts a space and the four digits of a number of 16 bits.
pub(crate) fn put_hex_u16(text: &mut Vec<u8>, n: u16) -> Result<(), NoMemory>
    ensures { OnOk result (text.new.items ≡ text.old.items ++ 32 ∷ encode_upper (pair n)) }
{
    text.push(b' ')?;
    put_hex(text, n.to_be_bytes().as_slice())
}

/// Puts a space and a VLAN tag's control information.
pub(crate) fn put_vlan(text: &mut Vec<u8>, vlan: Option<u16>) -> Result<(), NoMemory>
    ensures { OnOk result (text.new.items ≡ text.old.items ++ 32 ∷ vlan_text vlan) }
{
    match vlan {
        None => {
            text.extend_from_slice(b" -")?;
            Ok(())
        }
        Some(control) => put_hex_u16(text, control),
    }
}

/// Puts a space and the number of a frame.
pub(crate) fn put_seq(text: &mut Vec<u8>, seq: Option<u16>) -> Result<(), NoMemory>
    ensures { OnOk result (text.new.items ≡ text.old.items ++ 32 ∷ seq_text seq) }
{
    match seq {
        None => {
            text.extend_from_slice(b" -")?;
            Ok(())
        }
        Some(seq) => put_number(text, u64::from(seq)),
    }
}

/// Puts a space and a probe.
pub(crate) fn put_probe(text: &mut Vec<u8>, probe: Option<Probe>) -> Result<(), NoMemory>
    ensures { OnOk result (text.new.items ≡ text.old.items ++ 32 ∷ probe_text probe) }
{
    let Some(probe) = probe else {
        text.extend_from_slice(b" -")?;
        return Ok(());
    };
    put_number(text, probe.node as u64)?;
    text.push(b':')?;
    put_decimal(text, probe.place as u64)
}

/// Puts a space and the node that a supervision frame is about.
pub(crate) fn put_about(alloc: Global, text: &mut Vec<u8>, about: About) -> Result<(), NoMemory>
    ensures { OnOk result (text.new.items ≡ text.old.items ++ 32 ∷ about_text about) }
{
    match about {
        About::Own => {
            text.extend_from_slice(b" own")?;
            Ok(())
        }
        About::Proxied(mac) => put_next_mac(alloc, text, mac),
    }
}

/// Puts a separator and the number of a fault, if there is one.
fn put_fault(
    text: &mut Vec<u8>,
    separator: &[u8],
    fault: Option<FrameFault>,
) -> Result<(), NoMemory>
    ensures { OnOk result (text.new.items ≡ text.old.items ++ fault_text separator.now fault) }
{
    match fault {
        None => Ok(()),
        Some(fault) => {
            text.extend_from_slice(separator)?;
            put_decimal(text, u64::from(fault.code()))
        }
    }
}

/// Puts a space and why an arrival went where it did.
pub(crate) fn put_cause(text: &mut Vec<u8>, cause: Cause) -> Result<(), NoMemory>
    ensures { OnOk result (text.new.items ≡ text.old.items ++ 32 ∷ cause_text (codes "-") cause) }
{
    put_word(text, cause.word().as_bytes())?;
    put_fault(text, b"-", cause.fault())
}

// What the types of values tell, which contracts learn from the clauses of these functions; they do nothing else.

/// An address has six octets.
pub(crate) fn mac_fits(mac: Mac)
    ensures { IsAddress mac }
{
    // The clause of `octets` says that there are six.
    let _ = mac.octets();
}

/// The address of a node that a supervision frame is about has six octets.
pub(crate) fn about_fits(about: About)
    ensures { IsAboutFit about }
{
    match about {
        About::Own => {}
        About::Proxied(mac) => mac_fits(mac),
    }
}

/// The numbers of a probe have 64 bits.
fn probe_fits(probe: Option<Probe>)
    ensures { IfSome probe IsProbeFit }
{}

/// Octets have 8 bits each.
fn octets_fit(octets: &[u8])
    ensures { IsBytes octets.now }
{}

/// The numbers of a copy's probe have 64 bits, and its octets 8.
pub(crate) fn carried_fits(carried: &Carried)
    ensures { IsCarriedFit carried.now }
{
    probe_fits(carried.probe);
    octets_fit(carried.octets.as_slice());
}
