//! Other packets, VLANs, tables.
ghost use Rattle.std.specs.Prelude.{◌≡◌, ◌++◌, OnOk};
ghost use Rattle.std.specs.List.{flat_map};
ghost use Rattle.hsr_health_text.specs.Kinds.{kinds_text, local_text, malformed_line, rank_word, table_line, untagged_line, vlan_line, vlan_text};

use crate::words::{end_line, put_hex16, put_pair};
use hsr_frame::NoMemory;
use hsr_health::{Health, MalformedKind, UntaggedKind, VlanKind};
use hsr_text::{put, put_number};

/// Puts the VLAN and the priority that a tag's control field says.
#[tactic(auto, unfolding(crate::specs::Kinds::vlan_text))]
fn put_vlan(text: &mut Vec<u8>, control: Option<u16>) -> Result<(), NoMemory>
    ensures { OnOk result (text.new.items ≡ text.old.items ++ vlan_text control) }
{
    match control {
        None => put(text, "vlan - priority -"),
        Some(control) => {
            put(text, "vlan ")?;
            put_number(text, u64::from(control % 4096))?;
            put_pair(text, "priority", u64::from(control / 8192))
        }
    }
}

/// Puts the line of frames with one VLAN tag, or with none.
#[tactic(auto, unfolding(crate::specs::Kinds::vlan_line))]
fn put_vlan_line(text: &mut Vec<u8>, kind: &VlanKind) -> Result<(), NoMemory>
    ensures { OnOk result (text.new.items ≡ text.old.items ++ vlan_line kind.now) }
{
    put_vlan(text, kind.control)?;
    put_pair(text, "frames", kind.frames)?;
    end_line(text)
}

/// Puts the lines of frames by VLAN.
#[tactic(auto, using(hsr_frame::proofs::OneMore::grown))]
fn put_vlans(text: &mut Vec<u8>, kinds: &[VlanKind]) -> Result<(), NoMemory>
    ensures { OnOk result (text.new.items ≡ text.old.items ++ flat_map vlan_line kinds.now) }
{
    for kind in kinds {
        put_vlan_line(text, kind)?;
    }
    Ok(())
}

/// Whether packets stay on a link, in words, with the end of the line.
fn local_text(is_link_local: bool) -> &'static str
    ensures { result.now ≡ local_text is_link_local }
{
    if is_link_local { " link-local\n" } else { "\n" }
}

/// Puts the line of packets without a tag.
#[tactic(auto, unfolding(crate::specs::Kinds::untagged_line))]
fn put_untagged(text: &mut Vec<u8>, kind: &UntaggedKind) -> Result<(), NoMemory>
    ensures { OnOk result (text.new.items ≡ text.old.items ++ untagged_line kind.now) }
{
    put(text, "untagged ")?;
    put_number(text, kind.interface as u64)?;
    put(text, " type ")?;
    put_hex16(text, kind.ethertype)?;
    put_pair(text, "packets", kind.packets)?;
    put(text, local_text(kind.is_link_local))
}

/// Puts the lines of packets without a tag.
#[tactic(auto, using(hsr_frame::proofs::OneMore::grown))]
fn put_all_untagged(text: &mut Vec<u8>, kinds: &[UntaggedKind]) -> Result<(), NoMemory>
    ensures { OnOk result (text.new.items ≡ text.old.items ++ flat_map untagged_line kinds.now) }
{
    for kind in kinds {
        put_untagged(text, kind)?;
    }
    Ok(())
}

/// What a fault is called, by its rank.
fn rank_word(rank: u8) -> &'static str
    ensures { result.now ≡ rank_word rank }
{
    match rank {
        0 => "group-source",
        1 => "long",
        2 => "nested-tag",
        3 => "short",
        4 => "short-tag",
        _ => "vlan",
    }
}

/// Puts the line of packets that are no frames.
#[tactic(auto, unfolding(crate::specs::Kinds::malformed_line))]
fn put_malformed(text: &mut Vec<u8>, kind: &MalformedKind) -> Result<(), NoMemory>
    ensures { OnOk result (text.new.items ≡ text.old.items ++ malformed_line kind.now) }
{
    put(text, "malformed ")?;
    put_number(text, kind.interface as u64)?;
    put(text, " ")?;
    put(text, rank_word(kind.rank))?;
    put_pair(text, "packets", kind.packets)?;
    end_line(text)
}

/// Puts the lines of packets that are no frames.
#[tactic(auto, using(hsr_frame::proofs::OneMore::grown))]
fn put_all_malformed(text: &mut Vec<u8>, kinds: &[MalformedKind]) -> Result<(), NoMemory>
    ensures { OnOk result (text.new.items ≡ text.old.items ++ flat_map malformed_line kinds.now) }
{
    for kind in kinds {
        put_malformed(text, kind)?;
    }
    Ok(())
}

/// Puts the lines of VLANs and of packets that are no copies.
#[tactic(auto, unfolding(crate::specs::Kinds::kinds_text))]
pub(crate) fn put_kinds(text: &mut Vec<u8>, health: &Health<'_>) -> Result<(), NoMemory>
    ensures { OnOk result (text.new.items ≡ text.old.items ++ kinds_text health.now) }
{
    put_vlans(text, health.vlans.as_slice())?;
    put_all_untagged(text, health.untagged.as_slice())?;
    put_all_malformed(text, health.malformed.as_slice())
}

/// Puts the line of tables.
#[tactic(auto, unfolding(crate::specs::Kinds::table_line))]
pub(crate) fn put_table(text: &mut Vec<u8>, health: &Health<'_>, table: u64) -> Result<(), NoMemory>
    ensures { OnOk result (text.new.items ≡ text.old.items ++ table_line health.now table) }
{
    put(text, "table")?;
    put_pair(text, "needed", health.needed)?;
    put_pair(text, "crowd", health.crowd.frames as u64)?;
    put_pair(text, "of", table)?;
    end_line(text)
}
