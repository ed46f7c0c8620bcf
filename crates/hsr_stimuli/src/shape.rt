//! What a stimulus looks like, and its octets.
ghost use Rattle.std.specs.Prelude.{◌≡◌, ◌++◌, OnOk, IfOk, replicate};
ghost use Rattle.hsr_frame.specs.Grammar.{pair};
ghost use Rattle.hsr_stimuli.specs.Shapes.{filled, form_octets, life_octets, load_octets, octets_of, tag_octets, tlv_octets, vlan_octets};

use hsr_frame::{ETHERTYPE_HSR, ETHERTYPE_VLAN, Mac, NoMemory};
use hsr_node::Octets;
use std::alloc::Global;

/// An HSR tag (IEC 62439-3 clause 5.6): path (upper 4 bits) and size (lower 12 bits), and the sequence number.
#[derive(Clone, Copy)]
pub struct Tag {
    pub first: u16,
    pub number: u16,
}

/// What stands between the source and the payload. `control` is the control information of a VLAN tag.
#[derive(Clone, Copy)]
pub enum Form {
    /// A type.
    Plain,
    /// A VLAN tag and a type.
    InVlan { control: u16 },
    /// An HSR tag and a type.
    Tagged(Tag),
    /// A VLAN tag, an HSR tag and a type.
    TaggedInVlan { control: u16, tag: Tag },
    /// A VLAN tag, and no type.
    CutVlan { control: u16 },
    /// Two VLAN tags and a type.
    TwoVlans { control: u16 },
    /// An HSR tag, a VLAN tag behind it, and a type.
    VlanBehind { tag: Tag, control: u16 },
    /// An HSR tag, and no type.
    CutTag(Tag),
    /// Two HSR tags and a type.
    TwoTags(Tag),
}

/// A TLV with an address as its value (IEC 62439-3 clause 5.7); its length need not be that of an address.
#[derive(Clone, Copy)]
pub struct Tlv {
    pub kind: u8,
    pub len: u8,
    pub mac: Mac,
}

/// A supervision payload with this number, TLV1, and one TLV behind it.
#[derive(Clone, Copy)]
pub struct Told {
    pub number: u16,
    pub first: Tlv,
    pub second: Tlv,
}

/// A payload: so many octets 5A, or of supervision.
#[derive(Clone, Copy)]
pub enum Load {
    Filled(u16),
    Supervision(Told),
}

/// What a stimulus looks like; `kind` is its EtherType.
#[derive(Clone, Copy)]
pub struct Shape {
    pub dst: Mac,
    pub src: Mac,
    pub form: Form,
    pub kind: u16,
    pub load: Load,
}

/// What a payload is filled with: no zeros, which would look like padding.
const FILLING: u8 = 0x5A;

/// Path 0 and version 1 of supervision (IEC 62439-3 clause 5.7).
const VERSION: u16 = 1;

/// The zeros behind two TLVs of a supervision payload, up to the least length of a payload.
const ZEROS: [u8; 26] = [0; 26];

/// Puts a number of 16 bits last, the high octet first.
fn put_word(octets: &mut Vec<u8>, word: u16) -> Result<(), NoMemory>
    ensures { OnOk result (octets.new.items ≡ octets.old.items ++ pair word) }
{
    octets.extend_from_slice(word.to_be_bytes().as_slice())?;
    Ok(())
}

/// Puts an address last.
fn put_mac(octets: &mut Vec<u8>, mac: Mac) -> Result<(), NoMemory>
    ensures { OnOk result (octets.new.items ≡ octets.old.items ++ mac) }
{
    octets.extend_from_slice(&mac.octets())?;
    Ok(())
}

/// Puts a VLAN tag last.
fn put_vlan(octets: &mut Vec<u8>, control: u16) -> Result<(), NoMemory>
    ensures { OnOk result (octets.new.items ≡ octets.old.items ++ vlan_octets control) }
{
    put_word(octets, ETHERTYPE_VLAN)?;
    put_word(octets, control)
}

/// Puts an HSR tag last.
fn put_tag(octets: &mut Vec<u8>, tag: Tag) -> Result<(), NoMemory>
    ensures { OnOk result (octets.new.items ≡ octets.old.items ++ tag_octets tag) }
{
    put_word(octets, ETHERTYPE_HSR)?;
    put_word(octets, tag.first)?;
    put_word(octets, tag.number)
}

/// Puts last what stands between the source and the payload.
fn put_form(octets: &mut Vec<u8>, form: Form, kind: u16) -> Result<(), NoMemory>
    ensures { OnOk result (octets.new.items ≡ octets.old.items ++ form_octets form kind) }
{
    match form {
        Form::CutVlan { control } => return put_vlan(octets, control),
        Form::CutTag(tag) => return put_tag(octets, tag),
        Form::Plain => {}
        Form::InVlan { control } => put_vlan(octets, control)?,
        Form::Tagged(tag) => put_tag(octets, tag)?,
        Form::TaggedInVlan { control, tag } => {
            put_vlan(octets, control)?;
            put_tag(octets, tag)?;
        }
        Form::TwoVlans { control } => {
            put_vlan(octets, control)?;
            put_vlan(octets, control)?;
        }
        Form::VlanBehind { tag, control } => {
            put_tag(octets, tag)?;
            put_vlan(octets, control)?;
        }
        Form::TwoTags(tag) => {
            put_tag(octets, tag)?;
            put_tag(octets, tag)?;
        }
    }
    put_word(octets, kind)
}

/// Puts a TLV last.
fn put_tlv(octets: &mut Vec<u8>, tlv: Tlv) -> Result<(), NoMemory>
    ensures { OnOk result (octets.new.items ≡ octets.old.items ++ tlv_octets tlv) }
{
    octets.push(tlv.kind)?;
    octets.push(tlv.len)?;
    put_mac(octets, tlv.mac)
}

/// Puts a supervision payload last.
#[tactic(auto, unfolding(crate::specs::Shapes::life_octets))]
fn put_supervision(octets: &mut Vec<u8>, told: Told) -> Result<(), NoMemory>
    ensures { OnOk result (octets.new.items ≡ octets.old.items ++ life_octets told) }
{
    put_word(octets, VERSION)?;
    put_word(octets, told.number)?;
    put_tlv(octets, told.first)?;
    put_tlv(octets, told.second)?;
    octets.extend_from_slice(&ZEROS)?;
    Ok(())
}

/// Puts a payload last.
fn put_load(alloc: Global, octets: &mut Vec<u8>, load: Load) -> Result<(), NoMemory>
    ensures { OnOk result (octets.new.items ≡ octets.old.items ++ load_octets load) }
{
    match load {
        Load::Filled(len) => {
            let filling = vec![in alloc; FILLING; usize::from(len)]?;
            octets.extend_from_slice(filling.as_slice())?;
            Ok(())
        }
        Load::Supervision(told) => put_supervision(octets, told),
    }
}

impl Shape {
    /// Its octets, from the destination on. `NoMemory` where room is refused.
    #[tactic(auto, unfolding(crate::specs::Shapes::octets_of))]
    pub fn octets(&self, alloc: Global) -> Result<Octets, NoMemory>
        ensures { IfOk result (λ octets. octets ≡ octets_of self.now) }
    {
        let mut octets = Vec::new(alloc);
        put_mac(&mut octets, self.dst)?;
        put_mac(&mut octets, self.src)?;
        put_form(&mut octets, self.form, self.kind)?;
        put_load(alloc, &mut octets, self.load)?;
        Ok(Octets::new(octets))
    }
}
