//! What there is for a device that a document describes.
ghost use Rattle.std.specs.Prelude.{◌≡◌, IfErr, IfOk, IfSome};
ghost use Rattle.hsr_frame.specs.Address.{IsGroup};
ghost use Rattle.hsr_duptable.specs.Table.{IsTableSize};
ghost use Rattle.hsr_node.specs.Place.{HasOwnAddress};
ghost use Rattle.hsr_table_size.specs.Sizes.{capacity_of};
ghost use Rattle.hsr_stimuli.specs.Device.{IsOfCapture, IsShown, IsUnshown, own_address, place_of, shown};

use crate::capturing::capture;
use crate::playing::answers;
use crate::scenes::stimuli;
use crate::telling::list_text;
use hsr_frame::{Mac, NoMemory};
use hsr_node::{Place, Role};
use hsr_pcapng::BlockFault;
use hsr_table_size::{TableSize, at_size};
use hsr_tap_device::{Device, Owner};
use std::alloc::Global;
use std::marker::Model;

/// The capture of stimuli, and their list with the answers of the reference node.
#[derive(Drop)]
pub struct Shown {
    pub capture: Vec<u8>,
    pub list: Vec<u8>,
}

impl Model for Shown {
    ghost use Rattle.hsr_stimuli.specs.Device.{ShownFields};

    ghost Value = { ShownFields };

    ghost view = { λ s. record { capture = s.capture.items; list = s.list.items } };
}

/// Why there are no stimuli.
#[derive(Clone, Copy)]
pub enum NoStimuli {
    /// The device is no DANH, RedBox or QuadBox with an address that it can have.
    NoPlace,
    /// The reference node has no tables of that size.
    NoTable,
    /// A length doesn't fit its field in the capture.
    TooLong,
    /// Room was refused.
    NoMemory,
}

impl From<NoMemory> for NoStimuli {
    ghost use Rattle.std.specs.Prelude.{◌≡◌};
    ghost use Rattle.hsr_stimuli.specs.declared.device.NoStimuli.TheVariants.{NoMemory as NoRoom};

    ghost from_gives = { λ _ fault. fault ≡ NoRoom };

    fn from(_refused: NoMemory) -> NoStimuli {
        NoStimuli::NoMemory
    }
}

impl From<BlockFault> for NoStimuli {
    ghost use Rattle.std.specs.Prelude.{◌≡◌};
    ghost use Rattle.hsr_stimuli.specs.Device.{block_fault};

    ghost from_gives = { λ refused fault. fault ≡ block_fault refused };

    fn from(refused: BlockFault) -> NoStimuli {
        match refused {
            BlockFault::TooLong => NoStimuli::TooLong,
            BlockFault::NoMemory => NoStimuli::NoMemory,
        }
    }
}

/// The address of a node on a ring, if no group has it.
fn own_address(mac: Option<Mac>) -> Option<Mac>
    ensures own { IfSome result (λ mac. ¬ IsGroup mac) }
    ensures value { result ≡ own_address mac }
{
    match mac {
        Some(mac) if !mac.is_group() => Some(mac),
        _ => None,
    }
}

/// Where a device stands.
fn place_of(owner: &Owner) -> Option<Place>
    ensures value { result ≡ place_of owner.now }
    ensures own { IfSome result HasOwnAddress }
{
    match owner.role {
        Role::Danh => Some(Place::Danh {
            mac: own_address(owner.mac)?,
            mode: owner.mode,
        }),
        Role::RedBox => Some(Place::RedBox {
            mac: own_address(owner.mac)?,
            mode: owner.mode,
        }),
        Role::QuadBox => Some(Place::QuadBox),
        Role::Station => None,
    }
}

/// The capture, and the list with the answers of a reference node whose tables have `C` entries.
#[tactic(auto, using(crate::proofs::Showing::of_block), unfolding(crate::specs::Device::shown))]
fn shown_at<const C: usize>(
    alloc: Global,
    place: &Place,
    start: Option<u16>,
) -> Result<Shown, NoStimuli>
    requires station { HasOwnAddress place.now }
    requires entries { IsTableSize C }
    ensures shown { IfOk result (λ s. s ≡ shown C place.now start) }
    ensures fault { IfErr result (λ fault. IsOfCapture C place.now start fault) }
{
    let entries = C as u16;
    let list = stimuli(alloc, place, entries, start)?;
    let tried = answers::<C>(alloc, place, start, list.as_slice())?;
    let capture = capture(alloc, place, list.as_slice())?;
    let list = list_text(alloc, place, entries, start, tried.as_slice())?;
    Ok(Shown { capture, list })
}

/// The same with tables of a size.
fn shown_with(
    alloc: Global,
    place: &Place,
    table: TableSize,
    start: Option<u16>,
) -> Result<Shown, NoStimuli>
    requires { HasOwnAddress place.now }
    ensures shown { IfOk result (λ s. s ≡ shown (capacity_of table) place.now start) }
    ensures fault { IfErr result (λ fault.
        IsOfCapture (capacity_of table) place.now start fault) }
{
    at_size!(table => shown_at[](alloc, place, start))
}

/// The stimuli for a device, as a capture, and as a list with what the reference node answers. `NoPlace` where it is no DANH, RedBox or
/// QuadBox with an address that it can have, then `NoTable` where the reference node has no tables of its size; `TooLong` where a length
/// doesn't fit, `NoMemory` where room is refused.
#[tactic(auto, using(crate::proofs::Showing::is_shown, crate::proofs::Showing::is_unshown))]
pub fn stimuli_for(alloc: Global, device: &Device) -> Result<Shown, NoStimuli>
    ensures shown { IfOk result (λ s. IsShown device.now s) }
    ensures fault { IfErr result (λ fault. IsUnshown device.now fault) }
{
    let Some(place) = place_of(&device.owner) else {
        return Err(NoStimuli::NoPlace);
    };
    let Some(table) = TableSize::from_capacity(u64::from(device.table)) else {
        return Err(NoStimuli::NoTable);
    };
    // By `?`, so that each answer is proved by itself.
    Ok(shown_with(alloc, &place, table, device.numbers.start)?)
}
