//! Who publishes, and what one of its frames says.
ghost use Rattle.std.specs.Prelude.{◌≡◌, ◌≤◌, ◌^◌};

use std::marker::Model;

/// Who publishes GOOSE or sampled values (IEC 61850-8-1 and 9-2): the name of the device, the APPID, the names of its control block and of the
/// data set in the device, and goID or svID, which is the device's and the control block's name where none is said.
#[derive(Drop)]
pub struct Publisher<'a> {
    pub device: &'a [u8],
    pub appid: usize,
    pub control_block: &'a [u8],
    pub data_set: &'a [u8],
    pub id: Option<&'a [u8]>,
}

impl<'a> Model for Publisher<'a> {
    ghost use Rattle.std.specs.Prelude.{option_map};
    ghost use Rattle.hsr_plan_payload.specs.Publishing.{Publisher};

    ghost Value = { Publisher };

    ghost view = { λ p. record { device = p.device.now; appid = p.appid; control_block = p.control_block.now; data_set = p.data_set.now; id = option_map (λ s. s.now) p.id } };
}

/// A frame of GOOSE: timeAllowedtoLive in milliseconds, the moment since which its state is there in microseconds since 1970, the
/// number of the state, and of the frame since it began, both from 0.
#[derive(Clone, Copy, PartialEq, Eq)]
pub struct GooseFrame {
    pub live: usize,
    pub since: usize,
    pub state: usize,
    pub count: usize,
}

/// A frame of sampled values: how many samples there are a second where that is said, how many are in each frame, and the number of
/// the frame since the start, from 0.
#[derive(Clone, Copy, PartialEq, Eq)]
pub struct SampledFrame {
    pub rate: Option<usize>,
    pub asdus: usize,
    pub count: usize,
}
