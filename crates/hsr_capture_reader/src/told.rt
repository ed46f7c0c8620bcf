//! What a file told, without references into it.
use crate::fields::Losses;
use crate::names::Names;
use crate::rooms::Room;

/// What a file told, beside it.
#[derive(Drop)]
pub(crate) struct Told {
    pub(crate) names: Names,
    pub(crate) losses: Vec<Losses>,
    pub(crate) rooms: Vec<Room>,
    pub(crate) end: u64,
    pub(crate) is_short: bool,
}
