//! What a world of nodes and links is, step by step, and the laws over all worlds: no other code.
#![tactic(auto)]

mod law;

pub use law::{
    always_closes, always_finishes, always_frames, always_numbered_first, always_of_send,
    always_origins, always_placed, always_planned, always_sent, always_sound, first_sound,
    fit_frames, only_quiet_closes, step_placed,
};
