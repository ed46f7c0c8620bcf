//! What holds at each moment of a play, whatever the order in which its copies move.
#![tactic(auto)]

mod law;

pub use law::{
    ends_certain, ends_well, few_steps, goes_on, heard_now, lost_down, moves_are_few,
    never_overruns, never_refused, never_twice, remembers_now, run_is_play, tells_all,
};
