//! Tests of single calls in which an allocation fails: what a call says then is proved, and here it is seen that the same call,
//! made again, answers as one that had memory. With no refusal each test shows that the calls succeed.
//!
//! At most one request is refused in a run, so what is asked for again is had.
#![tactic(auto)]

#[cfg(test)]
mod closing_tests;
#[cfg(test)]
mod fixtures;
#[cfg(test)]
mod link_tests;
#[cfg(test)]
mod node_tests;
#[cfg(test)]
mod world_tests;
