//! Tests of threads that work at once: on a node and on a link under locks, and in runs whose order gates bring about.
#![tactic(auto)]

#[cfg(test)]
mod cell_tests;
#[cfg(test)]
mod runner_tests;
