//! Tests of addresses, tags, supervision payloads and tables, beside values that come from outside the bench.
#![tactic(auto)]

#[cfg(test)]
mod address_tests;
#[cfg(test)]
mod supervision_tests;
#[cfg(test)]
mod tables_tests;
#[cfg(test)]
mod tag_tests;
