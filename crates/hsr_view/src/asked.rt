//! What the arguments of hsr_view ask for.
use crate::views::What;

/// What is asked for, and the path of the scenario whose names stand in place of numbers.
#[derive(Drop)]
pub struct Asked<'a> {
    pub what: What<'a>,
    pub names: Option<&'a str>,
}
