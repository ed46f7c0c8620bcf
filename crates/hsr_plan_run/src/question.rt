//! What is asked of a plan's run.
use hsr_options::Showing;

/// What is shown of a plan's run: which audit its last line and the status are of, what is written, and whether by the plan's names; the
/// path of the folder into which its tables are written, if they are asked for; and whether more is said of a doubt.
#[derive(Clone, Copy, PartialEq, Eq)]
pub struct Question<'a> {
    pub showing: Showing,
    pub folder: Option<&'a str>,
    pub explains: bool,
}
