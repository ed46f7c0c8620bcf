//! The greatest number of entries that was needed.
ghost use Rattle.std.specs.Prelude.{◌≡◌};

/// How many entries the duplicate tables of a run needed, and the node and place of the first arrival that needed as
/// many, by node and then place; nowhere, where none were needed.
#[derive(Clone, Copy, PartialEq, Eq)]
pub struct Needed {
    pub entries: usize,
    pub at: Option<(usize, usize)>,
}

impl Needed {
    ghost use Rattle.hsr_table_demand.specs.Walked.{nothing_needed, or_more};

    /// Nothing was needed.
    pub(crate) fn nothing() -> Needed
        ensures { result ≡ nothing_needed }
    {
        Needed {
            entries: 0,
            at: None,
        }
    }

    /// What was needed, where after this an arrival at a place of a node needed this number of entries.
    pub(crate) fn or_more(self, entries: usize, node: usize, place: usize) -> Needed
        ensures { result ≡ or_more self entries node place }
    {
        // Of equals the first stays.
        if self.entries < entries {
            Needed {
                entries,
                at: Some((node, place)),
            }
        } else {
            self
        }
    }
}
