//! Rows in which what has a width stands side by side.

/// A row, and what is left of it.
#[derive(Clone, Copy)]
pub(crate) struct Row {
    /// Where the next one may stand.
    pub left: f64,
    pub top: f64,
    /// How far down those reach that stand there.
    pub bottom: f64,
    /// From where on a new row begins.
    pub limit: f64,
}

impl Row {
    /// An empty row.
    pub(crate) fn at(top: f64, limit: f64) -> Row {
        Row {
            left: 0.0,
            top,
            bottom: top,
            limit,
        }
    }

    /// The row in which something so wide stands: this one, or a new one so far below it.
    pub(crate) fn fitting(self, width: f64, gap: f64) -> Row {
        if self.left > 0.0 && self.left + width > self.limit {
            Row::at(self.bottom + gap, self.limit)
        } else {
            self
        }
    }

    /// What is left of it behind something that reaches so far down; `width` is with what is left free beside it.
    pub(crate) fn behind(self, width: f64, bottom: f64) -> Row {
        Row {
            left: self.left + width,
            top: self.top,
            bottom: self.bottom.max(bottom),
            limit: self.limit,
        }
    }
}
