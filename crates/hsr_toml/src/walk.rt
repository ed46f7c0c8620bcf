//! How deep in brackets the octets of a bare text are.

/// A walk over a bare text.
#[derive(Clone, Copy)]
pub(crate) struct Walk {
    /// How many brackets are open.
    depth: usize,
    /// The last octet that is no blank; a line feed at first.
    before: u8,
    /// Whether it is in the line of a header.
    is_header: bool,
    /// Whether there was a header.
    has_header: bool,
}

/// Whether an octet is a blank.
pub(crate) fn is_blank(b: u8) -> bool {
    matches!(b, b' ' | b'\t' | b'\r')
}

impl Walk {
    /// At the first octet of a text, or of a part of one.
    pub(crate) fn start() -> Walk {
        Walk {
            depth: 0,
            before: b'\n',
            is_header: false,
            has_header: false,
        }
    }

    /// Whether a header begins with the next octet, if that is this one.
    fn begins_header(self, b: u8) -> bool {
        b == b'[' && self.depth == 0 && self.before == b'\n'
    }

    /// How many brackets are open behind an octet.
    fn depth_behind(self, b: u8) -> usize {
        match b {
            b'[' | b'{' => self.depth.saturating_add(1),
            // Saturating: a walk that begins inside brackets meets their end.
            b']' | b'}' => self.depth.saturating_sub(1),
            _ => self.depth,
        }
    }

    /// The walk behind an octet.
    pub(crate) fn behind(self, b: u8) -> Walk {
        // Blanks change nothing, so that `before` is what stands before a word, however far.
        if is_blank(b) {
            return self;
        }
        let begins = self.begins_header(b);
        Walk {
            depth: self.depth_behind(b),
            before: b,
            is_header: begins || (self.is_header && b != b'\n'),
            has_header: begins || self.has_header,
        }
    }

    /// Whether a key of the table in which it began may stand here.
    pub(crate) fn is_key(self) -> bool {
        self.depth == 0 && matches!(self.before, b'\n' | b'{' | b',')
    }

    /// Whether the first word of a header may stand here.
    fn is_in_header(self) -> bool {
        self.is_header && self.before == b'['
    }

    /// Whether a key of the document may stand here, in a walk from its start.
    pub(crate) fn is_top_key(self) -> bool {
        (self.is_key() && !self.has_header) || self.is_in_header()
    }

    /// Whether the word of a header with two brackets may stand here.
    pub(crate) fn is_table_header(self) -> bool {
        self.is_in_header() && self.depth == 2
    }

    /// Whether the table in which it began ends with the next octet, if that is this one.
    pub(crate) fn ends_table(self, b: u8) -> bool {
        self.begins_header(b) || (b == b'}' && self.depth == 0)
    }

    /// Whether the value in which it began ends with the next octet, if that is this one.
    pub(crate) fn ends_value(self, b: u8) -> bool {
        self.depth == 0 && matches!(b, b'\n' | b',' | b'}' | b']')
    }

    /// Whether a table begins in the array in which the walk began with the next octet, if that is this one.
    pub(crate) fn begins_table(self, b: u8) -> bool {
        b == b'{' && self.depth == 0
    }
}
