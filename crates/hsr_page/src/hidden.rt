//! Characters that turn the order of letters or can't be seen.
ghost use Rattle.std.specs.Prelude.{◌≡◌, ◌&&◌, nat_le};
ghost use Rattle.std.specs.List.{list_any};
ghost use Rattle.hsr_page.specs.Hidden.{hidden_ranges, is_hidden};

/// Of each run of hidden characters the first and the last, in their order.
#[tactic(auto, unfolding(crate::specs::Hidden::hidden_ranges))]
fn hidden_ranges() -> [(u32, u32); 20]
    ensures { result ≡ hidden_ranges }
{
    [
        // Controls but tab and line feed, and the soft hyphen.
        (0x0, 0x8),
        (0xB, 0x1F),
        (0x7F, 0x9F),
        (0xAD, 0xAD),
        // Joiners, fillers, marks that turn the order of letters, and variation selectors.
        (0x34F, 0x34F),
        (0x61C, 0x61C),
        (0x115F, 0x1160),
        (0x17B4, 0x17B5),
        (0x180B, 0x180F),
        (0x200B, 0x200F),
        (0x2028, 0x202E),
        (0x2060, 0x206F),
        (0x3164, 0x3164),
        (0xFE00, 0xFE0F),
        (0xFEFF, 0xFEFF),
        (0xFFA0, 0xFFA0),
        (0xFFF0, 0xFFFB),
        // Controls of shorthand and of music, and tags.
        (0x1BCA0, 0x1BCA3),
        (0x1D173, 0x1D17A),
        (0xE0000, 0xE0FFF),
    ]
}

/// Whether a number is in one of some ranges, each with its first and its last.
fn is_in_some(ranges: &[(u32, u32)], code: u32) -> bool
    ensures { result ≡ list_any (λ range. nat_le range.0 code && nat_le code range.1) ranges.now }
{
    ranges
        .iter()
        .any(|(first, last)| *first <= code && code <= *last)
}

/// Whether a character turns the order of letters or can't be seen.
#[tactic(auto, unfolding(crate::specs::Hidden::is_hidden))]
pub(crate) fn is_hidden(c: char) -> bool
    ensures { result ≡ is_hidden c }
{
    is_in_some(&hidden_ranges(), c as u32)
}
