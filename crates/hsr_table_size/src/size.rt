//! How many entries a duplicate table holds.

use crate::table_words;
use hsr_text::decimal;

/// How many entries a duplicate table holds. The standard fixes no number of entries (IEC 62439-3 clause 5.3): each size is a choice of
/// this program.
#[derive(Clone, Copy, PartialEq, Eq)]
pub enum TableSize {
    Small,
    Entries8,
    Entries16,
    Entries32,
    Entries64,
    Entries128,
    Entries256,
    Large,
    Entries1024,
    Entries2048,
    Entries4096,
    Entries8192,
    Entries16384,
    Entries32768,
    Entries65535,
}

impl TableSize {
    ghost use Rattle.std.specs.Prelude.{◌≡◌, IfSome, Some, map};
    ghost use Rattle.hsr_table_size.specs.Sizes.{capacity_of, table_of, table_with, table_word, table_words};

    /// How many entries a table of this size holds.
    pub fn capacity(self) -> u64
        ensures { result ≡ capacity_of self }
    {
        match self {
            TableSize::Small => 4,
            TableSize::Entries8 => 8,
            TableSize::Entries16 => 16,
            TableSize::Entries32 => 32,
            TableSize::Entries64 => 64,
            TableSize::Entries128 => 128,
            TableSize::Entries256 => 256,
            TableSize::Large => 512,
            TableSize::Entries1024 => 1024,
            TableSize::Entries2048 => 2048,
            TableSize::Entries4096 => 4096,
            TableSize::Entries8192 => 8192,
            TableSize::Entries16384 => 16384,
            TableSize::Entries32768 => 32768,
            TableSize::Entries65535 => 65535,
        }
    }

    /// The size of tables with so many entries.
    #[tactic(auto, using(crate::proofs::Sizes::with_again))]
    pub fn from_capacity(entries: u64) -> Option<TableSize>
        ensures value { result ≡ table_with entries }
        ensures again { (table : TableSize) → table_with (capacity_of table) ≡ Some table }
        ensures exact { IfSome result (λ table. entries ≡ capacity_of table) }
    {
        match entries {
            4 => Some(TableSize::Small),
            8 => Some(TableSize::Entries8),
            16 => Some(TableSize::Entries16),
            32 => Some(TableSize::Entries32),
            64 => Some(TableSize::Entries64),
            128 => Some(TableSize::Entries128),
            256 => Some(TableSize::Entries256),
            512 => Some(TableSize::Large),
            1024 => Some(TableSize::Entries1024),
            2048 => Some(TableSize::Entries2048),
            4096 => Some(TableSize::Entries4096),
            8192 => Some(TableSize::Entries8192),
            16384 => Some(TableSize::Entries16384),
            32768 => Some(TableSize::Entries32768),
            65535 => Some(TableSize::Entries65535),
            _ => None,
        }
    }

    /// Its word, as it is chosen.
    pub fn word(self) -> &'static str
        ensures { result.now ≡ table_word self }
    {
        match self {
            TableSize::Small => "small",
            TableSize::Entries8 => "8",
            TableSize::Entries16 => "16",
            TableSize::Entries32 => "32",
            TableSize::Entries64 => "64",
            TableSize::Entries128 => "128",
            TableSize::Entries256 => "256",
            TableSize::Large => "large",
            TableSize::Entries1024 => "1024",
            TableSize::Entries2048 => "2048",
            TableSize::Entries4096 => "4096",
            TableSize::Entries8192 => "8192",
            TableSize::Entries16384 => "16384",
            TableSize::Entries32768 => "32768",
            TableSize::Entries65535 => "65535",
        }
    }

    /// All words that choose a size.
    pub fn words() -> [&'static str; 17]
        ensures { map (λ s. s.now) result ≡ table_words }
    {
        table_words!()
    }

    /// The size that a word chooses: `small`, `large`, or how many entries a table holds.
    #[tactic(auto, using(crate::proofs::Sizes::table_again))]
    pub fn from_word(word: &[u8]) -> Option<TableSize>
        ensures value { result ≡ table_of word.now }
        ensures again { (table : TableSize) → table_of (table_word table) ≡ Some table }
    {
        // Both sides of `==` have one type, so an octet literal is compared as a slice.
        if word == b"small".as_slice() {
            Some(TableSize::Small)
        } else if word == b"large".as_slice() {
            Some(TableSize::Large)
        } else {
            TableSize::from_capacity(decimal(word)?)
        }
    }
}
