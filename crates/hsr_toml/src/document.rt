//! The document that a text is.
ghost use Rattle.std.specs.Prelude.{◌≡◌, ok_or};
ghost use Rattle.toml.specs.View.{table_view};
ghost use Rattle.hsr_toml.specs.Fallible.{Gives};
ghost use Rattle.hsr_toml.specs.Documents.{document_of, is_memory};
ghost use Rattle.hsr_toml.specs.declared.document.NoDocument.TheVariants.{NoToml};

use std::alloc::Global;
use toml::Table;

/// The most octets of a text: 16 MiB.
pub const TEXT_LIMIT: usize = 1 << 24;

/// Why a text is no document.
#[derive(Clone, Copy, PartialEq, Eq)]
pub enum NoDocument {
    /// The text has over 16 MiB, or is no TOML.
    NoToml,
    /// A growth was refused.
    NoMemory,
}

/// The document of TOML that a text of at most 16 MiB is. `NoMemory` comes where a growth was refused, in place of any other answer.
pub fn document_of(alloc: Global, text: &str) -> Result<Table, NoDocument>
    ensures { Gives is_memory table_view result (ok_or (document_of text.now) NoToml) }
{
    // The length comes first, so that a text that is too long costs no parse.
    if text.len() > TEXT_LIMIT {
        return Err(NoDocument::NoToml);
    }
    match toml::table_from_str(alloc, text) {
        Ok(table) => Ok(table),
        Err(error) => {
            // A failed allocation is told from bad TOML, as everywhere.
            if error.is_memory() {
                Err(NoDocument::NoMemory)
            } else {
                Err(NoDocument::NoToml)
            }
        }
    }
}
