//! Which keys a table may have.
ghost use Rattle.std.specs.Prelude.{◌≡◌};
ghost use Rattle.toml.specs.View.{table_view};
ghost use Rattle.hsr_scenario.specs.Fallible.{Gives};
ghost use Rattle.hsr_scenario.specs.Tables.{only};

use crate::fault::{Key, What};
use hsr_toml::other_key;
use toml::Table;

/// Refuses a table that has other keys.
pub(crate) fn only(table: &Table, keys: &[Key]) -> Result<(), What>
    ensures { Gives (λ u. u) result (only keys.now (table_view table.now)) }
{
    match other_key(table, keys) {
        None => Ok(()),
        // Which key it is isn't told here: who writes the fault's line looks for it again in the text.
        Some(_) => Err(What::Unknown),
    }
}
