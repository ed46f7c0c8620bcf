//! What texts of TOML say: the document that a text is, the values at a table's keys with the fault of each that isn't as it has to
//! be, and the names that they spell; and where in the text, by line and column, a key, a table or a name stands.
//!
//! Its modules, in the order in which to read them:
//! - `document`: the document that a text is
//! - `key`: the keys of tables
//! - `table`: what stands in a table
//! - `names`: the names and addresses that texts spell
//! - `lexing`: a text of TOML without what its comments and strings say
//! - `position`: where a word stands in a text
//! - `header`: where words and the headers of tables stand in a text
//! - `walk`: how deep in brackets the octets of a bare text are
//! - `source`: where keys, tables and names stand in a text
//! - `line`: a fault's one line
//! - `words`: the words of a fault that name its position, and of a text that isn't TOML
#![tactic(auto)]

mod document;
mod header;
mod key;
mod lexing;
mod line;
mod names;
mod position;
mod source;
mod table;
mod walk;
mod words;

pub use document::{NoDocument, TEXT_LIMIT, document_of};
pub use header::{table_header, whole_word};
pub use hsr_text::put;
pub use key::TableKey;
pub use lexing::{Lexing, bare};
pub use line::{fault_line, put_shown};
pub use names::{is_name, is_port_letter, mac};
pub use position::{Position, position_of};
pub use source::{
    Source, is_list, key_at, key_in, member_at, name_again, name_in, name_under, table_at, top_key,
};
pub use table::{
    between, integer, items, members, needed, number_or, other_key, tables, tables_at, text, texts,
    value,
};
pub use words::{put_no_toml, put_place};
