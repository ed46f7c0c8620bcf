//! Texts that are read and written: lines and the words of a line, numbers, octets in digits, addresses, the unit of moments, and
//! the arguments of a program.
//!
//! Its modules, in the order in which to read them:
//! - `lines`: lines of a reader, with a bound on their length and on the number of reads
//! - `whole`: a text that is read whole, up to a length
//! - `words`: the words of a line, numbers, octets in digits, and addresses
//! - `short_words`: words of a few octets
//! - `putting`: texts that grow by words, octets and numbers
//! - `time_unit`: the unit in which a text tells its moments
//! - `command_line`: the arguments of a program, and a line that tells of them
#![tactic(auto)]

mod command_line;
mod lines;
mod putting;
mod short_words;
mod time_unit;
mod whole;
mod words;

pub use command_line::{arguments, write_line};
pub use lines::{Front, READ_LIMIT, ReaderFault, line_there, next_line};
pub use putting::{put, put_number, put_octets};
pub use short_words::short_word;
pub use time_unit::TimeUnit;
pub use whole::{BUFFER_SIZE, InputFault, granted_reads, read_text};
pub use words::{
    WordFault, decimal, decode_hex, hex_octets, hex_octets_in, hex_pair, put_count, put_decimal,
    put_hex, put_mac, split_at, word,
};
