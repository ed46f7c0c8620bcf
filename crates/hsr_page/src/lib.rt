//! Texts in a page of HTML, and the frame of a page.
//!
//! Its modules, in the order in which to read them:
//! - `hidden`: characters that turn the order of letters or can't be seen
//! - `spelling`: texts as the syntaxes of a page spell them
//! - `numbers`: numbers and moments as they are read best
//! - `lists`: numbers in the data of a page, as JSON
//! - `script`, `plan_script`, `style`: the scripts and the style of pages
//! - `frame`: the whole of a page
//! - `law`: what is read of texts that were spelled
#![tactic(auto)]

mod frame;
mod hidden;
mod law;
mod lists;
mod numbers;
mod plan_script;
mod script;
mod spelling;
mod style;

pub use frame::{Kind, Page, put_page};
pub use law::{escaped_is_read, json_is_read};
pub use lists::{put_json_numbers, put_json_place};
pub use numbers::{put_grouped, put_moment};
pub use spelling::{
    put_escaped, put_escaped_octets, put_json_octets, put_json_text, put_style_text,
};
