//! Floor: base. What all texts share: words with one space between two, numbers, hexadecimal digits and names, and the
//! table of bad words, of which the first that holds refuses a line. The forms of the floor `texts` are built on it,
//! and the scripts that read them call it.
#![tactic(auto)]

mod bad_word;
mod digits;
mod form;
mod frame;
mod glance;
mod names;
mod numbers;
mod reader;
mod table_form;
mod words;

pub use bad_word::{BadWord, LineFault};
pub use form::Form;
pub use glance::Glance;
pub use reader::Reader;
pub use table_form::{TableForm, judge_by_table};
pub use words::Words;
