//! Floor: texts. The lines of all texts as one type, for a caller that reads any of them: both forms of schedules, and the
//! texts of `verify`, of a secret, of a store that moves, of a roster and of a member, and the head of an audit. The
//! commands call the forms, so nothing here stands on this crate.
#![tactic(auto)]

mod lines;
mod text;

pub use lines::Lines;
pub use text::{Command, Line, Text};
