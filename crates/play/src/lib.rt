//! Floor: base. The one loop over a text: takes a line from the source, hands it to a script, writes what the script
//! makes of it, and then takes the next. Each command that reads a text runs it, with a script of its own.
#![tactic(auto)]

mod buffers;
mod long_lines;
mod player;
mod script;
mod stop;

pub use buffers::Buffers;
pub use long_lines::LongLines;
pub use player::{play, play_line, play_on, play_past};
pub use script::{Refusal, Script};
pub use stop::Stop;
