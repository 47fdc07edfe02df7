//! Floor: program. Plays a recorded schedule of plain records, as a script of the loop: takes a line, judges it, runs
//! it, writes its trace, and then takes the next. `command_line` calls it, for the command `replay`.
#![tactic(auto)]

mod life;
mod player;
mod report;

pub use player::Player;
