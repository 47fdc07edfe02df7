//! Floor: world. Plays the schedule of a world: a recorded one as a script of the loop, where a line is taken, judged
//! and played, and its trace is written before the next is taken; and that of a seeded attack, of which it counts what
//! comes. `command_line` calls it, for the commands `replay` and `soak`.
#![tactic(auto)]

mod attack;
mod fault;
mod player;
mod roster;
mod stage;
mod summary;

pub use attack::soak;
pub use fault::SoakFault;
pub use player::Player;
pub use roster::Roster;
pub use stage::Stage;
pub use summary::{Summary, write_summary};
