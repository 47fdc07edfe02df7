//! Floor: program. The commands of the program, from the words of its command line to its status, over any objects of
//! the outside; and the replay of a text of either form, of which its first line decides. `fireflies` gives it the real
//! ones; `program_tests` gives it objects in memory.
#![tactic(auto)]

mod command;
mod ending;
mod forged;
mod replay_form;
mod replay_player;
mod running;
mod soak;
mod starting;
mod status;
mod words;
pub mod world_lines;

pub use command::Command;
pub use replay_player::replay;
pub use running::run;
pub use starting::start;
pub use status::Status;
pub use words::words_of;
