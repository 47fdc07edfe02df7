//! Floor: node. The journal of a node: what happens to it, as values and as lines of text, both ways. `node_core` makes
//! the events; `node_loop` and the crates of worlds write them.
#![tactic(auto)]

mod event;
mod fault;
mod hex_word;
mod kinds;
mod reading;
mod turn;
mod words;
mod writing;

pub use event::{Event, What};
pub use fault::EventFault;
pub use reading::read_event;
pub use turn::{Heard, Turn, read_turn, write_turn};
pub use writing::{write_event, write_sent};
