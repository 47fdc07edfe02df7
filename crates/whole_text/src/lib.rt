//! Floor: base. A script of the loop that reads a text to its end and only then gives its lines, so that nothing is
//! done for a text that is not good as a whole. `authority` and `node_command` call it.
#![tactic(auto)]

mod gatherer;
mod reading;

pub use reading::read_whole;
