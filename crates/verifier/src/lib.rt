//! Floor: program. Reads a text that asks whether a signature is good, and answers it. The text is read whole before
//! its answer, one line, is written. `command_line` calls it, for the command `verify`.
#![tactic(auto)]

mod input;
mod verifier;

pub use input::verify_input;
