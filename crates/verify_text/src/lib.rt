//! Floor: texts. The text that asks whether a signature is good under a public key: its lines, the question that they
//! ask, and the line that answers it. Only a message and a signature take memory. `verifier` calls it.
#![tactic(auto)]

mod line;
mod question;
mod read;
mod verify;

pub use line::VerifyLine;
pub use question::{Asked, Question, answer_line};
pub use verify::Verify;
