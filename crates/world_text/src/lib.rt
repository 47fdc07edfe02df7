//! Floor: world. The texts of a world's trace: its lines as they are written back, the verdicts on them, and the events
//! of its nodes. Each call adds one text to the end of a list of bytes; where memory is refused, that list is as it
//! was. `world` and `world_replay` call it.
#![tactic(auto)]

ghost use Rattle.world_text.specs.Lines.{LinesAreSpelled};

mod line;
mod told;
mod verdict;

pub use line::write_line;
pub use told::write_told;
pub use verdict::write_verdict;

/// Each line is written as its grammar spells it.
pub fn lines_are_spelled()
    ensures { LinesAreSpelled }
{}
