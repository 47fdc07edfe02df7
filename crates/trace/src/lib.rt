//! Floor: program. What a recorded schedule of plain records plays, as definitions and theorems alone: the answer to
//! each line, the one walk over a text, and what each removal that is written has for its cause. `replay` cites it, and
//! the headline in `command_line`.
#![tactic(auto)]
