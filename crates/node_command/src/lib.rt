//! Floor: program. Runs one member: reads its text whole, binds its port, opens its store, begins a life, and serves it
//! for some turns, behind which it may leave. What is written is the journal of that life. `command_line` calls it, for the
//! command `node`.
#![tactic(auto)]

mod halt;
mod kit;
mod living;
mod opening;
mod running;
mod stay;

pub use halt::NodeHalt;
pub use running::run_node;
pub use stay::Stay;
