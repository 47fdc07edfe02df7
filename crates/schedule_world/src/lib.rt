//! Floor: texts. The lines of a schedule of a world (`fireflies 1 world`): what each may be, where it may stand, and
//! how it is read. Only raw bytes and names take memory. The crates of worlds and of their workload call it.
#![tactic(auto)]

mod line;
mod named;
mod read;
mod roster;
mod signing;
mod take;
mod text;

pub use line::WorldLine;
pub use named::Named;
pub use text::WorldText;
