//! Floor: texts. The lines of a schedule of plain records (`fireflies 1 direct`): what each may be, where it may stand,
//! and how it is read. Only the places of a `member` line take memory. `replay` calls it.
#![tactic(auto)]

mod direct;
mod glance;
mod line;
mod member;
mod read;

pub use direct::Direct;
pub use line::{DirectLine, PlaceList};
