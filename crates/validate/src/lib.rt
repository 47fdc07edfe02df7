//! Floor: membership. Checks of signed records: the first fault of an ordered table, the signature last, or the record
//! as checked. The one function that verifies signatures is given a record only where no fault stands before it. No
//! check takes memory. `node_core` calls it.
#![tactic(auto)]

pub mod laws;
mod roster;
mod table;

pub use roster::Roster;
pub use table::check;
