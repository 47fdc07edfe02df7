//! Floor: node. Whom a member has to do with, by its view and by what is certified: whether it has accused another, the ring
//! on which it may, its successors on the rings, and the certified members among whom it finds its partners. `node_core` calls
//! it.
#![tactic(auto)]

mod accusing;
mod neighbours;
mod partners;

pub use accusing::{has_accused, ring_for};
pub use neighbours::{RECIPIENTS, is_listed, list_successors};
pub use partners::{certified, highest};
