//! Floor: node. With whom a node exchanges summaries in a round, of which page, and what the other side lacks by the
//! summaries of both. `node_core` calls it.
#![tactic(auto)]

pub use lacking::lacks;
pub use partners::{Exchange, exchange_of, page_of};

mod lacking;
mod partners;
