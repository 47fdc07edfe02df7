//! Floor: texts. The soak workload: a schedule of a world, made line by line from a seed, a number of members and a
//! number of rounds. One member in ten is a liar, which accuses a victim in each round. Contracts say which lines they
//! are: each call gives the first of those that are left. `world_replay` calls it.
#![tactic(auto)]

mod draw;
mod name;
mod place;
mod plan;
mod soak;
mod turn;

pub use soak::Soak;
