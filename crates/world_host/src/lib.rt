//! Floor: world. The keys of a world, with the authority that certifies its members; and one node's place there: its
//! key and its disk, which last, and the lives that begin and end there; and when a disk in memory matches a disk of
//! the rules of worlds. `world` calls it.
#![tactic(auto)]

mod authority;
mod bodies;
mod calling;
pub mod disks;
mod host;
mod keys;
mod starting;

pub use authority::Authority;
pub use bodies::{is_among, is_same, newest_of};
pub use host::Host;
pub use keys::{AUTHORITY, SigningKey, index_count_of, key_of};
pub use starting::Started;
