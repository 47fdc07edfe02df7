//! Floor: keys. HSS signatures of RFC 8554 (section 6) of two levels, over `lms_tree`: a top key signs the public keys of
//! bottom trees, and these sign messages, with one-time signatures of W4 or W8. A bottom tree is made when its first index
//! is due, so a key of 2^15 indexes begins as fast as one of 2^5 or 2^10. An index of a pair signs at most once, since
//! it is a value that can be neither copied nor let go. `records` verifies under its public halves, `sign_keys` signs with pairs.
#![tactic(auto)]

pub use key::{HssKey, HssKeyFault, is_in_profile};
pub use leaf::PairLeaf;
pub use pair::Pair;
pub use verifying::{HssFault, verify};

mod bottom;
mod key;
pub mod laws;
mod leaf;
mod pair;
mod secret;
mod verifying;
