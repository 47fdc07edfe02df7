//! Floor: keys. LMS signatures of RFC 8554 (section 5) over SHA-256 with m = 32: Merkle trees of one-time keys. A leaf
//! of a made key signs at most once, since it is a value that can be neither copied nor let go; who makes the key
//! again, as after a restart, must skip past what was spent. Any crate may verify; `signer` signs, and `world_host`
//! in worlds.
#![tactic(auto)]

pub use key::PublicKey;
pub use kind::{KeyFault, SigFault, TreeKind};
pub use signing::{SecretKey, Tree};
pub use spending::{Leaf, Leaves};
pub use verifying::verify;

mod hashes;
mod key;
mod kind;
mod nodes;
mod secret;
mod signing;
mod spending;
mod verifying;
