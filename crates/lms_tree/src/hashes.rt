//! The hashes of a tree's nodes, and the randomizer of a signature.

ghost use Rattle.std.specs.Prelude.{◌≡◌};
ghost use Rattle.lms_tree.specs.Lms.{leaf_hash, inner_hash, randomizer};

use crate::secret::Secret;
use sha2::{Digest, Sha256};

/// What a leaf's hash has after the identifier and the node's number.
const D_LEAF: u16 = 0x8282;

/// What an inner node's hash has after the identifier and the node's number.
const D_INTR: u16 = 0x8383;

/// The hash of the leaf at node `r`, whose one-time key is `one_time`.
#[tactic(auto, unfolding(crate::specs::Lms::leaf_hash))]
pub fn leaf_hash(id: &[u8; 16], r: u32, one_time: &[u8; 32]) -> [u8; 32]
    ensures { result ≡ leaf_hash id.now r one_time.now }
{
    let mut hasher = Sha256::new();
    hasher.update(id);
    hasher.update(&r.to_be_bytes());
    hasher.update(&D_LEAF.to_be_bytes());
    hasher.update(one_time);
    hasher.finalize()
}

/// The hash of the inner node `r`.
#[tactic(auto, unfolding(crate::specs::Lms::inner_hash))]
pub fn inner_hash(id: &[u8; 16], r: u32, left: &[u8], right: &[u8]) -> [u8; 32]
    ensures { result ≡ inner_hash id.now r left.now right.now }
{
    let mut hasher = Sha256::new();
    hasher.update(id);
    hasher.update(&r.to_be_bytes());
    hasher.update(&D_INTR.to_be_bytes());
    hasher.update(left);
    hasher.update(right);
    hasher.finalize()
}

/// The randomizer C of the signature of `message` by leaf `q`.
#[tactic(auto, unfolding(crate::specs::Lms::randomizer))]
pub fn randomizer(secret: &Secret, q: u32, message: &[u8]) -> [u8; 32]
    ensures { result ≡ randomizer secret.now q message.now }
{
    let mut hasher = Sha256::new();
    hasher.update(b"FFRAND");
    hasher.update(&secret.seed);
    hasher.update(&q.to_be_bytes());
    hasher.update(message);
    hasher.finalize()
}
