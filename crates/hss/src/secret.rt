//! The secret half of a pair.

ghost use Rattle.std.specs.Prelude.{◌≡◌, ◌+◌, ◌≤◌};
ghost use Rattle.lms_tree.specs.Kinds.{height};
ghost use Rattle.hss.specs.Pairs.{bottom_id, bottom_seed, index_count};

use lms_ots::OtsKind;
use lms_tree::TreeKind;
use sha2::{Digest, Sha256};

/// All that determines a pair: the kinds of its trees, the kind of its one-time signatures, and the identifier and seed of
/// its top tree.
#[derive(Clone, Copy)]
pub struct PairSecret {
    pub top: TreeKind,
    pub bottom: TreeKind,
    pub ots: OtsKind,
    pub id: [u8; 16],
    pub seed: [u8; 32],
}

/// The identifier of bottom tree `q`.
#[tactic(auto, unfolding(crate::specs::Pairs::bottom_id))]
pub fn bottom_id(seed: &[u8; 32], q: u32) -> [u8; 16]
    ensures { result ≡ bottom_id seed.now q }
{
    let mut hasher = Sha256::new();
    hasher.update(b"FFHSSI");
    hasher.update(seed);
    hasher.update(&q.to_be_bytes());
    let hash = hasher.finalize();
    let mut id = [0; 16];
    id.copy_from_slice(&hash[..16]);
    id
}

/// The seed of bottom tree `q`.
#[tactic(auto, unfolding(crate::specs::Pairs::bottom_seed))]
pub fn bottom_seed(seed: &[u8; 32], q: u32) -> [u8; 32]
    ensures { result ≡ bottom_seed seed.now q }
{
    let mut hasher = Sha256::new();
    hasher.update(b"FFHSSS");
    hasher.update(seed);
    hasher.update(&q.to_be_bytes());
    hasher.finalize()
}

impl PairSecret {
    /// How many indexes the pair has.
    pub fn index_count(&self) -> u32
        requires { height self.now.top + height self.now.bottom ≤ 15 }
        ensures value { result ≡ index_count self.now }
        ensures small { result ≤ 32768 }
    {
        self.top.leaf_count() * self.bottom.leaf_count()
    }
}
