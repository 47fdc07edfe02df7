//! A bottom tree, with what stands in front of each of its signatures.

ghost use Rattle.std.specs.Prelude.{◌≡◌, ◌<◌, ◌≤◌, ◌+◌, ◌++◌, IfOk, OnOk, OnErr, length};
ghost use Rattle.std.specs.Int.{w32, to_be_bytes};
ghost use Rattle.lms_tree.specs.Kinds.{leaf_count, signature_length};
ghost use Rattle.lms_tree.specs.Lms.{key_bytes, signature_of};
ghost use Rattle.hss.specs.Pairs.{top_secret};
ghost use Rattle.hss.specs.Trees.{IsMade};

use crate::secret::{PairSecret, bottom_id, bottom_seed};
use fields::NoMemory;
use lms_ots::places::put;
use lms_tree::{Leaf, Leaves, PublicKey, SecretKey, Tree};
use std::alloc::Global;

/// A bottom tree of a pair.
#[derive(Drop)]
pub struct Bottom {
    pub number: u32,
    pub tree: Tree,
    pub leaves: Leaves,
    /// The number 1, the top key's signature of the tree's key, and this key.
    pub front: Vec<u8>,
}

/// The leaf of this number, which is left.
pub fn take_leaf(leaves: &mut Leaves, q: u32) -> Leaf
    requires forward { leaves.old.next ≤ q }
    requires within { q < leaf_count leaves.old.key.tree }
    ensures leaf { result ≡ record { key = leaves.old.key; index = q } }
    ensures risen { leaves.new ≡ record leaves.old { next = q + 1 } }
{
    leaves.skip_to(q);
    match leaves.take() {
        Some(leaf) => leaf,
        None => unreachable!(),
    }
}

/// Writes what stands in front of the signatures of the tree with this key, which the leaf signs.
fn put_front(top: &Tree, leaf: Leaf, key: &PublicKey, front: &mut [u8])
    requires key { leaf.key ≡ top.now }
    requires long { length front.old ≡ 60 + signature_length top.now.tree top.now.ots }
    ensures { front.new ≡ to_be_bytes w32 1 ++ signature_of top.now leaf.index (key_bytes key.now)
        ++ key_bytes key.now }
{
    let bytes = key.write();
    let end = front.len() - 56;
    put(front, 0, &1u32.to_be_bytes());
    top.sign(leaf, &bytes, &mut front[4..end]);
    put(front, end, &bytes);
}

impl Bottom {
    /// Makes the pair's bottom tree of this number, whose key the top leaf of this number signs.
    pub fn make(
        alloc: Global,
        secret: &PairSecret,
        top: &Tree,
        top_leaves: &mut Leaves,
        number: u32,
    ) -> Result<Bottom, NoMemory>
        requires top { top.now ≡ top_secret secret.now }
        requires leaves { top_leaves.old.key ≡ top_secret secret.now }
        requires forward { top_leaves.old.next ≤ number }
        requires within { number < leaf_count secret.now.top }
        ensures made { IfOk result (λ b. IsMade secret.now number b) }
        ensures risen { OnOk result (top_leaves.new ≡ record top_leaves.old { next = number + 1 }) }
        ensures same { OnErr result (top_leaves.new ≡ top_leaves.old) }
    {
        let id = bottom_id(&secret.seed, number);
        let seed = bottom_seed(&secret.seed, number);
        let key = SecretKey::make(alloc, secret.bottom, secret.ots, id, seed)?;
        let mut front = vec![in alloc; 0u8; 60 + top.public().signature_length()]?;
        let (tree, leaves) = key.split();
        let leaf = take_leaf(top_leaves, number);
        put_front(top, leaf, &tree.public(), &mut front);
        Ok(Bottom {
            number,
            tree,
            leaves,
            front,
        })
    }
    /// Writes the signature of `message` by a leaf of the tree, with what stands in front of it.
    pub fn sign(&self, leaf: Leaf, message: &[u8], out: &mut [u8])
        requires key { leaf.key ≡ self.now.tree }
        requires long { length out.old
            ≡ length self.now.front.items + signature_length self.now.tree.tree self.now.tree.ots }
        ensures { out.new ≡ self.now.front.items
            ++ signature_of self.now.tree leaf.index message.now }
    {
        let place = self.front.len();
        put(out, 0, self.front.as_slice());
        self.tree.sign(leaf, message, &mut out[place..]);
    }
}
