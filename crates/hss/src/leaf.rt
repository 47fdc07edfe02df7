//! Indexes that sign once.

ghost use Rattle.std.specs.Prelude.{◌≡◌, ◌<◌};
ghost use Rattle.hss.specs.Pairs.{bottom_secret, index_count, leaf_of, tree_of};

use crate::secret::PairSecret;
use lms_tree::Leaf;
use std::marker::Model;

/// An index of a pair, which signs one message. It can be neither copied nor let go: it is spent by `Pair::sign` or by
/// `retire`.
pub struct PairLeaf {
    secret: PairSecret,
    index: u32,
    leaf: Leaf,
}

impl Model for PairLeaf {
    ghost use Rattle.std.specs.Prelude.{◌≡◌, ◌<◌};
    ghost use Rattle.hss.specs.Pairs.{PairIndex, bottom_secret, index_count, leaf_of, tree_of};

    ghost Value = { PairIndex };

    ghost view = { λ l. record { key = l.secret; index = l.index } };

    ghost invariant = { λ l. (l.index < index_count l.secret)
        × (l.leaf ≡ record {
          key = bottom_secret l.secret (tree_of l.secret l.index);
          index = leaf_of l.secret l.index;
        }) };
}

impl PairLeaf {
    /// The index of this number, whose leaf of its bottom tree this is.
    pub(crate) fn new(secret: PairSecret, index: u32, leaf: Leaf) -> PairLeaf
        requires within { index < index_count secret }
        requires leaf { leaf ≡ record {
          key = bottom_secret secret (tree_of secret index);
          index = leaf_of secret index;
        } }
        ensures { result ≡ record { key = secret; index = index } }
    {
        PairLeaf {
            secret,
            index,
            leaf,
        }
    }

    /// The index's number.
    pub fn index(&self) -> u32
        ensures value { result ≡ self.now.index }
        ensures bound { result < index_count self.now.key }
    {
        self.index
    }

    /// Gives the index up without a signature.
    pub fn retire(self) {
        let PairLeaf {
            secret: _,
            index: _,
            leaf,
        } = self;
        leaf.retire();
    }

    /// The leaf of the bottom tree, to be spent on a signature.
    pub(crate) fn spend(self) -> Leaf
        ensures leaf { result ≡ record {
          key = bottom_secret self.key (tree_of self.key self.index);
          index = leaf_of self.key self.index;
        } }
        ensures bound { self.index < index_count self.key }
    {
        let PairLeaf {
            secret: _,
            index: _,
            leaf,
        } = self;
        leaf
    }
}
