//! Pairs: the keys of two levels that sign.

ghost use Rattle.std.specs.Prelude.{◌≡◌, ◌≢◌, ◌+◌, ◌<◌, ◌≤◌, ◌↔◌, true, None, Some, IfOk, IfNone, IfSome, IsNone, IsOk, IsTrue, OnErr, OnOk, OnSome, length};
ghost use Rattle.lms_tree.specs.Kinds.{height};
ghost use Rattle.hss.specs.Keys.{is_in_profile};
ghost use Rattle.hss.specs.Hss.{HssVerifies};
ghost use Rattle.hss.specs.Pairs.{TopSigns, index_count, prepared, public_of, signature_length, signature_of, tree_of};

use crate::bottom::{Bottom, take_leaf};
use crate::key::HssKey;
use crate::leaf::PairLeaf;
use crate::secret::PairSecret;
use fields::NoMemory;
use lms_ots::OtsKind;
use lms_tree::{Leaves, SecretKey, Tree, TreeKind};
use std::alloc::Global;
use std::marker::Model;

/// The secret half of a two-level key, and its indexes that were not handed out, in order. Where one was skipped or handed
/// out, it does not come again. Contracts see which bottom tree was made last.
#[derive(Drop)]
pub struct Pair {
    secret: PairSecret,
    top: Tree,
    top_leaves: Leaves,
    next: u32,
    hand: Option<Bottom>,
}

impl Model for Pair {
    ghost use Rattle.std.specs.Prelude.{◌≡◌, ◌≤◌, ◌+◌, true, option_map};
    ghost use Rattle.lms_tree.specs.Kinds.{height};
    ghost use Rattle.hss.specs.Keys.{is_in_profile};
    ghost use Rattle.hss.specs.Pairs.{PairState, index_count, top_secret};
    ghost use Rattle.hss.specs.Trees.{IsHeld};

    ghost Value = { PairState };

    ghost view = { λ p. record {
      key = p.secret;
      next = p.next;
      made = option_map (λ b. b.number) p.hand;
    } };

    ghost invariant = { λ p. (height p.secret.top + height p.secret.bottom ≤ 15)
        × (is_in_profile p.secret.ots ≡ true)
        × (p.top ≡ top_secret p.secret)
        × (p.top_leaves.key ≡ top_secret p.secret)
        × (p.next ≤ index_count p.secret)
        × IsHeld p.secret p.next p.top_leaves.next p.hand };
}

impl Pair {
    /// The pair of these kinds that the identifier and the seed determine, with no bottom tree made yet. Who makes a pair
    /// again, of the same kinds, must skip past each index that was spent before it signs. No other pair may have its seed,
    /// whatever its identifier and its kinds: bottom trees are made from the seed alone.
    pub fn make(
        alloc: Global,
        top: TreeKind,
        bottom: TreeKind,
        ots: OtsKind,
        id: [u8; 16],
        seed: [u8; 32],
    ) -> Result<Pair, NoMemory>
        requires fits { height top + height bottom ≤ 15 }
        requires profile { is_in_profile ots ≡ true }
        ensures { IfOk result (λ pair. pair ≡ record {
          key = record { top = top; bottom = bottom; ots = ots; id = id; seed = seed };
          next = 0;
          made = None;
        }) }
    {
        let secret = PairSecret {
            top,
            bottom,
            ots,
            id,
            seed,
        };
        let (top, top_leaves) = SecretKey::make(alloc, top, ots, id, seed)?.split();
        Ok(Pair {
            secret,
            top,
            top_leaves,
            next: 0,
            hand: None,
        })
    }

    /// The public half.
    pub fn public(&self) -> HssKey
        ensures value { result ≡ public_of self.now.key }
        ensures profile { is_in_profile self.now.key.ots ≡ true }
    {
        HssKey {
            top: self.top.public(),
        }
    }

    /// How many indexes the pair has: one for each leaf of each bottom tree.
    pub fn index_count(&self) -> u32
        ensures value { result ≡ index_count self.now.key }
        ensures small { result ≤ 32768 }
    {
        self.secret.index_count()
    }

    /// How many bytes a signature of the pair has.
    pub fn signature_length(&self) -> usize
        ensures { result ≡ signature_length self.now.key }
    {
        let PairSecret {
            top,
            bottom,
            ots,
            ..
        } = self.secret;
        76 + 2 * ots.signature_length() + 32 * (top.height() + bottom.height())
    }

    /// The height of the bottom trees, which the public half doesn't show.
    pub fn bottom_height(&self) -> u8
        ensures { result ≡ height self.now.key.bottom }
    {
        self.secret.bottom.height() as u8
    }

    /// The next index, or the number of all where none is left.
    pub fn next(&self) -> u32
        ensures value { result ≡ self.now.next }
        ensures bound { result ≤ index_count self.now.key }
    {
        self.next
    }

    /// Goes on to index `n`, and gives up those before it.
    pub fn skip_to(&mut self, n: u32)
        requires forward { self.old.next ≤ n }
        requires within { n ≤ index_count self.old.key }
        ensures { self.new ≡ record self.old { next = n } }
    {
        self.next = n;
    }

    /// Makes the bottom tree of the next index, if there is one; a tree that was made last is kept, and takes no memory.
    /// Where memory is refused, nothing has changed.
    pub fn prepare(&mut self, alloc: Global) -> Result<(), NoMemory>
        ensures made { OnOk result (self.new ≡ prepared self.old) }
        ensures held { self.old.made ≡ Some (tree_of self.old.key self.old.next) → IsOk result }
        ensures ends { self.old.next ≡ index_count self.old.key → IsOk result }
        ensures same { OnErr result (self.new ≡ self.old) }
    {
        if self.next == self.secret.index_count() {
            return Ok(());
        }
        let number = self.next / self.secret.bottom.leaf_count();
        if self.has_made(number) {
            return Ok(());
        }
        let made = Bottom::make(alloc, &self.secret, &self.top, &mut self.top_leaves, number)?;
        self.hand = Some(made);
        Ok(())
    }

    /// Whether this bottom tree was made last.
    fn has_made(&self, number: u32) -> bool
        ensures { IsTrue result ↔ (self.now.made ≡ Some number) }
    {
        match &self.hand {
            Some(hand) => hand.number == number,
            None => false,
        }
    }

    /// The next index, or none where all are gone.
    pub fn take(&mut self) -> Option<PairLeaf>
        requires made { self.old.next ≢ index_count self.old.key
            → self.old.made ≡ Some (tree_of self.old.key self.old.next) }
        ensures none { IsNone result ↔ (self.old.next ≡ index_count self.old.key) }
        ensures leaf { IfSome result
            (λ leaf. leaf ≡ record { key = self.old.key; index = self.old.next }) }
        ensures risen { OnSome result (self.new ≡ record self.old { next = self.old.next + 1 }) }
        ensures same { IfNone result (self.new ≡ self.old) }
    {
        if self.next == self.secret.index_count() {
            return None;
        }
        let index = self.next;
        let q = index % self.secret.bottom.leaf_count();
        let leaf = match &mut self.hand {
            Some(hand) => take_leaf(&mut hand.leaves, q),
            None => unreachable!(),
        };
        self.next += 1;
        Some(PairLeaf::new(self.secret, index, leaf))
    }

    /// Writes the signature of `message` with an index of the bottom tree that was made last into `out`.
    pub fn sign(&self, leaf: PairLeaf, message: &[u8], out: &mut [u8])
        requires key { leaf.key ≡ self.now.key }
        requires made { self.now.made ≡ Some (tree_of leaf.key leaf.index) }
        requires long { length out.old ≡ signature_length self.now.key }
        ensures signed { out.new ≡ signature_of self.now.key leaf.index message.now }
        ensures verifies { HssVerifies (public_of self.now.key) message.now out.new }
        ensures top { TopSigns self.now.key (tree_of self.now.key leaf.index) out.new }
    {
        match &self.hand {
            Some(hand) => hand.sign(leaf.spend(), message, out),
            None => unreachable!(),
        }
    }
}
