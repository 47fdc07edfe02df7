//! A key at hand.

ghost use Rattle.std.specs.Prelude.{◌≡◌, ◌+◌, ◌<◌, ◌≤◌, true, Some, IfOk, IsOk, OnErr, OnOk, length};
ghost use Rattle.lms_tree.specs.Kinds.{leaf_count, signature_length as lms_length};
ghost use Rattle.lms_tree.specs.Lms as lms;
ghost use Rattle.hss.specs.Hss.{HssVerifies};
ghost use Rattle.hss.specs.Pairs as pairs;
ghost use Rattle.records.specs.Keys.{Verifies};
ghost use Rattle.sign_keys.specs.Keys.{IsNew, IsOfOneKey, IsPrepared, TopSignsTree, height_below, index_count, key_of_kinds, next_of, public_key, secret_of, signature_length, signature_of};
ghost use Rattle.sign_keys.specs.Kinds.{is_in_profile};

use crate::kinds::Kinds;
use fields::NoMemory;
use hss::Pair;
use lms_tree::{Leaves, SecretKey, Tree};
use records::Key;
use std::alloc::Global;

/// A key that signs, of one level or of two, and its indexes that are left. Leaves are those of the tree beside them.
#[derive(Drop)]
pub enum SignKey {
    Lms(Tree, Leaves),
    Hss(Pair),
}

/// Takes the next leaf, which there is, and writes the tree's signature of `message` with it into `out`.
fn sign_leaf(tree: &Tree, leaves: &mut Leaves, message: &[u8], out: &mut [u8])
    requires one { leaves.old.key ≡ tree.now }
    requires left { leaves.old.next < leaf_count tree.now.tree }
    requires long { length out.old ≡ lms_length tree.now.tree tree.now.ots }
    ensures signed { out.new ≡ lms.signature_of tree.now leaves.old.next message.now }
    ensures verifies { lms.Verifies (lms.public_of tree.now) message.now out.new }
    ensures taken { leaves.new ≡ record leaves.old { next = leaves.old.next + 1 } }
{
    let leaf = leaves.take().unwrap();
    tree.sign(leaf, message, out);
}

/// Takes the next index, whose bottom tree is made, and writes the pair's signature of `message` with it into `out`.
fn sign_pair(pair: &mut Pair, message: &[u8], out: &mut [u8])
    requires left { pair.old.next < pairs.index_count pair.old.key }
    requires made { pair.old.made ≡ Some (pairs.tree_of pair.old.key pair.old.next) }
    requires long { length out.old ≡ pairs.signature_length pair.old.key }
    ensures signed { out.new ≡ pairs.signature_of pair.old.key pair.old.next message.now }
    ensures verifies { HssVerifies (pairs.public_of pair.old.key) message.now out.new }
    ensures top { pairs.TopSigns pair.old.key (pairs.tree_of pair.old.key pair.old.next) out.new }
    ensures taken { pair.new ≡ record pair.old { next = pair.old.next + 1 } }
{
    let leaf = pair.take().unwrap();
    pair.sign(leaf, message, out);
}

impl SignKey {
    /// The key of these kinds that the identifier and the seed determine. It is made anew, with no index handed out. An
    /// identifier and a seed stand for ever under the same kinds: keys of other kinds share their top tree, of whose leaves
    /// each would sign another message.
    pub fn make(
        alloc: Global,
        kinds: Kinds,
        id: [u8; 16],
        seed: [u8; 32],
    ) -> Result<SignKey, NoMemory>
        requires { is_in_profile kinds ≡ true }
        ensures { IfOk result (λ key. IsNew key (key_of_kinds kinds id seed)) }
    {
        match kinds.bottom {
            None => {
                let (tree, leaves) = SecretKey::make(
                    alloc, kinds.tree, kinds.ots, id, seed,
                )?.split();
                Ok(SignKey::Lms(tree, leaves))
            }
            Some(bottom) => Ok(SignKey::Hss(Pair::make(
                alloc, kinds.tree, bottom, kinds.ots, id, seed,
            )?)),
        }
    }

    /// The public half.
    pub fn public(&self) -> Key
        ensures { result ≡ public_key (secret_of self.now) }
    {
        match self {
            SignKey::Lms(tree, _) => Key::Lms(tree.public()),
            SignKey::Hss(pair) => Key::Hss(pair.public()),
        }
    }

    /// How many indexes it has.
    pub fn index_count(&self) -> u32
        ensures value { result ≡ index_count (secret_of self.now) }
        ensures small { result ≤ 32768 }
    {
        match self {
            SignKey::Lms(tree, _) => tree.index_count(),
            SignKey::Hss(pair) => pair.index_count(),
        }
    }

    /// How many bytes a signature has.
    #[tactic(auto, unfolding(lms_tree::specs::Lms::public_of))]
    pub fn signature_length(&self) -> usize
        ensures { result ≡ signature_length (secret_of self.now) }
    {
        match self {
            SignKey::Lms(tree, _) => tree.public().signature_length(),
            SignKey::Hss(pair) => pair.signature_length(),
        }
    }

    /// The height of its bottom trees, of a key of two levels. The public half doesn't show it.
    pub fn bottom_height(&self) -> Option<u8>
        ensures { result ≡ height_below (secret_of self.now) }
    {
        match self {
            SignKey::Lms(..) => None,
            SignKey::Hss(pair) => Some(pair.bottom_height()),
        }
    }

    /// The next index, or the number of all where none is left.
    pub fn next(&self) -> u32
        ensures { result ≡ next_of self.now }
    {
        match self {
            SignKey::Lms(_, leaves) => leaves.next(),
            SignKey::Hss(pair) => pair.next(),
        }
    }

    /// Goes on to index `n`, and gives up those before it.
    pub fn skip_to(&mut self, n: u32)
        requires one { IsOfOneKey self.old }
        requires forward { next_of self.old ≤ n }
        requires within { n ≤ index_count (secret_of self.old) }
        ensures secret { secret_of self.new ≡ secret_of self.old }
        ensures next { next_of self.new ≡ n }
        ensures one { IsOfOneKey self.new }
    {
        match self {
            SignKey::Lms(_, leaves) => leaves.skip_to(n),
            SignKey::Hss(pair) => pair.skip_to(n),
        }
    }

    /// Makes ready what the next index, which there is, signs with: of two levels its bottom tree, unless that was made
    /// last. Where memory is refused, nothing has changed.
    pub fn prepare(&mut self, alloc: Global) -> Result<(), NoMemory>
        requires one { IsOfOneKey self.old }
        requires left { next_of self.old < index_count (secret_of self.old) }
        ensures secret { secret_of self.new ≡ secret_of self.old }
        ensures next { next_of self.new ≡ next_of self.old }
        ensures one { IsOfOneKey self.new }
        ensures ready { OnOk result (IsPrepared self.new) }
        ensures held { IsPrepared self.old → IsOk result }
        ensures same { OnErr result (self.new ≡ self.old) }
    {
        match self {
            SignKey::Lms(..) => Ok(()),
            SignKey::Hss(pair) => pair.prepare(alloc),
        }
    }

    /// Takes the next index, which is ready, and writes the signature of `message` with it into `out`.
    pub fn sign_next(&mut self, message: &[u8], out: &mut [u8])
        requires one { IsOfOneKey self.old }
        requires left { next_of self.old < index_count (secret_of self.old) }
        requires ready { IsPrepared self.old }
        requires long { length out.old ≡ signature_length (secret_of self.old) }
        ensures signed { out.new
            ≡ signature_of (secret_of self.old) (next_of self.old) message.now }
        ensures verifies { Verifies (public_key (secret_of self.old)) message.now out.new }
        ensures top { TopSignsTree (secret_of self.old) (next_of self.old) out.new }
        ensures secret { secret_of self.new ≡ secret_of self.old }
        ensures next { next_of self.new ≡ next_of self.old + 1 }
        ensures one { IsOfOneKey self.new }
    {
        match self {
            SignKey::Lms(tree, leaves) => sign_leaf(tree, leaves, message, out),
            SignKey::Hss(pair) => sign_pair(pair, message, out),
        }
    }
}
