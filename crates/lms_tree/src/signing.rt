//! Keys, and how they sign.

ghost use Rattle.std.specs.Prelude.{◌≡◌, ◌+◌, ◌*◌, ◌^◌, ◌<◌, ◌≤◌, ◌++◌, IfOk, length, take};
ghost use Rattle.lms_ots.specs.Ots as ots;
ghost use Rattle.lms_tree.specs.Kinds.{height, leaf_count, signature_length};
ghost use Rattle.lms_tree.specs.Leaves.{index_count};
ghost use Rattle.lms_tree.specs.Lms.{Verifies, path_of, public_of, sibling, signature_of};
ghost use Rattle.lms_tree.specs.Nodes.{HoldsFrom};

use crate::hashes::randomizer;
use crate::key::PublicKey;
use crate::kind::TreeKind;
use crate::nodes::nodes_of;
use crate::secret::Secret;
use crate::spending::{Leaf, Leaves};
use fields::NoMemory;
use lms_ots::places::put;
use lms_ots::{OtsKind, sign_into};
use std::alloc::Global;
use std::marker::Model;

/// A whole key, of which no leaf was handed out.
#[derive(Drop)]
pub struct SecretKey {
    tree: Tree,
    leaves: Leaves,
}

impl Model for SecretKey {
    ghost use Rattle.std.specs.Prelude.{◌≡◌};
    ghost use Rattle.lms_tree.specs.declared.secret.Secret.{Secret};

    ghost Value = { Secret };

    ghost view = { λ k. k.tree };

    ghost invariant = { λ k. k.leaves ≡ record { key = k.tree; next = 0 } };
}

impl SecretKey {
    /// The key of these kinds that the identifier and the seed determine. Who makes a key again must skip past each
    /// leaf that was spent before it signs, and no other key may have its seed and identifier.
    pub fn make(
        alloc: Global,
        tree: TreeKind,
        ots: OtsKind,
        id: [u8; 16],
        seed: [u8; 32],
    ) -> Result<SecretKey, NoMemory>
        ensures { IfOk result
            (λ key. key ≡ record { tree = tree; ots = ots; id = id; seed = seed }) }
    {
        let secret = Secret {
            tree,
            ots,
            id,
            seed,
        };
        let nodes = nodes_of(alloc, &secret)?;
        Ok(SecretKey {
            tree: Tree { secret, nodes },
            leaves: Leaves::all(secret),
        })
    }

    /// The public half.
    pub fn public(&self) -> PublicKey
        ensures { result ≡ public_of self.now }
    {
        self.tree.public()
    }

    /// The tree, which signs, and the leaves that it signs with.
    pub fn split(self) -> (Tree, Leaves)
        ensures tree { result.0 ≡ self }
        ensures leaves { result.1 ≡ record { key = self; next = 0 } }
    {
        let SecretKey { tree, leaves } = self;
        (tree, leaves)
    }
}

/// The tree of a key, with all its nodes.
#[derive(Drop)]
pub struct Tree {
    secret: Secret,
    nodes: Vec<[u8; 32]>,
}

impl Model for Tree {
    ghost use Rattle.lms_tree.specs.declared.secret.Secret.{Secret};
    ghost use Rattle.lms_tree.specs.Nodes.{HoldsFrom};

    ghost Value = { Secret };

    ghost view = { λ t. t.secret };

    ghost invariant = { λ t. HoldsFrom t.secret t.nodes.items 1 };
}

impl Tree {
    /// The public half of the key.
    #[tactic(auto, unfolding(crate::specs::Lms::public_of))]
    pub fn public(&self) -> PublicKey
        ensures { result ≡ public_of self.now }
    {
        PublicKey {
            tree: self.secret.tree,
            ots: self.secret.ots,
            id: self.secret.id,
            root: self.nodes[1],
        }
    }

    /// How many indexes the key has.
    pub fn index_count(&self) -> u32
        ensures value { result ≡ index_count self.now }
        ensures small { result ≤ 32768 }
    {
        self.secret.tree.leaf_count()
    }

    /// Writes the signature of `message` by a leaf of this key into `out` (RFC 8554, section 5.4.1).
    pub fn sign(&self, leaf: Leaf, message: &[u8], out: &mut [u8])
        requires key { leaf.key ≡ self.now }
        requires long { length out.old ≡ signature_length self.now.tree self.now.ots }
        ensures signed { out.new ≡ signature_of self.now leaf.index message.now }
        ensures verifies { Verifies (public_of self.now) message.now out.new }
    {
        let q = leaf.spend();
        write_signature(&self.secret, &self.nodes, q, message, out);
    }
}

// Writes the signature of `message` by leaf `q`.
fn write_signature(secret: &Secret, nodes: &[[u8; 32]], q: u32, message: &[u8], out: &mut [u8])
    requires nodes { HoldsFrom secret.now nodes.now 1 }
    requires leaf { q < leaf_count secret.now.tree }
    requires long { length out.old ≡ signature_length secret.now.tree secret.now.ots }
    ensures { out.new ≡ signature_of secret.now q message.now }
{
    let path_at = 8 + secret.ots.signature_length();
    let c = randomizer(secret, q, message);
    put(out, 0, &q.to_be_bytes());
    sign_into(
        secret.ots,
        &secret.id,
        q,
        &secret.seed,
        &c,
        message,
        &mut out[4..path_at - 4],
    );
    put(out, path_at - 4, &secret.tree.type_number().to_be_bytes());
    put_path(secret, nodes, q, path_at, out);
}

// Writes the path of leaf `q` at `place`.
fn put_path(secret: &Secret, nodes: &[[u8; 32]], q: u32, place: usize, out: &mut [u8])
    requires nodes { HoldsFrom secret.now nodes.now 1 }
    requires leaf { q < leaf_count secret.now.tree }
    requires long { place + 32 * height secret.now.tree ≤ length out.old }
    ensures { take (place + 32 * height secret.now.tree) out.new
        ≡ take place out.old ++ ots.joined (path_of secret.now q) (height secret.now.tree) }
{
    let mut node = (secret.tree.leaf_count() + q) as usize;
    for height in 0..secret.tree.height() {
        put(out, place + 32 * height, &nodes[sibling(node)]);
        node /= 2;
    }
}

// The other child of the node's parent.
fn sibling(node: usize) -> usize
    requires { node < 2 ^ 32 }
    ensures { result ≡ sibling node }
{
    if node % 2 == 1 { node - 1 } else { node + 1 }
}
