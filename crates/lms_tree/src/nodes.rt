//! The nodes of a tree, which a key keeps from its first day.

ghost use Rattle.std.specs.Prelude.{◌≡◌, ◌+◌, ◌*◌, ◌<◌, ◌≤◌, IfOk, length};
ghost use Rattle.lms_tree.specs.Kinds.{leaf_count};
ghost use Rattle.lms_tree.specs.Lms.{leaf};
ghost use Rattle.lms_tree.specs.Nodes.{HoldsFrom};

use crate::hashes::{inner_hash, leaf_hash};
use crate::secret::Secret;
use fields::NoMemory;
use lms_ots::public_hash;
use std::alloc::Global;

/// The nodes of a key's tree, each at its number. What stands at 0 is no node.
pub fn nodes_of(alloc: Global, secret: &Secret) -> Result<Vec<[u8; 32]>, NoMemory>
    ensures { IfOk result (λ nodes. HoldsFrom secret.now nodes.items 1) }
{
    let count = secret.tree.leaf_count() as usize;
    let mut nodes = vec![in alloc; [0; 32]; 2 * count]?;
    put_leaves(secret, &mut nodes);
    put_inner(secret, &mut nodes);
    Ok(nodes)
}

// Puts the leaves behind the inner nodes.
fn put_leaves(secret: &Secret, nodes: &mut [[u8; 32]])
    requires { length nodes.old ≡ 2 * leaf_count secret.now.tree }
    ensures { HoldsFrom secret.now nodes.new (leaf_count secret.now.tree) }
{
    let count = secret.tree.leaf_count();
    for q in 0..count {
        nodes[(count + q) as usize] = leaf_of(secret, q);
    }
}

// Puts the inner nodes, each once the two below it stand.
fn put_inner(secret: &Secret, nodes: &mut [[u8; 32]])
    requires { HoldsFrom secret.now nodes.old (leaf_count secret.now.tree) }
    ensures { HoldsFrom secret.now nodes.new 1 }
{
    let mut r = secret.tree.leaf_count();
    while 1 < r {
        r -= 1;
        let below = 2 * r as usize;
        nodes[r as usize] = inner_hash(&secret.id, r, &nodes[below], &nodes[below + 1]);
    }
}

// The hash of leaf `q`.
#[tactic(auto, unfolding(crate::specs::Lms::leaf))]
fn leaf_of(secret: &Secret, q: u32) -> [u8; 32]
    requires { q < leaf_count secret.now.tree }
    ensures { result ≡ leaf secret.now (leaf_count secret.now.tree + q) }
{
    let one_time = public_hash(secret.ots, &secret.id, q, &secret.seed);
    leaf_hash(&secret.id, secret.tree.leaf_count() + q, &one_time)
}
