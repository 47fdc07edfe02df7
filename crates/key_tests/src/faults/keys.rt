//! Keys W8 with H5 of a world's members, made from their secrets.

ghost use Rattle.std.specs.Prelude.{◌≡◌, IfOk};

use lms_ots::OtsKind;
use lms_tree::{Leaves, PublicKey, SecretKey, Tree, TreeKind};
use sha2::{Digest, Sha256};
use std::alloc::Global;
use std::marker::Model;
use std::test::Fail;

/// The number that stands for the authority.
pub const AUTHORITY: u16 = 65_535;

/// A key, and its leaves that are left.
#[derive(Drop)]
pub struct Key {
    tree: Tree,
    leaves: Leaves,
}

impl Model for Key {
    ghost use Rattle.std.specs.Prelude.{◌≡◌};
    ghost use Rattle.lms_tree.specs.declared.secret.Secret.{Secret};

    ghost Value = { Secret };

    ghost view = { λ k. k.tree };

    ghost invariant = { λ k. k.leaves.key ≡ k.tree };
}

/// The hash of a label and what follows it.
fn labelled(label: &[u8], bytes: &[u8]) -> [u8; 32] {
    let mut hasher = Sha256::new();
    hasher.update(label);
    hasher.update(bytes);
    hasher.finalize()
}

/// The secret of a number in the world of the tag.
fn secret_of(tag: &[u8; 16], number: u16) -> [u8; 32] {
    let mut hasher = Sha256::new();
    hasher.update(b"FFWORLD");
    hasher.update(tag);
    hasher.update(&number.to_be_bytes());
    hasher.finalize()
}

impl Key {
    /// The key of the number in the world of the tag.
    pub fn of(alloc: Global, tag: &[u8; 16], number: u16) -> Result<Key, Fail> {
        let secret = secret_of(tag, number);
        let mut id = [0; 16];
        id.copy_from_slice(&labelled(b"FFLMSI", &secret)[..16]);
        let seed = labelled(b"FFSEED", &secret);
        let key = SecretKey::make(alloc, TreeKind::H5, OtsKind::W8, id, seed).or(Err("key"))?;
        let (tree, leaves) = key.split();
        Ok(Key { tree, leaves })
    }

    pub fn public(&self) -> PublicKey {
        self.tree.public()
    }

    /// A signature by the next leaf.
    #[tactic(auto, unfolding(lms_tree::specs::Lms::public_of))]
    pub fn sign(&mut self, alloc: Global, message: &[u8]) -> Result<Vec<u8>, Fail> {
        let length = self.tree.public().signature_length();
        let mut signature = vec![in alloc; 0u8; length]?;
        let leaf = self.leaves.take().ok_or("no leaf is left")?;
        self.tree.sign(leaf, message, &mut signature);
        Ok(signature)
    }
}
