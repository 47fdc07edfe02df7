//! Floor: keys. What a secret of 32 bytes gives: a key, the seed of a life's nonces, and the mark of the key's store in
//! a group; and the secrets of a recorded world. The crates of commands with keys and those of worlds call it.
#![tactic(auto)]

ghost use Rattle.std.specs.Prelude.{◌≡◌, true, IfOk};
ghost use Rattle.sign_keys.specs.Keys.{IsNew, secret_of};
ghost use Rattle.sign_keys.specs.Kinds.{is_in_profile};
ghost use Rattle.secrets.specs.Secrets.{key_from, key_id, key_seed, nonce_seed, store_tag, tag_of, world_secret};

use ff_ids::Group;
use fields::NoMemory;
use sha2::{Digest, Sha256};
use sign_keys::{Kinds, SignKey};
use std::alloc::Global;

/// The identifier of the secret's key: the first 16 bytes of the SHA-256 of `FFLMSI` and the secret.
#[tactic(auto, unfolding(crate::specs::Secrets::key_id))]
fn key_id(secret: &[u8; 32]) -> [u8; 16]
    ensures { result ≡ key_id secret.now }
{
    let mut hasher = Sha256::new();
    hasher.update(b"FFLMSI");
    hasher.update(secret);
    let hash = hasher.finalize();
    let mut id = [0; 16];
    id.copy_from_slice(&hash[..16]);
    id
}

/// The seed of the secret's key: the SHA-256 of `FFSEED` and the secret.
#[tactic(auto, unfolding(crate::specs::Secrets::key_seed))]
fn key_seed(secret: &[u8; 32]) -> [u8; 32]
    ensures { result ≡ key_seed secret.now }
{
    let mut hasher = Sha256::new();
    hasher.update(b"FFSEED");
    hasher.update(secret);
    hasher.finalize()
}

/// The key of these kinds that the secret gives. It is made anew, with no index handed out. A secret stands for ever under
/// the same kinds and has one store: keys of other kinds share its top tree, and a second store begins at index 0.
pub fn make_key(alloc: Global, kinds: Kinds, secret: &[u8; 32]) -> Result<SignKey, NoMemory>
    requires { is_in_profile kinds ≡ true }
    ensures { IfOk result (λ key. IsNew key (key_from kinds secret.now)) }
{
    SignKey::make(alloc, kinds, key_id(secret), key_seed(secret))
}

/// The seed of a life's nonces, `next` being the index of the store as the life begins: the SHA-256 of `FFPING`, the
/// secret and the index in four bytes.
#[tactic(auto, unfolding(crate::specs::Secrets::nonce_seed))]
pub fn nonce_seed(secret: &[u8; 32], next: u32) -> [u8; 32]
    ensures { result ≡ nonce_seed secret.now next }
{
    let mut hasher = Sha256::new();
    hasher.update(b"FFPING");
    hasher.update(secret);
    hasher.update(&next.to_be_bytes());
    hasher.finalize()
}

/// The SHA-256 of `FFSTAG`, the group's tag, its tolerance in a byte, and these bytes.
fn tag_with(group: &Group, key: &[u8], below: &[u8]) -> [u8; 32]
    ensures { result ≡ tag_of group.now key.now below.now }
{
    let mut hasher = Sha256::new();
    hasher.update(b"FFSTAG");
    hasher.update(&group.tag);
    hasher.update(&[group.t]);
    hasher.update(key);
    hasher.update(below);
    hasher.finalize()
}

/// What marks a store as that of the key in the group, by the bytes of the key's public half and, of two levels, the
/// height of its bottom trees in a byte.
#[tactic(auto, unfolding(crate::specs::Secrets::store_tag))]
pub fn store_tag(group: &Group, key: &SignKey) -> [u8; 32]
    ensures { result ≡ store_tag group.now (secret_of key.now) }
{
    let bytes = key.public().write();
    match key.bottom_height() {
        None => tag_with(group, bytes.as_slice(), &[]),
        Some(height) => tag_with(group, bytes.as_slice(), &[height]),
    }
}

/// The secret of a member's number in the world of the tag; the authority has 65,535, which no member has: the
/// SHA-256 of `FFWORLD`, the tag and the number in two bytes.
#[tactic(auto, unfolding(crate::specs::Secrets::world_secret))]
pub fn world_secret(tag: &[u8; 16], number: u16) -> [u8; 32]
    ensures { result ≡ world_secret tag.now number }
{
    let mut hasher = Sha256::new();
    hasher.update(b"FFWORLD");
    hasher.update(tag);
    hasher.update(&number.to_be_bytes());
    hasher.finalize()
}
