//! Whether a signature is good.

ghost use Rattle.std.specs.Prelude.{◌≡◌, ◌<◌, ◌↔◌, IsOk, length};
ghost use Rattle.lms_ots.specs.Ots as ots;
ghost use Rattle.lms_tree.specs.Kinds.{leaf_count, signature_length};
ghost use Rattle.lms_tree.specs.Lms.{Verifies, parent, root_in, verdict_of, index_in};

use crate::hashes::{inner_hash, leaf_hash};
use crate::key::PublicKey;
use crate::kind::SigFault;
use lms_ots::places::number_at;
use lms_ots::{OtsKind, candidate};

/// Whether `signature` is a signature of `message` under `key` (RFC 8554, section 5.4.2).
#[tactic(auto, unfolding(crate::specs::Lms::verdict_of))]
pub fn verify(key: &PublicKey, message: &[u8], signature: &[u8]) -> Result<(), SigFault>
    ensures decides { IsOk result ↔ Verifies key.now message.now signature.now }
    ensures verdict { result ≡ verdict_of key.now message.now signature.now }
{
    if signature.len() != key.signature_length() {
        return Err(SigFault::Length {
            found: signature.len(),
        });
    }
    let found = number_at(signature, 4 + key.ots.signature_length());
    if found != key.tree.type_number() {
        return Err(SigFault::TreeType { found });
    }
    let found = number_at(signature, 4);
    if found != key.ots.type_number() {
        return Err(SigFault::OtsType { found });
    }
    let q = number_at(signature, 0);
    if q >= key.tree.leaf_count() {
        return Err(SigFault::Index { q });
    }
    if root_of(key, message, signature).as_slice() != key.root.as_slice() {
        return Err(SigFault::Root);
    }
    Ok(())
}

// The root that a signature leads to. Its types are the key's, and the key has its leaf.
#[tactic(auto, unfolding(crate::specs::Lms::root_in, crate::specs::Lms::root_from))]
fn root_of(key: &PublicKey, message: &[u8], signature: &[u8]) -> [u8; 32]
    requires long { length signature.now ≡ signature_length key.now.tree key.now.ots }
    requires kind { ots.number_at 4 signature.now ≡ ots.type_number key.now.ots }
    requires leaf { index_in signature.now < leaf_count key.now.tree }
    ensures { result ≡ root_in key.now message.now signature.now }
{
    let q = number_at(signature, 0);
    let path_at = 8 + key.ots.signature_length();
    let mut node = key.tree.leaf_count() + q;
    let one_time = one_time_value(key.ots, &key.id, q, message, &signature[4..path_at - 4]);
    let mut value = leaf_hash(&key.id, node, &one_time);
    for height in 0..key.tree.height() {
        let at = path_at + 32 * height;
        value = parent(&key.id, node, &value, &signature[at..at + 32]);
        node /= 2;
    }
    value
}

// The one-time key that a one-time signature of the kind opens to.
fn one_time_value(kind: OtsKind, id: &[u8; 16], q: u32, message: &[u8], one_time: &[u8]) -> [u8; 32]
    requires long { length one_time.now ≡ ots.signature_length kind }
    requires kind { ots.type_in one_time.now ≡ ots.type_number kind }
    ensures { result ≡ ots.candidate_value kind id.now q message.now one_time.now }
{
    match candidate(kind, id, q, message, one_time) {
        Ok(value) => value,
        Err(_) => unreachable!(),
    }
}

// The parent of a node and its sibling.
#[tactic(auto, unfolding(crate::specs::Lms::parent))]
fn parent(id: &[u8; 16], node: u32, value: &[u8; 32], sibling: &[u8]) -> [u8; 32]
    ensures { result ≡ parent id.now node value.now sibling.now }
{
    if node % 2 == 1 {
        inner_hash(id, node / 2, sibling, value)
    } else {
        inner_hash(id, node / 2, value, sibling)
    }
}
