//! Floor: checks. How many compressions of SHA-256 the definitions of LMS and of HSS with two levels have (RFC 8554,
//! sections 4 to 6, and appendix A). `bench` compares times with it, and `key_tests` checks it.
#![tactic(auto)]

use lms_ots::OtsKind;
use lms_tree::TreeKind;
use sha2::{Digest, Sha256};

/// The compressions of a hash of so many bytes.
fn of_hash(bytes: u64) -> u64 {
    bytes.saturating_add(8) / 64 + 1
}

/// The steps of all chains, each walked to its end.
fn whole_chains(kind: OtsKind) -> u64 {
    u64::from(kind.chain_count()).saturating_mul(u64::from(kind.greatest_digit()))
}

/// The public hash of a leaf's one-time key from its chain ends, and the leaf from that hash.
fn leaf(kind: OtsKind) -> u64 {
    let ends = u64::from(kind.chain_count()).saturating_mul(32);
    of_hash(ends.saturating_add(22)).saturating_add(of_hash(54))
}

/// A key: for each leaf the secrets, the whole chains and the leaf; and the nodes above the leaves.
pub fn making(tree: TreeKind, kind: OtsKind) -> u64 {
    let leaves = u64::from(tree.leaf_count());
    let secrets = u64::from(kind.chain_count());
    let each = secrets
        .saturating_add(whole_chains(kind))
        .saturating_add(leaf(kind));
    let nodes = leaves.saturating_sub(1).saturating_mul(of_hash(86));
    leaves.saturating_mul(each).saturating_add(nodes)
}

/// The sum of the digits in a byte.
fn digits_in(kind: OtsKind, byte: u8) -> u64 {
    match kind {
        OtsKind::W1 => u64::from(byte.count_ones()),
        OtsKind::W2 => {
            u64::from(byte >> 6)
                + u64::from((byte >> 4) & 3)
                + u64::from((byte >> 2) & 3)
                + u64::from(byte & 3)
        }
        OtsKind::W4 => u64::from(byte >> 4) + u64::from(byte & 15),
        OtsKind::W8 => u64::from(byte),
    }
}

/// The sum of all digits.
fn digits(kind: OtsKind, bytes: &[u8]) -> u64 {
    let mut sum = 0u64;
    for byte in bytes {
        sum = sum.saturating_add(digits_in(kind, *byte));
    }
    sum
}

/// The greatest sum that the digits of a hash can have.
fn greatest(kind: OtsKind) -> u64 {
    match kind {
        OtsKind::W1 => 256,
        OtsKind::W2 => 384,
        OtsKind::W4 => 960,
        OtsKind::W8 => 8160,
    }
}

/// The steps that the chains of a signature have walked: the digits of the message's hash and of its checksum.
fn signed_steps(kind: OtsKind, hash: &[u8; 32]) -> u64 {
    let sum = digits(kind, hash);
    let value = greatest(kind).saturating_sub(sum);
    let shifted = value
        .checked_shl(u32::from(kind.checksum_shift()))
        .unwrap_or(0);
    let checksum = (shifted % 65_536) as u16;
    sum.saturating_add(digits(kind, &checksum.to_be_bytes()))
}

/// The hash of the message that the chains of this signature spell.
fn message_hash(id: &[u8], message: &[u8], signature: &[u8]) -> [u8; 32] {
    let mut hasher = Sha256::new();
    hasher.update(id);
    hasher.update(signature.get(..4).unwrap_or(&[]));
    hasher.update(&[0x81u8, 0x81]);
    hasher.update(signature.get(8..40).unwrap_or(&[]));
    hasher.update(message);
    hasher.finalize()
}

/// A signature, and verifying it.
pub fn signing_and_verifying(
    tree: TreeKind,
    kind: OtsKind,
    id: &[u8; 16],
    message: &[u8],
    signature: &[u8],
) -> (u64, u64) {
    by_identifier(tree, kind, id, message, signature)
}

/// The same, with an identifier that stands among other bytes.
fn by_identifier(
    tree: TreeKind,
    kind: OtsKind,
    id: &[u8],
    message: &[u8],
    signature: &[u8],
) -> (u64, u64) {
    let length = message.len() as u64;
    let hash = of_hash(length.saturating_add(54));
    let randomizer = of_hash(length.saturating_add(42));
    let secrets = u64::from(kind.chain_count());
    let steps = signed_steps(kind, &message_hash(id, message, signature));
    let path = (tree.height() as u64).saturating_mul(of_hash(86));
    let signing = randomizer
        .saturating_add(hash)
        .saturating_add(secrets)
        .saturating_add(steps);
    let verifying = hash
        .saturating_add(whole_chains(kind).saturating_sub(steps))
        .saturating_add(leaf(kind))
        .saturating_add(path);
    (signing, verifying)
}

/// What a signature of two levels costs, by what it is for.
#[derive(Debug, Clone, Copy, PartialEq, Eq)]
pub struct PairCost {
    /// The bottom tree, whose identifier and seed are a hash each, and the top key's signature of its key.
    pub bottom: u64,
    /// The bottom key's signature of the message.
    pub signing: u64,
    /// Verifying both.
    pub verifying: u64,
}

/// The cost of this signature of the message, under a top key with this identifier.
pub fn pair_cost(
    top: TreeKind,
    bottom: TreeKind,
    kind: OtsKind,
    id: &[u8; 16],
    message: &[u8],
    signature: &[u8],
) -> PairCost {
    let key_at = 12 + kind.signature_length() + 32 * top.height();
    let by_top = signature.get(4..key_at).unwrap_or(&[]);
    let key = signature.get(key_at..key_at + 56).unwrap_or(&[]);
    let by_bottom = signature.get(key_at + 56..).unwrap_or(&[]);
    let bottom_id = key.get(8..24).unwrap_or(&[]);
    let of_key = by_identifier(top, kind, id, key, by_top);
    let of_message = by_identifier(bottom, kind, bottom_id, message, by_bottom);
    PairCost {
        bottom: making(bottom, kind)
            .saturating_add(2)
            .saturating_add(of_key.0),
        signing: of_message.0,
        verifying: of_key.1.saturating_add(of_message.1),
    }
}
