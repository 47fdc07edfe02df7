//! Floor: keys. LM-OTS one-time signatures of RFC 8554 (section 4) over SHA-256 with n = 32. No call takes memory.
//! `lms_tree` signs and verifies with it; other crates take the kinds alone.
#![tactic(auto)]

ghost use Rattle.std.specs.Prelude.{IsOk, ◌≡◌, ◌≢◌, ◌-◌, ◌<◌, ◌≤◌, ◌↔◌, length};
ghost use Rattle.sha2.specs.Hashers.{Holds256};
ghost use Rattle.lms_ots.specs.Ots.{type_number, chain_count, signature_length, coef, greatest_digit, width, chain, hash_prefix, secret, public_end, public_value, message_hash, signature_of, type_in, candidate_value, candidate_of, SignaturesOpen};

use chain::Chain;
use digits::{digit, with_checksum};
pub use kind::{OtsFault, OtsKind};
use places::{number_at, put};
use sha2::{Digest, Sha256};

mod chain;
mod digits;
mod kind;
pub mod places;

/// What a hash of chain ends begins with, after the identifier and the leaf's number.
const D_PBLC: u16 = 0x8080;

/// What a message's hash begins with, after the identifier and the leaf's number.
const D_MESG: u16 = 0x8181;

/// The public hash K of a leaf's one-time key (RFC 8554, section 4.3), whose secrets come from
/// `seed` (appendix A).
pub fn public_hash(kind: OtsKind, id: &[u8; 16], q: u32, seed: &[u8; 32]) -> [u8; 32]
    ensures { result ≡ public_value kind id.now q seed.now }
{
    let mut hasher = hasher_of(id, q, D_PBLC);
    for index in 0..kind.chain_count() {
        hasher.update(&public_end(kind, id, q, seed, index));
    }
    hasher.finalize()
}

/// Writes the one-time signature of `message` with the randomizer `c` into `out` (RFC 8554,
/// section 4.5). A leaf must never sign two messages.
pub fn sign_into(
    kind: OtsKind,
    id: &[u8; 16],
    q: u32,
    seed: &[u8; 32],
    c: &[u8; 32],
    message: &[u8],
    out: &mut [u8],
)
    requires { length out.old ≡ signature_length kind }
    ensures { out.new ≡ signature_of kind id.now q seed.now c.now message.now }
{
    let digits = with_checksum(kind, &message_hash(id, q, c, message));
    put(out, 0, &kind.type_number().to_be_bytes());
    put(out, 4, c);
    for index in 0..kind.chain_count() {
        let value = signature_value(kind, id, q, seed, &digits, index);
        put(out, 36 + 32 * usize::from(index), &value);
    }
}

/// The public hash to which a signature of `message` opens (RFC 8554, section 4.6): the signature is
/// good under the key whose public hash this is.
#[tactic(auto, unfolding(crate::specs::Ots::candidate_of, crate::specs::Ots::type_in))]
pub fn candidate(
    kind: OtsKind,
    id: &[u8; 16],
    q: u32,
    message: &[u8],
    signature: &[u8],
) -> Result<[u8; 32], OtsFault>
    ensures value { result ≡ candidate_of kind id.now q message.now signature.now }
    ensures ok { IsOk result ↔ ((length signature.now ≡ signature_length kind)
        × (type_in signature.now ≡ type_number kind)) }
    ensures wrong_length { (result ≡ Err (OtsFault.WrongLength (length signature.now)))
        ↔ (length signature.now ≢ signature_length kind) }
    ensures wrong_type { (result ≡ Err (OtsFault.WrongType (type_in signature.now)))
        ↔ ((length signature.now ≡ signature_length kind)
        × (type_in signature.now ≢ type_number kind)) }
{
    if signature.len() != kind.signature_length() {
        return Err(OtsFault::WrongLength {
            found: signature.len(),
        });
    }
    let found = number_at(signature, 0);
    if found != kind.type_number() {
        return Err(OtsFault::WrongType { found });
    }
    Ok(candidate_value(kind, id, q, message, signature))
}

/// Every signature opens to the public hash of its key.
pub fn signatures_open(kind: OtsKind)
    ensures { SignaturesOpen kind }
{}

// A hasher that was fed the identifier, the leaf's number and `tag`.
#[tactic(auto, unfolding(crate::specs::Ots::hash_prefix))]
fn hasher_of(id: &[u8; 16], q: u32, tag: u16) -> Sha256
    ensures { Holds256 result (hash_prefix id.now q tag) }
{
    let mut hasher = Sha256::new();
    hasher.update(id);
    hasher.update(&q.to_be_bytes());
    hasher.update(&tag.to_be_bytes());
    hasher
}

// The hash Q of a message with its randomizer.
#[tactic(auto, unfolding(crate::specs::Ots::message_hash))]
fn message_hash(id: &[u8; 16], q: u32, c: &[u8], message: &[u8]) -> [u8; 32]
    ensures { result ≡ message_hash id.now q c.now message.now }
{
    let mut hasher = hasher_of(id, q, D_MESG);
    hasher.update(c);
    hasher.update(message);
    hasher.finalize()
}

// The end of a chain.
#[tactic(auto, unfolding(crate::specs::Ots::public_end, crate::specs::Ots::secret))]
fn public_end(kind: OtsKind, id: &[u8; 16], q: u32, seed: &[u8; 32], index: u16) -> [u8; 32]
    ensures { result ≡ public_end kind id.now q seed.now index }
{
    let mut chain = Chain::new(id, q, index, seed);
    chain.step(0xff);
    chain.walk(0, kind.greatest_digit());
    chain.value()
}

// The value of a chain in a signature.
#[tactic(auto, unfolding(crate::specs::Ots::secret))]
fn signature_value(
    kind: OtsKind,
    id: &[u8; 16],
    q: u32,
    seed: &[u8; 32],
    digits: &[u8; 34],
    index: u16,
) -> [u8; 32]
    requires { index < chain_count kind }
    ensures { result ≡ chain (hash_prefix id.now q index) 0 (coef digits.now index (width kind))
        (secret id.now q seed.now index) }
{
    let mut chain = Chain::new(id, q, index, seed);
    chain.step(0xff);
    chain.walk(0, digit(kind, digits, usize::from(index)));
    chain.value()
}

// The end of a chain, from its value in a signature.
fn candidate_end(
    kind: OtsKind,
    id: &[u8; 16],
    q: u32,
    digits: &[u8; 34],
    value: &[u8],
    index: u16,
) -> [u8; 32]
    requires chains { index < chain_count kind }
    requires length { length value.now ≡ 32 }
    ensures { let first = coef digits.now index (width kind) in
        result ≡ chain (hash_prefix id.now q index) first (greatest_digit kind - first) value.now }
{
    let mut chain = Chain::new(id, q, index, value);
    chain.walk(
        digit(kind, digits, usize::from(index)),
        kind.greatest_digit(),
    );
    chain.value()
}

// The public hash to which a signature of the kind's length and type opens.
fn candidate_value(
    kind: OtsKind,
    id: &[u8; 16],
    q: u32,
    message: &[u8],
    signature: &[u8],
) -> [u8; 32]
    requires { length signature.now ≡ signature_length kind }
    ensures { result ≡ candidate_value kind id.now q message.now signature.now }
{
    let digits = with_checksum(kind, &message_hash(id, q, &signature[4..36], message));
    let mut hasher = hasher_of(id, q, D_PBLC);
    for index in 0..kind.chain_count() {
        let at = 36 + 32 * usize::from(index);
        hasher.update(&candidate_end(kind, id, q, &digits, &signature[at..at + 32], index));
    }
    hasher.finalize()
}
