//! Whether a signature of two levels is good.

ghost use Rattle.std.specs.Prelude.{◌≡◌, ◌+◌, ◌↔◌, ◌≤◌, IsOk, length, OnSome, true};
ghost use Rattle.lms_tree.specs.Lms as lms;
ghost use Rattle.lms_tree.specs.Lms.{Verifies};
ghost use Rattle.hss.specs.Keys.{is_in_profile};
ghost use Rattle.hss.specs.Hss.{HssVerifies, both, in_profile, verdict_of};

use crate::key::{HssKey, is_in_profile};
use lms_ots::places::number_at;
use lms_tree::{PublicKey, SigFault, verify as verify_lms};

/// Why a signature is not good under a key of two levels: the first of these that holds.
#[derive(Debug, Clone, Copy, PartialEq, Eq)]
pub enum HssFault {
    /// There are `found` bytes: too few to hold the bottom key, or not those of its kinds.
    Length { found: usize },
    /// The first number, at byte 0, isn't 1.
    Levels { found: u32 },
    /// The bottom key is of no known tree, or neither of W4 nor of W8.
    KeyType,
    /// The top key's signature of the bottom key has this fault.
    Top(SigFault),
    /// The bottom key's signature of the message has this fault.
    Bottom(SigFault),
}

/// The bottom key in these 56 bytes, if they are one whose one-time signatures are taken.
fn bottom_key(bytes: &[u8]) -> Option<PublicKey>
    ensures { result ≡ in_profile (lms.key_in bytes.now) }
{
    match PublicKey::read(bytes) {
        Ok(key) if is_in_profile(key.ots) => Some(key),
        _ => None,
    }
}

/// Whether both signatures are good: that of the bottom key's bytes, and that of the message.
fn verify_both(
    top_key: &PublicKey,
    key_bytes: &[u8],
    top: &[u8],
    bottom_key: &PublicKey,
    message: &[u8],
    bottom: &[u8],
) -> Result<(), HssFault>
    ensures decides { IsOk result ↔ (Verifies top_key.now key_bytes.now top.now
        × Verifies bottom_key.now message.now bottom.now) }
    ensures verdict { result ≡ both (lms.verdict_of top_key.now key_bytes.now top.now)
        (lms.verdict_of bottom_key.now message.now bottom.now) }
{
    match verify_lms(top_key, key_bytes, top) {
        Ok(()) => match verify_lms(bottom_key, message, bottom) {
            Ok(()) => Ok(()),
            Err(fault) => Err(HssFault::Bottom(fault)),
        },
        Err(fault) => Err(HssFault::Top(fault)),
    }
}

/// Whether `signature` is a signature of `message` under the two-level key with this top key.
#[tactic(auto, unfolding(crate::specs::Hss::verdict_of))]
fn verify_under(top_key: &PublicKey, message: &[u8], signature: &[u8]) -> Result<(), HssFault>
    requires in_profile { is_in_profile top_key.now.ots ≡ true }
    ensures decides { IsOk result
        ↔ HssVerifies (record { top = top_key.now }) message.now signature.now }
    ensures verdict { result
        ≡ verdict_of (record { top = top_key.now }) message.now signature.now }
{
    let found = signature.len();
    let key_at = 4 + top_key.signature_length();
    if found < key_at + 56 {
        return Err(HssFault::Length { found });
    }
    let levels = number_at(signature, 0);
    if levels != 1 {
        return Err(HssFault::Levels { found: levels });
    }
    let (top, key_bytes) = (&signature[4..key_at], &signature[key_at..key_at + 56]);
    let Some(bottom) = bottom_key(key_bytes) else {
        return Err(HssFault::KeyType);
    };
    if found != key_at + 56 + bottom.signature_length() {
        return Err(HssFault::Length { found });
    }
    verify_both(
        top_key,
        key_bytes,
        top,
        &bottom,
        message,
        &signature[key_at + 56..],
    )
}

/// Whether `signature` is a signature of `message` under `key` (RFC 8554, section 6.3). It takes no memory.
pub fn verify(key: &HssKey, message: &[u8], signature: &[u8]) -> Result<(), HssFault>
    ensures decides { IsOk result ↔ HssVerifies key.now message.now signature.now }
    ensures verdict { result ≡ verdict_of key.now message.now signature.now }
{
    verify_under(&key.top, message, signature)
}
