//! The keys under which records are signed.

ghost use Rattle.std.specs.Prelude.{◌≡◌, ◌↔◌, IsOk};
ghost use Rattle.ff_ids.specs.declared.KeyBytes.TheVariants as stored;
ghost use Rattle.lms_tree.specs.Lms as lms;
ghost use Rattle.hss.specs.Hss as hss;
ghost use Rattle.records.specs.Keys.{HasParts, IsHssKey, IsKey, Verifies, key_in, verdict_of, written};

use ff_ids::KeyBytes;
use hss::{HssFault, HssKey, HssKeyFault, verify as verify_hss};
use lms_tree::{KeyFault as LmsKeyFault, PublicKey, SigFault, verify as verify_lms};

/// A public key under which records are signed.
#[derive(Clone, Copy, Debug, PartialEq, Eq)]
pub enum Key {
    /// A key of one level: 56 bytes (RFC 8554, section 5.3).
    Lms(PublicKey),
    /// A key of two levels: 60 bytes (RFC 8554, section 6.1).
    Hss(HssKey),
}

/// Why bytes are no key.
#[derive(Clone, Copy, Debug, PartialEq, Eq)]
pub enum KeyFault {
    /// The fault of a key of one level.
    Lms(LmsKeyFault),
    /// The fault of 60 bytes, as a key of two levels.
    Hss(HssKeyFault),
}

/// Why a record's signature is not good under a key: the first fault of that key's own check.
#[derive(Clone, Copy, Debug, PartialEq, Eq)]
pub enum RecordFault {
    /// The fault under a key of one level.
    Lms(SigFault),
    /// The fault under a key of two levels.
    Hss(HssFault),
}

/// The bytes of a key of one level.
fn lms_bytes(key: &PublicKey) -> KeyBytes
    ensures bytes { result ≡ stored.Lms (lms.key_bytes key.now) }
    ensures parts { HasParts key.now }
{
    KeyBytes::Lms(key.write())
}

/// The bytes of a key of two levels.
fn hss_bytes(key: &HssKey) -> KeyBytes
    ensures bytes { result ≡ stored.Hss (hss.key_bytes key.now) }
    ensures parts { IsHssKey key.now }
{
    KeyBytes::Hss(key.write())
}

impl Key {
    /// The key in these bytes: of two levels where they are 60, and else of one.
    pub fn read(bytes: &[u8]) -> Result<Key, KeyFault>
        ensures { result ≡ key_in bytes.now }
    {
        if bytes.len() == 60 {
            return match HssKey::read(bytes) {
                Ok(key) => Ok(Key::Hss(key)),
                Err(fault) => Err(KeyFault::Hss(fault)),
            };
        }
        match PublicKey::read(bytes) {
            Ok(key) => Ok(Key::Lms(key)),
            Err(fault) => Err(KeyFault::Lms(fault)),
        }
    }

    /// The key's 56 or 60 bytes.
    pub fn write(&self) -> KeyBytes
        ensures bytes { result ≡ written self.now }
        ensures key { IsKey self.now }
    {
        match self {
            Key::Lms(key) => lms_bytes(key),
            Key::Hss(key) => hss_bytes(key),
        }
    }

    /// Whether `signature` is a signature of `message` under this key. It takes no memory.
    pub fn verify(&self, message: &[u8], signature: &[u8]) -> Result<(), RecordFault>
        ensures decides { IsOk result ↔ Verifies self.now message.now signature.now }
        ensures verdict { result ≡ verdict_of self.now message.now signature.now }
    {
        match self {
            Key::Lms(key) => match verify_lms(key, message, signature) {
                Ok(()) => Ok(()),
                Err(fault) => Err(RecordFault::Lms(fault)),
            },
            Key::Hss(key) => match verify_hss(key, message, signature) {
                Ok(()) => Ok(()),
                Err(fault) => Err(RecordFault::Hss(fault)),
            },
        }
    }
}
