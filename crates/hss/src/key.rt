//! Public keys of two levels, and their bytes.

ghost use Rattle.std.specs.Prelude.{◌≡◌, true, IfOk};
ghost use Rattle.hss.specs.Keys.{is_in_profile};
ghost use Rattle.hss.specs.Hss.{key_bytes, key_in, key_over};

use lms_ots::OtsKind;
use lms_ots::places::{number_at, put};
use lms_tree::{KeyFault, PublicKey};
use std::marker::Model;

/// The public half of a two-level key (RFC 8554, section 6.1): that of its top tree, whose one-time signatures are of W4
/// or W8.
#[derive(Debug, Clone, Copy, PartialEq, Eq)]
pub struct HssKey {
    pub top: PublicKey,
}

impl Model for HssKey {
    ghost use Rattle.std.specs.Prelude.{◌≡◌, true};
    ghost use Rattle.hss.specs.Keys.{TwoLevelKey, is_in_profile};

    ghost Value = { TwoLevelKey };

    ghost view = { λ k. record { top = k.top } };

    ghost invariant = { λ k. is_in_profile k.top.ots ≡ true };

    ghost inverse = { λ v. record { top = v.top } };
}

/// Why bytes are no public key of two levels: the first of these that holds.
#[derive(Debug, Clone, Copy, PartialEq, Eq)]
pub enum HssKeyFault {
    /// There are `found` bytes, and a key has 60.
    Length { found: usize },
    /// The first number, at byte 0, isn't 2.
    Levels { found: u32 },
    /// The second number, at byte 4, is the type of no tree.
    TreeType { found: u32 },
    /// The third number, at byte 8, is the type of neither W4 nor W8.
    OtsType { found: u32 },
}

/// Whether keys of two levels have one-time signatures of this kind: W4 and W8 are taken.
pub fn is_in_profile(kind: OtsKind) -> bool
    ensures { result ≡ is_in_profile kind }
{
    matches!(kind, OtsKind::W4 | OtsKind::W8)
}

/// The two-level key with this top key.
fn key_over(top: Result<PublicKey, KeyFault>) -> Result<HssKey, HssKeyFault>
    ensures { result ≡ key_over top }
{
    match top {
        Ok(top) if is_in_profile(top.ots) => Ok(HssKey { top }),
        Ok(top) => Err(HssKeyFault::OtsType {
            found: top.ots.type_number(),
        }),
        Err(KeyFault::Length { found }) => Err(HssKeyFault::Length { found }),
        Err(KeyFault::TreeType { found }) => Err(HssKeyFault::TreeType { found }),
        Err(KeyFault::OtsType { found }) => Err(HssKeyFault::OtsType { found }),
    }
}

impl HssKey {
    /// The key in 60 bytes.
    #[tactic(auto, unfolding(crate::specs::Hss::key_in))]
    pub fn read(bytes: &[u8]) -> Result<HssKey, HssKeyFault>
        ensures value { result ≡ key_in bytes.now }
        ensures spelled { IfOk result (λ key. bytes.now ≡ key_bytes key) }
        ensures in_profile { IfOk result (λ key. is_in_profile key.top.ots ≡ true) }
    {
        if bytes.len() != 60 {
            return Err(HssKeyFault::Length { found: bytes.len() });
        }
        let found = number_at(bytes, 0);
        if found != 2 {
            return Err(HssKeyFault::Levels { found });
        }
        key_over(PublicKey::read(&bytes[4..60]))
    }

    /// The key's 60 bytes.
    #[tactic(auto, unfolding(crate::specs::Hss::key_bytes))]
    pub fn write(&self) -> [u8; 60]
        ensures bytes { result ≡ key_bytes self.now }
        ensures read_back { key_in result ≡ Ok self.now }
        ensures in_profile { is_in_profile self.now.top.ots ≡ true }
    {
        let mut bytes = [0; 60];
        put(&mut bytes, 0, &2u32.to_be_bytes());
        put(&mut bytes, 4, &self.top.write());
        bytes
    }
}
