//! Public keys, and their bytes.

ghost use Rattle.std.specs.Prelude.{◌≡◌, IfOk};
ghost use Rattle.lms_tree.specs.Kinds.{signature_length};
ghost use Rattle.lms_tree.specs.Lms.{key_bytes, key_in};

use crate::kind::{KeyFault, TreeKind};
use lms_ots::OtsKind;
use lms_ots::places::{number_at, put};

/// The public half of a key (RFC 8554, section 5.3).
#[derive(Debug, Clone, Copy, PartialEq, Eq)]
pub struct PublicKey {
    pub tree: TreeKind,
    pub ots: OtsKind,
    /// The tree's identifier I.
    pub id: [u8; 16],
    /// The root T[1].
    pub root: [u8; 32],
}

impl PublicKey {
    /// The key in 56 bytes.
    #[tactic(auto, unfolding(crate::specs::Lms::key_in))]
    pub fn read(bytes: &[u8]) -> Result<PublicKey, KeyFault>
        ensures value { result ≡ key_in bytes.now }
        ensures spelled { IfOk result (λ key. bytes.now ≡ key_bytes key) }
    {
        if bytes.len() != 56 {
            return Err(KeyFault::Length { found: bytes.len() });
        }
        let found = number_at(bytes, 0);
        let Some(tree) = TreeKind::from_type(found) else {
            return Err(KeyFault::TreeType { found });
        };
        let found = number_at(bytes, 4);
        let Some(ots) = OtsKind::from_type(found) else {
            return Err(KeyFault::OtsType { found });
        };
        let mut id = [0; 16];
        id.copy_from_slice(&bytes[8..24]);
        let mut root = [0; 32];
        root.copy_from_slice(&bytes[24..56]);
        Ok(PublicKey {
            tree,
            ots,
            id,
            root,
        })
    }

    /// The key's 56 bytes.
    #[tactic(auto, unfolding(crate::specs::Lms::key_bytes))]
    pub fn write(&self) -> [u8; 56]
        ensures bytes { result ≡ key_bytes self.now }
        ensures read_back { key_in result ≡ Ok self.now }
    {
        let mut bytes = [0; 56];
        put(&mut bytes, 0, &self.tree.type_number().to_be_bytes());
        put(&mut bytes, 4, &self.ots.type_number().to_be_bytes());
        put(&mut bytes, 8, &self.id);
        put(&mut bytes, 24, &self.root);
        bytes
    }

    /// How many bytes a signature under this key has.
    pub fn signature_length(&self) -> usize
        ensures { result ≡ signature_length self.now.tree self.now.ots }
    {
        8 + self.ots.signature_length() + 32 * self.tree.height()
    }
}
