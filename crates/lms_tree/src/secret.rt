//! The secret half of a key.

use crate::kind::TreeKind;
use lms_ots::OtsKind;

/// All that determines a key: its kinds, its identifier and the seed of its one-time secrets.
#[derive(Clone, Copy)]
pub struct Secret {
    pub tree: TreeKind,
    pub ots: OtsKind,
    pub id: [u8; 16],
    pub seed: [u8; 32],
}
