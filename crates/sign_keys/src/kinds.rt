//! The kinds of keys.

ghost use Rattle.std.specs.Prelude.{◌≡◌};
ghost use Rattle.sign_keys.specs.Kinds.{is_in_profile};

use hss::is_in_profile as is_in_pairs;
use lms_ots::OtsKind;
use lms_tree::TreeKind;

/// The kinds of a key that signs: of its one-time signatures, of its tree, and of the bottom trees where it has two levels.
#[derive(Clone, Copy, Debug, PartialEq, Eq)]
pub struct Kinds {
    pub ots: OtsKind,
    /// Of a key of two levels, the top tree.
    pub tree: TreeKind,
    /// Of a key of two levels, each bottom tree.
    pub bottom: Option<TreeKind>,
}

impl Kinds {
    /// Whether there are keys of these kinds: of two levels, those of W4 or W8 whose heights are at most 15 together.
    pub fn is_in_profile(&self) -> bool
        ensures { result ≡ is_in_profile self.now }
    {
        match self.bottom {
            None => true,
            Some(bottom) => is_in_pairs(self.ots) && self.tree.height() + bottom.height() <= 15,
        }
    }
}
