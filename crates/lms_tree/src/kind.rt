//! The kinds of trees, and why bytes are no public key or no signature.

ghost use Rattle.std.specs.Prelude.{◌≡◌, IfSome};
ghost use Rattle.lms_tree.specs.Kinds.{type_number, height, leaf_count};
ghost use Rattle.lms_tree.specs.Lms.{tree_of};

/// A parameter set of LMS with SHA-256 and m = 32 (RFC 8554, section 5.1). The number in the name is
/// the height h: the tree has 2^h leaves.
#[derive(Debug, Clone, Copy, PartialEq, Eq)]
pub enum TreeKind {
    /// Type 5: 32 leaves.
    H5,
    /// Type 6: 1024 leaves.
    H10,
    /// Type 7: 32768 leaves.
    H15,
}

/// Why bytes are no public key: the first of these that holds.
#[derive(Debug, Clone, Copy, PartialEq, Eq)]
pub enum KeyFault {
    /// There are `found` bytes, and a key has 56.
    Length { found: usize },
    /// The first number, at byte 0, is the type of no tree.
    TreeType { found: u32 },
    /// The second number, at byte 4, is the type of no one-time signature.
    OtsType { found: u32 },
}

/// Why a signature is not good under a key: the first of these that holds.
#[derive(Debug, Clone, Copy, PartialEq, Eq)]
pub enum SigFault {
    /// There are `found` bytes, which is not the length of the key's kinds.
    Length { found: usize },
    /// The tree's type is not the key's.
    TreeType { found: u32 },
    /// The one-time signature's type is not the key's.
    OtsType { found: u32 },
    /// The key has no leaf of this number.
    Index { q: u32 },
    /// The root that the signature leads to is not the key's.
    Root,
}

impl TreeKind {
    /// The kind with this type number, if there is one.
    pub fn from_type(number: u32) -> Option<TreeKind>
        ensures value { result ≡ tree_of number }
        ensures same { IfSome result (λ tree. type_number tree ≡ number) }
    {
        match number {
            5 => Some(TreeKind::H5),
            6 => Some(TreeKind::H10),
            7 => Some(TreeKind::H15),
            _ => None,
        }
    }

    /// The type's number in keys and signatures.
    pub fn type_number(self) -> u32
        ensures { result ≡ type_number self }
    {
        match self {
            TreeKind::H5 => 5,
            TreeKind::H10 => 6,
            TreeKind::H15 => 7,
        }
    }

    /// The height h of the tree.
    pub fn height(self) -> usize
        ensures { result ≡ height self }
    {
        match self {
            TreeKind::H5 => 5,
            TreeKind::H10 => 10,
            TreeKind::H15 => 15,
        }
    }

    /// The number 2^h of leaves.
    pub fn leaf_count(self) -> u32
        ensures { result ≡ leaf_count self }
    {
        match self {
            TreeKind::H5 => 32,
            TreeKind::H10 => 1024,
            TreeKind::H15 => 32768,
        }
    }
}
