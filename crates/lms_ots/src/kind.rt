//! The kinds of one-time signatures, and why bytes are not a signature of a kind.

ghost use Rattle.std.specs.Prelude.{◌≡◌, IfSome};
ghost use Rattle.lms_ots.specs.Ots.{kind_of, type_number, width, chain_count, checksum_shift, greatest_digit, signature_length};

/// A parameter set of LM-OTS with SHA-256 and n = 32 (RFC 8554, section 4.1). The digit in the name
/// is the width w, the bits of a digit of the message's hash.
#[derive(Debug, Clone, Copy, PartialEq, Eq)]
pub enum OtsKind {
    /// Type 1: 265 chains of 1 step, signatures of 8516 bytes.
    W1,
    /// Type 2: 133 chains of 3 steps, signatures of 4292 bytes.
    W2,
    /// Type 3: 67 chains of 15 steps, signatures of 2180 bytes.
    W4,
    /// Type 4: 34 chains of 255 steps, signatures of 1124 bytes.
    W8,
}

/// Why bytes are not a one-time signature of a kind: the first of these that holds.
#[derive(Debug, Clone, Copy, PartialEq, Eq)]
pub enum OtsFault {
    /// There are `found` bytes, which is not the kind's signature length.
    WrongLength { found: usize },
    /// The first four bytes are the number `found`, which is not the kind's type.
    WrongType { found: u32 },
}

impl OtsKind {
    /// The kind with this type number, if there is one.
    pub fn from_type(number: u32) -> Option<OtsKind>
        ensures value { result ≡ kind_of number }
        ensures same { IfSome result (λ kind. type_number kind ≡ number) }
    {
        match number {
            1 => Some(OtsKind::W1),
            2 => Some(OtsKind::W2),
            3 => Some(OtsKind::W4),
            4 => Some(OtsKind::W8),
            _ => None,
        }
    }

    /// The type's number in keys and signatures.
    pub fn type_number(self) -> u32
        ensures { result ≡ type_number self }
    {
        match self {
            OtsKind::W1 => 1,
            OtsKind::W2 => 2,
            OtsKind::W4 => 3,
            OtsKind::W8 => 4,
        }
    }

    /// The width w, in bits: how long a digit is.
    pub fn width(self) -> u8
        ensures { result ≡ width self }
    {
        match self {
            OtsKind::W1 => 1,
            OtsKind::W2 => 2,
            OtsKind::W4 => 4,
            OtsKind::W8 => 8,
        }
    }

    /// The number p of chains.
    pub fn chain_count(self) -> u16
        ensures { result ≡ chain_count self }
    {
        match self {
            OtsKind::W1 => 265,
            OtsKind::W2 => 133,
            OtsKind::W4 => 67,
            OtsKind::W8 => 34,
        }
    }

    /// The number ls of bits by which the checksum is shifted to the left.
    pub fn checksum_shift(self) -> u8
        ensures { result ≡ checksum_shift self }
    {
        match self {
            OtsKind::W1 => 7,
            OtsKind::W2 => 6,
            OtsKind::W4 => 4,
            OtsKind::W8 => 0,
        }
    }

    /// The greatest digit, 2^w - 1, which is also the number of steps of a whole chain.
    pub fn greatest_digit(self) -> u8
        ensures { result ≡ greatest_digit self }
    {
        match self {
            OtsKind::W1 => 1,
            OtsKind::W2 => 3,
            OtsKind::W4 => 15,
            OtsKind::W8 => 255,
        }
    }

    /// The length of a one-time signature, in bytes.
    pub fn signature_length(self) -> usize
        ensures { result ≡ signature_length self }
    {
        match self {
            OtsKind::W1 => 8516,
            OtsKind::W2 => 4292,
            OtsKind::W4 => 2180,
            OtsKind::W8 => 1124,
        }
    }
}
