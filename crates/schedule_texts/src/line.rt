//! The lines that are read.

use ff_ids::Group;
use records::CertBody;
use sign_keys::Kinds;

/// One line of the text that makes the store of an authority's key, or of the text that moves a key's store to another
/// group.
#[derive(Clone, Copy, Debug, PartialEq, Eq)]
pub enum SecretLine {
    /// `fireflies 1 secret`, or `fireflies 1 migrate`.
    Header,
    /// `group T TIMEOUT PERIOD MISSES TAG`: the tolerance, 1 to 31; the timeout in ticks, 1 to 10,000; the period,
    /// 1 to 1,000; the misses, 1 to 16; and the tag in 16 bytes.
    Group(Group),
    /// `kinds W H`: the width, 1, 2, 4 or 8, and the height, 5, 10 or 15. Or `kinds W H H1`, of a key of two levels:
    /// H1 is the height of its bottom trees, its width is 4 or 8, and its heights are at most 15 together.
    Kinds(Kinds),
    /// `secret HEX`: 32 bytes.
    Secret([u8; 32]),
    /// `end`
    End,
}

/// One line of the text that asks an authority for certificates.
#[derive(Clone, Copy, Debug, PartialEq, Eq)]
pub enum RosterLine {
    /// `fireflies 1 roster`
    Header,
    /// `group T TIMEOUT PERIOD MISSES TAG`, as in the text of a secret.
    Group(Group),
    /// `kinds W H`, as in the text of a secret: the authority's key has one level.
    Kinds(Kinds),
    /// `secret HEX`: the authority's, in 32 bytes.
    Secret([u8; 32]),
    /// `cert M PORT KEY`: a member that none of the lines before names, its port, 1 to 65,535, and its public key in
    /// 56 bytes.
    Cert(CertBody),
    /// `end`
    End,
}
