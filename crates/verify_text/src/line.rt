//! The lines that are read.

use fields::Bytes;
use records::Key;

/// One line of the text.
#[derive(Debug, Drop)]
pub enum VerifyLine {
    /// `fireflies 1 verify`
    Header,
    /// `key HEX`: a public key in 56 bytes, or one of two levels in 60.
    Key(Key),
    /// `message HEX`: 0 to 16,384 bytes.
    Message(Bytes),
    /// `signature HEX`: 0 to 10,000 bytes.
    Signature(Bytes),
    /// `end`
    End,
}

/// The first words of the lines below the header.
#[derive(Clone, Copy, Debug, PartialEq, Eq)]
pub enum LineWord {
    Key,
    Message,
    Signature,
    End,
}
