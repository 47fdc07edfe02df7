//! The digits of a message's hash, with those of its checksum.

ghost use Rattle.std.specs.Prelude.{◌≡◌, ◌*◌, ◌<◌, ◌≤◌, length};
ghost use Rattle.lms_ots.specs.Ots.{checksum, coef, greatest_digit, width, with_checksum};

use crate::kind::OtsKind;
use crate::places::put;

/// Digit `index` of the bytes, the high bits of each byte first.
pub fn digit(kind: OtsKind, bytes: &[u8], index: usize) -> u8
    requires { index * width kind < 8 * length bytes.now }
    ensures value { result ≡ coef bytes.now index (width kind) }
    ensures bound { result ≤ greatest_digit kind }
{
    match kind {
        OtsKind::W1 => 1 & (bytes[index / 8] >> (7 - index % 8)),
        OtsKind::W2 => 3 & (bytes[index / 4] >> (6 - 2 * (index % 4))),
        OtsKind::W4 => 15 & (bytes[index / 2] >> (4 - 4 * (index % 2))),
        OtsKind::W8 => bytes[index],
    }
}

/// The checksum of a hash: how far its digits are below the greatest, shifted to the left.
#[tactic(auto, unfolding(crate::specs::Ots::complement_sum))]
fn checksum(kind: OtsKind, hash: &[u8; 32]) -> u16
    ensures { result ≡ checksum kind hash.now }
{
    let mut sum: u16 = 0;
    for index in 0..256 / usize::from(kind.width()) {
        sum += u16::from(kind.greatest_digit() - digit(kind, hash, index));
    }
    sum << kind.checksum_shift()
}

/// The hash and its checksum.
#[tactic(auto, unfolding(crate::specs::Ots::with_checksum))]
pub fn with_checksum(kind: OtsKind, hash: &[u8; 32]) -> [u8; 34]
    ensures { result ≡ with_checksum kind hash.now }
{
    let mut bytes = [0; 34];
    put(&mut bytes, 0, hash);
    put(&mut bytes, 32, &checksum(kind, hash).to_be_bytes());
    bytes
}
