//! The numbers of a workload, and its group.

ghost use Rattle.std.specs.Prelude.{◌≡◌, ◌++◌, take};
ghost use Rattle.std.specs.Int.{w64, to_be_bytes};
ghost use Rattle.sha2.specs.Sha256.{sha256};
ghost use Rattle.soak_lines.specs.Workload.{drawing_seed, group_of, plan_of, tag_of};

use ff_ids::Group;
use sha2::{Digest, Sha256};

/// The numbers of a workload. Members have the numbers from 0 on, the liars the last ones.
#[derive(Clone, Copy, Debug, PartialEq, Eq)]
pub(crate) struct Plan {
    /// The tag of the group.
    pub(crate) tag: [u8; 16],
    /// How many nodes there are.
    pub(crate) correct: u16,
    /// How many members there are.
    pub(crate) members: u16,
    /// How many rounds there are.
    pub(crate) rounds: u16,
}

/// The SHA-256 of the label and the seed in eight bytes, the highest first.
fn hash_of(label: &[u8], seed: u64) -> [u8; 32]
    ensures { result ≡ sha256 (label.now ++ to_be_bytes w64 seed) }
{
    let mut hasher = Sha256::new();
    hasher.update(label);
    hasher.update(&seed.to_be_bytes());
    hasher.finalize()
}

fn first_half(bytes: &[u8; 32]) -> [u8; 16]
    ensures { result ≡ take 16 bytes.now }
{
    let mut half = [0; 16];
    half.copy_from_slice(&bytes[..16]);
    half
}

fn tag_of(seed: u64) -> [u8; 16]
    ensures { result ≡ tag_of seed }
{
    first_half(&hash_of(b"FFSOAK", seed))
}

/// The seed of the draws.
pub(crate) fn drawing_seed(seed: u64) -> [u8; 32]
    ensures { result ≡ drawing_seed seed }
{
    hash_of(b"FFDRAW", seed)
}

impl Plan {
    /// The plan of a workload of so many members, of which one in ten is a liar, and so many rounds.
    pub(crate) fn of(seed: u64, members: u16, rounds: u16) -> Plan
        ensures { result ≡ plan_of seed members rounds }
    {
        Plan {
            tag: tag_of(seed),
            correct: members - members / 10,
            members,
            rounds,
        }
    }

    pub(crate) fn group(&self) -> Group
        ensures { result ≡ group_of self.now }
    {
        Group {
            tag: self.tag,
            t: 2,
            timeout: 40,
            period: 1,
            misses: 3,
        }
    }
}
