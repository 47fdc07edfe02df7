//! Places that a group's tag and a member's number determine.

ghost use Rattle.std.specs.Prelude.{◌≡◌, ◌≤◌, length};
ghost use Rattle.ff_ids.specs.declared.TheConstants.{MAX_TOLERANCE};
ghost use Rattle.ff_ids.specs.Masks.{ring_count};
ghost use Rattle.ring_order.specs.Hashed.{hashed_place, hashed_places};

use crate::Places;
use ff_ids::{Group, MemberId, RingNo};
use sha2::{Digest, Sha256};

/// The member's place on the ring.
#[tactic(auto, unfolding(crate::specs::Hashed::hashed_place))]
fn hash_place(group: &Group, ring: RingNo, member: MemberId) -> [u8; 32]
    ensures { result ≡ hashed_place group.now.tag ring.0 member }
{
    let mut hasher = Sha256::new();
    hasher.update(b"FFRING");
    hasher.update(&group.tag);
    hasher.update(&[ring.0]);
    hasher.update(&member.get().to_be_bytes());
    hasher.finalize()
}

/// The member's places in a group whose records are signed. On each ring it is the SHA-256 of `FFRING`, the
/// group's tag, the ring in one byte and the member in two, the high one first.
pub fn hash_places(group: &Group, member: MemberId) -> Places
    requires { group.now.t ≤ MAX_TOLERANCE }
    ensures places { result ≡ hashed_places group.now.tag group.now.t member }
    ensures rings { length result ≡ ring_count group.now.t }
{
    let mut all = Places::new();
    for ring in 0..2 * group.t + 1 {
        all.push(hash_place(group, RingNo(ring), member));
    }
    all
}
