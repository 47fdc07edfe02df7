//! What a record's signature is over.

ghost use Rattle.std.specs.Prelude.{◌≡◌};
ghost use Rattle.records.specs.Spelling.{HasPort, IsBody};
ghost use Rattle.records.specs.Signing.{signed_bytes};

use crate::Body;
use crate::writing::{body_bytes, put};
use arrayvec::ArrayVec;
use ff_ids::Group;
use std::marker::Model;

/// The bytes that a signature is over, at most 88. Contracts see their list.
#[derive(Drop)]
pub struct Signed {
    bytes: ArrayVec<u8, 88>,
}

impl Model for Signed {
    ghost use Rattle.std.specs.Prelude.{ℕ, List};

    ghost Value = { List ℕ };

    ghost view = { λ s. s.bytes.items };
}

impl Signed {
    pub fn as_slice(&self) -> &[u8]
        ensures { result.now ≡ self.now }
    {
        self.bytes.as_slice()
    }
}

/// What a signature over the body is over in the group: `FFSIGN`, the group's tag and its tolerance, and the
/// body's bytes.
#[tactic(auto, unfolding(crate::specs::Signing::signed_bytes))]
pub fn signed_bytes(group: &Group, body: &Body) -> Signed
    ensures value { result ≡ signed_bytes group.now.tag group.now.t body.now }
    // The types keep the numbers within their ranges, but for a port of 0.
    ensures body { HasPort body.now → IsBody body.now }
{
    let mut bytes = ArrayVec::new();
    put(&mut bytes, b"FFSIGN");
    put(&mut bytes, &group.tag);
    bytes.push(group.t);
    put(&mut bytes, body_bytes(body).as_slice());
    Signed { bytes }
}
