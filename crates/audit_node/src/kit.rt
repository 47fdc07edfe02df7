//! What a mirror of a life begins with.

ghost use Rattle.std.specs.Prelude.{◌≡◌, ◌↔◌, All, true};
ghost use Rattle.audit_node.specs.Playing.{IsLength};
ghost use Rattle.records.specs.declared.keys.Key.TheVariants as keys;
ghost use Rattle.audit_node.specs.Begins.{IsCheckedIn, IsGroup, IsKit, IsStored};

use crate::certificates::are_certificates_of;
use epoch_store::Stored;
use ff_ids::{Group, Heal, MAX_TOLERANCE, MemberId};
use lms_tree::PublicKey;
use records::Checked;

/// A group, with the option that nodes which lost each other come together again or without it, a member of it and the
/// authority's key; certificates, the member's own among them, each checked under that key; what the member's store keeps
/// as the life begins, how many indexes its key has, and how many bytes a signature of that key has; and 32
/// bytes from which nonces come, which are those of the node where its nonces come from the same.
#[derive(Drop)]
pub struct Kit {
    pub group: Group,
    pub heal: Option<Heal>,
    pub me: MemberId,
    pub authority: PublicKey,
    pub certificates: Vec<Checked>,
    pub stored: Stored,
    pub indexes: u32,
    pub own_length: u16,
    pub nonce_seed: [u8; 32],
}

/// Whether the numbers are those of a group: t from 1 to `MAX_TOLERANCE`, a timeout of 1 to 10,000 ticks, a period of 1 to 1,000, and
/// 1 to 16 misses.
fn is_group(group: &Group) -> bool
    ensures { (result ≡ true) ↔ IsGroup group.now }
{
    (1..=MAX_TOLERANCE).contains(&group.t)
        && (1..=10_000).contains(&group.timeout)
        && (1..=1_000).contains(&group.period)
        && (1..=16).contains(&group.misses)
}

/// Whether a store may keep this of a key of so many indexes.
fn is_stored(indexes: u32, stored: &Stored) -> bool
    ensures { (result ≡ true) ↔ IsStored indexes stored.now }
{
    stored.epoch <= u64::from(stored.next) && stored.next <= indexes
}

/// Whether a record's signature may have so many bytes.
fn is_length(length: u16) -> bool
    ensures { (result ≡ true) ↔ IsLength length }
{
    (1..=9004).contains(&length)
}

impl Kit {
    /// Whether a life may begin with the kit, whose certificates were each checked in its group under the authority's key:
    /// the numbers are in their ranges, no two certificates are of one member, and the member's own is among them. Own
    /// signatures have as many bytes as a record's may.
    pub fn is_sound(&self) -> bool
        requires { All (IsCheckedIn self.now.group (keys.Lms self.now.authority)) self.now.certificates.items }
        ensures { (result ≡ true) ↔ IsKit self.now }
    {
        is_group(&self.group)
            && are_certificates_of(self.me, &self.certificates)
            && is_stored(self.indexes, &self.stored)
            && is_length(self.own_length)
    }
}
