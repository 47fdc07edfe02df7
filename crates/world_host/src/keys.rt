//! The keys of a world, and signatures with them.

ghost use Rattle.std.specs.Prelude.{◌≡◌, ◌==◌, ◌≤◌, IfOk, true};
ghost use Rattle.records.specs.Spelling.{HasPort};
ghost use Rattle.secrets.specs.Secrets.{key_from, world_secret as secret_in_world};
ghost use Rattle.sign_keys.specs.Keys.{IsNew, index_count, public_key, secret_of};
ghost use Rattle.sign_keys.specs.Kinds.{is_in_profile};
ghost use Rattle.world_host.specs.KeySigning.{SignsNext};
ghost use Rattle.world_rules.specs.Keys.{indexes_of};

use ff_ids::Group;
use fields::{Bytes, NoMemory};
use records::{Body, Checked, Key, Record, signed_bytes};
use secrets::{make_key, world_secret};
use sign_keys::{Kinds, SignKey};
use std::alloc::Global;
use std::marker::Model;

/// The number whose secret is the authority's. No member has it.
pub const AUTHORITY: u16 = 65_535;

/// How many indexes a key of these kinds has: one for each leaf, of two levels one for each leaf of each bottom tree.
pub fn index_count_of(kinds: &Kinds) -> u32
    requires { is_in_profile kinds.now ≡ true }
    ensures value { result ≡ indexes_of kinds.now }
    ensures small { result ≤ 32768 }
{
    match kinds.bottom {
        None => kinds.tree.leaf_count(),
        Some(bottom) => kinds.tree.leaf_count() * bottom.leaf_count(),
    }
}

/// The key of this number in the group's world, with no index handed out.
pub fn key_of(alloc: Global, group: &Group, kinds: Kinds, number: u16) -> Result<SignKey, NoMemory>
    requires { is_in_profile kinds ≡ true }
    ensures { IfOk result
        (λ key. IsNew key (key_from kinds (secret_in_world group.now.tag number))) }
{
    let secret = world_secret(&group.tag, number);
    make_key(alloc, kinds, &secret)
}

/// A key that signs, with its indexes that are left. Contracts see the key and the next index.
#[derive(Drop)]
pub struct SigningKey {
    key: SignKey,
}

impl Model for SigningKey {
    ghost use Rattle.std.specs.Prelude.{◌≤◌};
    ghost use Rattle.sign_keys.specs.Keys.{IsOfOneKey, index_count, next_of, secret_of};
    ghost use Rattle.world_host.specs.KeySigning.{KeyState};

    ghost Value = { KeyState };

    ghost view = { λ k. record { key = secret_of k.key; next = next_of k.key } };

    ghost invariant = { λ k. IsOfOneKey k.key × (next_of k.key ≤ index_count (secret_of k.key)) };
}

impl SigningKey {
    /// The key, of which no index was handed out, with all its indexes.
    pub fn of(key: SignKey) -> SigningKey
        requires { IsNew key (secret_of key) }
        ensures { result ≡ record { key = secret_of key; next = 0 } }
    {
        SigningKey { key }
    }

    /// The public half.
    pub fn public(&self) -> Key
        ensures { result ≡ public_key self.now.key }
    {
        self.key.public()
    }

    /// The next index, or the number of all where none is left.
    pub fn next(&self) -> u32
        ensures { result ≡ self.now.next }
    {
        self.key.next()
    }

    /// Whether no index is left.
    pub fn is_used_up(&self) -> bool
        ensures { result ≡ (self.now.next == index_count self.now.key) }
    {
        self.key.next() == self.key.index_count()
    }

    /// Signs the body in the group with the next index; none where no index is left. Where memory is refused, no index is
    /// spent.
    pub fn sign(
        &mut self,
        alloc: Global,
        group: &Group,
        body: Body,
    ) -> Result<Option<Checked>, NoMemory>
        requires { HasPort body }
        ensures { SignsNext group.now self.old self.new body result }
    {
        let mut signature = vec![in alloc; 0; self.key.signature_length()]?;
        if self.key.next() == self.key.index_count() {
            return Ok(None);
        }
        self.key.prepare(alloc)?;
        let signed = signed_bytes(group, &body);
        self.key.sign_next(signed.as_slice(), &mut signature);
        let rec = Record {
            body,
            signature: Bytes::from_vec(signature),
        };
        Ok(Some(Checked::from_signed(group, &self.key.public(), rec)))
    }
}
