//! The authority of a world, which certifies all its members as the world begins.

ghost use Rattle.std.specs.Prelude.{◌≡◌, ◌++◌, ◌∷◌, [], All, map, IfOk, OnErr, OnOk};
ghost use Rattle.node_core.specs.Begins.{IsCheckedIn, IsKit};
ghost use Rattle.records.specs.Signing.{IsChecked};
ghost use Rattle.records.specs.declared.keys.Key.{Key as PublicHalf};
ghost use Rattle.records.specs.declared.keys.Key.TheVariants as keys;
ghost use Rattle.secrets.specs.Secrets.{nonce_seed as seed_of_life, world_secret as secret_in_world};
ghost use Rattle.sign_keys.specs.declared.kinds.Kinds.{Kinds};
ghost use Rattle.world_host.specs.Bodies.{is_among as is_one_of};
ghost use Rattle.world_host.specs.Holding.{IsPlaceOf};

use crate::bodies::is_same;
use ff_ids::{Group, Heal, MemberId};
use fields::{Bytes, NoMemory};
use lms_tree::PublicKey;
use node_core::Kit;
use records::{Body, Checked, Key, Record};
use secrets::{nonce_seed, world_secret};
use std::alloc::Global;
use std::marker::Model;

/// The group, whether nodes that lost each other come together again, the authority's key, and the certificates that
/// it has signed, in order of number. Contracts see these.
#[derive(Drop)]
pub struct Authority {
    group: Group,
    heal: Option<Heal>,
    key: PublicKey,
    certificates: Vec<Checked>,
}

impl Model for Authority {
    ghost use Rattle.std.specs.Prelude.{All};
    ghost use Rattle.node_core.specs.Begins.{IsCheckedIn};
    ghost use Rattle.records.specs.Signing.{IsChecked};
    ghost use Rattle.records.specs.declared.keys.Key.TheVariants as keys;
    ghost use Rattle.world_host.specs.Certifying.{Certifying};

    ghost Value = { Certifying };

    ghost view = { λ a. record
        { group = a.group; heal = a.heal; key = a.key; certificates = a.certificates.items } };

    ghost invariant = { λ a. All (IsCheckedIn a.group (keys.Lms a.key)) a.certificates.items
        × All IsChecked a.certificates.items };
}

/// A copy of the certificate.
fn copy_of(alloc: Global, group: &Group, key: &Key, checked: &Checked) -> Result<Checked, NoMemory>
    requires { IsCheckedIn group.now key.now checked.now }
    ensures { IfOk result (λ copy. copy ≡ checked.now) }
{
    let rec = checked.rec();
    let copy = Record {
        body: rec.body,
        signature: Bytes::from_vec(rec.signature.as_slice().to_vec(alloc)?),
    };
    Ok(Checked::from_signed(group, key, copy))
}

/// Copies of the certificates.
fn copies_of(
    alloc: Global,
    group: &Group,
    key: &Key,
    certificates: &[Checked],
) -> Result<Vec<Checked>, NoMemory>
    requires { All (IsCheckedIn group.now key.now) certificates.now }
    ensures { IfOk result (λ copies. copies.items ≡ certificates.now) }
{
    let mut copies = Vec::new(alloc);
    for checked in certificates {
        copies.push(copy_of(alloc, group, key, checked)?)?;
    }
    Ok(copies)
}

impl Authority {
    /// Nobody is certified yet.
    pub fn new(alloc: Global, group: Group, heal: Option<Heal>, key: PublicKey) -> Authority
        ensures { result ≡ record { group = group; heal = heal; key = key; certificates = [] } }
    {
        Authority {
            group,
            heal,
            key,
            certificates: Vec::new(alloc),
        }
    }

    /// Keeps one more certificate. Where memory is refused, those that were kept are kept still.
    pub fn keep(&mut self, checked: Checked) -> Result<(), NoMemory>
        requires { IsCheckedIn self.old.group (keys.Lms self.old.key) checked }
        ensures kept { OnOk result
            (self.new
            ≡ record self.old { certificates = self.old.certificates ++ checked ∷ [] }) }
        ensures same { OnErr result (self.new ≡ self.old) }
    {
        self.certificates.push(checked)?;
        Ok(())
    }

    pub fn group(&self) -> &Group
        ensures { result.now ≡ self.now.group }
    {
        &self.group
    }

    pub fn key(&self) -> &PublicKey
        ensures { result.now ≡ self.now.key }
    {
        &self.key
    }

    /// Whether it has signed the body.
    pub fn has_signed(&self, body: &Body) -> bool
        ensures { result ≡ is_one_of (map (λ x. x.rec.body) self.now.certificates) body.now }
    {
        self.certificates
            .iter()
            .any(|checked| is_same(&checked.rec().body, body))
    }

    /// What a life of the member begins with, its store's next index being `next`.
    pub fn kit(&self, alloc: Global, me: MemberId, next: u32) -> Result<Kit, NoMemory>
        ensures group { IfOk result (λ kit. kit.group ≡ self.now.group) }
        ensures me { IfOk result (λ kit. kit.me ≡ me) }
        ensures authority { IfOk result (λ kit. kit.authority ≡ self.now.key) }
        ensures certificates { IfOk result (λ kit. kit.certificates.items ≡ self.now.certificates) }
        ensures heal { IfOk result (λ kit. kit.heal ≡ self.now.heal) }
        ensures checked { IfOk result
            (λ kit. All (IsCheckedIn kit.group (keys.Lms kit.authority)) kit.certificates.items) }
        ensures verify { IfOk result (λ kit. All IsChecked kit.certificates.items) }
        ensures seed { IfOk result
            (λ kit. kit.nonce_seed
            ≡ seed_of_life (secret_in_world self.now.group.tag me) next) }
        ensures sound { (kinds : Kinds) (own : PublicHalf) → IsPlaceOf self.now kinds me own
            → IfOk result (λ kit. IsKit kit own) }
    {
        let secret = world_secret(&self.group.tag, me.get());
        let certificates = copies_of(alloc, &self.group, &Key::Lms(self.key), &self.certificates)?;
        Ok(Kit {
            group: self.group,
            me,
            authority: self.key,
            certificates,
            nonce_seed: nonce_seed(&secret, next),
            heal: self.heal,
        })
    }
}
