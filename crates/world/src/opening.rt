//! How a world begins: keys are made, the authority certifies all members in order of number, and each node has a new store.

ghost use Rattle.std.specs.Prelude.{◌≡◌, ◌<◌, ◌≤◌, ◌+◌, ◌++◌, [], IfOk, None, OnOk, Option, length, true};
ghost use Rattle.ff_ids.specs.declared.TheConstants.{MAX_TOLERANCE};
ghost use Rattle.lms_tree.specs.Kinds.{height};
ghost use Rattle.lms_tree.specs.declared.TreeKind.{TreeKind as Tree};
ghost use Rattle.node_core.specs.Begins.{IsGroup};
ghost use Rattle.records.specs.declared.Body.TheVariants as bodies;
ghost use Rattle.records.specs.declared.keys.Key.TheVariants as keys;
ghost use Rattle.sign_keys.specs.Keys.{index_count, public_key};
ghost use Rattle.sign_keys.specs.Kinds.{fits, is_in_profile};
ghost use Rattle.signer.specs.Signing.{signed_by};
ghost use Rattle.world_rules.specs.Settings.{Setting};
ghost use Rattle.world_rules.specs.Keys.{owner_key, setting_for};
ghost use Rattle.world_rules.specs.Worlds.{begun_world};
ghost use Rattle.world.specs.Holding.{Holds};
ghost use Rattle.world.specs.Opening.{AddsLiar, AddsNode, Builds, HasLeafFor, IsApart, kinds_with, with_certificate};

use crate::World;
use crate::counts::Counts;
use crate::forgery::Tested;
use crate::liar::Liar;
use ff_ids::{Group, Heal, MEMBERS, MemberId};
use fields::NoMemory;
use indexmap::IndexMap;
use lms_ots::OtsKind;
use lms_tree::{PublicKey, TreeKind};
use node_core::Outbox;
use records::{Body, CertBody, Checked, Key};
use sign_keys::Kinds;
use std::alloc::Global;
use world_host::{AUTHORITY, Authority, Host, SigningKey, key_of};

/// The member's certificate with this key, whose port is 20,000 and the member's number, by the authority's key, which has a
/// leaf left.
fn certify(
    alloc: Global,
    group: &Group,
    authority: &mut SigningKey,
    member: MemberId,
    key: Key,
) -> Result<Checked, NoMemory>
    requires { authority.old.next < index_count authority.old.key }
    ensures signed { IfOk result
        (λ c. c ≡ signed_by group.now authority.old.key authority.old.next
        (bodies.Certificate (record { member = member; port = 20000 + member; key = key }))) }
    ensures next { OnOk result
        (authority.new ≡ record authority.old { next = authority.old.next + 1 }) }
{
    let body = Body::Certificate(CertBody {
        member,
        port: 20_000 + member.get(),
        key,
    });
    match authority.sign(alloc, group, body)? {
        Some(checked) => Ok(checked),
        None => unreachable!(),
    }
}

/// The authority's key, which has one level, with all its leaves; and its public half.
fn authority_key(
    alloc: Global,
    group: &Group,
    ots: OtsKind,
    tree: TreeKind,
) -> Result<(SigningKey, PublicKey), NoMemory>
    ensures key { IfOk result
        (λ made. (bottom : Option Tree) → made.0
        ≡ record { key = owner_key group.now (kinds_with ots tree bottom) None; next = 0 }) }
    ensures public { IfOk result (λ made. keys.Lms made.1 ≡ public_key made.0.key) }
{
    let kinds = Kinds {
        ots,
        tree,
        bottom: None,
    };
    let signing = SigningKey::of(key_of(alloc, group, kinds, AUTHORITY)?);
    match signing.public() {
        Key::Lms(public) => Ok((signing, public)),
        Key::Hss(_) => unreachable!(),
    }
}

impl World {
    /// The world of these nodes and liars, with keys of these kinds: what the line `begin` makes. Where `bottom` is given, the
    /// members' keys have two levels, with such bottom trees below one of `tree`, and there are keys of these kinds; the
    /// authority's has one. Where `heal` is given, nodes that lost each other come together again. There is a node; the
    /// numbers of both lists are distinct, and at most 32 in all; and `tree` has 5 or 10 levels.
    pub fn open(
        alloc: Global,
        group: Group,
        ots: OtsKind,
        tree: TreeKind,
        nodes: &[MemberId],
        liars: &[MemberId],
        bottom: Option<TreeKind>,
        heal: Option<Heal>,
    ) -> Result<World, NoMemory>
        requires group { IsGroup group }
        requires some { 0 < length nodes.now }
        requires few { length nodes.now + length liars.now ≤ 32 }
        requires kinds { height tree ≤ 10 }
        requires profile { fits ots tree bottom ≡ true }
        requires apart { IsApart nodes.now liars.now }
        ensures { IfOk result
            (λ world. let s = setting_for group (kinds_with ots tree bottom) heal nodes.now liars.now
            in Holds s (begun_world s) [] world) }
    {
        let kinds = Kinds { ots, tree, bottom };
        let (mut signing, public) = authority_key(alloc, &group, ots, tree)?;
        let mut world = World {
            alloc,
            authority: Authority::new(alloc, group, heal, public),
            hosts: Vec::new(alloc),
            liars: Vec::new(alloc),
            sent: Outbox::new(alloc),
            flowed: 0,
            named: IndexMap::new(alloc),
            tested: Tested::new(alloc),
            counts: Counts::new(),
        };
        for number in 0..MEMBERS {
            let member = MemberId::new(number);
            world.add_listed(kinds, member, nodes, liars, &mut signing)?;
        }
        Ok(world)
    }

    fn add_certificate(
        &mut self,
        member: MemberId,
        key: Key,
        signing: &mut SigningKey,
    ) -> Result<(), NoMemory>
        requires key { keys.Lms self.old.authority.key ≡ public_key signing.old.key }
        requires left { signing.old.next < index_count signing.old.key }
        ensures ok { OnOk result (self.new ≡ with_certificate self.old signing.old member key) }
        ensures next { OnOk result
            (signing.new ≡ record signing.old { next = signing.old.next + 1 }) }
    {
        let group = *self.authority.group();
        let checked = certify(self.alloc, &group, signing, member, key)?;
        self.authority.keep(checked)
    }

    fn add_node(
        &mut self,
        kinds: Kinds,
        member: MemberId,
        signing: &mut SigningKey,
    ) -> Result<(), NoMemory>
        requires profile { is_in_profile kinds ≡ true }
        requires key { keys.Lms self.old.authority.key ≡ public_key signing.old.key }
        requires left { signing.old.next < index_count signing.old.key }
        requires few { self.old.authority.group.t ≤ MAX_TOLERANCE }
        ensures ok { OnOk result
            (AddsNode self.old self.new signing.old kinds member) }
        ensures next { OnOk result
            (signing.new ≡ record signing.old { next = signing.old.next + 1 }) }
    {
        let host = Host::open(self.alloc, self.authority.group(), kinds, member)?;
        let public = *host.public();
        self.add_certificate(member, public, signing)?;
        self.hosts.push(host)?;
        Ok(())
    }

    fn add_liar(
        &mut self,
        kinds: Kinds,
        member: MemberId,
        signing: &mut SigningKey,
    ) -> Result<(), NoMemory>
        requires profile { is_in_profile kinds ≡ true }
        requires key { keys.Lms self.old.authority.key ≡ public_key signing.old.key }
        requires left { signing.old.next < index_count signing.old.key }
        ensures ok { OnOk result
            (AddsLiar self.old self.new signing.old kinds member) }
        ensures next { OnOk result
            (signing.new ≡ record signing.old { next = signing.old.next + 1 }) }
    {
        let key = key_of(self.alloc, self.authority.group(), kinds, member.get())?;
        let public = key.public();
        self.add_certificate(member, public, signing)?;
        self.liars.push(Liar::open(self.alloc, member, key))?;
        Ok(())
    }

    /// Adds the member, if it is listed.
    fn add_listed(
        &mut self,
        kinds: Kinds,
        member: MemberId,
        nodes: &[MemberId],
        liars: &[MemberId],
        signing: &mut SigningKey,
    ) -> Result<(), NoMemory>
        requires profile { is_in_profile kinds ≡ true }
        requires key { keys.Lms self.old.authority.key ≡ public_key signing.old.key }
        requires left { HasLeafFor (nodes.now ++ liars.now) signing.old member }
        requires few { self.old.authority.group.t ≤ MAX_TOLERANCE }
        ensures builds { (s : Setting)
            → s ≡ setting_for self.old.authority.group kinds self.old.authority.heal
            nodes.now liars.now
            → IsApart nodes.now liars.now
            → Builds s kinds member signing.old self.old
            → OnOk result (Builds s kinds (member + 1) signing.new self.new) }
        ensures key { OnOk result
            (keys.Lms self.new.authority.key ≡ public_key signing.new.key) }
        ensures group { OnOk result (self.new.authority.group ≡ self.old.authority.group) }
        ensures heal { OnOk result (self.new.authority.heal ≡ self.old.authority.heal) }
    {
        if nodes.contains(&member) {
            return self.add_node(kinds, member, signing);
        }
        if liars.contains(&member) {
            return self.add_liar(kinds, member, signing);
        }
        Ok(())
    }
}
