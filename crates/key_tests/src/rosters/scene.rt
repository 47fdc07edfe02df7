//! Members 1, 2 and 3 before an observer.

ghost use Rattle.std.specs.Prelude.{◌≡◌, ◌<◌, IfOk};
ghost use Rattle.records.specs.Spelling.{HasPort};

use super::signatures::{KEY_OF_1, KEY_OF_2, KEY_OF_3};
use ff_ids::{Epoch, Fault, Group, Mask, MemberId, NoteBody};
use fields::Bytes;
use lms_tree::PublicKey;
use membership::{Changes, Membership};
use records::{Body, CertBody, Key, Record};
use ring_order::hash_places;
use std::alloc::Global;
use std::test::Fail;
use validate::{Roster, check};

/// What the observer keeps.
#[derive(Drop)]
pub struct Scene {
    roster: Roster,
    life: Membership,
}

pub fn group() -> Group
    ensures { result.t ≡ 1 }
{
    Group {
        tag: [0; 16],
        t: 1,
        timeout: 1,
        period: 1,
        misses: 1,
    }
}

pub fn certificate(member: u8, port: u16, key: &PublicKey) -> CertBody
    requires { 0 < port }
    ensures { 0 < result.port }
{
    CertBody {
        member: MemberId::new(member as u16),
        port,
        key: Key::Lms(*key),
    }
}

/// A note; its epoch is one more than `before`.
pub fn note(member: u8, before: u8, mask: u64) -> NoteBody {
    NoteBody {
        member: MemberId::new(member as u16),
        epoch: Epoch::new(before as u64 + 1),
        mask: Mask(mask),
    }
}

pub fn record(alloc: Global, body: Body, signature: &[u8]) -> Result<Record, Fail>
    requires { HasPort body }
    ensures { IfOk result (λ r. HasPort r.body) }
{
    let signature = Bytes::from_vec(Vec::from_slice(alloc, signature)?);
    Ok(Record { body, signature })
}

/// Keeps the certificate, if its number has none, and lets its member join.
fn admit(roster: &mut Roster, life: &mut Membership, cert: CertBody) -> Result<(), Fault>
    requires { life.old.group.t ≡ 1 }
    ensures { life.new.group.t ≡ 1 }
{
    let member = cert.member;
    if roster.get(member).is_some() {
        return Err(Fault::Known);
    }
    roster.put(cert);
    let places = hash_places(life.group(), member);
    life.add_member(member, places)
}

impl Scene {
    /// The three have joined, with notes of epoch 1 and the rings 0 to 2.
    pub fn open(alloc: Global) -> Result<Scene, Fail> {
        let mut out = Changes::new(alloc)?;
        let mut roster = Roster::open(alloc)?;
        let mut life = Membership::open(alloc, group())?;
        let joins = admit(&mut roster, &mut life, certificate(1, 20001, &KEY_OF_1))
            .and(admit(&mut roster, &mut life, certificate(2, 20002, &KEY_OF_2)))
            .and(admit(&mut roster, &mut life, certificate(3, 20003, &KEY_OF_3)));
        let notes = life
            .put_note(note(1, 0, 7), &mut out)
            .and(life.put_note(note(2, 0, 7), &mut out))
            .and(life.put_note(note(3, 0, 7), &mut out));
        joins.and(notes)?;
        Ok(Scene { roster, life })
    }

    /// The record's first fault, where 3 observes and the authority's key is that of 1.
    pub fn fault(&self, rec: Record) -> Option<Fault>
        requires { HasPort rec.body }
    {
        let own = MemberId::new(3);
        let (roster, life) = (&self.roster, &self.life);
        check(life.group(), &KEY_OF_1, roster, life, own, rec).err()
    }
}
