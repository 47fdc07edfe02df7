//! An observer, number 3, of five members in a group of tolerance 1.
//!
//! | member | newest note | in the view |
//! |---|---|---|
//! | 1 | epoch 1, mask 7 | yes; accused by 2 on ring 1 |
//! | 2 | epoch 2, mask 6 | yes |
//! | 3 | epoch 1, mask 7 | yes |
//! | 4 | none | no |
//! | 5 | epoch 1, mask 6 | no, since an accusation expired |
//!
//! By the hashes that place the members the monitors are, on rings 0, 1 and 2: of 1 these are 3, 2 and 3; of 2 they are
//! 1, 3 and 1; of 4 and 5 they are 3, 3 and 1.

ghost use Rattle.std.specs.Prelude.{◌≡◌, ◌<◌, IfOk};
ghost use Rattle.records.specs.Spelling.{HasPort};

use super::keys::{AUTHORITY, Key};
use ff_ids::{AccBody, Epoch, Fault, Group, Mask, MemberId, NoteBody, RingNo};
use fields::Bytes;
use lms_tree::PublicKey;
use membership::{Changes, Membership};
use records::{Body, CertBody, Record, signed_bytes};
use ring_order::hash_places;
use std::alloc::Global;
use std::test::Fail;
use validate::{Roster, check};

pub const TAG: [u8; 16] = [0; 16];

const GROUP: Group = Group {
    tag: TAG,
    t: 1,
    timeout: 1,
    period: 1,
    misses: 1,
};

pub fn member(number: u8) -> MemberId {
    MemberId::new(number as u16)
}

/// A note; epoch 0 stands for 1.
pub fn note(of: u8, epoch: u8, mask: u64) -> NoteBody {
    NoteBody {
        member: member(of),
        epoch: Epoch::new(u64::from(epoch).max(1)),
        mask: Mask(mask),
    }
}

/// An accusation; epoch 0 stands for 1.
pub fn accusation(accuser: u8, accused: u8, epoch: u8, ring: u8) -> AccBody {
    AccBody {
        accuser: member(accuser),
        accused: member(accused),
        epoch: Epoch::new(u64::from(epoch).max(1)),
        ring: RingNo(ring),
    }
}

/// A certificate; port 0 stands for 1.
pub fn certificate(of: u8, port: u16, key: PublicKey) -> CertBody
    ensures { 0 < result.port }
{
    CertBody {
        member: member(of),
        port: port.max(1),
        key: records::Key::Lms(key),
    }
}

/// What the observer keeps, and the keys: the authority's, then those of 1 to 6.
#[derive(Drop)]
pub struct Scene {
    roster: Roster,
    life: Membership,
    keys: Vec<Key>,
}

fn add_key(alloc: Global, keys: &mut Vec<Key>, number: u16) -> Result<(), Fail> {
    let key = Key::of(alloc, &TAG, number)?;
    keys.push(key)?;
    Ok(())
}

fn add_keys(alloc: Global, keys: &mut Vec<Key>) -> Result<(), Fail> {
    for number in [AUTHORITY, 1, 2, 3, 4, 5, 6] {
        add_key(alloc, keys, number)?;
    }
    Ok(())
}

/// The authority's key, and those of 1 to 6.
fn make_keys(alloc: Global) -> Result<Vec<Key>, Fail> {
    let mut keys = Vec::new(alloc);
    add_keys(alloc, &mut keys)?;
    Ok(keys)
}

/// The public half of the key at this place.
fn public_at(keys: &[Key], place: u8) -> Result<PublicKey, Fail> {
    match keys.get(place as usize) {
        Some(key) => Ok(key.public()),
        None => Err("no such key".into()),
    }
}

/// Keeps the certificate, if its number has none.
fn keep(roster: &mut Roster, cert: CertBody) {
    if roster.get(cert.member).is_none() {
        roster.put(cert);
    }
}

/// The public halves of the keys of 1 to 5.
fn public_keys(keys: &[Key]) -> Result<[PublicKey; 5], Fail> {
    Ok([
        public_at(keys, 1)?,
        public_at(keys, 2)?,
        public_at(keys, 3)?,
        public_at(keys, 4)?,
        public_at(keys, 5)?,
    ])
}

/// The certificates of 1 to 5, with these keys.
fn roster_of(alloc: Global, keys: &[Key]) -> Result<Roster, Fail> {
    let keys = public_keys(keys)?;
    let mut roster = Roster::open(alloc)?;
    keep(&mut roster, certificate(1, 20_001, keys[0]));
    keep(&mut roster, certificate(2, 20_002, keys[1]));
    keep(&mut roster, certificate(3, 20_003, keys[2]));
    keep(&mut roster, certificate(4, 20_004, keys[3]));
    keep(&mut roster, certificate(5, 20_005, keys[4]));
    Ok(roster)
}

/// Members 1 to 5 have joined.
fn joined(alloc: Global) -> Result<Membership, Fail>
    ensures group { IfOk result (λ life. life.group ≡ GROUP) }
    ensures moment { IfOk result (λ life. life.moment ≡ 0) }
{
    let mut life = Membership::open(alloc, GROUP)?;
    life.add_member(member(1), hash_places(&GROUP, member(1)))
        .and(life.add_member(member(2), hash_places(&GROUP, member(2))))
        .and(life.add_member(member(3), hash_places(&GROUP, member(3))))
        .and(life.add_member(member(4), hash_places(&GROUP, member(4))))
        .and(life.add_member(member(5), hash_places(&GROUP, member(5))))?;
    Ok(life)
}

/// The notes; the accusation of 5, which expires; and the one of 1, which stands.
fn with_notes(alloc: Global, mut life: Membership) -> Result<Membership, Fail>
    requires { life.moment ≡ 0 }
    ensures { IfOk result (λ later. later.group ≡ life.group) }
{
    let mut out = Changes::new(alloc)?;
    let before = life
        .put_note(note(1, 1, 7), &mut out)
        .and(life.put_note(note(2, 2, 6), &mut out))
        .and(life.put_note(note(3, 1, 7), &mut out))
        .and(life.put_note(note(5, 1, 6), &mut out))
        .and(life.put_accusation(accusation(3, 5, 1, 1)));
    life.tick(&mut out);
    before.and(life.put_accusation(accusation(2, 1, 1, 1)))?;
    Ok(life)
}

impl Scene {
    pub fn open(alloc: Global) -> Result<Scene, Fail> {
        let keys = make_keys(alloc)?;
        let roster = roster_of(alloc, &keys)?;
        let life = with_notes(alloc, joined(alloc)?)?;
        Ok(Scene { roster, life, keys })
    }

    /// The public half of the key at this place.
    pub fn key(&self, place: u8) -> Result<PublicKey, Fail> {
        public_at(&self.keys, place)
    }

    /// The body, signed by the key at this place.
    pub fn sign(&mut self, alloc: Global, by: u8, body: Body) -> Result<Record, Fail>
        requires { HasPort body }
        ensures { IfOk result (λ r. r.body ≡ body) }
    {
        let signed = signed_bytes(&GROUP, &body);
        let Some(key) = self.keys.get_mut(by as usize) else {
            return Err("no such key".into());
        };
        let signature = Bytes::from_vec(key.sign(alloc, signed.as_slice())?);
        Ok(Record { body, signature })
    }

    /// The record's first fault. Where it has none, it is given out as checked under the key at this place.
    pub fn fault(&self, rec: Record, by: u8) -> Result<Option<Fault>, Fail>
        requires { HasPort rec.body }
    {
        let authority = public_at(&self.keys, 0)?;
        let body = rec.body;
        match check(
            self.life.group(),
            &authority,
            &self.roster,
            &self.life,
            member(3),
            rec,
        ) {
            Err(fault) => Ok(Some(fault)),
            Ok(checked)
                if checked.rec().body == body
                    && *checked.key() == records::Key::Lms(self.key(by)?) => { Ok(None) }
            Ok(_) => Err("checked is another record, or under another key".into()),
        }
    }
}
