//! An observer of one member, and what the member signed.

ghost use Rattle.std.specs.Prelude.{◌≡◌, ◌<◌, IfOk};

use ff_ids::{Epoch, Group, Mask, MemberId, NoteBody};
use lms_ots::OtsKind;
use lms_tree::{PublicKey, SecretKey, TreeKind};
use membership::{Changes, Membership};
use records::{Body, CertBody, Key, signed_bytes};
use ring_order::hash_places;
use std::alloc::Global;
use std::io;
use validate::Roster;

pub const GROUP: Group = Group {
    tag: [1; 16],
    t: 1,
    timeout: 1,
    period: 1,
    misses: 1,
};

/// A note of the one member.
pub fn note(epoch: u8) -> NoteBody {
    NoteBody {
        member: MemberId::new(1),
        epoch: Epoch::new(u64::from(epoch).max(1)),
        mask: Mask(7),
    }
}

/// What the observer keeps, the member's key, and its signature on its note of epoch 2.
#[derive(Drop)]
pub struct Scene {
    pub roster: Roster,
    pub life: Membership,
    pub key: PublicKey,
    pub signature: Vec<u8>,
}

fn failed() -> io::Error {
    io::Error::from(io::ErrorKind::Other)
}

/// The member has joined with its note of epoch 1.
fn life(alloc: Global) -> io::Result<Membership>
    ensures { IfOk result (λ life. life.group ≡ GROUP) }
{
    let Ok(mut life) = Membership::open(alloc, GROUP) else {
        return Err(failed());
    };
    let Ok(mut out) = Changes::new(alloc) else {
        return Err(failed());
    };
    let member = MemberId::new(1);
    let places = hash_places(life.group(), member);
    if life.add_member(member, places).is_err() || life.put_note(note(1), &mut out).is_err() {
        return Err(failed());
    }
    Ok(life)
}

/// The certificate of the one member alone.
fn roster(alloc: Global, key: PublicKey) -> io::Result<Roster> {
    let Ok(mut roster) = Roster::open(alloc) else {
        return Err(failed());
    };
    let cert = CertBody {
        member: MemberId::new(1),
        port: 20_001,
        key: Key::Lms(key),
    };
    if roster.get(cert.member).is_none() {
        roster.put(cert);
    }
    Ok(roster)
}

/// The member's key, and its signature on its note of epoch 2.
#[tactic(auto, unfolding(lms_tree::specs::Lms::public_of))]
fn sign(alloc: Global) -> io::Result<(PublicKey, Vec<u8>)> {
    let Ok(secret) = SecretKey::make(alloc, TreeKind::H5, OtsKind::W8, [7; 16], [9; 32]) else {
        return Err(failed());
    };
    let key = secret.public();
    let mut signature = vec![in alloc; 0u8; key.signature_length()]?;
    let (tree, mut leaves) = secret.split();
    let Some(leaf) = leaves.take() else {
        return Err(failed());
    };
    let signed = signed_bytes(&GROUP, &Body::Note(note(2)));
    tree.sign(leaf, signed.as_slice(), &mut signature);
    Ok((key, signature))
}

impl Scene {
    pub fn open(alloc: Global) -> io::Result<Scene>
        ensures { IfOk result (λ scene. scene.life.group ≡ GROUP) }
    {
        let (key, signature) = sign(alloc)?;
        Ok(Scene {
            roster: roster(alloc, key)?,
            life: life(alloc)?,
            key,
            signature,
        })
    }
}
