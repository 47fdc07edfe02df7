//! Bodies that a key has signed.

ghost use Rattle.std.specs.Prelude.{◌≡◌, max, filter_map};
ghost use Rattle.world_rules.specs.Refusals.{epoch_of_note as epoch_in, greatest};
ghost use Rattle.world_rules.specs.Settings.{same_body};
ghost use Rattle.world_host.specs.Bodies.{is_among as is_one_of, later_of};

use ff_ids::{AccBody, Epoch, MemberId, NoteBody};
use records::{Body, CertBody};

fn is_same_certificate(one: &CertBody, other: &CertBody) -> bool
    ensures { result ≡ same_body (Body.Certificate one.now) (Body.Certificate other.now) }
{
    one.member == other.member
        && one.port == other.port
        && one.key.write().as_slice() == other.key.write().as_slice()
}

fn is_same_note(one: &NoteBody, other: &NoteBody) -> bool
    ensures { result ≡ same_body (Body.Note one.now) (Body.Note other.now) }
{
    one.member == other.member && one.epoch == other.epoch && one.mask.0 == other.mask.0
}

fn is_same_accusation(one: &AccBody, other: &AccBody) -> bool
    ensures { result ≡ same_body (Body.Accusation one.now) (Body.Accusation other.now) }
{
    one.accuser == other.accuser
        && one.accused == other.accused
        && one.epoch == other.epoch
        && one.ring.0 == other.ring.0
}

/// Whether the bodies say the same.
pub fn is_same(one: &Body, other: &Body) -> bool
    ensures { result ≡ same_body one.now other.now }
{
    match (one, other) {
        (Body::Certificate(one), Body::Certificate(other)) => is_same_certificate(one, other),
        (Body::Note(one), Body::Note(other)) => is_same_note(one, other),
        (Body::Accusation(one), Body::Accusation(other)) => is_same_accusation(one, other),
        _ => false,
    }
}

/// Whether the body is one of these.
pub fn is_among(signed: &[Body], body: &Body) -> bool
    ensures { result ≡ is_one_of signed.now body.now }
{
    signed.iter().any(|one| is_same(one, body))
}

/// The epoch of the body, if it is a note of the member.
fn epoch_of_note(member: MemberId, body: &Body) -> Option<Epoch>
    ensures { result ≡ epoch_in member body.now }
{
    match body {
        Body::Note(note) if note.member == member => Some(note.epoch),
        _ => None,
    }
}

/// The greater of the two epochs.
fn greater(one: Epoch, other: Epoch) -> Epoch
    ensures { result ≡ max one other }
{
    if one.get() < other.get() { other } else { one }
}

/// The greater of the two, if there are any.
fn later(newest: Option<Epoch>, epoch: Option<Epoch>) -> Option<Epoch>
    ensures { result ≡ later_of newest epoch }
{
    match (newest, epoch) {
        (Some(before), Some(epoch)) => Some(greater(before, epoch)),
        (None, Some(epoch)) => Some(epoch),
        (newest, None) => newest,
    }
}

/// The greatest epoch among the notes of the member.
pub fn newest_of(member: MemberId, bodies: &[Body]) -> Option<Epoch>
    ensures { result ≡ greatest (filter_map (epoch_in member) bodies.now) }
{
    let mut newest: Option<Epoch> = None;
    for body in bodies {
        newest = later(newest, epoch_of_note(member, body));
    }
    newest
}
