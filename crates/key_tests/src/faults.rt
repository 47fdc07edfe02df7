//! Each kind of record, with each fault, alone and with each later one that can hold beside it. A row says who
//! signed.

mod keys;
mod scene;

ghost use Rattle.std.specs.Prelude.{◌≡◌};
ghost use Rattle.records.specs.Spelling.{HasPort};

use ff_ids::{Fault, KeyBytes};
use keys::{AUTHORITY, Key};
use records::Body;
use scene::{Scene, TAG, accusation, certificate, note};
use std::alloc::Global;
use std::process::Abort;
use std::test::Fail;

/// The root of member 1's key, as another implementation of RFC 8554 made it.
const ROOT_OF_1: [u8; 32] =
    *b"\xbf\xb2\xb6\x50\xb3\x84\x1e\x36\x53\x61\xeb\x70\xed\xb6\x4e\x01\x3f\xad\x1c\x1c\xd2\x23\xdf\x77\
    \xc0\xa6\x15\x9d\x28\xa2\xb1\x21";

#[test]
fn keys_are_those_of_another_implementation(rt: HostRuntime) -> Result<(), Fail> {
    let key = Key::of(rt.alloc(), &TAG, 1)?;
    assert_eq!(rt; key.public().root, ROOT_OF_1);
    Ok(())
}

/// The body signed by the key at this place has the fault of this text; `ok` stands for none.
fn compare(
    rt: &impl Abort,
    alloc: Global,
    scene: &mut Scene,
    body: Body,
    by: u8,
    wanted: &str,
) -> Result<(), Fail>
    requires { HasPort body }
{
    let rec = scene.sign(alloc, by, body)?;
    match scene.fault(rec, by)? {
        Some(fault) => {
            let text = format!(in alloc; "{fault}")?;
            assert_eq!(rt; text.as_str(), wanted);
        }
        None => assert_eq!(rt; "ok", wanted),
    }
    Ok(())
}

/// Member, epoch, mask and signer.
const NOTES: [(u8, u8, u64, u8, &str); 31] = [
    // No certificate, and so no key: the mask is bad, or it isn't.
    (9, 1, 8, 1, "unknown-member"),
    (9, 1, 7, 1, "unknown-member"),
    // A ring too high, or too few of them. Older, ahead, and by another's key.
    (2, 3, 8, 2, "bad-mask"),
    (2, 3, 1, 2, "bad-mask"),
    (2, 1, 8, 2, "bad-mask"),
    // Of four bytes and of eight.
    (2, 3, 0xffff_ffff, 2, "bad-mask"),
    (2, 3, 0x1_0000_0007, 2, "bad-mask"),
    (2, 3, 8, 1, "bad-mask"),
    (2, 1, 8, 1, "bad-mask"),
    (3, 9, 8, 3, "bad-mask"),
    (3, 9, 8, 2, "bad-mask"),
    (2, 2, 6, 2, "known"),
    (2, 2, 6, 1, "known"),
    (3, 1, 7, 3, "known"),
    (2, 1, 7, 2, "older 2 6"),
    (2, 2, 5, 2, "older 2 6"),
    (2, 1, 7, 1, "older 2 6"),
    (2, 3, 7, 1, "bad-signature"),
    (2, 3, 7, 0, "bad-signature"),
    // The observer's own.
    (3, 9, 7, 2, "bad-signature"),
    (3, 9, 7, 3, "own-ahead 1 7 9 7"),
    // By which a member leaves: by another's key, of the newest epoch and of an older one, and ahead of the observer's own.
    (2, 3, 0, 1, "bad-signature"),
    (2, 2, 0, 2, "older 2 6"),
    (2, 1, 0, 1, "older 2 6"),
    (3, 9, 0, 2, "bad-signature"),
    (3, 9, 0, 3, "own-ahead 1 7 9 0"),
    (2, 3, 0, 2, "ok"),
    // A greater epoch, a greater mask, a first note, and one of a member that comes back.
    (2, 3, 7, 2, "ok"),
    (2, 2, 7, 2, "ok"),
    (4, 1, 7, 4, "ok"),
    (5, 2, 7, 5, "ok"),
];

fn compare_notes(rt: &impl Abort, alloc: Global, scene: &mut Scene) -> Result<(), Fail> {
    for (member, epoch, mask, by, wanted) in NOTES {
        let body = Body::Note(note(member, epoch, mask));
        compare(rt, alloc, scene, body, by, wanted)?;
    }
    Ok(())
}

#[test]
fn notes_have_their_first_fault(rt: HostRuntime) -> Result<(), Fail> {
    let mut scene = Scene::open(rt.alloc())?;
    compare_notes(&rt, rt.alloc(), &mut scene)
}

/// Accuser, accused, epoch, ring and signer.
const ACCUSATIONS: [(u8, u8, u8, u8, u8, &str); 47] = [
    // The accuser has no certificate: it accuses itself; the ring is bad; there is no note, another epoch, a member
    // out of the view, a disabled ring; another is the monitor.
    (9, 9, 1, 0, 1, "unknown-member"),
    (9, 1, 1, 3, 1, "unknown-member"),
    (9, 4, 1, 0, 1, "unknown-member"),
    (9, 1, 2, 0, 1, "unknown-member"),
    (9, 5, 1, 1, 1, "unknown-member"),
    (9, 2, 2, 0, 1, "unknown-member"),
    (9, 1, 1, 0, 1, "unknown-member"),
    // The accused has none: on a bad ring, signed by its accuser, and by another; on a good one likewise.
    (1, 9, 1, 3, 1, "unknown-member"),
    (1, 9, 1, 3, 2, "unknown-member"),
    (1, 9, 1, 0, 1, "unknown-member"),
    (1, 9, 1, 0, 2, "unknown-member"),
    // Of itself, in the same order.
    (1, 1, 1, 3, 1, "self-accusation"),
    (4, 4, 1, 0, 4, "self-accusation"),
    (1, 1, 2, 0, 1, "self-accusation"),
    (5, 5, 1, 1, 5, "self-accusation"),
    (2, 2, 2, 0, 2, "self-accusation"),
    (1, 1, 1, 0, 1, "self-accusation"),
    (1, 1, 1, 0, 2, "self-accusation"),
    // On a ring that no mask enables.
    (3, 4, 1, 3, 3, "bad-ring"),
    (3, 1, 2, 3, 3, "bad-ring"),
    (3, 5, 1, 3, 3, "bad-ring"),
    (3, 1, 1, 3, 3, "bad-ring"),
    (3, 1, 1, 255, 3, "bad-ring"),
    (2, 1, 1, 3, 2, "bad-ring"),
    (3, 1, 1, 3, 1, "bad-ring"),
    // Of 4, which is never in the view.
    (3, 4, 1, 0, 3, "no-note"),
    (1, 4, 1, 0, 1, "no-note"),
    (3, 4, 1, 0, 1, "no-note"),
    (3, 5, 2, 1, 3, "other-epoch 1"),
    (1, 2, 1, 0, 1, "other-epoch 2"),
    (2, 1, 2, 0, 2, "other-epoch 1"),
    (3, 1, 2, 0, 1, "other-epoch 1"),
    (3, 1, 2, 0, 3, "other-epoch 1"),
    (3, 5, 1, 0, 3, "not-in-view"),
    (1, 5, 1, 1, 1, "not-in-view"),
    (3, 5, 1, 1, 1, "not-in-view"),
    (3, 5, 1, 1, 3, "not-in-view"),
    (3, 2, 2, 0, 3, "ring-disabled"),
    (1, 2, 2, 0, 3, "ring-disabled"),
    (1, 2, 2, 0, 1, "ring-disabled"),
    (2, 1, 1, 0, 2, "not-monitor 3"),
    (2, 1, 1, 0, 3, "not-monitor 3"),
    (2, 1, 1, 1, 2, "standing"),
    (2, 1, 1, 1, 1, "standing"),
    // By the accused's key in place of the accuser's.
    (3, 1, 1, 0, 1, "bad-signature"),
    (3, 1, 1, 0, 3, "ok"),
    (1, 2, 2, 2, 1, "ok"),
];

fn compare_accusations(rt: &impl Abort, alloc: Global, scene: &mut Scene) -> Result<(), Fail> {
    for (accuser, accused, epoch, ring, by, wanted) in ACCUSATIONS {
        let body = Body::Accusation(accusation(accuser, accused, epoch, ring));
        compare(rt, alloc, scene, body, by, wanted)?;
    }
    Ok(())
}

#[test]
fn accusations_have_their_first_fault(rt: HostRuntime) -> Result<(), Fail> {
    let mut scene = Scene::open(rt.alloc())?;
    compare_accusations(&rt, rt.alloc(), &mut scene)
}

/// Member, port, whose key, and signer, 0 being the authority.
const CERTIFICATES: [(u8, u16, u8, u8, &str); 6] = [
    (2, 20_002, 2, 0, "known"),
    (2, 20_002, 2, 2, "known"),
    (6, 20_006, 6, 0, "ok"),
    // By its own key, and by that of another member.
    (6, 20_006, 6, 6, "bad-signature"),
    (6, 20_006, 6, 2, "bad-signature"),
    (6, 20_002, 2, 0, "ok"),
];

fn compare_certificates(rt: &impl Abort, alloc: Global, scene: &mut Scene) -> Result<(), Fail> {
    for (member, port, key, by, wanted) in CERTIFICATES {
        let body = Body::Certificate(certificate(member, port, scene.key(key)?));
        compare(rt, alloc, scene, body, by, wanted)?;
    }
    Ok(())
}

#[test]
fn certificates_have_their_first_fault(rt: HostRuntime) -> Result<(), Fail> {
    let mut scene = Scene::open(rt.alloc())?;
    compare_certificates(&rt, rt.alloc(), &mut scene)
}

/// Another certificate of 2 is refused with the one that is kept, whoever signed: port, whose key, and signer.
const OTHERS: [(u16, u8, u8); 4] = [
    (20_009, 2, 0),
    (20_009, 2, 2),
    (20_002, 1, 0),
    (20_002, 1, 1),
];

/// The first fault of the certificate of 2 with this port and key, so signed.
fn fault_of_other(
    alloc: Global,
    scene: &mut Scene,
    port: u16,
    key: u8,
    by: u8,
) -> Result<Option<Fault>, Fail> {
    let body = Body::Certificate(certificate(2, port, scene.key(key)?));
    let rec = scene.sign(alloc, by, body)?;
    scene.fault(rec, by)
}

fn compare_others(rt: &impl Abort, alloc: Global, scene: &mut Scene) -> Result<(), Fail> {
    let kept = KeyBytes::Lms(scene.key(2)?.write());
    for (port, key, by) in OTHERS {
        let wanted = Fault::OtherCertificate {
            port: 20_002,
            key: kept,
        };
        assert_eq!(rt; fault_of_other(alloc, scene, port, key, by)?, Some(wanted));
    }
    Ok(())
}

#[test]
fn another_certificate_is_refused_with_the_kept_one(rt: HostRuntime) -> Result<(), Fail> {
    let mut scene = Scene::open(rt.alloc())?;
    compare_others(&rt, rt.alloc(), &mut scene)
}
