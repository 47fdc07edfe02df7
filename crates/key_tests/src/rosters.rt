//! Certificates that are kept, places, and the table of faults before an observer whose number is 3. The keys, the
//! signatures and the order on the rings are another implementation's.

mod scene;
mod signatures;

ghost use Rattle.std.specs.Prelude.{◌≡◌};
ghost use Rattle.records.specs.Spelling.{HasPort};

use ff_ids::{AccBody, Epoch, Fault, KeyBytes, MemberId, RingNo};
use records::Body;
use ring_order::{hash_places, key_order};
use scene::{Scene, certificate, group, note, record};
use signatures::KEY_OF_2;
use std::alloc::Global;
use std::process::Abort;
use std::test::Fail;
use validate::Roster;

#[test]
fn a_certificate_that_is_put_is_kept(rt: HostRuntime) -> Result<(), Fail> {
    let mut roster = Roster::open(rt.alloc())?;
    let cert = certificate(2, 20002, &KEY_OF_2);
    let member = cert.member;
    assert!(rt; roster.get(member).is_none());
    if roster.get(member).is_none() {
        roster.put(cert);
    }
    let kept = certificate(2, 20002, &KEY_OF_2);
    assert_eq!(rt; roster.get(member).copied(), Some(kept));
    assert!(rt; roster.get(MemberId::new(1)).is_none());
    Ok(())
}

#[test]
fn members_are_placed_by_their_hashes(rt: HostRuntime) {
    let mut group = group();
    group.t = 31;
    let one = MemberId::new(1);
    let two = MemberId::new(2);
    let places = hash_places(&group, one);
    let others = hash_places(&group, two);
    // Bit r is set where 1 comes before 2 on ring r.
    let mut first = 0u64;
    for ring in 0..63u8 {
        if key_order(RingNo(ring), &places, one, &others, two) {
            first |= 1 << ring;
        }
    }
    assert_eq!(rt; first, 0x145b_9e6a_a33b_64a9);
}

/// The body with this signature has the fault, if any.
fn compare(
    rt: &impl Abort,
    alloc: Global,
    body: Body,
    signature: &[u8],
    fault: Option<Fault>,
) -> Result<(), Fail>
    requires { HasPort body }
{
    let scene = Scene::open(alloc)?;
    let rec = record(alloc, body, signature)?;
    assert_eq!(rt; scene.fault(rec), fault);
    Ok(())
}

#[test]
fn a_note_is_refused_before_its_signature_is_verified(rt: HostRuntime) -> Result<(), Fail> {
    let bad_mask = Some(Fault::BadMask);
    compare(&rt, rt.alloc(), Body::Note(note(2, 1, 8)), b"", bad_mask)?;
    let kept = note(2, 0, 7);
    let older = Some(Fault::Older {
        epoch: kept.epoch,
        mask: kept.mask,
    });
    compare(&rt, rt.alloc(), Body::Note(note(2, 0, 3)), b"", older)
}

#[test]
fn a_certificate_is_compared_with_the_one_kept(rt: HostRuntime) -> Result<(), Fail> {
    let same = Body::Certificate(certificate(2, 20002, &KEY_OF_2));
    compare(&rt, rt.alloc(), same, b"", Some(Fault::Known))?;
    let other = Body::Certificate(certificate(2, 20009, &KEY_OF_2));
    let key = KeyBytes::Lms(KEY_OF_2.write());
    let fault = Fault::OtherCertificate { port: 20002, key };
    compare(&rt, rt.alloc(), other, b"", Some(fault))
}

// The hashes put the three in order on ring 0, so 1 is the monitor of 2.
#[test]
fn only_the_monitor_accuses(rt: HostRuntime) -> Result<(), Fail> {
    let acc = AccBody {
        accuser: MemberId::new(3),
        accused: MemberId::new(2),
        epoch: Epoch::new(1),
        ring: RingNo(0),
    };
    let monitor = Some(MemberId::new(1));
    let other = Some(Fault::NotMonitor { monitor });
    compare(&rt, rt.alloc(), Body::Accusation(acc), b"", other)
}

#[test]
fn a_signature_serves_its_group(rt: HostRuntime) -> Result<(), Fail> {
    let newer = Body::Note(note(2, 1, 7));
    compare(&rt, rt.alloc(), newer, signatures::NEWER, None)?;
    let newer = Body::Note(note(2, 1, 7));
    let bad = Some(Fault::BadSignature);
    compare(&rt, rt.alloc(), newer, signatures::OTHER_TAG, bad)?;
    let newer = Body::Note(note(2, 1, 7));
    let bad = Some(Fault::BadSignature);
    compare(&rt, rt.alloc(), newer, signatures::OTHER_TOLERANCE, bad)
}

#[test]
fn a_note_of_the_observer_is_ahead(rt: HostRuntime) -> Result<(), Fail> {
    let own = Body::Note(note(3, 8, 7));
    let bad = Some(Fault::BadSignature);
    compare(&rt, rt.alloc(), own, signatures::FOREIGN, bad)?;
    let own = Body::Note(note(3, 8, 7));
    let ahead = Some(Fault::OwnAhead {
        stored: note(3, 0, 7),
        seen: note(3, 8, 7),
    });
    compare(&rt, rt.alloc(), own, signatures::OWN, ahead)
}
