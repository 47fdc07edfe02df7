//! What is held of records that are signed here, each by a key of its own.

ghost use Rattle.std.specs.Prelude.{◌≡◌, ◌<◌, IfOk, OnOk, IsSome};
ghost use Rattle.ff_ids.specs.declared.summary.RecordKey.{RecordKey as HeldKey};
ghost use Rattle.ff_ids.specs.declared.summary.RecordKey.TheVariants as keys;
ghost use Rattle.records.specs.Spelling.{HasPort};
ghost use Rattle.record_set.specs.Held.{held_under, key_of};
ghost use Rattle.record_set.specs.Picks.{HasRing};

use ff_ids::{
    AccBody, Epoch, Group, Mask, MemberId, NoteBody, RecordKey, RingNo, Summary, SummaryEntry,
};
use fields::Bytes;
use lms_ots::OtsKind;
use lms_tree::{PublicKey, SecretKey, TreeKind};
use record_set::RecordSet;
use records::{Body, CertBody, Checked, Key, Record, read_record, signed_bytes};
use std::alloc::Global;
use std::process::Abort;
use std::test::Fail;

const GROUP: Group = Group {
    tag: [7; 16],
    t: 1,
    timeout: 1,
    period: 1,
    misses: 1,
};

/// The key of this number, and its first signature of the body, in 4,460 bytes.
fn signed(alloc: Global, number: u8, body: &Body) -> Result<(PublicKey, Vec<u8>), Fail> {
    let key = SecretKey::make(alloc, TreeKind::H5, OtsKind::W2, [number; 16], [number; 32])?;
    let public = key.public();
    let (tree, mut leaves) = key.split();
    let message = signed_bytes(&GROUP, body);
    let mut signature = vec![in alloc; 0u8; 4460]?;
    if let Some(leaf) = leaves.take() {
        tree.sign(leaf, message.as_slice(), signature.as_mut_slice());
    }
    Ok((public, signature))
}

/// The body, signed by the key of this number and checked.
fn checked(rt: &impl Abort, alloc: Global, number: u8, body: Body) -> Result<Checked, Fail>
    requires { HasPort body }
    ensures body { IfOk result (λ c. c.rec.body ≡ body) }
    ensures tolerance { IfOk result (λ c. c.t ≡ 1) }
{
    let (key, signature) = signed(alloc, number, &body)?;
    let rec = Record {
        body,
        signature: Bytes::from_vec(signature),
    };
    match Checked::new(&GROUP, &Key::Lms(key), rec) {
        Ok(rec) => Ok(rec),
        Err(_) => panic!(rt; "a good signature"),
    }
}

fn certificate(member: MemberId) -> Body
    ensures port { HasPort result }
    ensures ring { HasRing 1 result }
    ensures key { key_of result ≡ keys.Certificate member }
{
    Body::Certificate(CertBody {
        member,
        port: 20001,
        key: Key::Lms(PublicKey {
            tree: TreeKind::H5,
            ots: OtsKind::W8,
            id: [1; 16],
            root: [2; 32],
        }),
    })
}

fn note(member: MemberId, epoch: Epoch, mask: u64) -> Body
    ensures port { HasPort result }
    ensures ring { HasRing 1 result }
    ensures key { key_of result ≡ keys.Note member }
{
    Body::Note(NoteBody {
        member,
        epoch,
        mask: Mask(mask),
    })
}

fn accusation(accused: MemberId, ring: u8) -> Body
    requires { ring < 3 }
    ensures port { HasPort result }
    ensures ring { HasRing 1 result }
    ensures key { key_of result ≡ keys.Accusation accused (record { 0 = ring }) }
{
    Body::Accusation(AccBody {
        accuser: MemberId::new(5),
        accused,
        epoch: Epoch::new(1),
        ring: RingNo(ring),
    })
}

/// Puts the body, signed by the key of this number.
fn put(
    rt: &impl Abort,
    alloc: Global,
    set: &mut RecordSet,
    number: u8,
    body: Body,
) -> Result<(), Fail>
    requires port { HasPort body }
    requires ring { HasRing 1 body }
    ensures held { OnOk result (IsSome (held_under set.new (key_of body))) }
    ensures kept { (k : HeldKey) → IsSome (held_under set.old k)
        → OnOk result (IsSome (held_under set.new k)) }
{
    let rec = checked(rt, alloc, number, body)?;
    set.put(rec);
    Ok(())
}

/// A note of 1 without a certificate, the certificate of 33 alone, and of 0 the certificate, two notes, and
/// accusations on rings 2 and 1.
fn filled(rt: &impl Abort, alloc: Global) -> Result<RecordSet, Fail>
    ensures certificate { IfOk result (λ s. IsSome (held_under s (keys.Certificate 0))) }
    ensures note { IfOk result (λ s. IsSome (held_under s (keys.Note 0))) }
    ensures accusation { IfOk result
        (λ s. IsSome (held_under s (keys.Accusation 0 (record { 0 = 1 })))) }
{
    let member = MemberId::new(0);
    let mut set = RecordSet::open(alloc)?;
    let other = note(MemberId::new(1), Epoch::new(1), 7);
    put(rt, alloc, &mut set, 1, other)?;
    put(rt, alloc, &mut set, 2, certificate(MemberId::new(33)))?;
    put(rt, alloc, &mut set, 3, note(member, Epoch::new(1), 7))?;
    put(rt, alloc, &mut set, 4, accusation(member, 2))?;
    put(rt, alloc, &mut set, 5, certificate(member))?;
    put(rt, alloc, &mut set, 6, note(member, Epoch::new(2), 6))?;
    put(rt, alloc, &mut set, 7, accusation(member, 1))?;
    Ok(set)
}

/// The page lists this member, with the epoch, the mask and the rings; without a number, nobody.
fn compare_page(rt: &impl Abort, set: &RecordSet, page: u8, entries: &[SummaryEntry]) {
    let mut out = Summary::new();
    set.page(page, &mut out);
    assert_eq!(rt; out.page, page);
    assert_eq!(rt; out.entries(), entries);
}

fn entry(member: MemberId, epoch: u64, mask: u64, rings: u64) -> SummaryEntry {
    SummaryEntry {
        member,
        epoch,
        mask: Mask(mask),
        rings,
    }
}

#[test]
fn pages_list_the_certified_with_their_newest_notes(rt: HostRuntime) -> Result<(), Fail> {
    let member = MemberId::new(0);
    let mut set = filled(&rt, rt.alloc())?;
    compare_page(&rt, &set, 0, &[entry(member, 2, 6, 6)]);
    compare_page(&rt, &set, 1, &[entry(MemberId::new(33), 0, 0, 0)]);
    compare_page(&rt, &set, 2, &[]);
    compare_page(&rt, &set, 255, &[]);
    set.drop_accusation(member, RingNo(2));
    set.drop_accusation(member, RingNo(62));
    set.drop_accusation(member, RingNo(63));
    set.drop_accusation(member, RingNo(255));
    compare_page(&rt, &set, 0, &[entry(member, 2, 6, 2)]);
    Ok(())
}

/// Whether an accusation against member 0 is held on each of rings 1 and 2, and one by which it was removed.
fn held_against(set: &RecordSet) -> (bool, bool, bool) {
    let member = MemberId::new(0);
    (
        set.contains(&RecordKey::Accusation(member, RingNo(1))),
        set.contains(&RecordKey::Accusation(member, RingNo(2))),
        set.contains(&RecordKey::Removal(member)),
    )
}

#[test]
fn an_accusation_is_retired_to_the_removal(rt: HostRuntime) -> Result<(), Fail> {
    let member = MemberId::new(0);
    let mut set = filled(&rt, rt.alloc())?;
    assert_eq!(rt; held_against(&set), (true, true, false));
    set.retire(member, RingNo(2));
    assert_eq!(rt; held_against(&set), (true, false, true));
    compare_page(&rt, &set, 0, &[entry(member, 2, 6, 2)]);
    set.retire(member, RingNo(1));
    assert_eq!(rt; held_against(&set), (false, false, true));
    set.drop_removal(member);
    assert_eq!(rt; held_against(&set), (false, false, false));
    assert!(rt;
        set.contains(&RecordKey::Note(member)) && set.contains(&RecordKey::Certificate(member))
    );
    Ok(())
}

#[test]
fn nothing_is_retired_where_no_accusation_is_held(rt: HostRuntime) -> Result<(), Fail> {
    let member = MemberId::new(0);
    let mut set = filled(&rt, rt.alloc())?;
    set.retire(member, RingNo(1));
    set.retire(member, RingNo(63));
    assert_eq!(rt; held_against(&set), (false, true, false));
    Ok(())
}

/// So many records are picked for the room, and they take so many bytes behind the one that was there.
fn compare_pick(
    rt: &impl Abort,
    alloc: Global,
    set: &RecordSet,
    room: usize,
    wanted: (usize, usize),
) -> Result<(), Fail>
    requires certificate { IsSome (held_under set.now (keys.Certificate 0)) }
    requires note { IsSome (held_under set.now (keys.Note 0)) }
    requires accusation { IsSome (held_under set.now (keys.Accusation 0 (record { 0 = 1 }))) }
{
    let member = MemberId::new(0);
    let keys = [
        RecordKey::Accusation(member, RingNo(1)),
        RecordKey::Certificate(member),
        RecordKey::Note(member),
    ];
    let mut out = vec![in alloc; 9u8]?;
    let count = set.pick(&keys, room, &mut out)?;
    assert_eq!(rt; (count, out.len()), wanted);
    Ok(())
}

// The accusation takes 4,476 bytes, the certificate 4,523, and the note 4,477.
#[test]
fn records_are_picked_while_they_fit(rt: HostRuntime) -> Result<(), Fail> {
    let alloc = rt.alloc();
    let set = filled(&rt, alloc)?;
    compare_pick(&rt, alloc, &set, 32_760, (3, 13_477))?;
    compare_pick(&rt, alloc, &set, 13_476, (3, 13_477))?;
    compare_pick(&rt, alloc, &set, 13_475, (2, 9_000))?;
    compare_pick(&rt, alloc, &set, 8_999, (2, 9_000))?;
    compare_pick(&rt, alloc, &set, 8_998, (1, 4_477))?;
    compare_pick(&rt, alloc, &set, 4_476, (1, 4_477))?;
    compare_pick(&rt, alloc, &set, 4_475, (0, 1))
}

#[test]
fn what_is_picked_is_read_again(rt: HostRuntime) -> Result<(), Fail> {
    let (alloc, member) = (rt.alloc(), MemberId::new(0));
    let set = filled(&rt, alloc)?;
    let keys = [RecordKey::Note(member), RecordKey::Certificate(member)];
    let mut out = vec![in alloc]?;
    assert_eq!(rt; set.pick(&keys, 9_000, &mut out), Ok(2));
    let (first, length) = read_record(alloc, &out)?;
    assert_eq!(rt; first.body, note(member, Epoch::new(2), 6));
    let rest = out.get(length..).unwrap_or(&[]);
    let (second, _length) = read_record(alloc, rest)?;
    assert_eq!(rt; second.body, certificate(member));
    Ok(())
}
