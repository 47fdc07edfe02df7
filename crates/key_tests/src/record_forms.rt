//! Records of each kind, each cut, and the place of each fault.

ghost use Rattle.std.specs.Prelude.{◌≡◌, ◌<◌, ◌≤◌, length, IfOk};
ghost use Rattle.records.specs.Spelling.{IsWritable, HasPort};

use ff_ids::{AccBody, Epoch, Mask, MemberId, NoteBody, RingNo};
use fields::Bytes;
use hss::HssKey;
use lms_ots::OtsKind;
use lms_tree::{PublicKey, TreeKind};
use records::{Body, CertBody, FormFault, Key, Record, read_record, write_record, *};
use std::alloc::{AllocError, Global};
use std::process::Abort;
use std::test::Fail;

/// A record of the body with a signature of five bytes.
fn record(alloc: Global, body: Body) -> Result<Record, AllocError>
    requires { HasPort body }
    ensures { IfOk result IsWritable }
{
    let signature = Bytes::from_vec(vec![in alloc; 0xa5u8; 5]?);
    Ok(Record { body, signature })
}

fn note(mask: Mask) -> Body
    ensures { HasPort result }
{
    Body::Note(NoteBody {
        member: MemberId::new(2),
        epoch: Epoch::new(1),
        mask,
    })
}

fn accusation() -> Body
    ensures { HasPort result }
{
    Body::Accusation(AccBody {
        accuser: MemberId::new(1),
        accused: MemberId::new(2),
        epoch: Epoch::new(1),
        ring: RingNo(0),
    })
}

/// The key of one level of the records.
const KEY: PublicKey = PublicKey {
    tree: TreeKind::H5,
    ots: OtsKind::W8,
    id: [7; 16],
    root: [9; 32],
};

fn certificate(key: Key) -> Body
    ensures { HasPort result }
{
    Body::Certificate(CertBody {
        member: MemberId::new(2),
        port: 20002,
        key,
    })
}

/// The certificate of a key of two levels.
fn two_level_certificate() -> Body
    ensures { HasPort result }
{
    certificate(Key::Hss(HssKey { top: KEY }))
}

/// The greatest of the places that isn't above the cut.
fn field_of(starts: &[usize], cut: usize) -> usize {
    let mut place = 0;
    for start in starts {
        if *start <= cut {
            place = *start;
        }
    }
    place
}

/// What a record of the body is written as.
fn written(alloc: Global, body: Body) -> Result<Vec<u8>, Fail>
    requires { HasPort body }
{
    let rec = record(alloc, body)?;
    let mut bytes = Vec::new(alloc);
    write_record(&rec, &mut bytes)?;
    Ok(bytes)
}

fn fault_of(alloc: Global, bytes: &[u8]) -> Option<FormFault> {
    read_record(alloc, bytes).err()
}

/// A record of the body is read from the first so many of the bytes.
fn compare_read(rt: &impl Abort, alloc: Global, bytes: &[u8], body: &Body, length: usize) {
    let Ok((again, taken)) = read_record(alloc, bytes) else {
        panic!(rt; "the record is read");
    };
    assert_eq!(rt; taken, length);
    assert_eq!(rt; again.body, *body);
    assert_eq!(rt; again.signature.as_slice(), [0xa5u8; 5].as_slice());
}

/// Each cut of the bytes is refused where the field begins that it falls in.
fn compare_cuts(rt: &impl Abort, alloc: Global, bytes: &[u8], starts: &[usize]) {
    for cut in 0..bytes.len() {
        let place = field_of(starts, cut);
        assert_eq!(rt;
            fault_of(alloc, &bytes[..cut]),
            Some(FormFault::BadForm { place })
        );
    }
}

/// The record is read from what was written, with bytes behind it left unread, and from no less.
fn read_back(rt: &impl Abort, alloc: Global, body: Body, starts: &[usize]) -> Result<(), Fail>
    requires { HasPort body }
{
    let mut bytes = written(alloc, body)?;
    let length = bytes.len();
    bytes.push(0xff)?;
    compare_read(rt, alloc, bytes.as_slice(), &body, length);
    bytes.pop();
    compare_cuts(rt, alloc, bytes.as_slice(), starts);
    Ok(())
}

#[test]
fn records_are_read_back_and_no_cut_of_them(rt: HostRuntime) -> Result<(), Fail> {
    let alloc = rt.alloc();
    for mask in [7, 0xffff_ffff] {
        read_back(&rt, alloc, note(Mask(mask)), &[0, 1, 3, 11, 15, 17])?;
    }
    for mask in [0x1_0000_0000, 0x1_0000_0007, u64::MAX] {
        read_back(&rt, alloc, note(Mask(mask)), &[0, 1, 3, 11, 19, 21])?;
    }
    read_back(&rt, alloc, accusation(), &[0, 1, 3, 5, 13, 14, 16])?;
    read_back(
        &rt,
        alloc,
        certificate(Key::Lms(KEY)),
        &[0, 1, 3, 5, 9, 13, 29, 61, 63],
    )?;
    read_back(
        &rt,
        alloc,
        two_level_certificate(),
        &[0, 1, 3, 5, 9, 13, 17, 33, 65, 67],
    )
}

#[test]
fn a_certificate_is_of_the_kind_of_its_key(rt: HostRuntime) -> Result<(), Fail> {
    let one = written(rt.alloc(), certificate(Key::Lms(KEY)))?;
    assert_eq!(rt;
        one.as_slice(),
        b"\x01\x00\x02\x4e\x22\x00\x00\x00\x05\x00\x00\x00\x04\
\x07\x07\x07\x07\x07\x07\x07\x07\x07\x07\x07\x07\x07\x07\x07\x07\
\t\t\t\t\t\t\t\t\t\t\t\t\t\t\t\t\t\t\t\t\t\t\t\t\t\t\t\t\t\t\t\t\x00\x05\xa5\xa5\xa5\xa5\xa5"
            .as_slice()
    );
    let two = written(rt.alloc(), two_level_certificate())?;
    assert_eq!(rt;
        two.as_slice(),
        b"\x05\x00\x02\x4e\x22\x00\x00\x00\x02\x00\x00\x00\x05\x00\x00\x00\x04\
\x07\x07\x07\x07\x07\x07\x07\x07\x07\x07\x07\x07\x07\x07\x07\x07\
\t\t\t\t\t\t\t\t\t\t\t\t\t\t\t\t\t\t\t\t\t\t\t\t\t\t\t\t\t\t\t\t\x00\x05\xa5\xa5\xa5\xa5\xa5"
            .as_slice()
    );
    Ok(())
}

/// What stands in front of the fault, up to its end, and the place of the fault.
const FAULTS: [(&[u8], usize); 28] = [
    (b"\x00", 0),
    (b"\x06", 0),
    // members 1,024
    (b"\x01\x04\x00", 1),
    (b"\x02\x04\x00", 1),
    (b"\x03\x04\x00", 1),
    (b"\x03\x00\x01\x04\x00", 3),
    // epoch 0
    (b"\x02\x00\x02\x00\x00\x00\x00\x00\x00\x00\x00", 3),
    (b"\x03\x00\x01\x00\x02\x00\x00\x00\x00\x00\x00\x00\x00", 5),
    // port 0; trees of type 4 and 8; one-time signatures of type 5 and 0
    (b"\x01\x00\x02\x00\x00", 3),
    (b"\x01\x00\x02\x4e\x22\x00\x00\x00\x04", 5),
    (b"\x01\x00\x02\x4e\x22\x00\x00\x00\x08", 5),
    (b"\x01\x00\x02\x4e\x22\x00\x00\x00\x05\x00\x00\x00\x05", 9),
    (b"\x01\x00\x02\x4e\x22\x00\x00\x00\x05\x00\x00\x00\x00", 9),
    // a key of two levels in a certificate of kind 1, and one of one level, here a whole certificate, in one of kind 5;
    // one and three levels; a tree of type 4; W2 and W1
    (b"\x01\x00\x02\x4e\x22\x00\x00\x00\x02\x00\x00\x00\x05", 5),
    (
        b"\x05\x00\x02\x4e\x22\x00\x00\x00\x05\x00\x00\x00\x04iiiiiiiiiiiiiiiirrrrrrrrrrrrrrrrrrrrrrrrrrrrrrrr\x00\x05sssss",
        5,
    ),
    (b"\x05\x00\x02\x4e\x22\x00\x00\x00\x01\x00\x00\x00\x05", 5),
    (b"\x05\x00\x02\x4e\x22\x00\x00\x00\x03\x00\x00\x00\x05", 5),
    (b"\x05\x00\x02\x4e\x22\x00\x00\x00\x02\x00\x00\x00\x04", 9),
    (
        b"\x05\x00\x02\x4e\x22\x00\x00\x00\x02\x00\x00\x00\x05\x00\x00\x00\x02",
        13,
    ),
    (
        b"\x05\x00\x02\x4e\x22\x00\x00\x00\x02\x00\x00\x00\x05\x00\x00\x00\x01",
        13,
    ),
    // masks of eight bytes that four hold
    (
        b"\x04\x00\x02\x00\x00\x00\x00\x00\x00\x00\x01\x00\x00\x00\x00\x00\x00\x00\x07",
        11,
    ),
    (
        b"\x04\x00\x02\x00\x00\x00\x00\x00\x00\x00\x01\x00\x00\x00\x00\xff\xff\xff\xff",
        11,
    ),
    // signatures of 0 and of 9,005 bytes, behind a note, an accusation and a certificate
    (
        b"\x02\x00\x02\x00\x00\x00\x00\x00\x00\x00\x01\x00\x00\x00\x07\x00\x00",
        15,
    ),
    (
        b"\x02\x00\x02\x00\x00\x00\x00\x00\x00\x00\x01\x00\x00\x00\x07\x23\x2d",
        15,
    ),
    (
        b"\x03\x00\x01\x00\x02\x00\x00\x00\x00\x00\x00\x00\x01\x00\x00\x00",
        14,
    ),
    (
        b"\x03\x00\x01\x00\x02\x00\x00\x00\x00\x00\x00\x00\x01\x00\x23\x2d",
        14,
    ),
    (
        b"\x01\x00\x02\x4e\x22\x00\x00\x00\x05\x00\x00\x00\x04iiiiiiiiiiiiiiiirrrrrrrrrrrrrrrrrrrrrrrrrrrrrrrr\x00\x00",
        61,
    ),
    (
        b"\x01\x00\x02\x4e\x22\x00\x00\x00\x05\x00\x00\x00\x04iiiiiiiiiiiiiiiirrrrrrrrrrrrrrrrrrrrrrrrrrrrrrrr\x23\x2d",
        61,
    ),
];

/// The bytes, with so many of these behind them.
fn with_rest(alloc: Global, front: &[u8], rest: u8, count: usize) -> Result<Vec<u8>, Fail> {
    let mut bytes = Vec::from_slice(alloc, front)?;
    for _ in 0..count {
        bytes.push(rest)?;
    }
    Ok(bytes)
}

// What follows the fault is not read: nothing, or bytes that are faults themselves, or may be of a record.
#[test]
fn a_fault_is_where_its_field_begins(rt: HostRuntime) -> Result<(), Fail> {
    for (front, place) in FAULTS {
        for (rest, count) in [(0u8, 0usize), (0, 100), (1, 100), (0xff, 10_000)] {
            let bytes = with_rest(rt.alloc(), front, rest, count)?;
            assert_eq!(rt;
                fault_of(rt.alloc(), bytes.as_slice()),
                Some(FormFault::BadForm { place })
            );
        }
    }
    Ok(())
}

/// The length of the record that is read, and that of its signature.
fn lengths(alloc: Global, bytes: &[u8]) -> Option<(usize, usize)> {
    let (rec, taken) = read_record(alloc, bytes).ok()?;
    Some((taken, rec.signature.as_slice().len()))
}

// A signature of five bytes of which four are there, and the longest there is.
#[test]
fn a_signature_is_as_long_as_it_says(rt: HostRuntime) -> Result<(), Fail> {
    let short = b"\x02\x00\x02\x00\x00\x00\x00\x00\x00\x00\x01\x00\x00\x00\x07\x00\x05abcd";
    assert_eq!(rt;
        fault_of(rt.alloc(), short),
        Some(FormFault::BadForm { place: 17 })
    );
    let longest = b"\x02\x00\x02\x00\x00\x00\x00\x00\x00\x00\x01\x00\x00\x00\x07\x23\x2c";
    let bytes = with_rest(rt.alloc(), longest, 7, 9_004)?;
    assert_eq!(rt; lengths(rt.alloc(), bytes.as_slice()), Some((9_021, 9_004)));
    let cut = with_rest(rt.alloc(), longest, 7, 9_003)?;
    assert_eq!(rt;
        fault_of(rt.alloc(), cut.as_slice()),
        Some(FormFault::BadForm { place: 17 })
    );
    Ok(())
}
