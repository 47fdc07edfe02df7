//! A datagram of each kind, each cut and each flipped bit of it, and the place of each fault.

use datagram::{read, records_head, write};
use ff_ids::MemberId;
use records::FormFault;
use std::alloc::Global;
use std::process::Abort;
use std::test::Fail;

const PING: &[u8] = b"FF\x01\x01\x00\x02\x00\x00\x00\x00\x00\x00\x01\x02";

const PONG: &[u8] = b"FF\x01\x02\x00\x01\x00\x00\x00\x00\x00\x00\x01\x02";
/// Of page 1, with a note of member 32 that stands accused on ring 1, and the certificate of 34 alone.
const SUMMARY: &[u8] =
    b"FF\x01\x03\x00\x02\x01\x01\x02\x00\x20\x00\x00\x00\x00\x00\x00\x00\x05\x00\x00\x00\x07\x00\x00\x00\x02\x00\x22\x00\x00\x00\x00\x00\x00\x00\x00\x00\x00\x00\x00\x00\x00\x00\x00";
/// One note of member 2, whose signature has five bytes.
const RECORDS: &[u8] =
    b"FF\x01\x04\x00\x02\x00\x01\x02\x00\x02\x00\x00\x00\x00\x00\x00\x00\x01\x00\x00\x00\x07\x00\x05abcde";

/// As `SUMMARY`, with a mask of four rings, of which one is ring 32.
const WIDE_SUMMARY: &[u8] =
    b"FF\x01\x05\x00\x02\x01\x01\x02\x00\x20\x00\x00\x00\x00\x00\x00\x00\x05\x00\x00\x00\x01\x00\x00\x00\x07\x00\x00\x00\x00\x00\x00\x00\x02\x00\x22\x00\x00\x00\x00\x00\x00\x00\x00\x00\x00\x00\x00\x00\x00\x00\x00\x00\x00\x00\x00\x00\x00\x00\x00";
/// As `RECORDS`, with such a mask.
const WIDE_NOTE: &[u8] =
    b"FF\x01\x04\x00\x02\x00\x01\x04\x00\x02\x00\x00\x00\x00\x00\x00\x00\x01\x00\x00\x00\x01\x00\x00\x00\x07\x00\x05abcde";

/// The least number that four bytes don't hold.
const WIDE: u64 = 1 << 32;

/// The big-endian number of these bytes.
fn number(bytes: &[u8], at: usize, length: usize) -> u64 {
    let mut value = 0u64;
    for byte in bytes.iter().skip(at).take(length) {
        value = value.wrapping_mul(256).wrapping_add(*byte as u64);
    }
    value
}

/// Whether the entries, which begin at byte 9 and have a mask and rings of 8 bytes or of 4, keep to the page, and need 8
/// bytes where they have them.
fn are_entries(bytes: &[u8], is_wide: bool, page: u64, count: u64) -> bool {
    let (size, length) = if is_wide { (8usize, 26u64) } else { (4, 18) };
    if page > 31
        || count > 32
        || bytes.len() as u64 != length.saturating_mul(count).saturating_add(9)
    {
        return false;
    }
    let mut least = 32 * page;
    let mut greatest = 0u64;
    for entry in bytes.get(9..).unwrap_or(&[]).chunks(length as usize) {
        let member = number(entry, 0, 2);
        let noted = number(entry, 2, 8) > 0;
        let bits = number(entry, 10, size) | number(entry, 10 + size, size);
        if member < least || member > 32 * page + 31 || !noted && bits != 0 {
            return false;
        }
        greatest = greatest.max(bits);
        least = member + 1;
    }
    !is_wide || greatest >= WIDE
}

/// Whether there is one record, at byte 8, that is a note or an accusation.
fn is_one_record(bytes: &[u8]) -> bool {
    let (epoch, length, good) = match bytes.get(8) {
        Some(2) => (11usize, 23usize, true),
        Some(3) => (13, 22, number(bytes, 11, 2) < 1024),
        Some(4) => (11, 27, number(bytes, 19, 8) >= WIDE),
        _ => return false,
    };
    let members = number(bytes, 9, 2) < 1024 && good;
    let signature = number(bytes, length, 2);
    number(bytes, 6, 2) == 1
        && members
        && number(bytes, epoch, 8) > 0
        && signature > 0
        && signature < 100
        && bytes.len() as u64 == length as u64 + 2 + signature
}

/// Whether the bytes are a datagram, judged by places, where they are no more than a few hundred.
fn is_datagram(bytes: &[u8]) -> bool {
    let head = number(bytes, 0, 3) == 0x464601 && number(bytes, 4, 2) < 1024 && bytes.len() > 8;
    match bytes.get(3) {
        Some(1) | Some(2) => head && bytes.len() == 14,
        Some(3) | Some(5) => {
            let is_wide = bytes.get(3) == Some(&5);
            head && number(bytes, 7, 1) < 2
                && are_entries(bytes, is_wide, number(bytes, 6, 1), number(bytes, 8, 1))
        }
        Some(4) => head && is_one_record(bytes),
        _ => false,
    }
}

/// The greatest of the places that isn't above the cut.
fn field_of(starts: &[usize], cut: usize) -> usize {
    let mut place = 0;
    for start in starts {
        if *start <= cut {
            place = *start;
        }
    }
    place
}

/// The bytes are read, and what is read is written as they are.
fn written_back(rt: &impl Abort, alloc: Global, bytes: &[u8]) -> Result<(), Fail> {
    let Ok(datagram) = read(alloc, bytes) else {
        panic!(rt; "the datagram is read");
    };
    let mut out = vec![in alloc; 0xa5u8; 1]?;
    write(&datagram, &mut out)?;
    let mut wanted = vec![in alloc; 0xa5u8; 1]?;
    wanted.extend_from_slice(bytes)?;
    assert_eq!(rt; out.as_slice(), wanted.as_slice());
    Ok(())
}

/// No cut of the bytes is read, and each of them with one bit flipped is read where the plain reader says so.
fn cut_and_flipped(
    rt: &impl Abort,
    alloc: Global,
    bytes: &[u8],
    starts: &[usize],
) -> Result<(), Fail> {
    for cut in 0..bytes.len() {
        assert_eq!(rt;
            read(alloc, &bytes[..cut]).err(),
            Some(FormFault::BadForm {
                place: field_of(starts, cut)
            })
        );
    }
    for index in 0..bytes.len() {
        for bit in [1u8, 2, 4, 8, 16, 32, 64, 128] {
            let mut flipped = Vec::from_slice(alloc, bytes)?;
            if let Some(byte) = flipped.get_mut(index) {
                *byte ^= bit;
            }
            assert_eq!(rt;
                read(alloc, flipped.as_slice()).is_ok(),
                is_datagram(flipped.as_slice())
            );
        }
    }
    Ok(())
}

#[test]
fn datagrams_are_read_and_written_and_no_cut_of_them(rt: HostRuntime) -> Result<(), Fail> {
    let alloc = rt.alloc();
    let rows = [
        (PING, [0, 2, 3, 4, 6].as_slice()),
        (PONG, [0, 2, 3, 4, 6].as_slice()),
        (
            SUMMARY,
            [0, 2, 3, 4, 6, 7, 8, 9, 11, 19, 23, 27, 29, 37, 41].as_slice(),
        ),
        (RECORDS, [0, 2, 3, 4, 6, 8, 9, 11, 19, 23, 25].as_slice()),
        (
            WIDE_SUMMARY,
            [0, 2, 3, 4, 6, 7, 8, 9, 11, 19, 27, 35, 37, 45, 53].as_slice(),
        ),
        (WIDE_NOTE, [0, 2, 3, 4, 6, 8, 9, 11, 19, 27, 29].as_slice()),
    ];
    for (bytes, starts) in &rows {
        written_back(&rt, alloc, *bytes)?;
        cut_and_flipped(&rt, alloc, *bytes, *starts)?;
    }
    Ok(())
}

#[test]
fn a_fault_is_where_its_field_begins(rt: HostRuntime) -> Result<(), Fail> {
    let rows = [
        (b"FG".as_slice(), 0),
        (b"FF\x00".as_slice(), 2),
        (b"FF\x01\x06".as_slice(), 3),
        // the sender 1,024
        (b"FF\x01\x01\x04\x00".as_slice(), 4),
        // a ping with a byte more
        (
            b"FF\x01\x01\x00\x02\x00\x00\x00\x00\x00\x00\x01\x02\x00".as_slice(),
            14,
        ),
        // page 32, flag 2, 33 entries
        (b"FF\x01\x03\x00\x02\x20".as_slice(), 6),
        (b"FF\x01\x03\x00\x02\x00\x02".as_slice(), 7),
        (b"FF\x01\x03\x00\x02\x00\x00\x21".as_slice(), 8),
        // member 32 on page 0; epoch 0 with a mask, and with rings
        (b"FF\x01\x03\x00\x02\x00\x00\x01\x00\x20".as_slice(), 9),
        (
            b"FF\x01\x03\x00\x02\x00\x00\x01\x00\x00\x00\x00\x00\x00\x00\x00\x00\x00\x00\x00\x00\x01".as_slice(),
            19,
        ),
        (
            b"FF\x01\x03\x00\x02\x00\x00\x01\x00\x00\x00\x00\x00\x00\x00\x00\x00\x00\x00\x00\x00\x00\x00\x00\x00\x01".as_slice(),
            23,
        ),
        // twice member 0; one entry and a byte more
        (
            b"FF\x01\x03\x00\x02\x00\x00\x02\x00\x00\x00\x00\x00\x00\x00\x00\x00\x01\x00\x00\x00\x07\x00\x00\x00\x00\x00\x00".as_slice(),
            27,
        ),
        (
            b"FF\x01\x03\x00\x02\x00\x00\x01\x00\x00\x00\x00\x00\x00\x00\x00\x00\x01\x00\x00\x00\x07\x00\x00\x00\x00\x00".as_slice(),
            27,
        ),
        // of eight bytes for a mask and rings: no entry; one that needs only four, alone and with a byte more
        (b"FF\x01\x05\x00\x02\x00\x00\x00".as_slice(), 8),
        (
            b"FF\x01\x05\x00\x02\x00\x00\x01\x00\x00\x00\x00\x00\x00\x00\x00\x00\x01\x00\x00\x00\x00\xff\xff\xff\xff\x00\x00\x00\x00\xff\xff\xff\xff".as_slice(),
            8,
        ),
        (
            b"FF\x01\x05\x00\x02\x00\x00\x01\x00\x00\x00\x00\x00\x00\x00\x00\x00\x01\x00\x00\x00\x00\xff\xff\xff\xff\x00\x00\x00\x00\xff\xff\xff\xff\x00".as_slice(),
            8,
        ),
        // one that needs eight, and a byte more; rings of epoch 0; twice member 0
        (
            b"FF\x01\x05\x00\x02\x00\x00\x01\x00\x00\x00\x00\x00\x00\x00\x00\x00\x01\x00\x00\x00\x00\x00\x00\x00\x00\x00\x00\x00\x01\x00\x00\x00\x00\x00".as_slice(),
            35,
        ),
        (
            b"FF\x01\x05\x00\x02\x00\x00\x01\x00\x00\x00\x00\x00\x00\x00\x00\x00\x00\x00\x00\x00\x00\x00\x00\x00\x00\x00\x00\x00\x00\x00\x00\x00\x01".as_slice(),
            27,
        ),
        (
            b"FF\x01\x05\x00\x02\x00\x00\x02\x00\x00\x00\x00\x00\x00\x00\x00\x00\x01\x00\x00\x00\x00\x00\x00\x00\x07\x00\x00\x00\x00\x00\x00\x00\x00\x00\x00".as_slice(),
            35,
        ),
        // no record; a record of kind 0
        (b"FF\x01\x04\x00\x02\x00\x00".as_slice(), 6),
        (b"FF\x01\x04\x00\x02\x00\x01\x00".as_slice(), 8),
        // a note of member 1,024, of epoch 0, with a signature of 0 bytes, of 9,005, and one that is cut short
        (b"FF\x01\x04\x00\x02\x00\x01\x02\x04\x00".as_slice(), 9),
        (
            b"FF\x01\x04\x00\x02\x00\x01\x02\x00\x02\x00\x00\x00\x00\x00\x00\x00\x00".as_slice(),
            11,
        ),
        (
            b"FF\x01\x04\x00\x02\x00\x01\x02\x00\x02\x00\x00\x00\x00\x00\x00\x00\x01\x00\x00\x00\x07\x00\x00".as_slice(),
            23,
        ),
        (
            b"FF\x01\x04\x00\x02\x00\x01\x02\x00\x02\x00\x00\x00\x00\x00\x00\x00\x01\x00\x00\x00\x07\x23\x2d".as_slice(),
            23,
        ),
        (
            b"FF\x01\x04\x00\x02\x00\x01\x02\x00\x02\x00\x00\x00\x00\x00\x00\x00\x01\x00\x00\x00\x07\x00\x05abcd".as_slice(),
            25,
        ),
        // a certificate with port 0, a tree of type 4, a one-time signature of type 5
        (
            b"FF\x01\x04\x00\x02\x00\x01\x01\x00\x02\x00\x00".as_slice(),
            11,
        ),
        (
            b"FF\x01\x04\x00\x02\x00\x01\x01\x00\x02\x4e\x22\x00\x00\x00\x04".as_slice(),
            13,
        ),
        (
            b"FF\x01\x04\x00\x02\x00\x01\x01\x00\x02\x4e\x22\x00\x00\x00\x05\x00\x00\x00\x05".as_slice(),
            17,
        ),
        // two records, of which the second is missing
        (
            b"FF\x01\x04\x00\x02\x00\x02\x02\x00\x02\x00\x00\x00\x00\x00\x00\x00\x01\x00\x00\x00\x07\x00\x01a".as_slice(),
            26,
        ),
    ];
    for (bytes, place) in &rows {
        assert_eq!(rt;
            read(rt.alloc(), *bytes).err(),
            Some(FormFault::BadForm { place: *place })
        );
    }
    Ok(())
}

#[test]
fn bytes_beyond_the_greatest_number_are_refused_first(rt: HostRuntime) -> Result<(), Fail> {
    let bytes = vec![in rt.alloc(); 0u8; 32769]?;
    assert_eq!(rt;
        read(rt.alloc(), bytes.as_slice()).err(),
        Some(FormFault::BadForm { place: 32768 })
    );
    assert_eq!(rt;
        read(rt.alloc(), &bytes[..32768]).err(),
        Some(FormFault::BadForm { place: 0 })
    );
    Ok(())
}

#[test]
fn the_head_of_records_is_that_of_their_datagram(rt: HostRuntime) {
    assert_eq!(rt; records_head(MemberId::new(2), 1).as_slice(), &RECORDS[..8]);
}
