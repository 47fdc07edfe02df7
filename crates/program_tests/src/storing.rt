//! Stores that are made and used, over objects in memory.

use crate::runs::{Run, compare, run_over};
use epoch_store::make;
use ff_ids::{Group, Mask};
use fixtures::disk;
use lms_ots::OtsKind;
use lms_tree::TreeKind;
use ports::MemoryDisk;
use secrets::{make_key, store_tag};
use sign_keys::Kinds;
use std::alloc::Global;
use std::process::Abort;
use std::test::Fail;

/// The group in which the stores are made.
pub const GROUP: &str = "group 1 4 1 2 00000000000000000000000000000000\n";

/// What stands behind the groups of a text.
pub const OWNER: &str = "kinds 2 5\n\
    secret 5a5a5a5a5a5a5a5a5a5a5a5a5a5a5a5a5a5a5a5a5a5a5a5a5a5a5a5a5a5a5a5a\n";

const KEY: &str =
    "0000000500000004a1a1a1a1a1a1a1a1a1a1a1a1a1a1a1a1b2b2b2b2b2b2b2b2b2b2b2b2b2b2b2b2b2b2b2b2b2b2b2b2b2b2b2b2b2b2b2b2";

/// The text of the secret.
fn secret(alloc: Global) -> Result<String, Fail> {
    Ok(format!(in alloc; "fireflies 1 secret\n{GROUP}{OWNER}end\n")?)
}

/// A roster of the group that asks for so many certificates.
fn roster(alloc: Global, group: &str, count: u16) -> Result<String, Fail> {
    let mut text = format!(in alloc; "fireflies 1 roster\n{group}{OWNER}")?;
    for member in 0..count {
        let line = format!(in alloc; "cert {member} 20000 {KEY}\n")?;
        text.push_str(line.as_str())?;
    }
    text.push_str("end\n")?;
    Ok(text)
}

/// Whether the part stands at this place.
fn stands_at(text: &[u8], place: usize, part: &[u8]) -> bool {
    for (index, byte) in part.iter().enumerate() {
        if text.get(place.wrapping_add(index)) != Some(byte) {
            return false;
        }
    }
    true
}

/// Makes the store of the key in the disk's file.
pub fn make_store(alloc: Global, disk: &mut MemoryDisk) -> Result<Run, Fail> {
    let text = secret(alloc)?;
    run_over(alloc, &["store", "a.st"], text.as_str(), disk)
}

/// Asks the store in the disk's file for so many certificates in the group.
pub fn enroll_in(
    alloc: Global,
    group: &str,
    count: u16,
    disk: &mut MemoryDisk,
) -> Result<Run, Fail> {
    let text = roster(alloc, group, count)?;
    run_over(alloc, &["enroll", "a.st"], text.as_str(), disk)
}

/// Asks it for so many in the group in which it was made.
fn enroll(alloc: Global, count: u16, disk: &mut MemoryDisk) -> Result<Run, Fail> {
    enroll_in(alloc, GROUP, count, disk)
}

/// What a line begins with that certifies this member with this index.
pub fn signed_line(alloc: Global, member: u8, index: u8) -> Result<String, Fail> {
    Ok(format!(in alloc; "cert {member} 20000 {KEY} 0000000{index}")?)
}

/// The number of lines.
fn lines(text: &[u8]) -> u32 {
    let mut lines = 0u32;
    for byte in text {
        if *byte == b'\n' {
            lines = lines.wrapping_add(1);
        }
    }
    lines
}

/// The store is made: its key is written, and its image stands in the file.
fn is_made(rt: &impl Abort, alloc: Global, disk: &mut MemoryDisk) -> Result<(), Fail> {
    let made = make_store(alloc, disk)?;
    assert_eq!(rt; made.number, 0);
    assert_eq!(rt; made.written.len(), 117);
    assert_eq!(rt; stands_at(&made.written, 0, b"key 0000000500000002"), true);
    assert_eq!(rt; disk.image().len(), 58);
    Ok(())
}

/// The store is not made, for this cause.
fn is_not_made(
    rt: &impl Abort,
    alloc: Global,
    disk: &mut MemoryDisk,
    number: u8,
    cause: &[u8],
) -> Result<(), Fail> {
    let got = make_store(alloc, disk)?;
    compare(rt, &got, number, cause);
    Ok(())
}

#[test]
fn a_store_is_made_once(rt: HostRuntime) -> Result<(), Fail> {
    let mut disk = disk(rt.alloc(), &[])?;
    is_made(&rt, rt.alloc(), &mut disk)?;
    is_not_made(&rt, rt.alloc(), &mut disk, 12, b"store taken 58\n")
}

/// Makes the store on a disk that never fails, and asks it for so many certificates.
fn enroll_in_new(alloc: Global, count: u16) -> Result<Run, Fail> {
    let mut disk = disk(alloc, &[])?;
    make_store(alloc, &mut disk)?;
    enroll(alloc, count, &mut disk)
}

/// The half of two certificates that begins at this place certifies the member with the index of the same number.
fn is_half(
    rt: &impl Abort,
    alloc: Global,
    written: &[u8],
    place: usize,
    member: u8,
) -> Result<(), Fail> {
    let line = signed_line(alloc, member, member)?;
    assert_eq!(rt; stands_at(written, place, line.as_bytes()), true);
    assert_eq!(rt; written.len() / 2, line.len().wrapping_add(8_913));
    Ok(())
}

/// The two halves.
fn are_halves(rt: &impl Abort, alloc: Global, written: &[u8]) -> Result<(), Fail> {
    is_half(rt, alloc, written, 0, 0)?;
    is_half(rt, alloc, written, written.len() / 2, 1)
}

#[test]
fn each_certificate_has_the_next_index(rt: HostRuntime) -> Result<(), Fail> {
    let got = enroll_in_new(rt.alloc(), 2)?;
    assert_eq!(rt; got.number, 0);
    assert_eq!(rt; lines(&got.written), 2);
    are_halves(&rt, rt.alloc(), &got.written)
}

#[test]
fn a_key_is_used_up(rt: HostRuntime) -> Result<(), Fail> {
    let got = enroll_in_new(rt.alloc(), 33)?;
    assert_eq!(rt; got.number, 10);
    assert_eq!(rt; lines(&got.written), 33);
    assert_eq!(rt; got.written.as_slice().ends_with(b"\nexhausted 32\n"), true);
    Ok(())
}

/// The store is not made, and then the same words make it where nothing was written, and find it taken where only the
/// sync failed.
fn make_again(
    rt: &impl Abort,
    alloc: Global,
    disk: &mut MemoryDisk,
    call: u64,
) -> Result<(), Fail> {
    is_not_made(rt, alloc, disk, 7, b"store fault\n")?;
    assert_eq!(rt; disk.image().is_empty(), call < 3);
    match call {
        0..2 => Ok(()),
        3 => is_not_made(rt, alloc, disk, 12, b"store taken 58\n"),
        _ => is_made(rt, alloc, disk),
    }
}

/// Makes the store on a disk that fails at this call, of four.
fn make_twice(rt: &impl Abort, alloc: Global, call: u64) -> Result<(), Fail> {
    let mut disk = disk(alloc, &[call])?;
    make_again(rt, alloc, &mut disk, call)
}

#[test]
fn a_disk_that_fails_at_each_call_of_a_making(rt: HostRuntime) -> Result<(), Fail> {
    for call in 0..4u64 {
        make_twice(&rt, rt.alloc(), call)?;
    }
    Ok(())
}

/// The mark of the authority's store in a group of this tolerance.
pub fn tag(alloc: Global, t: u8) -> Result<[u8; 32], Fail> {
    let kinds = Kinds {
        ots: OtsKind::W2,
        tree: TreeKind::H5,
        bottom: None,
    };
    let key = make_key(alloc, kinds, &[0x5a; 32])?;
    let group = Group {
        tag: [0; 16],
        t,
        timeout: 4,
        period: 1,
        misses: 2,
    };
    Ok(store_tag(&group, &key))
}

/// Enrolls two in a store that is made here: so many lines stand above that of the cause.
fn fail_to_enroll(
    rt: &impl Abort,
    alloc: Global,
    tag: &[u8; 32],
    disk: &mut MemoryDisk,
    count: u32,
) -> Result<(), Fail> {
    make(disk, "a.st", tag, Mask(7)).or(Err("no store is made"))?;
    let got = enroll(alloc, 2, disk)?;
    assert_eq!(rt; got.number, 7);
    assert_eq!(rt; lines(&got.written), count.wrapping_add(1));
    assert!(rt; got.written.as_slice().ends_with(b"store fault\n"));
    Ok(())
}

/// Enrolls one, whose certificate has this index.
fn enroll_next(
    rt: &impl Abort,
    alloc: Global,
    disk: &mut MemoryDisk,
    index: u8,
) -> Result<(), Fail> {
    let got = enroll(alloc, 1, disk)?;
    let line = signed_line(alloc, 0, index)?;
    assert_eq!(rt; got.number, 0);
    assert!(rt; got.written.as_slice().starts_with(line.as_bytes()));
    Ok(())
}

/// Enrolls two on a disk that fails at this call: four made the store, five open it, and four sign each. So many lines
/// stand above that of the cause. Where an index is given, the next enrolment begins with it.
fn enroll_failing(
    rt: &impl Abort,
    alloc: Global,
    tag: &[u8; 32],
    call: u64,
    count: u32,
    next: Option<u8>,
) -> Result<(), Fail> {
    let mut disk = disk(alloc, &[call])?;
    fail_to_enroll(rt, alloc, tag, &mut disk, count)?;
    match next {
        Some(index) => enroll_next(rt, alloc, &mut disk, index),
        None => Ok(()),
    }
}

#[test]
fn a_disk_that_fails_as_an_authoritys_store_is_opened(rt: HostRuntime) -> Result<(), Fail> {
    let tag = tag(rt.alloc(), 1)?;
    for call in 4..9u64 {
        enroll_failing(&rt, rt.alloc(), &tag, call, 0, None)?;
    }
    Ok(())
}

/// Where the index may be stored, it is not used again.
#[test]
fn a_disk_that_fails_as_a_certificate_is_signed(rt: HostRuntime) -> Result<(), Fail> {
    let tag = tag(rt.alloc(), 1)?;
    for (call, next) in [(9u64, None), (10, None), (11, Some(0u8)), (12, Some(1))] {
        enroll_failing(&rt, rt.alloc(), &tag, call, 0, next)?;
    }
    Ok(())
}

#[test]
fn a_disk_that_fails_as_the_next_is_signed(rt: HostRuntime) -> Result<(), Fail> {
    let tag = tag(rt.alloc(), 1)?;
    for (call, next) in [(13u64, None), (14, None), (15, None), (16, Some(2u8))] {
        enroll_failing(&rt, rt.alloc(), &tag, call, 1, next)?;
    }
    Ok(())
}

#[test]
fn an_empty_file_is_no_store(rt: HostRuntime) -> Result<(), Fail> {
    let mut disk = disk(rt.alloc(), &[])?;
    let got = enroll(rt.alloc(), 1, &mut disk)?;
    compare(&rt, &got, 8, b"store broken 0 none\n");
    Ok(())
}

/// The words are refused on this disk.
fn name_nothing(
    rt: &impl Abort,
    alloc: Global,
    words: &[&str],
    disk: &mut MemoryDisk,
) -> Result<(), Fail> {
    let got = run_over(alloc, words, OWNER, disk)?;
    compare(rt, &got, 2, b"");
    Ok(())
}

#[test]
fn words_that_name_no_command(rt: HostRuntime) -> Result<(), Fail> {
    let mut disk = disk(rt.alloc(), &[])?;
    for words in [
        ["store", ""],
        ["migrate", ""],
        ["enrol", "a.st"],
        ["replay", "x"],
    ] {
        name_nothing(&rt, rt.alloc(), &words, &mut disk)?;
    }
    Ok(())
}
