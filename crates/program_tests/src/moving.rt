//! Stores that move to another group, over objects in memory.

use crate::runs::{Run, compare, run_failing, run_on, run_over};
use crate::storing::{GROUP, OWNER, enroll_in, make_store, signed_line, tag};
use edges::{Absent, NoClock};
use fixtures::disk;
use ports::{Disk, MemoryDisk};
use std::alloc::Global;
use std::process::Abort;
use std::test::Fail;

/// The group to which the stores move.
const WIDE: &str = "group 16 4 1 2 00000000000000000000000000000000\n";

const WORDS: [&str; 2] = ["migrate", "a.st"];

/// A text that moves the store of the key from the one group to the other.
fn moving(alloc: Global, from: &str, to: &str) -> Result<String, Fail> {
    Ok(format!(in alloc; "fireflies 1 migrate\n{from}{to}{OWNER}end\n")?)
}

/// Moves the store in the disk's file from the one group to the other.
fn move_from(alloc: Global, from: &str, to: &str, disk: &mut MemoryDisk) -> Result<Run, Fail> {
    let text = moving(alloc, from, to)?;
    run_over(alloc, &WORDS, text.as_str(), disk)
}

/// The store moves to the wide group, or doesn't: with this number, and just this written.
fn widens(
    rt: &impl Abort,
    alloc: Global,
    disk: &mut MemoryDisk,
    number: u8,
    written: &str,
) -> Result<(), Fail> {
    let got = move_from(alloc, GROUP, WIDE, disk)?;
    compare(rt, &got, number, written.as_bytes());
    Ok(())
}

/// The line that names where the tag in force, which begins at this place, isn't the one that is asked.
fn other_tag(alloc: Global, image: &[u8], place: usize, asked: &[u8; 32]) -> Result<String, Fail> {
    for (index, wanted) in asked.iter().enumerate() {
        let place = place.wrapping_add(index);
        match image.get(place) {
            Some(byte) if byte != wanted => {
                return Ok(format!(in alloc; "store broken {place} {byte}\n")?);
            }
            _ => {}
        }
    }
    Err("no other tag".into())
}

/// The next certificate in this group has this index.
fn signs_with(
    rt: &impl Abort,
    alloc: Global,
    group: &str,
    disk: &mut MemoryDisk,
    index: u8,
) -> Result<(), Fail> {
    let got = enroll_in(alloc, group, 1, disk)?;
    let line = signed_line(alloc, 0, index)?;
    assert_eq!(rt; got.number, 0);
    assert!(rt; got.written.as_slice().starts_with(line.as_bytes()));
    Ok(())
}

/// The store moved, from the entry that it was made with: the old text finds another key's, and so does whoever enrolls in
/// the old group.
fn is_refused_then(rt: &impl Abort, alloc: Global, disk: &mut MemoryDisk) -> Result<(), Fail> {
    let line = other_tag(alloc, disk.image(), 74, &tag(alloc, 1)?)?;
    widens(rt, alloc, disk, 8, &line)?;
    let got = enroll_in(alloc, GROUP, 1, disk)?;
    compare(rt, &got, 8, line.as_bytes());
    Ok(())
}

/// The store moved, or it didn't: in which group it signs, and with which index.
fn is_left(
    rt: &impl Abort,
    alloc: Global,
    disk: &mut MemoryDisk,
    has_moved: bool,
) -> Result<(), Fail> {
    if has_moved {
        is_refused_then(rt, alloc, disk)?;
        return signs_with(rt, alloc, WIDE, disk, 1);
    }
    let line = other_tag(alloc, disk.image(), 8, &tag(alloc, 16)?)?;
    let got = enroll_in(alloc, WIDE, 1, disk)?;
    compare(rt, &got, 8, line.as_bytes());
    signs_with(rt, alloc, GROUP, disk, 0)
}

/// The bytes of a store that was made and then moved.
fn moved_image(alloc: Global) -> Result<Vec<u8>, Fail> {
    let mut image = b"FFSTORE1".to_vec(alloc)?;
    image.extend_from_slice(&tag(alloc, 1)?)?;
    image.extend_from_slice(&[1, 0, 0, 0, 0, 0, 0, 0, 0, 0, 0, 0, 0, 0, 0, 0, 7])?;
    image.extend_from_slice(&[1, 0, 0, 0, 1, 0, 0, 0, 0, 0, 0, 0, 0, 255, 255, 255, 255])?;
    image.extend_from_slice(&tag(alloc, 16)?)?;
    image.extend_from_slice(&[0, 0, 0, 1, 255, 255, 255, 255, 0])?;
    Ok(image)
}

/// The store moves once.
fn moves_once(rt: &impl Abort, alloc: Global, disk: &mut MemoryDisk) -> Result<(), Fail> {
    let moved = moved_image(alloc)?;
    make_store(alloc, disk)?;
    widens(rt, alloc, disk, 0, "migrated 1 0\n")?;
    assert_eq!(rt; disk.image(), moved.as_slice());
    is_refused_then(rt, alloc, disk)?;
    assert_eq!(rt; disk.image(), moved.as_slice());
    signs_with(rt, alloc, WIDE, disk, 1)
}

#[test]
fn a_store_moves_once(rt: HostRuntime) -> Result<(), Fail> {
    let mut disk = disk(rt.alloc(), &[])?;
    moves_once(&rt, rt.alloc(), &mut disk)
}

/// The store goes on behind its indexes: to the wide group and back, where it signs on.
fn moves_back(rt: &impl Abort, alloc: Global, disk: &mut MemoryDisk) -> Result<(), Fail> {
    make_store(alloc, disk)?;
    signs_with(rt, alloc, GROUP, disk, 0)?;
    widens(rt, alloc, disk, 0, "migrated 2 0\n")?;
    signs_with(rt, alloc, WIDE, disk, 2)?;
    let got = move_from(alloc, WIDE, GROUP, disk)?;
    compare(rt, &got, 0, b"migrated 4 0\n");
    assert_eq!(rt; disk.image().len(), 214);
    signs_with(rt, alloc, GROUP, disk, 4)
}

#[test]
fn a_store_moves_back(rt: HostRuntime) -> Result<(), Fail> {
    let mut disk = disk(rt.alloc(), &[])?;
    moves_back(&rt, rt.alloc(), &mut disk)
}

/// Moves the store once so many certificates were signed, and asks for the next one in the wide group.
fn use_and_move(
    rt: &impl Abort,
    alloc: Global,
    disk: &mut MemoryDisk,
    count: u16,
    number: u8,
    written: &str,
) -> Result<(), Fail> {
    make_store(alloc, disk)?;
    enroll_in(alloc, GROUP, count, disk)?;
    widens(rt, alloc, disk, number, written)
}

/// A key with no index left: its store stays where it is.
fn is_used_up(rt: &impl Abort, alloc: Global, disk: &mut MemoryDisk) -> Result<(), Fail> {
    use_and_move(rt, alloc, disk, 32, 10, "exhausted 32\n")?;
    assert_eq!(rt; disk.image().len(), 602);
    let got = enroll_in(alloc, GROUP, 1, disk)?;
    compare(rt, &got, 10, b"exhausted 32\n");
    Ok(())
}

#[test]
fn the_store_of_a_used_up_key_stays(rt: HostRuntime) -> Result<(), Fail> {
    let mut disk = disk(rt.alloc(), &[])?;
    is_used_up(&rt, rt.alloc(), &mut disk)
}

/// The move takes the last index that the key has.
fn takes_last(rt: &impl Abort, alloc: Global, disk: &mut MemoryDisk) -> Result<(), Fail> {
    use_and_move(rt, alloc, disk, 31, 0, "migrated 32 0\n")?;
    let got = enroll_in(alloc, WIDE, 1, disk)?;
    compare(rt, &got, 10, b"exhausted 32\n");
    Ok(())
}

#[test]
fn a_move_takes_the_last_index(rt: HostRuntime) -> Result<(), Fail> {
    let mut disk = disk(rt.alloc(), &[])?;
    takes_last(&rt, rt.alloc(), &mut disk)
}

/// The disk fails or stops as the store moves: that is said, and then it has moved, or it hasn't.
fn is_cut_off(
    rt: &impl Abort,
    alloc: Global,
    disk: &mut MemoryDisk,
    has_moved: bool,
) -> Result<(), Fail> {
    widens(rt, alloc, disk, 7, "store fault\n")?;
    disk.crash(1);
    is_left(rt, alloc, disk, has_moved)
}

/// Moves a new store, which four calls made, on a disk that fails at this call: five open it, and four move it. Only the last
/// of these leaves it moved.
fn fail_to_move(rt: &impl Abort, alloc: Global, call: u64) -> Result<(), Fail> {
    let mut disk = disk(alloc, &[call])?;
    make_store(alloc, &mut disk)?;
    is_cut_off(rt, alloc, &mut disk, call == 12)
}

#[test]
fn a_disk_that_fails_at_each_call_of_a_move(rt: HostRuntime) -> Result<(), Fail> {
    for call in 4..13u64 {
        fail_to_move(&rt, rt.alloc(), call)?;
    }
    Ok(())
}

/// Moves a new store on a disk that stops behind so many calls, of which five open it. Before the entry is synced the old store
/// is left; then the outcome leaves the gate before it closed or open.
fn stop_a_move(rt: &impl Abort, alloc: Global, calls: u64, outcome: u16) -> Result<(), Fail> {
    let is_open = outcome == 1 || outcome == 200;
    let mut disk = disk(alloc, &[])?;
    make_store(alloc, &mut disk)?;
    disk.arm(calls, outcome);
    is_cut_off(rt, alloc, &mut disk, calls >= 7 && is_open)
}

#[test]
fn a_disk_that_stops_at_each_call_of_a_move(rt: HostRuntime) -> Result<(), Fail> {
    for calls in 5..9u64 {
        for outcome in [0u16, 1, 2, 200] {
            stop_a_move(&rt, rt.alloc(), calls, outcome)?;
        }
    }
    Ok(())
}

#[test]
fn an_empty_file_does_not_move(rt: HostRuntime) -> Result<(), Fail> {
    let mut disk = disk(rt.alloc(), &[])?;
    widens(&rt, rt.alloc(), &mut disk, 8, "store broken 0 none\n")?;
    assert!(rt; disk.image().is_empty());
    Ok(())
}

/// Moves the store where so many bytes of what is said can be written, and what is written is this.
fn move_unheard(
    rt: &impl Abort,
    alloc: Global,
    disk: &mut MemoryDisk,
    room: usize,
    written: &[u8],
) -> Result<(), Fail> {
    let text = moving(alloc, GROUP, WIDE)?;
    let got = run_on(
        alloc,
        &WORDS,
        text.as_str(),
        room,
        disk,
        &mut Absent::new(),
        &mut NoClock,
    )?;
    compare(rt, &got, 6, written);
    Ok(())
}

/// The store has moved though its line was not written, or only a part of it; and what a second run would say was not.
fn moves_unheard(rt: &impl Abort, alloc: Global, disk: &mut MemoryDisk) -> Result<(), Fail> {
    make_store(alloc, disk)?;
    move_unheard(rt, alloc, disk, 5, b"migra")?;
    move_unheard(rt, alloc, disk, 0, b"")?;
    is_left(rt, alloc, disk, true)
}

#[test]
fn a_store_whose_move_cannot_be_told_has_moved(rt: HostRuntime) -> Result<(), Fail> {
    let mut disk = disk(rt.alloc(), &[])?;
    moves_unheard(&rt, rt.alloc(), &mut disk)
}

/// A read of the text fails, the last one behind its end: no disk is touched.
fn is_unread(rt: &impl Abort, alloc: Global) -> Result<(), Fail> {
    let text = moving(alloc, GROUP, WIDE)?;
    for call in [0u64, 100, 201] {
        let got = run_failing(alloc, "migrate a.st", text.as_str(), 65_536, &[call], &[])?;
        compare(rt, &got, 5, b"read fault\n");
    }
    Ok(())
}

#[test]
fn a_text_that_cannot_be_read_moves_nothing(rt: HostRuntime) -> Result<(), Fail> {
    is_unread(&rt, rt.alloc())
}
