//! Stores that move to another tag and another mask.

ghost use Rattle.std.specs.Prelude.{◌≡◌, ◌<◌, ◌^◌, false};
ghost use Rattle.ff_ids.specs.declared.TheConstants.{MAX_RINGS};

use super::{
    NAME, TAG, behind, broken, changed, compare_readers_of_all, disk_with_store, failing_disk,
    front, new_disk, opened, opened_by, opened_changed, put_3_2_5, put_on, state_by, stored,
};
use epoch_store::{Store, StoreError, Stored, make};
use ff_ids::{Group, Mask, all_rings};
use lms_ots::OtsKind;
use lms_tree::{SecretKey, TreeKind};
use ports::MemoryDisk;
use secrets::store_tag;
use sign_keys::SignKey;
use std::alloc::Global;
use std::process::Abort;
use std::test::Fail;

const OTHER: [u8; 32] = [9; 32];

const THIRD: [u8; 32] = [11; 32];

/// The mask of all 33 rings of a group of tolerance 16.
const ALL_33: Mask = Mask(8_589_934_591);

/// Moves the store that is open: what that answers.
fn move_open(
    store: &mut Store,
    disk: &mut MemoryDisk,
    tag: &[u8; 32],
    mask: Mask,
) -> Result<Result<(), StoreError>, Fail>
    requires runs { store.old.failed ≡ false }
    requires mask { mask.0 < 2 ^ MAX_RINGS }
{
    if store.state().next >= 32_768 {
        return Err("no index is left".into());
    }
    Ok(store.migrate(disk, tag, mask))
}

/// Opens the store of the one tag, and moves it to the other and this mask: what that answers.
fn move_from(
    disk: &mut MemoryDisk,
    from: &[u8; 32],
    tag: &[u8; 32],
    mask: Mask,
) -> Result<Result<(), StoreError>, Fail>
    requires { mask.0 < 2 ^ MAX_RINGS }
{
    let mut store = Store::open(disk, NAME, from).or(Err("open"))?;
    move_open(&mut store, disk, tag, mask)
}

/// Opens the store of the one tag, and moves it.
fn moves(disk: &mut MemoryDisk, from: &[u8; 32], tag: &[u8; 32], mask: Mask) -> Result<(), Fail>
    requires { mask.0 < 2 ^ MAX_RINGS }
{
    move_from(disk, from, tag, mask)?.or(Err("move"))?;
    Ok(())
}

/// The bytes of a store that was made with mask 7 and then moved to all 33 rings.
fn moved_once(alloc: Global) -> Result<Vec<u8>, Fail> {
    let mut disk = disk_with_store(alloc)?;
    moves(&mut disk, &TAG, &OTHER, ALL_33)?;
    Ok(disk.image().to_vec(alloc)?)
}

/// The bytes of a store with two narrow entries, one that moves it, and (6, 3, 4294967303).
fn four_entries(alloc: Global) -> Result<Vec<u8>, Fail> {
    let mut disk = disk_with_store(alloc)?;
    put_3_2_5(&mut disk)?;
    moves(&mut disk, &TAG, &OTHER, ALL_33)?;
    put_on(&mut disk, &OTHER, stored(6, 3, 4_294_967_303))?;
    Ok(disk.image().to_vec(alloc)?)
}

fn other_key(place: u64, byte: u8) -> Result<Stored, StoreError> {
    Err(StoreError::OtherKey { place, byte })
}

#[test]
fn each_cut_and_each_changed_byte_of_a_moved_store_is_answered_so(
    rt: HostRuntime,
) -> Result<(), Fail> {
    let alloc = rt.alloc();
    let good = four_entries(alloc)?;
    assert_eq!(rt; good.len(), 153);
    assert_eq!(rt;
        opened_by(alloc, &good, &OTHER)?,
        Ok(stored(6, 3, 4_294_967_303))
    );
    assert_eq!(rt; opened_by(alloc, &good, &TAG)?, other_key(91, 9));
    compare_readers_of_all(&rt, alloc, &good, &OTHER)
}

#[test]
fn the_old_tag_of_a_moved_store_is_answered_so(rt: HostRuntime) -> Result<(), Fail> {
    let alloc = rt.alloc();
    let good = four_entries(alloc)?;
    compare_readers_of_all(&rt, alloc, &good, &TAG)
}

#[test]
fn a_move_is_an_entry_with_a_tag(rt: HostRuntime) -> Result<(), Fail> {
    let alloc = rt.alloc();
    let image = moved_once(alloc)?;
    assert_eq!(rt; image.len(), 115);
    assert_eq!(rt; front(&image, 8), b"FFSTORE1".as_slice());
    assert_eq!(rt;
        behind(front(&image, 74), 57),
        [1, 0, 0, 0, 1, 0, 0, 0, 0, 0, 0, 0, 0, 255, 255, 255, 255].as_slice()
    );
    assert_eq!(rt; behind(front(&image, 106), 74), OTHER.as_slice());
    assert_eq!(rt;
        behind(&image, 106),
        [0, 0, 0, 1, 255, 255, 255, 255, 0].as_slice()
    );
    Ok(())
}

fn group(t: u8) -> Group {
    Group {
        tag: [0; 16],
        t,
        timeout: 3,
        period: 1,
        misses: 2,
    }
}

/// The mark of the one key's store in a group of this tolerance.
fn tag_in(alloc: Global, t: u8) -> Result<[u8; 32], Fail> {
    let key = SecretKey::make(alloc, TreeKind::H5, OtsKind::W4, [1; 16], [2; 32]).or(Err("key"))?;
    let (tree, leaves) = key.split();
    Ok(store_tag(&group(t), &SignKey::Lms(tree, leaves)))
}

/// The place and the byte at which the store in the disk's file is found to be another key's than of this tag.
fn place_of_other(disk: &mut MemoryDisk, tag: &[u8; 32]) -> Result<(u64, u8), Fail> {
    match state_by(disk, NAME, tag) {
        Err(StoreError::OtherKey { place, byte }) => Ok((place, byte)),
        _ => Err("no store of another key".into()),
    }
}

#[test]
fn a_store_moves_to_a_greater_tolerance(rt: HostRuntime) -> Result<(), Fail> {
    let alloc = rt.alloc();
    let old = tag_in(alloc, 1)?;
    let new = tag_in(alloc, 16)?;
    let mut disk = new_disk(alloc)?;
    make(&mut disk, NAME, &old, all_rings(1)).or(Err("make"))?;
    moves(&mut disk, &old, &new, all_rings(16))?;
    assert_eq!(rt; disk.image().len(), 115);
    assert_eq!(rt;
        state_by(&mut disk, NAME, &new),
        Ok(stored(1, 0, 8_589_934_591))
    );
    let (place, byte) = place_of_other(&mut disk, &old)?;
    assert_eq!(rt; place >= 74 && place <= 105, true);
    assert_eq!(rt; disk.image().get(place as usize), Some(&byte));
    Ok(())
}

/// What is left of a move: what opening with the old tag answers, and with the new one.
type Left = (Result<Stored, StoreError>, Result<Stored, StoreError>);

fn left_on(disk: &mut MemoryDisk) -> Left {
    let old = state_by(disk, NAME, &TAG);
    let new = state_by(disk, NAME, &OTHER);
    (old, new)
}

/// The store wasn't moved.
fn unmoved() -> Left {
    (Ok(stored(0, 0, 7)), other_key(8, 5))
}

/// The store was moved.
fn moved() -> Left {
    (other_key(74, 9), Ok(stored(1, 0, 8_589_934_591)))
}

/// Opens a store and moves it, stopped at this call of the move: what that answers.
fn move_stopped(
    disk: &mut MemoryDisk,
    calls: u64,
    outcome: u16,
) -> Result<Result<(), StoreError>, Fail> {
    let mut store = Store::open(disk, NAME, &TAG).or(Err("open"))?;
    disk.arm(calls, outcome);
    move_open(&mut store, disk, &OTHER, ALL_33)
}

/// What a move answers that is stopped so, and what it leaves.
fn stopped(
    alloc: Global,
    calls: u64,
    outcome: u16,
) -> Result<(Result<(), StoreError>, Left), Fail> {
    let mut disk = disk_with_store(alloc)?;
    let answer = move_stopped(&mut disk, calls, outcome)?;
    disk.crash(0);
    Ok((answer, left_on(&mut disk)))
}

#[test]
fn a_stop_within_a_move_leaves_the_old_store_or_the_new_one(rt: HostRuntime) -> Result<(), Fail> {
    for calls in 0..4u64 {
        for outcome in [0u16, 1, 2, 200] {
            let (answer, left) = stopped(rt.alloc(), calls, outcome)?;
            assert_eq!(rt; answer, Err(StoreError::Fault));
            let is_new = calls >= 2 && (outcome == 1 || outcome == 200);
            assert_eq!(rt; left, if is_new { moved() } else { unmoved() });
        }
    }
    Ok(())
}

/// Makes a store, opens it, moves it, and opens it again: which of these failed first.
fn first_failed(disk: &mut MemoryDisk) -> Result<&'static str, Fail> {
    if make(disk, NAME, &TAG, Mask(7)).is_err() {
        return Ok("make");
    }
    let mut store = match Store::open(disk, NAME, &TAG) {
        Ok(store) => store,
        Err(_) => return Ok("open"),
    };
    if move_open(&mut store, disk, &OTHER, ALL_33)?.is_err() {
        return Ok("move");
    }
    match state_by(disk, NAME, &OTHER) {
        Ok(_) => Ok("none"),
        Err(_) => Ok("again"),
    }
}

/// Which of these failed first on a disk of which this call fails, counted from 0, and what is left.
fn failed(alloc: Global, call: u64) -> Result<(&'static str, Left), Fail> {
    let mut disk = failing_disk(alloc, [call].to_vec(alloc)?)?;
    let first = first_failed(&mut disk)?;
    Ok((first, left_on(&mut disk)))
}

#[test]
fn each_call_of_a_move_makes_its_disk_calls_and_no_more(rt: HostRuntime) -> Result<(), Fail> {
    let names = [
        "make", "make", "make", "make", "open", "open", "open", "open", "open", "move", "move",
        "move", "move", "again", "again", "again", "again", "again", "again", "again", "none",
    ];
    for (call, name) in names.iter().enumerate() {
        let (first, _) = failed(rt.alloc(), call as u64)?;
        assert_eq!(rt; first, *name);
    }
    Ok(())
}

#[test]
fn a_move_that_fails_leaves_the_old_store_or_the_new_one(rt: HostRuntime) -> Result<(), Fail> {
    for call in 9..12u64 {
        assert_eq!(rt; failed(rt.alloc(), call)?, ("move", unmoved()));
    }
    assert_eq!(rt; failed(rt.alloc(), 12)?, ("move", moved()));
    Ok(())
}

/// The bytes of a store that was moved to all 33 rings, and then to another tag and mask 7.
fn moved_twice(alloc: Global) -> Result<Vec<u8>, Fail> {
    let mut disk = disk_with_store(alloc)?;
    moves(&mut disk, &TAG, &OTHER, ALL_33)?;
    moves(&mut disk, &OTHER, &THIRD, Mask(7))?;
    Ok(disk.image().to_vec(alloc)?)
}

#[test]
fn a_store_moves_twice(rt: HostRuntime) -> Result<(), Fail> {
    let alloc = rt.alloc();
    let image = moved_twice(alloc)?;
    assert_eq!(rt; image.len(), 176);
    assert_eq!(rt; opened_by(alloc, &image, &THIRD)?, Ok(stored(2, 0, 7)));
    assert_eq!(rt; opened_by(alloc, &image, &OTHER)?, other_key(135, 11));
    assert_eq!(rt; opened_by(alloc, &image, &TAG)?, other_key(135, 11));
    // Where its last gate is closed, the move before is in force.
    let closed = changed(alloc, &image, 114, 0)?;
    assert_eq!(rt;
        opened_by(alloc, &closed, &OTHER)?,
        Ok(stored(1, 0, 8_589_934_591))
    );
    Ok(())
}

/// The pieces, one behind the other.
fn joined(alloc: Global, first: &[u8], second: &[u8]) -> Result<Vec<u8>, Fail> {
    let mut bytes = first.to_vec(alloc)?;
    bytes.extend_from_slice(second)?;
    Ok(bytes)
}

/// The header of a narrow or a wide store, and an entry that moves it, with next 1 and as its first one.
fn moves_first(alloc: Global, wide: bool) -> Result<Vec<u8>, Fail> {
    let image = moved_twice(alloc)?;
    if wide {
        let header = changed(alloc, front(&image, 40), 7, b'2')?;
        return joined(alloc, &header, behind(&image, 114));
    }
    joined(alloc, front(&image, 40), behind(front(&image, 115), 57))
}

#[test]
fn a_first_entry_moves_nothing(rt: HostRuntime) -> Result<(), Fail> {
    let alloc = rt.alloc();
    let narrow = moves_first(alloc, false)?;
    assert_eq!(rt; opened(alloc, &narrow)?, broken(53, Some(255)));
    assert_eq!(rt; opened_by(alloc, &narrow, &OTHER)?, broken(53, Some(255)));
    let wide = moves_first(alloc, true)?;
    assert_eq!(rt; opened(alloc, &wide)?, broken(53, Some(255)));
    // The numbers come before the mark.
    assert_eq!(rt; opened_changed(alloc, &narrow, 41, 1)?, broken(41, Some(1)));
    assert_eq!(rt; opened_changed(alloc, &narrow, 45, 1)?, broken(45, Some(1)));
    Ok(())
}

/// The file ends at each place of the entry that begins behind the gate at this place, and is broken there.
fn compare_tails(
    rt: &impl Abort,
    alloc: Global,
    bytes: &[u8],
    gate: usize,
    end: usize,
) -> Result<(), Fail> {
    for len in gate..end {
        let cut = front(bytes, len);
        assert_eq!(rt; opened(alloc, cut)?, broken(len as u64, None));
    }
    Ok(())
}

#[test]
fn a_tail_that_is_cut_is_missing_before_any_field_is_wrong(rt: HostRuntime) -> Result<(), Fail> {
    let alloc = rt.alloc();
    let first = moves_first(alloc, false)?;
    compare_tails(&rt, alloc, &first, 41, 97)?;
    let second = changed(alloc, &moved_once(alloc)?, 58, 1)?;
    compare_tails(&rt, alloc, &second, 58, 114)?;
    assert_eq!(rt; opened(alloc, front(&second, 114))?, broken(58, Some(1)));
    Ok(())
}

#[test]
fn the_fields_of_a_move_are_asked_in_turn(rt: HostRuntime) -> Result<(), Fail> {
    let alloc = rt.alloc();
    let good = moved_once(alloc)?;
    // A next index, an epoch and a mask that are too great, each beside those behind it.
    let mask = changed(alloc, &good, 106, 128)?;
    assert_eq!(rt; opened(alloc, &mask)?, broken(106, Some(128)));
    let epoch = changed(alloc, &mask, 62, 1)?;
    assert_eq!(rt; opened(alloc, &epoch)?, broken(62, Some(1)));
    let next = changed(alloc, &epoch, 58, 1)?;
    assert_eq!(rt; opened(alloc, &next)?, broken(58, Some(1)));
    // Another key's tag comes behind all of them, and behind the end of the file.
    assert_eq!(rt; opened_by(alloc, &mask, &THIRD)?, broken(106, Some(128)));
    assert_eq!(rt;
        opened_by(alloc, front(&good, 114), &THIRD)?,
        broken(114, None)
    );
    assert_eq!(rt; opened_by(alloc, &good, &THIRD)?, other_key(74, 9));
    Ok(())
}
