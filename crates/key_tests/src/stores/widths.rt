//! Stores whose masks have eight bytes, and what the header says of it.

ghost use Rattle.std.specs.Prelude.{◌<◌, ◌^◌};
ghost use Rattle.ff_ids.specs.declared.TheConstants.{MAX_RINGS};

use super::{
    NAME, TAG, behind, broken, changed, compare_readers_of_all, disk_with_store, front, made_over,
    new_disk, opened, opened_changed, put_on, state_by, stored, two_entries,
};
use epoch_store::{Store, StoreError, Stored, make};
use ff_ids::Mask;
use ports::MemoryDisk;
use std::alloc::Global;
use std::test::Fail;

/// The least mask that no narrow entry holds.
const BIT_31: u64 = 2_147_483_648;

/// The mask of all 33 rings of a group of tolerance 16.
const ALL_33: u64 = 8_589_934_591;

/// A disk with a store that was made with this mask.
fn disk_made(alloc: Global, mask: u64) -> Result<MemoryDisk, Fail>
    requires { mask < 2 ^ MAX_RINGS }
{
    let mut disk = new_disk(alloc)?;
    make(&mut disk, NAME, &TAG, Mask(mask)).or(Err("make"))?;
    Ok(disk)
}

/// The bytes of a store that is made with this mask.
fn image_of(alloc: Global, mask: u64) -> Result<Vec<u8>, Fail>
    requires { mask < 2 ^ MAX_RINGS }
{
    let disk = disk_made(alloc, mask)?;
    Ok(disk.image().to_vec(alloc)?)
}

#[test]
fn a_store_is_made_wide_from_bit_31_on(rt: HostRuntime) -> Result<(), Fail> {
    let alloc = rt.alloc();
    let narrow = image_of(alloc, 2_147_483_647)?;
    assert_eq!(rt; narrow.len(), 58);
    assert_eq!(rt; front(&narrow, 8), b"FFSTORE1".as_slice());
    assert_eq!(rt; opened(alloc, &narrow)?, Ok(stored(0, 0, 2_147_483_647)));
    let wide = image_of(alloc, BIT_31)?;
    assert_eq!(rt; front(&wide, 8), b"FFSTORE2".as_slice());
    assert_eq!(rt; behind(front(&wide, 40), 8), TAG.as_slice());
    assert_eq!(rt;
        behind(&wide, 40),
        [
            1, 0, 0, 0, 0, 0, 0, 0, 0, 0, 0, 0, 0, 0, 0, 0, 0, 128, 0, 0, 0, 0
        ]
        .as_slice()
    );
    assert_eq!(rt; opened(alloc, &wide)?, Ok(stored(0, 0, BIT_31)));
    assert_eq!(rt;
        made_over(alloc, &wide)?,
        Err(StoreError::Taken { len: 62 })
    );
    Ok(())
}

/// The bytes of a store with the wide entries (0, 0, 8589934591) and (3, 2, 5).
fn two_wide_entries(alloc: Global) -> Result<Vec<u8>, Fail> {
    let mut disk = disk_made(alloc, ALL_33)?;
    put_on(&mut disk, &TAG, stored(3, 2, 5))?;
    Ok(disk.image().to_vec(alloc)?)
}

#[test]
fn each_cut_and_each_changed_byte_of_a_wide_store_is_answered_so(
    rt: HostRuntime,
) -> Result<(), Fail> {
    let alloc = rt.alloc();
    let good = two_wide_entries(alloc)?;
    assert_eq!(rt; good.len(), 83);
    assert_eq!(rt; opened(alloc, &good)?, Ok(stored(3, 2, 5)));
    compare_readers_of_all(&rt, alloc, &good, &TAG)
}

/// The entry that moves the store under its own tag: next 1, epoch 1, and bit 31.
const MOVED_BY_MASK: [u8; 17] = [1, 0, 0, 0, 1, 0, 0, 0, 0, 0, 0, 0, 1, 255, 255, 255, 255];

#[test]
fn a_narrow_store_moves_under_its_own_tag_for_a_wide_mask(rt: HostRuntime) -> Result<(), Fail> {
    let alloc = rt.alloc();
    let mut disk = disk_with_store(alloc)?;
    let before = disk.image().to_vec(alloc)?;
    put_on(&mut disk, &TAG, stored(1, 1, BIT_31))?;
    let image = disk.image().to_vec(alloc)?;
    assert_eq!(rt; image.len(), 115);
    assert_eq!(rt; front(&image, 57), front(&before, 57));
    assert_eq!(rt; behind(front(&image, 74), 57), MOVED_BY_MASK.as_slice());
    assert_eq!(rt; behind(front(&image, 106), 74), TAG.as_slice());
    assert_eq!(rt;
        behind(&image, 106),
        [0, 0, 0, 0, 128, 0, 0, 0, 0].as_slice()
    );
    assert_eq!(rt; opened(alloc, &image)?, Ok(stored(1, 1, BIT_31)));
    put_on(&mut disk, &TAG, stored(2, 2, 5))?;
    assert_eq!(rt; disk.image().len(), 136);
    assert_eq!(rt; opened(alloc, disk.image())?, Ok(stored(2, 2, 5)));
    Ok(())
}

/// Opens a store that was made with mask 7, and puts bit 31, stopped at this call of the put: what that answers.
fn put_stopped(
    disk: &mut MemoryDisk,
    calls: u64,
    outcome: u16,
) -> Result<Result<(), StoreError>, Fail> {
    let mut store = Store::open(disk, NAME, &TAG).or(Err("open"))?;
    let before = store.state();
    if before.next > 0 || before.epoch > 0 {
        return Err("another state".into());
    }
    disk.arm(calls, outcome);
    Ok(store.put(disk, stored(1, 1, BIT_31)))
}

/// What such a put answers, and the state that it leaves.
fn stopped(
    alloc: Global,
    calls: u64,
    outcome: u16,
) -> Result<(Result<(), StoreError>, Result<Stored, StoreError>), Fail> {
    let mut disk = disk_with_store(alloc)?;
    let answer = put_stopped(&mut disk, calls, outcome)?;
    disk.crash(0);
    Ok((answer, state_by(&mut disk, NAME, &TAG)))
}

#[test]
fn a_stop_as_a_store_moves_under_its_own_tag_leaves_the_old_state_or_the_new_one(
    rt: HostRuntime,
) -> Result<(), Fail> {
    for calls in 0..4u64 {
        for outcome in [0u16, 1, 2, 200] {
            let (answer, left) = stopped(rt.alloc(), calls, outcome)?;
            assert_eq!(rt; answer, Err(StoreError::Fault));
            let is_new = calls >= 2 && (outcome == 1 || outcome == 200);
            let state = if is_new {
                stored(1, 1, BIT_31)
            } else {
                stored(0, 0, 7)
            };
            assert_eq!(rt; left, Ok(state));
        }
    }
    Ok(())
}

#[test]
fn a_header_has_1_or_2(rt: HostRuntime) -> Result<(), Fail> {
    let alloc = rt.alloc();
    let narrow = image_of(alloc, 7)?;
    for byte in [b'0', b'3', 1, 2] {
        assert_eq!(rt;
            opened_changed(alloc, &narrow, 7, byte)?,
            broken(7, Some(byte))
        );
    }
    assert_eq!(rt; opened(alloc, front(&narrow, 7))?, broken(7, None));
    Ok(())
}

#[test]
fn entries_are_read_by_the_width_of_the_header(rt: HostRuntime) -> Result<(), Fail> {
    let alloc = rt.alloc();
    // The next gate is the fifth byte of the mask, which is closed by 255 and open by 1.
    let closed = image_of(alloc, ALL_33)?;
    assert_eq!(rt;
        opened_changed(alloc, &closed, 7, b'1')?,
        Ok(stored(0, 0, 1))
    );
    let open = image_of(alloc, 4_311_744_512)?;
    assert_eq!(rt; opened_changed(alloc, &open, 7, b'1')?, broken(62, None));
    let one = image_of(alloc, 7)?;
    assert_eq!(rt; opened_changed(alloc, &one, 7, b'2')?, broken(58, None));
    // The mask is followed by the gate and three bytes of the next entry, whose fourth closes.
    let two = two_entries(alloc)?;
    let read = stored(0, 0, 30_081_548_288);
    assert_eq!(rt; opened_changed(alloc, &two, 7, b'2')?, Ok(read));
    Ok(())
}

#[test]
fn a_mask_has_no_bit_too_many(rt: HostRuntime) -> Result<(), Fail> {
    let alloc = rt.alloc();
    let narrow = image_of(alloc, 7)?;
    assert_eq!(rt;
        opened_changed(alloc, &narrow, 53, 128)?,
        broken(53, Some(128))
    );
    let wide = image_of(alloc, ALL_33)?;
    assert_eq!(rt;
        opened_changed(alloc, &wide, 53, 128)?,
        broken(53, Some(128))
    );
    let most = changed(alloc, &wide, 53, 127)?;
    assert_eq!(rt;
        opened(alloc, &most)?,
        Ok(stored(0, 0, 9_151_314_451_406_782_463))
    );
    Ok(())
}
