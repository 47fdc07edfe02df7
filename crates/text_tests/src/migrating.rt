//! A store that moves to another group, over objects in memory.

use authority::{Halt, make_store, migrate_store};
use fixtures::{disk, sink, source};
use ports::{Disk, MemoryDisk};
use std::alloc::Global;
use std::process::Abort;
use std::test::Fail;

const SECRET: &str = "fireflies 1 secret\n\
    group 1 4 1 2 00000000000000000000000000000000\nkinds 2 5\n\
    secret 5a5a5a5a5a5a5a5a5a5a5a5a5a5a5a5a5a5a5a5a5a5a5a5a5a5a5a5a5a5a5a5a\nend\n";

const MOVE: &str = "fireflies 1 migrate\n\
    group 1 4 1 2 00000000000000000000000000000000\n\
    group 16 4 1 2 00000000000000000000000000000000\nkinds 2 5\n\
    secret 5a5a5a5a5a5a5a5a5a5a5a5a5a5a5a5a5a5a5a5a5a5a5a5a5a5a5a5a5a5a5a5a\nend\n";

/// A disk with a new store of the first group.
fn made(rt: &impl Abort, alloc: Global) -> Result<MemoryDisk, Fail> {
    let mut disk = disk(alloc, &[])?;
    let mut input = source(alloc, SECRET)?;
    let mut out = sink(alloc, 1000)?;
    assert_eq!(rt;
        make_store(alloc, "a.st", &mut input, &mut out, &mut disk),
        Ok(())
    );
    Ok(disk)
}

#[test]
fn a_store_moves_once(rt: HostRuntime) -> Result<(), Fail> {
    let mut disk = made(&rt, rt.alloc())?;
    let mut input = source(rt.alloc(), MOVE)?;
    let mut out = sink(rt.alloc(), 100)?;
    assert_eq!(rt;
        migrate_store(rt.alloc(), "a.st", &mut input, &mut out, &mut disk),
        Ok(())
    );
    assert_eq!(rt; out.bytes(), b"migrated 1 0\n".as_slice());
    assert_eq!(rt; disk.image().len(), 115);
    assert_eq!(rt;
        &disk.image()[106..],
        [0, 0, 0, 1, 255, 255, 255, 255, 0].as_slice()
    );
    let mut input = source(rt.alloc(), MOVE)?;
    let mut out = sink(rt.alloc(), 100)?;
    match migrate_store(rt.alloc(), "a.st", &mut input, &mut out, &mut disk) {
        Err(Halt::StoreBroken { place, .. }) => {
            assert!(rt; 74 <= place && place <= 105);
        }
        _ => return Err(Fail::from("not refused")),
    }
    assert_eq!(rt; out.bytes(), b"".as_slice());
    assert_eq!(rt; disk.image().len(), 115);
    Ok(())
}

#[test]
fn a_used_up_key_stays(rt: HostRuntime) -> Result<(), Fail> {
    let mut disk = made(&rt, rt.alloc())?;
    let entry = [1, 0, 0, 0, 32, 0, 0, 0, 0, 0, 0, 0, 0, 0, 0, 0, 7, 0];
    assert_eq!(rt; disk.write_at(57, &entry), Ok(()));
    let mut input = source(rt.alloc(), MOVE)?;
    let mut out = sink(rt.alloc(), 100)?;
    assert_eq!(rt;
        migrate_store(rt.alloc(), "a.st", &mut input, &mut out, &mut disk),
        Err(Halt::Exhausted { next: 32 })
    );
    assert_eq!(rt; out.bytes(), b"".as_slice());
    assert_eq!(rt; disk.image().len(), 75);
    Ok(())
}
