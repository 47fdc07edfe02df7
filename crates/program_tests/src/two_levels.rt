//! Stores of keys of two levels, over objects in memory. The key and the marks are another implementation's.

use crate::runs::{Run, compare, run_over};
use crate::storing::GROUP;
use fixtures::disk;
use ports::MemoryDisk;
use std::alloc::Global;
use std::process::Abort;
use std::test::Fail;

const WIDE: &str = "group 16 4 1 2 00000000000000000000000000000000\n";

const SECRET: &str = "secret 5a5a5a5a5a5a5a5a5a5a5a5a5a5a5a5a5a5a5a5a5a5a5a5a5a5a5a5a5a5a5a5a\n";

/// What is written of the key, of W4 and height 5 at both levels.
const KEY: &[u8] =
    b"key 000000020000000500000003c3e9cc812c16af60f6352322d3fd28ac153df96b4a1ad63e990b7415cf19023dc5013f94\
    219b3f369c8d8ab0400b7ac7\n";

/// The mark of its store in the group.
const TAG: [u8; 32] =
    *b"\x2b\x0b\x52\x97\xeb\xf7\x9a\x60\xa1\xbc\x0a\xe5\x11\x5f\xcf\x04\x72\x31\xd4\x7e\xd7\xe8\xb0\xbe\xa7\x52\xf8\x20\x86\xdb\x5f\x99";

/// The mark of its store in the wide group.
const WIDE_TAG: [u8; 32] =
    *b"\xe2\xfe\x39\xe1\x65\x6e\x04\x6c\xf9\x74\x81\xb2\x5b\x65\x7c\x98\x83\x11\x8c\xee\x4b\x5c\xaa\xa3\xa9\x18\x22\xa5\xd1\x46\xea\x16";

/// Makes the store of the key. It enrolls nobody, since an authority's key has one level.
fn is_made(rt: &impl Abort, alloc: Global, disk: &mut MemoryDisk) -> Result<(), Fail> {
    let text = format!(in alloc; "fireflies 1 secret\n{GROUP}kinds 4 5 5\n{SECRET}end\n")?;
    compare(
        rt,
        &run_over(alloc, &["store", "a.st"], text.as_str(), disk)?,
        0,
        KEY,
    );
    assert_eq!(rt; disk.image().get(8..40), Some(TAG.as_slice()));
    let text = format!(in alloc; "fireflies 1 roster\n{GROUP}kinds 4 5 5\n{SECRET}end\n")?;
    compare(
        rt,
        &run_over(alloc, &["enroll", "a.st"], text.as_str(), disk)?,
        3,
        b"bad 3 count\n",
    );
    Ok(())
}

/// Moves the store of the key of these kinds.
fn moved(alloc: Global, kinds: &str, disk: &mut MemoryDisk) -> Result<Run, Fail> {
    let text = format!(in alloc; "fireflies 1 migrate\n{GROUP}{WIDE}{kinds}{SECRET}end\n")?;
    run_over(alloc, &["migrate", "a.st"], text.as_str(), disk)
}

/// The store is that of one height below, and moves with its key.
fn moves(rt: &impl Abort, alloc: Global, disk: &mut MemoryDisk) -> Result<(), Fail> {
    for kinds in ["kinds 4 5 10\n", "kinds 4 5\n"] {
        let got = moved(alloc, kinds, disk)?;
        assert_eq!(rt; got.number, 8);
        assert!(rt; got.written.as_slice().starts_with(b"store broken "));
    }
    compare(
        rt,
        &moved(alloc, "kinds 4 5 5\n", disk)?,
        0,
        b"migrated 1 0\n",
    );
    assert_eq!(rt; disk.image().get(74..106), Some(WIDE_TAG.as_slice()));
    Ok(())
}

#[test]
fn a_key_of_two_levels_has_a_store(rt: HostRuntime) -> Result<(), Fail> {
    let mut disk = disk(rt.alloc(), &[])?;
    is_made(&rt, rt.alloc(), &mut disk)?;
    moves(&rt, rt.alloc(), &mut disk)
}
