//! A member whose key has two levels goes on from one bottom tree to the next.

use super::kits::{kit, mark_of_1};
use super::{Host, NAME, bare_host, make_store, run_to};
use epoch_store::{Store, Stored};
use ff_ids::Mask;
use fixtures::Kinds;
use lms_ots::OtsKind;
use lms_tree::TreeKind;
use ports::MemoryDisk;
use std::alloc::Global;
use std::process::Abort;
use std::test::Fail;

/// Bottom trees of 32 leaves.
const KINDS: Kinds = Kinds {
    ots: OtsKind::W8,
    tree: TreeKind::H5,
    bottom: Some(TreeKind::H5),
};

const LINE: &str = "kinds 8 5 5\n";

/// The last index of the first bottom tree signs the life's first note, and the first one of the second its leaving note.
const FIRST: &[u8] =
    b"at 0 spent 31 note 1 32 7\nat 0 entered 1\nturn 1 nothing ticks 0\nturn 2 nothing ticks 2\nat 2 spent 32 note 1 33 0\nat 2 removed 1\nend\n";

/// The life after it goes on in the second bottom tree.
const SECOND: &[u8] =
    b"at 0 spent 33 note 1 34 7\nat 0 entered 1\nturn 1 nothing ticks 0\nturn 2 nothing ticks 2\nend\n";

/// Makes a store with this mark, whose key has spent all of its first bottom tree but the last index.
fn make_spent(disk: &mut MemoryDisk, mark: &[u8; 32]) -> Result<(), Fail> {
    make_store(disk, mark)?;
    let mut store = Store::open(disk, NAME, mark).or(Err("no store"))?;
    if store.state().next > 0 || store.state().epoch > 0 {
        return Err("a store that was used".into());
    }
    let spent = Stored {
        next: 31,
        epoch: 31,
        mask: Mask(7),
    };
    Ok(store.put(disk, spent).or(Err("no put"))?)
}

/// The run writes this journal.
fn writes(
    rt: &impl Abort,
    alloc: Global,
    leave: bool,
    text: &str,
    host: &mut Host,
    wanted: &[u8],
) -> Result<(), Fail> {
    let ran = run_to(alloc, leave, text, host)?;
    assert_eq!(rt; ran.done, Ok(()));
    assert_eq!(rt; ran.out.bytes(), wanted);
    Ok(())
}

/// Two lives over one disk.
fn crosses(rt: &impl Abort, alloc: Global, text: &str, host: &mut Host) -> Result<(), Fail> {
    writes(rt, alloc, true, text, host, FIRST)?;
    writes(rt, alloc, false, text, host, SECOND)
}

#[test]
fn lives_go_on_from_a_bottom_tree_to_the_next(rt: HostRuntime) -> Result<(), Fail> {
    let alloc = rt.alloc();
    let text = kit(alloc, KINDS, LINE, 0)?;
    let mut host = bare_host(alloc, &[], &[], false)?;
    make_spent(&mut host.disk, &mark_of_1(alloc, KINDS)?)?;
    let done = crosses(&rt, alloc, text.as_str(), &mut host);
    drop(host);
    done
}
