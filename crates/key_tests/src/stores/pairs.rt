//! Signers over keys of two levels, of W4 and height 5 at both.

use super::{
    OUTCOMES, TAG, accusation, behind, disk_with_store, fault_of, front, open_with, put_on, stored,
};
use ff_ids::{Mask, MemberId};
use fields::Reader;
use lms_ots::OtsKind;
use lms_tree::TreeKind;
use ports::MemoryDisk;
use records::Checked;
use sign_keys::{Kinds, SignKey};
use signer::{SignFault, Signer};
use std::alloc::Global;
use std::test::Fail;

/// The bytes of a signature before that of the bottom tree: the level, the top signature and the bottom key.
const FRONT: usize = 2_408;

/// The signer of the one pair of these trials, over the store in the disk's file.
fn open_pair(alloc: Global, disk: &mut MemoryDisk) -> Result<Option<Signer>, Fail> {
    let kinds = Kinds {
        ots: OtsKind::W4,
        tree: TreeKind::H5,
        bottom: Some(TreeKind::H5),
    };
    let key = SignKey::make(alloc, kinds, [1; 16], [2; 32]).or(Err("key"))?;
    open_with(disk, key)
}

/// The signatures that were handed out: the last one's index, and what stood before its bottom signature.
#[derive(Drop)]
struct Handed {
    index: u32,
    front: Vec<u8>,
}

/// The index of a signature.
fn index_of(signature: &[u8]) -> Result<u32, Fail> {
    let top = Reader::new(behind(signature, 4)).u32().or(Err("short"))?;
    let bottom = Reader::new(behind(signature, FRONT))
        .u32()
        .or(Err("short"))?;
    Ok(top.wrapping_mul(32).wrapping_add(bottom))
}

impl Handed {
    /// Takes a record's signature. Its index is above all before, and what stands before the bottom signature is the same
    /// as before exactly where the bottom tree is.
    fn take(&mut self, alloc: Global, record: &Checked) -> Result<(), Fail> {
        let signature = record.rec().signature.as_slice();
        let (index, front) = (index_of(signature)?, front(signature, FRONT));
        if index <= self.index {
            return Err("an index came twice".into());
        }
        let is_first = self.front.is_empty();
        if !is_first && (index / 32 == self.index / 32) != (front == self.front.as_slice()) {
            return Err("a top leaf signed two keys".into());
        }
        self.index = index;
        self.front = front.to_vec(alloc)?;
        Ok(())
    }
}

/// Signs a note, an accusation and a note, or as many as the disk lets it.
fn sign_three(
    alloc: Global,
    signer: &mut Signer,
    disk: &mut MemoryDisk,
    handed: &mut Handed,
) -> Result<bool, Fail> {
    for is_note in [true, false, true] {
        let answer = if is_note {
            signer.sign_note(alloc, disk, MemberId::new(1), Mask(7))
        } else {
            signer.sign_accusation(alloc, disk, accusation())
        };
        match answer {
            Ok(record) => handed.take(alloc, &record)?,
            Err(SignFault::StoreFault) => return Ok(false),
            Err(_) => return Err("another fault".into()),
        }
    }
    Ok(true)
}

/// Opens the signer and signs three, or as many as the disk lets it: whether that was all.
fn open_and_sign(alloc: Global, disk: &mut MemoryDisk, handed: &mut Handed) -> Result<bool, Fail> {
    match open_pair(alloc, disk)? {
        Some(mut signer) => sign_three(alloc, &mut signer, disk, handed),
        None => Ok(false),
    }
}

/// Signs on from index 31, stopped at this call of the disk, crashes, and signs on: the last index, and whether the stop came
/// before the first three were signed.
fn stopped_at_the_border(alloc: Global, calls: u64, outcome: u16) -> Result<(u32, bool), Fail> {
    let mut disk = disk_with_store(alloc)?;
    put_on(&mut disk, &TAG, stored(31, 0, 7))?;
    let mut handed = Handed {
        index: 30,
        front: Vec::new(alloc),
    };
    disk.arm(calls, outcome);
    let whole = open_and_sign(alloc, &mut disk, &mut handed)?;
    disk.crash(outcome);
    // A stop that has not come yet may come only now.
    let again = open_and_sign(alloc, &mut disk, &mut handed)?;
    if !whole && !again {
        return Err("a disk that is up failed".into());
    }
    Ok((handed.index, !whole))
}

/// Index 31 is the last of the first bottom tree.
#[test]
fn a_border_is_passed_whatever_call_is_stopped(rt: HostRuntime) -> Result<(), Fail> {
    let mut last = (0, true);
    for calls in 0..20u64 {
        for outcome in OUTCOMES {
            last = stopped_at_the_border(rt.alloc(), calls, outcome)?;
            assert!(rt; 33 <= last.0 && last.0 <= 36);
        }
    }
    assert_eq!(rt; last, (33, false));
    Ok(())
}

/// What signing answers behind the last two indexes of the pair, and once it is opened again.
fn used_up(alloc: Global, disk: &mut MemoryDisk) -> Result<[SignFault; 2], Fail> {
    let mut handed = Handed {
        index: 1_021,
        front: Vec::new(alloc),
    };
    let mut signer = open_pair(alloc, disk)?.ok_or("open")?;
    for _ in 0..2 {
        let record = signer
            .sign_accusation(alloc, disk, accusation())
            .or(Err("sign"))?;
        handed.take(alloc, &record)?;
    }
    let first = fault_of(alloc, &mut signer, disk)?;
    let mut signer = open_pair(alloc, disk)?.ok_or("open")?;
    Ok([first, fault_of(alloc, &mut signer, disk)?])
}

#[test]
fn a_pair_is_used_up_behind_its_last_tree(rt: HostRuntime) -> Result<(), Fail> {
    let mut disk = disk_with_store(rt.alloc())?;
    put_on(&mut disk, &TAG, stored(1_022, 0, 7))?;
    let exhausted = SignFault::Exhausted { next: 1_024 };
    assert_eq!(rt; used_up(rt.alloc(), &mut disk)?, [exhausted, exhausted]);
    Ok(())
}
