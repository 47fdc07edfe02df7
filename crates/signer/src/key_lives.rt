//! A key through calls in any order: openings, signatures, moves of its store, stops within any call of the disk, and
//! crashes.

ghost use Rattle.std.specs.Prelude.{◌≡◌, ◌<◌, ◌^◌, ℕ, List, length, Some, None, IfOk};
ghost use Rattle.std.specs.Vec.{vec_capacity};
ghost use Rattle.ff_ids.specs.declared.TheConstants.{MAX_RINGS};
ghost use Rattle.signer.specs.Lives.{Spent};
ghost use Rattle.signer.specs.Played.{told, IsQuiet, Under, under_after, EndsSomeNow, Stands, HandsOut, AreOnce, with_record};

use crate::Signer;
use epoch_store::{Store, make};
use ff_ids::{AccBody, Group, MAX_RINGS, Mask, MemberId};
use fields::NoMemory;
use ports::MemoryDisk;
use records::Checked;
use sign_keys::{Kinds, SignKey};
use std::alloc::Global;

const NAME: &str = "store";

/// The greatest next index that a store keeps.
const MOST: u32 = 32_768;

/// What a member keeps outside its store: what its key is made from.
#[derive(Clone, Copy)]
pub struct Holder {
    pub kinds: Kinds,
    pub id: [u8; 16],
    pub seed: [u8; 32],
}

/// What comes about.
#[derive(Clone, Copy)]
pub enum Act {
    /// The store is opened under this tag, and a signer of this group over it in place of the one before.
    Open(Group, [u8; 32]),
    /// The store is opened under the first tag, and moved to the second one and this mask, which has no bit at or above
    /// `MAX_RINGS`. No signer is left.
    Move([u8; 32], [u8; 32], Mask),
    /// A note is signed, if a signer is there.
    SignNote(MemberId, Mask),
    /// An accusation is signed, if a signer is there.
    SignAccusation(AccBody),
    /// So many more calls of the disk pass; the next one stops it, and the outcome picks the file.
    Arm(u64, u16),
    /// The disk crashes and comes up again, with the file that the outcome picks. No signer is left.
    Crash(u16),
}

/// Opens the store and a signer over it, if nothing fails.
fn reopen(
    alloc: Global,
    holder: &Holder,
    disk: &mut MemoryDisk,
    group: Group,
    tag: &[u8; 32],
) -> Option<Signer>
    ensures { (before : List ℕ) (spent : List Spent)
        → EndsSomeNow before spent (told disk.old)
        → Stands holder.now (record { group = group; tag = tag.now }) before spent result
        (told disk.new) }
{
    let Ok(store) = Store::open(disk, NAME, tag) else {
        return None;
    };
    if !holder.kinds.is_in_profile() {
        return None;
    }
    let Ok(key) = SignKey::make(alloc, holder.kinds, holder.id, holder.seed) else {
        return None;
    };
    if store.state().next > key.index_count() {
        return None;
    }
    Some(Signer::open(group, key, store))
}

/// Opens the store and moves it, if nothing fails.
fn move_store(disk: &mut MemoryDisk, tag: &[u8; 32], other: &[u8; 32], mask: Mask)
    requires { mask.0 < 2 ^ MAX_RINGS }
    ensures { (before : List ℕ) (spent : List Spent)
        → EndsSomeNow before spent (told disk.old)
        → EndsSomeNow before spent (told disk.new) }
{
    let Ok(mut store) = Store::open(disk, NAME, tag) else {
        return;
    };
    if store.state().next < MOST {
        let _ = store.migrate(disk, other, mask);
    }
}

fn sign_note(
    alloc: Global,
    holder: &Holder,
    disk: &mut MemoryDisk,
    signer: Option<Signer>,
    member: MemberId,
    mask: Mask,
) -> (Option<Signer>, Option<Checked>)
    requires { mask.0 < 2 ^ MAX_RINGS }
    ensures { (under : Under) (before : List ℕ) (spent : List Spent)
        → Stands holder.now under before spent signer (told disk.old)
        → HandsOut holder.now under before spent result.1 result.0 (told disk.new) }
{
    let _ = holder;
    let Some(mut signer) = signer else {
        return (None, None);
    };
    match signer.sign_note(alloc, disk, member, mask) {
        Ok(record) => (Some(signer), Some(record)),
        Err(_) => (Some(signer), None),
    }
}

fn sign_accusation(
    alloc: Global,
    holder: &Holder,
    disk: &mut MemoryDisk,
    signer: Option<Signer>,
    acc: AccBody,
) -> (Option<Signer>, Option<Checked>)
    ensures { (under : Under) (before : List ℕ) (spent : List Spent)
        → Stands holder.now under before spent signer (told disk.old)
        → HandsOut holder.now under before spent result.1 result.0 (told disk.new) }
{
    let _ = holder;
    let Some(mut signer) = signer else {
        return (None, None);
    };
    match signer.sign_accusation(alloc, disk, acc) {
        Ok(record) => (Some(signer), Some(record)),
        Err(_) => (Some(signer), None),
    }
}

/// Does the act: what signer is there then, and the record that was handed out, if one was.
fn turn(
    alloc: Global,
    holder: &Holder,
    disk: &mut MemoryDisk,
    signer: Option<Signer>,
    act: Act,
) -> (Option<Signer>, Option<Checked>)
    ensures { (under : Under) (before : List ℕ) (spent : List Spent)
        → Stands holder.now under before spent signer (told disk.old)
        → HandsOut holder.now (under_after act under) before spent result.1 result.0
        (told disk.new) }
{
    match act {
        Act::Open(group, tag) => (reopen(alloc, holder, disk, group, &tag), None),
        Act::Move(tag, other, mask) if mask.0 < 1 << MAX_RINGS => {
            move_store(disk, &tag, &other, mask);
            (None, None)
        }
        Act::Move(..) => (signer, None),
        Act::SignNote(member, mask) if mask.0 < 1 << MAX_RINGS => {
            sign_note(alloc, holder, disk, signer, member, mask)
        }
        Act::SignNote(..) => (signer, None),
        Act::SignAccusation(acc) => sign_accusation(alloc, holder, disk, signer, acc),
        Act::Arm(calls, outcome) => {
            disk.arm(calls, outcome);
            (signer, None)
        }
        Act::Crash(outcome) => {
            disk.crash(outcome);
            (None, None)
        }
    }
}

/// Keeps the record, if one was handed out.
fn keep(records: &mut Vec<Checked>, handed: Option<Checked>)
    requires { length records.old.items < vec_capacity records.old }
    ensures items { records.new.items ≡ with_record records.old.items handed }
    ensures capacity { vec_capacity records.new ≡ vec_capacity records.old }
{
    if let Some(record) = handed {
        records.push_reserved(record);
    }
}

/// Does all the acts on a disk whose file is a settled store, and gives the records that were handed out.
fn play_on(
    alloc: Global,
    holder: &Holder,
    disk: &mut MemoryDisk,
    acts: &[Act],
) -> Result<Vec<Checked>, NoMemory>
    requires { IsQuiet (told disk.old) }
    ensures { IfOk result (λ records. AreOnce holder.now records.items) }
{
    let mut records = Vec::with_capacity(alloc, acts.len())?;
    let mut signer = None;
    for act in acts {
        let (left, record) = turn(alloc, holder, disk, signer, *act);
        signer = left;
        keep(&mut records, record);
    }
    Ok(records)
}

/// Makes a store with this tag on a disk in memory that fails at the calls numbered in `fail`, and does all the acts.
/// Whatever they are, under whatever tags and for whatever groups, the records that were handed out are signed by leaves
/// whose indexes rise strictly, and so do the epochs of the notes among them. Of a key of two levels each top leaf signs one
/// message in all of them, the public key of its own bottom tree.
pub fn play(
    alloc: Global,
    holder: &Holder,
    tag: &[u8; 32],
    room: usize,
    changes: usize,
    fail: Vec<u64>,
    acts: &[Act],
) -> Result<Vec<Checked>, NoMemory>
    ensures { IfOk result (λ records. AreOnce holder.now records.items) }
{
    let mut disk = MemoryDisk::new(alloc, room, changes, fail)?;
    match make(&mut disk, NAME, tag, Mask(7)) {
        Ok(()) => play_on(alloc, holder, &mut disk, acts),
        Err(_) => Ok(Vec::new(alloc)),
    }
}
