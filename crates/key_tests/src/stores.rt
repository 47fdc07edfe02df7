//! Disks in memory under stores and signers.

mod moves;
mod pairs;
mod plain;
mod widths;

ghost use Rattle.std.specs.Prelude.{◌≡◌, ◌<◌, IfOk, length};
ghost use Rattle.epoch_store.specs.Store.{IsEntry};
ghost use Rattle.sign_keys.specs.Keys.{IsOfOneKey, next_of};

use epoch_store::{Store, StoreError, Stored, make};
use ff_ids::{AccBody, Epoch, Group, Mask, MemberId, RingNo};
use fields::Reader;
use lms_ots::OtsKind;
use lms_tree::{SecretKey, TreeKind};
use plain::state_of;
use ports::{Disk, Failed, MemoryDisk};
use records::{Body, CertBody, Checked, Key};
use sign_keys::SignKey;
use signer::{SignFault, Signer};
use std::alloc::Global;
use std::process::Abort;
use std::test::Fail;

const TAG: [u8; 32] = [5; 32];

const NAME: &str = "a.st";

/// A disk of which these calls fail.
fn failing_disk(alloc: Global, fail: Vec<u64>) -> Result<MemoryDisk, Fail> {
    Ok(MemoryDisk::new(alloc, 700, 200, fail)?)
}

fn new_disk(alloc: Global) -> Result<MemoryDisk, Fail> {
    failing_disk(alloc, Vec::new(alloc))
}

/// Writes the bytes, and settles them.
fn write_all(disk: &mut MemoryDisk, bytes: &[u8]) -> Result<(), Failed> {
    let mut place = 0;
    for part in bytes.chunks(60) {
        disk.write_at(place, part)?;
        place = place.wrapping_add(part.len() as u64);
    }
    disk.sync()
}

/// A disk whose file has these bytes, settled.
fn disk_with(alloc: Global, bytes: &[u8]) -> Result<MemoryDisk, Fail> {
    let mut disk = new_disk(alloc)?;
    write_all(&mut disk, bytes).or(Err("write"))?;
    Ok(disk)
}

/// A disk with a store that was made with mask 7.
fn disk_with_store(alloc: Global) -> Result<MemoryDisk, Fail> {
    let mut disk = new_disk(alloc)?;
    make(&mut disk, NAME, &TAG, Mask(7)).or(Err("make"))?;
    Ok(disk)
}

/// What opening the store of this tag in the disk's file answers.
fn state_by(disk: &mut MemoryDisk, name: &str, tag: &[u8; 32]) -> Result<Stored, StoreError> {
    let store = Store::open(disk, name, tag)?;
    Ok(store.state())
}

/// What opening the store of this tag in the file with these bytes answers.
fn opened_by(
    alloc: Global,
    bytes: &[u8],
    tag: &[u8; 32],
) -> Result<Result<Stored, StoreError>, Fail> {
    let mut disk = disk_with(alloc, bytes)?;
    Ok(state_by(&mut disk, NAME, tag))
}

/// What opening the file with these bytes answers.
fn opened(alloc: Global, bytes: &[u8]) -> Result<Result<Stored, StoreError>, Fail> {
    opened_by(alloc, bytes, &TAG)
}

fn stored(next: u32, epoch: u64, mask: u64) -> Stored
    ensures value { (result.next ≡ next) × (result.epoch ≡ epoch) × (result.mask.0 ≡ mask) }
{
    Stored {
        next,
        epoch,
        mask: Mask(mask),
    }
}

/// The 58 bytes, and no other number.
fn copy_of_58(alloc: Global, bytes: &[u8]) -> Result<Vec<u8>, Fail>
    ensures { IfOk result (λ copy. length copy.items ≡ 58) }
{
    if bytes.len() != 58 {
        return Err("another length".into());
    }
    Ok(bytes.to_vec(alloc)?)
}

/// The bytes of a store that is made new with mask 7.
fn made(alloc: Global) -> Result<Vec<u8>, Fail>
    ensures { IfOk result (λ bytes. length bytes.items ≡ 58) }
{
    let disk = disk_with_store(alloc)?;
    copy_of_58(alloc, disk.image())
}

/// The first so many bytes, if there are as many.
fn front(bytes: &[u8], count: usize) -> &[u8] {
    if count <= bytes.len() {
        &bytes[..count]
    } else {
        bytes
    }
}

/// The bytes behind the first so many, if there are any.
fn behind(bytes: &[u8], count: usize) -> &[u8] {
    if count <= bytes.len() {
        &bytes[count..]
    } else {
        &[]
    }
}

/// The bytes with one of them changed.
fn changed(alloc: Global, bytes: &[u8], place: usize, value: u8) -> Result<Vec<u8>, Fail> {
    let mut bytes = bytes.to_vec(alloc)?;
    if place < bytes.len() {
        bytes[place] = value;
    }
    Ok(bytes)
}

/// The bytes are those of a store that is made new with mask 7.
fn compare_made(rt: &impl Abort, bytes: &[u8])
    requires { length bytes.now ≡ 58 }
{
    assert_eq!(rt; bytes.len(), 58);
    assert_eq!(rt; &bytes[..8], b"FFSTORE1".as_slice());
    assert_eq!(rt; &bytes[8..40], TAG.as_slice());
    assert_eq!(rt;
        &bytes[40..],
        [1, 0, 0, 0, 0, 0, 0, 0, 0, 0, 0, 0, 0, 0, 0, 0, 7, 0].as_slice()
    );
}

/// What making a store answers where the file has these bytes.
fn made_over(alloc: Global, bytes: &[u8]) -> Result<Result<(), StoreError>, Fail> {
    let mut disk = disk_with(alloc, bytes)?;
    Ok(make(&mut disk, NAME, &TAG, Mask(7)))
}

/// What opening the file answers once one of these bytes is changed.
fn opened_changed(
    alloc: Global,
    bytes: &[u8],
    place: usize,
    value: u8,
) -> Result<Result<Stored, StoreError>, Fail> {
    let bytes = changed(alloc, bytes, place, value)?;
    opened(alloc, &bytes)
}

#[test]
fn a_made_store_has_58_bytes_and_is_made_once(rt: HostRuntime) -> Result<(), Fail> {
    let alloc = rt.alloc();
    let bytes = made(alloc)?;
    compare_made(&rt, &bytes);
    let taken = StoreError::Taken { len: 58 };
    assert_eq!(rt; made_over(alloc, &bytes)?, Err(taken));
    assert_eq!(rt; opened(alloc, &bytes)?, Ok(stored(0, 0, 7)));
    Ok(())
}

fn broken(place: u64, byte: Option<u8>) -> Result<Stored, StoreError> {
    Err(StoreError::Broken { place, byte })
}

/// A file with too few of the bytes is no store.
fn compare_cuts(rt: &impl Abort, alloc: Global, good: &[u8]) -> Result<(), Fail> {
    assert_eq!(rt; opened(alloc, &[])?, broken(0, None));
    assert_eq!(rt; opened(alloc, &[b'X'])?, broken(0, Some(b'X')));
    assert_eq!(rt; opened(alloc, front(good, 39))?, broken(39, None));
    assert_eq!(rt; opened(alloc, front(good, 57))?, broken(57, None));
    Ok(())
}

/// A file with one of the bytes changed is the store of another key, or no store, or a store.
fn compare_changes(rt: &impl Abort, alloc: Global, good: &[u8]) -> Result<(), Fail> {
    let other = Err(StoreError::OtherKey { place: 8, byte: 6 });
    assert_eq!(rt; opened_changed(alloc, good, 8, 6)?, other);
    assert_eq!(rt; opened_changed(alloc, good, 40, 0)?, broken(40, Some(0)));
    assert_eq!(rt; opened_changed(alloc, good, 57, 7)?, Ok(stored(0, 0, 7)));
    assert_eq!(rt; opened_changed(alloc, good, 57, 1)?, broken(58, None));
    Ok(())
}

#[test]
fn a_file_that_is_no_store_is_refused_at_its_place(rt: HostRuntime) -> Result<(), Fail> {
    let good = made(rt.alloc())?;
    compare_cuts(&rt, rt.alloc(), &good)?;
    compare_changes(&rt, rt.alloc(), &good)
}

/// Opens a store that was made, and puts the entry: what the put answers, and the state behind it.
fn put_second(disk: &mut MemoryDisk, next: Stored) -> Result<(Result<(), StoreError>, Stored), Fail>
    requires entry { IsEntry next }
    requires rises { 0 < next.next }
{
    let mut store = Store::open(disk, NAME, &TAG).or(Err("open"))?;
    let state = store.state();
    if state.next > 0 || state.epoch > 0 {
        return Err("another state".into());
    }
    let answer = store.put(disk, next);
    Ok((answer, store.state()))
}

/// Opens the store of this tag, and puts the state.
fn put_on(disk: &mut MemoryDisk, tag: &[u8; 32], next: Stored) -> Result<(), Fail>
    requires { IsEntry next }
{
    let mut store = Store::open(disk, NAME, tag).or(Err("open"))?;
    let before = store.state();
    if before.next >= next.next || before.epoch > next.epoch {
        return Err("an entry that may not follow".into());
    }
    store.put(disk, next).or(Err("put"))?;
    Ok(())
}

/// Puts the entry (3, 2, 5).
fn put_3_2_5(disk: &mut MemoryDisk) -> Result<(), Fail> {
    put_on(disk, &TAG, stored(3, 2, 5))
}

/// The bytes of a store with the entries (0, 0, 7) and (3, 2, 5).
fn two_entries(alloc: Global) -> Result<Vec<u8>, Fail> {
    let mut disk = disk_with_store(alloc)?;
    put_3_2_5(&mut disk)?;
    Ok(disk.image().to_vec(alloc)?)
}

/// Opening the file for this tag answers what a plain reader does.
fn compare_readers(
    rt: &impl Abort,
    alloc: Global,
    bytes: &[u8],
    tag: &[u8; 32],
) -> Result<(), Fail> {
    assert_eq!(rt; opened_by(alloc, bytes, tag)?, state_of(bytes, tag));
    Ok(())
}

fn compare_readers_of_changed(
    rt: &impl Abort,
    alloc: Global,
    bytes: &[u8],
    tag: &[u8; 32],
    place: usize,
    value: u8,
) -> Result<(), Fail> {
    let bytes = changed(alloc, bytes, place, value)?;
    compare_readers(rt, alloc, &bytes, tag)
}

/// Likewise for each cut of the bytes and for each byte that is changed.
fn compare_readers_of_all(
    rt: &impl Abort,
    alloc: Global,
    bytes: &[u8],
    tag: &[u8; 32],
) -> Result<(), Fail> {
    for len in 0..bytes.len() {
        compare_readers(rt, alloc, &bytes[..len], tag)?;
    }
    for place in 0..bytes.len() {
        for value in 0..=255u8 {
            compare_readers_of_changed(rt, alloc, bytes, tag, place, value)?;
        }
    }
    Ok(())
}

#[test]
fn each_cut_and_each_changed_byte_is_answered_as_a_plain_reader_does(
    rt: HostRuntime,
) -> Result<(), Fail> {
    let alloc = rt.alloc();
    let good = two_entries(alloc)?;
    assert_eq!(rt; good.len(), 75);
    assert_eq!(rt; opened(alloc, &good)?, Ok(stored(3, 2, 5)));
    compare_readers_of_all(&rt, alloc, &good, &TAG)
}

#[test]
fn a_put_changes_the_state_and_the_file(rt: HostRuntime) -> Result<(), Fail> {
    let alloc = rt.alloc();
    let mut disk = disk_with_store(alloc)?;
    let entry = stored(1, 1, 5);
    assert_eq!(rt; put_second(&mut disk, entry)?, (Ok(()), entry));
    assert_eq!(rt; opened(alloc, disk.image())?, Ok(entry));
    Ok(())
}

#[test]
fn a_store_may_have_a_name_of_255_bytes(rt: HostRuntime) -> Result<(), Fail> {
    let bytes = [b'n'; 255];
    let name = std::str::from_utf8(&bytes).or(Err("no text"))?;
    let mut disk = new_disk(rt.alloc())?;
    assert_eq!(rt; make(&mut disk, name, &TAG, Mask(7)), Ok(()));
    assert_eq!(rt; state_by(&mut disk, name, &TAG), Ok(stored(0, 0, 7)));
    Ok(())
}

fn group() -> Group {
    Group {
        tag: [0; 16],
        t: 1,
        timeout: 3,
        period: 1,
        misses: 2,
    }
}

/// A signer of the key over the store in the disk's file, unless the disk failed.
fn open_with(disk: &mut MemoryDisk, key: SignKey) -> Result<Option<Signer>, Fail>
    requires one { IsOfOneKey key }
    requires new { next_of key ≡ 0 }
{
    let store = match Store::open(disk, NAME, &TAG) {
        Ok(store) => store,
        Err(StoreError::Fault) => return Ok(None),
        Err(_) => return Err("the file is no store".into()),
    };
    if store.state().next > key.index_count() {
        return Err("a next index that the key has not".into());
    }
    Ok(Some(Signer::open(group(), key, store)))
}

/// The signer of the one key of these trials, over the store in the disk's file.
fn open_signer(alloc: Global, disk: &mut MemoryDisk) -> Result<Option<Signer>, Fail> {
    let key = SecretKey::make(alloc, TreeKind::H5, OtsKind::W4, [1; 16], [2; 32]).or(Err("key"))?;
    let (tree, leaves) = key.split();
    open_with(disk, SignKey::Lms(tree, leaves))
}

/// The greatest index and the greatest epoch that were handed out, if any was.
#[derive(Clone, Copy)]
struct Handed {
    index: Option<u32>,
    epoch: u64,
}

impl Handed {
    /// Takes a record's index, and its epoch if it is a note. Each must be above all before.
    fn take(&mut self, record: &Checked) -> Result<(), Fail> {
        let signature = record.rec().signature.as_slice();
        let index = Reader::new(signature).u32().or(Err("short"))?;
        if let Some(before) = self.index {
            if index <= before {
                return Err("an index came twice".into());
            }
        }
        self.index = Some(index);
        if let Body::Note(note) = record.rec().body {
            if note.epoch.get() <= self.epoch {
                return Err("an epoch came twice".into());
            }
            self.epoch = note.epoch.get();
        }
        Ok(())
    }
}

fn accusation() -> AccBody {
    AccBody {
        accuser: MemberId::new(1),
        accused: MemberId::new(2),
        epoch: Epoch::new(1),
        ring: RingNo(0),
    }
}

/// Makes five notes and three accusations, or as many as the disk lets it.
fn sign_all(
    alloc: Global,
    signer: &mut Signer,
    disk: &mut MemoryDisk,
    handed: &mut Handed,
) -> Result<bool, Fail> {
    for is_note in [true, true, false, true, false, true, false, true] {
        let answer = if is_note {
            signer.sign_note(alloc, disk, MemberId::new(1), Mask(7))
        } else {
            signer.sign_accusation(alloc, disk, accusation())
        };
        match answer {
            Ok(record) => handed.take(&record)?,
            Err(SignFault::StoreFault) => return Ok(false),
            Err(_) => return Err("another fault".into()),
        }
    }
    Ok(true)
}

const OUTCOMES: [u16; 8] = [0, 1, 2, 57, 74, 183, 200, 65_535];

/// Signs all, stopped at this call of the disk, crashes, and signs on: whether the stop came before all were signed.
fn stopped_and_carried_on(
    alloc: Global,
    disk: &mut MemoryDisk,
    calls: u64,
    outcome: u16,
) -> Result<bool, Fail> {
    let mut handed = Handed {
        index: None,
        epoch: 0,
    };
    disk.arm(calls, outcome);
    let whole = open_and_sign_all(alloc, disk, &mut handed)?;
    disk.crash(outcome);
    // A stop that has not come yet may come only now.
    let again = open_and_sign_all(alloc, disk, &mut handed)?;
    if !whole && !again {
        return Err("a disk that is up failed".into());
    }
    Ok(!whole)
}

/// Opens the signer and signs all, or as much as the disk lets it: whether that was all.
fn open_and_sign_all(
    alloc: Global,
    disk: &mut MemoryDisk,
    handed: &mut Handed,
) -> Result<bool, Fail> {
    match open_signer(alloc, disk)? {
        Some(mut signer) => sign_all(alloc, &mut signer, disk, handed),
        None => Ok(false),
    }
}

#[test]
fn no_index_and_no_epoch_comes_twice_whatever_call_is_stopped(rt: HostRuntime) -> Result<(), Fail> {
    let mut was_stopped = true;
    for calls in 0..40u64 {
        for outcome in OUTCOMES {
            let mut disk = disk_with_store(rt.alloc())?;
            was_stopped = stopped_and_carried_on(rt.alloc(), &mut disk, calls, outcome)?;
        }
    }
    assert_eq!(rt; was_stopped, false);
    Ok(())
}

/// What signing a note of this member answers, which must be a fault.
fn fault_of(alloc: Global, signer: &mut Signer, disk: &mut MemoryDisk) -> Result<SignFault, Fail> {
    match signer.sign_note(alloc, disk, MemberId::new(1), Mask(7)) {
        Ok(_) => Err("a record was handed out".into()),
        Err(fault) => Ok(fault),
    }
}

/// Signs a note, and then one that is stopped at this call of the put: the faults that it answers, and then three
/// more.
fn stopped_faults(
    alloc: Global,
    signer: &mut Signer,
    disk: &mut MemoryDisk,
    calls: u64,
    outcome: u16,
) -> Result<[SignFault; 4], Fail> {
    signer
        .sign_note(alloc, disk, MemberId::new(1), Mask(7))
        .or(Err("sign"))?;
    disk.arm(calls, outcome);
    let first = fault_of(alloc, signer, disk)?;
    let second = fault_of(alloc, signer, disk)?;
    let third = fault_of(alloc, signer, disk)?;
    let fourth = fault_of(alloc, signer, disk)?;
    Ok([first, second, third, fourth])
}

fn open_and_stop(
    alloc: Global,
    disk: &mut MemoryDisk,
    calls: u64,
    outcome: u16,
) -> Result<[SignFault; 4], Fail> {
    let mut signer = open_signer(alloc, disk)?.ok_or("open")?;
    stopped_faults(alloc, &mut signer, disk, calls, outcome)
}

/// The state that a signer finds in the disk's file.
fn state_of_signer(alloc: Global, disk: &mut MemoryDisk) -> Result<Stored, Fail> {
    let signer = open_signer(alloc, disk)?.ok_or("open")?;
    Ok(signer.state())
}

/// The faults of a signature that is stopped so, and the state that is found afterwards.
fn stopped(
    alloc: Global,
    disk: &mut MemoryDisk,
    calls: u64,
    outcome: u16,
) -> Result<([SignFault; 4], Stored), Fail> {
    let faults = open_and_stop(alloc, disk, calls, outcome)?;
    disk.crash(0);
    Ok((faults, state_of_signer(alloc, disk)?))
}

#[test]
fn a_stop_within_a_put_leaves_the_old_state_or_the_new_one(rt: HostRuntime) -> Result<(), Fail> {
    let closed = SignFault::Closed;
    for calls in 0..4u64 {
        for outcome in [0u16, 1, 2, 183] {
            let mut disk = disk_with_store(rt.alloc())?;
            let (faults, left) = stopped(rt.alloc(), &mut disk, calls, outcome)?;
            assert_eq!(rt; faults, [SignFault::StoreFault, closed, closed, closed]);
            let is_new = calls >= 2 && (outcome == 1 || outcome == 183);
            let state = if is_new {
                stored(2, 2, 7)
            } else {
                stored(1, 1, 7)
            };
            assert_eq!(rt; left, state);
        }
    }
    Ok(())
}

/// Signs a certificate and an accusation.
fn sign_both(
    alloc: Global,
    signer: &mut Signer,
    disk: &mut MemoryDisk,
    handed: &mut Handed,
    cert: CertBody,
) -> Result<(), Fail>
    requires { 0 < cert.port }
{
    let record = signer
        .sign_certificate(alloc, disk, cert)
        .or(Err("certificate"))?;
    handed.take(&record)?;
    let record = signer
        .sign_accusation(alloc, disk, accusation())
        .or(Err("accusation"))?;
    handed.take(&record)
}

/// Spends all 32 leaves of the key.
fn use_up(
    alloc: Global,
    signer: &mut Signer,
    disk: &mut MemoryDisk,
    cert: &CertBody,
) -> Result<(), Fail>
    requires { 0 < cert.now.port }
{
    let mut handed = Handed {
        index: None,
        epoch: 0,
    };
    for _ in 0..16 {
        sign_both(alloc, signer, disk, &mut handed, *cert)?;
    }
    Ok(())
}

/// What is kept once all leaves of the key are spent, and what signing answers then.
fn used_up(alloc: Global, disk: &mut MemoryDisk) -> Result<(Stored, SignFault), Fail> {
    let key = SecretKey::make(alloc, TreeKind::H5, OtsKind::W4, [1; 16], [2; 32]).or(Err("key"))?;
    let cert = CertBody {
        member: MemberId::new(1),
        port: 20_001,
        key: Key::Lms(key.public()),
    };
    let mut signer = open_signer(alloc, disk)?.ok_or("open")?;
    use_up(alloc, &mut signer, disk, &cert)?;
    let fault = fault_of(alloc, &mut signer, disk)?;
    Ok((signer.state(), fault))
}

#[test]
fn a_key_is_used_up_and_certificates_are_signed(rt: HostRuntime) -> Result<(), Fail> {
    let mut disk = disk_with_store(rt.alloc())?;
    assert_eq!(rt;
        used_up(rt.alloc(), &mut disk)?,
        (stored(32, 0, 7), SignFault::Exhausted { next: 32 })
    );
    Ok(())
}

/// Makes a store, opens it and puts an entry: which of these failed first.
fn first_failed(disk: &mut MemoryDisk) -> Result<&'static str, Fail> {
    if make(disk, NAME, &TAG, Mask(7)).is_err() {
        return Ok("make");
    }
    let mut store = match Store::open(disk, NAME, &TAG) {
        Ok(store) => store,
        Err(_) => return Ok("open"),
    };
    let state = store.state();
    if state.next > 0 || state.epoch > 0 {
        return Err("another state".into());
    }
    if store.put(disk, stored(1, 1, 7)).is_err() {
        return Ok("put");
    }
    Ok("none")
}

/// Which call of a disk fails, counted from 0, that serves a store as it is made, opened and put.
fn first_failure(alloc: Global, call: u64) -> Result<&'static str, Fail> {
    let mut disk = failing_disk(alloc, [call].to_vec(alloc)?)?;
    first_failed(&mut disk)
}

#[test]
fn each_call_of_a_store_makes_its_disk_calls_and_no_more(rt: HostRuntime) -> Result<(), Fail> {
    let alloc = rt.alloc();
    let names = [
        "make", "make", "make", "make", "open", "open", "open", "open", "open", "put", "put",
        "put", "put", "none",
    ];
    for (call, name) in names.iter().enumerate() {
        assert_eq!(rt; first_failure(alloc, call as u64)?, *name);
    }
    Ok(())
}

/// Writes twice behind the settled `abcd`, and crashes: the file is then this one.
fn compare_crash(
    rt: &impl Abort,
    disk: &mut MemoryDisk,
    outcome: u16,
    left: &[u8],
) -> Result<(), Failed> {
    disk.write_at(1, b"XY")?;
    disk.write_at(4, b"ef")?;
    assert_eq!(rt; disk.image(), b"aXYdef".as_slice());
    disk.crash(outcome);
    assert_eq!(rt; disk.image(), left);
    Ok(())
}

/// Over the settled `abcd`, a disk that is stopped at its second call, and what it refuses once it is up.
fn compare_stop(rt: &impl Abort, disk: &mut MemoryDisk) {
    disk.arm(1, 1);
    assert_eq!(rt; disk.write_at(0, b"X"), Ok(()));
    assert_eq!(rt; disk.write_at(1, b"Y"), Err(Failed));
    assert_eq!(rt; disk.len(), Err(Failed));
    assert_eq!(rt; disk.image(), b"XYcd".as_slice());
    disk.crash(0);
    assert_eq!(rt; disk.image(), b"XYcd".as_slice());
    assert_eq!(rt; disk.len(), Ok(4));
    assert_eq!(rt; disk.write_at(0, &[0; 65]), Err(Failed));
    assert_eq!(rt; disk.write_at(700, b"Z"), Err(Failed));
}

#[test]
fn a_crash_of_a_disk_leaves_what_its_outcome_says(rt: HostRuntime) -> Result<(), Fail> {
    let alloc = rt.alloc();
    let cases: [(u16, &[u8]); 4] = [
        (0, b"abcd".as_slice()),
        (1, b"aXYdef".as_slice()),
        (2, [b'a', 3, 4, b'd', 6, 7].as_slice()),
        (65_535, [b'a', 0, 1, b'd', 3, 4].as_slice()),
    ];
    for (outcome, left) in cases {
        let mut disk = disk_with(alloc, b"abcd")?;
        compare_crash(&rt, &mut disk, outcome, left).or(Err("write"))?;
    }
    let mut disk = disk_with(alloc, b"abcd")?;
    compare_stop(&rt, &mut disk);
    Ok(())
}
