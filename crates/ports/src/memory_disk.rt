//! A disk in memory, which fails and stops where it is asked to, and crashes by stated outcomes.

ghost use Rattle.std.specs.Prelude.{◌≡◌, ◌≤◌, ◌<◌, ◌+◌, ◌&&◌, ◌==◌, nat_le, not, true, ℕ, ◌-◌, max, if◌then◌else◌, List, [], ◌∷◌, ◌++◌, length, take, drop, replicate, None, Some, IfOk, OnOk, OnErr, false};
ghost use Rattle.std.specs.Result.{is_err};
ghost use Rattle.std.specs.Vec.{vec_capacity};
ghost use Rattle.ports.specs.Count.{counted};
ghost use Rattle.ports.specs.Device.{open_failed};
ghost use Rattle.ports.specs.Disk.{Moment, Leaves, LeavesImage, Fails, Opens, Measures, ReadsPart, Settles, next, settled, written, wrote, end_of, torn_at, stays, is_torn as is_torn_at};
ghost use Rattle.ports.specs.DiskLaws.{moments_leave};
ghost use Rattle.ports.specs.declared.memory_disk.Turn.TheVariants.{Stops};
ghost use Rattle.ports.specs.MemoryDisk.{DiskState, FileState, picked, moments_of, moment_of, turn_of, armed_turn as armed_turn_of, armed_after as armed_after_of, called, after_turn, open_answer, passes, Runs, stopped_by, fits, with_write, written_by, with_sync, after_sync, can_sync, is_settled, garbled, garbled_byte as garbled_at, after_write, synced_by};

use crate::memory::Calls;
use crate::{Disk, Failed, Opened};
use arrayvec::ArrayVec;
use fields::NoMemory;
use std::alloc::Global;
use std::marker::Model;

/// The longest write that the record of changes takes, in bytes.
const LONGEST_WRITE: usize = 64;

/// What came about on the disk.
#[derive(Drop)]
enum Change {
    /// These bytes were written at this place.
    Wrote {
        place: usize,
        bytes: ArrayVec<u8, LONGEST_WRITE>,
    },
    /// What was written since the last sync is stable.
    Synced,
    /// The disk stopped, and the file is what this outcome picked.
    Stopped(u16),
}

/// A stop that is to come: so many calls pass before it, and this outcome picks the file.
#[derive(Clone, Copy, Debug, PartialEq, Eq)]
struct Arm {
    calls: u64,
    outcome: u16,
}

/// What becomes of a call.
#[derive(Clone, Copy, Debug, PartialEq, Eq)]
enum Turn {
    Passes,
    Fails,
    Stops(u16),
}

/// The file: as a read gives it, as it was at the last sync, and the ranges written since.
#[derive(Drop)]
struct File {
    image: Vec<u8>,
    stable: Vec<u8>,
    torn: Vec<(usize, usize)>,
    room: usize,
    writes: usize,
}

impl Model for File {
    ghost use Rattle.std.specs.Prelude.{◌≤◌, length, vec_capacity};
    ghost use Rattle.ports.specs.MemoryDisk.{FileState};

    ghost Value = { FileState };

    ghost view = { λ f. record {
      moment = record {
        image = f.image.items;
        stable = f.stable.items;
        torn = f.torn.items;
        most = length f.image.items;
      };
      room = f.room;
      writes = f.writes;
    } };

    ghost invariant = { λ f. (length f.image.items ≤ f.room) × (length f.stable.items ≤ f.room)
        × (f.room ≤ vec_capacity f.image) × (f.room ≤ vec_capacity f.stable)
        × (f.writes ≤ vec_capacity f.torn) };
}

/// Zeros after the bytes, up to this length.
fn lengthen(bytes: &mut Vec<u8>, len: usize)
    requires { len ≤ vec_capacity bytes.old }
    ensures items { bytes.new.items
        ≡ bytes.old.items ++ replicate (len - length bytes.old.items) 0 }
    ensures capacity { vec_capacity bytes.new ≡ vec_capacity bytes.old }
{
    while bytes.len() < len {
        bytes.push_reserved(0);
    }
}

/// The piece after the bytes.
fn append(bytes: &mut Vec<u8>, piece: &[u8])
    requires { length bytes.old.items + length piece.now ≤ vec_capacity bytes.old }
    ensures items { bytes.new.items ≡ bytes.old.items ++ piece.now }
    ensures capacity { vec_capacity bytes.old ≤ vec_capacity bytes.new }
{
    bytes.extend_from_slice(piece).unwrap();
}

/// Copies the bytes to a place.
fn copy_to(image: &mut [u8], place: usize, bytes: &[u8])
    requires { place + length bytes.now ≤ length image.old }
    ensures { image.new
        ≡ take place image.old ++ bytes.now ++ drop (place + length bytes.now) image.old }
{
    image[place..place + bytes.len()].copy_from_slice(bytes);
}

/// Writes over the bytes at a place, past the end too.
fn write_over(image: &mut Vec<u8>, place: usize, bytes: &[u8])
    requires { end_of place (length bytes.now) ≤ vec_capacity image.old }
    ensures items { image.new.items ≡ written place bytes.now image.old.items }
    ensures capacity { vec_capacity image.new ≡ vec_capacity image.old }
{
    if bytes.is_empty() {
        return;
    }
    lengthen(image, place + bytes.len());
    copy_to(image, place, bytes);
}

/// Whether the byte at this place lies in one of the ranges.
fn is_torn(torn: &[(usize, usize)], place: usize) -> bool
    ensures { result ≡ is_torn_at torn.now place }
{
    torn.iter()
        .any(|range| range.0 <= place && place - range.0 < range.1)
}

/// What becomes of the byte at this place: one in a range, or past the length at the last sync, is made
/// from the outcome and the place.
fn garbled_byte(torn: &[(usize, usize)], kept: usize, outcome: u16, place: usize, byte: u8) -> u8
    ensures { result ≡ garbled_at outcome torn.now kept place byte }
{
    if is_torn(torn, place) || kept <= place {
        ((usize::from(outcome) % 256 + place % 256) % 256) as u8
    } else {
        byte
    }
}

/// Garbles each byte that lies in one of the ranges or past the length at the last sync.
fn garble(image: &mut [u8], torn: &[(usize, usize)], kept: usize, outcome: u16)
    ensures { image.new ≡ garbled outcome torn.now kept 0 image.old }
{
    for (place, byte) in image.iter_mut().enumerate() {
        *byte = garbled_byte(torn, kept, outcome, place, *byte);
    }
}

/// Leaves what the outcome picks of the image.
fn pick(image: &mut Vec<u8>, stable: &[u8], torn: &[(usize, usize)], outcome: u16)
    requires { length stable.now ≤ vec_capacity image.old }
    ensures items { image.new.items ≡ picked outcome (record {
      image = image.old.items;
      stable = stable.now;
      torn = torn.now;
      most = length image.old.items;
    }) }
    ensures fits { length image.new.items ≤ max (length image.old.items) (length stable.now) }
    ensures capacity { vec_capacity image.old ≤ vec_capacity image.new }
{
    if outcome == 0 {
        image.clear();
        append(image, stable);
        return;
    }
    if outcome == 1 {
        return;
    }
    garble(image, torn, stable.len(), outcome);
}

impl File {
    fn new(alloc: Global, room: usize, writes: usize) -> Result<File, NoMemory>
        ensures { IfOk result (λ file. file ≡ record {
          moment = settled [];
          room = room;
          writes = writes;
        }) }
    {
        Ok(File {
            image: Vec::with_capacity(alloc, room)?,
            stable: Vec::with_capacity(alloc, room)?,
            torn: Vec::with_capacity(alloc, writes)?,
            room,
            writes,
        })
    }

    fn image(&self) -> &[u8]
        ensures value { result.now ≡ self.now.moment.image }
        ensures fits { length result.now ≤ self.now.room }
    {
        self.image.as_slice()
    }

    /// Whether nothing was written since the last sync.
    fn is_settled(&self) -> bool
        ensures { result ≡ is_settled self.now.moment }
    {
        self.torn.len() == 0
    }

    fn write(&mut self, place: usize, bytes: &[u8])
        requires fits { end_of place (length bytes.now) ≤ self.old.room }
        requires room { length self.old.moment.torn < self.old.writes }
        ensures { self.new ≡ record self.old { moment = wrote place bytes.now self.old.moment } }
    {
        write_over(&mut self.image, place, bytes);
        self.torn.push_reserved((place, bytes.len()));
    }

    fn sync(&mut self)
        ensures { self.new ≡ record self.old { moment = settled self.old.moment.image } }
    {
        self.stable.clear();
        append(&mut self.stable, &self.image);
        self.torn.clear();
    }

    /// Leaves what the outcome picks, as a crash does.
    fn crash(&mut self, outcome: u16)
        ensures { self.new ≡ record self.old { moment = settled (picked outcome self.old.moment) } }
    {
        pick(&mut self.image, &self.stable, &self.torn, outcome);
        self.sync();
    }
}

/// A disk in memory with one file, which every name opens, with room taken when it is made: for the bytes of
/// the file, and for a record of the changes since the last crash. A change is a write of at most 64 bytes,
/// or a sync that has a write since the sync before it. A write or sync past the room, a longer write, and a
/// call of a number that is to fail, fail and change nothing.
///
/// Contracts see the file as it last came up, the changes since, the room, which calls fail, how many came
/// and failed, and the stop that is armed.
#[derive(Drop)]
pub struct MemoryDisk {
    start: Vec<u8>,
    file: File,
    log: Vec<Change>,
    calls: Calls,
    armed: Option<Arm>,
    stopped: bool,
}

impl Model for MemoryDisk {
    ghost use Rattle.std.specs.Prelude.{reverse};
    ghost use Rattle.ports.specs.MemoryDisk.{DiskState, IsCurrent};

    ghost Value = { DiskState };

    ghost view = { λ d. record {
      start = d.start.items;
      log = reverse d.log.items;
      room = d.file.room;
      changes = d.file.writes;
      failing = d.calls.fail.items;
      calls = d.calls.made;
      failures = d.calls.failed;
      armed = d.armed;
      stopped = d.stopped;
    } };

    ghost invariant = { λ d. IsCurrent d.start d.file d.log d.stopped };
}

/// The bytes of one write.
fn piece_of(bytes: &[u8]) -> ArrayVec<u8, LONGEST_WRITE>
    requires { length bytes.now ≤ 64 }
    ensures { result.items ≡ bytes.now }
{
    let mut piece = ArrayVec::new();
    for byte in bytes {
        piece.push(*byte);
    }
    piece
}

/// What becomes of a call, where the disk has not stopped.
fn armed_turn(armed: Option<Arm>, failing: bool) -> Turn
    ensures { result ≡ armed_turn_of armed failing }
{
    match armed {
        Some(Arm { calls: 0, outcome }) => Turn::Stops(outcome),
        _ if failing => Turn::Fails,
        _ => Turn::Passes,
    }
}

/// The stop that is armed after one more call.
fn armed_after(armed: Option<Arm>) -> Option<Arm>
    ensures { result ≡ armed_after_of armed }
{
    let arm = armed?;
    if arm.calls == 0 {
        return None;
    }
    Some(Arm {
        calls: arm.calls - 1,
        outcome: arm.outcome,
    })
}

impl MemoryDisk {
    /// A disk with an empty file, with room for `room` bytes and `changes` changes, that fails at the calls
    /// numbered in `fail`, from 0.
    pub fn new(
        alloc: Global,
        room: usize,
        changes: usize,
        fail: Vec<u64>,
    ) -> Result<MemoryDisk, NoMemory>
        ensures { IfOk result (λ disk. disk ≡ record {
          start = [];
          log = [];
          room = room;
          changes = changes;
          failing = fail.items;
          calls = 0;
          failures = 0;
          armed = None;
          stopped = false;
        }) }
    {
        // A stop is kept in the record too.
        let entries = changes.checked_add(1).ok_or(NoMemory)?;
        Ok(MemoryDisk {
            start: Vec::with_capacity(alloc, room)?,
            file: File::new(alloc, room, changes)?,
            log: Vec::with_capacity(alloc, entries)?,
            calls: Calls::new(fail),
            armed: None,
            stopped: false,
        })
    }

    /// Lets so many calls pass and stops in the next: the file is then the one that the outcome picks, and
    /// each call fails until `crash` was called. Takes the place of a stop that was armed before.
    pub fn arm(&mut self, calls: u64, outcome: u16)
        ensures { self.new
            ≡ record self.old { armed = Some (record { calls = calls; outcome = outcome }) } }
    {
        self.armed = Some(Arm { calls, outcome });
    }

    /// Crashes: the file is then the one that the outcome picks, and stable, and the disk is up again. A stop
    /// that is armed stays so. Outcome 0 gives the file of the last sync, 1 gives it with all writes since;
    /// any other gives the latter with the byte at place o made `(outcome + o) % 256` wherever a write since
    /// the last sync touched it or it lies past the length at that sync.
    pub fn crash(&mut self, outcome: u16)
        ensures after { self.new ≡ record self.old {
          start = picked outcome (moment_of self.old);
          log = [];
          stopped = false;
        } }
        ensures leaves { Leaves (moment_of self.old) self.new.start }
    {
        self.file.crash(outcome);
        self.start.clear();
        append(&mut self.start, self.file.image());
        self.log.clear();
        self.stopped = false;
    }

    /// The bytes of the file, as a read gives them.
    pub fn image(&self) -> &[u8]
        ensures { result.now ≡ (moment_of self.now).image }
    {
        self.file.image()
    }

    /// Counts a call, and says what becomes of it.
    fn next_turn(&mut self) -> Turn
        ensures turn { result ≡ turn_of self.old }
        ensures after { self.new ≡ called result self.old }
        ensures runs { Runs result self.old.stopped }
    {
        let failing = self.calls.next();
        if self.stopped {
            self.calls.count(true);
            return Turn::Fails;
        }
        let turn = armed_turn(self.armed, failing);
        self.calls.count(turn != Turn::Passes);
        self.armed = armed_after(self.armed);
        turn
    }

    /// Stops, with the file that the outcome picks.
    fn stop(&mut self, outcome: u16)
        requires { self.old.stopped ≡ false }
        ensures { self.new ≡ stopped_by outcome self.old }
    {
        self.file.crash(outcome);
        self.log.push_reserved(Change::Stopped(outcome));
        self.stopped = true;
    }

    /// Makes a call that changes nothing of the file.
    fn idle_call(&mut self) -> Result<(), Failed>
        ensures answer { is_err result ≡ not (passes (turn_of self.old)) }
        ensures after { self.new ≡ after_turn (turn_of self.old) self.old }
    {
        match self.next_turn() {
            Turn::Passes => Ok(()),
            Turn::Fails => Err(Failed),
            Turn::Stops(outcome) => {
                self.stop(outcome);
                Err(Failed)
            }
        }
    }

    /// Whether there is room for a write of these bytes at this place.
    fn has_room(&self, place: u64, bytes: &[u8]) -> bool
        ensures { result ≡ fits self.now place (length bytes.now) }
    {
        bytes.len() <= LONGEST_WRITE
            && ends_within(place, bytes.len(), self.file.room)
            && self.log.len() < self.file.writes
    }

    /// Writes and keeps the change.
    fn write(&mut self, place: u64, bytes: &[u8])
        requires fits { fits self.old place (length bytes.now) ≡ true }
        requires runs { self.old.stopped ≡ false }
        ensures { self.new ≡ with_write place bytes.now self.old }
    {
        let place = place as usize;
        let piece = piece_of(bytes);
        self.file.write(place, bytes);
        self.log.push_reserved(Change::Wrote {
            place,
            bytes: piece,
        });
    }

    /// Stops in a write: where it fits, all of it counts among those since the last sync.
    fn stop_in_write(&mut self, outcome: u16, fitting: bool, place: u64, bytes: &[u8])
        requires fits { fitting ≡ true → fits self.old place (length bytes.now) ≡ true }
        requires runs { self.old.stopped ≡ false }
        ensures { self.new ≡ written_by (Stops outcome) fitting place bytes.now self.old }
    {
        if fitting {
            self.write(place, bytes);
        }
        self.stop(outcome);
    }

    fn write_in_turn(
        &mut self,
        turn: Turn,
        fitting: bool,
        place: u64,
        bytes: &[u8],
    ) -> Result<(), Failed>
        requires fits { fitting ≡ true → fits self.old place (length bytes.now) ≡ true }
        requires runs { Runs turn self.old.stopped }
        ensures answer { is_err result ≡ not (passes turn && fitting) }
        ensures after { self.new ≡ written_by turn fitting place bytes.now self.old }
    {
        match turn {
            Turn::Passes if fitting => {
                self.write(place, bytes);
                Ok(())
            }
            Turn::Passes => {
                self.calls.count(true);
                Err(Failed)
            }
            Turn::Fails => Err(Failed),
            Turn::Stops(outcome) => {
                self.stop_in_write(outcome, fitting, place, bytes);
                Err(Failed)
            }
        }
    }

    /// Syncs, and keeps the change where there is one.
    fn sync_now(&mut self) -> Result<(), Failed>
        requires { self.old.stopped ≡ false }
        ensures answer { is_err result ≡ not (can_sync self.old) }
        ensures after { self.new ≡ with_sync self.old }
    {
        if self.file.is_settled() {
            return Ok(());
        }
        if self.log.len() < self.file.writes {
            self.file.sync();
            self.log.push_reserved(Change::Synced);
            return Ok(());
        }
        self.calls.count(true);
        Err(Failed)
    }

    fn sync_in_turn(&mut self, turn: Turn) -> Result<(), Failed>
        requires { Runs turn self.old.stopped }
        ensures answer { is_err result ≡ not (passes turn && can_sync self.old) }
        ensures after { self.new ≡ synced_by turn self.old }
    {
        match turn {
            Turn::Passes => self.sync_now(),
            Turn::Fails => Err(Failed),
            Turn::Stops(outcome) => {
                self.stop(outcome);
                Err(Failed)
            }
        }
    }
}

/// Whether a write of so many bytes ends within the room, if it writes any.
fn ends_within(place: u64, count: usize, room: usize) -> bool
    ensures { result ≡ nat_le (end_of place count) room }
{
    count == 0 || (place <= room as u64 && count <= room - place as usize)
}

/// Reads a part of the file into the front of the buffer, and gives the number of bytes.
fn copy_part(image: &[u8], place: u64, buf: &mut [u8]) -> usize
    ensures fits { result ≤ length buf.old }
    ensures value { take result buf.new ≡ take (length buf.new) (drop place image.now) }
    ensures rest { drop result buf.new ≡ drop result buf.old }
{
    let start = image.len().min(place as usize);
    let rest = &image[start..];
    let count = rest.len().min(buf.len());
    buf[..count].copy_from_slice(&rest[..count]);
    count
}

impl Disk for MemoryDisk {
    ghost state = { λ disk. record {
      faults = disk.failures;
      calls = None;
      moments = moments_of disk.start disk.log;
      model = Some disk;
    } };

    ghost image_left = { λ disk. moments_leave disk.start disk.log };

    fn open(&mut self, _name: &str) -> Opened
        ensures faults { self.new.failures ≡ counted (open_failed result) self.old.failures }
        ensures opens { Opens (moments_of self.old.start self.old.log)
            (moments_of self.new.start self.new.log) result }
        ensures answer { result ≡ open_answer (turn_of self.old) }
        ensures after { self.new ≡ after_turn (turn_of self.old) self.old }
    {
        match self.idle_call() {
            Ok(()) => Opened::Done,
            Err(Failed) => Opened::Failed,
        }
    }

    fn len(&mut self) -> Result<u64, Failed>
        ensures faults { self.new.failures ≡ counted (is_err result) self.old.failures }
        ensures value { IfOk result (λ n. Measures (moments_of self.old.start self.old.log) n) }
        ensures same { OnOk result
            (moments_of self.new.start self.new.log ≡ moments_of self.old.start self.old.log) }
        ensures stays { OnErr result
            (Fails stays (moments_of self.old.start self.old.log)
            (moments_of self.new.start self.new.log)) }
        ensures answer { is_err result ≡ not (passes (turn_of self.old)) }
        ensures after { self.new ≡ after_turn (turn_of self.old) self.old }
    {
        self.idle_call()?;
        Ok(self.file.image().len() as u64)
    }

    fn read_at(&mut self, place: u64, buf: &mut [u8]) -> Result<usize, Failed>
        ensures faults { self.new.failures ≡ counted (is_err result) self.old.failures }
        ensures fits { IfOk result (λ n. n ≤ length buf.old) }
        ensures value { IfOk result
            (λ n. ReadsPart (moments_of self.old.start self.old.log) place buf.new n) }
        ensures rest { IfOk result (λ n. drop n buf.new ≡ drop n buf.old) }
        ensures same { OnOk result
            (moments_of self.new.start self.new.log ≡ moments_of self.old.start self.old.log) }
        ensures stays { OnErr result
            (Fails stays (moments_of self.old.start self.old.log)
            (moments_of self.new.start self.new.log)) }
        ensures answer { is_err result ≡ not (passes (turn_of self.old)) }
        ensures after { self.new ≡ after_turn (turn_of self.old) self.old }
    {
        self.idle_call()?;
        Ok(copy_part(self.file.image(), place, buf))
    }

    fn write_at(&mut self, place: u64, bytes: &[u8]) -> Result<(), Failed>
        ensures faults { self.new.failures ≡ counted (is_err result) self.old.failures }
        ensures writes { OnOk result
            (moments_of self.new.start self.new.log
            ≡ next (wrote place bytes.now) (moments_of self.old.start self.old.log)) }
        ensures tears { OnErr result
            (Fails (torn_at place (length bytes.now)) (moments_of self.old.start self.old.log)
            (moments_of self.new.start self.new.log)) }
        ensures answer { is_err result
            ≡ not (passes (turn_of self.old) && fits self.old place (length bytes.now)) }
        ensures after { self.new ≡ after_write (turn_of self.old) place bytes.now self.old }
    {
        let fitting = self.has_room(place, bytes);
        let turn = self.next_turn();
        self.write_in_turn(turn, fitting, place, bytes)
    }

    fn sync(&mut self) -> Result<(), Failed>
        ensures faults { self.new.failures ≡ counted (is_err result) self.old.failures }
        ensures settles { OnOk result
            (Settles (moments_of self.old.start self.old.log)
            (moments_of self.new.start self.new.log)) }
        ensures stays { OnErr result
            (Fails stays (moments_of self.old.start self.old.log)
            (moments_of self.new.start self.new.log)) }
        ensures answer { is_err result ≡ not (passes (turn_of self.old) && can_sync self.old) }
        ensures after { self.new ≡ after_sync (turn_of self.old) self.old }
    {
        let turn = self.next_turn();
        self.sync_in_turn(turn)
    }
}
