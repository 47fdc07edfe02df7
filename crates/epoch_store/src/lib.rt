//! Floor: keys. The store of a key: a file with the next index of the key and the newest epoch and mask that were
//! signed under it, in a form that is the old state or the new one whatever stops a change. `signer` puts into it;
//! commands and worlds make and open it.
//!
//! The file begins with `FFSTORE1` or `FFSTORE2` and a tag of 32 bytes. Entries follow, each behind a gate byte:
//! the next index in 4 bytes, the epoch in 8 and the mask in 4, or in 8 after `FFSTORE2`, most significant byte
//! first. Where all bits of that mask are set, the entry moves the store: a tag and the mask in 8 bytes
//! follow, and each entry behind it has 8 bytes of mask; the first entry moves nothing. The last such tag is in
//! force, or else the header's. A gate is open where it is 1; the first closed gate ends
//! the file's reading, and the entry before it is the state.
#![tactic(auto)]

ghost use Rattle.std.specs.Prelude.{◌≡◌, ℕ, ◌+◌, ◌<◌, ◌≤◌, ◌^◌, List, length, true, false, [], ◌∷◌, ◌++◌, None, Some, Ok, OnOk, OnErr, IfOk, IfErr};
ghost use Rattle.std.specs.Result.{is_err};
ghost use Rattle.ff_ids.specs.declared.TheConstants.{MAX_RINGS};
ghost use Rattle.ports.specs.Count.{counted};
ghost use Rattle.ports.specs.Disk.{Moment, Since, Fails, stays, torn_at, written};
ghost use Rattle.ports.specs.DiskCalls.{ToOpen, ToRead, ToSync, ToWrite, with_call};
ghost use Rattle.ports.specs.DiskSteps.{came_to, runs_on};
ghost use Rattle.epoch_store.specs.declared.StoreError.TheVariants.{Fault};
ghost use Rattle.epoch_store.specs.Seat.{behind, header_length, made_seat, moved_length, next_seat, width};
ghost use Rattle.epoch_store.specs.Store.{IsEntry, IsEntryOf, Follows, IsSettled, LeavesEither, LeavesOneOf, LeavesState, entry_with, first_entry, made, mark as mark_of, migrated};
ghost use Rattle.epoch_store.specs.Calls.{StoreState, is_fault, SettlesAs, same, OnRead, OpensAs, IsNotTaken, MakesWhereEmpty, OnRefusal, IsOpened, BeginsAt, ReadsHead, ReadsGate, FindsGate, ReadsEntries, HoldsStore, HasBytes, IsBehindMark, IsPlaced, Judges, answer_of};
ghost use Rattle.epoch_store.specs.Reading.{closes};
ghost use Rattle.epoch_store.specs.Looks.{Looks};
ghost use Rattle.epoch_store.specs.declared.entry.Look.TheVariants.{Fields};
ghost use Rattle.epoch_store.specs.Asked.{entry_calls, put_calls, open_calls, AsksToOpen, Makes, MakesStore, ReadsGates, ReadsOneGate, RefusedInHead};
ghost use Rattle.epoch_store.specs.Followed.{OpensFile, MakesFrom, ReadsGatesFrom, ReadsOneGateFrom};

mod entry;
pub mod laws;
mod seat;

use arrayvec::ArrayVec;
use entry::{
    Entry, Gate, Look, byte_at, check_head, common_prefix, entry_bytes, look_at, magic, mark,
    put_piece, read_moved, wrong_field,
};
use ff_ids::Mask;
use fields::Short;
use ports::{Disk, Failed, Opened};
use seat::{HEAD_LEN, MOVED_LEN, WIDE_LEN, needs_wide};
pub use seat::{Seat, store_len};
use std::marker::Model;
use thiserror::Error;

/// What a store keeps: the next index of the key, and the epoch and mask of the newest note that was signed.
#[derive(Clone, Copy, Debug, PartialEq, Eq)]
pub struct Stored {
    /// At most 32,768.
    pub next: u32,
    /// At most the next index; 0 before the first note.
    pub epoch: u64,
    /// Without a bit at or above `MAX_RINGS`.
    pub mask: Mask,
}

/// Why a store was not made, opened or changed.
#[derive(Clone, Copy, Debug, PartialEq, Eq, Error)]
pub enum StoreError {
    #[error("the disk failed")]
    Fault,
    #[error("the file has {len} bytes already")]
    Taken { len: u64 },
    /// The byte at the place, or none where the file ends there.
    #[error("the file is no store: it breaks at byte {place}")]
    Broken { place: u64, byte: Option<u8> },
    /// The first byte of the tag in force that differs.
    #[error("the store is another key's: its tag differs at byte {place}")]
    OtherKey { place: u64, byte: u8 },
    #[error("out of memory")]
    OutOfMemory,
}

impl From<Failed> for StoreError {
    ghost from_gives = { λ _ e. e ≡ Fault };

    fn from(_failed: Failed) -> StoreError {
        StoreError::Fault
    }
}

/// Writes the bytes at a place, and syncs.
fn write_synced<D: Disk>(disk: &mut D, place: u64, bytes: &[u8]) -> Result<(), Failed>
    ensures faults { (D.state disk.new).faults ≡ counted (is_err result) (D.state disk.old).faults }
    ensures calls { Makes result (ToSync ∷ ToWrite place bytes.now ∷ []) (D.state disk.old).calls
        (D.state disk.new).calls }
    ensures follows { came_to (D.state disk.new).model (is_err result)
        ≡ runs_on (ToSync ∷ ToWrite place bytes.now ∷ []) (D.state disk.old).model }
    ensures tears { Fails (torn_at place (length bytes.now)) (D.state disk.old).moments
        (D.state disk.new).moments }
    ensures stores { OnOk result (SettlesAs (written place bytes.now) (D.state disk.old).moments
        (D.state disk.new).moments) }
{
    disk.write_at(place, bytes)?;
    disk.sync()
}

/// Opens the file of that name.
fn open_file<D: Disk>(disk: &mut D, name: &str) -> Result<(), StoreError>
    ensures faults { (D.state disk.new).faults
        ≡ counted (is_fault result) (D.state disk.old).faults }
    ensures called { (D.state disk.new).calls
        ≡ with_call (ToOpen name.now) (D.state disk.old).calls }
    ensures follows { OpensFile name.now (D.state disk.old).model (D.state disk.new).model result }
    ensures opens { IsOpened (D.state disk.old).moments (D.state disk.new).moments result }
{
    match disk.open(name) {
        Opened::Done => Ok(()),
        Opened::Failed => Err(StoreError::Fault),
        Opened::OutOfMemory => Err(StoreError::OutOfMemory),
    }
}

/// The bytes of a store that is made new with this state: 58 of them, or 62 where its mask needs a wide entry.
fn made_bytes(tag: &[u8; 32], first: Stored) -> ArrayVec<u8, 62>
    ensures { result.items ≡ made tag.now first }
{
    let wide = needs_wide(first.mask);
    let entry = Entry {
        kept: first,
        moved: None,
    };
    let mut bytes = ArrayVec::new();
    put_piece(&mut bytes, magic(wide));
    put_piece(&mut bytes, tag);
    put_piece(&mut bytes, &[1]);
    put_piece(&mut bytes, &entry_bytes(wide, entry));
    bytes
}

/// Makes a store of this tag in the file of that name, with next index 0, epoch 0 and this mask, by opening,
/// asking for the length, a write of 58 bytes, or of 62 where the mask has a bit at or above 31, and a sync. After
/// `Ok` a crash leaves exactly these bytes.
/// `Taken` exactly where the file has bytes already, if the disk does not fail first; then nothing of it has
/// changed, nor after `OutOfMemory`, which comes from opening alone.
pub fn make<D: Disk>(disk: &mut D, name: &str, tag: &[u8; 32], mask: Mask) -> Result<(), StoreError>
    requires { mask.0 < 2 ^ MAX_RINGS }
    ensures faults { (D.state disk.new).faults
        ≡ counted (is_fault result) (D.state disk.old).faults }
    ensures calls { MakesStore name.now tag.now (first_entry mask) result (D.state disk.old).calls
        (D.state disk.new).calls }
    ensures follows { MakesFrom name.now tag.now (first_entry mask) result (D.state disk.old).model
        (D.state disk.new).model }
    ensures taken { MakesWhereEmpty (D.state disk.old).moments result }
    ensures made { OnOk result (SettlesAs (λ _. made tag.now (first_entry mask))
        (D.state disk.old).moments (D.state disk.new).moments) }
    ensures store { OnOk result (IsSettled tag.now (first_entry mask)
        (made_seat tag.now (first_entry mask)) (D.state disk.new).moments) }
    ensures refused { OnRefusal result ((D.state disk.new).moments ≡ (D.state disk.old).moments) }
    ensures any_moment { Fails (torn_at 0 (length (made tag.now (first_entry mask))))
        (D.state disk.old).moments (D.state disk.new).moments }
{
    open_file(disk, name)?;
    let len = disk.len()?;
    if len > 0 {
        return Err(StoreError::Taken { len });
    }
    let first = Stored {
        next: 0,
        epoch: 0,
        mask,
    };
    let bytes = made_bytes(tag, first);
    write_synced(disk, 0, bytes.as_slice())?;
    Ok(())
}

/// Reads the first 40 bytes, and checks that they are the header of a store.
fn read_head<D: Disk>(disk: &mut D) -> Result<Seat, StoreError>
    ensures faults { (D.state disk.new).faults
        ≡ counted (is_fault result) (D.state disk.old).faults }
    ensures called { (D.state disk.new).calls
        ≡ with_call (ToRead 0 header_length) (D.state disk.old).calls }
    ensures follows { came_to (D.state disk.new).model (is_fault result)
        ≡ runs_on (ToRead 0 header_length ∷ []) (D.state disk.old).model }
    ensures near { RefusedInHead result }
    ensures begins { BeginsAt result }
    ensures reads { ReadsHead (D.state disk.old).moments result }
    ensures not_taken { IsNotTaken result }
    ensures same { OnRead result ((D.state disk.new).moments ≡ (D.state disk.old).moments) }
    ensures stays { Fails stays (D.state disk.old).moments (D.state disk.new).moments }
{
    let mut head = [0; HEAD_LEN];
    let count = disk.read_at(0, &mut head)?;
    check_head(&head[..count])
}

/// The entry, if it may stand in this seat; else the place of its first wrong field, and the byte there. These are
/// the bytes of its gate and of its fields up to the mask or the mark, and those behind the mark.
fn judge(
    seat: Seat,
    before: Option<Stored>,
    entry: Entry,
    bytes: &[u8],
    behind: &[u8],
) -> Result<Gate, StoreError>
    requires place { seat.gate < 2 ^ 32 }
    requires size { length bytes.now ≡ width seat }
    ensures { Judges seat before entry (bytes.now ++ behind.now) result }
{
    match wrong_field(seat, before, entry) {
        None => Ok(Gate::Open(entry)),
        Some(at) => Err(StoreError::Broken {
            place: seat.gate + at as u64,
            byte: if at < bytes.len() {
                byte_at(bytes, at)
            } else {
                byte_at(behind, at - bytes.len())
            },
        }),
    }
}

/// Reads what stands behind a migration entry's mark, these being its gate, its numbers and the mark.
fn read_behind_mark<D: Disk>(
    disk: &mut D,
    seat: Seat,
    before: Option<Stored>,
    numbers: Stored,
    bytes: &[u8],
) -> Result<Gate, StoreError>
    requires place { seat.gate < 2 ^ 32 }
    requires size { length bytes.now ≡ width seat }
    requires fields { Looks seat.wide bytes.now (Fields numbers) }
    requires marked { numbers.mask.0 ≡ mark_of seat.wide }
    requires part { HasBytes (D.state disk.old).moments seat bytes.now }
    ensures faults { (D.state disk.new).faults
        ≡ counted (is_fault result) (D.state disk.old).faults }
    ensures called { (D.state disk.new).calls
        ≡ with_call (ToRead (seat.gate + width seat) moved_length) (D.state disk.old).calls }
    ensures follows { came_to (D.state disk.new).model (is_fault result)
        ≡ runs_on (ToRead (seat.gate + width seat) moved_length ∷ []) (D.state disk.old).model }
    ensures near { IsBehindMark seat result }
    ensures reads { ReadsGate before seat (D.state disk.old).moments result }
    ensures found { FindsGate before result }
    ensures same { OnRead result ((D.state disk.new).moments ≡ (D.state disk.old).moments) }
    ensures stays { Fails stays (D.state disk.old).moments (D.state disk.new).moments }
{
    let mut behind = [0; MOVED_LEN];
    let place = seat.gate + seat.width() as u64;
    let count = disk.read_at(place, &mut behind)?;
    match read_moved(numbers, &behind[..count]) {
        Ok(entry) => judge(seat, before, entry, bytes, &behind),
        Err(Short { .. }) => Err(StoreError::Broken {
            place: place + count as u64,
            byte: None,
        }),
    }
}

/// Reads what stands in a seat.
fn read_gate<D: Disk>(disk: &mut D, before: Option<Stored>, seat: Seat) -> Result<Gate, StoreError>
    requires { seat.gate < 2 ^ 32 }
    ensures faults { (D.state disk.new).faults
        ≡ counted (is_fault result) (D.state disk.old).faults }
    ensures calls { ReadsOneGate seat (D.state disk.old).moments result
        (D.state disk.old).calls (D.state disk.new).calls }
    ensures follows { ReadsOneGateFrom seat (D.state disk.old).moments result
        (D.state disk.old).model (D.state disk.new).model }
    ensures reads { ReadsGate before seat (D.state disk.old).moments result }
    ensures found { FindsGate before result }
    ensures same { OnRead result ((D.state disk.new).moments ≡ (D.state disk.old).moments) }
    ensures stays { Fails stays (D.state disk.old).moments (D.state disk.new).moments }
{
    let mut room = [0; WIDE_LEN];
    let count = disk.read_at(seat.gate, &mut room[..seat.width()])?;
    let bytes = &room[..count];
    match look_at(seat.wide, bytes) {
        Look::Cut => Err(StoreError::Broken {
            place: seat.gate + count as u64,
            byte: None,
        }),
        Look::Shut => match before {
            None => Err(StoreError::Broken {
                place: seat.gate,
                byte: byte_at(bytes, 0),
            }),
            Some(state) => Ok(Gate::Shut(state)),
        },
        Look::Fields(numbers) if numbers.mask.0 == mark(seat.wide) => {
            read_behind_mark(disk, seat, before, numbers, bytes)
        }
        Look::Fields(kept) => {
            let entry = Entry { kept, moved: None };
            judge(seat, before, entry, bytes, &[])
        }
    }
}

/// The store whose reading ends in this seat, if the tag in force there is this one.
fn close(tag: &[u8; 32], state: Stored, seat: Seat) -> Result<Store, StoreError>
    requires { IsPlaced (Some state) seat }
    ensures answer { result ≡ answer_of [] (closes tag.now state seat) }
    ensures not_taken { IsNotTaken result }
    ensures runs { IfOk result (λ store. store.failed ≡ false) }
{
    let same = common_prefix(tag, &seat.tag);
    if same < tag.len() {
        return Err(StoreError::OtherKey {
            place: seat.tag_place + same as u64,
            byte: seat.tag[same],
        });
    }
    Ok(Store {
        state,
        seat,
        failed: false,
    })
}

/// Reads entry after entry from the first seat on, up to the first closed gate.
fn read_entries<D: Disk>(disk: &mut D, tag: &[u8; 32], first: Seat) -> Result<Store, StoreError>
    requires begins { IsPlaced None first }
    requires head { ReadsHead (D.state disk.old).moments (Ok first) }
    ensures faults { (D.state disk.new).faults
        ≡ counted (is_fault result) (D.state disk.old).faults }
    ensures calls { ReadsGates [] (D.state disk.old).moments result
        (D.state disk.old).calls (D.state disk.new).calls }
    ensures follows { ReadsGatesFrom [] (D.state disk.old).moments result
        (D.state disk.old).model (D.state disk.new).model }
    ensures reads { ReadsEntries tag.now first (D.state disk.old).moments result }
    ensures not_taken { IsNotTaken result }
    ensures runs { IfOk result (λ store. store.failed ≡ false) }
    ensures same { OnRead result ((D.state disk.new).moments ≡ (D.state disk.old).moments) }
    ensures stays { Fails stays (D.state disk.old).moments (D.state disk.new).moments }
{
    let mut before = None;
    let mut seat = first;
    loop {
        match read_gate(disk, before, seat) {
            Ok(Gate::Shut(state)) => return close(tag, state, seat),
            Ok(Gate::Open(entry)) => {
                before = Some(entry.kept);
                seat = seat.behind(entry);
            }
            Err(error) => return Err(error),
        }
    }
}

/// Reads the file whole.
fn read_store<D: Disk>(disk: &mut D, tag: &[u8; 32]) -> Result<Store, StoreError>
    ensures faults { (D.state disk.new).faults
        ≡ counted (is_fault result) (D.state disk.old).faults }
    ensures calls { ReadsGates (ToRead 0 header_length ∷ []) (D.state disk.old).moments result
        (D.state disk.old).calls (D.state disk.new).calls }
    ensures follows { ReadsGatesFrom (ToRead 0 header_length ∷ [])
        (D.state disk.old).moments result (D.state disk.old).model (D.state disk.new).model }
    ensures reads { OpensAs tag.now (D.state disk.old).moments result }
    ensures not_taken { IsNotTaken result }
    ensures runs { IfOk result (λ store. store.failed ≡ false) }
    ensures store { IfOk result (λ store. HoldsStore tag.now store.state store.seat
        (D.state disk.old).moments) }
    ensures same { OnRead result ((D.state disk.new).moments ≡ (D.state disk.old).moments) }
    ensures stays { Fails stays (D.state disk.old).moments (D.state disk.new).moments }
{
    match read_head(disk) {
        Ok(first) => read_entries(disk, tag, first),
        Err(error) => Err(error),
    }
}

/// A store that was opened.
#[derive(Drop)]
pub struct Store {
    state: Stored,
    seat: Seat,
    failed: bool,
}

impl Model for Store {
    ghost use Rattle.std.specs.Prelude.{Some};
    ghost use Rattle.epoch_store.specs.Calls.{IsPlaced, StoreState};

    ghost Value = { StoreState };

    ghost view = { λ s. record { state = s.state; seat = s.seat; failed = s.failed } };

    ghost invariant = { λ s. IsPlaced (Some s.state) s.seat };
}

impl Store {
    /// Opens the store of this tag in the file of that name, by opening, a sync, a read of 40 bytes and a read
    /// of 17 or 21 bytes at each gate up to the first closed one, with one of 40 bytes behind a migration entry's
    /// mark; a refusal ends it. `Broken` and `OtherKey` are
    /// exactly those of the reading of the file, if the disk does not fail first. Whatever it answers, each
    /// file that a crash leaves is one that a crash before the call might have left; and but for `Fault` and
    /// `OutOfMemory`, which comes from opening alone, the file is settled as it was.
    pub fn open<D: Disk>(disk: &mut D, name: &str, tag: &[u8; 32]) -> Result<Store, StoreError>
        ensures faults { (D.state disk.new).faults
            ≡ counted (is_fault result) (D.state disk.old).faults }
        ensures calls { AsksToOpen name.now (D.state disk.old).moments result
            (D.state disk.old).calls (D.state disk.new).calls }
        ensures follows { ReadsGatesFrom (open_calls name.now) (D.state disk.old).moments
            result (D.state disk.old).model (D.state disk.new).model }
        ensures reads { OpensAs tag.now (D.state disk.old).moments result }
        ensures not_taken { IsNotTaken result }
        ensures runs { IfOk result (λ store. store.failed ≡ false) }
        ensures store { IfOk result (λ store. IsSettled tag.now store.state store.seat
            (D.state disk.new).moments) }
        ensures settles { OnRead result
            (SettlesAs same (D.state disk.old).moments (D.state disk.new).moments) }
        ensures any_moment { Fails stays (D.state disk.old).moments (D.state disk.new).moments }
    {
        open_file(disk, name)?;
        disk.sync()?;
        read_store(disk, tag)
    }

    /// What it keeps.
    pub fn state(&self) -> Stored
        ensures value { result ≡ self.now.state }
        ensures entry { IsEntry result }
    {
        self.state
    }

    /// Puts another state in place of the one that is kept, by a write, a sync, a write and a sync; where the
    /// entries are narrow and the mask has a bit at or above 31, by a migration entry with the tag in force. At each
    /// moment of the call a crash leaves a store of the old state or of the new one, and after `Ok` one of
    /// the new one. After `Fault`, the one error, the store must be opened again.
    ///
    /// The disk is the one on which the store was opened, and since then only this store's calls have changed
    /// the file.
    pub fn put<D: Disk>(&mut self, disk: &mut D, next: Stored) -> Result<(), StoreError>
        requires runs { self.old.failed ≡ false }
        requires entry { IsEntry next }
        requires follows { Follows self.old.state next }
        ensures faults { (D.state disk.new).faults
            ≡ counted (is_err result) (D.state disk.old).faults }
        ensures calls { Makes result (put_calls self.old.seat next) (D.state disk.old).calls
            (D.state disk.new).calls }
        ensures follows { came_to (D.state disk.new).model (is_err result)
            ≡ runs_on (put_calls self.old.seat next) (D.state disk.old).model }
        ensures fault { IfErr result (λ e. e ≡ Fault) }
        ensures put { OnOk result (self.new ≡ record {
          state = next;
          seat = next_seat self.old.seat next;
          failed = false;
        }) }
        ensures failed { OnErr result (self.new ≡ record self.old { failed = true }) }
        ensures any_moment { (tag : List ℕ)
            → IsSettled tag self.old.state self.old.seat (D.state disk.old).moments
            → Since (LeavesEither tag self.old.state next) (D.state disk.old).moments
            (D.state disk.new).moments }
        ensures settled { OnOk result ((tag : List ℕ)
            → IsSettled tag self.old.state self.old.seat (D.state disk.old).moments
            → IsSettled tag next (next_seat self.old.seat next) (D.state disk.new).moments) }
        ensures leaves { OnOk result ((tag : List ℕ)
            → IsSettled tag self.old.state self.old.seat (D.state disk.old).moments
            → LeavesState tag next (D.state disk.new).moments) }
    {
        let entry = self.seat.entry_for(next);
        self.put_entry(disk, entry)
    }

    /// Moves the store to this tag and this mask, by the disk calls of a put: it keeps the next index, raised by 1, and
    /// the same epoch. At each moment of the call a crash leaves a store of the old tag and the old state or of the new
    /// ones, and after `Ok` of the new ones. After `Fault`, the one error, the store must be opened again.
    ///
    /// The disk is the one on which the store was opened, and since then only this store's calls have changed
    /// the file.
    pub fn migrate<D: Disk>(
        &mut self,
        disk: &mut D,
        tag: &[u8; 32],
        mask: Mask,
    ) -> Result<(), StoreError>
        requires runs { self.old.failed ≡ false }
        requires left { self.old.state.next < 32768 }
        requires mask { mask.0 < 2 ^ MAX_RINGS }
        ensures faults { (D.state disk.new).faults
            ≡ counted (is_err result) (D.state disk.old).faults }
        ensures calls { Makes result
            (entry_calls self.old.seat (entry_with (Some tag.now) (migrated self.old.state mask)))
            (D.state disk.old).calls (D.state disk.new).calls }
        ensures follows { came_to (D.state disk.new).model (is_err result) ≡ runs_on
            (entry_calls self.old.seat (entry_with (Some tag.now) (migrated self.old.state mask)))
            (D.state disk.old).model }
        ensures fault { IfErr result (λ e. e ≡ Fault) }
        ensures moved { OnOk result (self.new ≡ record {
          state = migrated self.old.state mask;
          seat = behind self.old.seat
              (entry_with (Some tag.now) (migrated self.old.state mask));
          failed = false;
        }) }
        ensures failed { OnErr result (self.new ≡ record self.old { failed = true }) }
        ensures any_moment { (before : List ℕ)
            → IsSettled before self.old.state self.old.seat (D.state disk.old).moments
            → Since (LeavesOneOf before self.old.state tag.now (migrated self.old.state mask))
            (D.state disk.old).moments (D.state disk.new).moments }
        ensures settled { OnOk result ((before : List ℕ)
            → IsSettled before self.old.state self.old.seat (D.state disk.old).moments
            → IsSettled tag.now (migrated self.old.state mask) (behind self.old.seat
            (entry_with (Some tag.now) (migrated self.old.state mask)))
            (D.state disk.new).moments) }
        ensures leaves { OnOk result ((before : List ℕ)
            → IsSettled before self.old.state self.old.seat (D.state disk.old).moments
            → LeavesState tag.now (migrated self.old.state mask) (D.state disk.new).moments) }
    {
        let kept = Stored {
            next: self.state.next + 1,
            epoch: self.state.epoch,
            mask,
        };
        let entry = Entry {
            kept,
            moved: Some(*tag),
        };
        self.put_entry(disk, entry)
    }

    /// Puts an entry behind the last one.
    fn put_entry<D: Disk>(&mut self, disk: &mut D, entry: Entry) -> Result<(), StoreError>
        requires runs { self.old.failed ≡ false }
        requires entry { IsEntryOf self.old.seat.wide entry }
        requires follows { Follows self.old.state entry.kept }
        ensures faults { (D.state disk.new).faults
            ≡ counted (is_err result) (D.state disk.old).faults }
        ensures calls { Makes result (entry_calls self.old.seat entry) (D.state disk.old).calls
            (D.state disk.new).calls }
        ensures follows { came_to (D.state disk.new).model (is_err result)
            ≡ runs_on (entry_calls self.old.seat entry) (D.state disk.old).model }
        ensures fault { IfErr result (λ e. e ≡ Fault) }
        ensures put { OnOk result (self.new ≡ record {
          state = entry.kept;
          seat = behind self.old.seat entry;
          failed = false;
        }) }
        ensures failed { OnErr result (self.new ≡ record self.old { failed = true }) }
        ensures any_moment { (tag other : List ℕ)
            → IsSettled tag self.old.state self.old.seat (D.state disk.old).moments
            → (self.old.seat.tag ≡ tag → (behind self.old.seat entry).tag ≡ other)
            → Since (LeavesOneOf tag self.old.state other entry.kept)
            (D.state disk.old).moments (D.state disk.new).moments }
        ensures settled { OnOk result ((tag other : List ℕ)
            → IsSettled tag self.old.state self.old.seat (D.state disk.old).moments
            → (self.old.seat.tag ≡ tag → (behind self.old.seat entry).tag ≡ other)
            → IsSettled other entry.kept (behind self.old.seat entry) (D.state disk.new).moments) }
    {
        self.failed = true;
        write_synced(
            disk,
            self.seat.gate + 1,
            &entry_bytes(self.seat.wide, entry),
        )?;
        write_synced(disk, self.seat.gate, &[1])?;
        self.state = entry.kept;
        self.seat = self.seat.behind(entry);
        self.failed = false;
        Ok(())
    }
}
