//! One entry of the file, and what stands at a gate.

ghost use Rattle.std.specs.Prelude.{◌≡◌, ◌↔◌, ◌+◌, ◌-◌, ◌<◌, ◌≤◌, ◌^◌, [], ◌∷◌, ◌++◌, length, Option, IsErr, IfOk, IfErr, IfSome, nat_eq};
ghost use Rattle.arrayvec.specs.ArrayVec.{array_vec_len};
ghost use Rattle.std.specs.List.{common_prefix_len, slice_get};
ghost use Rattle.epoch_store.specs.declared.StoreError.TheVariants.{Broken};
ghost use Rattle.epoch_store.specs.Seat.{width_by};
ghost use Rattle.epoch_store.specs.Store.{magic as magic_of, mark as mark_of, mask_bytes, spelled};
ghost use Rattle.epoch_store.specs.Calls.{ChecksHead};
ghost use Rattle.epoch_store.specs.Looks.{HasFields, IsMoved, Looks};
ghost use Rattle.epoch_store.specs.Reading.{wrong_field as wrong_field_of, is_above as is_above_it, is_at_least as is_at_least_it, mask_stands as mask_may_stand, own_mask_stands as own_mask_may_stand, width_of as width_told_by};

use crate::seat::{HEAD_LEN, NARROW_RINGS, Seat, TAG_PLACE};
use crate::{StoreError, Stored};
use arrayvec::ArrayVec;
use ff_ids::{Bits, MAX_RINGS, Mask};
use fields::{Reader, Short};

/// An entry of the file: the state that it keeps, and where it moves the store the tag that is in force from it on.
#[derive(Clone, Copy, Debug, PartialEq, Eq)]
pub(crate) struct Entry {
    pub(crate) kept: Stored,
    pub(crate) moved: Option<[u8; 32]>,
}

/// What stands at a gate of a store.
#[derive(Clone, Copy, Debug, PartialEq, Eq)]
pub(crate) enum Gate {
    /// The gate is closed, and this is the state of the last entry before it.
    Shut(Stored),
    /// This entry stands behind the open gate.
    Open(Entry),
}

/// What the bytes of a gate and of the entry behind it begin with.
#[derive(Clone, Copy, Debug, PartialEq, Eq)]
pub(crate) enum Look {
    /// The file ends within them.
    Cut,
    /// The gate is closed.
    Shut,
    /// These numbers and this mask, or the mark in its place, stand behind the open gate.
    Fields(Stored),
}

/// The greatest next index that a store may keep.
const LAST_NEXT: u32 = 32_768;

/// How many bytes of a gate and its entry stand before each field.
const NEXT_PLACE: usize = 1;

const EPOCH_PLACE: usize = 5;

const MASK_PLACE: usize = 13;

/// What stands in the place of a migration entry's mask.
pub(crate) fn mark(wide: bool) -> Bits
    ensures { result ≡ mark_of wide }
{
    if wide {
        Bits::MAX
    } else {
        Bits::from(u32::MAX)
    }
}

/// Puts a piece behind the bytes.
pub(crate) fn put_piece<const N: usize>(bytes: &mut ArrayVec<u8, N>, piece: &[u8])
    requires { array_vec_len bytes.old + length piece.now ≤ N }
    ensures { bytes.new.items ≡ bytes.old.items ++ piece.now }
{
    for byte in piece {
        bytes.push(*byte);
    }
}

/// Puts a mask behind the bytes, in eight bytes where the entry is wide, else in four.
fn put_mask(bytes: &mut ArrayVec<u8, 61>, wide: bool, mask: Bits)
    requires { array_vec_len bytes.old ≤ 12 }
    ensures { bytes.new.items ≡ bytes.old.items ++ mask_bytes wide mask }
{
    let [_, _, _, _, a, b, c, d] = mask.to_be_bytes();
    if wide {
        put_piece(bytes, &mask.to_be_bytes());
    } else {
        put_piece(bytes, &[a, b, c, d]);
    }
}

/// The bytes of an entry, and of a closed gate behind it.
pub(crate) fn entry_bytes(wide: bool, entry: Entry) -> ArrayVec<u8, 61>
    ensures { result.items ≡ spelled wide entry ++ 0 ∷ [] }
{
    let Entry { kept, moved } = entry;
    let mut bytes = ArrayVec::new();
    put_piece(&mut bytes, &kept.next.to_be_bytes());
    put_piece(&mut bytes, &kept.epoch.to_be_bytes());
    match moved {
        None => put_mask(&mut bytes, wide, kept.mask.0),
        Some(tag) => {
            put_mask(&mut bytes, wide, mark(wide));
            put_piece(&mut bytes, &tag);
            put_piece(&mut bytes, &kept.mask.0.to_be_bytes());
        }
    }
    bytes.push(0);
    bytes
}

/// The numbers and the mask that these bytes spell, up to 16 of a narrow and 20 of a wide entry.
fn read_fields(wide: bool, bytes: &[u8]) -> Result<Stored, Short>
    requires { length bytes.now ≤ width_by wide - 1 }
    ensures short { IsErr result ↔ (length bytes.now < width_by wide - 1) }
    ensures spelled { IfOk result (HasFields wide bytes.now) }
{
    let mut reader = Reader::new(bytes);
    let next = reader.u32()?;
    let epoch = reader.u64()?;
    let mask = if wide {
        reader.u64()?
    } else {
        Bits::from(reader.u32()?)
    };
    Ok(Stored {
        next,
        epoch,
        mask: Mask(mask),
    })
}

/// What the bytes of a gate and its entry begin with, up to 17 in a narrow and 21 in a wide seat.
pub(crate) fn look_at(wide: bool, bytes: &[u8]) -> Look
    requires { length bytes.now ≤ width_by wide }
    ensures { Looks wide bytes.now result }
{
    match bytes {
        [] => Look::Cut,
        [1, entry @ ..] => match read_fields(wide, entry) {
            Err(Short { .. }) => Look::Cut,
            Ok(fields) => Look::Fields(fields),
        },
        [_, ..] => Look::Shut,
    }
}

/// The migration entry with these numbers, these being the bytes behind its mark, up to 40.
pub(crate) fn read_moved(numbers: Stored, bytes: &[u8]) -> Result<Entry, Short>
    requires { length bytes.now ≤ 40 }
    ensures short { IsErr result ↔ (length bytes.now < 40) }
    ensures spelled { IfOk result (IsMoved numbers bytes.now) }
{
    let mut reader = Reader::new(bytes);
    let mut tag = [0; 32];
    tag.copy_from_slice(reader.bytes(32)?);
    let mask = Mask(reader.u64()?);
    Ok(Entry {
        kept: Stored { mask, ..numbers },
        moved: Some(tag),
    })
}

/// Whether the next index is above that of the entry before, if there is one.
fn is_above(before: Option<Stored>, next: u32) -> bool
    ensures { result ≡ is_above_it before next }
{
    match before {
        None => true,
        Some(before) => before.next < next,
    }
}

/// Whether the epoch is not below that of the entry before, if there is one.
fn is_at_least(before: Option<Stored>, epoch: u64) -> bool
    ensures { result ≡ is_at_least_it before epoch }
{
    match before {
        None => true,
        Some(before) => before.epoch <= epoch,
    }
}

/// Whether the mask of an entry has no bit too many; and no first entry is a migration entry.
fn mask_stands(wide: bool, before: Option<Stored>, entry: Entry) -> bool
    ensures { result ≡ mask_may_stand wide before entry.moved entry.kept.mask.0 }
{
    let rings = if wide { MAX_RINGS } else { NARROW_RINGS };
    match entry.moved {
        None => entry.kept.mask.0 < (1 as Bits) << rings,
        Some(_) => before.is_some(),
    }
}

/// Whether the mask behind a migration entry's tag has no bit too many.
fn own_mask_stands(entry: Entry) -> bool
    ensures { result ≡ own_mask_may_stand entry.moved entry.kept.mask.0 }
{
    entry.moved.is_none() || entry.kept.mask.0 < (1 as Bits) << MAX_RINGS
}

/// The first field of the entry that may not stand there, as the number of bytes from its gate on.
pub(crate) fn wrong_field(seat: Seat, before: Option<Stored>, entry: Entry) -> Option<usize>
    ensures { result ≡ wrong_field_of seat.wide before entry }
{
    let Stored { next, epoch, .. } = entry.kept;
    if !(next <= LAST_NEXT && is_above(before, next)) {
        return Some(NEXT_PLACE);
    }
    if !(epoch <= u64::from(next) && is_at_least(before, epoch)) {
        return Some(EPOCH_PLACE);
    }
    if !mask_stands(seat.wide, before, entry) {
        return Some(MASK_PLACE);
    }
    if !own_mask_stands(entry) {
        return Some(seat.width() + 32);
    }
    None
}

/// The header's first bytes; its last one tells the width of the entries.
const MAGIC: &[u8; 7] = b"FFSTORE";

/// The header's first bytes in a store of this width.
pub(crate) fn magic(wide: bool) -> &'static [u8; 8]
    ensures { result.now ≡ magic_of wide }
{
    if wide { b"FFSTORE2" } else { b"FFSTORE1" }
}

/// How many bytes from the front on are the same in both.
pub(crate) fn common_prefix(a: &[u8], b: &[u8]) -> usize
    ensures { result ≡ common_prefix_len nat_eq a.now b.now }
{
    for (place, byte) in a.iter().enumerate() {
        if place >= b.len() || b[place] != *byte {
            return place;
        }
    }
    a.len()
}

/// The width that the header's last byte tells.
fn width_told(byte: Option<u8>) -> Option<bool>
    ensures { result ≡ width_told_by byte }
{
    match byte {
        Some(b'1') => Some(false),
        Some(b'2') => Some(true),
        _ => None,
    }
}

/// The first seat of the file whose first 40 bytes these are, as far as it has them.
pub(crate) fn check_head(head: &[u8]) -> Result<Seat, StoreError>
    requires { length head.now ≤ 40 }
    ensures { ChecksHead head.now result }
{
    let good = common_prefix(MAGIC, head);
    if good < MAGIC.len() {
        return Err(broken(head, good));
    }
    let Some(wide) = width_told(byte_at(head, MAGIC.len())) else {
        return Err(broken(head, MAGIC.len()));
    };
    if head.len() < HEAD_LEN {
        return Err(broken(head, head.len()));
    }
    let mut tag = [0; 32];
    tag.copy_from_slice(&head[TAG_PLACE..]);
    Ok(Seat::first(wide, &tag))
}

/// The byte at a place, or none behind the end.
pub(crate) fn byte_at(bytes: &[u8], place: usize) -> Option<u8>
    ensures { result ≡ slice_get bytes.now place }
{
    bytes.get(place).copied()
}

/// Where the head of a file breaks.
fn broken(head: &[u8], place: usize) -> StoreError
    ensures { result ≡ Broken place (slice_get head.now place) }
{
    StoreError::Broken {
        place: place as u64,
        byte: byte_at(head, place),
    }
}
