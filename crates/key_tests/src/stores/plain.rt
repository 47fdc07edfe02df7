//! A second reader of the file of a store, written plainly over all its bytes.

use epoch_store::{StoreError, Stored};
use ff_ids::Mask;

/// The number of so many bytes from a place on, most significant byte first; bytes behind the end count as 0.
fn number(bytes: &[u8], place: usize, count: usize) -> u64 {
    let mut value = 0u64;
    for k in 0..count {
        let byte = match bytes.get(place.wrapping_add(k)) {
            Some(byte) => u64::from(*byte),
            None => 0,
        };
        value = value.wrapping_mul(256).wrapping_add(byte);
    }
    value
}

fn broken(bytes: &[u8], place: usize) -> StoreError {
    StoreError::Broken {
        place: place as u64,
        byte: bytes.get(place).copied(),
    }
}

/// Whether so many bytes stand at the place, each 255.
fn is_mark(bytes: &[u8], place: usize, count: usize) -> bool {
    for k in 0..count {
        if bytes.get(place.wrapping_add(k)) != Some(&255) {
            return false;
        }
    }
    true
}

/// How many bytes a mask has behind this header, if it is one.
fn mask_len(bytes: &[u8]) -> Result<usize, StoreError> {
    for (place, byte) in b"FFSTORE".iter().enumerate() {
        if bytes.get(place) != Some(byte) {
            return Err(broken(bytes, place));
        }
    }
    let len = match bytes.get(7) {
        Some(b'1') => 4,
        Some(b'2') => 8,
        _ => return Err(broken(bytes, 7)),
    };
    if bytes.len() < 40 {
        return Err(broken(bytes, bytes.len()));
    }
    Ok(len)
}

/// How far a reading has come: the place of the next gate, the bytes that a mask has there, the place of the tag in
/// force, and the numbers and the mask of the entry before.
#[derive(Clone, Copy)]
struct Reading {
    gate: usize,
    mask_len: usize,
    tag: usize,
    entries: u32,
    next: u64,
    epoch: u64,
    mask: u64,
}

/// Reads the entry behind an open gate.
fn read_entry(bytes: &[u8], at: Reading) -> Result<Reading, StoreError> {
    let mask_place = at.gate.wrapping_add(13);
    let behind = mask_place.wrapping_add(at.mask_len);
    let moves = is_mark(bytes, mask_place, at.mask_len);
    let end = if moves {
        behind.wrapping_add(40)
    } else {
        behind
    };
    if bytes.len() < end {
        return Err(broken(bytes, bytes.len()));
    }
    let is_first = at.entries == 0;
    let next = number(bytes, at.gate.wrapping_add(1), 4);
    if next > 32_768 || (!is_first && next <= at.next) {
        return Err(broken(bytes, at.gate.wrapping_add(1)));
    }
    let epoch = number(bytes, at.gate.wrapping_add(5), 8);
    if epoch > next || (!is_first && epoch < at.epoch) {
        return Err(broken(bytes, at.gate.wrapping_add(5)));
    }
    let entries = at.entries.wrapping_add(1);
    if moves {
        if is_first {
            return Err(broken(bytes, mask_place));
        }
        let own_place = behind.wrapping_add(32);
        let mask = number(bytes, own_place, 8);
        if mask >= 1 << 63 {
            return Err(broken(bytes, own_place));
        }
        return Ok(Reading {
            gate: end,
            mask_len: 8,
            tag: behind,
            entries,
            next,
            epoch,
            mask,
        });
    }
    let mask = number(bytes, mask_place, at.mask_len);
    let bits = if at.mask_len == 4 { 31 } else { 63u32 };
    if mask >> bits > 0 {
        return Err(broken(bytes, mask_place));
    }
    Ok(Reading {
        gate: end,
        entries,
        next,
        epoch,
        mask,
        ..at
    })
}

/// The state where the reading ends, if the tag in force is this one.
fn close(bytes: &[u8], tag: &[u8; 32], at: Reading) -> Result<Stored, StoreError> {
    for (index, byte) in tag.iter().enumerate() {
        let place = at.tag.wrapping_add(index);
        let found = number(bytes, place, 1);
        if found != u64::from(*byte) {
            return Err(StoreError::OtherKey {
                place: place as u64,
                byte: (found % 256) as u8,
            });
        }
    }
    Ok(Stored {
        next: (at.next % (1 << 32)) as u32,
        epoch: at.epoch,
        mask: Mask(at.mask),
    })
}

/// The state that a file of at most four entries stands for.
pub fn state_of(bytes: &[u8], tag: &[u8; 32]) -> Result<Stored, StoreError> {
    let mut at = Reading {
        gate: 40,
        mask_len: mask_len(bytes)?,
        tag: 8,
        entries: 0,
        next: 0,
        epoch: 0,
        mask: 0,
    };
    for _ in 0..6u32 {
        let gate = match bytes.get(at.gate) {
            Some(gate) => *gate,
            None => return Err(broken(bytes, bytes.len())),
        };
        if gate != 1 && at.entries == 0 {
            return Err(broken(bytes, 40));
        }
        if gate != 1 {
            return close(bytes, tag, at);
        }
        at = read_entry(bytes, at)?;
    }
    Err(StoreError::Fault)
}
