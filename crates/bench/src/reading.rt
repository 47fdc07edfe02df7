//! A datagram's worth of records, read.

use fields::Reader;
use records::next_record;
use std::alloc::{AllocError, Global};

/// A note of member 2, and the length of its signature: 1,292 bytes.
const HEAD: [u8; 17] = *b"\x02\x00\x02\x00\x00\x00\x00\x00\x00\x00\x01\x00\x00\x00\x07\x05\x0c";

const SIGNATURE: [u8; 1292] = [0xa5; 1292];

/// As many as fit in a datagram.
const RECORDS: usize = 25;

/// The bytes of the records, in room that is taken at once.
fn spelled(alloc: Global) -> Result<Vec<u8>, AllocError> {
    let mut bytes = Vec::with_capacity(alloc, RECORDS * 1309)?;
    for _ in 0..RECORDS {
        bytes.extend_from_slice(&HEAD)?;
        bytes.extend_from_slice(&SIGNATURE)?;
    }
    Ok(bytes)
}

/// Reads the records, up to the first for which there is no memory.
pub fn count(alloc: Global) -> Result<usize, AllocError> {
    let bytes = spelled(alloc)?;
    let mut reader = Reader::new(&bytes);
    let mut count = 0usize;
    for _ in 0..RECORDS {
        match next_record(alloc, &mut reader) {
            Ok(_) => count = count.saturating_add(1),
            Err(_) => return Ok(count),
        }
    }
    Ok(count)
}
