//! What a run reads into and writes from.

ghost use Rattle.std.specs.Prelude.{◌<◌, vec_capacity};
ghost use Rattle.text_trace.specs.Lines.{seen_bytes};

use std::alloc::{AllocError, Global};
use text_trace::SEEN_BYTES;

/// The line that is being played, and what is written for it. Nothing of them is kept from one line to the next.
#[derive(Drop)]
pub struct Buffers {
    pub(crate) line: Vec<u8>,
    pub(crate) text: Vec<u8>,
    ghost room: { seen_bytes < vec_capacity line },
}

impl Buffers {
    /// Empty buffers, with room for all that is seen of a line, and for a line feed behind it.
    pub fn new(alloc: Global) -> Result<Buffers, AllocError> {
        let line = Vec::with_capacity(alloc, SEEN_BYTES + 1)?;
        let text = Vec::new(alloc);
        Ok(Buffers { line, text })
    }
}
