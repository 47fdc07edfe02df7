//! Worked schedules.

mod forged;
mod given;
mod leaving;
mod rounds;
mod stops;
mod together;
mod workload;

use crate::player::{Ended, play};
use std::alloc::Global;
use std::process::Abort;
use std::test::Fail;

/// The kinds of keys that are made soonest.
const HEAD: &str = "fireflies 1 world\n\
group 1 4 1 2 00000000000000000000000000000000\n\
kinds 2 5\n";

/// A node and a liar.
const PAIR: &str = "node 1\nliar 2\nbegin\n";

/// What is written for the first life of the node.
const STARTED: &str = "start 1 : life 1\n@1 at 0 spent 0 note 1 1 7\n@1 at 0 entered 1\n";

/// Whether the line is this one; a line that is to end in `HEX` may have any digits there.
fn is_line(line: &[u8], wanted: &[u8]) -> bool {
    match wanted.strip_suffix(b"HEX") {
        Some(front) => line.starts_with(front) && line.len() > front.len(),
        None => line == wanted,
    }
}

/// The trace has exactly these lines.
fn compare(rt: &impl Abort, trace: &[u8], wanted: &str) {
    let mut lines = trace.split(|byte| *byte == b'\n');
    for line in wanted.as_bytes().split(|byte| *byte == b'\n') {
        let found = lines.next().unwrap_or(b"nothing".as_slice());
        if !is_line(found, line) {
            let found = std::str::from_utf8(found).unwrap_or("no text");
            let line = std::str::from_utf8(line).unwrap_or("no text");
            panic!(rt; "found {found}, wanted {line}");
        }
    }
    assert!(rt; lines.next().is_none(), "more lines");
}

/// Plays the head and these lines to the end, which gives the head and these lines.
fn plays(rt: &impl Abort, alloc: Global, text: &str, wanted: &str) -> Result<(), Fail> {
    let text = format!(in alloc; "{HEAD}{text}end\n")?;
    let wanted = format!(in alloc; "{HEAD}{wanted}end\n")?;
    let played = play(alloc, text.as_bytes())?;
    assert_eq!(rt; played.ended, Ended::Whole);
    compare(rt, &played.trace, wanted.as_str());
    Ok(())
}
