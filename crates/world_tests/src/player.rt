//! Plays a schedule from its text.

use ff_ids::MemberId;
use fields::NoMemory;
use line_text::BadWord;
use play::{Stop, play as play_lines};
use ports::{MemorySink, MemorySource};
use records::Body;
use std::alloc::Global;
use world_replay::Player;
use world_rules::Cause;

/// How many bytes a trace may have here.
const ROOM: usize = 1 << 20;

/// How a schedule ended.
#[derive(Clone, Copy, Debug, PartialEq, Eq)]
pub enum Ended {
    Whole,
    Bad(u32, BadWord),
    Forged(u32, Option<MemberId>, Body),
}

impl Ended {
    /// The line of this number was refused for the cause.
    fn refused(line: u32, cause: Cause) -> Ended {
        match cause {
            Cause::Bad(word) => Ended::Bad(line, word),
            Cause::Forged { who, body } => Ended::Forged(line, who, body),
        }
    }
}

/// The trace, and how it ended.
#[derive(Drop)]
pub struct Played {
    pub trace: Vec<u8>,
    pub ended: Ended,
}

/// Plays the text.
pub fn play(alloc: Global, text: &[u8]) -> Result<Played, NoMemory> {
    let mut input = MemorySource::new(text.to_vec(alloc)?, 1, Vec::new(alloc));
    let mut out = MemorySink::new(alloc, ROOM, ROOM, Vec::new(alloc))?;
    let mut player = Player::new(alloc);
    let ended = match play_lines(alloc, &mut player, &mut input, &mut out) {
        Ok(()) => Ended::Whole,
        Err(Stop::Refused { line, cause }) => Ended::refused(line, cause),
        Err(_) => return Err(NoMemory),
    };
    Ok(Played {
        trace: out.bytes().to_vec(alloc)?,
        ended,
    })
}
