//! A run over a text, as a script of its lines.

ghost use Rattle.std.specs.Prelude.{◌≡◌, ◌<◌, [], OnOk, Option, length};
ghost use Rattle.text_trace.specs.Lines.{text_lines};
ghost use Rattle.text_trace.specs.Trace.{Every};
ghost use Rattle.trace.specs.Answers.{Recorded, answer as answer_to, told};
ghost use Rattle.trace.specs.Walk.{replayed};
ghost use Rattle.replay.specs.Plays.{Plays, FitsOn};
ghost use Rattle.replay.specs.Playing.{OwedBy, lines_left};

use crate::life::{Life, answer};
use fields::NoMemory;
use line_text::{BadWord, LineFault, Reader};
use play::{Refusal, Script};
use schedule_direct::{Direct, DirectLine};
use std::alloc::Global;

/// What a run has between two lines: what was read of the text, and the life that is being recorded.
#[derive(Drop)]
pub struct Player {
    lines: Reader<Direct>,
    life: Option<Life>,
}

impl Player {
    /// Nothing was read.
    pub fn new() -> Player
        ensures owes { OwedBy result replayed }
        ensures room { lines_left result ≡ text_lines }
    {
        Player {
            lines: Reader::open(Direct::Start),
            life: None,
        }
    }
}

/// Puts what is written for a line into the text.
fn tell(
    alloc: Global,
    life: &mut Option<Life>,
    line: DirectLine,
    bytes: &[u8],
    text: &mut Vec<u8>,
) -> Result<(), NoMemory>
    requires some { 0 < length bytes.now }
    requires empty { text.old.items ≡ [] }
    requires fits { FitsOn life.old line }
    ensures plays { (r : Option Recorded) → Plays life.old r
        → OnOk result (Plays life.new (answer_to r line).recorded) }
    ensures text { (r : Option Recorded) → Plays life.old r
        → OnOk result (text.new.items ≡ told bytes.now (answer_to r line)) }
{
    text.extend_from_slice(&bytes[..bytes.len() - 1])?;
    answer(alloc, life, line, text)
}

impl Script for Player {
    ghost use Rattle.replay.specs.Playing.{OwedBy, lines_left, owed_waits};

    type Cause = BadWord;

    ghost judged = { Every };

    ghost owes = { OwedBy };

    ghost room = { lines_left };

    ghost reaches = { λ _ _ _. Unit {0} };

    fn line(
        &mut self,
        alloc: Global,
        bytes: &[u8],
        text: &mut Vec<u8>,
    ) -> Result<(), Refusal<BadWord>> {
        let line = match self.lines.line(alloc, bytes) {
            Ok(line) => line,
            Err(LineFault::Bad(word)) => return Err(Refusal::Refused(word)),
            Err(LineFault::OutOfMemory) => return Err(Refusal::OutOfMemory),
        };
        match tell(alloc, &mut self.life, line, bytes, text) {
            Ok(()) => Ok(()),
            Err(NoMemory) => Err(Refusal::OutOfMemory),
        }
    }

    fn end(&self, _alloc: Global, _text: &mut Vec<u8>) -> Result<(), Refusal<BadWord>> {
        match self.lines.end() {
            Ok(()) => Ok(()),
            Err(LineFault::Bad(word)) => Err(Refusal::Refused(word)),
            Err(LineFault::OutOfMemory) => Err(Refusal::OutOfMemory),
        }
    }

    ghost waits = { owed_waits };

    ghost reaches_itself = { λ _. tt };

    ghost reaches_on = { λ _ _ _ _ _ _ _. tt };
}
