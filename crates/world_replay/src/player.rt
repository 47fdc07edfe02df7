//! A run over a text, as a script of its lines.

ghost use Rattle.std.specs.Prelude.{◌≡◌};
ghost use Rattle.text_trace.specs.Lines.{text_lines};
ghost use Rattle.world_replay.specs.Causes.{IsJudged, replayed};

use crate::Stage;
use line_text::{LineFault, Reader};
use play::{Refusal, Script};
use schedule_world::WorldText;
use std::alloc::Global;
use world::WorldFault;
use world_rules::Cause;

/// What a run has between two lines: what was read of the text, and what has come of it.
#[derive(Drop)]
pub struct Player {
    lines: Reader<WorldText>,
    stage: Stage,
}

impl Script for Player {
    ghost use Rattle.world_replay.specs.Owing.{OwedBy, lines_left, owed_waits};

    type Cause = Cause;

    ghost judged = { IsJudged };

    ghost owes = { OwedBy };

    ghost room = { lines_left };

    ghost reaches = { λ _ _ _. Unit {0} };

    #[inline(never)]
    fn line(
        &mut self,
        alloc: Global,
        bytes: &[u8],
        text: &mut Vec<u8>,
    ) -> Result<(), Refusal<Cause>> {
        let line = match self.lines.line(alloc, bytes) {
            Ok(line) => line,
            Err(LineFault::Bad(word)) => return Err(Refusal::Refused(Cause::Bad(word))),
            Err(LineFault::OutOfMemory) => return Err(Refusal::OutOfMemory),
        };
        match self.stage.take(alloc, &line, text) {
            Ok(()) => Ok(()),
            Err(WorldFault::Forged { who, body }) => {
                let cause = Cause::Forged { who, body };
                Err(Refusal::Refused(cause))
            }
            Err(WorldFault::OutOfMemory) => Err(Refusal::OutOfMemory),
        }
    }

    #[inline(never)]
    fn end(&self, _alloc: Global, _text: &mut Vec<u8>) -> Result<(), Refusal<Cause>> {
        match self.lines.end() {
            Ok(()) => Ok(()),
            Err(LineFault::Bad(word)) => Err(Refusal::Refused(Cause::Bad(word))),
            Err(LineFault::OutOfMemory) => Err(Refusal::OutOfMemory),
        }
    }

    ghost waits = { owed_waits };

    ghost reaches_itself = { λ _. tt };

    ghost reaches_on = { λ _ _ _ _ _ _ _. tt };
}

impl Player {
    ghost use Rattle.world_replay.specs.Owing.{OwedBy, lines_left};

    /// Nothing was read: the whole text is owed.
    pub fn new(alloc: Global) -> Player
        ensures owes { OwedBy result replayed }
        ensures room { lines_left result ≡ text_lines }
    {
        Player {
            lines: Reader::open(WorldText::Start),
            stage: Stage::new(alloc),
        }
    }
}
