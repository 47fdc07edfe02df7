//! The players of both forms as one.

ghost use Rattle.std.specs.Prelude.{◌≡◌, ◌<◌, [], OnOk};
ghost use Rattle.std.specs.Str.{bytes_eq};
ghost use Rattle.play.specs.Answers.{AnswersEnd, AnswersLine};
ghost use Rattle.text_trace.specs.Lines.{text_lines};
ghost use Rattle.text_trace.specs.Trace.{Owing};
ghost use Rattle.world_rules.specs.declared.cause.Cause.{Cause};
ghost use Rattle.world_replay.specs.Causes.{IsJudged};
ghost use Rattle.command_line.specs.ReplayAnswers.{for_either};
ghost use Rattle.command_line.specs.ReplayOwing.{OwedByForm, left_in_form};
ghost use Rattle.command_line.specs.Replayed.{replayed_as, world_header};

use line_text::BadWord;
use play::{Refusal, Script};
use replay::Player as DirectPlayer;
use std::alloc::Global;
use world_replay::Player as WorldPlayer;
use world_rules::Cause;

/// The line that heads a schedule of a world.
const WORLD: &[u8] = b"fireflies 1 world\n";

/// What a run has, in the form of its text.
#[derive(Drop)]
pub enum FormPlayer {
    Direct(DirectPlayer),
    World(WorldPlayer),
}

/// A refusal for a bad word, as one for a cause of either form.
fn for_word(answer: Result<(), Refusal<BadWord>>) -> Result<(), Refusal<Cause>>
    ensures { result ≡ for_either answer }
{
    match answer {
        Ok(()) => Ok(()),
        Err(Refusal::Refused(word)) => Err(Refusal::Refused(Cause::Bad(word))),
        Err(Refusal::OutOfMemory) => Err(Refusal::OutOfMemory),
    }
}

impl FormPlayer {
    /// Nothing was read yet of a text with this first line.
    pub fn new(alloc: Global, first: &[u8]) -> FormPlayer
        ensures owes { OwedByForm result (replayed_as (bytes_eq first.now world_header)) }
        ensures room { left_in_form result ≡ text_lines }
    {
        if first == WORLD {
            FormPlayer::World(WorldPlayer::new(alloc))
        } else {
            FormPlayer::Direct(DirectPlayer::new())
        }
    }

    /// Takes a line, and puts what is written for it into the text, which is empty.
    pub fn line(
        &mut self,
        alloc: Global,
        bytes: &[u8],
        text: &mut Vec<u8>,
    ) -> Result<(), Refusal<Cause>>
        requires empty { text.old.items ≡ [] }
        requires owing { Owing Cause (OwedByForm self.old) }
        ensures room { OnOk result (left_in_form self.new < left_in_form self.old) }
        ensures line { AnswersLine Cause IsJudged (OwedByForm self.old) (OwedByForm self.new)
            bytes.now text.new.items result }
    {
        match self {
            FormPlayer::Direct(player) => for_word(player.line(alloc, bytes, text)),
            FormPlayer::World(player) => player.line(alloc, bytes, text),
        }
    }

    /// Ends the text, and puts what is written at its end into the text, which is empty.
    pub fn end(&self, alloc: Global, text: &mut Vec<u8>) -> Result<(), Refusal<Cause>>
        requires empty { text.old.items ≡ [] }
        requires owing { Owing Cause (OwedByForm self.now) }
        ensures end { AnswersEnd Cause IsJudged (OwedByForm self.now) text.new.items result }
    {
        match self {
            FormPlayer::Direct(player) => for_word(player.end(alloc, text)),
            FormPlayer::World(player) => player.end(alloc, text),
        }
    }
}
