//! A run over a text of either form, as a script of its lines.

ghost use Rattle.std.specs.Prelude.{◌≡◌, ◌≤◌, ◌+◌, true};
ghost use Rattle.play.specs.Plays.{Continues, Runs, has_written, io};
ghost use Rattle.text_trace.specs.Lines.{text_lines};
ghost use Rattle.text_trace.specs.Long.{most_lines};
ghost use Rattle.text_trace.specs.Trace.{Owing};
ghost use Rattle.world_rules.specs.declared.cause.Cause.{Cause};
ghost use Rattle.world_replay.specs.Causes.{IsJudged};
ghost use Rattle.command_line.specs.ReplayAnswers.{run_for_either};
ghost use Rattle.command_line.specs.ReplayOwing.{OwedFrom, left_from};
ghost use Rattle.command_line.specs.Replayed.{replayed};

use crate::replay_form::FormPlayer;
use line_text::BadWord;
use play::{Buffers, Refusal, Script, Stop, play_line, play_on};
use ports::{Sink, Source};
use std::alloc::Global;
use world_rules::Cause;

/// What a run has between two lines: nothing before the first line, which tells the form.
#[derive(Drop)]
struct AnyPlayer {
    form: Option<FormPlayer>,
}

impl Script for AnyPlayer {
    ghost use Rattle.command_line.specs.ReplayLaws.{owed_waits};

    type Cause = Cause;

    ghost judged = { IsJudged };

    ghost owes = { λ s f. OwedFrom s.form f };

    ghost room = { λ s. left_from s.form };

    ghost reaches = { λ _ _ _. Unit {0} };

    fn line(
        &mut self,
        alloc: Global,
        bytes: &[u8],
        text: &mut Vec<u8>,
    ) -> Result<(), Refusal<Cause>> {
        match &mut self.form {
            Some(player) => player.line(alloc, bytes, text),
            None => {
                let mut player = FormPlayer::new(alloc, bytes);
                let answer = player.line(alloc, bytes, text);
                drop(self.form.replace(player));
                answer
            }
        }
    }

    fn end(&self, alloc: Global, text: &mut Vec<u8>) -> Result<(), Refusal<Cause>> {
        match &self.form {
            Some(player) => player.end(alloc, text),
            None => Err(Refusal::Refused(Cause::Bad(BadWord::End))),
        }
    }

    ghost waits = { λ s f owes. owed_waits s.form f owes };

    ghost reaches_itself = { λ _. tt };

    ghost reaches_on = { λ _ _ _ _ _ _ _. tt };
}

/// Why a run over the direct form stopped, as for a cause of either form.
fn for_words(answer: Result<(), Stop<BadWord>>) -> Result<(), Stop<Cause>>
    ensures { result ≡ run_for_either answer }
{
    match answer {
        Ok(()) => Ok(()),
        Err(Stop::Refused { line, cause }) => Err(Stop::Refused {
            line,
            cause: Cause::Bad(cause),
        }),
        Err(Stop::ReadFault) => Err(Stop::ReadFault),
        Err(Stop::WriteFault) => Err(Stop::WriteFault),
        Err(Stop::OutOfMemory) => Err(Stop::OutOfMemory),
    }
}

/// Plays the lines from the one of this number on, in the form that the lines before told. Each form has a loop of its
/// own: so a line of the direct form costs no more than its player does, whose answers are narrower than those that may
/// name a forged record.
fn play_in_form<S: Source, O: Sink>(
    alloc: Global,
    player: &mut AnyPlayer,
    input: &mut S,
    out: &mut O,
    first: u32,
    buffers: &mut Buffers,
) -> Result<(), Stop<Cause>>
    requires source { (S.state input.old).is_open ≡ true }
    requires sink { (O.state out.old).is_open ≡ true }
    requires owing { Owing Cause (OwedFrom player.old.form) }
    requires few { first + left_from player.old.form ≤ most_lines + 1 }
    ensures sink { (O.state out.new).is_open ≡ has_written result }
    ensures continues { Continues Cause IsJudged (OwedFrom player.old.form) first
        (left_from player.old.form)
        (io (S.state input.old) (O.state out.old))
        (io (S.state input.new) (O.state out.new)) result }
{
    match &mut player.form {
        Some(FormPlayer::Direct(direct)) => {
            for_words(play_on(alloc, direct, input, out, first, buffers))
        }
        Some(FormPlayer::World(world)) => play_on(alloc, world, input, out, first, buffers),
        None => play_on(alloc, player, input, out, first, buffers),
    }
}

/// Plays the recorded text that the source gives, to its end or up to the first cause that stops it, and writes its trace:
/// of each line before the next is taken. A text that `fireflies 1 world` heads is a schedule of a world; any other is one
/// of the direct form.
pub fn replay<S: Source, O: Sink>(
    alloc: Global,
    input: &mut S,
    out: &mut O,
) -> Result<(), Stop<Cause>>
    requires source { (S.state input.old).is_open ≡ true }
    requires sink { (O.state out.old).is_open ≡ true }
    ensures sink { (O.state out.new).is_open ≡ has_written result }
    ensures runs { Runs Cause IsJudged (λ f. f ≡ replayed) text_lines
        (io (S.state input.old) (O.state out.old))
        (io (S.state input.new) (O.state out.new)) result }
{
    let Ok(mut buffers) = Buffers::new(alloc) else {
        return Err(Stop::OutOfMemory);
    };
    let mut player = AnyPlayer { form: None };
    let ended = match play_line(alloc, &mut player, input, out, 1, &mut buffers) {
        Ok(true) => play_in_form(alloc, &mut player, input, out, 2, &mut buffers),
        Ok(false) => Ok(()),
        Err(stop) => Err(stop),
    };
    drop(player);
    ended
}
