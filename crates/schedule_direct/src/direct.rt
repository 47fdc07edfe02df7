//! The direct form, line by line.

ghost use Rattle.std.specs.Prelude.{◌≡◌, ◌≤◌};
ghost use Rattle.ff_ids.specs.declared.TheConstants.{MAX_TOLERANCE};
ghost use Rattle.line_text.specs.Answers.{AnswersBy};
ghost use Rattle.line_text.specs.Frame.{fields_line};
ghost use Rattle.schedule_direct.specs.Rows.{TakesMemory, direct_table, fields_of, is_body, is_ended, is_headed, line_of, may_stand, reads, row_for, ticks_left, tolerance};
ghost use Rattle.schedule_direct.specs.Grammar.{IsDirect, IsSound, after};

use crate::glance::glance_line;
use crate::line::{DirectLine, LineWord};
use crate::member::member_line;
use crate::read::{accuse_line, group_line, lone_line, monitor_line, note_line, tick_line};
use line_text::{BadWord, Form, Glance, LineFault, TableForm, Words, judge_by_table};
use std::alloc::Global;

/// How many ticks a schedule may have.
const TICKS: u32 = 1_000_000;

/// What has been read of a schedule in the direct form.
#[derive(Clone, Copy, Debug, PartialEq, Eq)]
pub enum Direct {
    /// Nothing: the header comes next.
    Start,
    /// The header: the group comes next.
    Headed,
    /// The group, of tolerance `t`, and so many ticks.
    Body { t: u8, ticks: u32 },
    /// The line `end`.
    Ended,
}

/// Whether a line with this word may stand here.
fn may_stand(direct: Direct, word: LineWord) -> bool
    ensures { result ≡ may_stand direct word }
{
    match direct {
        Direct::Headed => word == LineWord::Group,
        Direct::Body { .. } => word != LineWord::Group,
        Direct::Start | Direct::Ended => false,
    }
}

/// The tolerance of the group, below it.
pub(crate) fn tolerance(direct: Direct) -> u8
    ensures { result ≡ tolerance direct }
{
    match direct {
        Direct::Body { t, .. } => t,
        Direct::Start | Direct::Headed | Direct::Ended => 0,
    }
}

/// How many ticks may still come.
pub(crate) fn ticks_left(direct: Direct) -> u32
    ensures { result ≡ ticks_left direct }
{
    match direct {
        Direct::Body { ticks, .. } => TICKS.saturating_sub(ticks),
        Direct::Start | Direct::Headed | Direct::Ended => 0,
    }
}

/// The line of this line word.
fn line_of(
    alloc: Global,
    direct: Direct,
    word: LineWord,
    args: Words,
) -> Result<DirectLine, LineFault>
    requires { tolerance direct ≤ MAX_TOLERANCE }
    ensures { AnswersBy TakesMemory (fields_line (fields_of direct word) (line_of word) args.entry)
        result }
{
    match word {
        LineWord::Group => Ok(group_line(args)?),
        LineWord::Member => member_line(alloc, tolerance(direct), args),
        LineWord::Note => Ok(note_line(args)?),
        LineWord::Accuse => Ok(accuse_line(args)?),
        LineWord::Tick => Ok(tick_line(ticks_left(direct), args)?),
        LineWord::View => Ok(lone_line(DirectLine::View, args)?),
        LineWord::Monitor => Ok(monitor_line(tolerance(direct), args)?),
        LineWord::Life => Ok(lone_line(DirectLine::Life, args)?),
        LineWord::End => Ok(lone_line(DirectLine::End, args)?),
    }
}

impl TableForm for Direct {
    ghost use Rattle.schedule_direct.specs.Laws.{direct-reads};

    type Line = DirectLine;

    type Word = LineWord;

    ghost table = { direct_table };

    ghost is_sound = { IsSound };

    ghost takes_memory = { TakesMemory };

    ghost reads = { reads };

    fn is_start(&self) -> bool {
        matches!(self, Direct::Start)
    }

    #[tactic(auto, using(line_text::proofs::FrameLemmas::header_read))]
    fn header_line(words: Words) -> Result<DirectLine, BadWord> {
        if words.again().is_header(b"direct") {
            Ok(DirectLine::Header)
        } else if words.is_header(b"world") {
            Err(BadWord::NotBuilt)
        } else {
            Err(BadWord::Header)
        }
    }

    fn line_word(word: &[u8]) -> Result<LineWord, BadWord> {
        if word == b"group".as_slice() {
            Ok(LineWord::Group)
        } else if word == b"member".as_slice() {
            Ok(LineWord::Member)
        } else if word == b"note".as_slice() {
            Ok(LineWord::Note)
        } else if word == b"accuse".as_slice() {
            Ok(LineWord::Accuse)
        } else if word == b"tick".as_slice() {
            Ok(LineWord::Tick)
        } else if word == b"view".as_slice() {
            Ok(LineWord::View)
        } else if word == b"monitor".as_slice() {
            Ok(LineWord::Monitor)
        } else if word == b"life".as_slice() {
            Ok(LineWord::Life)
        } else if word == b"end".as_slice() {
            Ok(LineWord::End)
        } else {
            Err(BadWord::Word)
        }
    }

    fn line_of(&self, alloc: Global, word: LineWord, args: Words) -> Result<DirectLine, LineFault> {
        if may_stand(*self, word) {
            line_of(alloc, *self, word, args)
        } else {
            Err(LineFault::Bad(BadWord::Order))
        }
    }

    ghost as_table = { direct-reads };
}

impl Form for Direct {
    ghost use Rattle.schedule_direct.specs.Laws.{direct-spelled, direct-taken};

    type Line = DirectLine;

    ghost is_sound = { IsSound };

    ghost is_ended = { is_ended };

    ghost row_for = { row_for };

    ghost spells = { IsDirect };

    ghost takes_memory = { TakesMemory };

    ghost after = { after };

    fn is_ended(&self) -> bool {
        *self == Direct::Ended
    }

    fn glance(&self, text: &[u8]) -> Option<DirectLine> {
        let (first, args) = Glance::of(text);
        match Direct::line_word(first) {
            Ok(word) if may_stand(*self, word) => glance_line(*self, word, args),
            _ => None,
        }
    }

    fn judge(&self, alloc: Global, words: Words) -> Result<DirectLine, LineFault> {
        judge_by_table(self, alloc, words)
    }

    fn advance(&mut self, line: &DirectLine) {
        *self = match (*self, line) {
            (_, DirectLine::Header) => Direct::Headed,
            (_, DirectLine::Group { t, .. }) => Direct::Body { t: *t, ticks: 0 },
            (Direct::Body { t, ticks }, DirectLine::Tick(more)) => Direct::Body {
                t,
                ticks: ticks + *more,
            },
            (_, DirectLine::End) => Direct::Ended,
            (same, _) => same,
        };
    }

    ghost spelled = { direct-spelled };

    ghost taken = { direct-taken };
}
