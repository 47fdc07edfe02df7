//! The text that moves the store of a key to another group, line by line.

ghost use Rattle.std.specs.Prelude.{◌≡◌};
ghost use Rattle.line_text.specs.Frame.{whole_line};
ghost use Rattle.schedule_texts.specs.SecretRows.{TakesMemory, fields_of, line_of};
ghost use Rattle.schedule_texts.specs.MigrateRows.{is_ended, line_fault, may_stand, migrate_table, reads, row_for, stays};
ghost use Rattle.schedule_texts.specs.MigrateGrammar.{IsMigrate, IsSound, after};

use crate::line::SecretLine;
use crate::secret::{LineWord, SecretText, line_of, line_word, may_stand};
use ff_ids::Group;
use line_text::{BadWord, Form, LineFault, TableForm, Words, judge_by_table};
use std::alloc::Global;

/// What has been read of the text.
#[derive(Clone, Copy, Debug, PartialEq, Eq)]
pub enum MigrateText {
    /// Nothing: the header comes next.
    Start,
    /// The header: the group comes next in which the store is.
    Headed,
    /// The group in which the store is: the one to which it moves comes next.
    Left { group: Group },
    /// The group to which it moves: what comes next is as in the text of a secret, where so much of that has been read.
    Moved(SecretText),
}

/// Whether a line with this word may stand here.
fn may_stand_here(form: &MigrateText, word: LineWord) -> bool
    ensures { result ≡ may_stand form.now word }
{
    match form {
        MigrateText::Headed | MigrateText::Left { .. } => word == LineWord::Group,
        MigrateText::Moved(text) => may_stand(*text, word),
        MigrateText::Start => false,
    }
}

/// Whether the line is a group with the tolerance and the tag of the one in which the store is.
fn stays(form: &MigrateText, line: &SecretLine) -> bool
    ensures { result ≡ stays form.now line.now }
{
    match (form, line) {
        (MigrateText::Left { group }, SecretLine::Group(next)) => {
            next.t == group.t && next.tag == group.tag
        }
        _ => false,
    }
}

/// The line of this line word, which stands here.
fn line_here(form: &MigrateText, word: LineWord, args: Words) -> Result<SecretLine, BadWord>
    ensures { result ≡ whole_line (fields_of word args.entry)
        (λ ws. line_fault form.now (line_of word ws)) (line_of word) args.entry }
{
    let line = line_of(word, args)?;
    if stays(form, &line) {
        Err(BadWord::Limit)
    } else {
        Ok(line)
    }
}

impl TableForm for MigrateText {
    ghost use Rattle.schedule_texts.specs.MigrateLaws.{migrate-reads};

    type Line = SecretLine;

    type Word = LineWord;

    ghost table = { migrate_table };

    ghost is_sound = { IsSound };

    ghost takes_memory = { TakesMemory };

    ghost reads = { reads };

    fn is_start(&self) -> bool {
        matches!(self, MigrateText::Start)
    }

    #[tactic(auto, using(line_text::proofs::FrameLemmas::header_read))]
    fn header_line(words: Words) -> Result<SecretLine, BadWord> {
        if words.is_header(b"migrate") {
            Ok(SecretLine::Header)
        } else {
            Err(BadWord::Header)
        }
    }

    fn line_word(word: &[u8]) -> Result<LineWord, BadWord> {
        line_word(word)
    }

    fn line_of(
        &self,
        _alloc: Global,
        word: LineWord,
        args: Words,
    ) -> Result<SecretLine, LineFault> {
        if may_stand_here(self, word) {
            Ok(line_here(self, word, args)?)
        } else {
            Err(LineFault::Bad(BadWord::Order))
        }
    }

    ghost as_table = { migrate-reads };
}

impl Form for MigrateText {
    ghost use Rattle.schedule_texts.specs.MigrateLaws.{migrate-spelled, migrate-taken};

    type Line = SecretLine;

    ghost is_sound = { IsSound };

    ghost is_ended = { is_ended };

    ghost row_for = { row_for };

    ghost spells = { IsMigrate };

    ghost takes_memory = { TakesMemory };

    ghost after = { after };

    fn is_ended(&self) -> bool {
        match self {
            MigrateText::Moved(text) => text.is_ended(),
            MigrateText::Start | MigrateText::Headed | MigrateText::Left { .. } => false,
        }
    }

    fn judge(&self, alloc: Global, words: Words) -> Result<SecretLine, LineFault> {
        judge_by_table(self, alloc, words)
    }

    fn advance(&mut self, line: &SecretLine) {
        *self = match (*self, line) {
            (_, SecretLine::Header) => MigrateText::Headed,
            (MigrateText::Headed, SecretLine::Group(group)) => MigrateText::Left { group: *group },
            (_, line) => MigrateText::Moved(SecretText::behind(line)),
        };
    }

    ghost spelled = { migrate-spelled };

    ghost taken = { migrate-taken };
}
