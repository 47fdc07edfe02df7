//! The text that makes the store of an authority's key, line by line.

ghost use Rattle.std.specs.Prelude.{◌≡◌};
ghost use Rattle.line_text.specs.Frame.{whole_line, word_or_bad};
ghost use Rattle.schedule_texts.specs.SecretRows.{TakesMemory, fields_of, is_ended, line_fault, line_of, line_word, may_stand, reads, row_for, secret_table};
ghost use Rattle.schedule_texts.specs.SecretGrammar.{IsSecret, IsSound, after, text_behind};

use crate::line::SecretLine;
use crate::shared::{read_group, read_kinds, read_secret};
use line_text::{BadWord, Form, LineFault, TableForm, Words, judge_by_table};
use std::alloc::Global;

/// What has been read of the text.
#[derive(Clone, Copy, Debug, PartialEq, Eq)]
pub enum SecretText {
    /// Nothing: the header comes next.
    Start,
    /// The header: the group comes next.
    Headed,
    /// The group: the kinds come next.
    Grouped,
    /// The kinds: the secret comes next.
    Kinded,
    /// The secret: the line `end` comes next.
    Given,
    /// The line `end`.
    Ended,
}

/// The first words of the lines below the header.
#[derive(Clone, Copy, Debug, PartialEq, Eq)]
pub enum LineWord {
    Group,
    Kinds,
    Secret,
    End,
}

/// The line word that a word is.
pub(crate) fn line_word(word: &[u8]) -> Result<LineWord, BadWord>
    ensures { result ≡ word_or_bad (line_word word.now) }
{
    if word == b"group".as_slice() {
        Ok(LineWord::Group)
    } else if word == b"kinds".as_slice() {
        Ok(LineWord::Kinds)
    } else if word == b"secret".as_slice() {
        Ok(LineWord::Secret)
    } else if word == b"end".as_slice() {
        Ok(LineWord::End)
    } else {
        Err(BadWord::Word)
    }
}

/// Whether a line with this word may stand here.
pub(crate) fn may_stand(form: SecretText, word: LineWord) -> bool
    ensures { result ≡ may_stand form word }
{
    match form {
        SecretText::Headed => word == LineWord::Group,
        SecretText::Grouped => word == LineWord::Kinds,
        SecretText::Kinded => word == LineWord::Secret,
        SecretText::Given => word == LineWord::End,
        SecretText::Start | SecretText::Ended => false,
    }
}

/// The line of this line word.
pub(crate) fn line_of(word: LineWord, args: Words) -> Result<SecretLine, BadWord>
    ensures { result ≡ whole_line (fields_of word args.entry) (λ ws. line_fault (line_of word ws))
        (line_of word) args.entry }
{
    match word {
        LineWord::Group => Ok(SecretLine::Group(read_group(args)?)),
        LineWord::Kinds => Ok(SecretLine::Kinds(read_kinds(args)?)),
        LineWord::Secret => Ok(SecretLine::Secret(read_secret(args)?)),
        LineWord::End => {
            args.exactly(0)?;
            Ok(SecretLine::End)
        }
    }
}

impl SecretText {
    /// What has been read behind this line.
    pub(crate) fn behind(line: &SecretLine) -> SecretText
        ensures { result ≡ text_behind line.now }
    {
        match line {
            SecretLine::Header => SecretText::Headed,
            SecretLine::Group(_) => SecretText::Grouped,
            SecretLine::Kinds(_) => SecretText::Kinded,
            SecretLine::Secret(_) => SecretText::Given,
            SecretLine::End => SecretText::Ended,
        }
    }
}

impl TableForm for SecretText {
    ghost use Rattle.schedule_texts.specs.SecretLaws.{secret-reads};

    type Line = SecretLine;

    type Word = LineWord;

    ghost table = { secret_table };

    ghost is_sound = { IsSound };

    ghost takes_memory = { TakesMemory };

    ghost reads = { reads };

    fn is_start(&self) -> bool {
        matches!(self, SecretText::Start)
    }

    #[tactic(auto, using(line_text::proofs::FrameLemmas::header_read))]
    fn header_line(words: Words) -> Result<SecretLine, BadWord> {
        if words.is_header(b"secret") {
            Ok(SecretLine::Header)
        } else {
            Err(BadWord::Header)
        }
    }

    fn line_word(word: &[u8]) -> Result<LineWord, BadWord> {
        line_word(word)
    }

    fn line_of(
        &self,
        _alloc: Global,
        word: LineWord,
        args: Words,
    ) -> Result<SecretLine, LineFault> {
        if may_stand(*self, word) {
            Ok(line_of(word, args)?)
        } else {
            Err(LineFault::Bad(BadWord::Order))
        }
    }

    ghost as_table = { secret-reads };
}

impl Form for SecretText {
    ghost use Rattle.schedule_texts.specs.SecretLaws.{secret-spelled, secret-taken};

    type Line = SecretLine;

    ghost is_sound = { IsSound };

    ghost is_ended = { is_ended };

    ghost row_for = { row_for };

    ghost spells = { IsSecret };

    ghost takes_memory = { TakesMemory };

    ghost after = { after };

    fn is_ended(&self) -> bool {
        *self == SecretText::Ended
    }

    fn judge(&self, alloc: Global, words: Words) -> Result<SecretLine, LineFault> {
        judge_by_table(self, alloc, words)
    }

    fn advance(&mut self, line: &SecretLine) {
        *self = SecretText::behind(line);
    }

    ghost spelled = { secret-spelled };

    ghost taken = { secret-taken };
}
