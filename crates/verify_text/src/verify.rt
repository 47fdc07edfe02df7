//! The form of the text, line by line.

ghost use Rattle.std.specs.Prelude.{◌≡◌};
ghost use Rattle.line_text.specs.Answers.{AnswersBy};
ghost use Rattle.line_text.specs.Frame.{fields_line};
ghost use Rattle.verify_text.specs.Rows.{TakesMemory, fields_of, is_ended, line_of, may_stand, reads, row_for, verify_table};
ghost use Rattle.verify_text.specs.Grammar.{IsSound, IsVerify, after};

use crate::line::{LineWord, VerifyLine};
use crate::read::{end_line, key_line, message_line, signature_line};
use line_text::{BadWord, Form, LineFault, TableForm, Words, judge_by_table};
use std::alloc::Global;

/// What has been read of the text.
#[derive(Clone, Copy, Debug, PartialEq, Eq)]
pub enum Verify {
    /// Nothing: the header comes next.
    Start,
    /// The header: the key comes next.
    Headed,
    /// The key: the message comes next.
    Keyed,
    /// The message: the signature comes next.
    Worded,
    /// The signature: the line `end` comes next.
    Signed,
    /// The line `end`.
    Ended,
}

/// Whether a line with this word may stand here.
fn may_stand(verify: Verify, word: LineWord) -> bool
    ensures { result ≡ may_stand verify word }
{
    match verify {
        Verify::Headed => word == LineWord::Key,
        Verify::Keyed => word == LineWord::Message,
        Verify::Worded => word == LineWord::Signature,
        Verify::Signed => word == LineWord::End,
        Verify::Start | Verify::Ended => false,
    }
}

/// The line of this line word.
fn line_of(alloc: Global, word: LineWord, args: Words) -> Result<VerifyLine, LineFault>
    ensures { AnswersBy TakesMemory (fields_line (fields_of word) (line_of word) args.entry)
        result }
{
    match word {
        LineWord::Key => Ok(key_line(args)?),
        LineWord::Message => message_line(alloc, args),
        LineWord::Signature => signature_line(alloc, args),
        LineWord::End => Ok(end_line(args)?),
    }
}

impl TableForm for Verify {
    ghost use Rattle.verify_text.specs.Laws.{verify-reads};

    type Line = VerifyLine;

    type Word = LineWord;

    ghost table = { verify_table };

    ghost is_sound = { IsSound };

    ghost takes_memory = { TakesMemory };

    ghost reads = { reads };

    fn is_start(&self) -> bool {
        matches!(self, Verify::Start)
    }

    #[tactic(auto, using(line_text::proofs::FrameLemmas::header_read))]
    fn header_line(words: Words) -> Result<VerifyLine, BadWord> {
        if words.is_header(b"verify") {
            Ok(VerifyLine::Header)
        } else {
            Err(BadWord::Header)
        }
    }

    fn line_word(word: &[u8]) -> Result<LineWord, BadWord> {
        if word == b"key".as_slice() {
            Ok(LineWord::Key)
        } else if word == b"message".as_slice() {
            Ok(LineWord::Message)
        } else if word == b"signature".as_slice() {
            Ok(LineWord::Signature)
        } else if word == b"end".as_slice() {
            Ok(LineWord::End)
        } else {
            Err(BadWord::Word)
        }
    }

    fn line_of(&self, alloc: Global, word: LineWord, args: Words) -> Result<VerifyLine, LineFault> {
        if may_stand(*self, word) {
            line_of(alloc, word, args)
        } else {
            Err(LineFault::Bad(BadWord::Order))
        }
    }

    ghost as_table = { verify-reads };
}

impl Form for Verify {
    ghost use Rattle.verify_text.specs.Laws.{verify-spelled, verify-taken};

    type Line = VerifyLine;

    ghost is_sound = { IsSound };

    ghost is_ended = { is_ended };

    ghost row_for = { row_for };

    ghost spells = { IsVerify };

    ghost takes_memory = { TakesMemory };

    ghost after = { after };

    fn is_ended(&self) -> bool {
        *self == Verify::Ended
    }

    fn judge(&self, alloc: Global, words: Words) -> Result<VerifyLine, LineFault> {
        judge_by_table(self, alloc, words)
    }

    fn advance(&mut self, line: &VerifyLine) {
        *self = match line {
            VerifyLine::Header => Verify::Headed,
            VerifyLine::Key(_) => Verify::Keyed,
            VerifyLine::Message(_) => Verify::Worded,
            VerifyLine::Signature(_) => Verify::Signed,
            VerifyLine::End => Verify::Ended,
        };
    }

    ghost spelled = { verify-spelled };

    ghost taken = { verify-taken };
}
