//! The reader of the lines of a command's text.

ghost use Rattle.std.specs.Prelude.{◌≡◌, is_ok, IfOk, IfErr};
ghost use Rattle.line_text.specs.Answers.{AnswersBy, AnswersThat, Refuses, progress_after};
ghost use Rattle.schedule.specs.Forms.{IsLine, TakesMemory, after, first_bad, is_ended, judge, opening};

use crate::text::{Command, Line, Text};
use line_text::{BadWord, LineFault, Reader};
use std::alloc::Global;
use std::marker::Model;

/// Reads the lines of a command's text, one call for each. Contracts see what has been read.
#[derive(Drop)]
pub struct Lines {
    reader: Reader<Text>,
}

impl Model for Lines {
    ghost use Rattle.line_text.specs.Answers.{Progress};
    ghost use Rattle.schedule.specs.declared.text.Text.{Text};

    ghost Value = { Progress Text };

    ghost view = { λ l. l.reader };
}

impl Lines {
    /// A reader that has read nothing.
    pub fn open(command: Command) -> Lines
        ensures { result ≡ opening command }
    {
        Lines {
            reader: Reader::open(Text::of(command)),
        }
    }

    /// The number of the next line, from 1 on.
    pub fn number(&self) -> u32
        ensures { result ≡ self.now.number }
    {
        self.reader.number()
    }

    /// Reads the next line: its bytes up to and including its line feed. Where the input ends inside the
    /// line, it is what is left; and where more than 65,600 bytes stand before the line feed or the
    /// input's end, the first 65,601 of them are enough. A refusal leaves the reader as it was.
    pub fn line(&mut self, alloc: Global, bytes: &[u8]) -> Result<Line, LineFault>
        ensures answer { AnswersBy TakesMemory (judge self.old bytes.now) result }
        ensures refused { Refuses (first_bad self.old bytes.now) result }
        ensures line { IfOk result (IsLine self.old bytes.now) }
        ensures taken { (l : Line) → IsLine self.old bytes.now l
            → AnswersThat TakesMemory l result }
        ensures progress { self.new ≡ progress_after after self.old result }
    {
        self.reader.line(alloc, bytes)
    }

    /// Ends the text: refused with `end` where no line `end` was read.
    pub fn end(&self) -> Result<(), LineFault>
        ensures ended { is_ok result ≡ is_ended self.now.form }
        ensures missing { IfErr result (λ e. e ≡ LineFault.Bad BadWord.End) }
    {
        self.reader.end()
    }
}
