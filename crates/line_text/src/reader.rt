//! The reader of the lines of a text.

ghost use Rattle.std.specs.Prelude.{◌≡◌, ◌≤◌, is_ok, IfOk, IfErr, OnOk};
ghost use Rattle.line_text.specs.Answers.{AnswersBy, AnswersThat, Refuses, next_line, progress_after};
ghost use Rattle.line_text.specs.Frame.{IsLine, first_bad, judge, text_lines};

use crate::bad_word::{BadWord, LineFault};
use crate::form::Form;
use crate::frame::{frame_text, spaced_words};
use std::alloc::Global;
use std::marker::Model;

/// Reads the lines of a text in one form, one call for each. Contracts see the number of the next line, and what
/// the form keeps.
#[derive(Debug, Drop)]
pub struct Reader<F: Form> {
    number: u32,
    form: F,
}

impl<F: Form> Model for Reader<F> {
    ghost use Rattle.std.specs.Prelude.{◌≤◌, ◌+◌};
    ghost use Rattle.line_text.specs.Answers.{Progress};
    ghost use Rattle.line_text.specs.Frame.{text_lines};

    ghost Value = { Progress F };

    ghost view = { λ r. record { number = r.number; form = r.form } };

    ghost invariant = { λ r. (r.number ≤ text_lines + 1) × F.is_sound r.form };
}

impl<F: Form> Reader<F> {
    /// A reader that has read nothing.
    pub fn open(form: F) -> Reader<F>
        requires { F.is_sound form }
        ensures { result ≡ record { number = 1; form = form } }
    {
        Reader { number: 1, form }
    }

    /// The number of the next line, from 1 on.
    pub fn number(&self) -> u32
        ensures { result ≡ self.now.number }
    {
        self.number
    }

    /// What the form keeps.
    pub fn form(&self) -> &F
        ensures { result.now ≡ self.now.form }
    {
        &self.form
    }

    /// What the form kept, when the text was read.
    pub fn into_form(self) -> F
        ensures { result ≡ self.form }
    {
        let Reader { number: _, form } = self;
        form
    }

    /// Reads the next line: its bytes up to and including its line feed. Where the input ends inside the
    /// line, it is what is left; and where more than 65,600 bytes stand before the line feed or the
    /// input's end, the first 65,601 of them are enough.
    pub fn line(&mut self, alloc: Global, bytes: &[u8]) -> Result<F::Line, LineFault>
        ensures answer { AnswersBy F.takes_memory
            (judge (next_line F.is_ended F.row_for self.old) bytes.now) result }
        ensures refused { Refuses (first_bad (next_line F.is_ended F.row_for self.old) bytes.now)
            result }
        ensures line { IfOk result
            (λ l. IsLine (F.is_ended self.old.form) self.old.number (F.spells self.old.form)
            bytes.now l) }
        ensures taken { (l : F.Line)
            → IsLine (F.is_ended self.old.form) self.old.number (F.spells self.old.form) bytes.now l
            → AnswersThat F.takes_memory l result }
        ensures progress { self.new ≡ progress_after F.after self.old result }
    {
        let line = self.judge(alloc, bytes)?;
        self.form.advance(&line);
        self.number += 1;
        Ok(line)
    }

    // What the next line is, or the first bad word that holds.
    fn judge(&self, alloc: Global, bytes: &[u8]) -> Result<F::Line, LineFault>
        ensures answer { AnswersBy F.takes_memory
            (judge (next_line F.is_ended F.row_for self.now) bytes.now) result }
        ensures few { OnOk result (self.now.number ≤ text_lines) }
    {
        let text = frame_text(self.form.is_ended(), self.number, bytes)?;
        if let Some(line) = self.form.glance(text) {
            return Ok(line);
        }
        let words = spaced_words(text)?;
        self.form.judge(alloc, words)
    }

    /// Ends the text: refused with `end` where no line `end` was read.
    pub fn end(&self) -> Result<(), LineFault>
        ensures ended { is_ok result ≡ F.is_ended self.now.form }
        ensures missing { IfErr result (λ e. e ≡ LineFault.Bad BadWord.End) }
    {
        if self.form.is_ended() {
            Ok(())
        } else {
            Err(LineFault::Bad(BadWord::End))
        }
    }
}
