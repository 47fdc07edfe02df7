//! A form whose lines a table describes.

ghost use Rattle.std.specs.Prelude.{◌≡◌, ℕ, List, Result, Ok};
ghost use Rattle.line_text.specs.declared.bad_word.BadWord.{BadWord};
ghost use Rattle.line_text.specs.Answers.{AnswersBy};
ghost use Rattle.line_text.specs.Frame.{behind, row_line, word_among, word_or_bad};
ghost use Rattle.line_text.specs.Tables.{Table, row_for, row_of, start_row};

use crate::bad_word::{BadWord, LineFault};
use crate::words::Words;
use std::alloc::Global;

/// A form whose lines a table describes: what the table says of a line's words, read word by word.
pub trait TableForm {
    type Line;

    type Word;

    /// The table.
    ghost table: { Table Self Self.Word Self.Line };

    /// What holds of each value that a reader reaches.
    ghost is_sound: { Self → Type 0 };

    /// The lines for which memory is asked.
    ghost takes_memory: { Self.Line → Type 0 };

    /// What the words behind a line word are read as: the line, or the first bad word.
    ghost reads: { Self → Self.Word → List (List ℕ) → Result Self.Line BadWord };

    /// Whether nothing has been read.
    fn is_start(&self) -> bool
        ensures { result ≡ table.is_start self.now };

    /// The header, where the words are one.
    fn header_line(words: Words) -> Result<Self::Line, BadWord>
        ensures { result ≡ row_line (start_row table words.entry) (behind words.entry) };

    /// The line word that a word is.
    fn line_word(word: &[u8]) -> Result<Self::Word, BadWord>
        ensures { result ≡ word_or_bad (word_among table.text table.words word.now) };

    /// The line of this line word, where it may stand.
    fn line_of(&self, alloc: Global, word: Self::Word, args: Words) -> Result<Self::Line, LineFault>
        requires { is_sound self.now }
        ensures { AnswersBy takes_memory (reads self.now word args.entry) result };

    /// They are read as the table says.
    ghost as_table: { (s : Self) (word : Self.Word) (args : List (List ℕ))
        → reads s word args ≡ row_line (Ok (row_of table s word)) args };
}

/// The line that the words are by the form's table, or the first bad word that it finds in them.
pub fn judge_by_table<F: TableForm>(
    form: &F,
    alloc: Global,
    words: Words,
) -> Result<F::Line, LineFault>
    requires { F.is_sound form.now }
    ensures { AnswersBy F.takes_memory
        (row_line (row_for F.table form.now words.entry) (behind words.entry)) result }
{
    if form.is_start() {
        return Ok(F::header_line(words)?);
    }
    let (first, args) = words.split();
    let word = F::line_word(first)?;
    form.line_of(alloc, word, args)
}
