//! What a form of text says of its lines.

ghost use Rattle.std.specs.Prelude.{◌≡◌, ℕ, Bool, true, List, ◌∷◌, Result, Ok, IfSome};
ghost use Rattle.line_text.specs.declared.bad_word.BadWord.{BadWord};
ghost use Rattle.line_text.specs.Answers.{AnswersBy};
ghost use Rattle.line_text.specs.Frame.{Row, behind, row_line};
ghost use Rattle.line_text.specs.Words.{is_spaced, parts};

use crate::bad_word::LineFault;
use crate::words::Words;
use std::alloc::Global;

/// A form of text, as it stands before the next line: which lines it has, where they may stand, and what their
/// words must be. It keeps what later lines are judged by.
pub trait Form {
    type Line;

    /// What holds of each value that a reader reaches.
    ghost is_sound: { Self → Type 0 };

    /// Whether the line `end` was read.
    ghost is_ended: { Self → Bool };

    /// The row for a line with these words, or the word that refuses it: `header`, `word` or `not-built`.
    ghost row_for: { Self → List (List ℕ) → Result (Row Self.Line) BadWord };

    /// The grammar: these words are this line, it may stand here, and its numbers and bytes are in range.
    ghost spells: { Self → List (List ℕ) → Self.Line → Type 0 };

    /// The lines for which memory is asked.
    ghost takes_memory: { Self.Line → Type 0 };

    /// The form behind a line.
    ghost after: { Self → Self.Line → Self };

    /// Whether the line `end` was read.
    fn is_ended(&self) -> bool
        ensures { result ≡ is_ended self.now };

    /// The line that the text is, where one pass over it shows that. Of any other text `judge` says what it is.
    fn glance(&self, _text: &[u8]) -> Option<Self::Line>
        requires { is_sound self.now }
        ensures spaced { IfSome result (λ _. is_spaced _text.now ≡ true) }
        ensures line { IfSome result (λ l. row_line (row_for self.now (parts _text.now))
            (behind (parts _text.now)) ≡ Ok l) }
    {
        None
    }

    /// The line that the words are, or the first bad word that the form finds in them.
    fn judge(&self, alloc: Global, words: Words) -> Result<Self::Line, LineFault>
        requires { is_sound self.now }
        ensures { AnswersBy takes_memory
            (row_line (row_for self.now words.entry) (behind words.entry)) result };

    /// Goes behind a line that stands here.
    fn advance(&mut self, line: &Self::Line)
        requires sound { is_sound self.old }
        requires stands { (words : List (List ℕ)) × spells self.old words line.now }
        ensures after { self.new ≡ after self.old line.now }
        ensures sound { is_sound self.new };

    /// What the form takes is a line by its grammar.
    ghost spelled: { (s : Self) (first : List ℕ) (others : List (List ℕ)) (l : Self.Line)
        → row_line (row_for s (first ∷ others)) others ≡ Result.Ok l
        → spells s (first ∷ others) l };

    /// What is a line by the grammar is taken, as that line.
    ghost taken: { (s : Self) (first : List ℕ) (others : List (List ℕ)) (l : Self.Line) → is_sound s
        → spells s (first ∷ others) l
        → row_line (row_for s (first ∷ others)) others ≡ Result.Ok l };
}
