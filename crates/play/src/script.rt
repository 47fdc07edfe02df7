//! What a line of a text does.

ghost use Rattle.std.specs.Prelude.{◌≡◌, ◌<◌, ℕ, List, [], ◌∷◌, ◌++◌, OnOk};
ghost use Rattle.text_trace.specs.Trace.{Continuation, Owing, Waits};

use std::alloc::Global;

/// Why a script takes no more.
#[derive(Clone, Copy, Debug, PartialEq, Eq)]
pub enum Refusal<C> {
    /// It refuses the line, or the text's end.
    Refused(C),
    /// Memory was refused.
    OutOfMemory,
}

/// What the lines of a text do, one after another.
pub trait Script {
    ghost use Rattle.play.specs.Answers.{AnswersLine, AnswersEnd};

    /// What refuses a line.
    type Cause: Copy;

    /// The causes that the lines alone tell: memory is refused for no line that has one of these. Others show only as the
    /// line is played.
    ghost judged: { Self.Cause → Type 0 };

    /// What is owed for the lines that are still to come.
    ghost owes: { Self → Continuation Self.Cause → Type 0 };

    /// How many lines may still come.
    ghost room: { Self → ℕ };

    /// What the script is behind lines that were taken, beside what it was before them: what it has learned of them.
    ghost reaches: { Self → List (List ℕ) → Self → Type 0 };

    /// Takes a line, and puts what is written for it into the text, which is empty. The line has its line feed;
    /// or the input ends inside it, and it has some bytes; or it is the first 65,601 bytes of a line that has more
    /// than 65,600 before its line feed, behind which `play_past` puts that line feed. Only a line with its line feed is
    /// taken. Memory is refused for no line that is refused for a judged cause.
    fn line(
        &mut self,
        alloc: Global,
        bytes: &[u8],
        text: &mut Vec<u8>,
    ) -> Result<(), Refusal<Self::Cause>>
        requires empty { text.old.items ≡ [] }
        requires owing { Owing Self.Cause (owes self.old) }
        ensures room { OnOk result (room self.new < room self.old) }
        ensures reaches { OnOk result (reaches self.old (bytes.now ∷ []) self.new) }
        ensures line { AnswersLine Self.Cause judged (owes self.old) (owes self.new) bytes.now
            text.new.items result };

    /// Ends the text, and puts what is written at its end into the text, which is empty. Memory is refused for no
    /// end that is refused.
    fn end(&self, alloc: Global, text: &mut Vec<u8>) -> Result<(), Refusal<Self::Cause>>
        requires empty { text.old.items ≡ [] }
        requires owing { Owing Self.Cause (owes self.now) }
        ensures end { AnswersEnd Self.Cause judged (owes self.now) text.new.items result };

    /// Nothing is written for a line without its line feed, nor for what follows it; and between two lines the text
    /// isn't refused yet.
    ghost waits: { (s : Self) (f : Continuation Self.Cause) → owes s f → Waits Self.Cause f };

    /// With no line nothing is learned.
    ghost reaches_itself: { (s : Self) → reaches s [] s };

    /// What is learned of lines is kept over those behind them.
    ghost reaches_on: { (s then later : Self) (lines others : List (List ℕ)) → reaches s lines then
        → reaches then others later → reaches s (lines ++ others) later };
}
