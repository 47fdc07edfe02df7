//! The bad words: why a line is refused.

ghost use Rattle.std.specs.Prelude.{◌≡◌, ◌≤◌, Some, length};
ghost use Rattle.line_text.specs.declared.bad_word.LineFault.TheVariants.{Bad, OutOfMemory};
ghost use Rattle.line_text.specs.Texts.{bad_word_text};

use std::alloc::{AllocError, AllocFailed};
use std::fmt;

/// Why a line is refused: the first of these, in this order, that holds.
#[derive(Clone, Copy, Debug, PartialEq, Eq)]
pub enum BadWord {
    /// `after-end`: something stands after the line `end`.
    AfterEnd,
    /// `long`: the line has more than 65,600 bytes before its line feed or the input's end.
    Long,
    /// `line-feed`: the input ends inside the line.
    LineFeed,
    /// `lines`: the number of the line is above 100,000.
    Lines,
    /// `spaces`: the line isn't words of the bytes 0x21 to 0x7E with one space between two.
    Spaces,
    /// `header`: it is line 1, and no header of this command.
    Header,
    /// `word`: the first word is no line word of this form.
    Word,
    /// `not-built`: the header or the first word is of a form that isn't read yet.
    NotBuilt,
    /// `order`: the line may not stand here.
    Order,
    /// `count`: the line has too few or too many words.
    Count,
    /// `number`: this word is no number, or a number above 18446744073709551615.
    Number,
    /// `hex`: this word isn't an even number of hexadecimal digits.
    Hex,
    /// `name`: this word isn't 1 to 32 of the characters a to z, 0 to 9 and `-`.
    Name,
    /// `limit`: this number, or the number of these bytes, is out of its range.
    Limit,
    /// `cert`: this certificate has a fault.
    Cert,
    /// `self`: no certificate of the text has the own number and the own key.
    OwnKey,
    /// `end`: the input ends, and no line `end` was there.
    End,
}

impl BadWord {
    /// The word, in no more than 9 bytes.
    pub fn text(self) -> &'static str
        ensures text { result.now ≡ bad_word_text self }
        ensures short { length result.now ≤ 9 }
    {
        match self {
            BadWord::AfterEnd => "after-end",
            BadWord::Long => "long",
            BadWord::LineFeed => "line-feed",
            BadWord::Lines => "lines",
            BadWord::Spaces => "spaces",
            BadWord::Header => "header",
            BadWord::Word => "word",
            BadWord::NotBuilt => "not-built",
            BadWord::Order => "order",
            BadWord::Count => "count",
            BadWord::Number => "number",
            BadWord::Hex => "hex",
            BadWord::Name => "name",
            BadWord::Limit => "limit",
            BadWord::Cert => "cert",
            BadWord::OwnKey => "self",
            BadWord::End => "end",
        }
    }
}

impl fmt::Display for BadWord {
    ghost output = { λ w. Some (bad_word_text w) };

    fn fmt<W: fmt::Write>(&self, f: &mut fmt::Formatter<W>) -> fmt::Result {
        f.write_str(self.text())
    }
}

/// Why a reader gave no line. It is as it was before.
#[derive(Clone, Copy, Debug, PartialEq, Eq)]
pub enum LineFault {
    /// The line is refused.
    Bad(BadWord),
    /// What the line holds found no memory.
    OutOfMemory,
}

impl From<BadWord> for LineFault {
    ghost from_gives = { λ w e. e ≡ Bad w };

    fn from(word: BadWord) -> LineFault {
        LineFault::Bad(word)
    }
}

impl From<AllocError> for LineFault {
    ghost from_gives = { λ _ e. e ≡ OutOfMemory };

    fn from(_refused: AllocError) -> LineFault {
        LineFault::OutOfMemory
    }
}

impl<T: Drop> From<AllocFailed<T>> for LineFault {
    ghost from_gives = { λ _ e. e ≡ OutOfMemory };

    fn from(_refused: AllocFailed<T>) -> LineFault {
        LineFault::OutOfMemory
    }
}
