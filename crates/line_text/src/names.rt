//! The names of a line.

ghost use Rattle.std.specs.Prelude.{⊤};
ghost use Rattle.line_text.specs.Answers.{AnswersBy, read_name};

use crate::bad_word::{BadWord, LineFault};
use fields::Name;
use std::alloc::Global;

/// The name that the word is.
pub(crate) fn name_of(alloc: Global, word: &[u8]) -> Result<Name, LineFault>
    ensures { AnswersBy (λ _. ⊤) (read_name word.now) result }
{
    if !Name::is_name(word) {
        return Err(LineFault::Bad(BadWord::Name));
    }
    let bytes = word.to_vec(alloc)?;
    Ok(Name::from_vec(bytes))
}
