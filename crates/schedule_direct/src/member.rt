//! The `member` line, the only one that takes memory.

ghost use Rattle.std.specs.Prelude.{◌≡◌, ◌≤◌, Ok, length, ⊤};
ghost use Rattle.ff_ids.specs.declared.TheConstants.{MAX_RINGS, MAX_TOLERANCE};
ghost use Rattle.line_text.specs.Answers.{AnswersBy};
ghost use Rattle.line_text.specs.Frame.{fields_line};
ghost use Rattle.line_text.specs.Shapes.{tests};
ghost use Rattle.schedule_direct.specs.Rows.{TakesMemory, line_of, member_fields, read_places};

use crate::line::{DirectLine, LineWord, PlaceList};
use crate::read::take_member;
use ff_ids::MAX_RINGS;
use line_text::{LineFault, Words};
use std::alloc::Global;

/// The places that the words spell. They are read before memory is asked for.
fn place_numbers(alloc: Global, mut words: Words) -> Result<PlaceList, LineFault>
    requires { length words ≤ MAX_RINGS }
    ensures { AnswersBy (λ _. ⊤) (read_places words.entry) result }
{
    let mut places = [0; MAX_RINGS as usize];
    let mut many = 0;
    while !words.is_empty() {
        places[many] = words.number_32()?;
        many += 1;
    }
    Ok(PlaceList::new(Vec::from_slice(alloc, &places[..many])?))
}

/// A member and its places, one for each of the 2t+1 rings.
pub(crate) fn member_line(alloc: Global, t: u8, args: Words) -> Result<DirectLine, LineFault>
    requires { t ≤ MAX_TOLERANCE }
    ensures { AnswersBy TakesMemory
        (fields_line (tests (member_fields t)) (line_of LineWord.Member) args.entry) result }
{
    let mut args = args.exactly(2 * usize::from(t) + 2)?;
    let member = take_member(&mut args)?;
    let places = place_numbers(alloc, args)?;
    Ok(DirectLine::Member { member, places })
}
