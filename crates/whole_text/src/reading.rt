//! The reading of a whole text.

ghost use Rattle.std.specs.Prelude.{◌≡◌, true, IfOk, IfErr};
ghost use Rattle.play.specs.Plays.{io};
ghost use Rattle.whole_text.specs.Gathered.{Judging, IsWhole, IsUnfinished};

use crate::gatherer::Gatherer;
use line_text::{BadWord, Form};
use play::{Stop, play};
use ports::{Sink, Source};
use std::alloc::Global;

/// Reads the text that the source gives to its end, from this form on, and gives its lines. Nothing is written.
pub fn read_whole<F: Form + Drop, S: Source, O: Sink>(
    alloc: Global,
    form: F,
    input: &mut S,
    out: &mut O,
) -> Result<Vec<F::Line>, Stop<BadWord>>
where
    F::Line: Drop,
    requires sound { F.is_sound form }
    requires source { (S.state input.old).is_open ≡ true }
    requires sink { (O.state out.old).is_open ≡ true }
    ensures sink { (O.state out.new).is_open ≡ true }
    ensures whole { IfOk result (λ lines. IsWhole
        (record { is_ended = F.is_ended; row = F.row_for; after = F.after }) form
        (io (S.state input.old) (O.state out.old))
        (io (S.state input.new) (O.state out.new)) lines.items) }
    ensures unfinished { IfErr result
        (λ stop. IsUnfinished (record { is_ended = F.is_ended; row = F.row_for; after = F.after })
        form
        (io (S.state input.old) (O.state out.old))
        (io (S.state input.new) (O.state out.new)) stop) }
{
    let mut gatherer = Gatherer::open(alloc, form);
    match play(alloc, &mut gatherer, input, out) {
        Ok(()) => Ok(gatherer.into_lines()),
        Err(stop) => Err(stop),
    }
}
