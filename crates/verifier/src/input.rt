//! The run over the text.

ghost use Rattle.std.specs.Prelude.{◌≡◌, true};
ghost use Rattle.text_trace.specs.Lines.{text_lines};
ghost use Rattle.text_trace.specs.Trace.{Every};
ghost use Rattle.play.specs.Plays.{Runs, has_written, io};
ghost use Rattle.verifier.specs.Answered.{verified};
ghost use Rattle.verifier.specs.Verified.{Brings};

use crate::verifier::Verifier;
use line_text::BadWord;
use play::{Stop, play};
use ports::{Sink, Source};
use std::alloc::Global;

/// Answers the text that the source gives: reads it to its end, and only then writes whether the signature is
/// good, in one line.
pub fn verify_input<S: Source, O: Sink>(
    alloc: Global,
    input: &mut S,
    out: &mut O,
) -> Result<(), Stop<BadWord>>
    requires source { (S.state input.old).is_open ≡ true }
    requires sink { (O.state out.old).is_open ≡ true }
    ensures sink { (O.state out.new).is_open ≡ has_written result }
    ensures runs { Runs BadWord Every (λ f. f ≡ verified) text_lines
        (io (S.state input.old) (O.state out.old))
        (io (S.state input.new) (O.state out.new)) result }
    ensures brings { Brings
        (io (S.state input.old) (O.state out.old))
        (io (S.state input.new) (O.state out.new)) result }
{
    let mut verifier = Verifier::open();
    play(alloc, &mut verifier, input, out)
}
