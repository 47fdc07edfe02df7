// How a run ends: the line of its cause, and the status.

ghost use Rattle.std.specs.Prelude.{◌≡◌, ◌≢◌, true};
ghost use Rattle.play.specs.Plays.{io};
ghost use Rattle.ports.specs.Outside.{OfSource};
ghost use Rattle.command_line.specs.Ends.{Tells};

use crate::status::Status;
use ports::{Sink, write_all};

/// Writes the line that gives the first cause of a stop, if it has one, and answers how the run ended.
pub(crate) fn conclude<O: Sink>(out: &mut O, first: Status) -> Status
    requires open { first ≢ Status.WriteFault → (O.state out.old).is_open ≡ true }
    ensures { (source : OfSource) → Tells first
        (io source (O.state out.old))
        (io source (O.state out.new)) result }
{
    if first == Status::WriteFault {
        return first;
    }
    match write_all(out, first.line().as_str().as_bytes()) {
        Ok(()) => first,
        Err(_) => Status::WriteFault,
    }
}
