// From the words of the command line to the status.

ghost use Rattle.std.specs.Prelude.{◌≡◌, true, false, map, string_bytes, IfOk, IfErr, OnOk, OnErr};
ghost use Rattle.play.specs.Plays.{io};
ghost use Rattle.command_line.specs.Commands.{command_of, is_over_link, is_over_store};
ghost use Rattle.command_line.specs.Ends.{net_state};
ghost use Rattle.command_line.specs.Starts.{Ran, OnBoth};

use crate::running::run;
use crate::status::Status;
use fields::NoMemory;
use ports::{Clock, Disk, Link, Sink, Source};
use std::alloc::Global;

/// Runs the command of the words from the source to the sink. Where the words were not read, or there is no source,
/// nothing is run, and nothing is read or written, nor disk, link or clock touched.
pub fn start<S: Source, O: Sink, D: Disk, L: Link, C: Clock>(
    alloc: Global,
    words: Result<Vec<String>, Status>,
    input: &mut Result<S, NoMemory>,
    out: &mut O,
    disk: &mut D,
    link: &mut L,
    clock: &mut C,
) -> Status
    requires source { IfOk input.old (λ from. (S.state from).is_open ≡ true) }
    requires sink { (O.state out.old).is_open ≡ true }
    ensures unread { IfErr words (λ status. result ≡ status) }
    ensures unread_untouched { OnErr words ((input.new ≡ input.old) × (out.new ≡ out.old)) }
    ensures starved { OnOk words (OnErr input.old (result ≡ Status.OutOfMemory)) }
    ensures starved_untouched { OnErr input.old (out.new ≡ out.old) }
    ensures untouched { OnOk words (result ≡ Status.Usage
        → (input.new ≡ input.old) × (out.new ≡ out.old)) }
    ensures ran { IfOk words (λ all. OnBoth input.old input.new
        (λ was now. Ran (map string_bytes all.items)
        (io (S.state was) (O.state out.old))
        (io (S.state now) (O.state out.new))
        (D.state disk.old) (D.state disk.new)
        (net_state (L.state link.old) (C.state clock.old))
        (net_state (L.state link.new) (C.state clock.new)) result)) }
    ensures disk { IfOk words
        (λ all. is_over_store (command_of (map string_bytes all.items)) ≡ false
        → disk.new ≡ disk.old) }
    ensures link { IfOk words
        (λ all. is_over_link (command_of (map string_bytes all.items)) ≡ false
        → link.new ≡ link.old) }
    ensures clock { IfOk words
        (λ all. is_over_link (command_of (map string_bytes all.items)) ≡ false
        → clock.new ≡ clock.old) }
    ensures unread_outside { OnErr words
        ((disk.new ≡ disk.old) × (link.new ≡ link.old) × (clock.new ≡ clock.old)) }
    ensures starved_outside { OnErr input.old
        ((disk.new ≡ disk.old) × (link.new ≡ link.old) × (clock.new ≡ clock.old)) }
{
    match (words, input) {
        (Err(status), _) => status,
        (Ok(_), Err(NoMemory)) => Status::OutOfMemory,
        (Ok(words), Ok(input)) => run(alloc, &words, input, out, disk, link, clock),
    }
}
