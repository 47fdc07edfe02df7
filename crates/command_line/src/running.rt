// The top call.

ghost use Rattle.std.specs.Prelude.{◌≡◌, ◌↔◌, true, false, map, IfSome, string_bytes};
ghost use Rattle.play.specs.Plays.{io};
ghost use Rattle.world_replay.specs.Causes.{IsJudged};
ghost use Rattle.command_line.specs.Replayed.{replayed};
ghost use Rattle.verifier.specs.Answered.{verified};
ghost use Rattle.command_line.specs.Causes.{for_cause};
ghost use Rattle.command_line.specs.Commands.{FitsCommand, command_of, is_over_link, is_over_store, is_over_text, store_in, takes_link, takes_store, takes_text};
ghost use Rattle.command_line.specs.Ends.{Counts, EndsBy, Ends, EnrollEnds, FaultsAs, MigrateEnds, NodeEnds, StoreEnds, net_state};
ghost use Rattle.command_line.specs.EndsAs.{EndsAs};
ghost use Rattle.command_line.specs.TracedAs.{CompletesAs, TracedAs};
ghost use Rattle.command_line.specs.Upheld.{Upholds};

use crate::command::{Command, store_in};
use crate::ending::conclude;
use crate::replay;
use crate::soak::run_soak;
use crate::status::Status;
use authority::{enroll, make_store, migrate_store};
use node_command::{Stay, run_node};
use ports::{Clock, Disk, Link, Sink, Source};
use std::alloc::Global;
use verifier::verify_input;

/// Plays a recorded text, and answers how the run ended.
fn run_replay<S: Source, O: Sink>(alloc: Global, input: &mut S, out: &mut O) -> Status
    requires source { (S.state input.old).is_open ≡ true }
    requires sink { (O.state out.old).is_open ≡ true }
    ensures ends { EndsBy IsJudged for_cause replayed
        (io (S.state input.old) (O.state out.old))
        (io (S.state input.new) (O.state out.new)) result }
{
    let ended = replay(alloc, input, out);
    conclude(out, Status::from(ended))
}

/// Answers whether a signature is good, and how the run ended.
fn run_verify<S: Source, O: Sink>(alloc: Global, input: &mut S, out: &mut O) -> Status
    requires source { (S.state input.old).is_open ≡ true }
    requires sink { (O.state out.old).is_open ≡ true }
    ensures ends { Ends verified
        (io (S.state input.old) (O.state out.old))
        (io (S.state input.new) (O.state out.new)) result }
{
    let ended = verify_input(alloc, input, out);
    conclude(out, Status::from(ended))
}

/// Makes a store, and answers how the run ended.
fn run_store<S: Source, O: Sink, D: Disk>(
    alloc: Global,
    name: &str,
    input: &mut S,
    out: &mut O,
    disk: &mut D,
) -> Status
    requires source { (S.state input.old).is_open ≡ true }
    requires sink { (O.state out.old).is_open ≡ true }
    ensures ends { StoreEnds name.now
        (io (S.state input.old) (O.state out.old))
        (io (S.state input.new) (O.state out.new))
        (D.state disk.old) (D.state disk.new) result }
{
    let ended = make_store(alloc, name, input, out, disk);
    conclude(out, Status::from(ended))
}

/// Signs certificates, and answers how the run ended.
fn run_enroll<S: Source, O: Sink, D: Disk>(
    alloc: Global,
    name: &str,
    input: &mut S,
    out: &mut O,
    disk: &mut D,
) -> Status
    requires source { (S.state input.old).is_open ≡ true }
    requires sink { (O.state out.old).is_open ≡ true }
    ensures ends { EnrollEnds name.now
        (io (S.state input.old) (O.state out.old))
        (io (S.state input.new) (O.state out.new))
        (D.state disk.old) (D.state disk.new) result }
{
    let ended = enroll(alloc, name, input, out, disk);
    conclude(out, Status::from(ended))
}

/// Moves a store to another group, and answers how the run ended.
fn run_migrate<S: Source, O: Sink, D: Disk>(
    alloc: Global,
    name: &str,
    input: &mut S,
    out: &mut O,
    disk: &mut D,
) -> Status
    requires source { (S.state input.old).is_open ≡ true }
    requires sink { (O.state out.old).is_open ≡ true }
    ensures ends { MigrateEnds name.now
        (io (S.state input.old) (O.state out.old))
        (io (S.state input.new) (O.state out.new))
        (D.state disk.old) (D.state disk.new) result }
{
    let ended = migrate_store(alloc, name, input, out, disk);
    conclude(out, Status::from(ended))
}

/// Runs a member for so many turns, behind which it may leave, and answers how the run ended.
fn run_member<S: Source, O: Sink, D: Disk, L: Link, C: Clock>(
    alloc: Global,
    name: &str,
    stay: Stay,
    input: &mut S,
    out: &mut O,
    disk: &mut D,
    link: &mut L,
    clock: &mut C,
) -> Status
    requires source { (S.state input.old).is_open ≡ true }
    requires sink { (O.state out.old).is_open ≡ true }
    ensures ends { NodeEnds name.now stay
        (io (S.state input.old) (O.state out.old))
        (io (S.state input.new) (O.state out.new))
        (D.state disk.old) (D.state disk.new)
        (net_state (L.state link.old) (C.state clock.old))
        (net_state (L.state link.new) (C.state clock.new)) result }
{
    let ended = run_node(alloc, name, stay, input, out, disk, link, clock);
    conclude(out, Status::from(ended))
}

/// Does what the command says, and answers how the run ended.
fn run_command<S: Source, O: Sink, D: Disk, L: Link, C: Clock>(
    alloc: Global,
    command: Command,
    name: &str,
    input: &mut S,
    out: &mut O,
    disk: &mut D,
    link: &mut L,
    clock: &mut C,
) -> Status
    requires fits { FitsCommand command }
    requires source { (S.state input.old).is_open ≡ true }
    requires sink { (O.state out.old).is_open ≡ true }
    ensures ends { EndsAs command name.now
        (io (S.state input.old) (O.state out.old))
        (io (S.state input.new) (O.state out.new))
        (D.state disk.old) (D.state disk.new)
        (net_state (L.state link.old) (C.state clock.old))
        (net_state (L.state link.new) (C.state clock.new)) result }
    ensures input { takes_text command ≡ false → input.new ≡ input.old }
    ensures disk { takes_store command ≡ false → disk.new ≡ disk.old }
    ensures link { takes_link command ≡ false → link.new ≡ link.old }
    ensures clock { takes_link command ≡ false → clock.new ≡ clock.old }
{
    match command {
        Command::Replay => run_replay(alloc, input, out),
        Command::Verify => run_verify(alloc, input, out),
        Command::Store => run_store(alloc, name, input, out, disk),
        Command::Enroll => run_enroll(alloc, name, input, out, disk),
        Command::Migrate => run_migrate(alloc, name, input, out, disk),
        Command::Node { stay } => { run_member(alloc, name, stay, input, out, disk, link, clock) }
        Command::Soak {
            seed,
            members,
            rounds,
        } => run_soak(alloc, seed, members, rounds, out),
    }
}

/// Runs the command that the words name, from the source to the sink. The first cause that comes in the run
/// ends it, and its line is the last that is written.
pub fn run<S: Source, O: Sink, D: Disk, L: Link, C: Clock>(
    alloc: Global,
    words: &[String],
    input: &mut S,
    out: &mut O,
    disk: &mut D,
    link: &mut L,
    clock: &mut C,
) -> Status
    requires source { (S.state input.old).is_open ≡ true }
    requires sink { (O.state out.old).is_open ≡ true }

    // The words alone decide whether there is a command; without one nothing is touched.
    ensures usage { (result ≡ Status.Usage) ↔ (command_of (map string_bytes words.now) ≡ None) }
    ensures untouched { result ≡ Status.Usage → (input.new ≡ input.old) × (out.new ≡ out.old) }

    // What is taken and written, by how the run ended.
    ensures ends { IfSome (command_of (map string_bytes words.now))
        (λ command. EndsAs command (store_in (map string_bytes words.now))
        (io (S.state input.old) (O.state out.old))
        (io (S.state input.new) (O.state out.new))
        (D.state disk.old) (D.state disk.new)
        (net_state (L.state link.old) (C.state clock.old))
        (net_state (L.state link.new) (C.state clock.new)) result) }

    // What is written is a front of the trace of what was taken, and behind it the line of the cause.
    ensures traced { IfSome (command_of (map string_bytes words.now)) (λ command. TracedAs command
        (io (S.state input.old) (O.state out.old))
        (io (S.state input.new) (O.state out.new))
        (D.state disk.old) (D.state disk.new) result) }

    // Where no line refuses the text, nothing failed, and the store that a command takes is as it wants it, all of it is
    // run, unless memory is refused.
    ensures complete { IfSome (command_of (map string_bytes words.now))
        (λ command. CompletesAs command
        (io (S.state input.old) (O.state out.old))
        (io (S.state input.new) (O.state out.new))
        (D.state disk.old) (D.state disk.new) result) }

    // What the trace that was written rests on: in a replay each removal on a note by which the member left, or on an
    // accusation that stood unanswered for the timeout; to a text that asks about a signature nothing is answered before
    // its end. What is signed of certificates spends indexes from the next one found on, each once, whatever ends the run. A
    // store is left as it was found, or as the store of the group to which it moves; and as that where a byte was written of
    // the line that says so.
    ensures upholds { IfSome (command_of (map string_bytes words.now)) (λ command. Upholds command
        (io (S.state input.old) (O.state out.old))
        (io (S.state input.new) (O.state out.new))
        (D.state disk.old) (D.state disk.new)
        (net_state (L.state link.old) (C.state clock.old))
        (net_state (L.state link.new) (C.state clock.new)) result) }

    // A cause that is no fault leaves both counts as they were; a fault raises its own by one.
    ensures counts { Counts
        (io (S.state input.old) (O.state out.old))
        (io (S.state input.new) (O.state out.new)) result }

    // So does the disk's, which a command without a store doesn't touch; a node served may raise it by more than one. A
    // command that serves no node touches neither link nor clock.
    ensures faults { FaultsAs (command_of (map string_bytes words.now))
        (D.state disk.old) (D.state disk.new) result }
    ensures input { is_over_text (command_of (map string_bytes words.now)) ≡ false
        → input.new ≡ input.old }
    ensures disk { is_over_store (command_of (map string_bytes words.now)) ≡ false
        → disk.new ≡ disk.old }
    ensures link { is_over_link (command_of (map string_bytes words.now)) ≡ false
        → link.new ≡ link.old }
    ensures clock { is_over_link (command_of (map string_bytes words.now)) ≡ false
        → clock.new ≡ clock.old }
{
    let Some(command) = Command::of(words) else {
        return Status::Usage;
    };
    let name = store_in(words);
    run_command(alloc, command, name, input, out, disk, link, clock)
}
