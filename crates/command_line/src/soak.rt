// The run of a workload.

ghost use Rattle.std.specs.Prelude.{◌≡◌, ◌≢◌, ◌≤◌, true};
ghost use Rattle.play.specs.Plays.{io};
ghost use Rattle.ports.specs.Outside.{OfSource};
ghost use Rattle.soak_lines.specs.Workload.{workload};
ghost use Rattle.world_replay.specs.Soaking.{IsSummary, workload_walk};
ghost use Rattle.command_line.specs.Soaking.{SoakEnds, Soaks};

use crate::ending::conclude;
use crate::status::Status;
use ports::{Failed, Sink, write_all};
use std::alloc::Global;
use world_replay::{SoakFault, Summary, soak, write_summary};

/// Writes the summary, and answers how that went.
fn tell_summary<O: Sink>(
    alloc: Global,
    seed: u64,
    members: u16,
    rounds: u16,
    summary: &Summary,
    out: &mut O,
) -> Status
    requires sink { (O.state out.old).is_open ≡ true }
    requires summed { IsSummary (workload seed members rounds) (workload_walk seed members rounds)
        summary.now }
    ensures sink { result ≢ Status.WriteFault → (O.state out.new).is_open ≡ true }
    ensures soaks { (source : OfSource) → Soaks seed members rounds
        (io source (O.state out.old))
        (io source (O.state out.new)) result }
{
    let mut text = Vec::new(alloc);
    match write_summary(seed, members, rounds, summary, &mut text) {
        Ok(()) => match write_all(out, &text) {
            Ok(()) => Status::Ok,
            Err(Failed) => Status::WriteFault,
        },
        Err(_) => Status::OutOfMemory,
    }
}

/// Plays the workload, and writes its summary; answers how that went.
fn soak_and_tell<O: Sink>(
    alloc: Global,
    seed: u64,
    members: u16,
    rounds: u16,
    out: &mut O,
) -> Status
    requires members { (3 ≤ members) × (members ≤ 32) }
    requires rounds { (1 ≤ rounds) × (rounds ≤ 1000) }
    requires sink { (O.state out.old).is_open ≡ true }
    ensures sink { result ≢ Status.WriteFault → (O.state out.new).is_open ≡ true }
    ensures soaks { (source : OfSource) → Soaks seed members rounds
        (io source (O.state out.old))
        (io source (O.state out.new)) result }
{
    match soak(alloc, seed, members, rounds) {
        Ok(summary) => tell_summary(alloc, seed, members, rounds, &summary, out),
        Err(SoakFault::Forged { line, who, body }) => Status::Forged { line, who, body },
        Err(SoakFault::OutOfMemory) => Status::OutOfMemory,
    }
}

/// Plays a seeded attack on a world, writes what was counted in it, and answers how the run ended.
pub(crate) fn run_soak<O: Sink>(
    alloc: Global,
    seed: u64,
    members: u16,
    rounds: u16,
    out: &mut O,
) -> Status
    requires members { (3 ≤ members) × (members ≤ 32) }
    requires rounds { (1 ≤ rounds) × (rounds ≤ 1000) }
    requires sink { (O.state out.old).is_open ≡ true }
    ensures ends { (source : OfSource) → SoakEnds seed members rounds
        (io source (O.state out.old))
        (io source (O.state out.new)) result }
{
    let first = soak_and_tell(alloc, seed, members, rounds, out);
    conclude(out, first)
}
