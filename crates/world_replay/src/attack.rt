//! The lines of a workload, played one after another.

ghost use Rattle.std.specs.Prelude.{◌≡◌, ◌≤◌, List, IfOk};
ghost use Rattle.soak_lines.specs.Workload.{line_count, workload};
ghost use Rattle.world_laws.specs.Texts.{IsLawfulStage};
ghost use Rattle.world_rules.specs.Steps.{NodeEvent};
ghost use Rattle.world_rules.specs.Walk as walk;
ghost use Rattle.world_rules.specs.Walk.{events_in};
ghost use Rattle.world.specs.Counting.{AreKept};
ghost use Rattle.world_replay.specs.Stages.{HoldsStage};
ghost use Rattle.world_replay.specs.Soaking.{Answers, counts_at, workload_walk};
ghost use Rattle.world_replay.specs.SoakTurning.{CanTurn, Turns};

use crate::{SoakFault, Stage, Summary};
use soak_lines::Soak;
use std::alloc::Global;
use world::{Counts, WorldFault};

/// What was counted so far.
fn counted(stage: &Stage) -> Counts
    ensures { (meant : walk.Stage) (told : List NodeEvent) → HoldsStage meant told stage.now
        → AreKept result (counts_at meant told) }
{
    match stage {
        Stage::Plays(world) => world.counts(),
        Stage::Lists(_) => Counts::new(),
    }
}

/// Plays the next line, which has this number, and answers whether there was one. Its trace is not kept.
fn turn(alloc: Global, left: &mut Soak, stage: &mut Stage, number: u32) -> Result<bool, SoakFault>
    requires { CanTurn left.old stage.old }
    ensures { Turns left.old stage.old number left.new stage.new result }
{
    let line = match left.next(alloc) {
        Ok(Some(line)) => line,
        Ok(None) => return Ok(false),
        Err(_) => return Err(SoakFault::OutOfMemory),
    };
    let mut trace = Vec::new(alloc);
    match stage.take(alloc, &line, &mut trace) {
        Ok(()) => Ok(true),
        Err(WorldFault::Forged { who, body }) => Err(SoakFault::Forged {
            line: number,
            who,
            body,
        }),
        Err(WorldFault::OutOfMemory) => Err(SoakFault::OutOfMemory),
    }
}

/// Plays the workload of this seed with so many members, 3 to 32, of which one in ten is a liar, and so many rounds, 1 to
/// 1,000: to its end, or up to the first line that hands over what is forged. What it reports is counted, and not kept.
pub fn soak(alloc: Global, seed: u64, nodes: u16, rounds: u16) -> Result<Summary, SoakFault>
    requires nodes { (3 ≤ nodes) × (nodes ≤ 32) }
    requires rounds { (1 ≤ rounds) × (rounds ≤ 1000) }
    ensures answers { Answers (workload seed nodes rounds) (workload_walk seed nodes rounds)
        result }
    ensures many { IfOk result (λ s. s.lines ≡ line_count nodes rounds) }
    // What its nodes removed, signed and accused, whatever its liars did: a law of any workload, which `answers` ties to
    // the summary.
    ensures lawful { let w = workload_walk seed nodes rounds in IsLawfulStage w.stage
        (events_in w) }
{
    let Ok(mut left) = Soak::open(alloc, seed, nodes, rounds) else {
        return Err(SoakFault::OutOfMemory);
    };
    let mut stage = Stage::new(alloc);
    let mut number = 1;
    'lines: while turn(alloc, &mut left, &mut stage, number)? {
        number += 1;
    }
    Ok(Summary {
        lines: number - 1,
        counts: counted(&stage),
    })
}
