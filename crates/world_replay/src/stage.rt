//! What a schedule of a world has led to so far: its roster, as far as it was read, or the world that plays.

ghost use Rattle.std.specs.Prelude.{[], List};
ghost use Rattle.world_rules.specs.Steps.{NodeEvent};
ghost use Rattle.world_rules.specs.Walk as walk;
ghost use Rattle.world_replay.specs.Stages.{CanTake, HoldsStage, Takes};

use crate::roster::{Roster, take_listed};
use fields::NoMemory;
use schedule_world::WorldLine;
use std::alloc::Global;
use world::{World, WorldFault};

/// A roster, or a world once the line `begin` was taken.
#[derive(Drop)]
pub enum Stage {
    Lists(Roster),
    Plays(World),
}

impl Stage {
    /// Nothing was read.
    pub fn new(alloc: Global) -> Stage
        ensures { HoldsStage (walk.Lists walk.no_roster) [] result }
    {
        Stage::Lists(Roster::new(alloc))
    }

    /// Takes the next line, and appends its trace. After a fault the schedule is over, and `out` is as it was.
    pub fn take(
        &mut self,
        alloc: Global,
        line: &WorldLine,
        out: &mut Vec<u8>,
    ) -> Result<(), WorldFault>
        requires { CanTake self.old line.now }
        ensures { (stage : walk.Stage) (told : List NodeEvent) → HoldsStage stage told self.old
            → Takes stage told line.now self.new out.old.items out.new.items result }
    {
        let held = out.len();
        let begun = match self {
            Stage::Plays(world) => return world.step(line, out),
            Stage::Lists(roster) => take_listed(alloc, roster, line, out),
        };
        match begun {
            Ok(None) => Ok(()),
            Ok(Some(world)) => {
                *self = Stage::Plays(world);
                Ok(())
            }
            Err(NoMemory) => {
                out.truncate(held);
                Err(WorldFault::OutOfMemory)
            }
        }
    }
}
