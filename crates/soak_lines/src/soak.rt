//! The generator of a workload's lines.

ghost use Rattle.std.specs.Prelude.{◌≡◌, ◌≤◌, length, IfOk, IsOkAnd, OnErr};
ghost use Rattle.soak_lines.specs.Workload.{line_count, workload};
ghost use Rattle.soak_lines.specs.Turns.{Gives};
ghost use Rattle.soak_lines.specs.Schedule.{IsSchedule};
ghost use Rattle.schedule_world.specs.declared.text.WorldText.TheVariants as world;

use crate::place::{Head, Place};
use crate::plan::{Plan, drawing_seed};
use crate::turn::{Turn, next_turn};
use fields::NoMemory;
use rand_chacha::ChaCha20Rng;
use rand_core::SeedableRng;
use schedule_world::WorldLine;
use std::alloc::Global;
use std::marker::Model;

/// Gives the lines of a workload, one call for each. Contracts see the list of those that are left.
#[derive(Drop)]
pub struct Soak {
    plan: Plan,
    place: Place,
    words: ChaCha20Rng,
}

impl Model for Soak {
    ghost use Rattle.std.specs.Prelude.{List};
    ghost use Rattle.schedule_world.specs.declared.line.WorldLine.{WorldLine};
    ghost use Rattle.soak_lines.specs.Workload.{words_of};
    ghost use Rattle.soak_lines.specs.Places.{IsPlace, IsPlan, left};

    ghost Value = { List WorldLine };

    ghost view = { λ s. left s.plan s.place (words_of s.words) };

    ghost invariant = { λ s. IsPlan s.plan × IsPlace s.plan s.place };
}

impl Soak {
    /// The workload of this seed with so many members, 3 to 32, of which one in ten is a liar, and so many rounds, 1
    /// to 1,000. Opening takes no memory.
    pub fn open(_alloc: Global, seed: u64, nodes: u16, rounds: u16) -> Result<Soak, NoMemory>
        requires nodes { (3 ≤ nodes) × (nodes ≤ 32) }
        requires rounds { (1 ≤ rounds) × (rounds ≤ 1000) }
        ensures lines { IsOkAnd result (λ s. s ≡ workload seed nodes rounds) }
        ensures many { IfOk result (λ s. length s ≡ line_count nodes rounds) }
        ensures schedule { IfOk result (IsSchedule world.Start) }
    {
        Ok(Soak {
            plan: Plan::of(seed, nodes, rounds),
            place: Place::Head(Head::Header),
            words: ChaCha20Rng::from_seed(drawing_seed(seed)),
        })
    }

    /// The next line, or none behind `end`. After want of memory it is the same that comes next.
    pub fn next(&mut self, alloc: Global) -> Result<Option<WorldLine>, NoMemory>
        ensures given { IfOk result (Gives self.old self.new) }
        ensures same { OnErr result (self.new ≡ self.old) }
    {
        match next_turn(alloc, &self.plan, self.place, &mut self.words)? {
            Some(Turn { line, place }) => {
                self.place = place;
                Ok(Some(line))
            }
            None => Ok(None),
        }
    }
}
