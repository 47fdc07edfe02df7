//! Floor: world. A world of nodes and liars as one value, which a schedule plays: deliveries, ticks, stops and starts,
//! and records that liars sign. `world_replay` calls it.
#![tactic(auto)]

ghost use Rattle.std.specs.Prelude.{◌≡◌, List};
ghost use Rattle.world_rules.specs.Counts.{counts_of};
ghost use Rattle.world_rules.specs.Settings.{Setting};
ghost use Rattle.world_rules.specs.Steps.{NodeEvent};
ghost use Rattle.world_rules.specs.Worlds.{World as ModelWorld};
ghost use Rattle.world_laws.specs.Texts.{IsPlayed};
ghost use Rattle.world.specs.Answers.{Steps, StepsLawfully};
ghost use Rattle.world.specs.Counting.{AreKept};
ghost use Rattle.world.specs.Courses.{HasItsRing};
ghost use Rattle.world.specs.Holding.{Holds, StandsForWorld};

mod acting;
mod counts;
mod fault;
mod forgery;
mod handing;
mod liar;
mod lying;
mod opening;
mod places;
mod playing;
mod refusing;
mod stopping;
mod telling;

pub use counts::Counts;
pub use fault::WorldFault;
use forgery::Tested;
use indexmap::IndexMap;
use liar::{Given, Liar};
use node_core::Outbox;
use schedule_world::WorldLine;
use std::alloc::Global;
use std::marker::Model;
use world_host::{Authority, Host};

/// Nodes, each over a disk of its own, and liars, whose keys the schedule uses.
#[derive(Drop)]
pub struct World {
    alloc: Global,
    authority: Authority,
    /// In order of number.
    hosts: Vec<Host>,
    /// In order of number.
    liars: Vec<Liar>,
    /// The datagrams that nodes have sent.
    sent: Outbox,
    /// How many of them a flow has taken.
    flowed: usize,
    /// What is given under a name.
    named: IndexMap<Vec<u8>, Given>,
    tested: Tested,
    counts: Counts,
}

impl Model for World {
    ghost use Rattle.std.specs.Prelude.{map};
    ghost use Rattle.std.specs.Coded.{codes};
    ghost use Rattle.std.specs.FinMap.{code};
    ghost use Rattle.world.specs.Holding.{Kept};

    ghost Value = { Kept };

    ghost coded = { Prim.hlevel (codes, code) };

    ghost view = { λ w. record {
      authority = w.authority;
      hosts = w.hosts.items;
      liars = w.liars.items;
      sent = w.sent;
      flowed = w.flowed;
      named = map (λ p. (p.0.items, p.1.bytes)) w.named.entries;
      tested = w.tested;
      counts = w.counts;
    } };
}

impl World {
    /// Plays a line that stands behind `begin`, and appends its trace: the line, its verdict, and what its nodes report.
    /// `Forged` comes where the line hands over a record that is forged; the first one is given. After a fault `out` is as it
    /// was, and the world is over. A line that asks about a ring asks about one of the group's.
    pub fn step(&mut self, line: &WorldLine, out: &mut Vec<u8>) -> Result<(), WorldFault>
        requires stands { StandsForWorld self.old }
        requires ring { HasItsRing self.old line.now }
        ensures steps { (s : Setting) (w : ModelWorld) (told : List NodeEvent)
            → Holds s w told self.old
            → Steps s w told line.now self.new out.old.items out.new.items result }
        // Where lines lead to the world, with these events reported on the way, no liar brings about anything.
        ensures lawful { (s : Setting) (w : ModelWorld) (told : List NodeEvent)
            → Holds s w told self.old → IsPlayed s w told
            → StepsLawfully s w told line.now self.new result }
    {
        let held = out.len();
        match self.play(line, out) {
            Ok(()) => Ok(()),
            Err(fault) => {
                out.truncate(held);
                Err(fault)
            }
        }
    }

    /// What was counted so far.
    pub fn counts(&self) -> Counts
        ensures value { result ≡ self.now.counts }
        ensures counted { (s : Setting) (w : ModelWorld) (told : List NodeEvent)
            → Holds s w told self.now → AreKept result (counts_of s told) }
    {
        self.counts
    }
}
