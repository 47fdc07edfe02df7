//! Stops of nodes.

ghost use Rattle.std.specs.Prelude.{◌≡◌, ◌<◌, ℕ, List, length};
ghost use Rattle.world_rules.specs.Settings.{Setting};
ghost use Rattle.world_rules.specs.Steps.{NodeEvent, arms, stops};
ghost use Rattle.world_rules.specs.Worlds.{World as ModelWorld};
ghost use Rattle.world.specs.Courses.{IsPlace};
ghost use Rattle.world.specs.Holding.{Holds, numbers};

use crate::World;

impl World {
    /// The life at this host is over, and its disk crashes with this outcome.
    pub(crate) fn stop(&mut self, at: usize, outcome: u16)
        requires { at < length self.old.hosts }
        ensures numbers { numbers self.new ≡ numbers self.old }
        ensures stops { (s : Setting) (w : ModelWorld) (told : List NodeEvent) (m : ℕ)
            → Holds s w told self.old → IsPlace self.old at m → Holds s (stops m w) told self.new }
    {
        self.hosts[at].stop(outcome);
    }

    /// The disk at this host lets so many calls pass, and stops in the next with this outcome.
    pub(crate) fn arm(&mut self, at: usize, calls: u64, outcome: u16)
        requires { at < length self.old.hosts }
        ensures numbers { numbers self.new ≡ numbers self.old }
        ensures arms { (s : Setting) (w : ModelWorld) (told : List NodeEvent) (m : ℕ)
            → Holds s w told self.old → IsPlace self.old at m
            → Holds s (arms m (record { calls = calls; outcome = outcome }) w) told self.new }
    {
        self.hosts[at].arm(calls, outcome);
    }
}
