//! A line that is played.

ghost use Rattle.std.specs.Prelude.{◌≡◌, ◌<◌, ◌++◌, ◌∷◌, [], ℕ, List, true, Ok, Some, None, IfErr, OnOk, OnErr, length};
ghost use Rattle.ff_ids.specs.Masks.{ring_count};
ghost use Rattle.world_rules.specs.Refusals.{node_named as node_in, why_not as refusal};
ghost use Rattle.world_rules.specs.Settings.{Setting, is_liar};
ghost use Rattle.world_rules.specs.Steps.{Execution, NodeEvent, answered, asks, begun, does, flows, gives_each, monitored, step, ticks as ticks_of, viewed};
ghost use Rattle.world_rules.specs.Walk.{behind_line};
ghost use Rattle.world_rules.specs.Worlds.{World as ModelWorld, named_so, running};
ghost use Rattle.world_text.specs.Lines.{Began};
ghost use Rattle.world.specs.declared.fault.WorldFault.TheVariants as faults;
ghost use Rattle.world.specs.Answers.{PlaysLine};
ghost use Rattle.world.specs.Courses.{At, CanSign, CanStart, CanTell, CanTellAt, Goes, HasItsRing, HasLeafAt, IsPlace, KnowsAt, NamesLiar, Replies, before_opening, body_in, course_of, does_or_opens, liar_place_of, signs};
ghost use Rattle.world.specs.Holding.{Holds, StandsForWorld, numbers};

use crate::refusing::node_named;
use crate::{World, WorldFault};
use ff_ids::{MemberId, RingNo};
use fields::{Name, NoMemory};
use schedule_world::WorldLine;
use std::alloc::Global;
use world_rules::{MemberList, Verdict};
use world_text::{write_line, write_verdict};

fn end_line(out: &mut Vec<u8>) -> Result<(), WorldFault>
    ensures ok { OnOk result (out.new.items ≡ out.old.items ++ 10 ∷ []) }
    ensures refused { OnErr result (out.new.items ≡ out.old.items) }
    ensures cause { IfErr result (λ fault. fault ≡ faults.OutOfMemory) }
{
    out.push(b'\n')?;
    Ok(())
}

/// Adds what stands behind a line with this verdict. Where memory is refused, a part of it may be there.
fn add_answer(verdict: &Verdict, out: &mut Vec<u8>) -> Result<(), NoMemory>
    ensures ok { OnOk result (out.new.items
        ≡ out.old.items ++ (behind_line (Some verdict.now) ++ 10 ∷ [])) }
    ensures refused { OnErr result (Began out.old.items out.new.items) }
{
    out.extend_from_slice(b" : ")?;
    write_verdict(verdict, out)?;
    out.push(b'\n')?;
    Ok(())
}

impl World {
    /// Ends the line with its verdict. Where memory is refused, a part of it may be there.
    pub(crate) fn answer(&self, verdict: &Verdict, out: &mut Vec<u8>) -> Result<(), WorldFault>
        ensures ok { OnOk result (out.new.items
            ≡ out.old.items ++ (behind_line (Some verdict.now) ++ 10 ∷ [])) }
        ensures refused { OnErr result (Began out.old.items out.new.items) }
        ensures cause { IfErr result (λ fault. fault ≡ faults.OutOfMemory) }
    {
        match add_answer(verdict, out) {
            Ok(()) => Ok(()),
            Err(NoMemory) => Err(WorldFault::OutOfMemory),
        }
    }

    /// So many ticks of the node at this host, while it runs.
    fn tick(&mut self, at: usize, ticks: u32, out: &mut Vec<u8>) -> Result<(), WorldFault>
        requires { at < length self.old.hosts }
        ensures numbers { numbers self.new ≡ numbers self.old }
        ensures ticks { (s : Setting) (before : List NodeEvent) (base : List ℕ) (c : Execution)
            (m : ℕ) → At s before base self.old out.old.items c → IsPlace self.old at m
            → Goes s before base self.new out.new.items (Ok (ticks_of s m ticks c)) result }
    {
        for _tick in 0..ticks {
            let went = self.tick_once(at, out);
            if went.is_err() {
                return went;
            }
        }
        Ok(())
    }

    /// The line `view`.
    fn see(&self, at: usize, out: &mut Vec<u8>) -> Result<(), WorldFault>
        requires { at < length self.now.hosts }
        ensures { (s : Setting) (w : ModelWorld) (before : List NodeEvent) (m : ℕ)
            → Holds s w before self.now → IsPlace self.now at m
            → Replies s before self.now out.old.items out.new.items (Ok (asks s m viewed w))
            result }
    {
        match self.hosts[at].node() {
            Some(node) => {
                let members = node.membership().members_in_view(self.alloc)?;
                self.answer(&Verdict::Sees(MemberList::from_vec(members)), out)
            }
            None => end_line(out),
        }
    }

    /// The line `monitor`, of a member whose certificate the node has that runs.
    fn see_monitor(
        &self,
        at: usize,
        ring: RingNo,
        of: MemberId,
        out: &mut Vec<u8>,
    ) -> Result<(), WorldFault>
        requires host { at < length self.now.hosts }
        requires stands { StandsForWorld self.now }
        requires ring { ring.0 < ring_count self.now.authority.group.t }
        requires known { KnowsAt self.now of (Some at) }
        ensures { (s : Setting) (w : ModelWorld) (before : List NodeEvent) (m : ℕ)
            → Holds s w before self.now → IsPlace self.now at m
            → Replies s before self.now out.old.items out.new.items
            (Ok (asks s m (monitored ring.0 of) w)) result }
    {
        match self.hosts[at].node() {
            Some(node) => {
                let monitor = node.membership().monitor(ring, of);
                self.answer(&Verdict::MonitoredBy(monitor), out)
            }
            None => end_line(out),
        }
    }

    /// What a line does that names this host's node, and has no verdict.
    fn go_at(&mut self, at: usize, line: &WorldLine, out: &mut Vec<u8>) -> Result<(), WorldFault>
        requires { at < length self.old.hosts }
        ensures numbers { numbers self.new ≡ numbers self.old }
        ensures goes { (s : Setting) (before : List NodeEvent) (base : List ℕ) (c : Execution)
            (m : ℕ) → At s before base self.old out.old.items c → IsPlace self.old at m
            → node_in line.now ≡ Some m
            → Goes s before base self.new out.new.items (course_of s line.now c) result }
    {
        match line {
            WorldLine::Stop { outcome, .. } => {
                self.stop(at, *outcome);
                Ok(())
            }
            WorldLine::Arm { calls, outcome, .. } => {
                self.arm(at, *calls, *outcome);
                Ok(())
            }
            WorldLine::Tick { ticks, .. } => self.tick(at, *ticks, out),
            WorldLine::Leave { .. } => self.leave(at, out),
            WorldLine::Deliver { datagram, .. } => self.deliver(at, *datagram, out),
            WorldLine::Raw { bytes, .. } => self.hand(at, bytes.as_slice(), out),
            WorldLine::Give { name, .. } => self.give(at, name.as_slice(), out),
            _ => Ok(()),
        }
    }

    /// The same, behind the line's end.
    fn end_and_go(
        &mut self,
        at: usize,
        line: &WorldLine,
        out: &mut Vec<u8>,
    ) -> Result<(), WorldFault>
        requires { at < length self.old.hosts }
        ensures numbers { numbers self.new ≡ numbers self.old }
        ensures goes { (s : Setting) (w : ModelWorld) (before : List NodeEvent) (m : ℕ)
            → Holds s w before self.old → IsPlace self.old at m → node_in line.now ≡ Some m
            → Replies s before self.new out.old.items out.new.items
            (answered (course_of s line.now (begun w))) result }
    {
        match end_line(out) {
            Ok(()) => self.go_at(at, line, out),
            Err(fault) => Err(fault),
        }
    }

    /// What a line does that names this host's node.
    fn do_at(&mut self, at: usize, line: &WorldLine, out: &mut Vec<u8>) -> Result<(), WorldFault>
        requires host { at < length self.old.hosts }
        requires stands { StandsForWorld self.old }
        requires ring { HasItsRing self.old line.now }
        requires known { CanTellAt self.old at line.now }
        ensures numbers { numbers self.new ≡ numbers self.old }
        ensures does { (s : Setting) (w : ModelWorld) (before : List NodeEvent) (m : ℕ)
            → Holds s w before self.old → IsPlace self.old at m → node_in line.now ≡ Some m
            → CanStart w line.now
            → Replies s before self.new out.old.items out.new.items (does_or_opens s w line.now)
            result }
    {
        match line {
            WorldLine::Start { .. } => self.start(at, out),
            WorldLine::View { .. } => self.see(at, out),
            WorldLine::Monitor { ring, of, .. } => self.see_monitor(at, *ring, *of, out),
            _ => self.end_and_go(at, line, out),
        }
    }

    /// The liar with this key, which isn't used up, signs the body that the line has it sign, which is kept under the name.
    fn sign(
        &mut self,
        key: MemberId,
        name: &Name,
        line: &WorldLine,
        out: &mut Vec<u8>,
    ) -> Result<(), WorldFault>
        requires { HasLeafAt self.old (liar_place_of self.old key) }
        ensures numbers { numbers self.new ≡ numbers self.old }
        ensures signs { (s : Setting) (w : ModelWorld) (before : List NodeEvent)
            → Holds s w before self.old → is_liar s key ≡ true
            → Replies s before self.new out.old.items out.new.items
            (Ok (signs s key name.now w (body_in w line.now))) result }
    {
        let Some(body) = self.body_meant(line) else {
            return end_line(out);
        };
        let Some(at) = self.liar_of(key) else {
            return end_line(out);
        };
        let index = self.lie(at, body, name)?;
        self.answer(&Verdict::Spends { index }, out)
    }

    /// The line `flow`, behind its end.
    fn end_and_flow(&mut self, most: u32, out: &mut Vec<u8>) -> Result<(), WorldFault>
        ensures numbers { numbers self.new ≡ numbers self.old }
        ensures flows { (s : Setting) (w : ModelWorld) (before : List NodeEvent)
            → Holds s w before self.old
            → Replies s before self.new out.old.items out.new.items
            (answered (flows s most (begun w))) result }
    {
        match end_line(out) {
            Ok(()) => self.flow(most, out),
            Err(fault) => Err(fault),
        }
    }

    /// The line `give-all`, behind its end.
    fn end_and_give(&mut self, name: &[u8], out: &mut Vec<u8>) -> Result<(), WorldFault>
        ensures numbers { numbers self.new ≡ numbers self.old }
        ensures gives { (s : Setting) (w : ModelWorld) (before : List NodeEvent)
            → Holds s w before self.old
            → Replies s before self.new out.old.items out.new.items
            (answered (gives_each s (running s w) (named_so w name.now) (begun w))) result }
    {
        match end_line(out) {
            Ok(()) => self.give_all(name, out),
            Err(fault) => Err(fault),
        }
    }

    /// What a line does that names no node.
    fn do_other(&mut self, line: &WorldLine, out: &mut Vec<u8>) -> Result<(), WorldFault>
        requires { CanSign self.old line.now }
        ensures numbers { numbers self.new ≡ numbers self.old }
        ensures does { (s : Setting) (w : ModelWorld) (before : List NodeEvent)
            → Holds s w before self.old → node_in line.now ≡ None → NamesLiar s line.now
            → Replies s before self.new out.old.items out.new.items (does s w line.now) result }
    {
        match line {
            WorldLine::SignNote { key, name, .. } | WorldLine::SignAccusation { key, name, .. } =>
                self.sign(*key, name, line, out),
            WorldLine::Flow { most } => self.end_and_flow(*most, out),
            WorldLine::GiveAll { name } => self.end_and_give(name.as_slice(), out),
            _ => end_line(out),
        }
    }

    /// What a line does that can be done.
    fn do_line(&mut self, line: &WorldLine, out: &mut Vec<u8>) -> Result<(), WorldFault>
        requires left { CanSign self.old line.now }
        requires stands { StandsForWorld self.old }
        requires ring { HasItsRing self.old line.now }
        requires known { CanTell self.old line.now }
        ensures numbers { numbers self.new ≡ numbers self.old }
        ensures does { (s : Setting) (w : ModelWorld) (before : List NodeEvent)
            → Holds s w before self.old → before_opening line.now (refusal s w line.now) ≡ None
            → Replies s before self.new out.old.items out.new.items (step s w line.now) result }
    {
        if let Some(member) = node_named(line) {
            return match self.host_of(member) {
                Some(at) => self.do_at(at, line, out),
                None => end_line(out),
            };
        }
        self.do_other(line, out)
    }

    /// Answers the line, whose own text is written.
    fn do_or_refuse(&mut self, line: &WorldLine, out: &mut Vec<u8>) -> Result<(), WorldFault>
        requires stands { StandsForWorld self.old }
        requires ring { HasItsRing self.old line.now }
        ensures numbers { numbers self.new ≡ numbers self.old }
        ensures steps { (s : Setting) (w : ModelWorld) (before : List NodeEvent)
            → Holds s w before self.old
            → Replies s before self.new out.old.items out.new.items (step s w line.now) result }
    {
        match self.why_not(line) {
            Some(why) => self.answer(&Verdict::Refused(why), out),
            None => self.do_line(line, out),
        }
    }

    /// Plays the line, and appends its trace.
    pub(crate) fn play(&mut self, line: &WorldLine, out: &mut Vec<u8>) -> Result<(), WorldFault>
        requires stands { StandsForWorld self.old }
        requires ring { HasItsRing self.old line.now }
        ensures numbers { numbers self.new ≡ numbers self.old }
        ensures plays { (s : Setting) (w : ModelWorld) (before : List NodeEvent)
            → Holds s w before self.old
            → PlaysLine s before line.now self.new out.old.items out.new.items (step s w line.now)
            result }
    {
        write_line(line, out)?;
        self.do_or_refuse(line, out)
    }
}
