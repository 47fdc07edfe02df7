//! The members that run here, and the network between them: a list of datagrams.

use crate::member::{Answer, Member};
use crate::report::print_changes;
use anyhow::Result;
use ff_ids::MemberId;
use ports::MemoryDisk;
use std::alloc::Global;
use std::marker::Model;

/// Who runs, and the datagrams on their way, each with its addressee.
#[derive(Drop)]
pub struct Network {
    members: Vec<Member>,
    under_way: Vec<(MemberId, Vec<u8>)>,
}

impl Model for Network {
    ghost Value = { Unit {0} };

    ghost view = { λ n. tt };
}

impl Network {
    pub fn new(alloc: Global) -> Network {
        Network {
            members: Vec::new(alloc),
            under_way: Vec::new(alloc),
        }
    }

    pub fn members(&self) -> &[Member] {
        &self.members
    }

    /// A member that has started runs here from now on.
    pub fn join(&mut self, member: Member) -> Result<()> {
        self.members.push(member)?;
        Ok(())
    }

    /// A tick of each member, and all that follows from it.
    pub fn round(&mut self, rt: &HostRuntime) -> Result<()> {
        for place in 0..self.members.len() {
            let Some(member) = self.members.get_mut(place) else {
                continue;
            };
            let number = member.number();
            let answer = member.tick(rt.alloc())?;
            self.take(rt, number, &answer)?;
        }
        self.hand_over(rt)
    }

    /// An answer of this member: its changes are printed, and its datagrams are on their way.
    fn take(&mut self, rt: &HostRuntime, from: MemberId, answer: &Answer) -> Result<()> {
        print_changes(rt, from, &answer.events)?;
        for (to, bytes) in answer.out.as_slice() {
            let copy = bytes.as_slice().to_vec(rt.alloc())?;
            self.under_way.push((*to, copy))?;
        }
        Ok(())
    }

    /// Hands over each datagram that is on its way, and those that follow, up to 1,000. One to a member that does not
    /// run is lost.
    fn hand_over(&mut self, rt: &HostRuntime) -> Result<()> {
        for _ in 0..1_000u16 {
            if self.under_way.is_empty() {
                return Ok(());
            }
            let (to, bytes) = self.under_way.remove(0);
            self.hand_over_one(rt, to, &bytes)?;
        }
        Ok(())
    }

    fn hand_over_one(&mut self, rt: &HostRuntime, to: MemberId, bytes: &[u8]) -> Result<()> {
        for place in 0..self.members.len() {
            let Some(member) = self.members.get_mut(place) else {
                continue;
            };
            if member.number() == to {
                let answer = member.deliver(rt.alloc(), bytes)?;
                return self.take(rt, to, &answer);
            }
        }
        Ok(())
    }

    /// The last member stops, and leaves its disk.
    pub fn stop_last(&mut self) -> Option<MemoryDisk> {
        self.members.pop().map(|member| member.stop())
    }

    /// All are let go.
    pub fn end(self) {}
}
