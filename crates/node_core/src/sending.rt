//! Datagrams that go out.

ghost use Rattle.std.specs.Prelude.{◌≡◌, ℕ, ◌++◌, ◌∷◌, List, Option, IfOk, [], length, take, if◌then◌else◌};
ghost use Rattle.std.specs.List.{list_any};
ghost use Rattle.ff_ids.specs.Views.{is_number};
ghost use Rattle.journal.specs.declared.event.Event as journal;
ghost use Rattle.records.specs.Spelling.{IsWritable};
ghost use Rattle.datagram.specs.declared.Datagram.{Datagram as Sending};
ghost use Rattle.datagram.specs.declared.Datagram.TheVariants as kinds;
ghost use Rattle.datagram.specs.Spelling.{datagram_bytes};
ghost use Rattle.node_rules.specs.Nodes.{Setting, state_of};
ghost use Rattle.node_rules.specs.Calls.{Call, sends, sends_to_all};
ghost use Rattle.node_core.specs.Playing.{Plays, Grows};
ghost use Rattle.node_core.specs.Spending.{SignsNothing};
ghost use Rattle.node_core.specs.Neighbours.{addressees};

use crate::Node;
use datagram::records_head;
use ff_ids::{MEMBERS, MemberId};
use fields::NoMemory;
use peers::{is_listed, list_successors};
use records::{Record, write_record};
use std::alloc::Global;

/// The bytes of the datagram from this member with this one record.
pub(crate) fn datagram_of(alloc: Global, from: MemberId, rec: &Record) -> Result<Vec<u8>, NoMemory>
    requires { IsWritable rec.now }
    ensures { IfOk result
        (λ bytes. bytes.items ≡ datagram_bytes (kinds.Records from (rec.now ∷ []))) }
{
    let mut bytes = Vec::new(alloc);
    bytes.extend_from_slice(&records_head(from, 1))?;
    write_record(rec, &mut bytes)?;
    Ok(bytes)
}

impl Node {
    /// Sends the datagram to the member.
    pub(crate) fn send(&mut self, alloc: Global, bytes: Vec<u8>, to: MemberId)
        ensures plays { (s : Setting) (es : List journal.Event) (os : List (ℕ × List ℕ)) (c : Call)
            (d : Sending) → Plays s es os self.old c
            → bytes.items ≡ datagram_bytes d → Plays s es os self.new (sends s d c to) }
        ensures grows { Grows self.old self.new }
        ensures signs_nothing { SignsNothing self.old self.new }
        ensures frame { self.new ≡ record self.old { telling = self.new.telling } }
    {
        self.telling.send(alloc, self.membership.now(), bytes, to);
    }

    /// Sends a copy of the datagram to the member.
    fn send_copy(&mut self, alloc: Global, bytes: &[u8], to: MemberId)
        ensures plays { (s : Setting) (es : List journal.Event) (os : List (ℕ × List ℕ)) (c : Call)
            (d : Sending) → Plays s es os self.old c
            → bytes.now ≡ datagram_bytes d → Plays s es os self.new (sends s d c to) }
        ensures grows { Grows self.old self.new }
        ensures signs_nothing { SignsNothing self.old self.new }
        ensures frame { self.new ≡ record self.old { telling = self.new.telling } }
    {
        match Vec::from_slice(alloc, bytes) {
            Ok(copy) => self.send(alloc, copy, to),
            Err(_) => self.telling.fail(),
        }
    }

    /// Sends the datagram to the member, if it is listed.
    fn send_if_listed(
        &mut self,
        alloc: Global,
        bytes: &[u8],
        listed: &[Option<MemberId>],
        to: MemberId,
    )
        ensures plays { (s : Setting) (es : List journal.Event) (os : List (ℕ × List ℕ)) (c : Call)
            (d : Sending) → Plays s es os self.old c
            → bytes.now ≡ datagram_bytes d
            → Plays s es os self.new
            (if list_any (λ o. is_number o to) listed.now then sends s d c to else c) }
        ensures grows { Grows self.old self.new }
        ensures signs_nothing { SignsNothing self.old self.new }
        ensures frame { self.new ≡ record self.old { telling = self.new.telling } }
    {
        if is_listed(listed, to) {
            self.send_copy(alloc, bytes, to);
        }
    }

    /// Sends the datagram to each neighbour and one more, in order of number.
    pub(crate) fn send_to_neighbours(&mut self, alloc: Global, bytes: &[u8], also: Option<MemberId>)
        ensures plays { (s : Setting) (es : List journal.Event) (os : List (ℕ × List ℕ)) (c : Call)
            (d : Sending) → Plays s es os self.old c
            → bytes.now ≡ datagram_bytes d
            → Plays s es os self.new (sends_to_all s (addressees s also (state_of s c.node)) d c) }
        ensures grows { Grows self.old self.new }
        ensures signs_nothing { SignsNothing self.old self.new }
    {
        let listed = list_successors(&self.membership, self.me, also);
        for number in 0..MEMBERS {
            let member = MemberId::new(number);
            self.send_if_listed(alloc, bytes, listed.as_slice(), member);
        }
    }
}
