//! Floor: node. A correct member of the group as one value: bytes in, events and datagrams out. Each call is exactly
//! one step of the definitions in `node_rules`. `node_loop` and the crates of worlds call it.
#![tactic(auto)]

ghost use Rattle.std.specs.Prelude.{◌≡◌, ℕ, ◌≤◌, ◌<◌, false, List, []};
ghost use Rattle.std.specs.Option.{option_map};
ghost use Rattle.validate.specs.Certified.{certificate_of as kept_certificate};
ghost use Rattle.journal.specs.declared.event.Event as journal;
ghost use Rattle.node_core.specs.Playing.{Kept, Plays};

mod accusing;
mod certificates;
mod delivery;
mod exchange;
mod gossiping;
mod handling;
mod hearing;
mod kit;
mod leaving;
mod parts;
mod returning;
mod roll;
mod sending;
mod signing;
mod spreading;
mod starting;
mod steps;
mod telling;
mod ticking;

use detector::{Detector, Found};
use ff_ids::{Group, Heal, MemberId, RecordKey};
pub use kit::{Events, Kit, Outbox};
use lms_tree::PublicKey;
use membership::{Changes, Membership};
use record_set::RecordSet;
use signer::Signer;
use std::marker::Model;
use telling::CallOutput;
use thiserror::Error;
use validate::Roster;

/// Why a node is over.
#[derive(Clone, Copy, Debug, PartialEq, Eq, Error)]
pub enum NodeFault {
    /// The disk failed in a signature.
    #[error("the store failed")]
    StoreFault,
    #[error("out of memory")]
    OutOfMemory,
    /// The key has no index left for the first note.
    #[error("the key has no leaf from {next} on")]
    Exhausted { next: u32 },
    /// An earlier call answered a fault.
    #[error("the node is over")]
    Ended,
}

/// A member of the group in one life. Contracts see what it keeps; which nodes of the definitions that may stand for
/// is said by `IsNode`.
#[derive(Drop)]
pub struct Node {
    group: Group,
    heal: Option<Heal>,
    me: MemberId,
    authority: PublicKey,
    signer: Signer,
    membership: Membership,
    roster: Roster,
    records: RecordSet,
    detector: Detector,
    news: Vec<RecordKey>,
    since: u64,
    changes: Changes,
    found: Found,
    telling: CallOutput,
    ended: bool,
}

impl Model for Node {
    ghost use Rattle.std.specs.Coded.{codes};
    ghost use Rattle.std.specs.FinMap.{code};
    ghost use Rattle.std.specs.Prelude.{Some};
    ghost use Rattle.node_core.specs.Noted.{own_note};
    ghost use Rattle.node_core.specs.Playing.{Kept, IsReady};

    ghost Value = { Kept };

    ghost coded = { Prim.hlevel (codes, code) };

    ghost view = { λ n. record {
      group = n.group;
      heal = n.heal;
      me = n.me;
      authority = n.authority;
      signer = n.signer;
      membership = n.membership;
      roster = n.roster;
      records = n.records;
      detector = n.detector;
      news = n.news.items;
      since = n.since;
      telling = n.telling;
      ended = n.ended;
    } };

    ghost invariant = { λ n. IsReady n.group n.me n.membership n.records n.detector n.signer
        (Some (own_note n.me n.signer.state)) n.ended };
}

impl Node {
    /// What the node knows of the group: one life of the rules of membership.
    pub fn membership(&self) -> &Membership
        ensures kept { result.now ≡ self.now.membership }
        ensures group { result.now.group ≡ self.now.group }
    {
        &self.membership
    }

    /// How many of the ticks that are owed at a turn are kept, where the group's nodes come together again: as many as the
    /// period has.
    pub fn most_owed(&self) -> Option<u32>
        ensures { result ≡ option_map (λ heal. self.now.group.period) self.now.heal }
    {
        self.heal.map(|_| self.group.period)
    }

    /// The port in the member's certificate; none exactly where it has no certificate here.
    pub fn port_of(&self, member: MemberId) -> Option<u16>
        ensures { result ≡ option_map (λ c. c.port) (kept_certificate self.now.roster member) }
    {
        self.roster.get(member).map(|cert| cert.port)
    }
}
