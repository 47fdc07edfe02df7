//! Floor: audit. A mirror of a node: what the node must have reported, computed from what it was given and from what an
//! audit knows of its life, without its secret, its key and its disk. Each call is exactly one step of the definitions in
//! `node_rules`, whatever the signatures are that the node made.
#![tactic(auto)]

ghost use Rattle.std.specs.Prelude.{◌≡◌, ℕ, List, true};
ghost use Rattle.std.specs.Option.{option_map};
ghost use Rattle.detector.specs.Silence.{History, ticked_with, is_pinged, with_nonce};
ghost use Rattle.detector.specs.declared.watch.Watched.{Watched};
ghost use Rattle.node_rules.specs.Nodes.{Setting, Node as RulesNode};
ghost use Rattle.validate.specs.Certified.{certificate_of as kept_certificate};
ghost use Rattle.audit_node.specs.Playing.{IsMirror};

mod accusing;
mod certificates;
mod delivery;
mod exchange;
mod gossiping;
mod handling;
mod hearing;
mod kit;
mod leaving;
mod owing;
mod parts;
mod returning;
mod roll;
mod sending;
mod signing;
mod spreading;
mod starting;
mod steps;
mod telling;
mod ticking;

use audit_set::AuditSet;
use detector::{Detector, Found};
use epoch_store::Stored;
use ff_ids::{Group, Heal, MemberId, RecordKey};
pub use kit::Kit;
use lms_tree::PublicKey;
use membership::{Changes, Membership};
pub use owing::{Item, Owed, OwedEvent};
use std::marker::Model;
use telling::CallOutput;
use validate::Roster;

/// A mirror of a member of the group in one life. Contracts see what it keeps; which nodes of the definitions that may stand
/// for is said by `IsMirror`.
#[derive(Drop)]
pub struct Mirror {
    group: Group,
    heal: Option<Heal>,
    me: MemberId,
    authority: PublicKey,
    indexes: u32,
    own_length: u16,
    stored: Stored,
    membership: Membership,
    roster: Roster,
    records: AuditSet,
    detector: Detector,
    news: Vec<RecordKey>,
    since: u64,
    changes: Changes,
    found: Found,
    telling: CallOutput,
}

impl Model for Mirror {
    ghost use Rattle.std.specs.Coded.{codes};
    ghost use Rattle.std.specs.FinMap.{code};
    ghost use Rattle.std.specs.Prelude.{Some};
    ghost use Rattle.audit_node.specs.Noted.{own_note};
    ghost use Rattle.audit_node.specs.Playing.{Kept, IsReady};

    ghost Value = { Kept };

    ghost coded = { Prim.hlevel (codes, code) };

    ghost view = { λ n. record {
      group = n.group;
      heal = n.heal;
      me = n.me;
      authority = n.authority;
      indexes = n.indexes;
      own_length = n.own_length;
      stored = n.stored;
      membership = n.membership;
      roster = n.roster;
      records = n.records;
      detector = n.detector;
      news = n.news.items;
      since = n.since;
      telling = n.telling;
    } };

    ghost invariant = { λ n. IsReady n.group n.me n.membership n.records n.detector n.indexes
        n.stored (Some (own_note n.me n.stored)) };
}

impl Mirror {
    /// What the node knows of the group: one life of the rules of membership.
    pub fn membership(&self) -> &Membership
        ensures kept { result.now ≡ self.now.membership }
        ensures group { result.now.group ≡ self.now.group }
    {
        &self.membership
    }

    /// The tick at which the node is.
    pub fn moment(&self) -> u64
        ensures { result ≡ self.now.membership.moment }
    {
        self.membership.now()
    }

    /// The ping of the last tick to the member had this nonce, in place of the one that was drawn.
    pub fn renonce(&mut self, to: MemberId, nonce: u64)
        ensures { (s : Setting) (n : RulesNode) (h : History) (watched : List Watched)
            (sent : List (ℕ × ℕ)) → is_pinged to sent ≡ true
            → IsMirror s self.old (record n { probes = ticked_with h watched sent })
            → IsMirror s self.new
            (record n { probes = ticked_with h watched (with_nonce to nonce sent) }) }
    {
        self.detector.renonce(to, nonce);
    }

    /// The port in the member's certificate; none exactly where it has no certificate here.
    pub fn port_of(&self, member: MemberId) -> Option<u16>
        ensures { result ≡ option_map (λ c. c.port) (kept_certificate self.now.roster member) }
    {
        self.roster.get(member).map(|cert| cert.port)
    }
}
