//! What a life of a node begins with, and what its calls add to.

ghost use Rattle.std.specs.Prelude.{◌≡◌, ◌↔◌, [], All, true};
ghost use Rattle.records.specs.declared.keys.Key.TheVariants as keys;
ghost use Rattle.node_core.specs.Begins.{IsCheckedIn, IsGroup, IsKit};
ghost use Rattle.node_core.specs.Told.{IsNoLoss};

use crate::certificates::are_certificates_of;
use ff_ids::{Group, Heal, MAX_TOLERANCE, MemberId};
use fields::Bytes;
use journal::Event;
use lms_tree::PublicKey;
use records::{Checked, Key};
use std::alloc::Global;
use std::marker::Model;

/// A group, with the option that nodes which lost each other come together again or without it, a member of it and the
/// authority's key; certificates, the member's own among them, each checked under that
/// key; and the 32 bytes from which the nonces of the life come.
#[derive(Drop)]
pub struct Kit {
    pub group: Group,
    pub heal: Option<Heal>,
    pub me: MemberId,
    pub authority: PublicKey,
    pub certificates: Vec<Checked>,
    pub nonce_seed: [u8; 32],
}

/// Whether the numbers are those of a group: t from 1 to `MAX_TOLERANCE`, a timeout of 1 to 10,000 ticks, a period of 1 to 1,000, and
/// 1 to 16 misses.
fn is_group(group: &Group) -> bool
    ensures { (result ≡ true) ↔ IsGroup group.now }
{
    (1..=MAX_TOLERANCE).contains(&group.t)
        && (1..=10_000).contains(&group.timeout)
        && (1..=1_000).contains(&group.period)
        && (1..=16).contains(&group.misses)
}

impl Kit {
    /// Whether a life of the key `own` may begin with the kit, whose certificates were each checked in its group under
    /// the authority's key: the group's numbers are in their ranges, no two certificates are of one member, and the
    /// member's own is among them, with that key.
    pub fn is_sound(&self, own: &Key) -> bool
        requires { All (IsCheckedIn self.now.group (keys.Lms self.now.authority)) self.now.certificates.items }
        ensures { (result ≡ true) ↔ IsKit self.now own.now }
    {
        is_group(&self.group) && are_certificates_of(self.me, own, &self.certificates)
    }
}

/// The datagrams that go out, each with its addressee, the first one first. Contracts see the list.
#[derive(Drop)]
pub struct Outbox {
    pub(crate) datagrams: Vec<(MemberId, Bytes)>,
}

impl Model for Outbox {
    ghost use Rattle.std.specs.Prelude.{ℕ, List};

    ghost Value = { List (ℕ × List ℕ) };

    ghost view = { λ o. o.datagrams.items };
}

impl Outbox {
    /// Nothing goes out yet.
    pub fn new(alloc: Global) -> Outbox
        ensures { result ≡ [] }
    {
        Outbox {
            datagrams: Vec::new(alloc),
        }
    }

    /// The datagrams, each with its addressee.
    pub fn as_slice(&self) -> &[(MemberId, Bytes)]
        ensures { result.now ≡ self.now }
    {
        self.datagrams.as_slice()
    }
}

/// What calls have reported, the first one first. None of it is the loss of a datagram. Contracts see the list.
#[derive(Drop)]
pub struct Events {
    pub(crate) events: Vec<Event>,
}

impl Model for Events {
    ghost use Rattle.std.specs.Prelude.{All, List};
    ghost use Rattle.journal.specs.declared.event.Event as journal;
    ghost use Rattle.node_core.specs.Told.{IsNoLoss};

    ghost Value = { List journal.Event };

    ghost view = { λ e. e.events.items };

    ghost invariant = { λ e. All IsNoLoss e.events.items };
}

impl Events {
    /// Nothing is reported yet.
    pub fn new(alloc: Global) -> Events
        ensures { result ≡ [] }
    {
        Events {
            events: Vec::new(alloc),
        }
    }

    /// The events.
    pub fn as_slice(&self) -> &[Event]
        ensures { result.now ≡ self.now }
    {
        self.events.as_slice()
    }

    /// The events, for whom it matters that none is the loss of a datagram.
    pub fn without_loss(&self) -> &[Event]
        ensures same { result.now ≡ self.now }
        ensures no_loss { All IsNoLoss result.now }
    {
        self.events.as_slice()
    }
}
