//! Floor: node. The failure detector of one life: it pings the members that this one watches, each with a nonce of its
//! own, and finds those silent that left the last pings unanswered. Contracts speak of all pings and pongs of the life,
//! of which far less is kept. After opening no call takes memory. `node_core` calls it.
#![tactic(auto)]

ghost use Rattle.std.specs.Prelude.{◌≡◌, ◌≤◌, ℕ, List, [], true, false, if◌then◌else◌, map, IfOk};
ghost use Rattle.ff_ids.specs.declared.TheConstants.{MAX_TOLERANCE};
ghost use Rattle.ff_ids.specs.Views.{State};
ghost use Rattle.membership.specs.Life.{has_joined};
ghost use Rattle.membership.specs.Holds.{Holds};
ghost use Rattle.detector.specs.Silence.{History, opening, nonce as nonce_of, silent as silent_at, pings as pings_at, counts, ticked, ticked_with, ponged, AreTo, is_pinged, with_nonce};
ghost use Rattle.detector.specs.Watching.{watched as watched_in};
ghost use Rattle.detector.specs.declared.watch.Watched.{Watched as Watching};
ghost use Rattle.detector.specs.Slots.{nonced_where};
ghost use Rattle.detector.specs.Kept.{StandsFor, DrawsFor};

mod found;
pub mod laws;
mod probe;
mod watch;

use ff_ids::{Group, MemberId};
use fields::NoMemory;
pub use found::Found;
use membership::Membership;
use probe::{Probe, answer_all, carry_all, has_kept, renonce_all};
use rand_chacha::ChaCha20Rng;
use rand_core::SeedableRng;
use std::alloc::Global;
use std::marker::Model;
use std::mem::swap;
use watch::{WATCHED, Watched, watch_all};

/// Finds the silent among those that one member watches. Contracts see what is kept of the life. Which histories that
/// may stand for, with nonces of any source, is said by `StandsFor`; `DrawsFor` says that they are those of a seed.
#[derive(Drop)]
pub struct Detector {
    group: Group,
    words: ChaCha20Rng,
    /// Where this member's places were found last, by the ring.
    near: [usize; WATCHED],
    watched: Vec<Watched>,
    probes: Vec<Probe>,
    spare: Vec<Probe>,
}

impl Model for Detector {
    ghost use Rattle.std.specs.Prelude.{vec_capacity};
    ghost use Rattle.detector.specs.Kept.{Kept, IsReady};

    ghost Value = { Kept };

    ghost view = { λ d. record { group = d.group; words = d.words; probes = d.probes.items } };

    ghost invariant = { λ d. IsReady d.group (vec_capacity d.watched) (vec_capacity d.probes)
        (vec_capacity d.spare) };
}

impl Detector {
    /// Opens the detector of a life, without a ping. The nonces come from the seed: each is two words of its ChaCha
    /// stream of 20 rounds, the upper one first. The room for all that may come is taken here.
    pub fn open(alloc: Global, group: &Group, seed: [u8; 32]) -> Result<Detector, NoMemory>
        requires rings { group.now.t ≤ MAX_TOLERANCE }
        requires misses { group.now.misses ≤ 16 }
        ensures group { IfOk result (λ d. d.group ≡ group.now) }
        ensures holds { IfOk result (λ d. DrawsFor d (opening group.now (nonce_of seed))) }
    {
        Ok(Detector {
            group: *group,
            words: ChaCha20Rng::from_seed(seed),
            near: [0; WATCHED],
            watched: Vec::with_capacity(alloc, WATCHED)?,
            probes: Vec::with_capacity(alloc, WATCHED)?,
            spare: Vec::with_capacity(alloc, WATCHED)?,
        })
    }

    /// One tick, after that of the membership. `out` tells who is silent of those that this member watches now and,
    /// where pings are due, one to each of these, with the next nonces. The pings of others are forgotten, and so are
    /// those of members with another epoch than at the tick before.
    pub fn tick(&mut self, due: bool, membership: &Membership, me: MemberId, out: &mut Found)
        requires group { membership.now.group ≡ self.old.group }
        requires joined { has_joined membership.now me ≡ true }
        ensures silent { (h : History) (s : State) → StandsFor self.old h → Holds membership.now s
            → out.new.silent ≡ silent_at h (watched_in self.old.group.t s me) }
        ensures to { (s : State) → Holds membership.now s
            → AreTo (if due then watched_in self.old.group.t s me else []) out.new.pings }
        ensures stands { (h : History) (s : State) → StandsFor self.old h → Holds membership.now s
            → StandsFor self.new
            (ticked_with h (watched_in self.old.group.t s me) out.new.pings) }
        ensures pings { (h : History) (s : State) → DrawsFor self.old h → Holds membership.now s
            → out.new.pings ≡ pings_at h due (watched_in self.old.group.t s me) }
        ensures holds { (h : History) (s : State) → DrawsFor self.old h → Holds membership.now s
            → DrawsFor self.new (ticked h due (watched_in self.old.group.t s me)) }
        ensures group { self.new.group ≡ self.old.group }
    {
        watch_all(membership, me, &mut self.near, &mut self.watched);
        carry_all(&self.probes, &self.watched, &mut self.spare);
        swap(&mut self.probes, &mut self.spare);
        out.list_silent(&self.probes, self.group.misses);
        out.ping_each(due, &mut self.probes, &mut self.words);
    }

    /// Takes a pong, which answers all kept pings to its sender with its nonce. Whether there is one is answered: a
    /// pong that comes again counts again while its ping is kept. One that doesn't count changes nothing.
    pub fn pong(&mut self, from: MemberId, nonce: u64) -> bool
        ensures value { (h : History) → StandsFor self.old h → result ≡ counts h from nonce }
        ensures stands { (h : History) → StandsFor self.old h
            → StandsFor self.new (ponged h from nonce) }
        ensures holds { (h : History) → DrawsFor self.old h
            → DrawsFor self.new (ponged h from nonce) }
        ensures same { result ≡ false → self.new ≡ self.old }
        ensures group { self.new.group ≡ self.old.group }
    {
        if !has_kept(&self.probes, self.group.misses, from, nonce) {
            return false;
        }
        answer_all(&mut self.probes, self.group.misses, from, nonce);
        true
    }

    /// Gives the latest ping to a member this nonce, in place of the one that was drawn at its tick: for a caller who
    /// learns behind the tick which nonces were sent. Where no ping to the member is kept, nothing changes. Nor do the
    /// nonces to come, which go on from those that were drawn.
    pub fn renonce(&mut self, to: MemberId, nonce: u64)
        ensures kept { self.new
            ≡ record self.old { probes = map (nonced_where to nonce) self.old.probes } }
        ensures stands { (h : History) (watched : List Watching) (sent : List (ℕ × ℕ))
            → is_pinged to sent ≡ true
            → StandsFor self.old (ticked_with h watched sent)
            → StandsFor self.new (ticked_with h watched (with_nonce to nonce sent)) }
    {
        renonce_all(&mut self.probes, to, nonce);
    }
}
