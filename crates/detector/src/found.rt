//! What a tick finds.

ghost use Rattle.std.specs.Prelude.{◌≡◌, ◌≤◌, [], if◌then◌else◌, map, filter, length, IfOk};
ghost use Rattle.detector.specs.declared.watch.TheConstants.{WATCHED};
ghost use Rattle.detector.specs.Slots.{all_missed, with_pings, pings_with, after_nonces};
ghost use Rattle.detector.specs.Kept.{nothing_found};

use crate::probe::{Probe, list_silent, ping_each};
use crate::watch::WATCHED;
use ff_ids::MemberId;
use fields::NoMemory;
use rand_chacha::ChaCha20Rng;
use std::alloc::Global;
use std::marker::Model;

/// What one tick finds: who is silent, and the pings to send. Contracts see the two lists.
#[derive(Drop)]
pub struct Found {
    silent: Vec<MemberId>,
    pings: Vec<(MemberId, u64)>,
}

impl Model for Found {
    ghost use Rattle.std.specs.Prelude.{vec_capacity};
    ghost use Rattle.detector.specs.Kept.{Findings, HasRoom};

    ghost Value = { Findings };

    ghost view = { λ f. record { silent = f.silent.items; pings = f.pings.items } };

    ghost invariant = { λ f. HasRoom (vec_capacity f.silent) (vec_capacity f.pings) };
}

impl Found {
    /// Nothing is found yet. The room for all that a tick can find is taken here.
    pub fn new(alloc: Global) -> Result<Found, NoMemory>
        ensures { IfOk result (λ f. f ≡ nothing_found) }
    {
        Ok(Found {
            silent: Vec::with_capacity(alloc, WATCHED)?,
            pings: Vec::with_capacity(alloc, WATCHED)?,
        })
    }

    /// The silent members, in order of number.
    pub fn silent(&self) -> &[MemberId]
        ensures { result.now ≡ self.now.silent }
    {
        &self.silent
    }

    /// The pings to send, in order of number: each to a member, with its nonce.
    pub fn pings(&self) -> &[(MemberId, u64)]
        ensures { result.now ≡ self.now.pings }
    {
        &self.pings
    }

    /// Lists the silent, where so many pings in a row make a member silent.
    pub(crate) fn list_silent(&mut self, probes: &[Probe], misses: u8)
        requires misses { misses ≤ 16 }
        requires few { length probes.now ≤ WATCHED }
        ensures { self.new
            ≡ record self.old
            { silent = map (λ p. p.member) (filter (all_missed misses) probes.now) } }
    {
        list_silent(probes, misses, &mut self.silent);
    }

    /// Sends each a ping, if one is due.
    pub(crate) fn ping_each(&mut self, due: bool, probes: &mut [Probe], words: &mut ChaCha20Rng)
        requires { length probes.old ≤ WATCHED }
        ensures pings { self.new
            ≡ record self.old { pings = (if due then pings_with words.old probes.old else []) } }
        ensures probes { probes.new ≡ if due then with_pings words.old probes.old else probes.old }
        ensures words { words.new ≡ if due then after_nonces words.old probes.old else words.old }
    {
        ping_each(due, probes, words, &mut self.pings);
    }
}
