//! The pings that are kept of the members watched.

ghost use Rattle.std.specs.Prelude.{◌≡◌, ◌≤◌, [], ◌∷◌, false, Some, take, if◌then◌else◌, map, filter, length, vec_capacity};
ghost use Rattle.std.specs.Option.{option_map_or};
ghost use Rattle.detector.specs.Slots.{slot_answered, is_missed as slot_is_missed, has_nonce, probe_in, blank, carried, carried_all, with_ping, with_pings, pings_with, nonce_of, after_nonce, after_nonces, probe_answered, answered_where, all_missed, probe_has, slot_nonced, probe_nonced, nonced_where};

use crate::watch::Watched;
use ff_ids::{Epoch, MemberId};
use rand_chacha::ChaCha20Rng;
use rand_core::utils::NextWord;

/// How many pings are kept of a member at most.
const PINGS: usize = 16;

/// A ping, by its nonce, and whether a pong answered it.
#[derive(Clone, Copy)]
pub struct Ping {
    pub nonce: u64,
    pub answered: bool,
}

/// A watched member, and its last pings while it was watched with this epoch, the latest first.
#[derive(Clone, Copy)]
pub struct Probe {
    pub member: MemberId,
    pub epoch: Epoch,
    pub slots: [Option<Ping>; PINGS],
}

/// Whether there is an unanswered ping.
fn is_missed(slot: &Option<Ping>) -> bool
    ensures { result ≡ slot_is_missed slot.now }
{
    match slot {
        Some(ping) => !ping.answered,
        None => false,
    }
}

/// Whether there is a ping with the nonce.
fn is_of_nonce(slot: &Option<Ping>, nonce: u64) -> bool
    ensures { result ≡ has_nonce nonce slot.now }
{
    match slot {
        Some(ping) => ping.nonce == nonce,
        None => false,
    }
}

/// Answers the ping where it has the nonce.
fn answer_slot(slot: &mut Option<Ping>, nonce: u64)
    ensures { slot.new ≡ slot_answered nonce slot.old }
{
    if let Some(ping) = slot {
        if ping.nonce == nonce {
            ping.answered = true;
        }
    }
}

/// Answers all pings with the nonce.
fn answer_slots(slots: &mut [Option<Ping>], nonce: u64)
    ensures { slots.new ≡ map (slot_answered nonce) slots.old }
{
    for slot in slots.iter_mut() {
        answer_slot(slot, nonce);
    }
}

/// Gives the ping this nonce, if there is one.
fn set_nonce(slot: &mut Option<Ping>, nonce: u64)
    ensures { slot.new ≡ slot_nonced nonce slot.old }
{
    if let Some(ping) = slot {
        ping.nonce = nonce;
    }
}

/// Puts a ping in front of the others, of which the last goes.
fn put_first(slots: &mut [Option<Ping>], ping: Ping)
    requires { length slots.old ≡ 16 }
    ensures { slots.new ≡ Some ping ∷ take 15 slots.old }
{
    slots.copy_within(0..PINGS - 1, 1);
    slots[0] = Some(ping);
}

impl Probe {
    /// No ping was sent yet.
    fn new(watched: &Watched) -> Probe
        ensures { result ≡ blank watched.now }
    {
        Probe {
            member: watched.member,
            epoch: watched.epoch,
            slots: [None; PINGS],
        }
    }

    /// Keeps one more ping; the oldest goes where there is no room for it.
    fn add(&mut self, nonce: u64)
        ensures { self.new ≡ with_ping nonce self.old }
    {
        let ping = Ping {
            nonce,
            answered: false,
        };
        put_first(&mut self.slots, ping);
    }

    /// Whether the last pings, so many of them, were sent and are unanswered.
    pub fn is_silent(&self, misses: u8) -> bool
        requires { misses ≤ 16 }
        ensures { result ≡ all_missed misses self.now }
    {
        self.slots[..misses as usize].iter().all(is_missed)
    }

    /// Whether one of the last pings has the nonce.
    fn has(&self, misses: u8, nonce: u64) -> bool
        requires { misses ≤ 16 }
        ensures { result ≡ probe_has misses nonce self.now }
    {
        self.slots[..misses as usize]
            .iter()
            .any(|slot| is_of_nonce(slot, nonce))
    }

    /// Answers those of the last pings that have the nonce.
    fn answer(&mut self, misses: u8, nonce: u64)
        requires { misses ≤ 16 }
        ensures { self.new ≡ probe_answered misses nonce self.old }
    {
        answer_slots(&mut self.slots[..misses as usize], nonce);
    }

    /// Takes a pong that came from this member.
    fn answer_from(&mut self, misses: u8, from: MemberId, nonce: u64)
        requires { misses ≤ 16 }
        ensures { self.new ≡ answered_where misses from nonce self.old }
    {
        if self.member == from {
            self.answer(misses, nonce);
        }
    }

    /// Gives the latest ping this nonce, if there is one.
    fn renonce(&mut self, nonce: u64)
        ensures { self.new ≡ probe_nonced nonce self.old }
    {
        set_nonce(&mut self.slots[0], nonce);
    }

    /// Gives the latest ping this nonce where it is to this member.
    fn renonce_to(&mut self, to: MemberId, nonce: u64)
        ensures { self.new ≡ nonced_where to nonce self.old }
    {
        if self.member == to {
            self.renonce(nonce);
        }
    }
}

/// The probe of the member, if there is one.
fn probe_of(probes: &[Probe], member: MemberId) -> Option<Probe>
    ensures { result ≡ probe_in probes.now member }
{
    for probe in probes {
        if probe.member == member {
            return Some(*probe);
        }
    }
    None
}

/// What was kept of the watched member where that was at this epoch, else nothing.
fn carry(probes: &[Probe], watched: &Watched) -> Probe
    ensures { result ≡ carried (probe_in probes.now watched.now.member) watched.now }
{
    match probe_of(probes, watched.member) {
        Some(probe) => {
            if probe.epoch == watched.epoch {
                probe
            } else {
                Probe::new(watched)
            }
        }
        None => Probe::new(watched),
    }
}

/// Lists what is kept of those watched.
pub fn carry_all(probes: &[Probe], watched: &[Watched], out: &mut Vec<Probe>)
    requires { length watched.now ≤ vec_capacity out.old }
    ensures items { out.new.items ≡ carried_all probes.now watched.now }
    ensures few { length out.new.items ≡ length watched.now }
    ensures room { vec_capacity out.new ≡ vec_capacity out.old }
{
    out.clear();
    for each in watched {
        out.push_reserved(carry(probes, each));
    }
}

/// Lists the silent, where so many pings in a row make a member silent.
pub fn list_silent(probes: &[Probe], misses: u8, out: &mut Vec<MemberId>)
    requires misses { misses ≤ 16 }
    requires room { length probes.now ≤ vec_capacity out.old }
    ensures items { out.new.items ≡ map (λ p. p.member) (filter (all_missed misses) probes.now) }
    ensures room { vec_capacity out.new ≡ vec_capacity out.old }
{
    out.clear();
    for probe in probes {
        if probe.is_silent(misses) {
            out.push_reserved(probe.member);
        }
    }
}

/// The next nonce: two words, the upper first.
fn next_nonce(words: &mut ChaCha20Rng) -> u64
    ensures value { result ≡ nonce_of words.old }
    ensures after { words.new ≡ after_nonce words.old }
{
    let upper = words.next_word();
    let lower = words.next_word();
    (u64::from(upper) << 32) + u64::from(lower)
}

/// Sends each a ping, if one is due.
pub fn ping_each(
    due: bool,
    probes: &mut [Probe],
    words: &mut ChaCha20Rng,
    out: &mut Vec<(MemberId, u64)>,
)
    requires { length probes.old ≤ vec_capacity out.old }
    ensures probes { probes.new ≡ if due then with_pings words.old probes.old else probes.old }
    ensures pings { out.new.items ≡ if due then pings_with words.old probes.old else [] }
    ensures words { words.new ≡ if due then after_nonces words.old probes.old else words.old }
    ensures room { vec_capacity out.new ≡ vec_capacity out.old }
{
    out.clear();
    if !due {
        return;
    }
    for probe in probes.iter_mut() {
        let nonce = next_nonce(words);
        probe.add(nonce);
        out.push_reserved((probe.member, nonce));
    }
}

/// Whether a kept ping to the sender has the nonce.
pub fn has_kept(probes: &[Probe], misses: u8, from: MemberId, nonce: u64) -> bool
    requires { misses ≤ 16 }
    ensures { result ≡ option_map_or (probe_has misses nonce) (probe_in probes.now from) false }
{
    match probe_of(probes, from) {
        Some(probe) => probe.has(misses, nonce),
        None => false,
    }
}

/// Answers the kept pings to the sender that have the nonce.
pub fn answer_all(probes: &mut [Probe], misses: u8, from: MemberId, nonce: u64)
    requires { misses ≤ 16 }
    ensures { probes.new ≡ map (answered_where misses from nonce) probes.old }
{
    for probe in probes.iter_mut() {
        probe.answer_from(misses, from, nonce);
    }
}

/// Gives the latest ping to the member this nonce.
pub fn renonce_all(probes: &mut [Probe], to: MemberId, nonce: u64)
    ensures { probes.new ≡ map (nonced_where to nonce) probes.old }
{
    for probe in probes.iter_mut() {
        probe.renonce_to(to, nonce);
    }
}
