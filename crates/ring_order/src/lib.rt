//! Floor: membership. The places of members on the rings, given or hashed, the order of members there, and who is
//! nearest to whom. No call takes memory. The crates of the rules call it, and a node for the places of its members.
#![tactic(auto)]

ghost use Rattle.std.specs.Prelude.{◌≡◌, ◌<◌, ◌≤◌, ◌+◌, ◌*◌, ◌-◌, ◌^◌, nat_lt, [], ◌∷◌, ◌++◌, ◌↔◌, length, map, All, IsNone, IfSome, option_map, get_or, if◌then◌else◌};
ghost use Rattle.ff_ids.specs.declared.TheConstants.{MAX_RINGS};
ghost use Rattle.ff_ids.specs.Rings.{Key, is_below, is_between, others, nearest_before as number_before, nearest_after as number_after};
ghost use Rattle.ff_ids.specs.Views.{key_at};
ghost use Rattle.ring_order.specs.Rows.{place_of_number, is_plain, tail_of, hint_of};
ghost use Rattle.ring_order.specs.Nearest.{key_of_pair, keys_of, nearer, nearest, nearest_so_far, comparisons_of_next, comparisons_of_all, IsNumberBefore, IsNumberAfter};

mod hashed;
pub mod laws;
mod rank;
pub mod steps;

use ff_ids::{MAX_RINGS, MemberId, RingNo};
pub use hashed::hash_places;
pub use rank::Rank;
use std::marker::Model;
use std::sync::ledger::Ledger;
use steps::Steps;

/// The places of one member, one of 32 bytes on each ring, at most `MAX_RINGS`. Contracts see the list of them.
#[derive(Clone, Copy, Debug, PartialEq, Eq)]
pub struct Places {
    count: u8,
    /// Whether each place is the one that a number stands for: then their tails say all.
    plain: bool,
    /// The last four bytes of each place, as numbers.
    tails: [u32; MAX_RINGS as usize],
    rows: [[u8; 32]; MAX_RINGS as usize],
}

impl Model for Places {
    ghost use Rattle.std.specs.Prelude.{◌≡◌, ℕ, List, take};
    ghost use Rattle.std.proofs.Common.{ap};
    ghost use Rattle.ring_order.specs.Rows.{kept_of};

    ghost Value = { List (List ℕ) };

    ghost view = { λ p. take p.count p.rows };

    ghost invariant = { λ p. kept_of (take p.count p.rows) ≡ (p.rows, p.count, p.tails, p.plain) };

    ghost inverse = { λ v. record {
      rows = (kept_of v).0;
      count = (kept_of v).1;
      tails = (kept_of v).2;
      plain = (kept_of v).3;
    } };

    ghost inverse_ok = { λ p h. ap
        (λ q. record { rows = q.0; count = q.1; tails = q.2; plain = q.3 }) h };
}

impl Places {
    /// No places yet.
    fn new() -> Places
        ensures { result ≡ [] }
    {
        Places {
            count: 0,
            plain: true,
            tails: [0; MAX_RINGS as usize],
            rows: [[0; 32]; MAX_RINGS as usize],
        }
    }

    /// Appends the place on the next ring.
    fn push(&mut self, place: [u8; 32])
        requires { length self.old < MAX_RINGS }
        ensures { self.new ≡ self.old ++ place ∷ [] }
    {
        let index = self.count as usize;
        self.plain &= is_plain(&place);
        self.tails[index] = tail_of(&place);
        self.rows[index] = place;
        self.count += 1;
    }

    /// The member of this number on the ring.
    fn spot(&self, ring: RingNo, number: MemberId) -> Spot
        requires { ring.0 < length self.now }
        ensures { result ≡ key_at ring.0 self.now number }
    {
        Spot {
            place: self.rows[ring.0 as usize],
            number,
        }
    }

    /// Whether the first number's place on the ring comes before the second's, by their tails.
    fn is_before(
        &self,
        ring: RingNo,
        number: MemberId,
        other: &Places,
        other_number: MemberId,
    ) -> bool
        requires own { ring.0 < length self.now }
        requires other { ring.0 < length other.now }
        ensures { result ≡ is_below (key_at ring.0 self.now number)
            (key_at ring.0 other.now other_number) }
    {
        if self.plain && other.plain {
            let index = ring.0 as usize;
            return self.tails[index]
                .cmp(&other.tails[index])
                .then(number.cmp(&other_number))
                .is_lt();
        }
        // Hashed places mostly differ here already.
        let (head, other_head) = (self.head(ring), other.head(ring));
        if head != other_head {
            return head < other_head;
        }
        self.spot(ring, number)
            .is_below(&other.spot(ring, other_number))
    }

    /// The first byte of the place on the ring.
    fn head(&self, ring: RingNo) -> u8
        requires { ring.0 < length self.now }
        ensures { result ≡ get_or (get_or self.now ring.0 []) 0 0 }
    {
        self.rows[ring.0 as usize][0]
    }

    /// What the place on the ring says at once of its order: `Rank::precedes` compares two of these.
    #[inline]
    pub fn hint(&self, ring: RingNo) -> u32
        requires { ring.0 < length self.now }
        ensures { result ≡ hint_of (get_or self.now ring.0 []) }
    {
        if self.plain {
            self.tails[ring.0 as usize]
        } else {
            hint_of(&self.rows[ring.0 as usize])
        }
    }

    /// On how many rings the member has a place.
    pub fn rings(&self) -> u8
        ensures value { result ≡ length self.now }
        ensures range { result ≤ MAX_RINGS }
    {
        self.count
    }
}

/// The last four bytes of a place, as a number.
fn tail_of(place: &[u8; 32]) -> u32
    ensures { result ≡ tail_of place.now }
{
    u32::from_be_bytes([place[28], place[29], place[30], place[31]])
}

/// Whether the place is the one that a number stands for.
#[tactic(auto, unfolding(crate::specs::Rows::is_plain))]
fn is_plain(place: &[u8; 32]) -> bool
    ensures { result ≡ is_plain place.now }
{
    *place == place_of(tail_of(place))
}

/// The hint of a place that no number stands for. It says nothing.
const NO_HINT: u32 = u32::MAX;

// Apart: places that no number stands for are rare, and the common path stays short.
#[cold]
#[inline(never)]
fn hint_of(place: &[u8; 32]) -> u32
    ensures { result ≡ hint_of place.now }
{
    if is_plain(place) {
        tail_of(place)
    } else {
        NO_HINT
    }
}

/// The place that a number stands for.
fn place_of(number: u32) -> [u8; 32]
    ensures { result ≡ place_of_number number }
{
    let mut place = [0u8; 32];
    place[28..].copy_from_slice(&number.to_be_bytes());
    place
}

/// The places that are given as numbers, in the order of the rings: each is the number in the last four
/// of 32 bytes, the highest byte first, and zeros before.
pub fn number_places(places: &[u32]) -> Places
    requires { length places.now ≤ MAX_RINGS }
    ensures { result ≡ map place_of_number places.now }
{
    let mut all = Places::new();
    for place in places {
        all.push(place_of(*place));
    }
    all
}

/// A member on one ring. Contracts see what orders it there.
#[derive(Clone, Copy)]
struct Spot {
    place: [u8; 32],
    number: MemberId,
}

impl Model for Spot {
    ghost use Rattle.ff_ids.specs.Rings.{Key};

    ghost Value = { Key };

    ghost view = { λ s. record { place = s.place; number = s.number } };

    ghost inverse = { λ k. record { place = k.place; number = k.number } };
}

impl Spot {
    fn is_below(&self, other: &Spot) -> bool
        ensures { result ≡ is_below self.now other.now }
    {
        self.place
            .cmp(&other.place)
            .then(self.number.cmp(&other.number))
            .is_lt()
    }
}

/// Whether `a` comes before `b` on the ring: by their places, and by their numbers where places tie.
pub fn key_order(
    ring: RingNo,
    a_places: &Places,
    a: MemberId,
    b_places: &Places,
    b: MemberId,
) -> bool
    requires a_placed { ring.0 < length a_places.now }
    requires b_placed { ring.0 < length b_places.now }
    ensures { result ≡ is_below (key_at ring.0 a_places.now a) (key_at ring.0 b_places.now b) }
{
    a_places.is_before(ring, a, b_places, b)
}

/// Whether `a` comes before `b` on the ring, as `key_order`. It counts one step.
pub fn key_before<L: Ledger>(
    ring: RingNo,
    a_places: &Places,
    a: MemberId,
    b_places: &Places,
    b: MemberId,
    steps: &mut Steps<L>,
) -> bool
    requires a_placed { ring.0 < length a_places.now }
    requires b_placed { ring.0 < length b_places.now }
    ensures value { result ≡ is_below (key_at ring.0 a_places.now a)
        (key_at ring.0 b_places.now b) }
    ensures step { steps.new ≡ steps.old + 1 }
{
    steps.add_one();
    key_order(ring, a_places, a, b_places, b)
}

/// Whether the hint tells: only that of a place which no number stands for doesn't, and that of the greatest number.
#[inline]
pub fn is_telling(hint: u32) -> bool
    ensures { result ≡ nat_lt hint (2 ^ 32 - 1) }
{
    hint < NO_HINT
}

/// On which side of a member to look.
#[derive(Clone, Copy)]
enum Side {
    Before,
    After,
}

impl Side {
    /// Whether the candidate is nearer to the member than the best so far. Three steps.
    fn is_nearer<L: Ledger>(
        self,
        ring: RingNo,
        member: &(Places, MemberId),
        best: &(Places, MemberId),
        candidate: &(Places, MemberId),
        steps: &mut Steps<L>,
    ) -> bool
        requires own { ring.0 < length member.now.0 }
        requires best { ring.0 < length best.now.0 }
        requires candidate { ring.0 < length candidate.now.0 }
        ensures value { result
            ≡ nearer self (key_of_pair ring.0 member.now) (key_of_pair ring.0 best.now)
            (key_of_pair ring.0 candidate.now) }
        ensures steps { steps.new ≡ steps.old + 3 }
    {
        match self {
            Side::Before => comes_between(ring, best, candidate, member, steps),
            Side::After => comes_between(ring, member, candidate, best, steps),
        }
    }

    /// The best of those so far and the candidate, where it isn't the member itself.
    fn best_with<L: Ledger>(
        self,
        ring: RingNo,
        member: &(Places, MemberId),
        best: Option<(Places, MemberId)>,
        candidate: &(Places, MemberId),
        steps: &mut Steps<L>,
    ) -> Option<(Places, MemberId)>
        requires own { ring.0 < length member.now.0 }
        requires best { IfSome best (λ p. ring.0 < length p.0) }
        requires candidate { ring.0 < length candidate.now.0 }
        ensures value { option_map (key_of_pair ring.0) result
            ≡ nearest_so_far (nearer self (key_of_pair ring.0 member.now)) member.now.1
            (option_map (key_of_pair ring.0) best) (key_of_pair ring.0 candidate.now) }
        ensures placed { IfSome result (λ p. ring.0 < length p.0) }
        ensures steps { steps.new
            ≡ steps.old + comparisons_of_next member.now.1 (option_map (key_of_pair ring.0) best)
            (key_of_pair ring.0 candidate.now) }
    {
        if candidate.1 == member.1 {
            return best;
        }
        match best {
            Some(pair) => {
                if self.is_nearer(ring, member, &pair, candidate, steps) {
                    Some(*candidate)
                } else {
                    Some(pair)
                }
            }
            None => Some(*candidate),
        }
    }

    /// The nearest to the member on this side, among those listed other than it.
    fn nearest<L: Ledger>(
        self,
        ring: RingNo,
        member: &(Places, MemberId),
        live: &[(Places, MemberId)],
        steps: &mut Steps<L>,
    ) -> Option<MemberId>
        requires own { ring.0 < length member.now.0 }
        requires each { All (λ p. ring.0 < length p.0) live.now }
        ensures value { result ≡ nearest self (keys_of ring.0 live.now)
            (key_of_pair ring.0 member.now) }
        ensures steps { steps.new
            ≡ steps.old + comparisons_of_all member.now.1 (keys_of ring.0 live.now) }
    {
        let mut best = None;
        for listed in live {
            best = self.best_with(ring, member, best, listed, steps);
        }
        best.map(|pair| pair.1)
    }
}

/// Whether the second comes strictly between the first and the third, going round the ring. Three steps.
fn comes_between<L: Ledger>(
    ring: RingNo,
    first: &(Places, MemberId),
    second: &(Places, MemberId),
    third: &(Places, MemberId),
    steps: &mut Steps<L>,
) -> bool
    requires first { ring.0 < length first.now.0 }
    requires second { ring.0 < length second.now.0 }
    requires third { ring.0 < length third.now.0 }
    ensures value { result
        ≡ is_between (key_of_pair ring.0 first.now) (key_of_pair ring.0 second.now)
        (key_of_pair ring.0 third.now) }
    ensures steps { steps.new ≡ steps.old + 3 }
{
    let up = key_before(ring, &first.0, first.1, &second.0, second.1, steps);
    let on = key_before(ring, &second.0, second.1, &third.0, third.1, steps);
    let round = key_before(ring, &third.0, third.1, &first.0, first.1, steps);
    up && on || on && round || round && up
}

/// The member's monitor on the ring: of those listed other than it, the one with nobody else between it
/// and the member, going round. Members that tie are in order of number. The member itself need not be
/// listed. Three steps for each listed member other than it, but for the first.
pub fn nearest_before<L: Ledger>(
    ring: RingNo,
    places: &Places,
    member: MemberId,
    live: &[(Places, MemberId)],
    steps: &mut Steps<L>,
) -> Option<MemberId>
    requires own { ring.0 < length places.now }
    requires each { All (λ p. ring.0 < length p.0) live.now }
    ensures exact { result ≡ number_before (keys_of ring.0 live.now)
        (key_at ring.0 places.now member) }
    ensures none { IsNone result ↔ All (λ p. p.1 ≡ member) live.now }
    ensures nearest { IfSome result
        (IsNumberBefore (keys_of ring.0 live.now) (key_at ring.0 places.now member)) }
    ensures steps { steps.new
        ≡ steps.old + 3 * (length (others member (keys_of ring.0 live.now)) - 1) }
{
    Side::Before.nearest(ring, &(*places, member), live, steps)
}

/// The member's successor on the ring: of those listed other than it, the one with nobody else between the
/// member and it, going round. Members that tie are in order of number. The member itself need not be
/// listed. Three steps for each listed member other than it, but for the first.
pub fn nearest_after<L: Ledger>(
    ring: RingNo,
    places: &Places,
    member: MemberId,
    live: &[(Places, MemberId)],
    steps: &mut Steps<L>,
) -> Option<MemberId>
    requires own { ring.0 < length places.now }
    requires each { All (λ p. ring.0 < length p.0) live.now }
    ensures exact { result ≡ number_after (keys_of ring.0 live.now)
        (key_at ring.0 places.now member) }
    ensures none { IsNone result ↔ All (λ p. p.1 ≡ member) live.now }
    ensures nearest { IfSome result
        (IsNumberAfter (keys_of ring.0 live.now) (key_at ring.0 places.now member)) }
    ensures steps { steps.new
        ≡ steps.old + 3 * (length (others member (keys_of ring.0 live.now)) - 1) }
{
    Side::After.nearest(ring, &(*places, member), live, steps)
}
