//! With whom a node exchanges summaries in a round, and of which page.

ghost use Rattle.std.specs.Prelude.{◌≡◌, ℕ, ◌/◌, ◌<◌, ◌≤◌, ◌↔◌, true, [], None, IfSome, length};
ghost use Rattle.std.specs.List.{slice_get};
ghost use Rattle.std.specs.Option.{option_map, option_map_or, option_or};
ghost use Rattle.ff_ids.specs.declared.TheConstants.{MAX_TOLERANCE, PAGES, PAGE_MEMBERS};
ghost use Rattle.ff_ids.specs.Masks.{ring_count};
ghost use Rattle.ff_ids.specs.Views.{State};
ghost use Rattle.membership.specs.Holds.{Holds};
ghost use Rattle.membership.specs.Life.{has_joined};
ghost use Rattle.gossip.specs.Partners.{is_listed, is_meant, meant, others, in_turn, share, outsider_with, plain_round, partner as partner_in, partner_with, page_of as page_in, page_with, AreMembers, NotesOfMembers};

use ff_ids::{Heal, MemberId, PAGE_MEMBERS, RingNo};
use membership::Membership;

/// With whom summaries are exchanged, and of which page.
#[derive(Clone, Copy, Debug, PartialEq, Eq)]
pub struct Exchange {
    pub partner: MemberId,
    pub page: u8,
}

/// Whether the member is another than `me`, and where the round goes outward, out of the view.
fn is_meant(membership: &Membership, outward: bool, me: MemberId, member: MemberId) -> bool
    ensures { (s : State) → Holds membership.now s → result ≡ is_meant outward s me member }
{
    member != me && !(outward && membership.in_view(member))
}

/// How many of the certified are meant.
fn count_meant(
    membership: &Membership,
    certified: &[MemberId],
    outward: bool,
    me: MemberId,
) -> usize
    ensures { (s : State) → Holds membership.now s
        → result ≡ length (meant outward s certified.now me) }
{
    let mut count = 0;
    for member in certified {
        if is_meant(membership, outward, me, *member) {
            count += 1;
        }
    }
    count
}

/// Of those that are meant, in their order, the one at this place.
fn meant_at(
    membership: &Membership,
    certified: &[MemberId],
    outward: bool,
    me: MemberId,
    place: usize,
) -> Option<MemberId>
    ensures { (s : State) → Holds membership.now s
        → result ≡ slice_get (meant outward s certified.now me) place }
{
    let mut left = place;
    for member in certified {
        if !is_meant(membership, outward, me, *member) {
            continue;
        }
        if left == 0 {
            return Some(*member);
        }
        left -= 1;
    }
    None
}

/// Of those that are meant, in their order, the one whose turn it is in this round; none where nobody is.
fn in_turn(
    membership: &Membership,
    certified: &[MemberId],
    outward: bool,
    me: MemberId,
    round: u64,
) -> Option<MemberId>
    ensures { (s : State) → Holds membership.now s
        → result ≡ in_turn (meant outward s certified.now me) round }
{
    let count = count_meant(membership, certified, outward, me);
    if count == 0 {
        return None;
    }
    let place = (round % count as u64) as usize;
    meant_at(membership, certified, outward, me, place)
}

/// The successor on the ring whose turn it is, or where nobody else is in the view, the other whose turn it is.
fn successor_or_other(
    membership: &Membership,
    certified: &[MemberId],
    me: MemberId,
    round: u64,
) -> Option<MemberId>
    requires tolerance { membership.now.group.t ≤ MAX_TOLERANCE }
    requires member { has_joined membership.now me ≡ true }
    ensures { (s : State) → Holds membership.now s
        → result ≡ partner_in membership.now.group.t s certified.now me round }
{
    let rings = 2 * membership.group().t + 1;
    let ring = RingNo((round % rings as u64) as u8);
    match membership.successor(ring, me) {
        Some(next) => Some(next),
        None => in_turn(membership, certified, false, me, round),
    }
}

/// Of how many rounds one goes to a member out of the view.
fn share(heal: Heal, membership: &Membership) -> u64
    ensures value { (s : State) → Holds membership.now s → result ≡ share heal s }
    ensures range { 2 ≤ result }
{
    if membership.view().len() <= 2 {
        2
    } else {
        heal.every() as u64
    }
}

/// The member out of the view to whom the round goes, if it goes to one, and the number of the round among those that
/// don't.
fn outsider(
    heal: Option<Heal>,
    membership: &Membership,
    certified: &[MemberId],
    me: MemberId,
    round: u64,
) -> (Option<MemberId>, u64)
    ensures outsider { (s : State) → Holds membership.now s
        → result.0 ≡ outsider_with heal s certified.now me round }
    ensures round { (s : State) → Holds membership.now s
        → result.1 ≡ plain_round heal s round }
{
    let Some(heal) = heal else {
        return (None, round);
    };
    let share = share(heal, membership);
    let turn = round / share;
    if round % share < share - 1 {
        return (None, round - turn);
    }
    (in_turn(membership, certified, true, me, turn), round - turn)
}

/// The page of this round in a group of `k` rings, at least 1, where `highest` is the greatest certified number:
/// each page in turn, for `k` rounds.
pub fn page_of(round: u64, k: u8, highest: MemberId) -> u8
    requires { 1 ≤ k }
    ensures value { result ≡ page_in round k highest }
    ensures page { result < PAGES }
{
    let pages = highest.get() / PAGE_MEMBERS + 1;
    (round / k as u64 % pages as u64) as u8
}

/// The exchange with the member that is out of the view, of the page that it is on, or where there is none, the one
/// of the rules without the option.
fn with_outsider(
    out: Option<MemberId>,
    membership: &Membership,
    certified: &[MemberId],
    highest: MemberId,
    me: MemberId,
    round: u64,
) -> Option<Exchange>
    requires tolerance { membership.now.group.t ≤ MAX_TOLERANCE }
    requires member { has_joined membership.now me ≡ true }
    ensures partner { (s : State) → Holds membership.now s → option_map (λ e. e.partner) result
        ≡ option_or out (partner_in membership.now.group.t s certified.now me round) }
    ensures page { IfSome result (λ e. e.page
        ≡ option_map_or (λ m. m / PAGE_MEMBERS) out
        (page_in round (ring_count membership.now.group.t) highest)) }
    ensures range { IfSome result (λ e. e.page < PAGES) }
{
    if let Some(partner) = out {
        let page = (partner.get() / PAGE_MEMBERS) as u8;
        return Some(Exchange { partner, page });
    }
    let rings = 2 * membership.group().t + 1;
    let page = page_of(round, rings, highest);
    successor_or_other(membership, certified, me, round).map(|partner| Exchange { partner, page })
}

/// The exchange of the node `me` in this round, where `highest` is the greatest of the certified; none where nobody
/// else is certified. Where nodes are to come together again, each so many rounds one goes to a certified member
/// out of the view, each in turn, and is of the page that this is on. All others go to the node's successor on the ring
/// whose turn it is, or where the view has nobody else, to the other certified member whose turn it is; each page
/// comes in turn, for as many rounds as there are rings. Turns go in the order of `certified`.
pub fn exchange_of(
    heal: Option<Heal>,
    membership: &Membership,
    certified: &[MemberId],
    highest: MemberId,
    me: MemberId,
    round: u64,
) -> Option<Exchange>
    requires tolerance { membership.now.group.t ≤ MAX_TOLERANCE }
    requires member { has_joined membership.now me ≡ true }
    ensures partner { (s : State) → Holds membership.now s → option_map (λ e. e.partner) result
        ≡ partner_with heal membership.now.group.t s certified.now me round }
    ensures page { (s : State) → Holds membership.now s → IfSome result (λ e. e.page
        ≡ page_with heal s certified.now me round (ring_count membership.now.group.t) highest) }
    ensures range { IfSome result (λ e. e.page < PAGES) }
    // Where `certified` are the members, in order of number, none comes exactly where no other is certified.
    ensures none { (s : State) → Holds membership.now s → NotesOfMembers s
        → AreMembers membership.now certified.now
        → (result ≡ None) ↔ (others certified.now me ≡ []) }
    // Where `certified` are the members, the partner is another of them.
    ensures other { (s : State) → Holds membership.now s → NotesOfMembers s
        → AreMembers membership.now certified.now
        → IfSome result (λ e. is_listed (others certified.now me) e.partner ≡ true) }
{
    let (out, plain) = outsider(heal, membership, certified, me, round);
    with_outsider(out, membership, certified, highest, me, plain)
}
