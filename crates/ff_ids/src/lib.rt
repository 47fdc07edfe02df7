//! Floor: base. The plain types of the membership protocol, and in `specs/` its whole model: masks, the order on a
//! ring, notes, the view, faults, steps and lives. Reading begins here. No call takes memory. Any crate may call it.
#![tactic(auto)]

ghost use Rattle.std.specs.Prelude.{◌≡◌, ◌<◌, ◌≤◌, ◌^◌, length};
ghost use Rattle.ff_ids.specs.Masks.{enables, enabled, is_wide as are_wide, good_mask as is_good, note_mask as is_allowed, all_rings as mask_of_all};
ghost use Rattle.ff_ids.specs.Notes.{is_leaving as leaves_by};
ghost use Rattle.ff_ids.specs.Views.{in_view_by};
ghost use Rattle.ff_ids.specs.Keys.{listed};

mod digits;
mod heal;
mod summary;
mod text;

pub use digits::{Digits, digit, digit_byte};
pub use heal::Heal;
use std::marker::Model;
pub use summary::{EntryList, RecordKey, Summary, SummaryEntry};

/// How many member numbers there are: they are 0 to 1,023.
pub const MEMBERS: u16 = 1024;

/// The greatest number of a member.
pub const LAST_MEMBER: u16 = MEMBERS - 1;

/// How many pages the member numbers have.
pub const PAGES: u8 = 32;

/// The greatest number of a page.
pub const LAST_PAGE: u8 = PAGES - 1;

/// How many members a page has.
pub const PAGE_MEMBERS: u16 = MEMBERS / PAGES as u16;

/// The greatest tolerance of a group. The rings and the accusations at most follow from it.
pub const MAX_TOLERANCE: u8 = 31;

/// How many rings a group has at most: 2t+1 at the greatest tolerance.
pub const MAX_RINGS: u8 = 2 * MAX_TOLERANCE + 1;

/// How many bits a mask has: one for each ring, and one more.
pub const MASK_BITS: u8 = 64;

/// A bit for each ring.
pub type Bits = u64;

/// All bits that a mask has.
pub const ALL_BITS: Bits = Bits::MAX;

/// How many accusations are kept at most: one against each member on each ring.
pub const MAX_ACCUSATIONS: u16 = MEMBERS * MAX_RINGS as u16;

/// The number of a member, 0 to 1,023. Contracts see it as that number.
#[derive(Clone, Copy, Debug, PartialEq, Eq, PartialOrd, Ord)]
pub struct MemberId {
    number: u16,
}

impl Model for MemberId {
    ghost use Rattle.std.specs.Prelude.{ℕ, ◌<◌};
    ghost use Rattle.ff_ids.specs.declared.TheConstants.{MEMBERS};

    ghost Value = { ℕ };

    ghost view = { λ m. m.number };

    ghost invariant = { λ m. m.number < MEMBERS };

    ghost inverse = { λ n. record { number = n } };
}

impl MemberId {
    pub fn new(number: u16) -> MemberId
        requires { number < MEMBERS }
        ensures { result ≡ number }
    {
        MemberId { number }
    }

    pub fn get(self) -> u16
        ensures value { result ≡ self }
        ensures range { result < MEMBERS }
    {
        self.number
    }
}

/// The epoch of a note, 1 to 18446744073709551615. Contracts see it as that number.
#[derive(Clone, Copy, Debug, PartialEq, Eq, PartialOrd, Ord)]
pub struct Epoch {
    number: u64,
}

impl Model for Epoch {
    ghost use Rattle.std.specs.Prelude.{ℕ, ◌<◌};

    ghost Value = { ℕ };

    ghost view = { λ e. e.number };

    ghost invariant = { λ e. 0 < e.number };

    ghost inverse = { λ n. record { number = n } };
}

impl Epoch {
    pub fn new(number: u64) -> Epoch
        requires { 0 < number }
        ensures { result ≡ number }
    {
        Epoch { number }
    }

    pub fn get(self) -> u64
        ensures value { result ≡ self }
        ensures range { 0 < result }
    {
        self.number
    }
}

/// The number of a ring. A group of tolerance t has the rings 0 to 2t; the type holds any value.
#[derive(Clone, Copy, Debug, PartialEq, Eq, PartialOrd, Ord)]
pub struct RingNo(pub u8);

/// The rings that a note enables: bit r stands for ring r. The type holds any value.
#[derive(Clone, Copy, Debug, PartialEq, Eq, PartialOrd, Ord)]
pub struct Mask(pub Bits);

/// What the members of one group agree on.
#[derive(Clone, Copy, Debug, PartialEq, Eq)]
pub struct Group {
    /// Tells this group's records from those of any other.
    pub tag: [u8; 16],
    /// How many of the 2t+1 rings a mask may disable, 1 to `MAX_TOLERANCE`.
    pub t: u8,
    /// For how many ticks an accusation stands before it removes, 1 to 10,000.
    pub timeout: u32,
    /// A node probes and gossips at each tick that is a multiple of it, 1 to 1,000.
    pub period: u32,
    /// How many pings in a row go unanswered before a member counts as silent, 1 to 16.
    pub misses: u8,
}

/// What a member says of itself: its epoch, and the rings on which it may be monitored.
#[derive(Clone, Copy, Debug, PartialEq, Eq)]
pub struct NoteBody {
    pub member: MemberId,
    pub epoch: Epoch,
    pub mask: Mask,
}

/// What a monitor says of a silent member: that it was silent at this epoch, on this ring.
#[derive(Clone, Copy, Debug, PartialEq, Eq)]
pub struct AccBody {
    pub accuser: MemberId,
    pub accused: MemberId,
    pub epoch: Epoch,
    pub ring: RingNo,
}

/// The bytes of a member's public key.
#[derive(Clone, Copy, Debug, PartialEq, Eq)]
pub enum KeyBytes {
    /// Those of a key of one level: 56 (RFC 8554, section 5.3).
    Lms([u8; 56]),
    /// Those of a key of two levels: 60 (RFC 8554, section 6.1).
    Hss([u8; 60]),
}

impl KeyBytes {
    /// The 56 or 60 bytes.
    pub fn as_slice(&self) -> &[u8]
        ensures value { result.now ≡ listed self.now }
        ensures few { length result.now ≤ 60 }
    {
        match self {
            KeyBytes::Lms(bytes) => bytes,
            KeyBytes::Hss(bytes) => bytes,
        }
    }
}

/// Why a record is refused. The first that holds, in the order of the rules, is the answer.
#[derive(Clone, Copy, Debug, PartialEq, Eq)]
pub enum Fault {
    /// The number has joined before.
    AlreadyMember,
    /// The member of the note, the accuser or the accused has not joined.
    UnknownMember,
    /// The mask enables a ring at or above 2t+1, or from 1 to t rings.
    BadMask,
    /// This certificate is kept, or this note is the newest of its member.
    Known,
    /// Another certificate is kept for the number, and these are its port and its key's bytes.
    OtherCertificate { port: u16, key: KeyBytes },
    /// The newest note of the member, whose epoch and mask these are, is greater.
    Older { epoch: Epoch, mask: Mask },
    /// The accuser is the accused.
    SelfAccusation,
    /// The ring is at or above 2t+1.
    BadRing,
    /// The accused has no note.
    NoNote,
    /// The newest note of the accused has this epoch, and not the accusation's.
    OtherEpoch { kept: Epoch },
    /// The accused is not in the view.
    NotInView,
    /// The newest note of the accused disables the ring.
    RingDisabled,
    /// The monitor of the accused on this ring is this one, or nobody.
    NotMonitor { monitor: Option<MemberId> },
    /// The same accusation is kept.
    Standing,
    /// The signature doesn't verify under the key of the record's author.
    BadSignature,
    /// A note of the observer itself that is greater than its newest. Both are given.
    OwnAhead { stored: NoteBody, seen: NoteBody },
}

impl NoteBody {
    /// Whether its member leaves by it: its mask is 0.
    pub fn is_leaving(&self) -> bool
        ensures { result ≡ leaves_by self.now }
    {
        self.mask.0 == 0
    }

    /// Whether its member is in the view where this is its newest note, given whether an accusation at its epoch
    /// or a later one has expired.
    #[tactic(auto, unfolding(crate::specs::Views::in_view_by))]
    pub fn in_view(&self, has_expired: bool) -> bool
        ensures { result ≡ in_view_by self.now has_expired }
    {
        !self.is_leaving() && !has_expired
    }
}

impl Mask {
    /// Whether the ring is enabled.
    pub fn enables(self, ring: RingNo) -> bool
        requires { ring.0 < MASK_BITS }
        ensures { result ≡ enables self.0 ring.0 }
    {
        (self.0 >> ring.0) % 2 == 1
    }
}

/// Whether four bytes don't hold the bits of a mask, or of the rings of a summary's entry: they are spelled in eight.
pub fn is_wide(bits: Bits) -> bool
    ensures { result ≡ are_wide bits }
{
    bits > Bits::from(u32::MAX)
}

/// How many of the first rings the mask enables, which enables no other.
fn enabled_below(mask: Mask, _rings: u8) -> u32
    requires { mask.0 < 2 ^ _rings }
    ensures { result ≡ length (enabled _rings mask.0) }
{
    mask.0.count_ones()
}

/// Whether a member may be monitored under this mask in a group of tolerance `t`: no ring at or above 2t+1 is enabled,
/// and at least t+1 rings are.
pub fn good_mask(t: u8, mask: Mask) -> bool
    requires { t ≤ MAX_TOLERANCE }
    ensures { result ≡ is_good t mask.0 }
{
    let rings = 2 * t + 1;
    mask.0 < (1 as Bits) << rings && enabled_below(mask, rings) > u32::from(t)
}

/// Whether a note may carry this mask in a group of tolerance `t`: a good one, or 0, by which its member leaves.
pub fn note_mask(t: u8, mask: Mask) -> bool
    requires { t ≤ MAX_TOLERANCE }
    ensures { result ≡ is_allowed t mask.0 }
{
    mask.0 == 0 || good_mask(t, mask)
}

/// The mask that enables all rings of a group of tolerance `t`.
pub fn all_rings(t: u8) -> Mask
    requires { t ≤ MAX_TOLERANCE }
    ensures value { result ≡ record { 0 = mask_of_all t } }
    ensures small { result.0 < 2 ^ MAX_RINGS }
{
    Mask((1 << (2 * t + 1)) - 1)
}
