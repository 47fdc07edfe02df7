//! The seats of a store's entries, and the places in the file that follow from the first one.

ghost use Rattle.std.specs.Prelude.{◌≡◌, ◌+◌, ◌<◌, ◌≤◌, ◌^◌};
ghost use Rattle.epoch_store.specs.Seat.{behind as seat_behind_it, entry_for as put_entry, first_seat, needs_wide as mask_needs_wide, store_length, width as width_of};

use crate::Stored;
use crate::entry::Entry;
use ff_ids::{Bits, Mask};

/// How many bytes the header and the tag have.
pub(crate) const HEAD_LEN: usize = 40;

/// The place of the tag in the header.
pub(crate) const TAG_PLACE: usize = 8;

/// How many bytes a gate and a wide entry have.
pub(crate) const WIDE_LEN: usize = 21;

/// How many bytes a gate and a narrow entry have.
const NARROW_LEN: usize = 17;

/// How many bytes stand behind a migration entry's mark: a tag and a mask.
pub(crate) const MOVED_LEN: usize = 40;

/// No narrow entry holds a mask with a bit at or above this one.
pub(crate) const NARROW_RINGS: u8 = 31;

/// Where the next entry of a store goes.
#[derive(Clone, Copy, Debug, PartialEq, Eq)]
pub struct Seat {
    /// The place of the closed gate in front of it.
    pub gate: u64,
    /// Whether its mask has eight bytes, and not four.
    pub wide: bool,
    /// The tag that is in force.
    pub tag: [u8; 32],
    /// The place of that tag in the file.
    pub tag_place: u64,
}

/// Whether no narrow entry holds the mask.
pub(crate) fn needs_wide(mask: Mask) -> bool
    ensures { result ≡ mask_needs_wide mask.0 }
{
    mask.0 >= (1 as Bits) << NARROW_RINGS
}

impl Seat {
    /// The first one of a file whose header has this tag.
    pub(crate) fn first(wide: bool, tag: &[u8; 32]) -> Seat
        ensures { result ≡ first_seat wide tag.now }
    {
        Seat {
            gate: HEAD_LEN as u64,
            wide,
            tag: *tag,
            tag_place: TAG_PLACE as u64,
        }
    }

    /// How many bytes its gate and its entry have.
    pub(crate) fn width(self) -> usize
        ensures value { result ≡ width_of self }
        ensures few { result ≤ 21 }
        ensures some { 17 ≤ result }
    {
        if self.wide { WIDE_LEN } else { NARROW_LEN }
    }

    /// The entry by which this state is put: where a narrow store gets a mask that no narrow entry holds, a migration
    /// entry with the tag in force.
    pub(crate) fn entry_for(self, state: Stored) -> Entry
        ensures { result ≡ put_entry self state }
    {
        let stays = self.wide || !needs_wide(state.mask);
        Entry {
            kept: state,
            moved: if stays { None } else { Some(self.tag) },
        }
    }

    /// The one behind an entry. What follows a migration entry is wide, and its tag is in force.
    pub(crate) fn behind(self, entry: Entry) -> Seat
        requires { self.gate < 2 ^ 32 }
        ensures { result ≡ seat_behind_it self entry }
    {
        let gate = self.gate + self.width() as u64;
        match entry.moved {
            None => Seat { gate, ..self },
            Some(tag) => Seat {
                gate: gate + MOVED_LEN as u64,
                wide: true,
                tag,
                tag_place: gate,
            },
        }
    }
}

/// Room for a file of so many entries, of which at most one is a migration entry, and a closed gate behind them:
/// `laws::file_is_bounded` says so.
pub fn store_len(entries: usize) -> usize
    requires { entries ≤ 2 ^ 20 }
    ensures { result ≡ store_length entries }
{
    HEAD_LEN + WIDE_LEN * entries + MOVED_LEN + 1
}
