//! The lines of the direct form.

ghost use Rattle.std.specs.Prelude.{◌≡◌};

use ff_ids::{AccBody, MemberId, NoteBody, RingNo};
use std::marker::Model;

/// One line of a schedule in the direct form.
#[derive(Debug, Drop)]
pub enum DirectLine {
    /// `fireflies 1 direct`
    Header,
    /// `group T TIMEOUT`: the tolerance, 1 to 31, and the timeout in ticks, 1 to 10,000.
    Group { t: u8, timeout: u32 },
    /// `member M P0 P1 ..`: a member, and its place on each of the 2t+1 rings.
    Member { member: MemberId, places: PlaceList },
    /// `note M EPOCH MASK`
    Note(NoteBody),
    /// `accuse ACCUSER ACCUSED EPOCH RING`: the ring is 0 to 255.
    Accuse(AccBody),
    /// `tick N`: 1 to 10,000 ticks.
    Tick(u32),
    /// `view`
    View,
    /// `monitor RING M`: the ring is 0 to 2t.
    Monitor { ring: RingNo, member: MemberId },
    /// `life`: a new life begins.
    Life,
    /// `end`
    End,
}

/// The places of a member, one for each ring from ring 0 on. Contracts see the list of them.
#[derive(Debug, Drop)]
pub struct PlaceList {
    places: Vec<u32>,
}

impl Model for PlaceList {
    ghost use Rattle.std.specs.Prelude.{ℕ, List};

    ghost Value = { List ℕ };

    ghost view = { λ p. p.places.items };
}

impl PlaceList {
    pub fn new(places: Vec<u32>) -> PlaceList
        ensures { result ≡ places.items }
    {
        PlaceList { places }
    }

    pub fn as_slice(&self) -> &[u32]
        ensures { result.now ≡ self.now }
    {
        self.places.as_slice()
    }

    pub fn into_vec(self) -> Vec<u32>
        ensures { result.items ≡ self }
    {
        self.places
    }
}

/// The first words of the lines below the header.
#[derive(Clone, Copy, Debug, PartialEq, Eq)]
pub enum LineWord {
    Group,
    Member,
    Note,
    Accuse,
    Tick,
    View,
    Monitor,
    Life,
    End,
}
