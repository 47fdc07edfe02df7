//! What one node says of the members of a page, so that another can tell what it lacks.

ghost use Rattle.std.specs.Prelude.{◌≡◌, ◌<◌, [], ◌∷◌, ◌++◌, length};

use crate::{Bits, Mask, MemberId, PAGE_MEMBERS, RingNo};
use std::marker::Model;

/// What one node holds of one member.
#[derive(Clone, Copy, Debug, PartialEq, Eq)]
pub struct SummaryEntry {
    pub member: MemberId,
    /// The epoch of its newest note, or 0 where there is no note of it.
    pub epoch: u64,
    /// The mask of its newest note, or 0 where there is no note of it.
    pub mask: Mask,
    /// Bit r is set where an accusation against it on ring r is kept.
    pub rings: Bits,
}

/// Up to `PAGE_MEMBERS` entries in the order in which they were pushed. Contracts see their list.
#[derive(Drop, Debug)]
pub struct EntryList {
    slots: [SummaryEntry; PAGE_MEMBERS as usize],
    held: usize,
}

impl Model for EntryList {
    ghost use Rattle.std.specs.Prelude.{List, ◌≤◌, take};
    ghost use Rattle.ff_ids.specs.declared.TheConstants.{PAGE_MEMBERS};
    ghost use Rattle.ff_ids.specs.declared.summary.SummaryEntry.{SummaryEntry};

    ghost Value = { List SummaryEntry };

    ghost view = { λ l. take l.held l.slots };

    ghost invariant = { λ l. l.held ≤ PAGE_MEMBERS };
}

impl EntryList {
    fn new() -> EntryList
        ensures { result ≡ [] }
    {
        let nobody = SummaryEntry {
            member: MemberId::new(0),
            epoch: 0,
            mask: Mask(0),
            rings: 0,
        };
        EntryList {
            slots: [nobody; PAGE_MEMBERS as usize],
            held: 0,
        }
    }

    fn push(&mut self, entry: SummaryEntry)
        requires { length self.old < PAGE_MEMBERS }
        ensures { self.new ≡ self.old ++ entry ∷ [] }
    {
        self.slots[self.held] = entry;
        self.held += 1;
    }

    fn as_slice(&self) -> &[SummaryEntry]
        ensures { result.now ≡ self.now }
    {
        &self.slots[..self.held]
    }
}

/// Which of the pages it is about, and an entry for each certified member of the page, in order of number. The
/// type holds any page and up to `PAGE_MEMBERS` entries of any order.
#[derive(Drop, Debug)]
pub struct Summary {
    pub page: u8,
    pub listed: EntryList,
}

impl Summary {
    /// Of page 0, without entries.
    pub fn new() -> Summary
        ensures page { result.page ≡ 0 }
        ensures none { result.listed ≡ [] }
    {
        Summary {
            page: 0,
            listed: EntryList::new(),
        }
    }

    /// Appends the entry. Fewer than `PAGE_MEMBERS` are held.
    pub fn push(&mut self, entry: SummaryEntry)
        requires { length self.old.listed < PAGE_MEMBERS }
        ensures page { self.new.page ≡ self.old.page }
        ensures pushed { self.new.listed ≡ self.old.listed ++ entry ∷ [] }
    {
        self.listed.push(entry);
    }

    /// The entries, in the order in which they were pushed.
    pub fn entries(&self) -> &[SummaryEntry]
        ensures { result.now ≡ self.now.listed }
    {
        self.listed.as_slice()
    }
}

/// What tells one kept record from another.
#[derive(Clone, Copy, Debug, PartialEq, Eq)]
pub enum RecordKey {
    /// The certificate of this member.
    Certificate(MemberId),
    /// The newest note of this member.
    Note(MemberId),
    /// The accusation against this member on this ring.
    Accusation(MemberId, RingNo),
    /// The accusation by which this member was removed.
    Removal(MemberId),
}
