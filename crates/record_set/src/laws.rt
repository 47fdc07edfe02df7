//! The laws of what is held, of pages and of picks. The functions do nothing: what they ensure holds of all that
//! may be held.

ghost use Rattle.std.specs.Prelude.{◌≡◌, ℕ, ◌<◌, List, All};
ghost use Rattle.std.specs.FinMap.{contains_key};
ghost use Rattle.ff_ids.specs.declared.TheConstants.{MAX_RINGS, PAGES};
ghost use Rattle.ff_ids.specs.Masks.{enables};
ghost use Rattle.ff_ids.specs.Summaries.{IsSummary};
ghost use Rattle.ff_ids.specs.declared.summary.RecordKey.TheVariants.{Accusation};
ghost use Rattle.records.specs.Signing.{CheckedRecord as Signed};
ghost use Rattle.record_set.specs.Held.{Held};
ghost use Rattle.record_set.specs.Pages.{rings_of, summary_of, IsHeldEntry, AreNoted};
ghost use Rattle.record_set.specs.Picks.{fitting, IsLongestFit};

/// The rings of an entry are those on which an accusation is held.
pub fn rings_are_those_accused_on()
    ensures { (held : Held) (m r : ℕ) → r < MAX_RINGS
        → enables (rings_of held m) r ≡ contains_key held (Accusation m (record { 0 = r })) }
{}

/// What a summary names is held.
pub fn what_is_named_is_held()
    ensures { (held : Held) (page : ℕ) → All (IsHeldEntry held) (summary_of held page).listed }
{}

/// The summary of a page can be sent, where each who is accused has a note.
pub fn a_page_is_a_summary()
    ensures { (held : Held) (page : ℕ) → AreNoted held → page < PAGES
        → IsSummary (summary_of held page) }
{}

/// So many are the longest front that fits.
pub fn what_fits_is_longest()
    ensures { (room : ℕ) (records : List Signed)
        → IsLongestFit room records (fitting room records) }
{}
