//! Laws of a store's file: the contracts of functions that do nothing.

ghost use Rattle.std.specs.Prelude.{◌≡◌};
ghost use Rattle.epoch_store.specs.declared.seat.TheConstants.{NARROW_RINGS};
ghost use Rattle.epoch_store.specs.Laws.{HasFewEntries, HasRoom, IsBounded, IsOneStore, ReadsAsItIs};

/// What a file is said to be and what reading it finds are one, and a file is a store in one way.
pub fn file_is_as_read()
    ensures read { ReadsAsItIs }
    ensures one { IsOneStore }
{}

/// How long a store's file is up to its closed gate, and with it: `store_len` of its entries has room for it where at
/// most one of them moves it.
pub fn file_is_bounded()
    ensures few { HasFewEntries }
    ensures room { HasRoom }
    ensures bounded { IsBounded }
{}

/// A narrow entry holds the masks without a bit at or above 31, and no others.
pub fn narrow_masks_have_31_rings()
    ensures { NARROW_RINGS ≡ 31 }
{}
