//! The laws of records' bytes. The functions do nothing: what they ensure holds of all lists and records.

ghost use Rattle.std.specs.Prelude.{◌≡◌, ◌↔◌, ℕ, List, ◌++◌, length};
ghost use Rattle.records.specs.declared.Body.{Body};
ghost use Rattle.records.specs.declared.Record.{Record};
ghost use Rattle.records.specs.Spelling.{IsBody, IsRecord};
ghost use Rattle.records.specs.Signing.{signed_bytes, CheckedRecord, IsChecked};

/// No record's spelling begins another's. So what was written is read again, whatever follows it.
pub fn one_spelling()
    ensures { (a b x y : List ℕ) (r s : Record) → IsRecord a r → IsRecord b s → a ++ x ≡ b ++ y
        → (a ≡ b) × (r ≡ s) }
{}

/// The bytes that are signed determine the group's tag, its tolerance and the body.
pub fn signed_bytes_tell()
    ensures { (tag other : List ℕ) (t u : ℕ) (b c : Body) → length tag ≡ 16 → length other ≡ 16
        → IsBody b → IsBody c
        → signed_bytes tag t b ≡ signed_bytes other u c → (tag ≡ other) × (t ≡ u) × (b ≡ c) }
{}

/// What was checked in one group is what is signed in another exactly where tag and tolerance are the same.
pub fn checked_serves_its_group()
    ensures { (c : CheckedRecord) (tag : List ℕ) (t : ℕ) → IsChecked c → length tag ≡ 16
        → (signed_bytes tag t c.rec.body ≡ signed_bytes c.tag c.t c.rec.body)
        ↔ ((tag ≡ c.tag) × (t ≡ c.t)) }
{}
