//! What the slots ask of that which they keep.

ghost use Rattle.std.specs.Prelude.{◌≡◌, ℕ, length};
ghost use Rattle.records.specs.declared.Body.{Body as BodyOf};
ghost use Rattle.records.specs.Spelling.{record_bytes};

use crate::lengths::spelled_length;
use records::{Body, Checked};

/// What may be kept of a record: it tells what the record says, and how long it is.
pub trait Slotted: Drop {
    /// What the record says.
    ghost body: { Self → BodyOf };

    /// How many bytes the record's spelling has.
    ghost spelled_length: { Self → ℕ };

    /// What the record says.
    fn body(&self) -> &Body
        ensures { result.now ≡ body self.now };

    /// How many bytes the record's spelling has.
    fn spelled_length(&self) -> usize
        ensures { result ≡ spelled_length self.now };
}

/// What is kept, and learns more of its record while it is held.
pub trait Learns: Slotted {
    type News;

    /// What is kept behind the news.
    ghost learned: { Self.News → Self → Self };

    /// Learns the news.
    fn learn(&mut self, news: &Self::News)
        ensures { self.new ≡ learned news.now self.old };

    /// What the record says stays.
    ghost same_body: { (n : Self.News) (x : Self) → Self.body (learned n x) ≡ Self.body x };
}

impl Slotted for Checked {
    ghost body = { λ c. c.rec.body };

    ghost spelled_length = { λ c. length (record_bytes c.rec) };

    fn body(&self) -> &Body {
        &self.rec().body
    }

    fn spelled_length(&self) -> usize {
        spelled_length(self.rec())
    }
}
