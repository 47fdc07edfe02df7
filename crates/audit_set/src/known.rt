//! What an audit knows of a record that a node holds.

ghost use Rattle.std.specs.Prelude.{◌≡◌};
ghost use Rattle.audit_set.specs.Knowns.{body_of, long, shown};

use record_slots::{Learns, Slotted, body_length};
use records::{Body, Checked};

/// A record that the node signed with this index, whose signature no line has shown yet, or is known by its length
/// alone: so many bytes, or as many as it is taken to have.
#[derive(Clone, Copy, Debug, PartialEq, Eq)]
pub struct Unseen {
    pub index: u32,
    pub body: Body,
    pub length: u16,
}

/// What is known of a record.
#[derive(Drop)]
pub enum Known {
    /// The record came, and its signature was checked.
    Came(Checked),
    /// The node's own.
    Own(Unseen),
}

/// The signature with this index has so many bytes.
#[derive(Clone, Copy, Debug, PartialEq, Eq)]
pub struct Shown {
    pub index: u32,
    pub length: u16,
}

impl Slotted for Known {
    ghost body = { body_of };

    ghost spelled_length = { long };

    fn body(&self) -> &Body {
        match self {
            Known::Came(checked) => checked.body(),
            Known::Own(own) => &own.body,
        }
    }

    fn spelled_length(&self) -> usize {
        match self {
            Known::Came(checked) => checked.spelled_length(),
            Known::Own(own) => body_length(&own.body) + 2 + own.length as usize,
        }
    }
}

impl Learns for Known {
    type News = Shown;

    ghost learned = { shown };

    ghost use Rattle.audit_set.specs.Knowns.{shown_body};

    ghost same_body = { shown_body };

    fn learn(&mut self, news: &Shown) {
        if let Known::Own(own) = self {
            if own.index == news.index {
                own.length = news.length;
            }
        }
    }
}
