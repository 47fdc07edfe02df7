//! Members as they were last written. While they stay the same, their text is copied.

ghost use Rattle.std.specs.Prelude.{◌≡◌, ◌++◌, true, OnOk};
ghost use Rattle.life_events.specs.Events.{members_text};

use crate::number::write_bytes;
use crate::write_members;
use ff_ids::MemberId;
use fields::NoMemory;
use std::alloc::Global;
use std::marker::Model;

/// Some members, and whether their text is kept.
#[derive(Drop)]
pub struct Told {
    members: Vec<MemberId>,
    text: Vec<u8>,
    is_kept: bool,
}

impl Model for Told {
    ghost use Rattle.std.specs.Prelude.{ℕ, List, ◌≡◌, true};
    ghost use Rattle.life_events.specs.Events.{members_text};

    ghost Value = { List ℕ };

    ghost view = { λ t. t.members.items };

    ghost invariant = { λ t. t.is_kept ≡ true → t.text.items ≡ members_text t.members.items };
}

/// Whether the two lists are one.
fn are_same(one: &[MemberId], other: &[MemberId]) -> bool
    ensures { result ≡ true → one.now ≡ other.now }
{
    one == other
}

/// Makes the one a copy of the members, and the other their text.
fn renew(members: &[MemberId], copy: &mut Vec<MemberId>, text: &mut Vec<u8>) -> Result<(), NoMemory>
    ensures copy { OnOk result (copy.new.items ≡ members.now) }
    ensures text { OnOk result (text.new.items ≡ members_text members.now) }
{
    copy.clear();
    copy.extend_from_slice(members)?;
    text.clear();
    write_members(members, text)
}

impl Told {
    /// Nothing was written.
    pub fn new(alloc: Global) -> Told {
        Told {
            members: Vec::new(alloc),
            text: Vec::new(alloc),
            is_kept: false,
        }
    }

    /// Adds the text of the members, as `write_members` does.
    pub fn write(&mut self, members: &[MemberId], out: &mut Vec<u8>) -> Result<(), NoMemory>
        ensures { OnOk result (out.new.items ≡ out.old.items ++ members_text members.now) }
    {
        if self.is_kept && are_same(&self.members, members) {
            return write_bytes(&self.text, out);
        }
        self.is_kept = false;
        renew(members, &mut self.members, &mut self.text)?;
        self.is_kept = true;
        write_bytes(&self.text, out)
    }
}
