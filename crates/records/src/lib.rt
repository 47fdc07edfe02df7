//! Floor: keys. Certificates, notes and accusations with their signatures: their bytes both ways, what is signed of
//! them, and as a type of its own the record whose signature was checked. Any crate above may call it.
#![tactic(auto)]

ghost use Rattle.std.specs.Prelude.{◌≡◌};

pub use checked::Checked;
pub use fault::FormFault;
pub use keys::{Key, KeyFault, RecordFault};
pub use reading::{next_record, pass_record, read_record};
pub use signing::{Signed, signed_bytes};
pub use writing::write_record;

mod checked;
mod fault;
mod keys;
pub mod laws;
mod reading;
mod signing;
pub mod steps;
mod writing;

use ff_ids::{AccBody, MemberId, NoteBody};
use fields::Bytes;
use std::marker::Model;

/// What the authority says of a member: its port on 127.0.0.1, at least 1, and its public key. Each call that
/// is given one has this condition on the port.
#[derive(Clone, Copy, Debug, PartialEq, Eq)]
pub struct CertBody {
    pub member: MemberId,
    pub port: u16,
    pub key: Key,
}

/// What is signed.
#[derive(Clone, Copy, Debug, PartialEq, Eq)]
pub enum Body {
    Certificate(CertBody),
    Note(NoteBody),
    Accusation(AccBody),
}

/// A body and a signature over it, of 1 to 9,004 bytes where the record is written.
#[derive(Drop, Debug)]
pub struct Record {
    pub body: Body,
    pub signature: Bytes,
}

/// Records in order, which contracts see as their list.
#[derive(Drop, Debug)]
pub struct RecordList {
    records: Vec<Record>,
}

impl Model for RecordList {
    ghost use Rattle.std.specs.Prelude.{List};
    ghost use Rattle.records.specs.declared.Record.{Record};

    ghost Value = { List Record };

    ghost view = { λ l. l.records.items };
}

impl RecordList {
    pub fn from_vec(records: Vec<Record>) -> RecordList
        ensures { result ≡ records.items }
    {
        RecordList { records }
    }

    pub fn into_vec(self) -> Vec<Record>
        ensures { result.items ≡ self }
    {
        let RecordList { records } = self;
        records
    }

    pub fn as_slice(&self) -> &[Record]
        ensures { result.now ≡ self.now }
    {
        self.records.as_slice()
    }
}
