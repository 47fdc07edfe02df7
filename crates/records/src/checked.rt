//! Records whose signature was checked.

ghost use Rattle.std.specs.Prelude.{◌≡◌, ◌↔◌, IsOk, IfOk, IfErr, Ok, Err};
ghost use Rattle.records.specs.Keys.{verdict_of};
ghost use Rattle.records.specs.Spelling.{HasPort, IsBody};
ghost use Rattle.records.specs.Signing.{IsSigned, IsChecked, signed_bytes};

use crate::signing::signed_bytes;
use crate::{Key, Record, RecordFault};
use ff_ids::Group;
use std::marker::Model;

/// A record whose signature verifies under the key that it holds, over its signed bytes in the group of the tag
/// and the tolerance that it holds. There is no other way to one than a check, or a signature by that key.
#[derive(Drop)]
pub struct Checked {
    record: Record,
    key: Key,
    tag: [u8; 16],
    t: u8,
}

impl Model for Checked {
    ghost use Rattle.records.specs.Signing.{CheckedRecord, IsChecked};

    ghost Value = { CheckedRecord };

    ghost view = { λ c. record { rec = c.record; key = c.key; tag = c.tag; t = c.t } };

    ghost invariant = { λ c. IsChecked
        (record { rec = c.record; key = c.key; tag = c.tag; t = c.t }) };
}

impl Checked {
    /// Checks the record's signature under the key, in the group. Where it isn't good the record is handed back
    /// with the fault.
    pub fn new(group: &Group, key: &Key, rec: Record) -> Result<Checked, (Record, RecordFault)>
        requires { HasPort rec.body }
        ensures ok { IfOk result
            (λ c. c ≡ record
            { rec = rec; key = key.now; tag = group.now.tag; t = group.now.t }) }
        ensures decides { IsOk result ↔ IsSigned key.now group.now.tag group.now.t rec }
        ensures fault { IfErr result
            (λ e. (e.0 ≡ rec)
            × (verdict_of key.now (signed_bytes group.now.tag group.now.t rec.body) rec.signature
            ≡ Err e.1)) }
    {
        let signed = signed_bytes(group, &rec.body);
        match key.verify(signed.as_slice(), rec.signature.as_slice()) {
            Ok(()) => Ok(Checked::from_signed(group, key, rec)),
            Err(fault) => Err((rec, fault)),
        }
    }

    /// The same of a record that was signed by the key in the group. Nothing is checked.
    pub fn from_signed(group: &Group, key: &Key, rec: Record) -> Checked
        requires body { IsBody rec.body }
        requires signed { IsSigned key.now group.now.tag group.now.t rec }
        ensures { result ≡ record
            { rec = rec; key = key.now; tag = group.now.tag; t = group.now.t } }
    {
        Checked {
            record: rec,
            key: *key,
            tag: group.tag,
            t: group.t,
        }
    }

    /// The record.
    pub fn rec(&self) -> &Record
        ensures value { result.now ≡ self.now.rec }
        ensures checked { IsChecked self.now }
    {
        &self.record
    }

    /// The key under which its signature verifies.
    pub fn key(&self) -> &Key
        ensures { result.now ≡ self.now.key }
    {
        &self.key
    }
}
