//! The test for forged records: whether one verifies under the key of the authority or of a node, and was never signed with
//! it.

ghost use Rattle.std.specs.Prelude.{◌≡◌, ◌<◌, ◌++◌, ◌∷◌, [], ℕ, List, Ok, Some, None, false, bytes_eq, All, IfOk, IfSome, OnOk, find, length};
ghost use Rattle.std.specs.List.{list_any};
ghost use Rattle.std.specs.Option.{option_and_then};
ghost use Rattle.std.specs.Result.{is_ok};
ghost use Rattle.datagram.specs.Grammar.{GivesDatagram, read_of};
ghost use Rattle.datagram.specs.Spelling.{IsSignedRecord, IsWritable as IsSendable, KeepsRules};
ghost use Rattle.records.specs.Keys.{verdict_of};
ghost use Rattle.records.specs.Signing.{signed_bytes as signed_bytes_of};
ghost use Rattle.records.specs.Spelling.{IsWritable, record_bytes};
ghost use Rattle.world_rules.specs.Forgeries.{first_forgery, forgery, forgery_by, forgery_in, is_forged_for};
ghost use Rattle.world_rules.specs.Settings.{Setting, nodes};
ghost use Rattle.world_rules.specs.Steps.{NodeEvent};
ghost use Rattle.world_rules.specs.Worlds.{World as ModelWorld};
ghost use Rattle.world.specs.Courses.{IsPlace, Tests};
ghost use Rattle.world.specs.Holding.{Holds, numbers};
ghost use Rattle.world.specs.Testing.{IsForged, forged_in};

use crate::{World, WorldFault};
use datagram::Datagram;
use ff_ids::{Group, MemberId};
use fields::NoMemory;
use indexmap::IndexSet;
use records::{FormFault, Key, Record, signed_bytes, write_record};
use std::alloc::Global;
use std::marker::Model;

/// The spellings of records that were tested and are not forged. None is ever, since what is signed stays so.
#[derive(Drop)]
pub struct Tested {
    spelled: IndexSet<Vec<u8>>,
}

impl Model for Tested {
    ghost use Rattle.std.specs.Prelude.{ℕ, List, map};

    ghost Value = { List (List ℕ) };

    ghost view = { λ t. map (λ k. k.items) t.spelled.keys };
}

impl Tested {
    /// Nothing was tested.
    pub fn new(alloc: Global) -> Tested
        ensures { result ≡ [] }
    {
        Tested {
            spelled: IndexSet::new(alloc),
        }
    }

    fn contains(&self, spelled: &[u8]) -> bool
        ensures { result ≡ list_any (bytes_eq spelled.now) self.now }
    {
        self.spelled.contains(spelled)
    }

    /// Puts a spelling that isn't there.
    fn put(&mut self, spelled: Vec<u8>) -> Result<(), NoMemory>
        requires { list_any (bytes_eq spelled.items) self.old ≡ false }
        ensures { OnOk result (self.new ≡ self.old ++ spelled.items ∷ []) }
    {
        self.spelled.insert(spelled)?;
        Ok(())
    }
}

fn spelled(alloc: Global, rec: &Record) -> Result<Vec<u8>, NoMemory>
    requires { IsWritable rec.now }
    ensures { IfOk result (λ bytes. bytes.items ≡ record_bytes rec.now) }
{
    let mut bytes = Vec::new(alloc);
    write_record(rec, &mut bytes)?;
    Ok(bytes)
}

/// Whether the record's signature is one of this key, in the group.
fn verifies(group: &Group, key: &Key, rec: &Record) -> bool
    ensures { result ≡ is_ok
        (verdict_of key.now (signed_bytes_of group.now.tag group.now.t rec.now.body)
        rec.now.signature) }
{
    let signed = signed_bytes(group, &rec.body);
    key.verify(signed.as_slice(), rec.signature.as_slice())
        .is_ok()
}

impl World {
    /// Whether the record is forged for the authority.
    fn is_forged_for_authority(&self, rec: &Record) -> bool
        ensures { (s : Setting) (w : ModelWorld) (told : List NodeEvent) → Holds s w told self.now
            → result ≡ is_forged_for s w rec.now None }
    {
        !self.authority.has_signed(&rec.body)
            && verifies(
                self.authority.group(),
                &Key::Lms(*self.authority.key()),
                rec,
            )
    }

    /// Whether the record is forged for the node at this host.
    fn is_forged_at(&self, at: usize, rec: &Record) -> bool
        requires { at < length self.now.hosts }
        ensures { (s : Setting) (w : ModelWorld) (told : List NodeEvent) (m : ℕ)
            → Holds s w told self.now → IsPlace self.now at m
            → result ≡ is_forged_for s w rec.now (Some m) }
    {
        let host = &self.hosts[at];
        !host.has_signed(&rec.body) && verifies(self.authority.group(), host.public(), rec)
    }

    /// The first node for which the record is forged.
    fn forged_node(&self, rec: &Record) -> Option<MemberId>
        ensures { (s : Setting) (w : ModelWorld) (told : List NodeEvent) → Holds s w told self.now
            → result ≡ find (λ m. is_forged_for s w rec.now (Some m)) (nodes s) }
    {
        for at in 0..self.hosts.len() {
            if self.is_forged_at(at, rec) {
                return Some(self.hosts[at].member());
            }
        }
        None
    }

    /// For whom the record is forged, if it is: the authority comes first, and then the nodes in order of number.
    fn forgery_of(&self, rec: &Record) -> Option<WorldFault>
        ensures value { (s : Setting) (w : ModelWorld) (told : List NodeEvent)
            → Holds s w told self.now → option_and_then forged_in result ≡ forgery_by s w rec.now }
        ensures cause { IfSome result IsForged }
    {
        let body = rec.body;
        if self.is_forged_for_authority(rec) {
            return Some(WorldFault::Forged { who: None, body });
        }
        let who = self.forged_node(rec)?;
        Some(WorldFault::Forged {
            who: Some(who),
            body,
        })
    }

    fn test_record(&mut self, rec: &Record) -> Result<(), WorldFault>
        requires writable { IsWritable rec.now }
        requires signed { IsSignedRecord rec.now }
        ensures numbers { numbers self.new ≡ numbers self.old }
        ensures tests { (s : Setting) (w : ModelWorld) (told : List NodeEvent)
            → Holds s w told self.old → Tests s w told self.new (forgery_by s w rec.now) result }
    {
        let spelled = spelled(self.alloc, rec)?;
        if self.tested.contains(&spelled) {
            return Ok(());
        }
        if let Some(forged) = self.forgery_of(rec) {
            return Err(forged);
        }
        self.tested.put(spelled)?;
        Ok(())
    }

    fn test_all(&mut self, records: &[Record]) -> Result<(), WorldFault>
        requires writable { All IsWritable records.now }
        requires signed { All IsSignedRecord records.now }
        ensures numbers { numbers self.new ≡ numbers self.old }
        ensures tests { (s : Setting) (w : ModelWorld) (told : List NodeEvent)
            → Holds s w told self.old
            → Tests s w told self.new (first_forgery s w records.now) result }
    {
        for rec in records {
            let tested = self.test_record(rec);
            if tested.is_err() {
                return tested;
            }
        }
        Ok(())
    }

    fn test_datagram(&mut self, datagram: &Datagram) -> Result<(), WorldFault>
        requires writable { IsSendable datagram.now }
        requires rules { KeepsRules datagram.now }
        ensures numbers { numbers self.new ≡ numbers self.old }
        ensures tests { (s : Setting) (w : ModelWorld) (told : List NodeEvent)
            → Holds s w told self.old
            → Tests s w told self.new (forgery_in s w (Ok datagram.now)) result }
    {
        match datagram {
            Datagram::Records { records, .. } => self.test_all(records.as_slice()),
            _ => Ok(()),
        }
    }

    /// Refuses what was read of the bytes of a datagram, if a record in it is forged.
    pub(crate) fn test(&mut self, heard: &Result<Datagram, FormFault>) -> Result<(), WorldFault>
        requires writable { IfOk heard.now (λ d. IsSendable d) }
        requires rules { IfOk heard.now (λ d. KeepsRules d) }
        ensures numbers { numbers self.new ≡ numbers self.old }
        ensures tests { (bytes : List ℕ) → GivesDatagram (read_of bytes) heard.now
            → (s : Setting) (w : ModelWorld) (told : List NodeEvent)
            → Holds s w told self.old → Tests s w told self.new (forgery s w bytes) result }
    {
        match heard {
            Ok(datagram) => self.test_datagram(datagram),
            Err(FormFault::BadForm { .. }) => Ok(()),
            Err(FormFault::OutOfMemory) => Err(WorldFault::OutOfMemory),
        }
    }
}
