//! Floor: keys. A signer: records signed under one key, each with an index of its own, whatever stops it. The store is
//! past an index before the index signs. The module `key_lives` takes a key through calls in any order, and shows what
//! is promised over all its lives. A node signs with it, and `authority` with the authority's key.
#![tactic(auto)]

ghost use Rattle.std.specs.Prelude.{◌≡◌, ℕ, ◌+◌, ◌<◌, ◌≤◌, ◌^◌, ◌++◌, List, length, true, false, OnOk, IfOk, IfErr};
ghost use Rattle.ff_ids.specs.declared.TheConstants.{MAX_RINGS};
ghost use Rattle.ports.specs.Count.{counted};
ghost use Rattle.ports.specs.Disk.{Moment, Since};
ghost use Rattle.records.specs.Spelling.{HasPort};
ghost use Rattle.records.specs.declared.Body.TheVariants.{Certificate, Accusation};
ghost use Rattle.sign_keys.specs.Keys.{IsOfOneKey, IsPrepared, index_count, next_of, secret_of, signature_length};
ghost use Rattle.epoch_store.specs.Store.{IsSettled, LeavesEither, LeavesState};
ghost use Rattle.epoch_store.specs.Asked.{put_calls};
ghost use Rattle.signer.specs.declared.SignFault.TheVariants.{OutOfMemory};
ghost use Rattle.signer.specs.Signing.{SignerState, stored_after as stored_after_it, MayComeNext, next_note, AnswersBy, is_store_fault, after_signing, signed_by, signed_record, OnIdle};
ghost use Rattle.signer.specs.Lives.{Spent, IsLiving, EndsNow};
ghost use Rattle.signer.specs.Signs.{Signs, MakesCalls, MakesFrom};

pub use sign_keys::SignKey;

pub mod key_lives;
pub mod laws;

use epoch_store::{Store, Stored};
use ff_ids::{AccBody, Epoch, Group, Mask, MemberId, NoteBody};
use fields::Bytes;
use ports::Disk;
use records::{Body, CertBody, Checked, Record, signed_bytes};
use std::alloc::Global;
use std::marker::Model;
use thiserror::Error;

/// Why nothing was signed. No index was spent.
#[derive(Clone, Copy, Debug, PartialEq, Eq, Error)]
pub enum SignFault {
    #[error("out of memory")]
    OutOfMemory,
    /// An earlier call answered `StoreFault`.
    #[error("the store failed earlier")]
    Closed,
    #[error("the key has no leaf from {next} on")]
    Exhausted { next: u32 },
    /// The store is to be opened again.
    #[error("the store failed")]
    StoreFault,
}

/// A key with its store. Contracts see the group, the key, its next index, what the store keeps, and
/// whether the store has failed.
#[derive(Drop)]
pub struct Signer {
    group: Group,
    key: SignKey,
    store: Store,
    closed: bool,
}

impl Model for Signer {
    ghost use Rattle.std.specs.Prelude.{◌≡◌, ◌≤◌, false};
    ghost use Rattle.sign_keys.specs.Keys.{IsOfOneKey, index_count, next_of, secret_of};
    ghost use Rattle.signer.specs.Signing.{SignerState};

    ghost Value = { SignerState };

    ghost view = { λ s. record {
      group = s.group;
      key = secret_of s.key;
      leaf = next_of s.key;
      state = s.store.state;
      seat = s.store.seat;
      closed = s.closed;
    } };

    ghost invariant = { λ s. (s.store.failed ≡ s.closed) × IsOfOneKey s.key
        × (next_of s.key ≡ s.store.state.next)
        × (s.store.state.next ≤ index_count (secret_of s.key)) };
}

/// So many zeros.
fn zeros(alloc: Global, count: usize) -> Result<Vec<u8>, SignFault>
    ensures ok { IfOk result (λ bytes. length bytes.items ≡ count) }
    ensures memory { IfErr result (λ e. e ≡ OutOfMemory) }
{
    match vec![in alloc; 0; count] {
        Ok(bytes) => Ok(bytes),
        Err(_) => Err(SignFault::OutOfMemory),
    }
}

/// What the store keeps once the body is signed.
fn stored_after(state: Stored, body: &Body) -> Stored
    requires { state.next < 32768 }
    ensures { result ≡ stored_after_it state body.now }
{
    let next = state.next + 1;
    match body {
        Body::Note(note) => Stored {
            next,
            epoch: note.epoch.get(),
            mask: note.mask,
        },
        Body::Certificate(_) | Body::Accusation(_) => Stored {
            next,
            epoch: state.epoch,
            mask: state.mask,
        },
    }
}

impl Signer {
    /// A signer with a key and its store, on which no put has failed. The key is not past the store's next index, and
    /// skips to it; it has that many indexes.
    pub fn open(group: Group, key: SignKey, store: Store) -> Signer
        requires key { IsOfOneKey key }
        requires runs { store.failed ≡ false }
        requires behind { next_of key ≤ store.state.next }
        requires within { store.state.next ≤ index_count (secret_of key) }
        ensures begins { (tag before : List ℕ) (spent : List Spent) (moments : List Moment)
            → IsSettled tag store.state store.seat moments
            → EndsNow tag before spent moments → IsLiving tag before spent result moments }
        ensures value { result ≡ record {
          group = group;
          key = secret_of key;
          leaf = store.state.next;
          state = store.state;
          seat = store.seat;
          closed = false;
        } }
    {
        let mut key = key;
        key.skip_to(store.state().next);
        Signer {
            group,
            key,
            store,
            closed: false,
        }
    }

    /// What the store keeps.
    pub fn state(&self) -> Stored
        ensures { result ≡ self.now.state }
    {
        self.store.state()
    }

    /// Signs a note of this member and mask, with the epoch after the one that the store keeps. The mask has no
    /// bit at or above `MAX_RINGS`.
    ///
    /// The disk is the one on which the store was opened, and since then only this signer's calls have changed
    /// the file. Takes the signature's memory first, and, of a key of two levels, makes the bottom tree that is due;
    /// then puts the next index, and only then takes the index and signs. `Closed` exactly where an earlier call
    /// answered `StoreFault`, else `Exhausted` exactly where no index is left; after these, and after want of memory,
    /// nothing has changed. A call that makes a bottom tree takes as long as its leaves do, and its memory may be
    /// refused where neither of the two is answered.
    pub fn sign_note<D: Disk>(
        &mut self,
        alloc: Global,
        disk: &mut D,
        member: MemberId,
        mask: Mask,
    ) -> Result<Checked, SignFault>
        requires { mask.0 < 2 ^ MAX_RINGS }
        ensures { Signs self.old self.new (next_note self.old.state member mask) result
            (D.state disk.old) (D.state disk.new) }
    {
        let epoch = Epoch::new(self.store.state().epoch + 1);
        self.sign(
            alloc,
            disk,
            Body::Note(NoteBody {
                member,
                epoch,
                mask,
            }),
        )
    }

    /// Signs an accusation, as a note is signed; the store's epoch and mask stay.
    pub fn sign_accusation<D: Disk>(
        &mut self,
        alloc: Global,
        disk: &mut D,
        acc: AccBody,
    ) -> Result<Checked, SignFault>
        ensures { Signs self.old self.new (Accusation acc) result
            (D.state disk.old) (D.state disk.new) }
    {
        self.sign(alloc, disk, Body::Accusation(acc))
    }

    /// Signs a certificate, as a note is signed; the store's epoch and mask stay.
    pub fn sign_certificate<D: Disk>(
        &mut self,
        alloc: Global,
        disk: &mut D,
        cert: CertBody,
    ) -> Result<Checked, SignFault>
        requires { 0 < cert.port }
        ensures { Signs self.old self.new (Certificate cert) result
            (D.state disk.old) (D.state disk.new) }
    {
        self.sign(alloc, disk, Body::Certificate(cert))
    }

    /// Signs the body, in the life that goes on.
    fn sign<D: Disk>(
        &mut self,
        alloc: Global,
        disk: &mut D,
        body: Body,
    ) -> Result<Checked, SignFault>
        requires port { HasPort body }
        requires next { MayComeNext self.old.state body }
        ensures { Signs self.old self.new body result
            (D.state disk.old) (D.state disk.new) }
    {
        self.sign_body(alloc, disk, body)
    }

    /// Takes memory, puts the next index, and then signs.
    fn sign_body<D: Disk>(
        &mut self,
        alloc: Global,
        disk: &mut D,
        body: Body,
    ) -> Result<Checked, SignFault>
        requires port { HasPort body }
        requires next { MayComeNext self.old.state body }
        ensures faults { (D.state disk.new).faults
            ≡ counted (is_store_fault result) (D.state disk.old).faults }
        ensures answers { AnswersBy self.old result }
        ensures signed { IfOk result (λ rec. rec ≡ signed_record self.old body) }
        ensures after { self.new ≡ after_signing self.old body result }
        ensures calls { MakesCalls result
            (put_calls self.old.seat (stored_after_it self.old.state body)) (D.state disk.old).calls
            (D.state disk.new).calls }
        ensures follows { MakesFrom result
            (put_calls self.old.seat (stored_after_it self.old.state body)) (D.state disk.old).model
            (D.state disk.new).model }
        ensures same { OnIdle result ((D.state disk.new).moments ≡ (D.state disk.old).moments) }
        ensures any_moment { (tag : List ℕ)
            → IsSettled tag self.old.state self.old.seat (D.state disk.old).moments
            → Since (LeavesEither tag self.old.state (stored_after_it self.old.state body))
            (D.state disk.old).moments (D.state disk.new).moments }
        ensures settled { OnOk result ((tag : List ℕ)
            → IsSettled tag self.old.state self.old.seat (D.state disk.old).moments
            → IsSettled tag self.new.state self.new.seat (D.state disk.new).moments) }
        ensures leaves { OnOk result ((tag : List ℕ)
            → IsSettled tag self.old.state self.old.seat (D.state disk.old).moments
            → LeavesState tag self.new.state (D.state disk.new).moments) }
    {
        let signature = zeros(alloc, self.key.signature_length())?;
        if self.closed {
            return Err(SignFault::Closed);
        }
        let state = self.store.state();
        if state.next == self.key.index_count() {
            return Err(SignFault::Exhausted { next: state.next });
        }
        make_ready(&mut self.key, alloc)?;
        match self.store.put(disk, stored_after(state, &body)) {
            Ok(()) => Ok(sign_next(&mut self.key, &self.group, body, signature)),
            Err(_) => {
                self.closed = true;
                Err(SignFault::StoreFault)
            }
        }
    }
}

/// Makes ready what the next index, which there is, signs with.
fn make_ready(key: &mut SignKey, alloc: Global) -> Result<(), SignFault>
    requires one { IsOfOneKey key.old }
    requires left { next_of key.old < index_count (secret_of key.old) }
    ensures memory { IfErr result (λ e. e ≡ OutOfMemory) }
    ensures ready { OnOk result (IsPrepared key.new) }
    ensures secret { secret_of key.new ≡ secret_of key.old }
    ensures next { next_of key.new ≡ next_of key.old }
    ensures one { IsOfOneKey key.new }
{
    match key.prepare(alloc) {
        Ok(()) => Ok(()),
        Err(_) => Err(SignFault::OutOfMemory),
    }
}

/// Takes the next index, which is ready, and signs the body with it.
fn sign_next(key: &mut SignKey, group: &Group, body: Body, mut signature: Vec<u8>) -> Checked
    requires one { IsOfOneKey key.old }
    requires left { next_of key.old < index_count (secret_of key.old) }
    requires ready { IsPrepared key.old }
    requires port { HasPort body }
    requires long { length signature.items ≡ signature_length (secret_of key.old) }
    ensures signed { result ≡ signed_by group.now (secret_of key.old) (next_of key.old) body }
    ensures secret { secret_of key.new ≡ secret_of key.old }
    ensures next { next_of key.new ≡ next_of key.old + 1 }
    ensures one { IsOfOneKey key.new }
{
    let signed = signed_bytes(group, &body);
    key.sign_next(signed.as_slice(), &mut signature);
    let rec = Record {
        body,
        signature: Bytes::from_vec(signature),
    };
    Checked::from_signed(group, &key.public(), rec)
}
