//! Own records: where the key has an index left each is made without its signature, reported, accepted and sent.

ghost use Rattle.std.specs.Prelude.{◌≡◌, ◌+◌, ◌<◌, ◌^◌, ℕ, List, true, None, Some, is_some, IfOk, ◌∷◌, []};
ghost use Rattle.std.specs.FinMap.{get};
ghost use Rattle.ff_ids.specs.Masks.{ring_count, note_mask};
ghost use Rattle.journal.specs.declared.event.Event as journal;
ghost use Rattle.records.specs.Spelling.{IsAccusation, IsNote};
ghost use Rattle.records.specs.declared.Body.TheVariants as bodies;
ghost use Rattle.signer.specs.Signing.{stored_after as stored_after_it};
ghost use Rattle.datagram.specs.declared.Datagram.TheVariants as kinds;
ghost use Rattle.node_rules.specs.Nodes.{Setting, state_of};
ghost use Rattle.node_rules.specs.Calls.{Call, sends_to_all, signs_and_sends, wants};
ghost use Rattle.audit_set.specs.declared.known.Known.TheVariants as knowns;
ghost use Rattle.audit_node.specs.declared.owing.Item.TheVariants as parts;
ghost use Rattle.audit_node.specs.Playing.{IsOwn, Plays, Grows};
ghost use Rattle.audit_node.specs.Neighbours.{addressees};
ghost use Rattle.audit_node.specs.Signatures.{with_stored, next_own};

use crate::Mirror;
use crate::owing::Item;
use crate::parts::keep_own;
use audit_set::{Known, Unseen};
use epoch_store::Stored;
use ff_ids::{AccBody, Epoch, Mask, MemberId, NoteBody, RecordKey};
use fields::NoMemory;
use journal::What;
use records::Body;
use std::alloc::Global;

/// What the store keeps once the body is signed.
pub(crate) fn stored_after(stored: Stored, body: &Body) -> Stored
    requires { stored.next + 1 < 2 ^ 32 }
    ensures { result ≡ stored_after_it stored body.now }
{
    let next = stored.next + 1;
    match body {
        Body::Note(note) => Stored {
            next,
            epoch: note.epoch.get(),
            mask: note.mask,
        },
        Body::Certificate(_) | Body::Accusation(_) => Stored {
            next,
            epoch: stored.epoch,
            mask: stored.mask,
        },
    }
}

/// A note's numbers are within their ranges.
pub(crate) fn note_is_spelled(note: &NoteBody)
    ensures { IsNote note.now }
{
    let _member = note.member.get();
    let _epoch = note.epoch.get();
    let _mask = note.mask.0.to_be_bytes();
}

/// So are an accusation's.
fn accusation_is_spelled(acc: &AccBody)
    ensures { IsAccusation acc.now }
{
    let _accuser = acc.accuser.get();
    let _accused = acc.accused.get();
    let _epoch = acc.epoch.get();
}

/// What is known of the own record of this index, whose signature has so many bytes.
fn own_known(index: u32, body: Body, length: u16) -> Known
    ensures { result ≡ knowns.Own (record { index = index; body = body; length = length }) }
{
    Known::Own(Unseen {
        index,
        body,
        length,
    })
}

/// The own record alone.
fn own_item(alloc: Global, index: u32, body: Body) -> Result<Vec<Item>, NoMemory>
    ensures { IfOk result (λ xs. xs.items ≡ parts.Own index body ∷ []) }
{
    let mut items = Vec::new(alloc);
    items.push(Item::Own { index, body })?;
    Ok(items)
}

impl Mirror {
    /// The datagram of an own record goes to the neighbours and one more.
    fn send_own(&mut self, alloc: Global, index: u32, body: Body, also: Option<MemberId>)
        ensures plays { (s : Setting) (es : List journal.Event) (c : Call) (long : ℕ)
            → IsOwn s (record { index = index; body = body; length = long })
            → Plays s es self.old c
            → Plays s es self.new (sends_to_all s (addressees s also (state_of s c.node))
            (kinds.Records s.me
            (record { body = body; signature = s.signature index body } ∷ [])) c) }
        ensures grows { Grows self.old self.new }
    {
        match own_item(alloc, index, body) {
            Ok(items) => self.send_to_neighbours(alloc, &items, also),
            Err(_) => self.telling.fail(),
        }
    }

    /// The own accusation is reported, accepted, and sent to the neighbours and the accused.
    fn pass_on_accusation(&mut self, alloc: Global, index: u32, acc: &AccBody)
        requires ring { acc.now.ring.0 < ring_count self.old.group.t }
        requires noted { is_some (get self.old.membership.notes acc.now.accused) ≡ true }
        ensures plays { (s : Setting) (es : List journal.Event) (c : Call)
            → Plays s es self.old (with_stored (bodies.Accusation acc.now) c)
            → index ≡ c.node.stored.next
            → IsOwn s (record
            { index = index; body = bodies.Accusation acc.now; length = self.old.own_length })
            → Plays s es self.new
            (signs_and_sends s (bodies.Accusation acc.now) (addressees s (Some acc.now.accused))
            c) }
        ensures grows { Grows self.old self.new }
    {
        let known = own_known(index, Body::Accusation(*acc), self.own_length);
        let body = Body::Accusation(*acc);
        self.tell(What::Spent { index, body });
        self.take_accusation(known, *acc);
        self.send_own(alloc, index, Body::Accusation(*acc), Some(acc.accused));
    }

    /// A note of the next epoch with this mask is wanted.
    pub(crate) fn want_note(&mut self, alloc: Global, mask: Mask)
        requires { note_mask self.old.group.t mask.0 ≡ true }
        ensures plays { (s : Setting) (es : List journal.Event) (c : Call)
            → Plays s es self.old c
            → Plays s es self.new
            (wants true s (next_own s c.node mask) (addressees s None) c) }
        ensures grows { Grows self.old self.new }
    {
        let index = self.stored.next;
        if index == self.indexes {
            self.tell(What::Exhausted { next: index });
            return;
        }
        let note = NoteBody {
            member: self.me,
            epoch: Epoch::new(self.stored.epoch + 1),
            mask,
        };
        let own = Unseen {
            index,
            body: Body::Note(note),
            length: self.own_length,
        };
        note_is_spelled(&note);
        self.stored = stored_after(self.stored, &own.body);
        keep_own(
            self.heal,
            &mut self.membership,
            &mut self.records,
            &mut self.changes,
            &mut self.telling,
            own,
            &note,
        );
        self.add_news(RecordKey::Note(note.member));
        self.send_own(alloc, index, Body::Note(note), None);
    }

    /// This accusation by the node is wanted.
    pub(crate) fn want_accusation(&mut self, alloc: Global, acc: &AccBody)
        requires by { acc.now.accuser ≡ self.old.me }
        requires ring { acc.now.ring.0 < ring_count self.old.group.t }
        requires noted { is_some (get self.old.membership.notes acc.now.accused) ≡ true }
        ensures plays { (s : Setting) (es : List journal.Event) (c : Call)
            → Plays s es self.old c
            → Plays s es self.new (wants true s (bodies.Accusation acc.now)
            (addressees s (Some acc.now.accused)) c) }
        ensures grows { Grows self.old self.new }
    {
        let index = self.stored.next;
        if index == self.indexes {
            self.tell(What::Exhausted { next: index });
            return;
        }
        accusation_is_spelled(acc);
        self.stored = stored_after(self.stored, &Body::Accusation(*acc));
        self.pass_on_accusation(alloc, index, acc);
    }
}
