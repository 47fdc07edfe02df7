//! Small steps on the parts of a node.

ghost use Rattle.std.specs.Prelude.{◌≡◌, ◌<◌, ℕ, nat_eq, false, List, None, Some};
ghost use Rattle.std.specs.FinMap.{get};
ghost use Rattle.membership.specs.Life.{note_fault_in};
ghost use Rattle.records.specs.declared.Body.TheVariants as bodies;
ghost use Rattle.journal.specs.declared.event.Event as journal;
ghost use Rattle.node_rules.specs.Nodes.{Setting};
ghost use Rattle.node_rules.specs.Calls.{Call, own_record, spends};
ghost use Rattle.audit_set.specs.Knowns.{body_of};
ghost use Rattle.audit_set.specs.declared.known.Known.TheVariants as knowns;
ghost use Rattle.audit_node.specs.Told.{Adds, with_report};
ghost use Rattle.audit_node.specs.News.{keeps};
ghost use Rattle.audit_node.specs.Records.{ended_all, retired_all, without_all};
ghost use Rattle.audit_node.specs.Noted.{HoldsNotes};
ghost use Rattle.audit_node.specs.Playing.{Kept, Plays, Grows, IsSendable, record_of, with_known};
ghost use Rattle.audit_node.specs.Signatures.{with_stored};

use crate::telling::CallOutput;
use audit_set::{AuditSet, Known, Unseen};
use ff_ids::{AccBody, Heal, NoteBody};
use journal::What;
use membership::{Changes, Membership};

/// Holds none of these accusations any more.
fn drop_all(records: &mut AuditSet, ended: &[AccBody])
    ensures { records.new ≡ without_all records.old ended.now }
{
    for acc in ended {
        records.drop_accusation(acc.accused, acc.ring);
    }
}

/// Each of these accusations is that of its accused's removal now.
fn retire_all(records: &mut AuditSet, expired: &[AccBody])
    ensures { records.new ≡ retired_all records.old expired.now }
{
    for acc in expired {
        records.retire(acc.accused, acc.ring);
    }
}

/// Each of these accusations, which expired, is that of its accused's removal now; without the option none is held any
/// more.
fn end_all(heal: Option<Heal>, records: &mut AuditSet, expired: &[AccBody])
    ensures { records.new ≡ ended_all heal records.old expired.now }
{
    match heal {
        None => drop_all(records, expired),
        Some(_) => retire_all(records, expired),
    }
}

/// What a step of the membership reports as expired or fallen is kept no more, and the report is reported.
pub fn report(
    heal: Option<Heal>,
    records: &mut AuditSet,
    telling: &mut CallOutput,
    moment: u64,
    changes: &Changes,
)
    ensures records { records.new
        ≡ without_all (ended_all heal records.old changes.now.expired) changes.now.fell }
    ensures told { Adds (with_report moment changes.now) telling.old telling.new }
{
    end_all(heal, records, changes.expired());
    drop_all(records, changes.fell());
    telling.tell_changes(moment, changes);
}

/// Accepts the note that this says: one event of the life, if it has no fault. It is held, and its member's removal no
/// more.
pub fn accept_note(
    heal: Option<Heal>,
    membership: &mut Membership,
    records: &mut AuditSet,
    changes: &mut Changes,
    telling: &mut CallOutput,
    known: Known,
    note: NoteBody,
)
    requires note { body_of known ≡ bodies.Note note }
    requires epoch { 0 < note.epoch }
    requires notes { HoldsNotes membership.old records.old }
    ensures plays { (s : Setting) (es : List journal.Event) (v : Kept) (c : Call)
        → membership.old.group ≡ v.group → heal ≡ v.heal → IsSendable s (Some known)
        → Plays s es (with_known v membership.old records.old telling.old) c
        → Plays s es (with_known v membership.new records.new telling.new)
        (keeps s (record_of s known) c) }
    ensures told { Adds (with_report membership.new.moment changes.new) telling.old telling.new }
    ensures group { membership.new.group ≡ membership.old.group }
    ensures members { membership.new.places ≡ membership.old.places }
    ensures notes { HoldsNotes membership.new records.new }
    ensures others { (m : ℕ) → nat_eq note.member m ≡ false
        → get membership.new.notes m ≡ get membership.old.notes m }
    ensures newest { note_fault_in membership.old note ≡ None
        → get membership.new.notes note.member ≡ Some note }
{
    let member = note.member;
    let _fault = membership.put_note(note, changes);
    report(heal, records, telling, membership.now(), changes);
    records.drop_removal(member);
    records.put(known);
}

/// The own note is reported, with the index that was spent on it, and accepted.
pub fn keep_own(
    heal: Option<Heal>,
    membership: &mut Membership,
    records: &mut AuditSet,
    changes: &mut Changes,
    telling: &mut CallOutput,
    own: Unseen,
    note: &NoteBody,
)
    requires note { own.body ≡ bodies.Note note.now }
    requires epoch { 0 < note.now.epoch }
    requires notes { HoldsNotes membership.old records.old }
    ensures plays { (s : Setting) (es : List journal.Event) (v : Kept) (c : Call)
        → membership.old.group ≡ v.group → heal ≡ v.heal
        → Plays s es (with_known v membership.old records.old telling.old)
        (with_stored (bodies.Note note.now) c)
        → own.index ≡ c.node.stored.next → IsSendable s (Some (knowns.Own own))
        → Plays s es (with_known v membership.new records.new telling.new)
        (keeps s (own_record s c.node (bodies.Note note.now))
        (spends s (bodies.Note note.now) c)) }
    ensures grows { (v : Kept) → Grows (with_known v membership.old records.old telling.old)
        (with_known v membership.new records.new telling.new) }
    ensures group { membership.new.group ≡ membership.old.group }
    ensures members { membership.new.places ≡ membership.old.places }
    ensures notes { HoldsNotes membership.new records.new }
    ensures newest { note_fault_in membership.old note.now ≡ None
        → get membership.new.notes note.now.member ≡ Some note.now }
{
    let spent = What::Spent {
        index: own.index,
        body: own.body,
    };
    telling.tell(membership.now(), spent);
    accept_note(
        heal,
        membership,
        records,
        changes,
        telling,
        Known::Own(own),
        *note,
    );
}
