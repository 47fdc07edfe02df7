//! Small steps on the parts of a node.

ghost use Rattle.std.specs.Prelude.{◌≡◌, ◌≤◌, ℕ, fold, map, ◌++◌, take, nat_eq, false, List, None, Some};
ghost use Rattle.std.specs.FinMap.{get};
ghost use Rattle.ff_ids.specs.declared.TheConstants.{MAX_TOLERANCE};
ghost use Rattle.membership.specs.Life.{note_fault_in};
ghost use Rattle.records.specs.declared.Body.TheVariants as bodies;
ghost use Rattle.journal.specs.declared.event.Event as journal;
ghost use Rattle.node_rules.specs.Nodes.{Setting};
ghost use Rattle.node_rules.specs.Calls.{Call, own_record, spends};
ghost use Rattle.node_core.specs.Told.{Adds, with_report};
ghost use Rattle.node_core.specs.News.{keeps};
ghost use Rattle.node_core.specs.Records.{ended_all, retired_all, without_all};
ghost use Rattle.node_core.specs.Noted.{HoldsNotes};
ghost use Rattle.node_core.specs.Playing.{Kept, Plays, Grows, with_known};
ghost use Rattle.node_core.specs.Signatures.{with_stored};
ghost use Rattle.node_core.specs.Spending.{TellsSpent};

use crate::telling::CallOutput;
use ff_ids::{AccBody, Heal, NoteBody};
use membership::{Changes, Membership};
use record_set::RecordSet;
use records::{Body, Checked};

/// Holds none of these accusations any more.
fn drop_all(records: &mut RecordSet, ended: &[AccBody])
    ensures { records.new ≡ without_all records.old ended.now }
{
    for acc in ended {
        records.drop_accusation(acc.accused, acc.ring);
    }
}

/// Each of these accusations is that of its accused's removal now.
fn retire_all(records: &mut RecordSet, expired: &[AccBody])
    ensures { records.new ≡ retired_all records.old expired.now }
{
    for acc in expired {
        records.retire(acc.accused, acc.ring);
    }
}

/// Each of these accusations, which expired, is that of its accused's removal now; without the option none is held any
/// more.
fn end_all(heal: Option<Heal>, records: &mut RecordSet, expired: &[AccBody])
    ensures { records.new ≡ ended_all heal records.old expired.now }
{
    match heal {
        None => drop_all(records, expired),
        Some(_) => retire_all(records, expired),
    }
}

/// What a step of the membership reports as expired or fallen is kept no more, and the report is reported.
pub fn report(
    heal: Option<Heal>,
    records: &mut RecordSet,
    telling: &mut CallOutput,
    moment: u64,
    changes: &Changes,
)
    ensures records { records.new
        ≡ without_all (ended_all heal records.old changes.now.expired) changes.now.fell }
    ensures told { Adds (with_report moment changes.now) telling.old telling.new }
{
    end_all(heal, records, changes.expired());
    drop_all(records, changes.fell());
    telling.tell_changes(moment, changes);
}

/// Accepts the note of this record: one event of the life, if it has no fault. The record is held, and its member's
/// removal no more.
pub fn accept_note(
    heal: Option<Heal>,
    membership: &mut Membership,
    records: &mut RecordSet,
    changes: &mut Changes,
    telling: &mut CallOutput,
    rec: Checked,
    note: NoteBody,
)
    requires note { rec.rec.body ≡ bodies.Note note }
    requires tolerance { rec.t ≤ MAX_TOLERANCE }
    requires notes { HoldsNotes membership.old records.old }
    ensures plays { (s : Setting) (es : List journal.Event) (os : List (ℕ × List ℕ)) (v : Kept)
        (c : Call) → membership.old.group ≡ v.group → heal ≡ v.heal
        → Plays s es os (with_known v membership.old records.old telling.old) c
        → Plays s es os (with_known v membership.new records.new telling.new) (keeps s rec.rec c) }
    ensures told { Adds (with_report membership.new.moment changes.new) telling.old telling.new }
    ensures group { membership.new.group ≡ membership.old.group }
    ensures members { membership.new.places ≡ membership.old.places }
    ensures notes { HoldsNotes membership.new records.new }
    ensures others { (m : ℕ) → nat_eq note.member m ≡ false
        → get membership.new.notes m ≡ get membership.old.notes m }
    ensures newest { note_fault_in membership.old note ≡ None
        → get membership.new.notes note.member ≡ Some note }
{
    let member = note.member;
    let _fault = membership.put_note(note, changes);
    report(heal, records, telling, membership.now(), changes);
    records.drop_removal(member);
    records.put(rec);
}

/// The own note is reported, with the index that was spent on it, and accepted.
pub fn keep_own(
    heal: Option<Heal>,
    membership: &mut Membership,
    records: &mut RecordSet,
    changes: &mut Changes,
    telling: &mut CallOutput,
    index: u32,
    rec: Checked,
    note: &NoteBody,
)
    requires note { rec.rec.body ≡ bodies.Note note.now }
    requires tolerance { rec.t ≤ MAX_TOLERANCE }
    requires notes { HoldsNotes membership.old records.old }
    ensures plays { (s : Setting) (es : List journal.Event) (os : List (ℕ × List ℕ)) (v : Kept)
        (c : Call) → membership.old.group ≡ v.group → heal ≡ v.heal
        → Plays s es os (with_known v membership.old records.old telling.old)
        (with_stored (bodies.Note note.now) c)
        → index ≡ c.node.stored.next → rec.rec ≡ own_record s c.node (bodies.Note note.now)
        → Plays s es os (with_known v membership.new records.new telling.new)
        (keeps s (own_record s c.node (bodies.Note note.now))
        (spends s (bodies.Note note.now) c)) }
    ensures grows { (v : Kept) → Grows (with_known v membership.old records.old telling.old)
        (with_known v membership.new records.new telling.new) }
    ensures spent { (v : Kept) → TellsSpent index (bodies.Note note.now)
        (with_known v membership.old records.old telling.old)
        (with_known v membership.new records.new telling.new) }
    ensures group { membership.new.group ≡ membership.old.group }
    ensures members { membership.new.places ≡ membership.old.places }
    ensures notes { HoldsNotes membership.new records.new }
    ensures newest { note_fault_in membership.old note.now ≡ None
        → get membership.new.notes note.now.member ≡ Some note.now }
{
    telling.tell_spent(membership.now(), index, Body::Note(*note));
    accept_note(heal, membership, records, changes, telling, rec, *note);
}
