//! How a life begins: certificates are taken, and a first note is made and accepted. Nothing is sent.

ghost use Rattle.std.specs.Prelude.{◌≡◌, ◌≤◌, ◌<◌, ℕ, true, List, None, IfOk, All, map};
ghost use Rattle.ff_ids.specs.declared.TheConstants.{MAX_TOLERANCE};
ghost use Rattle.ff_ids.specs.declared.summary.RecordKey.TheVariants as keys;
ghost use Rattle.ff_ids.specs.Masks.{good_mask};
ghost use Rattle.records.specs.declared.Record.{Record as Recorded};
ghost use Rattle.records.specs.declared.Body.TheVariants as bodies;
ghost use Rattle.epoch_store.specs.declared.Stored.{Stored as Keeping};
ghost use Rattle.node_rules.specs.Nodes.{Setting};
ghost use Rattle.node_rules.specs.Replies.{first_mask as mask_at_first};
ghost use Rattle.node_rules.specs.Calls.{Call};
ghost use Rattle.node_rules.specs.Starting.{started, blank};
ghost use Rattle.journal.specs.declared.event.Event as journal;
ghost use Rattle.audit_node.specs.News.{with_fresh};
ghost use Rattle.audit_node.specs.Owing.{told_by};
ghost use Rattle.audit_node.specs.Playing.{Plays, Grows, IsReady};
ghost use Rattle.audit_node.specs.Told.{IsPrefix};
ghost use Rattle.audit_node.specs.Noted.{HoldsNotes, own_note};
ghost use Rattle.audit_node.specs.Learning.{Gives};
ghost use Rattle.audit_node.specs.Rolls.{IsCertificate, AreApart, recs_of};
ghost use Rattle.audit_node.specs.Begins.{AreOf, HasOpened, IsKit, IsSettingOf, MayBegin};

use crate::Mirror;
use crate::kit::Kit;
use crate::owing::OwedEvent;
use crate::parts::keep_own;
use crate::roll::Roll;
use crate::signing::{note_is_spelled, stored_after};
use crate::telling::CallOutput;
use audit_set::Unseen;
use detector::{Detector, Found};
use epoch_store::Stored;
use ff_ids::{Epoch, Group, Heal, Mask, MemberId, NoteBody, RecordKey, all_rings, good_mask};
use fields::NoMemory;
use lms_tree::PublicKey;
use membership::Changes;
use records::{Body, Checked};
use std::alloc::Global;

/// The mask of a life's first note: the stored one, or that of all rings where it isn't good.
fn first_mask(group: &Group, stored: Mask) -> Mask
    requires some { 1 ≤ group.now.t }
    requires few { group.now.t ≤ MAX_TOLERANCE }
    ensures value { result.0 ≡ mask_at_first group.now.t stored.0 }
    ensures good { good_mask group.now.t result.0 ≡ true }
{
    if good_mask(group.t, stored) {
        return stored;
    }
    all_rings(group.t)
}

/// What a life is kept in, with the certificates of its kit.
#[derive(Drop)]
pub struct Parts {
    pub roll: Roll,
    pub detector: Detector,
    pub changes: Changes,
    pub found: Found,
}

/// Takes the room for a life, and these certificates.
fn open_parts(
    alloc: Global,
    group: &Group,
    certificates: Vec<Checked>,
    seed: [u8; 32],
) -> Result<Parts, NoMemory>
    requires few { group.now.t ≤ MAX_TOLERANCE }
    requires misses { group.now.misses ≤ 16 }
    requires certificates { All IsCertificate certificates.items }
    requires apart { AreApart (recs_of certificates.items) }
    ensures opened { IfOk result (λ p. (nonces : ℕ → ℕ)
        → HasOpened group.now nonces (recs_of certificates.items) p) }
    ensures groups { IfOk result (λ p. AreOf group.now p) }
    ensures notes { IfOk result (λ p. HoldsNotes p.roll.membership p.roll.records) }
{
    let mut roll = Roll::open(alloc, *group)?;
    let detector = Detector::open(alloc, group, seed)?;
    let changes = Changes::new(alloc)?;
    let found = Found::new(alloc)?;
    roll.take_all(certificates);
    Ok(Parts {
        roll,
        detector,
        changes,
        found,
    })
}

/// What is known of the own note of this index, whose signature has so many bytes.
fn own_of(index: u32, note: &NoteBody, length: u16) -> Unseen
    ensures { result ≡ record { index = index; body = bodies.Note note.now; length = length } }
{
    Unseen {
        index,
        body: Body::Note(*note),
        length,
    }
}

/// A mirror whose first note is made, and not yet accepted.
#[derive(Drop)]
pub struct Ready {
    pub group: Group,
    pub heal: Option<Heal>,
    pub me: MemberId,
    pub authority: PublicKey,
    pub indexes: u32,
    pub stored: Stored,
    pub roll: Roll,
    pub detector: Detector,
    pub news: Vec<RecordKey>,
    pub since: u64,
    pub changes: Changes,
    pub found: Found,
    pub own: Unseen,
    pub note: NoteBody,
}

/// Takes all room and the certificates, and makes the first note: of the next epoch, with the mask that the store keeps, if
/// it is good.
fn make_ready(alloc: Global, kit: Kit) -> Result<Ready, NoMemory>
    requires kit { IsKit kit }
    requires left { kit.stored.next < kit.indexes }
    ensures ready { IfOk result
        (λ r. IsReady r.group r.me r.roll.membership r.roll.records r.detector r.indexes r.stored
        None) }
    ensures own { IfOk result (λ r. r.note ≡ own_note r.me r.stored) }
    ensures body { IfOk result (λ r. r.own.body ≡ bodies.Note r.note) }
    ensures epoch { IfOk result (λ r. 0 < r.note.epoch) }
    ensures begins { IfOk result
        (λ r. (s : Setting) (nonces : ℕ → ℕ) → IsSettingOf s kit
        → MayBegin s nonces (recs_of kit.certificates.items) kit.stored r) }
{
    let Kit {
        group,
        heal,
        me,
        authority,
        certificates,
        stored,
        indexes,
        own_length,
        nonce_seed,
    } = kit;
    let Parts {
        roll,
        detector,
        changes,
        found,
    } = open_parts(alloc, &group, certificates, nonce_seed)?;
    let note = NoteBody {
        member: me,
        epoch: Epoch::new(stored.epoch + 1),
        mask: first_mask(&group, stored.mask),
    };
    note_is_spelled(&note);
    let own = own_of(stored.next, &note, own_length);
    let stored = stored_after(stored, &Body::Note(note));
    Ok(Ready {
        group,
        heal,
        me,
        authority,
        indexes,
        stored,
        roll,
        detector,
        news: Vec::new(alloc),
        since: stored.epoch,
        changes,
        found,
        own,
        note,
    })
}

impl Ready {
    /// The life begins: what is owed of that goes behind what was owed.
    pub fn begin(self, mut telling: CallOutput) -> Mirror
        requires ready { IsReady self.group self.me self.roll.membership self.roll.records
            self.detector self.indexes self.stored None }
        requires own { self.note ≡ own_note self.me self.stored }
        requires body { self.own.body ≡ bodies.Note self.note }
        requires epoch { 0 < self.note.epoch }
        requires sent { telling.sent ≡ 0 }
        ensures plays { (s : Setting) (nonces : ℕ → ℕ) (certificates : List Recorded)
            (kept : Keeping) → MayBegin s nonces certificates kept self
            → Plays s (told_by s telling.events) result (started s nonces certificates kept) }
        ensures front { IsPrefix telling.events result.telling.events }
    {
        let Ready {
            group,
            heal,
            me,
            authority,
            indexes,
            stored,
            mut roll,
            detector,
            news,
            since,
            mut changes,
            found,
            own,
            note,
        } = self;
        let option = &heal;
        let own_length = own.length;
        keep_own(
            *option,
            &mut roll.membership,
            &mut roll.records,
            &mut changes,
            &mut telling,
            own,
            &note,
        );
        Mirror {
            group,
            heal,
            me,
            authority,
            indexes,
            own_length,
            stored,
            membership: roll.membership,
            roster: roll.roster,
            records: roll.records,
            detector,
            news,
            since,
            changes,
            found,
            telling,
        }
        .with_own_news()
    }
}

impl Mirror {
    /// The mirror, where with the option its own note is news.
    fn with_own_news(mut self) -> Mirror
        ensures plays { (s : Setting) (es : List journal.Event) (c : Call)
            → Plays s es self c
            → Plays s es result (with_fresh s (keys.Note self.me) c) }
        ensures grows { Grows self result }
    {
        let own = RecordKey::Note(self.me);
        self.add_news(own);
        self
    }

    /// A mirror of a life that begins with the kit, which is sound and has an index left: the certificates are taken, and a
    /// first note is accepted, of the epoch after the stored one, with the stored mask if it is good, else with all rings
    /// enabled. Appends what the node must have reported of that. The mirror stands for the node of each setting of the kit,
    /// whatever its source of nonces.
    pub fn start(alloc: Global, kit: Kit, owed: &mut Vec<OwedEvent>) -> Result<Mirror, NoMemory>
        requires kit { IsKit kit }
        requires left { kit.stored.next < kit.indexes }
        ensures { IfOk result
            (λ mirror. (s : Setting) (nonces : ℕ → ℕ) → IsSettingOf s kit
            → Gives s (blank s nonces kit.stored) mirror owed.old.items owed.new.items
            (started s nonces (map (λ x. x.rec) kit.certificates.items) kit.stored)) }
    {
        let ready = make_ready(alloc, kit)?;
        let mut mirror = ready.begin(CallOutput::over(alloc, owed));
        if mirror.telling.give_back(owed) {
            return Err(NoMemory);
        }
        Ok(mirror)
    }
}
