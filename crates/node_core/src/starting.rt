//! How a life begins: certificates are taken, and a first note is signed and accepted. Nothing is sent.

ghost use Rattle.std.specs.Prelude.{◌≡◌, ◌≤◌, ◌<◌, ◌^◌, ◌+◌, ℕ, true, false, List, [], ◌∷◌, length, None, IfOk, IfErr, OnErr, All, is_err};
ghost use Rattle.std.specs.List.{list_any};
ghost use Rattle.ff_ids.specs.declared.TheConstants.{MAX_TOLERANCE};
ghost use Rattle.ff_ids.specs.declared.summary.RecordKey.TheVariants as keys;
ghost use Rattle.ff_ids.specs.Masks.{good_mask};
ghost use Rattle.ports.specs.Count.{counted};
ghost use Rattle.sign_keys.specs.Keys.{index_count, public_key};
ghost use Rattle.records.specs.declared.Record.{Record as Recorded};
ghost use Rattle.records.specs.declared.Body.TheVariants as bodies;
ghost use Rattle.epoch_store.specs.declared.Stored.{Stored};
ghost use Rattle.epoch_store.specs.Seat.{next_seat};
ghost use Rattle.detector.specs.Silence.{nonce};
ghost use Rattle.node_rules.specs.Nodes.{Setting};
ghost use Rattle.node_rules.specs.Replies.{first_mask as mask_at_first};
ghost use Rattle.node_rules.specs.Calls.{Call};
ghost use Rattle.node_rules.specs.Starting.{started};
ghost use Rattle.journal.specs.declared.event.Event as journal;
ghost use Rattle.node_core.specs.News.{with_fresh};
ghost use Rattle.node_core.specs.Playing.{Plays, Grows, IsReady, setting_of};
ghost use Rattle.node_core.specs.Spending.{LivesOn, TellsOf, SignsNothing, SpendsUntold, StartSpends};
ghost use Rattle.node_core.specs.Told.{IsPrefix};
ghost use Rattle.node_core.specs.Noted.{HoldsNotes, own_note};
ghost use Rattle.node_core.specs.OnDisks.{PutsFirst, kept_first};
ghost use Rattle.node_core.specs.Rolls.{IsCertificateFor, AreApart, recs_of};
ghost use Rattle.node_core.specs.Begins.{AreOf, HasOpened, MayBegin, IsFirst, IsKit, IsVouchable, MayRefuse, Starts, is_store_fault, spent_first};

use crate::kit::{Events, Kit, Outbox};
use crate::parts::keep_own;
use crate::roll::Roll;
use crate::telling::CallOutput;
use crate::{Node, NodeFault};
use detector::{Detector, Found};
use ff_ids::{Epoch, Group, Heal, Mask, MemberId, NoteBody, RecordKey, all_rings, good_mask};
use fields::NoMemory;
use lms_tree::PublicKey;
use membership::Changes;
use ports::Disk;
use records::Checked;
use signer::{SignFault, Signer};
use std::alloc::Global;

/// The mask of a life's first note: the stored one, or that of all rings where it isn't good.
fn first_mask(group: &Group, stored: Mask) -> Mask
    requires some { 1 ≤ group.now.t }
    requires few { group.now.t ≤ MAX_TOLERANCE }
    ensures value { result.0 ≡ mask_at_first group.now.t stored.0 }
    ensures good { good_mask group.now.t result.0 ≡ true }
{
    if good_mask(group.t, stored) {
        return stored;
    }
    all_rings(group.t)
}

/// What a life is kept in, with the certificates of its kit.
#[derive(Drop)]
pub struct Parts {
    pub roll: Roll,
    pub detector: Detector,
    pub changes: Changes,
    pub found: Found,
}

/// Takes the room for a life, and these certificates.
fn open_parts(
    alloc: Global,
    group: &Group,
    certificates: Vec<Checked>,
    seed: [u8; 32],
) -> Result<Parts, NoMemory>
    requires few { group.now.t ≤ MAX_TOLERANCE }
    requires misses { group.now.misses ≤ 16 }
    requires certificates { All (IsCertificateFor group.now.t) certificates.items }
    requires apart { AreApart (recs_of certificates.items) }
    ensures opened { IfOk result (λ p. HasOpened group.now (nonce seed)
        (recs_of certificates.items) p) }
    ensures groups { IfOk result (λ p. AreOf group.now p) }
    ensures notes { IfOk result (λ p. HoldsNotes p.roll.membership p.roll.records) }
{
    let mut roll = Roll::open(alloc, *group)?;
    let detector = Detector::open(alloc, group, seed)?;
    let changes = Changes::new(alloc)?;
    let found = Found::new(alloc)?;
    roll.take_all(certificates);
    Ok(Parts {
        roll,
        detector,
        changes,
        found,
    })
}

/// The first note of a life, and the index that was spent on it.
#[derive(Drop)]
pub struct First {
    pub index: u32,
    pub note: NoteBody,
    pub rec: Checked,
}

/// Signs the first note: of the next epoch, with the mask that the store keeps, if it is good.
fn sign_first<D: Disk>(
    alloc: Global,
    signer: &mut Signer,
    disk: &mut D,
    group: &Group,
    me: MemberId,
) -> Result<First, NodeFault>
    requires some { 1 ≤ group.now.t }
    requires few { group.now.t ≤ MAX_TOLERANCE }
    requires open { signer.old.closed ≡ false }
    ensures faults { (D.state disk.new).faults
        ≡ counted (is_store_fault result) (D.state disk.old).faults }
    ensures signed { IfOk result (λ f. IsFirst signer.old signer.new group.now.t me f) }
    ensures cause { IfErr result (λ e. MayRefuse signer.old e) }
    ensures key { LivesOn (spent_first result) signer.old signer.new (D.state disk.old).moments
        (D.state disk.new).moments }
    ensures puts { PutsFirst (kept_first group.now.t me signer.old.state) signer.old.seat
        (D.state disk.old).model (D.state disk.new).model result }
    ensures seat { IfOk result
        (λ f. signer.new.seat
        ≡ next_seat signer.old.seat (kept_first group.now.t me signer.old.state)) }
{
    let index = signer.state().next;
    let mask = first_mask(group, signer.state().mask);
    match signer.sign_note(alloc, disk, me, mask) {
        Ok(rec) => Ok(First {
            index,
            note: NoteBody {
                member: me,
                epoch: Epoch::new(signer.state().epoch),
                mask,
            },
            rec,
        }),
        Err(SignFault::Exhausted { next }) => Err(NodeFault::Exhausted { next }),
        Err(SignFault::OutOfMemory) => Err(NodeFault::OutOfMemory),
        Err(SignFault::Closed) => unreachable!(),
        Err(SignFault::StoreFault) => Err(NodeFault::StoreFault),
    }
}

/// A node whose first note is signed, and not yet accepted.
#[derive(Drop)]
pub struct Ready {
    pub group: Group,
    pub heal: Option<Heal>,
    pub me: MemberId,
    pub authority: PublicKey,
    pub signer: Signer,
    pub roll: Roll,
    pub detector: Detector,
    pub news: Vec<RecordKey>,
    pub since: u64,
    pub changes: Changes,
    pub found: Found,
    pub index: u32,
    pub note: NoteBody,
    pub rec: Checked,
}

/// Takes all room and the certificates, and signs the first note.
fn make_ready<D: Disk>(
    alloc: Global,
    kit: Kit,
    signer: Signer,
    disk: &mut D,
) -> Result<Ready, NodeFault>
    requires kit { IsKit kit (public_key signer.key) }
    requires signer { signer.group ≡ kit.group }
    requires open { signer.closed ≡ false }
    ensures faults { (D.state disk.new).faults
        ≡ counted (is_store_fault result) (D.state disk.old).faults }
    ensures ready { IfOk result
        (λ r. IsReady r.group r.me r.roll.membership r.roll.records r.detector r.signer None
        false) }
    ensures own { IfOk result (λ r. r.note ≡ own_note r.me r.signer.state) }
    ensures body { IfOk result (λ r. r.rec.rec.body ≡ bodies.Note r.note) }
    ensures tolerance { IfOk result (λ r. r.rec.t ≡ r.group.t) }
    ensures begins { IfOk result
        (λ r. (s : Setting) → s ≡ setting_of kit.group kit.heal kit.me kit.authority signer.key
        → MayBegin s (nonce kit.nonce_seed) (recs_of kit.certificates.items) signer.state r) }
    ensures cause { IfErr result (λ e. MayRefuse signer e) }
    ensures free { IfOk result (λ r. signer.state.next < index_count signer.key) }
    ensures closed { IfOk result (λ r. r.signer.closed ≡ false) }
    ensures key { IfOk result (λ r. LivesOn
        (record { index = r.index; body = bodies.Note r.note } ∷ []) signer r.signer
        (D.state disk.old).moments (D.state disk.new).moments) }
    ensures untold { IfErr result (λ e. SpendsUntold e signer (D.state disk.old).moments
        (D.state disk.new).moments) }
    ensures puts { PutsFirst (kept_first kit.group.t kit.me signer.state) signer.seat
        (D.state disk.old).model (D.state disk.new).model result }
    ensures seat { IfOk result
        (λ r. r.signer.seat
        ≡ next_seat signer.seat (kept_first kit.group.t kit.me signer.state)) }
{
    let Kit {
        group,
        heal,
        me,
        authority,
        certificates,
        nonce_seed,
    } = kit;
    let Ok(parts) = open_parts(alloc, &group, certificates, nonce_seed) else {
        return Err(NodeFault::OutOfMemory);
    };
    let mut signer = signer;
    let first = sign_first(alloc, &mut signer, disk, &group, me)?;
    let since = signer.state().epoch;
    let Parts {
        roll,
        detector,
        changes,
        found,
    } = parts;
    let First { index, note, rec } = first;
    Ok(Ready {
        group,
        heal,
        me,
        authority,
        signer,
        roll,
        detector,
        news: Vec::new(alloc),
        since,
        changes,
        found,
        index,
        note,
        rec,
    })
}

impl Ready {
    /// The life begins: what it reports goes behind what was reported.
    pub fn begin(self, mut telling: CallOutput) -> Node
        requires ready { IsReady self.group self.me self.roll.membership self.roll.records
            self.detector self.signer None false }
        requires own { self.note ≡ own_note self.me self.signer.state }
        requires body { self.rec.rec.body ≡ bodies.Note self.note }
        requires tolerance { self.rec.t ≡ self.group.t }
        requires before { telling.before ≡ length telling.sent }
        ensures plays { (s : Setting) (nonces : ℕ → ℕ) (certificates : List Recorded)
            (stored : Stored) → MayBegin s nonces certificates stored self
            → Plays s telling.events telling.sent result (started s nonces certificates stored) }
        ensures front { IsPrefix telling.events result.telling.events }
        ensures going { result.ended ≡ false }
        ensures signer { result.signer ≡ self.signer }
        ensures spent { TellsOf (record { index = self.index; body = bodies.Note self.note } ∷ [])
            telling.events result.telling.events result.telling.failed }
    {
        let Ready {
            group,
            heal,
            me,
            authority,
            signer,
            mut roll,
            detector,
            news,
            since,
            mut changes,
            found,
            index,
            note,
            rec,
        } = self;
        let option = &heal;
        keep_own(
            *option,
            &mut roll.membership,
            &mut roll.records,
            &mut changes,
            &mut telling,
            index,
            rec,
            &note,
        );
        Node {
            group,
            heal,
            me,
            authority,
            signer,
            membership: roll.membership,
            roster: roll.roster,
            records: roll.records,
            detector,
            news,
            since,
            changes,
            found,
            telling,
            ended: false,
        }
        .with_own_news()
    }
}

impl Node {
    /// The node, where with the option its own note is news.
    fn with_own_news(mut self) -> Node
        ensures plays { (s : Setting) (es : List journal.Event) (os : List (ℕ × List ℕ)) (c : Call)
            → Plays s es os self c
            → Plays s es os result (with_fresh s (keys.Note self.me) c) }
        ensures grows { Grows self result }
        ensures signs_nothing { SignsNothing self result }
    {
        let own = RecordKey::Note(self.me);
        self.add_news(own);
        self
    }

    /// Begins a life: takes the certificates of the kit, and signs and accepts a first note, of the epoch after the
    /// stored one, with the stored mask if it is good, else with all rings enabled. Nothing is sent.
    ///
    /// The kit is sound for the signer's key, the signer was opened with the kit's group, and the disk is that of its
    /// store. `Exhausted` comes where the key has no index left, `StoreFault` only where the disk failed; `Ended` never. A
    /// life that is refused reports nothing, and has spent no index, but perhaps one where memory was refused.
    pub fn start<D: Disk>(
        alloc: Global,
        kit: Kit,
        signer: Signer,
        disk: &mut D,
        events: &mut Events,
    ) -> Result<Node, NodeFault>
        requires kit { IsKit kit (public_key signer.key) }
        requires signer { signer.group ≡ kit.group }
        requires open { signer.closed ≡ false }
        ensures starts { IfOk result
            (λ node. (s : Setting) → s ≡ setting_of kit.group kit.heal kit.me kit.authority signer.key
            → Starts s (nonce kit.nonce_seed) (recs_of kit.certificates.items) signer.state node
            events.old events.new) }
        ensures vouchable { IfOk result
            (λ node. (s : Setting) → s ≡ setting_of kit.group kit.heal kit.me kit.authority signer.key
            → IsVouchable s (public_key signer.key) (recs_of kit.certificates.items) signer.state) }
        ensures going { IfOk result (λ node. node.ended ≡ false) }
        ensures closed { IfOk result (λ node. node.signer.closed ≡ false) }
        ensures silent { OnErr result (events.new ≡ events.old) }
        ensures cause { IfErr result (λ e. MayRefuse signer e) }
        ensures faults { (D.state disk.new).faults
            ≡ counted (is_store_fault result) (D.state disk.old).faults }
        ensures spends { StartSpends signer (D.state disk.old).moments (D.state disk.new).moments
            events.old events.new result }
        ensures puts { PutsFirst (kept_first kit.group.t kit.me signer.state) signer.seat
            (D.state disk.old).model (D.state disk.new).model result }
        ensures seat { IfOk result
            (λ node. node.signer.seat
            ≡ next_seat signer.seat (kept_first kit.group.t kit.me signer.state)) }
    {
        let ready = make_ready(alloc, kit, signer, disk)?;
        let before = events.events.len();
        let mut out = Outbox::new(alloc);
        let mut node = ready.begin(CallOutput::over(alloc, events, &mut out));
        if node.telling.give_back(events, &mut out) {
            events.events.truncate(before);
            return Err(NodeFault::OutOfMemory);
        }
        Ok(node)
    }
}
