//! The life that is being recorded, and what a line brings to it. What is written behind a line goes to the
//! end of a text, as `specs/` of the trace says.

ghost use Rattle.std.specs.Prelude.{◌≡◌, ◌<◌, ◌≤◌, ◌+◌, ◌++◌, ◌∷◌, [], ℕ, true, List, Option, IfOk, OnOk, OnErr, length, codes};
ghost use Rattle.ff_ids.specs.declared.TheConstants.{MAX_RINGS, MAX_TOLERANCE};
ghost use Rattle.ff_ids.specs.Faults.{note_fault, accusation_fault};
ghost use Rattle.ff_ids.specs.Steps.{after_accusation};
ghost use Rattle.ff_ids.specs.Masks.{ring_count};
ghost use Rattle.ff_ids.specs.Views.{State, monitor, view};
ghost use Rattle.life_events.specs.Events.{members_text};
ghost use Rattle.membership.specs.Holds.{Holds};
ghost use Rattle.membership.specs.Life.{has_joined};
ghost use Rattle.membership.specs.Reports.{Answers as FaultAnswers};
ghost use Rattle.schedule_direct.specs.Rows.{most_ticks};
ghost use Rattle.text_trace.specs.Lines.{text_lines};
ghost use Rattle.trace.specs.Answers.{Recorded, answer as answer_to, answer_in, answer_text, first_life, monitor_answer, plain_group, verdict_on};
ghost use Rattle.replay.specs.Plays.{Plays, PlaysOne, Tells, FitsLife, FitsOn};

use crate::report::{add, add_monitor, add_report, add_verdict, add_verdict_on};
use ff_ids::{AccBody, Fault, Group, MemberId, NoteBody, RingNo};
use fields::NoMemory;
use life_events::{Told, Verdict};
use membership::{Changes, Membership};
use ring_order::number_places;
use ring_order::steps::Steps;
use schedule_direct::{DirectLine, PlaceList};
use std::alloc::Global;
use std::marker::Brand;
use std::sync::ledger::{Blank, Ledger};

/// A life, its number from 1 on, and room for what a step reports.
#[derive(Drop)]
pub struct Life {
    pub number: u64,
    pub membership: Membership,
    pub changes: Changes,
    /// The view as it was last told.
    told: Told,
}

/// As `Membership::put_accusation`, its comparisons counted in a ledger of its own.
fn put_accusation<L: Ledger>(
    blank: Blank,
    membership: &mut Membership,
    accusation: AccBody,
) -> Result<(), Fault>
    requires name { blank.name ≡ L.name }
    requires parts { blank.parts ≡ L.parts }
    requires some { 0 < blank.parts }
    ensures fault { (s : State) → Holds membership.old s
        → FaultAnswers (accusation_fault membership.old.group.t s accusation) result }
    ensures step { (s : State) → Holds membership.old s
        → OnOk result (Holds membership.new (after_accusation s accusation)) }
    ensures same { OnErr result (membership.new ≡ membership.old) }
    ensures group { membership.new.group ≡ membership.old.group }
    ensures moment { membership.new.moment ≡ membership.old.moment }
{
    membership.put_accusation_counted(accusation, &mut Steps::<L>::open(blank))
}

/// As `Membership::monitor`, its comparisons counted in a ledger of its own.
fn monitor_of<L: Ledger>(
    blank: Blank,
    membership: &Membership,
    ring: RingNo,
    member: MemberId,
) -> Option<MemberId>
    requires name { blank.name ≡ L.name }
    requires parts { blank.parts ≡ L.parts }
    requires some { 0 < blank.parts }
    requires ring { ring.0 < ring_count membership.now.group.t }
    requires member { has_joined membership.now member ≡ true }
    ensures { (s : State) → Holds membership.now s → result ≡ monitor s ring.0 member }
{
    membership.monitor_counted(ring, member, &mut Steps::<L>::open(blank))
}

impl Life {
    /// The first life of a group of tolerance `t`.
    fn first(alloc: Global, t: u8, timeout: u32) -> Result<Life, NoMemory>
        requires { t ≤ MAX_TOLERANCE }
        ensures { IfOk result (λ life. PlaysOne life (first_life (plain_group t timeout))) }
    {
        let group = Group {
            tag: [0; 16],
            t,
            timeout,
            period: 1,
            misses: 1,
        };
        Ok(Life {
            number: 1,
            membership: Membership::open(alloc, group)?,
            changes: Changes::new(alloc)?,
            told: Told::new(alloc),
        })
    }

    /// A member joins.
    fn join(
        &mut self,
        member: MemberId,
        places: &PlaceList,
        text: &mut Vec<u8>,
    ) -> Result<(), NoMemory>
        requires rings { length places.now ≡ ring_count self.old.membership.group.t }
        requires few { length places.now ≤ MAX_RINGS }
        ensures { (r : Recorded) → PlaysOne self.old r
            → OnOk result
            (Tells (answer_in r (DirectLine.Member member places.now)) self.new text.old.items
            text.new.items) }
    {
        match self
            .membership
            .add_member(member, number_places(places.as_slice()))
        {
            Ok(()) => {
                add_verdict(text, Verdict::Joined)?;
                add(text, b"\n")
            }
            Err(fault) => {
                add_verdict(text, Verdict::Refused(fault))?;
                add(text, b"\n")
            }
        }
    }

    /// A note comes.
    fn take_note(&mut self, note: NoteBody, text: &mut Vec<u8>) -> Result<(), NoMemory>
        ensures { (r : Recorded) → PlaysOne self.old r
            → OnOk result
            (Tells (answer_in r (DirectLine.Note note)) self.new text.old.items
            text.new.items) }
    {
        let verdict = self.membership.put_note(note, &mut self.changes);
        add_verdict_on(text, verdict.err())?;
        add_report(text, self.membership.now(), &self.changes)
    }

    /// An accusation comes.
    fn take_accusation(&mut self, accusation: AccBody, text: &mut Vec<u8>) -> Result<(), NoMemory>
        ensures { (r : Recorded) → PlaysOne self.old r
            → OnOk result
            (Tells (answer_in r (DirectLine.Accuse accusation)) self.new text.old.items
            text.new.items) }
    {
        match put_accusation::<Brand>(Blank::new(1), &mut self.membership, accusation) {
            Ok(()) => add_verdict_on(text, None),
            Err(fault) => add_verdict_on(text, Some(fault)),
        }
    }

    /// So many ticks come, one after another. Those that bring nothing are passed at once.
    fn take_ticks(&mut self, ticks: u32, text: &mut Vec<u8>) -> Result<(), NoMemory>
        requires { self.old.membership.moment + ticks ≤ most_ticks }
        ensures { (r : Recorded) → PlaysOne self.old r
            → OnOk result
            (Tells (answer_in r (DirectLine.Tick ticks)) self.new text.old.items
            text.new.items) }
    {
        add(text, b"\n")?;
        let mut passed = self.membership.pass_quiet(ticks);
        while passed < ticks {
            self.membership.tick(&mut self.changes);
            add_report(text, self.membership.now(), &self.changes)?;
            passed += 1;
            passed += self.membership.pass_quiet(ticks - passed);
        }
        Ok(())
    }

    /// Another life begins, with the same members.
    fn begin_another(&mut self, text: &mut Vec<u8>) -> Result<(), NoMemory>
        requires { self.old.number ≤ text_lines }
        ensures { (r : Recorded) → PlaysOne self.old r
            → OnOk result
            (Tells (answer_in r DirectLine.Life) self.new text.old.items text.new.items) }
    {
        self.membership.new_life();
        self.number += 1;
        add_verdict(text, Verdict::Life(self.number))?;
        add(text, b"\n")
    }

    /// The view is asked for.
    fn tell_view(&mut self, text: &mut Vec<u8>) -> Result<(), NoMemory>
        ensures { (r : Recorded) → PlaysOne self.old r
            → OnOk result
            (Tells (answer_in r DirectLine.View) self.new text.old.items text.new.items) }
    {
        add(text, b" : ")?;
        self.told.write(self.membership.view(), text)?;
        add(text, b"\n")
    }

    /// The monitor of a member is asked for.
    fn tell_monitor(
        &self,
        ring: RingNo,
        member: MemberId,
        text: &mut Vec<u8>,
    ) -> Result<(), NoMemory>
        requires { ring.0 < ring_count self.now.membership.group.t }
        ensures { (r : Recorded) → PlaysOne self.now r
            → OnOk result
            (Tells (answer_in r (DirectLine.Monitor ring member)) self.now text.old.items
            text.new.items) }
    {
        if self.membership.is_member(member) {
            let monitor = monitor_of::<Brand>(Blank::new(1), &self.membership, ring, member);
            add_monitor(text, monitor)
        } else {
            add_verdict_on(text, Some(Fault::UnknownMember))
        }
    }

    /// Runs a line below that of the group.
    fn answer(&mut self, line: DirectLine, text: &mut Vec<u8>) -> Result<(), NoMemory>
        requires { FitsLife self.old line }
        ensures { (r : Recorded) → PlaysOne self.old r
            → OnOk result (Tells (answer_in r line) self.new text.old.items text.new.items) }
    {
        match line {
            DirectLine::Header | DirectLine::Group { .. } | DirectLine::End => add(text, b"\n"),
            DirectLine::Member { member, places } => self.join(member, &places, text),
            DirectLine::Note(note) => self.take_note(note, text),
            DirectLine::Accuse(accusation) => self.take_accusation(accusation, text),
            DirectLine::Tick(ticks) => self.take_ticks(ticks, text),
            DirectLine::Life => self.begin_another(text),
            DirectLine::View => self.tell_view(text),
            DirectLine::Monitor { ring, member } => self.tell_monitor(ring, member, text),
        }
    }
}

/// Runs a line, and adds its verdict, a line feed and a line for each event to the text. The line of the group
/// begins the first life.
pub fn answer(
    alloc: Global,
    life: &mut Option<Life>,
    line: DirectLine,
    text: &mut Vec<u8>,
) -> Result<(), NoMemory>
    requires { FitsOn life.old line }
    ensures plays { (r : Option Recorded) → Plays life.old r
        → OnOk result (Plays life.new (answer_to r line).recorded) }
    ensures text { (r : Option Recorded) → Plays life.old r
        → OnOk result (text.new.items ≡ text.old.items ++ answer_text (answer_to r line)) }
{
    match life {
        Some(life) => life.answer(line, text),
        None => {
            if let DirectLine::Group { t, timeout } = line {
                *life = Some(Life::first(alloc, t, timeout)?);
            }
            add(text, b"\n")
        }
    }
}
