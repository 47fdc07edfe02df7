//! One line, and the place behind it.

ghost use Rattle.std.specs.Prelude.{◌≡◌, ◌<◌, ◌≤◌, IfOk, OnErr};
ghost use Rattle.ff_ids.specs.declared.TheConstants.{MEMBERS};
ghost use Rattle.soak_lines.specs.Workload.{accusation_by, note_line, words_of};
ghost use Rattle.soak_lines.specs.Places.{IsHead, IsPlace, IsPlan, IsStep};
ghost use Rattle.soak_lines.specs.Turns.{head_turn, round_turn, turn_at};

use crate::draw::draw;
use crate::name::{accusation_name, note_name};
use crate::place::{Head, Place, Step};
use crate::plan::Plan;
use ff_ids::{Epoch, Mask, MemberId, NoteBody, RingNo};
use fields::NoMemory;
use lms_ots::OtsKind;
use lms_tree::TreeKind;
use rand_chacha::ChaCha20Rng;
use schedule_world::WorldLine;
use std::alloc::Global;

/// A line, and the place behind it.
#[derive(Debug, Drop)]
pub(crate) struct Turn {
    pub(crate) line: WorldLine,
    pub(crate) place: Place,
}

/// The note that the liar signs in this round: its epoch rises by 1 in ten rounds, and it enables all five rings.
fn note_line(alloc: Global, round: u16, liar: u16) -> Result<WorldLine, NoMemory>
    requires round { 1 ≤ round }
    requires liar { liar < MEMBERS }
    ensures { IfOk result (λ line. line ≡ note_line round liar) }
{
    let name = note_name(alloc, liar)?;
    let member = MemberId::new(liar);
    let epoch = Epoch::new(u64::from((round - 1) / 10) + 1);
    let mask = Mask(31);
    Ok(WorldLine::SignNote {
        key: member,
        note: NoteBody {
            member,
            epoch,
            mask,
        },
        name,
    })
}

/// The accusation that the liar signs: a victim among so many nodes is drawn, then a ring of the five.
fn accusation_line(
    alloc: Global,
    correct: u16,
    liar: u16,
    words: &mut ChaCha20Rng,
) -> Result<WorldLine, NoMemory>
    requires correct { (0 < correct) × (correct ≤ 32) }
    requires liar { liar < MEMBERS }
    ensures drawn { IfOk result
        (λ line. (line, words_of words.new) ≡ accusation_by correct liar (words_of words.old)) }
    ensures same { OnErr result (words.new ≡ words.old) }
{
    let name = accusation_name(alloc, liar)?;
    let key = MemberId::new(liar);
    let victim = draw(words, u32::from(correct));
    let ring = draw(words, 5);
    Ok(WorldLine::SignAccusation {
        key,
        accuser: key,
        accused: MemberId::new(victim as u16),
        epoch: None,
        ring: RingNo(ring as u8),
        name,
    })
}

fn head_turn(plan: &Plan, head: Head) -> Turn
    requires plan { IsPlan plan.now }
    requires head { IsHead plan.now head }
    ensures { result ≡ head_turn plan.now head }
{
    match head {
        Head::Header => Turn {
            line: WorldLine::Header,
            place: Place::Head(Head::Group),
        },
        Head::Group => Turn {
            line: WorldLine::Group {
                group: plan.group(),
            },
            place: Place::Head(Head::Kinds),
        },
        Head::Kinds => Turn {
            line: WorldLine::Kinds {
                ots: OtsKind::W4,
                tree: TreeKind::H10,
                bottom: None,
            },
            place: Place::node(plan, 0),
        },
        Head::Node(number) => Turn {
            line: WorldLine::Node {
                member: MemberId::new(number),
            },
            place: Place::node(plan, number + 1),
        },
        Head::Liar(number) => Turn {
            line: WorldLine::Liar {
                member: MemberId::new(number),
            },
            place: Place::liar(plan, number + 1),
        },
        Head::Begin => Turn {
            line: WorldLine::Begin,
            place: Place::start(plan, 0),
        },
        Head::Start(number) => Turn {
            line: WorldLine::Start {
                member: MemberId::new(number),
            },
            place: Place::start(plan, number + 1),
        },
    }
}

/// After want of memory the words are those before.
fn round_turn(
    alloc: Global,
    plan: &Plan,
    round: u16,
    step: Step,
    words: &mut ChaCha20Rng,
) -> Result<Turn, NoMemory>
    requires plan { IsPlan plan.now }
    requires round { (1 ≤ round) × (round ≤ plan.now.rounds) }
    requires step { IsStep plan.now step }
    ensures turn { IfOk result
        (λ t. (t, words_of words.new) ≡ round_turn plan.now round step (words_of words.old)) }
    ensures same { OnErr result (words.new ≡ words.old) }
{
    match step {
        Step::SignNote(liar) => Ok(Turn {
            line: note_line(alloc, round, liar)?,
            place: Place::Round(round, Step::GiveNote(liar)),
        }),
        Step::GiveNote(liar) => Ok(Turn {
            line: WorldLine::GiveAll {
                name: note_name(alloc, liar)?,
            },
            place: Place::note(plan, round, liar + 1),
        }),
        Step::Tick(number) => Ok(Turn {
            line: WorldLine::Tick {
                member: MemberId::new(number),
                ticks: 1,
            },
            place: Place::tick(plan, round, number + 1),
        }),
        Step::SignAccusation(liar) => Ok(Turn {
            line: accusation_line(alloc, plan.correct, liar, words)?,
            place: Place::Round(round, Step::GiveAccusation(liar)),
        }),
        Step::GiveAccusation(liar) => Ok(Turn {
            line: WorldLine::GiveAll {
                name: accusation_name(alloc, liar)?,
            },
            place: Place::accusation(plan, round, liar + 1),
        }),
        Step::Flow => Ok(Turn {
            line: WorldLine::Flow { most: 20_000 },
            place: Place::round(plan, round + 1),
        }),
    }
}

/// The line at this place, if there is one. After want of memory the words are those before.
pub(crate) fn next_turn(
    alloc: Global,
    plan: &Plan,
    place: Place,
    words: &mut ChaCha20Rng,
) -> Result<Option<Turn>, NoMemory>
    requires plan { IsPlan plan.now }
    requires place { IsPlace plan.now place }
    ensures turn { IfOk result
        (λ t. (t, words_of words.new) ≡ turn_at plan.now place (words_of words.old)) }
    ensures same { OnErr result (words.new ≡ words.old) }
{
    match place {
        Place::Head(head) => Ok(Some(head_turn(plan, head))),
        Place::Round(round, step) => Ok(Some(round_turn(alloc, plan, round, step, words)?)),
        Place::End => Ok(Some(Turn {
            line: WorldLine::End,
            place: Place::Done,
        })),
        Place::Done => Ok(None),
    }
}
