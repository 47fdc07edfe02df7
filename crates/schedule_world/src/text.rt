//! The world form, line by line.

ghost use Rattle.std.specs.Prelude.{◌≡◌, ◌+◌, ◌<◌, ◌≤◌, length};
ghost use Rattle.ff_ids.specs.declared.TheConstants.{MAX_TOLERANCE};
ghost use Rattle.line_text.specs.Answers.{AnswersBy};
ghost use Rattle.schedule_world.specs.Rows.{TakesMemory, is_below_kinds, is_ended, may_name, may_stand, reads, row_for, ticks_left, tolerance, words_line, world_table};
ghost use Rattle.schedule_world.specs.Grammar.{IsSound, IsWorld, after, below_heal, named, ticks_of, ticked, with_member};

use crate::line::{LineWord, WorldLine};
use crate::named::Named;
use crate::read::{
    arm_line, deliver_line, flow_line, leave_line, lone_line, monitor_line, start_line, stop_line,
    tick_line, view_line,
};
use crate::roster::{group_line, heal_line, kinds_line, liar_line, node_line};
use crate::signing::{give_all_line, give_line, raw_line, sign_accusation_line, sign_note_line};
use ff_ids::MemberId;
use line_text::{BadWord, Form, LineFault, TableForm, Words, judge_by_table};
use std::alloc::Global;

/// How many ticks a schedule may have.
const TICKS: u32 = 100_000;

/// What has been read of a schedule in the world form.
#[derive(Debug, Drop)]
pub enum WorldText {
    /// Nothing: the header comes next.
    Start,
    /// The header: the group comes next.
    Headed,
    /// The group, of tolerance `t`: the kinds of keys come next.
    Grouped {
        t: u8,
    },
    /// The kinds, a line `heal` or none, and these members, of which one is a node or none.
    Roster {
        t: u8,
        has_heal: bool,
        named: Named,
        has_node: bool,
    },
    /// The whole roster, and so many ticks.
    Body {
        t: u8,
        ticks: u32,
    },
    /// The line `end`.
    Ended,
}

impl WorldText {
    /// Whether the kinds were read last.
    fn is_below_kinds(&self) -> bool
        ensures { result ≡ is_below_kinds self.now }
    {
        match self {
            WorldText::Roster {
                has_heal,
                named,
                ..
            } => !*has_heal && named.is_empty(),
            _ => false,
        }
    }

    /// Whether a line with this word may stand here.
    fn may_stand(&self, word: LineWord) -> bool
        ensures { result ≡ may_stand self.now word }
    {
        match word {
            LineWord::Group => matches!(self, WorldText::Headed),
            LineWord::Kinds => matches!(self, WorldText::Grouped { .. }),
            LineWord::Heal => self.is_below_kinds(),
            LineWord::Node | LineWord::Liar => matches!(self, WorldText::Roster { .. }),
            LineWord::Begin => matches!(self, WorldText::Roster { has_node: true, .. }),
            _ => matches!(self, WorldText::Body { .. }),
        }
    }

    /// The tolerance of the group, below it.
    pub(crate) fn tolerance(&self) -> u8
        ensures { result ≡ tolerance self.now }
    {
        match self {
            WorldText::Grouped { t } | WorldText::Roster { t, .. } | WorldText::Body { t, .. } =>
                *t,
            WorldText::Start | WorldText::Headed | WorldText::Ended => 0,
        }
    }

    /// Whether the member may be named: in a roster with room for it that hasn't named it.
    pub(crate) fn may_name(&self, member: MemberId) -> bool
        ensures { result ≡ may_name self.now member }
    {
        match self {
            WorldText::Roster { named, .. } => named.has_room() && !named.contains(member),
            _ => false,
        }
    }

    /// How many ticks may still come.
    pub(crate) fn ticks_left(&self) -> u32
        ensures { result ≡ ticks_left self.now }
    {
        match self {
            WorldText::Body { ticks, .. } => TICKS.saturating_sub(*ticks),
            _ => 0,
        }
    }

    /// The line of this line word.
    fn words_line(&self, alloc: Global, word: LineWord, args: Words) -> Result<WorldLine, LineFault>
        requires { tolerance self.now ≤ MAX_TOLERANCE }
        ensures { AnswersBy TakesMemory (words_line self.now word args.entry) result }
    {
        match word {
            LineWord::Group => Ok(group_line(args)?),
            LineWord::Kinds => Ok(kinds_line(args)?),
            LineWord::Heal => Ok(heal_line(args)?),
            LineWord::Node => Ok(node_line(self, args)?),
            LineWord::Liar => Ok(liar_line(self, args)?),
            LineWord::Begin => Ok(lone_line(WorldLine::Begin, args)?),
            LineWord::Start => Ok(start_line(args)?),
            LineWord::Stop => Ok(stop_line(args)?),
            LineWord::Arm => Ok(arm_line(args)?),
            LineWord::Tick => Ok(tick_line(self, args)?),
            LineWord::Leave => Ok(leave_line(args)?),
            LineWord::Deliver => Ok(deliver_line(args)?),
            LineWord::Flow => Ok(flow_line(args)?),
            LineWord::Raw => raw_line(alloc, args),
            LineWord::SignNote => sign_note_line(alloc, args),
            LineWord::SignAccusation => sign_accusation_line(alloc, args),
            LineWord::Give => give_line(alloc, args),
            LineWord::GiveAll => give_all_line(alloc, args),
            LineWord::View => Ok(view_line(args)?),
            LineWord::Monitor => Ok(monitor_line(self, args)?),
            LineWord::End => Ok(lone_line(WorldLine::End, args)?),
        }
    }

    /// Notes a line `heal`, in a roster.
    fn heal(&mut self)
        ensures { self.new ≡ below_heal self.old }
    {
        if let WorldText::Roster { has_heal, .. } = self {
            *has_heal = true;
        }
    }

    /// Names a member, in a roster. Fewer than 32 are named.
    fn name(&mut self, member: MemberId, is_node: bool)
        requires { length (named self.old) < 32 }
        ensures { self.new ≡ with_member member is_node self.old }
    {
        if let WorldText::Roster {
            named,
            has_node,
            ..
        } = self
        {
            named.push(member);
            *has_node = *has_node || is_node;
        }
    }

    /// Counts ticks.
    fn count(&mut self, more: u32)
        requires { ticks_of self.old + more ≤ 100000 }
        ensures { self.new ≡ ticked more self.old }
    {
        if let WorldText::Body { ticks, .. } = self {
            *ticks += more;
        }
    }
}

impl TableForm for WorldText {
    ghost use Rattle.schedule_world.specs.Laws.{world-reads};

    type Line = WorldLine;

    type Word = LineWord;

    ghost table = { world_table };

    ghost is_sound = { IsSound };

    ghost takes_memory = { TakesMemory };

    ghost reads = { reads };

    fn is_start(&self) -> bool {
        matches!(self, WorldText::Start)
    }

    #[tactic(auto, using(line_text::proofs::FrameLemmas::header_read))]
    fn header_line(words: Words) -> Result<WorldLine, BadWord> {
        if words.is_header(b"world") {
            Ok(WorldLine::Header)
        } else {
            Err(BadWord::Header)
        }
    }

    fn line_word(word: &[u8]) -> Result<LineWord, BadWord> {
        if word == b"group".as_slice() {
            Ok(LineWord::Group)
        } else if word == b"kinds".as_slice() {
            Ok(LineWord::Kinds)
        } else if word == b"heal".as_slice() {
            Ok(LineWord::Heal)
        } else if word == b"node".as_slice() {
            Ok(LineWord::Node)
        } else if word == b"liar".as_slice() {
            Ok(LineWord::Liar)
        } else if word == b"begin".as_slice() {
            Ok(LineWord::Begin)
        } else if word == b"start".as_slice() {
            Ok(LineWord::Start)
        } else if word == b"stop".as_slice() {
            Ok(LineWord::Stop)
        } else if word == b"arm".as_slice() {
            Ok(LineWord::Arm)
        } else if word == b"tick".as_slice() {
            Ok(LineWord::Tick)
        } else if word == b"leave".as_slice() {
            Ok(LineWord::Leave)
        } else if word == b"deliver".as_slice() {
            Ok(LineWord::Deliver)
        } else if word == b"flow".as_slice() {
            Ok(LineWord::Flow)
        } else if word == b"raw".as_slice() {
            Ok(LineWord::Raw)
        } else if word == b"sign-note".as_slice() {
            Ok(LineWord::SignNote)
        } else if word == b"sign-accusation".as_slice() {
            Ok(LineWord::SignAccusation)
        } else if word == b"give".as_slice() {
            Ok(LineWord::Give)
        } else if word == b"give-all".as_slice() {
            Ok(LineWord::GiveAll)
        } else if word == b"view".as_slice() {
            Ok(LineWord::View)
        } else if word == b"monitor".as_slice() {
            Ok(LineWord::Monitor)
        } else if word == b"end".as_slice() {
            Ok(LineWord::End)
        } else {
            Err(BadWord::Word)
        }
    }

    fn line_of(&self, alloc: Global, word: LineWord, args: Words) -> Result<WorldLine, LineFault> {
        if self.may_stand(word) {
            self.words_line(alloc, word, args)
        } else {
            Err(LineFault::Bad(BadWord::Order))
        }
    }

    ghost as_table = { world-reads };
}

impl Form for WorldText {
    ghost use Rattle.schedule_world.specs.Laws.{world-spelled, world-taken};

    type Line = WorldLine;

    ghost is_sound = { IsSound };

    ghost is_ended = { is_ended };

    ghost row_for = { row_for };

    ghost spells = { IsWorld };

    ghost takes_memory = { TakesMemory };

    ghost after = { after };

    fn is_ended(&self) -> bool {
        matches!(self, WorldText::Ended)
    }

    fn judge(&self, alloc: Global, words: Words) -> Result<WorldLine, LineFault> {
        judge_by_table(self, alloc, words)
    }

    fn advance(&mut self, line: &WorldLine) {
        match line {
            WorldLine::Header => *self = WorldText::Headed,
            WorldLine::Group { group } => *self = WorldText::Grouped { t: group.t },
            WorldLine::Kinds { .. } => {
                *self = WorldText::Roster {
                    t: self.tolerance(),
                    has_heal: false,
                    named: Named::new(),
                    has_node: false,
                }
            }
            WorldLine::Heal { .. } => self.heal(),
            WorldLine::Node { member } => self.name(*member, true),
            WorldLine::Liar { member } => self.name(*member, false),
            WorldLine::Begin => {
                *self = WorldText::Body {
                    t: self.tolerance(),
                    ticks: 0,
                }
            }
            WorldLine::Tick { ticks, .. } => self.count(*ticks),
            WorldLine::End => *self = WorldText::Ended,
            _ => {}
        }
    }

    ghost spelled = { world-spelled };

    ghost taken = { world-taken };
}
