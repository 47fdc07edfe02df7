//! The forms of text, as one.

ghost use Rattle.std.specs.Prelude.{◌≡◌, ℕ, List};
ghost use Rattle.line_text.specs.Answers.{AnswersBy};
ghost use Rattle.line_text.specs.Frame.{behind, row_line};
ghost use Rattle.schedule.specs.Forms.{IsSound, Spells, TakesMemory, after, form_of, header_row, is_ended, row_for};

use line_text::{Form, LineFault, Words};
use schedule_direct::{Direct, DirectLine};
use schedule_texts::{
    HeadLine, HeadText, KitLine, KitText, MigrateText, RosterLine, RosterText, SecretLine,
    SecretText,
};
use schedule_world::{WorldLine, WorldText};
use std::alloc::Global;
use verify_text::{Verify, VerifyLine};

/// The command whose text is read.
#[derive(Clone, Copy, Debug, PartialEq, Eq)]
pub enum Command {
    /// A schedule.
    Replay,
    /// A question whether a signature is good.
    Verify,
    /// The secret of an authority's key, for which a store is made.
    Secret,
    /// The two groups of a store that moves from one to the other.
    Migrate,
    /// The members whose certificates an authority is asked for.
    Roster,
    /// What a member starts from.
    Kit,
    /// What a life is judged from, above its journal.
    Audit,
}

/// One line of a text, by its form. Some hold a secret, so a line is not printed.
#[derive(Drop)]
pub enum Line {
    /// A line of a schedule in the direct form.
    Direct(DirectLine),
    /// A line of a schedule in the world form.
    World(WorldLine),
    /// A line of a text that asks whether a signature is good.
    Verify(VerifyLine),
    /// A line of the text of a secret.
    Secret(SecretLine),
    /// A line of the text of a store that moves.
    Migrate(SecretLine),
    /// A line of a roster.
    Roster(RosterLine),
    /// A line of the text of a member.
    Kit(KitLine),
    /// A line of the head of an audit.
    Head(HeadLine),
}

/// What has been read of a text, by its form.
#[derive(Drop)]
pub enum Text {
    /// A schedule of which nothing has been read: its header says the form.
    Schedule,
    /// A schedule in the direct form.
    Direct(Direct),
    /// A schedule in the world form.
    World(WorldText),
    /// A text that asks whether a signature is good.
    Verify(Verify),
    /// The text of a secret.
    Secret(SecretText),
    /// The text of a store that moves.
    Migrate(MigrateText),
    /// A roster.
    Roster(RosterText),
    /// The text of a member.
    Kit(KitText),
    /// The head of an audit.
    Head(HeadText),
}

impl Text {
    /// The text of a command, of which nothing has been read.
    pub fn of(command: Command) -> Text
        ensures { result ≡ form_of command }
    {
        match command {
            Command::Replay => Text::Schedule,
            Command::Verify => Text::Verify(Verify::Start),
            Command::Secret => Text::Secret(SecretText::Start),
            Command::Migrate => Text::Migrate(MigrateText::Start),
            Command::Roster => Text::Roster(RosterText::Start),
            Command::Kit => Text::Kit(KitText::Start),
            Command::Audit => Text::Head(HeadText::Start),
        }
    }
}

/// The header of a schedule, in one of its forms.
fn schedule_header(alloc: Global, words: Words) -> Result<Line, LineFault>
    ensures { AnswersBy TakesMemory (row_line (header_row words.entry) (behind words.entry))
        result }
{
    if words.again().is_header(b"world") {
        Ok(Line::World(WorldText::Start.judge(alloc, words)?))
    } else {
        Ok(Line::Direct(Direct::Start.judge(alloc, words)?))
    }
}

/// The text of a schedule behind its header, in the header's form.
fn schedule_text(line: &Line) -> Text
    requires { (words : List (List ℕ)) × Spells Text.Schedule words line.now }
    ensures { result ≡ after Text.Schedule line.now }
{
    match line {
        Line::Direct(line) => {
            let mut direct = Direct::Start;
            direct.advance(line);
            Text::Direct(direct)
        }
        Line::World(line) => {
            let mut world = WorldText::Start;
            world.advance(line);
            Text::World(world)
        }
        Line::Verify(_)
        | Line::Secret(_)
        | Line::Migrate(_)
        | Line::Roster(_)
        | Line::Kit(_)
        | Line::Head(_) => Text::Schedule,
    }
}

impl Form for Text {
    ghost use Rattle.schedule.specs.Laws.{text-spelled, text-taken};

    type Line = Line;

    ghost is_sound = { IsSound };

    ghost is_ended = { is_ended };

    ghost row_for = { row_for };

    ghost spells = { Spells };

    ghost takes_memory = { TakesMemory };

    ghost after = { after };

    fn is_ended(&self) -> bool {
        match self {
            Text::Schedule => false,
            Text::Direct(direct) => direct.is_ended(),
            Text::World(world) => world.is_ended(),
            Text::Verify(verify) => verify.is_ended(),
            Text::Secret(secret) => secret.is_ended(),
            Text::Migrate(migrate) => migrate.is_ended(),
            Text::Roster(roster) => roster.is_ended(),
            Text::Kit(kit) => kit.is_ended(),
            Text::Head(head) => head.is_ended(),
        }
    }

    fn judge(&self, alloc: Global, words: Words) -> Result<Line, LineFault> {
        match self {
            Text::Schedule => schedule_header(alloc, words),
            Text::Direct(direct) => Ok(Line::Direct(direct.judge(alloc, words)?)),
            Text::World(world) => Ok(Line::World(world.judge(alloc, words)?)),
            Text::Verify(verify) => Ok(Line::Verify(verify.judge(alloc, words)?)),
            Text::Secret(secret) => Ok(Line::Secret(secret.judge(alloc, words)?)),
            Text::Migrate(migrate) => Ok(Line::Migrate(migrate.judge(alloc, words)?)),
            Text::Roster(roster) => Ok(Line::Roster(roster.judge(alloc, words)?)),
            Text::Kit(kit) => Ok(Line::Kit(kit.judge(alloc, words)?)),
            Text::Head(head) => Ok(Line::Head(head.judge(alloc, words)?)),
        }
    }

    fn advance(&mut self, line: &Line) {
        if matches!(self, Text::Schedule) {
            *self = schedule_text(line);
            return;
        }
        match (self, line) {
            (Text::Direct(direct), Line::Direct(line)) => direct.advance(line),
            (Text::World(world), Line::World(line)) => world.advance(line),
            (Text::Verify(verify), Line::Verify(line)) => verify.advance(line),
            (Text::Secret(secret), Line::Secret(line)) => secret.advance(line),
            (Text::Migrate(migrate), Line::Migrate(line)) => migrate.advance(line),
            (Text::Roster(roster), Line::Roster(line)) => roster.advance(line),
            (Text::Kit(kit), Line::Kit(line)) => kit.advance(line),
            (Text::Head(head), Line::Head(line)) => head.advance(line),
            _ => {}
        }
    }

    ghost spelled = { text-spelled };

    ghost taken = { text-taken };
}
