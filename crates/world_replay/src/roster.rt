//! The roster of a schedule.

ghost use Rattle.std.specs.Prelude.{◌≡◌, ◌∷◌, ◌++◌, [], IfOk, OnErr, OnOk};
ghost use Rattle.world_rules.specs.Walk.{listed, no_roster, setting_in};
ghost use Rattle.world_rules.specs.Worlds.{begun_world};
ghost use Rattle.world.specs.Holding.{Holds};
ghost use Rattle.world_text.specs.Lines.{Began, line_text};
ghost use Rattle.world_replay.specs.Stages.{CanBegin, CanList, IsBehind};

use ff_ids::{Group, Heal, MemberId};
use fields::NoMemory;
use lms_ots::OtsKind;
use lms_tree::TreeKind;
use schedule_world::WorldLine;
use sign_keys::Kinds;
use std::alloc::Global;
use std::marker::Model;
use world::World;
use world_text::write_line;

/// The group, the kinds of the members' keys, whether nodes that lost each other come together again, the nodes and
/// the liars, as far as they were read.
#[derive(Drop)]
pub struct Roster {
    group: Group,
    kinds: Kinds,
    heal: Option<Heal>,
    nodes: Vec<MemberId>,
    liars: Vec<MemberId>,
}

impl Model for Roster {
    ghost use Rattle.world_rules.specs.Walk as walk;

    ghost Value = { walk.Roster };

    ghost view = { λ r. record {
      group = r.group;
      kinds = r.kinds;
      heal = r.heal;
      correct = r.nodes.items;
      liars = r.liars.items;
    } };
}

/// Adds the line and a line feed. Where memory is refused, a part of them may be there.
fn write_alone(line: &WorldLine, out: &mut Vec<u8>) -> Result<(), NoMemory>
    ensures ok { OnOk result (out.new.items ≡ out.old.items ++ (line_text line.now ++ 10 ∷ [])) }
    ensures refused { OnErr result (Began out.old.items out.new.items) }
{
    write_line(line, out)?;
    out.push(b'\n')?;
    Ok(())
}

/// Takes a line of the roster, and adds it, with a line feed. Behind `begin` there is a world. Where memory is refused, a
/// part of the text may be there.
pub(crate) fn take_listed(
    alloc: Global,
    roster: &mut Roster,
    line: &WorldLine,
    out: &mut Vec<u8>,
) -> Result<Option<World>, NoMemory>
    requires { CanList roster.old line.now }
    ensures listed { IfOk result
        (λ begun. IsBehind (listed setting_in roster.old line.now) roster.new begun) }
    ensures ok { OnOk result (out.new.items ≡ out.old.items ++ (line_text line.now ++ 10 ∷ [])) }
    ensures refused { OnErr result (Began out.old.items out.new.items) }
{
    write_alone(line, out)?;
    roster.list(alloc, line)
}

impl Roster {
    /// Nothing was read.
    pub(crate) fn new(alloc: Global) -> Roster
        ensures { result ≡ no_roster }
    {
        Roster {
            group: Group {
                tag: [0; 16],
                t: 1,
                timeout: 1,
                period: 1,
                misses: 1,
            },
            kinds: Kinds {
                ots: OtsKind::W1,
                tree: TreeKind::H5,
                bottom: None,
            },
            heal: None,
            nodes: Vec::new(alloc),
            liars: Vec::new(alloc),
        }
    }

    /// Takes a line of the roster. Behind `begin` there is a world.
    fn list(&mut self, alloc: Global, line: &WorldLine) -> Result<Option<World>, NoMemory>
        requires { CanList self.old line.now }
        ensures { IfOk result
            (λ begun. IsBehind (listed setting_in self.old line.now) self.new begun) }
    {
        match line {
            WorldLine::Group { group } => self.group = *group,
            WorldLine::Kinds { ots, tree, bottom } => {
                self.kinds = Kinds {
                    ots: *ots,
                    tree: *tree,
                    bottom: *bottom,
                };
            }
            WorldLine::Heal { heal } => self.heal = Some(*heal),
            WorldLine::Node { member } => self.nodes.push(*member)?,
            WorldLine::Liar { member } => self.liars.push(*member)?,
            WorldLine::Begin => return Ok(Some(self.open(alloc)?)),
            _ => {}
        }
        Ok(None)
    }

    /// The world that begins with this roster.
    fn open(&self, alloc: Global) -> Result<World, NoMemory>
        requires { CanBegin self.now }
        ensures { IfOk result
            (λ world. Holds (setting_in self.now) (begun_world (setting_in self.now)) []
            world) }
    {
        World::open(
            alloc,
            self.group,
            self.kinds.ots,
            self.kinds.tree,
            &self.nodes,
            &self.liars,
            self.kinds.bottom,
            self.heal,
        )
    }
}
