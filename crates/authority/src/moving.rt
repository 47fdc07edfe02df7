//! What a text that moves a store sets up, read whole.

ghost use Rattle.std.specs.Prelude.{◌≡◌, true, IfOk, IfErr};
ghost use Rattle.play.specs.Plays.{io};
ghost use Rattle.schedule_texts.specs.declared.migrate.MigrateText.TheVariants as migrate;
ghost use Rattle.whole_text.specs.Gathered.{IsUnfinished};
ghost use Rattle.authority.specs.Moved.{IsMigration, left_setting, migrate_judging, migrate_setting};

use crate::setting::Setting;
use ff_ids::Group;
use line_text::BadWord;
use play::Stop;
use ports::{Sink, Source};
use schedule_texts::{MigrateText, SecretLine};
use std::alloc::Global;
use whole_text::read_whole;

/// The group in which the store of a key is, and the group to which it moves, with the key.
#[derive(Clone, Copy)]
pub struct Moving {
    pub from: Group,
    pub setting: Setting,
}

impl Moving {
    /// The key in the group in which its store is.
    pub fn left(&self) -> Setting
        ensures { result ≡ left_setting self.now }
    {
        Setting {
            group: self.from,
            kinds: self.setting.kinds,
            secret: self.setting.secret,
        }
    }
}

/// What the lines of a text that moves a store set up.
fn migrate_setting(lines: &[SecretLine]) -> Option<Moving>
    ensures { result ≡ migrate_setting lines.now }
{
    match (lines.get(1), lines.get(2), lines.get(3), lines.get(4)) {
        (
            Some(SecretLine::Group(from)),
            Some(SecretLine::Group(group)),
            Some(SecretLine::Kinds(kinds)),
            Some(SecretLine::Secret(secret)),
        ) => Some(Moving {
            from: *from,
            setting: Setting {
                group: *group,
                kinds: *kinds,
                secret: *secret,
            },
        }),
        _ => None,
    }
}

/// Reads a text that moves a store whole. Nothing is written.
pub fn read_migrate_text<S: Source, O: Sink>(
    alloc: Global,
    input: &mut S,
    out: &mut O,
) -> Result<Moving, Stop<BadWord>>
    requires source { (S.state input.old).is_open ≡ true }
    requires sink { (O.state out.old).is_open ≡ true }
    ensures sink { (O.state out.new).is_open ≡ true }
    ensures moves { IfOk result (λ moving. IsMigration
        (io (S.state input.old) (O.state out.old))
        (io (S.state input.new) (O.state out.new)) moving) }
    ensures unfinished { IfErr result (λ stop. IsUnfinished migrate_judging migrate.Start
        (io (S.state input.old) (O.state out.old))
        (io (S.state input.new) (O.state out.new)) stop) }
{
    match read_whole(alloc, MigrateText::Start, input, out) {
        Ok(lines) => match migrate_setting(&lines) {
            Some(moving) => Ok(moving),
            None => unreachable!(),
        },
        Err(stop) => Err(stop),
    }
}
