//! The texts of an authority, read whole.

ghost use Rattle.std.specs.Prelude.{◌≡◌, true, IfOk, IfErr};
ghost use Rattle.play.specs.Plays.{io};
ghost use Rattle.schedule_texts.specs.Shared.{IsGroup};
ghost use Rattle.schedule_texts.specs.declared.roster.RosterText.TheVariants as roster;
ghost use Rattle.schedule_texts.specs.declared.secret.SecretText.TheVariants as secret;
ghost use Rattle.whole_text.specs.Gathered.{IsUnfinished};
ghost use Rattle.authority.specs.Settings.{roster_judging, roster_setting, secret_judging, secret_setting};
ghost use Rattle.authority.specs.Texts.{HavePorts, IsRoster, IsSecret};

use crate::setting::Setting;
use line_text::BadWord;
use play::Stop;
use ports::{Sink, Source};
use schedule_texts::{RosterLine, RosterText, SecretLine, SecretText};
use std::alloc::Global;
use whole_text::read_whole;

/// What the lines of a secret's text set up.
fn secret_setting(lines: &[SecretLine]) -> Option<Setting>
    ensures { result ≡ secret_setting lines.now }
{
    match (lines.get(1), lines.get(2), lines.get(3)) {
        (
            Some(SecretLine::Group(group)),
            Some(SecretLine::Kinds(kinds)),
            Some(SecretLine::Secret(secret)),
        ) => Some(Setting {
            group: *group,
            kinds: *kinds,
            secret: *secret,
        }),
        _ => None,
    }
}

/// What the lines of a roster set up.
fn roster_setting(lines: &[RosterLine]) -> Option<Setting>
    ensures { result ≡ roster_setting lines.now }
{
    match (lines.get(1), lines.get(2), lines.get(3)) {
        (
            Some(RosterLine::Group(group)),
            Some(RosterLine::Kinds(kinds)),
            Some(RosterLine::Secret(secret)),
        ) => Some(Setting {
            group: *group,
            kinds: *kinds,
            secret: *secret,
        }),
        _ => None,
    }
}

/// Reads the text of a secret whole. Nothing is written.
pub fn read_secret_text<S: Source, O: Sink>(
    alloc: Global,
    input: &mut S,
    out: &mut O,
) -> Result<Setting, Stop<BadWord>>
    requires source { (S.state input.old).is_open ≡ true }
    requires sink { (O.state out.old).is_open ≡ true }
    ensures sink { (O.state out.new).is_open ≡ true }
    ensures sets { IfOk result (λ setting. IsSecret
        (io (S.state input.old) (O.state out.old))
        (io (S.state input.new) (O.state out.new)) setting) }
    ensures unfinished { IfErr result (λ stop. IsUnfinished secret_judging secret.Start
        (io (S.state input.old) (O.state out.old))
        (io (S.state input.new) (O.state out.new)) stop) }
{
    match read_whole(alloc, SecretText::Start, input, out) {
        Ok(lines) => match secret_setting(&lines) {
            Some(setting) => Ok(setting),
            None => unreachable!(),
        },
        Err(stop) => Err(stop),
    }
}

/// What a roster asks for: the setting, and the lines of the text, those of the certificates among them.
#[derive(Drop)]
pub struct Asked {
    pub setting: Setting,
    pub lines: Vec<RosterLine>,
}

/// Reads a roster whole. Nothing is written.
pub fn read_roster<S: Source, O: Sink>(
    alloc: Global,
    input: &mut S,
    out: &mut O,
) -> Result<Asked, Stop<BadWord>>
    requires source { (S.state input.old).is_open ≡ true }
    requires sink { (O.state out.old).is_open ≡ true }
    ensures sink { (O.state out.new).is_open ≡ true }
    ensures asks { IfOk result (λ asked. IsRoster
        (io (S.state input.old) (O.state out.old))
        (io (S.state input.new) (O.state out.new)) asked.setting asked.lines.items) }
    ensures unfinished { IfErr result (λ stop. IsUnfinished roster_judging roster.Start
        (io (S.state input.old) (O.state out.old))
        (io (S.state input.new) (O.state out.new)) stop) }
{
    match read_whole(alloc, RosterText::Start, input, out) {
        Ok(lines) => match roster_setting(&lines) {
            Some(setting) => Ok(Asked { setting, lines }),
            None => unreachable!(),
        },
        Err(stop) => Err(stop),
    }
}
