//! The lines of the roster, which stand before `begin`.

ghost use Rattle.std.specs.Prelude.{◌≡◌};
ghost use Rattle.line_text.specs.Frame.{fields_line, whole_line};
ghost use Rattle.line_text.specs.Shapes.{tests};
ghost use Rattle.schedule_world.specs.Rows.{any_line, one_level, one_level_line, two_level_fault, two_level_line, two_levels, words_line};

use crate::line::{LineWord, WorldLine};
use crate::take::{take_height, take_newcomer, take_width};
use crate::text::WorldText;
use ff_ids::{Group, Heal, MAX_TOLERANCE};
use line_text::{BadWord, Words};
use sign_keys::Kinds;

pub(crate) fn group_line(args: Words) -> Result<WorldLine, BadWord>
    ensures { result ≡ any_line LineWord.Group args.entry }
{
    let mut args = args.exactly(5)?;
    let t = args.number(1, MAX_TOLERANCE as u64)?;
    let timeout = args.number(1, 10_000)?;
    let period = args.number(1, 1_000)?;
    let misses = args.number(1, 16)?;
    let tag = args.bytes::<16>()?;
    Ok(WorldLine::Group {
        group: Group {
            tag,
            t: t as u8,
            timeout: timeout as u32,
            period: period as u32,
            misses: misses as u8,
        },
    })
}

/// The kinds of keys of one level.
fn one_level_line(args: Words) -> Result<WorldLine, BadWord>
    ensures { result ≡ fields_line (tests one_level) one_level_line args.entry }
{
    let mut args = args.exactly(2)?;
    Ok(WorldLine::Kinds {
        ots: take_width(&mut args)?,
        tree: take_height(&mut args)?,
        bottom: None,
    })
}

/// The kinds of keys of two levels.
fn two_level_line(args: Words) -> Result<WorldLine, BadWord>
    ensures { result ≡ whole_line (tests two_levels) two_level_fault two_level_line args.entry }
{
    let mut args = args.exactly(3)?;
    let ots = take_width(&mut args)?;
    let tree = take_height(&mut args)?;
    let bottom = Some(take_height(&mut args)?);
    let kinds = Kinds { ots, tree, bottom };
    if kinds.is_in_profile() {
        Ok(WorldLine::Kinds { ots, tree, bottom })
    } else {
        Err(BadWord::Limit)
    }
}

#[tactic(auto, using(crate::proofs::KindLemmas::kinds_short, crate::proofs::KindLemmas::kinds_long))]
pub(crate) fn kinds_line(args: Words) -> Result<WorldLine, BadWord>
    ensures { result ≡ any_line LineWord.Kinds args.entry }
{
    if args.count() == 3 {
        two_level_line(args)
    } else {
        one_level_line(args)
    }
}

pub(crate) fn heal_line(args: Words) -> Result<WorldLine, BadWord>
    ensures { result ≡ any_line LineWord.Heal args.entry }
{
    let mut args = args.exactly(2)?;
    let every = args.number(2, 1_000)?;
    let most = args.number(0, 1_000)?;
    match Heal::new(every as u16, most as u16) {
        Some(heal) => Ok(WorldLine::Heal { heal }),
        None => unreachable!(),
    }
}

pub(crate) fn node_line(text: &WorldText, args: Words) -> Result<WorldLine, BadWord>
    ensures { result ≡ words_line text.now LineWord.Node args.entry }
{
    let mut args = args.exactly(1)?;
    let member = take_newcomer(text, &mut args)?;
    Ok(WorldLine::Node { member })
}

pub(crate) fn liar_line(text: &WorldText, args: Words) -> Result<WorldLine, BadWord>
    ensures { result ≡ words_line text.now LineWord.Liar args.entry }
{
    let mut args = args.exactly(1)?;
    let member = take_newcomer(text, &mut args)?;
    Ok(WorldLine::Liar { member })
}
