// The commands.

ghost use Rattle.std.specs.Prelude.{◌≡◌, ◌≤◌, map, string_bytes, IfSome};
ghost use Rattle.command_line.specs.Commands.{FitsCommand, command_behind, command_drawn, command_for, command_leaving, command_named, command_of, command_over, command_with, is_store_name, spelled_in, store_behind, store_in, turns_in};

use line_text::Words;
use node_command::Stay;

/// How many bytes the name of a store may have.
const STORE_NAME: usize = 255;

/// How many turns a node may be served for.
const TURNS: u64 = 1_000_000;

/// How many members a workload may have.
const MEMBERS: u64 = 32;

/// How many rounds a workload may have.
const ROUNDS: u64 = 1_000;

/// What the program does.
#[derive(Clone, Copy, Debug, PartialEq, Eq)]
pub enum Command {
    /// `replay`: plays a recorded schedule, and writes its trace.
    Replay,
    /// `verify`: answers whether a signature is good.
    Verify,
    /// `store STORE`: makes a store, and writes its key.
    Store,
    /// `enroll STORE`: signs certificates with the authority's store.
    Enroll,
    /// `migrate STORE`: moves a store to another group, and writes where it goes on.
    Migrate,
    /// `node STORE TURNS`: runs a member with its store for some turns, and writes the journal of its life. With the word
    /// `leave` behind them it leaves behind the last turn.
    Node {
        stay: Stay,
    },
    /// `soak SEED NODES ROUNDS`: plays a seeded attack on a world, and writes what was counted in it.
    Soak {
        seed: u64,
        members: u16,
        rounds: u16,
    },
}

/// Whether a store may have this name: any of 1 to 255 bytes.
fn is_store_name(name: &str) -> bool
    ensures { result ≡ is_store_name name.now }
{
    !name.is_empty() && name.len() <= STORE_NAME
}

/// The number that the word spells, from the least to the most.
fn number_in(word: &str, least: u64, most: u64) -> Option<u64>
    ensures number { result ≡ spelled_in least most word.now }
    ensures range { IfSome result (λ n. (least ≤ n) × (n ≤ most)) }
{
    let mut words = Words::of(word.as_bytes())?;
    if words.count() != 1 {
        return None;
    }
    match words.number(least, most) {
        Ok(number) => Some(number),
        Err(_) => None,
    }
}

/// The number of turns that the word spells, from 1 to 1,000,000.
fn turns_in(word: &str) -> Option<u32>
    ensures { result ≡ turns_in word.now }
{
    match number_in(word, 1, TURNS) {
        Some(turns) => Some(turns as u32),
        None => None,
    }
}

/// The name of the store among four words: the second of those of `node`, nothing for any other.
fn store_behind<'a>(word: &str, name: &'a str) -> &'a str
    ensures { result.now ≡ store_behind word.now name.now }
{
    if word == "node" { name } else { "" }
}

/// The name of the store, behind the word of the command; nothing where there is no such word.
pub(crate) fn store_in(words: &[String]) -> &str
    ensures { result.now ≡ store_in (map string_bytes words.now) }
{
    match words {
        [_, name] => name.as_str(),
        [_, name, _] => name.as_str(),
        [word, name, _, _] => store_behind(word.as_str(), name.as_str()),
        _ => "",
    }
}

impl Command {
    fn named(word: &str) -> Option<Command>
        ensures { result ≡ command_named word.now }
    {
        if word == "replay" {
            Some(Command::Replay)
        } else if word == "verify" {
            Some(Command::Verify)
        } else {
            None
        }
    }

    /// The command of this word, behind which the name of a store stands.
    fn with(word: &str) -> Option<Command>
        ensures { result ≡ command_with word.now }
    {
        if word == "store" {
            Some(Command::Store)
        } else if word == "enroll" {
            Some(Command::Enroll)
        } else if word == "migrate" {
            Some(Command::Migrate)
        } else {
            None
        }
    }

    /// The command of this word, behind which the name of a store and a number of turns stand.
    fn over(word: &str, turns: &str) -> Option<Command>
        ensures { result ≡ command_over word.now turns.now }
    {
        if word != "node" {
            return None;
        }
        Command::served(turns, false)
    }

    /// `node` with the number of turns that the word spells.
    fn served(turns: &str, leave: bool) -> Option<Command>
        ensures { result ≡ command_for leave (turns_in turns.now) }
    {
        match turns_in(turns) {
            Some(turns) => Some(Command::Node {
                stay: Stay { turns, leave },
            }),
            None => None,
        }
    }

    /// `node` with a number of turns, behind which a last word stands.
    fn leaving(turns: &str, last: &str) -> Option<Command>
        ensures { result ≡ command_leaving turns.now last.now }
    {
        if last != "leave" {
            return None;
        }
        Command::served(turns, true)
    }

    /// The command of this word, behind which a seed, a number of members and one of rounds stand.
    fn drawn(word: &str, seed: &str, members: &str, rounds: &str) -> Option<Command>
        ensures command { result ≡ command_drawn word.now seed.now members.now rounds.now }
        ensures fits { IfSome result FitsCommand }
    {
        if word != "soak" {
            return None;
        }
        let seed = number_in(seed, 0, u64::MAX)?;
        let members = number_in(members, 3, MEMBERS)?;
        let rounds = number_in(rounds, 1, ROUNDS)?;
        Some(Command::Soak {
            seed,
            members: members as u16,
            rounds: rounds as u16,
        })
    }

    /// The command of this word, behind which three others stand.
    fn behind(word: &str, one: &str, two: &str, three: &str) -> Option<Command>
        ensures command { result ≡ command_behind word.now one.now two.now three.now }
        ensures fits { IfSome result FitsCommand }
    {
        if word != "node" {
            return Command::drawn(word, one, two, three);
        }
        if !is_store_name(one) {
            return None;
        }
        Command::leaving(two, three)
    }

    /// The command that the words name, if they name one.
    pub fn of(words: &[String]) -> Option<Command>
        ensures command { result ≡ command_of (map string_bytes words.now) }
        ensures fits { IfSome result FitsCommand }
    {
        match words {
            [word] => Command::named(word.as_str()),
            [word, name] if is_store_name(name.as_str()) => Command::with(word.as_str()),
            [word, name, turns] if is_store_name(name.as_str()) => {
                Command::over(word.as_str(), turns.as_str())
            }
            [word, one, two, three] => {
                Command::behind(word.as_str(), one.as_str(), two.as_str(), three.as_str())
            }
            _ => None,
        }
    }
}
