//! Floor: checks. All benches, of which the words pick one: `lms`, `pairs`, `records`, `signer` and `node` print times;
//! `read` reads a datagram's worth of records and prints how many it could; `hold` keeps a node among 1,000 members until
//! a line comes; `receive PORT TURNS FROM` is the plain side of the times of a node that is served, and `hash COUNT` prints
//! the time of so many plain calls of SHA-256; `call WORD` makes one call of a node. With other words it says so, and
//! exits with 2. The scripts in `bench/` run it.
#![tactic(auto)]

mod call;
mod checking;
mod lms;
mod node;
mod pairs;
mod reading;
mod receiving;
mod signing;
mod timing;

use call::{Call, print_call};
use receiving::receive_and_write;
use std::io;
use std::process::ExitCode;
use timing::plain_calls;

/// Which bench is run.
enum Bench {
    Lms,
    Pairs,
    Records,
    Read,
    Signer,
    Node,
    Hold,
    Receive { port: u16, turns: u32, from: u16 },
    Hash { count: u64 },
    Call(Call),
}

impl Bench {
    /// The bench of these words.
    fn of(words: &[String]) -> Option<Bench> {
        match words {
            [word] => Bench::of_word(word.as_str()),
            [word, count] if word.as_str() == "hash" => Some(Bench::Hash {
                count: count.parse::<u64>().ok()?,
            }),
            [word, which] if word.as_str() == "call" => Bench::of_call(which.as_str()),
            [word, port, turns, from] if word.as_str() == "receive" => Some(Bench::Receive {
                port: port.parse::<u16>().ok()?,
                turns: turns.parse::<u32>().ok()?,
                from: from.parse::<u16>().ok()?,
            }),
            _ => None,
        }
    }

    fn of_word(word: &str) -> Option<Bench> {
        match word {
            "lms" => Some(Bench::Lms),
            "pairs" => Some(Bench::Pairs),
            "records" => Some(Bench::Records),
            "read" => Some(Bench::Read),
            "signer" => Some(Bench::Signer),
            "node" => Some(Bench::Node),
            "hold" => Some(Bench::Hold),
            _ => None,
        }
    }

    fn of_call(word: &str) -> Option<Bench> {
        match word {
            "records" => Some(Bench::Call(Call::Records)),
            "summary" => Some(Bench::Call(Call::Summary)),
            "tick" => Some(Bench::Call(Call::Tick)),
            _ => None,
        }
    }

    fn run(self, rt: &HostRuntime) -> io::Result<()> {
        match self {
            Bench::Lms => lms::print(rt),
            Bench::Pairs => pairs::print(rt),
            Bench::Records => checking::print(rt),
            Bench::Read => println!(rt; "{} records", reading::count(rt.alloc())?),
            Bench::Signer => signing::print(rt),
            Bench::Node => node::print(rt),
            Bench::Hold => node::hold(rt),
            Bench::Receive { port, turns, from } => receive_and_write(rt, port, turns, from),
            Bench::Hash { count } => println!(rt; "{}", plain_calls(rt, count)?),
            Bench::Call(call) => print_call(rt, call),
        }
    }
}

/// The words behind the program's name.
fn words_of(rt: &HostRuntime) -> io::Result<Vec<String>> {
    let mut words = Vec::new(rt.alloc());
    for word in std::env::args(rt)?.skip(1) {
        words.push(word)?;
    }
    Ok(words)
}

fn main(rt: HostRuntime) -> io::Result<ExitCode> {
    let words = words_of(&rt)?;
    let Some(bench) = Bench::of(&words) else {
        println!(rt;
            "words: lms, pairs, records, read, signer, node, hold, receive PORT TURNS FROM, hash COUNT, call records|summary|tick"
        )?;
        return Ok(ExitCode::from(2));
    };
    bench.run(&rt)?;
    Ok(ExitCode::from(0))
}
