//! Floor: program. The program: it makes the objects of the outside, runs the command of its words, and exits with the
//! number of the status. The clauses of `run` are what the whole promises. Nothing stands on it.
#![tactic(auto)]

pub use command_line::{Command, Status, run};
use command_line::{start, words_of};
use edges::{FileDisk, RealClock, StdSink, StdSource, UdpLink};
use std::io;
use std::process::ExitCode;

fn main(rt: HostRuntime) -> ExitCode {
    let words = words_of(rt.alloc(), std::env::args(&rt));
    let mut input = StdSource::new(rt.alloc(), rt.reader());
    let mut out = StdSink::new(io::writer(&rt));
    let mut disk = FileDisk::new(rt.alloc(), &rt);
    let mut link = UdpLink::new(rt.alloc(), &rt);
    let mut clock = RealClock::new(&rt);
    let status = start(
        rt.alloc(),
        words,
        &mut input,
        &mut out,
        &mut disk,
        &mut link,
        &mut clock,
    );
    ExitCode::from(status.number())
}
