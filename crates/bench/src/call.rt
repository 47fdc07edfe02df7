//! One call of a node, by which a script sees what stands where memory is refused in it: the answer, what the call reported
//! and sent, and what a later call answers and reports; or that memory was refused before the call.

mod scene;

use fixtures::Player;
use node_core::NodeFault;
pub use scene::Call;
use scene::prepared;
use std::io;

/// The answer, in a word.
fn word_of(answer: Result<(), NodeFault>) -> &'static str {
    match answer {
        Ok(()) => "ok",
        Err(NodeFault::OutOfMemory) => "out-of-memory",
        Err(NodeFault::StoreFault) => "store-fault",
        Err(NodeFault::Exhausted { .. }) => "exhausted",
        Err(NodeFault::Ended) => "ended",
    }
}

/// What the last call reported, and how much it sent.
fn print(rt: &HostRuntime, player: &Player, answer: Result<(), NodeFault>) -> io::Result<()> {
    println!(rt; "{}", word_of(answer))?;
    let Ok(told) = player.told(rt.alloc()) else {
        return Err(io::Error::from(io::ErrorKind::OutOfMemory));
    };
    rt.stdout().write_all(&told)?;
    for (to, bytes) in player.sent() {
        println!(rt; "to {} {} bytes", to.get(), bytes.as_slice().len())?;
    }
    Ok(())
}

/// Makes the call, and then a tick, and prints both.
fn play(rt: &HostRuntime, player: &mut Player, call: Call, bytes: &[u8]) -> io::Result<()> {
    let answer = match call {
        Call::Tick => player.tick(rt.alloc()),
        Call::Records | Call::Summary => player.deliver(rt.alloc(), bytes),
    };
    print(rt, player, answer)?;
    let later = player.tick(rt.alloc());
    print!(rt; "then ")?;
    print(rt, player, later)
}

/// Makes the call in a world of two, and prints it.
pub fn print_call(rt: &HostRuntime, call: Call) -> io::Result<()> {
    let Ok((mut player, bytes)) = prepared(rt.alloc(), call) else {
        return println!(rt; "refused before the call");
    };
    let done = play(rt, &mut player, call, &bytes);
    player.end();
    done
}
