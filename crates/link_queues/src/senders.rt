//! Who is expected to send from which port, and whom a datagram names as its sender.

ghost use Rattle.std.specs.Prelude.{◌≡◌, ◌≤◌, ◌<◌, ◌==◌, find, position, length, IfSome};
ghost use Rattle.std.specs.List.{list_any};
ghost use Rattle.link_queues.specs.Senders.{is_borrowed, is_unsigned_kind, named_sender, queue_of};

/// A member, and the port that it sends from.
#[derive(Clone, Copy, Debug, PartialEq, Eq)]
pub struct Expected {
    pub member: u16,
    pub port: u16,
}

/// Whether it is the kind of a ping, a pong or a summary, which carry no signature.
fn is_unsigned_kind(kind: u8) -> bool
    ensures { result ≡ is_unsigned_kind kind }
{
    kind > 0 && kind < 4 || kind == 5
}

/// The sender that a ping, a pong or a summary names. How these begin is in `crates/datagram/specs/Spelling.antt`.
fn named_sender(bytes: &[u8]) -> Option<u16>
    ensures { result ≡ named_sender bytes.now }
{
    if bytes.len() > 5
        && bytes[0] == b'F'
        && bytes[1] == b'F'
        && bytes[2] == 1
        && is_unsigned_kind(bytes[3])
    {
        return Some(256 * u16::from(bytes[4]) + u16::from(bytes[5]));
    }
    None
}

/// The place of the first who is expected at the port.
fn place_of(expected: &[Expected], port: u16) -> Option<usize>
    ensures place { result ≡ position (λ e. e.port == port) expected.now }
    ensures within { IfSome result (λ place. place < length expected.now) }
{
    expected.iter().position(|e| e.port == port)
}

/// The number of the port's queue: 0 where nobody is expected there.
pub fn queue_of(expected: &[Expected], port: u16) -> usize
    ensures queue { result ≡ queue_of expected.now port }
    ensures within { result ≤ length expected.now }
{
    match place_of(expected, port) {
        Some(place) => place + 1,
        None => 0,
    }
}

/// Whether the member is expected somewhere.
pub fn is_known(expected: &[Expected], member: u16) -> bool
    ensures { result ≡ list_any (λ e. e.member == member) expected.now }
{
    expected.iter().any(|e| e.member == member)
}

/// Where the member is expected.
fn expected_as(expected: &[Expected], member: u16) -> Option<Expected>
    ensures { result ≡ find (λ e. e.member == member) expected.now }
{
    expected.iter().copied().find(|e| e.member == member)
}

/// Whether the datagram names a sender that is expected at another port.
pub fn is_borrowed(expected: &[Expected], port: u16, bytes: &[u8]) -> bool
    ensures { result ≡ is_borrowed expected.now port bytes.now }
{
    let Some(member) = named_sender(bytes) else {
        return false;
    };
    match expected_as(expected, member) {
        Some(e) => e.port != port,
        None => false,
    }
}
