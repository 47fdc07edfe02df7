//! The source over bytes in memory and a file, the sink over bytes in memory, and the others over a file, two sockets and
//! the clock of this machine.

ghost use Rattle.std.specs.Prelude.{◌≡◌, true};

use edges::{FileDisk, RealClock, StdSink, StdSource, UdpLink};
use ports::{Clock, Disk, Ending, Given, Link, Opened, Received, Sent, Sink, Source, Taken};
use std::alloc::Global;
use std::fs::Files;
use std::io::{ErrorKind, Read, Write};
use std::os::unix::fs::MetadataExt;
use std::process::Abort;
use std::test::Fail;
use std::{fs, io, time};

#[test]
fn source_gives_what_its_reader_gives(rt: HostRuntime) -> Result<(), Fail> {
    let mut source = StdSource::new(rt.alloc(), &b"abcde"[..]).or(Err("no memory"))?;
    let mut buf = [b'-'; 8];
    let Taken::Got(3) = source.read(&mut buf[..3]) else {
        return Err("no three bytes".into());
    };
    let Taken::Got(2) = source.read(&mut buf[3..]) else {
        return Err("no two bytes".into());
    };
    assert_eq!(rt; buf, *b"abcde---");
    assert_eq!(rt; source.read(&mut buf), Taken::End);
    Ok(())
}

/// The rest of a line is passed over, however long it is, and nothing behind it.
fn passes_rests<S: Source>(alloc: Global, source: &mut S) -> Result<(), Fail>
    requires { (S.state source.old).is_open ≡ true }
{
    let mut line = Vec::with_capacity(alloc, 65_601)?;
    let Ok(Ending::Limit) = source.read_line(&mut line) else {
        return Err("no long line".into());
    };
    let Ok(true) = source.pass_line() else {
        return Err("no rest".into());
    };
    let Ok(Ending::Feed) = source.read_line(&mut line) else {
        return Err("no line behind it".into());
    };
    if line.as_slice() != b"end\n".as_slice() {
        return Err("another line behind it".into());
    }
    let Ok(true) = source.pass_line() else {
        return Err("no empty line".into());
    };
    let Ok(false) = source.pass_line() else {
        return Err("no end".into());
    };
    Ok(())
}

#[test]
fn source_passes_over_the_rest_of_a_line(rt: HostRuntime) -> Result<(), Fail> {
    make_folder(&rt, "edges_long")?;
    let mut text = vec![in rt.alloc(); b'v'; 1_000_000]?;
    text.extend_from_slice(b"\nend\n\n")?;
    text.resize(1_200_000, b'v')?;
    fs::write(&rt, "edges_long/a.txt", text.as_slice())?;
    let file = fs::File::open(&rt, "edges_long/a.txt")?;
    let mut source = StdSource::new(rt.alloc(), file).or(Err("no memory"))?;
    passes_rests(rt.alloc(), &mut source)?;
    fs::remove_dir_all(&rt, "edges_long")?;
    Ok(())
}

#[test]
fn sink_hands_over_what_its_writer_takes(rt: HostRuntime) -> Result<(), Fail> {
    let mut room = [b'-'; 4];
    let mut sink = StdSink::new(&mut room[..]);
    let Given::Took(3) = sink.write(b"abc") else {
        return Err("no three bytes".into());
    };
    let Given::Took(1) = sink.write(b"de") else {
        return Err("no byte".into());
    };
    assert_eq!(rt; sink.write(b"e"), Given::Failed);
    Ok(())
}

/// A reader and a writer whose first calls fail.
#[derive(Drop)]
struct Failing {
    kind: ErrorKind,
    left: u32,
}

impl Failing {
    fn call(&mut self) -> io::Result<()> {
        if self.left == 0 {
            return Ok(());
        }
        self.left -= 1;
        Err(self.kind.into())
    }
}

impl Read for Failing {
    fn read(&mut self, buf: &mut [u8]) -> io::Result<usize> {
        self.call()?;
        Ok(buf.len().min(1))
    }
}

impl Write for Failing {
    fn write(&mut self, buf: &[u8]) -> io::Result<usize> {
        self.call()?;
        Ok(buf.len().min(1))
    }

    fn flush(&mut self) -> io::Result<()> {
        Ok(())
    }
}

/// What a read and a write answer where the first calls of so many fail.
fn moved(alloc: Global, kind: ErrorKind, left: u32) -> Result<(Taken, Given), Fail> {
    let mut source = StdSource::new(alloc, Failing { kind, left }).or(Err("no memory"))?;
    let mut sink = StdSink::new(Failing { kind, left });
    Ok((source.read(&mut [0; 4]), sink.write(b"abcd")))
}

#[test]
fn interrupted_calls_are_made_again(rt: HostRuntime) -> Result<(), Fail> {
    let (got, took) = moved(rt.alloc(), ErrorKind::Interrupted, 7)?;
    assert_eq!(rt; got, Taken::Got(1));
    assert_eq!(rt; took, Given::Took(1));
    let (got, took) = moved(rt.alloc(), ErrorKind::Interrupted, 8)?;
    assert_eq!(rt; got, Taken::Failed);
    assert_eq!(rt; took, Given::Failed);
    Ok(())
}

#[test]
fn calls_that_failed_otherwise_are_not_made_again(rt: HostRuntime) -> Result<(), Fail> {
    for kind in [ErrorKind::Other, ErrorKind::WouldBlock, ErrorKind::TimedOut] {
        let (got, took) = moved(rt.alloc(), kind, 1)?;
        assert_eq!(rt; got, Taken::Failed);
        assert_eq!(rt; took, Given::Failed);
    }
    Ok(())
}

/// An empty folder of its own for each test.
fn make_folder(rt: &(impl Files + Alloc), folder: &str) -> Result<(), Fail> {
    let _ = fs::remove_dir_all(rt, folder);
    fs::create_dir(rt, folder)?;
    Ok(())
}

/// What is written over a new file is read there.
fn keeps_bytes<D: Disk>(rt: &(impl Files + Alloc + Abort), disk: &mut D) -> Result<(), Fail> {
    let file = "edges_bytes/a.st";
    assert!(rt; disk.len().is_err());
    assert!(rt; matches!(disk.open(file), Opened::Done));
    assert!(rt; disk.write_at(0, b"abcdef").is_ok());
    assert!(rt; disk.write_at(2, b"XY").is_ok());
    assert!(rt; disk.sync().is_ok());
    assert!(rt; matches!(disk.len(), Ok(6)));
    assert_eq!(rt; fs::read(rt, file)?.as_slice(), &b"abXYef"[..]);
    assert!(rt; matches!(disk.open(file), Opened::Done));
    let mut buf = [b'-'; 8];
    assert!(rt; matches!(disk.read_at(1, &mut buf), Ok(5)));
    assert_eq!(rt; buf, *b"bXYef---");
    assert!(rt; disk.sync().is_ok());
    Ok(())
}

#[test]
fn disk_keeps_bytes_in_a_file(rt: HostRuntime) -> Result<(), Fail> {
    make_folder(&rt, "edges_bytes")?;
    keeps_bytes(&rt, &mut FileDisk::new(rt.alloc(), &rt))?;
    fs::remove_dir_all(&rt, "edges_bytes")?;
    Ok(())
}

/// No file is made before the first write.
fn makes_late<D: Disk>(rt: &(impl Files + Alloc + Abort), disk: &mut D) -> Result<(), Fail> {
    let file = "edges_first/a.st";
    assert!(rt; matches!(disk.open(file), Opened::Done));
    assert!(rt; matches!(disk.len(), Ok(0)));
    assert!(rt; matches!(disk.read_at(0, &mut [0; 8]), Ok(0)));
    assert!(rt; disk.sync().is_ok());
    assert!(rt; !fs::exists(rt, file)?);
    assert!(rt; disk.write_at(0, b"a").is_ok());
    assert_eq!(rt; fs::metadata(rt, file)?.mode() & 0o777, 0o600);
    Ok(())
}

#[test]
fn disk_makes_its_file_at_the_first_write(rt: HostRuntime) -> Result<(), Fail> {
    make_folder(&rt, "edges_first")?;
    makes_late(&rt, &mut FileDisk::new(rt.alloc(), &rt))?;
    fs::remove_dir_all(&rt, "edges_first")?;
    Ok(())
}

/// The second disk is refused the file as long as the first has it.
fn take_turns<D: Disk>(
    rt: &(impl Files + Alloc + Abort),
    first: &mut D,
    second: &mut D,
) -> Result<(), Fail> {
    let file = "edges_lock/a.st";
    assert!(rt; matches!(first.open(file), Opened::Done));
    assert!(rt; matches!(second.open(file), Opened::Done));
    assert!(rt; first.write_at(0, b"first").is_ok());
    assert!(rt; second.write_at(0, b"second").is_err());
    assert!(rt; matches!(second.open(file), Opened::Failed));
    assert!(rt; second.read_at(0, &mut [0; 8]).is_err());
    assert_eq!(rt; fs::read(rt, file)?.as_slice(), &b"first"[..]);
    assert!(rt; matches!(first.open("edges_lock/b.st"), Opened::Done));
    assert!(rt; matches!(second.open(file), Opened::Done));
    assert!(rt; matches!(second.len(), Ok(5)));
    Ok(())
}

#[test]
fn file_is_open_on_one_disk_at_a_time(rt: HostRuntime) -> Result<(), Fail> {
    make_folder(&rt, "edges_lock")?;
    let mut first = FileDisk::new(rt.alloc(), &rt);
    let mut second = FileDisk::new(rt.alloc(), &rt);
    take_turns(&rt, &mut first, &mut second)?;
    fs::remove_dir_all(&rt, "edges_lock")?;
    Ok(())
}

#[test]
fn disk_opens_plain_files_alone(rt: HostRuntime) -> Result<(), Fail> {
    make_folder(&rt, "edges_plain")?;
    let mut disk = FileDisk::new(rt.alloc(), &rt);
    for name in ["edges_plain", "/dev/null", "edges_plain/none/a.st"] {
        assert!(rt; matches!(disk.open(name), Opened::Failed));
    }
    fs::remove_dir_all(&rt, "edges_plain")?;
    Ok(())
}

/// Binds the first port from this one on that is free.
fn bind_from<L: Link>(link: &mut L, first: u16) -> Option<u16> {
    (first..first.saturating_add(1_000)).find(|port| matches!(link.bind(*port), Opened::Done))
}

/// Datagrams move from the first to the port of the second, which expects them there, and as much of each as fits.
fn moves_datagrams<L: Link>(rt: &impl Abort, first: &mut L, second: &mut L) -> Result<(), Fail> {
    assert_eq!(rt; second.send(20_000, b"early"), Sent::Failed);
    let from = bind_from(first, 20_000).ok_or("no free port")?;
    let port = bind_from(second, 20_000).ok_or("no free port")?;
    second.expect(1, from);
    let mut buf = [b'-'; 8];
    assert_eq!(rt; second.receive(&mut buf), Received::Nothing);
    assert_eq!(rt; first.send(port, b"hello"), Sent::Done);
    assert_eq!(rt; first.send(port, b"0123456789"), Sent::Done);
    assert_eq!(rt; second.receive(&mut buf), Received::Got(5));
    assert_eq!(rt; buf, *b"hello---");
    assert_eq!(rt; second.receive(&mut buf), Received::Got(8));
    assert_eq!(rt; buf, *b"01234567");
    Ok(())
}

#[test]
fn link_moves_datagrams_between_two_ports(rt: HostRuntime) -> Result<(), Fail> {
    let mut first = UdpLink::new(rt.alloc(), &rt);
    let mut second = UdpLink::new(rt.alloc(), &rt);
    moves_datagrams(&rt, &mut first, &mut second)
}

/// A ping of member 1.
const PING: &[u8; 14] = b"FF\x01\x01\x00\x01\x00\x00\x00\x00\x00\x00\x00\x07";

/// Whether these three bytes are what comes next beside what a stranger sent, of which little is handed on.
fn hears<L: Link>(link: &mut L, text: &[u8]) -> bool {
    let mut buf = [0; 14];
    for _ in 0..4u8 {
        if link.receive(&mut buf) == Received::Got(3) {
            return &buf[..3] == text;
        }
    }
    false
}

/// A ping of a member is handed on from the port at which it is expected, and from no other; and a stranger's flood pushes
/// out nothing that the member sent.
fn serves_each_port<L: Link>(
    rt: &impl Abort,
    link: &mut L,
    member: &mut L,
    stranger: &mut L,
) -> Result<(), Fail> {
    let port = bind_from(link, 20_000).ok_or("no free port")?;
    let from = bind_from(member, 20_000).ok_or("no free port")?;
    bind_from(stranger, 20_000).ok_or("no free port")?;
    link.expect(1, from);
    let mut buf = [0; 14];
    assert_eq!(rt; stranger.send(port, PING), Sent::Done);
    assert_eq!(rt; link.receive(&mut buf), Received::Nothing);
    assert_eq!(rt; member.send(port, PING), Sent::Done);
    assert_eq!(rt; link.receive(&mut buf), Received::Got(14));
    for _ in 0..150u8 {
        assert_eq!(rt; stranger.send(port, b"flood"), Sent::Done);
    }
    assert_eq!(rt; member.send(port, b"one"), Sent::Done);
    assert_eq!(rt; member.send(port, b"two"), Sent::Done);
    assert!(rt; hears(link, b"one"));
    assert!(rt; hears(link, b"two"));
    Ok(())
}

#[test]
fn link_serves_each_port_by_itself(rt: HostRuntime) -> Result<(), Fail> {
    let mut link = UdpLink::new(rt.alloc(), &rt);
    let mut member = UdpLink::new(rt.alloc(), &rt);
    let mut stranger = UdpLink::new(rt.alloc(), &rt);
    serves_each_port(&rt, &mut link, &mut member, &mut stranger)?;
    assert!(rt; link.lost() >= 80, "the ping, and most of the flood");
    Ok(())
}

#[test]
fn clock_reads_the_milliseconds_of_the_system(rt: HostRuntime) -> Result<(), Fail> {
    let mut clock = RealClock::new(&rt);
    let before = time::Clock::monotonic(&rt)?.as_millis();
    let reading = u128::from(clock.now());
    let after = time::Clock::monotonic(&rt)?.as_millis();
    assert!(rt; before <= reading && reading <= after);
    Ok(())
}
