// How a run may end.

ghost use Rattle.std.specs.Prelude.{◌≡◌, ◌≤◌, ◌++◌, ◌∷◌, [], codes, length};
ghost use Rattle.std.specs.Fmt.{decimal};
ghost use Rattle.line_text.specs.Texts.{bad_word_text};
ghost use Rattle.command_line.specs.Causes.{byte_text, cause_line, for_cause, status_by, status_of, status_of_halt, status_of_node};
ghost use Rattle.command_line.specs.Numbers.{status_number};

use crate::forged::forged_line;
use arrayvec::ArrayString;
use authority::Halt;
use ff_ids::MemberId;
use itoa::Buffer;
use line_text::BadWord;
use node_command::NodeHalt;
use play::Stop;
use records::Body;
use world_rules::Cause;

/// How a run ended, and the number with which the program then exits. The first cause that comes in the run
/// ends it.
#[derive(Clone, Copy, Debug, PartialEq, Eq)]
pub enum Status {
    /// The command did all, and read its input to the end.
    Ok,
    /// The words are no command. Nothing was read or written.
    Usage,
    /// This line was refused, for this word.
    BadInput {
        line: u32,
        word: BadWord,
    },
    /// A record that this line hands over is forged: whose key seems to have signed it, none for the authority's, and what
    /// it says.
    Forged {
        line: u32,
        who: Option<MemberId>,
        body: Body,
    },
    /// A read failed.
    ReadFault,
    /// A write failed.
    WriteFault,
    /// The disk failed.
    StoreFault,
    /// The file is no store of the key: it breaks, or differs, at this place, where this byte stands, or none past the end.
    StoreBroken {
        place: u64,
        byte: Option<u8>,
    },
    /// The port could not be bound.
    LinkFault,
    /// The key has no leaf from this number on.
    Exhausted {
        next: u32,
    },
    /// Memory was refused.
    OutOfMemory,
    /// The file has so many bytes already.
    StoreTaken {
        len: u64,
    },
}

impl Status {
    /// The exit status of the program.
    pub fn number(self) -> u8
        ensures { result ≡ status_number self }
    {
        match self {
            Status::Ok => 0,
            Status::Usage => 2,
            Status::BadInput { .. } => 3,
            Status::Forged { .. } => 4,
            Status::ReadFault => 5,
            Status::WriteFault => 6,
            Status::StoreFault => 7,
            Status::StoreBroken { .. } => 8,
            Status::LinkFault => 9,
            Status::Exhausted { .. } => 10,
            Status::OutOfMemory => 11,
            Status::StoreTaken { .. } => 12,
        }
    }

    /// The line that gives the cause, with its line feed; nothing where there is none. It takes no memory.
    pub fn line(self) -> ArrayString<256>
        ensures { result.bytes ≡ cause_line self }
    {
        match self {
            Status::BadInput { line, word } => refusal_line(line, word),
            Status::Forged { line, who, body } => forged_line(line, who, &body),
            Status::ReadFault => fixed_line("read fault\n"),
            Status::StoreFault => fixed_line("store fault\n"),
            Status::StoreBroken { place, byte } => broken_line(place, byte),
            Status::LinkFault => fixed_line("link fault\n"),
            Status::Exhausted { next } => numbered_line("exhausted ", u64::from(next)),
            Status::StoreTaken { len } => numbered_line("store taken ", len),
            Status::Ok | Status::Usage | Status::WriteFault | Status::OutOfMemory => {
                ArrayString::new()
            }
        }
    }
}

fn fixed_line(line: &str) -> ArrayString<256>
    requires { length line.now ≤ 256 }
    ensures { result.bytes ≡ line.now }
{
    let mut text = ArrayString::new();
    text.push_str(line);
    text
}

/// The line of these words and a number.
fn numbered_line(words: &str, number: u64) -> ArrayString<256>
    requires { length words.now ≤ 20 }
    ensures { result.bytes ≡ words.now ++ decimal number ++ 10 ∷ [] }
{
    let mut digits = Buffer::new();
    let mut text = ArrayString::new();
    text.push_str(words);
    text.push_str(digits.format(number));
    text.push_str("\n");
    text
}

/// A byte in decimal, or that there is none.
fn byte_word(digits: &mut Buffer, byte: Option<u8>) -> &str
    ensures text { result.now ≡ byte_text byte }
    ensures short { length result.now ≤ 20 }
{
    match byte {
        Some(byte) => digits.format(byte),
        None => "none",
    }
}

/// The line that says where a file is no store.
fn broken_line(place: u64, byte: Option<u8>) -> ArrayString<256>
    ensures { result.bytes
        ≡ codes "store broken " ++ decimal place ++ 32 ∷ [] ++ byte_text byte ++ 10 ∷ [] }
{
    let mut digits = Buffer::new();
    let mut text = ArrayString::new();
    text.push_str("store broken ");
    text.push_str(digits.format(place));
    text.push_str(" ");
    text.push_str(byte_word(&mut digits, byte));
    text.push_str("\n");
    text
}

/// The line that says which line is refused, and for which word.
fn refusal_line(line: u32, word: BadWord) -> ArrayString<256>
    ensures { result.bytes
        ≡ codes "bad " ++ decimal line ++ 32 ∷ [] ++ bad_word_text word ++ 10 ∷ [] }
{
    let mut digits = Buffer::new();
    let mut text = ArrayString::new();
    text.push_str("bad ");
    text.push_str(digits.format(line));
    text.push_str(" ");
    text.push_str(word.text());
    text.push_str("\n");
    text
}

impl From<Result<(), Stop<BadWord>>> for Status {
    ghost from_gives = { λ ended status. status ≡ status_of ended };

    fn from(ended: Result<(), Stop<BadWord>>) -> Status {
        match ended {
            Ok(()) => Status::Ok,
            Err(Stop::Refused { line, cause }) => Status::BadInput { line, word: cause },
            Err(Stop::ReadFault) => Status::ReadFault,
            Err(Stop::WriteFault) => Status::WriteFault,
            Err(Stop::OutOfMemory) => Status::OutOfMemory,
        }
    }
}

impl From<Result<(), Stop<Cause>>> for Status {
    ghost from_gives = { λ ended status. status ≡ status_by for_cause ended };

    fn from(ended: Result<(), Stop<Cause>>) -> Status {
        match ended {
            Ok(()) => Status::Ok,
            Err(
                Stop::Refused {
                    line,
                    cause: Cause::Bad(word),
                },
            ) => Status::BadInput { line, word },
            Err(
                Stop::Refused {
                    line,
                    cause: Cause::Forged { who, body },
                },
            ) => Status::Forged { line, who, body },
            Err(Stop::ReadFault) => Status::ReadFault,
            Err(Stop::WriteFault) => Status::WriteFault,
            Err(Stop::OutOfMemory) => Status::OutOfMemory,
        }
    }
}

impl From<Result<(), Halt>> for Status {
    ghost from_gives = { λ ended status. status ≡ status_of_halt ended };

    fn from(ended: Result<(), Halt>) -> Status {
        match ended {
            Ok(()) => Status::Ok,
            Err(Halt::Refused { line, word }) => Status::BadInput { line, word },
            Err(Halt::ReadFault) => Status::ReadFault,
            Err(Halt::WriteFault) => Status::WriteFault,
            Err(Halt::StoreFault) => Status::StoreFault,
            Err(Halt::StoreBroken { place, byte }) => Status::StoreBroken { place, byte },
            Err(Halt::StoreTaken { len }) => Status::StoreTaken { len },
            Err(Halt::Exhausted { next }) => Status::Exhausted { next },
            Err(Halt::OutOfMemory) => Status::OutOfMemory,
        }
    }
}

impl From<Result<(), NodeHalt>> for Status {
    ghost from_gives = { λ ended status. status ≡ status_of_node ended };

    fn from(ended: Result<(), NodeHalt>) -> Status {
        match ended {
            Ok(()) => Status::Ok,
            Err(NodeHalt::Refused { line, word }) => Status::BadInput { line, word },
            Err(NodeHalt::ReadFault) => Status::ReadFault,
            Err(NodeHalt::WriteFault) => Status::WriteFault,
            Err(NodeHalt::StoreFault) => Status::StoreFault,
            Err(NodeHalt::StoreBroken { place, byte }) => Status::StoreBroken { place, byte },
            Err(NodeHalt::LinkFault) => Status::LinkFault,
            Err(NodeHalt::Exhausted { next }) => Status::Exhausted { next },
            Err(NodeHalt::OutOfMemory) => Status::OutOfMemory,
        }
    }
}
