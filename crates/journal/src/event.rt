//! What happens to a node.

use ff_ids::{AccBody, Fault, MemberId};
use fields::Bytes;
use records::Body;

/// Something that happened in a node's life, and the moment at which it did.
#[derive(Drop, Debug)]
pub struct Event {
    /// How many ticks the life had had.
    pub moment: u64,
    pub what: What,
}

/// What may happen. The types hold any values; what is read back keeps the ranges that are said of each field.
#[derive(Drop, Debug)]
pub enum What {
    /// `entered M`: an accepted note brought the member into the view.
    Entered(MemberId),
    /// `expired A B E R`: the accusation stood until its timeout.
    Expired(AccBody),
    /// `removed M`: the member left the view.
    Removed(MemberId),
    /// `fell A B E R`: a kept accusation no longer stands.
    Fell(AccBody),
    /// `spent Q BODY`: a signature with this index was made over the body.
    Spent {
        index: u32,
        body: Body,
    },
    /// `took BODY : accepted` or `took BODY : refused FAULT`: a record was delivered, and refused for the fault,
    /// or accepted where there is none.
    Took {
        body: Body,
        fault: Option<Fault>,
    },
    /// `bad-form PLACE`: a datagram was unreadable, from the byte of this number on, counted from 0.
    BadForm {
        place: usize,
    },
    /// `ping FROM NONCE`: a ping came.
    Ping {
        from: MemberId,
        nonce: u64,
    },
    /// `pong FROM NONCE counted` or `pong FROM NONCE stray`: a pong came, and answers a ping that is kept, or
    /// none.
    Pong {
        from: MemberId,
        nonce: u64,
        counted: bool,
    },
    /// `summary FROM PAGE FLAG`: a summary came, of the page 0 to 31. The flag is 1 where it answers another.
    Summary {
        from: MemberId,
        page: u8,
        flag: bool,
    },
    /// `silent M`: an accusation of the member is wanted.
    Silent(MemberId),
    /// `exhausted NEXT`: a wanted signature was not made, since the key has no leaf of this index left.
    Exhausted {
        next: u32,
    },
    /// `sent S TO HEX`: the datagram of this number, which has at least one byte, went to the member.
    Sent {
        number: u64,
        to: MemberId,
        bytes: Bytes,
    },
    /// `lost S`: the datagram of this number could not be sent.
    Lost {
        number: u64,
    },
    /// `got S`: the datagram of this number is handed over.
    Got {
        number: u64,
    },
    /// `stopped`: the disk failed, and the life is over.
    Stopped,
}
