//! The question that a text asks, and its answer.

ghost use Rattle.std.specs.Prelude.{◌≡◌};
ghost use Rattle.verify_text.specs.Asking.{asked_after};
ghost use Rattle.verify_text.specs.Answering.{answer_line, bottom_text, part_text, refused_line, top_text, two_level_text};

use crate::line::VerifyLine;
use fields::Bytes;
use hss::HssFault;
use lms_tree::SigFault;
use records::{Key, RecordFault};

/// Whether this signature of this message is good under this key.
#[derive(Debug, Drop)]
pub struct Question {
    pub key: Key,
    pub message: Bytes,
    pub signature: Bytes,
}

/// What the lines of a text have asked so far.
#[derive(Debug, Drop)]
pub enum Asked {
    /// Nothing.
    Nothing,
    /// Something of this key.
    Key(Key),
    /// Something of this key and this message.
    Message(Key, Bytes),
    /// The whole question.
    Question(Question),
}

impl Asked {
    /// What the lines have asked with this line behind them.
    pub fn after(self, line: VerifyLine) -> Asked
        ensures { result ≡ asked_after self line }
    {
        match (self, line) {
            (_, VerifyLine::Key(key)) => Asked::Key(key),
            (Asked::Key(key), VerifyLine::Message(message)) => Asked::Message(key, message),
            (Asked::Message(key, message), VerifyLine::Signature(signature)) => {
                Asked::Question(Question {
                    key,
                    message,
                    signature,
                })
            }
            (asked, _) => asked,
        }
    }
}

/// The line for this fault of the signature under a key of one level.
fn fault_line(fault: SigFault) -> &'static str
    ensures { result.now ≡ refused_line (part_text fault) }
{
    match fault {
        SigFault::Length { .. } => "signature refused length\n",
        SigFault::TreeType { .. } => "signature refused tree-type\n",
        SigFault::OtsType { .. } => "signature refused ots-type\n",
        SigFault::Index { .. } => "signature refused index\n",
        SigFault::Root => "signature refused root\n",
    }
}

/// The line for this fault of the top key's signature.
fn top_line(fault: SigFault) -> &'static str
    ensures { result.now ≡ refused_line (top_text fault) }
{
    match fault {
        SigFault::Length { .. } => "signature refused top length\n",
        SigFault::TreeType { .. } => "signature refused top tree-type\n",
        SigFault::OtsType { .. } => "signature refused top ots-type\n",
        SigFault::Index { .. } => "signature refused top index\n",
        SigFault::Root => "signature refused top root\n",
    }
}

/// The line for this fault of the bottom key's signature.
fn bottom_line(fault: SigFault) -> &'static str
    ensures { result.now ≡ refused_line (bottom_text fault) }
{
    match fault {
        SigFault::Length { .. } => "signature refused bottom length\n",
        SigFault::TreeType { .. } => "signature refused bottom tree-type\n",
        SigFault::OtsType { .. } => "signature refused bottom ots-type\n",
        SigFault::Index { .. } => "signature refused bottom index\n",
        SigFault::Root => "signature refused bottom root\n",
    }
}

/// The line for this fault of the signature under a key of two levels.
fn two_level_line(fault: HssFault) -> &'static str
    ensures { result.now ≡ refused_line (two_level_text fault) }
{
    match fault {
        HssFault::Length { .. } => "signature refused length\n",
        HssFault::Levels { .. } => "signature refused levels\n",
        HssFault::KeyType => "signature refused key-type\n",
        HssFault::Top(fault) => top_line(fault),
        HssFault::Bottom(fault) => bottom_line(fault),
    }
}

/// The line that answers the question: whether the signature is good, or the first reason why it is not.
#[tactic(auto, unfolding(crate::specs::Answering::answer_line))]
pub fn answer_line(question: &Question) -> &'static str
    ensures { result.now ≡ answer_line question.now }
{
    let verdict = question
        .key
        .verify(question.message.as_slice(), question.signature.as_slice());
    match verdict {
        Ok(()) => "signature good\n",
        Err(RecordFault::Lms(fault)) => fault_line(fault),
        Err(RecordFault::Hss(fault)) => two_level_line(fault),
    }
}
