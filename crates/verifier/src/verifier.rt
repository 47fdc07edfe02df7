//! What the lines of the text do: they ask a question, and its end is answered.

ghost use Rattle.std.specs.Prelude.{◌≡◌, ◌-◌, ◌+◌};
ghost use Rattle.text_trace.specs.Lines.{text_lines};
ghost use Rattle.text_trace.specs.Trace.{Every, Continuation};
ghost use Rattle.verifier.specs.Answered.{answered, refusal_of};

use line_text::{BadWord, LineFault, Reader};
use play::{Refusal, Script};
use std::alloc::Global;
use std::mem;
use verify_text::{Asked, Verify, answer_line};

/// What has been read of the text, and what it has asked so far.
#[derive(Debug, Drop)]
pub(crate) struct Verifier {
    reader: Reader<Verify>,
    asked: Asked,
}

impl Verifier {
    /// Nothing has been read.
    pub(crate) fn open() -> Verifier
        ensures reader { result.reader ≡ record { number = 1; form = Verify.Start } }
        ensures asked { result.asked ≡ Asked.Nothing }
    {
        Verifier {
            reader: Reader::open(Verify::Start),
            asked: Asked::Nothing,
        }
    }
}

/// The refusal for a line that wasn't read: its bad word, or want of memory.
fn refusal(fault: LineFault) -> Refusal<BadWord>
    ensures { result ≡ refusal_of fault }
{
    match fault {
        LineFault::Bad(word) => Refusal::Refused(word),
        LineFault::OutOfMemory => Refusal::OutOfMemory,
    }
}

impl Script for Verifier {
    ghost use Rattle.verifier.specs.Laws.{answered-waits};

    type Cause = BadWord;

    ghost judged = { Every };

    ghost owes = { λ s f. f ≡ answered s.reader s.asked };

    ghost room = { λ s. text_lines + 1 - s.reader.number };

    ghost reaches = { λ _ _ _. Unit {0} };

    fn line(
        &mut self,
        alloc: Global,
        bytes: &[u8],
        _text: &mut Vec<u8>,
    ) -> Result<(), Refusal<BadWord>> {
        match self.reader.line(alloc, bytes) {
            Ok(line) => {
                let asked = mem::replace(&mut self.asked, Asked::Nothing);
                self.asked = asked.after(line);
                Ok(())
            }
            Err(fault) => Err(refusal(fault)),
        }
    }

    fn end(&self, _alloc: Global, text: &mut Vec<u8>) -> Result<(), Refusal<BadWord>> {
        if self.reader.end().is_err() {
            return Err(Refusal::Refused(BadWord::End));
        }
        let Asked::Question(question) = &self.asked else {
            return Err(Refusal::Refused(BadWord::End));
        };
        match text.extend_from_slice(answer_line(question).as_bytes()) {
            Ok(()) => Ok(()),
            Err(_) => Err(Refusal::OutOfMemory),
        }
    }

    ghost waits = { λ s f e. answered-waits s.reader s.asked f e };

    ghost reaches_itself = { λ _. tt };

    ghost reaches_on = { λ _ _ _ _ _ _ _. tt };
}
