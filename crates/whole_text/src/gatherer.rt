//! Keeps the lines of a text as they are read.

ghost use Rattle.std.specs.Prelude.{◌≡◌, ◌-◌, ◌+◌, ◌++◌, [], ◌∷◌, OnOk, IfErr};
ghost use Rattle.text_trace.specs.Lines.{text_lines};
ghost use Rattle.text_trace.specs.Trace.{Every};
ghost use Rattle.whole_text.specs.Gathered.{Judging, Leads, owed_from, nothing};

use line_text::{BadWord, Form, LineFault, Reader};
use play::{Refusal, Script};
use std::alloc::Global;

/// What has been read of the text, and the lines of it.
#[derive(Drop)]
pub(crate) struct Gatherer<F: Form + Drop>
where
    F::Line: Drop,
{
    reader: Reader<F>,
    lines: Vec<F::Line>,
}

impl<F: Form + Drop> Gatherer<F>
where
    F::Line: Drop,
{
    /// Nothing has been read.
    pub(crate) fn open(alloc: Global, form: F) -> Gatherer<F>
        requires { F.is_sound form }
        ensures reader { result.reader ≡ record { number = 1; form = form } }
        ensures lines { result.lines.items ≡ [] }
    {
        Gatherer {
            reader: Reader::open(form),
            lines: Vec::new(alloc),
        }
    }

    /// The lines that were read.
    pub(crate) fn into_lines(self) -> Vec<F::Line>
        ensures { result ≡ self.lines }
    {
        let Gatherer { reader: _, lines } = self;
        lines
    }
}

/// Keeps one line more.
fn keep<L: Drop>(lines: &mut Vec<L>, line: L) -> Result<(), Refusal<BadWord>>
    ensures kept { OnOk result (lines.new.items ≡ lines.old.items ++ line ∷ []) }
    ensures memory { IfErr result (λ e. e ≡ Refusal.OutOfMemory) }
{
    match lines.push(line) {
        Ok(()) => Ok(()),
        Err(_) => Err(Refusal::OutOfMemory),
    }
}

impl<F: Form + Drop> Script for Gatherer<F>
where
    F::Line: Drop,
{
    ghost use Rattle.whole_text.specs.Laws.{owed-waits, leads-itself, leads-on};

    type Cause = BadWord;

    ghost judged = { Every };

    ghost owes = { λ s f. f
        ≡ owed_from (record { is_ended = F.is_ended; row = F.row_for; after = F.after }) s.reader
        nothing };

    ghost room = { λ s. text_lines + 1 - s.reader.number };

    ghost reaches = { λ s lines t. Leads
        (record { is_ended = F.is_ended; row = F.row_for; after = F.after }) s.reader
        s.lines.items lines t.reader t.lines.items };

    fn line(
        &mut self,
        alloc: Global,
        bytes: &[u8],
        _text: &mut Vec<u8>,
    ) -> Result<(), Refusal<BadWord>> {
        match self.reader.line(alloc, bytes) {
            Ok(line) => keep(&mut self.lines, line),
            Err(LineFault::Bad(word)) => Err(Refusal::Refused(word)),
            Err(LineFault::OutOfMemory) => Err(Refusal::OutOfMemory),
        }
    }

    fn end(&self, _alloc: Global, _text: &mut Vec<u8>) -> Result<(), Refusal<BadWord>> {
        if self.reader.end().is_err() {
            return Err(Refusal::Refused(BadWord::End));
        }
        Ok(())
    }

    ghost waits = { λ s f same. owed-waits
        (record { is_ended = F.is_ended; row = F.row_for; after = F.after }) s.reader f same };

    ghost reaches_itself = { λ s. leads-itself
        (record { is_ended = F.is_ended; row = F.row_for; after = F.after }) s.reader
        s.lines.items };

    ghost reaches_on = { λ s then later lines others. leads-on
        (record { is_ended = F.is_ended; row = F.row_for; after = F.after }) s.reader
        then.reader later.reader s.lines.items then.lines.items later.lines.items lines
        others };
}
