//! The text that asks an authority for certificates, line by line.

ghost use Rattle.std.specs.Prelude.{◌≡◌, ◌≤◌, IfOk};
ghost use Rattle.ff_ids.specs.declared.TheConstants.{LAST_MEMBER};
ghost use Rattle.line_text.specs.Answers.{refusal};
ghost use Rattle.line_text.specs.Fields.{number_in};
ghost use Rattle.line_text.specs.Frame.{behind, fields_line, first_word};
ghost use Rattle.schedule_texts.specs.RosterRows.{TakesMemory, cert_fields, cert_in, fields_of, is_ended, is_named, line_of, may_stand, new_member, reads, roster_table, row_for};
ghost use Rattle.schedule_texts.specs.RosterGrammar.{IsRoster, IsSound, after, naming, nobody};

use crate::line::RosterLine;
use crate::shared::{read_group, read_one_level, read_secret, take_key, take_port};
use ff_ids::{LAST_MEMBER, MEMBERS, MemberId};
use line_text::{BadWord, Form, LineFault, TableForm, Words, judge_by_table};
use records::CertBody;
use std::alloc::Global;

/// What has been read of the text.
#[derive(Clone, Copy, Debug, PartialEq, Eq)]
pub enum RosterText {
    /// Nothing: the header comes next.
    Start,
    /// The header: the group comes next.
    Headed,
    /// The group: the kinds come next.
    Grouped,
    /// The kinds: the secret comes next.
    Kinded,
    /// The secret: certificates come next, or the line `end`. `named` says of each number whether a certificate was
    /// asked for.
    Body { named: [bool; MEMBERS as usize] },
    /// The line `end`.
    Ended,
}

/// The first words of the lines below the header.
#[derive(Clone, Copy, Debug, PartialEq, Eq)]
pub enum LineWord {
    Group,
    Kinds,
    Secret,
    Cert,
    End,
}

/// Whether a line with this word may stand here.
fn may_stand(form: &RosterText, word: LineWord) -> bool
    ensures { result ≡ may_stand form.now word }
{
    match form {
        RosterText::Headed => word == LineWord::Group,
        RosterText::Grouped => word == LineWord::Kinds,
        RosterText::Kinded => word == LineWord::Secret,
        RosterText::Body { .. } => word == LineWord::Cert || word == LineWord::End,
        RosterText::Start | RosterText::Ended => false,
    }
}

/// Whether a line before names the member of this number.
fn is_named(form: &RosterText, number: u16) -> bool
    requires { number ≤ LAST_MEMBER }
    ensures { result ≡ is_named form.now number }
{
    match form {
        RosterText::Body { named } => named[number as usize],
        _ => false,
    }
}

/// Takes the number of a member that no line before names.
fn take_new_member(form: &RosterText, words: &mut Words) -> Result<MemberId, BadWord>
    ensures refused { new_member form.now (first_word words.old) ≡ refusal result }
    ensures value { IfOk result (λ m. m ≡ number_in (first_word words.old)) }
    ensures moved { words.new ≡ behind words.old }
{
    let number = words.number(0, LAST_MEMBER as u64)? as u16;
    if is_named(form, number) {
        Err(BadWord::Limit)
    } else {
        Ok(MemberId::new(number))
    }
}

/// The certificate that is asked for by the words behind `cert`.
fn read_cert(form: &RosterText, args: Words) -> Result<CertBody, BadWord>
    ensures { result ≡ fields_line (cert_fields form.now) cert_in args.entry }
{
    let mut args = args.exactly(3)?;
    let member = take_new_member(form, &mut args)?;
    let port = take_port(&mut args)?;
    let key = take_key(&mut args)?;
    Ok(CertBody { member, port, key })
}

/// The line of this line word.
fn line_of(form: &RosterText, word: LineWord, args: Words) -> Result<RosterLine, BadWord>
    ensures { result ≡ fields_line (fields_of form.now word) (line_of word) args.entry }
{
    match word {
        LineWord::Group => Ok(RosterLine::Group(read_group(args)?)),
        LineWord::Kinds => Ok(RosterLine::Kinds(read_one_level(args)?)),
        LineWord::Secret => Ok(RosterLine::Secret(read_secret(args)?)),
        LineWord::Cert => Ok(RosterLine::Cert(read_cert(form, args)?)),
        LineWord::End => {
            args.exactly(0)?;
            Ok(RosterLine::End)
        }
    }
}

impl RosterText {
    /// No certificate was asked for.
    fn nobody() -> RosterText
        ensures { result ≡ nobody }
    {
        RosterText::Body {
            named: [false; MEMBERS as usize],
        }
    }

    /// A certificate was asked for this member.
    fn name(&mut self, member: MemberId)
        ensures { self.new ≡ naming member self.old }
    {
        if let RosterText::Body { named } = self {
            named[member.get() as usize] = true;
        }
    }
}

impl TableForm for RosterText {
    ghost use Rattle.schedule_texts.specs.RosterLaws.{roster-reads};

    type Line = RosterLine;

    type Word = LineWord;

    ghost table = { roster_table };

    ghost is_sound = { IsSound };

    ghost takes_memory = { TakesMemory };

    ghost reads = { reads };

    fn is_start(&self) -> bool {
        matches!(self, RosterText::Start)
    }

    #[tactic(auto, using(line_text::proofs::FrameLemmas::header_read))]
    fn header_line(words: Words) -> Result<RosterLine, BadWord> {
        if words.is_header(b"roster") {
            Ok(RosterLine::Header)
        } else {
            Err(BadWord::Header)
        }
    }

    fn line_word(word: &[u8]) -> Result<LineWord, BadWord> {
        if word == b"group".as_slice() {
            Ok(LineWord::Group)
        } else if word == b"kinds".as_slice() {
            Ok(LineWord::Kinds)
        } else if word == b"secret".as_slice() {
            Ok(LineWord::Secret)
        } else if word == b"cert".as_slice() {
            Ok(LineWord::Cert)
        } else if word == b"end".as_slice() {
            Ok(LineWord::End)
        } else {
            Err(BadWord::Word)
        }
    }

    fn line_of(
        &self,
        _alloc: Global,
        word: LineWord,
        args: Words,
    ) -> Result<RosterLine, LineFault> {
        if may_stand(self, word) {
            Ok(line_of(self, word, args)?)
        } else {
            Err(LineFault::Bad(BadWord::Order))
        }
    }

    ghost as_table = { roster-reads };
}

impl Form for RosterText {
    ghost use Rattle.schedule_texts.specs.RosterLaws.{roster-spelled, roster-taken};

    type Line = RosterLine;

    ghost is_sound = { IsSound };

    ghost is_ended = { is_ended };

    ghost row_for = { row_for };

    ghost spells = { IsRoster };

    ghost takes_memory = { TakesMemory };

    ghost after = { after };

    fn is_ended(&self) -> bool {
        matches!(self, RosterText::Ended)
    }

    fn judge(&self, alloc: Global, words: Words) -> Result<RosterLine, LineFault> {
        judge_by_table(self, alloc, words)
    }

    fn advance(&mut self, line: &RosterLine) {
        match line {
            RosterLine::Header => *self = RosterText::Headed,
            RosterLine::Group(_) => *self = RosterText::Grouped,
            RosterLine::Kinds(_) => *self = RosterText::Kinded,
            RosterLine::Secret(_) => *self = RosterText::nobody(),
            RosterLine::Cert(cert) => self.name(cert.member),
            RosterLine::End => *self = RosterText::Ended,
        }
    }

    ghost spelled = { roster-spelled };

    ghost taken = { roster-taken };
}
