//! The head of a text that asks for an audit, line by line.

ghost use Rattle.std.specs.Prelude.{◌≡◌};
ghost use Rattle.schedule_texts.specs.HeadRows.{TakesMemory, head_table, is_ended, reads, row_for};
ghost use Rattle.schedule_texts.specs.HeadGrammar.{IsHead, IsSound, after, certified_by, certifying, nobody};

use crate::head_line::{HeadLine, LineWord};
use crate::head_read::{authority_line, journal_line, line_word, own_line, state_line};
use crate::kit::own_key;
use crate::kit_cert::read_cert;
use crate::kit_read::read_heal;
use crate::read_group;
use ff_ids::{Group, MEMBERS, MemberId};
use line_text::{BadWord, Form, LineFault, TableForm, Words, judge_by_table};
use lms_tree::PublicKey;
use records::{Body, CertBody, Key};
use std::alloc::Global;

/// What has been read of the text. It ends inside the text: behind its last line the journal stands, whose lines are
/// none of this form.
#[derive(Clone, Copy, Debug, PartialEq, Eq)]
pub enum HeadText {
    /// Nothing: the header comes next.
    Start,
    /// The header: the group comes next.
    Headed,
    /// The group, and a line `heal` or none: such a line comes next, where none was read, or the own number.
    Grouped {
        group: Group,
        has_heal: bool,
    },
    /// The own number: the authority's key comes next.
    Owned {
        group: Group,
        me: MemberId,
    },
    /// The authority's key: certificates come next, or the state. `named` says of each number whether it has a
    /// certificate, and `own` is the key in that of the own number.
    Body {
        group: Group,
        me: MemberId,
        authority: PublicKey,
        named: [bool; MEMBERS as usize],
        own: Option<Key>,
    },
    /// The state: the line `journal` comes next, where the own number has a certificate.
    Stated {
        is_owned: bool,
    },
    /// The line `journal`: the head has ended.
    Ended,
}

impl HeadText {
    /// No certificate has been read.
    fn nobody(group: Group, me: MemberId, authority: PublicKey) -> HeadText
        ensures { result ≡ nobody group me authority }
    {
        HeadText::Body {
            group,
            me,
            authority,
            named: [false; MEMBERS as usize],
            own: None,
        }
    }

    /// The body has been read, which is a certificate.
    fn behind(self, body: &Body) -> HeadText
        ensures { result ≡ certified_by body.now self }
    {
        match body {
            Body::Certificate(cert) => self.certified(cert),
            Body::Note(_) | Body::Accusation(_) => self,
        }
    }

    /// The certificate has been read.
    fn certified(self, cert: &CertBody) -> HeadText
        ensures { result ≡ certifying cert.now self }
    {
        match self {
            HeadText::Body {
                group,
                me,
                authority,
                named,
                own,
            } => {
                let mut named = named;
                named[cert.member.get() as usize] = true;
                let own = own_key(me, cert, own);
                HeadText::Body {
                    group,
                    me,
                    authority,
                    named,
                    own,
                }
            }
            other => other,
        }
    }
}

impl TableForm for HeadText {
    ghost use Rattle.schedule_texts.specs.HeadLaws.{head-reads};

    type Line = HeadLine;

    type Word = LineWord;

    ghost table = { head_table };

    ghost is_sound = { IsSound };

    ghost takes_memory = { TakesMemory };

    ghost reads = { reads };

    fn is_start(&self) -> bool {
        matches!(self, HeadText::Start)
    }

    #[tactic(auto, using(line_text::proofs::FrameLemmas::header_read))]
    fn header_line(words: Words) -> Result<HeadLine, BadWord> {
        if words.is_header(b"audit") {
            Ok(HeadLine::Header)
        } else {
            Err(BadWord::Header)
        }
    }

    fn line_word(word: &[u8]) -> Result<LineWord, BadWord> {
        line_word(word)
    }

    fn line_of(&self, alloc: Global, word: LineWord, args: Words) -> Result<HeadLine, LineFault> {
        match (self, word) {
            (HeadText::Headed, LineWord::Group) => Ok(HeadLine::Group(read_group(args)?)),
            (
                HeadText::Grouped {
                    has_heal: false,
                    ..
                },
                LineWord::Heal,
            ) => Ok(HeadLine::Heal(read_heal(args)?)),
            (HeadText::Grouped { .. }, LineWord::Own) => Ok(own_line(args)?),
            (HeadText::Owned { .. }, LineWord::Authority) => Ok(authority_line(args)?),
            (
                HeadText::Body {
                    group,
                    authority,
                    named,
                    ..
                },
                LineWord::Cert,
            ) => { Ok(HeadLine::Cert(read_cert(alloc, group, authority, named, args)?)) }
            (HeadText::Body { own, .. }, LineWord::State) => Ok(state_line(own, args)?),
            (HeadText::Stated { is_owned }, LineWord::Journal) => {
                Ok(journal_line(*is_owned, args)?)
            }
            _ => Err(LineFault::Bad(BadWord::Order)),
        }
    }

    ghost as_table = { head-reads };
}

impl Form for HeadText {
    ghost use Rattle.schedule_texts.specs.HeadLaws.{head-spelled, head-taken};

    type Line = HeadLine;

    ghost is_sound = { IsSound };

    ghost is_ended = { is_ended };

    ghost row_for = { row_for };

    ghost spells = { IsHead };

    ghost takes_memory = { TakesMemory };

    ghost after = { after };

    fn is_ended(&self) -> bool {
        matches!(self, HeadText::Ended)
    }

    fn judge(&self, alloc: Global, words: Words) -> Result<HeadLine, LineFault> {
        judge_by_table(self, alloc, words)
    }

    fn advance(&mut self, line: &HeadLine) {
        *self = match (*self, line) {
            (_, HeadLine::Header) => HeadText::Headed,
            (_, HeadLine::Group(group)) => HeadText::Grouped {
                group: *group,
                has_heal: false,
            },
            (HeadText::Grouped { group, .. }, HeadLine::Heal(_)) => HeadText::Grouped {
                group,
                has_heal: true,
            },
            (HeadText::Grouped { group, .. }, HeadLine::Own(me)) => HeadText::Owned {
                group,
                me: *me,
            },
            (HeadText::Owned { group, me }, HeadLine::Authority(authority)) => {
                HeadText::nobody(group, me, *authority)
            }
            (form, HeadLine::Cert(checked)) => form.behind(&checked.rec().body),
            (HeadText::Body { own, .. }, HeadLine::State { .. }) => HeadText::Stated {
                is_owned: own.is_some(),
            },
            (_, HeadLine::Journal) => HeadText::Ended,
            (form, _) => form,
        };
    }

    ghost spelled = { head-spelled };

    ghost taken = { head-taken };
}
