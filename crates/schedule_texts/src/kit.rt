//! The text of a member, line by line.

ghost use Rattle.std.specs.Prelude.{◌≡◌, ◌==◌, if◌then◌else◌, [], Some};
ghost use Rattle.line_text.specs.Frame.{whole_line};
ghost use Rattle.schedule_texts.specs.declared.kit_line.KitLine.TheVariants.{End};
ghost use Rattle.schedule_texts.specs.KitRows.{TakesMemory, end_fault, is_ended, is_owned, kit_table, reads, row_for};
ghost use Rattle.schedule_texts.specs.KitGrammar.{IsKit, IsSound, after, certified_by, certifying, nobody};

use crate::kit_cert::read_cert;
use crate::kit_line::{KitLine, LineWord};
use crate::kit_read::{authority_line, line_word, own_line, read_heal, tick_line};
use crate::{read_group, read_kinds};
use ff_ids::{Group, MEMBERS, MemberId};
use line_text::{BadWord, Form, LineFault, TableForm, Words, judge_by_table};
use lms_tree::PublicKey;
use records::{Body, CertBody, Key};
use sign_keys::Kinds;
use std::alloc::Global;

/// Whom the text is for.
#[derive(Clone, Copy, Debug, PartialEq, Eq)]
pub struct Owner {
    pub group: Group,
    pub member: MemberId,
    /// The public half of the own key.
    pub key: Key,
}

/// What has been read of the text.
#[derive(Clone, Copy, Debug, PartialEq, Eq)]
pub enum KitText {
    /// Nothing: the header comes next.
    Start,
    /// The header: the group comes next.
    Headed,
    /// The group: the kinds come next.
    Grouped {
        group: Group,
    },
    /// The kinds, and a line `heal` or none: such a line comes next, where none was read, or the own number and
    /// secret.
    Kinded {
        group: Group,
        kinds: Kinds,
        has_heal: bool,
    },
    /// The own number and secret: the authority's key comes next.
    Owned {
        owner: Owner,
    },
    /// The authority's key: the length of a tick comes next.
    Authorized {
        owner: Owner,
        authority: PublicKey,
    },
    /// The length of a tick: certificates come next, or the line `end`. `named` says of each number whether it has a
    /// certificate, and `own` is the key in that of the own number.
    Body {
        owner: Owner,
        authority: PublicKey,
        named: [bool; MEMBERS as usize],
        own: Option<Key>,
    },
    /// The line `end`.
    Ended,
}

/// Whether the certificate of the own number has the own key.
fn is_owned(owner: &Owner, own: &Option<Key>) -> bool
    ensures { result ≡ is_owned owner.now.key own.now }
{
    match own {
        Some(key) => key.write().as_slice() == owner.key.write().as_slice(),
        None => false,
    }
}

fn end_line(owner: &Owner, own: &Option<Key>, args: Words) -> Result<KitLine, BadWord>
    ensures { result ≡ whole_line [] (λ _. end_fault owner.now.key own.now) (λ _. End) args.entry }
{
    args.exactly(0)?;
    if is_owned(owner, own) {
        Ok(KitLine::End)
    } else {
        Err(BadWord::OwnKey)
    }
}

/// The key in the certificate of the own number, behind one more certificate.
pub(crate) fn own_key(me: MemberId, cert: &CertBody, own: Option<Key>) -> Option<Key>
    ensures { result ≡ (if cert.now.member == me then Some cert.now.key else own) }
{
    if cert.member == me {
        Some(cert.key)
    } else {
        own
    }
}

impl KitText {
    /// No certificate has been read.
    fn nobody(owner: Owner, authority: PublicKey) -> KitText
        ensures { result ≡ nobody owner authority }
    {
        KitText::Body {
            owner,
            authority,
            named: [false; MEMBERS as usize],
            own: None,
        }
    }

    /// The body has been read, which is a certificate.
    fn behind(self, body: &Body) -> KitText
        ensures { result ≡ certified_by body.now self }
    {
        match body {
            Body::Certificate(cert) => self.certified(cert),
            Body::Note(_) | Body::Accusation(_) => self,
        }
    }

    /// The certificate has been read.
    fn certified(self, cert: &CertBody) -> KitText
        ensures { result ≡ certifying cert.now self }
    {
        match self {
            KitText::Body {
                owner,
                authority,
                named,
                own,
            } => {
                let mut named = named;
                named[cert.member.get() as usize] = true;
                let own = own_key(owner.member, cert, own);
                KitText::Body {
                    owner,
                    authority,
                    named,
                    own,
                }
            }
            other => other,
        }
    }
}

impl TableForm for KitText {
    ghost use Rattle.schedule_texts.specs.KitLaws.{kit-reads};

    type Line = KitLine;

    type Word = LineWord;

    ghost table = { kit_table };

    ghost is_sound = { IsSound };

    ghost takes_memory = { TakesMemory };

    ghost reads = { reads };

    fn is_start(&self) -> bool {
        matches!(self, KitText::Start)
    }

    #[tactic(auto, using(line_text::proofs::FrameLemmas::header_read))]
    fn header_line(words: Words) -> Result<KitLine, BadWord> {
        if words.is_header(b"kit") {
            Ok(KitLine::Header)
        } else {
            Err(BadWord::Header)
        }
    }

    fn line_word(word: &[u8]) -> Result<LineWord, BadWord> {
        line_word(word)
    }

    fn line_of(&self, alloc: Global, word: LineWord, args: Words) -> Result<KitLine, LineFault> {
        match (self, word) {
            (KitText::Headed, LineWord::Group) => Ok(KitLine::Group(read_group(args)?)),
            (KitText::Grouped { .. }, LineWord::Kinds) => Ok(KitLine::Kinds(read_kinds(args)?)),
            (
                KitText::Kinded {
                    has_heal: false,
                    ..
                },
                LineWord::Heal,
            ) => Ok(KitLine::Heal(read_heal(args)?)),
            (KitText::Kinded { kinds, .. }, LineWord::Own) => own_line(alloc, *kinds, args),
            (KitText::Owned { .. }, LineWord::Authority) => Ok(authority_line(args)?),
            (KitText::Authorized { .. }, LineWord::Tick) => Ok(tick_line(args)?),
            (
                KitText::Body {
                    owner,
                    authority,
                    named,
                    ..
                },
                LineWord::Cert,
            ) => { Ok(KitLine::Cert(read_cert(alloc, &owner.group, authority, named, args)?)) }
            (KitText::Body { owner, own, .. }, LineWord::End) => Ok(end_line(owner, own, args)?),
            _ => Err(LineFault::Bad(BadWord::Order)),
        }
    }

    ghost as_table = { kit-reads };
}

impl Form for KitText {
    ghost use Rattle.schedule_texts.specs.KitLaws.{kit-spelled, kit-taken};

    type Line = KitLine;

    ghost is_sound = { IsSound };

    ghost is_ended = { is_ended };

    ghost row_for = { row_for };

    ghost spells = { IsKit };

    ghost takes_memory = { TakesMemory };

    ghost after = { after };

    fn is_ended(&self) -> bool {
        matches!(self, KitText::Ended)
    }

    fn judge(&self, alloc: Global, words: Words) -> Result<KitLine, LineFault> {
        judge_by_table(self, alloc, words)
    }

    fn advance(&mut self, line: &KitLine) {
        *self = match (*self, line) {
            (_, KitLine::Header) => KitText::Headed,
            (_, KitLine::Group(group)) => KitText::Grouped { group: *group },
            (KitText::Grouped { group }, KitLine::Kinds(kinds)) => KitText::Kinded {
                group,
                kinds: *kinds,
                has_heal: false,
            },
            (KitText::Kinded { group, kinds, .. }, KitLine::Heal(_)) => KitText::Kinded {
                group,
                kinds,
                has_heal: true,
            },
            (KitText::Kinded { group, .. }, KitLine::Own { member, key, .. }) => KitText::Owned {
                owner: Owner {
                    group,
                    member: *member,
                    key: key.public(),
                },
            },
            (KitText::Owned { owner }, KitLine::Authority(authority)) => KitText::Authorized {
                owner,
                authority: *authority,
            },
            (KitText::Authorized { owner, authority }, KitLine::Tick { .. }) => {
                KitText::nobody(owner, authority)
            }
            (form, KitLine::Cert(checked)) => form.behind(&checked.rec().body),
            (_, KitLine::End) => KitText::Ended,
            (form, _) => form,
        };
    }

    ghost spelled = { kit-spelled };

    ghost taken = { kit-taken };
}
