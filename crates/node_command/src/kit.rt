//! What the text of a member sets up.

ghost use Rattle.std.specs.Prelude.{◌≡◌, IfOk, IfSome, IfNone, OnOk};
ghost use Rattle.std.specs.List.{AllByRecursion};
ghost use Rattle.records.specs.Signing.{IsChecked};
ghost use Rattle.node_rules.specs.Lives.{is_certificate_for as is_of_member};
ghost use Rattle.node_command.specs.Members.{AreKit, IsSoundMember, IsWholeSetUp, SetsUp, nothing_up, own_port, port_in, set_by, sets};

use ff_ids::{Group, Heal, MemberId};
use fields::NoMemory;
use lms_tree::PublicKey;
use records::{Body, Checked};
use schedule_texts::KitLine;
use sign_keys::SignKey;
use std::alloc::Global;
use std::marker::Model;

/// The own number, the own secret, and the key that it gives.
#[derive(Drop)]
pub struct Own {
    pub member: MemberId,
    pub secret: [u8; 32],
    pub key: SignKey,
}

/// What the lines of a text so far set up. Contracts see the parts.
#[derive(Drop)]
struct Gathered {
    group: Option<Group>,
    heal: Option<Heal>,
    own: Option<Own>,
    authority: Option<PublicKey>,
    millis: Option<u32>,
    certificates: Vec<Checked>,
}

impl Model for Gathered {
    ghost use Rattle.node_command.specs.Members.{SetUp};

    ghost Value = { SetUp };

    ghost view = { λ g. record {
      group = g.group;
      heal = g.heal;
      own = g.own;
      authority = g.authority;
      millis = g.millis;
      certificates = g.certificates.items;
    } };
}

/// What a whole text sets up: whom it is for, whether nodes that lost each other come together again, the authority's key,
/// the milliseconds of a tick, and certificates.
#[derive(Drop)]
pub struct Member {
    pub group: Group,
    pub heal: Option<Heal>,
    pub own: Own,
    pub authority: PublicKey,
    pub millis: u32,
    pub certificates: Vec<Checked>,
}

impl Gathered {
    /// Nothing is set up.
    fn nothing(alloc: Global) -> Gathered
        ensures { result ≡ nothing_up }
    {
        Gathered {
            group: None,
            heal: None,
            own: None,
            authority: None,
            millis: None,
            certificates: Vec::new(alloc),
        }
    }

    /// One line more.
    fn take(&mut self, line: KitLine) -> Result<(), NoMemory>
        ensures value { OnOk result (self.new ≡ sets self.old line) }
        ensures checked { AllByRecursion IsChecked self.old.certificates
            → OnOk result (AllByRecursion IsChecked self.new.certificates) }
    {
        match line {
            KitLine::Group(group) => self.group = Some(group),
            KitLine::Heal(heal) => self.heal = Some(heal),
            KitLine::Own {
                member,
                secret,
                key,
            } => {
                self.own = Some(Own {
                    member,
                    secret,
                    key,
                })
            }
            KitLine::Authority(authority) => self.authority = Some(authority),
            KitLine::Tick { millis } => self.millis = Some(millis),
            KitLine::Cert(checked) => self.certificates.push(checked)?,
            KitLine::Header | KitLine::Kinds(_) | KitLine::End => {}
        }
        Ok(())
    }

    /// What it sets up, if it is whole.
    fn whole(self) -> Option<Member>
        ensures value { IfSome result (λ m. SetsUp self m) }
        ensures none { IfNone result (IsWholeSetUp self → ⊥) }
    {
        match (self.group, self.own, self.authority, self.millis) {
            (Some(group), Some(own), Some(authority), Some(millis)) => Some(Member {
                group,
                heal: self.heal,
                own,
                authority,
                millis,
                certificates: self.certificates,
            }),
            _ => None,
        }
    }
}

/// What the lines of a whole text set up.
pub fn member_of(alloc: Global, lines: Vec<KitLine>) -> Result<Member, NoMemory>
    requires { AreKit lines.items }
    ensures value { IfOk result (λ m. SetsUp (set_by lines.items) m) }
    ensures sound { IfOk result (λ m. IsSoundMember m) }
{
    let mut gathered = Gathered::nothing(alloc);
    for line in lines {
        gathered.take(line)?;
    }
    match gathered.whole() {
        Some(member) => Ok(member),
        None => unreachable!(),
    }
}

/// Whether it is the member's certificate.
fn is_certificate_for(member: MemberId, rec: &Checked) -> bool
    ensures { result ≡ is_of_member member rec.now.rec.body }
{
    match rec.rec().body {
        Body::Certificate(cert) => cert.member == member,
        Body::Note(_) | Body::Accusation(_) => false,
    }
}

/// The port in the certificate.
fn port_in(rec: &Checked) -> u16
    ensures { result ≡ port_in rec.now.rec.body }
{
    match rec.rec().body {
        Body::Certificate(cert) => cert.port,
        Body::Note(_) | Body::Accusation(_) => 0,
    }
}

impl Member {
    /// The port in the own certificate.
    pub fn port(&self) -> u16
        ensures { result ≡ own_port self.now }
    {
        let me = self.own.member;
        let own = self
            .certificates
            .iter()
            .find(|rec| is_certificate_for(me, rec));
        match own {
            Some(rec) => port_in(rec),
            None => 0,
        }
    }
}
