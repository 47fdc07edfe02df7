//! Lines of a schedule as they are written back, with hexadecimal digits in lower case.

ghost use Rattle.std.specs.Prelude.{◌≡◌, ◌++◌, ℕ, Option, OnOk, OnErr, codes, decimal};
ghost use Rattle.lms_ots.specs.Ots.{width as width_of};
ghost use Rattle.schedule_world.specs.Grammar.{spelled_epoch};
ghost use Rattle.world_text.specs.Lines.{Began, accusation_end, accusation_line, accusation_middle, bottom_text, bytes_text, group_end, group_text, kinds_text, line_text, note_end, note_line};

use ff_ids::{Epoch, Group, Mask, MemberId, NoteBody, RingNo};
use fields::{Name, NoMemory};
use life_events::{add_of_digits, add_of_number, add_of_two, write_bytes, write_number};
use lms_ots::OtsKind;
use lms_tree::TreeKind;
use schedule_world::WorldLine;

fn add_of_name(word: &[u8], name: &Name, out: &mut Vec<u8>) -> Result<(), NoMemory>
    ensures ok { OnOk result (out.new.items ≡ out.old.items ++ word.now ++ name.now) }
    ensures refused { OnErr result (Began out.old.items out.new.items) }
{
    write_bytes(word, out)?;
    write_bytes(name.as_slice(), out)
}

fn add_of_three(
    word: &[u8],
    first: u64,
    second: u64,
    third: u64,
    out: &mut Vec<u8>,
) -> Result<(), NoMemory>
    ensures ok { OnOk result
        (out.new.items
        ≡ out.old.items ++ word.now ++ decimal first ++ codes " " ++ decimal second ++ codes " "
        ++ decimal third) }
    ensures refused { OnErr result (Began out.old.items out.new.items) }
{
    add_of_two(word, first, second, out)?;
    add_of_number(b" ", third, out)
}

fn add_group_end(period: u32, misses: u8, tag: &[u8], out: &mut Vec<u8>) -> Result<(), NoMemory>
    ensures ok { OnOk result (out.new.items ≡ out.old.items ++ group_end period misses tag.now) }
    ensures refused { OnErr result (Began out.old.items out.new.items) }
{
    add_of_two(b" ", period.into(), misses.into(), out)?;
    add_of_digits(b" ", tag, out)
}

fn add_group(group: &Group, out: &mut Vec<u8>) -> Result<(), NoMemory>
    ensures ok { OnOk result (out.new.items ≡ out.old.items ++ group_text group.now) }
    ensures refused { OnErr result (Began out.old.items out.new.items) }
{
    add_of_two(b"group ", group.t.into(), group.timeout.into(), out)?;
    add_group_end(group.period, group.misses, &group.tag, out)
}

/// How many bits of a hash a chain of this kind signs.
fn width(ots: OtsKind) -> u8
    ensures { result ≡ width_of ots }
{
    match ots {
        OtsKind::W1 => 1,
        OtsKind::W2 => 2,
        OtsKind::W4 => 4,
        OtsKind::W8 => 8,
    }
}

fn add_bottom(bottom: Option<TreeKind>, out: &mut Vec<u8>) -> Result<(), NoMemory>
    ensures ok { OnOk result (out.new.items ≡ out.old.items ++ bottom_text bottom) }
    ensures refused { OnErr result (Began out.old.items out.new.items) }
{
    match bottom {
        None => Ok(()),
        Some(tree) => add_of_number(b" ", tree.height() as u64, out),
    }
}

fn add_kinds(
    ots: OtsKind,
    tree: TreeKind,
    bottom: Option<TreeKind>,
    out: &mut Vec<u8>,
) -> Result<(), NoMemory>
    ensures ok { OnOk result (out.new.items ≡ out.old.items ++ kinds_text ots tree bottom) }
    ensures refused { OnErr result (Began out.old.items out.new.items) }
{
    add_of_two(b"kinds ", width(ots).into(), tree.height() as u64, out)?;
    add_bottom(bottom, out)
}

fn add_raw(member: MemberId, bytes: &[u8], out: &mut Vec<u8>) -> Result<(), NoMemory>
    ensures ok { OnOk result
        (out.new.items
        ≡ out.old.items ++ (codes "raw " ++ decimal member ++ codes " " ++ bytes_text bytes.now)) }
    ensures refused { OnErr result (Began out.old.items out.new.items) }
{
    add_of_number(b"raw ", member.get().into(), out)?;
    if bytes.is_empty() {
        return write_bytes(b" -", out);
    }
    add_of_digits(b" ", bytes, out)
}

fn add_note_end(epoch: Epoch, mask: Mask, name: &Name, out: &mut Vec<u8>) -> Result<(), NoMemory>
    ensures ok { OnOk result (out.new.items ≡ out.old.items ++ note_end epoch mask.0 name.now) }
    ensures refused { OnErr result (Began out.old.items out.new.items) }
{
    add_of_two(b" ", epoch.get(), mask.0.into(), out)?;
    add_of_name(b" ", name, out)
}

fn add_sign_note(
    key: MemberId,
    note: &NoteBody,
    name: &Name,
    out: &mut Vec<u8>,
) -> Result<(), NoMemory>
    ensures ok { OnOk result (out.new.items ≡ out.old.items ++ note_line key note.now name.now) }
    ensures refused { OnErr result (Began out.old.items out.new.items) }
{
    add_of_two(
        b"sign-note ",
        key.get().into(),
        note.member.get().into(),
        out,
    )?;
    add_note_end(note.epoch, note.mask, name, out)
}

fn add_give(name: &Name, member: MemberId, out: &mut Vec<u8>) -> Result<(), NoMemory>
    ensures ok { OnOk result
        (out.new.items
        ≡ out.old.items ++ (codes "give " ++ name.now ++ codes " " ++ decimal member)) }
    ensures refused { OnErr result (Began out.old.items out.new.items) }
{
    add_of_name(b"give ", name, out)?;
    add_of_number(b" ", member.get().into(), out)
}

fn add_give_all(name: &Name, out: &mut Vec<u8>) -> Result<(), NoMemory>
    ensures ok { OnOk result (out.new.items ≡ out.old.items ++ (codes "give-all " ++ name.now)) }
    ensures refused { OnErr result (Began out.old.items out.new.items) }
{
    add_of_name(b"give-all ", name, out)
}

fn add_epoch(epoch: Option<Epoch>, out: &mut Vec<u8>) -> Result<(), NoMemory>
    ensures ok { OnOk result (out.new.items ≡ out.old.items ++ spelled_epoch epoch) }
    ensures refused { OnErr result (Began out.old.items out.new.items) }
{
    match epoch {
        None => write_bytes(b"now", out),
        Some(epoch) => write_number(epoch.get(), out),
    }
}

fn add_of_epoch(epoch: Option<Epoch>, out: &mut Vec<u8>) -> Result<(), NoMemory>
    ensures ok { OnOk result (out.new.items ≡ out.old.items ++ (codes " " ++ spelled_epoch epoch)) }
    ensures refused { OnErr result (Began out.old.items out.new.items) }
{
    write_bytes(b" ", out)?;
    add_epoch(epoch, out)
}

fn add_accused(accused: MemberId, epoch: Option<Epoch>, out: &mut Vec<u8>) -> Result<(), NoMemory>
    ensures ok { OnOk result (out.new.items ≡ out.old.items ++ accusation_middle accused epoch) }
    ensures refused { OnErr result (Began out.old.items out.new.items) }
{
    add_of_number(b" ", accused.get().into(), out)?;
    add_of_epoch(epoch, out)
}

fn add_ring(ring: RingNo, name: &Name, out: &mut Vec<u8>) -> Result<(), NoMemory>
    ensures ok { OnOk result (out.new.items ≡ out.old.items ++ accusation_end ring name.now) }
    ensures refused { OnErr result (Began out.old.items out.new.items) }
{
    add_of_number(b" ", ring.0.into(), out)?;
    add_of_name(b" ", name, out)
}

fn add_accusation(
    accused: MemberId,
    epoch: Option<Epoch>,
    ring: RingNo,
    name: &Name,
    out: &mut Vec<u8>,
) -> Result<(), NoMemory>
    ensures ok { OnOk result
        (out.new.items
        ≡ out.old.items ++ (accusation_middle accused epoch ++ accusation_end ring name.now)) }
    ensures refused { OnErr result (Began out.old.items out.new.items) }
{
    add_accused(accused, epoch, out)?;
    add_ring(ring, name, out)
}

fn add_sign_accusation(
    key: MemberId,
    accuser: MemberId,
    accused: MemberId,
    epoch: Option<Epoch>,
    ring: RingNo,
    name: &Name,
    out: &mut Vec<u8>,
) -> Result<(), NoMemory>
    ensures ok { OnOk result
        (out.new.items
        ≡ out.old.items ++ accusation_line key accuser accused epoch ring name.now) }
    ensures refused { OnErr result (Began out.old.items out.new.items) }
{
    add_of_two(
        b"sign-accusation ",
        key.get().into(),
        accuser.get().into(),
        out,
    )?;
    add_accusation(accused, epoch, ring, name, out)
}

fn add_line(line: &WorldLine, out: &mut Vec<u8>) -> Result<(), NoMemory>
    ensures ok { OnOk result (out.new.items ≡ out.old.items ++ line_text line.now) }
    ensures refused { OnErr result (Began out.old.items out.new.items) }
{
    match line {
        WorldLine::Header => write_bytes(b"fireflies 1 world", out),
        WorldLine::Group { group } => add_group(group, out),
        WorldLine::Kinds { ots, tree, bottom } => add_kinds(*ots, *tree, *bottom, out),
        WorldLine::Heal { heal } => add_of_two(
            b"heal ",
            heal.every().into(),
            heal.most().into(),
            out,
        ),
        WorldLine::Node { member } => add_of_number(b"node ", member.get().into(), out),
        WorldLine::Liar { member } => add_of_number(b"liar ", member.get().into(), out),
        WorldLine::Begin => write_bytes(b"begin", out),
        WorldLine::Start { member } => add_of_number(b"start ", member.get().into(), out),
        WorldLine::Stop { member, outcome } => add_of_two(
            b"stop ",
            member.get().into(),
            (*outcome).into(),
            out,
        ),
        WorldLine::Arm {
            member,
            calls,
            outcome,
        } => add_of_three(b"arm ", member.get().into(), *calls, (*outcome).into(), out),
        WorldLine::Tick { member, ticks } => add_of_two(
            b"tick ",
            member.get().into(),
            (*ticks).into(),
            out,
        ),
        WorldLine::Leave { member } => add_of_number(b"leave ", member.get().into(), out),
        WorldLine::Deliver { datagram, member } => add_of_two(
            b"deliver ",
            *datagram,
            member.get().into(),
            out,
        ),
        WorldLine::Flow { most } => add_of_number(b"flow ", (*most).into(), out),
        WorldLine::Raw { member, bytes } => add_raw(*member, bytes.as_slice(), out),
        WorldLine::SignNote { key, note, name } => add_sign_note(*key, note, name, out),
        WorldLine::SignAccusation {
            key,
            accuser,
            accused,
            epoch,
            ring,
            name,
        } => add_sign_accusation(*key, *accuser, *accused, *epoch, *ring, name, out),
        WorldLine::Give { name, member } => add_give(name, *member, out),
        WorldLine::GiveAll { name } => add_give_all(name, out),
        WorldLine::View { member } => add_of_number(b"view ", member.get().into(), out),
        WorldLine::Monitor { member, ring, of } => add_of_three(
            b"monitor ",
            member.get().into(),
            ring.0.into(),
            of.get().into(),
            out,
        ),
        WorldLine::End => write_bytes(b"end", out),
    }
}

/// Adds the line, without a line feed.
pub fn write_line(line: &WorldLine, out: &mut Vec<u8>) -> Result<(), NoMemory>
    ensures ok { OnOk result (out.new.items ≡ out.old.items ++ line_text line.now) }
    ensures refused { OnErr result (out.new.items ≡ out.old.items) }
{
    let held = out.len();
    let written = add_line(line, out);
    if written.is_err() {
        out.truncate(held);
    }
    written
}
