//! The summary of a workload, as it is written.

ghost use Rattle.std.specs.Prelude.{◌≡◌, ◌++◌, ◌∷◌, [], OnErr, OnOk, codes};
ghost use Rattle.world_text.specs.Lines.{Began};
ghost use Rattle.world_replay.specs.Summaries.{count_line, counts_text, removed_line, summary_text, taken_text, workload_line};

use fields::NoMemory;
use life_events::{add_of_number, add_of_two, write_bytes};
use world::Counts;

/// What came of a workload: how many lines it had, and what was counted in its world.
#[derive(Clone, Copy, Debug, PartialEq, Eq)]
pub struct Summary {
    pub lines: u32,
    pub counts: Counts,
}

fn end_line(out: &mut Vec<u8>) -> Result<(), NoMemory>
    ensures ok { OnOk result (out.new.items ≡ out.old.items ++ 10 ∷ []) }
    ensures refused { OnErr result (Began out.old.items out.new.items) }
{
    out.push(b'\n')?;
    Ok(())
}

#[tactic(auto, using(life_events::proofs::TextLemmas::begins, life_events::proofs::TextLemmas::begins_so, life_events::proofs::TextLemmas::begins_on, life_events::proofs::TextLemmas::begins_then))]
fn add_count(word: &str, count: u64, out: &mut Vec<u8>) -> Result<(), NoMemory>
    ensures ok { OnOk result (out.new.items ≡ out.old.items ++ count_line word.now count) }
    ensures refused { OnErr result (Began out.old.items out.new.items) }
{
    write_bytes(word.as_bytes(), out)?;
    add_of_number(b" ", count, out)?;
    end_line(out)
}

#[tactic(auto, using(life_events::proofs::TextLemmas::begins, life_events::proofs::TextLemmas::begins_so, life_events::proofs::TextLemmas::begins_on, life_events::proofs::TextLemmas::begins_then))]
fn add_workload(seed: u64, nodes: u16, rounds: u16, out: &mut Vec<u8>) -> Result<(), NoMemory>
    ensures ok { OnOk result (out.new.items ≡ out.old.items ++ workload_line seed nodes rounds) }
    ensures refused { OnErr result (Began out.old.items out.new.items) }
{
    add_of_two(b"soak ", seed, nodes.into(), out)?;
    add_of_number(b" ", rounds.into(), out)?;
    end_line(out)
}

#[tactic(auto, using(life_events::proofs::TextLemmas::begins, life_events::proofs::TextLemmas::begins_so, life_events::proofs::TextLemmas::begins_on, life_events::proofs::TextLemmas::begins_then))]
fn add_removed(removed: u64, correct: u64, out: &mut Vec<u8>) -> Result<(), NoMemory>
    ensures ok { OnOk result (out.new.items ≡ out.old.items ++ removed_line removed correct) }
    ensures refused { OnErr result (Began out.old.items out.new.items) }
{
    add_of_number(b"removed ", removed, out)?;
    add_of_number(b" correct ", correct, out)?;
    end_line(out)
}

fn add_taken(counts: &Counts, out: &mut Vec<u8>) -> Result<(), NoMemory>
    ensures ok { OnOk result (out.new.items ≡ out.old.items ++ taken_text counts.now) }
    ensures refused { OnErr result (Began out.old.items out.new.items) }
{
    add_count("notes", counts.notes, out)?;
    add_count("accusations", counts.accusations, out)?;
    add_count("refused", counts.refused, out)
}

fn add_rest(counts: &Counts, out: &mut Vec<u8>) -> Result<(), NoMemory>
    ensures ok { OnOk result
        (out.new.items
        ≡ out.old.items ++ (removed_line counts.now.removed counts.now.removed_correct ++ count_line
        (codes "spent") counts.now.spent)) }
    ensures refused { OnErr result (Began out.old.items out.new.items) }
{
    add_removed(counts.removed, counts.removed_correct, out)?;
    add_count("spent", counts.spent, out)
}

fn add_counts(counts: &Counts, out: &mut Vec<u8>) -> Result<(), NoMemory>
    ensures ok { OnOk result (out.new.items ≡ out.old.items ++ counts_text counts.now) }
    ensures refused { OnErr result (Began out.old.items out.new.items) }
{
    add_count("sent", counts.sent, out)?;
    add_taken(counts, out)?;
    add_rest(counts, out)
}

fn add_head(
    seed: u64,
    nodes: u16,
    rounds: u16,
    lines: u32,
    out: &mut Vec<u8>,
) -> Result<(), NoMemory>
    ensures ok { OnOk result
        (out.new.items
        ≡ out.old.items ++ (workload_line seed nodes rounds ++ count_line (codes "lines") lines)) }
    ensures refused { OnErr result (Began out.old.items out.new.items) }
{
    add_workload(seed, nodes, rounds, out)?;
    add_count("lines", u64::from(lines), out)
}

fn add_end(out: &mut Vec<u8>) -> Result<(), NoMemory>
    ensures ok { OnOk result (out.new.items ≡ out.old.items ++ (codes "end" ++ 10 ∷ [])) }
    ensures refused { OnErr result (Began out.old.items out.new.items) }
{
    write_bytes(b"end", out)?;
    end_line(out)
}

fn add_summary(
    seed: u64,
    nodes: u16,
    rounds: u16,
    summary: &Summary,
    out: &mut Vec<u8>,
) -> Result<(), NoMemory>
    ensures ok { OnOk result
        (out.new.items
        ≡ out.old.items ++ summary_text seed nodes rounds summary.now.lines summary.now.counts) }
    ensures refused { OnErr result (Began out.old.items out.new.items) }
{
    add_head(seed, nodes, rounds, summary.lines, out)?;
    add_counts(&summary.counts, out)?;
    add_end(out)
}

/// Adds the summary of the workload of this seed with so many members and rounds, line by line. Where memory is refused,
/// `out` is as it was.
pub fn write_summary(
    seed: u64,
    nodes: u16,
    rounds: u16,
    summary: &Summary,
    out: &mut Vec<u8>,
) -> Result<(), NoMemory>
    ensures ok { OnOk result
        (out.new.items
        ≡ out.old.items ++ summary_text seed nodes rounds summary.now.lines summary.now.counts) }
    ensures refused { OnErr result (out.new.items ≡ out.old.items) }
{
    let held = out.len();
    let added = add_summary(seed, nodes, rounds, summary, out);
    if added.is_err() {
        out.truncate(held);
    }
    added
}
