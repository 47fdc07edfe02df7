//! Floor: base. What a run over the lines of a text is to write, as definitions alone: the lines of a text, its trace,
//! and how one part of a trace follows another; and the limits of every text. The loop (`play`) and its scripts cite
//! it.
#![tactic(auto)]

/// How many bytes a line may have in front of its line feed.
pub const LINE_BYTES: usize = 65_600;

/// The most bytes that are taken of a line: one more, so that a longer line shows.
pub const SEEN_BYTES: usize = LINE_BYTES + 1;

/// How many lines a text may have.
pub const TEXT_LINES: u32 = 100_000;
