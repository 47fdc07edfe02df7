//! Why a run over a text stopped.

/// Why a run stopped before the end of its text.
#[derive(Clone, Copy, Debug, PartialEq, Eq)]
pub enum Stop<C> {
    /// The line of this number was refused, or with no line left the text's end.
    Refused { line: u32, cause: C },
    /// A read failed.
    ReadFault,
    /// A write failed.
    WriteFault,
    /// Memory was refused.
    OutOfMemory,
}
