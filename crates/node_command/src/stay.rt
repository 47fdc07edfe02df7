//! How long a member is served.

/// For how long a member is served.
#[derive(Clone, Copy, Debug, PartialEq, Eq)]
pub struct Stay {
    /// For how many turns, 1 to 1,000,000.
    pub turns: u32,
    /// Whether it leaves behind the last of them.
    pub leave: bool,
}
