//! What becomes of long lines.

/// What becomes of a line that has more than 65,600 bytes before its line feed.
#[derive(Clone, Copy, Debug, PartialEq, Eq)]
pub enum LongLines {
    /// The script is given its first 65,601 bytes, and nothing is taken behind them. So no script takes it.
    Cut,
    /// It is taken whole, and the script is given its first 65,601 bytes and behind them its line feed; where the input
    /// ends inside it, no line feed.
    Passed,
}
