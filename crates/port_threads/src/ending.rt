//! When workers end.

/// How a fabric is stopped.
#[derive(Clone, Copy, Debug, PartialEq, Eq)]
pub enum Ending {
    /// Each worker ends before its next turn.
    Now,
    /// Each worker makes the turns first that it was started for.
    AfterTurns,
}
