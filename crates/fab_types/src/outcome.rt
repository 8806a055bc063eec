use crate::faults::begin::BeginFault;

/// What an event or a port's turn came to.
/// All but `Moved` change nothing, except that a port's turn may still have put an answer that it kept.
#[derive(Clone, Copy, Debug, PartialEq, Eq)]
pub enum Outcome {
    /// The event took place, or the port's turn moved something.
    Moved,
    /// There was nothing to do, or no room to do it.
    Idle,
    /// A domain refused to begin.
    Refused(BeginFault),
    /// Memory was refused.
    NoMemory,
}
