//! What moved at a station.

ghost use Rattle.std.specs.Prelude.{◌≡◌};
ghost use Rattle.sweeps.specs.Asleep.{are_blocked, has_moved};

/// What moved at a station that was visited.
#[derive(Clone, Copy, Debug, PartialEq, Eq)]
pub(crate) struct Moves {
    /// A packet was taken there.
    pub(crate) taken: bool,
    /// The receiver of a direction got one.
    pub(crate) received: bool,
    /// The sender of a direction got credits back.
    pub(crate) updated: bool,
    /// The station was quiet, so that nothing was tried.
    pub(crate) was_quiet: bool,
}

impl Moves {
    pub(crate) const NONE: Moves = Moves {
        taken: false,
        received: false,
        updated: false,
        was_quiet: true,
    };

    pub(crate) fn any(self) -> bool
        ensures { result ≡ has_moved self }
    {
        self.taken || self.received || self.updated
    }

    /// Was something tried in vain?
    pub(crate) fn are_blocked(self) -> bool
        ensures { result ≡ are_blocked self }
    {
        !self.any() && !self.was_quiet
    }
}
