//! The bytes of a completion.

ghost use Rattle.std.specs.Prelude.{◌≡◌, ◌≤◌, ◌-◌, take, drop};
ghost use Rattle.std.specs.Borrow.{sem};

/// The bytes in a struct of their own, so that a contract can say what a loan of a part leaves.
#[derive(Clone, Copy, Drop)]
pub(crate) struct Cells {
    pub(crate) xs: [u8; 268],
}

impl Cells {
    ghost use Rattle.tlp_view.specs.Lent.{LendsPart};

    /// The bytes from byte 12 up to `end`, for writing.
    pub(crate) fn part_mut(&mut self, end: usize) -> &mut [u8]
        requires low { 12 ≤ end }
        requires high { end ≤ 268 }
        ensures* writes_back { sem 𝓛 (LendsPart self.entry result) }
        ensures value { result.now ≡ take (end - 12) (drop 12 self.old.xs) }
    {
        &mut self.xs[12..end]
    }
}
