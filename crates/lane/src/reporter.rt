//! Whom a port tells of violations.

ghost use Rattle.std.specs.Prelude.{◌≡◌, ◌≢◌, ℕ, Bool, true, false, List, [], ◌∷◌, ◌++◌, MatchResult, OnOk, OnErr};
ghost use Rattle.fab_types.specs.declared.violation.Violation.{Violation};

use fab_types::{NoMemory, Violation};

/// Who takes the reports of violations.
pub trait Reporter {
    /// What tells one reporter from another.
    ghost Line: { Type 0 };

    /// Whose end this is. No call changes it.
    ghost line: { Self → Line };

    /// What was reported, in order.
    ghost reported: { Self → List Violation };

    /// How often a report was given back, in a number that wraps.
    ghost refusals: { Self → ℕ };

    /// Is there a place for one more report?
    ghost has_room: { Self → Bool };

    /// Is that known beforehand?
    /// Then room which was made is still there for the next report.
    ghost is_sure: { Bool };

    /// Makes room for a report. It answers `NoMemory` where memory was refused.
    fn prepare_report(&mut self) -> Result<(), NoMemory>
        ensures line { line self.new ≡ line self.old }
        ensures reported { reported self.new ≡ reported self.old }
        ensures counted { refusals self.new ≡ refusals self.old }
        ensures room { is_sure ≡ true → OnOk result (has_room self.new ≡ true) };

    /// Takes a report, or gives it back where there is no place for it.
    fn report(&mut self, violation: Violation) -> Result<(), Violation>
        ensures line { line self.new ≡ line self.old }
        ensures taken { MatchResult result (λ _. (reported self.new ≡ reported self.old ++ violation ∷ []) × (refusals self.new ≡ refusals self.old))
            (λ back. (back ≡ violation) × (reported self.new ≡ reported self.old) × (refusals self.new ≢ refusals self.old)) }
        ensures full { OnErr result (has_room self.old ≡ false) };
}
