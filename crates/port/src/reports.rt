//! Reports of violations in a list.

ghost use Rattle.std.specs.Prelude.{◌≡◌, ⊤, [], true};

use fab_types::{NoMemory, Violation};
use lane::Reporter;
use std::alloc::Global;
use std::marker::Model;

/// Violations in the order in which they were reported. A contract sees a `Reported`.
#[derive(Debug, Drop)]
pub struct Reports {
    violations: Vec<Violation>,
    refusals: u64,
}

impl Model for Reports {
    ghost use Rattle.std.specs.Prelude.{nat_lt, vec_len, vec_capacity};
    ghost use Rattle.port.specs.Reports.{Reported};

    ghost Value = { Reported };

    ghost view = { λ r. record { violations = r.violations.items; has_room = nat_lt (vec_len r.violations) (vec_capacity r.violations); refusals = r.refusals } };
}

impl Reports {
    /// No reports yet.
    pub fn new(alloc: Global) -> Reports
        ensures { result.violations ≡ [] }
    {
        Reports {
            violations: Vec::new(alloc),
            refusals: 0,
        }
    }

    /// What was reported, oldest first.
    pub fn violations(&self) -> &[Violation]
        ensures { result.now ≡ self.now.violations }
    {
        &self.violations
    }
}

impl Reporter for Reports {
    ghost Line = { ⊤ };

    ghost line = { λ _. tt };

    ghost reported = { λ r. r.violations };

    ghost refusals = { λ r. r.refusals };

    ghost has_room = { λ r. r.has_room };

    ghost is_sure = { true };

    fn prepare_report(&mut self) -> Result<(), NoMemory> {
        self.violations.reserve(1)?;
        Ok(())
    }

    fn report(&mut self, violation: Violation) -> Result<(), Violation> {
        match self.violations.push(violation) {
            Ok(()) => Ok(()),
            Err(failed) => {
                self.refusals = self.refusals.wrapping_add(1);
                Err(failed.value)
            }
        }
    }
}
