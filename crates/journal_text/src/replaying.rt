//! A domain from the lines of its journal.

ghost use Rattle.std.specs.Prelude.{◌≡◌, ℕ, IfOk, Err, Some, map};
ghost use Rattle.std.specs.Result.{IsOkUnless};
ghost use Rattle.domain.specs.Machine as machine;
ghost use Rattle.domain_state.specs.State.{Alone};
ghost use Rattle.journal_text.specs.Steps.{IsFirstIllegalLine, entries_of};

use crate::read::JournalLine;
use domain::{Domain, EntryFault};
use layout::Start;
use std::alloc::Global;

/// Why lines were not replayed.
#[derive(Clone, Copy, Debug, PartialEq, Eq)]
pub enum LineFault {
    /// The entry in the line of this number is illegal after those before it.
    Illegal(u32),
    /// Memory was refused.
    NoMemory,
}

/// The domain that the entries of these lines leave, from its start.
///
/// # Errors
///
/// `Illegal` and the number of the first line whose entry is illegal after those before it, or `NoMemory` where memory
/// was refused.
pub fn replay(alloc: Global, start: &Start, lines: &[JournalLine]) -> Result<Domain, LineFault>
    ensures state { IfOk result (λ domain. machine.replay start.now (entries_of lines.now) ≡ Some domain.state) }
    ensures journal { IfOk result (λ domain. (domain.journal ≡ entries_of lines.now) × (domain.share ≡ start.now)) }
    ensures illegal { (number : ℕ) → result ≡ Err (LineFault.Illegal number) → IsFirstIllegalLine start.now lines.now number }
    ensures legal { (s : Alone) → machine.replay start.now (entries_of lines.now) ≡ Some s → IsOkUnless result LineFault.NoMemory }
{
    let Ok(mut domain) = Domain::replay(alloc, start, &[]) else {
        return Err(LineFault::NoMemory);
    };
    for line in lines {
        match domain.apply(&line.entry) {
            Ok(()) => {}
            Err(EntryFault::Illegal) => return Err(LineFault::Illegal(line.number)),
            Err(EntryFault::NoMemory) => return Err(LineFault::NoMemory),
        }
    }
    Ok(domain)
}
