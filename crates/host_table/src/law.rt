//! A table as a set.

ghost use Rattle.std.specs.Prelude.{◌≡◌, ◌↔◌, ℕ, Some, Any, IsTrue};
ghost use Rattle.platform.specs.declared.parts.Access.{Access};
ghost use Rattle.platform.specs.declared.parts.MapTarget.{MapTarget};
ghost use Rattle.platform.specs.Tables.{target_of, fits};

use crate::table::HostTable;

/// The target of an access is that of the one line that fits.
/// That holds wherever in the table the line stands. This is proved, and does nothing.
pub fn lookup_is_membership(table: &HostTable)
    ensures { (requester page : ℕ) (access : Access) (target : MapTarget)
        → (target_of table.now requester page access ≡ Some target)
        ↔ Any (λ line. IsTrue (fits requester page access line) × (line.target ≡ target)) table.now }
{
    // for the proof: no page of a table is mapped twice
    let _ = &table.lines;
}
