//! How far a line of the tree is indented.

ghost use Rattle.std.specs.Prelude.{OnOk};
ghost use Rattle.std.specs.Io.KnownBytes.{Appends};
ghost use Rattle.findings_text.specs.Tree.{indent};

use std::io;
use std::io::Write;

/// Writes two blanks for each level.
pub(crate) fn write_indent<W: Write>(out: &mut W, depth: u8) -> io::Result<()>
    ensures { OnOk result (Appends (W.contents out.old) (W.contents out.new) (indent depth)) }
{
    for _ in 0..depth {
        out.write_all(b"  ")?;
    }
    Ok(())
}
