//! The drawing of a layout in a file.

ghost use Rattle.std.specs.Prelude.{◌≡◌, ◌⊎◌, IfErr, OnOk};
ghost use Rattle.inputs.specs.Refusals.{HasNoText, IsNoLayout};
ghost use Rattle.reports.specs.Writing.{Wrote};
ghost use Rattle.commands.specs.Drawn.{DrawPrints};

use drawing::write_drawing;
use inputs::{Fault, FileGiver, layout_of};
use std::alloc::Global;
use std::io::Write;

/// Reads the layout of a file, and writes its drawing.
///
/// # Errors
/// As `layout_of`; and `NoMemory` where memory is refused before the drawing stands ready, `Unwritable` where the output
/// takes no more.
pub fn draw<'a, F: FileGiver, W: Write>(
    alloc: Global,
    files: &F,
    name: &'a str,
    out: &mut W,
) -> Result<(), Fault<'a>>
    ensures ok { OnOk result (Wrote (W.contents out.old) (W.contents out.new) (DrawPrints (F.holds files.now) name.entry.now)) }
    ensures fault { IfErr result (λ f. (f ≡ Fault.NoMemory) ⊎ ((f ≡ Fault.Unreadable name.entry) × HasNoText (F.withholds files.now name.entry.now) (F.holds files.now name.entry.now)) ⊎ IsNoLayout (F.holds files.now name.entry.now) f ⊎ (f ≡ Fault.Unwritable)) }
{
    let layout = layout_of(alloc, files, name)?;
    write_drawing(alloc, out, &layout)?;
    Ok(())
}
