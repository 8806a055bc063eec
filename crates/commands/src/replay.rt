//! The command `replay`: a domain from the text of its journal.

ghost use Rattle.std.specs.Prelude.{◌≡◌, ◌⊎◌, IfErr, OnOk};
ghost use Rattle.inputs.specs.Endings.{IsRunFault};
ghost use Rattle.inputs.specs.Refusals.{HasNoText, IsNoLayout, IsNoOwner};
ghost use Rattle.reports.specs.Writing.{Wrote};
ghost use Rattle.commands.specs.ReplayRefusals.{HasIllegalEntry, HasNoJournal};
ghost use Rattle.commands.specs.Runs.{ReplayPrints};

use crate::report::write_part;
use inputs::{Fault, FileGiver, journal_of, layout_of, start_of, text_of};
use std::alloc::Global;
use std::io::Write;

/// Replays the journal in a file from what the layout gives this domain.
/// It writes the part of the report of the domain.
///
/// # Errors
/// As `layout_of`, then as `text_of`, `start_of` and `journal_of`, then `IllegalEntry` for the first line whose entry is illegal
/// after those before it: the first that applies; and `NoMemory` where memory was refused, `Unwritable` where the output takes no
/// more.
pub fn replay<'a, F: FileGiver, W: Write>(
    alloc: Global,
    files: &F,
    layout_name: &'a str,
    journal_name: &'a str,
    number: u32,
    out: &mut W,
) -> Result<(), Fault<'a>>
    ensures ok { OnOk result (Wrote (W.contents out.old) (W.contents out.new) (ReplayPrints (F.holds files.now) layout_name.entry.now journal_name.entry.now number)) }
    ensures fault { IfErr result (λ f. (f ≡ Fault.NoMemory) ⊎ ((f ≡ Fault.Unreadable layout_name.entry) × HasNoText (F.withholds files.now layout_name.entry.now) (F.holds files.now layout_name.entry.now)) ⊎ IsNoLayout (F.holds files.now layout_name.entry.now) f ⊎ ((f ≡ Fault.Unreadable journal_name.entry) × HasNoText (F.withholds files.now journal_name.entry.now) (F.holds files.now journal_name.entry.now)) ⊎ IsNoOwner (F.holds files.now layout_name.entry.now) number f ⊎ HasNoJournal (F.holds files.now) layout_name.entry.now journal_name.entry.now number f ⊎ HasIllegalEntry (F.holds files.now) layout_name.entry.now journal_name.entry.now number f ⊎ IsRunFault f) }
{
    let layout = layout_of(alloc, files, layout_name)?;
    let text = text_of(files, journal_name)?;
    let start = start_of(alloc, &layout, number)?;
    let journal = journal_of(alloc, start.domain(), text.as_str())?;
    let domain = journal_text::replay(alloc, &start, journal.lines())?;
    write_part(alloc, out, &domain)?;
    Ok(())
}
