//! The layout of a dump in a file.

ghost use Rattle.std.specs.Prelude.{◌≡◌, ◌⊎◌, IfErr, IfOk, option_map};
ghost use Rattle.inputs.specs.Refusals.{HasNoText};
ghost use Rattle.reports.specs.Writing.{Wrote};
ghost use Rattle.commands.specs.Imported.{ImportPrints, status_after};
ghost use Rattle.commands.specs.ImportRefusals.{IsNoDump, IsNoLayoutOfDump, IsNoList};

use crate::import_inputs::{dump_of, owners_in};
use command_line::Importing;
use import::{Import, import_dump};
use inputs::{ExitStatus, Fault, FileGiver, text_of};
use lspci::Passed;
use std::alloc::Global;
use std::io::Write;

/// What a layout has of a machine, and how the program ends.
#[derive(Clone, Copy, Debug, PartialEq, Eq)]
pub struct Imported {
    /// `Done`, or `Partial` where an endpoint has no place in the layout and that isn't meant so.
    pub status: ExitStatus,
    /// How many functions the layout has.
    pub functions: usize,
    /// How many endpoints have no place in it.
    pub endpoints_out: usize,
    /// What of the text was passed over.
    pub passed: Passed,
}

/// How the program ends after this layout, of which parts may be missing or not.
fn status_after(is_partial_meant: bool, made: &Import) -> ExitStatus
    ensures { result ≡ status_after is_partial_meant made.now }
{
    if is_partial_meant || made.endpoints_out() == 0 {
        ExitStatus::Done
    } else {
        ExitStatus::Partial
    }
}

/// Writes the layout of the dump in a file, with a list of owners. It is of what is below the root port that is asked
/// for, or below all root ports of bus 00.
///
/// # Errors
/// As `text_of` and `dump_of`, then as `owners_in`, then why there is no layout: the first that applies. `Unwritable`
/// where the output takes no more, and `NoMemory` where memory was refused.
pub fn import_layout<'a, F: FileGiver, W: Write>(
    alloc: Global,
    files: &F,
    asked: Importing<'a>,
    out: &mut W,
) -> Result<Imported, Fault<'a>>
    ensures ok { IfOk result (λ made. Wrote (W.contents out.old) (W.contents out.new) (ImportPrints (F.holds files.now) asked.entry.dump.now (option_map (λ word. word.now) asked.entry.owners) asked.entry.root asked.entry.partial made)) }
    ensures fault { IfErr result (λ f. (f ≡ Fault.NoMemory) ⊎ ((f ≡ Fault.Unreadable asked.entry.dump) × HasNoText (F.withholds files.now asked.entry.dump.now) (F.holds files.now asked.entry.dump.now)) ⊎ IsNoDump (F.holds files.now asked.entry.dump.now) f ⊎ IsNoList (F.withholds files.now) (F.holds files.now) asked.entry.owners f ⊎ IsNoLayoutOfDump (F.holds files.now) asked.entry.dump.now (option_map (λ word. word.now) asked.entry.owners) asked.entry.root f ⊎ (f ≡ Fault.Unwritable)) }
{
    let text = text_of(files, asked.dump)?;
    let devices = dump_of(alloc, &text)?;
    let list = owners_in(alloc, files, asked.owners)?;
    let made = import_dump(alloc, &devices, &text, asked.root, &list)?;
    out.write_all(made.text().as_bytes())?;
    Ok(Imported {
        status: status_after(asked.partial, &made),
        functions: made.function_count(),
        endpoints_out: made.endpoints_out(),
        passed: devices.passed(),
    })
}
