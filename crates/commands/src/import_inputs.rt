//! A dump, and a list of owners.

ghost use Rattle.std.specs.Prelude.{◌≡◌, ◌⊎◌, IfErr, IfOk, Ok, option_map};
ghost use Rattle.lspci.specs.Reading as dumps;
ghost use Rattle.import.specs.Owners as lists;
ghost use Rattle.commands.specs.Imported.{AreOwners};
ghost use Rattle.commands.specs.ImportRefusals.{IsFaultyDump, IsFaultyList, IsNoList};

use fab_types::ScriptCause;
use import::{Owner, owners_of};
use inputs::{Fault, FileGiver, text_of};
use lspci::{Dump, DumpCause};
use std::alloc::Global;

/// Reads a dump.
///
/// # Errors
/// `Dump` for its first faulty line, and `NoMemory` where memory was refused.
pub fn dump_of<'a>(alloc: Global, text: &str) -> Result<Dump, Fault<'a>>
    ensures ok { IfOk result (λ dump. dumps.reading text.now ≡ Ok dump) }
    ensures fault { IfErr result (λ f. (f ≡ Fault.NoMemory) ⊎ IsFaultyDump text.now f) }
{
    match Dump::read(alloc, text) {
        Ok(dump) => Ok(dump),
        Err(fault) => match fault.cause {
            DumpCause::NoMemory => Err(Fault::NoMemory),
            _ => Err(Fault::Dump(fault)),
        },
    }
}

fn list_of<'a>(alloc: Global, text: &str) -> Result<Vec<Owner>, Fault<'a>>
    ensures ok { IfOk result (λ owners. lists.reading text.now ≡ Ok owners.items) }
    ensures fault { IfErr result (λ f. (f ≡ Fault.NoMemory) ⊎ IsFaultyList text.now f) }
{
    match owners_of(alloc, text) {
        Ok(owners) => Ok(owners),
        Err(fault) => match fault.cause {
            ScriptCause::NoMemory => Err(Fault::NoMemory),
            ScriptCause::Line => Err(Fault::OwnersLine { line: fault.line }),
        },
    }
}

/// Reads the list of owners of a file; without a name it is empty.
///
/// # Errors
/// As `text_of`, and `OwnersLine` for the first faulty line.
pub fn owners_in<'a, F: FileGiver>(
    alloc: Global,
    files: &F,
    name: Option<&'a str>,
) -> Result<Vec<Owner>, Fault<'a>>
    ensures ok { IfOk result (λ owners. AreOwners (F.holds files.now) (option_map (λ word. word.now) name.entry) owners.items) }
    ensures fault { IfErr result (λ f. (f ≡ Fault.NoMemory) ⊎ IsNoList (F.withholds files.now) (F.holds files.now) name.entry f) }
{
    match name {
        None => Ok(Vec::new(alloc)),
        Some(name) => {
            let text = text_of(files, name)?;
            list_of(alloc, &text)
        }
    }
}
