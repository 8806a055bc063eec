//! The texts of files: layouts, scripts and journals.

ghost use Rattle.std.specs.Prelude.{◌≡◌, ◌⊎◌, ℕ, List, IfErr, IfOk, Ok, string_bytes};
ghost use Rattle.layout.specs.Reading as layouts;
ghost use Rattle.journal_text.specs.Reading as journals;
ghost use Rattle.script.specs.Reading as scripts;
ghost use Rattle.inputs.specs.Refusals.{HasNoText, IsFaultyLayout, IsNoJournal, IsNoLayout, IsNoScript};

use crate::fault::Fault;
use crate::files::{FileFault, FileGiver};
use fab_types::DomainId;
use journal_text::JournalText;
use layout::Layout;
use script::Script;
use std::alloc::Global;

/// The text of a file.
///
/// # Errors
/// `Unreadable` where the file cannot be read or is no UTF-8, and `NoMemory` where memory was refused.
pub fn text_of<'a, F: FileGiver>(files: &F, name: &'a str) -> Result<String, Fault<'a>>
    ensures text { IfOk result (λ text. F.holds files.now name.entry.now (string_bytes text)) }
    ensures fault { IfErr result (λ f. (f ≡ Fault.NoMemory) ⊎ ((f ≡ Fault.Unreadable name.entry) × HasNoText (F.withholds files.now name.entry.now) (F.holds files.now name.entry.now))) }
{
    let bytes = match files.bytes_of(name) {
        Ok(bytes) => bytes,
        Err(FileFault::Unreadable) => return Err(Fault::Unreadable { name }),
        Err(FileFault::NoMemory) => return Err(Fault::NoMemory),
    };
    match String::from_utf8(bytes) {
        Ok(text) => Ok(text),
        Err(_) => Err(Fault::Unreadable { name }),
    }
}

/// Reads the text of a layout.
///
/// # Errors
/// `Layout` for the first faulty line, and `NoMemory` where memory was refused.
pub fn layout_in<'a>(alloc: Global, text: &str) -> Result<Layout, Fault<'a>>
    ensures layout { IfOk result (λ layout. layouts.reading text.now ≡ Ok layout) }
    ensures fault { IfErr result (λ f. (f ≡ Fault.NoMemory) ⊎ IsFaultyLayout text.now f) }
{
    match Layout::read(alloc, text) {
        Ok(layout) => Ok(layout),
        Err(fault) => Err(Fault::of_layout(fault)),
    }
}

/// Reads the layout of a file.
///
/// # Errors
/// As `text_of`, then as `layout_in`.
pub fn layout_of<'a, F: FileGiver>(
    alloc: Global,
    files: &F,
    name: &'a str,
) -> Result<Layout, Fault<'a>>
    ensures layout { IfOk result (λ layout. (text : List ℕ) × F.holds files.now name.entry.now text × (layouts.reading text ≡ Ok layout)) }
    ensures fault { IfErr result (λ f. (f ≡ Fault.NoMemory) ⊎ ((f ≡ Fault.Unreadable name.entry) × HasNoText (F.withholds files.now name.entry.now) (F.holds files.now name.entry.now)) ⊎ IsNoLayout (F.holds files.now name.entry.now) f) }
{
    let text = text_of(files, name)?;
    layout_in(alloc, text.as_str())
}

/// Reads the script of a file.
///
/// # Errors
/// As `text_of`, and `ScriptLine` for the first faulty line of the text.
pub fn script_of<'a, F: FileGiver>(
    alloc: Global,
    files: &F,
    name: &'a str,
) -> Result<Script, Fault<'a>>
    ensures script { IfOk result (λ script. (text : List ℕ) × F.holds files.now name.entry.now text × (scripts.reading text ≡ Ok script)) }
    ensures fault { IfErr result (λ f. (f ≡ Fault.NoMemory) ⊎ ((f ≡ Fault.Unreadable name.entry) × HasNoText (F.withholds files.now name.entry.now) (F.holds files.now name.entry.now)) ⊎ IsNoScript (F.holds files.now name.entry.now) f) }
{
    let text = text_of(files, name)?;
    match Script::read(alloc, text.as_str()) {
        Ok(script) => Ok(script),
        Err(fault) => Err(Fault::at_line(fault.line, fault.cause)),
    }
}

/// Reads the text of a journal of this domain.
///
/// # Errors
/// `JournalLine` for the first faulty line, and `NoMemory` where memory was refused.
pub fn journal_of<'a>(alloc: Global, domain: DomainId, text: &str) -> Result<JournalText, Fault<'a>>
    ensures journal { IfOk result (λ journal. journals.reading domain text.now ≡ Ok journal) }
    ensures fault { IfErr result (λ f. (f ≡ Fault.NoMemory) ⊎ IsNoJournal domain text.now f) }
{
    match JournalText::read(alloc, domain, text) {
        Ok(journal) => Ok(journal),
        Err(fault) => Err(Fault::of_journal(fault)),
    }
}
