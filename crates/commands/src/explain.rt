//! Whether the domains of the layout in a file are kept apart.

ghost use Rattle.std.specs.Prelude.{◌≡◌, ◌⊎◌, IfErr, IfOk, MatchOption, option_map};
ghost use Rattle.std.specs.List.{list_any};
ghost use Rattle.attacks.specs.Findings.{has_witness};
ghost use Rattle.inputs.specs.Files.{WroteBoth};
ghost use Rattle.inputs.specs.Refusals.{HasNoText, IsNoLayout};
ghost use Rattle.commands.specs.Explained.{Explains, status_after, unless_partial};

use crate::explain_scripts::write_scripts;
use attacks::{Findings, Pair};
use audit::audit;
use command_line::Explaining;
use findings_text::{Remarks, write_explanation};
use inputs::{ExitStatus, Fault, FileGiver, FileTaker, layout_in, text_of};
use std::alloc::Global;
use std::io::Write;

/// Audits the layout of a file, and writes what it is about, its tree and what was found.
/// Before that the script of each witness goes into a file, if a folder is named. It answers how the program ends:
/// `NothingToKeep` where fewer than two domains own a function; `Harmed` where a domain was seen to harm another; else `Done`
/// where the layout is guarded and `Unguarded` where it isn't, or `Partial` in place of both where comments of the text say
/// that endpoints were left out.
///
/// # Errors
/// As `text_of`, then as `layout_in`; and `NoMemory` where memory is refused before the text stands ready, `Folder` where a script
/// can't be written, `Unwritable` where the output takes no more.
pub fn explain<'a, F: FileGiver, T: FileTaker, W: Write>(
    alloc: Global,
    files: &F,
    asked: Explaining<'a>,
    scripts: &mut T,
    out: &mut W,
) -> Result<ExitStatus, Fault<'a>>
    ensures ok { IfOk result (λ status. WroteBoth (W.contents out.old) (W.contents out.new) (T.written scripts.old) (T.written scripts.new) (Explains (F.holds files.now) asked.entry.layout.now (option_map (λ name. name.now) asked.entry.scripts) asked.entry.groups status)) }
    ensures fault { IfErr result (λ f. (f ≡ Fault.NoMemory) ⊎ ((f ≡ Fault.Unreadable asked.entry.layout) × HasNoText (F.withholds files.now asked.entry.layout.now) (F.holds files.now asked.entry.layout.now)) ⊎ IsNoLayout (F.holds files.now asked.entry.layout.now) f ⊎ MatchOption asked.entry.scripts ⊥ (λ name. f ≡ Fault.Folder name) ⊎ (f ≡ Fault.Unwritable)) }
{
    let text = text_of(files, asked.layout)?;
    let layout = layout_in(alloc, text.as_str())?;
    let remarks = Remarks::read(alloc, text.as_str())?;
    let findings = audit(alloc, &layout)?;
    write_scripts(alloc, scripts, asked.scripts, &remarks, &findings)?;
    write_explanation(alloc, out, &layout, &remarks, &findings, asked.groups)?;
    Ok(status_after(&findings, remarks.left_out_count()))
}

/// Was harm seen of any two domains?
fn have_witness(pairs: &[Pair]) -> bool
    ensures { result ≡ list_any has_witness pairs.now }
{
    pairs.iter().any(|pair| pair.has_witness())
}

/// This status, unless so many endpoints were left out of the layout.
fn unless_partial(left_out: usize, status: ExitStatus) -> ExitStatus
    ensures { result ≡ unless_partial left_out status }
{
    if left_out == 0 {
        status
    } else {
        ExitStatus::Partial
    }
}

/// How the program ends after these findings, where so many endpoints were left out of the layout.
fn status_after(findings: &Findings, left_out: usize) -> ExitStatus
    ensures { result ≡ status_after findings.now left_out }
{
    match findings {
        Findings::NothingToKeep => ExitStatus::NothingToKeep,
        Findings::Guarded => unless_partial(left_out, ExitStatus::Done),
        Findings::Unguarded(pairs) => {
            if have_witness(pairs) {
                ExitStatus::Harmed
            } else {
                unless_partial(left_out, ExitStatus::Unguarded)
            }
        }
    }
}
