//! A layout, a script and a domain.

ghost use Rattle.std.specs.Prelude.{◌≡◌, ◌⊎◌, IfErr, IfOk};
ghost use Rattle.inputs.specs.Inputs.{AreInputs};
ghost use Rattle.inputs.specs.Refusals.{HasNoText, IsNoLayout, IsNoOwner, IsNoScript};

use crate::fault::Fault;
use crate::files::FileGiver;
use crate::starts::start_of;
use crate::texts::{layout_of, script_of};
use command_line::Files;
use layout::{Layout, Start};
use script::Script;
use std::alloc::Global;

/// What `alone` and `journal` are given.
#[derive(Drop)]
pub struct Inputs {
    /// The layout that was read.
    pub layout: Layout,
    /// The script that was read.
    pub script: Script,
    /// What the domain that was asked for starts from.
    pub start: Start,
}

/// Reads the files of these names, and finds the domain of this number.
///
/// # Errors
/// As `layout_of`, then as `script_of`, then as `start_of`: the first that applies.
pub fn inputs_of<'a, F: FileGiver>(
    alloc: Global,
    files: &F,
    names: Files<'a>,
    number: u32,
) -> Result<Inputs, Fault<'a>>
    ensures inputs { IfOk result (λ inputs. AreInputs (F.holds files.now) names.entry.layout.now names.entry.script.now number inputs.layout inputs.script inputs.start) }
    ensures fault { IfErr result (λ f. (f ≡ Fault.NoMemory) ⊎ ((f ≡ Fault.Unreadable names.entry.layout) × HasNoText (F.withholds files.now names.entry.layout.now) (F.holds files.now names.entry.layout.now)) ⊎ IsNoLayout (F.holds files.now names.entry.layout.now) f ⊎ ((f ≡ Fault.Unreadable names.entry.script) × HasNoText (F.withholds files.now names.entry.script.now) (F.holds files.now names.entry.script.now)) ⊎ IsNoScript (F.holds files.now names.entry.script.now) f ⊎ IsNoOwner (F.holds files.now names.entry.layout.now) number f) }
{
    let layout = layout_of(alloc, files, names.layout)?;
    let script = script_of(alloc, files, names.script)?;
    let start = start_of(alloc, &layout, number)?;
    Ok(Inputs {
        layout,
        script,
        start,
    })
}
