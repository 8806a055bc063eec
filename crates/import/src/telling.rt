//! What a layout tells in comments.

ghost use Rattle.std.specs.Prelude.{◌≡◌, IfOk};
ghost use Rattle.lspci.specs.Acs.{acs_of};
ghost use Rattle.text_writers.specs.Comments.{IsPrintable};
ghost use Rattle.import.specs.Told.{IsToldOf, TellEach, part_word, with_name, with_remark, with_remark_if, with_remarks};
ghost use Rattle.import.specs.Names.{remark_of};

use crate::comments::words_of;
use crate::controls::{has_further_controls, loses_egress};
use crate::names::{Names, remark_on};
use crate::reason::LeftOut;
use crate::role::has_further_window;
use fab_types::{Bdf, NoMemory};
use layout_line::{EgressText, LayoutLine};
use lspci::ConfigSpace;
use std::alloc::Global;
use text_writers::Draft;

/// Tells what has to be told of a port's ACS.
fn tell_remark(alloc: Global, draft: &mut Draft, space: &ConfigSpace<'_>) -> Result<(), NoMemory>
    ensures { IfOk result (λ _. draft.new ≡ with_remark (remark_of (acs_of space.now.bytes.now)) draft.old) }
{
    match remark_on(space) {
        Some(remark) => draft.note(alloc, remark),
        None => Ok(()),
    }
}

fn tell_if(
    alloc: Global,
    draft: &mut Draft,
    is_so: bool,
    remark: &'static str,
) -> Result<(), NoMemory>
    requires { IsPrintable remark.now }
    ensures { IfOk result (λ _. draft.new ≡ with_remark_if is_so remark.entry.now draft.old) }
{
    if is_so {
        draft.note(alloc, remark)
    } else {
        Ok(())
    }
}

/// Tells what there is to say of a port, and what the layout hasn't of it.
fn tell_port(
    alloc: Global,
    draft: &mut Draft,
    space: &ConfigSpace<'_>,
    vectors: &[EgressText],
    id: Bdf,
) -> Result<(), NoMemory>
    ensures { IfOk result (λ _. draft.new ≡ with_remarks space.now.bytes.now vectors.now id draft.old) }
{
    tell_remark(alloc, draft, space)?;
    tell_if(
        alloc,
        draft,
        loses_egress(space, vectors, id),
        "its Egress Control isn't in this layout: Request Redirect counts as clear",
    )?;
    tell_if(
        alloc,
        draft,
        has_further_window(space),
        "its prefetchable window isn't in this layout, which has one window of a port",
    )?;
    tell_if(
        alloc,
        draft,
        has_further_controls(space),
        "its controls besides V, B, R, C, U and E aren't in this layout",
    )?;
    Ok(())
}

/// Tells which device the line is of that was added last.
/// Of a port it tells what there is to say of it.
pub fn tell_device(
    alloc: Global,
    draft: &mut Draft,
    space: &ConfigSpace<'_>,
    vectors: &[EgressText],
    line: &LayoutLine,
    name: &str,
) -> Result<(), NoMemory>
    requires { IsPrintable name.now }
    ensures { IfOk result (λ _. draft.new ≡ with_name space.now.bytes.now vectors.now line.now name.now draft.old) }
{
    draft.note(alloc, name)?;
    match line {
        LayoutLine::Port(port) => tell_port(alloc, draft, space, vectors, port.id),
        _ => Ok(()),
    }
}

/// How the comment of a device begins that has no place.
fn part_word(part: &LeftOut) -> &'static str
    ensures { result.now ≡ part_word part.now }
{
    if part.is_endpoint {
        "left out"
    } else {
        "passed over"
    }
}

/// Tells in a comment that a device has no place.
fn tell_part(
    alloc: Global,
    draft: &mut Draft,
    part: &LeftOut,
    names: &mut Names<'_>,
) -> Result<(), NoMemory>
    ensures told { IfOk result (λ _. IsToldOf names.old part.now draft.old draft.new) }
    ensures names { names.new ≡ names.old }
{
    let name = names.name_of(alloc, part.line, &part.location)?;
    let why = words_of(alloc, &part.why)?;
    let word = part_word(part);
    let comment = format!(in alloc; "{word}: {name}: {why}")?;
    draft.note(alloc, &comment)?;
    Ok(())
}

/// Tells in comments what the layout hasn't.
pub fn tell_left_out(
    alloc: Global,
    draft: &mut Draft,
    left_out: &[LeftOut],
    names: &mut Names<'_>,
) -> Result<(), NoMemory>
    ensures same { IfOk result (λ _. draft.new.platform ≡ draft.old.platform) }
    ensures told { IfOk result (λ _. TellEach names.old left_out.now draft.old draft.new) }
{
    for part in left_out {
        tell_part(alloc, draft, part, names)?;
    }
    Ok(())
}
