//! Where a machine has the devices of a layout, as comments of the layout's text say.

ghost use Rattle.std.specs.Prelude.{◌≡◌, ◌++◌, ◌≤◌, ◌^◌, IfOk, OnOk};
ghost use Rattle.std.specs.Io.KnownBytes.{Appends};
ghost use Rattle.findings_text.specs.Remarks.{first_word, is_left_out, location_named, name_by, name_text, named_id, noted_location, remarks_of, stated_id};

use fab_types::{Bdf, NoMemory};
use layout_line::{LayoutLine, layout_line_of};
use lspci::{Location, location_of};
use std::alloc::{AllocError, Global};
use std::io;
use std::io::Write;
use std::marker::Model;
use text::{at_blank, cut, is_keyword};

/// How a comment begins that tells of an endpoint that the layout hasn't.
const LEFT_OUT: &[u8] = b"# left out: ";

/// A device, and where the machine has it.
#[derive(Clone, Copy)]
struct Named {
    id: Bdf,
    location: Location,
}

/// What comments of a layout's text say of the machine that it was made of.
/// A contract sees where the machine has the devices, and how many of its endpoints the layout hasn't.
#[derive(Drop)]
pub struct Remarks {
    names: Vec<Named>,
    left_out: usize,
}

impl Model for Remarks {
    ghost use Rattle.findings_text.specs.Remarks.{Told};

    ghost Value = { Told };

    ghost use Rattle.findings_text.specs.RemarkViews.{IsCounted, told_of};

    ghost view = { told_of };

    ghost invariant = { IsCounted };
}

/// The ID of the port, the switch below a port, or the function of a line.
#[tactic(auto, unfolding(crate::specs::Remarks::stated_id))]
fn stated_id(line: &[u8]) -> Option<Bdf>
    ensures { result ≡ stated_id line.now }
{
    match layout_line_of(line) {
        Some(LayoutLine::Switch(switch)) => Some(switch.id),
        Some(LayoutLine::Port(port)) => Some(port.id),
        Some(LayoutLine::Function(function)) => Some(function.id),
        _ => None,
    }
}

/// What stands before the first blank, or all where there is none.
fn first_word(text: &[u8]) -> &[u8]
    ensures { result.now ≡ first_word text.now }
{
    match at_blank(text) {
        Some(parts) => parts.before,
        None => text,
    }
}

/// The location that a comment has for its first word, if it does.
#[tactic(auto, unfolding(crate::specs::Remarks::noted_location))]
fn noted_location(line: &[u8]) -> Option<Location>
    ensures { result ≡ noted_location line.now }
{
    let mark = at_blank(line)?;
    if is_keyword(mark.before, "#") {
        location_of(first_word(mark.after))
    } else {
        None
    }
}

/// Does the line tell of an endpoint that the layout hasn't?
fn is_left_out(line: &[u8]) -> bool
    ensures { result ≡ is_left_out line.now }
{
    line.starts_with(LEFT_OUT)
}

/// Adds where the device is that the line before states, if this line says so.
fn add_name(names: &mut Vec<Named>, before: Option<Bdf>, line: &[u8]) -> Result<(), AllocError>
    ensures { OnOk result (names.new.items ≡ names.old.items ++ name_by before (noted_location line.now)) }
{
    if let (Some(id), Some(location)) = (before, noted_location(line)) {
        names.push(Named { id, location })?;
    }
    Ok(())
}

impl Remarks {
    /// Reads what the comments of a layout's text say of the machine.
    ///
    /// It answers `NoMemory` where memory was refused.
    pub fn read(alloc: Global, text: &str) -> Result<Remarks, NoMemory>
        ensures { IfOk result (λ remarks. remarks ≡ remarks_of text.now) }
    {
        let mut names = Vec::new(alloc);
        let mut left_out: usize = 0;
        let mut before = None;
        let mut rest = text.as_bytes();
        while let Some(parts) = cut(rest, b'\n') {
            add_name(&mut names, before, parts.before)?;
            left_out += usize::from(is_left_out(parts.before));
            before = stated_id(parts.before);
            rest = parts.after;
        }
        add_name(&mut names, before, rest)?;
        left_out += usize::from(is_left_out(rest));
        Ok(Remarks { names, left_out })
    }

    /// How many endpoints of the machine the layout hasn't.
    pub fn left_out_count(&self) -> usize
        ensures value { result ≡ self.now.left_out }
        ensures small { result ≤ 2 ^ 63 }
    {
        self.left_out
    }

    /// Where the machine has the device of this ID, if the text says so.
    fn location_named(&self, id: Bdf) -> Option<Location>
        ensures { result ≡ location_named self.now.names id }
    {
        self.names
            .iter()
            .find(|named| named.id == id)
            .map(|named| named.location)
    }
}

/// Writes a location in brackets, if there is one.
fn write_name<W: Write>(out: &mut W, location: Option<Location>) -> io::Result<()>
    ensures { OnOk result (Appends (W.contents out.old) (W.contents out.new) (name_text location)) }
{
    match location {
        Some(location) => write!(out, " [{location}]"),
        None => Ok(()),
    }
}

/// Writes an ID, and behind it where the machine has that device, if the text says so.
#[tactic(auto, unfolding(crate::specs::Remarks::named_id))]
pub(crate) fn write_id<W: Write>(out: &mut W, remarks: &Remarks, id: Bdf) -> io::Result<()>
    ensures { OnOk result (Appends (W.contents out.old) (W.contents out.new) (named_id remarks.now.names id)) }
{
    write!(out, "{id}")?;
    write_name(out, remarks.location_named(id))?;
    Ok(())
}

/// Writes words and an ID.
pub(crate) fn write_with_id<W: Write>(
    out: &mut W,
    remarks: &Remarks,
    words: &[u8],
    id: Bdf,
) -> io::Result<()>
    ensures { OnOk result (Appends (W.contents out.old) (W.contents out.new) (words.now ++ named_id remarks.now.names id)) }
{
    out.write_all(words)?;
    write_id(out, remarks, id)?;
    Ok(())
}
