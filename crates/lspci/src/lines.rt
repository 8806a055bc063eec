//! What a line of a dump says.

ghost use Rattle.std.specs.Prelude.{◌≡◌, ◌+◌, ◌≤◌, length};
ghost use Rattle.lspci.specs.Lines.{begins_blank, byte_at, device_line, dump_line_of, is_ragged, location_of, row_bytes, row_line, row_of, said_by, trimmed};

use fab_types::Bdf;
use std::fmt;
use text::{at_blank, cut, hex_byte, hexadecimal, id};

/// Where a device is: its PCI segment, and its ID there. `lspci` calls a segment a domain.
#[derive(Clone, Copy, Debug, PartialEq, Eq)]
pub struct Location {
    /// The number of the PCI segment, mostly 0.
    pub segment: u32,
    /// Bus, device and function.
    pub id: Bdf,
}

/// Written as `0000:00:1c.0`: the segment in four hexadecimal digits at least.
impl fmt::Display for Location {
    ghost use Rattle.std.specs.Prelude.{Some};
    ghost use Rattle.lspci.specs.Lines.{location_text};

    ghost output = { λ location. Some (location_text location) };

    fn fmt<W: fmt::Write>(&self, f: &mut fmt::Formatter<W>) -> fmt::Result {
        let (segment, id) = (self.segment, self.id);
        write!(f, "{segment:04x}:{id}")
    }
}

/// Sixteen bytes of a configuration space.
#[derive(Clone, Copy, Debug)]
pub struct Row {
    /// The offset of the first one.
    pub offset: u16,
    /// The bytes, by rising offsets.
    pub bytes: [u8; 16],
}

/// What a line of a dump says.
#[derive(Clone, Copy, Debug)]
pub enum DumpLine {
    /// A device begins.
    Device(Location),
    /// Bytes of its configuration space.
    Row(Row),
    /// A detail of the device, in words, which is passed over.
    Detail,
    /// Nothing: the device ends.
    Blank,
}

/// A location, as `00:1c.0` or `0000:00:1c.0`. Without a segment it is in segment 0.
pub fn location_of(word: &[u8]) -> Option<Location>
    ensures { result ≡ location_of word.now }
{
    if let Some(id) = id(word) {
        return Some(Location { segment: 0, id });
    }
    let parts = cut(word, b':')?;
    let segment = hexadecimal(parts.before, 4, 8)? as u32;
    let id = id(parts.after)?;
    Some(Location { segment, id })
}

fn device_line(line: &[u8]) -> Option<DumpLine>
    ensures { result ≡ device_line line.now }
{
    let parts = at_blank(line)?;
    Some(DumpLine::Device(location_of(parts.before)?))
}

/// The byte that two digits behind a blank spell.
fn byte_at(text: &[u8], place: usize) -> Option<u8>
    requires { place + 3 ≤ length text.now }
    ensures { result ≡ byte_at text.now place }
{
    if text[place] == b' ' {
        hex_byte(&text[place + 1..place + 3])
    } else {
        None
    }
}

/// The bytes of a row.
fn row_bytes(text: &[u8]) -> Option<[u8; 16]>
    ensures { result ≡ row_bytes text.now }
{
    if text.len() != 48 {
        return None;
    }
    let mut bytes = [0; 16];
    for place in 0..16 {
        let Some(byte) = byte_at(text, 3 * place) else {
            return None;
        };
        bytes[place] = byte;
    }
    Some(bytes)
}

/// A row, as ` 86 80 ..` behind its offset.
fn row_of(offset: &[u8], text: &[u8]) -> Option<Row>
    ensures { result ≡ row_of offset.now text.now }
{
    let offset = hexadecimal(offset, 2, 3)? as u16;
    let bytes = row_bytes(text)?;
    Some(Row { offset, bytes })
}

fn row_line(line: &[u8]) -> Option<DumpLine>
    ensures { result ≡ row_line line.now }
{
    let parts = cut(line, b':')?;
    Some(DumpLine::Row(row_of(parts.before, parts.after)?))
}

/// The line without blanks, tabs and carriage returns at its end.
pub fn trimmed(line: &[u8]) -> &[u8]
    ensures { result.now ≡ trimmed line.now }
{
    line.trim_ascii_end()
}

/// Does it begin with a blank or a tab?
fn begins_blank(line: &[u8]) -> bool
    ensures { result ≡ begins_blank line.now }
{
    !line.is_empty() && (line[0] == b' ' || line[0] == b'\t')
}

/// Has a line that is no detail something at its end that is passed over?
pub fn is_ragged(line: &[u8]) -> bool
    ensures { result ≡ is_ragged line.now }
{
    !begins_blank(line) && trimmed(line).len() < line.len()
}

/// What a line says that is no detail and has no blank at its end.
fn said_by(line: &[u8]) -> Option<DumpLine>
    ensures { result ≡ said_by line.now }
{
    if line.is_empty() {
        return Some(DumpLine::Blank);
    }
    match device_line(line) {
        Some(device) => Some(device),
        None => row_line(line),
    }
}

/// What a line of a dump says, if it has one of the forms. What is blank at its end doesn't count.
#[tactic(auto, unfolding(crate::specs::Lines::dump_line_of))]
pub fn dump_line_of(line: &[u8]) -> Option<DumpLine>
    ensures { result ≡ dump_line_of line.now }
{
    if begins_blank(line) {
        return Some(DumpLine::Detail);
    }
    said_by(trimmed(line))
}
