//! The line of what is in flight.

ghost use Rattle.std.specs.Prelude.{◌≡◌, OnOk};
ghost use Rattle.std.specs.Io.KnownBytes.{Appends};
ghost use Rattle.std.specs.List.{flat_map};
ghost use Rattle.journal_text.specs.Notes.{in_flight_line, number_word};
ghost use Rattle.journal_text.specs.Reading.{are_numbers, is_in_flight};

use std::io;
use std::io::Write;
use text::{is_keyword, wide_decimal};

/// Writes which numbers are in flight, on one line, or nothing where none is.
///
/// # Errors
///
/// Those of the writer.
pub(crate) fn write_in_flight<W: Write>(out: &mut W, numbers: &[u64]) -> io::Result<()>
    ensures { OnOk result (Appends (W.contents out.old) (W.contents out.new) (in_flight_line numbers.now)) }
{
    if numbers.is_empty() {
        return Ok(());
    }
    write!(out, "in flight")?;
    write_numbers(out, numbers)?;
    out.write_all(b"\n")
}

/// Writes these numbers, with a blank before each.
fn write_numbers<W: Write>(out: &mut W, numbers: &[u64]) -> io::Result<()>
    ensures { OnOk result (Appends (W.contents out.old) (W.contents out.new) (flat_map number_word numbers.now)) }
{
    for number in numbers {
        write!(out, " {number}")?;
    }
    Ok(())
}

/// Are these numbers, with one blank between them?
fn are_numbers(text: &[u8]) -> bool
    ensures { result ≡ are_numbers text.now }
{
    text.split(|byte| *byte == b' ')
        .all(|word| wide_decimal(word).is_some())
}

/// Is it the line of what is in flight, with one number or more?
pub(crate) fn is_in_flight(line: &[u8]) -> bool
    ensures { result ≡ is_in_flight line.now }
{
    if line.len() >= 10 && is_keyword(&line[..10], "in flight ") {
        are_numbers(&line[10..])
    } else {
        false
    }
}
