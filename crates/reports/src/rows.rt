//! The rows of pages of memory.

ghost use Rattle.std.specs.Prelude.{◌≡◌, ◌==◌, length, OnOk, Some};
ghost use Rattle.std.specs.List.{list_all};
ghost use Rattle.std.specs.Io.KnownBytes.{Appends};
ghost use Rattle.reports.specs.Report.{page_lines, page_name, row_line};

use fab_types::Bdf;
use std::io::Write;
use std::{fmt, io};

/// The bytes of a row.
const ROW: usize = 16;

/// What a page is.
#[derive(Clone, Copy, Debug, PartialEq, Eq)]
pub enum PageName {
    /// The frame of memory of this number.
    Frame(u16),
    /// The register page of this function.
    Registers(Bdf),
}

impl fmt::Display for PageName {
    ghost output = { λ page. Some (page_name page) };

    /// As `frame 0` or `regs 03:00.0`.
    fn fmt<W: fmt::Write>(&self, f: &mut fmt::Formatter<W>) -> fmt::Result {
        match self {
            PageName::Frame(number) => write!(f, "frame {number}"),
            PageName::Registers(function) => write!(f, "regs {function}"),
        }
    }
}

/// Writes the rows of a page that are not all 0.
pub fn write_rows<W: Write>(out: &mut W, page: &PageName, bytes: &[u8]) -> io::Result<()>
    ensures { OnOk result (Appends (W.contents out.old) (W.contents out.new) (page_lines page.now bytes.now)) }
{
    for row in 0..bytes.len() / ROW {
        let offset = row * ROW;
        write_row(out, page, offset, &bytes[offset..offset + ROW])?;
    }
    Ok(())
}

/// Writes a row of a page, unless it is all 0.
fn write_row<W: Write>(out: &mut W, page: &PageName, offset: usize, row: &[u8]) -> io::Result<()>
    requires { length row.now ≡ ROW }
    ensures { OnOk result (Appends (W.contents out.old) (W.contents out.new) (row_line page.now offset row.now)) }
{
    if is_blank(row) {
        return Ok(());
    }
    let mut digits = [0; 2 * ROW];
    hex::encode_to_slice(row, &mut digits).unwrap();
    write!(out, "{page} {offset:03x} ")?;
    out.write_all(&digits)?;
    out.write_all(b"\n")
}

fn is_blank(row: &[u8]) -> bool
    ensures { result ≡ list_all (λ b. b == 0) row.now }
{
    row.iter().all(|&byte| byte == 0)
}
