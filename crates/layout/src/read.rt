//! Reading a layout text.

ghost use Rattle.std.specs.Prelude.{◌≡◌, IfOk};
ghost use Rattle.text.specs.Text.{pieces};
ghost use Rattle.platform.specs.Platform.{no_lines};
ghost use Rattle.layout.specs.Laws.{IsPlatform};
ghost use Rattle.layout.specs.Places.{IsWellPlaced};
ghost use Rattle.layout.specs.Reading.{ended, read_from, reading, version_of, IsReading};

use crate::layout::Layout;
use fab_types::{LayoutCause, LayoutFault};
use platform::{LayoutVersion, has_root};
use std::alloc::Global;
use text::{cut, is_keyword};

// Behind the last line feed stands nothing, and by then there is a switch below the root port.
fn ended(layout: Layout, line: u32, rest: &[u8]) -> Result<Layout, LayoutFault>
    ensures value { result ≡ ended layout line rest.now }
    ensures laws { IfOk result (λ layout. IsPlatform layout) }
    ensures places { IfOk result (λ layout. IsWellPlaced layout) }
{
    if is_keyword(rest, "") && has_root(layout.switches()) {
        return Ok(layout);
    }
    let cause = LayoutCause::Line;
    Err(LayoutFault { cause, line })
}

// The version that the first line says.
fn version_of(line: &[u8]) -> Option<LayoutVersion>
    ensures { result ≡ version_of line.now }
{
    if is_keyword(line, "pciefab 1") {
        Some(LayoutVersion::One)
    } else if is_keyword(line, "pciefab 2") {
        Some(LayoutVersion::Two)
    } else {
        None
    }
}

fn read_lines(alloc: Global, version: LayoutVersion, text: &[u8]) -> Result<Layout, LayoutFault>
    ensures exact { IsReading (read_from (no_lines version) 2 (pieces text.now)) result }
    ensures laws { IfOk result (λ layout. IsPlatform layout) }
    ensures places { IfOk result (λ layout. IsWellPlaced layout) }
{
    let mut line: u32 = 2;
    let Ok(mut layout) = Layout::empty(alloc, version) else {
        let cause = LayoutCause::NoMemory;
        return Err(LayoutFault { cause, line });
    };
    let mut rest = text;
    while let Some(parts) = cut(rest, b'\n') {
        if let Err(cause) = layout.take_line(parts.before) {
            return Err(LayoutFault { cause, line });
        }
        line = line.saturating_add(1);
        rest = parts.after;
    }
    ended(layout, line, rest)
}

impl Layout {
    /// Reads a layout text.
    ///
    /// # Errors
    ///
    /// The first faulty line, counted from 1 (the line after the last where no switch stands below the
    /// root port), and the least numbered cause that applies to it; or `NoMemory` and the line at which
    /// memory was refused.
    pub fn read(alloc: Global, text: &str) -> Result<Layout, LayoutFault>
        ensures exact { IsReading (reading text.now) result }
        ensures laws { IfOk result (λ layout. IsPlatform layout) }
        ensures places { IfOk result (λ layout. IsWellPlaced layout) }
    {
        match cut(text.as_bytes(), b'\n') {
            Some(first) => {
                if let Some(version) = version_of(first.before) {
                    return read_lines(alloc, version, first.after);
                }
            }
            None => {}
        }
        let (cause, line) = (LayoutCause::Line, 1);
        Err(LayoutFault { cause, line })
    }
}
