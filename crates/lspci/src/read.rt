//! Reading a dump.

ghost use Rattle.std.specs.Prelude.{◌≡◌};
ghost use Rattle.lspci.specs.Reading.{IsReading, IsStep, closed, end_by, end_of, passing, reading, unless_empty};

use crate::dump::Dump;
use crate::fault::{DumpCause, DumpFault};
use crate::lines::{DumpLine, dump_line_of, trimmed};
use std::alloc::Global;
use text::cut;

impl Dump {
    /// Ends the last device, of which there is one.
    fn close_last(&mut self) -> Result<(), DumpCause>
        ensures { IsStep (unless_empty (closed self.old)) result self.new }
    {
        match self.close() {
            Ok(()) => {
                if self.devices().is_empty() {
                    Err(DumpCause::Empty)
                } else {
                    Ok(())
                }
            }
            Err(cause) => Err(cause),
        }
    }

    fn pass_last(&mut self) -> Result<(), DumpCause>
        ensures { IsStep (unless_empty (closed (passing self.old))) result self.new }
    {
        self.pass();
        self.close_last()
    }

    fn end_by(&mut self, form: Option<DumpLine>) -> Result<(), DumpCause>
        ensures { IsStep (end_by self.old form) result self.new }
    {
        if self.is_foreign(&form) {
            self.pass_last()
        } else {
            Err(DumpCause::Line)
        }
    }

    /// Behind the last line feed stands nothing, or what is no part of a dump.
    #[tactic(auto, unfolding(crate::specs::Reading::end_of))]
    fn end(&mut self, rest: &[u8]) -> Result<(), DumpCause>
        ensures { IsStep (end_of self.old rest.now) result self.new }
    {
        if trimmed(rest).is_empty() {
            self.close_last()
        } else {
            self.end_by(dump_line_of(rest))
        }
    }

    /// Reads what `lspci -xxx` or `lspci -xxxx` printed, with or without `-v` and `-D`. What ends a line as blanks or a
    /// carriage return is passed over and counted, and so are lines without a form of a dump where no device's rows are
    /// read: before the first device, behind the last, and between two.
    ///
    /// # Errors
    ///
    /// The first faulty line, counted from 1 (the line after the last where the last device is cut off or
    /// there is none), and what is wrong there; or `NoMemory` and the line at which memory was refused.
    pub fn read(alloc: Global, text: &str) -> Result<Dump, DumpFault>
        ensures exact { IsReading (reading text.now) result }
    {
        let mut dump = Dump::empty(alloc);
        let mut line: u32 = 1;
        let mut rest = text.as_bytes();
        while let Some(parts) = cut(rest, b'\n') {
            if let Err(cause) = dump.take_line(line, parts.before) {
                return Err(DumpFault { cause, line });
            }
            line = line.saturating_add(1);
            rest = parts.after;
        }
        if let Err(cause) = dump.end(rest) {
            return Err(DumpFault { cause, line });
        }
        Ok(dump)
    }
}
