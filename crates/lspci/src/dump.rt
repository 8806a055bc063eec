//! A dump, line by line.

ghost use Rattle.std.specs.Prelude.{◌≡◌, ◌≤◌, ◌==◌, ◌&&◌, None, take, drop};
ghost use Rattle.std.specs.List.{list_any};
ghost use Rattle.lspci.specs.Reading.{IsStep, closed, empty, is_foreign, is_whole, noting, opened, passing, unless_foreign, with_device, with_form, with_line, with_row};

use crate::fault::DumpCause;
use crate::lines::{DumpLine, Location, Row, dump_line_of, is_ragged};
use crate::space::ConfigSpace;
use std::alloc::Global;
use std::marker::Model;

/// A device of a dump.
#[derive(Clone, Copy, Debug, PartialEq, Eq)]
pub struct Device {
    /// The number of its line, counted from 1.
    pub line: u32,
    /// Where it is.
    pub location: Location,
    /// The number of its first byte, among those of all devices of the dump.
    pub first: usize,
    /// How many bytes of its configuration space are shown: 64, 128, 256 or 4,096.
    pub count: usize,
}

/// What was passed over in a text, counted up to 4,294,967,295.
#[derive(Clone, Copy, Debug, PartialEq, Eq)]
pub struct Passed {
    /// Lines that are no part of a dump: they have no form that a dump has, and stand where no device's rows are read.
    pub lines: u32,
    /// Lines at whose end blanks, tabs or carriage returns were passed over.
    pub ends: u32,
}

/// The devices of a machine with their configuration spaces, as a dump shows them.
#[derive(Drop)]
pub struct Dump {
    devices: Vec<Device>,
    bytes: Vec<u8>,
    current: Option<Device>,
    passed: Passed,
}

impl Model for Dump {
    ghost use Rattle.lspci.specs.Dumps.{DumpText, text_of};

    ghost Value = { DumpText };

    ghost view = { text_of };
}

/// Is this the size of a whole configuration space, or of the part that is shown?
fn is_whole(count: usize) -> bool
    ensures { result ≡ is_whole count }
{
    count == 64 || count == 128 || count == 256 || count == 4096
}

impl Dump {
    /// The dump of no lines.
    pub(crate) fn empty(alloc: Global) -> Dump
        ensures { result ≡ empty }
    {
        Dump {
            devices: Vec::new(alloc),
            bytes: Vec::new(alloc),
            current: None,
            passed: Passed { lines: 0, ends: 0 },
        }
    }

    /// Ends the device whose rows are read, if there is one.
    #[tactic(auto, unfolding(crate::specs::Reading::closed))]
    pub(crate) fn close(&mut self) -> Result<(), DumpCause>
        ensures { IsStep (closed self.old) result self.new }
    {
        let Some(device) = self.current else {
            return Ok(());
        };
        if !is_whole(device.count) {
            return Err(DumpCause::Cut);
        }
        match self.devices.push(device) {
            Ok(()) => {
                self.current = None;
                Ok(())
            }
            Err(_) => Err(DumpCause::NoMemory),
        }
    }

    fn has(&self, location: &Location) -> bool
        ensures { result ≡ list_any (λ device. (device.location.segment == location.now.segment) && (device.location.id == location.now.id)) (self.now).devices }
    {
        self.devices.iter().any(|device| {
            device.location.segment == location.segment && device.location.id == location.id
        })
    }

    #[tactic(auto, unfolding(crate::specs::Reading::opened))]
    fn open(&mut self, line: u32, location: &Location) -> Result<(), DumpCause>
        ensures { IsStep (opened line location.now self.old) result self.new }
    {
        if self.has(location) {
            return Err(DumpCause::Twice);
        }
        let first = self.bytes.len();
        self.current = Some(Device {
            line,
            location: *location,
            first,
            count: 0,
        });
        Ok(())
    }

    fn take_device(&mut self, line: u32, location: &Location) -> Result<(), DumpCause>
        ensures { IsStep (with_device self.old line location.now) result self.new }
    {
        match self.close() {
            Ok(()) => self.open(line, location),
            Err(cause) => Err(cause),
        }
    }

    #[tactic(auto, unfolding(crate::specs::Reading::with_row))]
    fn take_row(&mut self, row: &Row) -> Result<(), DumpCause>
        ensures { IsStep (with_row self.old row.now) result self.new }
    {
        let Some(device) = self.current else {
            return Err(DumpCause::Row);
        };
        if usize::from(row.offset) != device.count {
            return Err(DumpCause::Row);
        }
        match self.bytes.extend_from_slice(&row.bytes) {
            Ok(()) => {
                let count = usize::from(row.offset) + 16;
                self.current = Some(Device {
                    line: device.line,
                    location: device.location,
                    first: device.first,
                    count,
                });
                Ok(())
            }
            Err(_) => Err(DumpCause::NoMemory),
        }
    }

    /// Counts a line that is no part of a dump.
    pub(crate) fn pass(&mut self)
        ensures { self.new ≡ passing self.old }
    {
        self.passed.lines = self.passed.lines.saturating_add(1);
    }

    /// Counts the line if something at its end is passed over.
    fn note(&mut self, line: &[u8])
        ensures { self.new ≡ noting line.now self.old }
    {
        if is_ragged(line) {
            self.passed.ends = self.passed.ends.saturating_add(1);
        }
    }

    /// Is a line of this form no part of a dump?
    pub(crate) fn is_foreign(&self, form: &Option<DumpLine>) -> bool
        ensures { result ≡ is_foreign form.now (self.now).current }
    {
        match (form, self.current) {
            (None | Some(DumpLine::Detail), None) => true,
            _ => false,
        }
    }

    fn take_form(&mut self, number: u32, form: Option<DumpLine>) -> Result<(), DumpCause>
        ensures { IsStep (with_form self.old number form) result self.new }
    {
        match form {
            Some(DumpLine::Device(location)) => self.take_device(number, &location),
            Some(DumpLine::Row(row)) => self.take_row(&row),
            Some(DumpLine::Detail) => Ok(()),
            Some(DumpLine::Blank) => self.close(),
            None => Err(DumpCause::Line),
        }
    }

    /// The same, unless the line is no part of a dump.
    fn take_or_pass(&mut self, number: u32, form: Option<DumpLine>) -> Result<(), DumpCause>
        ensures { IsStep (unless_foreign self.old number form) result self.new }
    {
        if self.is_foreign(&form) {
            self.pass();
            return Ok(());
        }
        self.take_form(number, form)
    }

    /// Reads one line.
    #[tactic(auto, unfolding(crate::specs::Reading::with_line))]
    pub(crate) fn take_line(&mut self, number: u32, line: &[u8]) -> Result<(), DumpCause>
        ensures { IsStep (with_line self.old number line.now) result self.new }
    {
        self.note(line);
        self.take_or_pass(number, dump_line_of(line))
    }

    /// What was passed over in the text.
    pub fn passed(&self) -> Passed
        ensures { result ≡ (self.now).passed }
    {
        self.passed
    }

    /// All devices, in the order of their lines.
    pub fn devices(&self) -> &[Device]
        ensures { result.now ≡ (self.now).devices }
    {
        &self.devices
    }

    /// The configuration space of a device of this dump, as far as it is shown.
    pub fn space(&self, device: &Device) -> ConfigSpace<'_>
        ensures { result.bytes.now ≡ take device.now.count (drop device.now.first (self.now).bytes) }
    {
        let rest = self.bytes.get(device.first..).unwrap_or(&[]);
        let bytes = rest.get(..device.count).unwrap_or(rest);
        ConfigSpace { bytes }
    }
}
