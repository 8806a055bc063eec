//! A layout that is made device by device.

ghost use Rattle.std.specs.Prelude.{◌≡◌, ◌≤◌, IfOk, None, Some, if◌then◌else◌};
ghost use Rattle.import.specs.Devices.{first_map, leaving_out, no_devices, version_of, with_device, with_line_of, with_map, with_more, with_statement, with_vector};
ghost use Rattle.text_writers.specs.StatedLines.{IsStated};
ghost use Rattle.import.specs.Told.{IsTold};

use crate::names::Names;
use crate::owners::Owner;
use crate::places::why_not;
use crate::reason::{LeftOut, Reason, Why};
use crate::role::is_endpoint;
use crate::statements::statement_of;
use crate::telling::{tell_device, tell_left_out};
use crate::tree::Tree;
use fab_types::NoMemory;
use layout_line::{EgressText, FunctionText, LayoutLine, MapText, RightsText, TargetText};
use lspci::{Device, Dump};
use platform::LayoutVersion;
use std::alloc::Global;
use std::marker::Model;
use text_writers::Draft;

/// What a layout is made of.
#[derive(Clone, Copy)]
pub struct Source<'a> {
    /// The devices.
    pub dump: &'a Dump,
    /// Which of them are the ports of the top switch.
    pub tree: Tree,
    /// Who owns which.
    pub owners: &'a [Owner],
}

/// A layout, and what it hasn't of the devices so far.
#[derive(Drop)]
pub struct Devices {
    /// The layout.
    pub draft: Draft,
    /// What it hasn't.
    pub left_out: Vec<LeftOut>,
}

impl Model for Devices {
    ghost use Rattle.import.specs.DeviceViews.{Imported, imported_of};

    ghost Value = { Imported };

    ghost view = { imported_of };
}

/// The page that a function gets at once: page 1 is a frame of its own, of the number of the functions so far.
fn first_map(function: &FunctionText, count: usize) -> LayoutLine
    requires { count ≤ 57 }
    ensures value { result ≡ first_map function.now count }
    ensures fits { IsStated result }
{
    // for the proof: an ID has 16 bits
    let _ = function.id.bits();
    LayoutLine::Map(MapText {
        requester: function.id,
        page: 1,
        target: TargetText::Frame(count as u32),
        rights: RightsText {
            read: true,
            write: true,
        },
    })
}

/// Vectors can be said from version 2 on.
fn version_of(vectors: &[EgressText]) -> LayoutVersion
    ensures { result ≡ version_of vectors.now }
{
    match vectors {
        [] => LayoutVersion::One,
        [_, ..] => LayoutVersion::Two,
    }
}

impl Devices {
    /// No device, in a layout with these vectors.
    pub fn start(alloc: Global, vectors: &[EgressText]) -> Result<Devices, NoMemory>
        ensures { IfOk result (λ devices. devices ≡ no_devices vectors.now) }
    {
        let draft = Draft::start(alloc, version_of(vectors))?;
        Ok(Devices {
            draft,
            left_out: Vec::new(alloc),
        })
    }

    fn leave_out(&mut self, dump: &Dump, device: &Device, why: Why) -> Result<(), NoMemory>
        ensures { IfOk result (λ _. self.new ≡ leaving_out dump.now self.old device.now why) }
    {
        self.left_out.push(LeftOut {
            line: device.line,
            location: device.location,
            is_endpoint: is_endpoint(&dump.space(device)),
            why,
        })?;
        Ok(())
    }

    fn leave_out_by_itself(
        &mut self,
        dump: &Dump,
        device: &Device,
        reason: Reason,
    ) -> Result<(), NoMemory>
        ensures { IfOk result (λ _. self.new ≡ leaving_out dump.now self.old device.now (record { port = None; reason = reason })) }
    {
        self.leave_out(dump, device, Why { port: None, reason })
    }

    /// Adds the mapping of a function.
    fn map(&mut self, alloc: Global, function: &FunctionText) -> Result<(), NoMemory>
        ensures { IfOk result (λ _. self.new ≡ with_map function.now self.old) }
    {
        let count = self.draft.layout().functions().len();
        let _ = self.draft.add(alloc, &first_map(function, count))?;
        Ok(())
    }

    /// Adds what goes with a line.
    fn add_more(&mut self, alloc: Global, line: &LayoutLine) -> Result<(), NoMemory>
        ensures { IfOk result (λ _. self.new ≡ with_more line.now self.old) }
    {
        match line {
            LayoutLine::Function(function) => self.map(alloc, function),
            _ => Ok(()),
        }
    }

    #[tactic(auto, unfolding(crate::specs::Devices::with_statement))]
    fn state(
        &mut self,
        alloc: Global,
        dump: &Dump,
        vectors: &[EgressText],
        names: &mut Names<'_>,
        device: &Device,
        line: &LayoutLine,
    ) -> Result<(), NoMemory>
        requires { IsStated line.now }
        ensures made { IfOk result (λ _. self.new ≡ with_statement names.old dump.now vectors.now device.now line.now self.old) }
        ensures names { names.new ≡ names.old }
    {
        match self.draft.add(alloc, line)? {
            Some(cause) => self.leave_out_by_itself(dump, device, Reason::Rule(cause)),
            None => {
                let name = names.name_of(alloc, device.line, &device.location)?;
                let space = dump.space(device);
                tell_device(alloc, &mut self.draft, &space, vectors, line, &name)?;
                self.add_more(alloc, line)
            }
        }
    }

    /// Adds a device by its own line, or leaves it out.
    fn take_line(
        &mut self,
        alloc: Global,
        source: &Source<'_>,
        vectors: &[EgressText],
        names: &mut Names<'_>,
        device: &Device,
    ) -> Result<(), NoMemory>
        ensures made { IfOk result (λ _. self.new ≡ with_line_of names.old source.now.dump.now source.now.tree source.now.owners.now vectors.now self.old device.now) }
        ensures names { names.new ≡ names.old }
    {
        let ports = self.draft.layout().ports();
        match statement_of(source, vectors, ports, device) {
            Ok(line) => self.state(alloc, source.dump, vectors, names, device, &line),
            Err(reason) => self.leave_out_by_itself(source.dump, device, reason),
        }
    }

    /// Adds a device, or leaves it out.
    #[tactic(auto, unfolding(crate::specs::Devices::with_device))]
    pub fn take(
        &mut self,
        alloc: Global,
        source: &Source<'_>,
        vectors: &[EgressText],
        names: &mut Names<'_>,
        device: &Device,
    ) -> Result<(), NoMemory>
        ensures made { IfOk result (λ _. self.new ≡ with_device names.old source.now.dump.now source.now.tree source.now.owners.now vectors.now self.old device.now) }
        ensures names { names.new ≡ names.old }
    {
        match why_not(source.dump, &source.tree, &self.left_out, device) {
            Some(why) => self.leave_out(source.dump, device, why),
            None => self.take_line(alloc, source, vectors, names, device),
        }
    }

    /// Adds a vector. It answers whether no rule of layouts is against it.
    pub fn take_vector(&mut self, alloc: Global, vector: &EgressText) -> Result<bool, NoMemory>
        ensures { IfOk result (λ taken. with_vector vector.now self.old ≡ (if taken then Some self.new else None)) }
    {
        // for the proof: an ID has 16 bits, a vector 32
        let (port, vector) = (vector.port, vector.vector);
        let _ = port.bits();
        let line = LayoutLine::Egress(EgressText { port, vector });
        match self.draft.add(alloc, &line)? {
            Some(_) => Ok(false),
            None => Ok(true),
        }
    }

    /// Tells in comments what the layout hasn't.
    pub fn tell_left_out(&mut self, alloc: Global, names: &mut Names<'_>) -> Result<(), NoMemory>
        ensures { IfOk result (λ _. IsTold names.old self.old self.new) }
    {
        tell_left_out(alloc, &mut self.draft, &self.left_out, names)
    }
}
