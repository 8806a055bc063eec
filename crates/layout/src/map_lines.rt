//! The `map` lines of a layout, found by the bus of their requester and by their frame.

ghost use Rattle.std.specs.Prelude.{◌≡◌, ◌<◌, ℕ, [], ◌∷◌, ◌++◌, filter, IfOk, length, OnErr, OnOk, None, slice_index_or, if◌then◌else◌};
ghost use Rattle.std.specs.Result.{is_ok};
ghost use Rattle.layout.specs.MapLines.{first_of_frame, HasPlace, is_from_bus, noted};

use fab_types::{Bdf, NoMemory};
use platform::{MapTarget, Mapping};
use std::alloc::Global;
use std::marker::Model;

/// How many bus numbers there are.
const BUSES: usize = 256;

/// The `map` lines in their order. A contract sees those.
#[derive(Drop)]
pub(crate) struct MapLines {
    lines: Vec<Mapping>,
    // by bus number: the lines whose requester is on that bus
    buses: Vec<Vec<Mapping>>,
    // by frame number: the requester of the first line that maps the frame
    frames: Vec<Option<Bdf>>,
}

impl Model for MapLines {
    ghost use Rattle.std.specs.Prelude.{List};
    ghost use Rattle.platform.specs.declared.parts.Mapping.{Mapping};

    ghost Value = { List Mapping };

    ghost use Rattle.layout.specs.MapLines.{AreIndexed};

    ghost view = { λ m. m.lines.items };

    ghost invariant = { AreIndexed };
}

/// Makes a place for this frame, where there is none yet.
fn make_place(frames: &mut Vec<Option<Bdf>>, target: MapTarget) -> Result<(), NoMemory>
    ensures same { (frame : ℕ) → slice_index_or frames.new.items frame None ≡ slice_index_or frames.old.items frame None }
    ensures place { OnOk result (HasPlace frames.new.items target) }
{
    if let MapTarget::Frame(frame) = target {
        let frame = usize::from(frame);
        if frames.len() <= frame {
            frames.resize(frame + 1, None)?;
        }
    }
    Ok(())
}

/// Notes the requester of the line, if it is the first that maps its frame.
fn note_frame(frames: &mut Vec<Option<Bdf>>, line: &Mapping)
    requires { HasPlace frames.old.items line.now.target }
    ensures { (frame : ℕ) → slice_index_or frames.new.items frame None ≡ noted (slice_index_or frames.old.items frame None) frame line.now }
{
    if let MapTarget::Frame(frame) = line.target {
        let frame = usize::from(frame);
        if frames[frame].is_none() {
            frames[frame] = Some(line.requester);
        }
    }
}

impl MapLines {
    /// No line. It answers `NoMemory` where memory was refused.
    pub(crate) fn new(alloc: Global) -> Result<MapLines, NoMemory>
        ensures { IfOk result (λ made. made ≡ []) }
    {
        let mut buses = Vec::with_capacity(alloc, BUSES)?;
        for _ in 0..BUSES {
            buses.push_reserved(Vec::new(alloc));
        }
        Ok(MapLines {
            lines: Vec::new(alloc),
            buses,
            frames: Vec::new(alloc),
        })
    }

    pub(crate) fn as_slice(&self) -> &[Mapping]
        ensures { result.now ≡ self.now }
    {
        &self.lines
    }

    /// Those whose requester is on this bus.
    pub(crate) fn on_bus(&self, bus: u8) -> &[Mapping]
        ensures { result.now ≡ filter (is_from_bus bus) self.now }
    {
        &self.buses[usize::from(bus)]
    }

    /// The requester of the first line that maps this frame.
    pub(crate) fn first_of_frame(&self, frame: u32) -> Option<Bdf>
        ensures { result ≡ first_of_frame self.now frame }
    {
        match self.frames.get(frame as usize) {
            Some(requester) => *requester,
            None => None,
        }
    }

    /// One line more. Where memory was refused nothing changes.
    pub(crate) fn push(&mut self, line: Mapping) -> Result<(), NoMemory>
        ensures { self.new ≡ (if is_ok result then self.old ++ line ∷ [] else self.old) }
    {
        make_place(&mut self.frames, line.target)?;
        self.lines.reserve(1)?;
        self.buses[usize::from(line.requester.bus())].push(line)?;
        self.lines.push_reserved(line);
        note_frame(&mut self.frames, &line);
        Ok(())
    }
}
