//! Reading a script text.

ghost use Rattle.std.specs.Prelude.{◌≡◌};
ghost use Rattle.text.specs.Reading.{IsReading};
ghost use Rattle.script.specs.Reading.{reading, said};

use crate::commands::command_of;
use crate::lines::Line;
use fab_types::{ScriptCause, ScriptFault};
use std::alloc::Global;
use std::marker::Model;
use text::{LineReader, read_lines};

/// The greatest number of a line.
const LAST_LINE: u32 = 65_536;

/// Knows what a line of a script says.
#[derive(Drop)]
struct CommandReader;

impl LineReader for CommandReader {
    type Item = Line;

    ghost said = { λ _. said };

    fn item(&self, alloc: Global, number: u32, line: &[u8]) -> Result<Option<Line>, ScriptCause> {
        let command = command_of(alloc, line)?;
        Ok(Some(Line { number, command }))
    }
}

/// A script that was read. A contract sees its lines.
#[derive(Debug, Drop)]
pub struct Script {
    lines: Vec<Line>,
}

impl Model for Script {
    ghost use Rattle.std.specs.Prelude.{List};
    ghost use Rattle.script.specs.declared.lines.Line.{Line};

    ghost Value = { List Line };

    ghost view = { λ s. s.lines.items };
}

impl Script {
    /// Reads a script text.
    ///
    /// # Errors
    ///
    /// `Line` and the first faulty line, counted from 1; or `NoMemory` and the line at which memory
    /// was refused, which is not faulty, and before which no line is.
    #[tactic(auto, unfolding(crate::specs::Reading::reading))]
    pub fn read(alloc: Global, text: &str) -> Result<Script, ScriptFault>
        ensures { IsReading (reading text.now) result }
    {
        let lines = read_lines(alloc, text, LAST_LINE, &CommandReader)?;
        Ok(Script { lines })
    }

    /// The lines that are no comments, in their order.
    pub fn lines(&self) -> &[Line]
        ensures { result.now ≡ self.now }
    {
        &self.lines
    }

    /// The same lines, taken out of the script.
    /// This is for whoever has no more use of the script than to do what it asks for.
    pub fn into_lines(self) -> Vec<Line>
        ensures { result.items ≡ self }
    {
        self.lines
    }
}
