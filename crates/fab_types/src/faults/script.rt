//! Why a script text was refused.

ghost use Rattle.std.specs.Prelude.{◌≡◌};
ghost use Rattle.fab_types.specs.Faults.{script_cause_number, script_cause_name};

use thiserror::Error;

/// What stopped the reading of a script text.
#[derive(Clone, Copy, Debug, PartialEq, Eq, Error)]
pub enum ScriptCause {
    /// The line has no known form.
    #[error("the line is not understood")]
    Line,
    /// Memory was refused.
    #[error("out of memory")]
    NoMemory,
}

impl ScriptCause {
    /// The number of the refusal.
    pub fn number(&self) -> u8
        ensures { result ≡ script_cause_number self.now }
    {
        match self {
            ScriptCause::Line => 1,
            ScriptCause::NoMemory => 2,
        }
    }

    /// The name of the refusal.
    pub fn name(&self) -> &'static str
        ensures { result.now ≡ script_cause_name self.now }
    {
        match self {
            ScriptCause::Line => "Line",
            ScriptCause::NoMemory => "NoMemory",
        }
    }
}

/// Why a script text was refused, and at which line.
#[derive(Clone, Copy, Debug, PartialEq, Eq, Error)]
#[error("line {line}: {cause}")]
pub struct ScriptFault {
    /// What is wrong with the line.
    pub cause: ScriptCause,
    /// The number of the line, counted from 1.
    pub line: u32,
}

impl ScriptFault {
    /// The number of the cause.
    pub fn number(&self) -> u8
        ensures { result ≡ script_cause_number self.now.cause }
    {
        self.cause.number()
    }

    /// The name of the cause.
    pub fn name(&self) -> &'static str
        ensures { result.now ≡ script_cause_name self.now.cause }
    {
        self.cause.name()
    }

    /// The first faulty line, counted from 1.
    pub fn line(&self) -> u32
        ensures { result ≡ self.now.line }
    {
        self.line
    }
}
