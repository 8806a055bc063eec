//! Why the program stops before its work is done, and its exit status.

ghost use Rattle.std.specs.Prelude.{◌≡◌, ◌≢◌};
ghost use Rattle.inputs.specs.Endings.{exit_code, status_of};

use command_line::WordsFault;
use fab_types::{
    LayoutCause, LayoutFault, NoMemory, ScriptCause, ScriptFault, StartFault, StopFault,
};
use import::ImportFault;
use journal_text::LineFault;
use lspci::DumpFault;
use std::alloc::AllocError;
use std::io;
use std::io::ErrorKind;
use thiserror::Error;

/// How the program ended.
#[derive(Clone, Copy, Debug, PartialEq, Eq)]
pub enum ExitStatus {
    /// All is done: exit status 0.
    Done,
    /// It stopped before all was done: exit status 1.
    Stopped,
    /// Memory was refused: exit status 2.
    NoMemory,
    /// All is done, and a domain was seen to harm another: exit status 3.
    Harmed,
    /// The layout isn't guarded, but no harm was seen: exit status 4.
    Unguarded,
    /// All is done, of a part of the machine alone: an endpoint of it has no place in the layout. Exit status 5.
    Partial,
    /// The layout has nothing to keep apart: fewer than two domains own a function. Exit status 6.
    NothingToKeep,
}

impl ExitStatus {
    /// The number that the host sees.
    pub fn code(self) -> u8
        ensures { result ≡ exit_code self }
    {
        match self {
            ExitStatus::Done => 0,
            ExitStatus::Stopped => 1,
            ExitStatus::NoMemory => 2,
            ExitStatus::Harmed => 3,
            ExitStatus::Unguarded => 4,
            ExitStatus::Partial => 5,
            ExitStatus::NothingToKeep => 6,
        }
    }
}

/// Why the program stopped. It prints as the one line that standard error then has.
#[derive(Clone, Copy, Debug, PartialEq, Eq, Error)]
pub enum Fault<'a> {
    /// The words are no command.
    #[error("usage")]
    Usage,
    /// The file of this name cannot be read, or is no UTF-8 text.
    #[error("file {name}: unreadable")]
    Unreadable { name: &'a str },
    /// A line of a layout is faulty.
    #[error("layout {line}: {code} {name}", line = .0.line(), code = .0.number(), name = .0.name())]
    Layout(LayoutFault),
    /// A line of a script is not understood. The word of `first` counts as line 1.
    #[error("script {line}: Line")]
    ScriptLine { line: u32 },
    /// A line of a journal is not understood.
    #[error("journal {line}: Line")]
    JournalLine { line: u32 },
    /// The entry in a line of a journal is illegal after those before it.
    #[error("journal {line}: Illegal")]
    IllegalEntry { line: u32 },
    /// A line of a dump is faulty.
    #[error("dump {line}: {cause}", line = .0.line, cause = .0.cause)]
    Dump(DumpFault),
    /// A line of a list of owners is not understood.
    #[error("owners {line}: Line")]
    OwnersLine { line: u32 },
    /// There is no layout of a dump.
    #[error("import: {0}")]
    Import(ImportFault),
    /// No domain of this number owns a port.
    #[error("domain {number}: none")]
    NoDomain { number: u32 },
    /// The workers could not be started in threads, or one took no begin any more.
    #[error("threads: failed")]
    ThreadsFailed,
    /// Memory was refused.
    #[error("out of memory")]
    NoMemory,
    /// A script cannot be written in the folder of this name.
    #[error("folder {name}: unwritable")]
    Folder { name: &'a str },
    /// Standard output takes no more.
    #[error("output: unwritable")]
    Unwritable,
}

impl Fault<'_> {
    /// The fault of a script's line.
    pub fn at_line(line: u32, cause: ScriptCause) -> Self
        ensures line { cause ≡ ScriptCause.Line → result ≡ Fault.ScriptLine line }
        ensures memory { cause ≡ ScriptCause.NoMemory → result ≡ Fault.NoMemory }
    {
        match cause {
            ScriptCause::Line => Fault::ScriptLine { line },
            ScriptCause::NoMemory => Fault::NoMemory,
        }
    }

    /// The fault of a journal's text.
    pub fn of_journal(fault: ScriptFault) -> Self
        ensures line { fault.cause ≡ ScriptCause.Line → result ≡ Fault.JournalLine fault.line }
        ensures memory { fault.cause ≡ ScriptCause.NoMemory → result ≡ Fault.NoMemory }
    {
        match fault.cause {
            ScriptCause::Line => Fault::JournalLine { line: fault.line },
            ScriptCause::NoMemory => Fault::NoMemory,
        }
    }

    /// The fault of a layout.
    pub fn of_layout(fault: LayoutFault) -> Self
        ensures line { fault.cause ≢ LayoutCause.NoMemory → result ≡ Fault.Layout fault }
        ensures memory { fault.cause ≡ LayoutCause.NoMemory → result ≡ Fault.NoMemory }
    {
        match fault.cause {
            LayoutCause::NoMemory => Fault::NoMemory,
            _ => Fault::Layout(fault),
        }
    }

    /// The exit status that goes with the line.
    pub fn status(&self) -> ExitStatus
        ensures { result ≡ status_of self.now }
    {
        match self {
            Fault::NoMemory => ExitStatus::NoMemory,
            _ => ExitStatus::Stopped,
        }
    }
}

impl From<AllocError> for Fault<'_> {
    ghost use Rattle.inputs.specs.declared.fault.Fault.TheVariants as fault;

    ghost from_gives = { λ _ f. f ≡ fault.NoMemory };

    fn from(_error: AllocError) -> Self {
        Fault::NoMemory
    }
}

impl From<NoMemory> for Fault<'_> {
    ghost use Rattle.inputs.specs.declared.fault.Fault.TheVariants as fault;

    ghost from_gives = { λ _ f. f ≡ fault.NoMemory };

    fn from(_error: NoMemory) -> Self {
        Fault::NoMemory
    }
}

impl From<WordsFault> for Fault<'_> {
    ghost use Rattle.inputs.specs.Endings.{fault_of_words};

    ghost from_gives = { λ words f. f ≡ fault_of_words words };

    fn from(fault: WordsFault) -> Self {
        match fault {
            WordsFault::Usage => Fault::Usage,
            WordsFault::NoMemory => Fault::NoMemory,
        }
    }
}

impl From<ImportFault> for Fault<'_> {
    ghost use Rattle.inputs.specs.Endings.{fault_of_import};

    ghost from_gives = { λ refused f. f ≡ fault_of_import refused };

    /// There is no layout of a dump.
    fn from(fault: ImportFault) -> Self {
        match fault {
            ImportFault::NoMemory => Fault::NoMemory,
            _ => Fault::Import(fault),
        }
    }
}

impl From<LineFault> for Fault<'_> {
    ghost use Rattle.inputs.specs.Endings.{fault_of_line};

    ghost from_gives = { λ line f. f ≡ fault_of_line line };

    fn from(fault: LineFault) -> Self {
        match fault {
            LineFault::Illegal(line) => Fault::IllegalEntry { line },
            LineFault::NoMemory => Fault::NoMemory,
        }
    }
}

impl From<StartFault> for Fault<'_> {
    ghost use Rattle.inputs.specs.Endings.{fault_of_start};

    ghost from_gives = { λ start f. f ≡ fault_of_start start };

    fn from(fault: StartFault) -> Self {
        match fault {
            StartFault::NoMemory => Fault::NoMemory,
            StartFault::NoThread => Fault::ThreadsFailed,
        }
    }
}

impl From<StopFault> for Fault<'_> {
    ghost use Rattle.inputs.specs.Endings.{fault_of_stop};

    ghost from_gives = { λ stop f. f ≡ fault_of_stop stop };

    fn from(fault: StopFault) -> Self {
        match fault {
            StopFault::NoMemory => Fault::NoMemory,
            StopFault::Unbalanced => Fault::ThreadsFailed,
        }
    }
}

impl From<io::Error> for Fault<'_> {
    ghost use Rattle.inputs.specs.Endings.{IsWriterFault};

    ghost from_gives = { IsWriterFault };

    /// A writer failed.
    fn from(error: io::Error) -> Self {
        match error.kind() {
            ErrorKind::OutOfMemory => Fault::NoMemory,
            _ => Fault::Unwritable,
        }
    }
}
