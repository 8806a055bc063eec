//! What the program takes from its host: its words, standard output, and files.

use inputs::{Fault, FileFault, FileGiver, FileTaker, WriteFault};
use std::io::{BufWriter, ErrorKind, Printer};
use std::rt::{Env, Files};
use std::{env, fs, io};

/// The words of the command line, and a buffer before standard output.
/// The program's name is not among the words.
pub fn words_and_output<R: Env + Print + AllocGlobal>(
    rt: &R,
) -> Result<(Vec<String>, BufWriter<Printer<'_, R>>), Fault> {
    let words = match env::args(rt) {
        Ok(words) => words.skip(1).collect(rt.alloc())?,
        Err(error) if error.kind() == ErrorKind::OutOfMemory => return Err(Fault::NoMemory),
        // A word that is no text.
        Err(_) => return Err(Fault::Usage),
    };
    let out = BufWriter::new(rt.alloc(), io::writer(rt))?;
    Ok((words, out))
}

/// The files of the host.
#[derive(Drop)]
pub struct HostFiles<'a, R> {
    rt: &'a R,
}

impl<'a, R: Files + AllocGlobal> HostFiles<'a, R> {
    /// The files of this host.
    pub fn new(rt: &'a R) -> HostFiles<'a, R> {
        HostFiles { rt }
    }
}

impl<R: Files + AllocGlobal> FileGiver for HostFiles<'_, R> {
    ghost use Rattle.std.specs.Prelude.{⊤};

    // Of what the host gives nothing is known.
    ghost holds = { λ files name bytes. ⊤ };

    ghost withholds = { λ files name. ⊤ };

    fn bytes_of(&self, name: &str) -> Result<Vec<u8>, FileFault> {
        match fs::read(self.rt, name) {
            Ok(bytes) => Ok(bytes),
            Err(error) if error.kind() == ErrorKind::OutOfMemory => Err(FileFault::NoMemory),
            Err(_) => Err(FileFault::Unreadable),
        }
    }
}

impl<R: Files + AllocGlobal> FileTaker for HostFiles<'_, R> {
    ghost use Rattle.std.specs.Prelude.{None};

    // What the host then has is not known.
    ghost written = { λ files. None };

    fn write_file(&mut self, name: &str, bytes: &[u8]) -> Result<(), WriteFault> {
        match fs::write(self.rt, name, bytes) {
            Ok(()) => Ok(()),
            Err(error) if error.kind() == ErrorKind::OutOfMemory => Err(WriteFault::NoMemory),
            Err(_) => Err(WriteFault::Unwritable),
        }
    }
}
