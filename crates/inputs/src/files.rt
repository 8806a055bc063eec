//! Where the bytes of files come from, and where they go.

ghost use Rattle.std.specs.Prelude.{◌≡◌, ℕ, [], ◌∷◌, List, IfErr, IfOk, OnOk, Option};
ghost use Rattle.inputs.specs.Files.{Adds, File};

/// Why a file's bytes did not come.
#[derive(Clone, Copy, Debug, PartialEq, Eq)]
pub enum FileFault {
    /// The file cannot be read.
    Unreadable,
    /// Memory was refused.
    NoMemory,
}

/// Gives the bytes of files by their names.
pub trait FileGiver {
    /// May the file of this name have these bytes?
    ghost holds: { Self → List ℕ → List ℕ → Type 0 };

    /// May the file of this name be one that cannot be read?
    ghost withholds: { Self → List ℕ → Type 0 };

    /// The bytes of the file of this name.
    ///
    /// # Errors
    /// `Unreadable` where the file cannot be read, and `NoMemory` where memory was refused.
    fn bytes_of(&self, name: &str) -> Result<Vec<u8>, FileFault>
        ensures bytes { IfOk result (λ bytes. holds self.now name.now bytes.items) }
        ensures fault { IfErr result (λ fault. fault ≡ FileFault.Unreadable → withholds self.now name.now) };
}

/// Why a file was not written.
#[derive(Clone, Copy, Debug, PartialEq, Eq)]
pub enum WriteFault {
    /// The file cannot be written.
    Unwritable,
    /// Memory was refused.
    NoMemory,
}

/// Takes the bytes of files by their names.
pub trait FileTaker {
    /// The files that were written, oldest first, or none where that isn't known.
    ghost written: { Self → Option (List File) };

    /// Writes the file of this name, in place of one that is there.
    ///
    /// # Errors
    /// `Unwritable` where the file cannot be written, and `NoMemory` where memory was refused.
    fn write_file(&mut self, name: &str, bytes: &[u8]) -> Result<(), WriteFault>
        ensures { OnOk result (Adds (written self.old) (written self.new) (record { name = name.now; bytes = bytes.now } ∷ [])) };
}
