//! Who knows what a line says.

ghost use Rattle.std.specs.Prelude.{ℕ, List, Option};
ghost use Rattle.text.specs.Answers.{IsItem};

use fab_types::ScriptCause;
use std::alloc::Global;

/// Knows what the lines of a text say that are no comments.
pub trait LineReader {
    /// What a line says: one of these, or none.
    type Item: Drop;

    /// What a line of this number says, if it says something.
    ghost said: { Self → ℕ → List ℕ → Option (List Self.Item) };

    /// What one line says.
    ///
    /// # Errors
    ///
    /// `Line` where the line says nothing, and `NoMemory` where memory was refused.
    fn item(
        &self,
        alloc: Global,
        number: u32,
        line: &[u8],
    ) -> Result<Option<Self::Item>, ScriptCause>
        ensures { IsItem (said self.now number line.now) result };
}
