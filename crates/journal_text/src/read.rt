//! Reading the text of a domain's journal.

ghost use Rattle.std.specs.Prelude.{◌≡◌};
ghost use Rattle.text.specs.Reading.{IsReading};
ghost use Rattle.journal_text.specs.Reading.{reading, said};

use crate::fields::entry_of;
use crate::flight::is_in_flight;
use domain::Entry;
use fab_types::{DomainId, ScriptCause, ScriptFault};
use std::alloc::Global;
use std::marker::Model;
use text::{LineReader, read_lines};

/// The greatest number of a line.
const LAST_LINE: u32 = 16_777_216;

/// A line of a journal's text that is an entry.
#[derive(Debug, Drop)]
pub struct JournalLine {
    /// The number of the line, counted from 1, comments too.
    pub number: u32,
    /// The entry that the line spells.
    pub entry: Entry,
}

/// Knows what a line says in the journal of this domain.
#[derive(Drop)]
struct EntryReader {
    domain: DomainId,
}

impl LineReader for EntryReader {
    type Item = JournalLine;

    ghost said = { λ r. said r.domain };

    fn item(
        &self,
        alloc: Global,
        number: u32,
        line: &[u8],
    ) -> Result<Option<JournalLine>, ScriptCause> {
        if is_in_flight(line) {
            return Ok(None);
        }
        let entry = entry_of(alloc, self.domain, line)?;
        Ok(Some(JournalLine { number, entry }))
    }
}

/// The text of a journal that was read. A contract sees its entries, with the numbers of their lines.
#[derive(Debug, Drop)]
pub struct JournalText {
    lines: Vec<JournalLine>,
}

impl Model for JournalText {
    ghost use Rattle.std.specs.Prelude.{List};
    ghost use Rattle.journal_text.specs.declared.read.JournalLine.{JournalLine};

    ghost Value = { List JournalLine };

    ghost view = { λ t. t.lines.items };
}

impl JournalText {
    /// Reads the text of the journal of this domain.
    ///
    /// # Errors
    ///
    /// `Line` and the first faulty line, counted from 1; or `NoMemory` and the line at which memory was
    /// refused, which is not faulty, and before which no line is.
    #[tactic(auto, unfolding(crate::specs::Reading::reading))]
    pub fn read(alloc: Global, domain: DomainId, text: &str) -> Result<JournalText, ScriptFault>
        ensures { IsReading (reading domain text.now) result }
    {
        let lines = read_lines(alloc, text, LAST_LINE, &EntryReader { domain })?;
        Ok(JournalText { lines })
    }

    /// The entries, in their order.
    pub fn lines(&self) -> &[JournalLine]
        ensures { result.now ≡ self.now }
    {
        &self.lines
    }
}
