//! Laws of the text of a journal.

ghost use Rattle.std.specs.Prelude.{◌≡◌, ℕ, ◌+◌, ◌*◌, ◌≤◌, List, length, Some};
ghost use Rattle.std.specs.List.{All};
ghost use Rattle.platform.specs.Share.{Share};
ghost use Rattle.domain_state.specs.State.{Alone};
ghost use Rattle.domain.specs.Machine.{replay};
ghost use Rattle.domain.specs.declared.entry.Entry.{Entry};
ghost use Rattle.journal_text.specs.Fields.{entry_of};
ghost use Rattle.journal_text.specs.Journals.{IsReadBack};
ghost use Rattle.journal_text.specs.Legible.{IsDomain, IsLegible};
ghost use Rattle.journal_text.specs.Words.{entry_text};

/// A law: each entry is read back from its text.
pub fn entries_are_read_back()
    ensures { (domain : ℕ) (entry : Entry) → IsDomain domain → IsLegible entry → entry_of domain (entry_text domain entry) ≡ Some entry }
{}

/// A law: the text of a journal is read as that journal.
/// The journal is one that can be replayed, and that has few enough entries.
pub fn journals_are_read_back()
    ensures { (share : Share) (journal : List Entry) (s : Alone) → IsDomain share.domain → All IsLegible journal → 2 * length journal + 1 ≤ 16777216 → replay share journal ≡ Some s → IsReadBack share journal }
{}
