//! Laws of written lines. Each is the contract of a function that does nothing.

ghost use Rattle.std.specs.Prelude.{◌≡◌, ◌++◌, ◌∷◌, List, ℕ, Some};
ghost use Rattle.text.specs.Text.{at_blank};
ghost use Rattle.text.specs.Words.{IsWord};
ghost use Rattle.layout_line.specs.LayoutLines.{layout_line_of};
ghost use Rattle.layout_line.specs.declared.lines.LayoutLine.{LayoutLine};
ghost use Rattle.text_writers.specs.LayoutLineTexts.{layout_line_text};
ghost use Rattle.text_writers.specs.LineRanges.{IsInRange};
ghost use Rattle.text_writers.specs.Words.{more_words};

/// A law: a text that begins with a word is cut behind that word.
pub fn words_are_read_back()
    ensures { (word next : List ℕ) (more : List (List ℕ)) → IsWord word → at_blank (word ++ more_words (next ∷ more)) ≡ Some (word, next ++ more_words more) }
{}

/// A law: each line of a layout is read back from its text.
pub fn layout_lines_are_read_back()
    ensures { (line : LayoutLine) → IsInRange line → layout_line_of (layout_line_text line) ≡ Some line }
{}

/// A law: each line that is read is in range, whatever its spelling.
pub fn layout_lines_are_in_range()
    ensures { (text : List ℕ) (line : LayoutLine) → layout_line_of text ≡ Some line → IsInRange line }
{}
